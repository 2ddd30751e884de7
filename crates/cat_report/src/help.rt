//! What `--help` and `--version` print.
use crate::complaints::{Ending, say};
use cat_play::status::Status;
use sp_real::Reason;
use std::alloc::Global;

/// The text for `--help` as the only word.
pub const HELP: &str = "\
Usage: nngcat ROLE ENDPOINT.. [OPTION]..
Sends or receives messages over a scalability protocol; prints what it receives.
A value is the next word, or behind =, as in --count=3. Options in any order.

Roles (exactly one; each but pair1 also with 0 at its end):
  --push  sends to one peer each        --pull  receives from all peers
  --pub   sends to all subscribers      --sub   takes what begins with a topic
  --req   sends data, prints its reply  --rep   prints requests, sends data back
  --pair  one peer: sends data, or receives where it has none
  --pair1 the same in version 1 of the protocol, for peers of that version
  --bus   all peers: sends data, or receives where it has none
  --respondent  prints surveys, answers with data
  --surveyor    sends data to all, prints what is answered within a second

Endpoints (1 to 64 in all):
  --listen ADDRESS        accept connections at ADDRESS
  --dial ADDRESS          connect to ADDRESS, again 100 ms after failure or end
  ADDRESS is tcp://HOST:PORT or ws://HOST:PORT/PATH. HOST is *, localhost, or
  four numbers with dots; PORT is 0 to 65535. --dial takes neither * nor port 0.
  Or ipc://PATH, on this machine: PATH is 1 to 100 visible characters. --listen
  makes this file, which must not be there before, and leaves it at the end.
  Or inproc://NAME, for this command alone: NAME is 1 to 128 visible characters.

Data (push, pub, req and surveyor need one of the two, pull and sub take none):
  --data TEXT             send TEXT
  --file NAME             send what the file NAME holds; - is standard input

What is taken:
  --subscribe TEXT        by a sub: messages that begin with TEXT, of at most
                          1,024 bytes; up to 64 times. Without it all
  --recv-max BYTES        the longest message, 0 to 2,147,483,647; 0 is the same
                          as 2,147,483,647. A longer one ends its connection.
                          Default: 1,048,576. No limit within the command

How it is printed (one format at most; without one nothing is printed):
  --raw                   the bytes as they are
  --ascii                 a line each; a byte that is not visible is a dot
  --quoted                a line each, in quotes, with escapes as in C
  --hex                   a line each, in quotes, each byte as \\x and two digits
  --msgpack               each as binary data of MessagePack

How often and how long:
  --count N               end after N messages (0 to 4,294,967,295; 0 is no
                          bound). Default: 1 for what sends first and has no
                          --interval, else no bound
  --interval SECONDS      send again each so many seconds, 0 to 86,400.
                          Default: at once
  --recv-timeout SECONDS  end with status 0 where nothing comes for so long,
                          0 to 86,400. Default: never
  --send-timeout SECONDS  end with status 2 where nothing can be sent for so
                          long, 0 to 86,400, once all is written, or no peer
                          took more of it for as long again. Default: never

Alone:
  --drill N               tests N messages, 1 to 1,000,000, with four threads
  --help, --version       print this text, or the version

Status: 0 done, 1 wrong words, 2 send timed out, 3 stopped, 4 network fault,
5 output fault, 6 file fault, 7 out of memory. Standard error has the reason.

Examples:
  nngcat --pull --listen tcp://127.0.0.1:5555 --ascii
  nngcat --push --dial tcp://127.0.0.1:5555 --data hello
  nngcat --rep --listen tcp://*:5557 --ascii --data pong --recv-timeout 60
  nngcat --req --dial tcp://127.0.0.1:5557 --data ping --ascii
  nngcat --pub --listen ws://*:5558/news --data news --interval 1
  nngcat --sub --dial ws://127.0.0.1:5558/news --subscribe ne --ascii
";

/// The text for `--version` as the only word.
pub const VERSION: &str = "nngcat (Goshwelib) 0.1.0, with the behaviour of NNG 1.x\n";

/// The text to print where the words are a single word that asks for one, and there is nothing to run.
pub fn asked_text(words: &[String]) -> Option<&'static str> {
    if words.len() != 1 {
        return None;
    }
    match words[0].as_str() {
        "--help" => Some(HELP),
        "--version" => Some(VERSION),
        _ => None,
    }
}

/// Prints a text. Returns `OutFault` where the output failed; then a line on standard error says so, and one says why.
pub fn print_text<O: Print, E: Print>(out: &O, err: &E, alloc: Global, text: &str) -> Status {
    match out.write_all(text.as_bytes()) {
        Ok(()) => Status::Done,
        Err(e) => {
            say_out_fault(err, alloc, Reason::of(e));
            Status::OutFault
        }
    }
}

// Says that the output failed, and why.
fn say_out_fault<E: Print>(err: &E, alloc: Global, reason: Reason) {
    let text = format!(in alloc; "{reason}").ok();
    let reason = match &text {
        Some(text) => Some(text.as_str()),
        None => None,
    };
    let status = Status::OutFault;
    say(err, alloc, &[], Ending { status, reason });
}
