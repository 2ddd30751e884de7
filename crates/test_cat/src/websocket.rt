//! Runs over WebSocket, byte for byte.
ghost use Rattle.std.specs.Prelude.{◌≡◌, true};

use crate::checks::{holds, made, same};
use crate::lines::{arrange, bare, bytes_of, is_so, is_status, play_words, runs};
use cat_fakes::{ALL, link_of, over_one};
use sp_base::Bytes;
use sp_fakes::MemLink;
use sp_msg::{Message, Room, Wire, WireIn};
use sp_ws::{Side, WsWire};
use std::alloc::Global;
use std::process::Abort;
use std::sync::Wait;

const REP: &[&str] = &[
    "--rep",
    "--listen",
    "ws://127.0.0.1:5555/",
    "--data",
    "OK",
    "--ascii",
    "--count",
    "1",
];

// The bytes of the words.
fn text(rt: &impl Abort, alloc: Global, words: &str) -> Bytes {
    match bytes_of(rt, alloc, words) {
        Some(bytes) => bytes,
        None => panic!(rt; "no bytes: {words}"),
    }
}

// The pieces come as they are, one byte at a time, and with the request in the piece that ends the head.
#[test]
fn a_rep_answers_over_websocket(rt: HostRuntime) {
    runs(
        &rt,
        "words --rep --listen ws://127.0.0.1:5555/ --data OK --ascii --count 1
        link asks_rep 82850000000080000005'q
        comes done
        prints 'q 0a'
        writes rep_answers 820680000005'OK
        link single asks_rep 82850000000080000005'q
        comes done
        prints 'q 0a'
        writes rep_answers 820680000005'OK
        link asks_rep+82850000000080000005'q
        comes done
        prints 'q 0a'
        writes rep_answers 820680000005'OK",
    );
}

// A wire of a client over a link that gives these pieces.
fn client(rt: &impl Abort, alloc: Global, pieces: &[&[u8]]) -> WsWire<MemLink>
    ensures { result.wire.is_open ≡ true }
{
    let link = made(rt, link_of(alloc, pieces, false, ALL));
    match WsWire::new(alloc, link, Side::Client { seed: 7 }, &[], 1_048_576) {
        Ok(wire) => wire,
        Err(_) => panic!(rt; "no memory for a wire"),
    }
}

// What a client writes that sends the request.
fn asked<R: Wait + Abort>(alloc: Global, rt: &R) -> Vec<u8> {
    let mut wire = client(rt, alloc, &[]);
    if let Room::Yes = wire.room(rt) {
        let mut m = made(rt, Message::from_body(alloc, b"q"));
        let _ = m.header_append_u32(0x8000_0005);
        wire.put(rt, m);
        let _ = wire.flush(rt);
    }
    let link = wire.into_link();
    made(rt, Vec::from_slice(alloc, link.written()))
}

// Returns whether a client pulls this message of these bytes.
fn pulls<R: Wait + Abort>(alloc: Global, rt: &R, bytes: &[u8], wanted: &[u8]) -> bool {
    let mut wire = client(rt, alloc, &[bytes]);
    match wire.pull(rt) {
        WireIn::Message(m) => m.body() == wanted,
        _ => false,
    }
}

// The request comes from a wire of this project, and the reply goes to one.
#[test]
fn a_rep_answers_a_wire_of_a_client(rt: HostRuntime) {
    let asks = asked(rt.alloc(), &rt);
    same(&rt, asks.len(), 11);
    let alloc = rt.alloc();
    let head = text(&rt, alloc, "asks_rep");
    let link = made(&rt, link_of(alloc, &[head.as_slice(), &asks], false, ALL));
    let came = made(&rt, over_one(&rt, REP, link));
    holds(&rt, is_status(came.status, "done"));
    holds(&rt, is_so(&rt, alloc, &came, "prints 'q 0a'"));
    let answer = text(&rt, alloc, "rep_answers");
    let (head, frames) = came
        .written
        .as_slice()
        .split_at(answer.as_slice().len().min(came.written.len()));
    holds(&rt, head == answer.as_slice());
    holds(&rt, pulls(rt.alloc(), &rt, frames, b"\x80\x00\x00\x05OK"));
}

// A message after it isn't read.
#[test]
fn a_text_message_closes_its_pipe(rt: HostRuntime) {
    runs(
        &rt,
        "words --rep --listen ws://127.0.0.1:5555/ --data OK --ascii --count 1
        link asks_rep 818100000000'q
        comes over
        prints '
        writes rep_answers
        link asks_rep 818100000000'q 82850000000080000005'q
        comes over
        prints '
        writes rep_answers",
    );
}

// A turn is 100 milliseconds. When a head comes after ten seconds, the link is gone.
#[test]
fn a_late_head_is_not_answered(rt: HostRuntime) {
    runs(
        &rt,
        "words --rep --listen ws://127.0.0.1:5555/ --data OK --ascii --count 1
        link wait:80 asks_rep 82850000000080000005'q
        pace 200 100
        comes done
        writes rep_answers 820680000005'OK
        link wait:120 asks_rep 82850000000080000005'q
        pace 200 100
        comes over
        prints '
        writes '",
    );
}

// A head for another path, a head that ends half way, and one that never comes.
#[test]
fn a_bad_head_is_not_answered(rt: HostRuntime) {
    runs(
        &rt,
        "words --rep --listen ws://127.0.0.1:5555/ --data OK --ascii --count 1
        link asks_rep_at_b 82850000000080000005'q
        comes over
        opened 1
        prints '
        writes '
        link asks_half end
        comes over
        writes '
        link
        pace 200 100
        comes over
        opened 1
        writes '",
    );
}

// The eight bytes of a masked binary message; `None` where it is another frame.
fn payload(rt: &impl Abort, alloc: Global, frame: &[u8]) -> Vec<u8> {
    let mut text = Vec::new(alloc);
    if frame.len() != 14 || frame[0] != 0x82 || frame[1] != 0x88 {
        return text;
    }
    for i in 0..4 {
        made(rt, text.push(frame[6 + i] ^ frame[2 + i]));
    }
    for i in 0..4 {
        made(rt, text.push(frame[10 + i] ^ frame[2 + i]));
    }
    text
}

#[test]
fn a_req_dials_over_websocket(rt: HostRuntime) {
    let alloc = rt.alloc();
    let mut outside = bare(&rt, alloc);
    holds(&rt, arrange(&rt, alloc, &mut outside, "dials 5555 /"));
    let script = "link after:197 grants_req after:211 820880000000'pong";
    holds(&rt, arrange(&rt, alloc, &mut outside, script));
    let words = "--req --dial ws://127.0.0.1:5555/ --data ping --ascii --count 1";
    let came = play_words(&rt, words, outside);
    holds(&rt, is_status(came.status, "done"));
    holds(&rt, is_so(&rt, alloc, &came, "prints 'pong 0a'"));
    same(&rt, came.written.len(), 211);
    let asks = text(&rt, alloc, "req_asks");
    let (head, frame) = came
        .written
        .as_slice()
        .split_at(asks.as_slice().len().min(came.written.len()));
    holds(&rt, head == asks.as_slice());
    let asked = payload(&rt, alloc, frame);
    same(&rt, asked.as_slice(), b"\x80\x00\x00\x00ping".as_slice());
}

// The first link ends at once, and a second one is dialed. It is silent.
#[test]
fn each_opening_has_its_own_key(rt: HostRuntime) {
    runs(
        &rt,
        "words --pull --dial ws://127.0.0.1:5555/ --count 1
        dials 5555 /
        link end
        link
        comes over
        opened 2
        writes first_key
        second second_key",
    );
}

// The first link ends when it has been up.
#[test]
fn a_link_that_came_up_has_spent_its_key(rt: HostRuntime) {
    runs(
        &rt,
        "words --pull --dial ws://127.0.0.1:5555/ --count 1
        dials 5555 /
        link after:198 grants_pull wait:1 end
        link
        comes over
        opened 2
        writes first_key
        second second_key",
    );
}

// The first dial fails, or its address has no link: the link that comes is asked with the first key.
#[test]
fn a_dial_that_gets_no_link_spends_no_key(rt: HostRuntime) {
    runs(
        &rt,
        "words --pull --dial ws://127.0.0.1:5555/ --count 1
        dials 5555 /
        link
        net_fails 0
        comes over
        opened 1
        writes first_key
        words --pull --dial ws://127.0.0.1:5555/ --dial ws://127.0.0.1:5556/b --count 1
        dials 5556 /b
        link
        comes over
        opened 1
        writes first_key_at_b",
    );
}

// A ping is answered also by a socket that sends nothing else.
#[test]
fn a_pull_answers_a_ping(rt: HostRuntime) {
    runs(
        &rt,
        "words --pull --listen ws://127.0.0.1:5555/ --count 1
        link asks_pull 898100000000'p
        comes over
        tail 8a01'p",
    );
}

#[test]
fn each_listener_serves_its_own_path(rt: HostRuntime) {
    runs(
        &rt,
        "words --rep --listen ws://127.0.0.1:5555/a --listen ws://127.0.0.1:5556/b --data OK --ascii --count 2
        link asks_rep_at_a 82850000000080000005'q
        listener
        link asks_rep_at_b 82850000000080000005'q
        comes done
        opened 2
        prints 'q 0a'q 0a'
        writes rep_answers 820680000005'OK
        second rep_answers 820680000005'OK",
    );
}

// Each link asks for the path of the other listener.
#[test]
fn a_path_of_another_listener_is_not_answered(rt: HostRuntime) {
    runs(
        &rt,
        "words --rep --listen ws://127.0.0.1:5555/a --listen ws://127.0.0.1:5556/b --data OK --ascii --count 2
        link asks_rep_at_b 82850000000080000005'q
        listener
        link asks_rep_at_a 82850000000080000005'q
        comes over
        opened 2
        prints '
        writes '
        second '",
    );
}

#[test]
fn each_dial_asks_for_its_own_address(rt: HostRuntime) {
    runs(
        &rt,
        "words --pull --dial ws://127.0.0.1:5555/a --dial ws://127.0.0.1:5556/b --count 1
        dials 5555 /a
        link
        dials 5556 /b
        link
        comes over
        opened 2
        writes first_key_at_a
        second second_key_at_b",
    );
}

// The same request comes over both, and each reply is framed for its transport.
#[test]
fn tcp_and_websocket_are_served_in_one_run(rt: HostRuntime) {
    runs(
        &rt,
        "words --rep --listen tcp://127.0.0.1:5555 --listen ws://127.0.0.1:5556/ --data OK --ascii --count 2
        link greets_req 000000000000000580000005'q
        listener
        link asks_rep 82850000000080000005'q
        comes done
        opened 2
        prints 'q 0a'q 0a'
        writes greets_rep 000000000000000680000005'OK
        second rep_answers 820680000005'OK",
    );
}

// All ends of a run have its limit: a message of four bytes is printed, and one of five ends its pipe alone.
#[test]
fn tcp_ipc_and_websocket_have_one_limit(rt: HostRuntime) {
    runs(
        &rt,
        "words --pull --listen tcp://127.0.0.1:5555 --listen ws://127.0.0.1:5556/ --raw --count 2 --recv-max 4
        link greets_push 0000000000000004'abcd
        listener
        link asks_pull 828400000000'efgh
        comes done
        opened 2
        prints 'abcdefgh
        link greets_push 0000000000000005'abcde
        listener
        link asks_pull 828400000000'efgh
        comes over
        opened 2
        prints 'efgh
        link greets_push 0000000000000004'abcd
        listener
        link asks_pull 828500000000'efghi
        comes over
        opened 2
        prints 'abcd
        words --pull --listen ipc:///tmp/a --raw --recv-max 4
        link greets_push 010000000000000004'abcd 010000000000000005'abcde
        comes over
        prints 'abcd
        words --pull --dial ws://127.0.0.1:5555/ --raw --recv-max 4
        dials 5555 /
        link after:198 grants_pull 8204'abcd 8205'abcde
        comes over
        prints 'abcd",
    );
}
