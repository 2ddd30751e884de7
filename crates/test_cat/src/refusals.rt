//! Runs that fail: wrong words, a listen or an output that fails, a pace that is over; and the text of each status.
ghost use Rattle.sp_fakes.specs.Nets.{net_view};

use crate::checks::{holds, made, same};
use crate::lines::runs;
use cat_fakes::{PULL, TURNS, words};
use cat_run::{Status, complaint, run};
use sp_base::{Addr, Bytes, Host, Link, Linked, Listened, Net};
use sp_fakes::{MemFiles, MemNet, MemPace, MemSink, NetLink};
use std::alloc::Global;
use std::process::Abort;

#[test]
fn words_without_a_plan_are_refused_at_their_place(rt: HostRuntime) {
    runs(
        &rt,
        "words
        comes usage:0
        record no
        left 200
        words --help
        comes usage:0
        record no
        left 200
        words --pull
        comes usage:1
        record no
        left 200
        words --pull --listen tcp://256.0.0.1:1
        comes usage:2
        record no
        left 200
        words --pull --listen tcp://127.0.0.1:5555 --count 01
        comes usage:4
        record no
        left 200
        words --pull --listen tcp://127.0.0.1:5555 --data x
        comes usage:3
        record no
        left 200
        words --pull --listen tcp://127.0.0.1:5555 --count 1 y
        comes usage:5
        record no
        left 200
        words --push --listen tcp://127.0.0.1:5555
        comes usage:3
        record no
        left 200
        words --push --listen tcp://127.0.0.1:5555 --data
        comes usage:4
        record no
        left 200",
    );
}

// The first listen fails, and the second of two.
#[test]
fn a_failing_listen_ends_the_run(rt: HostRuntime) {
    runs(
        &rt,
        "words --pull --listen tcp://127.0.0.1:5555 --ascii --count 1
        link greets_push 0000000000000005'hello
        net_fails 0
        comes net_fault
        exit 4
        record yes
        left 200
        opened 0
        words --pull --listen tcp://127.0.0.1:5555 --listen tcp://127.0.0.1:5556 --count 1
        link greets_push 0000000000000005'hello
        net_fails 1
        comes net_fault
        exit 4
        record yes
        left 200
        opened 0",
    );
}

#[test]
fn a_failing_output_ends_the_run(rt: HostRuntime) {
    runs(
        &rt,
        "words --pull --listen tcp://127.0.0.1:5555 --ascii --count 1
        link greets_push 0000000000000005'hello
        sink_fails 0
        comes out_fault
        exit 5",
    );
}

// Each message is one put: where the second put fails, only the first text is printed. A message with an empty text is
// no put.
#[test]
fn a_message_is_one_put(rt: HostRuntime) {
    runs(
        &rt,
        "words --pull --listen tcp://127.0.0.1:5555 --ascii --count 2
        link greets_push 0000000000000002'ab 0000000000000002'cd
        sink_fails 2
        comes done
        prints 'ab 0a'cd 0a'
        words --pull --listen tcp://127.0.0.1:5555 --ascii --count 2
        link greets_push 0000000000000002'ab 0000000000000002'cd
        sink_fails 1
        comes out_fault
        prints 'ab 0a'
        words --pull --listen tcp://127.0.0.1:5555 --raw --count 2
        link greets_push 0000000000000002'ab 0000000000000002'cd
        sink_fails 2
        comes done
        prints 'abcd
        words --pull --listen tcp://127.0.0.1:5555 --raw --count 2
        link greets_push 0000000000000002'ab 0000000000000002'cd
        sink_fails 1
        comes out_fault
        prints 'ab
        words --pull --listen tcp://127.0.0.1:5555 --raw --count 2
        link greets_push 0000000000000000' 0000000000000002'ab
        sink_fails 1
        comes done
        prints 'ab
        words --pull --listen tcp://127.0.0.1:5555 --raw --count 2
        link greets_push 0000000000000000' 0000000000000002'ab
        sink_fails 0
        comes out_fault
        prints '
        words --pull --listen tcp://127.0.0.1:5555 --raw --count 2
        link greets_push 0000000000000000' 0000000000000000'
        sink_fails 0
        comes done
        prints '",
    );
}

// Where the output fails, the run takes no more rounds and begins nothing: the next message, 50 rounds later, is not
// waited for; a req sends no second request, and a rep no reply.
#[test]
fn nothing_follows_an_output_that_failed(rt: HostRuntime) {
    runs(
        &rt,
        "words --pull --listen tcp://127.0.0.1:5555 --raw
        link greets_push 0000000000000001'a wait:50 0000000000000001'b
        pace 100 1
        sink_fails 0
        comes out_fault
        above 90
        prints '
        link greets_push 0000000000000001'a wait:50 0000000000000001'b
        pace 100 1
        sink_fails 1
        comes out_fault
        above 40
        below 60
        prints 'a
        link greets_push 0000000000000001'a wait:50 0000000000000001'b
        pace 100 1
        comes over
        left 0
        prints 'ab
        words --req --listen tcp://127.0.0.1:5555 --data ping --raw --count 2
        link greets_rep after:24 000000000000000580000000'a after:40 000000000000000580000001'b
        sink_fails 0
        comes out_fault
        writes greets_req 000000000000000880000000'ping
        prints '
        words --rep --listen tcp://127.0.0.1:5555 --data pong --raw
        link greets_req 000000000000000880000000'ping
        sink_fails 0
        comes out_fault
        writes greets_rep
        prints '",
    );
}

#[test]
fn a_pace_of_nothing_is_over(rt: HostRuntime) {
    runs(
        &rt,
        "words --pull --listen tcp://127.0.0.1:5555 --ascii --count 1
        link greets_push 0000000000000005'hello
        pace 0 1
        comes over
        exit 3
        record yes
        opened 0",
    );
}

// Returns whether this is the text of a status, after an x.
fn is_said(rt: &impl Abort, alloc: Global, status: Status, wanted: &[u8]) -> bool {
    let mut line = made(rt, Bytes::from_slice(alloc, b"x"));
    made(rt, complaint(alloc, status, &mut line));
    line.as_slice() == wanted
}

#[test]
fn complaints(rt: HostRuntime) {
    let alloc = rt.alloc();
    holds(&rt, is_said(&rt, alloc, Status::Done, b"x"));
    let zero = Status::Usage { at: 0 };
    holds(&rt, is_said(&rt, alloc, zero, b"xnngcat: bad word 0\n"));
    let two = Status::Usage { at: 2 };
    holds(&rt, is_said(&rt, alloc, two, b"xnngcat: bad word 2\n"));
    let late = Status::SendTimedOut;
    holds(&rt, is_said(&rt, alloc, late, b"xnngcat: send timed out\n"));
    holds(
        &rt,
        is_said(&rt, alloc, Status::Over, b"xnngcat: stopped\n"),
    );
    let net = Status::NetFault;
    holds(&rt, is_said(&rt, alloc, net, b"xnngcat: network fault\n"));
    let out = Status::OutFault;
    holds(&rt, is_said(&rt, alloc, out, b"xnngcat: output fault\n"));
    let file = Status::FileFault;
    holds(&rt, is_said(&rt, alloc, file, b"xnngcat: file fault\n"));
    let full = Status::NoMemory;
    holds(&rt, is_said(&rt, alloc, full, b"xnngcat: out of memory\n"));
}

/// A net in memory that remembers where it was asked to listen.
#[derive(Drop)]
struct RememberingNet {
    net: MemNet,
    host: Host,
    port: u16,
}

impl Net for RememberingNet {
    type L = NetLink;

    ghost seen = { λ n. net_view n.net };

    fn listen(&mut self, addr: &Addr) -> Listened {
        if let Addr::Tcp { host, port } = addr {
            self.host = *host;
            self.port = *port;
        }
        self.net.listen(addr)
    }

    fn accept(&mut self, at: u32) -> Linked<NetLink> {
        self.net.accept(at)
    }

    fn dial(&mut self, addr: &Addr) -> Linked<NetLink> {
        self.net.dial(addr)
    }

    fn give_back(&mut self, link: NetLink) {
        self.net.give_back(link)
    }
}

#[test]
fn it_listens_at_the_address_of_the_words(rt: HostRuntime) {
    let alloc = rt.alloc();
    let list = made(&rt, words(alloc, PULL));
    let mut net = RememberingNet {
        net: made(
            &rt,
            MemNet::new(alloc, Vec::new(alloc), Vec::new(alloc), Vec::new(alloc)),
        ),
        host: Host::Any,
        port: 0,
    };
    let mut files = MemFiles::new(alloc, Vec::new(alloc), Vec::new(alloc));
    let mut pace = MemPace::new(TURNS, 1);
    let mut out = MemSink::new(alloc, Vec::new(alloc));
    let end = run(&rt, &list, &mut net, &mut files, &mut pace, &mut out, 0);
    same(&rt, end.status, Status::Over);
    same(&rt, net.host, Host::V4(127, 0, 0, 1));
    same(&rt, net.port, 5555);
}
