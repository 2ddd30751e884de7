//! The calls of a round in which nothing comes: each silent link once, each listener once, and each address once in 100
//! ticks.
ghost use Rattle.sp_fakes.specs.Nets.{net_view};

use crate::checks::{holds, made, same};
use crate::lines::{arrange, bare};
use cat_fakes::words;
use cat_run::{Status, run};
use sp_base::{Addr, Link, LinkRead, LinkWrite, Linked, Listened, Net};
use sp_fakes::{MemFiles, MemNet, MemPace, MemSink, NetLink};
use std::process::Abort;
use std::sync::Wait;
use std::thread::Threads;

/// A link in memory that counts its reads.
#[derive(Drop)]
struct CountedLink {
    link: NetLink,
    reads: u32,
}

impl Link for CountedLink {
    ghost seen = { λ l. ⟦<NetLink as Link>⟧.seen l.link };

    fn place(&self) -> u32 {
        self.link.place()
    }

    fn read(&mut self, buf: &mut [u8]) -> LinkRead {
        self.reads = self.reads.saturating_add(1);
        self.link.read(buf)
    }

    fn write(&mut self, buf: &[u8]) -> LinkWrite {
        self.link.write(buf)
    }

    fn shut(&mut self) {
        self.link.shut()
    }
}

/// A net in memory that counts its accepts, its dials, and the reads of the links that came back.
#[derive(Drop)]
struct CountedNet {
    net: MemNet,
    accepts: u32,
    dials: u32,
    reads: u32,
}

impl Net for CountedNet {
    type L = CountedLink;

    ghost seen = { λ n. net_view n.net };

    fn listen(&mut self, addr: &Addr) -> Listened {
        self.net.listen(addr)
    }

    fn accept(&mut self, at: u32) -> Linked<CountedLink> {
        self.accepts = self.accepts.saturating_add(1);
        match self.net.accept(at) {
            Linked::Got(link) => Linked::Got(CountedLink { link, reads: 0 }),
            Linked::NotYet => Linked::NotYet,
            Linked::Begun => Linked::Begun,
            Linked::Failed => Linked::Failed,
        }
    }

    fn dial(&mut self, addr: &Addr) -> Linked<CountedLink> {
        self.dials = self.dials.saturating_add(1);
        match self.net.dial(addr) {
            Linked::Got(link) => Linked::Got(CountedLink { link, reads: 0 }),
            Linked::NotYet => Linked::NotYet,
            Linked::Begun => Linked::Begun,
            Linked::Failed => Linked::Failed,
        }
    }

    fn give_back(&mut self, link: CountedLink) {
        let CountedLink { link, reads } = link;
        self.reads = self.reads.saturating_add(reads);
        self.net.give_back(link)
    }
}

/// Listens at two places.
const PULL: &[&str] = &[
    "--pull",
    "--listen",
    "tcp://127.0.0.1:5555",
    "--listen",
    "tcp://127.0.0.1:5556",
    "--raw",
];

/// Dials one address.
const DIALS: &[&str] = &["--pull", "--dial", "tcp://127.0.0.1:5555", "--count", "1"];

/// The number of times that a run called its net and read its links.
#[derive(Clone, Copy)]
struct CountedCalls {
    accepts: u32,
    dials: u32,
    reads: u32,
}

// The calls of a run of `turns` turns with these words, where three links come that greet and bring nothing.
fn calls_of<R: AllocGlobal + Wait + Threads + Sync + Abort>(
    rt: &R,
    texts: &[&str],
    turns: u64,
) -> CountedCalls {
    let alloc = rt.alloc();
    let mut outside = bare(rt, alloc);
    holds(rt, arrange(rt, alloc, &mut outside, "links 3 greets_push"));
    let lists = outside.incoming;
    let mut net = CountedNet {
        net: made(
            rt,
            MemNet::new(alloc, lists, Vec::new(alloc), Vec::new(alloc)),
        ),
        accepts: 0,
        dials: 0,
        reads: 0,
    };
    let mut files = MemFiles::new(alloc, Vec::new(alloc), Vec::new(alloc));
    let mut pace = MemPace::new(turns, 1);
    let mut out = MemSink::new(alloc, Vec::new(alloc));
    let list = made(rt, words(alloc, texts));
    let end = run(rt, &list, &mut net, &mut files, &mut pace, &mut out, 0);
    let is_over = end.status == Status::Over;
    CountedCalls {
        accepts: if is_over { net.accepts } else { 0 },
        dials: if is_over { net.dials } else { 0 },
        reads: if is_over { net.reads } else { 0 },
    }
}

// A hundred rounds more in which nothing comes cost a hundred accepts of each listener and a hundred reads of each
// link. An address that doesn't answer is dialed at the first tick, and again 100 ticks later.
#[test]
fn a_round_in_which_nothing_comes_is_cheap(rt: HostRuntime) {
    let once = calls_of(&rt, PULL, 100);
    let twice = calls_of(&rt, PULL, 200);
    same(&rt, twice.accepts.saturating_sub(once.accepts), 200);
    same(&rt, twice.reads.saturating_sub(once.reads), 300);
    same(&rt, twice.dials, 0);
    same(&rt, calls_of(&rt, DIALS, 100).dials, 1);
    same(&rt, calls_of(&rt, DIALS, 101).dials, 2);
    same(&rt, calls_of(&rt, DIALS, 200).dials, 2);
}
