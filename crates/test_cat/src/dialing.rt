//! At which ticks an address is dialed whose connection takes some time.
ghost use Rattle.std.specs.Prelude.{◌≡◌};
ghost use Rattle.sp_fakes.specs.Nets.{net_view};

use crate::checks::{made, same};
use crate::lines::link;
use cat_fakes::words;
use cat_run::{Status, run};
use sp_base::{Addr, Host, Linked, Listened, Net};
use sp_fakes::{MemFiles, MemNet, MemPace, MemSink, NetLink};
use std::process::Abort;
use std::sync::Wait;
use std::thread::Threads;

/// A net in memory whose first dials only begin a connection. It keeps the number of accepts before each dial, one of
/// which falls in each tick.
#[derive(Drop)]
pub struct BegunNet {
    pub net: MemNet,
    /// How many more dials begin a connection.
    pub begins: u32,
    /// The number of accepts and dials that gave nothing yet.
    pub idles: u64,
    /// How often it was asked to accept.
    pub accepts: u32,
    /// The number of dials, and the number of accepts before each of the first eight.
    pub dials: usize,
    pub ticks: [u32; 8],
}

impl BegunNet {
    // Notes a dial.
    fn note(&mut self)
        ensures { (self.new.net ≡ self.old.net) × (self.new.idles ≡ self.old.idles) × (self.new.begins ≡ self.old.begins) }
    {
        if self.dials < 8 {
            self.ticks[self.dials] = self.accepts;
        }
        self.dials = self.dials.saturating_add(1);
    }
}

impl Net for BegunNet {
    type L = NetLink;

    ghost seen = { λ n. record (net_view n.net) { idles = n.idles } };

    fn listen(&mut self, addr: &Addr) -> Listened {
        self.net.listen(addr)
    }

    fn accept(&mut self, at: u32) -> Linked<NetLink> {
        self.accepts = self.accepts.saturating_add(1);
        match self.net.accept(at) {
            Linked::Got(link) => Linked::Got(link),
            Linked::NotYet => {
                self.idles = self.idles.saturating_add(1);
                Linked::NotYet
            }
            Linked::Begun => Linked::Begun,
            Linked::Failed => Linked::Failed,
        }
    }

    fn dial(&mut self, addr: &Addr) -> Linked<NetLink> {
        self.note();
        if self.begins > 0 {
            self.begins -= 1;
            self.idles = self.idles.saturating_add(1);
            return Linked::Begun;
        }
        match self.net.dial(addr) {
            Linked::Got(link) => Linked::Got(link),
            Linked::NotYet => {
                self.idles = self.idles.saturating_add(1);
                Linked::NotYet
            }
            Linked::Begun => {
                self.idles = self.idles.saturating_add(1);
                Linked::Begun
            }
            Linked::Failed => Linked::Failed,
        }
    }

    fn give_back(&mut self, link: NetLink) {
        self.net.give_back(link)
    }
}

/// Dials one address, and listens at another, where no link comes.
const PULL: &[&str] = &[
    "--pull",
    "--dial",
    "tcp://127.0.0.1:5555",
    "--listen",
    "tcp://127.0.0.1:5556",
    "--raw",
];

// The ticks of the first eight dials of a run of 250 milliseconds, where `begins` dials only begin a connection, the
// next one gets it, and after its end no dial gets a link.
fn dial_ticks<R: AllocGlobal + Wait + Threads + Sync + Abort>(
    rt: &R,
    begins: u32,
) -> ([u32; 8], usize) {
    let alloc = rt.alloc();
    let mut links = Vec::new(alloc);
    if let Some(link) = link(rt, alloc, "greets_push 0000000000000001'x end") {
        made(rt, links.push(link));
    }
    let addr = Addr::Tcp {
        host: Host::V4(127, 0, 0, 1),
        port: 5555,
    };
    let mut outgoing = Vec::new(alloc);
    made(rt, outgoing.push((addr, links)));
    let mut incoming = Vec::new(alloc);
    made(rt, incoming.push(Vec::new(alloc)));
    let mut net = BegunNet {
        net: made(rt, MemNet::new(alloc, incoming, outgoing, Vec::new(alloc))),
        begins,
        idles: 0,
        accepts: 0,
        dials: 0,
        ticks: [0; 8],
    };
    let mut files = MemFiles::new(alloc, Vec::new(alloc), Vec::new(alloc));
    let mut pace = MemPace::new(250, 1);
    let mut out = MemSink::new(alloc, Vec::new(alloc));
    let list = made(rt, words(alloc, PULL));
    let end = run(rt, &list, &mut net, &mut files, &mut pace, &mut out, 0);
    same(rt, end.status, Status::Over);
    (net.ticks, net.dials)
}

// A connection that has begun is asked for at each tick. It is made at the fourth, and its link ends in that round and
// is back in the next one. The dial 100 ticks later gets no link, and is tried again after 100 more. Each tick has one
// accept before its dials. Without a wait for the connection all of this comes three ticks earlier.
#[test]
fn a_connection_under_way_is_asked_for_at_each_tick(rt: HostRuntime) {
    let (ticks, dials) = dial_ticks(&rt, 3);
    same(&rt, dials, 6);
    same(&rt, ticks, [1, 2, 3, 4, 105, 205, 0, 0]);
    let (ticks, dials) = dial_ticks(&rt, 0);
    same(&rt, dials, 3);
    same(&rt, ticks, [1, 102, 202, 0, 0, 0, 0, 0]);
}
