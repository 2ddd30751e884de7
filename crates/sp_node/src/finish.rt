//! How a node ends: what waits is written, the socket closes, and every link is given back.
ghost use Rattle.std.specs.Prelude.{◌≡◌, true, false};
ghost use Rattle.sp_node.specs.Nodes.{GoesOn, Leaves};
ghost use Rattle.sp_node.specs.Waits.{Flushes, EndsFlushed};

use crate::node::Node;
use sp_base::{Link, Net, Pace, Tick};
use sp_history::entry::Totals;
use sp_proto::Proto;
use sp_socket::{Record, SingleEnd};
use std::sync::Wait;

// The longest flush of `finish`, in milliseconds.
const LINGER: u64 = 2_000;

// The maximum number of turns of a flush at one tick.
const STILL: u32 = 10_000;

// The limit of a flush.
#[derive(Drop)]
struct Limit {
    most: u64,
    // The tick at which it ends; `None` before the clock was asked.
    until: Option<u64>,
    // The last tick.
    latest: u64,
    // The number of turns at that tick.
    still: u32,
}

impl Limit {
    // A limit of `most` milliseconds from the first tick on.
    fn new(most: u64) -> Limit {
        Limit {
            most,
            until: None,
            latest: 0,
            still: 0,
        }
    }

    // Returns whether the time is over at this tick, or the clock has stood still for too long.
    fn is_over(&mut self, now: Tick) -> bool {
        let until = match self.until {
            None => now.0.saturating_add(self.most),
            Some(until) => until,
        };
        self.until = Some(until);
        self.still = if self.latest == now.0 {
            self.still.saturating_add(1)
        } else {
            0
        };
        self.latest = now.0;
        now.0 >= until || self.still >= STILL
    }
}

/// What is left of a node (nng_close(3)).
#[derive(Drop)]
pub struct NodeEnd<N, C> {
    /// The net, which has all links back.
    pub net: N,
    /// The clock.
    pub pace: C,
    /// What the socket counted.
    pub totals: Totals,
    /// The history of the socket.
    pub record_: Record,
}

impl<N, C> NodeEnd<N, C> {
    /// Net and clock, as the node was opened with them.
    pub fn side(self) -> (N, C)
        ensures { result ≡ (self.net, self.pace) }
    {
        let NodeEnd {
            net,
            pace,
            totals: _,
            record_: _,
        } = self;
        (net, pace)
    }
}

impl<'r, R: Wait, P: Proto, L: Link, N: Net<L = L>, C: Pace> Node<'r, R, P, L, N, C> {
    /// Goes round until no pipe has something left to write, for at most `most` milliseconds from now on, and returns
    /// whether none has. It ends earlier where the clock has no turn left, or stands still for 10,000 turns. A pipe that
    /// goes down has nothing left, so a closed node has none. What no pipe has yet, as an operation that is pending, is
    /// not waited for.
    pub fn flush(&mut self, most: u64) -> bool
        ensures goes_on { GoesOn self.old self.new }
        ensures flushes { Flushes result self.old.single self.new.single }
    {
        let mut limit = Limit::new(most);
        'rounds: for _ in 0..u64::MAX {
            if self.is_flushed() {
                return true;
            }
            if !self.goes_round(&mut limit) {
                return false;
            }
        }
        self.is_flushed()
    }

    // Serves the pipes, and returns whether none has something left to write.
    fn is_flushed(&mut self) -> bool
        ensures goes_on { GoesOn self.old self.new }
        ensures flushes { Flushes result self.old.single self.new.single }
    {
        let served = self.serve();
        served.waiting == 0
    }

    // Takes a turn without its serve. Returns false, without a turn, where the time is over, the clock has no turn left,
    // or the node is closed.
    fn goes_round(&mut self, limit: &mut Limit) -> bool
        ensures goes_on { GoesOn self.old self.new }
        ensures same { result ≡ false → self.new ≡ self.old }
    {
        match self.clock() {
            None => false,
            Some(at) => {
                let now = self.later(at);
                if self.is_closed() || limit.is_over(now) {
                    return false;
                }
                self.tick_and_turn(now);
                true
            }
        }
    }

    /// Flushes the node for at most two seconds, closes it, where it isn't closed, and gives every link back. The net may
    /// still hold what peers haven't taken: `end_side` of `sp_real`, with the `side` of the result, waits for them.
    pub fn finish(self) -> NodeEnd<N, C>
        ensures left { Leaves self.entry.single (N.seen result.net) result.record_.turns }
        ensures flushed { EndsFlushed result.totals self.entry.single result.record_.turns }
    {
        let mut node = self;
        let _ = node.flush(LINGER);
        let totals = node.close();
        node.into_end(totals)
    }

    // Gives every link back.
    fn into_end(self, totals: Totals) -> NodeEnd<N, C>
        requires closed { self.closed ≡ true }
        ensures left { Leaves self.entry.single (N.seen result.net) result.record_.turns }
        ensures whole { result.record_.turns ≡ self.entry.single.seen }
        ensures totals { result.totals ≡ totals }
    {
        let Node {
            rt,
            single,
            ends,
            inproc: _,
            mut net,
            pace,
            latest: _,
            dry: _,
            closed: _,
            moved: _,
            sweeps: _,
        } = self;
        let SingleEnd { wires, record_ } = single.finish(rt);
        ends.give_all_back(rt, &mut net, wires);
        NodeEnd {
            net,
            pace,
            totals,
            record_,
        }
    }
}
