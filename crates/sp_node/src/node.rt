//! What a node is, and its turn.
ghost use Rattle.std.specs.Prelude.{◌≡◌, ◌≤◌, ◌==◌, true, false};
ghost use Rattle.sp_core.specs.Closing.{ClosedBy};
ghost use Rattle.sp_socket.specs.Singles.{TookOne};
ghost use Rattle.sp_node.specs.Nodes.{GoesOn, TicksFirst, TicksOrCloses};
ghost use Rattle.sp_node.specs.Waits.{Flushes, ServesOrCloses};

use sp_base::{Link, Net, Pace, Paced, Tick};
use sp_ends::Ends;
use sp_history::entry::Totals;
use sp_lane::Inproc;
use sp_links::EndWire;
use sp_proto::Proto;
use sp_socket::{Served, Single};
use std::marker::Model;
use std::sync::Wait;

// How often the pipes are served between two turns of the clock at most, while messages move.
const SWEEPS: u32 = 64;

/// A socket with its net, its clock and its ends (nng_socket(5)). It must be spent: `finish` ends it.
pub struct Node<'r, R, P: Proto, L: Link, N: Net<L = L>, C: Pace> {
    pub(crate) rt: &'r R,
    pub(crate) single: Single<P, EndWire<L>>,
    pub(crate) ends: Ends<L>,
    pub(crate) inproc: Inproc,
    pub(crate) net: N,
    pub(crate) pace: C,
    // The last tick.
    pub(crate) latest: Tick,
    // Whether a link was given back when out of memory.
    pub(crate) dry: bool,
    // Whether the socket is closed.
    pub(crate) closed: bool,
    // Whether messages moved when the pipes were served last.
    pub(crate) moved: bool,
    // How often the pipes were served since the last turn of the clock.
    pub(crate) sweeps: u32,
}

impl<'r, R, P: Proto, L: Link, N: Net<L = L>, C: Pace> Model for Node<'r, R, P, L, N, C> {
    ghost use Rattle.std.specs.Prelude.{◌≡◌};
    ghost use Rattle.sp_ends.specs.EndViews.{Beginning};
    ghost use Rattle.sp_node.specs.Nodes.{NodeView, NodeStands};

    ghost Value = { NodeView L };

    ghost view = { λ n. record { single = n.single; ends = n.ends; latest = n.latest; dry = n.dry; closed = n.closed } };

    ghost invariant = { λ n. (start : Beginning) × NodeStands L.seen start n.single n.ends.links (N.seen n.net) n.latest n.dry n.closed };
}

impl<R: Wait, P: Proto, L: Link, N: Net<L = L>, C: Pace> Node<'_, R, P, L, N, C> {
    /// One turn: asks the clock, which may rest where nothing moved, lets the ends have theirs, and serves the pipes.
    /// Where the clock has no turn left the node closes.
    pub fn turn(&mut self)
        ensures goes_on { GoesOn self.old self.new }
        ensures ticks { TicksOrCloses self.old self.new }
        ensures serves { ServesOrCloses self.old self.new }
    {
        match self.clock() {
            None => {
                let _ = self.close();
            }
            Some(at) => self.turn_at(at),
        }
    }

    /// Serves the pipes while messages move, and else has a turn. For whoever waits for something without `recv` or
    /// `send`.
    pub fn go(&mut self)
        ensures goes_on { GoesOn self.old self.new }
        ensures serves { ServesOrCloses self.old self.new }
    {
        if self.may_serve() {
            let _ = self.serve();
        } else {
            self.turn();
        }
    }

    /// Closes the socket (nng_close(3)): every operation ends, and each pipe is flushed once and goes down. A second
    /// close returns the same and does nothing.
    pub fn close(&mut self) -> Totals
        ensures goes_on { GoesOn self.old self.new }
        ensures closed { self.new.closed ≡ true }
        ensures turn { TookOne (λ z h t. ClosedBy result z.callers h t) self.old.single self.new.single }
    {
        let totals = self.single.close(self.rt);
        self.closed = true;
        totals
    }

    // Asks the clock; none where it has no turn left.
    pub(crate) fn clock(&mut self) -> Option<Tick>
        ensures same { self.new ≡ self.old }
    {
        match self.pace.turn(self.moved) {
            Paced::Over => None,
            Paced::At(at) => Some(at),
        }
    }

    // Whether the pipes are to be served before the clock is asked, and counts that.
    fn may_serve(&mut self) -> bool
        ensures same { self.new ≡ self.old }
    {
        let more = self.moved && self.sweeps < SWEEPS;
        self.sweeps = if more { self.sweeps + 1 } else { 0 };
        more
    }

    // The turn, at this tick or at the last, where that is later.
    fn turn_at(&mut self, at: Tick)
        ensures goes_on { GoesOn self.old self.new }
        ensures ticks { TicksOrCloses self.old self.new }
        ensures serves { ServesOrCloses self.old self.new }
    {
        if !self.is_closed() {
            let now = self.later(at);
            self.tick_and_turn(now);
            let _ = self.serve();
        }
    }

    /// Whether it is closed: by `close`, or since the clock has no turn left.
    pub fn is_closed(&self) -> bool
        ensures { result ≡ self.now.closed }
    {
        self.closed
    }

    // The later of this tick and the last.
    pub(crate) fn later(&self, at: Tick) -> Tick
        ensures { self.now.latest ≤ result }
    {
        if self.latest.0 < at.0 {
            at
        } else {
            self.latest
        }
    }

    /// Whether a link was given back when out of memory. The others go on.
    pub fn is_dry(&self) -> bool
        ensures { result ≡ self.now.dry }
    {
        self.dry
    }

    // The tick, and a turn of the ends.
    pub(crate) fn tick_and_turn(&mut self, now: Tick)
        requires open_ { self.old.closed ≡ false }
        requires later { self.old.latest ≤ now }
        ensures goes_on { GoesOn self.old self.new }
        ensures ticks { TicksFirst self.old.single self.new.single }
    {
        self.single.tick(self.rt, now);
        let turn = self.ends.turn(
            self.rt,
            &mut self.net,
            &mut self.inproc,
            &mut self.single,
            now,
            self.dry,
        );
        self.dry = turn.is_dry;
        self.latest = now;
    }

    // Serves the pipes.
    pub(crate) fn serve(&mut self) -> Served
        ensures goes_on { GoesOn self.old self.new }
        ensures flushes { Flushes (result.waiting == 0) self.old.single self.new.single }
    {
        let served = self.single.serve(self.rt);
        self.moved = served.moved;
        served
    }
}
