//! Deadlines: what is due.
ghost use Rattle.std.specs.Prelude.{◌≡◌, ◌+◌, ◌≤◌, length, []};
ghost use Rattle.sp_history.specs.Moments.{Moment};
ghost use Rattle.sp_proto.specs.Machines.{NoFlood};
ghost use Rattle.sp_core.specs.Owning.{Owns};
ghost use Rattle.sp_core.specs.Collecting.{DueBy};
ghost use Rattle.sp_core.specs.CollectSteps.{TicksOnce};
ghost use Rattle.sp_core.specs.CallSays.{MayTakeTurn, TakesOneTurn};
ghost use Rattle.sp_core.specs.Cores.{slots_of};

use crate::owner::Core;
use aio_expire::NameList;
use sp_base::Tick;
use sp_msg::Wire;
use sp_proto::Proto;
use std::sync::Wait;
use turn_lock::Stands;

impl<P: Proto, W: Wire> Core<P, W> {
    /// Ticks at `now`, in milliseconds: names the operations whose deadlines have come, by deadline and then by slot,
    /// each once. A moment before the last tick counts as the last tick. A closed socket names nothing. The callers end
    /// the named operations (`expire` of the words). Doesn't fail when out of memory.
    pub fn due<R: Wait>(&mut self, rt: &R, k: u32, now: Tick, out: &mut NameList)
        requires turn { MayTakeTurn ⟦<Core<P, W> as Stands>⟧.stands self.old k }
        requires room { slots_of self.old ≤ out.old.spare }
        ensures turn { TakesOneTurn ⟦<Core<P, W> as Stands>⟧.stands P.kind self.old self.new k (λ z h t. DueBy h t now out.old.names out.new.names) }
        ensures spare { out.new.spare + length out.new.names ≡ out.old.spare + length out.old.names }
    {
        self.begin_turn();
        self.tick(now, out);
        self.settle(rt);
    }

    // Ticks, unless the socket is closed, while no send to many pipes is pending.
    fn tick(&mut self, now: Tick, out: &mut NameList)
        requires owns { (t : Moment) × Owns P.ties P.room W.shown [] self.old t × NoFlood t }
        requires room { slots_of self.old ≤ out.old.spare }
        ensures spare { out.new.spare + length out.new.names ≡ out.old.spare + length out.old.names }
        ensures ticked { TicksOnce P.ties P.room W.shown now out.old.names out.new.names self.old self.new }
    {
        let closed = self.closed;
        if closed {
            return;
        }
        let at = self.tally.not_before(now);
        self.operations.due(at, out);
        self.proto.clock(at);
        self.tally.tick(at);
    }
}
