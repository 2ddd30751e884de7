//! What is taken from the lists of operations: deadlines that have come, and outcomes that are collected.
ghost use Rattle.std.specs.Prelude.{◌≡◌, ◌+◌, ◌++◌, ◌≤◌, List, [], length};
ghost use Rattle.sp_base.specs.declared.OpName.{OpName};
ghost use Rattle.sp_history.specs.declared.entry.Entry.TheVariants as entries;
ghost use Rattle.sp_history.specs.Past.{due_at};
ghost use Rattle.sp_history.specs.Moments.{Moment, past, also};
ghost use Rattle.core_state.specs.OperationsStand.{OperationsStand, done_at, done_count, is_done_of};
ghost use Rattle.core_state.specs.PartSteps.{TellsEnded, FindsOn, HasUncollected, TakesOut, KeepsLengths};

use crate::operations::{EndedOperation, Operations};
use crate::outcome::Outcome;
use aio_expire::NameList;
use sp_base::{Ctx, OpName, Tick};

// Returns whether the operation's outcome is at its slot's place.
fn is_there(done: &[Option<EndedOperation>], op: OpName) -> bool
    ensures { result ≡ is_done_of op (done_at done.now op.slot) }
{
    match done.get(op.slot as usize) {
        None => false,
        Some(None) => false,
        Some(Some(it)) => it.op.slot == op.slot && it.op.generation == op.generation,
    }
}

impl Operations {
    /// Names the operations whose deadline is `now` or earlier, by deadline and then by slot. None is named again.
    pub fn due(&mut self, now: Tick, out: &mut NameList)
        requires { self.old.deadlines.schedule.slots ≤ out.old.spare }
        ensures names { (t : Moment) → OperationsStand [] self.old t → out.new.names ≡ out.old.names ++ due_at (past t) now }
        ensures spare { out.new.spare + length out.new.names ≡ out.old.spare + length out.old.names }
        ensures due { (t : Moment) (due : List OpName) → OperationsStand [] self.old t → OperationsStand [] self.new (also t (entries.Tick now due)) }
        ensures lengths { KeepsLengths self.old self.new }
    {
        self.deadlines.due(now, out);
    }

    /// Returns whether the operation ended and was not collected.
    pub fn has_ended(&self, op: OpName) -> bool
        ensures { TellsEnded result op self.now }
    {
        is_there(&self.done, op)
    }

    /// Returns a pending operation of the context.
    pub fn some_on(&self, ctx: Ctx) -> Option<OpName>
        ensures { FindsOn result ctx self.now }
    {
        self.pending.some_on(ctx)
    }

    /// Takes out the operation, which ended and was not collected, and frees its slot.
    pub fn collect(&mut self, op: OpName) -> Outcome
        requires { HasUncollected op self.old }
        ensures taken { TakesOut result op self.old self.new }
        ensures lengths { length self.new.free.items + done_count self.new ≡ length self.old.free.items + done_count self.old }
    {
        let Some(it) = self.done[op.slot as usize].take() else {
            unreachable!()
        };
        let EndedOperation { op: _, outcome } = it;
        if self.free.push(op.slot).is_err() {
            unreachable!()
        }
        outcome
    }
}
