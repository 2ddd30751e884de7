//! The operations: those that are pending, those that ended and were not collected, the slots that are free, and the
//! deadlines. All memory is taken in `with_slots`.
ghost use Rattle.std.specs.Prelude.{◌≡◌, ◌<◌, ◌≤◌, Some, None, [], ◌∷◌, length, replicate, vec_capacity, IfOk};
ghost use Rattle.sp_history.specs.declared.parts.Begun.{Begun};
ghost use Rattle.sp_history.specs.Past.{pending};
ghost use Rattle.sp_history.specs.Moments.{Moment, Lawful, past};
ghost use Rattle.core_state.specs.OperationsStand.{OperationsStand, done_count, AllTaken, AreAllSlots};
ghost use Rattle.core_state.specs.PartSteps.{MayStart, StartsOp, FinishesOp, LeavesPending, DrawsFree, DrawsOne, KeepsLengths, HasOneMoreFree, HasOneMoreEnded};

use crate::outcome::Outcome;
use crate::pending::PendingOps;
use aio_expire::Deadlines;
use sp_base::{Ctx, NoMemory, OpName, Tick};
use std::alloc::Global;

/// An operation (nng_aio(5)) that ended and was not collected.
#[derive(Drop)]
pub struct EndedOperation {
    /// Its name.
    pub op: OpName,
    /// The result of its collect.
    pub outcome: Outcome,
}

/// The operations of a socket (nng_aio(5)).
#[derive(Drop)]
pub struct Operations {
    /// Those that were begun and have not ended.
    pub pending: PendingOps,
    /// By slot: its operation that ended and was not collected.
    pub done: Vec<Option<EndedOperation>>,
    /// The slots that are free and not known to be worn. The last is drawn next.
    pub free: Vec<u32>,
    /// The deadlines of those pending operations that were not due.
    pub deadlines: Deadlines,
}

// The slots from the last one down to 0.
fn all_slots(alloc: Global, slots: u32) -> Result<Vec<u32>, NoMemory>
    ensures slots { IfOk result (λ v. AreAllSlots slots v.items) }
    ensures room { IfOk result (λ v. slots ≤ vec_capacity v) }
{
    let mut free = Vec::with_capacity(alloc, slots as usize)?;
    for i in 0..slots {
        free.push(slots - 1 - i)?;
    }
    Ok(free)
}

// A place for each slot, each empty.
fn no_outcomes(alloc: Global, slots: u32) -> Result<Vec<Option<EndedOperation>>, NoMemory>
    ensures { IfOk result (λ v. v.items ≡ replicate slots None) }
{
    let mut done = Vec::with_capacity(alloc, slots as usize)?;
    for _ in 0..slots {
        done.push(None)?;
    }
    Ok(done)
}

impl Operations {
    /// No operation, with every slot below `slots` free.
    pub fn with_slots(alloc: Global, slots: u32) -> Result<Operations, NoMemory>
        requires { (0 < slots) × (slots ≤ 4096) }
        ensures holds { IfOk result (λ s. (t : Moment) → past t ≡ [] → t.z.slots ≡ slots → OperationsStand [] s t) }
        ensures all { IfOk result (λ s. (length s.free.items ≡ slots) × (done_count s ≡ 0)) }
    {
        Ok(Operations {
            pending: PendingOps::new(alloc, slots)?,
            done: no_outcomes(alloc, slots)?,
            free: all_slots(alloc, slots)?,
            deadlines: Deadlines::new(alloc, slots)?,
        })
    }

    /// Draws a free slot.
    pub fn draw(&mut self) -> Option<u32>
        ensures none { result ≡ None → (self.new ≡ self.old) × ((t : Moment) → OperationsStand [] self.old t → AllTaken t.z (past t)) }
        ensures slot { DrawsFree result self.old self.new }
        ensures lengths { DrawsOne result self.old self.new }
    {
        // A pop of an empty list doesn't say that the list is the same.
        if self.free.is_empty() {
            return None;
        }
        self.free.pop()
    }

    /// Puts back the slot that was drawn.
    pub fn put_back(&mut self, slot: u32)
        requires { (t : Moment) × OperationsStand (slot ∷ []) self.old t }
        ensures back { (t : Moment) → OperationsStand (slot ∷ []) self.old t → OperationsStand [] self.new t }
        ensures lengths { HasOneMoreFree self.old self.new }
    {
        if self.free.push(slot).is_err() {
            unreachable!()
        }
    }

    /// Records that the operation has begun in the slot that was drawn.
    pub fn start(&mut self, op: OpName, ctx: Ctx, deadline: Option<Tick>)
        requires { MayStart op ctx deadline self.old }
        ensures started { StartsOp op ctx deadline self.old self.new }
        ensures lengths { KeepsLengths self.old self.new }
    {
        self.pending.add(op, ctx);
        if let Some(at) = deadline {
            self.deadlines.put(op, at);
        }
    }

    /// Records that the pending operation has ended.
    pub fn finish(&mut self, op: OpName, outcome: Outcome)
        requires { (t : Moment) × (s : Begun) × OperationsStand [] self.old t × Lawful t × (pending (past t) op ≡ Some s) }
        ensures finished { FinishesOp op outcome self.old self.new }
        ensures lengths { HasOneMoreEnded self.old self.new }
        ensures left { LeavesPending op self.old self.new }
        ensures fewer { length self.new.pending.items < length self.old.pending.items }
    {
        self.pending.take_out(op);
        self.done[op.slot as usize] = Some(EndedOperation { op, outcome });
        self.deadlines.remove(op.slot);
    }
}
