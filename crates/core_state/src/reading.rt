//! What a caller's seat reads of an operation's word.
ghost use Rattle.std.specs.Prelude.{◌≡◌, ◌≢◌, ◌<◌, [], true, false};
ghost use Rattle.aio_word.specs.Sight.{IsSameSeat};
ghost use Rattle.sp_history.specs.Legal.{is_uncollected};
ghost use Rattle.sp_history.specs.Moments.{Moment, past};
ghost use Rattle.core_state.specs.OperationsStand.{OperationsStand};
ghost use Rattle.core_state.specs.OpWordsStand.{DecidedAs};
ghost use Rattle.core_state.specs.Reads.{ReadSo, ReadOnce, HasReadEnd};
ghost use Rattle.core_state.specs.PartSteps.{HasPending, WherePending};

use crate::op_words::{Decision, OpWords, gone};
use crate::operations::Operations;
use aio_word::{CallSeat, Polled};
use sp_base::OpName;
use std::sync::Wait;
use std::thread;

impl OpWords {
    // Reads the word with the caller's seat until it shows the operation, and returns whether it has ended. Only where
    // the core knows that it has, it reads until the word shows that.
    fn read_end<R: Wait>(&self, rt: &R, seat: &mut CallSeat, op: OpName, known: bool) -> bool
        requires own { seat.old.words ≡ self.now.words.id }
        requires name { (op.slot < self.now.words.slots) × (0 < op.generation) }
        ensures own { IsSameSeat seat.old seat.new }
        ensures read { ReadSo result op seat.old.view seat.new.view }
        ensures known { known ≡ true → result ≡ true }
        ensures once { known ≡ false → ReadOnce op seat.old.view seat.new.view }
    {
        for _ in rt.forever() {
            match self.words.poll(seat, op) {
                Polled::Ended { phase: _, by: _ } => return true,
                Polled::Pending => {
                    if !known {
                        return false;
                    }
                    thread::yield_now();
                }
                Polled::Stale => thread::yield_now(),
            }
        }
        unreachable!()
    }

    /// Reads the operation's word with the caller's seat, and returns whether the word shows its end. It does where the
    /// end is recorded among these operations; else it doesn't wait for one.
    pub fn reads_end<R: Wait>(
        &self,
        rt: &R,
        operations: &Operations,
        seat: &mut CallSeat,
        op: OpName,
    ) -> bool
        requires own { seat.old.words ≡ self.now.words.id }
        requires name { (op.slot < self.now.words.slots) × (0 < op.generation) }
        ensures own { IsSameSeat seat.old seat.new }
        ensures read { ReadSo result op seat.old.view seat.new.view }
        ensures pending { result ≡ false → (t : Moment) → OperationsStand [] operations.now t → is_uncollected (past t) op ≡ false }
        ensures once { (t : Moment) → OperationsStand [] operations.now t → is_uncollected (past t) op ≡ false → ReadOnce op seat.old.view seat.new.view }
    {
        let known = operations.has_ended(op);
        self.read_end(rt, seat, op, known)
    }

    /// How a caller ended the pending operation, whose end the caller's seat has read.
    pub fn found(&mut self, seat: &mut CallSeat, op: OpName) -> Decision
        requires own { seat.old.words ≡ self.old.words.id }
        requires read { HasPending self.old op × HasReadEnd op seat.old.view }
        ensures same { (self.new.words ≡ self.old.words) × (seat.new.words ≡ seat.old.words) × (seat.new.view ≡ seat.old.view) }
        ensures gone { result ≢ Decision.Won }
        ensures found { WherePending self.old op (λ t. DecidedAs result op t self.new) }
    {
        let look = self.words.found(&mut self.seat, seat, op);
        match gone(look.phase, look.by) {
            Some(decision) => decision,
            None => unreachable!(),
        }
    }
}
