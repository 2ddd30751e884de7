//! The words of the operations, and the core's seat.
ghost use Rattle.std.specs.Prelude.{◌≡◌, ◌<◌};
ghost use Rattle.sp_history.specs.Moments.{Moment, Lawful};
ghost use Rattle.sp_proto.specs.Machines.{IsFinish};
ghost use Rattle.core_state.specs.Ends.{phase_for};
ghost use Rattle.core_state.specs.OpWordsStand.{OpWordsStand, DecidedAs, FinishedAs, GoneAs, IsNext, ShutAs};
ghost use Rattle.core_state.specs.Reads.{Grows, LookReads};
ghost use Rattle.core_state.specs.PartSteps.{NamesNext, BeginsWord, HasPending, WherePending, LookedAs};

use aio_word::{CoreSeat, Decided, Phase, Words};
use sp_base::OpName;
use sp_history::entry::Cause;

/// The decision of a word (nng_aio_result(3)).
#[derive(Clone, Copy, PartialEq, Eq, Debug)]
pub enum Decision {
    /// The core's exchange succeeded.
    Won,
    /// A caller's exchange came first.
    Gone { cause: Cause, by: u32 },
}

/// The words, with the one seat that begins and decides operations (nng_aio(5)).
#[derive(Drop)]
pub struct OpWords {
    /// One word for each slot.
    pub words: Words,
    /// The seat that begins and decides.
    pub seat: CoreSeat,
}

// How a caller ended an operation whose word shows this phase; no other phase comes here.
pub(crate) fn gone(phase: Phase, by: u32) -> Option<Decision>
    ensures { GoneAs result phase by }
{
    match phase {
        Phase::Cancelled => Some(Decision::Gone {
            cause: Cause::Cancelled,
            by,
        }),
        Phase::Expired => Some(Decision::Gone {
            cause: Cause::TimedOut,
            by,
        }),
        _ => None,
    }
}

// The phase of an operation that ended for this cause.
fn phase_of(cause: Cause) -> Phase
    ensures { result ≡ phase_for cause }
{
    match cause {
        Cause::Cancelled => Phase::Cancelled,
        Cause::TimedOut => Phase::Expired,
        Cause::Closed => Phase::Shut,
        Cause::Superseded => Phase::Superseded,
        Cause::SurveyOver => Phase::SurveyOver,
    }
}

impl OpWords {
    /// The name of the slot's next operation, or `None` where the slot is worn.
    pub fn next(&self, slot: u32) -> Option<OpName>
        requires { (t : Moment) × OpWordsStand self.now t × (slot < t.z.slots) }
        ensures { NamesNext result slot self.now }
    {
        self.words.next(&self.seat, slot).ok()
    }

    /// Begins the operation, which is its slot's next.
    pub fn begin(&mut self, op: OpName)
        requires { (t : Moment) × Lawful t × OpWordsStand self.old t × IsNext t op }
        ensures begun { BeginsWord op self.old self.new }
        ensures same { (self.new.words ≡ self.old.words) × (self.new.seat.view.reads ≡ self.old.seat.view.reads) }
    {
        if self.words.begin(&mut self.seat, op.slot).is_err() {
            unreachable!()
        }
    }

    /// Wins the pending operation, unless a caller ended it.
    pub fn decide(&mut self, op: OpName) -> Decision
        requires { HasPending self.old op }
        ensures words { self.new.words ≡ self.old.words }
        ensures decided { WherePending self.old op (λ t. DecidedAs result op t self.new) }
        ensures reads { Grows self.old.seat.view.reads self.new.seat.view.reads }
    {
        match self.words.decide(&mut self.seat, op, Phase::Won) {
            Decided::Mine => Decision::Won,
            Decided::Other { phase, by } => match gone(phase, by) {
                Some(decision) => decision,
                None => unreachable!(),
            },
        }
    }

    /// Ends the pending operation for the close, unless a caller ended it.
    pub fn shut(&mut self, op: OpName) -> Decision
        requires { HasPending self.old op }
        ensures words { self.new.words ≡ self.old.words }
        ensures ended { WherePending self.old op (λ t. ShutAs result op t self.new) }
    {
        match self.words.decide(&mut self.seat, op, Phase::Shut) {
            Decided::Mine => Decision::Gone {
                cause: Cause::Closed,
                by: 0,
            },
            Decided::Other { phase, by } => match gone(phase, by) {
                Some(decision) => decision,
                None => unreachable!(),
            },
        }
    }

    /// Ends the pending operation for this cause, its request's end, unless a caller ended it.
    pub fn finish(&mut self, op: OpName, cause: Cause) -> Decision
        requires { HasPending self.old op × IsFinish cause }
        ensures words { self.new.words ≡ self.old.words }
        ensures finished { WherePending self.old op (λ t. FinishedAs cause result op t self.new) }
        ensures reads { Grows self.old.seat.view.reads self.new.seat.view.reads }
    {
        match self.words.decide(&mut self.seat, op, phase_of(cause)) {
            Decided::Mine => Decision::Gone { cause, by: 0 },
            Decided::Other { phase, by } => match gone(phase, by) {
                Some(decision) => decision,
                None => unreachable!(),
            },
        }
    }

    /// How a caller ended the pending operation, or `None` where it is still pending.
    pub fn look(&mut self, op: OpName) -> Option<Decision>
        requires { HasPending self.old op }
        ensures looked { WherePending self.old op (λ t. LookedAs result op t self.new) }
        ensures reads { (self.new.words ≡ self.old.words) × LookReads result op self.old.seat.view.reads self.new.seat.view.reads }
    {
        let look = self.words.look(&mut self.seat, op);
        gone(look.phase, look.by)
    }
}
