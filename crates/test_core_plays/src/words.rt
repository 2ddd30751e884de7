//! The words for causes and results.
use crate::line::PlayLine;
use aio_word::{Phase, Polled, Raced};
use sp_core::{BeginError, NowError};
use sp_history::entry::{Cause, Miss, Why};

/// Why a pipe went down.
pub fn why_word(why: Why) -> &'static str {
    match why {
        Why::Ended => "ended",
        Why::Failed => "failed",
        Why::Malformed => "malformed",
        Why::Refusal => "refusal",
        Why::Closed => "closed",
        Why::NoMemory => "nomemory",
    }
}

/// Why an operation is gone.
pub fn cause_word(cause: Cause) -> &'static str {
    match cause {
        Cause::Cancelled => "cancelled",
        Cause::TimedOut => "timedout",
        Cause::Closed => "closed",
        Cause::Superseded => "superseded",
        Cause::SurveyOver => "surveyover",
    }
}

/// Why nothing is received at once.
pub fn now_word(why: NowError) -> &'static str {
    match why {
        NowError::Again => "again",
        NowError::Begin(BeginError::Closed) => "closed",
        NowError::Begin(BeginError::NotSupported) => "notsupported",
        NowError::Begin(BeginError::NoEntry) => "noentry",
        NowError::Begin(BeginError::State) => "state",
        NowError::Begin(BeginError::Busy) => "busy",
        NowError::Begin(BeginError::NoMemory) => "nomemory",
    }
}

// The state of an operation.
fn phase_word(phase: Phase) -> &'static str {
    match phase {
        Phase::Idle => "idle",
        Phase::Pending => "pending",
        Phase::Won => "won",
        Phase::Shut => "shut",
        Phase::Superseded => "superseded",
        Phase::SurveyOver => "surveyover",
        Phase::Cancelled => "cancelled",
        Phase::Expired => "expired",
    }
}

/// Why a link became no pipe.
pub fn miss_of(word: &str) -> Option<Miss> {
    match word {
        "bad" => Some(Miss::Bad),
        "ended" => Some(Miss::Ended),
        "failed" => Some(Miss::Failed),
        "late" => Some(Miss::Late),
        "refused" => Some(Miss::Refused),
        "nomemory" => Some(Miss::NoMemory),
        _ => None,
    }
}

// Returns whether the line says `ended`, this phase and this caller.
fn is_ended(line: &mut PlayLine<'_>, phase: Phase, by: u32) -> bool {
    line.says("ended") && line.says(phase_word(phase)) && line.number() == by
}

/// Returns whether the exchange has the result that the line says.
pub fn is_raced(line: &mut PlayLine<'_>, raced: Option<Raced>) -> bool {
    match raced {
        None => false,
        Some(Raced::Won) => line.says("won"),
        Some(Raced::Stale) => line.says("stale"),
        Some(Raced::Ended { phase, by }) => is_ended(line, phase, by),
    }
}

/// Returns whether the poll found what the line says.
pub fn is_polled(line: &mut PlayLine<'_>, polled: Option<Polled>) -> bool {
    match polled {
        None => false,
        Some(Polled::Pending) => line.says("pending"),
        Some(Polled::Stale) => line.says("stale"),
        Some(Polled::Ended { phase, by }) => is_ended(line, phase, by),
    }
}
