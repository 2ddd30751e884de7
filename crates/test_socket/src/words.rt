//! The comparisons of results with lines, and the words for them.
use crate::line::CallLine;
use crate::marks::ThreadMarks;
use aio_word::Phase;
use sp_base::{OpName, SpError};
use sp_msg::Message;
use sp_socket::{
    BeginError, Cause, CtxError, Miss, NowError, Outcome, Polled, Raced, TopicError, Totals, Why,
};

// Why a pipe went down.
fn why_word(why: Why) -> &'static str {
    match why {
        Why::Ended => "ended",
        Why::Failed => "failed",
        Why::Malformed => "malformed",
        Why::Refusal => "refusal",
        Why::Closed => "closed",
        Why::NoMemory => "nomemory",
    }
}

// Why an operation is gone.
fn cause_word(cause: Cause) -> &'static str {
    match cause {
        Cause::Cancelled => "cancelled",
        Cause::TimedOut => "timedout",
        Cause::Closed => "closed",
        Cause::Superseded => "superseded",
        Cause::SurveyOver => "surveyover",
    }
}

// The state of an operation.
fn phase_word(phase: Phase) -> &'static str {
    match phase {
        Phase::Idle => "idle",
        Phase::Pending => "pending",
        Phase::Won => "won",
        Phase::Shut => "shut",
        Phase::Superseded => "superseded",
        Phase::SurveyOver => "surveyover",
        Phase::Cancelled => "cancelled",
        Phase::Expired => "expired",
    }
}

/// Why a link became no pipe.
pub fn miss_of(word: &str) -> Option<Miss> {
    match word {
        "bad" => Some(Miss::Bad),
        "ended" => Some(Miss::Ended),
        "failed" => Some(Miss::Failed),
        "late" => Some(Miss::Late),
        "refused" => Some(Miss::Refused),
        "nomemory" => Some(Miss::NoMemory),
        _ => None,
    }
}

/// The word for true or false.
pub fn yes_or_no(it: bool) -> &'static str {
    if it { "yes" } else { "no" }
}

/// Returns whether the line says `error` and its number.
pub fn is_error(line: &mut CallLine<'_>, e: SpError) -> bool {
    line.says("error") && line.number() == e.code()
}

/// Returns whether the line has the operation's name, or the error for which none began.
pub fn is_begun(line: &mut CallLine<'_>, returned: Result<OpName, BeginError>) -> bool {
    match returned {
        Ok(op) => line.names(op),
        Err(e) => is_error(line, SpError::from(e)),
    }
}

/// Returns whether the line has what was received at once, or the error for which nothing was.
pub fn is_now(line: &mut CallLine<'_>, returned: Result<Message, NowError>) -> bool {
    match returned {
        Ok(m) => line.says("received") && line.is_body(m.body()),
        Err(e) => is_error(line, SpError::from(e)),
    }
}

/// Returns whether the line has `ok`, or the error for which a context wasn't shut.
pub fn is_shut(line: &mut CallLine<'_>, returned: Result<(), CtxError>) -> bool {
    match returned {
        Ok(()) => line.says("ok"),
        Err(e) => is_error(line, SpError::from(e)),
    }
}

/// Returns whether the line has `ok`, or the error for which a topic didn't change.
pub fn is_switched(line: &mut CallLine<'_>, returned: Result<(), TopicError>) -> bool {
    match returned {
        Ok(()) => line.says("ok"),
        Err(e) => is_error(line, SpError::from(e)),
    }
}

// Returns whether the line has the message that comes back, if one does.
fn is_back(line: &mut CallLine<'_>, back: Option<Message>) -> bool {
    match back {
        None => true,
        Some(m) => line.is_body(m.body()),
    }
}

/// Returns whether the line has the outcome of an operation.
pub fn is_outcome(line: &mut CallLine<'_>, outcome: Outcome) -> bool {
    match outcome {
        Outcome::Received(m) => line.says("received") && line.is_body(m.body()),
        Outcome::Sent => line.says("sent"),
        Outcome::Gone { cause, by, back } => {
            line.says("gone")
                && line.says(cause_word(cause))
                && line.number() == by
                && is_back(line, back)
        }
    }
}

/// Returns whether the operation has ended. A message that it received is counted.
pub fn is_counted(marks: &ThreadMarks, outcome: Option<Outcome>) -> bool {
    match outcome {
        Some(Outcome::Received(_)) => {
            marks.received.add(1);
            true
        }
        Some(_) => true,
        None => false,
    }
}

/// Returns whether nothing was received, or a body of one byte, the count of those before.
pub fn is_next(marks: &ThreadMarks, returned: Result<Message, NowError>) -> bool {
    match returned {
        Err(_) => true,
        Ok(m) => {
            let next = u8::try_from(marks.received.now());
            marks.received.add(1);
            match next {
                Ok(next) => m.body() == [next].as_slice(),
                Err(_) => false,
            }
        }
    }
}

// Returns whether the line says `ended`, this phase and this caller.
fn is_ended(line: &mut CallLine<'_>, phase: Phase, by: u32) -> bool {
    line.says("ended") && line.says(phase_word(phase)) && line.number() == by
}

/// Returns whether the line has the result of an exchange.
pub fn is_raced(line: &mut CallLine<'_>, raced: Raced) -> bool {
    match raced {
        Raced::Won => line.says("won"),
        Raced::Stale => line.says("stale"),
        Raced::Ended { phase, by } => is_ended(line, phase, by),
    }
}

/// Returns whether the line has the result of a poll.
pub fn is_polled(line: &mut CallLine<'_>, polled: Polled) -> bool {
    match polled {
        Polled::Pending => line.says("pending"),
        Polled::Stale => line.says("stale"),
        Polled::Ended { phase, by } => is_ended(line, phase, by),
    }
}

/// Returns whether the line has the pipe and the cause for which it went down.
pub fn is_down(line: &mut CallLine<'_>, pipe: u32, why: Why) -> bool {
    line.number() == pipe && line.says(why_word(why))
}

// Returns whether the totals are what was counted, with as many frames as the line allows, and nothing was sent.
fn are_counted(line: &mut CallLine<'_>, t: Totals, received: u64, ended: u64) -> bool {
    let (least, most) = (line.long(), line.long());
    t.begun == received.saturating_add(ended)
        && t.won == received
        && t.gone == ended
        && t.won <= t.frames
        && least <= t.frames
        && t.frames <= most
        && t.outs == 0
        && t.fulls == 0
}

/// Returns whether the line has the totals of a close: six numbers, or `counted` and two.
pub fn are_totals(line: &mut CallLine<'_>, marks: &ThreadMarks, t: Totals) -> bool {
    let mut counted = *line;
    if counted.says("counted") {
        *line = counted;
        return are_counted(line, t, marks.received.now(), marks.ended.now());
    }
    line.long() == t.begun
        && line.long() == t.won
        && line.long() == t.gone
        && line.long() == t.frames
        && line.long() == t.outs
        && line.long() == t.fulls
}

/// Sets a mark, waits for one, or compares the counts, and returns whether the line is right.
pub fn is_marked(line: &mut CallLine<'_>, marks: &ThreadMarks, name: &str) -> bool {
    match name {
        "marks" => match marks.named(line.word()) {
            None => false,
            Some(mark) => {
                mark.set(1);
                true
            }
        },
        "sees" => match marks.named(line.word()) {
            None => false,
            Some(mark) => mark.seen() == 1,
        },
        "has_received" => line.long() == marks.received.now(),
        "in_all" => line.long() == marks.received.now().saturating_add(marks.ended.now()),
        _ => false,
    }
}
