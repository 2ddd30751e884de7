//! The comparisons of results with lines.
use crate::line::PlayLine;
use crate::wires::PlayWire;
use crate::words::{cause_word, why_word};
use sp_base::{OpName, SpError};
use sp_core::{BeginError, CtxError, Gone, NowError, Outcome, Served, TopicError};
use sp_history::entry::Totals;
use sp_msg::Message;
use std::alloc::Global;

/// The message that the line says, if its header is whole words and there is memory for it.
pub fn message(alloc: Global, line: &mut PlayLine<'_>) -> Option<Message> {
    let header = line.bytes();
    let Ok(mut m) = Message::from_body(alloc, line.bytes().as_slice()) else {
        return None;
    };
    for word in header.as_slice().chunks(4) {
        let [a, b, c, d] = word else {
            return None;
        };
        let word = u32::from_be_bytes([*a, *b, *c, *d]);
        if m.header_append_u32(word).is_err() {
            return None;
        }
    }
    Some(m)
}

/// Returns whether the message is what the line says.
pub fn is_message(m: &Message, line: &mut PlayLine<'_>) -> bool {
    m.header() == line.bytes().as_slice() && m.body() == line.bytes().as_slice()
}

/// Returns whether it received what the line says.
pub fn is_received(outcome: Option<Outcome>, line: &mut PlayLine<'_>) -> bool {
    match outcome {
        Some(Outcome::Received(m)) => is_message(&m, line),
        _ => false,
    }
}

/// Returns whether it was a send that was won.
pub fn is_sent(outcome: Option<Outcome>) -> bool {
    matches!(outcome, Some(Outcome::Sent))
}

/// Returns whether it is gone as the line says, and no message comes back.
pub fn is_gone(outcome: Option<Outcome>, line: &mut PlayLine<'_>) -> bool {
    match outcome {
        Some(Outcome::Gone { cause, by, back }) => {
            line.says(cause_word(cause)) && line.number() == by && back.is_none()
        }
        _ => false,
    }
}

/// Returns whether it is gone as the line says, and the message of the line comes back.
pub fn is_back(outcome: Option<Outcome>, line: &mut PlayLine<'_>) -> bool {
    match outcome {
        Some(Outcome::Gone { cause, by, back }) => match back {
            Some(m) => {
                line.says(cause_word(cause)) && line.number() == by && is_message(&m, line)
            }
            None => false,
        },
        _ => false,
    }
}

// Returns whether the message is these bytes on a wire.
fn is_wire(m: &Message, bytes: &[u8]) -> bool {
    let n = m.header().len();
    n <= bytes.len() && m.header() == &bytes[..n] && m.body() == &bytes[n..]
}

/// Returns whether what was put on the wire is the rest of the line.
pub fn is_put(wire: &PlayWire, line: &mut PlayLine<'_>) -> bool {
    for m in wire.outs() {
        if !is_wire(m, line.bytes().as_slice()) {
            return false;
        }
    }
    line.is_read()
}

/// Returns whether the wire was asked for room as often as the line says, and what was put on it is the rest.
pub fn is_asked(wire: &PlayWire, line: &mut PlayLine<'_>) -> bool {
    line.number() == wire.asked() && is_put(wire, line)
}

/// The wire of the pipe that went down, if pipe and cause are those of the line.
pub fn down(gone: Option<Gone<PlayWire>>, line: &mut PlayLine<'_>) -> Option<PlayWire> {
    let gone = gone?;
    if line.number() == gone.pipe.0 && line.says(why_word(gone.why)) {
        Some(gone.wire)
    } else {
        None
    }
}

/// The result of a serve that the line says, over wires that have passed on nothing.
pub fn served(line: &mut PlayLine<'_>) -> Served {
    Served {
        moved: line.flag(),
        ended: line.number(),
        waiting: line.number(),
        up: line.number(),
        taken: 0,
    }
}

/// The totals of the line.
pub fn totals(line: &mut PlayLine<'_>) -> Totals {
    Totals {
        begun: line.long(),
        won: line.long(),
        gone: line.long(),
        frames: line.long(),
        outs: line.long(),
        fulls: line.long(),
    }
}

/// The number of the error, 0 where it succeeded.
pub fn topic_code(returned: Result<(), TopicError>) -> u32 {
    match returned {
        Ok(()) => 0,
        Err(e) => SpError::from(e).code(),
    }
}

/// The number of the error of a shut context, 0 where it succeeded.
pub fn shut_code(returned: Result<(), CtxError>) -> u32 {
    match returned {
        Ok(()) => 0,
        Err(e) => SpError::from(e).code(),
    }
}

/// The number of the error of a receive that begins, 0 where it succeeded.
pub fn recv_code(returned: Result<OpName, BeginError>) -> u32 {
    match returned {
        Ok(_) => 0,
        Err(e) => SpError::from(e).code(),
    }
}

/// The number of the error of a receive at once, 0 where it succeeded.
pub fn now_code(returned: Result<Message, NowError>) -> u32 {
    match returned {
        Ok(_) => 0,
        Err(e) => SpError::from(e).code(),
    }
}
