//! The entries of a history, and copies of what they hold.

ghost use Rattle.std.specs.Prelude.{◌≡◌, IfOk};

use sp_base::{Bytes, NoMemory};
use sp_history::entry::{Completion, Ending, Entry, RecordedAct, RecordedMessage};
use std::alloc::Global;

/// The entries of a history so far, the newest first.
#[derive(Drop)]
pub enum Past {
    /// No entry yet.
    Start,
    /// The newest entry, and those before it.
    After(Entry, Box<Past>),
}

/// A copy of the bytes, in memory of its own.
pub fn copy_bytes(alloc: Global, b: &Bytes) -> Result<Bytes, NoMemory>
    ensures { IfOk result (λ copy. copy ≡ b.now) }
{
    Bytes::from_slice(alloc, b.as_slice())
}

/// A copy of the message, in memory of its own.
pub fn copy_message(alloc: Global, m: &RecordedMessage) -> Result<RecordedMessage, NoMemory>
    ensures { IfOk result (λ copy. copy ≡ m.now) }
{
    let header = copy_bytes(alloc, &m.header)?;
    let body = copy_bytes(alloc, &m.body)?;
    Ok(RecordedMessage { header, body })
}

/// A copy of the act, in memory of its own.
pub fn copy_act(alloc: Global, act: &RecordedAct) -> Result<RecordedAct, NoMemory>
    ensures { IfOk result (λ copy. copy ≡ act.now) }
{
    match act {
        RecordedAct::Recv => Ok(RecordedAct::Recv),
        RecordedAct::Send(m) => Ok(RecordedAct::Send(copy_message(alloc, m)?)),
    }
}

/// A copy of the outcome, in memory of its own.
pub fn copy_outcome(alloc: Global, r: &Completion) -> Result<Completion, NoMemory>
    ensures { IfOk result (λ copy. copy ≡ r.now) }
{
    match r {
        Completion::Received(m) => Ok(Completion::Received(copy_message(alloc, m)?)),
        Completion::Sent => Ok(Completion::Sent),
    }
}

/// A copy of the ending, in memory of its own.
pub fn copy_ending(alloc: Global, ending: &Ending) -> Result<Ending, NoMemory>
    ensures { IfOk result (λ copy. copy ≡ ending.now) }
{
    match ending {
        Ending::Won(r) => Ok(Ending::Won(copy_outcome(alloc, r)?)),
        Ending::Gone(cause, by) => Ok(Ending::Gone(*cause, *by)),
    }
}
