//! Why calls of a node are refused.
ghost use Rattle.std.specs.Prelude.{◌≡◌};
ghost use Rattle.sp_node.specs.declared.error.WaitError.TheVariants as waits;
ghost use Rattle.core_state.specs.Errors.{now_number, ctx_number, topic_number};

use sp_base::SpError;
use sp_socket::{BeginError, Cause, CtxError, NowError, TopicError};
use std::error::Error;
use std::fmt;

/// Why no end was added (nng_listen(3), nng_dial(3)). Its text is that of nng_strerror(3), and where the text of an
/// address stops to be one.
#[derive(Clone, Copy, Debug, PartialEq, Eq)]
pub enum EndsError {
    /// The text is no address; its first `at` bytes begin one.
    Address { at: u32 },
    /// Its host is `*`, which can't be dialed.
    Host,
    /// The net failed to listen, as where the port is in use.
    Fault,
    /// The name is listened on within the node.
    InUse,
    /// The node has 64 ends.
    Many,
    /// Out of memory.
    NoMemory,
}

/// Why a call of a node returned without success (nng_recvmsg(3), nng_sendmsg(3)). Its text is that of nng_strerror(3).
/// The errors of the calls on contexts and topics, and of `try_recv`, become one by `From`.
#[derive(Clone, Copy, Debug, PartialEq, Eq)]
pub enum WaitError {
    /// Nothing was begun.
    Begin(BeginError),
    /// What was begun ended so.
    Gone(Cause),
    /// A call that begins nothing that could end was refused. No call that waits returns it.
    Other(SpError),
}

impl fmt::Display for EndsError {
    fn fmt<W: fmt::Write>(&self, f: &mut fmt::Formatter<W>) -> fmt::Result {
        match self {
            EndsError::Address { at } => write!(f, "Address invalid behind its first {at} bytes"),
            EndsError::Host => f.write_str("Address invalid: no one host"),
            EndsError::Fault | EndsError::InUse => f.write_str(text_of(SpError::InUse)),
            EndsError::Many => f.write_str(text_of(SpError::Busy)),
            EndsError::NoMemory => f.write_str(text_of(SpError::NoMemory)),
        }
    }
}

impl Error for EndsError {}

impl fmt::Display for WaitError {
    fn fmt<W: fmt::Write>(&self, f: &mut fmt::Formatter<W>) -> fmt::Result {
        let why = match self {
            WaitError::Begin(why) => SpError::from(*why),
            WaitError::Gone(cause) => SpError::from(*cause),
            WaitError::Other(why) => *why,
        };
        f.write_str(text_of(why))
    }
}

impl Error for WaitError {}

impl From<NowError> for WaitError {
    ghost from_gives = { λ why r. r ≡ waits.Other (now_number why) };

    fn from(why: NowError) -> WaitError {
        WaitError::Other(SpError::from(why))
    }
}

impl From<CtxError> for WaitError {
    ghost from_gives = { λ why r. r ≡ waits.Other (ctx_number why) };

    fn from(why: CtxError) -> WaitError {
        WaitError::Other(SpError::from(why))
    }
}

impl From<TopicError> for WaitError {
    ghost from_gives = { λ why r. r ≡ waits.Other (topic_number why) };

    fn from(why: TopicError) -> WaitError {
        WaitError::Other(SpError::from(why))
    }
}

// The text of an error (nng_strerror(3)).
fn text_of(why: SpError) -> &'static str {
    match why {
        SpError::NoMemory => "Out of memory",
        SpError::Invalid => "Invalid argument",
        SpError::Busy => "Resource busy",
        SpError::TimedOut => "Timed out",
        SpError::Closed => "Object closed",
        SpError::Again => "Try again",
        SpError::NotSupported => "Not supported",
        SpError::InUse => "Address in use",
        SpError::State => "Incorrect state",
        SpError::NoEntry => "Entry not found",
        SpError::Proto => "Protocol error",
        SpError::AddrInvalid => "Address invalid",
        SpError::MsgSize => "Message too large",
        SpError::Canceled => "Operation canceled",
    }
}
