//! The outcome of an operation.
use sp_history::entry::Cause;
use sp_msg::Message;

/// How an operation ended (nng_aio(5)).
#[derive(Debug, Drop)]
pub enum Outcome {
    /// A receive got the message.
    Received(Message),
    /// A send's message was put on a pipe.
    Sent,
    /// It ended without success, by this caller, or by the socket (0). A send gets its message back.
    Gone {
        cause: Cause,
        by: u32,
        back: Option<Message>,
    },
}
