//! What the reads of a socket gave, as contracts see them. They take no memory, and the compiled program does nothing
//! with them.
ghost use Rattle.std.specs.Prelude.{◌≡◌, ◌++◌, ◌∷◌, List, [], Result};
ghost use Rattle.std.specs.Borrow.{ftrue};
ghost use Rattle.tungstenite.specs.declared.error.Error.{Error};
ghost use Rattle.tungstenite.specs.declared.message.Message.{Message};

use std::marker::Model;
use tungstenite::{Error, Message};

/// All reads so far, the first one first.
#[derive(Debug, Drop)]
pub(crate) struct ReadLog {
    pub ghost all: { List (Result Message Error) },
}

impl Model for ReadLog {
    ghost also_owns = { λ _. ftrue };
}

// It owns nothing.
unsafe impl Send for ReadLog {}

unsafe impl Sync for ReadLog {}

/// The next read's result.
#[derive(Clone, Copy, Drop)]
pub(crate) struct Given<'a> {
    pub returned: &'a Result<Message, Error>,
}

impl ReadLog {
    /// No read yet.
    pub(crate) fn none() -> ReadLog
        ensures { result.all ≡ [] }
    {
        ReadLog {}
    }

    /// One more read.
    pub(crate) fn and(&self, _given: &Given<'_>) -> ReadLog
        ensures { result.all ≡ self.now.all ++ _given.now.returned.now ∷ [] }
    {
        ReadLog {}
    }
}
