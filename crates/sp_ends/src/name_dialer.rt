//! A name within the process that is dialed.
ghost use Rattle.std.specs.Prelude.{◌≡◌, ◌+◌, IsTrue, ◌↔◌, None, Some};
ghost use Rattle.sp_ends.specs.DialMoments.{moment};
ghost use Rattle.sp_ends.specs.NameSteps.{IsDueNameDialer, IsLostNameDialer};

use crate::dialer::PAUSE;
use sp_base::{Bytes, PipeId, Tick};

/// A name within the process that is dialed again and again, while there is no pipe to it (nng_dialer(5)).
#[derive(Debug, Drop)]
pub struct NameDialer {
    /// The name.
    pub name: Bytes,
    /// The tick from which on it may be dialed; `None` means never.
    pub next: Option<u64>,
    /// The pipe that it has, if it has one.
    pub pipe: Option<PipeId>,
}

impl NameDialer {
    /// A dialer that has no pipe, and may be dialed at once.
    pub fn new(name: Bytes) -> NameDialer
        ensures { result ≡ record { name = name; next = Some 0; pipe = None } }
    {
        NameDialer {
            name,
            next: Some(0),
            pipe: None,
        }
    }

    /// Returns whether it is to be dialed at this tick.
    pub fn is_due(&self, now: Tick) -> bool
        ensures { IsTrue result ↔ IsDueNameDialer now self.now }
    {
        match self.next {
            None => false,
            Some(next) => self.pipe.is_none() && next <= now.0,
        }
    }

    /// Records that the name was dialed at this tick, and has this pipe now, or none.
    pub fn called(&mut self, now: Tick, pipe: Option<PipeId>)
        ensures { self.new ≡ record self.old { next = moment (now + 100); pipe = pipe } }
    {
        self.next = now.0.checked_add(PAUSE);
        self.pipe = pipe;
    }

    /// Records that the wire of this pipe was taken. If it was this dialer's, it may dial again after the pause.
    pub fn lost(&mut self, now: Tick, pipe: PipeId)
        ensures { IsLostNameDialer now pipe self.old self.new }
    {
        if self.pipe == Some(pipe) {
            self.next = now.0.checked_add(PAUSE);
            self.pipe = None;
        }
    }
}
