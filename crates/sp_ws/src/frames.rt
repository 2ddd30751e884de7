//! Messages in frames: the interface to the crate that does the framing.
ghost use Rattle.std.specs.Prelude.{◌≡◌, ◌≤◌, ◌++◌, length, drop};
ghost use Rattle.sp_ws.specs.Views.{FramesView};
ghost use Rattle.sp_ws.specs.Frames.{AfterFeed, AfterNext, AfterSend};

use sp_base::{Bytes, NoMemory};

/// The next message of what was fed (RFC 6455 sections 5.4 to 5.6).
#[derive(Debug, Drop)]
pub enum FrameIn {
    /// A binary message.
    Binary(Bytes),
    /// A text message.
    Text,
    /// All that was fed was read, and no whole message is left.
    Idle,
    /// The peer closed the connection (RFC 6455 section 5.5.1).
    Closed,
    /// Not a message by the framing rules (RFC 6455 sections 5.2 to 5.5), or one that is too long.
    Broken,
    /// Out of memory; a message may be lost.
    NoMemory,
}

/// The result of framing a message.
#[derive(Clone, Copy, Debug, PartialEq, Eq)]
pub enum FrameOut {
    /// It waits for the link.
    Done,
    /// The buffer is full.
    Refused,
    /// Out of memory.
    NoMemory,
}

/// The kind of the last result of `next`.
#[derive(Clone, Copy, Debug, PartialEq, Eq)]
pub enum LastResult {
    /// None yet.
    Nothing,
    /// A binary message.
    Binary,
    /// A text message, which SP doesn't allow.
    Text,
    /// Nothing came.
    Idle,
    /// The peer closed the connection.
    Closed,
    /// What came isn't WebSocket.
    Broken,
    /// Out of memory.
    NoMemory,
}

/// Messages of one peer in frames (RFC 6455 section 5).
pub trait Frames {
    /// What was handed over to the crate that does the framing, what was fed and isn't handed over, how much of what
    /// was handed over isn't read, what waits for the link, the bodies that came and those that were sent, the last
    /// result, the counts of the results `Refused` and `Broken`, and what each read gave.
    ghost seen: { Self → FramesView };

    /// Takes bytes that came. Fails only when out of memory, and then nothing changes.
    fn feed(&mut self, b: &[u8]) -> Result<(), NoMemory>
        ensures { AfterFeed result b.now (seen self.old) (seen self.new) };

    /// The next message; pings and pongs are skipped. What the framing rules answer by themselves, such as a pong (RFC
    /// 6455 section 5.5.3), then waits for the link.
    fn next(&mut self) -> FrameIn
        ensures { AfterNext result (seen self.old) (seen self.new) };

    /// Frames one binary message (RFC 6455 section 5.2); it then waits for the link.
    fn send(&mut self, b: &[u8]) -> FrameOut
        ensures { AfterSend result b.now (seen self.old) (seen self.new) };

    /// What waits for the link.
    fn waiting(&self) -> &[u8]
        ensures { result.now ≡ (seen self.now).waiting };

    /// Removes the first `n` bytes of what waits, which the link took. Takes no memory.
    fn taken(&mut self, n: usize)
        requires { n ≤ length (seen self.old).waiting }
        ensures { seen self.new ≡ record (seen self.old) { waiting = drop n (seen self.old).waiting } };
}
