//! Wires: what carries messages to a peer and back.
ghost use Rattle.std.specs.Prelude.{◌≡◌, true};
ghost use Rattle.sp_msg.specs.Views.{WireView};
ghost use Rattle.sp_msg.specs.Wires.{AfterPull, AfterRoom, AfterPut, AfterFlush, AfterShut, may_flush};

use crate::message::Message;
use std::sync::Wait;

/// The result of a pull.
#[derive(Debug, Drop)]
pub enum WireIn {
    /// The next message; all of it is body.
    Message(Message),
    /// Nothing whole is there yet.
    NotYet,
    /// The peer has ended, and no whole message is left.
    Ended,
    /// What comes next is no message by the rules of the wire.
    Malformed,
    /// What the wire runs over failed.
    Failed,
    /// A part of the machine that the wire needs refused it.
    Refused,
    /// Out of memory; a message may be lost.
    NoMemory,
}

/// The result of `room`: whether one more message may be put.
#[derive(Clone, Copy, Debug, PartialEq, Eq)]
pub enum Room {
    /// One message may be put.
    Yes,
    /// As many messages wait as the wire holds.
    Full,
    /// What the wire runs over failed.
    Failed,
    /// A part of the machine that the wire needs refused it.
    Refused,
    /// Out of memory.
    NoMemory,
}

/// The result of a flush: whether all that was put is written.
#[derive(Clone, Copy, Debug, PartialEq, Eq)]
pub enum WireFlush {
    /// Nothing waits.
    Empty,
    /// Something waits, and nothing more is taken now.
    NotYet,
    /// What the wire runs over failed.
    Failed,
    /// A part of the machine that the wire needs refused it.
    Refused,
    /// Out of memory.
    NoMemory,
}

/// A way to one peer, of whole messages in order. No call waits. After any result but a message, `NotYet`,
/// `Yes`, `Full` and `Empty` only `shut` is lawful; after `shut` only `shut`, and `flush` where the wire says
/// that it still drains.
pub trait Wire {
    /// Its name, the bodies that were pulled and the texts that were put, how many of these aren't wholly
    /// written, which calls are lawful, its counts, and how it ended.
    ghost shown: { Self → WireView };

    /// The next message, with an empty header.
    fn pull<R: Wait>(&mut self, rt: &R) -> WireIn
        requires { (shown self.old).is_open ≡ true }
        ensures { AfterPull result (shown self.old) (shown self.new) };

    /// Returns whether one more message can be put. Where as many messages wait as the wire holds it first writes what
    /// it can of them, as `flush` does; else it leaves that to `flush`.
    fn room<R: Wait>(&mut self, rt: &R) -> Room
        requires { (shown self.old).is_open ≡ true }
        ensures { AfterRoom result (shown self.old) (shown self.new) };

    /// Takes a message, header then body. It never fails and takes no memory.
    fn put<R: Wait>(&mut self, rt: &R, m: Message)
        requires is_open { (shown self.old).is_open ≡ true }
        requires is_ready { (shown self.old).is_ready ≡ true }
        ensures { AfterPut m (shown self.old) (shown self.new) };

    /// Writes what it can of what waits.
    fn flush<R: Wait>(&mut self, rt: &R) -> WireFlush
        requires { may_flush (shown self.old) ≡ true }
        ensures { AfterFlush result (shown self.old) (shown self.new) };

    /// How much the wire has passed on so far, in a unit of its own: it rises where a flush is taken in part. Nothing is
    /// claimed of it.
    fn taken(&self) -> u64;

    /// Ends the wire. It may be called again.
    fn shut(&mut self)
        ensures { AfterShut (shown self.old) (shown self.new) };
}
