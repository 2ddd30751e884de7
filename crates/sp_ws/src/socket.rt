//! The only real implementation of `Frames`.
ghost use Rattle.std.specs.Prelude.{◌≡◌, ◌≤◌, ◌++◌, ℕ, List, [], length, drop};
ghost use Rattle.sp_ws.specs.Sides.{role_of};
ghost use Rattle.sp_ws.specs.Views.{fresh_frames, HasLimits};
ghost use Rattle.sp_ws.specs.declared.frames.FrameOut.TheVariants as outs;
ghost use Rattle.sp_ws.specs.Frames.{AfterFeed, AfterNext, AfterSend, last_of, came_with, breaks_with};

use crate::frames::{FrameIn, FrameOut, Frames, LastResult};
use crate::log::{Log, NextBody};
use crate::side::Side;
use crate::stream::Stream;
use sp_base::NoMemory;
use std::alloc::Global;
use std::marker::Model;

/// A `tungstenite` socket over memory, with what waits for the link.
#[derive(Drop)]
pub struct MemorySocket {
    stream: Stream,
    /// The bodies that came and those that were sent. They take no memory.
    came: Log,
    sent: Log,
    last: LastResult,
    breaks: u64,
}

impl Model for MemorySocket {
    ghost use Rattle.sp_ws.specs.Streams.{frames_view};
    ghost use Rattle.sp_ws.specs.Views.{FramesView};

    ghost Value = { FramesView };

    ghost view = { λ s. frames_view s.stream s.came.texts s.sent.texts s.last s.breaks };
}

fn kind(returned: &FrameIn) -> LastResult
    ensures { result ≡ last_of returned.now }
{
    match returned {
        FrameIn::Binary(_) => LastResult::Binary,
        FrameIn::Text => LastResult::Text,
        FrameIn::Idle => LastResult::Idle,
        FrameIn::Closed => LastResult::Closed,
        FrameIn::Broken => LastResult::Broken,
        FrameIn::NoMemory => LastResult::NoMemory,
    }
}

// Notes the body that came with this result.
fn note(came: &mut Log, returned: &FrameIn)
    ensures { came.new.texts ≡ came_with returned.now came.old.texts }
{
    if let FrameIn::Binary(body) = returned {
        *came = came.and(&NextBody {
            bytes: body.as_slice(),
        });
    }
}

fn broke(breaks: u64, returned: &FrameIn) -> u64
    ensures { result ≡ breaks_with returned.now breaks }
{
    match returned {
        FrameIn::Broken => breaks.saturating_add(1),
        _ => breaks,
    }
}

impl MemorySocket {
    /// Nothing was fed and nothing waits. Messages and frames have at most `max` bytes.
    pub fn new(alloc: Global, side: Side, max: u32) -> MemorySocket
        ensures fresh { result ≡ fresh_frames (role_of side) result.config }
        ensures limits { HasLimits max result.config }
    {
        MemorySocket {
            stream: Stream::new(alloc, side.role(), side.seed(), max),
            came: Log::none(),
            sent: Log::none(),
            last: LastResult::Nothing,
            breaks: 0,
        }
    }

    /// The capacity of its buffers, in bytes. For those of the `tungstenite` socket it counts the most that one frame
    /// or one feed brought since that socket was made.
    pub(crate) fn capacity(&self) -> usize {
        self.stream.capacity()
    }
}

impl Frames for MemorySocket {
    ghost seen = { λ s. s };

    fn feed(&mut self, b: &[u8]) -> Result<(), NoMemory>
        ensures { AfterFeed result b.now self.old self.new }
    {
        self.stream.fed.extend_from_slice(b)?;
        Ok(())
    }

    fn next(&mut self) -> FrameIn
        ensures { AfterNext result self.old self.new }
    {
        let returned = self.stream.next();
        self.last = kind(&returned);
        note(&mut self.came, &returned);
        self.breaks = broke(self.breaks, &returned);
        returned
    }

    fn send(&mut self, b: &[u8]) -> FrameOut
        ensures after { AfterSend result b.now self.old self.new }
        ensures never { result ≡ outs.Refused → ⊥ }
    {
        match self.stream.send(b) {
            Ok(()) => {
                self.sent = self.sent.and(&NextBody { bytes: b });
                FrameOut::Done
            }
            Err(_) => FrameOut::NoMemory,
        }
    }

    fn waiting(&self) -> &[u8]
        ensures { result.now ≡ self.now.waiting }
    {
        self.stream.out.as_slice()
    }

    fn taken(&mut self, n: usize)
        requires { n ≤ length self.old.waiting }
        ensures { self.new ≡ record self.old { waiting = drop n self.old.waiting } }
    {
        self.stream.out.pass(n);
        self.stream.replies = self.stream.replies.after(n);
    }
}
