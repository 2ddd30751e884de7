//! A link over TCP or a Unix socket.
ghost use Rattle.std.specs.Prelude.{◌≡◌, ◌<◌, ◌-◌, ◌^◌, ◌⊎◌, ◌↔◌, IsTrue};
ghost use Rattle.std.specs.IoError.{error_kind};
ghost use Rattle.std.specs.declared.io.ErrorKind.TheVariants as kinds;
ghost use Rattle.sp_base.specs.Steps.{IsNew};
ghost use Rattle.sp_real.specs.Real.{counts_view};

use crate::stream::LinkStream;
use crate::wake::Mark;
use sp_base::{Link, LinkRead, LinkWrite, Scheme};
use std::io;
use std::io::ErrorKind;

/// What a link shows, except its content.
#[derive(Clone, Copy, Debug, PartialEq, Eq)]
pub struct Counts {
    pub(crate) place: u32,
    pub(crate) scheme: Scheme,
    pub(crate) faults: u64,
    pub(crate) idles: u64,
    pub(crate) stalls: u64,
    pub(crate) is_open: bool,
    pub(crate) ended: bool,
}

/// A link that gave this many bytes since it last had nothing returns once that nothing is there. So a peer that sends
/// without pause can't hold up a reader that reads until nothing is there.
pub const TURN_BYTES: usize = 262_144;

/// A connection that doesn't wait (nng_stream(5)). After each `TURN_BYTES` bytes it returns once that nothing is there.
pub struct TcpLink {
    stream: LinkStream,
    mark: Mark,
    pub(crate) counts: Counts,
    // The number of bytes that came since a read found nothing.
    since: usize,
}

// Returns whether nothing is there yet.
pub(crate) fn waits(e: &io::Error) -> bool
    ensures { IsTrue result ↔ ((error_kind e.now ≡ kinds.WouldBlock) ⊎ (error_kind e.now ≡ kinds.Interrupted)) }
{
    e.kind() == ErrorKind::WouldBlock || e.kind() == ErrorKind::Interrupted
}

impl TcpLink {
    /// A link whose small messages aren't held back.
    pub(crate) fn new(stream: LinkStream, mark: Mark, place: u32, scheme: Scheme) -> TcpLink
        requires { place < 2 ^ 32 - 2 }
        ensures fresh { IsNew place (counts_view result.counts) }
        ensures scheme { result.counts.scheme ≡ scheme }
    {
        stream.hold_nothing();
        mark.set();
        let counts = Counts {
            place,
            scheme,
            faults: 0,
            idles: 0,
            stalls: 0,
            is_open: true,
            ended: false,
        };
        TcpLink {
            stream,
            mark,
            counts,
            since: 0,
        }
    }

    /// Its parts.
    pub(crate) fn into_parts(self) -> (LinkStream, Mark, Counts)
        ensures { result.2 ≡ self.counts }
    {
        let TcpLink {
            stream,
            mark,
            counts,
            since: _,
        } = self;
        (stream, mark, counts)
    }

    /// Returns whether small messages are sent at once (tcp(7), TCP_NODELAY).
    pub fn nodelay(&self) -> io::Result<bool> {
        self.stream.nodelay()
    }

    // Returns whether a read has to ask the machine.
    fn may_read(&mut self) -> bool
        ensures { self.new.counts ≡ self.old.counts }
    {
        if self.since >= TURN_BYTES {
            self.since = 0;
            self.mark.has_more();
            return false;
        }
        if self.mark.take() {
            return true;
        }
        self.since = 0;
        false
    }

    // Records that `n` bytes came.
    fn got(&mut self, n: usize)
        ensures { self.new.counts ≡ self.old.counts }
    {
        self.mark.set();
        self.since = self.since.saturating_add(n);
    }

    // Records that the machine gave no bytes. After a signal there may still be some.
    fn got_none(&mut self, e: &io::Error)
        ensures { self.new.counts ≡ self.old.counts }
    {
        self.since = 0;
        if e.kind() != ErrorKind::WouldBlock {
            self.mark.has_more();
        }
    }
}

impl Link for TcpLink {
    ghost seen = { λ l. counts_view l.counts };

    fn place(&self) -> u32 {
        self.counts.place
    }

    fn read(&mut self, buf: &mut [u8]) -> LinkRead {
        if self.counts.ended {
            return LinkRead::Ended;
        }
        if !self.may_read() {
            self.counts.idles = self.counts.idles.saturating_add(1);
            return LinkRead::NotYet;
        }
        match self.stream.read(buf) {
            Ok(0) => {
                self.counts.ended = true;
                LinkRead::Ended
            }
            Ok(n) => {
                self.got(n);
                LinkRead::Got(n)
            }
            Err(e) => {
                self.got_none(&e);
                if waits(&e) {
                    self.counts.idles = self.counts.idles.saturating_add(1);
                    LinkRead::NotYet
                } else {
                    self.counts.faults = self.counts.faults.saturating_add(1);
                    LinkRead::Failed
                }
            }
        }
    }

    fn write(&mut self, buf: &[u8]) -> LinkWrite {
        match self.stream.write(buf) {
            Ok(0) => {
                self.counts.stalls = self.counts.stalls.saturating_add(1);
                LinkWrite::NotYet
            }
            Ok(n) => LinkWrite::Took(n),
            Err(e) => {
                if waits(&e) {
                    self.counts.stalls = self.counts.stalls.saturating_add(1);
                    LinkWrite::NotYet
                } else {
                    self.counts.faults = self.counts.faults.saturating_add(1);
                    LinkWrite::Failed
                }
            }
        }
    }

    fn shut(&mut self) {
        self.stream.shut();
        self.counts.is_open = false;
    }
}
