//! How bytes are cut into frames (RFC 6455 section 5.2).
ghost use Rattle.std.specs.Prelude.{◌≤◌, length};

use websocket::protocol::frame::FrameHeader;
use websocket::protocol::frame::coding::OpCode;

/// The cuts between the frames of the bytes that were passed so far.
#[derive(Clone, Copy, Debug, Drop)]
pub(crate) struct Cuts {
    /// The first `got` bytes are the part of the next frame's header that came.
    head: [u8; 14],
    got: usize,
    /// The number of bytes of the last frame's payload that are still to come.
    left: u64,
    /// A message of several frames was begun, and its last one is still to come.
    is_begun: bool,
    /// What came is no header.
    is_broken: bool,
    /// The largest number of bytes that a frame had, or that were passed at once.
    most: u64,
    ghost inside: { got ≤ 14 },
}

impl Cuts {
    /// Before any byte was passed.
    pub(crate) fn new() -> Cuts {
        Cuts {
            head: [0; 14],
            got: 0,
            left: 0,
            is_begun: false,
            is_broken: false,
            most: 0,
        }
    }

    /// Returns whether all frames came whole, and all messages that were begun.
    pub(crate) fn are_whole(&self) -> bool {
        self.got == 0 && self.left == 0 && !self.is_begun && !self.is_broken
    }

    /// The largest number of bytes that a frame had, or that were passed at once.
    pub(crate) fn most(&self) -> u64 {
        self.most
    }

    // The next frame has this header and `size` bytes of payload.
    fn begin(&mut self, header: FrameHeader, size: u64) {
        self.got = 0;
        self.left = size;
        self.most = self.most.max(size);
        if let OpCode::Data(_) = header.opcode {
            self.is_begun = !header.is_final;
        }
    }

    // Adds one byte of a header.
    fn add(&mut self, byte: u8) {
        if self.got >= self.head.len() {
            self.is_broken = true;
            return;
        }
        self.head[self.got] = byte;
        self.got += 1;
        match FrameHeader::parse(&self.head[..self.got]) {
            Ok(Some((header, size))) => self.begin(header, size),
            Ok(None) => {}
            Err(_) => self.is_broken = true,
        }
    }

    // Passes what these bytes bring of a payload, or one byte of a header. Returns the number of bytes that it passed.
    fn pass_some(&mut self, first: u8, long: usize) -> usize
        requires { 1 ≤ long }
        ensures some { 1 ≤ result }
        ensures most { result ≤ long }
    {
        if self.left == 0 {
            self.add(first);
            return 1;
        }
        let n = self.left.min(long as u64);
        self.left -= n;
        n as usize
    }

    /// Passes these bytes.
    pub(crate) fn pass(&mut self, b: &[u8]) {
        self.most = self.most.max(b.len() as u64);
        let mut at = 0;
        'passes: while at < b.len() {
            at += self.pass_some(b[at], b.len() - at);
        }
    }
}
