//! The header of a message: at most 64 bytes, in place.
ghost use Rattle.std.specs.Prelude.{◌≡◌, ◌≤◌, ◌<◌, ◌++◌, [], take, drop, length, MatchResult};
ghost use Rattle.std.specs.Int.{w32, to_be_bytes};

use crate::message::{HeaderFull, Short};
use std::marker::Model;

/// The room that each message keeps for its header, in bytes.
pub(crate) const HEADER_ROOM: usize = 64;

/// The bytes of a header, in order.
#[derive(Debug, Drop)]
pub(crate) struct Header {
    /// The header, and the rest of its room.
    bytes: [u8; HEADER_ROOM],
    /// The length of the header.
    len: usize,
}

impl Model for Header {
    ghost use Rattle.std.specs.Prelude.{ℕ, List, take, length, ◌≡◌, ◌≤◌};

    ghost Value = { List ℕ };

    ghost view = { λ h. take h.len h.bytes };

    ghost invariant = { λ h. (h.len ≤ 64) × (length h.bytes ≡ 64) };
}

// The number in the first 4 bytes.
pub(crate) fn number_at(s: &[u8]) -> u32
    requires { 4 ≤ length s.now }
    ensures { take 4 s.now ≡ to_be_bytes w32 result }
{
    u32::from_be_bytes([s[0], s[1], s[2], s[3]])
}

impl Header {
    /// An empty header.
    pub(crate) fn new() -> Header
        ensures { result ≡ [] }
    {
        Header {
            bytes: [0; HEADER_ROOM],
            len: 0,
        }
    }

    /// An equal header.
    pub(crate) fn copy(&self) -> Header
        ensures { result ≡ self.now }
    {
        Header {
            bytes: self.bytes,
            len: self.len,
        }
    }

    /// Its bytes, at most 64.
    pub(crate) fn as_slice(&self) -> &[u8]
        ensures value { result.now ≡ self.now }
        ensures most { length self.now ≤ 64 }
    {
        &self.bytes[..self.len]
    }

    /// The number of bytes.
    pub(crate) fn len(&self) -> usize
        ensures value { result ≡ length self.now }
        ensures most { result ≤ 64 }
    {
        self.len
    }

    /// Appends `w`, big-endian. Fails where the header has more than 60 bytes, and then nothing changes.
    pub(crate) fn append_u32(&mut self, w: u32) -> Result<(), HeaderFull>
        ensures { MatchResult result (λ _. (length self.old ≤ 60) × (self.new ≡ self.old ++ to_be_bytes w32 w))
            (λ _. (60 < length self.old) × (self.new ≡ self.old)) }
    {
        if self.len > 60 {
            return Err(HeaderFull);
        }
        let end = self.len + 4;
        self.bytes[self.len..end].copy_from_slice(&w.to_be_bytes());
        self.len = end;
        Ok(())
    }

    /// Removes the first 4 bytes, and returns them as a number, big-endian. Fails where there are fewer, and then
    /// nothing changes.
    pub(crate) fn trim_u32(&mut self) -> Result<u32, Short>
        ensures { MatchResult result (λ w. (take 4 self.old ≡ to_be_bytes w32 w) × (4 ≤ length self.old) × (self.new ≡ drop 4 self.old))
            (λ _. (length self.old < 4) × (self.new ≡ self.old)) }
    {
        if self.len < 4 {
            return Err(Short);
        }
        let number = number_at(&self.bytes[..self.len]);
        self.bytes.copy_within(4..self.len, 0);
        self.len -= 4;
        Ok(number)
    }

    /// Removes all bytes.
    pub(crate) fn clear(&mut self)
        ensures { self.new ≡ [] }
    {
        self.len = 0;
    }
}
