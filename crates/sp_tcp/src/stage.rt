//! The bytes of one write.
ghost use Rattle.std.specs.Prelude.{◌≡◌, ◌≤◌, ◌-◌, [], length, IfOk};
ghost use Rattle.sp_tcp.specs.Stages.{added};

use sp_base::NoMemory;
use std::alloc::Global;
use std::marker::Model;

/// The bytes of one write, at most `most`. Its memory is taken once.
#[derive(Debug, Drop)]
pub struct WriteStage {
    bytes: Vec<u8>,
    /// The maximum number of bytes.
    most: usize,
}

impl Model for WriteStage {
    ghost use Rattle.std.specs.Prelude.{length, ◌≤◌, vec_capacity};
    ghost use Rattle.sp_tcp.specs.Views.{WriteStageView};

    ghost Value = { WriteStageView };

    ghost view = { λ s. record { bytes = s.bytes.items; most = s.most } };

    ghost invariant = { λ s. (length s.bytes.items ≤ s.most) × (s.most ≤ vec_capacity s.bytes) };
}

impl WriteStage {
    /// An empty stage for at most `most` bytes.
    pub fn new(alloc: Global, most: usize) -> Result<WriteStage, NoMemory>
        ensures { IfOk result (λ stage. stage ≡ record { bytes = []; most = most }) }
    {
        Ok(WriteStage {
            bytes: Vec::with_capacity(alloc, most)?,
            most,
        })
    }

    /// The maximum number of bytes.
    pub fn most(&self) -> usize
        ensures { result ≡ self.now.most }
    {
        self.most
    }

    /// The bytes.
    pub fn as_slice(&self) -> &[u8]
        ensures value { result.now ≡ self.now.bytes }
        ensures few { length self.now.bytes ≤ self.now.most }
    {
        &self.bytes
    }

    /// Removes the bytes.
    pub fn clear(&mut self)
        ensures { self.new ≡ record self.old { bytes = [] } }
    {
        self.bytes.clear();
    }

    /// Adds as much of a piece as there is room for, past its first `skip` bytes. Returns how many bytes are still to
    /// be skipped in the pieces that follow.
    pub fn add(&mut self, skip: usize, piece: &[u8]) -> usize
        ensures bytes { self.new ≡ added self.old skip piece.now }
        ensures skip { result ≡ skip - length piece.now }
    {
        let from = skip.min(piece.len());
        let rest = &piece[from..];
        let room = self.most - self.bytes.len();
        let count = room.min(rest.len());
        match self.bytes.extend_from_slice(&rest[..count]) {
            Ok(()) => {}
            Err(_) => unreachable!(),
        }
        skip - from
    }
}
