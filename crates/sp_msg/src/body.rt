//! The body of a message: bytes that copies share.
//!
//! A body is a part of a block of bytes. A copy of a body is one more owner of its block. A block is written only
//! while it has one owner; otherwise the bytes go to a new block.
ghost use Rattle.std.specs.Prelude.{◌≡◌, ◌≤◌, ◌<◌, ◌+◌, ◌-◌, ◌^◌, ◌++◌, take, drop, length, IfOk, OnOk, OnErr, IsTrue, IsFalse};
ghost use Rattle.std.specs.Arc.{arc_value};

use crate::header::HEADER_ROOM;
use sp_base::NoMemory;
use std::alloc::Global;
use std::marker::Model;
use std::sync::Arc;

/// The maximum length of a body, in bytes. With a header it has fewer than 2^63.
const MAX_BODY: usize = isize::MAX as usize - HEADER_ROOM;

/// A part of a block of bytes.
#[derive(Debug, Drop)]
pub(crate) struct Body {
    /// Where memory is allocated.
    alloc: Global,
    /// The block.
    block: Arc<Vec<u8>>,
    /// Where the body begins in the block.
    from: usize,
    /// Where the body ends in the block.
    to: usize,
}

impl Model for Body {
    ghost use Rattle.std.specs.Prelude.{ℕ, List, slice_range, length, ◌≤◌, ◌<◌, ◌+◌, ◌-◌, ◌^◌};
    ghost use Rattle.std.specs.Arc.{arc_value};

    ghost Value = { List ℕ };

    ghost view = { λ b. slice_range (arc_value b.block).items b.from b.to };

    ghost invariant = { λ b. (b.from ≤ b.to) × (b.to ≤ length (arc_value b.block).items) × (b.to - b.from + 64 < 2 ^ 63) };
}

// The number of bytes of two pieces; no body is longer than `MAX_BODY`.
fn size_of_both(a: usize, b: usize) -> Result<usize, NoMemory>
    ensures { IfOk result (λ n. (n ≡ a + b) × (n + 64 < 2 ^ 63)) }
{
    let size = a.saturating_add(b);
    if size > MAX_BODY {
        return Err(NoMemory);
    }
    Ok(size)
}

// Joins two pieces in a block of their own.
fn joined(alloc: Global, a: &[u8], b: &[u8]) -> Result<Body, NoMemory>
    ensures { IfOk result (λ body. body ≡ a.now ++ b.now) }
{
    let size = size_of_both(a.len(), b.len())?;
    let mut all = Vec::with_capacity(alloc, size)?;
    all.extend_from_slice(a)?;
    all.extend_from_slice(b)?;
    let block = Arc::new(alloc, all)?;
    Ok(Body {
        alloc,
        block,
        from: 0,
        to: size,
    })
}

// Writes `piece` after the first `to` bytes of a block, if the block has one owner. On `NoMemory` these bytes are
// unchanged.
fn extended(block: &mut Arc<Vec<u8>>, to: usize, piece: &[u8]) -> Result<bool, NoMemory>
    requires { to ≤ length (arc_value block.old).items }
    ensures ok { IfOk result (λ own. (IsTrue own → (arc_value block.new).items ≡ take to (arc_value block.old).items ++ piece.now)
        × (IsFalse own → arc_value block.new ≡ arc_value block.old)) }
    ensures err { OnErr result (take to (arc_value block.new).items ≡ take to (arc_value block.old).items) }
{
    match Arc::get_mut(block) {
        Some(own) => {
            own.truncate(to);
            own.extend_from_slice(piece)?;
            Ok(true)
        }
        None => Ok(false),
    }
}

// Overwrites the bytes of a block from `at` on with `piece`, if the block has one owner.
fn overwritten(block: &mut Arc<Vec<u8>>, at: usize, piece: &[u8]) -> bool
    requires { at + length piece.now ≤ length (arc_value block.old).items }
    ensures own { IsTrue result → (arc_value block.new).items
        ≡ take at (arc_value block.old).items ++ piece.now ++ drop (at + length piece.now) (arc_value block.old).items }
    ensures shared { IsFalse result → arc_value block.new ≡ arc_value block.old }
{
    match Arc::get_mut(block) {
        Some(own) => {
            own[at..at + piece.len()].copy_from_slice(piece);
            true
        }
        None => false,
    }
}

impl Body {
    /// A body of these bytes, in a block of its own.
    pub(crate) fn from_slice(alloc: Global, bytes: &[u8]) -> Result<Body, NoMemory>
        ensures { IfOk result (λ body. body ≡ bytes.now) }
    {
        joined(alloc, bytes, &[])
    }

    /// An equal body in the same block.
    pub(crate) fn copy(&self) -> Result<Body, NoMemory>
        ensures { IfOk result (λ body. body ≡ self.now) }
    {
        let block = Arc::try_clone(&self.block)?;
        Ok(Body {
            alloc: self.alloc,
            block,
            from: self.from,
            to: self.to,
        })
    }

    /// Its bytes.
    pub(crate) fn as_slice(&self) -> &[u8]
        ensures { result.now ≡ self.now }
    {
        &self.block[self.from..self.to]
    }

    /// The number of bytes.
    pub(crate) fn len(&self) -> usize
        ensures value { result ≡ length self.now }
        ensures most { result + 64 < 2 ^ 63 }
    {
        self.to - self.from
    }

    /// Removes the first `n` bytes.
    pub(crate) fn trim(&mut self, n: usize)
        requires { n ≤ length self.old }
        ensures { self.new ≡ drop n self.old }
    {
        self.from += n;
    }

    /// Removes the last `n` bytes.
    pub(crate) fn chop(&mut self, n: usize)
        requires { n ≤ length self.old }
        ensures { self.new ≡ take (length self.old - n) self.old }
    {
        self.to -= n;
    }

    /// Appends `piece`, in place if the block has one owner. On `NoMemory` the body is unchanged.
    pub(crate) fn append(&mut self, piece: &[u8]) -> Result<(), NoMemory>
        ensures ok { OnOk result (self.new ≡ self.old ++ piece.now) }
        ensures err { OnErr result (self.new ≡ self.old) }
    {
        size_of_both(self.len(), piece.len())?;
        if extended(&mut self.block, self.to, piece)? {
            self.to += piece.len();
            return Ok(());
        }
        let moved = joined(self.alloc, self.as_slice(), piece)?;
        *self = moved;
        Ok(())
    }

    // Puts `piece` before the body in its block, if that has the room and one owner.
    fn fits_before(&mut self, piece: &[u8]) -> bool
        requires { length self.old + length piece.now + 64 < 2 ^ 63 }
        ensures own { IsTrue result → self.new ≡ piece.now ++ self.old }
        ensures not { IsFalse result → self.new ≡ self.old }
    {
        if self.from < piece.len() {
            return false;
        }
        let start = self.from - piece.len();
        if !overwritten(&mut self.block, start, piece) {
            return false;
        }
        self.from = start;
        true
    }

    /// Puts `piece` before the body, in place if the block has the room and one owner. On `NoMemory` the body is
    /// unchanged.
    pub(crate) fn insert(&mut self, piece: &[u8]) -> Result<(), NoMemory>
        ensures ok { OnOk result (self.new ≡ piece.now ++ self.old) }
        ensures err { OnErr result (self.new ≡ self.old) }
    {
        size_of_both(self.len(), piece.len())?;
        if piece.is_empty() || self.fits_before(piece) {
            return Ok(());
        }
        let moved = joined(self.alloc, piece, self.as_slice())?;
        *self = moved;
        Ok(())
    }
}
