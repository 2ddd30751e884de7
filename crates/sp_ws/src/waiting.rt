//! Bytes that wait for the link.
ghost use Rattle.std.specs.Prelude.{◌≡◌, ◌≤◌, ◌++◌, [], length, drop, OnOk, OnErr};

use crate::rooms::give_back;
use sp_base::NoMemory;
use std::alloc::Global;
use std::marker::Model;

/// Bytes that wait for the link, after those that it took. The rest moves to the front once it is no longer than what
/// was taken, so that a byte moves less than once on average.
#[derive(Drop)]
pub(crate) struct Waiting {
    bytes: Vec<u8>,
    /// The number of leading bytes that the link took.
    taken: usize,
}

impl Model for Waiting {
    ghost use Rattle.std.specs.Prelude.{◌≤◌, ℕ, List, drop, length};

    ghost Value = { List ℕ };

    ghost view = { λ w. drop w.taken w.bytes.items };

    ghost invariant = { λ w. w.taken ≤ length w.bytes.items };
}

impl Waiting {
    /// No bytes.
    pub(crate) fn new(alloc: Global) -> Waiting
        ensures { result ≡ [] }
    {
        Waiting {
            bytes: Vec::new(alloc),
            taken: 0,
        }
    }

    /// All bytes that wait.
    pub(crate) fn as_slice(&self) -> &[u8]
        ensures { result.now ≡ self.now }
    {
        &self.bytes[self.taken..]
    }

    /// The number of bytes that wait.
    pub(crate) fn len(&self) -> usize
        ensures { result ≡ length self.now }
    {
        self.bytes.len() - self.taken
    }

    /// The capacity, in bytes.
    pub(crate) fn capacity(&self) -> usize {
        self.bytes.capacity()
    }

    /// Appends `b` to what waits.
    pub(crate) fn extend(&mut self, b: &[u8]) -> Result<(), NoMemory>
        ensures ok { OnOk result (self.new ≡ self.old ++ b.now) }
        ensures err { OnErr result (self.new ≡ self.old) }
    {
        self.bytes.extend_from_slice(b)?;
        Ok(())
    }

    /// Removes the first `n` bytes, which the link took. Takes no memory.
    pub(crate) fn pass(&mut self, n: usize)
        requires { n ≤ length self.old }
        ensures { self.new ≡ drop n self.old }
    {
        self.taken += n;
        if self.bytes.len() - self.taken <= self.taken {
            self.bytes.drain(..self.taken);
            self.taken = 0;
        }
        give_back(&mut self.bytes);
    }
}
