//! What is kept of the pipes.
//!
//! Messages are numbered as they come, and kept in the order of these numbers. A pipe gives the number of what is kept
//! of it. So a message that is kept, given or dropped moves no other.
ghost use Rattle.std.specs.Prelude.{◌≡◌, ◌++◌, ◌∷◌, ◌==◌, ℕ, [], true, false, not, if◌then◌else◌, filter, drop, length, option_to_list, OnOk, OnErr};
ghost use Rattle.std.specs.List.{list_any};
ghost use Rattle.sp_history.specs.Lists.{head_of};
ghost use Rattle.proto_requests.specs.Backlogs.{is_of};

use crate::numbers::Numbers;
use sp_base::{NoMemory, PipeId};
use std::alloc::Global;
use std::collections::BTreeMap;
use std::marker::Model;

/// What came on a pipe.
pub trait FromPipe: Drop {
    // Its pipe.
    ghost pipe_of: { Self → ℕ };

    /// Its pipe.
    fn pipe(&self) -> PipeId
        ensures { result ≡ pipe_of self.now };
}

/// What is kept, at most one of each pipe.
#[derive(Drop)]
pub struct Backlog<T: FromPipe> {
    /// What is kept, by its number, the oldest first.
    kept: BTreeMap<u64, T>,
    /// The number of what is kept of each pipe.
    numbers: Numbers,
    /// The number of what comes next, above those of all that is kept.
    next: u64,
}

impl<T: FromPipe> Model for Backlog<T> {
    ghost use Rattle.std.specs.Map.{values_of};
    ghost use Rattle.proto_requests.specs.Numbers.{number_at};
    ghost use Rattle.proto_requests.specs.Backlogs.{BacklogView, AreNumbered};

    ghost Value = { BacklogView T };

    ghost view = { λ m. record { items = values_of m.kept.entries } };

    ghost invariant = { λ m. AreNumbered T.pipe_of (number_at m.numbers) m.next m.kept.entries };
}

impl<T: FromPipe> Backlog<T> {
    /// Nothing is kept.
    pub fn new(alloc: Global) -> Backlog<T>
        ensures { result ≡ record { items = [] } }
    {
        Backlog {
            kept: BTreeMap::new(alloc),
            numbers: Numbers::new(alloc),
            next: 0,
        }
    }

    /// Returns whether nothing is kept.
    pub fn is_empty(&self) -> bool
        ensures { result ≡ (length self.now.items == 0) }
    {
        self.kept.len() == 0
    }

    /// Returns whether something of the pipe is kept.
    pub fn has(&self, p: PipeId) -> bool
        ensures { result ≡ list_any (is_of T.pipe_of p) self.now.items }
    {
        self.numbers.has(p.0)
    }

    /// Keeps one of a pipe of which none is kept; another one is dropped. Where there is no memory, or 2^64 - 1 were
    /// kept before, nothing changes.
    pub fn push(&mut self, item: T) -> Result<(), NoMemory>
        ensures more { OnOk result (list_any (is_of T.pipe_of (T.pipe_of item)) self.old.items ≡ false → self.new.items ≡ self.old.items ++ item ∷ []) }
        ensures same { OnErr result (self.new ≡ self.old) }
    {
        let p = item.pipe();
        if self.numbers.has(p.0) {
            return Ok(());
        }
        let n = self.next;
        if n == u64::MAX {
            return Err(NoMemory);
        }
        if self.numbers.put(p.0, n).is_err() {
            return Err(NoMemory);
        }
        if self.kept.insert(n, item).is_err() {
            self.numbers.remove(p.0);
            return Err(NoMemory);
        }
        self.next = n + 1;
        Ok(())
    }

    /// Takes out the oldest.
    pub fn pop(&mut self) -> Option<T>
        ensures items { self.old.items ≡ option_to_list result ++ self.new.items }
        ensures first { result ≡ head_of self.old.items }
        ensures rest { self.new.items ≡ drop 1 self.old.items }
    {
        match self.kept.pop_first() {
            None => None,
            Some((_, item)) => {
                self.numbers.remove(item.pipe().0);
                Some(item)
            }
        }
    }

    /// Drops what is kept of the pipe.
    pub fn forget(&mut self, p: PipeId)
        ensures { self.new.items ≡ filter (λ (x : T). not (is_of T.pipe_of p x)) self.old.items }
    {
        match self.numbers.get(p.0) {
            None => {}
            Some(n) => {
                // Brings into the proof that the numbers are in order.
                let _len = self.kept.len();
                let _ = self.kept.remove(&n);
                self.numbers.remove(p.0);
            }
        }
    }

    /// Drops all.
    pub fn clear(&mut self)
        ensures { self.new.items ≡ [] }
    {
        self.kept.clear();
        self.numbers.clear();
    }
}
