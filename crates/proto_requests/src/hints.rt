//! Entries that are worth a look.
//!
//! The entries are in the order in which they came. Each that is worth a look is among them, and others as well. Where
//! there was no room for one, all count as worth a look.
ghost use Rattle.std.specs.Prelude.{◌≡◌, ◌⊎◌, ◌++◌, ◌∷◌, Bool, true, false, [], drop, length};
ghost use Rattle.sp_history.specs.Lists.{head_of};
ghost use Rattle.proto_requests.specs.Hints.{covers_by, StayCovered};

use sp_base::NoMemory;
use std::alloc::Global;
use std::collections::VecDeque;
use std::marker::Model;

/// Entries that are worth a look. A look, an `add` and a `drop_first` cost the same for any number of entries.
#[derive(Drop)]
pub struct Hints<T: Copy> {
    /// The entries, the oldest first.
    queue: VecDeque<T>,
    /// Whether all that are worth a look are here.
    is_whole: bool,
}

impl<T: Copy> Model for Hints<T> {
    ghost use Rattle.proto_requests.specs.Hints.{HintsView};

    ghost Value = { HintsView T };

    ghost view = { λ m. record { whole = m.is_whole; items = m.queue.items } };
}

impl<T: Copy> Hints<T> {
    /// No entries.
    pub fn new(alloc: Global) -> Hints<T>
        ensures { result ≡ record { whole = true; items = [] } }
    {
        Hints {
            queue: VecDeque::new(alloc),
            is_whole: true,
        }
    }

    /// Returns whether all that are worth a look are here.
    pub fn is_whole(&self) -> bool
        ensures { result ≡ self.now.whole }
    {
        self.is_whole
    }

    /// The number of entries.
    pub fn len(&self) -> usize
        ensures { result ≡ length self.now.items }
    {
        self.queue.len()
    }

    /// The oldest.
    pub fn first(&self) -> Option<T>
        ensures { result ≡ head_of self.now.items }
    {
        self.queue.front().copied()
    }

    /// Removes the oldest.
    pub fn drop_first(&mut self)
        ensures { self.new ≡ record { whole = self.old.whole; items = drop 1 self.old.items } }
    {
        let _ = self.queue.pop_front();
    }

    /// Makes room for `more` more entries.
    pub fn reserve(&mut self, more: usize) -> Result<(), NoMemory>
        ensures { self.new ≡ self.old }
    {
        match self.queue.reserve(more) {
            Ok(()) => Ok(()),
            Err(_) => Err(NoMemory),
        }
    }

    /// Adds an entry that is worth a look. Takes no memory.
    pub fn add(&mut self, x: T)
        ensures more { (P : T → Bool) → P x ≡ true → covers_by self.new P ≡ true }
        ensures same { StayCovered self.old self.new }
        ensures items { (self.new.items ≡ self.old.items ++ x ∷ []) ⊎ (self.new.items ≡ []) }
    {
        if self.queue.len() < self.queue.capacity() {
            self.queue.push_back_reserved(x);
        } else {
            self.give_up();
        }
    }

    /// Moves the entries of `other` here. Takes no memory.
    pub fn take_over(&mut self, other: &mut Hints<T>)
        ensures it { StayCovered other.old self.new }
        ensures same { StayCovered self.old self.new }
        ensures other { other.new ≡ record { whole = true; items = [] } }
    {
        if !other.is_whole || other.queue.len() > self.queue.capacity() - self.queue.len() {
            self.give_up();
        } else if self.queue.append(&mut other.queue).is_err() {
            self.give_up();
        }
        other.clear();
    }

    /// Removes all entries.
    pub fn clear(&mut self)
        ensures { self.new ≡ record { whole = true; items = [] } }
    {
        self.queue.clear();
        self.is_whole = true;
    }

    /// Makes all worth a look.
    pub fn give_up(&mut self)
        ensures { self.new ≡ record { whole = false; items = [] } }
    {
        self.queue.clear();
        self.is_whole = false;
    }
}
