//! Numbers that other numbers give: a map.
ghost use Rattle.std.specs.Prelude.{◌≡◌, ◌==◌, ℕ, [], Some, None, if◌then◌else◌, OnOk, OnErr};
ghost use Rattle.proto_requests.specs.Numbers.{number_at, is_known};

use sp_base::NoMemory;
use std::alloc::Global;
use std::collections::HashMap;
use std::marker::Model;

/// Numbers, each given by another one. The cost of a call doesn't grow with how many there are.
#[derive(Drop)]
pub struct Numbers {
    known: HashMap<u32, u64>,
}

impl Model for Numbers {
    ghost use Rattle.std.specs.Prelude.{ℕ, List};

    ghost Value = { List (ℕ × ℕ) };

    ghost view = { λ s. s.known.entries };
}

impl Numbers {
    /// An empty map.
    pub fn new(alloc: Global) -> Numbers
        ensures { result ≡ [] }
    {
        Numbers {
            known: HashMap::new(alloc),
        }
    }

    /// The number for `k`.
    pub fn get(&self, k: u32) -> Option<u64>
        ensures { result ≡ number_at self.now k }
    {
        self.known.get(&k).copied()
    }

    /// Returns whether there is a number for `k`.
    pub fn has(&self, k: u32) -> bool
        ensures { result ≡ is_known self.now k }
    {
        self.get(k).is_some()
    }

    /// Makes room for `more` more.
    pub fn reserve(&mut self, more: usize) -> Result<(), NoMemory>
        ensures { (q : ℕ) → number_at self.new q ≡ number_at self.old q }
    {
        match self.known.reserve(more) {
            Ok(()) => Ok(()),
            Err(_) => Err(NoMemory),
        }
    }

    /// Adds the number for `k`. std's map promises that a remove takes none of the room that was reserved, but not that
    /// it gives any back: so a put may find none, and then nothing changes.
    pub fn put(&mut self, k: u32, n: u64) -> Result<(), NoMemory>
        ensures known { OnOk result ((q : ℕ) → number_at self.new q ≡ (if k == q then Some n else number_at self.old q)) }
        ensures same { OnErr result (self.new ≡ self.old) }
    {
        match self.known.insert(k, n) {
            Ok(_) => Ok(()),
            Err(_) => Err(NoMemory),
        }
    }

    /// Removes the number for `k`.
    pub fn remove(&mut self, k: u32)
        ensures { (q : ℕ) → number_at self.new q ≡ (if k == q then None else number_at self.old q) }
    {
        let _ = self.known.remove(&k);
    }

    /// Removes all.
    pub fn clear(&mut self)
        ensures { self.new ≡ [] }
    {
        self.known.clear();
    }
}
