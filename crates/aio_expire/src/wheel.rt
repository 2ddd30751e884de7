//! The lists of a wheel: slots in buckets, linked by their numbers.
ghost use Rattle.std.specs.Prelude.{ℕ, ◌≡◌, ◌+◌, ◌<◌, ◌≤◌, nat_lt, if◌then◌else◌, [], length, slice_get, slice_index, IfOk};
ghost use Rattle.aio_expire.specs.Buckets.{list_at, count_in, but, after, joined_at, IsListed};

use sp_base::NoMemory;
use std::alloc::Global;
use std::marker::Model;

/// The number of lists of a wheel.
pub const BUCKETS: u32 = 513;

/// Slots in 513 lists, each slot in at most one list. Contracts see it as these lists, numbered from 0.
#[derive(Debug, Drop)]
pub struct Wheel {
    // Slots are the numbers below this. The heads of the lists are the numbers after them.
    slots: u32,
    // By slot or head: the slot that follows in its list, or the list's head.
    next: Vec<u32>,
    // By slot or head: the slot before it in its list, or the list's head.
    prev: Vec<u32>,
}

impl Model for Wheel {
    ghost use Rattle.std.specs.Prelude.{◌≤◌};
    ghost use Rattle.aio_expire.specs.Buckets.{Buckets, AreRings, rings};

    ghost Value = { Buckets };

    ghost view = { λ w. record { slots = w.slots; lists = rings w.slots w.next.items } };

    ghost invariant = { λ w. AreRings w.slots w.next.items w.prev.items × (w.slots ≤ 4096) };
}

// The numbers below `count`, in order.
fn numbers(alloc: Global, count: u32) -> Result<Vec<u32>, NoMemory>
    ensures length { IfOk result (λ v. length v.items ≡ count) }
    ensures each { IfOk result (λ v. (k : ℕ) → k < count → slice_index v.items k ≡ k) }
{
    let mut numbers = Vec::with_capacity(alloc, count as usize)?;
    for number in 0..count {
        numbers.push(number)?;
    }
    Ok(numbers)
}

impl Wheel {
    // Empty lists, for the slots below `slots`.
    pub(crate) fn new(alloc: Global, slots: u32) -> Result<Wheel, NoMemory>
        requires { slots ≤ 4096 }
        ensures slots { IfOk result (λ w. w.slots ≡ slots) }
        ensures count { IfOk result (λ w. length w.lists ≡ 513) }
        ensures empty { IfOk result (λ w. (b : ℕ) → list_at b w.lists ≡ []) }
    {
        let next = numbers(alloc, slots + BUCKETS)?;
        let prev = numbers(alloc, slots + BUCKETS)?;
        Ok(Wheel { slots, next, prev })
    }

    /// The first slot of a list. `None` exactly where the list is empty.
    pub fn first(&self, bucket: u32) -> Option<u32>
        requires { bucket < 513 }
        ensures { result ≡ slice_get (list_at bucket self.now.lists) 0 }
    {
        self.slot(self.next[(self.slots + bucket) as usize])
    }

    /// The slot that follows `slot` in its list. `None` exactly where it is the last. The slot must be in a list.
    pub fn next(&self, slot: u32) -> Option<u32>
        requires { IsListed slot self.now.lists }
        ensures { (b : ℕ) → 0 < count_in slot (list_at b self.now.lists) → result ≡ after slot (list_at b self.now.lists) }
    {
        self.slot(self.next[slot as usize])
    }

    // The number, if it is a slot.
    fn slot(&self, number: u32) -> Option<u32>
        ensures { result ≡ (if nat_lt number self.now.slots then Some number else None) }
    {
        if number < self.slots {
            Some(number)
        } else {
            None
        }
    }

    // Puts a slot that is in no list at the front of one.
    pub(crate) fn link(&mut self, slot: u32, bucket: u32)
        requires slot { slot < self.old.slots }
        requires bucket { bucket < 513 }
        requires free { (b : ℕ) → count_in slot (list_at b self.old.lists) ≡ 0 }
        ensures lists { (b : ℕ) → list_at b self.new.lists ≡ joined_at slot bucket b (list_at b self.old.lists) }
        ensures slots { self.new.slots ≡ self.old.slots }
        ensures count { length self.new.lists ≡ 513 }
    {
        let head = self.slots + bucket;
        let first = self.next[head as usize];
        self.next[slot as usize] = first;
        self.prev[slot as usize] = head;
        self.next[head as usize] = slot;
        self.prev[first as usize] = slot;
    }

    // Takes a slot out of its list.
    pub(crate) fn unlink(&mut self, slot: u32)
        requires { IsListed slot self.old.lists }
        ensures lists { (b : ℕ) → list_at b self.new.lists ≡ but slot (list_at b self.old.lists) }
        ensures slots { self.new.slots ≡ self.old.slots }
        ensures count { length self.new.lists ≡ 513 }
    {
        let before = self.prev[slot as usize];
        let behind = self.next[slot as usize];
        self.next[before as usize] = behind;
        self.prev[behind as usize] = before;
    }
}
