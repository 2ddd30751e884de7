//! Rings of places: doubly linked lists that end where they began, by the numbers of their places.
ghost use Rattle.std.specs.Prelude.{◌≡◌, ◌<◌, ℕ, length, IfOk};
ghost use Rattle.core_state.specs.Rings.{at, AreAlone, PutsLast, TakesOut};

use sp_base::NoMemory;
use std::alloc::Global;

/// Places, each in a ring: a list whose last place leads to the first.
#[derive(Drop)]
pub struct Rings {
    /// By place: the next of its ring.
    pub after: Vec<u32>,
    /// By place: the one before it.
    pub before: Vec<u32>,
}

// The numbers of the places below `places`.
fn numbers(alloc: Global, places: u32) -> Result<Vec<u32>, NoMemory>
    ensures { IfOk result (λ v. AreAlone places v.items) }
{
    let mut numbers = Vec::with_capacity(alloc, places as usize)?;
    for place in 0..places {
        numbers.push(place)?;
    }
    Ok(numbers)
}

impl Rings {
    /// As many places as `places` says, each in a ring of its own.
    pub fn alone(alloc: Global, places: u32) -> Result<Rings, NoMemory>
        ensures { IfOk result (λ r. AreAlone places r.after.items × AreAlone places r.before.items) }
    {
        Ok(Rings {
            after: numbers(alloc, places)?,
            before: numbers(alloc, places)?,
        })
    }

    /// Puts the place into a ring before the head, as the last of the ring.
    pub fn put_last(&mut self, head: u32, place: u32)
        requires { (head < length self.old.before.items) × (place < length self.old.before.items) × (place < length self.old.after.items) × (at self.old.before.items head < length self.old.after.items) }
        ensures { PutsLast head place self.old self.new }
    {
        let last = self.before[head as usize];
        self.after[last as usize] = place;
        self.after[place as usize] = head;
        self.before[head as usize] = place;
        self.before[place as usize] = last;
    }

    /// Takes the place out of its ring.
    pub fn take_out(&mut self, place: u32)
        requires { (place < length self.old.before.items) × (place < length self.old.after.items) × (at self.old.before.items place < length self.old.after.items) × (at self.old.after.items place < length self.old.before.items) }
        ensures { TakesOut place self.old self.new }
    {
        let last = self.before[place as usize];
        let next = self.after[place as usize];
        self.after[last as usize] = next;
        self.before[next as usize] = last;
    }

    /// The next of the place's ring.
    pub fn next(&self, place: u32) -> u32
        requires { place < length self.now.after.items }
        ensures { result ≡ at self.now.after.items place }
    {
        self.after[place as usize]
    }
}
