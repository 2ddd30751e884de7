//! The entry of each slot, and the wheel whose lists have the slots.
ghost use Rattle.std.specs.Prelude.{ℕ, ◌≡◌, ◌+◌, ◌<◌, ◌≤◌, [], None, Some, length, replicate, slice_set, IfOk};
ghost use Rattle.aio_expire.specs.Buckets.{list_at, count_in};
ghost use Rattle.aio_expire.specs.SlotEntries.{cell_at, bucket_of, belongs, AreOwn, AreFiled};
ghost use Rattle.aio_expire.specs.declared.deadlines.Deadline.{Deadline};

use crate::deadlines::Deadline;
use crate::wheel::Wheel;
use sp_base::{NoMemory, Tick};
use std::alloc::Global;
use std::marker::Model;

// The entry of each slot, if it has one. Each slot is in the list of the wheel that is given by its moment and
// `turned`.
#[derive(Debug, Drop)]
pub(crate) struct BySlot {
    cells: Vec<Option<Deadline>>,
    // The latest moment that the wheel was turned to.
    turned: Tick,
    wheel: Wheel,
}

impl Model for BySlot {
    ghost use Rattle.std.specs.Prelude.{◌≡◌, length};
    ghost use Rattle.aio_expire.specs.SlotEntries.{SlotEntries, AreOwn, AreFiled};

    ghost Value = { SlotEntries };

    ghost view = { λ d. record { cells = d.cells.items; turned = d.turned } };

    ghost invariant = { λ d. AreOwn d.cells.items × AreFiled d.turned d.cells.items d.wheel.lists × (d.wheel.slots ≡ length d.cells.items) × (length d.wheel.lists ≡ 513) };
}

// An empty place for each slot.
fn no_entries(alloc: Global, slots: u32) -> Result<Vec<Option<Deadline>>, NoMemory>
    ensures { IfOk result (λ v. v.items ≡ replicate slots None) }
{
    let mut cells = Vec::with_capacity(alloc, slots as usize)?;
    for _ in 0..slots {
        cells.push(None)?;
    }
    Ok(cells)
}

// The list for an entry of this moment.
fn bucket_of(turned: Tick, at: Tick) -> u32
    ensures bucket { result ≡ bucket_of turned at }
    ensures bound { result < 513 }
{
    if at.0 <= turned.0 {
        (turned.0 % 256) as u32
    } else if at.0 / 256 == turned.0 / 256 {
        (at.0 % 256) as u32
    } else if at.0 / 65_536 == turned.0 / 65_536 {
        256 + (at.0 / 256 % 256) as u32
    } else {
        512
    }
}

impl BySlot {
    // No entries, of the slots below `slots`.
    pub(crate) fn new(alloc: Global, slots: u32) -> Result<BySlot, NoMemory>
        requires { slots ≤ 4096 }
        ensures { IfOk result (λ d. d ≡ record { cells = replicate slots None; turned = 0 }) }
    {
        let cells = no_entries(alloc, slots)?;
        let wheel = Wheel::new(alloc, slots)?;
        Ok(BySlot {
            cells,
            turned: Tick(0),
            wheel,
        })
    }

    pub(crate) fn turned(&self) -> Tick
        ensures turned { result ≡ self.now.turned }
        ensures own { AreOwn self.now.cells }
    {
        self.turned
    }

    pub(crate) fn wheel(&self) -> &Wheel
        ensures filed { AreFiled self.now.turned self.now.cells result.now.lists }
        ensures count { length result.now.lists ≡ 513 }
        ensures own { AreOwn self.now.cells }
    {
        &self.wheel
    }

    // Stores the slot's entry.
    pub(crate) fn put(&mut self, entry: Deadline)
        requires slot { entry.op.slot < length self.old.cells }
        requires free { cell_at entry.op.slot self.old.cells ≡ None }
        ensures put { self.new ≡ record self.old { cells = slice_set self.old.cells entry.op.slot (Some entry) } }
        ensures own { AreOwn self.new.cells }
    {
        let slot = entry.op.slot;
        let bucket = bucket_of(self.turned, entry.at);
        let cell = Some(entry);
        self.wheel.link(slot, bucket);
        self.cells[slot as usize] = cell;
    }

    // Takes out the slot's entry, if it has one.
    pub(crate) fn take(&mut self, slot: u32) -> Option<Deadline>
        ensures entry { result ≡ cell_at slot self.old.cells }
        ensures rest { self.new ≡ record self.old { cells = slice_set self.old.cells slot None } }
        ensures own { AreOwn self.new.cells }
    {
        if slot as usize >= self.cells.len() {
            return None;
        }
        let entry = self.cells[slot as usize]?;
        self.wheel.unlink(slot);
        self.cells[slot as usize] = None;
        Some(entry)
    }

    // A slot whose entry is in the list, if there is one.
    pub(crate) fn first(&self, bucket: u32) -> Option<u32>
        requires { bucket < 513 }
        ensures some { (slot : ℕ) → result ≡ Some slot → 0 < belongs self.now.turned bucket (cell_at slot self.now.cells) }
        ensures none { result ≡ None → (slot : ℕ) → belongs self.now.turned bucket (cell_at slot self.now.cells) ≡ 0 }
    {
        self.wheel.first(bucket)
    }

    // Turns the wheel where no entry changes its list.
    pub(crate) fn turn(&mut self, to: Tick)
        requires { (slot : ℕ) (e : Deadline) → cell_at slot self.old.cells ≡ Some e → bucket_of to e.at ≡ bucket_of self.old.turned e.at }
        ensures { self.new ≡ record self.old { turned = to } }
    {
        self.turned = to;
    }
}
