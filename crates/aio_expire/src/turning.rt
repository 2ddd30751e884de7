//! What falls due as a wheel turns.
ghost use Rattle.std.specs.Prelude.{ℕ, ◌≡◌, ◌+◌, ◌<◌, ◌≤◌, Bool, true, length, max, drop, take, vec_capacity};
ghost use Rattle.aio_expire.specs.Schedule.{tally};
ghost use Rattle.aio_expire.specs.SlotEntries.{SlotEntries, bucket_of, belongs, cell_at, count_cells, AreOwn, IsPulled, AreEmpty, IsOutside, StaysAt, AllStay, AreApart};
ghost use Rattle.aio_expire.specs.declared.deadlines.Deadline.{Deadline};

use crate::by_slot::BySlot;
use crate::deadlines::Deadline;
use sp_base::Tick;

// The lists that the wheel passes as it turns: those of ticks, and those of 256 ticks and what is later.
#[derive(Clone, Copy, Debug)]
struct Passed {
    tick: u32,
    tick_end: u32,
    span: u32,
    span_end: u32,
}

// The lists that the wheel passes. What is in no other list is later than `now`, and stays where it is when the wheel
// has turned.
fn lists_passed(turned: Tick, now: Tick) -> Passed
    ensures bound { (result.tick_end ≤ 513) × (result.span_end ≤ 513) }
    ensures stays { (at : ℕ) → IsOutside result.tick result.tick_end result.span result.span_end (bucket_of turned at) → StaysAt turned now at }
{
    let tick = (turned.0 % 256) as u32;
    let span = 256 + (turned.0 / 256 % 256) as u32;
    if now.0 <= turned.0 {
        Passed {
            tick,
            tick_end: tick + 1,
            span,
            span_end: span,
        }
    } else if now.0 / 256 == turned.0 / 256 {
        Passed {
            tick,
            tick_end: (now.0 % 256) as u32 + 1,
            span,
            span_end: span,
        }
    } else if now.0 / 65_536 == turned.0 / 65_536 {
        Passed {
            tick,
            tick_end: 256,
            span,
            span_end: 257 + (now.0 / 256 % 256) as u32,
        }
    } else {
        Passed {
            tick,
            tick_end: 256,
            span,
            span_end: 513,
        }
    }
}

// Takes out the entries of one list.
fn pull_list(by_slot: &mut BySlot, bucket: u32, pulled: &mut Vec<Deadline>)
    requires bucket { bucket < 513 }
    requires room { length pulled.old.items + count_cells (λ _. true) by_slot.old.cells ≤ vec_capacity pulled.old }
    ensures pulled { IsPulled by_slot.old pulled.old.items by_slot.new pulled.new.items }
    ensures empty { (slot : ℕ) → belongs by_slot.new.turned bucket (cell_at slot by_slot.new.cells) ≡ 0 }
    ensures room { vec_capacity pulled.new ≡ vec_capacity pulled.old }
{
    while let Some(slot) = by_slot.first(bucket) {
        let Some(entry) = by_slot.take(slot) else {
            unreachable!()
        };
        pulled.push_reserved(entry);
    }
}

// Takes out the entries of some lists.
fn pull_lists(by_slot: &mut BySlot, low: u32, high: u32, pulled: &mut Vec<Deadline>)
    requires high { high ≤ 513 }
    requires room { length pulled.old.items + count_cells (λ _. true) by_slot.old.cells ≤ vec_capacity pulled.old }
    ensures pulled { IsPulled by_slot.old pulled.old.items by_slot.new pulled.new.items }
    ensures empty { AreEmpty low high by_slot.new }
    ensures room { vec_capacity pulled.new ≡ vec_capacity pulled.old }
{
    for bucket in low..high {
        pull_list(by_slot, bucket, pulled);
    }
}

// Takes out what is due at `now`, and what will be in another list once the wheel is turned to it.
pub(crate) fn pull(by_slot: &mut BySlot, now: Tick, pulled: &mut Vec<Deadline>)
    requires room { length pulled.old.items + count_cells (λ _. true) by_slot.old.cells ≤ vec_capacity pulled.old }
    ensures pulled { IsPulled by_slot.old pulled.old.items by_slot.new pulled.new.items }
    ensures stay { AllStay now by_slot.new }
    ensures room { vec_capacity pulled.new ≡ vec_capacity pulled.old }
{
    let lists = lists_passed(by_slot.turned(), now);
    pull_lists(by_slot, lists.tick, lists.tick_end, pulled);
    pull_lists(by_slot, lists.span, lists.span_end, pulled);
}

// Turns the wheel to `now`, unless it was turned farther.
pub(crate) fn turn_to(by_slot: &mut BySlot, now: Tick)
    requires { AllStay now by_slot.old }
    ensures { by_slot.new ≡ record by_slot.old { turned = max by_slot.old.turned now } }
{
    if by_slot.turned().0 < now.0 {
        by_slot.turn(now);
    }
}

// Puts entries back, the last first, until `count` of them are left.
pub(crate) fn put_back(by_slot: &mut BySlot, pulled: &mut Vec<Deadline>, count: usize)
    requires count { count ≤ length pulled.old.items }
    requires apart { AreApart by_slot.old pulled.old.items }
    ensures left { pulled.new.items ≡ take count pulled.old.items }
    ensures back { (p : Deadline → Bool) → count_cells p by_slot.new.cells ≡ tally p (drop count pulled.old.items) + count_cells p by_slot.old.cells }
    ensures slots { length by_slot.new.cells ≡ length by_slot.old.cells }
    ensures turned { by_slot.new.turned ≡ by_slot.old.turned }
    ensures own { AreOwn by_slot.new.cells }
    ensures room { vec_capacity pulled.new ≡ vec_capacity pulled.old }
{
    // Brings into the proof what is known of the entries' slots.
    let _turned = by_slot.turned();
    while pulled.len() > count {
        let Some(entry) = pulled.pop() else {
            unreachable!()
        };
        by_slot.put(entry);
    }
}
