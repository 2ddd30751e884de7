//! Deadlines in a wheel and in a sorted list: the cost of a call as they grow.
ghost use Rattle.std.specs.Prelude.{◌≡◌, ◌<◌, ◌≤◌};

use aio_expire::{Deadlines, Due, ListDeadlines, NameList};
use bench_base::timing::Watch;
use sp_base::{NoMemory, OpName, Tick};
use std::alloc::Global;
use std::io::{Eprint, Print};
use std::time::Clock;

/// How many of the first deadlines are removed and put again each time.
const FIRST: u32 = 16;

/// How many ticks one deadline is after another.
const APART: u64 = 300;

/// Half of the last moment.
const HALF: u64 = 9_223_372_036_854_775_807;

/// Deadlines of which rows are measured. Each slot has one.
#[derive(Drop)]
struct DueBench<'a, D: Due> {
    deadlines: D,
    names: NameList,
    slots: u32,
    /// The name of the form in which they are kept.
    form: &'a str,
    /// How many were due at all ticks.
    due: usize,
    watch: Watch,
    ghost fits: { (D.schedule deadlines).slots ≡ slots },
}

impl<'a, D: Due> DueBench<'a, D> {
    // Gives the slot this deadline, and no other.
    fn put(&mut self, slot: u32, at: u64) {
        if slot < self.slots {
            let _ = self.deadlines.remove(slot);
            let op = OpName {
                slot,
                generation: 1,
            };
            self.deadlines.put(op, Tick(at));
        }
    }

    // Gives the slots below `count` deadlines from `from` on.
    fn fill(&mut self, count: u32, from: u64) {
        for slot in 0..count {
            self.put(slot, from.saturating_add(u64::from(slot) * APART));
        }
    }

    // Removes the deadlines of the slots below `count`.
    fn remove(&mut self, count: u32) {
        for slot in 0..count {
            let _ = self.deadlines.remove(slot);
        }
    }

    // Names what is due.
    fn tick(&mut self, now: u64) {
        self.names.clear();
        if self.names.spare() >= self.slots as usize {
            self.deadlines.due(Tick(now), &mut self.names);
        }
        self.due = self.due.saturating_add(self.names.as_slice().len());
    }

    // Ticks at each of these moments.
    fn tick_each(&mut self, from: u64, to: u64) {
        for now in from..to {
            self.tick(now);
        }
    }

    // Writes the cost of each of `count` units, of the time of one kind.
    fn say<R: Eprint>(&self, rt: &R, what: &str, nanos: u128, count: u64) {
        let each = nanos / u128::from(count.max(1));
        let _ = eprintln!(rt; "{what}, {} at {}: {each} ns", self.form, self.slots);
    }

    // Measures removing the first deadlines and putting them again.
    fn remove_and_put<R: Clock + Eprint>(&mut self, rt: &R) {
        self.watch.clear();
        self.watch.go_on(rt);
        for times in 0..256u64 {
            self.remove(FIRST);
            self.watch.switch(rt);
            self.fill(FIRST, 1_000_000 + times);
            self.watch.switch(rt);
        }
        self.watch.end(rt);
        self.say(rt, "a deadline is removed", self.watch.nanos(), 4_096);
        self.say(rt, "a deadline is put", self.watch.others(), 4_096);
    }

    // Measures these ticks one by one, and writes the cost of each of `count` units.
    fn time_ticks<R: Clock + Eprint>(&mut self, rt: &R, what: &str, from: u64, to: u64) {
        self.watch.clear();
        self.watch.go_on(rt);
        self.tick_each(from, to);
        self.watch.end(rt);
        self.say(rt, what, self.watch.nanos(), to.saturating_sub(from));
    }

    // Measures one tick at this moment, and writes its cost for each deadline.
    fn time_jump<R: Clock + Eprint>(&mut self, rt: &R, what: &str, now: u64) {
        self.watch.clear();
        self.watch.go_on(rt);
        self.tick(now);
        self.watch.end(rt);
        let count = u64::from(self.slots);
        self.say(rt, what, self.watch.nanos(), count);
    }

    // Measures all rows.
    fn rows<R: Clock + Eprint + Print>(&mut self, rt: &R) {
        self.fill(self.slots, 1_000_000);
        self.remove_and_put(rt);
        self.time_ticks(rt, "a tick at which nothing is due", 0, 4_096);
        self.time_jump(rt, "a jump at which nothing is due, a deadline", 999_999);
        let last = 1_000_000 + u64::from(self.slots) * APART;
        self.time_ticks(rt, "ticks until all were due, a tick", 1_000_000, last);
        self.fill(self.slots, HALF + 1);
        self.time_jump(rt, "a jump over 2^63 ticks, nothing due, a deadline", HALF);
        self.time_jump(rt, "a jump at which all are due, a deadline", u64::MAX);
        let _ = println!(rt;
            "deadlines {} at {}: {} were due",
            self.form, self.slots, self.due
        );
    }
}

// Measures the rows of both forms, with deadlines of these slots.
fn rows_at<R: AllocGlobal + Clock + Eprint + Print>(
    rt: &R,
    alloc: Global,
    slots: u32,
) -> Result<(), NoMemory>
    requires { (0 < slots) × (slots ≤ 4096) }
{
    let mut wheel = DueBench {
        deadlines: Deadlines::new(alloc, slots)?,
        names: NameList::with_room(alloc, slots)?,
        slots,
        form: "in a wheel",
        due: 0,
        watch: Watch::new(),
    };
    wheel.rows(rt);
    let mut list = DueBench {
        deadlines: ListDeadlines::new(alloc, slots)?,
        names: NameList::with_room(alloc, slots)?,
        slots,
        form: "in a list",
        due: 0,
        watch: Watch::new(),
    };
    list.rows(rt);
    Ok(())
}

/// Measures all rows of deadlines.
pub fn rows<R: AllocGlobal + Clock + Eprint + Print>(rt: &R) -> Result<(), NoMemory> {
    let alloc = rt.alloc();
    rows_at(rt, alloc, 16)?;
    rows_at(rt, alloc, 256)?;
    rows_at(rt, alloc, 1_024)?;
    rows_at(rt, alloc, 4_096)
}
