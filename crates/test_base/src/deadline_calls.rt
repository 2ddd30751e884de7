//! Drawn calls on deadlines in both forms: the same names come, and the same deadlines are left.
ghost use Rattle.std.specs.Prelude.{◌≡◌, ◌≤◌, List, length, IfOk};
ghost use Rattle.aio_expire.specs.declared.deadlines.Deadline.{Deadline};
ghost use Rattle.aio_expire.specs.DueCalls.{AreAllowed};

use crate::checks::{holds, made};
use aio_expire::{Deadlines, Due, DueCall, ListDeadlines, NameList, run_due};
use sp_base::{NoMemory, OpName, Tick, next_value};
use std::alloc::Global;
use std::process::Abort;

/// The last moment.
const LAST: Tick = Tick(18_446_744_073_709_551_615);

// The state from which random calls are drawn.
#[derive(Drop)]
struct Draws {
    value: u64,
    // The latest moment at which what is due was asked for.
    now: u64,
}

impl Draws {
    // A number of 64 bits, of which the high ones look random.
    fn number(&mut self) -> u64 {
        self.value = next_value(self.value);
        self.value
    }

    // A moment from the latest one on: within some 512 ticks of it, some 262,144, 2^34, or farther.
    fn later(&mut self) -> u64 {
        let kind = self.number() >> 60;
        let by = self.number();
        self.now.saturating_add(match kind {
            0 => by >> 4,
            1 | 2 => by >> 30,
            3 | 4 | 5 | 6 | 7 => by >> 46,
            _ => by >> 55,
        })
    }

    // A moment at most 4,095 ticks before the latest one.
    fn earlier(&mut self) -> u64 {
        self.now.saturating_sub(self.number() >> 52)
    }

    // A moment before the latest one or after it. The latest one is then this one, if it is after.
    fn due(&mut self) -> Tick {
        if self.number() >> 62 == 0 {
            return Tick(self.earlier());
        }
        self.now = self.later();
        Tick(self.now)
    }

    // When an operation expires, seldom before the latest moment.
    fn deadline(&mut self) -> Tick {
        if self.number() >> 61 == 0 {
            return Tick(self.earlier());
        }
        Tick(self.later())
    }

    // Draws two calls: a slot's operation gets a deadline, whether the slot had one or not; or what is due is named,
    // and a slot loses its deadline.
    fn step(&mut self) -> [DueCall; 2]
        ensures { (es : List Deadline) → AreAllowed 64 result es }
    {
        let generation = self.number();
        let slot = (self.number() >> 58) as u32;
        if self.number() >> 62 == 0 {
            return [DueCall::Due(self.due()), DueCall::Remove(slot)];
        }
        let op = OpName { slot, generation };
        [DueCall::Remove(slot), DueCall::Put(op, self.deadline())]
    }
}

// Random calls, and a last one that names all that are left.
fn drawn_calls(alloc: Global, seed: u64) -> Result<Vec<DueCall>, NoMemory>
    ensures allowed { IfOk result (λ v. (es : List Deadline) → AreAllowed 64 v.items es) }
    ensures count { IfOk result (λ v. length v.items ≤ 2002) }
{
    let mut calls = Vec::new(alloc);
    let mut draws = Draws {
        value: seed,
        now: 0,
    };
    for _ in 0..1_000u32 {
        calls.extend_from_slice(&draws.step())?;
    }
    calls.extend_from_slice(&[DueCall::Due(LAST), DueCall::Remove(0)])?;
    Ok(calls)
}

// The names that the calls give.
fn named<D: Due, R: Abort>(rt: &R, alloc: Global, d: &mut D, calls: &[DueCall]) -> NameList
    requires slots { (D.schedule d.old).slots ≡ 64 }
    requires allowed { (es : List Deadline) → AreAllowed 64 calls.now es }
    requires count { length calls.now ≤ 2002 }
{
    let mut names = made(rt, NameList::with_room(alloc, 128_128));
    run_due(d, calls, &mut names);
    names
}

// Checks that the calls give the same names in both forms, more than a hundred.
fn give_the_same<R: Abort>(rt: &R, alloc: Global, seed: u64) {
    let calls = made(rt, drawn_calls(alloc, seed));
    let mut in_wheel = made(rt, Deadlines::new(alloc, 64));
    let mut in_list = made(rt, ListDeadlines::new(alloc, 64));
    let from_wheel = named(rt, alloc, &mut in_wheel, &calls);
    let from_list = named(rt, alloc, &mut in_list, &calls);
    holds(rt, from_wheel.as_slice().len() > 100);
    holds(rt, from_wheel.as_slice() == from_list.as_slice());
}

// Names come by deadline: of two that are due one after another, the one that was put first comes last.
#[test]
fn calls_give_names_when_they_are_due(rt: HostRuntime) {
    let first = OpName {
        slot: 0,
        generation: 1,
    };
    let second = OpName {
        slot: 1,
        generation: 1,
    };
    let calls = [
        DueCall::Put(first, Tick(5)),
        DueCall::Put(second, Tick(4)),
        DueCall::Due(Tick(4)),
        DueCall::Due(Tick(5)),
    ];
    let mut in_wheel = made(&rt, Deadlines::new(rt.alloc(), 64));
    let mut names = made(&rt, NameList::with_room(rt.alloc(), 256));
    run_due(&mut in_wheel, &calls, &mut names);
    holds(&rt, names.as_slice() == [second, first].as_slice());
}

#[test]
fn drawn_calls_give_the_same_names(rt: HostRuntime) {
    for seed in 0..50 {
        give_the_same(&rt, rt.alloc(), seed);
    }
}
