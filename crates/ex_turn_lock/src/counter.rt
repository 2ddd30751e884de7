//! A counter that callers add to in turns.
ghost use Rattle.std.specs.Prelude.{◌≡◌, ◌+◌, min, false, List, IfSome, length};
ghost use Rattle.turn_lock.specs.declared.turn.Turn.{Turn};
ghost use Rattle.turn_lock.specs.Passes.{IsOf, IsReady, IsSameCaller, OwnTurn};
ghost use Rattle.ex_turn_lock.specs.declared.counter.Added.{Added};
ghost use Rattle.ex_turn_lock.specs.Acts.{Acted};
ghost use Rattle.ex_turn_lock.specs.Totals.{total, Adds, IsByTwo};

use crate::endings::end_with_two;
use std::alloc::Global;
use std::marker::Brand;
use std::sync::Wait;
use std::thread::{Threads, join};
use turn_lock::{Stands, TurnLock, TurnPass};

/// The number that a turn added to the count.
pub struct Added(pub u64);

/// A count of all that was added. It must be spent.
pub struct Counter {
    /// The sum of all that the turns added, up to the greatest count.
    pub count: u64,
}

impl Stands for Counter {
    type Entry = Added;

    type Label = ();

    ghost stands = { λ c past. c.count ≡ total past };

    ghost label = { λ _. tt };
}

impl Counter {
    /// Takes the counter apart, and returns its count.
    pub fn into_count(self) -> u64
        ensures { result ≡ self.count }
    {
        let Counter { count } = self;
        count
    }
}

/// Adds, up to the greatest count, and returns the count.
pub fn add<R: Wait>(rt: &R, lock: &TurnLock<Counter>, pass: &mut TurnPass<Counter>, n: u64) -> u64
    requires lock { IsOf lock.now pass.old }
    requires outside { pass.old.inside ≡ false }
    ensures lock { IsOf lock.now pass.new }
    ensures same { IsSameCaller pass.old pass.new }
    ensures outside { pass.new.inside ≡ false }
    ensures count { result ≡ total pass.new.seen }
    ensures turn { (past : List (Turn Added)) × (t : Turn Added) × OwnTurn pass.old past t pass.new × (result ≡ min (total past + n) u64.MAX) }
{
    let mut counter = lock.enter(rt, pass);
    counter.count = counter.count.saturating_add(n);
    let count = counter.count;
    lock.leave::<Brand>(pass, counter);
    count
}

// Adds 1 `times` times.
fn add_times<R: Wait>(
    rt: &R,
    lock: &TurnLock<Counter>,
    mut pass: TurnPass<Counter>,
    times: u64,
) -> TurnPass<Counter>
    requires { IsReady lock.now pass }
    ensures { Acted (λ _. Adds 1) lock.now pass times result }
{
    for added in 0..times {
        add(rt, lock, &mut pass, 1);
    }
    pass
}

/// Has two threads add 1 in turns, each `times` times. Returns the count, up to the greatest, and a pass that has seen
/// the whole history, or `None` where memory ran out.
pub fn count_in_turns<R: Threads + Wait + Sync>(
    rt: &R,
    alloc: Global,
    times: u64,
) -> Option<(u64, TurnPass<Counter>)>
    ensures total { IfSome result (λ r. r.0 ≡ total r.1.seen) }
    ensures count { IfSome result (λ r. r.0 ≡ min (length r.1.seen) u64.MAX) }
    ensures turns { IfSome result (λ r. IsByTwo times r.1.seen) }
{
    let (lock, mut list) = match TurnLock::new(alloc, Counter { count: 0 }, 2) {
        Ok(made) => made,
        Err((_, counter)) => {
            counter.into_count();
            return None;
        }
    };
    let Some(second) = list.pop() else {
        unreachable!()
    };
    let Some(first) = list.pop() else {
        unreachable!()
    };
    let (first, second) = join(
        rt,
        || -> TurnPass<Counter>
            requires { IsReady lock first }
            ensures { Acted (λ _. Adds 1) lock first times result }
        { add_times(rt, &lock, first, times) },
        || -> TurnPass<Counter>
            requires { IsReady lock second }
            ensures { Acted (λ _. Adds 1) lock second times result }
        { add_times(rt, &lock, second, times) },
    );
    let (counter, pass) = end_with_two(rt, lock, list, first, second);
    Some((counter.into_count(), pass))
}
