//! The end of a lock, and what it proves about each caller.
ghost use Rattle.std.specs.Prelude.{◌≡◌, ◌+◌, Some, All, length};
ghost use Rattle.turn_lock.specs.History.{IsByCallers};
ghost use Rattle.turn_lock.specs.Passes.{IsReady, FitsIn};

use std::sync::Wait;
use turn_lock::{PassList, Stands, TurnLock, TurnPass};

/// Takes back the two lent passes, and ends the lock. What each pass had seen is a prefix of the whole history, and its
/// own turns are exactly those of its number.
pub fn end_with_two<S: Stands, R: Wait>(
    rt: &R,
    lock: TurnLock<S>,
    mut list: PassList<S>,
    first: TurnPass<S>,
    second: TurnPass<S>,
) -> (S, TurnPass<S>)
    requires list { (list.lock ≡ lock) × (length list.items + 2 ≡ list.callers) }
    requires first { IsReady lock first }
    requires second { IsReady lock second }
    ensures state { S.stands result.0 result.1.seen }
    ensures label { result.1.label ≡ Some (S.label result.0) }
    ensures first { FitsIn result.1.seen result.1.label first }
    ensures second { FitsIn result.1.seen result.1.label second }
    ensures others { All (FitsIn result.1.seen result.1.label) list.items }
    ensures callers { IsByCallers list.callers result.1.seen }
{
    list.give(first);
    list.give(second);
    lock.end(rt, list)
}

/// Does the same with three passes.
pub fn end_with_three<S: Stands, R: Wait>(
    rt: &R,
    lock: TurnLock<S>,
    mut list: PassList<S>,
    first: TurnPass<S>,
    second: TurnPass<S>,
    third: TurnPass<S>,
) -> (S, TurnPass<S>)
    requires list { (list.lock ≡ lock) × (length list.items + 3 ≡ list.callers) }
    requires first { IsReady lock first }
    requires second { IsReady lock second }
    requires third { IsReady lock third }
    ensures state { S.stands result.0 result.1.seen }
    ensures label { result.1.label ≡ Some (S.label result.0) }
    ensures first { FitsIn result.1.seen result.1.label first }
    ensures second { FitsIn result.1.seen result.1.label second }
    ensures third { FitsIn result.1.seen result.1.label third }
    ensures others { All (FitsIn result.1.seen result.1.label) list.items }
    ensures callers { IsByCallers list.callers result.1.seen }
{
    list.give(third);
    end_with_two(rt, lock, list, first, second)
}
