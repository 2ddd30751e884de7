//! Turns of a lock: passes, threads that take turns, and what the end returns.
ghost use Rattle.std.specs.Prelude.{◌≡◌, ◌≤◌, ◌^◌, ◌-◌, min, length, [], Some};
ghost use Rattle.turn_lock.specs.declared.turn.Turn.{Turn};
ghost use Rattle.turn_lock.specs.Passes.{IsReady, OwnTurn, new_list};

use crate::checks::{holds, same, some};
use std::alloc::Global;
use std::marker::Brand;
use std::process::Abort;
use std::sync::Wait;
use std::thread::join;
use turn_lock::{Offers, PassList, Picks, Stands, TurnLock, TurnPass};

// The number of turns that were taken, up to the greatest number. It must be spent.
struct Count(u64);

impl Stands for Count {
    type Entry = ();

    type Label = ();

    ghost stands = { λ c past. c.0 ≡ min (length past) (2 ^ 64 - 1) };

    ghost label = { λ _. tt };
}

// Takes a turn, and names it in the contract.
fn take_turn<R: Wait>(rt: &R, lock: &TurnLock<Count>, mut pass: TurnPass<Count>) -> TurnPass<Count>
    requires { IsReady lock.now pass }
    ensures ready { IsReady lock.now result }
    ensures turn { (past : _) × (t : Turn _) × OwnTurn pass past t result }
{
    let Count(count) = lock.enter(rt, &mut pass);
    let counted = Count(count.saturating_add(1));
    lock.leave::<Brand>(&mut pass, counted);
    pass
}

// Takes a turn about which it knows only that there is one. The pass is inside from `enter` to `leave`.
fn take_some_turn<R: Wait + Abort>(
    rt: &R,
    lock: &TurnLock<Count>,
    mut pass: TurnPass<Count>,
) -> TurnPass<Count>
    requires { IsReady lock.now pass }
    ensures ready { IsReady lock.now result }
    ensures turn { (past : _) × (t : Turn _) × OwnTurn pass past t result }
{
    holds(rt, !pass.is_inside());
    let Count(count) = lock.enter(rt, &mut pass);
    holds(rt, pass.is_inside());
    let counted = Count(count.saturating_add(1));
    lock.leave_some::<Brand, ()>(&mut pass, counted, &());
    holds(rt, !pass.is_inside());
    pass
}

// A type of the turn of caller 1 that adds nothing.
struct FirstTurn;

impl Picks<()> for FirstTurn {
    ghost use Rattle.std.specs.Prelude.{[]};

    ghost turn = { record { number = 1; entries = [] } };
}

// A type of every turn that adds nothing.
struct BareTurns;

impl Offers<()> for BareTurns {
    ghost use Rattle.std.specs.Prelude.{◌≡◌, []};

    ghost offers = { λ _ t. t.entries ≡ [] };
}

// Takes the first caller's turn by a type that names it.
fn take_first_turn<R: Wait>(
    rt: &R,
    lock: &TurnLock<Count>,
    mut pass: TurnPass<Count>,
) -> TurnPass<Count>
    requires ready { IsReady lock.now pass }
    requires number { pass.number ≡ 1 }
    ensures ready { IsReady lock.now result }
    ensures turn { (past : _) × (t : Turn _) × OwnTurn pass past t result × (t.number ≡ 1) × (t.entries ≡ []) }
{
    let Count(count) = lock.enter(rt, &mut pass);
    let counted = Count(count.saturating_add(1));
    lock.leave::<FirstTurn>(&mut pass, counted);
    pass
}

// Takes a turn about which a type says only that it adds nothing.
fn take_bare_turn<R: Wait>(
    rt: &R,
    lock: &TurnLock<Count>,
    mut pass: TurnPass<Count>,
) -> TurnPass<Count>
    requires { IsReady lock.now pass }
    ensures ready { IsReady lock.now result }
    ensures turn { (past : _) × (t : Turn _) × OwnTurn pass past t result × (t.entries ≡ []) }
{
    let Count(count) = lock.enter(rt, &mut pass);
    let counted = Count(count.saturating_add(1));
    lock.leave_some::<BareTurns, ()>(&mut pass, counted, &());
    pass
}

fn is_send<T: Send>() {}

fn is_sync<T: Sync>() {}

// A lock can be shared by threads, and passes and lists can go from thread to thread, wherever the state may go.
fn is_shared<S: Stands + Send>() {
    is_sync::<TurnLock<S>>();
    is_send::<TurnLock<S>>();
    is_send::<TurnPass<S>>();
    is_send::<PassList<S>>();
}

#[test]
fn a_lock_of_what_can_be_sent_is_shared(_rt: HostRuntime) {
    is_shared::<Count>();
}

// A lock of `callers` callers, of which none took a turn.
fn locked(rt: &impl Abort, alloc: Global, callers: u32) -> (TurnLock<Count>, PassList<Count>)
    requires { (1 ≤ callers) × (callers ≤ 64) }
    ensures { result.1 ≡ new_list result.0 (Some tt) callers }
{
    let made = TurnLock::new(alloc, Count(0), callers);
    let Ok((lock, list)) = made else {
        panic!(rt; "no memory")
    };
    (lock, list)
}

// Ends the lock, in which `turns` turns were taken, and returns the number of the pass that stays.
fn ends<R: Wait + Abort>(rt: &R, lock: TurnLock<Count>, list: PassList<Count>, turns: u64) -> u32
    requires lock { list.lock ≡ lock }
    requires all { length list.items ≡ list.callers }
{
    let (Count(count), pass) = lock.end(rt, list);
    same(rt, count, turns);
    holds(rt, !pass.is_inside());
    pass.number()
}

#[test]
fn types_name_the_turns(rt: HostRuntime) {
    let (lock, mut list) = locked(&rt, rt.alloc(), 2);
    let second = some(&rt, list.pop());
    let first = some(&rt, list.pop());
    same(&rt, first.number(), 1);
    let first = take_first_turn(&rt, &lock, first);
    let second = take_bare_turn(&rt, &lock, second);
    list.give(first);
    list.give(second);
    ends(&rt, lock, list, 2);
}

#[test]
fn two_threads_take_a_turn_each(rt: HostRuntime) {
    let (lock, mut list) = locked(&rt, rt.alloc(), 2);
    holds(&rt, list.is_full());
    let second = some(&rt, list.pop());
    let first = some(&rt, list.pop());
    holds(&rt, !list.is_full());
    same(&rt, first.number(), 1);
    same(&rt, second.number(), 2);
    let (first, second) = join(
        &rt,
        || -> TurnPass<Count>
            requires { IsReady lock first }
            ensures { IsReady lock result }
        { take_turn(&rt, &lock, first) },
        || -> TurnPass<Count>
            requires { IsReady lock second }
            ensures { IsReady lock result }
        { take_some_turn(&rt, &lock, second) },
    );
    list.give(second);
    list.give(first);
    same(&rt, ends(&rt, lock, list, 2), 1);
}

#[test]
fn a_pass_is_inside_from_enter_to_leave(rt: HostRuntime) {
    let (lock, mut list) = locked(&rt, rt.alloc(), 1);
    let pass = some(&rt, list.pop());
    let pass = take_some_turn(&rt, &lock, pass);
    list.give(pass);
    ends(&rt, lock, list, 1);
}

#[test]
fn a_lock_has_up_to_64_passes(rt: HostRuntime) {
    for callers in [1, 17, 64] {
        let (lock, list) = locked(&rt, rt.alloc(), callers);
        same(&rt, ends(&rt, lock, list, 0), callers);
    }
}
