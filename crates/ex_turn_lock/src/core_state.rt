//! A state that is generic in its machine, whose contract says only that there is a turn.
ghost use Rattle.std.specs.Prelude.{◌≡◌, false, List, Some};
ghost use Rattle.turn_lock.specs.declared.turn.Turn.{Turn};
ghost use Rattle.ex_turn_lock.specs.declared.setting.MachineLabel.{MachineLabel};
ghost use Rattle.turn_lock.specs.Passes.{IsOf, IsReady, IsSameCaller, OwnTurn};
ghost use Rattle.ex_turn_lock.specs.Acts.{RepliesTo, Acted};

use crate::setting::MachineLabel;
use atomic_table::Seat;
use std::marker::Brand;
use std::sync::Wait;
use std::thread::{Threads, join};
use turn_lock::{Stands, TurnLock, TurnPass};

/// A machine that one call at a time acts on.
pub trait Machine {
    ghost use Rattle.std.specs.Prelude.{◌≡◌, ℕ, List, Option};
    ghost use Rattle.turn_lock.specs.declared.turn.Turn.{Turn};
    ghost use Rattle.turn_lock.specs.Turning.{TakesTurn};

    /// The elements of a turn of the machine.
    type Entry;

    // The histories that the machine may have, oldest turn first.
    ghost stands: { Self → List (Turn Self.Entry) → Type 0 };

    // What no call changes.
    ghost room: { Self → ℕ };

    // Of the room, the value, the result, the history before and the turn.
    ghost replies: { ℕ → ℕ → Option ℕ → List (Turn Self.Entry) → Turn Self.Entry → Type 0 };

    /// Takes one turn of the caller's. It may have no entries.
    fn act(&mut self, caller: u32, value: u64) -> Option<u64>
        ensures turn { TakesTurn stands self.old self.new caller (replies (room self.old) value result) }
        ensures room { room self.new ≡ room self.old };
}

/// A machine, and a seat of the table whose name is in the label of all passes. It must be spent.
pub struct CoreState<M: Machine> {
    /// What the calls act on.
    pub machine: M,
    /// A seat of the table that the label names.
    pub words: Seat<u8, ()>,
}

impl<M: Machine> Stands for CoreState<M> {
    type Entry = M::Entry;

    type Label = MachineLabel;

    ghost stands = { λ c past. M.stands c.machine past };

    ghost label = { λ c. record { room = M.room c.machine; words = c.words.table_id } };
}

/// Takes one turn. What was seen grows by turns of others and by one turn of the caller's own, and the result is over
/// these.
pub fn act<M: Machine, R: Wait>(
    rt: &R,
    lock: &TurnLock<CoreState<M>>,
    pass: &mut TurnPass<CoreState<M>>,
    value: u64,
) -> Option<u64>
    requires lock { IsOf lock.now pass.old }
    requires outside { pass.old.inside ≡ false }
    ensures lock { IsOf lock.now pass.new }
    ensures same { IsSameCaller pass.old pass.new }
    ensures outside { pass.new.inside ≡ false }
    ensures turn { (past : List (Turn M.Entry)) × (t : Turn M.Entry) × OwnTurn pass.old past t pass.new × (z : MachineLabel) × (pass.old.label ≡ Some z) × M.replies z.room value result past t }
{
    let mut core = lock.enter(rt, pass);
    let reply = core.machine.act(pass.number(), value);
    lock.leave_some::<Brand, (u64, Option<u64>)>(pass, core, &(value, reply));
    reply
}

// Takes turns with the values 0, 1, 2 and so on.
fn act_times<M: Machine, R: Wait>(
    rt: &R,
    lock: &TurnLock<CoreState<M>>,
    mut pass: TurnPass<CoreState<M>>,
    times: u64,
) -> TurnPass<CoreState<M>>
    requires { IsReady lock.now pass }
    ensures { Acted (RepliesTo M.replies pass.label) lock.now pass times result }
{
    for value in 0..times {
        act(rt, lock, &mut pass, value);
    }
    pass
}

/// Has two callers act in threads of their own, each `times` times, with the values 0, 1, 2 and so on.
pub fn act_both<M: Machine + Send, R: Threads + Wait + Sync>(
    rt: &R,
    lock: &TurnLock<CoreState<M>>,
    first: TurnPass<CoreState<M>>,
    second: TurnPass<CoreState<M>>,
    times: u64,
) -> (TurnPass<CoreState<M>>, TurnPass<CoreState<M>>)
    requires first { IsReady lock.now first }
    requires second { IsReady lock.now second }
    ensures first { Acted (RepliesTo M.replies first.label) lock.now first times result.0 }
    ensures second { Acted (RepliesTo M.replies second.label) lock.now second times result.1 }
{
    join(
        rt,
        || -> TurnPass<CoreState<M>>
            requires { IsReady lock.now first }
            ensures { Acted (RepliesTo M.replies first.label) lock.entry.now first times result }
        { act_times(rt, lock, first, times) },
        || -> TurnPass<CoreState<M>>
            requires { IsReady lock.now second }
            ensures { Acted (RepliesTo M.replies second.label) lock.entry.now second times result }
        { act_times(rt, lock, second, times) },
    )
}

/// Does the same with three callers.
pub fn act_all<M: Machine + Send, R: Threads + Wait + Sync>(
    rt: &R,
    lock: &TurnLock<CoreState<M>>,
    first: TurnPass<CoreState<M>>,
    second: TurnPass<CoreState<M>>,
    third: TurnPass<CoreState<M>>,
    times: u64,
) -> (
    TurnPass<CoreState<M>>,
    TurnPass<CoreState<M>>,
    TurnPass<CoreState<M>>,
)
    requires first { IsReady lock.now first }
    requires second { IsReady lock.now second }
    requires third { IsReady lock.now third }
    ensures first { Acted (RepliesTo M.replies first.label) lock.now first times result.0 }
    ensures second { Acted (RepliesTo M.replies second.label) lock.now second times result.1 }
    ensures third { Acted (RepliesTo M.replies third.label) lock.now third times result.2 }
{
    let (first, (second, third)) = join(
        rt,
        || -> TurnPass<CoreState<M>>
            requires { IsReady lock.now first }
            ensures { Acted (RepliesTo M.replies first.label) lock.entry.now first times result }
        { act_times(rt, lock, first, times) },
        || -> (TurnPass<CoreState<M>>, TurnPass<CoreState<M>>)
            requires { IsReady lock.now second × IsReady lock.now third }
            ensures { Acted (RepliesTo M.replies second.label) lock.entry.now second times result.0 × Acted (RepliesTo M.replies third.label) lock.entry.now third times result.1 }
        { act_both(rt, lock, second, third, times) },
    );
    (first, second, third)
}
