//! The four tasks of a round, each with a pass of its own.
ghost use Rattle.std.specs.Prelude.{ℕ, ◌<◌, length, slice_index_or};
ghost use Rattle.sp_socket.specs.Passes.{PassView};
ghost use Rattle.aio_word.specs.Views.{Each};
ghost use Rattle.cat_drill.specs.Calling.{IsDrillPass, Worked};

use crate::calls::{cancel_each, serve_one, tick_one};
use sp_base::{OpName, Tick};
use sp_msg::Wire;
use sp_proto::Proto;
use sp_socket::{Pass, Socket};
use std::sync::Wait;
use std::thread::{self, Threads};

/// What each task of a drill goes through first. Tests can hold tasks here.
pub trait Gate {
    /// Lets the task with this number through, from 1 to 4.
    fn pass(&self, task: u32);
}

/// Lets every task through at once.
pub struct OpenGate;

impl Gate for OpenGate {
    fn pass(&self, _task: u32) {}
}

// The number of the task at this place.
fn task_at(i: usize) -> u32 {
    match i {
        0 => 1,
        1 => 2,
        2 => 3,
        _ => 4,
    }
}

/// The task at this place, from 0: the first two serve, the third cancels, the last ticks. It passes the gate first.
pub fn work<P: Proto, W: Wire, G: Gate, R: Wait>(
    rt: &R,
    socket: &Socket<P, W>,
    gate: &G,
    names: &[OpName],
    now: Tick,
    i: usize,
    pass: &mut Pass<P, W>,
)
    requires { IsDrillPass socket.now pass.old }
    ensures { Worked pass.old pass.new }
{
    let task = task_at(i);
    gate.pass(task);
    match task {
        3 => cancel_each(socket, pass, names),
        4 => tick_one(rt, socket, pass, now),
        _ => serve_one(rt, socket, pass),
    }
}

/// The four callers of a drill. The first one is the main caller, whose pass the first task has.
pub struct FourCallers<P: Proto, W: Wire> {
    pub main: Pass<P, W>,
    pub two: Pass<P, W>,
    pub three: Pass<P, W>,
    pub four: Pass<P, W>,
}

// Runs each task in a thread of its own, where one can be made.
fn in_threads<P: Proto + Send, W: Wire + Send, G: Gate + Sync, R: Wait + Threads + Sync>(
    rt: &R,
    socket: &Socket<P, W>,
    gate: &G,
    names: &[OpName],
    now: Tick,
    passes: &mut [Pass<P, W>],
)
    requires { Each (λ p. IsDrillPass socket.now p) passes.old }
    ensures { (i : ℕ) (d : PassView) → i < length passes.old → Worked (slice_index_or passes.old i d) (slice_index_or passes.new i d) }
{
    thread::for_each_mut(
        rt,
        passes,
        4,
        &|i, pass: &mut Pass<P, W>|
            requires { IsDrillPass socket.now pass.old }
            ensures { Worked pass.old pass.new }
        { work(rt, socket, gate, names, now, i, pass) },
    );
}

/// Runs all four tasks at once, and joins them.
pub fn all_work<P: Proto + Send, W: Wire + Send, G: Gate + Sync, R: Wait + Threads + Sync>(
    rt: &R,
    socket: &Socket<P, W>,
    gate: &G,
    names: &[OpName],
    now: Tick,
    four_callers: FourCallers<P, W>,
) -> FourCallers<P, W>
    requires main { IsDrillPass socket.now four_callers.main }
    requires two { IsDrillPass socket.now four_callers.two }
    requires three { IsDrillPass socket.now four_callers.three }
    requires four { IsDrillPass socket.now four_callers.four }
    ensures main { Worked four_callers.main result.main }
    ensures two { Worked four_callers.two result.two }
    ensures three { Worked four_callers.three result.three }
    ensures four { Worked four_callers.four result.four }
{
    let FourCallers {
        main,
        two,
        three,
        four,
    } = four_callers;
    let mut passes = [main, two, three, four];
    in_threads(rt, socket, gate, names, now, &mut passes);
    let [main, two, three, four] = passes;
    FourCallers {
        main,
        two,
        three,
        four,
    }
}
