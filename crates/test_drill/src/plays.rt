//! Plays of a drill's socket as texts. Each line is a call with its result:
//!
//! | call | words |
//! |---|---|
//! | messages are put in the lane, up to 64 in all: 64 are put | `puts 64 64` |
//! | a round's receives begin with this deadline, and its tasks run in turn | `in_turn 1 2 2` |
//! | the same, and its tasks run at once | `at_once 1 0..96 0..64` |
//! | the same without tasks: at the last moment nothing is due | `waits 2 0 0` |
//! | the same, and something is | `due 1 0 0` |
//! | all rounds of 130 messages, which all are given | `rounds 130` |
//!
//! After the deadline comes how many of a round's first receives end with messages, and how many receives in all get
//! one. The third task cancels the other even ones, and the fourth lets the other odd ones time out. Without tasks all
//! are cancelled where they are collected, except for the odd ones that are due. `1..64` is one to 64.
//!
//! At the end come three numbers, as in `96 1..64 0..1`: how many receives began in all, how many messages came from
//! the wire, and how many of these no receive got.
ghost use Rattle.std.specs.Prelude.{◌≡◌, ◌≤◌, []};
ghost use Rattle.core_state.specs.Wires.{IsUnused};
ghost use Rattle.sp_socket.specs.Passes.{new_list};
ghost use Rattle.cat_play.specs.Drilling.{drill_setting};
ghost use Rattle.cat_drill.specs.Calling.{IsDrillPass, Worked, AreFourCallers};
ghost use Rattle.cat_drill.specs.DrillWires.{IsSource};
ghost use Rattle.cat_drill.specs.Ending.{IsOut};

use crate::words::{Range, range_of};
use aio_word::Phase;
use cat_drill::Gate;
use cat_drill::parts::{
    Closed, DrillSource, FourCallers, begin_all, close_all, collect_all, contend, drop_all,
    four_callers_of, rounds, work,
};
use proto_pipeline::Pull;
use sp_base::{OpName, Role, Tick};
use sp_msg::Wire;
use sp_proto::Proto;
use sp_socket::{Config, Op, Options, Pass, Polled, Socket, SocketPasses, Totals, open};
use std::alloc::Global;
use std::sync::Wait;
use std::thread::Threads;

/// How the tasks of a round run.
#[derive(Clone, Copy, PartialEq, Eq)]
enum Tasks {
    InTurn,
    AtOnce,
    /// There are none, and nothing is due.
    Waits,
    /// There are none, and something is due.
    Due,
}

/// The first half of a round.
#[derive(Clone, Copy)]
struct Half {
    tasks: Tasks,
    deadline: Tick,
    /// The number of first receives that get messages.
    won: Range,
    /// The number of receives that do.
    given: Range,
}

fn tasks_of(word: &str) -> Option<Tasks> {
    match word {
        "in_turn" => Some(Tasks::InTurn),
        "at_once" => Some(Tasks::AtOnce),
        "waits" => Some(Tasks::Waits),
        "due" => Some(Tasks::Due),
        _ => None,
    }
}

fn half_of(tasks: &str, words: &str) -> Option<Half> {
    let (deadline, rest) = words.split_once(' ')?;
    let (won, given) = rest.split_once(' ')?;
    Some(Half {
        tasks: tasks_of(tasks)?,
        deadline: Tick(deadline.parse::<u64>().ok()?),
        won: range_of(won)?,
        given: range_of(given)?,
    })
}

// How the receive at this place of a round ends, where the first `messages` receives get messages.
fn expected(tasks: Tasks, place: u64, messages: u64) -> Polled {
    if place < messages {
        return ended(Phase::Won, 0);
    }
    match tasks {
        Tasks::Waits => Polled::Pending,
        Tasks::Due if place % 2 == 0 => Polled::Pending,
        _ if place % 2 == 0 => ended(Phase::Cancelled, 3),
        _ => ended(Phase::Expired, 4),
    }
}

fn ended(phase: Phase, by: u32) -> Polled {
    Polled::Ended { phase, by }
}

// Returns whether it ended in one of these ways.
fn ended_so<P: Proto, W: Wire>(
    socket: &Socket<P, W>,
    pass: &mut Pass<P, W>,
    op: OpName,
    so: Polled,
    or: Polled,
) -> bool
    requires { IsDrillPass socket.now pass.old }
    ensures { Worked pass.old pass.new }
{
    let ended = socket.poll(pass, op);
    ended == so || ended == or
}

// Returns whether each of these ended as it is to in this half of a round.
fn all_ended<P: Proto, W: Wire>(
    socket: &Socket<P, W>,
    pass: &mut Pass<P, W>,
    ops: &[Op],
    half: Half,
) -> bool
    requires { IsDrillPass socket.now pass.old }
    ensures { Worked pass.old pass.new }
{
    for place in 0..ops.len() {
        let name = ops[place].name();
        let so = expected(half.tasks, place as u64, half.won.least);
        let or = expected(half.tasks, place as u64, half.won.most);
        if !ended_so(socket, pass, name, so, or) {
            return false;
        }
    }
    true
}

// Begins a round's receives, and does what each task does, one after another. Returns whether all were begun, half of
// them for the third task.
fn in_turn<P: Proto, W: Wire, G: Gate, R: Wait>(
    rt: &R,
    alloc: Global,
    socket: &Socket<P, W>,
    gate: &G,
    callers: FourCallers<P, W>,
    ops: &mut Vec<Op>,
    now: Tick,
) -> (FourCallers<P, W>, bool)
    requires { AreFourCallers socket.now callers.main callers.two callers.three callers.four ops.old.items }
    ensures { AreFourCallers socket.now result.0.main result.0.two result.0.three result.0.four ops.new.items }
{
    let mut it = callers;
    let mut evens = Vec::new(alloc);
    let begun = begin_all(rt, socket, &mut it.main, ops, &mut evens, now);
    let names = evens.as_slice();
    work(rt, socket, gate, names, now, 0, &mut it.main);
    work(rt, socket, gate, names, now, 1, &mut it.two);
    work(rt, socket, gate, names, now, 2, &mut it.three);
    work(rt, socket, gate, names, now, 3, &mut it.four);
    (it, begun && names.len() == 48)
}

// Begins a round's receives. Returns whether all were begun, and something is due at the last moment just where `due`
// says so.
fn untouched<P: Proto, W: Wire, R: Wait>(
    rt: &R,
    alloc: Global,
    socket: &Socket<P, W>,
    callers: FourCallers<P, W>,
    ops: &mut Vec<Op>,
    deadline: Tick,
    due: bool,
) -> (FourCallers<P, W>, bool)
    requires { AreFourCallers socket.now callers.main callers.two callers.three callers.four ops.old.items }
    ensures { AreFourCallers socket.now result.0.main result.0.two result.0.three result.0.four ops.new.items }
{
    let mut it = callers;
    let mut evens = Vec::new(alloc);
    let begun = begin_all(rt, socket, &mut it.main, ops, &mut evens, deadline);
    let ticked = socket.tick(rt, &mut it.four, Tick(0));
    let is_due = ticked.won != 0 || ticked.lost != 0;
    (it, begun && is_due == due)
}

// Begins the receives of a round, and does what its tasks do to them. Returns whether all were begun.
fn begun_so<P: Proto + Send, W: Wire + Send, G: Gate + Sync, R: Wait + Threads + Sync>(
    rt: &R,
    alloc: Global,
    socket: &Socket<P, W>,
    gate: &G,
    callers: FourCallers<P, W>,
    ops: &mut Vec<Op>,
    half: Half,
) -> (FourCallers<P, W>, bool)
    requires { AreFourCallers socket.now callers.main callers.two callers.three callers.four ops.old.items }
    ensures { AreFourCallers socket.now result.0.main result.0.two result.0.three result.0.four ops.new.items }
{
    let at = half.deadline;
    match half.tasks {
        Tasks::InTurn => in_turn(rt, alloc, socket, gate, callers, ops, at),
        Tasks::AtOnce => contend(rt, alloc, socket, gate, callers, ops, at),
        Tasks::Waits => untouched(rt, alloc, socket, callers, ops, at, false),
        Tasks::Due => untouched(rt, alloc, socket, callers, ops, at, true),
    }
}

// Plays the half. Returns how many messages its receives got; `None` where a result is wrong.
fn half_round<P: Proto + Send, W: Wire + Send, G: Gate + Sync, R: Wait + Threads + Sync>(
    rt: &R,
    alloc: Global,
    socket: &Socket<P, W>,
    gate: &G,
    callers: FourCallers<P, W>,
    half: Half,
) -> (FourCallers<P, W>, Option<u64>)
    requires { AreFourCallers socket.now callers.main callers.two callers.three callers.four [] }
    ensures { AreFourCallers socket.now result.0.main result.0.two result.0.three result.0.four [] }
{
    let mut ops = Vec::new(alloc);
    let (mut it, begun) = begun_so(rt, alloc, socket, gate, callers, &mut ops, half);
    let all = begun && ops.len() == 96;
    let ended = all_ended(socket, &mut it.two, ops.as_slice(), half);
    let given = collect_all(rt, socket, &mut it.main, &mut ops) as u64;
    ops.destroy_empty();
    let right = all && ended && half.given.has(given);
    (it, if right { Some(given) } else { None })
}

// Puts messages in the lane. No receive gets one, so it returns 0.
fn puts<R: Wait>(rt: &R, alloc: Global, source: &mut DrillSource, words: &str) -> Option<u64>
    requires { IsSource source.old }
    ensures { IsSource source.new }
{
    let (count, put) = words.split_once(' ')?;
    let count = count.parse::<u32>().ok()?;
    let put = put.parse::<u32>().ok()?;
    if count <= 1_000_000 && source.put_next(rt, alloc, count) == Some(put) {
        Some(0)
    } else {
        None
    }
}

// Makes the call. Returns how many messages receives got; `None` where a result is wrong.
fn call<P: Proto + Send, W: Wire + Send, G: Gate + Sync, R: Wait + Threads + Sync>(
    rt: &R,
    alloc: Global,
    socket: &Socket<P, W>,
    gate: &G,
    callers: FourCallers<P, W>,
    source: &mut DrillSource,
    line: &str,
) -> (FourCallers<P, W>, Option<u64>)
    requires callers { AreFourCallers socket.now callers.main callers.two callers.three callers.four [] }
    requires source { IsSource source.old }
    ensures callers { AreFourCallers socket.now result.0.main result.0.two result.0.three result.0.four [] }
    ensures source { IsSource source.new }
{
    let Some((name, words)) = line.split_once(' ') else {
        return (callers, None);
    };
    if name == "puts" {
        return (callers, puts(rt, alloc, source, words));
    }
    if name == "rounds" {
        return match words.parse::<u32>() {
            Ok(count) if count <= 1_000_000 => {
                let it = rounds(rt, alloc, socket, gate, callers, source, count);
                (it, Some(count as u64))
            }
            _ => (callers, None),
        };
    }
    match half_of(name, words) {
        Some(half) => half_round(rt, alloc, socket, gate, callers, half),
        None => (callers, None),
    }
}

/// The result of a play.
#[derive(Clone, Copy)]
struct Played {
    /// The number of messages that receives got.
    given: u64,
    /// The number of the first line that isn't right, from 1 on.
    wrong: Option<usize>,
}

// Makes the calls, up to the first line that isn't right.
fn calls_on<P: Proto + Send, W: Wire + Send, G: Gate + Sync, R: Wait + Threads + Sync>(
    rt: &R,
    alloc: Global,
    socket: &Socket<P, W>,
    gate: &G,
    callers: FourCallers<P, W>,
    source: &mut DrillSource,
    calls: &str,
) -> (FourCallers<P, W>, Played)
    requires callers { AreFourCallers socket.now callers.main callers.two callers.three callers.four [] }
    requires source { IsSource source.old }
    ensures callers { AreFourCallers socket.now result.0.main result.0.two result.0.three result.0.four [] }
{
    let mut it = callers;
    let mut given = 0u64;
    let mut n = 0usize;
    for line in calls.lines() {
        n = n.saturating_add(1);
        let line = line.trim();
        if !line.is_empty() {
            let (back, got) = call(rt, alloc, socket, gate, it, source, line);
            it = back;
            match got {
                Some(got) => given = given.saturating_add(got),
                None => return (
                    it,
                    Played {
                        given,
                        wrong: Some(n),
                    },
                ),
            }
        }
    }
    (it, Played { given, wrong: None })
}

// Returns whether these are the totals of the words, where receives got `given` messages, and the others got none.
fn are_so(totals: Totals, given: u64, words: &str) -> bool {
    let Some((begun, rest)) = words.split_once(' ') else {
        return false;
    };
    let Some((came, kept)) = rest.split_once(' ') else {
        return false;
    };
    let (Some(begun), Some(came), Some(kept)) = (range_of(begun), range_of(came), range_of(kept))
    else {
        return false;
    };
    let counted = begun.has(totals.begun) && came.has(totals.frames);
    let held = given <= totals.frames && kept.has(totals.frames.saturating_sub(given));
    let ended = given <= totals.begun && totals.gone == totals.begun.saturating_sub(given);
    counted && held && ended && totals.won == given
}

// Plays the calls on an open socket, over a pipe of this wire.
fn plays_on<P: Proto + Send, W: Wire + Send + Drop, G: Gate + Sync, R: Wait + Threads + Sync>(
    rt: &R,
    alloc: Global,
    socket: Socket<P, W>,
    mut list: SocketPasses<P, W>,
    mut source: DrillSource,
    wire: W,
    gate: &G,
    calls: &str,
    totals: &str,
) -> Option<usize>
    requires list { list ≡ new_list socket drill_setting }
    requires words { (socket.words.slots ≡ 256) × (socket.words.callers ≡ 4) }
    requires source { IsSource source }
    requires unused { IsUnused (W.shown wire) }
{
    let mut it = four_callers_of(&mut list, &socket);
    let up = socket.attach(rt, &mut it.main, wire, 0, u32::MAX).is_ok();
    let (it, played) = calls_on(rt, alloc, &socket, gate, it, &mut source, calls);
    let Closed {
        totals: counted,
        wires,
        record_: _,
    } = close_all(rt, socket, list, it);
    drop_all(rt, wires);
    if played.wrong.is_none() && !(up && are_so(counted, played.given, totals)) {
        return Some(0);
    }
    played.wrong
}

/// Plays the calls on the socket of a drill, over a pipe of this wire, which is fed from the source. Returns the number
/// (from 1 on) of the first line that isn't right; 0 where the totals at its end are wrong, or there is no memory.
pub fn wrong_line<R: AllocGlobal + Wait + Threads + Sync, W: Wire + Send + Drop, G: Gate + Sync>(
    rt: &R,
    source: DrillSource,
    wire: W,
    gate: &G,
    calls: &str,
    totals: &str,
) -> Option<usize>
    requires source { IsSource source }
    requires unused { IsUnused (W.shown wire) }
{
    let alloc = rt.alloc();
    let Ok(machine) = Pull::new(alloc, Options::usual(Role::Pull, 0), false) else {
        return Some(0);
    };
    let config = Config {
        slots: 256,
        callers: 4,
    };
    match open(alloc, machine, config) {
        Err(_) => Some(0),
        Ok((socket, list)) => {
            plays_on(rt, alloc, socket, list, source, wire, gate, calls, totals)
        }
    }
}
