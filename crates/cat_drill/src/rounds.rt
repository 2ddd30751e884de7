//! The rounds of a drill.
ghost use Rattle.std.specs.Prelude.{◌≡◌, ◌≤◌, ◌∷◌, ◌++◌, []};
ghost use Rattle.cat_drill.specs.Calling.{IsDrillPass, Calls, Later, AreFourCallers};
ghost use Rattle.cat_drill.specs.DrillWires.{IsSource};

use crate::calls::{begin_one, collect_one, serve_one};
use crate::source::DrillSource;
use crate::tasks::{FourCallers, Gate, all_work};
use sp_base::{OpName, Tick};
use sp_msg::Wire;
use sp_proto::Proto;
use sp_socket::{Op, Pass, Socket};
use std::alloc::Global;
use std::sync::Wait;
use std::thread::Threads;

/// The number of receives that are begun in a round.
const RECEIVES: u32 = 96;

// Holds one more operation. Where there is no memory for it, it is collected at once.
fn hold<P: Proto, W: Wire, R: Wait>(
    rt: &R,
    socket: &Socket<P, W>,
    pass: &mut Pass<P, W>,
    ops: &mut Vec<Op>,
    op: Op,
) -> bool
    requires { Calls socket.now pass.old (ops.old.items ++ op ∷ []) }
    ensures calls { Calls socket.now pass.new ops.new.items }
    ensures later { Later pass.old pass.new }
{
    match ops.push(op) {
        Ok(()) => true,
        Err(failed) => {
            collect_one(rt, socket, pass, failed.value);
            false
        }
    }
}

// Begins a receive, and holds it. Returns its name.
fn begin_held<P: Proto, W: Wire, R: Wait>(
    rt: &R,
    socket: &Socket<P, W>,
    pass: &mut Pass<P, W>,
    ops: &mut Vec<Op>,
    deadline: Option<Tick>,
) -> Option<OpName>
    requires { Calls socket.now pass.old ops.old.items }
    ensures calls { Calls socket.now pass.new ops.new.items }
    ensures later { Later pass.old pass.new }
{
    let op = begin_one(rt, socket, pass, deadline)?;
    let name = op.name();
    if hold(rt, socket, pass, ops, op) {
        Some(name)
    } else {
        None
    }
}

// Begins the receive at this place of a round: an odd one with the deadline, an even one among the names.
fn begin_next<P: Proto, W: Wire, R: Wait>(
    rt: &R,
    socket: &Socket<P, W>,
    pass: &mut Pass<P, W>,
    ops: &mut Vec<Op>,
    evens: &mut Vec<OpName>,
    place: u32,
    deadline: Tick,
) -> bool
    requires { Calls socket.now pass.old ops.old.items }
    ensures calls { Calls socket.now pass.new ops.new.items }
    ensures later { Later pass.old pass.new }
{
    if place % 2 == 1 {
        return begin_held(rt, socket, pass, ops, Some(deadline)).is_some();
    }
    match begin_held(rt, socket, pass, ops, None) {
        Some(name) => evens.push(name).is_ok(),
        None => false,
    }
}

/// Begins the receives of a round: 96, the odd ones with the deadline, the even ones named. Returns whether all were
/// begun.
pub fn begin_all<P: Proto, W: Wire, R: Wait>(
    rt: &R,
    socket: &Socket<P, W>,
    pass: &mut Pass<P, W>,
    ops: &mut Vec<Op>,
    evens: &mut Vec<OpName>,
    deadline: Tick,
) -> bool
    requires { Calls socket.now pass.old ops.old.items }
    ensures calls { Calls socket.now pass.new ops.new.items }
    ensures later { Later pass.old pass.new }
{
    for place in 0..RECEIVES {
        if !begin_next(rt, socket, pass, ops, evens, place, deadline) {
            return false;
        }
    }
    true
}

// Collects the last of the operations that are held. Returns whether it got a message, or `None` where none is held.
fn collect_last<P: Proto, W: Wire, R: Wait>(
    rt: &R,
    socket: &Socket<P, W>,
    pass: &mut Pass<P, W>,
    ops: &mut Vec<Op>,
) -> Option<bool>
    requires { Calls socket.now pass.old ops.old.items }
    ensures calls { Calls socket.now pass.new ops.new.items }
    ensures later { Later pass.old pass.new }
    ensures none { result ≡ None → ops.new.items ≡ [] }
{
    match ops.pop() {
        None => None,
        Some(op) => Some(collect_one(rt, socket, pass, op)),
    }
}

/// Collects all that are held. Returns how many messages they got.
pub fn collect_all<P: Proto, W: Wire, R: Wait>(
    rt: &R,
    socket: &Socket<P, W>,
    pass: &mut Pass<P, W>,
    ops: &mut Vec<Op>,
) -> u32
    requires { Calls socket.now pass.old ops.old.items }
    ensures calls { Calls socket.now pass.new ops.new.items }
    ensures later { Later pass.old pass.new }
    ensures none { ops.new.items ≡ [] }
{
    let mut given: u32 = 0;
    for _ in rt.forever() {
        match collect_last(rt, socket, pass, ops) {
            None => return given,
            Some(got) => given = given.saturating_add(got as u32),
        }
    }
    unreachable!()
}

// Serves, and collects the receive.
fn give_on<P: Proto, W: Wire, R: Wait>(
    rt: &R,
    socket: &Socket<P, W>,
    pass: &mut Pass<P, W>,
    op: Op,
) -> bool
    requires { Calls socket.now pass.old (op ∷ []) }
    ensures calls { Calls socket.now pass.new [] }
    ensures later { Later pass.old pass.new }
{
    serve_one(rt, socket, pass);
    collect_one(rt, socket, pass, op)
}

// Receives one message. Returns whether one came.
fn give_one<P: Proto, W: Wire, R: Wait>(
    rt: &R,
    socket: &Socket<P, W>,
    pass: &mut Pass<P, W>,
) -> bool
    requires { Calls socket.now pass.old [] }
    ensures calls { Calls socket.now pass.new [] }
    ensures later { Later pass.old pass.new }
{
    match begin_one(rt, socket, pass, None) {
        Some(op) => give_on(rt, socket, pass, op),
        None => false,
    }
}

// Receives `left` messages, one at a time. Returns whether all came.
fn give_rest<P: Proto, W: Wire, R: Wait>(
    rt: &R,
    socket: &Socket<P, W>,
    pass: &mut Pass<P, W>,
    left: u32,
) -> bool
    requires { Calls socket.now pass.old [] }
    ensures calls { Calls socket.now pass.new [] }
    ensures later { Later pass.old pass.new }
{
    for _ in 0..left {
        if !give_one(rt, socket, pass) {
            return false;
        }
    }
    true
}

/// The first half of a round: its receives are begun and held, and the four tasks work on them at once. Returns whether
/// all were begun.
pub fn contend<P: Proto + Send, W: Wire + Send, G: Gate + Sync, R: Wait + Threads + Sync>(
    rt: &R,
    alloc: Global,
    socket: &Socket<P, W>,
    gate: &G,
    four_callers: FourCallers<P, W>,
    ops: &mut Vec<Op>,
    now: Tick,
) -> (FourCallers<P, W>, bool)
    requires { AreFourCallers socket.now four_callers.main four_callers.two four_callers.three four_callers.four ops.old.items }
    ensures four_callers { AreFourCallers socket.now result.0.main result.0.two result.0.three result.0.four ops.new.items }
    ensures later { Later four_callers.main result.0.main }
{
    let mut four_callers = four_callers;
    let mut evens = Vec::new(alloc);
    let begun = begin_all(rt, socket, &mut four_callers.main, ops, &mut evens, now);
    let four_callers = all_work(rt, socket, gate, evens.as_slice(), now, four_callers);
    (four_callers, begun)
}

// Takes a round in which `messages` messages are to be given. Returns whether they were.
fn round<P: Proto + Send, W: Wire + Send, G: Gate + Sync, R: Wait + Threads + Sync>(
    rt: &R,
    alloc: Global,
    socket: &Socket<P, W>,
    gate: &G,
    four_callers: FourCallers<P, W>,
    messages: u32,
    now: Tick,
) -> (FourCallers<P, W>, bool)
    requires { AreFourCallers socket.now four_callers.main four_callers.two four_callers.three four_callers.four [] }
    ensures four_callers { AreFourCallers socket.now result.0.main result.0.two result.0.three result.0.four [] }
    ensures later { Later four_callers.main result.0.main }
{
    let mut ops = Vec::new(alloc);
    let (mut four_callers, begun) = contend(rt, alloc, socket, gate, four_callers, &mut ops, now);
    let given = collect_all(rt, socket, &mut four_callers.main, &mut ops);
    ops.destroy_empty();
    let left = messages.saturating_sub(given);
    let all = give_rest(rt, socket, &mut four_callers.main, left);
    (four_callers, begun & all)
}

/// Takes rounds until `count` messages were put and given, or one of them was not.
pub fn rounds<P: Proto + Send, W: Wire + Send, G: Gate + Sync, R: Wait + Threads + Sync>(
    rt: &R,
    alloc: Global,
    socket: &Socket<P, W>,
    gate: &G,
    four_callers: FourCallers<P, W>,
    source: &mut DrillSource,
    count: u32,
) -> FourCallers<P, W>
    requires four_callers { AreFourCallers socket.now four_callers.main four_callers.two four_callers.three four_callers.four [] }
    requires source { IsSource source.old }
    requires count { count ≤ 1000000 }
    ensures four_callers { AreFourCallers socket.now result.main result.two result.three result.four [] }
    ensures later { Later four_callers.main result.main }
    ensures source { IsSource source.new }
    ensures name { source.new.lane.name ≡ source.old.lane.name }
{
    let mut four_callers = four_callers;
    for n in 0..count {
        let Some(messages) = source.put_next(rt, alloc, count) else {
            return four_callers;
        };
        let now = Tick(n as u64 + 1);
        let (back, all) = round(rt, alloc, socket, gate, four_callers, messages, now);
        four_callers = back;
        if !all {
            return four_callers;
        }
    }
    four_callers
}
