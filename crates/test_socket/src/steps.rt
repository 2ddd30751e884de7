//! A caller's calls as a text: a line of a play without the number of its caller. The documentation of `plays` lists
//! them.
ghost use Rattle.test_socket.specs.Calls.{Calls};

use crate::callers::Caller;
use crate::line::CallLine;
use crate::marks::ThreadMarks;
use crate::words::{
    are_totals, is_begun, is_counted, is_down, is_error, is_marked, is_next, is_now, is_outcome,
    is_polled, is_raced, is_shut, is_switched, miss_of, yes_or_no,
};
use sp_base::{Ctx, OpName, SpError, Tick};
use sp_msg::{Message, Wire};
use sp_proto::Proto;
use sp_socket::{Raced, Socket, Ticked};
use std::alloc::Global;
use std::process::Abort;
use std::sync::Wait;

// Returns whether a send of this body begins, or doesn't and the message comes back, as the line says.
fn sends<P: Proto, W: Wire, R: Wait + Abort>(
    rt: &R,
    alloc: Global,
    socket: &Socket<P, W>,
    caller: &mut Caller<P, W>,
    line: &mut CallLine<'_>,
) -> bool
    requires { Calls socket.now caller.old.pass caller.old.ops.items }
    ensures { Calls socket.now caller.new.pass caller.new.ops.items }
{
    let body = line.bytes();
    let Ok(m) = Message::from_body(alloc, body.as_slice()) else {
        return false;
    };
    match caller.begin_send(rt, socket, m) {
        Ok(op) => line.names(op),
        Err((e, m)) => m.body() == body.as_slice() && is_error(line, SpError::from(e)),
    }
}

// Plays a call for operations that begin.
fn begins<P: Proto, W: Wire, R: Wait + Abort>(
    rt: &R,
    alloc: Global,
    socket: &Socket<P, W>,
    caller: &mut Caller<P, W>,
    name: &str,
    line: &mut CallLine<'_>,
) -> bool
    requires { Calls socket.now caller.old.pass caller.old.ops.items }
    ensures { Calls socket.now caller.new.pass caller.new.ops.items }
{
    match name {
        "receives" => {
            let c = Ctx(line.number());
            is_begun(line, caller.begin_recv(rt, socket, c, None))
        }
        "receives_by" => {
            let c = Ctx(line.number());
            let deadline = Tick(line.long());
            is_begun(line, caller.begin_recv(rt, socket, c, Some(deadline)))
        }
        "sends" => sends(rt, alloc, socket, caller, line),
        _ => false,
    }
}

// Plays a call that collects an operation, or that receives at once.
fn collects<P: Proto, W: Wire, R: Wait + Abort>(
    rt: &R,
    socket: &Socket<P, W>,
    marks: &ThreadMarks,
    caller: &mut Caller<P, W>,
    name: &str,
    line: &mut CallLine<'_>,
) -> bool
    requires { Calls socket.now caller.old.pass caller.old.ops.items }
    ensures { Calls socket.now caller.new.pass caller.new.ops.items }
{
    match name {
        "collects" => match caller.collect(rt, socket) {
            None => false,
            Some(outcome) => is_outcome(line, outcome),
        },
        "collects_not" => caller.collect(rt, socket).is_none(),
        "collects_counted" => is_counted(marks, caller.collect(rt, socket)),
        "waits" => is_outcome(line, caller.wait(rt, socket)),
        "now" => is_now(line, caller.try_recv(rt, socket)),
        "now_next" => is_next(marks, caller.try_recv(rt, socket)),
        _ => false,
    }
}

// Cancels the operation, and counts it where that has ended it.
fn tries<P: Proto, W: Wire>(
    socket: &Socket<P, W>,
    marks: &ThreadMarks,
    caller: &mut Caller<P, W>,
    op: OpName,
)
    requires { Calls socket.now caller.old.pass caller.old.ops.items }
    ensures { Calls socket.now caller.new.pass caller.new.ops.items }
{
    if caller.cancel(socket, op) == Raced::Won {
        marks.ended.add(1);
    }
}

// Does the same for each generation of the slot up to this one.
fn guesses<P: Proto, W: Wire>(
    socket: &Socket<P, W>,
    marks: &ThreadMarks,
    caller: &mut Caller<P, W>,
    slot: u32,
    last: u64,
)
    requires { Calls socket.now caller.old.pass caller.old.ops.items }
    ensures { Calls socket.now caller.new.pass caller.new.ops.items }
{
    for before in 0..last {
        let generation = before.saturating_add(1);
        tries(socket, marks, caller, OpName { slot, generation });
    }
}

// Plays a call for operations that are cancelled, expire and are polled.
fn races<P: Proto, W: Wire, R: Wait>(
    rt: &R,
    socket: &Socket<P, W>,
    marks: &ThreadMarks,
    caller: &mut Caller<P, W>,
    name: &str,
    line: &mut CallLine<'_>,
) -> bool
    requires { Calls socket.now caller.old.pass caller.old.ops.items }
    ensures { Calls socket.now caller.new.pass caller.new.ops.items }
{
    match name {
        "cancels" => {
            let op = line.name();
            is_raced(line, caller.cancel(socket, op))
        }
        "polls" => {
            let op = line.name();
            is_polled(line, caller.poll(socket, op))
        }
        "ticks" => {
            let now = Tick(line.long());
            let Ticked { won, lost } = caller.tick(rt, socket, now);
            line.number() == won && line.number() == lost
        }
        "ticks_counted" => {
            let now = Tick(line.long());
            marks.ended.add(caller.tick(rt, socket, now).won as u64);
            true
        }
        "tries" => {
            tries(socket, marks, caller, line.name());
            true
        }
        "guesses" => {
            let op = line.name();
            guesses(socket, marks, caller, op.slot, op.generation);
            true
        }
        _ => false,
    }
}

// Plays a call for pipes that are served, and that are down, and for the close.
fn serves<P: Proto, W: Wire + Drop, R: Wait>(
    rt: &R,
    socket: &Socket<P, W>,
    marks: &ThreadMarks,
    caller: &mut Caller<P, W>,
    name: &str,
    line: &mut CallLine<'_>,
) -> bool
    requires { Calls socket.now caller.old.pass caller.old.ops.items }
    ensures { Calls socket.now caller.new.pass caller.new.ops.items }
{
    match name {
        "serve" => {
            caller.serve(rt, socket);
            true
        }
        "serves" => line.says(yes_or_no(caller.serve(rt, socket).moved)),
        "down" => match caller.take_ended(rt, socket) {
            None => false,
            Some(gone) => is_down(line, gone.pipe.0, gone.why),
        },
        "misses" => match miss_of(line.word()) {
            None => false,
            Some(miss) => {
                caller.misses(rt, socket, miss);
                true
            }
        },
        "closes" => are_totals(line, marks, caller.close(rt, socket)),
        _ => false,
    }
}

// Plays a call for contexts and topics.
fn has_contexts<P: Proto, W: Wire, R: Wait>(
    rt: &R,
    socket: &Socket<P, W>,
    caller: &mut Caller<P, W>,
    name: &str,
    line: &mut CallLine<'_>,
) -> bool
    requires { Calls socket.now caller.old.pass caller.old.ops.items }
    ensures { Calls socket.now caller.new.pass caller.new.ops.items }
{
    match name {
        "opens" => match caller.open_ctx(rt, socket) {
            Ok(c) => line.number() == c.0,
            Err(e) => is_error(line, SpError::from(e)),
        },
        "shuts" => {
            let c = Ctx(line.number());
            is_shut(line, caller.close_ctx(rt, socket, c))
        }
        "subscribes" => {
            let topic = line.bytes();
            is_switched(line, caller.subscribe(rt, socket, topic.as_slice()))
        }
        "unsubscribes" => {
            let topic = line.bytes();
            is_switched(line, caller.unsubscribe(rt, socket, topic.as_slice()))
        }
        _ => false,
    }
}

// Has the caller do this, and returns whether the result is what it says. Each part knows some of the calls, and
// returns `false` for the others.
fn does<P: Proto, W: Wire + Drop, R: Wait + Abort>(
    rt: &R,
    alloc: Global,
    socket: &Socket<P, W>,
    marks: &ThreadMarks,
    caller: &mut Caller<P, W>,
    call: &str,
    round: u32,
) -> bool
    requires { Calls socket.now caller.old.pass caller.old.ops.items }
    ensures { Calls socket.now caller.new.pass caller.new.ops.items }
{
    let mut line = CallLine::new(alloc, call, round);
    let name = line.word();
    let is_right = begins(rt, alloc, socket, caller, name, &mut line)
        || collects(rt, socket, marks, caller, name, &mut line)
        || races(rt, socket, marks, caller, name, &mut line)
        || serves(rt, socket, marks, caller, name, &mut line)
        || has_contexts(rt, socket, caller, name, &mut line)
        || is_marked(&mut line, marks, name);
    is_right && line.is_read()
}

// Has it do each of these.
fn does_all<P: Proto, W: Wire + Drop, R: Wait + Abort>(
    rt: &R,
    alloc: Global,
    socket: &Socket<P, W>,
    marks: &ThreadMarks,
    caller: &mut Caller<P, W>,
    calls: &str,
    round: u32,
) -> bool
    requires { Calls socket.now caller.old.pass caller.old.ops.items }
    ensures { Calls socket.now caller.new.pass caller.new.ops.items }
{
    for call in calls.split(" | ") {
        if !does(rt, alloc, socket, marks, caller, call, round) {
            return false;
        }
    }
    true
}

// Has it do so for each number from the first to the last.
fn does_rounds<P: Proto, W: Wire + Drop, R: Wait + Abort>(
    rt: &R,
    alloc: Global,
    socket: &Socket<P, W>,
    marks: &ThreadMarks,
    caller: &mut Caller<P, W>,
    first: u32,
    last: u32,
    calls: &str,
) -> bool
    requires { Calls socket.now caller.old.pass caller.old.ops.items }
    ensures { Calls socket.now caller.new.pass caller.new.ops.items }
{
    for round in first..=last {
        if !does_all(rt, alloc, socket, marks, caller, calls, round) {
            return false;
        }
    }
    first <= last
}

/// Has the caller do what the line says, and returns whether the result is what it says.
pub fn does_line<P: Proto, W: Wire + Drop, R: Wait + Abort>(
    rt: &R,
    alloc: Global,
    socket: &Socket<P, W>,
    marks: &ThreadMarks,
    caller: &mut Caller<P, W>,
    text: &str,
) -> bool
    requires { Calls socket.now caller.old.pass caller.old.ops.items }
    ensures { Calls socket.now caller.new.pass caller.new.ops.items }
{
    let Some(rounds) = text.strip_prefix("for ") else {
        return does_all(rt, alloc, socket, marks, caller, text, 0);
    };
    let Some((numbers, calls)) = rounds.split_once(": ") else {
        return false;
    };
    let Some((first, last)) = numbers.split_once("..") else {
        return false;
    };
    match (first.parse::<u32>(), last.parse::<u32>()) {
        (Ok(first), Ok(last)) => {
            does_rounds(rt, alloc, socket, marks, caller, first, last, calls)
        }
        _ => false,
    }
}
