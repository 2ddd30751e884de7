//! A play of a machine as a text. Each line is a call, with what it returns:
//!
//! | call | words |
//! |---|---|
//! | the machine is of this role, raw or cooked | `is bus raw` |
//! | there is memory for the pending operations of 2 slots | `reserve 2` |
//! | the pipe comes up; it can't, since another one is up; it goes down | `up 1`, `refused 2`, `down 1` |
//! | whether frames of the pipe are wanted | `wants 1 yes` |
//! | the frame comes on the pipe; the same, and it is malformed | `frame 1 'a`, `malformed 1 '` |
//! | a turn begins; the pipe has no room in this turn | `fresh`, `full 1` |
//! | the time; the time a millisecond before this moment | `clock 1000ms`, `clock 2min`, `before 1000ms` |
//! | the close | `close` |
//! | the context is opened; it is shut | `open 1`, `shut 1` |
//! | the context subscribes to a topic, and whether that is a change | `put_on 0 'a yes` |
//! | it unsubscribes, and whether that is a change | `take_off 0 'a no` |
//! | whether a message is queued for the context | `keeps 0 no` |
//! | whether an operation may begin on the context | `check 0 send ok`, `check 0 receive not_supported` |
//! | a receive begins: its slot, and its context | `receive 1 0` |
//! | a send begins: its slot, its context, and its message | `send 0 0 ' 'ping` |
//! | nothing can be done | `idle` |
//! | the receive can be given a message | `can_give 1` |
//! | the send can go out on the pipe, or on all pipes | `can_send 0 1`, `can_flood 0` |
//! | the send can be dropped, since its pipe is down | `can_drop 1` |
//! | the receive should end for this cause | `can_finish 1 superseded` |
//! | the request of the context can go out again on the pipe | `can_resend 0 2` |
//! | whether the send may go to the pipe | `goes_to 0 1 yes` |
//! | the copy of the send for the pipe; there is none | `copy 0 1 80000000' 's`, `no_copy 0 2` |
//! | the request of the context goes out again on the pipe | `resend 0 2 80000000' 'a` |
//! | no request does: there is no copy | `no_resend 0 1` |
//! | the receive gets this message | `gets 1 ' 'pong` |
//! | the same, and the second operation begins, a send of it on context 0 | `passes_on 0 1 00000001' 'm` |
//! | the send goes out on the pipe as this message | `goes_out 0 1 80000000' 'ping` |
//! | the send ends, after going to many pipes | `ends 0` |
//! | the send ends without a message, after going to no pipe | `ends_nowhere 1` |
//! | the send is lost, and hands its message back | `hands_back 1 00000005' 'y` |
//! | the receive is lost | `loses 0` |
//!
//! Pipes and contexts are written as their numbers. An operation is written as its slot, and is the first one of it;
//! `1.7` is the seventh one of slot 1. A message is its header and its body. Bytes are hexadecimal digits, an
//! apostrophe, and text: `80000000'a`, `'pong`, `'` for no bytes. `'m*1000` is a text a thousand times.
//!
//! A line of rounds, `for 1..40: up # | frame # 80%'a`, has calls with bars between them, which are made for each
//! number, upwards or downwards. In them `#` is the number, `&` the next one, and `%` six hexadecimal digits of the
//! number.
ghost use Rattle.std.specs.Prelude.{◌<◌};

use crate::checks::holds;
use crate::machines::line_wrong_for;
use crate::words::{
    bytes, cause, is_message, is_this, message, milliseconds, named, raw_or_cooked, round,
    word_of_check, yes_or_no,
};
use sp_base::{Ctx, OpName, PipeId, Tick};
use sp_msg::Message;
use sp_proto::{Act, Offer, Proto, UpFault, Verb, Verdict};
use std::alloc::Global;

/// The number (from 1 on) of the first line that isn't right, or isn't a call.
pub fn wrong_line<M: Proto>(m: &mut M, alloc: Global, play: &str) -> Option<usize> {
    let mut n = 0usize;
    for line in play.lines() {
        n = n.saturating_add(1);
        if !is_right(m, alloc, line) {
            return Some(n);
        }
    }
    None
}

fn is_right<M: Proto>(m: &mut M, alloc: Global, line: &str) -> bool {
    match line.trim().strip_prefix("for ") {
        Some(rounds) => are_so(m, alloc, rounds),
        None => is_so(m, alloc, line),
    }
}

// Makes the calls for each number, and returns whether they are right.
fn are_so<M: Proto>(m: &mut M, alloc: Global, rounds: &str) -> bool {
    let Some((numbers, calls)) = rounds.split_once(':') else {
        return false;
    };
    let Some((first, last)) = numbers.split_once("..") else {
        return false;
    };
    match (first.parse::<u32>(), last.parse::<u32>()) {
        (Ok(first), Ok(last)) => are_so_from(m, alloc, first, last, calls),
        _ => false,
    }
}

fn are_so_from<M: Proto>(m: &mut M, alloc: Global, first: u32, last: u32, calls: &str) -> bool {
    for i in 0..first.abs_diff(last).saturating_add(1) {
        if !is_round_so(m, alloc, behind(first, last, i), calls) {
            return false;
        }
    }
    true
}

// The number `steps` steps after the first one, on the way to the last.
fn behind(first: u32, last: u32, steps: u32) -> u32 {
    if first <= last {
        first.saturating_add(steps)
    } else {
        first.saturating_sub(steps)
    }
}

fn is_round_so<M: Proto>(m: &mut M, alloc: Global, n: u32, calls: &str) -> bool {
    match round(alloc, n, calls) {
        None => false,
        Some(calls) => are_calls_so(m, alloc, calls.as_str()),
    }
}

fn are_calls_so<M: Proto>(m: &mut M, alloc: Global, calls: &str) -> bool {
    for call in calls.split('|') {
        if call.trim().is_empty() || !is_so(m, alloc, call) {
            return false;
        }
    }
    true
}

// Returns whether the line is empty or right. The words after the name are told apart by their count, and by which of
// them are names of pipes, contexts or operations.
fn is_so<M: Proto>(m: &mut M, alloc: Global, line: &str) -> bool {
    let mut words = line.split_whitespace();
    let Some(name) = words.next() else {
        return true;
    };
    let Some(a) = words.next() else {
        return alone(m, name);
    };
    let Some(b) = words.next() else {
        return with_one(m, name, a);
    };
    let Some(c) = words.next() else {
        return with_two(m, alloc, name, a, b);
    };
    let Some(d) = words.next() else {
        return with_three(m, alloc, name, a, b, c);
    };
    words.next().is_none() && with_four(m, alloc, name, a, b, c, d)
}

fn alone<M: Proto>(m: &mut M, name: &str) -> bool {
    match name {
        "idle" => return m.offer() == Offer::Idle,
        "fresh" => m.fresh(),
        "close" => m.close(),
        _ => return false,
    }
    true
}

fn with_one<M: Proto>(m: &mut M, name: &str, a: &str) -> bool {
    match named(a) {
        Some(op) => with_op(m, name, op),
        None => is_clock(m, name, a),
    }
}

fn is_clock<M: Proto>(m: &mut M, name: &str, word: &str) -> bool {
    let Some(now) = milliseconds(word) else {
        return false;
    };
    match name {
        "clock" => m.clock(Tick(now)),
        "before" => m.clock(Tick(now.saturating_sub(1))),
        _ => return false,
    }
    true
}

fn with_op<M: Proto>(m: &mut M, name: &str, op: OpName) -> bool {
    match name {
        "ends" | "ends_nowhere" => m.won(op, None).is_none(),
        "loses" => m.lost(op).is_none(),
        "can_give" => m.offer() == Offer::Give { op },
        "can_flood" => m.offer() == Offer::Flood { op },
        "can_drop" => m.offer() == Offer::Drop { op },
        _ => op.generation == 1 && with_number(m, name, op.slot),
    }
}

fn with_number<M: Proto>(m: &mut M, name: &str, n: u32) -> bool {
    match name {
        "reserve" => m.reserve(n).is_ok(),
        "up" => m.up(PipeId(n)).is_ok(),
        "refused" => m.up(PipeId(n)) == Err(UpFault::Refused),
        "open" => m.open_ctx(Ctx(n)).is_ok(),
        _ => is_told(m, name, n),
    }
}

// Makes a call that returns nothing. Returns whether there is such a call.
fn is_told<M: Proto>(m: &mut M, name: &str, n: u32) -> bool {
    match name {
        "down" => m.down(PipeId(n)),
        "full" => m.full(PipeId(n)),
        "shut" => m.close_ctx(Ctx(n)),
        _ => return false,
    }
    true
}

fn with_two<M: Proto>(m: &mut M, alloc: Global, name: &str, a: &str, b: &str) -> bool {
    match (named(a), named(b)) {
        (Some(a), Some(b)) => b.generation == 1 && with_names(m, name, a, b.slot),
        (Some(a), None) => with_word(m, alloc, name, a, b),
        _ => name == "is" && m.role().name() == a && raw_or_cooked(m.raw()) == b,
    }
}

fn with_names<M: Proto>(m: &mut M, name: &str, op: OpName, n: u32) -> bool {
    let pipe = PipeId(n);
    let ctx = Ctx(op.slot);
    match name {
        "receive" => begins(m, op, Ctx(n), Act::Recv),
        "can_send" => m.offer() == Offer::Send { op, pipe },
        "can_resend" => m.offer() == Offer::Again { ctx, pipe },
        "no_copy" => m.flood(op, pipe).is_none(),
        "no_resend" => m.again(ctx, pipe).is_none(),
        _ => false,
    }
}

fn with_word<M: Proto>(m: &mut M, alloc: Global, name: &str, op: OpName, word: &str) -> bool {
    let n = op.slot;
    match name {
        "wants" => yes_or_no(m.wants(PipeId(n))) == word,
        "keeps" => yes_or_no(m.keeps(Ctx(n))) == word,
        "frame" => is_found(m, alloc, n, word, Verdict::Fine),
        "malformed" => is_found(m, alloc, n, word, Verdict::Malformed),
        "can_finish" => can_finish(m, op, word),
        _ => false,
    }
}

// Returns whether the frame gets this verdict.
fn is_found<M: Proto>(m: &mut M, alloc: Global, p: u32, frame: &str, what: Verdict) -> bool {
    match bytes(alloc, frame) {
        None => false,
        Some(frame) => comes(m, alloc, p, &frame, what),
    }
}

fn comes<M: Proto>(m: &mut M, alloc: Global, p: u32, frame: &[u8], what: Verdict) -> bool {
    match Message::from_body(alloc, frame) {
        Err(_) => false,
        Ok(message) => m.frame(PipeId(p), message) == what,
    }
}

fn can_finish<M: Proto>(m: &mut M, op: OpName, why: &str) -> bool {
    match m.offer() {
        Offer::Finish {
            op: found,
            cause: c,
        } => found == op && cause(c) == why,
        _ => false,
    }
}

fn with_three<M: Proto>(m: &mut M, alloc: Global, name: &str, a: &str, b: &str, c: &str) -> bool {
    match (named(a), named(b)) {
        (Some(op), Some(p)) => {
            name == "goes_to" && p.generation == 1 && yes_or_no(m.goes_to(op, PipeId(p.slot))) == c
        }
        (Some(op), None) => with_words(m, alloc, name, op, b, c),
        _ => false,
    }
}

fn with_words<M: Proto>(
    m: &mut M,
    alloc: Global,
    name: &str,
    op: OpName,
    first: &str,
    second: &str,
) -> bool {
    match name {
        "check" => checks(m, op.slot, first, second),
        "put_on" => switches(m, alloc, op.slot, first, true, second),
        "take_off" => switches(m, alloc, op.slot, first, false, second),
        "gets" => is_this(alloc, m.won(op, None), first, second),
        "hands_back" => is_this(alloc, m.lost(op), first, second),
        _ => false,
    }
}

// Returns whether an operation may begin.
fn checks<M: Proto>(m: &M, c: u32, verb: &str, returned: &str) -> bool {
    match verb {
        "send" => word_of_check(m.check(Ctx(c), Verb::Send)) == returned,
        "receive" => word_of_check(m.check(Ctx(c), Verb::Recv)) == returned,
        _ => false,
    }
}

// Subscribes to the topic or unsubscribes from it, and returns whether the line's word for the change is right.
fn switches<M: Proto>(
    m: &mut M,
    alloc: Global,
    c: u32,
    topic: &str,
    on: bool,
    changes: &str,
) -> bool {
    let Some(topic) = bytes(alloc, topic) else {
        return false;
    };
    match m.topic(Ctx(c), &topic, on) {
        Ok(changed) => yes_or_no(changed) == changes,
        Err(_) => false,
    }
}

fn with_four<M: Proto>(
    m: &mut M,
    alloc: Global,
    name: &str,
    a: &str,
    b: &str,
    header: &str,
    body: &str,
) -> bool {
    match (named(a), named(b)) {
        (Some(a), Some(b)) => with_message(m, alloc, name, a, b, header, body),
        _ => false,
    }
}

fn with_message<M: Proto>(
    m: &mut M,
    alloc: Global,
    name: &str,
    op: OpName,
    other: OpName,
    header: &str,
    body: &str,
) -> bool {
    let pipe = PipeId(other.slot);
    match name {
        "send" => sends(m, op, Ctx(other.slot), message(alloc, header, body)),
        "copy" => is_this(alloc, m.flood(op, pipe), header, body),
        "resend" => is_this(alloc, m.again(Ctx(op.slot), pipe), header, body),
        "goes_out" => is_this(alloc, m.won(op, Some(pipe)), header, body),
        "passes_on" => passes_on(m, alloc, op, other, header, body),
        _ => false,
    }
}

// Begins the operation, and returns whether it began.
fn begins<M: Proto>(m: &mut M, op: OpName, c: Ctx, act: Act) -> bool {
    if m.reserve(1).is_err() {
        return false;
    }
    m.begin(op, c, act).is_ok()
}

// Begins a send of the message, and returns whether it began.
fn sends<M: Proto>(m: &mut M, op: OpName, c: Ctx, message: Option<Message>) -> bool {
    match message {
        None => false,
        Some(message) => begins(m, op, c, Act::Send(message)),
    }
}

// Returns whether the receive gets this message, and a send of it begins.
fn passes_on<M: Proto>(
    m: &mut M,
    alloc: Global,
    from: OpName,
    to: OpName,
    header: &str,
    body: &str,
) -> bool {
    match m.won(from, None) {
        None => false,
        Some(message) => {
            is_message(alloc, &message, header, body) && begins(m, to, Ctx(0), Act::Send(message))
        }
    }
}

// Returns whether each of the lines is wrong for a bus.
fn are_wrong(alloc: Global, lines: &str) -> bool {
    for line in lines.lines() {
        if line_wrong_for(alloc, "bus", line) != Some(1) {
            return false;
        }
    }
    true
}

#[test]
fn a_line_that_is_no_call_is_wrong(rt: HostRuntime) {
    let lines = "up
        up 1 2
        up one
        idle 0
        jump 1
        is bus
        clock 1000
        wants 1 maybe
        frame 1 a
        frame 1 0'
        frame 1 'a b
        check 0 both ok
        send 0 0 00'a 'b
        goes_out 0 1 '
        send 0 0 ' 'a 'b
        up #
        up 1.
        for 1..2 up #
        for 1: up #
        for 1..two: up #
        for 1..2: jump #
        for 1..2:
        for 1..2: fresh |
        for 0..1: check # send ok
        for 1..0: check # receive not_supported
        for 0..0: check 0 send ok | check 1 send ok
        up 1.7
        is bus raw
        can_give 0
        keeps 0 yes
        check 0 send state
        frame 1 'a*b";
    holds(&rt, are_wrong(rt.alloc(), lines));
}

#[test]
fn the_first_wrong_line_is_told(rt: HostRuntime) {
    let play = "
        up 1

        wants 1 no
        wants 1 no
    ";
    holds(&rt, line_wrong_for(rt.alloc(), "bus", play) == Some(4));
}

#[test]
fn a_text_of_no_machine_is_wrong(rt: HostRuntime) {
    let alloc = rt.alloc();
    holds(&rt, line_wrong_for(alloc, "bus+tree", "") == Some(0));
    holds(&rt, line_wrong_for(alloc, "bus flat", "") == Some(0));
    holds(&rt, line_wrong_for(alloc, "rep ttl=16", "") == Some(0));
    holds(
        &rt,
        line_wrong_for(alloc, "bus queue=4294967296", "") == Some(0),
    );
}
