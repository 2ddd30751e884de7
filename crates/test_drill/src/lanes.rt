//! Examples of lanes, and of the wire over two of them. A text says what is done at the ends of a lane:
//!
//! | line | what it says |
//! |---|---|
//! | `put a` | a message of this word is put |
//! | `full b` | the lane is full, and the message comes back |
//! | `take a` | the oldest message has this word |
//! | `empty` | there is none |
//! | `fill 8192` | messages are put until the lane is full, 8192 in all |
ghost use Rattle.std.specs.Prelude.{◌≡◌, ◌<◌, ◌≤◌, ◌+◌, false, true, length, IsTrue};
ghost use Rattle.sp_msg.specs.Wires.{AfterRoom};
ghost use Rattle.sp_lane.specs.Lanes.{has_end};

use crate::checks::{holds, is_right, made};
use sp_base::Role;
use sp_lane::{Inproc, LaneIn, LaneOut, LaneWire, Put, Taken, finish, lane, tell};
use sp_msg::{Message, Room, Wire, WireFlush, WireIn};
use std::alloc::Global;
use std::process::Abort;
use std::sync::Wait;

/// The greatest number of messages that are put.
const MOST: u32 = 10_000;

// Puts a message of this word. Returns whether that was done, or, where the lane is to be full, whether the same
// message came back.
fn is_put<R: Wait>(rt: &R, alloc: Global, input: &mut LaneIn, word: &str, full: bool) -> bool
    ensures { input.new.name ≡ input.old.name }
{
    let Ok(m) = Message::from_body(alloc, word.as_bytes()) else {
        return false;
    };
    if input.is_ended() {
        return false;
    }
    match input.put(rt, m) {
        Put::Done => !full,
        Put::Full(back) => full && back.body() == word.as_bytes(),
    }
}

// Returns whether a take gives this word; `None` where the lane is to be empty.
fn is_taken<R: Wait>(rt: &R, output: &mut LaneOut, word: Option<&str>) -> bool
    ensures { output.new.name ≡ output.old.name }
{
    match output.take(rt) {
        Taken::Message(m) => match word {
            Some(word) => m.body() == word.as_bytes(),
            None => false,
        },
        Taken::Empty => word.is_none(),
        Taken::End => false,
    }
}

// Puts messages until the lane is full. Returns whether `count` were put.
fn is_filled<R: Wait>(rt: &R, alloc: Global, input: &mut LaneIn, count: &str) -> bool
    ensures { input.new.name ≡ input.old.name }
{
    for n in 0..MOST {
        if !is_put(rt, alloc, input, "x", false) {
            return matches!(count.parse::<u32>(), Ok(count) if count == n);
        }
    }
    false
}

// Returns whether the line is right.
fn is_so<R: Wait>(
    rt: &R,
    alloc: Global,
    input: &mut LaneIn,
    output: &mut LaneOut,
    line: &str,
) -> bool
    ensures input { input.new.name ≡ input.old.name }
    ensures output { output.new.name ≡ output.old.name }
{
    let Some((name, word)) = line.split_once(' ') else {
        return line == "empty" && is_taken(rt, output, None);
    };
    if word.contains(' ') {
        return false;
    }
    match name {
        "put" => is_put(rt, alloc, input, word, false),
        "full" => is_put(rt, alloc, input, word, true),
        "take" => is_taken(rt, output, Some(word)),
        "fill" => is_filled(rt, alloc, input, word),
        _ => false,
    }
}

// The number of the first line that isn't right, from 1 on.
fn wrong_line<R: Wait>(
    rt: &R,
    alloc: Global,
    input: &mut LaneIn,
    output: &mut LaneOut,
    lines: &str,
) -> Option<usize>
    ensures input { input.new.name ≡ input.old.name }
    ensures output { output.new.name ≡ output.old.name }
{
    let mut n = 0usize;
    for line in lines.lines() {
        n = n.saturating_add(1);
        let line = line.trim();
        if !line.is_empty() && !is_so(rt, alloc, input, output, line) {
            return Some(n);
        }
    }
    None
}

// Checks that each line is right at the ends of a lane for `cap` items, and that `left` are left in it.
fn plays<R: AllocGlobal + Wait + Abort>(rt: &R, cap: u32, lines: &str, left: u64)
    requires some { 1 ≤ cap }
    requires most { cap ≤ 8192 }
{
    let (mut input, mut output) = made(rt, lane(rt.alloc(), cap));
    let wrong = wrong_line(rt, rt.alloc(), &mut input, &mut output, lines);
    is_right(rt, wrong);
    holds(rt, finish(input, output).left == left);
}

#[test]
fn a_full_lane_takes_again_and_an_empty_one_gives_again(rt: HostRuntime) {
    let lines = "
        empty
        put a
        full b
        take a
        empty
        put b
        take b
    ";
    plays(&rt, 1, lines, 0);
}

#[test]
fn the_longest_lane_holds_8192(rt: HostRuntime) {
    plays(&rt, 8_192, "fill 8192", 8_192);
}

// Puts a message where what both ends did leaves room. It isn't refused.
fn puts_where_there_is_room<R: Wait>(
    rt: &R,
    input: &mut LaneIn,
    output: &mut LaneOut,
    m: Message,
) -> bool
    requires name { output.old.name ≡ input.old.name }
    requires begun { has_end input.old.put ≡ false }
    requires room { length input.old.put < length output.old.taken + input.old.cap }
    ensures is_done { IsTrue result }
    ensures name { output.new.name ≡ input.new.name }
    ensures left { length output.new.taken < length input.new.put }
{
    tell(input, output);
    match input.put(rt, m) {
        Put::Done => true,
        Put::Full(_) => false,
    }
}

// Takes an item where what both ends did leaves one. It gets one.
fn takes_what_is_left<R: Wait>(rt: &R, input: &mut LaneIn, output: &mut LaneOut) -> bool
    requires name { output.old.name ≡ input.old.name }
    requires left { length output.old.taken < length input.old.put }
    ensures { IsTrue result }
{
    tell(input, output);
    match output.take(rt) {
        Taken::Message(_) => true,
        Taken::End => true,
        Taken::Empty => false,
    }
}

#[test]
fn ends_that_were_told_go_by_it(rt: HostRuntime) {
    let (mut input, mut output) = made(&rt, lane(rt.alloc(), 1));
    let m = message(&rt, b"a");
    holds(
        &rt,
        puts_where_there_is_room(&rt, &mut input, &mut output, m),
    );
    holds(&rt, takes_what_is_left(&rt, &mut input, &mut output));
    drop(input);
    drop(output);
}

// Asks a wire for room. Its lanes keep their names.
fn room_once<R: Wait>(rt: &R, wire: &mut LaneWire) -> Room
    requires { wire.old.wire.is_open ≡ true }
    ensures after { AfterRoom result wire.old.wire wire.new.wire }
    ensures out { wire.new.out.name ≡ wire.old.out.name }
    ensures inp { wire.new.inp ≡ wire.old.inp }
{
    wire.room(rt)
}

// Puts a message on the wire, and returns whether it had room.
fn sends<R: Wait>(rt: &R, wire: &mut LaneWire, m: Message) -> bool
    ensures inp { wire.new.inp ≡ wire.old.inp }
    ensures out { wire.new.out.name ≡ wire.old.out.name }
{
    if !wire.is_open() {
        return false;
    }
    match room_once(rt, wire) {
        Room::Yes => {
            wire.put(rt, m);
            true
        }
        Room::Full | Room::Failed | Room::Refused | Room::NoMemory => false,
    }
}

// Returns whether all that was put is written.
fn is_flushed<R: Wait>(rt: &R, wire: &mut LaneWire) -> bool {
    wire.is_open() && matches!(wire.flush(rt), WireFlush::Empty)
}

// Returns whether the next message of a wire is this one, which has no header.
fn pulls<R: Wait>(rt: &R, wire: &mut LaneWire, body: &[u8]) -> bool {
    if !wire.is_open() {
        return false;
    }
    match wire.pull(rt) {
        WireIn::Message(m) => m.header().is_empty() && m.body() == body,
        _ => false,
    }
}

// Returns whether the message goes from one wire to the other, where it has this body.
fn carries<R: Wait>(
    rt: &R,
    from: &mut LaneWire,
    to: &mut LaneWire,
    m: Message,
    body: &[u8],
) -> bool {
    sends(rt, from, m) && is_flushed(rt, from) && pulls(rt, to, body)
}

// A message of this text.
fn message<R: AllocGlobal + Abort>(rt: &R, text: &[u8]) -> Message {
    made(rt, Message::from_body(rt.alloc(), text))
}

// 64 bytes, and then 1 MiB.
fn long_bytes<R: AllocGlobal + Abort>(rt: &R) -> Vec<u8> {
    let mut bytes = made(rt, vec![in rt.alloc(); b'h'; 64]);
    made(rt, bytes.resize(1_048_640, b'x'));
    bytes
}

// A message whose header is the first 64 of these bytes, and its body the others.
fn long_message<R: AllocGlobal + Abort>(rt: &R, bytes: &[u8]) -> Message {
    let mut m = message(rt, bytes.get(64..).unwrap_or(b""));
    for _ in 0..16 {
        let _ = m.header_append_u32(0x6868_6868);
    }
    m
}

// Returns whether a long message comes through a lane.
fn comes_through<R: AllocGlobal + Wait + Abort>(
    rt: &R,
    near: &mut LaneWire,
    far: &mut LaneWire,
) -> bool {
    let bytes = long_bytes(rt);
    carries(rt, near, far, long_message(rt, &bytes), &bytes)
}

#[test]
fn a_long_message_comes_through_a_lane_wire(rt: HostRuntime) {
    let (to, from) = made(&rt, lane(rt.alloc(), 4));
    let (back, home) = made(&rt, lane(rt.alloc(), 4));
    let mut near = LaneWire::new(to, home);
    let mut far = LaneWire::new(back, from);
    holds(&rt, comes_through(&rt, &mut near, &mut far));
    drop(near);
    drop(far);
}

// Returns whether a text goes each way between two wires.
fn carry<R: AllocGlobal + Wait + Abort>(rt: &R, one: &mut LaneWire, other: &mut LaneWire) -> bool {
    carries(rt, one, other, message(rt, b"there"), b"there")
        && carries(rt, other, one, message(rt, b"back"), b"back")
}

// The half that dials a name within the process and the half that accepts send to each other.
#[test]
fn a_name_carries_both_ways(rt: HostRuntime) {
    let mut names = Inproc::new(rt.alloc());
    made(&rt, names.listen(b"x", Role::Pair0));
    let mut dialed = made(&rt, names.dial(b"x", Role::Pair0));
    let mut met = made(&rt, names.accept(b"x").ok_or("nobody came"));
    holds(&rt, carry(&rt, &mut met, &mut dialed));
    drop(met);
    drop(dialed);
    drop(names);
}

// Flushes a wire that was shut.
fn flush_once<R: Wait>(rt: &R, wire: &mut LaneWire)
    requires { wire.old.wire.drains ≡ true }
    ensures drains { wire.new.wire.drains ≡ true }
    ensures out { wire.new.out.name ≡ wire.old.out.name }
    ensures inp { wire.new.inp ≡ wire.old.inp }
{
    let _ = wire.flush(rt);
}

// Shuts a wire, and then flushes it and takes at the other end, at most 8 times. Returns whether the end came.
fn end_comes<R: Wait>(rt: &R, wire: &mut LaneWire, other: &mut LaneOut) -> bool
    ensures wire { wire.new.inp ≡ wire.old.inp }
    ensures out { wire.new.out.name ≡ wire.old.out.name }
    ensures other { other.new.name ≡ other.old.name }
{
    wire.shut();
    for _ in 0..8 {
        flush_once(rt, wire);
        if let Taken::End = other.take(rt) {
            return true;
        }
    }
    false
}

// Returns whether there is no room.
fn is_full<R: Wait>(rt: &R, wire: &mut LaneWire) -> bool
    ensures inp { wire.new.inp ≡ wire.old.inp }
    ensures out { wire.new.out.name ≡ wire.old.out.name }
{
    if !wire.is_open() {
        return false;
    }
    matches!(room_once(rt, wire), Room::Full)
}

// The lane is full when the wire is shut, with a message in hand.
#[test]
fn a_lane_wire_is_shut_and_taken_apart(rt: HostRuntime) {
    let (out, mut other_out) = made(&rt, lane(rt.alloc(), 1));
    let (other_in, inp) = made(&rt, lane(rt.alloc(), 1));
    let mut wire = LaneWire::new(out, inp);
    holds(&rt, sends(&rt, &mut wire, message(&rt, b"a")));
    holds(&rt, sends(&rt, &mut wire, message(&rt, b"b")));
    holds(&rt, is_full(&rt, &mut wire));
    holds(&rt, end_comes(&rt, &mut wire, &mut other_out));
    let (out, inp) = wire.into_halves();
    holds(&rt, finish(out, other_out).left == 0);
    holds(&rt, finish(other_in, inp).left == 0);
}
