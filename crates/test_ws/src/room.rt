//! How much room for bytes a wire keeps after much came or went.

use crate::checks::{holds, made, same};
use crate::frames::{over, pieces, pulled};
use crate::sockets::BEHIND;
use sp_base::Bytes;
use sp_fakes::{LinkStep, MemLink};
use sp_msg::{Message, Room, Wire, WireFlush, WireIn};
use sp_ws::{Side, WsWire};
use std::alloc::Global;
use std::process::Abort;
use std::sync::Wait;

const MAX: u32 = 1_048_576;

const CLIENT: Side = Side::Client { seed: 1 };

/// What a quiet wire has room for: one read of its link, and four times a KiB.
const FEW: usize = 20_480;

// A bare frame of `size` bytes `a`, with its length in eight bytes.
fn long_frame(rt: &impl Abort, alloc: Global, size: usize) -> Vec<u8> {
    let mut frame = made(rt, Vec::from_slice(alloc, b"\x82\x7f"));
    made(rt, frame.extend_from_slice(&(size as u64).to_be_bytes()));
    made(rt, frame.resize(size.saturating_add(10), b'a'));
    frame
}

// A wire of a client over a link that gives these bytes, and takes 100,000 at a write.
fn brought(rt: &impl Abort, alloc: Global, bytes: &[u8]) -> WsWire<MemLink> {
    let script = pieces(rt, alloc, bytes, bytes.len(), LinkStep::NotYet);
    let link = MemLink::new(alloc, script, 100_000, Vec::new(alloc));
    over(rt, alloc, link, CLIENT, &[], MAX)
}

// Pulls so often; how many messages came.
fn pull_times<R: Wait>(rt: &R, wire: &mut WsWire<MemLink>, times: u32) -> u32 {
    let mut came = 0u32;
    for _ in 0..times {
        if !wire.is_open() {
            return came;
        }
        if let WireIn::Message(_) = wire.pull(rt) {
            came = came.saturating_add(1);
        }
    }
    came
}

#[test]
fn a_long_message_that_came_leaves_little_room(rt: HostRuntime) {
    let long = long_frame(&rt, rt.alloc(), 1_048_576);
    let mut wire = brought(&rt, rt.alloc(), &long);
    same(&rt, pull_times(&rt, &mut wire, 1), 1);
    same(&rt, pull_times(&rt, &mut wire, 63), 0);
    holds(&rt, wire.capacity() > FEW);
    same(&rt, pull_times(&rt, &mut wire, 1), 0);
    holds(&rt, wire.capacity() <= FEW);
}

#[test]
fn many_messages_that_came_at_once_leave_little_room(rt: HostRuntime) {
    let mut many = Vec::new(rt.alloc());
    for _ in 0..3_000u32 {
        made(&rt, many.extend_from_slice(b"\x82\x05Hello"));
    }
    let mut wire = brought(&rt, rt.alloc(), &many);
    same(&rt, pull_times(&rt, &mut wire, 3_000), 3_000);
    holds(&rt, wire.capacity() > FEW);
    same(&rt, pull_times(&rt, &mut wire, 64), 0);
    holds(&rt, wire.capacity() <= FEW);
}

// Returns whether a message of `size` bytes goes out whole.
fn sends<R: Wait + Abort>(alloc: Global, rt: &R, wire: &mut WsWire<MemLink>, size: usize) -> bool {
    let mut body = Vec::new(alloc);
    made(rt, body.resize(size, b'a'));
    if !wire.is_open() {
        return false;
    }
    let Room::Yes = wire.room(rt) else {
        return false;
    };
    let m = made(rt, Message::from_body(alloc, &body));
    wire.put(rt, m);
    matches!(wire.flush(rt), WireFlush::Empty)
}

#[test]
fn a_long_message_that_went_leaves_little_room(rt: HostRuntime) {
    let mut wire = brought(&rt, rt.alloc(), b"");
    holds(&rt, sends(rt.alloc(), &rt, &mut wire, 1_048_576));
    holds(&rt, wire.capacity() <= FEW);
}

// Adds a piece, behind which 65 reads find nothing.
fn add_piece(rt: &impl Abort, alloc: Global, script: &mut Vec<LinkStep>, bytes: &[u8]) {
    let piece = made(rt, Bytes::from_slice(alloc, bytes));
    made(rt, script.push(LinkStep::Bytes(piece)));
    for _ in 0..65u32 {
        made(rt, script.push(LinkStep::NotYet));
    }
}

// What a wire pulls of these bytes, where much time passes before the second piece.
fn pulled_late<R: Wait + Abort>(alloc: Global, rt: &R, first: &[u8], second: &[u8]) -> Vec<u8> {
    let mut script = Vec::new(alloc);
    add_piece(rt, alloc, &mut script, first);
    add_piece(rt, alloc, &mut script, second);
    made(rt, script.push(LinkStep::End));
    let link = MemLink::new(alloc, script, 100, Vec::new(alloc));
    pulled(alloc, rt, link, CLIENT, &[], MAX)
}

// Wherever what comes is cut in two, nothing is lost though the room is let go between the pieces.
#[test]
fn nothing_is_lost_where_room_is_let_go(rt: HostRuntime) {
    let alloc = rt.alloc();
    let long = long_frame(&rt, alloc, 70_000);
    let mut wanted = made(&rt, Vec::from_slice(alloc, b"["));
    made(&rt, wanted.resize(70_001, b'a'));
    made(&rt, wanted.extend_from_slice(b"][abcde][Hello]e"));
    for at in 0..BEHIND.len() {
        let (before, behind) = BEHIND.split_at(at);
        let mut first = made(&rt, Vec::from_slice(alloc, &long));
        made(&rt, first.extend_from_slice(before));
        let came = pulled_late(alloc, &rt, &first, behind);
        holds(&rt, came == wanted);
    }
}
