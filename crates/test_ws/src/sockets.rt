//! What a WebSocket over memory gives, sends and keeps, call by call.

use crate::checks::{holds, is_ok, made, same};
use sp_ws::{FrameIn, FrameOut, Frames, MemorySocket, Side};
use std::alloc::Global;
use std::process::Abort;

const HELLO: &[u8] = b"\x82\x85\x37\xfa\x21\x3d\x7f\x9f\x4d\x51\x58";

// Returns whether the next message is this one.
fn gives(socket: &mut MemorySocket, wanted: &[u8]) -> bool {
    match socket.next() {
        FrameIn::Binary(body) => body.as_slice() == wanted,
        _ => false,
    }
}

// Returns whether nothing whole is left.
fn is_idle(socket: &mut MemorySocket) -> bool {
    matches!(socket.next(), FrameIn::Idle)
}

// Has the link take at most `n` bytes.
fn take(socket: &mut MemorySocket, n: usize) {
    let n = n.min(socket.waiting().len());
    socket.taken(n);
}

#[test]
fn a_socket_gives_what_was_fed_and_keeps_what_was_sent(rt: HostRuntime) {
    let mut socket = MemorySocket::new(rt.alloc(), Side::Server, 100);
    is_ok(&rt, socket.feed(HELLO));
    holds(&rt, gives(&mut socket, b"Hello"));
    holds(&rt, is_idle(&mut socket));
    holds(&rt, socket.waiting().is_empty());
    same(&rt, socket.send(b"q"), FrameOut::Done);
    same(&rt, socket.waiting(), b"\x82\x01q".as_slice());
    take(&mut socket, 2);
    same(&rt, socket.waiting(), b"q".as_slice());
}

#[test]
fn what_is_fed_comes_behind_what_was_fed(rt: HostRuntime) {
    let mut socket = MemorySocket::new(rt.alloc(), Side::Server, 10_000);
    let mut body = Vec::new(rt.alloc());
    made(&rt, body.resize(9_000, b'a'));
    let mut both = made(
        &rt,
        Vec::from_slice(rt.alloc(), b"\x82\xfe\x23\x28\x00\x00\x00\x00"),
    );
    made(&rt, both.extend_from_slice(&body));
    made(&rt, both.extend_from_slice(HELLO));
    // The socket reads some 4,096 bytes at a time, so some are handed over and not read when more are fed.
    is_ok(&rt, socket.feed(HELLO));
    is_ok(&rt, socket.feed(&both));
    holds(&rt, gives(&mut socket, b"Hello"));
    is_ok(&rt, socket.feed(HELLO));
    holds(&rt, gives(&mut socket, &body));
    holds(&rt, gives(&mut socket, b"Hello"));
    holds(&rt, gives(&mut socket, b"Hello"));
    holds(&rt, is_idle(&mut socket));
}

// `count` pings with the body `p`.
fn pings(rt: &impl Abort, alloc: Global, count: u32) -> Vec<u8> {
    let mut bytes = Vec::new(alloc);
    for _ in 0..count {
        made(rt, bytes.extend_from_slice(b"\x89\x81\x00\x00\x00\x00p"));
    }
    bytes
}

// The greatest number of bytes that wait while the pings come `pieces` times and the link takes nothing; 0 where one
// isn't skipped.
fn most_waiting(socket: &mut MemorySocket, pings: &[u8], pieces: u32) -> usize {
    let mut most = 0;
    for _ in 0..pieces {
        if socket.feed(pings).is_err() || !is_idle(socket) {
            return 0;
        }
        most = most.max(socket.waiting().len());
    }
    most
}

// 100,000 pings whose pongs the link doesn't take; then it takes all, and the last ping has its pong.
#[test]
fn pongs_do_not_pile_up(rt: HostRuntime) {
    let mut socket = MemorySocket::new(rt.alloc(), Side::Server, 100);
    let bytes = pings(&rt, rt.alloc(), 2_000);
    same(&rt, most_waiting(&mut socket, &bytes, 50), 18_000);
    is_ok(&rt, socket.feed(b"\x89\x84\x00\x00\x00\x00last"));
    holds(&rt, is_idle(&mut socket));
    take(&mut socket, 17_999);
    holds(&rt, is_idle(&mut socket));
    same(&rt, socket.waiting(), b"p".as_slice());
    take(&mut socket, 1);
    holds(&rt, is_idle(&mut socket));
    same(&rt, socket.waiting(), b"\x8a\x04last".as_slice());
}

// Ten pings in ten pieces have ten pongs, and a message between them keeps its place.
#[test]
fn each_ping_has_its_pong(rt: HostRuntime) {
    let mut socket = MemorySocket::new(rt.alloc(), Side::Server, 100);
    let one = pings(&rt, rt.alloc(), 1);
    same(&rt, most_waiting(&mut socket, &one, 5), 15);
    same(&rt, socket.send(b"q"), FrameOut::Done);
    same(&rt, most_waiting(&mut socket, &one, 5), 33);
    take(&mut socket, 15);
    holds(&rt, socket.waiting().starts_with(b"\x82\x01q\x8a\x01p"));
}

// Adds a frame of 100 bytes that begin with this number.
fn add_numbered(rt: &impl Abort, frames: &mut Vec<u8>, number: u32) {
    made(rt, frames.extend_from_slice(b"\x82\x64"));
    made(rt, frames.extend_from_slice(&number.to_be_bytes()));
    made(rt, frames.extend_from_slice(&[b'a'; 96]));
}

// Returns whether the next message begins with this number.
fn gives_numbered(socket: &mut MemorySocket, number: u32) -> bool {
    match socket.next() {
        FrameIn::Binary(body) => body.as_slice().starts_with(&number.to_be_bytes()),
        _ => false,
    }
}

// More than 100,000 bytes are fed at once, and more wait for the link: each message comes, in order.
#[test]
fn each_message_of_a_long_row_comes(rt: HostRuntime) {
    let mut socket = MemorySocket::new(rt.alloc(), Side::Client { seed: 1 }, 200_000);
    let mut long = Vec::new(rt.alloc());
    made(&rt, long.resize(120_000, b'b'));
    same(&rt, socket.send(&long), FrameOut::Done);
    let mut frames = Vec::new(rt.alloc());
    for number in 0..1_100u32 {
        add_numbered(&rt, &mut frames, number);
    }
    is_ok(&rt, socket.feed(&frames));
    let mut all = true;
    for number in 0..1_100u32 {
        all = all && gives_numbered(&mut socket, number);
    }
    holds(&rt, all);
    holds(&rt, is_idle(&mut socket));
    same(&rt, socket.waiting().len(), 120_014);
}

/// What a server sends after a long message: one in two frames with a ping between them, and one in one frame.
pub(crate) const BEHIND: &[u8] = b"\x02\x03abc\x89\x01p\x80\x02de\x82\x05Hello";

// Feeds these bytes, and adds each message that comes then, in brackets; a long one shown as a dash.
fn add_given(rt: &impl Abort, socket: &mut MemorySocket, bytes: &[u8], said: &mut Vec<u8>) {
    is_ok(rt, socket.feed(bytes));
    for _ in 0..10u32 {
        let FrameIn::Binary(body) = socket.next() else {
            return;
        };
        let body = body.as_slice();
        let shown: &[u8] = if body.len() > 100 { b"-" } else { body };
        made(rt, said.push(b'['));
        made(rt, said.extend_from_slice(shown));
        made(rt, said.push(b']'));
    }
}

// A socket whose buffer grew for a long message is replaced once it has nothing left. Wherever the bytes after that
// message are cut in two, nothing is lost.
#[test]
fn nothing_is_lost_behind_a_long_message(rt: HostRuntime) {
    let alloc = rt.alloc();
    let mut long = made(
        &rt,
        Vec::from_slice(alloc, b"\x82\x7f\x00\x00\x00\x00\x00\x02\x00\x01"),
    );
    made(&rt, long.resize(131_083, b'a'));
    for at in 0..BEHIND.len() {
        let mut socket = MemorySocket::new(alloc, Side::Client { seed: 1 }, 200_000);
        let mut said = Vec::new(alloc);
        let (first, second) = BEHIND.split_at(at);
        is_ok(&rt, socket.feed(&long));
        add_given(&rt, &mut socket, first, &mut said);
        add_given(&rt, &mut socket, second, &mut said);
        add_given(&rt, &mut socket, BEHIND, &mut said);
        let wanted: &[u8] = b"[-][abcde][Hello][abcde][Hello]";
        same(&rt, said.as_slice(), wanted);
    }
}
