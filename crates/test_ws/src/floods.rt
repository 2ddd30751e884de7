//! A peer that sends without pause, but no messages. Its link brings a limited amount before it returns `NotYet` once.

use crate::checks::{holds, made};
use crate::frames::{over, pieces};
use sp_fakes::{LinkStep, MemLink};
use sp_msg::{Wire, WireIn};
use sp_ws::{Side, WsWire};
use std::alloc::Global;
use std::process::Abort;
use std::sync::Wait;

const HELLO: &[u8] = b"\x82\x85\x37\xfa\x21\x3d\x7f\x9f\x4d\x51\x58";

// The bytes `before`, then this frame 5,000 times, and then the bytes `behind`.
fn flood(rt: &impl Abort, alloc: Global, before: &[u8], frame: &[u8], behind: &[u8]) -> Vec<u8> {
    let mut bytes = made(rt, Vec::from_slice(alloc, before));
    for _ in 0..5_000u32 {
        made(rt, bytes.extend_from_slice(frame));
    }
    made(rt, bytes.extend_from_slice(behind));
    bytes
}

// The number of pulls that return `NotYet` before one gives this message; `None` where another result comes.
fn waits<R: Wait>(rt: &R, mut wire: WsWire<MemLink>, wanted: &[u8]) -> Option<u32> {
    for count in 0..10u32 {
        if !wire.is_open() {
            return None;
        }
        match wire.pull(rt) {
            WireIn::NotYet => {}
            WireIn::Message(m) => return (m.body() == wanted).then_some(count),
            _ => return None,
        }
    }
    None
}

// Returns whether each pull ends where the link has brought 8,192 bytes, and the next one goes on there.
fn goes_on<R: Wait + Abort>(alloc: Global, rt: &R, bytes: &[u8], wanted: &[u8]) -> bool {
    let script = pieces(rt, alloc, bytes, 8_192, LinkStep::NotYet);
    let link = MemLink::new(alloc, script, 100_000, Vec::new(alloc));
    let wire = over(rt, alloc, link, Side::Server, &[], 1_000);
    waits(rt, wire, wanted) == Some(3)
}

#[test]
fn a_pull_ends_while_a_peer_floods(rt: HostRuntime) {
    let alloc = rt.alloc();
    let pongs = flood(&rt, alloc, b"", b"\x8a\x80\x00\x00\x00\x00", HELLO);
    holds(&rt, goes_on(alloc, &rt, &pongs, b"Hello"));
    let pings = flood(&rt, alloc, b"", b"\x89\x80\x00\x00\x00\x00", HELLO);
    holds(&rt, goes_on(alloc, &rt, &pings, b"Hello"));
    let begun = b"\x02\x81\x00\x00\x00\x00a";
    let ended = b"\x80\x81\x00\x00\x00\x00b";
    let parts = flood(&rt, alloc, begun, b"\x00\x80\x00\x00\x00\x00", ended);
    holds(&rt, goes_on(alloc, &rt, &parts, b"ab"));
}
