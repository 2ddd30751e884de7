//! How a node ends: what it sent is written first, for at most two seconds.
use crate::checks::{holds, made, same};
use crate::slow::{SlowLink, SlowNet};
use proto_pipeline::Push;
use sp_base::{Bytes, Role};
use sp_fakes::MemPace;
use sp_msg::Message;
use sp_node::{Node, NodeEnd, NodeEnds, RECV_MAX_SIZE};
use sp_socket::Options;
use std::process::Abort;
use std::sync::Wait;

/// What a pull says first (the greeting of SP over TCP).
const PULLS: &[u8] = b"\0SP\0\0\x51\0\0";

/// The length of that greeting.
const GREETING: usize = 8;

/// The number of turns of the clock.
const TURNS: u64 = 1_000_000;

/// A push, whose peer reads slowly.
type Pushes<'r, R> = Node<'r, R, Push, SlowLink, SlowNet, MemPace>;

// A push that listens, whose peer takes at most `take` bytes at a write and `most` in all.
fn push<'r, R: Wait + Abort + AllocGlobal>(
    rt: &'r R,
    take: usize,
    most: usize,
    pace: MemPace,
) -> Pushes<'r, R> {
    let alloc = rt.alloc();
    let Ok(machine) = Push::new(alloc, Options::usual(Role::Push, 0), false) else {
        panic!(rt; "out of memory")
    };
    let came = made(rt, Bytes::from_slice(alloc, PULLS));
    let net = SlowNet::new(alloc, SlowLink::new(alloc, came, take, most));
    let mut ends = made(rt, NodeEnds::open(rt, machine, net, pace, 0));
    same(
        rt,
        ends.listen("tcp://127.0.0.1:5555", RECV_MAX_SIZE),
        Ok(()),
    );
    ends.start()
}

// Sends a message of 5 bytes, which is on a pipe then.
fn send_hello<R: Wait + Abort + AllocGlobal>(rt: &R, push: &mut Pushes<'_, R>) {
    let hello = made(rt, Message::from_body(rt.alloc(), b"hello"));
    same(rt, push.send(hello, None), Ok(()));
}

// What was written behind the greeting.
fn written(end: &NodeEnd<SlowNet, MemPace>) -> &[u8] {
    match end.net.returned() {
        Some(link) => match link.written().get(GREETING..) {
            Some(written) => written,
            None => b"",
        },
        None => b"",
    }
}

#[test]
fn a_slow_peer_has_all_at_the_end(rt: HostRuntime) {
    let mut push = push(&rt, 1, 1_000, MemPace::new(TURNS, 1));
    send_hello(&rt, &mut push);
    let end = push.finish();
    same(&rt, written(&end), b"\0\0\0\0\0\0\0\x05hello");
    holds(&rt, end.pace.left() > TURNS - 100);
}

#[test]
fn a_peer_that_takes_nothing_is_waited_for_two_seconds(rt: HostRuntime) {
    let mut push = push(&rt, 64, GREETING, MemPace::new(TURNS, 10));
    send_hello(&rt, &mut push);
    let end = push.finish();
    same(&rt, written(&end), b"");
    let turns = TURNS.saturating_sub(end.pace.left());
    holds(&rt, 200 < turns && turns < 220);
}

#[test]
fn a_clock_that_stands_still_or_is_over_ends_it(rt: HostRuntime) {
    let mut still = push(&rt, 64, GREETING, MemPace::new(TURNS, 0));
    send_hello(&rt, &mut still);
    let end = still.finish();
    let turns = TURNS.saturating_sub(end.pace.left());
    holds(&rt, 10_000 <= turns && turns < 10_100);
    let mut short = push(&rt, 64, GREETING, MemPace::new(30, 1));
    send_hello(&rt, &mut short);
    holds(&rt, !short.flush(2_000));
    let end = short.finish();
    holds(&rt, end.pace.is_over());
}

#[test]
fn a_flush_says_when_nothing_waits(rt: HostRuntime) {
    let mut push = push(&rt, 1, 1_000, MemPace::new(TURNS, 1));
    send_hello(&rt, &mut push);
    holds(&rt, !push.flush(0));
    holds(&rt, !push.flush(3));
    holds(&rt, push.flush(2_000));
    let _ = push.close();
    holds(&rt, push.flush(2_000));
    let end = push.finish();
    same(&rt, written(&end), b"\0\0\0\0\0\0\0\x05hello");
    holds(&rt, end.pace.left() > TURNS - 100);
}
