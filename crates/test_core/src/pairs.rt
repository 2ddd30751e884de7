//! Pairs: one peer at a time, and sends that wait for it.
ghost use Rattle.std.specs.Prelude.{◌≡◌};
ghost use Rattle.sp_proto.specs.Kinds.{Kind, Starts};

use crate::checks::{holds, is_right, same};
use crate::roles::{driver, pair, pair_plays, pair1, pair1_plays};
use sp_base::SpError;
use sp_core::AttachError;
use sp_proto::Proto;
use std::process::Abort;
use std::sync::Wait;
use test_core_plays::CorePlay;

// Checks that a core over the machine, which is a pair's, has one peer at a time.
fn has_one_peer<P: Proto + Drop, R: AllocGlobal + Wait + Abort>(rt: &R, machine: P)
    requires { (k : Kind) × Starts P.ties machine k }
{
    let mut play = CorePlay::new(rt.alloc(), driver(rt, machine, 16));
    is_right(rt, play.wrong_line(rt, rt.alloc(), "joins 0 0 1 end"));
    // The wire that came back is the next peer.
    let between = "
        serves true 1 0 0
        down 1 ended
    ";
    let why = AttachError::Refused;
    holds(
        rt,
        play.comes_again(rt, rt.alloc(), "'x", [1, 2], why, between, 2),
    );
    let last = "
        receive 0
        serve
        received ' 'x
        close 1 1 0 1 0 0
    ";
    is_right(rt, play.wrong_line(rt, rt.alloc(), last));
    is_right(rt, play.wrong_wire(rt, rt.alloc(), "put 2"));
}

#[test]
fn a_pair_has_one_peer(rt: HostRuntime) {
    has_one_peer(&rt, pair(&rt, false));
    same(&rt, SpError::from(AttachError::Refused).code(), 4);
}

#[test]
fn sends_wait_for_a_peer_in_their_order(rt: HostRuntime) {
    let calls = "
        send 0 00000005' 'a
        send 0 ' 'b
        not_yet
        joins 0 2 1 pause
        sent
        sent
        close 2 2 0 0 2 0
    ";
    // A header isn't sent.
    let wires = "put 1 'a 'b";
    pair_plays(&rt, true, calls, wires);
}

#[test]
fn a_pair_pulls_one_frame_at_a_time(rt: HostRuntime) {
    let calls = "
        joins 0 0 1 'x end
        serve
        now 0 ' 'x
        not_now 0 8
        serve
        down 1 ended
        // Of the next peer the second frame waits until it is wanted.
        joins 1 0 2 'y 'z
        serve
        not_now 1 9
        close 1 1 0 2 0 0
    ";
    let wires = "put 2";
    pair_plays(&rt, false, calls, wires);
}

#[test]
fn a_pair_of_version_1_counts_hops(rt: HostRuntime) {
    let calls = "
        joins 0 1 1 00000001'a 00000008'b 00000009'c 00000000'd 00000101'e
        serve
        now 0 ' 'a
        send 0 ' 'b
        sent
        serve
        now 0 ' 'b
        // The next one came over too many hops; a count of 0 is none.
        serve
        now 0 ' 'd
        serve
        down_with 1 malformed 00000001'b
        joins 1 0 2 000000'
        serve
        down 2 malformed
        not_now 0 8
        close 4 4 0 6 1 0
    ";
    pair1_plays(&rt, false, calls, "");
}

#[test]
fn a_raw_pair_of_version_1_adds_one(rt: HostRuntime) {
    let calls = "
        joins 0 8 1 00000002'a 000000fe'z
        serve
        passes_on 0 00000002' 'a
        sent
        serve
        send 0 000000ff' 'b
        sent
        send 0 ' 'c
        sent
        send 0 0000000100000001' 'd
        sent
        send 0 000000fe' 'e
        sent
        no_pipe 1 4 pause
        close 6 6 0 2 2 0
    ";
    let wires = "put 1 00000003'a 000000ff'e";
    pair1_plays(&rt, true, calls, wires);
}

#[test]
fn a_raw_send_without_a_hop_count_does_not_wait(rt: HostRuntime) {
    let calls = "
        send 0 00000001' 'a
        send 0 ' 'b
        poll 0 pending
        poll 1 ended won 0
        joins 0 8 1 pause
        sent
        sent
        close 2 2 0 0 1 0
    ";
    let wires = "put 1 00000002'a";
    pair1_plays(&rt, true, calls, wires);
}

#[test]
fn a_pair_of_version_1_has_one_peer(rt: HostRuntime) {
    let mut play = CorePlay::new(rt.alloc(), driver(&rt, pair1(&rt, false), 16));
    let calls = "
        joins 0 0 1 end
        no_pipe 1 4 pause
        serves true 1 0 0
        down 1 ended
        joins 2 0 2 pause
        close 0 0 0 0 0 0
    ";
    is_right(&rt, play.wrong_line(&rt, rt.alloc(), calls));
    is_right(&rt, play.wrong_wire(&rt, rt.alloc(), "put 2"));
}
