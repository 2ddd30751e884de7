//! Sends that wait for room, that go out, and that hand their message back.
use crate::roles::{pull_plays, push_plays};
use std::process::Abort;
use std::sync::Wait;

#[test]
fn a_send_waits_for_room(rt: HostRuntime) {
    let calls = "
        joins 0 0 1 pause
        send 0 00000007' 'x
        is_named 0 0 1
        not_yet
        close 1 0 1 0 0 2
        back closed 0 00000007' 'x
    ";
    push_plays(&rt, false, 1, calls, "put 1");
}

#[test]
fn a_send_leaves_its_header_out(rt: HostRuntime) {
    let calls = "
        joins 0 1 1 pause
        send 0 00000007' 'x
        sent
        close 1 1 0 0 1 0
    ";
    push_plays(&rt, false, 1, calls, "put 1 'x");
}

// Checks that a pull begins no send, and a push no receive.
fn what_the_role_does_not_do<R: AllocGlobal + Wait + Abort>(rt: &R, raw: bool) {
    let of_pull = "no_send 0 00000007' 'x 9";
    pull_plays(rt, raw, 1, of_pull, "");
    let of_push = "no_receive 0 9";
    push_plays(rt, raw, 1, of_push, "");
}

#[test]
fn what_the_role_does_not_do_is_not_supported(rt: HostRuntime) {
    what_the_role_does_not_do(&rt, false);
    what_the_role_does_not_do(&rt, true);
}

#[test]
fn a_core_without_a_free_slot_is_busy(rt: HostRuntime) {
    let calls = "
        send 0 00000007' 'x
        no_send 0 00000007' 'x 4
        closed
        back closed 0 00000007' 'x
    ";
    push_plays(&rt, false, 1, calls, "");
}

#[test]
fn a_send_that_is_cancelled_hands_its_message_back(rt: HostRuntime) {
    let calls = "
        send 0 00000007' 'x
        not_yet
        cancel 0 won
        back cancelled 1 00000007' 'x
        close 1 0 1 0 0 0
    ";
    push_plays(&rt, false, 1, calls, "");
}
