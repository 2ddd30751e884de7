//! Receives that wait, that are cancelled, and that take queued messages.
use crate::checks::holds;
use crate::roles::{pull_plays, push_plays};
use sp_base::SpError;
use sp_core::NowError;

// Nothing was put on the one pipe.
const NOTHING: &str = "put 1";

#[test]
fn a_pull_core_gives_what_came(rt: HostRuntime) {
    let calls = "
        joins 0 0 1 'x
        receive 0
        is_named 0 0 1
        serves true 0 0 1
        received ' 'x
        close 1 1 0 1 0 0
    ";
    pull_plays(&rt, false, 2, calls, NOTHING);
}

#[test]
fn a_pull_has_no_other_context(rt: HostRuntime) {
    pull_plays(&rt, false, 1, "no_receive 5 9", "");
}

#[test]
fn a_receive_that_is_cancelled_before_the_frame(rt: HostRuntime) {
    let calls = "
        joins 0 0 1 'x
        receive 0
        cancel 0 won
        cancel 0 ended cancelled 1
        serve
        gone cancelled 1
        // The message stayed for the next receive, which has the slot anew.
        receive 0
        is_named 1 0 2
        cancel 0 stale
        received ' 'x
        close 2 1 1 1 0 0
    ";
    pull_plays(&rt, false, 2, calls, NOTHING);
}

#[test]
fn a_receive_that_is_cancelled_after_the_frame(rt: HostRuntime) {
    let calls = "
        joins 0 0 1 'x
        receive 0
        serve
        cancel 0 ended won 0
        received ' 'x
        close 1 1 0 1 0 0
    ";
    pull_plays(&rt, false, 1, calls, NOTHING);
}

#[test]
fn another_caller_cancels_before_the_frame(rt: HostRuntime) {
    let calls = "
        joins 0 0 1 'x
        receive 0
        cancel_by_other 0 won
        receive 0
        is_named 1 1 1
        serve
        received ' 'x
        gone cancelled 2
        close 2 1 1 1 0 0
    ";
    pull_plays(&rt, false, 2, calls, NOTHING);
}

#[test]
fn a_frame_stays_for_the_next_receive(rt: HostRuntime) {
    let calls = "
        joins 0 0 1 'x
        joins 1 0 2 'y
        receive 0
        serves true 0 0 2
        received ' 'x
        receive 0
        received ' 'y
        close 2 2 0 2 0 0
    ";
    let wires = "
        put 1
        put 2
    ";
    pull_plays(&rt, false, 2, calls, wires);
}

#[test]
fn what_is_kept_is_received_at_once(rt: HostRuntime) {
    let calls = "
        joins 0 0 1 'x
        joins 1 0 2 'y
        not_now_for 0 again
        serve
        now 0 ' 'x
        now 0 ' 'y
        not_now_for 0 again
        not_now_for 5 notsupported
        // The one slot has an operation that was not collected.
        receive 0
        not_now_for 0 busy
        close 3 2 1 2 0 0
        not_now_for 0 closed
        gone closed 0
    ";
    let wires = "
        put 1
        put 2
    ";
    pull_plays(&rt, false, 1, calls, wires);
    holds(&rt, SpError::from(NowError::Again) == SpError::Again);
}

#[test]
fn a_push_receives_nothing_at_once(rt: HostRuntime) {
    let calls = "
        not_now_for 0 notsupported
        closed
    ";
    push_plays(&rt, false, 1, calls, "");
}
