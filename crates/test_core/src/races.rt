//! The effect of a lost race, a deadline and a shut context on a request.
use crate::roles::{rep_plays, req_plays};

#[test]
fn a_reply_that_meets_a_cancelled_receive_is_gone_with_its_request(rt: HostRuntime) {
    let calls = "
        joins 0 8 1 80000000'a
        send 0 ' 'q
        sent
        receive 0
        cancel 1 won
        serve
        gone cancelled 1
        no_receive 0 11
        close 2 1 1 1 1 0
    ";
    let wires = "put 1 80000000'q";
    req_plays(&rt, false, 0, calls, wires);
}

#[test]
fn the_reply_to_a_cancelled_request_does_not_reach_the_next_one(rt: HostRuntime) {
    let calls = "
        joins 0 8 1 80000000'a 80000001'b
        send 0 ' 'q
        sent
        receive 0
        cancel 1 won
        send 0 ' 'r
        sent
        gone cancelled 1
        receive 0
        serve
        received ' 'b
        close 4 3 1 2 2 0
    ";
    let wires = "put 1 80000000'q 80000001'r";
    req_plays(&rt, false, 0, calls, wires);
}

#[test]
fn a_request_that_meets_a_cancelled_receive_stays_for_the_next_one(rt: HostRuntime) {
    let calls = "
        joins 0 8 1 80000001'q
        receive 0
        cancel 0 won
        serve
        gone cancelled 1
        // It has stored nothing that a send could answer.
        no_send 0 00000007' 'a 11
        receive 0
        received ' 'q
        close 2 1 1 1 0 0
    ";
    let wires = "put 1";
    rep_plays(&rt, false, calls, wires);
}

#[test]
fn a_begin_finds_the_receive_that_was_cancelled_ended(rt: HostRuntime) {
    // With a req it has dropped its request, with a rep it has left its place.
    let req = "
        joins 0 8 1 pause
        send 0 ' 'q
        sent
        receive 0
        cancel 1 won
        no_receive 0 11
        gone cancelled 1
        close 2 1 1 0 1 0
    ";
    let wires = "put 1 80000000'q";
    req_plays(&rt, false, 0, req, wires);
    let rep = "
        joins 0 8 1 80000001'q
        receive 0
        cancel 0 won
        receive 0
        swap
        gone cancelled 1
        serve
        received ' 'q
        close 2 1 1 1 0 0
    ";
    rep_plays(&rt, false, rep, "put 1");
}

#[test]
fn a_send_that_times_out_gives_its_request_up(rt: HostRuntime) {
    let calls = "
        send_by 0 00000007' 'a 5
        receive 0
        due 5 1
        expire 0 won
        // The receive waits until the send is collected, and ends in that turn.
        poll 1 pending
        swap
        back timedout 1 00000007' 'a
        poll 1 ended superseded 0
        gone superseded 0
        // Nothing is left to go out, and nothing to be received.
        joins 0 8 1 pause
        no_receive 0 11
        close 2 0 2 0 0 0
    ";
    req_plays(&rt, false, 0, calls, "put 1");
}

#[test]
fn a_context_that_is_shut_ends_its_request(rt: HostRuntime) {
    let calls = "
        opens 1
        send 0 ' 'o
        send 1 00000007' 'a
        receive 1
        shuts 1 0
        gone closed 0
        back closed 0 00000007' 'a
        no_receive 1 12
        no_receive 5 12
        // The request of the other context goes out.
        joins 0 8 1 pause
        sent
        close 3 1 2 0 1 0
    ";
    let wires = "put 1 80000000'o";
    req_plays(&rt, false, 0, calls, wires);
}
