//! Limits of hops, the shortest frames, times and headers of requests, and who gets queued messages.
use crate::roles::{rep_plays, rep_plays_with, req_plays, req_plays_with};
use sp_base::Role;
use sp_history::setting::Options;

#[test]
fn one_hop_is_all_where_the_limit_is_one(rt: HostRuntime) {
    let calls = "
        joins 0 8 1 0000000180000005' 80000005'
        receive 0
        serve
        received ' '
        send 0 ' 'a
        sent
        close 2 2 0 2 1 0
    ";
    let wires = "put 1 80000005'a";
    let mut options = Options::usual(Role::Rep, 0);
    options.ttl = 1;
    rep_plays_with(&rt, options, false, calls, wires);
}

#[test]
fn fifteen_words_make_a_header_of_64_bytes(rt: HostRuntime) {
    // Fourteen words without the top bit, one with it, and a body; the pipe's number comes before these words.
    let calls = "
        joins 0 8 1 000000010000000100000001000000010000000100000001000000010000000100000001000000010000000100000001\
            000000010000000180000005'q
        serve
        passes_on 0 000000010000000100000001000000010000000100000001000000010000000100000001000000010000000100000001\
            00000001000000010000000180000005' 'q
        sent
        close 2 2 0 1 1 0
    ";
    let mut options = Options::usual(Role::Rep, 0);
    options.ttl = 15;
    let wires = "
        put 1 000000010000000100000001000000010000000100000001000000010000000100000001000000010000000100000001\
            000000010000000180000005'q
    ";
    rep_plays_with(&rt, options, true, calls, wires);
}

#[test]
fn the_empty_frame_is_malformed(rt: HostRuntime) {
    let calls = "
        joins 0 8 1 '
        joins 1 8 2 800000'
        serve
        down 1 malformed
        down 2 malformed
        none_down
        close 0 0 0 2 0 0
    ";
    rep_plays(&rt, false, calls, "");
    rep_plays(&rt, true, calls, "");
}

// Its wire fails when it is asked for room for the reply to the first request.
#[test]
fn a_request_of_a_pipe_that_went_down_is_gone(rt: HostRuntime) {
    let calls = "
        joins_broken 0 1 80000001'p 80000002'q
        serve
        receive 0
        received ' 'p
        serve
        send 0 ' 'a
        sent
        down 1 failed
        not_now 0 8
        close 2 2 0 2 0 0
    ";
    rep_plays(&rt, false, calls, "");
}

#[test]
fn a_request_is_never_due_where_its_time_has_no_end(rt: HostRuntime) {
    let calls = "
        joins 0 8 1 pause
        send 0 ' 'a
        sent
        due 60000 0
        due 18446744073709551614 0
        close 1 1 0 0 1 0
    ";
    let wires = "put 1 80000000'a";
    let mut options = Options::usual(Role::Req, 0);
    options.resend = 18_446_744_073_709_551_615;
    req_plays_with(&rt, options, false, calls, wires);
}

#[test]
fn a_raw_request_goes_out_as_header_and_body(rt: HostRuntime) {
    let calls = "
        joins 0 8 1 pause
        send 0 8000002a' 'q
        sent
        close 1 1 0 0 1 0
    ";
    let wires = "put 1 8000002a'q";
    req_plays(&rt, true, 0, calls, wires);
}

// The immediate receive finds that the receive before it was cancelled, which dropped the request.
#[test]
fn nothing_comes_at_once_behind_a_receive_that_was_cancelled(rt: HostRuntime) {
    let calls = "
        joins 0 8 1 80000000'a
        send 0 ' 'q
        sent
        receive 0
        cancel 1 won
        not_now 0 11
        gone cancelled 1
        serve
        not_now 0 11
        close 2 1 1 1 1 0
    ";
    let wires = "put 1 80000000'q";
    req_plays(&rt, false, 0, calls, wires);
}

#[test]
fn a_reply_that_is_kept_outlives_its_pipe(rt: HostRuntime) {
    let calls = "
        joins 0 8 1 80000000'a end
        send 0 ' 'q
        sent
        serve
        down 1 ended
        receive 0
        received ' 'a
        close 2 2 0 1 1 0
    ";
    req_plays(&rt, false, 0, calls, "");
}

#[test]
fn a_reply_of_three_bytes_is_malformed(rt: HostRuntime) {
    let calls = "
        joins 0 8 1 800000'
        serve
        down 1 malformed
        close 0 0 0 1 0 0
    ";
    req_plays(&rt, false, 0, calls, "");
}

// The order is that of all contexts together.
#[test]
fn the_receive_that_began_first_gets_the_request(rt: HostRuntime) {
    let calls = "
        opens 1
        joins 0 8 1 80000001'q
        receive 1
        receive 0
        serve
        not_yet
        swap
        received ' 'q
        not_yet
        close 2 1 1 1 0 0
        gone closed 0
    ";
    rep_plays(&rt, false, calls, "put 1");
}
