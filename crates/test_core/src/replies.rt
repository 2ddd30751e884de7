//! Replies of both rep and respondent: backtraces, and pipes that are down or full.
use crate::roles::{rep_plays, respondent_plays};
use std::process::Abort;
use std::sync::Wait;

// Checks that a rep and a respondent both return what each line says, and end with these wires.
fn both_play<R: AllocGlobal + Wait + Abort>(rt: &R, raw: bool, calls: &str, wires: &str) {
    rep_plays(rt, raw, calls, wires);
    respondent_plays(rt, raw, calls, wires);
}

#[test]
fn a_reply_goes_back_by_its_backtrace(rt: HostRuntime) {
    let calls = "
        joins 0 8 1 000000078000002a'q
        receive 0
        no_receive 0 11
        serve
        received ' 'q
        send 0 00000009' 'a
        sent
        no_send 0 00000007' 'b 11
        close 2 2 0 1 1 0
    ";
    let wires = "put 1 000000078000002a'a";
    both_play(&rt, false, calls, wires);
}

#[test]
fn a_frame_that_is_cut_short_closes_its_pipe_alone(rt: HostRuntime) {
    // What came too far is dropped, whether or not anything follows: nine words without the top bit, and eight.
    let calls = "
        joins 0 0 1 00000001'
        joins 1 8 2 000000010000000100000001000000010000000100000001000000010000000100000001' 0000000100000001\
            000000010000000100000001000000010000000100000001' 80000005'q
        receive 0
        serve
        down 1 malformed
        received ' 'q
        send 0 ' 'a
        sent
        close 2 2 0 4 1 0
    ";
    let wires = "put 2 80000005'a";
    both_play(&rt, false, calls, wires);
}

#[test]
fn a_request_above_its_pipes_limit_closes_it_alone(rt: HostRuntime) {
    let calls = "
        joins_within 0 4 8 1 80000005'q
        joins_within 1 5 8 2 80000006'r
        receive 0
        serves true 1 0 1
        down 1 malformed
        received ' 'r
        send 0 ' 'a
        sent
        not_now 0 8
        close 2 2 0 2 1 0
    ";
    let wires = "put 2 80000006'a";
    both_play(&rt, false, calls, wires);
}

#[test]
fn a_reply_goes_back_by_eight_words(rt: HostRuntime) {
    // After nine words without the top bit come seven more, then a word with it and a body.
    let calls = "
        joins 0 8 1 000000010000000100000001000000010000000100000001000000010000000100000001' 0000000100000001\
            000000010000000100000001000000010000000180000005'q
        receive 0
        serve
        received ' 'q
        send 0 ' 'a
        sent
        close 2 2 0 2 1 0
    ";
    both_play(
        &rt,
        false,
        calls,
        "put 1 0000000100000001000000010000000100000001000000010000000180000005'a",
    );
}

#[test]
fn a_request_that_is_received_at_once_is_answered(rt: HostRuntime) {
    let calls = "
        joins 0 8 1 80000001'q
        // Nothing is stored while nothing was received.
        not_now 0 8
        no_send 0 00000007' 'a 11
        serve
        now 0 ' 'q
        not_now 0 8
        send 0 00000007' 'a
        sent
        close 2 2 0 1 1 0
    ";
    let wires = "put 1 80000001'a";
    both_play(&rt, false, calls, wires);
}

#[test]
fn a_context_that_was_never_opened_answers_nothing(rt: HostRuntime) {
    let cooked = "
        no_receive 5 12
        no_send 5 ' 'a 12
        not_now 5 12
        close 0 0 0 0 0 0
    ";
    both_play(&rt, false, cooked, "");
    let raw = "
        no_receive 5 9
        no_send 5 ' 'a 9
        not_now 5 9
        close 0 0 0 0 0 0
    ";
    both_play(&rt, true, raw, "");
}

#[test]
fn a_reply_to_a_pipe_that_is_down_goes_nowhere(rt: HostRuntime) {
    let calls = "
        joins 0 8 1 80000001'q end
        receive 0
        serve
        received ' 'q
        serve
        down 1 ended
        send 0 ' 'a
        sent
        close 2 2 0 1 0 0
    ";
    both_play(&rt, false, calls, "");
}

#[test]
fn a_reply_waits_at_a_full_pipe_until_it_ends(rt: HostRuntime) {
    let calls = "
        joins 0 0 1 80000001'q pause end
        serve
        receive 0
        received ' 'q
        send 0 ' 'a
        not_yet
        serve
        not_yet
        serve
        sent
        down 1 ended
        closed
    ";
    both_play(&rt, false, calls, "");
}

#[test]
fn each_context_answers_its_own_request(rt: HostRuntime) {
    let calls = "
        opens 1
        joins 0 8 1 80000001'p 80000002'r
        joins 1 8 2 80000001'q
        // One request of a pipe is kept at a time.
        serve
        receive 0
        received ' 'p
        receive 1
        received ' 'q
        not_now 1 8
        send 1 ' 'b
        sent
        send 0 ' 'a
        sent
        serve
        receive 1
        received ' 'r
        close 5 5 0 3 2 0
    ";
    let wires = "
        put 1 80000001'a
        put 2 80000001'b
    ";
    both_play(&rt, false, calls, wires);
}

#[test]
fn a_receive_gives_up_the_request_before_it(rt: HostRuntime) {
    let calls = "
        joins 0 8 1 80000001'q
        serve
        receive 0
        received ' 'q
        receive 0
        no_send 0 ' 'a 11
        close 2 1 1 1 0 0
        collected
    ";
    both_play(&rt, false, calls, "put 1");
}

#[test]
fn a_raw_replier_answers_by_the_header(rt: HostRuntime) {
    let calls = "
        joins 0 8 1 8000002a'q
        serve
        passes_on 0 000000018000002a' 'q
        sent
        // The pipe of this one isn't up, and the last one names none.
        send 0 000000098000002a' 'b
        sent
        send 0 ' 'c
        sent
        close 4 4 0 1 1 0
    ";
    let wires = "put 1 8000002a'q";
    both_play(&rt, true, calls, wires);
}
