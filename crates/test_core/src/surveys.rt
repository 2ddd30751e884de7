//! Surveys: they go to all peers, and end at their time or when another one begins.
use crate::roles::surveyor_plays;

#[test]
fn a_survey_is_over_at_its_time(rt: HostRuntime) {
    let calls = "
        joins 0 8 1 80000000'a pause 80000000'c
        joins 1 8 2 80000000'b
        no_receive 0 11
        send 0 00000007' 's
        sent
        serve
        receive 0
        received ' 'a
        receive 0
        received ' 'b
        receive 0
        due 999 0
        not_yet
        due 1000 0
        gone surveyover 0
        // A response that comes late is dropped.
        serve
        no_receive 0 11
        close 4 3 1 3 2 0
    ";
    let wires = "
        put 1 80000000's
        put 2 80000000's
    ";
    surveyor_plays(&rt, false, calls, wires);
}

#[test]
fn a_newer_survey_replaces_the_older(rt: HostRuntime) {
    let calls = "
        joins 0 8 1 80000000'a 80000001'b
        send 0 ' 's
        sent
        receive 0
        receive 0
        send 0 ' 't
        sent
        gone superseded 0
        gone superseded 0
        receive 0
        serve
        received ' 'b
        close 5 3 2 2 2 0
    ";
    let wires = "put 1 80000000's 80000001't";
    surveyor_plays(&rt, false, calls, wires);
}

#[test]
fn a_response_above_its_pipes_limit_closes_it_alone(rt: HostRuntime) {
    let calls = "
        joins_within 0 4 8 1 80000000'a
        joins_within 1 5 8 2 80000000'b
        send 0 ' 's
        sent
        receive 0
        serve
        down_asked 1 malformed 1 80000000's
        received ' 'b
        // The next survey goes to the other pipe alone.
        send 0 ' 't
        sent
        close 3 3 0 2 3 0
    ";
    let wires = "put 2 80000000's 80000001't";
    surveyor_plays(&rt, false, calls, wires);
}

#[test]
fn a_response_that_is_cut_short_closes_its_pipe_alone(rt: HostRuntime) {
    let calls = "
        joins 0 8 1 800000'
        joins 1 8 2 80000000'b
        send 0 ' 's
        sent
        receive 0
        serve
        down_asked 1 malformed 1 80000000's
        received ' 'b
        // The next survey goes to the other pipe alone.
        send 0 ' 't
        sent
        close 3 3 0 2 3 0
    ";
    let wires = "asked 2 2 80000000's 80000001't";
    surveyor_plays(&rt, false, calls, wires);
}

#[test]
fn a_receive_that_is_cancelled_first_does_not_end_by_its_survey(rt: HostRuntime) {
    let calls = "
        joins 0 8 1 pause
        send 0 ' 's
        sent
        receive 0
        receive 0
        cancel 1 won
        due 1000 0
        poll 1 ended cancelled 1
        poll 2 ended surveyover 0
        gone surveyover 0
        gone cancelled 1
        no_receive 0 11
        close 3 1 2 0 1 0
    ";
    let wires = "put 1 80000000's";
    surveyor_plays(&rt, false, calls, wires);
}

#[test]
fn a_survey_that_is_over_at_a_deadline_ends_the_receive(rt: HostRuntime) {
    let calls = "
        joins 0 8 1 pause
        due 5 0
        send 0 ' 's
        sent
        receive_by 0 1005
        due 1004 0
        poll 1 pending
        // The tick names the receive as due, and ends it in its turn: who would let it expire after the turn is too
        // late.
        due 1005 1
        expire 1 ended surveyover 0
        gone surveyover 0
        no_receive 0 11
        close 2 1 1 0 1 0
    ";
    let wires = "put 1 80000000's";
    surveyor_plays(&rt, false, calls, wires);
}

#[test]
fn a_raw_surveyor_moves_one_word(rt: HostRuntime) {
    let calls = "
        joins 0 8 1 8000002a'a
        joins 1 8 2 00000001'b
        no_context 9
        no_receive 1 9
        // A receive needs no survey, and no time ends it.
        receive 0
        send 0 8000002a' 'q
        sent
        due 5000 0
        not_yet
        // What comes is kept whatever its word is, one of each pipe, with the word as its header.
        serve
        received 8000002a' 'a
        receive 0
        received 00000001' 'b
        close 3 3 0 2 2 0
    ";
    let wires = "
        put 1 8000002a'q
        put 2 8000002a'q
    ";
    surveyor_plays(&rt, true, calls, wires);
}
