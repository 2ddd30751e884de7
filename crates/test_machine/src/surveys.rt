//! Surveys: their responses, until they are over or replaced.
use crate::checks::plays;

#[test]
fn a_survey_gives_its_responses_until_it_is_over(rt: HostRuntime) {
    let play = "
        reserve 8
        is surveyor cooked
        check 0 receive state
        check 1 receive no_entry
        check 0 send ok
        up 1
        up 2
        send 0 0 ' 's
        can_flood 0
        goes_to 0 1 yes
        goes_to 0 2 yes
        copy 0 1 80000000' 's
        copy 0 2 80000000' 's
        ends 0
        frame 1 80000000'a
        wants 2 yes
        frame 2 80000000'b
        down 2
        check 0 receive ok
        receive 1 0
        can_give 1
        gets 1 ' 'a
        receive 2 0
        can_give 2
        gets 2 ' 'b
        receive 3 0
        clock 999ms
        idle
        clock 1000ms
        can_finish 3 survey_over
        loses 3
        frame 1 80000000'c
        keeps 0 no
        check 0 receive state
    ";
    plays(&rt, rt.alloc(), "surveyor", play);
}

#[test]
fn a_newer_survey_replaces_the_older(rt: HostRuntime) {
    // A receive that is cancelled leaves the survey live; a queue of one keeps the first response.
    let play = "
        reserve 8
        up 1
        send 0 0 ' 's
        can_flood 0
        copy 0 1 80000000' 's
        ends 0
        receive 1 0
        receive 2 0
        send 3 0 ' 't
        can_flood 3
        copy 3 1 80000001' 't
        ends 3
        can_finish 1 superseded
        loses 1
        can_finish 2 superseded
        loses 2
        idle
        receive 4 0
        loses 4
        frame 1 80000000'x
        frame 1 80000001'a
        frame 1 80000001'b
        receive 5 0
        can_give 5
        gets 5 ' 'a
        keeps 0 no
        malformed 1 800000'
    ";
    plays(&rt, rt.alloc(), "surveyor queue=1", play);
}

#[test]
fn each_context_has_its_survey(rt: HostRuntime) {
    let play = "
        reserve 8
        up 1
        open 1
        send 0 0 ' 's
        can_flood 0
        copy 0 1 80000000' 's
        ends 0
        clock 600ms
        send 3 1 ' 't
        can_flood 3
        copy 3 1 80000001' 't
        ends 3
        frame 1 80000001'b
        receive 1 0
        receive 2 1
        can_give 2
        gets 2 ' 'b
        clock 1000ms
        can_finish 1 survey_over
        loses 1
        check 1 receive ok
        shut 1
        check 1 receive no_entry
    ";
    plays(&rt, rt.alloc(), "surveyor", play);
}

#[test]
fn a_response_goes_to_the_first_receive_of_its_context(rt: HostRuntime) {
    // No receive waits for the first response.
    let play = "
        reserve 8
        up 1
        open 1
        send 0 0 ' 's
        can_flood 0
        copy 0 1 80000000' 's
        ends 0
        send 3 1 ' 't
        can_flood 3
        copy 3 1 80000001' 't
        ends 3
        receive 1 1
        receive 2 1
        frame 1 80000000'a
        idle
        frame 1 80000001'b
        can_give 1
        gets 1 ' 'b
        idle
        receive 4 0
        can_give 4
        gets 4 ' 'a
        frame 1 80000001'c
        can_give 2
        gets 2 ' 'c
    ";
    plays(&rt, rt.alloc(), "surveyor", play);
}

#[test]
fn a_survey_has_a_copy_for_each_pipe_that_is_up(rt: HostRuntime) {
    let play = "
        reserve 2
        up 1
        up 2
        down 2
        send 0 0 ' 's
        copy 0 1 80000000' 's
        no_copy 0 2
    ";
    plays(&rt, rt.alloc(), "surveyor", play);
}

#[test]
fn a_raw_surveyor_keeps_its_header(rt: HostRuntime) {
    let play = "
        reserve 2
        up 1
        send 0 0 8000002a' 'q
        can_flood 0
        copy 0 1 8000002a' 'q
        ends 0
        check 0 receive ok
        check 3 send not_supported
        frame 1 8000002a'a
        wants 1 no
        wants 2 yes
        receive 3 0
        gets 3 8000002a' 'a
        malformed 1 800000'
    ";
    plays(&rt, rt.alloc(), "surveyor raw", play);
}
