//! A rep replies to the pipe of the request, and limits how many hops a request may take. A respondent does the same in
//! all of this.
use crate::checks::plays;

#[test]
fn a_reply_goes_back_by_its_backtrace(rt: HostRuntime) {
    let play = "
        reserve 2
        up 1
        frame 1 000000078000002a'q
        wants 1 no
        check 0 send state
        receive 0 0
        can_give 0
        gets 0 ' 'q
        check 0 send ok
        send 1 0 ' 'a
        check 0 send state
        can_send 1 1
        full 1
        idle
        fresh
        goes_out 1 1 000000078000002a' 'a
    ";
    plays(&rt, rt.alloc(), "rep+respondent", play);
}

#[test]
fn a_frame_that_is_cut_short_is_malformed(rt: HostRuntime) {
    // Nine hops and no id, and eight.
    let play = "
        reserve 1
        up 1
        up 2
        malformed 1 00000001'
        malformed 1 '
        malformed 1 800000'
        frame 2 000000010000000100000001000000010000000100000001000000010000000100000001'
        frame 2 0000000100000001000000010000000100000001000000010000000100000001'
        wants 2 yes
        frame 2 80000005'q
        wants 2 no
        receive 0 0
        can_give 0
        gets 0 ' 'q
    ";
    plays(&rt, rt.alloc(), "rep+respondent", play);
}

#[test]
fn seven_hops_are_not_too_far_and_eight_are(rt: HostRuntime) {
    // Seven hops, a request's id, and `q`; then eight hops and an id.
    let play = "
        reserve 2
        up 1
        frame 1 0000000100000001000000010000000100000001000000010000000180000005'q
        receive 0 0
        can_give 0
        gets 0 ' 'q
        send 1 0 ' 'q
        goes_out 1 1 0000000100000001000000010000000100000001000000010000000180000005' 'q
        frame 1 000000010000000100000001000000010000000100000001000000010000000180000005'
        wants 1 yes
    ";
    plays(&rt, rt.alloc(), "rep+respondent", play);
}

#[test]
fn one_hop_is_all_where_the_limit_is_one(rt: HostRuntime) {
    let play = "
        reserve 1
        up 1
        frame 1 0000000180000005'
        wants 1 yes
        frame 1 80000005'
        receive 0 0
        can_give 0
        gets 0 ' '
    ";
    plays(&rt, rt.alloc(), "rep+respondent ttl=1", play);
}

#[test]
fn requests_of_a_pipe_that_is_down_are_gone(rt: HostRuntime) {
    let play = "
        reserve 3
        up 1
        up 2
        frame 1 80000001'a
        frame 2 80000002'b
        down 1
        receive 0 0
        can_give 0
        gets 0 ' 'b
        receive 1 0
        idle
        check 0 send state
    ";
    plays(&rt, rt.alloc(), "rep+respondent", play);
}

#[test]
fn a_close_drops_the_request_that_is_to_be_answered(rt: HostRuntime) {
    let play = "
        reserve 2
        up 1
        frame 1 80000001'a
        receive 0 0
        can_give 0
        gets 0 ' 'a
        check 0 send ok
        close
        check 0 send state
    ";
    plays(&rt, rt.alloc(), "rep+respondent", play);
}

#[test]
fn a_reply_to_a_pipe_that_is_down_goes_nowhere(rt: HostRuntime) {
    let play = "
        reserve 2
        up 1
        frame 1 80000001'a
        receive 0 0
        can_give 0
        gets 0 ' 'a
        down 1
        send 1 0 ' 'x
        can_drop 1
        ends_nowhere 1
        idle
    ";
    plays(&rt, rt.alloc(), "rep+respondent", play);
}

#[test]
fn two_contexts_answer_their_own(rt: HostRuntime) {
    let play = "
        reserve 4
        open 1
        up 1
        up 2
        frame 1 80000001'a
        frame 2 80000002'b
        receive 0 1
        can_give 0
        gets 0 ' 'a
        receive 1 0
        can_give 1
        gets 1 ' 'b
        send 2 0 ' 'B
        goes_out 2 2 80000002' 'B
        send 3 1 ' 'A
        goes_out 3 1 80000001' 'A
    ";
    plays(&rt, rt.alloc(), "rep+respondent", play);
}

#[test]
fn a_raw_replier_shows_its_pipe_and_the_backtrace(rt: HostRuntime) {
    let play = "
        reserve 3
        up 1
        frame 1 8000002a'q
        receive 0 0
        can_give 0
        passes_on 0 1 000000018000002a' 'q
        goes_out 1 1 8000002a' 'q
        send 2 0 000000098000002a' 'q
        can_drop 2
    ";
    plays(&rt, rt.alloc(), "rep+respondent raw", play);
}

#[test]
fn fifteen_words_make_a_header_of_64_bytes(rt: HostRuntime) {
    // Fourteen hops, a request's id, and `q`. When received, they follow the number of the pipe.
    let play = "
        reserve 2
        up 1
        frame 1 000000010000000200000003000000040000000500000006000000070000000800000009\
            0000000a0000000b0000000c0000000d0000000e80000005'q
        receive 0 0
        can_give 0
        passes_on 0 1 000000010000000100000002000000030000000400000005000000060000000700000008\
            000000090000000a0000000b0000000c0000000d0000000e80000005' 'q
        goes_out 1 1 000000010000000200000003000000040000000500000006000000070000000800000009\
            0000000a0000000b0000000c0000000d0000000e80000005' 'q
    ";
    plays(&rt, rt.alloc(), "rep+respondent raw ttl=15", play);
}

#[test]
fn the_ninth_word_is_too_far_for_a_respondent(rt: HostRuntime) {
    // Nine hops and no id.
    let play = "
        reserve 2
        up 1
        frame 1 000000010000000100000001000000010000000100000001000000010000000100000001'
        wants 1 yes
        malformed 1 7f000001'
        frame 1 ff000005'q
        receive 0 0
        can_give 0
        gets 0 ' 'q
        send 1 0 ' 'r
        goes_out 1 1 ff000005' 'r
    ";
    plays(&rt, rt.alloc(), "respondent", play);
}

#[test]
fn the_ninth_word_is_too_far_for_a_raw_respondent(rt: HostRuntime) {
    // Eight hops and no id.
    let play = "
        is respondent raw
        reserve 1
        up 2
        frame 2 0000000100000001000000010000000100000001000000010000000100000001'
        wants 2 yes
        frame 2 8000002a'q
        receive 0 0
        gets 0 000000028000002a' 'q
    ";
    plays(&rt, rt.alloc(), "respondent raw", play);
}

#[test]
fn a_respondent_stands_for_its_role(rt: HostRuntime) {
    plays(&rt, rt.alloc(), "respondent", "is respondent cooked");
}
