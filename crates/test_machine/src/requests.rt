//! A req gives a reply to the request that asked, once.
use crate::checks::plays;

#[test]
fn a_reply_is_given_once(rt: HostRuntime) {
    let play = "
        reserve 2
        up 1
        send 0 0 ' 'ping
        goes_out 0 1 80000000' 'ping
        receive 1 0
        check 0 receive state
        frame 1 80000001'no
        idle
        frame 1 80000000'pong
        can_give 1
        gets 1 ' 'pong
        frame 1 80000000'pong
        check 0 receive state
    ";
    plays(&rt, rt.alloc(), "req", play);
}

#[test]
fn replies_reach_the_contexts_that_asked(rt: HostRuntime) {
    let play = "
        reserve 4
        open 1
        up 1
        send 0 0 ' 'a
        send 1 1 ' 'b
        goes_out 0 1 80000000' 'a
        goes_out 1 1 80000001' 'b
        receive 2 0
        receive 3 1
        frame 1 80000001'B
        can_give 3
        gets 3 ' 'B
        frame 1 80000000'A
        frame 1 80000000'C
        can_give 2
        gets 2 ' 'A
        check 0 receive state
        malformed 1 800000'
    ";
    plays(&rt, rt.alloc(), "req", play);
}

#[test]
fn a_new_request_replaces_the_old(rt: HostRuntime) {
    let play = "
        reserve 4
        up 1
        send 0 0 ' 'a
        goes_out 0 1 80000000' 'a
        receive 1 0
        send 2 0 ' 'c
        can_finish 1 superseded
        loses 1
        goes_out 2 1 80000001' 'c
        frame 1 80000000'x
        keeps 0 no
        receive 3 0
        loses 3
        frame 1 80000001'y
        check 0 receive state
    ";
    plays(&rt, rt.alloc(), "req", play);
}

#[test]
fn a_request_that_is_given_up_gets_no_reply(rt: HostRuntime) {
    let play = "
        reserve 4
        up 1
        send 0 0 ' 'a
        receive 1 0
        send 2 0 ' 'c
        can_finish 0 superseded
        hands_back 0 ' 'a
        loses 1
        goes_out 2 1 80000000' 'c
        receive 3 0
        loses 3
        frame 1 80000000'y
        keeps 0 no
        check 0 receive state
    ";
    plays(&rt, rt.alloc(), "req dice=4294967295", play);
}

#[test]
fn a_second_request_gets_its_own_reply_behind_that_of_a_cancelled_one(rt: HostRuntime) {
    let play = "
        reserve 4
        up 1
        send 0 0 ' 'a
        goes_out 0 1 80000000' 'a
        receive 1 0
        loses 1
        send 2 0 ' 'b
        goes_out 2 1 80000001' 'b
        receive 3 0
        frame 1 80000000'A
        idle
        frame 1 80000001'B
        can_give 3
        gets 3 ' 'B
        check 0 receive state
    ";
    plays(&rt, rt.alloc(), "req", play);
}

#[test]
fn ids_wrap_with_the_top_bit_set(rt: HostRuntime) {
    let play = "
        reserve 2
        up 1
        send 0 0 ' 'a
        goes_out 0 1 ffffffff' 'a
        send 1 0 ' 'b
        goes_out 1 1 80000000' 'b
    ";
    plays(&rt, rt.alloc(), "req dice=4294967295", play);
    let play = "
        reserve 1
        up 1
        send 0 0 ' 'a
        goes_out 0 1 80000005' 'a
    ";
    plays(&rt, rt.alloc(), "req dice=5", play);
}

#[test]
fn a_request_is_never_due_where_its_time_has_no_end(rt: HostRuntime) {
    let play = "
        reserve 1
        up 1
        clock 1000ms
        send 0 0 ' 'a
        goes_out 0 1 80000000' 'a
        clock 18446744073709551615ms
        idle
        down 1
        up 2
        can_resend 0 2
    ";
    let req = "req resend=18446744073709551615";
    plays(&rt, rt.alloc(), req, play);
}

#[test]
fn a_raw_req_moves_one_word(rt: HostRuntime) {
    let play = "
        reserve 2
        up 1
        check 5 send not_supported
        send 0 0 8000002a' 'q
        goes_out 0 1 8000002a' 'q
        frame 1 8000002a'a
        wants 1 no
        receive 1 0
        can_give 1
        gets 1 8000002a' 'a
        malformed 1 800000'
    ";
    plays(&rt, rt.alloc(), "req raw", play);
}
