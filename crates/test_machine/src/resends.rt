//! Requests go to the pipes in turn, first to those that had room, and go out again where their pipe goes down.
use crate::checks::plays;

#[test]
fn a_request_goes_out_again(rt: HostRuntime) {
    let play = "
        reserve 1
        up 1
        send 0 0 ' 'a
        goes_out 0 1 80000000' 'a
        up 2
        clock 1000ms
        idle
        down 1
        can_resend 0 2
        resend 0 2 80000000' 'a
        idle
        clock 60999ms
        idle
        clock 61000ms
        can_resend 0 2
        full 2
        idle
    ";
    plays(&rt, rt.alloc(), "req", play);
}

#[test]
fn a_send_that_waits_goes_out_before_a_request_that_is_due(rt: HostRuntime) {
    let play = "
        reserve 2
        open 1
        up 1
        send 0 0 ' 'a
        goes_out 0 1 80000000' 'a
        down 1
        send 1 1 ' 'b
        up 2
        can_send 1 2
        goes_out 1 2 80000001' 'b
        can_resend 0 2
        resend 0 2 80000000' 'a
        idle
    ";
    plays(&rt, rt.alloc(), "req", play);
}

// A raw req keeps the header; a cooked one writes its own.
#[test]
fn six_requests_go_to_two_pipes_in_turn(rt: HostRuntime) {
    let play = "
        up 1
        up 2
        fresh
        send 1 0 80000000' 'a
        can_send 1 1
        goes_out 1 1 80000000' 'a
        fresh
        send 2 0 80000001' 'a
        can_send 2 2
        goes_out 2 2 80000001' 'a
        fresh
        send 1 0 80000002' 'a
        can_send 1 1
        goes_out 1 1 80000002' 'a
        fresh
        send 2 0 80000003' 'a
        can_send 2 2
        goes_out 2 2 80000003' 'a
        fresh
        send 1 0 80000004' 'a
        can_send 1 1
        goes_out 1 1 80000004' 'a
        fresh
        send 2 0 80000005' 'a
        can_send 2 2
        goes_out 2 2 80000005' 'a
        fresh
        full 1
        send 0 0 80000006' 'a
        can_send 0 2
        goes_out 0 2 80000006' 'a
    ";
    plays(&rt, rt.alloc(), "req", play);
    plays(&rt, rt.alloc(), "req raw", play);
}

#[test]
fn a_pipe_that_hangs_is_not_the_next_again(rt: HostRuntime) {
    let play = "
        up 1
        up 2
        send 0 0 ' 'a
        can_send 0 1
        goes_out 0 1 80000000' 'a
        fresh
        clock 60000ms
        can_resend 0 2
        resend 0 2 80000000' 'a
        idle
        fresh
        clock 120000ms
        can_resend 0 1
        resend 0 1 80000000' 'a
        idle
        fresh
        clock 180000ms
        can_resend 0 2
        resend 0 2 80000000' 'a
        idle
    ";
    plays(&rt, rt.alloc(), "req", play);
}

// In each turn one more pipe counts as having room: pipe 1, then 2, then 3, and pipe 1 once more.
#[test]
fn a_full_pipe_is_asked_again_in_its_turn(rt: HostRuntime) {
    let play = "
        up 1
        up 2
        up 3
        send 0 0 ' 'a
        can_send 0 1
        full 1
        can_send 0 2
        goes_out 0 2 80000000' 'a
        fresh
        send 1 0 ' 'a
        can_send 1 3
        goes_out 1 3 80000001' 'a
        fresh
        send 2 0 ' 'a
        can_send 2 1
        full 1
        can_send 2 2
        goes_out 2 2 80000002' 'a
        fresh
        send 3 0 ' 'a
        can_send 3 3
        goes_out 3 3 80000003' 'a
        send 4 0 ' 'a
        can_send 4 2
        goes_out 4 2 80000004' 'a
        fresh
        send 5 0 ' 'a
        can_send 5 3
        goes_out 5 3 80000005' 'a
        send 6 0 ' 'a
        can_send 6 1
        goes_out 6 1 80000006' 'a
    ";
    plays(&rt, rt.alloc(), "req", play);
}

// All pipes are full. Pipe 1 is tried again, and where it is still full all are asked.
#[test]
fn a_pipe_on_which_a_request_went_out_is_asked_first(rt: HostRuntime) {
    let play = "
        up 1
        up 2
        up 3
        send 0 0 ' 'a
        can_send 0 1
        full 1
        can_send 0 2
        full 2
        can_send 0 3
        full 3
        idle
        fresh
        can_send 0 1
        full 1
        can_send 0 2
        full 2
        can_send 0 3
        goes_out 0 3 80000000' 'a
        fresh
        send 1 0 ' 'a
        can_send 1 2
        full 2
        can_send 1 3
        goes_out 1 3 80000001' 'a
    ";
    plays(&rt, rt.alloc(), "req", play);
}

// The same for a request that is due.
#[test]
fn a_pipe_on_which_a_request_went_out_again_is_asked_first(rt: HostRuntime) {
    let play = "
        up 1
        up 2
        up 3
        up 4
        send 0 0 ' 'a
        can_send 0 1
        goes_out 0 1 80000000' 'a
        fresh
        clock 60000ms
        can_resend 0 2
        full 2
        can_resend 0 3
        full 3
        can_resend 0 4
        full 4
        can_resend 0 1
        full 1
        idle
        fresh
        can_resend 0 2
        full 2
        can_resend 0 3
        full 3
        can_resend 0 4
        resend 0 4 80000000' 'a
        fresh
        send 1 0 ' 'a
        can_send 1 3
        full 3
        can_send 1 4
        goes_out 1 4 80000001' 'a
    ";
    plays(&rt, rt.alloc(), "req", play);
}

// It doesn't hide a pipe that has room either.
#[test]
fn a_pipe_that_went_down_is_not_asked(rt: HostRuntime) {
    let play = "
        up 1
        up 2
        up 3
        send 0 0 ' 'a
        can_send 0 1
        full 1
        down 2
        can_send 0 3
        goes_out 0 3 80000000' 'a
        fresh
        send 1 0 ' 'a
        can_send 1 1
        full 1
        can_send 1 3
        goes_out 1 3 80000001' 'a
        fresh
        send 2 0 ' 'a
        can_send 2 3
        goes_out 2 3 80000002' 'a
    ";
    plays(&rt, rt.alloc(), "req", play);
}

#[test]
fn eight_requests_in_one_turn_go_to_eight_pipes(rt: HostRuntime) {
    let play = "
        for 1..8: up #
        for 1..8: send # 0 ' 'a | can_send # # | goes_out # # 80%' 'a
    ";
    plays(&rt, rt.alloc(), "req dice=1", play);
}

// One more than a socket may have, its own included.
#[test]
fn a_req_has_4097_live_requests(rt: HostRuntime) {
    let play = "
        up 1
        send 0 0 ' 'a
        can_send 0 1
        goes_out 0 1 80000000' 'a
        for 1..4096: open # | send # # ' 'a | can_send # 1 | goes_out # 1 80%' 'a
    ";
    plays(&rt, rt.alloc(), "req", play);
}
