//! Forty pipes or contexts at once: queued messages, and requests that go out again, come in their order.
use crate::checks::plays;

// On each pipe comes a request.
#[test]
fn forty_requests_are_kept_and_come_in_their_order(rt: HostRuntime) {
    let cooked = "
        for 1..40: up # | frame # 80%'q | wants # no
        for 1..40: receive # 0 | can_give # | gets # ' 'q | wants # yes
    ";
    plays(&rt, rt.alloc(), "rep", cooked);
    let raw = "
        for 1..40: up # | frame # 80%'q | wants # no
        for 1..40: receive # 0 | can_give # | gets # 00%80%' 'q
    ";
    plays(&rt, rt.alloc(), "rep raw", raw);
}

#[test]
fn forty_raw_replies_are_kept_and_come_in_their_order(rt: HostRuntime) {
    let play = "
        for 1..40: up # | frame # 80%'q | wants # no
        for 1..40: receive # 0 | can_give # | gets # 80%' 'q
    ";
    plays(&rt, rt.alloc(), "req+surveyor raw", play);
}

// Each context asks on pipe 1, and again on pipe 2 where that goes down.
#[test]
fn each_of_forty_requests_goes_out_again(rt: HostRuntime) {
    let play = "
        up 1
        send 0 0 ' '0
        can_send 0 1
        goes_out 0 1 80000000' '0
        for 1..39: open # | send # # ' '# | can_send # 1 | goes_out # 1 80%' '#
        up 2
        down 1
        for 0..39: can_resend # 2 | resend # 2 80%' '#
        idle
    ";
    plays(&rt, rt.alloc(), "req", play);
}

// Each context asks on pipe 1, and each is answered, the last one first.
#[test]
fn each_of_forty_replies_goes_to_its_context(rt: HostRuntime) {
    let play = "
        up 1
        send 0 0 ' '0
        can_send 0 1
        goes_out 0 1 80000000' '0
        receive 0 0
        check 0 receive state
        for 1..39: open # | send # # ' '# | can_send # 1 | goes_out # 1 80%' '# | receive # # | check # receive state
        for 39..0: frame 1 80%'r# | can_give # | gets # ' 'r# | idle | check # receive state
    ";
    plays(&rt, rt.alloc(), "req", play);
}
