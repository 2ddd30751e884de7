//! Bodies of 1 MiB, out and in, of each role; and of 3 MiB, which go through a rep and a req like one byte.
use crate::checks::plays;

#[test]
fn a_push_and_a_pull(rt: HostRuntime) {
    let push = "
        reserve 2
        up 1
        send 0 0 ' 'mmmmmmmmmmmmmmmm*65536
        can_send 0 1
        goes_out 0 1 ' 'mmmmmmmmmmmmmmmm*65536
    ";
    plays(&rt, rt.alloc(), "push", push);
    let pull = "
        reserve 2
        up 1
        frame 1 'mmmmmmmmmmmmmmmm*65536
        receive 0 0
        can_give 0
        gets 0 ' 'mmmmmmmmmmmmmmmm*65536
    ";
    plays(&rt, rt.alloc(), "pull", pull);
}

#[test]
fn a_pair(rt: HostRuntime) {
    let play = "
        reserve 2
        up 1
        send 0 0 ' 'mmmmmmmmmmmmmmmm*65536
        can_send 0 1
        goes_out 0 1 ' 'mmmmmmmmmmmmmmmm*65536
        frame 1 'mmmmmmmmmmmmmmmm*65536
        receive 1 0
        can_give 1
        gets 1 ' 'mmmmmmmmmmmmmmmm*65536
    ";
    plays(&rt, rt.alloc(), "pair", play);
}

#[test]
fn a_bus(rt: HostRuntime) {
    let play = "
        reserve 2
        up 1
        up 2
        send 0 0 ' 'mmmmmmmmmmmmmmmm*65536
        can_flood 0
        copy 0 1 ' 'mmmmmmmmmmmmmmmm*65536
        copy 0 2 ' 'mmmmmmmmmmmmmmmm*65536
        ends 0
        frame 1 'mmmmmmmmmmmmmmmm*65536
        receive 1 0
        can_give 1
        gets 1 00000001' 'mmmmmmmmmmmmmmmm*65536
    ";
    plays(&rt, rt.alloc(), "bus raw", play);
}

#[test]
fn a_pub(rt: HostRuntime) {
    let play = "
        reserve 1
        up 1
        up 2
        send 0 0 ' 'mmmmmmmmmmmmmmmm*65536
        can_flood 0
        copy 0 1 ' 'mmmmmmmmmmmmmmmm*65536
        copy 0 2 ' 'mmmmmmmmmmmmmmmm*65536
        ends 0
    ";
    plays(&rt, rt.alloc(), "pub", play);
}

#[test]
fn a_sub(rt: HostRuntime) {
    let play = "
        reserve 4
        open 1
        put_on 0 'mm yes
        put_on 1 ' yes
        frame 1 'mmmmmmmmmmmmmmmm*65536
        receive 0 0
        can_give 0
        gets 0 ' 'mmmmmmmmmmmmmmmm*65536
        receive 1 1
        can_give 1
        gets 1 ' 'mmmmmmmmmmmmmmmm*65536
    ";
    plays(&rt, rt.alloc(), "sub", play);
}

#[test]
fn a_req(rt: HostRuntime) {
    let play = "
        reserve 4
        up 1
        send 0 0 ' 'mmmmmmmmmmmmmmmm*65536
        can_send 0 1
        goes_out 0 1 80000029' 'mmmmmmmmmmmmmmmm*65536
        frame 1 80000029'mmmmmmmmmmmmmmmm*65536
        receive 1 0
        can_give 1
        gets 1 ' 'mmmmmmmmmmmmmmmm*65536
    ";
    plays(&rt, rt.alloc(), "req dice=41", play);
}

// The request has a backtrace of one hop.
#[test]
fn a_rep_and_a_respondent(rt: HostRuntime) {
    let play = "
        reserve 4
        up 1
        frame 1 000000078000002a'mmmmmmmmmmmmmmmm*65536
        receive 0 0
        can_give 0
        gets 0 ' 'mmmmmmmmmmmmmmmm*65536
        send 1 0 ' 'mmmmmmmmmmmmmmmm*65536
        can_send 1 1
        goes_out 1 1 000000078000002a' 'mmmmmmmmmmmmmmmm*65536
    ";
    plays(&rt, rt.alloc(), "rep+respondent", play);
}

#[test]
fn a_surveyor(rt: HostRuntime) {
    let play = "
        reserve 4
        up 1
        up 2
        send 0 0 ' 'mmmmmmmmmmmmmmmm*65536
        can_flood 0
        copy 0 1 80000029' 'mmmmmmmmmmmmmmmm*65536
        copy 0 2 80000029' 'mmmmmmmmmmmmmmmm*65536
        ends 0
        frame 1 80000029'mmmmmmmmmmmmmmmm*65536
        receive 1 0
        can_give 1
        gets 1 ' 'mmmmmmmmmmmmmmmm*65536
    ";
    plays(&rt, rt.alloc(), "surveyor dice=41", play);
}

#[test]
fn a_request_of_3_mib(rt: HostRuntime) {
    let rep = "
        up 1
        frame 1 8000002a'mmmmmmmmmmmmmmmm*196608
        receive 0 0
        can_give 0
        gets 0 ' 'mmmmmmmmmmmmmmmm*196608
        send 1 0 ' 'mmmmmmmmmmmmmmmm*196608
        can_send 1 1
        goes_out 1 1 8000002a' 'mmmmmmmmmmmmmmmm*196608
    ";
    plays(&rt, rt.alloc(), "rep", rep);
    let req = "
        up 1
        send 1 0 ' 'mmmmmmmmmmmmmmmm*196608
        can_send 1 1
        goes_out 1 1 8000002a' 'mmmmmmmmmmmmmmmm*196608
        frame 1 8000002a'mmmmmmmmmmmmmmmm*196608
        receive 0 0
        can_give 0
        gets 0 ' 'mmmmmmmmmmmmmmmm*196608
    ";
    plays(&rt, rt.alloc(), "req dice=42", req);
}
