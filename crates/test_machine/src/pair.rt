//! A pair: one peer, and the sends that wait for it.
use crate::checks::plays;

#[test]
fn a_pair_has_one_peer(rt: HostRuntime) {
    let play = "
        reserve 2
        is pair cooked
        up 1
        refused 2
        wants 1 yes
        frame 1 'abc
        wants 1 no
        keeps 0 yes
        down 1
        up 2
        wants 2 no
        receive 0 0
        receive 1 0
        loses 0
        can_give 1
        gets 1 ' 'abc
        idle
        keeps 0 no
    ";
    plays(&rt, rt.alloc(), "pair", play);
}

#[test]
fn sends_wait_for_the_peer_in_order(rt: HostRuntime) {
    let play = "
        reserve 2
        send 0 0 00000005' 'x
        send 1 0 00000005' 'y
        idle
        up 1
        can_send 0 1
        goes_out 0 1 ' 'x
        full 1
        idle
        fresh
        hands_back 1 00000005' 'y
        idle
    ";
    plays(&rt, rt.alloc(), "pair raw", play);
}

#[test]
fn a_pair_has_no_contexts(rt: HostRuntime) {
    let play = "
        check 0 send ok
        check 0 receive ok
        check 5 receive not_supported
    ";
    plays(&rt, rt.alloc(), "pair", play);
}

#[test]
fn a_pair_of_version_1_counts_hops(rt: HostRuntime) {
    let play = "
        reserve 2
        is pair1 cooked
        up 1
        refused 2
        frame 1 00000001'a
        wants 1 no
        receive 0 0
        can_give 0
        gets 0 ' 'a
        send 0.2 0 00000007' 'b
        can_send 0.2 1
        goes_out 0.2 1 00000001' 'b
        frame 1 00000008'a
        receive 0.3 0
        can_give 0.3
        gets 0.3 ' 'a
        frame 1 00000009'a
        wants 1 yes
        keeps 0 no
        frame 1 00000000'a
        receive 0.4 0
        can_give 0.4
        gets 0.4 ' 'a
        malformed 1 00000101'a
        malformed 1 000000'
        malformed 1 '
        keeps 0 no
    ";
    plays(&rt, rt.alloc(), "pair1", play);
}

#[test]
fn a_raw_pair_of_version_1_adds_one(rt: HostRuntime) {
    let play = "
        reserve 3
        is pair1 raw
        send 0 0 00000001' 'w
        idle
        send 1 0 ' 'x
        can_drop 1
        ends_nowhere 1
        idle
        up 1
        refused 2
        can_send 0 1
        goes_out 0 1 00000002' 'w
        idle
        frame 1 00000002'a
        receive 0.2 0
        can_give 0.2
        gets 0.2 00000002' 'a
        send 0.3 0 00000002' 'a
        can_send 0.3 1
        goes_out 0.3 1 00000003' 'a
        send 0.4 0 000000fe' 'a
        can_send 0.4 1
        goes_out 0.4 1 000000ff' 'a
        send 0.5 0 000000ff' 'a
        send 1.2 0 0000000100000001' 'a
        send 2 0 00000003' 'a
        can_drop 0.5
        ends_nowhere 0.5
        can_drop 1.2
        hands_back 1.2 0000000100000001' 'a
        can_send 2 1
        full 1
        idle
        send 0.6 0 00000100' 'a
        can_drop 0.6
        ends_nowhere 0.6
        idle
    ";
    plays(&rt, rt.alloc(), "pair1 raw", play);
}
