//! A bus: who is sent what, and what is kept.
use crate::checks::plays;

#[test]
fn a_bus_sends_to_all(rt: HostRuntime) {
    let play = "
        reserve 2
        is bus cooked
        up 1
        up 2
        send 0 0 00000001' 'm
        can_flood 0
        goes_to 0 1 yes
        goes_to 0 2 yes
        copy 0 2 ' 'm
        full 1
        ends 0
        idle
    ";
    plays(&rt, rt.alloc(), "bus", play);
}

#[test]
fn a_raw_bus_does_not_send_back(rt: HostRuntime) {
    let play = "
        reserve 2
        up 1
        up 2
        frame 1 'm
        receive 0 0
        can_give 0
        passes_on 0 1 00000001' 'm
        goes_to 1 1 no
        goes_to 1 2 yes
        hands_back 1 00000001' 'm
        idle
    ";
    plays(&rt, rt.alloc(), "bus raw", play);
}

#[test]
fn a_full_bus_discards_what_comes(rt: HostRuntime) {
    let play = "
        reserve 2
        up 1
        frame 1 'a
        wants 1 yes
        frame 1 'b
        down 1
        receive 0 0
        gets 0 ' 'a
        keeps 0 no
        check 0 send ok
        check 0 receive ok
        check 5 send not_supported
    ";
    plays(&rt, rt.alloc(), "bus queue=1", play);
}

#[test]
fn a_bus_without_places_keeps_nothing(rt: HostRuntime) {
    let play = "
        up 1
        frame 1 'a
        keeps 0 no
    ";
    plays(&rt, rt.alloc(), "bus queue=0", play);
}
