//! A publisher: the pipes that a publication goes to.
use crate::checks::plays;

#[test]
fn a_pub_sends_to_all(rt: HostRuntime) {
    let play = "
        reserve 2
        is pub cooked
        up 1
        up 2
        send 0 0 00000001' 'm
        can_flood 0
        goes_to 0 1 yes
        goes_to 0 2 yes
        copy 0 2 ' 'm
        full 1
        ends 0
        idle
    ";
    plays(&rt, rt.alloc(), "pub", play);
}

#[test]
fn a_frame_is_malformed(rt: HostRuntime) {
    let play = "
        reserve 2
        is pub raw
        up 1
        wants 1 yes
        keeps 0 no
        malformed 1 '
        down 1
        check 0 send ok
        check 0 receive not_supported
        check 5 send not_supported
        send 1 0 ' 'm
        hands_back 1 ' 'm
    ";
    plays(&rt, rt.alloc(), "pub raw", play);
}
