//! Copies of a send to all that no pipe took: none is left when the send ends, whether it is won or handed back.
use crate::checks::plays;

#[test]
fn a_send_to_all_leaves_no_copy(rt: HostRuntime) {
    let bare = "
        reserve 2
        up 1
        up 2
        send 0 0 ' 's
        copy 0 1 ' 's
        ends 0
        no_copy 0 2
        send 1 0 ' 's
        copy 1 1 ' 's
        hands_back 1 ' 's
        no_copy 1 2
    ";
    plays(&rt, rt.alloc(), "bus+pub", bare);
    let numbered = "
        reserve 2
        up 1
        up 2
        send 0 0 ' 's
        copy 0 1 80000000' 's
        ends 0
        no_copy 0 2
        send 1 0 ' 's
        copy 1 1 80000001' 's
        hands_back 1 ' 's
        no_copy 1 2
    ";
    plays(&rt, rt.alloc(), "surveyor", numbered);
}
