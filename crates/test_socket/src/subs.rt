//! What a sub's socket returns for contexts and topics.
use crate::machines::plays;

#[test]
fn a_sub_has_contexts_and_topics(rt: HostRuntime) {
    let play = "
        takes 1
        1 opens 1
        1 subscribes 'x ok
        1 attaches 1
        1 receives 0 0.1
        1 serves yes
        1 collects received 'x
        1 unsubscribes 'x ok
        1 unsubscribes 'x error 12
        1 shuts 1 ok
        1 shuts 1 error 12
        1 gives_back 1 1 0 1 0 0
        left 1
    ";
    plays(&rt, rt.alloc(), "sub 2 1", "'x", play);
}
