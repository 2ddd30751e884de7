//! Pipes that fail when they are asked for room.
use crate::roles::{pair_plays, publisher_plays, req_plays};

#[test]
fn a_flood_goes_on_behind_a_pipe_that_fails(rt: HostRuntime) {
    let calls = "
        joins 0 8 1 pause
        joins_broken 1 2 pause
        joins 2 8 3 pause
        send 0 ' 'm
        sent
        down_asked 2 failed 1
        close 1 1 0 0 2 0
    ";
    let wires = "
        asked 1 1 'm
        asked 3 1 'm
    ";
    publisher_plays(&rt, calls, wires);
}

#[test]
fn a_message_of_a_pair_outlives_its_pipe(rt: HostRuntime) {
    let calls = "
        joins_broken 0 1 'x
        serve
        send 0 ' 'm
        down 1 failed
        not_yet
        // The send waits for the next peer, whose frame waits for the receive of the message that is kept.
        joins 1 8 2 'y
        sent
        serve
        now 0 ' 'x
        not_now 0 8
        serve
        now 0 ' 'y
        close 3 3 0 2 1 0
    ";
    let wires = "asked 2 1 'm";
    pair_plays(&rt, false, calls, wires);
}

#[test]
fn a_request_goes_on_to_the_next_pipe_where_one_fails(rt: HostRuntime) {
    let calls = "
        joins 0 8 1 end
        send 0 ' 'a
        sent
        joins_broken 1 2 pause
        joins 2 8 3 pause
        // The first ends, the second fails where it is asked for room, and the third gets the request, all in this
        // turn.
        serve
        down_asked 1 ended 1 80000000'a
        down_asked 2 failed 1
        close 1 1 0 0 2 0
    ";
    let wires = "asked 3 1 80000000'a";
    req_plays(&rt, false, 0, calls, wires);
}
