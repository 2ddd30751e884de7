//! Requests: ids, replies, resends, and what ends a request.
use crate::roles::req_plays;

#[test]
fn a_reply_that_is_received_at_once_answers_its_request(rt: HostRuntime) {
    let calls = "
        not_now 0 11
        joins 0 8 1 80000000'a
        send 0 ' 'q
        sent
        not_now 0 8
        serve
        now 0 ' 'a
        not_now 0 11
        close 2 2 0 1 1 0
    ";
    let wires = "put 1 80000000'q";
    req_plays(&rt, false, 0, calls, wires);
}

#[test]
fn a_reply_is_given_once(rt: HostRuntime) {
    let calls = "
        joins 0 8 1 80000001'no 80000000'pong pause 80000000'pong
        no_receive 0 11
        send 0 00000007' 'ping
        sent
        receive 0
        no_receive 0 11
        serve
        received ' 'pong
        serve
        no_receive 0 11
        close 2 2 0 3 1 0
    ";
    let wires = "put 1 80000000'ping";
    req_plays(&rt, false, 0, calls, wires);
}

#[test]
fn a_request_goes_out_again(rt: HostRuntime) {
    let calls = "
        joins 0 8 1 end
        send 0 ' 'a
        sent
        joins 1 8 2 pause
        due 1000 0
        serve
        down 1 ended
        due 60999 0
        due 61000 0
        close 1 1 0 0 3 0
    ";
    let wires = "put 2 80000000'a 80000000'a";
    req_plays(&rt, false, 0, calls, wires);
}

#[test]
fn a_request_does_not_go_out_again_a_millisecond_early(rt: HostRuntime) {
    let calls = "
        joins 0 8 1 pause
        due 1000 0
        send 0 ' 'a
        sent
        due 60999 0
        close 1 1 0 0 1 0
    ";
    let wires = "put 1 80000000'a";
    req_plays(&rt, false, 0, calls, wires);
}

#[test]
fn a_request_waits_for_a_pipe_that_has_room(rt: HostRuntime) {
    let calls = "
        joins 0 1 1 end
        send 0 ' 'a
        sent
        serve
        // No pipe is up, so it goes out in the turn of the next one.
        joins 1 1 2 80000000'b
        receive 0
        serve
        received ' 'b
        down 1 ended
        close 2 2 0 1 2 0
    ";
    let wires = "put 2 80000000'a";
    req_plays(&rt, false, 0, calls, wires);
}

#[test]
fn a_new_request_replaces_the_old(rt: HostRuntime) {
    let calls = "
        joins 0 8 1 80000000'x pause 80000001'y
        send 0 ' 'a
        sent
        receive 0
        send 0 ' 'c
        sent
        gone superseded 0
        serve
        receive 0
        cancel 3 won
        gone cancelled 1
        serve
        no_receive 0 11
        close 4 2 2 2 2 0
    ";
    let wires = "put 1 80000000'a 80000001'c";
    req_plays(&rt, false, 0, calls, wires);
}

#[test]
fn ids_wrap_with_the_top_bit_set(rt: HostRuntime) {
    let calls = "
        joins 0 8 1 pause
        send 0 ' 'a
        sent
        send 0 ' 'b
        sent
        close 2 2 0 0 2 0
    ";
    let wires = "put 1 ffffffff'a 80000000'b";
    req_plays(&rt, false, 0xffff_ffff, calls, wires);
}

#[test]
fn replies_reach_the_contexts_that_asked(rt: HostRuntime) {
    let calls = "
        opens 1
        // Each reply comes on the pipe of the other request, the later one first.
        joins 0 8 1 80000006'b
        joins 1 8 2 pause 80000005'a
        send 0 ' 'x
        sent
        send 1 ' 'y
        sent
        receive 0
        receive 1
        serve
        serve
        received ' 'b
        received ' 'a
        close 4 4 0 2 2 0
    ";
    let wires = "
        put 1 80000005'x
        put 2 80000006'y
    ";
    req_plays(&rt, false, 5, calls, wires);
}

#[test]
fn a_request_that_is_given_up_hands_its_message_back(rt: HostRuntime) {
    let calls = "
        send 0 00000007' 'a
        receive 0
        cancel 1 won
        gone cancelled 1
        back superseded 0 00000007' 'a
        no_receive 0 11
        close 2 0 2 0 0 0
    ";
    req_plays(&rt, false, 0, calls, "");
}

#[test]
fn a_close_ends_a_request_and_its_receive(rt: HostRuntime) {
    let calls = "
        send 0 ' 'a
        receive 0
        close 2 0 2 0 0 0
        gone closed 0
        back closed 0 ' 'a
    ";
    req_plays(&rt, false, 0, calls, "");
}

#[test]
fn a_raw_req_moves_one_word(rt: HostRuntime) {
    let calls = "
        joins 0 8 1 8000002a'a 800000'
        send 0 8000002a' 'q
        sent
        receive 0
        serve
        received 8000002a' 'a
        serve
        down 1 malformed
        no_receive 5 9
        close 2 2 0 2 1 0
    ";
    req_plays(&rt, true, 0, calls, "");
}
