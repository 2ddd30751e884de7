//! What a req sends and prints.
use crate::lines::runs;

// The reply to another request comes before that to its own.
#[test]
fn a_request_prints_its_reply(rt: HostRuntime) {
    runs(
        &rt,
        "words --req --listen tcp://127.0.0.1:5555 --data ping --ascii --count 1
        link greets_rep after:24 000000000000000680000001'no+000000000000000880000000'pong
        comes done
        writes greets_req 000000000000000880000000'ping
        prints 'pong 0a'",
    );
}

// The second request has the next number, and is sent only after the first reply.
#[test]
fn two_requests_have_two_numbers(rt: HostRuntime) {
    runs(
        &rt,
        "words --req --dial tcp://127.0.0.1:5555 --data ping --raw --count 2
        dials 5555
        link greets_rep after:24 000000000000000580000000'a after:40 000000000000000580000001'b
        comes done
        prints 'ab
        writes greets_req 000000000000000880000000'ping 000000000000000880000001'ping",
    );
}

// The first peer takes the request and dies; the second one gets it too, with the same number, and replies.
#[test]
fn a_request_goes_out_again_where_its_peer_dies(rt: HostRuntime) {
    runs(
        &rt,
        "words --req --dial tcp://127.0.0.1:5555 --data ping --ascii --count 1
        dials 5555
        link greets_rep after:24 end
        link greets_rep after:24 000000000000000680000001'no+000000000000000880000000'pong
        pace 200 10
        comes done
        opened 2
        writes greets_req 000000000000000880000000'ping
        second greets_req 000000000000000880000000'ping
        prints 'pong 0a'",
    );
}

// Only one of two peers is asked.
#[test]
fn a_request_goes_to_one_peer(rt: HostRuntime) {
    runs(
        &rt,
        "words --req --listen tcp://127.0.0.1:5555 --data ping --ascii --count 1
        link greets_rep after:24 wait:20 000000000000000680000001'no+000000000000000880000000'pong
        link greets_rep
        comes done
        writes greets_req 000000000000000880000000'ping
        second greets_req
        prints 'pong 0a'",
    );
}

// No reply comes; a frame without a number is malformed, and its pipe goes down; and there is no peer to ask.
#[test]
fn a_request_without_a_reply_ends_in_time(rt: HostRuntime) {
    runs(
        &rt,
        "words --req --listen tcp://127.0.0.1:5555 --data ping --ascii --recv-timeout 0
        link greets_rep
        comes done
        writes greets_req 000000000000000880000000'ping
        prints '
        words --req --listen tcp://127.0.0.1:5555 --data ping --ascii --count 1
        link greets_rep after:24 0000000000000003800000'
        comes over
        prints '
        comes over
        opened 0",
    );
}
