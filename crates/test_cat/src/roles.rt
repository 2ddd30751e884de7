//! What each role that has a machine sends and prints.
use crate::lines::runs;

#[test]
fn a_push_sends_its_text_twice(rt: HostRuntime) {
    runs(
        &rt,
        "words --push --listen tcp://127.0.0.1:5555 --data hi --count 2
        link greets_pull
        comes done
        writes greets_push 0000000000000002'hi 0000000000000002'hi
        prints '
        link take:1 greets_pull
        comes done
        writes greets_push 0000000000000002'hi 0000000000000002'hi
        link take:0 greets_pull
        comes over
        writes '",
    );
}

#[test]
fn a_push_that_dials_sends_what_a_file_holds(rt: HostRuntime) {
    runs(
        &rt,
        "words --push --dial tcp://127.0.0.1:5555 --file letter
        dials 5555
        link greets_pull
        comes done
        opened 1
        writes greets_push 0000000000000008'dear 20'all
        words --push --dial tcp://127.0.0.1:5555 --file parcel
        comes file_fault
        record no
        left 200",
    );
}

// The first link ends before its greeting is whole, the second brings a message.
#[test]
fn a_dialed_link_that_is_lost_is_dialed_again(rt: HostRuntime) {
    runs(
        &rt,
        "words --pull --dial tcp://127.0.0.1:5555 --ascii --count 1
        dials 5555
        link 00'SP end
        link greets_push 0000000000000005'again
        comes done
        opened 2
        prints 'again 0a'",
    );
}

// The first link brings nothing, and there is another for a second dial.
#[test]
fn an_address_is_not_dialed_while_its_link_stands(rt: HostRuntime) {
    runs(
        &rt,
        "words --pull --dial tcp://127.0.0.1:5555
        dials 5555
        links 2 greets_push
        pace 200 100
        comes over
        opened 1",
    );
}

// Two addresses are dialed, of which the second one brings a message.
#[test]
fn each_address_is_dialed(rt: HostRuntime) {
    runs(
        &rt,
        "words --pull --dial tcp://127.0.0.1:5555 --dial tcp://127.0.0.1:5556 --ascii --count 1
        dials 5555
        link greets_push
        dials 5556
        link greets_push 0000000000000005'later
        comes done
        opened 2
        prints 'later 0a'",
    );
}

// The peer that takes the first message is lost. The next one at its address gets the second; where none is there, the
// send times out.
#[test]
fn a_push_dials_again(rt: HostRuntime) {
    runs(
        &rt,
        "words --push --dial tcp://127.0.0.1:5555 --data x --count 2 --interval 1 --send-timeout 2
        dials 5555
        link greets_pull after:17 end
        link greets_pull
        pace 200 50
        comes done
        opened 2
        writes greets_push 0000000000000001'x
        second greets_push 0000000000000001'x
        dials 5555
        link greets_pull after:17 end
        pace 200 50
        comes send_timed_out
        writes greets_push 0000000000000001'x",
    );
}

#[test]
fn each_listener_is_asked(rt: HostRuntime) {
    runs(
        &rt,
        "words --pull --listen tcp://127.0.0.1:5555 --listen tcp://127.0.0.1:5556 --ascii --count 1
        link greets_push
        listener
        link greets_push 0000000000000005'later
        comes done
        opened 2
        prints 'later 0a'",
    );
}

// The body is an `a` and a double quote.
#[test]
fn bodies_are_printed_in_each_format(rt: HostRuntime) {
    runs(
        &rt,
        "words --pull --listen tcp://127.0.0.1:5555 --ascii --count=1
        link greets_push 00000000000000026122'
        comes done
        prints 61220a'
        words --pull --listen tcp://127.0.0.1:5555 --raw --count=1
        link greets_push 00000000000000026122'
        comes done
        prints 6122'
        words --pull --listen tcp://127.0.0.1:5555 --quoted --count=1
        link greets_push 00000000000000026122'
        comes done
        prints 22615c22220a'
        words --pull --listen tcp://127.0.0.1:5555 --hex --count=1
        link greets_push 00000000000000026122'
        comes done
        prints 22'\\x61\\x22 220a'
        words --pull --listen tcp://127.0.0.1:5555 --msgpack --count=1
        link greets_push 00000000000000026122'
        comes done
        prints c4026122'",
    );
}

#[test]
fn times_run_out(rt: HostRuntime) {
    runs(
        &rt,
        "words --pull --listen tcp://127.0.0.1:5555 --recv-timeout 1
        pace 200 100
        comes done
        prints '
        words --push --listen tcp://127.0.0.1:5555 --data x --send-timeout 1
        pace 200 100
        comes send_timed_out",
    );
}

#[test]
fn a_pair_sends_or_receives(rt: HostRuntime) {
    runs(
        &rt,
        "words --pair --listen tcp://127.0.0.1:5555 --ascii --count 1
        link greets_pair 0000000000000002'hi
        comes done
        prints 'hi 0a'
        writes greets_pair",
    );
}

#[test]
fn a_rep_prints_a_request_and_replies(rt: HostRuntime) {
    runs(
        &rt,
        "words --rep --listen tcp://127.0.0.1:5555 --ascii --data pong --count 1
        link greets_req 000000000000000880000001'ping
        comes done
        prints 'ping 0a'
        writes greets_rep 000000000000000880000001'pong",
    );
}

#[test]
fn a_count_of_0_never_ends(rt: HostRuntime) {
    runs(
        &rt,
        "words --pull --listen tcp://127.0.0.1:5555 --raw --count 0
        link greets_push wait:1 0000000000000001'a+0000000000000001'b
        comes over
        prints 'ab",
    );
}

#[test]
fn a_pair_of_version_1_sends_over_tcp(rt: HostRuntime) {
    runs(
        &rt,
        "words --pair1 --listen tcp://127.0.0.1:5555 --data x --count 1
        link greets_pair1
        comes done
        writes greets_pair1 000000000000000500000001'x
        link greets_pair
        comes over
        opened 1
        writes greets_pair1",
    );
}

#[test]
fn a_pair_of_version_1_prints_what_comes(rt: HostRuntime) {
    runs(
        &rt,
        "words --pair1 --dial tcp://127.0.0.1:5555 --ascii --count 1
        dials 5555
        link greets_pair1 000000000000000500000001'a
        comes done
        prints 'a 0a'
        link greets_pair1 000000000000000500010001'a
        comes over
        prints '",
    );
}
