//! Names within the process: one command that listens on them and dials them, by themselves and together with TCP.
use crate::lines::runs;

// The net isn't asked for a link, and no turn is used.
#[test]
fn a_name_that_is_listened_on_twice_is_a_fault(rt: HostRuntime) {
    runs(
        &rt,
        "words --pull --listen inproc://x --listen inproc://x --count 1
        comes net_fault
        exit 4
        record yes
        left 200
        opened 0
        words --bus --listen inproc://x --dial inproc://x --listen inproc://x
        comes net_fault
        exit 4
        record yes
        left 200
        opened 0
        words --pull --listen inproc://y --listen inproc://x --listen tcp://127.0.0.1:5555 --dial \
            tcp://127.0.0.1:5555 --listen inproc://x
        comes net_fault
        exit 4
        record yes
        left 200
        opened 0
        words --push --data m --listen tcp://127.0.0.1:5555 --listen inproc://x --listen inproc://y --listen inproc://y
        comes net_fault
        exit 4
        record yes
        left 200
        opened 0",
    );
}

// A bus has two pipes to itself over one name, and its message goes out on both. A hundred messages are more than a
// lane holds: each pipe is read while the other one is written. In the last row but one the second names match.
#[test]
fn a_bus_talks_to_itself(rt: HostRuntime) {
    runs(
        &rt,
        "words --bus --listen inproc://x --dial inproc://x --data m --count 1
        comes done
        opened 0
        words --bus --dial inproc://x --listen inproc://x --data m --count 3
        comes done
        opened 0
        words --bus --listen inproc://x --dial inproc://x --data m --count 100
        comes done
        opened 0
        words --bus --listen inproc://x --listen inproc://y --dial inproc://y --dial inproc://x --data m
        comes done
        opened 0
        words --bus --listen inproc://y --listen inproc://x --dial inproc://z --dial inproc://x --data m
        comes done
        opened 0
        words --bus --listen tcp://127.0.0.1:5555 --dial inproc://x --listen inproc://x --data m
        comes done
        opened 0",
    );
}

// A pair has one pipe: it refuses the other half of the lane that it dialed, and its own half is told of the end. So
// its pipe goes down before it sends, and its message goes out on the pipe of its next dial, 100 turns later.
#[test]
fn a_lane_that_is_left_is_told_its_end(rt: HostRuntime) {
    runs(
        &rt,
        "words --pair --listen inproc://x --dial inproc://x --data m --count 1
        comes done
        below 100",
    );
}

// There is no peer of the right role: nothing listens on the name, or the own role does.
#[test]
fn a_name_without_a_peer_waits(rt: HostRuntime) {
    runs(
        &rt,
        "words --pull --listen inproc://x --count 1
        comes over
        exit 3
        left 0
        opened 0
        words --pull --dial inproc://x --count 1
        comes over
        exit 3
        left 0
        opened 0
        words --pull --dial inproc://x --dial inproc://y --listen inproc://z
        comes over
        exit 3
        left 0
        opened 0
        words --push --dial inproc://x --data m --count 1
        comes over
        exit 3
        left 0
        opened 0
        words --push --listen inproc://x --dial inproc://x --data m --count 1
        comes over
        exit 3
        left 0
        opened 0
        words --bus --listen inproc://x --dial inproc://y --data m --count 1
        comes over
        exit 3
        left 0
        opened 0
        words --req --listen inproc://x --dial inproc://x --data m
        comes over
        exit 3
        left 0
        opened 0",
    );
}

#[test]
fn a_name_without_a_peer_times_out(rt: HostRuntime) {
    runs(
        &rt,
        "words --pull --dial inproc://x --recv-timeout 0
        comes done
        above 0
        words --push --listen inproc://x --data m --send-timeout 0
        comes send_timed_out
        above 0",
    );
}

// Names come before, between and after the address of TCP.
#[test]
fn names_stand_beside_tcp(rt: HostRuntime) {
    runs(
        &rt,
        "words --pull --listen inproc://x --listen tcp://127.0.0.1:5555 --ascii --count 1
        link greets_push 0000000000000005'hello
        comes done
        opened 1
        prints 'hello 0a'
        words --pull --listen tcp://127.0.0.1:5555 --dial inproc://x --ascii --count 1
        link greets_push 0000000000000005'hello
        comes done
        opened 1
        prints 'hello 0a'
        words --pull --dial inproc://x --listen inproc://y --listen tcp://127.0.0.1:5555 --listen inproc://x \
            --ascii --count 1
        link greets_push 0000000000000005'hello
        comes done
        opened 1
        prints 'hello 0a'",
    );
}

// A listen that fails ends the run, whatever names come before it.
#[test]
fn a_failing_listen_behind_a_name_is_a_fault(rt: HostRuntime) {
    runs(
        &rt,
        "words --pull --listen inproc://x --dial inproc://y --listen tcp://127.0.0.1:5555
        link greets_push 0000000000000005'hello
        net_fails 0
        comes net_fault
        left 200
        opened 0",
    );
}
