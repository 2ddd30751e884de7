//! Runs over IPC, byte for byte.
use crate::lines::runs;

// The bytes come as they are listed, one at a time, and all at once. A byte other than 01 before a size ends the pipe,
// and so does a size without that byte: what follows is not read.
#[test]
fn ipc_prints_one_message(rt: HostRuntime) {
    runs(
        &rt,
        "words --pull --listen ipc:///tmp/a --ascii --count 1
        link 0053500000500000' 01' 0000000000000002' 6869'
        comes done
        exit 0
        record yes
        opened 1
        prints 68690a'
        writes 0053500000510000'
        link single greets_push 010000000000000002'hi
        comes done
        prints 'hi 0a'
        writes greets_pull
        link greets_push+010000000000000002'hi
        comes done
        prints 'hi 0a'
        link 0053500000500000' 02' 0000000000000002' 6869' 010000000000000002'ho
        comes over
        exit 3
        record yes
        opened 1
        prints '
        writes 0053500000510000'
        link greets_push 0000000000000002'hi 010000000000000002'ho
        comes over
        exit 3
        prints '",
    );
}

// What came before another byte is printed, and nothing behind it. A size above the limit ends the pipe too; where a
// link ends behind the byte 01, no message is missing. Another link goes on.
#[test]
fn what_is_malformed_ends_a_pipe_of_ipc(rt: HostRuntime) {
    runs(
        &rt,
        "words --pull --listen ipc:///tmp/a --ascii
        link greets_push 010000000000000002'hi 00' 010000000000000002'ho
        comes over
        prints 'hi 0a'
        link greets_push 010000000000000002'hi 010000000000100001'x
        comes over
        prints 'hi 0a'
        link greets_push 010000000000000002'hi 01' end
        comes over
        prints 'hi 0a'
        link greets_push 010000000000000002'hi 02'
        link greets_push 010000000000000002'ho
        comes over
        opened 2
        prints 'hi 0a'ho 0a'",
    );
}

#[test]
fn ipc_dials_and_pushes(rt: HostRuntime) {
    runs(
        &rt,
        "words --push --dial ipc:///tmp/a --data x --count 1
        dials ipc /tmp/a
        link 0053500000510000'
        comes done
        exit 0
        record yes
        opened 1
        writes 0053500000500000' 01' 0000000000000001' 78'
        dials ipc /tmp/a
        link take:1 greets_pull
        comes done
        writes greets_push 010000000000000001'x
        words --push --dial ipc:///tmp/a --data x --count 1 --send-timeout 1
        dials ipc /tmp/b
        link greets_pull
        pace 200 100
        comes send_timed_out
        opened 0",
    );
}

// The first link brings a message and ends, the second brings another. A hundred milliseconds lie between the dials.
#[test]
fn an_address_of_ipc_is_dialed_again(rt: HostRuntime) {
    runs(
        &rt,
        "words --pull --dial ipc:///tmp/a --ascii --count 2
        dials ipc /tmp/a
        link greets_push 010000000000000002'hi end
        link greets_push 010000000000000002'ho
        comes done
        opened 2
        below 100
        above 90
        prints 'hi 0a'ho 0a'
        writes greets_pull
        second greets_pull",
    );
}

#[test]
fn tcp_and_ipc_stand_beside_each_other(rt: HostRuntime) {
    runs(
        &rt,
        "words --pull --listen tcp://127.0.0.1:5555 --listen ipc:///tmp/a --ascii --count 2
        link greets_push 0000000000000002'hi
        listener
        link greets_push 010000000000000002'ho
        comes done
        opened 2
        prints 'hi 0a'ho 0a'
        writes greets_pull
        second greets_pull",
    );
}
