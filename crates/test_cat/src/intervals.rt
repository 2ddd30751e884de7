//! What `--interval` does to a run.
use crate::lines::runs;

// Without a count an interval leaves no bound, so the run goes on until the pace ends, here after three turns. A
// greeting has 8 bytes on a wire, and a message of one byte has 9. More than 1,000 messages are sent; a round has up to
// 64 sweeps of up to 64 steps.
#[test]
fn a_push_with_interval_0_sends_again_and_again(rt: HostRuntime) {
    runs(
        &rt,
        "words --push --listen tcp://127.0.0.1:5555 --data x --interval 0
        link greets_pull
        pace 3 1
        comes over
        left 0
        longer 9008
        shorter 110601
        tail 0000000000000001'x
        comes over
        left 0",
    );
}

// 95 turns of 100 milliseconds: one message at once, and one every two seconds. Five messages and a greeting are 53
// bytes.
#[test]
fn a_push_sends_at_its_interval(rt: HostRuntime) {
    runs(
        &rt,
        "words --push --listen tcp://127.0.0.1:5555 --data x --interval 2
        link greets_pull
        pace 95 100
        comes over
        length 53",
    );
}

// The count ends a run that has an interval. Three messages and a greeting are 35 bytes.
#[test]
fn a_count_ends_a_run_with_an_interval(rt: HostRuntime) {
    runs(
        &rt,
        "words --push --listen tcp://127.0.0.1:5555 --data x --interval 0 --count 3
        link greets_pull
        comes done
        above 0
        below 200
        length 35",
    );
}
