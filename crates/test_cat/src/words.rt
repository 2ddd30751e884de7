//! Options of the words, beyond the first plays: files that fail, times of nothing, data.
use crate::checks::{made, same};
use crate::lines::runs;
use cat_fakes::{TURNS, words};
use cat_run::{Status, exit_code, run};
use sp_base::Bytes;
use sp_fakes::{MemFiles, MemNet, MemPace, MemSink};
use std::process::Abort;
use std::sync::Wait;
use std::thread::Threads;

const A: &str = "tcp://127.0.0.1:5555";

// The end of a push of the file `f` over files that hold one of this name, where these of their calls fail: the status,
// whether it has a record, how many links were handed out, and how many turns are left.
fn sending<R: AllocGlobal + Wait + Threads + Sync + Abort>(
    rt: &R,
    held: &str,
    fails: Vec<u64>,
) -> (Status, bool, u32, u64) {
    let alloc = rt.alloc();
    let list = made(rt, words(alloc, &["--push", "--listen", A, "--file", "f"]));
    let mut pairs = Vec::new(alloc);
    made(
        rt,
        pairs.push((
            made(rt, String::from_str(alloc, held)),
            made(rt, Bytes::from_slice(alloc, b"hi")),
        )),
    );
    let mut files = MemFiles::new(alloc, pairs, fails);
    let mut net = made(
        rt,
        MemNet::new(alloc, Vec::new(alloc), Vec::new(alloc), Vec::new(alloc)),
    );
    let mut pace = MemPace::new(TURNS, 1);
    let mut out = MemSink::new(alloc, Vec::new(alloc));
    let end = run(rt, &list, &mut net, &mut files, &mut pace, &mut out, 0);
    (end.status, end.record_.is_some(), net.opened(), pace.left())
}

#[test]
fn a_file_that_fails_or_is_missing_ends_the_run(rt: HostRuntime) {
    let failed = sending(&rt, "f", made(&rt, vec![in rt.alloc(); 0]));
    same(&rt, failed, (Status::FileFault, false, 0, TURNS));
    let missing = sending(&rt, "g", Vec::new(rt.alloc()));
    same(&rt, missing, (Status::FileFault, false, 0, TURNS));
    same(&rt, exit_code(Status::FileFault), 6);
}

#[test]
fn a_time_of_0_runs_out_at_once(rt: HostRuntime) {
    runs(
        &rt,
        "words --pull --listen tcp://127.0.0.1:5555 --ascii --recv-timeout 0
        comes done
        prints '
        words --push --listen tcp://127.0.0.1:5555 --data x --send-timeout 0
        comes send_timed_out
        exit 2",
    );
}

#[test]
fn a_counted_run_whose_time_is_0_has_its_status(rt: HostRuntime) {
    runs(
        &rt,
        "words --pull --listen tcp://127.0.0.1:5555 --ascii --count 1 --recv-timeout 0
        comes done
        exit 0
        prints '
        words --push --listen tcp://127.0.0.1:5555 --data x --count 1 --send-timeout 0
        comes send_timed_out
        exit 2",
    );
}

#[test]
fn a_pair_with_data_sends_and_prints_nothing(rt: HostRuntime) {
    runs(
        &rt,
        "words --pair --listen tcp://127.0.0.1:5555 --data hi --ascii
        link greets_pair 0000000000000002'no
        comes done
        prints '
        writes greets_pair 0000000000000002'hi",
    );
}

#[test]
fn a_rep_without_data_counts_what_it_receives(rt: HostRuntime) {
    runs(
        &rt,
        "words --rep --listen tcp://127.0.0.1:5555 --ascii --count 2
        link greets_req 000000000000000580000001'a 000000000000000580000002'b
        comes done
        prints 'a 0a'b 0a'
        writes greets_rep",
    );
}

// A requester asks `a`, and `c` once its first reply was written; another one asks `b`.
#[test]
fn replies_go_back_on_their_links(rt: HostRuntime) {
    runs(
        &rt,
        "words --rep --listen tcp://127.0.0.1:5555 --data OK --ascii --count 3
        link greets_req 000000000000000580000001'a after:22 000000000000000580000002'c
        link greets_req 000000000000000580000007'b
        comes done
        prints_one 'a 0a'b 0a'c 0a' | 'a 0a'c 0a'b 0a' | 'b 0a'a 0a'c 0a'
        writes greets_rep 000000000000000680000001'OK 000000000000000680000002'OK
        second greets_rep 000000000000000680000007'OK",
    );
}
