//! Bursts: as many frames at once as the pending receives take and the queue holds. A queue holds only what no receive
//! waits for, so none of them is discarded.
use crate::roles::{
    bus_plays, pair_plays, pull_plays, rep_plays, req_plays, respondent_plays, sub_plays,
    surveyor_plays_with,
};
use sp_base::Role;
use sp_history::setting::Options;

// Those of the role, with a queue of this length.
fn with_queue(role: Role, queue: u32) -> Options {
    let mut options = Options::usual(role, 0);
    options.queue = queue;
    options
}

#[test]
fn a_bus_keeps_only_what_no_receive_waits_for(rt: HostRuntime) {
    let calls = "
        receive 0
        receive 0
        joins 0 0 1 'a 'b 'c
        joins 1 0 2 'd 'e
        serve
        received ' 'b
        received ' 'a
        now 0 ' 'c
        now 0 ' 'd
        // One more than the queue holds is discarded.
        not_now 0 8
        close 4 4 0 5 0 0
    ";
    let wires = "
        put 1
        put 2
    ";
    bus_plays(&rt, with_queue(Role::Bus, 2), false, calls, wires);
}

#[test]
fn a_bus_takes_sixteen_frames_and_two_receives(rt: HostRuntime) {
    let calls = "
        receive 0
        receive 0
        joins 0 0 1 '1 '2 '3 '4 '5 '6 '7 '8 '9 '10 '11 '12 '13 '14 '15 '16 '17 '18
        serve
        received ' '2
        received ' '1
        now 0 ' '3
        now 0 ' '4
        now 0 ' '5
        now 0 ' '6
        now 0 ' '7
        now 0 ' '8
        now 0 ' '9
        now 0 ' '10
        now 0 ' '11
        now 0 ' '12
        now 0 ' '13
        now 0 ' '14
        now 0 ' '15
        now 0 ' '16
        now 0 ' '17
        now 0 ' '18
        not_now 0 8
        close 18 18 0 18 0 0
    ";
    bus_plays(&rt, with_queue(Role::Bus, 16), false, calls, "put 1");
}

#[test]
fn a_cancelled_receive_takes_no_frame_of_a_burst(rt: HostRuntime) {
    let calls = "
        receive 0
        receive 0
        cancel 0 won
        joins 0 0 1 'a 'b
        serve
        received ' 'a
        gone cancelled 1
        now 0 ' 'b
        not_now 0 8
        close 3 2 1 2 0 0
    ";
    bus_plays(&rt, with_queue(Role::Bus, 1), false, calls, "put 1");
}

#[test]
fn a_sub_keeps_only_what_no_receive_waits_for(rt: HostRuntime) {
    let calls = "
        opens 1
        subscribes 0 ' 0
        subscribes 1 ' 0
        receive 0
        receive 0
        joins 0 0 1 'a 'b 'c 'd
        serve
        received ' 'b
        received ' 'a
        now 0 ' 'c
        now 0 ' 'd
        not_now 0 8
        // No receive of the other context waited, so it has the last two.
        now 1 ' 'c
        now 1 ' 'd
        not_now 1 8
        close 6 6 0 4 0 0
    ";
    sub_plays(&rt, with_queue(Role::Sub, 2), false, calls, "put 1");
}

#[test]
fn a_raw_sub_keeps_only_what_no_receive_waits_for(rt: HostRuntime) {
    let calls = "
        receive 0
        receive 0
        receive 0
        joins 0 0 1 'a 'b 'c 'd
        serve
        received ' 'c
        received ' 'b
        received ' 'a
        now 0 ' 'd
        not_now 0 8
        close 4 4 0 4 0 0
    ";
    sub_plays(&rt, with_queue(Role::Sub, 1), true, calls, "put 1");
}

#[test]
fn a_survey_keeps_only_what_no_receive_waits_for(rt: HostRuntime) {
    let calls = "
        joins 0 8 1 80000000'a 80000000'b
        joins 1 8 2 80000000'c 80000000'd
        send 0 ' 's
        sent
        receive 0
        receive 0
        serve
        received ' 'b
        received ' 'a
        now 0 ' 'c
        now 0 ' 'd
        not_now 0 8
        close 5 5 0 4 2 0
    ";
    let wires = "
        put 1 80000000's
        put 2 80000000's
    ";
    let mut options = Options::usual(Role::Surveyor, 0);
    options.queue = 2;
    surveyor_plays_with(&rt, options, false, calls, wires);
}

#[test]
fn a_pull_pulls_while_receives_wait(rt: HostRuntime) {
    let calls = "
        receive 0
        receive 0
        joins 0 0 1 'a 'b 'c 'd
        joins 1 0 2 'x 'y
        serve
        received ' 'b
        received ' 'a
        // Of each pipe one message is kept.
        now 0 ' 'c
        now 0 ' 'x
        not_now 0 8
        serve
        now 0 ' 'd
        now 0 ' 'y
        close 6 6 0 6 0 0
    ";
    let wires = "
        put 1
        put 2
    ";
    pull_plays(&rt, false, 16, calls, wires);
}

#[test]
fn a_pair_pulls_while_receives_wait(rt: HostRuntime) {
    let calls = "
        receive 0
        receive 0
        joins 0 0 1 'a 'b 'c 'd
        serve
        received ' 'b
        received ' 'a
        now 0 ' 'c
        not_now 0 8
        serve
        now 0 ' 'd
        close 4 4 0 4 0 0
    ";
    pair_plays(&rt, false, calls, "put 1");
}

#[test]
fn a_rep_pulls_while_contexts_wait(rt: HostRuntime) {
    let calls = "
        opens 1
        receive 0
        receive 1
        joins 0 8 1 80000001'a 80000002'b 80000003'c 80000004'd
        serve
        received ' 'b
        received ' 'a
        send 1 ' 'y
        sent
        send 0 ' 'x
        sent
        receive 0
        received ' 'c
        not_now 1 8
        close 5 5 0 3 2 0
    ";
    let wires = "put 1 80000002'y 80000001'x";
    rep_plays(&rt, false, calls, wires);
    respondent_plays(&rt, false, calls, wires);
}

#[test]
fn a_raw_rep_pulls_while_receives_wait(rt: HostRuntime) {
    let calls = "
        receive 0
        receive 0
        joins 0 0 1 80000001'a 80000002'b 80000003'c 80000004'd
        serve
        received 0000000180000002' 'b
        received 0000000180000001' 'a
        now 0 0000000180000003' 'c
        not_now 0 8
        close 3 3 0 3 0 0
    ";
    rep_plays(&rt, true, calls, "put 1");
    respondent_plays(&rt, true, calls, "put 1");
}

#[test]
fn a_raw_req_pulls_while_receives_wait(rt: HostRuntime) {
    let calls = "
        receive 0
        receive 0
        joins 0 0 1 80000001'a 80000002'b 80000003'c 80000004'd
        serve
        received 80000002' 'b
        received 80000001' 'a
        now 0 80000003' 'c
        not_now 0 8
        close 3 3 0 3 0 0
    ";
    req_plays(&rt, true, 0, calls, "put 1");
}
