//! Sends that go to many pipes: pub and bus. Each send asks each of its pipes for room once.
use crate::roles::{bus_plays, publisher_plays};
use sp_base::Role;
use sp_history::setting::Options;

#[test]
fn a_publisher_skips_a_full_pipe(rt: HostRuntime) {
    let calls = "
        joins 0 8 1 pause
        joins 1 0 2 pause
        send 0 00000007' 'm
        sent
        close 1 1 0 0 1 1
    ";
    let wires = "
        asked 1 1 'm
        asked 2 1
    ";
    publisher_plays(&rt, calls, wires);
}

#[test]
fn a_publisher_without_pipes_drops_what_it_sends(rt: HostRuntime) {
    let calls = "
        send 0 ' 'm
        sent
        no_receive 0 9
        close 1 1 0 0 0 0
    ";
    publisher_plays(&rt, calls, "");
}

#[test]
fn a_frame_above_the_limit_at_a_publisher_closes_its_pipe_alone(rt: HostRuntime) {
    let calls = "
        joins 0 8 1 pause
        joins_within 1 2 8 2 'abc
        serves true 1 0 1
        down 2 malformed
        send 0 ' 'm
        sent
        close 1 1 0 1 1 0
    ";
    publisher_plays(&rt, calls, "asked 1 1 'm");
}

#[test]
fn a_frame_at_a_publisher_closes_its_pipe_alone(rt: HostRuntime) {
    let calls = "
        joins 0 8 1 pause
        joins 1 8 2 'x
        serves true 1 0 1
        down 2 malformed
        // So does an empty one.
        joins 2 8 3 '
        serves true 1 0 1
        down 3 malformed
        send 0 ' 'm
        sent
        close 1 1 0 2 1 0
    ";
    let wires = "asked 1 1 'm";
    publisher_plays(&rt, calls, wires);
}

#[test]
fn a_bus_sends_to_all(rt: HostRuntime) {
    let calls = "
        joins 0 8 1 pause
        joins 1 8 2 pause
        // A header leaves nothing out.
        send 0 00000001' 'm
        sent
        no_context 9
        shuts 0 12
        close 1 1 0 0 2 0
    ";
    let wires = "
        asked 1 1 'm
        asked 2 1 'm
    ";
    bus_plays(&rt, Options::usual(Role::Bus, 0), false, calls, wires);
}

#[test]
fn a_raw_bus_sends_not_back(rt: HostRuntime) {
    let calls = "
        joins 0 8 1 'm
        joins 1 8 2 pause
        serve
        passes_on 0 00000001' 'm
        sent
        send 0 00000009' 'n
        sent
        send 0 ' 'o
        sent
        close 4 4 0 1 5 0
    ";
    let wires = "
        asked 1 2 'n 'o
        asked 2 3 'm 'n 'o
    ";
    bus_plays(&rt, Options::usual(Role::Bus, 0), true, calls, wires);
}

#[test]
fn a_full_bus_discards_the_new_one(rt: HostRuntime) {
    let calls = "
        joins 0 0 1 'a 'b
        serve
        now 0 ' 'a
        not_now 0 8
        close 1 1 0 2 0 0
    ";
    let mut options = Options::usual(Role::Bus, 0);
    options.queue = 1;
    bus_plays(&rt, options, false, calls, "put 1");
}
