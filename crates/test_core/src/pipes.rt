//! Pipes: their numbers, how they go down, and the wires that come back.
ghost use Rattle.std.specs.Prelude.{◌≡◌};
ghost use Rattle.core_state.specs.Wires.{IsUnused};
ghost use Rattle.sp_proto.specs.Kinds.{Kind, Starts};

use crate::checks::{fails, same};
use crate::roles::{driver, driver_plays, plays, pull, pull_plays, push_plays};
use sp_base::SpError;
use sp_core::Core;
use sp_msg::Wire;
use sp_proto::Proto;
use std::process::Abort;
use std::sync::Wait;
use test_core_plays::{Fails, PlayWire, wire};
use turn_lock::Stands;

#[test]
fn a_wire_that_fails_goes_down_alone(rt: HostRuntime) {
    let calls = "
        joins_failing 0 0 1 0 'y
        joins 1 0 2 'x
        receive 0
        serves true 1 0 1
        down 1 failed
        none_down
        received ' 'x
        close 1 1 0 1 0 0
    ";
    pull_plays(&rt, false, 2, calls, "put 2");
}

#[test]
fn a_malformed_wire_goes_down_alone(rt: HostRuntime) {
    let calls = "
        joins 0 0 1 malformed
        joins 1 0 2 'x
        receive 0
        serves true 1 0 1
        down 1 malformed
        none_down
        received ' 'x
        close 1 1 0 1 0 0
    ";
    pull_plays(&rt, false, 2, calls, "put 2");
}

#[test]
fn a_wire_that_ends_goes_down_alone(rt: HostRuntime) {
    let calls = "
        joins 0 0 1 end
        joins 1 0 2 'x
        receive 0
        serves true 1 0 1
        down 1 ended
        none_down
        received ' 'x
        close 1 1 0 1 0 0
    ";
    pull_plays(&rt, false, 2, calls, "put 2");
}

#[test]
fn a_wire_that_failed_is_handed_out_with_what_was_put(rt: HostRuntime) {
    let calls = "
        joins_failing 0 1 1 0 pause
        send 0 00000007' 'x
        sent
        joins 1 0 2 pause
        serves true 1 0 1
        down_with 1 failed 'x
        close 1 1 0 0 1 0
    ";
    push_plays(&rt, false, 1, calls, "put 2");
}

#[test]
fn pipes_are_numbered_from_one(rt: HostRuntime) {
    let calls = "
        met 6
        missed 6 bad
        met 7
        joins 7 0 1 pause
        joins 8 0 2 pause
        joins 9 0 3 pause
        close 0 0 0 0 0 0
        missed 10 refused
    ";
    let wires = "
        put 1
        put 2
        put 3
    ";
    push_plays(&rt, false, 1, calls, wires);
}

#[test]
fn a_quiet_wire_is_asked_once_a_turn(rt: HostRuntime) {
    // Its second pull fails.
    let calls = "
        joins_failing 0 0 1 1 pause
        serves false 0 0 1
        serves true 1 0 0
    ";
    pull_plays(&rt, false, 1, calls, "put 1");
}

#[test]
fn a_close_takes_its_pipes_down(rt: HostRuntime) {
    let calls = "
        joins 0 0 1 'x
        close 0 0 0 0 0 0
        down 1 closed
        none_down
    ";
    pull_plays(&rt, false, 1, calls, "");
}

#[test]
fn a_frame_above_its_pipes_limit_closes_it(rt: HostRuntime) {
    let calls = "
        joins_within 0 2 0 1 'ab 'abc 'd
        serves true 0 0 1
        now 0 ' 'ab
        serves true 1 0 0
        down 1 malformed
        not_now 0 8
        close 1 1 0 2 0 0
    ";
    pull_plays(&rt, false, 1, calls, "");
}

#[test]
fn two_pipes_have_their_own_limits(rt: HostRuntime) {
    let calls = "
        joins_within 0 2 0 1 'abc
        joins_within 1 3 0 2 'abc
        serves true 1 0 1
        down 1 malformed
        now 0 ' 'abc
        close 1 1 0 2 0 0
    ";
    pull_plays(&rt, false, 1, calls, "put 2");
}

#[test]
fn a_limit_of_nothing_lets_empty_messages_pass(rt: HostRuntime) {
    let calls = "
        joins_within 0 0 0 1 ' 'a
        serve
        now 0 ' '
        serve
        down 1 malformed
        close 1 1 0 2 0 0
    ";
    pull_plays(&rt, false, 1, calls, "");
}

// A wire that gives `x`.
fn giving<R: AllocGlobal + Abort>(rt: &R) -> PlayWire
    ensures { IsUnused (⟦<PlayWire as Wire>⟧.shown result) }
{
    match wire(rt.alloc(), 0, "'x", Fails::Nowhere) {
        Some(wire) => wire,
        None => fails(rt),
    }
}

// Closes the first of two cores, and checks that the second takes the wire that came back, which gives its message.
fn takes_what_came_back<P: Proto + Drop, R: AllocGlobal + Wait + Abort>(rt: &R, one: P, other: P)
    requires one { (k : Kind) × Starts P.ties one k }
    requires other { (k : Kind) × Starts P.ties other k }
{
    let mut one = driver(rt, one, 1);
    let mut other = driver(rt, other, 1);
    one.close(rt);
    match one.attach(rt, giving(rt), 0, u32::MAX) {
        Ok(_) => fails(rt),
        Err((e, wire)) => {
            same(rt, SpError::from(e).code(), 7);
            match other.attach(rt, wire, 0, u32::MAX) {
                Ok(pipe) => same(rt, pipe.0, 1),
                Err((_e, _wire)) => fails(rt),
            }
        }
    }
    let calls = "
        receive 0
        serve
        received ' 'x
    ";
    driver_plays(rt, other, calls, "put 1");
    driver_plays(rt, one, "", "");
}

#[test]
fn a_wire_comes_back_after_the_close(rt: HostRuntime) {
    takes_what_came_back(&rt, pull(&rt, false), pull(&rt, true));
}

// A value that could be the state of a turn lock.
fn behind_a_lock<S: Stands>(state: S) -> S
    ensures { result ≡ state }
{
    state
}

// Checks that the machine that an empty core hands back gives a message over another core.
fn comes_back<P: Proto + Drop, R: AllocGlobal + Wait + Abort>(rt: &R, machine: P)
    requires { (k : Kind) × Starts P.ties machine k }
{
    match Core::<P, PlayWire>::new(rt.alloc(), machine, 1, 1) {
        Err((_e, _machine)) => fails(rt),
        Ok((core, _seats)) => {
            let core = behind_a_lock(core);
            let calls = "
                joins 0 0 1 'x
                receive 0
                serve
                received ' 'x
            ";
            plays(rt, core.into_proto(), 2, calls, "put 1");
        }
    }
}

#[test]
fn an_empty_core_hands_its_machine_back(rt: HostRuntime) {
    comes_back(&rt, pull(&rt, false));
}
