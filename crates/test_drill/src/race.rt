//! The first half of a drill's round: what each of its tasks does to the receives, one task after another and all at
//! once.

use crate::checks::{is_right, made};
use crate::plays::wrong_line;
use cat_drill::OpenGate;
use cat_drill::parts::lanes;
use std::process::Abort;
use std::sync::Wait;
use std::thread::Threads;

// Plays the calls on a socket over the wire of a drill.
fn plays<R: AllocGlobal + Abort + Wait + Threads + Sync>(rt: &R, calls: &str, totals: &str) {
    let (source, drill_wire) = made(rt, lanes(rt.alloc()));
    is_right(
        rt,
        wrong_line(rt, source, drill_wire, &OpenGate, calls, totals),
    );
}

// Each task that serves gives one message.
#[test]
fn each_task_does_its_part(rt: HostRuntime) {
    let calls = "
        puts 2 2
        in_turn 1 2 2
    ";
    plays(&rt, calls, "96 2 0");
}

#[test]
fn each_task_does_its_part_at_once(rt: HostRuntime) {
    plays(&rt, "at_once 1 0 0", "96 0 0");
}

// Whatever the schedule, each receive ends.
#[test]
fn each_task_does_its_part_while_messages_come(rt: HostRuntime) {
    let calls = "
        puts 64 64
        at_once 1 0..96 0..64
    ";
    plays(&rt, calls, "96 1..64 0..1");
}

// 64 messages go in one round, 130 in three. The tick of the last round is its number, since a tick before the last one
// counts as that: what is due by then is due, and what is due later waits. In each round 96 receives began, and one
// more for each message that those did not get.
#[test]
fn each_round_begins_and_ends_its_receives(rt: HostRuntime) {
    let calls = "
        rounds 64
        waits 2 0 0
        due 1 0 0
    ";
    plays(&rt, calls, "288..352 64 0");
    let calls = "
        rounds 130
        waits 4 0 0
        due 3 0 0
    ";
    plays(&rt, calls, "480..610 130 0");
    plays(&rt, "waits 1 0 0", "96 0 0");
}

// The first 64 messages fill the lane of a drill.
#[test]
fn the_lane_of_a_drill_holds_64(rt: HostRuntime) {
    let calls = "
        puts 64 64
        puts 65 0
    ";
    plays(&rt, calls, "0 0 0");
}
