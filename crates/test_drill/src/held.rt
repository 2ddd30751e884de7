//! A round in which one task comes through its gate while another one serves, unlike a round whose tasks come through
//! their gates together and then work one after another. And a round in which two tasks stay at their gates until the
//! others have served.

use crate::checks::{is_right, is_so, made};
use crate::marks::{held, marks_of};
use crate::plays::wrong_line;
use cat_drill::parts::lanes;
use std::process::Abort;
use std::sync::Wait;
use std::thread::Threads;

// Plays the calls on a socket over the wire of a drill, while its tasks and the wire make these steps, and checks that
// the marks reach these counts.
fn plays<R: AllocGlobal + Abort + Wait + Threads + Sync>(
    rt: &R,
    names: &str,
    steps: &str,
    calls: &str,
    totals: &str,
    counts: &str,
) {
    let (source, drill_wire) = made(rt, lanes(rt.alloc()));
    let marks = marks_of(rt, names, steps);
    let wire = held(drill_wire, &marks);
    is_right(rt, wrong_line(rt, source, wire, &marks, calls, totals));
    is_so(rt, marks.are(counts), counts);
}

#[test]
fn a_task_passes_its_gate_while_another_serves(rt: HostRuntime) {
    let steps = "
        wire below pulled 1
        wire add pulled 1
        wire reach passed 1
        wire add met 1
        1 below pulled 1
        1 add early 1
        2 below pulled 1
        2 add early 1
        3 reach pulled 1
        3 add passed 1
    ";
    let names = "pulled passed met early";
    plays(&rt, names, steps, "at_once 1 0 0", "96 0 0", "1 1 1 1..2");
}

// A task that cancels or ticks before its gate leaves nothing to receive.
#[test]
fn tasks_stay_at_their_gates_while_others_serve(rt: HostRuntime) {
    let steps = "
        wire add pulls 1
        1 reach there 2
        2 reach there 2
        3 add there 1
        3 reach pulls 2
        4 add there 1
        4 reach pulls 2
    ";
    let calls = "
        puts 2 2
        at_once 1 2 2
    ";
    plays(&rt, "there pulls", steps, calls, "96 2 0", "2 2..1000");
}
