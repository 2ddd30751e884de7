//! What drills print, and that their tasks go through their gates and meet there.
ghost use Rattle.std.specs.Prelude.{◌≤◌};

use crate::checks::{is_so, made};
use crate::marks::marks_of;
use cat_drill::{Gate, OpenGate, drill};
use cat_play::status::Status;
use sp_fakes::MemSink;
use std::process::Abort;
use std::sync::Wait;
use std::thread::Threads;

// Returns whether a drill of `count` messages prints this. Where the first put of its sink fails, it is a fault of the
// output, and no more than this is printed.
fn prints<R: AllocGlobal + Abort + Wait + Threads + Sync, G: Gate + Sync>(
    rt: &R,
    gate: &G,
    count: u32,
    fails: bool,
    text: &str,
) -> bool
    requires { (1 ≤ count) × (count ≤ 1000000) }
{
    let mut calls = Vec::new(rt.alloc());
    if fails {
        made(rt, calls.push(0));
    }
    let mut out = MemSink::new(rt.alloc(), calls);
    let end = drill(rt, count, gate, &mut out);
    let status = end.status;
    let printed = if fails {
        status == Status::OutFault && text.as_bytes().starts_with(out.text())
    } else {
        status == Status::Done && out.text() == text.as_bytes()
    };
    printed && end.record_.is_some()
}

// Checks that a drill of `count` messages whose gates are open prints this.
fn is_drilled<R: AllocGlobal + Abort + Wait + Threads + Sync>(rt: &R, count: u32, text: &str)
    requires { (1 ≤ count) × (count ≤ 1000000) }
{
    is_so(rt, prints(rt, &OpenGate, count, false, text), text);
}

// Checks the same of a drill whose tasks make these steps, and that the marks reach these counts.
fn is_gated<R: AllocGlobal + Abort + Wait + Threads + Sync>(
    rt: &R,
    names: &str,
    steps: &str,
    count: u32,
    text: &str,
    counts: &str,
)
    requires { (1 ≤ count) × (count ≤ 1000000) }
{
    let marks = marks_of(rt, names, steps);
    is_so(rt, prints(rt, &marks, count, false, text), text);
    is_so(rt, marks.are(counts), counts);
}

#[test]
fn one_value_drilled(rt: HostRuntime) {
    is_drilled(&rt, 1, "given 1\nsum 1442695040888963407\nopen 0\n");
}

#[test]
fn two_values_drilled(rt: HostRuntime) {
    is_drilled(&rt, 2, "given 2\nsum 3318706044697439873\nopen 0\n");
}

#[test]
fn a_thousand_values_drilled_twice(rt: HostRuntime) {
    let text = "given 1000\nsum 14181103648077852572\nopen 0\n";
    is_drilled(&rt, 1_000, text);
    is_drilled(&rt, 1_000, text);
}

// A sink that fails at its first put.
#[test]
fn a_sink_that_fails(rt: HostRuntime) {
    let text = "given 2\nsum 3318706044697439873\nopen 0\n";
    is_so(&rt, prints(&rt, &OpenGate, 2, true, text), text);
}

// 130 messages go in rounds of 64, 64 and 2.
#[test]
fn each_task_passes_its_gate_once_a_round(rt: HostRuntime) {
    let steps = "
        1 add one 1
        2 add two 1
        3 add three 1
        4 add four 1
    ";
    let text = "given 130\nsum 7217736577016058945\nopen 0\n";
    is_gated(&rt, "one two three four", steps, 130, text, "3 3 3 3");
}

// In one round the first and the last task run at the same time.
#[test]
fn held_drill(rt: HostRuntime) {
    let steps = "
        1 add first 1
        1 meet last 1
        1 add met 1
        4 add last 1
        4 meet first 1
        4 add met 1
    ";
    let text = "given 64\nsum 16369505803417403232\nopen 0\n";
    is_gated(&rt, "first last met", steps, 64, text, "1 1 2");
}

// In one round all four tasks run at the same time.
#[test]
fn all_four_tasks_meet(rt: HostRuntime) {
    let steps = "
        1 add there 1
        1 meet there 4
        1 add met 1
        2 add there 1
        2 meet there 4
        2 add met 1
        3 add there 1
        3 meet there 4
        3 add met 1
        4 add there 1
        4 meet there 4
        4 add met 1
    ";
    let text = "given 64\nsum 16369505803417403232\nopen 0\n";
    is_gated(&rt, "there met", steps, 64, text, "4 4");
}
