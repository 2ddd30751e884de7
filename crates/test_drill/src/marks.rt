//! The signals between tasks at their gates and a wire, as a text.
//!
//! Marks are counts with names, from 0 on. Each line of the text is a step of a task, which is written as its number,
//! or of the wire. A task makes its steps at its gate, the wire makes its own each time that it is pulled.
//!
//! | step | what is done |
//! |---|---|
//! | `1 add met 1` | 1 is added to the mark |
//! | `3 reach pulled 1` | it polls the mark until it is 1 or more |
//! | `1 meet last 1` | it polls the mark until it is exactly 1 |
//! | `wire below pulled 1` | the mark is less than 1 |
//!
//! A step that fails, or needs more than `LOOKS` polls, is the last one that is made.
ghost use Rattle.std.specs.Prelude.{◌≡◌};

use crate::words::range_of;
use cat_drill::Gate;
use sp_msg::{Message, Room, Wire, WireFlush, WireIn};
use std::alloc::Global;
use std::process::Abort;
use std::sync::Wait;
use std::sync::atomic::{AtomicU64, Ordering};
use std::thread;

/// The greatest number of polls of a mark.
const LOOKS: u32 = 1_000_000;

/// The number of the wire. Those of tasks begin with 1.
const WIRE: u32 = 0;

#[derive(Clone, Copy)]
enum MarkAct {
    Add,
    Reach,
    Meet,
    Below,
}

#[derive(Clone, Copy)]
struct Step {
    who: u32,
    act: MarkAct,
    mark: usize,
    count: u64,
}

/// Marks, and the steps of the tasks and the wire.
#[derive(Drop)]
pub struct NamedMarks {
    counts: Vec<AtomicU64>,
    steps: Vec<Step>,
}

fn who_of(word: &str) -> Option<u32> {
    match word {
        "wire" => Some(WIRE),
        "1" => Some(1),
        "2" => Some(2),
        "3" => Some(3),
        "4" => Some(4),
        _ => None,
    }
}

fn act_of(word: &str) -> Option<MarkAct> {
    match word {
        "add" => Some(MarkAct::Add),
        "reach" => Some(MarkAct::Reach),
        "meet" => Some(MarkAct::Meet),
        "below" => Some(MarkAct::Below),
        _ => None,
    }
}

// The place of the name among `names`.
fn place_of(names: &str, name: &str) -> Option<usize> {
    for (at, one) in names.split(' ').enumerate() {
        if one == name {
            return Some(at);
        }
    }
    None
}

fn step_of(names: &str, line: &str) -> Option<Step> {
    let (who, rest) = line.split_once(' ')?;
    let (act, rest) = rest.split_once(' ')?;
    let (mark, count) = rest.split_once(' ')?;
    Some(Step {
        who: who_of(who)?,
        act: act_of(act)?,
        mark: place_of(names, mark)?,
        count: count.parse::<u64>().ok()?,
    })
}

fn steps_of(alloc: Global, names: &str, text: &str) -> Option<Vec<Step>> {
    let mut steps = Vec::new(alloc);
    for line in text.lines() {
        let line = line.trim();
        if !line.is_empty() {
            steps.push(step_of(names, line)?).ok()?;
        }
    }
    Some(steps)
}

// As many marks as names, none of which is set.
fn unmarked(alloc: Global, names: &str) -> Option<Vec<AtomicU64>> {
    let mut counts = Vec::new(alloc);
    for _ in names.split(' ') {
        counts.push(AtomicU64::new(0)).ok()?;
    }
    Some(counts)
}

/// Marks of these names, and the steps of the text.
pub fn marks_of<R: AllocGlobal + Abort>(rt: &R, names: &str, text: &str) -> NamedMarks {
    match (
        unmarked(rt.alloc(), names),
        steps_of(rt.alloc(), names, text),
    ) {
        (Some(counts), Some(steps)) => NamedMarks { counts, steps },
        _ => panic!(rt; "a step that is none"),
    }
}

// Polls the mark until it is `count`, or more where it needn't be exact, yielding between two polls. Returns whether it
// was.
fn comes_to(mark: &AtomicU64, count: u64, exact: bool) -> bool {
    for _ in 0..LOOKS {
        let now = mark.load(Ordering::SeqCst);
        if now == count || (!exact && now > count) {
            return true;
        }
        thread::yield_now();
    }
    false
}

impl NamedMarks {
    // Makes the step, and returns whether it succeeded.
    fn is_made(&self, step: Step) -> bool {
        let Some(mark) = self.counts.get(step.mark) else {
            return false;
        };
        match step.act {
            MarkAct::Add => {
                mark.fetch_add(step.count, Ordering::SeqCst);
                true
            }
            MarkAct::Reach => comes_to(mark, step.count, false),
            MarkAct::Meet => comes_to(mark, step.count, true),
            MarkAct::Below => mark.load(Ordering::SeqCst) < step.count,
        }
    }

    // Makes the steps of the task with this number, or of the wire.
    fn come_by(&self, who: u32) {
        for step in self.steps.iter() {
            if step.who == who && !self.is_made(*step) {
                return;
            }
        }
    }

    /// Returns whether the marks are as the words say, one word for each.
    pub fn are(&self, words: &str) -> bool {
        let mut words = words.split(' ');
        for mark in self.counts.iter() {
            let Some(word) = words.next() else {
                return false;
            };
            match range_of(word) {
                None => return false,
                Some(range) => {
                    if !range.has(mark.load(Ordering::SeqCst)) {
                        return false;
                    }
                }
            }
        }
        words.next().is_none()
    }
}

impl Gate for NamedMarks {
    fn pass(&self, task: u32) {
        self.come_by(task)
    }
}

/// A wire that makes its steps before it is pulled.
#[derive(Drop)]
pub struct MarkedWire<'a, W: Wire + Drop> {
    wire: W,
    marks: &'a NamedMarks,
}

/// The wire, with its steps among these marks.
pub fn held<'a, W: Wire + Drop>(wire: W, marks: &'a NamedMarks) -> MarkedWire<'a, W>
    ensures { result.wire ≡ wire }
{
    MarkedWire { wire, marks }
}

impl<'a, W: Wire + Drop> Wire for MarkedWire<'a, W> {
    ghost shown = { λ w. W.shown w.wire };

    fn pull<R: Wait>(&mut self, rt: &R) -> WireIn {
        self.marks.come_by(WIRE);
        self.wire.pull(rt)
    }

    fn room<R: Wait>(&mut self, rt: &R) -> Room {
        self.wire.room(rt)
    }

    fn put<R: Wait>(&mut self, rt: &R, m: Message) {
        self.wire.put(rt, m)
    }

    fn flush<R: Wait>(&mut self, rt: &R) -> WireFlush {
        self.wire.flush(rt)
    }

    fn taken(&self) -> u64 {
        self.wire.taken()
    }

    fn shut(&mut self) {
        self.wire.shut()
    }
}
