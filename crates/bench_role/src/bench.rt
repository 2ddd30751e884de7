//! Plays a text on a machine.
use crate::calls::{MachineCall, calls_of};
use crate::makers::MadeMachine;
use crate::moves::{answer, come, find_lost, idle, receive, send, take, topic, unwanted};
use bench_base::line::Line;
use bench_base::timing::{Watch, report};
use sp_base::{Ctx, NoMemory, PipeId, Tick};
use sp_proto::Proto;
use std::alloc::Global;
use std::io::Eprint;
use std::time::Clock;

/// A body that begins with none of the topics.
const STRANGER: &[u8] = b"tzzzz and more";

// `count` letters `t`.
fn letters(alloc: Global, count: u32) -> Result<Vec<u8>, NoMemory> {
    let mut text = Vec::new(alloc);
    text.resize(count as usize, 116)?;
    Ok(text)
}

// `count` letters `t`, and an `a`.
fn long_topic(alloc: Global, count: u32) -> Result<Vec<u8>, NoMemory> {
    let mut text = letters(alloc, count)?;
    text.push(97)?;
    Ok(text)
}

// Makes a call that may fail, after `times` repetitions. Returns whether it had the wanted result.
fn did<M: Proto>(m: &mut M, alloc: Global, call: MachineCall, times: u32) -> bool {
    match call {
        MachineCall::Up(p) => m.up(PipeId(p.after(times))).is_ok(),
        MachineCall::Open(c) => m.open_ctx(Ctx(c.after(times))).is_ok(),
        MachineCall::PutOn(c, number) => topic(m, c.after(times), number.after(times), true),
        MachineCall::TakeOff(c, number) => topic(m, c.after(times), number.after(times), false),
        MachineCall::Send(slot, c) => send(m, alloc, slot.after(times), c.after(times)),
        MachineCall::Receive(slot, c) => receive(m, slot.after(times), c.after(times)),
        MachineCall::Answer(p, id) => answer(m, alloc, p.after(times), id.after(times)),
        MachineCall::Take(pipes) => take(m, pipes.after(times)),
        MachineCall::Idle(count) => idle(m, count.after(times)),
        MachineCall::Unwanted(pipes) => unwanted(m, pipes.after(times)),
        MachineCall::FindFull => find_lost(m, false),
        MachineCall::FindDown => find_lost(m, true),
        _ => false,
    }
}

/// A machine whose rows are measured.
#[derive(Drop)]
struct MachineBench<M: Proto> {
    machine: M,
    alloc: Global,
    size: u32,
    /// The body of frames that no topic matches.
    stranger: Vec<u8>,
    watch: Watch,
}

impl<M: Proto> MachineBench<M> {
    // Makes the frames that come `count` letters long.
    fn use_letters(&mut self, count: u32) -> bool {
        match letters(self.alloc, count) {
            Ok(text) => {
                self.stranger = text;
                true
            }
            Err(_) => false,
        }
    }

    // Subscribes the first context to one more long topic.
    fn put_letters_on(&mut self, count: u32) -> bool {
        match long_topic(self.alloc, count) {
            Ok(text) => self.machine.topic(Ctx(0), &text, true).is_ok(),
            Err(_) => false,
        }
    }

    // Makes a call, after `times` repetitions. Returns whether it had the wanted result.
    fn make(&mut self, call: MachineCall, times: u32) -> bool {
        match call {
            MachineCall::Fresh => self.machine.fresh(),
            MachineCall::Down(p) => self.machine.down(PipeId(p.after(times))),
            MachineCall::Full(p) => self.machine.full(PipeId(p.after(times))),
            MachineCall::Clock(now) => self.machine.clock(Tick(u64::from(now.after(times)))),
            MachineCall::Shut(c) => self.machine.close_ctx(Ctx(c.after(times))),
            MachineCall::Stranger => return come(&mut self.machine, self.alloc, 1, &self.stranger),
            MachineCall::Hop => return come(&mut self.machine, self.alloc, 1, &[0, 0, 0, 1, 120]),
            MachineCall::PutLettersOn(count) => return self.put_letters_on(count.after(times)),
            MachineCall::Letters(count) => return self.use_letters(count.after(times)),
            _ => return did(&mut self.machine, self.alloc, call, times),
        }
        true
    }

    // Makes each of these calls, after `times` repetitions.
    fn make_each(&mut self, calls: &[MachineCall], times: u32) -> bool {
        for call in calls {
            if !self.make(*call, times) {
                return false;
            }
        }
        true
    }

    // Makes these calls `count` times. Their time is added to what was timed.
    fn repeat<R: Clock>(&mut self, rt: &R, count: u32, calls: &str) -> bool {
        let Some(calls) = calls_of(self.alloc, self.size, calls) else {
            return false;
        };
        self.watch.go_on(rt);
        for times in 0..count {
            if !self.make_each(&calls, times) {
                return false;
            }
        }
        self.watch.end(rt);
        true
    }

    // Writes the cost of a unit, of as many as the line says.
    fn say<R: Eprint>(&self, rt: &R, line: &mut Line<'_>) -> bool {
        let units = line.count();
        report(rt, line.rest(), self.size, self.watch.nanos(), units);
        true
    }

    // Plays a line of calls. Returns whether it is one.
    fn repeats<R: Clock>(&mut self, rt: &R, name: &str, line: &mut Line<'_>) -> bool {
        let count = match name {
            "once" | "and_once" => 1,
            "repeat" | "and_repeat" => line.count(),
            _ => return false,
        };
        if matches!(name, "once" | "repeat") {
            self.watch.clear();
        }
        self.repeat(rt, count, line.rest())
    }

    // Plays a line. Returns whether it is one, and its calls had the wanted results.
    fn is_right<R: Clock + Eprint>(&mut self, rt: &R, text: &str) -> bool {
        let mut line = Line::new(self.size, text);
        let is_right = match line.word() {
            "" => true,
            "row" => self.say(rt, &mut line),
            name => self.repeats(rt, name, &mut line),
        };
        is_right && line.is_read()
    }

    // Plays these lines, up to the first that is not right, which it reports.
    fn play<R: Clock + Eprint>(&mut self, rt: &R, lines: &str) -> bool {
        for text in lines.lines() {
            if !self.is_right(rt, text) {
                let _ = eprintln!(rt; "no line of a play, or refused: {text}");
                return false;
            }
        }
        true
    }
}

// Plays these lines at this size, with queues of this room.
fn play_at<M: MadeMachine, R: AllocGlobal + Clock + Eprint>(
    rt: &R,
    size: u32,
    queue: Option<u32>,
    lines: &str,
) -> bool {
    let alloc = rt.alloc();
    let Ok(machine) = M::made(alloc, queue) else {
        return false;
    };
    let Ok(stranger) = Vec::from_slice(alloc, STRANGER) else {
        return false;
    };
    let mut bench = MachineBench {
        machine,
        alloc,
        size,
        stranger,
        watch: Watch::new(),
    };
    bench.play(rt, lines)
}

// The room of queues, or `None` where it is the usual one.
fn queue_of(word: &str) -> Option<Option<u32>> {
    if word == "usual" {
        return Some(None);
    }
    Some(Some(word.parse::<u32>().ok()?))
}

// Plays a text at each of the sizes in its first line, which follow the room of queues or `usual`.
fn play_at_each<M: MadeMachine, R: AllocGlobal + Clock + Eprint>(rt: &R, text: &str) -> bool {
    let Some((head, lines)) = text.split_once('\n') else {
        return text.is_empty();
    };
    let mut head = Line::new(0, head);
    let Some(queue) = queue_of(head.word()) else {
        return false;
    };
    for word in head.rest().split(' ') {
        let Ok(size) = word.parse::<u32>() else {
            return false;
        };
        if !play_at::<M, R>(rt, size, queue, lines) {
            return false;
        }
    }
    true
}

/// Plays each of these texts. Returns whether all lines were right, and there was memory.
pub fn play_all<M: MadeMachine, R: AllocGlobal + Clock + Eprint>(rt: &R, texts: &str) -> bool {
    for text in texts.split('#') {
        if !play_at_each::<M, R>(rt, text) {
            return false;
        }
    }
    true
}
