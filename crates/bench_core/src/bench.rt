//! Plays a text on a core.
use crate::calls::{Call, calls_of};
use crate::makers::{Made, Scripted, driver_of};
use crate::scripts::{Gives, gives_of, script};
use bench_base::line::Line;
use bench_base::timing::{Watch, report};
use sp_base::{Ctx, OpName, Tick};
use sp_core::Outcome;
use sp_msg::{Message, Wire};
use sp_proto::Proto;
use std::alloc::Global;
use std::io::{Eprint, Print};
use std::sync::Wait;
use std::time::Clock;
use test_core_driver::Driver;

// No text names more receives: the list doesn't grow while calls are measured.
const NAMES: usize = 8_192;

/// A core whose rows are measured. It must be spent: `end` ends it.
struct CoreBench<P: Proto, W: Wire> {
    driver: Driver<P, W>,
    size: u32,
    /// The receives that began, in order.
    names: Vec<OpName>,
    /// How many operations were due at the last tick.
    due: usize,
    watch: Watch,
}

impl<P: Proto, W: Wire> CoreBench<P, W> {
    fn new(driver: Driver<P, W>, names: Vec<OpName>, size: u32) -> CoreBench<P, W> {
        CoreBench {
            driver,
            size,
            names,
            due: 0,
            watch: Watch::new(),
        }
    }

    // Begins a receive.
    fn receive<R: Wait>(&mut self, rt: &R, c: u32, deadline: Option<Tick>) {
        if let Ok(op) = self.driver.begin_recv(rt, Ctx(c), deadline) {
            let _ = self.names.push(op);
        }
    }

    // Begins a send, if there is memory for its message.
    fn send<R: AllocGlobal + Wait>(&mut self, rt: &R, c: u32) {
        if let Ok(m) = Message::from_body(rt.alloc(), b"x") {
            let _ = self.driver.begin_send(rt, Ctx(c), m, None);
        }
    }

    // Begins the send of a raw request, whose id is in its header.
    fn send_raw<R: AllocGlobal + Wait>(&mut self, rt: &R, c: u32) {
        if let Ok(mut m) = Message::from_body(rt.alloc(), b"x") {
            let _ = m.header_append_u32(2_147_483_648);
            let _ = self.driver.begin_send(rt, Ctx(c), m, None);
        }
    }

    // Collects the operation that began first, and sends its message on.
    fn pass_on<R: Wait>(&mut self, rt: &R, c: u32) {
        if let Some(Outcome::Received(m)) = self.driver.collect_first(rt) {
            let _ = self.driver.begin_send(rt, Ctx(c), m, None);
        }
    }

    // Moves the core's time to this tick.
    fn tick<R: AllocGlobal + Wait>(&mut self, rt: &R, now: u32) {
        self.due = match self.driver.tick(rt, rt.alloc(), Tick(u64::from(now))) {
            Ok(due) => due.as_slice().len(),
            Err(_) => 0,
        };
    }

    // Cancels the receive before which `before` others began.
    fn cancel(&mut self, before: u32) {
        if let Some(op) = self.names.get(before as usize) {
            let _ = self.driver.cancel(*op);
        }
    }

    // Lets that receive time out, if more than `before` were due: those that began first have the first deadlines.
    fn expire(&mut self, before: u32) {
        if before as usize >= self.due {
            return;
        }
        if let Some(op) = self.names.get(before as usize) {
            let _ = self.driver.expire(*op);
        }
    }
}

impl<P: Proto, W: Scripted> CoreBench<P, W> {
    // Makes a call that has a number, after `times` repetitions.
    fn make<R: AllocGlobal + Clock + Wait>(&mut self, rt: &R, call: Call, times: u32) {
        match call {
            Call::Shut(c) => {
                let _ = self.driver.close_ctx(rt, Ctx(c.after(times)));
            }
            Call::Send(c) => self.send(rt, c.after(times)),
            Call::SendRaw(c) => self.send_raw(rt, c.after(times)),
            Call::Receive(c) => self.receive(rt, c.after(times), None),
            Call::ReceiveBy(c, tick) => {
                let deadline = Some(Tick(u64::from(tick.after(times))));
                self.receive(rt, c.after(times), deadline)
            }
            Call::ReceiveNow(c) => {
                let _ = self.driver.try_recv(rt, Ctx(c.after(times)));
            }
            Call::PassOn(c) => self.pass_on(rt, c.after(times)),
            Call::Cancel(op) => self.cancel(op.after(times)),
            Call::Expire(op) => self.expire(op.after(times)),
            Call::ServeBusy(most) => {
                let _ = self.driver.serve_busy(rt, most.after(times));
            }
            Call::Tick(now) => self.tick(rt, now.after(times)),
            _ => self.make_alone(rt, call),
        }
    }

    // Makes a call that has no number.
    fn make_alone<R: Clock + Wait>(&mut self, rt: &R, call: Call) {
        match call {
            Call::Open => {
                let _ = self.driver.open_ctx(rt);
            }
            Call::CollectFirst => {
                let _ = self.driver.collect_first(rt);
            }
            Call::CollectLast => {
                let _ = self.driver.collect(rt);
            }
            Call::Forget => self.names.clear(),
            Call::Serve => {
                let _ = self.driver.serve(rt);
            }
            Call::TakeEnded => {
                let _ = self.driver.take_ended(rt);
            }
            Call::Close => {
                let _ = self.driver.close(rt);
            }
            Call::Switch => self.watch.switch(rt),
            _ => (),
        }
    }

    // Makes each of these calls, after `times` repetitions.
    fn make_each<R: AllocGlobal + Clock + Wait>(&mut self, rt: &R, calls: &[Call], times: u32) {
        for call in calls {
            self.make(rt, *call, times);
        }
    }

    // Makes these calls `count` times. Their time is added to what was timed.
    fn repeat<R: AllocGlobal + Clock + Wait>(&mut self, rt: &R, count: u32, calls: &str) -> bool {
        let Some(calls) = calls_of(rt.alloc(), self.size, calls) else {
            return false;
        };
        self.watch.go_on(rt);
        for times in 0..count {
            self.make_each(rt, &calls, times);
        }
        self.watch.end(rt);
        true
    }

    // Attaches one more pipe, after `before` others, if there is memory for it. Its wire takes `room` messages.
    fn attach<R: AllocGlobal + Wait>(&mut self, rt: &R, room: u32, gives: Gives, before: u32) {
        if let Ok(script) = script(rt.alloc(), gives, before) {
            let wire = W::scripted(rt.alloc(), script, u64::from(room));
            let _ = self.driver.attach(rt, wire, 0, u32::MAX);
        }
    }

    // Attaches as many pipes as the line says.
    fn attach_all<R: AllocGlobal + Clock + Wait>(&mut self, rt: &R, line: &mut Line<'_>) -> bool {
        let count = line.count();
        let room = line.count();
        let Some(gives) = gives_of(line) else {
            return false;
        };
        self.watch.clear();
        self.watch.go_on(rt);
        for before in 0..count {
            self.attach(rt, room, gives, before);
        }
        self.watch.end(rt);
        true
    }

    // Writes the cost of a unit, of as many as the line says, which took `nanos` together.
    fn say<R: Eprint>(&self, rt: &R, nanos: u128, line: &mut Line<'_>) -> bool {
        let units = line.count();
        report(rt, line.rest(), self.size, nanos, units);
        true
    }

    // Plays a line of calls. Returns whether it is one.
    fn repeats<R: AllocGlobal + Clock + Wait>(
        &mut self,
        rt: &R,
        name: &str,
        line: &mut Line<'_>,
    ) -> bool {
        let count = match name {
            "once" | "and_once" => 1,
            "repeat" | "and_repeat" => line.count(),
            _ => return false,
        };
        if matches!(name, "once" | "repeat") {
            self.watch.clear();
        }
        self.repeat(rt, count, line.rest())
    }

    // Plays a line. Returns whether it is one.
    fn is_right<R: AllocGlobal + Clock + Eprint + Wait>(&mut self, rt: &R, text: &str) -> bool {
        let mut line = Line::new(self.size, text);
        let is_right = match line.word() {
            "" => true,
            "pipes" => self.attach_all(rt, &mut line),
            "row" => self.say(rt, self.watch.nanos(), &mut line),
            "row_apart" => self.say(rt, self.watch.others(), &mut line),
            name => self.repeats(rt, name, &mut line),
        };
        is_right && line.is_read()
    }

    // Plays these lines, up to the first wrong one, which it reports.
    fn play<R: AllocGlobal + Clock + Eprint + Wait>(&mut self, rt: &R, lines: &str) -> bool {
        for text in lines.lines() {
            if !self.is_right(rt, text) {
                let _ = eprintln!(rt; "no line of a play: {text}");
                return false;
            }
        }
        true
    }
}

// Closes the core, prints what it counted, collects the open operations, and ends it.
fn end<P: Proto, W: Scripted, R: AllocGlobal + Print + Wait>(
    rt: &R,
    name: &str,
    bench: CoreBench<P, W>,
) {
    let CoreBench {
        driver,
        size,
        names: _,
        due: _,
        watch: _,
    } = bench;
    let mut driver = driver;
    let t = driver.close(rt);
    let _ = println!(rt;
        "{name} at {size}: {} begun, {} won, {} gone, {} came, {} out, {} full",
        t.begun, t.won, t.gone, t.frames, t.outs, t.fulls
    );
    let _ = driver.finish(rt, rt.alloc());
}

fn is_raw(word: &str) -> Option<bool> {
    match word {
        "raw" => Some(true),
        "cooked" => Some(false),
        _ => None,
    }
}

// Plays a text at this size: the line that tells the core, and the lines of calls.
fn play_at<P: Made, W: Scripted, R: AllocGlobal + Clock + Eprint + Print + Wait>(
    rt: &R,
    size: u32,
    text: &str,
) -> bool {
    let Some((core, lines)) = text.split_once('\n') else {
        return false;
    };
    let mut core = Line::new(size, core);
    let Some(raw) = is_raw(core.word()) else {
        return false;
    };
    let Ok(names) = Vec::with_capacity(rt.alloc(), NAMES) else {
        return false;
    };
    let Ok(driver) = driver_of::<P, W>(rt.alloc(), raw, core.count()) else {
        return false;
    };
    let mut bench = CoreBench::new(driver, names, size);
    let is_right = bench.play(rt, lines);
    end(rt, core.rest(), bench);
    is_right
}

// Plays a text at each of the sizes in its first line.
fn play_at_each<P: Made, W: Scripted, R: AllocGlobal + Clock + Eprint + Print + Wait>(
    rt: &R,
    text: &str,
) -> bool {
    let Some((sizes, text)) = text.split_once('\n') else {
        return text.is_empty();
    };
    for word in sizes.trim().split(' ') {
        let Ok(size) = word.parse::<u32>() else {
            return false;
        };
        if !play_at::<P, W, R>(rt, size, text) {
            return false;
        }
    }
    true
}

/// Plays each of these texts. Returns whether there was memory for their cores, and every line was right.
pub fn play_all<P: Made, W: Scripted, R: AllocGlobal + Clock + Eprint + Print + Wait>(
    rt: &R,
    texts: &str,
) -> bool {
    for text in texts.split('#') {
        if !play_at_each::<P, W, R>(rt, text) {
            return false;
        }
    }
    true
}
