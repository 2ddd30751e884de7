//! Plays a text on a core.
use crate::line::{PlayLine, call_of};
use crate::results::{
    down, is_asked, is_back, is_gone, is_message, is_put, is_received, is_sent, message, now_code,
    recv_code, served, shut_code, topic_code, totals,
};
use crate::wires::{Fails, PlayWire, wire};
use crate::words::{is_polled, is_raced, miss_of, now_word};
use sp_base::{Ctx, OpName, PipeId, SpError, Tick};
use sp_core::AttachError;
use sp_msg::Message;
use sp_proto::Proto;
use std::alloc::Global;
use std::sync::Wait;
use test_core_driver::Driver;

// No receive limit.
const NO_LIMIT: u32 = u32::MAX;

/// A core that plays, and the names of the operations that it began. It must be spent: `ends` ends it.
pub struct CorePlay<P: Proto> {
    driver: Driver<P, PlayWire>,
    names: Vec<OpName>,
}

impl<P: Proto> CorePlay<P> {
    /// A play of the core from its beginning on.
    pub fn new(alloc: Global, driver: Driver<P, PlayWire>) -> CorePlay<P> {
        CorePlay {
            driver,
            names: Vec::new(alloc),
        }
    }

    /// Goes on with the calls of this text. Returns the number (from 1 on) of the first line that is wrong or whose
    /// call returns something else.
    pub fn wrong_line<R: Wait>(&mut self, rt: &R, alloc: Global, calls: &str) -> Option<usize> {
        for (at, line) in calls.lines().enumerate() {
            if let Some(call) = call_of(line)
                && !self.is_right(rt, alloc, call)
            {
                return Some(at.saturating_add(1));
            }
        }
        None
    }

    /// Attaches a wire that gives this, which is refused at the first place for this cause. After these calls it
    /// becomes this pipe at the second place.
    pub fn comes_again<R: Wait>(
        &mut self,
        rt: &R,
        alloc: Global,
        gives: &str,
        places: [u32; 2],
        why: AttachError,
        calls: &str,
        pipe: u32,
    ) -> bool {
        let Some(wire) = wire(alloc, 0, gives, Fails::Nowhere) else {
            return false;
        };
        match self.driver.attach(rt, wire, places[0], NO_LIMIT) {
            Ok(_) => false,
            Err((e, wire)) => {
                let is_right = e == why && self.wrong_line(rt, alloc, calls).is_none();
                match self.driver.attach(rt, wire, places[1], NO_LIMIT) {
                    Ok(number) => is_right && number.0 == pipe,
                    Err(_) => false,
                }
            }
        }
    }

    /// Ends the core, and compares the wires that were not taken with those of this text, in the order of their pipes.
    /// Returns the number (from 1 on) of the first line that is wrong, or 0 where an operation is open or there is no
    /// memory.
    pub fn wrong_wire<R: Wait>(self, rt: &R, alloc: Global, wires: &str) -> Option<usize> {
        let CorePlay { driver, names: _ } = self;
        let is_done = driver.open_count() == 0;
        match driver.finish(rt, alloc) {
            Ok(left) => {
                if is_done {
                    first_wrong(alloc, left, wires)
                } else {
                    Some(0)
                }
            }
            Err(_) => Some(0),
        }
    }

    // Returns whether the line is right, and its call returns what it says. Each part knows some of the calls, and
    // returns `false` for the others.
    fn is_right<R: Wait>(&mut self, rt: &R, alloc: Global, call: &str) -> bool {
        let mut line = PlayLine::new(alloc, call);
        let name = line.word();
        let is_right = self.joins(rt, alloc, name, &mut line)
            || self.serves(rt, name, &mut line)
            || self.begins(rt, alloc, name, &mut line)
            || self.receives_now(rt, name, &mut line)
            || self.is_refused(rt, alloc, name, &mut line)
            || self.collects(rt, name, &mut line)
            || self.races(name, &mut line)
            || self.is_due(rt, alloc, name, &mut line)
            || self.is_right_of_contexts(rt, name, &mut line)
            || self.is_right_of_topics(rt, alloc, name, &mut line);
        is_right && line.is_read()
    }

    // Attaches a wire that takes `most` messages and gives the rest of the line, with this receive limit, and returns
    // its pipe's number.
    fn attach<R: Wait>(
        &mut self,
        rt: &R,
        alloc: Global,
        place: u32,
        max: u32,
        most: u64,
        line: &mut PlayLine<'_>,
        fails: Fails,
    ) -> Result<u32, u32> {
        let Some(wire) = wire(alloc, most, line.rest(), fails) else {
            line.mark_wrong();
            return Err(0);
        };
        match self.driver.attach(rt, wire, place, max) {
            Ok(pipe) => Ok(pipe.0),
            Err((e, _)) => Err(SpError::from(e).code()),
        }
    }

    // Plays a call for pipes that come up, and links that become none.
    fn joins<R: Wait>(
        &mut self,
        rt: &R,
        alloc: Global,
        name: &str,
        line: &mut PlayLine<'_>,
    ) -> bool {
        match name {
            "joins" => {
                let (place, most, pipe) = (line.number(), line.long(), line.number());
                self.attach(rt, alloc, place, NO_LIMIT, most, line, Fails::Nowhere) == Ok(pipe)
            }
            "joins_within" => {
                let (place, max) = (line.number(), line.number());
                let (most, pipe) = (line.long(), line.number());
                self.attach(rt, alloc, place, max, most, line, Fails::Nowhere) == Ok(pipe)
            }
            "joins_failing" => {
                let (place, most, pipe) = (line.number(), line.long(), line.number());
                let fails = Fails::AtPull(line.long());
                self.attach(rt, alloc, place, NO_LIMIT, most, line, fails) == Ok(pipe)
            }
            "joins_broken" => {
                let (place, pipe) = (line.number(), line.number());
                self.attach(rt, alloc, place, NO_LIMIT, 0, line, Fails::AtRoom) == Ok(pipe)
            }
            "no_pipe" => {
                let (place, code) = (line.number(), line.number());
                self.attach(rt, alloc, place, NO_LIMIT, 0, line, Fails::Nowhere) == Err(code)
            }
            "met" => {
                self.driver.met(rt, line.number());
                true
            }
            "missed" => {
                let place = line.number();
                match miss_of(line.word()) {
                    None => false,
                    Some(miss) => {
                        self.driver.missed(rt, place, miss);
                        true
                    }
                }
            }
            _ => false,
        }
    }

    // Plays a call for pipes that are served, and that are down.
    fn serves<R: Wait>(&mut self, rt: &R, name: &str, line: &mut PlayLine<'_>) -> bool {
        match name {
            "serve" => {
                self.driver.serve(rt);
                true
            }
            "serves" => {
                let expected = served(line);
                self.driver.serve(rt) == expected
            }
            "serve_busy" => {
                let most = line.number();
                self.driver.serve_busy(rt, most);
                true
            }
            "serves_busy" => {
                let most = line.number();
                let expected = served(line);
                self.driver.serve_busy(rt, most) == expected
            }
            "down" => down(self.driver.take_ended(rt), line).is_some(),
            "down_with" => match down(self.driver.take_ended(rt), line) {
                None => false,
                Some(wire) => is_put(&wire, line),
            },
            "down_asked" => match down(self.driver.take_ended(rt), line) {
                None => false,
                Some(wire) => is_asked(&wire, line),
            },
            "none_down" => self.driver.take_ended(rt).is_none(),
            "close" => self.driver.close(rt) == totals(line),
            "closed" => {
                self.driver.close(rt);
                true
            }
            _ => false,
        }
    }

    // Begins a receive, and keeps its name.
    fn receive<R: Wait>(&mut self, rt: &R, c: u32, deadline: Option<Tick>) -> bool {
        match self.driver.begin_recv(rt, Ctx(c), deadline) {
            Ok(name) => self.names.push(name).is_ok(),
            Err(_) => false,
        }
    }

    // Begins a send of the message, and keeps its name.
    fn send<R: Wait>(
        &mut self,
        rt: &R,
        c: u32,
        m: Option<Message>,
        deadline: Option<Tick>,
    ) -> bool {
        let Some(m) = m else {
            return false;
        };
        match self.driver.begin_send(rt, Ctx(c), m, deadline) {
            Ok(name) => self.names.push(name).is_ok(),
            Err(_) => false,
        }
    }

    // Plays a call for operations that begin.
    fn begins<R: Wait>(
        &mut self,
        rt: &R,
        alloc: Global,
        name: &str,
        line: &mut PlayLine<'_>,
    ) -> bool {
        match name {
            "receive" => self.receive(rt, line.number(), None),
            "receive_by" => {
                let (c, tick) = (line.number(), line.long());
                self.receive(rt, c, Some(Tick(tick)))
            }
            "send" => {
                let (c, m) = (line.number(), message(alloc, line));
                self.send(rt, c, m, None)
            }
            "send_by" => {
                let (c, m, tick) = (line.number(), message(alloc, line), line.long());
                self.send(rt, c, m, Some(Tick(tick)))
            }
            "is_named" => {
                let named = self.name(line);
                let (slot, generation) = (line.number(), line.long());
                named == Some(OpName { slot, generation })
            }
            _ => false,
        }
    }

    // The name of the operation that the line tells by its order.
    fn name(&self, line: &mut PlayLine<'_>) -> Option<OpName> {
        self.names.get(line.number() as usize).copied()
    }

    // Compares the message with the line, and begins a send of it.
    fn passes_on<R: Wait>(&mut self, rt: &R, c: u32, m: Message, line: &mut PlayLine<'_>) -> bool {
        let is_right = is_message(&m, line);
        match self.driver.begin_send(rt, Ctx(c), m, None) {
            Ok(name) => is_right && self.names.push(name).is_ok(),
            Err(_) => false,
        }
    }

    // Plays a call that receives at once.
    fn receives_now<R: Wait>(&mut self, rt: &R, name: &str, line: &mut PlayLine<'_>) -> bool {
        match name {
            "now" => match self.driver.try_recv(rt, Ctx(line.number())) {
                Err(_) => false,
                Ok(m) => is_message(&m, line),
            },
            "not_now" => {
                let returned = self.driver.try_recv(rt, Ctx(line.number()));
                now_code(returned) == line.number()
            }
            "not_now_for" => match self.driver.try_recv(rt, Ctx(line.number())) {
                Err(e) => line.says(now_word(e)),
                Ok(_) => false,
            },
            "passes_on" => {
                let c = line.number();
                match self.driver.try_recv(rt, Ctx(c)) {
                    Err(_) => false,
                    Ok(m) => self.passes_on(rt, c, m, line),
                }
            }
            _ => false,
        }
    }

    // Plays a call for operations that don't begin.
    fn is_refused<R: Wait>(
        &mut self,
        rt: &R,
        alloc: Global,
        name: &str,
        line: &mut PlayLine<'_>,
    ) -> bool {
        match name {
            "no_receive" => {
                let returned = self.driver.begin_recv(rt, Ctx(line.number()), None);
                recv_code(returned) == line.number()
            }
            "no_send" => {
                let c = line.number();
                let mut sent = *line;
                let Some(m) = message(alloc, &mut sent) else {
                    return false;
                };
                match self.driver.begin_send(rt, Ctx(c), m, None) {
                    Ok(_) => false,
                    Err((e, m)) => {
                        is_message(&m, line) && line.number() == SpError::from(e).code()
                    }
                }
            }
            _ => false,
        }
    }

    // Plays a call for operations that are collected.
    fn collects<R: Wait>(&mut self, rt: &R, name: &str, line: &mut PlayLine<'_>) -> bool {
        match name {
            "swap" => {
                self.driver.swap();
                true
            }
            "not_yet" => self.driver.collect(rt).is_none(),
            "collected" => self.driver.collect(rt).is_some(),
            "sent" => is_sent(self.driver.collect(rt)),
            "received" => is_received(self.driver.collect(rt), line),
            "gone" => is_gone(self.driver.collect(rt), line),
            "back" => is_back(self.driver.collect(rt), line),
            _ => false,
        }
    }

    // Plays a call for operations that are cancelled, expire and are polled.
    fn races(&mut self, name: &str, line: &mut PlayLine<'_>) -> bool {
        if !matches!(name, "cancel" | "cancel_by_other" | "expire" | "poll") {
            return false;
        }
        let Some(op) = self.name(line) else {
            return false;
        };
        match name {
            "cancel" => is_raced(line, self.driver.cancel(op)),
            "cancel_by_other" => is_raced(line, self.driver.cancel_by_other(op)),
            "expire" => is_raced(line, self.driver.expire(op)),
            _ => is_polled(line, self.driver.poll(op)),
        }
    }

    // Plays a call for ticks.
    fn is_due<R: Wait>(
        &mut self,
        rt: &R,
        alloc: Global,
        name: &str,
        line: &mut PlayLine<'_>,
    ) -> bool {
        if !matches!(name, "due" | "due_is") {
            return false;
        }
        let Ok(due) = self.driver.tick(rt, alloc, Tick(line.long())) else {
            return false;
        };
        match due.as_slice() {
            [op] if name == "due_is" => Some(*op) == self.name(line),
            ops => name == "due" && ops.len() == line.number() as usize,
        }
    }

    // Plays a call for contexts.
    fn is_right_of_contexts<R: Wait>(
        &mut self,
        rt: &R,
        name: &str,
        line: &mut PlayLine<'_>,
    ) -> bool {
        match name {
            "opens" => match self.driver.open_ctx(rt) {
                Ok(opened) => opened.0 == line.number(),
                Err(_) => false,
            },
            "no_context" => match self.driver.open_ctx(rt) {
                Ok(_) => false,
                Err(e) => SpError::from(e).code() == line.number(),
            },
            "shuts" => {
                let returned = self.driver.close_ctx(rt, Ctx(line.number()));
                shut_code(returned) == line.number()
            }
            _ => false,
        }
    }

    // Plays a call for topics.
    fn is_right_of_topics<R: Wait>(
        &mut self,
        rt: &R,
        alloc: Global,
        name: &str,
        line: &mut PlayLine<'_>,
    ) -> bool {
        match name {
            "subscribes" => {
                let (c, topic) = (Ctx(line.number()), line.bytes());
                let returned = self.driver.subscribe(rt, c, topic.as_slice());
                topic_code(returned) == line.number()
            }
            "unsubscribes" => {
                let (c, topic) = (Ctx(line.number()), line.bytes());
                let returned = self.driver.unsubscribe(rt, c, topic.as_slice());
                topic_code(returned) == line.number()
            }
            "subscribes_zeros" => {
                let (c, topic) = (Ctx(line.number()), line.zeros());
                let returned = self.driver.subscribe(rt, c, topic.as_slice());
                topic_code(returned) == line.number()
            }
            "unsubscribes_zeros" => {
                let (c, topic) = (Ctx(line.number()), line.zeros());
                let returned = self.driver.unsubscribe(rt, c, topic.as_slice());
                topic_code(returned) == line.number()
            }
            _ => false,
        }
    }
}

// The number (from 1 on) of the first line that isn't right for its wire; the last wire is that of the first line.
fn first_wrong(alloc: Global, left: Vec<(PipeId, PlayWire)>, wires: &str) -> Option<usize> {
    let mut left = left;
    let mut count = 0usize;
    for (at, text) in wires.lines().enumerate() {
        count = at.saturating_add(1);
        if let Some(call) = call_of(text) {
            let is_right = match left.pop() {
                Some((pipe, wire)) => is_right_wire(alloc, pipe.0, &wire, call),
                None => false,
            };
            if !is_right {
                return Some(count);
            }
        }
    }
    if left.is_empty() {
        None
    } else {
        Some(count.saturating_add(1))
    }
}

// Returns whether the pipe has the number that the line says, and its wire is as it says.
fn is_right_wire(alloc: Global, pipe: u32, wire: &PlayWire, call: &str) -> bool {
    let mut line = PlayLine::new(alloc, call);
    match line.word() {
        "put" => line.number() == pipe && is_put(wire, &mut line),
        "asked" => line.number() == pipe && is_asked(wire, &mut line),
        _ => false,
    }
}
