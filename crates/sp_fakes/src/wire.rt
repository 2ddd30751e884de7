//! A wire that pulls by a script and keeps what was put.
ghost use Rattle.std.specs.Prelude.{◌≡◌, ◌<◌, ◌≤◌, ◌+◌, ◌-◌, true, vec_len, vec_capacity, Some, map, length};
ghost use Rattle.sp_msg.specs.Views.{wire_text};
ghost use Rattle.sp_msg.specs.Wires.{AfterPull, AfterRoom, AfterPut, AfterFlush, AfterShut, came_after, may_flush, IsBare};
ghost use Rattle.sp_fakes.specs.MemWires.{unused_wire, HasRoom, MemPulled, MemPut, OnlyWire};

use crate::is_listed;
use sp_base::Bytes;
use sp_msg::{Message, Room, Wire, WireFlush, WireIn, WireMarks};
use std::alloc::Global;
use std::marker::Model;
use std::sync::Wait;

/// A step of what a wire gives.
#[derive(Debug, Drop)]
pub enum WireStep {
    /// One message.
    Bytes(Bytes),
    /// Nothing is there, once.
    NotYet,
    /// The end, forever.
    End,
    /// A malformed message, forever.
    Malformed,
}

/// A wire in memory. After a script without an end nothing more is there, forever. What is put is written at once.
#[derive(Debug, Drop)]
pub struct MemWire {
    /// Where memory for messages is taken.
    alloc: Global,
    /// What it gives.
    script: Vec<WireStep>,
    /// The number of steps that were passed.
    at: usize,
    /// The maximum number of messages that it takes.
    most: u64,
    /// The numbers of the pulls that fail.
    fails: Vec<u64>,
    /// How often it was pulled.
    pulls: u64,
    /// What was put.
    kept: Vec<Message>,
    /// What it shows besides its bytes.
    marks: WireMarks,
}

impl Model for MemWire {
    ghost use Rattle.std.specs.Prelude.{◌≡◌, ◌≤◌, ◌<◌, true, length, vec_len, vec_capacity};
    ghost use Rattle.sp_fakes.specs.MemWires.{MemView, mem_view};

    ghost Value = { MemView };

    ghost view = { λ w. mem_view w.script.items w.at w.kept.items w.marks w.fails.items w.pulls w.most };

    ghost invariant = { λ w. (w.at ≤ length w.script.items) × (w.marks.is_ready ≡ true → vec_len w.kept < vec_capacity w.kept) };
}

// Makes room for one more message, where fewer than `most` are kept.
fn take_room(kept: &mut Vec<Message>, most: u64) -> Room
    ensures items { kept.new.items ≡ kept.old.items }
    ensures grown { vec_capacity kept.old ≤ vec_capacity kept.new }
    ensures room { result ≡ Room.Yes → vec_len kept.new < vec_capacity kept.new }
    ensures most { HasRoom result (most - length kept.old.items) }
{
    if kept.len() as u64 >= most {
        return Room::Full;
    }
    if kept.reserve(1).is_err() {
        return Room::NoMemory;
    }
    Room::Yes
}

impl MemWire {
    /// Pulls by the script, and takes at most `room` messages. The pulls with these numbers fail, counted from 0, and
    /// use up no step.
    pub fn new(alloc: Global, frames: Vec<WireStep>, room: u64, fails: Vec<u64>) -> MemWire
        ensures { result ≡ record { wire = unused_wire; left = frames.items; fails = fails.items; pulls = 0; room = room } }
    {
        MemWire {
            alloc,
            script: frames,
            at: 0,
            most: room,
            fails,
            pulls: 0,
            kept: Vec::new(alloc),
            marks: WireMarks::new(),
        }
    }

    /// Returns whether it may be pulled, asked for room and flushed.
    pub fn is_open(&self) -> bool
        ensures { result ≡ self.now.wire.is_open }
    {
        self.marks.is_open
    }

    /// What was put.
    pub fn outs(&self) -> &[Message]
        ensures { self.now.wire.outs ≡ Some (map wire_text result.now) }
    {
        &self.kept
    }

    // What the next pull gives.
    fn next_step(&mut self) -> WireIn
        ensures bare { IsBare result }
        ensures came { self.new.wire ≡ record self.old.wire { came = came_after result self.old.wire.came } }
        ensures gives { MemPulled result self.old self.new }
    {
        let fails = is_listed(&self.fails, self.pulls);
        self.pulls = self.pulls.saturating_add(1);
        if fails {
            return WireIn::Failed;
        }
        if self.at >= self.script.len() {
            return WireIn::NotYet;
        }
        match &self.script[self.at] {
            WireStep::Bytes(bytes) => match Message::from_body(self.alloc, bytes.as_slice()) {
                Ok(message) => {
                    self.at += 1;
                    WireIn::Message(message)
                }
                Err(_) => WireIn::NoMemory,
            },
            WireStep::NotYet => {
                self.at += 1;
                WireIn::NotYet
            }
            WireStep::End => WireIn::Ended,
            WireStep::Malformed => WireIn::Malformed,
        }
    }
}

impl Wire for MemWire {
    ghost shown = { λ w. w.wire };

    fn pull<R: Wait>(&mut self, _rt: &R) -> WireIn
        requires { self.old.wire.is_open ≡ true }
        ensures after { AfterPull result self.old.wire self.new.wire }
        ensures gives { MemPulled result self.old self.new }
    {
        let returned = self.next_step();
        self.marks.pulled(&returned);
        returned
    }

    fn room<R: Wait>(&mut self, _rt: &R) -> Room
        requires { self.old.wire.is_open ≡ true }
        ensures after { AfterRoom result self.old.wire self.new.wire }
        ensures has { HasRoom result self.old.room }
        ensures rest { OnlyWire self.old self.new }
    {
        let returned = take_room(&mut self.kept, self.most);
        self.marks.roomed(returned);
        returned
    }

    fn put<R: Wait>(&mut self, _rt: &R, m: Message)
        requires is_open { self.old.wire.is_open ≡ true }
        requires is_ready { self.old.wire.is_ready ≡ true }
        ensures after { AfterPut m self.old.wire self.new.wire }
        ensures rest { MemPut self.old self.new }
    {
        self.marks.put();
        match self.kept.push(m) {
            Ok(()) => {}
            Err(_) => unreachable!(),
        }
    }

    fn flush<R: Wait>(&mut self, _rt: &R) -> WireFlush
        requires { may_flush self.old.wire ≡ true }
        ensures after { AfterFlush result self.old.wire self.new.wire }
        ensures empty { result ≡ WireFlush.Empty }
        ensures rest { OnlyWire self.old self.new }
    {
        self.marks.flushed(WireFlush::Empty);
        WireFlush::Empty
    }

    fn taken(&self) -> u64 {
        0
    }

    fn shut(&mut self)
        ensures after { AfterShut self.old.wire self.new.wire }
        ensures rest { OnlyWire self.old self.new }
    {
        self.marks.shut();
    }
}
