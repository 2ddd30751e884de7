//! A wire of a play: it gives what it is told to, counts how often it is asked for room, and keeps what is put.
ghost use Rattle.std.specs.Prelude.{◌≡◌, None, false, IfSome};
ghost use Rattle.core_state.specs.Wires.{IsUnused};
ghost use Rattle.sp_msg.specs.Views.{Nameless};
ghost use Rattle.sp_msg.specs.Wires.{IsBare};
ghost use Rattle.sp_msg.specs.Marks.{wire_view};

use crate::line::bytes_of;
use sp_base::Bytes;
use sp_fakes::WireStep;
use sp_msg::{Message, Room, Wire, WireFlush, WireIn, WireMarks};
use std::alloc::Global;
use std::sync::Wait;

/// Where a wire fails.
#[derive(Clone, Copy)]
pub enum Fails {
    Nowhere,
    /// At the pull with this number, from 0 on.
    AtPull(u64),
    /// Where it is asked for room.
    AtRoom,
}

/// A wire that gives a script, and then nothing.
#[derive(Drop)]
pub struct PlayWire {
    alloc: Global,
    script: Vec<WireStep>,
    /// The number of steps that are done.
    at: usize,
    fails: Fails,
    /// The number of pulls.
    pulls: u64,
    /// The number of messages that it takes in all.
    most: u64,
    /// How often it was asked for room.
    asked: u32,
    outs: Vec<Message>,
    marks: WireMarks,
}

// The step of the word; `None` where it isn't one, or there is no memory for it.
fn step_of(alloc: Global, word: &str) -> Option<WireStep> {
    match word {
        "pause" => Some(WireStep::NotYet),
        "end" => Some(WireStep::End),
        "malformed" => Some(WireStep::Malformed),
        _ => {
            let frame = bytes_of(alloc, word)?;
            match Bytes::from_slice(alloc, frame.as_slice()) {
                Ok(bytes) => Some(WireStep::Bytes(bytes)),
                Err(_) => None,
            }
        }
    }
}

// The steps of a script, at least one.
fn script_of(alloc: Global, gives: &str) -> Option<Vec<WireStep>> {
    let mut script = Vec::new(alloc);
    for word in gives.split(' ') {
        if script.push(step_of(alloc, word)?).is_err() {
            return None;
        }
    }
    Some(script)
}

impl PlayWire {
    // A wire over this script.
    fn over(alloc: Global, script: Vec<WireStep>, most: u64, fails: Fails) -> PlayWire
        ensures { IsUnused (wire_view Nameless None None 0 false result.marks) }
    {
        PlayWire {
            alloc,
            script,
            at: 0,
            fails,
            pulls: 0,
            most,
            asked: 0,
            outs: Vec::new(alloc),
            marks: WireMarks::new(),
        }
    }

    // What the next pull gives.
    fn next(&mut self) -> WireIn
        ensures bare { IsBare result }
        ensures marks { self.new.marks ≡ self.old.marks }
    {
        let pull = self.pulls;
        self.pulls = pull.saturating_add(1);
        if matches!(self.fails, Fails::AtPull(n) if n == pull) {
            return WireIn::Failed;
        }
        match self.script.get(self.at) {
            None => WireIn::NotYet,
            Some(WireStep::NotYet) => {
                self.at = self.at.saturating_add(1);
                WireIn::NotYet
            }
            Some(WireStep::End) => WireIn::Ended,
            Some(WireStep::Malformed) => WireIn::Malformed,
            Some(WireStep::Bytes(bytes)) => match Message::from_body(self.alloc, bytes.as_slice()) {
                Err(_) => WireIn::NoMemory,
                Ok(m) => {
                    self.at = self.at.saturating_add(1);
                    WireIn::Message(m)
                }
            },
        }
    }

    // What it returns when it is asked for room.
    fn has_room(&self) -> Room {
        if matches!(self.fails, Fails::AtRoom) {
            return Room::Failed;
        }
        if (self.outs.len() as u64) < self.most {
            Room::Yes
        } else {
            Room::Full
        }
    }

    /// How often it was asked for room.
    pub fn asked(&self) -> u32 {
        self.asked
    }

    /// What was put on it.
    pub fn outs(&self) -> &[Message] {
        &self.outs
    }
}

impl Wire for PlayWire {
    ghost shown = { λ w. wire_view Nameless None None 0 false w.marks };

    fn pull<R: Wait>(&mut self, _rt: &R) -> WireIn {
        let returned = self.next();
        self.marks.pulled(&returned);
        returned
    }

    fn room<R: Wait>(&mut self, _rt: &R) -> Room {
        self.asked = self.asked.saturating_add(1);
        let returned = self.has_room();
        self.marks.roomed(returned);
        returned
    }

    fn put<R: Wait>(&mut self, _rt: &R, m: Message) {
        self.marks.put();
        if self.outs.push(m).is_err() {}
    }

    fn flush<R: Wait>(&mut self, _rt: &R) -> WireFlush {
        self.marks.flushed(WireFlush::Empty);
        WireFlush::Empty
    }

    fn taken(&self) -> u64 {
        0
    }

    fn shut(&mut self) {
        self.marks.shut();
    }
}

/// A wire that takes `most` messages, gives what these words say, and fails where `fails` says; `None` where a word has
/// no meaning, or there is no memory for it.
pub fn wire(alloc: Global, most: u64, gives: &str, fails: Fails) -> Option<PlayWire>
    ensures { IfSome result (λ w. IsUnused (wire_view Nameless None None 0 false w.marks)) }
{
    match script_of(alloc, gives) {
        None => None,
        Some(script) => Some(PlayWire::over(alloc, script, most, fails)),
    }
}
