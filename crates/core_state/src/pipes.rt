//! The pipes with their wires: those that are up, and those that are down until their wires are taken.
//!
//! A pipe that comes up gets a place after all others. One that goes down leaves its place empty, so that no other pipe
//! moves. When a wire is taken while the pipes are fewer than half of the places, rounded down, the empty places are
//! removed. So over all pipes that go down, each costs a fixed number of moves and the search of its place.
//!
//! Pipes that are busy are on a list of their own: those that brought a frame, got a message to send, or had something
//! left to write, since they last had nothing left to write. A mark at the place says whether the pipe is busy and
//! whether it is on the list. One that is no longer busy stays on the list until its turn comes there, and so does one
//! that is down; all memory for the list is taken when a pipe comes up.
ghost use Rattle.std.specs.Prelude.{◌≡◌, ◌==◌, ◌<◌, ◌≤◌, ◌+◌, ◌++◌, ◌∷◌, ℕ, List, [], true, false, Some, length, is_some, OnOk};
ghost use Rattle.std.specs.VecDeque.{deque_capacity};
ghost use Rattle.sp_history.specs.declared.entry.Entry.TheVariants.{Down};
ghost use Rattle.sp_history.specs.declared.entry.Why.TheVariants as whys;
ghost use Rattle.std.specs.List.{All};
ghost use Rattle.sp_history.specs.declared.entry.Entry.{Entry};
ghost use Rattle.sp_history.specs.Past.{up};
ghost use Rattle.sp_history.specs.Frames.{is_above, is_too_long};
ghost use Rattle.sp_history.specs.Moments.{Moment, Lawful, past, also};
ghost use Rattle.core_state.specs.Pipes.{PipesStand, IsPipeAt, HasPlace, HasLimit, is_below, up_pipes, numbers, IsRising, IsReadyAt, AskedAs, FlushedTo, TakenAs, HasRoom, PulledTo, KeepsListed, HasRoomOn, MarksPlace, UnmarksPlace, NextBusy};
ghost use Rattle.core_state.specs.PartSteps.{AddsPipe, PutsOut, EmptiesPlace, FindsPipe, FindsAbove, ArePassed, WherePipe};

use sp_base::{NoMemory, PipeId};
use sp_history::entry::Why;
use sp_msg::{Message, Room, Wire, WireFlush, WireIn};
use std::alloc::Global;
use std::collections::VecDeque;
use std::sync::Wait;

/// A place, with the wire of its pipe while the pipe is up.
#[derive(Drop)]
pub struct PipePlace<W> {
    /// The number of the pipe.
    pub id: PipeId,
    /// The receive limit of the pipe, in bytes. 2^32 - 1 is none.
    pub limit: u32,
    /// The wire that carries its messages.
    pub wire: Option<W>,
    /// Whether it is busy.
    pub busy: bool,
    /// Whether the list of busy pipes has it.
    pub listed: bool,
}

/// A pipe that is down and whose wire was not taken (nng_pipe_close(3)).
#[derive(Drop)]
pub struct DownPipe<W> {
    /// Its number.
    pub id: PipeId,
    /// Why it went down.
    pub why: Why,
    /// Its wire, to be taken by the caller.
    pub wire: W,
}

/// The pipes of a socket (nng_pipe(5)).
#[derive(Drop)]
pub struct Pipes<W> {
    /// In the order in which pipes came up, which is that of their numbers.
    pub places: VecDeque<PipePlace<W>>,
    /// The number of pipes that are up.
    pub count: usize,
    /// In the order in which they went down, with room for all that are up. The first is taken first.
    pub down: VecDeque<DownPipe<W>>,
    /// The numbers of pipes that are busy, and of some that are not, or are down; with room for all that are up.
    pub busy: VecDeque<PipeId>,
}

/// The result of asking a pipe for room.
#[derive(Clone, Copy, PartialEq, Eq, Debug)]
pub enum Asked {
    /// A message can be put now.
    Yes,
    /// None can be put now.
    Full,
    /// The pipe went down.
    Down(Why),
}

/// The result of flushing a pipe.
#[derive(Clone, Copy, PartialEq, Eq, Debug)]
pub enum Flushed {
    /// Nothing waits.
    Clear,
    /// Something waits that its link doesn't take.
    Stall,
    /// The pipe went down.
    Down(Why),
}

/// The result of pulling from a pipe.
#[derive(Debug, Drop)]
pub enum Pulled {
    /// The next message, with an empty header.
    Frame(Message),
    /// Nothing whole is there yet.
    Quiet,
    /// The pipe went down.
    Down(Why),
}

// Returns whether the bytes are more than the receive limit allows.
fn is_above(limit: u32, b: &[u8]) -> bool
    ensures { result ≡ is_above (Some limit) b.now }
{
    (limit as usize) < b.len() && limit != u32::MAX
}

impl<W> PipePlace<W> {
    // Returns whether the pipe of this number is up, with its wire here.
    fn is_up_as(&self, p: PipeId) -> bool
        ensures number { result ≡ true → self.now.id ≡ p }
        ensures wire { result ≡ true → is_some self.now.wire ≡ true }
        ensures other { result ≡ false → is_some self.now.wire ≡ true → (self.now.id == p) ≡ false }
    {
        self.id.0 == p.0 && self.wire.is_some()
    }

    // Returns whether a pipe with a number above this one is up, with its wire here.
    fn is_up_above(&self, p: PipeId) -> bool
        ensures wire { result ≡ true → is_some self.now.wire ≡ true }
        ensures above { result ≡ true → p < self.now.id }
        ensures other { result ≡ false → is_some self.now.wire ≡ true → self.now.id ≤ p }
    {
        p.0 < self.id.0 && self.wire.is_some()
    }

    // Returns whether its number is below this one's.
    fn is_before(&self, p: PipeId) -> bool
        ensures { result ≡ is_below p self.now }
    {
        self.id.0 < p.0
    }
}

impl<W: Wire> Pipes<W> {
    /// No pipe.
    pub fn new(alloc: Global) -> Pipes<W>
        ensures { (t : Moment) → past t ≡ [] → PipesStand W.shown result t }
    {
        Pipes {
            places: VecDeque::new(alloc),
            count: 0,
            down: VecDeque::new(alloc),
            busy: VecDeque::new(alloc),
        }
    }

    /// The place of the pipe, where it is up.
    pub fn place_of(&self, p: PipeId) -> Option<usize>
        ensures { FindsPipe W.shown result p self.now }
    {
        let i = self.places.partition_point(|x| x.is_before(p));
        if i >= self.places.len() {
            return None;
        }
        if !self.places[i].is_up_as(p) {
            return None;
        }
        Some(i)
    }

    /// The first pipe that is up with a number above this one: its place and its number. The search begins after
    /// `from`, if that is the place of this number or of a lower one, and otherwise at the front.
    pub fn next_above(&self, p: PipeId, from: usize) -> Option<(usize, PipeId)>
        ensures { FindsAbove W.shown result p self.now }
    {
        let mut i = self.first_behind(p, from);
        while i < self.places.len() {
            let x = &self.places[i];
            if x.is_up_above(p) {
                return Some((i, x.id));
            }
            i += 1;
        }
        None
    }

    // Where a search for numbers above this one may begin.
    fn first_behind(&self, p: PipeId, from: usize) -> usize
        ensures { ArePassed W.shown result p self.now }
    {
        if from < self.places.len() && self.places[from].id.0 <= p.0 {
            from + 1
        } else {
            0
        }
    }

    /// Takes the pipe at this place down. Returns that it is down, and why.
    pub fn take_down(&mut self, i: usize, why: Why) -> Asked
        requires there { HasPlace self.old i }
        requires room { length self.old.down.items < deque_capacity self.old.down }
        ensures returned { result ≡ Asked.Down why }
        ensures empties { EmptiesPlace i why self.old self.new }
    {
        let place = &mut self.places[i];
        let id = place.id;
        let Some(wire) = place.wire.take() else {
            unreachable!()
        };
        self.count -= 1;
        self.down.push_back_reserved(DownPipe { id, why, wire });
        Asked::Down(why)
    }

    /// Asks the pipe at this place for room. It goes down where its wire fails.
    pub fn ask<R: Wait>(&mut self, rt: &R, i: usize) -> Asked
        requires { (t : Moment) × (p : ℕ) × Lawful t × PipesStand W.shown self.old t × IsPipeAt self.old i p }
        ensures { WherePipe W.shown self.old i (λ t p. AskedAs W.shown result i p t self.new) }
    {
        let Some(wire) = &mut self.places[i].wire else {
            unreachable!()
        };
        match wire.room(rt) {
            Room::Yes => Asked::Yes,
            Room::Full => Asked::Full,
            Room::Failed => self.take_down(i, Why::Failed),
            Room::Refused => self.take_down(i, Why::Refusal),
            Room::NoMemory => self.take_down(i, Why::NoMemory),
        }
    }

    /// Puts the message on the pipe at this place, which has room.
    pub fn put<R: Wait>(&mut self, rt: &R, i: usize, m: Message)
        requires { (t : Moment) × (p : ℕ) × PipesStand W.shown self.old t × IsPipeAt self.old i p × IsReadyAt W.shown self.old i }
        ensures { PutsOut W.shown i m self.old self.new }
    {
        let Some(wire) = &mut self.places[i].wire else {
            unreachable!()
        };
        wire.put(rt, m);
        self.mark(i);
    }

    // Marks the pipe at this place as busy, and puts it on the list, if it isn't there.
    fn mark(&mut self, i: usize)
        requires there { i < length self.old.places.items }
        requires room { HasRoomOn i self.old }
        ensures { MarksPlace i self.old self.new }
    {
        let place = &mut self.places[i];
        place.busy = true;
        if place.listed {
            return;
        }
        place.listed = true;
        let id = place.id;
        self.busy.push_back_reserved(id);
    }

    // Marks the pipe at this place as not busy. It leaves the list when its turn comes there.
    fn unmark(&mut self, i: usize)
        requires { i < length self.old.places.items }
        ensures { UnmarksPlace i self.old self.new }
    {
        self.places[i].busy = false;
    }

    /// Takes the first pipe of the list of busy ones, which isn't empty. Returns its place and its number, where it is
    /// up and busy, and puts it at the end of the list; one that isn't leaves the list.
    pub fn next_busy(&mut self) -> Option<(usize, PipeId)>
        requires { 0 < length self.old.busy.items }
        ensures { NextBusy W.shown result self.old self.new }
    {
        let p = self.busy[0];
        let found = self.place_of(p);
        let _ = self.busy.pop_front();
        let Some(i) = found else {
            return None;
        };
        if !self.places[i].busy {
            self.places[i].listed = false;
            return None;
        }
        self.busy.push_back_reserved(p);
        Some((i, p))
    }

    /// How much the wire of the pipe at this place has passed on, in a unit of its own; 0 where no pipe is there.
    pub fn taken_at(&self, i: usize) -> u64 {
        let Some(place) = self.places.get(i) else {
            return 0;
        };
        match &place.wire {
            None => 0,
            Some(wire) => wire.taken(),
        }
    }

    /// Writes what the pipe at this place can of what waits. It goes down where its wire fails.
    pub fn flush<R: Wait>(&mut self, rt: &R, i: usize) -> Flushed
        requires { (t : Moment) × (p : ℕ) × Lawful t × PipesStand W.shown self.old t × IsPipeAt self.old i p }
        ensures flushed { WherePipe W.shown self.old i (λ t p. FlushedTo W.shown result i p t self.new) }
        ensures listed { WherePipe W.shown self.old i (λ t p. KeepsListed p self.old self.new) }
    {
        let Some(wire) = &mut self.places[i].wire else {
            unreachable!()
        };
        match wire.flush(rt) {
            WireFlush::Empty => {
                self.unmark(i);
                Flushed::Clear
            }
            WireFlush::NotYet => {
                self.mark(i);
                Flushed::Stall
            }
            WireFlush::Failed => {
                self.take_down(i, Why::Failed);
                Flushed::Down(Why::Failed)
            }
            WireFlush::Refused => {
                self.take_down(i, Why::Refusal);
                Flushed::Down(Why::Refusal)
            }
            WireFlush::NoMemory => {
                self.take_down(i, Why::NoMemory);
                Flushed::Down(Why::NoMemory)
            }
        }
    }

    /// How much the wires of all pipes have passed on, in a unit of their own. Wraps around.
    pub fn taken(&self) -> u64 {
        let mut sum: u64 = 0;
        for place in self.places.iter() {
            if let Some(wire) = &place.wire {
                sum = sum.wrapping_add(wire.taken());
            }
        }
        sum
    }

    /// Takes the pipe at this place down for the close.
    pub fn close_pipe(&mut self, i: usize)
        requires { (t : Moment) × (p : ℕ) × PipesStand W.shown self.old t × IsPipeAt self.old i p }
        ensures { WherePipe W.shown self.old i (λ t p. PipesStand W.shown self.new (also t (Down p whys.Closed))) }
    {
        self.take_down(i, Why::Closed);
    }

    /// Pulls from the pipe at this place. It goes down where its wire has ended or fails.
    pub fn pull<R: Wait>(&mut self, rt: &R, i: usize) -> Pulled
        requires { (t : Moment) × (p : ℕ) × Lawful t × PipesStand W.shown self.old t × IsPipeAt self.old i p }
        ensures pulled { WherePipe W.shown self.old i (λ t p. PulledTo W.shown result i p t self.new) }
        ensures listed { WherePipe W.shown self.old i (λ t p. KeepsListed p self.old self.new) }
    {
        let Some(wire) = &mut self.places[i].wire else {
            unreachable!()
        };
        let why = match wire.pull(rt) {
            WireIn::Message(m) => {
                self.mark(i);
                return Pulled::Frame(m);
            }
            WireIn::NotYet => return Pulled::Quiet,
            WireIn::Ended => Why::Ended,
            WireIn::Malformed => Why::Malformed,
            WireIn::Failed => Why::Failed,
            WireIn::Refused => Why::Refusal,
            WireIn::NoMemory => Why::NoMemory,
        };
        self.take_down(i, why);
        Pulled::Down(why)
    }

    /// Returns whether the message, which came from the pipe at this place, is longer than the pipe's receive limit.
    pub fn is_too_long(&self, i: usize, m: &Message) -> bool
        requires { (t : Moment) × (p : ℕ) × PipesStand W.shown self.now t × IsPipeAt self.now i p }
        ensures { WherePipe W.shown self.now i (λ t p. result ≡ is_too_long (past t) p m.now.body) }
    {
        is_above(self.places[i].limit, m.body())
    }

    /// Takes the first of those that are down.
    pub fn take_first(&mut self) -> Option<DownPipe<W>>
        ensures { (t : Moment) → Lawful t → PipesStand W.shown self.old t → TakenAs W.shown result t self.new }
    {
        // A pop of an empty list doesn't say that the list is the same.
        if self.down.is_empty() {
            return None;
        }
        let Some(first) = self.down.pop_front() else {
            unreachable!()
        };
        self.pack();
        Some(first)
    }

    // Removes the empty places, where the pipes are fewer than half of the places.
    fn pack(&mut self)
        ensures up { up_pipes self.new ≡ up_pipes self.old }
        ensures in_order { (q : ℕ) → IsRising (numbers self.old.places.items ++ q ∷ []) → IsRising (numbers self.new.places.items ++ q ∷ []) }
        ensures limits { (before : List Entry) → All (HasLimit before) self.old.places.items → All (HasLimit before) self.new.places.items }
        ensures count { self.new.count ≡ self.old.count }
        ensures down { self.new.down ≡ self.old.down }
        ensures listed { self.new.busy ≡ self.old.busy }
    {
        if self.places.len() / 2 <= self.count {
            return;
        }
        let mut left = self.places.len();
        while left > 0 {
            left -= 1;
            let Some(
                PipePlace {
                    id,
                    limit,
                    wire,
                    busy,
                    listed,
                },
            ) = self.places.pop_front()
            else {
                unreachable!()
            };
            if let Some(wire) = wire {
                self.places.push_back_reserved(PipePlace {
                    id,
                    limit,
                    wire: Some(wire),
                    busy,
                    listed,
                });
            }
        }
    }

    /// Makes room for one more pipe.
    pub fn make_room(&mut self) -> Result<(), NoMemory>
        ensures carries { (t : Moment) → PipesStand W.shown self.old t → PipesStand W.shown self.new t }
        ensures places { self.new.places.items ≡ self.old.places.items }
        ensures count { self.new.count ≡ self.old.count }
        ensures down { self.new.down.items ≡ self.old.down.items }
        ensures room { self.old.count + length self.old.down.items < 4096 → OnOk result (HasRoom self.new) }
    {
        self.places.reserve(1)?;
        self.down.reserve(self.count.saturating_add(1))?;
        self.busy.reserve(self.count.saturating_add(1))?;
        Ok(())
    }

    /// Adds a pipe, for which there is room.
    pub fn add(&mut self, id: PipeId, limit: u32, wire: W)
        requires { HasRoom self.old }
        ensures { AddsPipe W.shown id limit wire self.old self.new }
    {
        self.places.push_back_reserved(PipePlace {
            id,
            limit,
            wire: Some(wire),
            busy: false,
            listed: false,
        });
        self.count += 1;
    }
}
