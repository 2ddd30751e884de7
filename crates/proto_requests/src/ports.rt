//! The pipes that are up, and those of them that were found full in this turn.
//!
//! They are held in the order of their numbers, in a map: to look one up, to add one or to take one out costs the
//! logarithm of their number. Each has the number of the turn in which it was last found full, so that a new turn
//! writes nothing to them. Every stretch of full ones that was skipped is remembered, by the number from which it was
//! looked at, until the turn ends or one more comes up: no search from there looks at them again.
ghost use Rattle.std.specs.Prelude.{◌≡◌, ◌++◌, ◌∷◌, [], OnOk, OnErr, not, map, filter, find};
ghost use Rattle.std.specs.List.{list_any, list_all};
ghost use Rattle.std.specs.Option.{option_map};
ghost use Rattle.std.specs.Prelude.{true, false, ◌==◌, ℕ, List};
ghost use Rattle.std.specs.Ordering.{nat_cmp};
ghost use Rattle.std.specs.Map.{lookup};
ghost use Rattle.std.specs.BTreeMap.{is_at};
ghost use Rattle.proto_requests.specs.Ports.{PortView, marked, cleared, is_pipe, is_free, is_free_behind, is_free_at, is_below, next_port, where_is, is_under, is_free_from, unmarked, number, begin_at, reached, AreNumbers, AreFull, AllPassed};

use sp_base::{NoMemory, PipeId};
use std::alloc::Global;
use std::collections::BTreeMap;
use std::marker::Model;

/// All numbers of pipes are below this.
const END: u64 = 4_294_967_296;

/// The pipes that are up (nng_pipe(5)).
#[derive(Drop)]
pub struct Ports {
    /// By a pipe's number: the turn in which it was last found full, or 0.
    held: BTreeMap<u32, u64>,
    /// The number of this turn, from 1.
    turn: u64,
    /// By a number: up to which number all from there on were found full in this turn.
    passed: BTreeMap<u64, u64>,
}

impl Model for Ports {
    ghost use Rattle.std.specs.Prelude.{map};
    ghost use Rattle.proto_requests.specs.Ports.{PortsView, AreKnown, port_in};

    ghost Value = { PortsView };

    ghost view = { λ m. record { items = map (port_in m.turn) m.held.entries } };

    ghost invariant = { λ m. AreKnown m.turn m.passed.entries m.held.entries };
}

/// Where a message may go.
#[derive(Clone, Copy, PartialEq, Eq, Debug)]
pub enum Destination {
    /// Its pipe isn't up, or it has none.
    Nowhere,
    /// Its pipe was found full.
    Full,
    /// It goes to this pipe.
    To(PipeId),
}

// The first from this number on that is not full.
fn first_free(held: &BTreeMap<u32, u64>, turn: u64, from: u64) -> Option<u32>
    ensures port { AreNumbers held.now.entries → result ≡ option_map number (find (is_free_from turn from) held.now.entries) }
    ensures full { AreNumbers held.now.entries → AreFull turn from (reached result) held.now.entries }
{
    match u32::try_from(from) {
        Ok(start) => first_open(held, turn, start),
        Err(_) => None,
    }
}

// The same, from the number of a pipe on.
fn first_open(held: &BTreeMap<u32, u64>, turn: u64, start: u32) -> Option<u32>
    ensures port { result ≡ option_map number (find (is_free_from turn start) held.now.entries) }
    ensures full { AreFull turn start (reached result) held.now.entries }
{
    for (p, full_in) in held.range(start..) {
        if *full_in != turn {
            return Some(*p);
        }
    }
    None
}

// Returns whether each number is below this one.
fn are_under(held: &BTreeMap<u32, u64>, p: PipeId) -> bool
    ensures { result ≡ list_all (is_under p) held.now.entries }
{
    match held.last_key_value() {
        None => true,
        Some((last, _)) => *last < p.0,
    }
}

// Makes no pipe found full in any turn.
fn restart(held: &mut BTreeMap<u32, u64>)
    ensures { held.new.entries ≡ map unmarked held.old.entries }
{
    held.retain(|_, full_in| {
        *full_in = 0;
        true
    });
}

// The number to begin at, in place of this one.
fn begin_at(passed: &BTreeMap<u64, u64>, from: u64) -> u64
    ensures { result ≡ begin_at (lookup (is_at (nat_cmp from)) passed.now.entries) from }
{
    match passed.get(&from) {
        None => from,
        Some(to) => { if from <= *to { *to } else { from } }
    }
}

// The number of the one that was found, or the end.
fn reached(found: Option<u32>) -> u64
    ensures { result ≡ reached found }
{
    match found {
        None => END,
        Some(p) => u64::from(p),
    }
}

// Remembers that all from one number up to the other were found full. Without memory it is not remembered.
fn remember(passed: &mut BTreeMap<u64, u64>, from: u64, to: u64)
    ensures { (turn : ℕ) (xs : List (ℕ × ℕ)) → AreFull turn from to xs → AllPassed turn passed.old.entries xs → AllPassed turn passed.new.entries xs }
{
    if from < to {
        let _ = passed.insert(from, to);
    }
}

impl Ports {
    /// No pipes.
    pub fn new(alloc: Global) -> Ports
        ensures { result ≡ record { items = [] } }
    {
        Ports {
            held: BTreeMap::new(alloc),
            turn: 1,
            passed: BTreeMap::new(alloc),
        }
    }

    /// Adds a pipe that comes up. Its number is above all others; otherwise it isn't the number of a new pipe.
    pub fn push(&mut self, p: PipeId) -> Result<(), NoMemory>
        ensures more { OnOk result (list_all (is_below p) self.old.items ≡ true → self.new.items ≡ self.old.items ++ record { pipe = p; is_full = false } ∷ []) }
        ensures same { OnErr result (self.new ≡ self.old) }
    {
        if !are_under(&self.held, p) {
            return Ok(());
        }
        if self.held.insert(p.0, 0).is_err() {
            return Err(NoMemory);
        }
        self.passed.clear();
        Ok(())
    }

    /// Marks the pipe as full.
    pub fn mark(&mut self, p: PipeId)
        ensures { self.new.items ≡ map (marked p) self.old.items }
    {
        match self.held.get_mut(&p.0) {
            None => {}
            Some(full_in) => *full_in = self.turn,
        }
    }

    /// Marks no pipe as full.
    pub fn clear(&mut self)
        ensures { self.new.items ≡ map cleared self.old.items }
    {
        self.passed.clear();
        if self.turn < u64::MAX {
            self.turn += 1;
            return;
        }
        restart(&mut self.held);
        self.turn = 1;
    }

    /// Removes the pipe.
    pub fn forget(&mut self, p: PipeId)
        ensures { self.new.items ≡ filter (λ (x : PortView). not (x.pipe == p)) self.old.items }
    {
        let _ = self.held.remove(&p.0);
    }

    /// Returns whether the pipe is up.
    pub fn is_up(&self, p: PipeId) -> bool
        ensures { result ≡ list_any (is_pipe p) self.now.items }
    {
        self.held.contains_key(&p.0)
    }

    /// Returns whether what goes only to this pipe can go.
    pub fn way_to(&self, to: Option<PipeId>) -> Destination
        ensures { result ≡ where_is self.now.items to }
    {
        match to {
            None => Destination::Nowhere,
            Some(p) => match self.held.get(&p.0) {
                None => Destination::Nowhere,
                Some(full_in) => {
                    if *full_in == self.turn {
                        Destination::Full
                    } else {
                        Destination::To(p)
                    }
                }
            },
        }
    }

    /// The next pipe after this one that is not full, in the round of their numbers.
    pub fn free_port(&mut self, last: PipeId) -> Option<PipeId>
        ensures same { self.new ≡ self.old }
        ensures port { result ≡ option_map (λ (x : PortView). x.pipe) (next_port last self.old.items) }
    {
        match self.free_behind(last) {
            Some(p) => Some(PipeId(p)),
            None => match self.lowest_free() {
                Some(p) => Some(PipeId(p)),
                None => None,
            },
        }
    }

    // The first pipe after this one that is not full.
    fn free_behind(&mut self, last: PipeId) -> Option<u32>
        ensures same { self.new ≡ self.old }
        ensures port { result ≡ option_map (λ (x : PortView). x.pipe) (find (is_free_behind last) self.old.items) }
    {
        self.free_from(u64::from(last.0) + 1)
    }

    // The first pipe that is not full.
    fn lowest_free(&mut self) -> Option<u32>
        ensures same { self.new ≡ self.old }
        ensures port { result ≡ option_map (λ (x : PortView). x.pipe) (find is_free self.old.items) }
    {
        self.free_from(0)
    }

    // The first pipe from this number on that is not full.
    fn free_from(&mut self, from: u64) -> Option<u32>
        ensures same { self.new ≡ self.old }
        ensures port { result ≡ option_map (λ (x : PortView). x.pipe) (find (is_free_at from) self.old.items) }
    {
        let begin = begin_at(&self.passed, from);
        let found = first_free(&self.held, self.turn, begin);
        remember(&mut self.passed, from, reached(found));
        found
    }
}
