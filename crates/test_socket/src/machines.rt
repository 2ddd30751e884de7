//! Machines and wires of plays, made from texts. What wires give is separated by semicolons, as in `'x; silent`; an
//! empty text is no wire. A word is the body of a frame; `bytes*3`, for the frames 0, 1 and 2 of one byte each;
//! `pause`, for nothing once; `end`, for the end; or `silent`, for no step.
ghost use Rattle.std.specs.Prelude.{◌≡◌};
ghost use Rattle.sp_proto.specs.Kinds.{Kind, Starts};
ghost use Rattle.proto_pipeline.specs.Pulls.{Ties as PullTies};
ghost use Rattle.proto_pipeline.specs.Pushes.{Ties as PushTies};
ghost use Rattle.proto_pubsub.specs.Subs.{Ties as SubTies};
ghost use Rattle.core_state.specs.Wires.{IsUnused};

use crate::checks::is_right;
use crate::line::bytes_of;
use crate::marks::unmarked;
use crate::plays::wrong_line;
use crate::wires::UnusedWires;
use proto_pipeline::{Pull, Push};
use proto_pubsub::Subscribe;
use sp_base::{Bytes, Role};
use sp_fakes::{MemWire, WireStep};
use sp_socket::Options;
use std::alloc::Global;
use std::process::Abort;
use std::sync::Wait;
use std::thread::Threads;

/// The machine of a pull. Aborts when out of memory.
pub fn pull(rt: &impl Abort, alloc: Global) -> Pull
    ensures { (k : Kind) × Starts PullTies result k }
{
    match Pull::new(alloc, Options::usual(Role::Pull, 0), false) {
        Ok(machine) => machine,
        Err(_) => panic!(rt; "no memory for a pull"),
    }
}

/// The machine of a push. Aborts when out of memory.
pub fn push(rt: &impl Abort, alloc: Global) -> Push
    ensures { (k : Kind) × Starts PushTies result k }
{
    match Push::new(alloc, Options::usual(Role::Push, 0), false) {
        Ok(machine) => machine,
        Err(_) => panic!(rt; "no memory for a push"),
    }
}

// The machine of a sub. Aborts when out of memory.
fn sub(rt: &impl Abort, alloc: Global) -> Subscribe
    ensures { (k : Kind) × Starts SubTies result k }
{
    match Subscribe::new(alloc, Options::usual(Role::Sub, 0), false) {
        Ok(machine) => machine,
        Err(_) => panic!(rt; "no memory for a sub"),
    }
}

// ---- Wires

// Appends the frame, if there is memory for it.
fn add_frame(alloc: Global, script: &mut Vec<WireStep>, body: &[u8]) -> Option<()> {
    let bytes = Bytes::from_slice(alloc, body).ok()?;
    script.push(WireStep::Bytes(bytes)).ok()
}

// Appends `frames` frames of one byte each, 0 and so on.
fn add_count(alloc: Global, script: &mut Vec<WireStep>, frames: u8) -> Option<()> {
    for n in 0..frames {
        add_frame(alloc, script, [n].as_slice())?;
    }
    Some(())
}

// Appends what the word says; `None` where it has no meaning, or there is no memory for it.
fn add_word(alloc: Global, script: &mut Vec<WireStep>, word: &str) -> Option<()> {
    if let Some(frames) = word.strip_prefix("bytes*") {
        return add_count(alloc, script, frames.parse::<u8>().ok()?);
    }
    match word {
        "silent" => Some(()),
        "pause" => script.push(WireStep::NotYet).ok(),
        "end" => script.push(WireStep::End).ok(),
        _ => add_frame(alloc, script, bytes_of(alloc, word)?.as_slice()),
    }
}

// The words as a script.
fn script_of(alloc: Global, gives: &str) -> Option<Vec<WireStep>> {
    let mut script = Vec::new(alloc);
    for word in gives.split(' ') {
        add_word(alloc, &mut script, word)?;
    }
    Some(script)
}

/// A wire that takes `most` messages, and gives what these words say. Aborts where a word has no meaning, or there is
/// no memory for it.
pub fn wire(rt: &impl Abort, alloc: Global, most: u64, gives: &str) -> MemWire
    ensures { IsUnused result.wire }
{
    match script_of(alloc, gives) {
        Some(script) => MemWire::new(alloc, script, most, Vec::new(alloc)),
        None => panic!(rt; "a word of a wire says nothing"),
    }
}

// One wire for each of these texts; none takes a message.
fn wires(rt: &impl Abort, alloc: Global, texts: &str) -> UnusedWires<MemWire> {
    let mut all = UnusedWires::new(alloc);
    if texts.is_empty() {
        return all;
    }
    for gives in texts.split("; ") {
        all.add(rt, wire(rt, alloc, 0, gives));
    }
    all
}

// ---- Plays

fn pull_plays<R: Wait + Abort + Threads + Sync>(
    rt: &R,
    alloc: Global,
    size: &str,
    gives: &str,
    play: &str,
) -> Option<usize> {
    let (wires, marks) = (wires(rt, alloc, gives), unmarked(rt, alloc));
    wrong_line(rt, alloc, pull(rt, alloc), size, wires, None, &marks, play)
}

fn push_plays<R: Wait + Abort + Threads + Sync>(
    rt: &R,
    alloc: Global,
    size: &str,
    gives: &str,
    play: &str,
) -> Option<usize> {
    let (wires, marks) = (wires(rt, alloc, gives), unmarked(rt, alloc));
    wrong_line(rt, alloc, push(rt, alloc), size, wires, None, &marks, play)
}

fn sub_plays<R: Wait + Abort + Threads + Sync>(
    rt: &R,
    alloc: Global,
    size: &str,
    gives: &str,
    play: &str,
) -> Option<usize> {
    let (wires, marks) = (wires(rt, alloc, gives), unmarked(rt, alloc));
    wrong_line(rt, alloc, sub(rt, alloc), size, wires, None, &marks, play)
}

/// The number (from 1 on) of the line that is wrong, or 0 where the whole is. `socket` is its role, slots and callers,
/// as in `pull 4 2`, and `gives` is what its wires give.
pub fn line_wrong_for<R: Wait + Abort + Threads + Sync>(
    rt: &R,
    alloc: Global,
    socket: &str,
    gives: &str,
    play: &str,
) -> Option<usize> {
    match socket.split_once(' ') {
        Some(("pull", size)) => pull_plays(rt, alloc, size, gives, play),
        Some(("push", size)) => push_plays(rt, alloc, size, gives, play),
        Some(("sub", size)) => sub_plays(rt, alloc, size, gives, play),
        _ => panic!(rt; "no such socket"),
    }
}

/// Plays the text on such a socket, and aborts where it is wrong.
pub fn plays<R: Wait + Abort + Threads + Sync>(
    rt: &R,
    alloc: Global,
    socket: &str,
    gives: &str,
    play: &str,
) {
    is_right(rt, line_wrong_for(rt, alloc, socket, gives, play))
}
