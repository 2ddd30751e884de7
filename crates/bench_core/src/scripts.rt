//! The scripts of the wires of pipes.
use bench_base::line::Line;
use bench_base::number::Number;
use sp_base::{Bytes, NoMemory};
use sp_fakes::WireStep;
use std::alloc::Global;

/// What a wire gives before it goes silent.
#[derive(Clone, Copy)]
pub enum Gives {
    /// As many frames of one byte.
    Plain(u32),
    /// Frames with ids from the first number on, as many as the second says: requests, replies, surveys or responses.
    Ids(Number, u32),
    /// The same, one in each serve.
    IdsApart(Number, u32),
    /// Nothing in as many serves, and then the end.
    End(u32),
}

/// Reads from the rest of the line what a pipe's wire gives.
pub fn gives_of(line: &mut Line<'_>) -> Option<Gives> {
    match line.word() {
        "plain" => Some(Gives::Plain(line.count())),
        "ids" => Some(Gives::Ids(line.number()?, line.count())),
        "ids_apart" => Some(Gives::IdsApart(line.number()?, line.count())),
        "end_after" => Some(Gives::End(line.count())),
        _ => None,
    }
}

// The script of `frames` frames of one byte.
fn plain(alloc: Global, frames: u32) -> Result<Vec<WireStep>, NoMemory> {
    let mut script = Vec::new(alloc);
    for _ in 0..frames {
        script.push(WireStep::Bytes(Bytes::from_slice(alloc, b"x")?))?;
    }
    Ok(script)
}

// A frame with this id, and a byte.
fn numbered(alloc: Global, id: u32) -> Result<WireStep, NoMemory> {
    let [a, b, c, d] = id.to_be_bytes();
    Ok(WireStep::Bytes(Bytes::from_slice(alloc, &[a | 128, b, c, d, 120])?))
}

// The script of `count` frames with ids from `first` on, with or without pauses.
fn series(alloc: Global, first: u32, count: u32, pauses: bool) -> Result<Vec<WireStep>, NoMemory> {
    let mut script = Vec::new(alloc);
    for i in 0..count {
        script.push(numbered(alloc, first.wrapping_add(i))?)?;
        if pauses {
            script.push(WireStep::NotYet)?;
        }
    }
    Ok(script)
}

// The script of `pauses` pauses and the end.
fn ending(alloc: Global, pauses: u32) -> Result<Vec<WireStep>, NoMemory> {
    let mut script = Vec::new(alloc);
    for _ in 0..pauses {
        script.push(WireStep::NotYet)?;
    }
    script.push(WireStep::End)?;
    Ok(script)
}

/// The script of the wire before which `before` others were made.
pub fn script(alloc: Global, gives: Gives, before: u32) -> Result<Vec<WireStep>, NoMemory> {
    match gives {
        Gives::Plain(frames) => plain(alloc, frames),
        Gives::Ids(first, count) => series(alloc, first.after(before), count, false),
        Gives::IdsApart(first, count) => series(alloc, first.after(before), count, true),
        Gives::End(pauses) => ending(alloc, pauses),
    }
}
