//! How fast nngcat's run goes over a link in memory: a pull that prints, and a push that sends; and how fast bodies are
//! printed. What is printed is the same at any speed: the result of each run. The rates go to standard error.
#![tactic(auto)]

mod texts;

use bench_base::timing::{now, since};
use cat_run::{Status, run};
use sp_base::{Bytes, NoMemory};
use sp_fakes::{LinkStep, MemFiles, MemLink, MemNet, MemPace, MemSink};
use std::alloc::Global;
use std::io::{self, Eprint, Print};
use std::sync::Wait;
use std::thread::Threads;
use std::time::Clock;

/// The greatest number of turns of a run.
const TURNS: u64 = 1_000_000;

/// The option before the body that a push sends.
const DATA: &str = "--data=";

/// The result of a run.
#[derive(Clone, Copy)]
struct MeasuredRun {
    status: Status,
    printed: usize,
    written: usize,
    left: u64,
}

// The bytes of a link from its start: the greeting of a peer with this number, and `count` frames with this body.
fn text_of(alloc: Global, number: u8, body: &[u8], count: u32) -> Result<Vec<u8>, NoMemory> {
    let mut text = Vec::from_slice(alloc, &[0, b'S', b'P', 0, 0, number, 0, 0])?;
    for _ in 0..count {
        text.extend_from_slice(&(body.len() as u64).to_be_bytes())?;
        text.extend_from_slice(body)?;
    }
    Ok(text)
}

// A net with one incoming link, which brings this text.
fn net_of(alloc: Global, text: Vec<u8>) -> Result<MemNet, NoMemory> {
    let mut script = Vec::new(alloc);
    script.push(LinkStep::Bytes(Bytes::from_vec(text)))?;
    let mut links = Vec::new(alloc);
    links.push(MemLink::new(alloc, script, 65_536, Vec::new(alloc)))?;
    let mut incoming = Vec::new(alloc);
    incoming.push(links)?;
    MemNet::new(alloc, incoming, Vec::new(alloc), Vec::new(alloc))
}

// Runs the words over the net.
fn over<R: AllocGlobal + Wait + Threads + Sync>(
    rt: &R,
    words: &[String],
    mut net: MemNet,
) -> MeasuredRun {
    let alloc = rt.alloc();
    let mut files = MemFiles::new(alloc, Vec::new(alloc), Vec::new(alloc));
    let mut pace = MemPace::new(TURNS, 1);
    let mut out = MemSink::new(alloc, Vec::new(alloc));
    let end = run(rt, words, &mut net, &mut files, &mut pace, &mut out, 0);
    let written = match net.returned(0) {
        Some(link) => link.written().len(),
        None => 0,
    };
    MeasuredRun {
        status: end.status,
        printed: out.text().len(),
        written,
        left: pace.left(),
    }
}

// The words of a line.
fn words_of(alloc: Global, line: &str) -> Result<Vec<String>, NoMemory> {
    let mut words = Vec::new(alloc);
    for word in line.split(' ') {
        words.push(String::from_str(alloc, word)?)?;
    }
    Ok(words)
}

// Runs a role with this option that sends or prints `count` messages, over one link with `frames` frames of a peer with
// this number. Prints the result of the run and its speed, and returns whether it could.
fn measure<R: AllocGlobal + Clock + Eprint + Print + Sync + Threads + Wait>(
    rt: &R,
    role: &str,
    option: &str,
    size: u32,
    count: u32,
    number: u8,
    body: &[u8],
    frames: u32,
) -> Result<bool, NoMemory> {
    let alloc = rt.alloc();
    let start = now(rt);
    let line = format!(in alloc;
        "--{role} --listen=tcp://127.0.0.1:5555 {option} --count={count}"
    )?;
    let words = words_of(alloc, &line)?;
    let net = net_of(alloc, text_of(alloc, number, body, frames)?)?;
    let ran = over(rt, &words, net);
    let micros = (since(rt, start) / 1_000).max(1);
    let rate = u128::from(count) * 1_000_000 / micros;
    let printed = println!(rt;
        "{role} {size}: {:?}, {} bytes printed, {} written",
        ran.status, ran.printed, ran.written
    );
    let turns = TURNS.saturating_sub(ran.left);
    Ok(printed.is_ok() && eprintln!(rt; "{role} {size}: {rate} messages/s, {turns} turns").is_ok())
}

// The option for a body of `size` bytes.
fn data_of(alloc: Global, size: u32) -> Result<String, NoMemory> {
    let mut option = String::from_str(alloc, DATA)?;
    for _ in 0..size {
        option.push('x')?;
    }
    Ok(option)
}

// Measures a pull that prints `count` messages of this size, raw, and a push that sends them. Returns whether it could.
fn both<R: AllocGlobal + Clock + Eprint + Print + Sync + Threads + Wait>(
    rt: &R,
    size: u32,
    count: u32,
) -> Result<bool, NoMemory> {
    let data = data_of(rt.alloc(), size)?;
    let Some(body) = data.strip_prefix(DATA) else {
        return Ok(false);
    };
    let pulled = measure(
        rt,
        "pull",
        "--raw",
        size,
        count,
        0x50,
        body.as_bytes(),
        count,
    )?;
    Ok(pulled && measure(rt, "push", &data, size, count, 0x51, &[], 0)?)
}

// Measures the runs, and then the prints. Returns whether it could.
fn all<R: AllocGlobal + Clock + Eprint + Print + Sync + Threads + Wait>(
    rt: &R,
) -> Result<bool, NoMemory> {
    Ok(
        both(rt, 16, 20_000)?
            && both(rt, 1_024, 5_000)?
            && both(rt, 65_536, 100)?
            && texts::bench(rt)?,
    )
}

fn main(rt: HostRuntime) -> io::Result<()> {
    match all(&rt) {
        Ok(true) => Ok(()),
        _ => Err(io::Error::from(io::ErrorKind::OutOfMemory)),
    }
}
