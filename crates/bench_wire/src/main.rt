//! How fast messages go through a wire over a link in memory, out and in again. What is printed is the same at any
//! speed: how many messages and bytes came, and how many writes they took. The rates go to standard error.
#![tactic(auto)]

ghost use Rattle.std.specs.Prelude.{◌≡◌, true, IfOk};
ghost use Rattle.test_wire.specs.Untolds.{tube_view};

use bench_base::timing::{now, since};
use sp_base::{Framing, NoMemory};
use sp_msg::{Message, Room, Wire, WireFlush, WireIn};
use sp_tcp::TcpWire;
use std::alloc::Global;
use std::io::{self, Eprint, Print};
use std::sync::Wait;
use std::time::Clock;
use test_wire::Tube;

/// The result of a run.
#[derive(Clone, Copy)]
struct WireRun {
    messages: u32,
    bytes: u64,
    writes: u64,
}

// Puts `count` messages and writes them all. Returns whether it did.
#[tactic(auto, using(sp_msg::proofs::Shown::open_flushes))]
fn fill<W: Wire, R: Wait>(
    alloc: Global,
    rt: &R,
    wire: &mut W,
    body: &[u8],
    count: u32,
) -> Result<bool, NoMemory>
    requires { (W.shown wire.old).is_open ≡ true }
    ensures { IfOk result (λ all. all ≡ true → (W.shown wire.new).is_open ≡ true) }
{
    'puts: for _ in 0..count {
        let m = Message::from_body(alloc, body)?;
        match wire.room(rt) {
            Room::Yes => wire.put(rt, m),
            _ => return Ok(false),
        }
    }
    match wire.flush(rt) {
        WireFlush::Empty => Ok(true),
        _ => Ok(false),
    }
}

// Pulls at most `most` messages, and returns how many came and how many bytes they had.
fn drain<W: Wire, R: Wait>(rt: &R, wire: &mut W, most: u32) -> (u32, u64)
    requires { (W.shown wire.old).is_open ≡ true }
{
    let mut messages = 0u32;
    let mut bytes = 0u64;
    'pulls: for _ in 0..most {
        match wire.pull(rt) {
            WireIn::Message(m) => {
                messages = messages.saturating_add(1);
                bytes = bytes.saturating_add(m.body().len() as u64);
            }
            _ => return (messages, bytes),
        }
    }
    (messages, bytes)
}

fn over(alloc: Global, link: Tube) -> Result<TcpWire<Tube>, NoMemory>
    requires { (tube_view link).is_open ≡ true }
    ensures { IfOk result (λ w. w.wire.is_open ≡ true) }
{
    match TcpWire::new(alloc, link, &[], 65_536, Framing::Tcp) {
        Ok(wire) => Ok(wire),
        Err((e, link)) => {
            let _ = link;
            Err(e)
        }
    }
}

fn run<R: Wait>(
    alloc: Global,
    rt: &R,
    body: &[u8],
    count: u32,
) -> Result<Option<WireRun>, NoMemory> {
    let mut out = over(alloc, Tube::new(alloc, 0))?;
    if !fill(alloc, rt, &mut out, body, count)? {
        return Ok(None);
    }
    let link = out.into_link();
    let writes = link.writes();
    let mut inward = over(alloc, link)?;
    let (messages, bytes) = drain(rt, &mut inward, count);
    Ok(Some(WireRun {
        messages,
        bytes,
        writes,
    }))
}

// Measures `count` messages of `size` bytes. Returns whether all were written, and it could be printed.
fn measure<R: AllocGlobal + Clock + Eprint + Print + Wait>(
    rt: &R,
    size: usize,
    count: u32,
) -> Result<bool, NoMemory> {
    let mut body = Vec::new(rt.alloc());
    body.resize(size, 7)?;
    let start = now(rt);
    let Some(ran) = run(rt.alloc(), rt, &body, count)? else {
        return Ok(false);
    };
    let micros = (since(rt, start) / 1_000).max(1);
    let messages = u128::from(ran.messages) * 1_000_000 / micros;
    let bytes = u128::from(ran.bytes) * 1_000_000 / micros;
    let printed = println!(rt;
        "{size}: {} messages, {} bytes, {} writes",
        ran.messages, ran.bytes, ran.writes
    );
    Ok(printed.is_ok() && eprintln!(rt; "{size}: {messages} messages/s, {bytes} bytes/s").is_ok())
}

fn all<R: AllocGlobal + Clock + Eprint + Print + Wait>(rt: &R) -> Result<bool, NoMemory> {
    Ok(measure(rt, 16, 20_000)? && measure(rt, 1_024, 5_000)? && measure(rt, 65_536, 100)?)
}

fn main(rt: HostRuntime) -> io::Result<()> {
    match all(&rt) {
        Ok(true) => Ok(()),
        _ => Err(io::Error::from(io::ErrorKind::OutOfMemory)),
    }
}
