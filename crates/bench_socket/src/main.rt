//! The cost of a turn of a socket compared with a call of the core, and of turns, cancels, receives and races for one
//! caller, two and four: nanoseconds for each, on standard error. What is printed is the same at any speed: how many
//! there were. A number as the program's first word sets how many of each there are.
#![tactic(auto)]

mod alone;
mod callers;
mod makers;
mod work;

use alone::{attach_alone, core_over, end_alone, many_alone};
use bench_base::timing::{now, since};
use callers::{attach, do_all, end, let_go, opened};
use makers::{ScriptedWire, SocketMachine, script};
use proto_pipeline::Pull;
use sp_base::NoMemory;
use sp_fakes::MemWire;
use std::env;
use std::io::{self, Eprint, Print};
use std::sync::Wait;
use std::sync::atomic::{AtomicU64, Ordering};
use std::thread::Threads;
use std::time::Clock;
use work::Work;

/// How many of each there are, for all callers together, where the program has no word. Up to four callers share them.
const TIMES: u32 = 4_000;

/// The measured work, by a core without a socket or by some callers of a socket. What is printed begins with the line.
const ROWS: &str = "Turns by a core alone
Turns by 1
Turns by 2
Turns by 4
Now by a core alone
Now by 1
Cancels by 1
Cancels by 2
Cancels by 4
Receives by 1
Receives by 2
Receives by 4
Races by 1
Races by 2
Races by 4";

// The result of a run: how often the work was done, in how many nanoseconds, and whether its wire was attached.
#[derive(Clone, Copy)]
struct Ran {
    attached: bool,
    done: u64,
    nanos: u128,
}

// Does the work `times` times by `callers` callers of a socket, over a wire that has a frame for each receive.
fn run<
    P: SocketMachine + Send,
    W: ScriptedWire + Send,
    R: AllocGlobal + Threads + Wait + Clock + Sync,
>(rt: &R, work: Work, times: u32, callers: u32) -> Result<Ran, NoMemory> {
    let alloc = rt.alloc();
    let script = script(alloc, work.frames(times))?;
    let (socket, mut list) = opened(alloc, P::made(alloc)?)?;
    let attached = attach(rt, &socket, &mut list, W::scripted(alloc, script));
    let done = AtomicU64::new(0);
    let each = times / callers.max(1);
    let start = now(rt);
    do_all(rt, alloc, &socket, &mut list, callers, work, each, &done);
    let nanos = since(rt, start);
    end(rt, socket, list);
    Ok(Ran {
        attached,
        done: done.load(Ordering::SeqCst),
        nanos,
    })
}

// Does the work `times` times by a core without a socket.
fn run_alone<P: SocketMachine, W: ScriptedWire, R: AllocGlobal + Wait + Clock>(
    rt: &R,
    work: Work,
    times: u32,
) -> Result<Ran, NoMemory> {
    let alloc = rt.alloc();
    let script = script(alloc, work.frames(times))?;
    let mut core = core_over(alloc, P::made(alloc)?)?;
    let attached = attach_alone(rt, &mut core, W::scripted(alloc, script));
    let start = now(rt);
    let done = many_alone(rt, &mut core, work, times);
    let nanos = since(rt, start);
    let_go(rt, end_alone(rt, core));
    Ok(Ran {
        attached,
        done: u64::from(done),
        nanos,
    })
}

// Prints how often it was done, and on standard error how long each took. Returns whether it could.
fn report<R: Print + Eprint>(rt: &R, row: &str, ran: Ran) -> bool {
    let nanos = ran.nanos / u128::from(ran.done.max(1));
    ran.attached
        && println!(rt; "{row}: {}", ran.done).is_ok()
        && eprintln!(rt; "{row}: {nanos} ns each").is_ok()
}

// Measures a row, if it is one. Returns whether there was memory, and it could be printed.
fn is_measured<
    P: SocketMachine + Send,
    W: ScriptedWire + Send,
    R: AllocGlobal + Threads + Wait + Clock + Print + Eprint + Sync,
>(rt: &R, row: &str, times: u32) -> bool {
    let Some((work, by)) = row.split_once(" by ") else {
        return false;
    };
    let Some(work) = Work::named(work) else {
        return false;
    };
    let ran = match by {
        "a core alone" => run_alone::<P, W, R>(rt, work, times),
        _ => {
            let Ok(callers) = by.parse::<u32>() else {
                return false;
            };
            run::<P, W, R>(rt, work, times, callers)
        }
    };
    match ran {
        Ok(ran) => report(rt, row, ran),
        Err(_) => false,
    }
}

// Measures all rows. Returns whether it could.
fn all<
    P: SocketMachine + Send,
    W: ScriptedWire + Send,
    R: AllocGlobal + Threads + Wait + Clock + Print + Eprint + Sync,
>(rt: &R, times: u32) -> bool {
    for row in ROWS.lines() {
        if !is_measured::<P, W, R>(rt, row, times) {
            return false;
        }
    }
    true
}

// How many of each there are: the program's first word, or `TIMES`.
fn times_of(word: Option<String>) -> u32 {
    let Some(word) = word else {
        return TIMES;
    };
    match word.parse::<u32>() {
        Ok(times) => times,
        Err(_) => TIMES,
    }
}

// Measures all rows with pulls, over wires in memory.
fn of_a_pull<R: AllocGlobal + Threads + Wait + Clock + Print + Eprint + Sync>(
    rt: &R,
    times: u32,
) -> bool {
    all::<Pull, MemWire, R>(rt, times)
}

fn main(rt: HostRuntime) -> io::Result<()> {
    let times = times_of(env::args(&rt)?.skip(1).next());
    if !of_a_pull(&rt, times) {
        return Err(io::Error::from(io::ErrorKind::OutOfMemory));
    }
    Ok(())
}
