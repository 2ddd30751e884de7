//! The cost of calls of the core for a push, a pull, a req, a rep and a surveyor as pipes, contexts and operations
//! grow, over wires in memory that take no time of their own: nanoseconds for each pipe or operation that it touches,
//! on standard error. On standard output it prints what each socket counted until its close, which is the same at any
//! speed, so a row that measured refusals would show. The first rows measure deadlines, in a wheel and in a sorted
//! list.
//!
//! Each core plays a text. The sizes at which it is played follow `#`: a queue that doubles its room has just enough at
//! a power of 2, so where that matters one size isn't one. The first size is small, since what runs first takes longer.
//! The next line is `cooked SLOTS NAME` or `raw SLOTS NAME`, where NAME names the socket's counts. Then follow lines of
//! these kinds:
//!
//! | line | what it says |
//! |---|---|
//! | `once CALL, CALL..` | the calls are made |
//! | `repeat COUNT CALL, CALL..` | the calls are made COUNT times, in this order |
//! | `and_once CALL, CALL..`, `and_repeat COUNT CALL, CALL..` | the same; the time of the lines before counts too |
//! | `pipes COUNT ROOM GIVES` | COUNT pipes come, over wires that take ROOM messages and give this |
//! | `row UNITS NAME` | the time of the line before, for each of UNITS units |
//! | `row_apart UNITS NAME` | the same for its time after every other `switch` |
//!
//! | call | what it does |
//! |---|---|
//! | `open`, `shut CONTEXT` | a context is opened, and shut |
//! | `send CONTEXT`, `send_raw CONTEXT` | a send begins, and one of a raw request |
//! | `receive CONTEXT`, `receive_by CONTEXT TICK` | a receive begins, without and with a deadline |
//! | `receive_now CONTEXT` | a message is received at once |
//! | `collect_first`, `collect_last` | the first or the last open operation is collected |
//! | `pass_on CONTEXT` | the first open operation is collected, and a send of its message begins |
//! | `cancel RECEIVE`, `expire RECEIVE` | the receive is cancelled, and times out if it was due |
//! | `forget` | receives are counted from 0 again |
//! | `serve`, `tick TICK` | the pipes are served, and the clock goes on |
//! | `serve_busy MOST` | the pipes that are busy are served, with at most MOST frames of each |
//! | `take_ended`, `close` | a pipe that is down is taken, and the core is closed |
//! | `switch` | what follows is timed apart from what came before |
//!
//! A wire gives `plain COUNT`, COUNT frames of one byte; `ids FIRST COUNT`, COUNT frames with ids from FIRST on;
//! `ids_apart FIRST COUNT`, the same with one in each serve; or `end_after COUNT`, nothing in COUNT serves, and then
//! its end. `bench_base` says what a number may be; after `pipes`, `i` is the number of pipes that came before.
#![tactic(auto)]

mod bench;
mod calls;
mod deadlines;
mod makers;
mod pipeline;
mod replies;
mod requests;
mod scripts;
mod surveys;

use bench::play_all;
use makers::{Made, Scripted};
use proto_pipeline::{Pull, Push};
use proto_reqrep::{Reply, Request};
use proto_survey::Survey;
use sp_fakes::MemWire;
use std::io::{self, Eprint, Print};
use std::sync::Wait;
use std::time::Clock;

// Plays the texts of all five roles. Returns whether it could.
fn each_role<
    U: Made,
    L: Made,
    Q: Made,
    P: Made,
    S: Made,
    W: Scripted,
    R: AllocGlobal + Clock + Eprint + Print + Wait,
>(rt: &R) -> bool {
    play_all::<U, W, R>(rt, pipeline::PUSH)
        && play_all::<L, W, R>(rt, pipeline::PULL)
        && play_all::<Q, W, R>(rt, requests::REQ)
        && play_all::<P, W, R>(rt, replies::REP)
        && play_all::<S, W, R>(rt, surveys::SURVEYOR)
}

fn all<R: AllocGlobal + Clock + Eprint + Print + Wait>(rt: &R) -> bool {
    deadlines::rows(rt).is_ok() && each_role::<Push, Pull, Request, Reply, Survey, MemWire, R>(rt)
}

fn main(rt: HostRuntime) -> io::Result<()> {
    if !all(&rt) {
        return Err(io::Error::from(io::ErrorKind::OutOfMemory));
    }
    println!(rt; "Calls of the core were measured.")?;
    Ok(())
}
