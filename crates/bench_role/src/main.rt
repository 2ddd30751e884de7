//! The cost of a call of the machines of pub, sub, surveyor, req, rep and pair, as topics, contexts, pipes, live requests
//! and queues grow: nanoseconds for each unit of work, on standard error. What is printed is the same at any speed.
//!
//! Each machine plays a text. The room of a sub's queues, the version of a pair, or `usual` follows `#`, and then the
//! sizes at which it is played. Then follow lines of these kinds:
//!
//! | line | what it says |
//! |---|---|
//! | `once CALL, CALL..` | the calls are made |
//! | `repeat COUNT CALL, CALL..` | the calls are made COUNT times, in this order |
//! | `and_once CALL, CALL..`, `and_repeat COUNT CALL, CALL..` | the same; the time of the lines before counts too |
//! | `row UNITS NAME` | the time of the line before, for each of UNITS units |
//!
//! | call | what it does |
//! |---|---|
//! | `up PIPE`, `down PIPE` | the pipe comes up, and goes down |
//! | `fresh`, `full PIPE` | a turn begins, and the pipe has no room in it |
//! | `clock TICK` | the clock goes on |
//! | `open CONTEXT`, `shut CONTEXT` | the context is opened, and shut |
//! | `put_on CONTEXT NUMBER`, `take_off CONTEXT NUMBER` | it subscribes to a topic of five bytes, and unsubscribes |
//! | `put_letters_on COUNT` | context 0 subscribes to COUNT letters t and an a |
//! | `send SLOT CONTEXT`, `receive SLOT CONTEXT` | a send and a receive begin |
//! | `answer PIPE ID` | a reply or a response with this id comes, or a request |
//! | `stranger` | a frame that no topic matches comes on pipe 1 |
//! | `hop` | a frame with a hop count comes on pipe 1 |
//! | `letters COUNT` | from now on that frame is COUNT letters t |
//! | `take PIPES` | what is offered is done, over PIPES pipes |
//! | `find_full`, `find_down` | the pipe of the offered send is full, and goes down |
//! | `idle COUNT` | nothing is offered, COUNT times |
//! | `unwanted PIPES` | no frame is wanted from any of PIPES pipes |
//!
//! `bench_base` says what a number may be. A call with another result ends the program with an error.
#![tactic(auto)]

mod answered;
mod asked;
mod bench;
mod calls;
mod makers;
mod moves;
mod paired;
mod spread;
mod surveyed;

use bench::play_all;
use makers::MadeMachine;
use proto_pair::Pair;
use proto_pubsub::{Publish, Subscribe};
use proto_reqrep::{Reply, Request};
use proto_survey::Survey;
use std::io::{self, Eprint};
use std::time::Clock;

// Plays the texts of all six roles. Returns whether it could.
fn each_role<
    U: MadeMachine,
    B: MadeMachine,
    S: MadeMachine,
    Q: MadeMachine,
    P: MadeMachine,
    A: MadeMachine,
    R: AllocGlobal + Clock + Eprint,
>(rt: &R) -> bool {
    play_all::<U, R>(rt, spread::SUB)
        && play_all::<B, R>(rt, spread::PUB)
        && play_all::<S, R>(rt, surveyed::SURVEYOR)
        && play_all::<Q, R>(rt, asked::REQ)
        && play_all::<P, R>(rt, answered::REP)
        && play_all::<A, R>(rt, paired::PAIR)
}

fn all<R: AllocGlobal + Clock + Eprint>(rt: &R) -> bool {
    each_role::<Subscribe, Publish, Survey, Request, Reply, Pair, R>(rt)
}

fn main(rt: HostRuntime) -> io::Result<()> {
    if !all(&rt) {
        return Err(io::Error::from(io::ErrorKind::OutOfMemory));
    }
    println!(rt; "Calls of machines were measured.")?;
    Ok(())
}
