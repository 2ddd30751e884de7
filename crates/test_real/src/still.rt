//! A push whose send times out, over a link of this machine whose peer stops reading: how many turns the run has then.
//! The time is that of a pace in memory, so a run is over at once.

use crate::checks::{holds, made};
use crate::websocket::{here, words_of};
use cat_run::real::{RealPace, TcpNet};
use cat_run::{Status, run};
use sp_base::{Bytes, Pace, Paced};
use sp_fakes::{MemFiles, MemPace, MemSink};
use std::alloc::Global;
use std::io::{Read, Write};
use std::net::{OpenStream, TcpStream};
use std::process::Abort;
use std::rt::Clock;
use std::sync::Wait;
use std::thread::Threads;

/// How many turns a pace has, and how many milliseconds apart.
const TURNS: u64 = 400;

const STEP: u64 = 100;

/// A peer that reads at the turns from one on up to another, and at no other.
#[derive(Clone, Copy)]
struct Reading {
    from: u64,
    to: u64,
}

/// A peer that dials a port, and reads at some turns.
#[derive(Drop)]
struct Reader<R: std::net::Net + Drop> {
    rt: R,
    port: u16,
    stream: Option<R::Stream>,
    reading: Reading,
    turn: u64,
}

/// A pace in memory whose turns find out which sockets are ready, and let a peer read.
#[derive(Drop)]
struct PaceWithReader<C: Clock + Drop, R: std::net::Net + Drop> {
    pace: MemPace,
    own: RealPace<C>,
    reader: Reader<R>,
}

// A pull that dialed this port.
fn met<R: std::net::Net>(rt: &R, port: u16) -> Option<R::Stream> {
    let mut stream = TcpStream::connect(rt, here(port)).ok()?;
    stream.set_nonblocking(true).ok()?;
    stream.write_all(b"\x00SP\x00\x00\x51\x00\x00").ok()?;
    Some(stream)
}

// Reads up to 400,000 bytes.
fn read_some<S: Read>(stream: &mut S) {
    let mut buffer = [0u8; 4_000];
    for _ in 0..100u32 {
        if stream.read(&mut buffer).is_err() {
            return;
        }
    }
}

impl<R: std::net::Net + Drop> Reader<R> {
    fn turn(&mut self) {
        if self.stream.is_none() {
            self.stream = met(&self.rt, self.port);
        }
        self.turn = self.turn.saturating_add(1);
        if self.turn < self.reading.from || self.turn >= self.reading.to {
            return;
        }
        if let Some(stream) = &mut self.stream {
            read_some(stream);
        }
    }
}

impl<C: Clock + Drop, R: std::net::Net + Drop> Pace for PaceWithReader<C, R> {
    ghost use Rattle.sp_fakes.specs.Paces.{pace_view};

    ghost seen = { λ p. pace_view p.pace };

    fn turn(&mut self, moved: bool) -> Paced {
        self.reader.turn();
        let _ = self.own.rest(0);
        self.pace.turn(moved)
    }
}

// The file `long`, of 1,000,000 bytes.
fn long_file(rt: &impl Abort, alloc: Global) -> MemFiles {
    let mut body = Vec::new(alloc);
    made(rt, body.resize(1_000_000, b'a'));
    let mut pairs = Vec::new(alloc);
    let name = made(rt, String::from_str(alloc, "long"));
    made(rt, pairs.push((name, Bytes::from_vec(body))));
    MemFiles::new(alloc, pairs, Vec::new(alloc))
}

// How many turns a push has until its send timed out and the run ended; none where the port is taken, and 0 where it
// ended otherwise.
fn turns_of<
    R: std::net::Net
        + std::fs::Files
        + Clock
        + AllocGlobal
        + Abort
        + Wait
        + Threads
        + Sync
        + Clone
        + Drop,
>(rt: &R, port: u16, reading: Reading) -> Option<u64> {
    let alloc = rt.alloc();
    let text = made(
        rt,
        format!(in alloc;
            "--push --listen tcp://127.0.0.1:{port} --file long --interval 0 --send-timeout 1"
        ),
    );
    let words = words_of(rt, alloc, &text);
    let own = made(rt, RealPace::new(made(rt, rt.clone()), rt, alloc));
    let mut net = TcpNet::new(made(rt, rt.clone()), made(rt, own.registry()), alloc);
    let mut pace = PaceWithReader {
        pace: MemPace::new(TURNS, STEP),
        own,
        reader: Reader {
            rt: made(rt, rt.clone()),
            port,
            stream: None,
            reading,
            turn: 0,
        },
    };
    let mut files = long_file(rt, alloc);
    let mut out = MemSink::new(alloc, Vec::new(alloc));
    let ran = run(rt, &words, &mut net, &mut files, &mut pace, &mut out, 0);
    match ran.status {
        Status::NetFault => None,
        Status::SendTimedOut => Some(TURNS.saturating_sub(pace.pace.left())),
        _ => Some(0),
    }
}

// The same at the first of these ports that is free.
fn turns_at<
    R: std::net::Net
        + std::fs::Files
        + Clock
        + AllocGlobal
        + Abort
        + Wait
        + Threads
        + Sync
        + Clone
        + Drop,
>(rt: &R, first: u16, reading: Reading) -> u64 {
    for port in first..first.saturating_add(30) {
        if let Some(turns) = turns_of(rt, port, reading) {
            return turns;
        }
    }
    0
}

// A second until the send times out, and a second in which the link takes nothing.
#[test]
fn a_run_whose_link_takes_nothing_ends_after_as_long_again(rt: HostRuntime) {
    let never = Reading { from: 0, to: 0 };
    let turns = turns_at(&rt, 28_835, never);
    holds(&rt, (20..=28).contains(&turns));
}

// The peer reads from before the second second is over, and stops at turn 40.
#[test]
fn a_run_goes_on_while_its_link_takes_bytes(rt: HostRuntime) {
    let reading = Reading { from: 16, to: 40 };
    let turns = turns_at(&rt, 28_875, reading);
    holds(&rt, (46..=54).contains(&turns));
}
