//! Files, and standard input.
ghost use Rattle.std.specs.Prelude.{◌≡◌, None};

use crate::fault::Reason;
use sp_base::{Bytes, Files, Whole};
use std::alloc::Global;
use std::io::{ErrorKind, Read};
use std::rt::Clock;
use std::time::Duration;
use std::{fs, io, thread};

/// The milliseconds between two tries while standard input has nothing yet.
const REST: u64 = 1;

/// The number of bytes that a read of standard input asks for.
const PIECE: usize = 65_536;

/// Files by their names; the name `-` is standard input, which gives all that comes until its end. If it is
/// non-blocking and has nothing yet, the call waits.
#[derive(Drop)]
pub struct RealFiles<R: std::rt::Files + Input + Clock + AllocGlobal + Drop> {
    rt: R,
    faults: u64,
    last_fault: Option<Reason>,
}

impl<R: std::rt::Files + Input + Clock + AllocGlobal + Drop> RealFiles<R> {
    /// The files of the machine, with no fault so far.
    pub fn new(rt: R) -> RealFiles<R>
        ensures { result.faults ≡ 0 }
    {
        RealFiles {
            rt,
            faults: 0,
            last_fault: None,
        }
    }

    /// Why the last file that failed did.
    pub fn last_fault(&self) -> Option<Reason> {
        self.last_fault
    }
}

// Room for a piece of standard input.
fn piece(alloc: Global) -> io::Result<Vec<u8>> {
    Ok(vec![in alloc; 0u8; PIECE]?)
}

// Reads the next piece. Returns false at the end.
fn read_on<R: Clock, I: Read>(
    rt: &R,
    input: &mut I,
    piece: &mut [u8],
    bytes: &mut Vec<u8>,
) -> io::Result<bool> {
    match input.read(piece) {
        Ok(0) => Ok(false),
        Ok(n) => {
            bytes.extend_from_slice(&piece[..n])?;
            Ok(true)
        }
        Err(e) => match e.kind() {
            ErrorKind::WouldBlock => {
                thread::sleep(rt, Duration::from_millis(REST));
                Ok(true)
            }
            ErrorKind::Interrupted => Ok(true),
            _ => Err(e),
        },
    }
}

// All that standard input gives until its end.
fn read_input<R: Input + Clock + AllocGlobal>(rt: &R) -> io::Result<Vec<u8>> {
    let mut bytes = Vec::new(rt.alloc());
    let mut piece = piece(rt.alloc())?;
    let mut input = rt.reader();
    for _ in 0..u64::MAX {
        if !read_on(rt, &mut input, &mut piece, &mut bytes)? {
            break;
        }
    }
    Ok(bytes)
}

// All that a file, or standard input, holds.
fn read_all<R: std::rt::Files + Input + Clock + AllocGlobal>(
    rt: &R,
    name: &str,
) -> io::Result<Vec<u8>> {
    if name == "-" {
        read_input(rt)
    } else {
        fs::read(rt, name)
    }
}

impl<R: std::rt::Files + Input + Clock + AllocGlobal + Drop> Files for RealFiles<R> {
    ghost seen = { λ f. record { holds = None; faults = f.faults } };

    fn whole(&mut self, name: &str) -> Whole {
        match read_all(&self.rt, name) {
            Ok(bytes) => Whole::Bytes(Bytes::from_vec(bytes)),
            Err(e) => {
                if e.kind() == ErrorKind::OutOfMemory {
                    return Whole::NoMemory;
                }
                self.faults = self.faults.saturating_add(1);
                self.last_fault = Some(Reason::of(e));
                Whole::Failed
            }
        }
    }
}
