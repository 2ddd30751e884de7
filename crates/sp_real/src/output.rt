//! Standard output.
ghost use Rattle.std.specs.Prelude.{◌≡◌, None};

use crate::fault::Reason;
use sp_base::{Sink, Sunk};
use std::io::ErrorKind;
use std::rt::Clock;
use std::time::Duration;
use std::{io, thread};

/// The milliseconds between two tries while the output takes nothing.
const REST: u64 = 1;

/// Standard output. Each piece is written out before the call returns; where the output takes nothing yet, the call
/// waits.
#[derive(Drop)]
pub struct RealOut<R: Print + Clock + Drop> {
    rt: R,
    faults: u64,
    last_fault: Option<Reason>,
}

impl<R: Print + Clock + Drop> RealOut<R> {
    /// Standard output, with no fault so far.
    pub fn new(rt: R) -> RealOut<R>
        ensures { result.faults ≡ 0 }
    {
        RealOut {
            rt,
            faults: 0,
            last_fault: None,
        }
    }

    /// Why the last piece that failed did.
    pub fn last_fault(&self) -> Option<Reason> {
        self.last_fault
    }
}

// Writes all of a piece.
fn write_out<R: Print + Clock>(rt: &R, piece: &[u8]) -> io::Result<()> {
    let mut rest = piece;
    for turn in 0..u64::MAX {
        if rest.is_empty() {
            return Ok(());
        }
        match rt.write_some(rest) {
            Ok(0) => break,
            Ok(n) => rest = &rest[n..],
            Err(e) => match e.kind() {
                ErrorKind::WouldBlock => thread::sleep(rt, Duration::from_millis(REST)),
                ErrorKind::Interrupted => (),
                _ => return Err(e),
            },
        }
    }
    Err(io::Error::from(ErrorKind::WriteZero))
}

impl<R: Print + Clock + Drop> Sink for RealOut<R> {
    ghost seen = { λ o. record { text = None; faults = o.faults } };

    fn put(&mut self, piece: &[u8]) -> Sunk {
        match write_out(&self.rt, piece) {
            Ok(()) => Sunk::Done,
            Err(e) => {
                self.faults = self.faults.saturating_add(1);
                self.last_fault = Some(Reason::of(e));
                Sunk::Failed
            }
        }
    }
}
