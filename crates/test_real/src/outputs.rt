//! Outputs that take few bytes at a time, and what is put on them.
use crate::checks::holds;
use cat_run::real::RealOut;
use sp_base::{Sink, Sunk};
use std::cell::Cell;
use std::fmt::Display;
use std::io::{Error, ErrorKind, Result as IoResult};
use std::process::Abort;
use std::rt::Clock;
use std::time::Duration;

/// When an output takes nothing.
#[derive(Clone, Copy)]
enum Stops {
    /// At every third call, only this time.
    Slow,
    /// From the second call on, with this fault.
    Fails(ErrorKind),
    /// From the second call on, without a fault.
    TakesNothing,
}

fn stops_of(word: &str) -> Option<Stops> {
    match word {
        "slow" => Some(Stops::Slow),
        "broken_pipe" => Some(Stops::Fails(ErrorKind::BrokenPipe)),
        "storage_full" => Some(Stops::Fails(ErrorKind::StorageFull)),
        "other" => Some(Stops::Fails(ErrorKind::Other)),
        "takes_nothing" => Some(Stops::TakesNothing),
        _ => None,
    }
}

// The fault at this call, if there is one.
fn fault_of(stops: Stops, call: u32) -> Option<ErrorKind> {
    match stops {
        Stops::Slow if call % 3 == 2 => Some(ErrorKind::WouldBlock),
        Stops::Fails(kind) if call > 0 => Some(kind),
        _ => None,
    }
}

/// An output that takes seven bytes at a time, and compares them with these.
#[derive(Drop)]
struct TestOutput<'a> {
    stops: Stops,
    wanted: &'a [u8],
    calls: Cell<u32>,
    came: Cell<usize>,
    right: Cell<bool>,
}

impl<'a> TestOutput<'a> {
    // Compares these bytes with the next ones that are wanted.
    fn take(&self, bytes: &[u8]) {
        let came = self.came.get();
        let all = came.saturating_add(bytes.len());
        if self.wanted.get(came..all) != Some(bytes) {
            self.right.set(false);
        }
        self.came.set(all);
    }
}

impl<'a> Print for TestOutput<'a> {
    fn print<D: Display + Drop>(&self, _value: D) -> IoResult<()> {
        Ok(())
    }

    fn println<D: Display + Drop>(&self, _value: D) -> IoResult<()> {
        Ok(())
    }

    fn write_all(&self, bytes: &[u8]) -> IoResult<()> {
        let _some = self.write_some(bytes)?;
        Ok(())
    }

    fn write_some(&self, bytes: &[u8]) -> IoResult<usize> {
        let call = self.calls.get();
        self.calls.set(call.wrapping_add(1));
        if let Some(kind) = fault_of(self.stops, call) {
            return Err(Error::from(kind));
        }
        if call > 0 && matches!(self.stops, Stops::TakesNothing) {
            return Ok(0);
        }
        let n = bytes.len().min(7);
        self.take(&bytes[..n]);
        Ok(n)
    }
}

impl<'a> Clock for TestOutput<'a> {
    fn monotonic(&self) -> IoResult<Duration> {
        Ok(Duration::from_millis(0))
    }

    fn since_1970(&self) -> IoResult<Duration> {
        Ok(Duration::from_millis(0))
    }
}

/// Puts these bytes on an output that stops as `word` says, and aborts where the result isn't `sunk` or not `came`
/// bytes came.
pub fn puts(rt: &impl Abort, word: &str, bytes: &[u8], sunk: Sunk, came: usize) {
    let Some(stops) = stops_of(word) else {
        panic!(rt; "{word}");
    };
    let output = TestOutput {
        stops,
        wanted: bytes,
        calls: Cell::new(0),
        came: Cell::new(0),
        right: Cell::new(true),
    };
    let put = RealOut::new(&output).put(bytes);
    holds(rt, put == sunk);
    holds(rt, output.right.get());
    holds(rt, output.came.get() == came);
}
