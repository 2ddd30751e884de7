//! How long something took.
use std::io::Eprint;
use std::time::{Clock, Instant};

/// The current time, or `None` where the clock can't tell it.
pub fn now<R: Clock>(rt: &R) -> Option<Instant> {
    Instant::now(rt).ok()
}

/// The nanoseconds since `start`.
pub fn since<R: Clock>(rt: &R, start: Option<Instant>) -> u128 {
    let Some(start) = start else {
        return 0;
    };
    match start.elapsed(rt) {
        Ok(time) => time.as_nanos(),
        Err(_) => 0,
    }
}

/// Writes the cost of each of `count` units, which took `nanos` nanoseconds together.
pub fn report<R: Eprint>(rt: &R, name: &str, size: u32, nanos: u128, count: u32) {
    let each = nanos / u128::from(count.max(1));
    let _ = eprintln!(rt; "{name} at {size}: {each} ns");
}

/// Times calls of two kinds: those of one kind while the other is paused.
#[derive(Clone, Copy)]
pub struct Watch {
    start: Option<Instant>,
    /// The nanoseconds of the kind that is timed now.
    nanos: u128,
    others: u128,
}

impl Watch {
    /// A watch that has timed nothing.
    pub fn new() -> Watch {
        Watch {
            start: None,
            nanos: 0,
            others: 0,
        }
    }

    /// Forgets what was timed.
    pub fn clear(&mut self) {
        self.nanos = 0;
        self.others = 0;
    }

    /// Starts timing.
    pub fn go_on<R: Clock>(&mut self, rt: &R) {
        self.start = now(rt);
    }

    /// Stops timing.
    pub fn end<R: Clock>(&mut self, rt: &R) {
        self.nanos = self.nanos.saturating_add(since(rt, self.start));
    }

    /// Goes over to timing calls of the other kind.
    pub fn switch<R: Clock>(&mut self, rt: &R) {
        self.end(rt);
        let nanos = self.nanos;
        self.nanos = self.others;
        self.others = nanos;
        self.start = now(rt);
    }

    /// The nanoseconds of the kind that was timed when it ended.
    pub fn nanos(&self) -> u128 {
        self.nanos
    }

    /// Those of the other kind.
    pub fn others(&self) -> u128 {
        self.others
    }
}
