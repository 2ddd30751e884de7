//! Callers that sleep until an operation may have ended: an event count whose sleeps end by themselves.
//!
//! A caller enters, looks at its operation, and then sleeps or leaves. Whoever ends an operation changes its word first,
//! and then wakes. So an end that comes between look and sleep ends the sleep.
use std::sync::Wait;
use std::sync::atomic::AtomicU64;
use std::sync::atomic::Ordering::SeqCst;
use std::time::Duration;

// The longest sleep, in milliseconds. A caller whose own turns bring its operation on is at most so late.
const SLEEP_MS: u64 = 10;

/// The callers that sleep, or are about to.
#[derive(Drop)]
pub(crate) struct Waiters {
    // The number of wakes that found a caller. It wraps.
    wakes: AtomicU64,
    callers: AtomicU64,
}

impl Waiters {
    pub(crate) fn new() -> Waiters {
        Waiters {
            wakes: AtomicU64::new(0),
            callers: AtomicU64::new(0),
        }
    }

    /// Enters a caller that is about to sleep. Returns the number of wakes before.
    pub(crate) fn enter(&self) -> u64 {
        self.callers.fetch_add(1, SeqCst);
        self.wakes.load(SeqCst)
    }

    /// Sleeps until the next wake, for `SLEEP_MS` at most. Returns whether there was one.
    pub(crate) fn sleep<R: Wait>(&self, rt: &R, wakes: u64) -> bool {
        let low = (wakes & 0xffff_ffff) as u32;
        self.wakes
            .park_timeout(rt, low, Duration::from_millis(SLEEP_MS));
        self.wakes.load(SeqCst) != wakes
    }

    pub(crate) fn leave(&self) {
        self.callers.fetch_sub(1, SeqCst);
    }

    /// Wakes the callers that sleep or are about to.
    pub(crate) fn wake(&self) {
        if self.callers.load(SeqCst) != 0 {
            self.wakes.fetch_add(1, SeqCst);
            self.wakes.wake_all();
        }
    }
}
