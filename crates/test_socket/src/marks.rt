//! Signals between threads of a test, each polled a bounded number of times.
use std::alloc::Global;
use std::process::Abort;
use std::sync::Arc;
use std::sync::atomic::{AtomicU64, Ordering};
use std::thread;

// The greatest number of polls of a mark.
const LOOKS: u32 = 1_000_000;

/// A number that threads share, 0 until it is set.
#[derive(Drop)]
pub struct ThreadMark(AtomicU64);

impl ThreadMark {
    fn new() -> ThreadMark {
        ThreadMark(AtomicU64::new(0))
    }

    /// Sets it.
    pub fn set(&self, value: u64) {
        self.0.store(value, Ordering::SeqCst)
    }

    /// Adds to it.
    pub fn add(&self, more: u64) {
        self.0.fetch_add(more, Ordering::SeqCst);
    }

    /// The value now.
    pub fn now(&self) -> u64 {
        self.0.load(Ordering::SeqCst)
    }

    /// Polls until it is set, yielding between two polls. Returns the value, or 0 where it wasn't seen.
    pub fn seen(&self) -> u64 {
        for _ in 0..LOOKS {
            let value = self.now();
            if value != 0 {
                return value;
            }
            thread::yield_now();
        }
        0
    }
}

/// The marks of a test.
#[derive(Drop)]
pub struct ThreadMarks {
    /// 1 once a wire delays its turn; 2 where it gave up.
    pub held: ThreadMark,
    /// 1 once another caller was about to ask for a turn while one was delayed.
    pub entered: ThreadMark,
    /// 1 once the cancel has returned.
    pub returned: ThreadMark,
    /// 1 once a receive has begun.
    pub begun: ThreadMark,
    /// 1 once a wire was shut.
    pub shut: ThreadMark,
    /// The number of counted messages that were received.
    pub received: ThreadMark,
    /// The number of counted operations that callers ended.
    pub ended: ThreadMark,
    /// The number of a line that a thread found wrong.
    pub wrong: ThreadMark,
}

/// Marks none of which is set.
pub fn unmarked(rt: &impl Abort, alloc: Global) -> Arc<ThreadMarks> {
    match Arc::new(
        alloc,
        ThreadMarks {
            held: ThreadMark::new(),
            entered: ThreadMark::new(),
            returned: ThreadMark::new(),
            begun: ThreadMark::new(),
            shut: ThreadMark::new(),
            received: ThreadMark::new(),
            ended: ThreadMark::new(),
            wrong: ThreadMark::new(),
        },
    ) {
        Ok(marks) => marks,
        Err(_) => panic!(rt; "no memory for marks"),
    }
}

/// One more owner of the marks.
pub fn shared(rt: &impl Abort, marks: &Arc<ThreadMarks>) -> Arc<ThreadMarks> {
    match marks.clone() {
        Ok(marks) => marks,
        Err(_) => panic!(rt; "too many owners of marks"),
    }
}

impl ThreadMarks {
    /// Waits until the cancel has returned.
    pub fn hold(&self) {
        self.held.set(1);
        if self.returned.seen() == 0 {
            self.held.set(2);
        }
    }

    /// The mark that callers set and look for by this name.
    pub fn named(&self, name: &str) -> Option<&ThreadMark> {
        match name {
            "held" => Some(&self.held),
            "entered" => Some(&self.entered),
            "returned" => Some(&self.returned),
            "begun" => Some(&self.begun),
            _ => None,
        }
    }
}
