//! The checks of tests of machines.
use crate::machines::line_wrong_for;
use std::alloc::Global;
use std::process::Abort;

/// Aborts where machines of this text return at some line of the play something else than it says.
pub fn plays(rt: &impl Abort, alloc: Global, machines: &str, play: &str) {
    if let Some(line) = line_wrong_for(alloc, machines, play) {
        panic!(rt; "line {line} of the play of {machines}");
    }
}

/// Aborts where `it` is false.
pub fn holds(rt: &impl Abort, it: bool) {
    assert!(rt; it);
}
