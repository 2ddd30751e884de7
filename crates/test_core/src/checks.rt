//! The checks of tests, which abort where a result is wrong. Calls cost less to prove than the macros written out.
use std::process::Abort;

/// Aborts.
pub fn fails(rt: &impl Abort) -> ! {
    panic!(rt; "a result is another one, or there is no memory")
}

/// Aborts where a line is wrong, and tells its number.
pub fn is_right(rt: &impl Abort, wrong: Option<usize>) {
    if let Some(line) = wrong {
        panic!(rt; "line {line} is wrong");
    }
}

/// Aborts where `it` is false.
pub fn holds(rt: &impl Abort, it: bool) {
    if !it {
        fails(rt);
    }
}

/// Aborts where `left` and `right` differ.
pub fn same(rt: &impl Abort, left: u32, right: u32) {
    if left != right {
        panic!(rt; "{left} isn't {right}");
    }
}
