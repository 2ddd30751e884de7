//! The checks of tests, which abort where a result is wrong. Calls cost less to prove than the macros written out.
use std::fmt::Debug;
use std::process::Abort;

/// Aborts where `left` and `right` differ.
pub fn same<T: PartialEq + Debug + Drop>(rt: &impl Abort, left: T, right: T) {
    assert_eq!(rt; left, right);
}

/// Aborts where `it` is false.
pub fn holds(rt: &impl Abort, it: bool) {
    assert!(rt; it);
}

/// Aborts where a line is wrong, and tells its number.
pub fn is_right(rt: &impl Abort, wrong: Option<usize>) {
    if let Some(line) = wrong {
        panic!(rt; "line {line} is wrong");
    }
}
