//! The checks of tests, which abort where a result is wrong. Calls cost less to prove than the macros written out.
ghost use Rattle.std.specs.Prelude.{◌≡◌, Ok};

use std::fmt::Debug;
use std::process::Abort;

/// The value of `returned`. Aborts where it is an error.
pub fn made<T, E: Debug + Drop>(rt: &impl Abort, returned: Result<T, E>) -> T
    ensures { returned ≡ Ok result }
{
    match returned {
        Ok(it) => it,
        Err(e) => panic!(rt; "{e:?}"),
    }
}

/// Aborts where `left` and `right` differ.
pub fn same<T: PartialEq + Debug + Drop>(rt: &impl Abort, left: T, right: T) {
    assert_eq!(rt; left, right);
}

/// Aborts where `left` and `right` differ, and names the row.
pub fn same_at<T: PartialEq + Debug + Drop>(rt: &impl Abort, number: u32, left: T, right: T) {
    assert_eq!(rt; left, right, "row {number}");
}

/// Aborts where `it` is false.
pub fn holds(rt: &impl Abort, it: bool) {
    assert!(rt; it);
}
