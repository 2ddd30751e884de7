//! The checks of tests, which abort where a result is wrong.
ghost use Rattle.std.specs.Prelude.{◌≡◌, Ok};

use std::fmt::Debug;
use std::process::Abort;

/// The value of `returned`. Aborts where it is an error.
pub fn made<T, E: Debug + Drop>(rt: &impl Abort, returned: Result<T, E>) -> T
    ensures { returned ≡ Ok result }
{
    match returned {
        Ok(it) => it,
        Err(e) => panic!(rt; "{e:?}"),
    }
}

/// Aborts where `it` is false.
pub fn holds(rt: &impl Abort, it: bool) {
    assert!(rt; it);
}

/// Aborts where a line is wrong, and tells its number.
pub fn is_right(rt: &impl Abort, wrong: Option<usize>) {
    if let Some(line) = wrong {
        panic!(rt; "line {line}");
    }
}
