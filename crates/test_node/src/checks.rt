//! What a test makes, and what it asks: it stops where a result is another one. Calls cost less to prove than the
//! macros written out.
ghost use Rattle.std.specs.Prelude.{◌≡◌, Ok, true};

use std::fmt::Debug;
use std::process::Abort;

/// What was made.
pub fn made<T, E: Debug + Drop>(rt: &impl Abort, returned: Result<T, E>) -> T
    ensures { returned ≡ Ok result }
{
    match returned {
        Ok(it) => it,
        Err(e) => panic!(rt; "{e:?}"),
    }
}

/// Both are the same.
pub fn same<T: PartialEq + Debug + Drop>(rt: &impl Abort, left: T, right: T) {
    assert_eq!(rt; left, right);
}

/// It holds.
pub fn holds(rt: &impl Abort, it: bool)
    ensures { it ≡ true }
{
    assert!(rt; it);
}
