//! A number that only contracts see. It takes no memory, and the compiled program does nothing with it.
ghost use Rattle.std.specs.Prelude.{◌≡◌, ℕ};
ghost use Rattle.std.specs.Borrow.{ftrue};

use std::marker::Model;

/// How often a link had had nothing to read, or had taken nothing, when its wire was made.
#[derive(Debug, Drop)]
pub(crate) struct Spent {
    pub ghost ticks: { ℕ },
}

impl Model for Spent {
    ghost also_owns = { λ _. ftrue };
}

// It owns nothing.
unsafe impl Send for Spent {}

unsafe impl Sync for Spent {}

impl Spent {
    /// The number that a proof names.
    pub(crate) fn of() -> Spent
        ghost n: { ℕ }
        ensures { result.ticks ≡ n }
    {
        Spent {}
    }
}
