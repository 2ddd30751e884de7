//! A number that only contracts see. It takes no memory, and the compiled program does nothing with it.
ghost use Rattle.std.specs.Prelude.{◌≡◌, ℕ};
ghost use Rattle.std.specs.Borrow.{ftrue};

use std::marker::Model;

/// How often a link had had nothing to read, or had taken nothing, when its wire was made.
#[derive(Debug, Drop)]
pub(crate) struct CountsAtStart {
    pub ghost ticks: { ℕ },
}

impl Model for CountsAtStart {
    ghost also_owns = { λ _. ftrue };
}

// It owns nothing.
unsafe impl Send for CountsAtStart {}

unsafe impl Sync for CountsAtStart {}

impl CountsAtStart {
    /// The number that a proof names.
    pub(crate) fn of() -> CountsAtStart
        ghost n: { ℕ }
        ensures { result.ticks ≡ n }
    {
        CountsAtStart {}
    }
}
