//! The links that a net got back, as contracts see them. They take no memory, and the compiled program does nothing
//! with them.
ghost use Rattle.std.specs.Prelude.{◌≡◌, ◌∷◌, ℕ, List, []};
ghost use Rattle.std.specs.Borrow.{ftrue};
ghost use Rattle.sp_base.specs.Views.{LinkView};
ghost use Rattle.sp_real.specs.Real.{counts_view};

use crate::link::Counts;
use std::marker::Model;

/// The links that were given back by their places, the newest first.
#[derive(Debug, Drop)]
pub(crate) struct ReturnedLinks {
    pub ghost entries: { List (ℕ × LinkView) },
}

impl Model for ReturnedLinks {
    ghost also_owns = { λ _. ftrue };
}

impl ReturnedLinks {
    /// Nothing came back.
    pub(crate) fn none() -> ReturnedLinks
        ensures { result.entries ≡ [] }
    {
        ReturnedLinks {}
    }

    /// One more link came back.
    pub(crate) fn with(&self, _counts: &Counts) -> ReturnedLinks
        ensures { result.entries ≡ (_counts.now.place, counts_view _counts.now) ∷ self.now.entries }
    {
        ReturnedLinks {}
    }
}
