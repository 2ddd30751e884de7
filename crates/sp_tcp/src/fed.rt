//! The bytes that were fed to a greeting, as contracts see them. They take no memory, and the compiled program does
//! nothing with them.
ghost use Rattle.std.specs.Prelude.{◌≡◌, ◌++◌, ℕ, List, []};
ghost use Rattle.std.specs.Borrow.{ftrue};

use std::marker::Model;

/// All bytes that were fed so far.
#[derive(Debug, Drop)]
pub(crate) struct Fed {
    pub ghost bytes: { List ℕ },
}

impl Model for Fed {
    ghost also_owns = { λ _. ftrue };
}

// It owns nothing.
unsafe impl Send for Fed {}

unsafe impl Sync for Fed {}

/// The bytes that are fed next.
#[derive(Clone, Copy, Drop)]
pub(crate) struct Piece<'a> {
    pub bytes: &'a [u8],
}

impl Fed {
    /// Nothing was fed.
    pub(crate) fn none() -> Fed
        ensures { result.bytes ≡ [] }
    {
        Fed {}
    }

    /// One more piece was fed.
    pub(crate) fn and(&self, _piece: &Piece<'_>) -> Fed
        ensures { result.bytes ≡ self.now.bytes ++ _piece.now.bytes.now }
    {
        Fed {}
    }
}
