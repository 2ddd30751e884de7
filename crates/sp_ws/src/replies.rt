//! How many replies wait that the framing rules give by themselves.

/// Once this many bytes of replies wait, no more are added.
const MOST_BYTES: usize = 16_384;

/// The replies among what waits for a link.
#[derive(Clone, Copy, Debug, PartialEq, Eq)]
pub(crate) struct Replies {
    /// How many bytes of them were added since none waited.
    bytes: usize,
    /// Where the last one ends in what waits; 0 where none waits.
    end: usize,
}

impl Replies {
    /// None waits.
    pub(crate) fn none() -> Replies {
        Replies { bytes: 0, end: 0 }
    }

    /// Returns whether no more replies are to be added.
    pub(crate) fn are_many(self) -> bool {
        self.bytes >= MOST_BYTES
    }

    /// The replies with `bytes` more, which end at `end`.
    pub(crate) fn and(self, bytes: usize, end: usize) -> Replies {
        Replies {
            bytes: self.bytes.saturating_add(bytes),
            end,
        }
    }

    /// The replies after the link took the first `n` bytes of what waits.
    pub(crate) fn after(self, n: usize) -> Replies {
        let end = self.end.saturating_sub(n);
        if end == 0 {
            return Replies::none();
        }
        Replies {
            bytes: self.bytes,
            end,
        }
    }
}
