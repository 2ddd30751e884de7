//! What the calls return.
use crate::phase::Phase;

/// A slot whose generations are used up.
#[derive(Clone, Copy, PartialEq, Eq, Debug)]
pub struct Worn;

/// The result of the core's exchange (nng_aio_finish(3)).
#[derive(Clone, Copy, PartialEq, Eq, Debug)]
pub enum Decided {
    /// It succeeded: the core has ended the operation.
    Mine,
    /// The operation had already ended. `by` is the caller's number, or 0 for the core.
    Other { phase: Phase, by: u32 },
}

/// The phase of an operation, and who ended it: a caller's number, or 0 for the core and where it has not ended.
#[derive(Clone, Copy, PartialEq, Eq, Debug)]
pub struct Look {
    /// The phase.
    pub phase: Phase,
    /// Who ended it.
    pub by: u32,
}

/// The result of a caller's exchange (nng_aio_cancel(3)).
#[derive(Clone, Copy, PartialEq, Eq, Debug)]
pub enum Raced {
    /// It succeeded: the caller has ended the operation.
    Won,
    /// The operation had already ended. `by` is the caller's number, or 0 for the core.
    Ended { phase: Phase, by: u32 },
    /// The slot has no operation with this name: out of range, of generation 0, or of another generation.
    Stale,
}

/// The result of a caller's look (nng_aio_result(3)).
#[derive(Clone, Copy, PartialEq, Eq, Debug)]
pub enum Polled {
    /// It has not ended.
    Pending,
    /// It has ended. `by` is the caller's number, or 0 for the core.
    Ended { phase: Phase, by: u32 },
    /// The slot has no operation with this name: out of range, of generation 0, or of another generation.
    Stale,
}
