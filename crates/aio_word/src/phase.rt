//! The phases of an operation, from its begin to its end.

/// The phase of an operation, numbered from 0 as in a word (nng_aio_result(3)).
#[derive(Clone, Copy, PartialEq, Eq, Debug)]
pub enum Phase {
    /// The slot had no operation yet.
    Idle,
    /// It has not ended.
    Pending,
    /// The core completed it.
    Won,
    /// The core ended it because the socket was closed.
    Shut,
    /// The core ended it for a newer one.
    Superseded,
    /// The core ended it because its survey is over.
    SurveyOver,
    /// A caller cancelled it.
    Cancelled,
    /// A caller let it expire.
    Expired,
}
