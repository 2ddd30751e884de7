//! The verdict on a history.
use history_judge_rules::faults::Fault;

/// The verdict on a history.
#[derive(Clone, Copy, Debug, PartialEq, Eq)]
pub enum Judgement {
    /// It is legal, and each of its turns leaves the socket settled.
    Right,
    /// It is not legal. The fault is the first one found.
    Illegal(Fault),
    /// It is legal, and the first turn that leaves something undone leaves this.
    Unsettled(Fault),
}
