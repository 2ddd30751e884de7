//! What the machines of requests, replies and surveys keep, part by part.
//!
//! `ports` has the pipes that are up, and those of them that were found full in this turn. `backlog` has what is kept
//! of the pipes, one of each. `waits` has the operations that wait, at `spots` that are empty once they end; `numbers`
//! finds them. `hints` has what is worth a look, the oldest first: contexts, or operations whose requests have ended;
//! where it had no room for one, all are looked at. `trail` has the words of a backtrace, and `specs/Ids` the ids of
//! requests and surveys.
//!
//! Contracts see each part as a list or a set, without the indexes that it keeps. To read: `specs/Waits` and
//! `specs/Ports`, then the part's calls.
#![tactic(auto)]

pub mod backlog;
pub mod hints;
pub mod numbers;
pub mod ports;
pub mod spots;
pub mod trail;
pub mod waits;
