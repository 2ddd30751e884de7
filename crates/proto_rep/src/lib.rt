//! The machine of replies, cooked and raw.
//!
//! `Reply` is a rep (nng_rep(7)), or a respondent (nng_respondent(7)), which does the same with surveys. It keeps at
//! most one request of each pipe, and drops it when the pipe goes down. A reply goes to the pipe that its request came
//! from, when the pipe has room, or nowhere, when it is down; what a context's next send answers is stored with the
//! context. Raw, the pipe and the words of the backtrace are in the header.
//!
//! Who owns what: `operations` has what waits, receives and replies separately, and each reply with its message until
//! it goes out or ends; `replies` passes over those that were found at full pipes in this turn. `places` has the open
//! contexts with what their next sends answer.
//!
//! To read: `Ties` of `specs/Reps` and `Holds` of `specs/Operations`, then `rep`.
#![tactic(auto)]

mod operations;
mod places;
mod rep;
mod replies;

pub use rep::{Reply, Respond};
