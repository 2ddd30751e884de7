//! The machines of surveys, cooked and raw.
//!
//! `Survey` is a surveyor (nng_surveyor(7)). A send on a context begins a survey with an id of its own, which goes to
//! every pipe that is up and has room, in the turn of its begin. Responses with its id are kept for it, `queue` at
//! most, until it is over: at its time, when a newer one on its context replaces it, or when its context is shut. The
//! receives that wait for it are then finished. Raw, the first word of a message is its header.
//!
//! `Respond` is a respondent (nng_respondent(7)), which follows the rules of a rep, and uses its machine (`proto_rep`).
//!
//! Who owns what: a survey that is live (`live`) owns its responses until a receive takes them. The surveyor owns the
//! operations that wait with their messages (`waiting`), and the copies of the send that is going out. When a survey
//! ends, the operations that waited for it stay, each with how it ended, until the core has finished them.
//!
//! To read: `Ties` and `Asked` of `specs/Surveys`, then `survey`.
#![tactic(auto)]

mod contexts;
mod live;
mod survey;
mod waiting;

pub use proto_rep::Respond;
pub use survey::Survey;
