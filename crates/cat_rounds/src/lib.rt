//! A plan is played on one socket: the rounds of a run, from the first listen to the last link that is given back.
//!
//! A round is one turn of the pace. It ticks, has one turn of the ends, and then serves the pipes and continues the
//! play, again and again while messages move. The play is one operation after another, by the table of the role: a step
//! collects what has ended, prints it, and begins the next operation (`next`), if it may.
//!
//! Who owns what: `play` gets a `PlannedRun` and the machine, which is moved into a socket with this one caller. A
//! `RunParts` owns the parts of a run: the socket, the ends with all links that aren't pipes yet, the player, and the
//! names within the process; it also has the runtime. A `Player` holds the operation that is under way, and counts the
//! items until the play is over. Net, pace and sink belong to the caller, and are lent to each round. At the end every
//! link is back with the net, and what is left is a `CatEnd`: the status and the record.
//!
//! `player` has a step of the play, `run_parts` the parts of a run with what is true of them, `topics` adds a sub's
//! topics before the first round, `rounds` has what a round does, `stillness` when a run whose send timed out gives up,
//! and `whole` has the beginning and the end. To read: `whole`, then `rounds`, then `player`. What holds of a play
//! between two calls is `PlayStands` (`specs/Lasting`), what holds of the parts is `IsRunning` (`specs/Parts`); with
//! it, `RunStands` (`specs/RunRounds`) holds between two rounds.
#![tactic(auto)]

mod next;
mod player;
mod rounds;
mod run_parts;
mod stillness;
mod topics;
mod whole;

pub use whole::{CatEnd, PlannedRun, play};
