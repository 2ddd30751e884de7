//! The drill: messages go through a lane to a pull socket, whose receives four callers serve, cancel and let expire at
//! once; each message is given once.
//!
//! `source` has the values and the lane that they are put in, `drill_wire` the wire over that lane, `rounds` the
//! receives of a round. The main caller puts the values, begins the receives and collects them. While no task runs it
//! has the pass of the first task. No round records what was given. What holds between rounds is only that the callers'
//! passes stay theirs, that the source knows what was put, and that the wire records whether a message was lost.
//!
//! What came through the lane follows from its two ends when they are joined, and what was given from the history of
//! the socket and its totals (`ending`, `run`).
#![tactic(auto)]

mod calls;
mod drill_wire;
mod ending;
pub mod parts;
mod rounds;
mod run;
mod source;
mod tasks;

pub use run::{DrillEnd, drill};
pub use tasks::{Gate, OpenGate};
