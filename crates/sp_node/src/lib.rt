//! A socket as a program uses it: it owns its net, its clock and its ends, and goes round while a call waits.
//!
//! `NodeEnds` is a node before its first turn: it is told where it listens and whom it dials. `start` makes a `Node` of
//! it, which sends and receives. Nothing moves between two calls: `turn` and the calls that wait go round. In a turn the
//! clock is asked, the ends have theirs, and the pipes are served. Where the clock has no turn left the node closes. A
//! link for which there is no memory is given back, and the rest goes on.
//!
//! What is true of a node at every moment is its invariant (`NodeStands` in `specs/Nodes`): the history is sound, and
//! all links of the net are accounted for by it. So no call has a condition but `collect` and `wait`, whose operation is to
//! be one that was begun and not collected, and `open`, whose machine is to be as good as new.
//!
//! To read: `ends` (before the first turn), `node` (what a node is, and its turn), `calls` (operations), `blocking` (calls
//! that wait), `finish` (what waits is written, and the end).
#![tactic(auto)]

mod blocking;
mod calls;
mod ends;
mod error;
mod finish;
mod node;

pub use ends::{NodeEnds, RECV_MAX_SIZE};
pub use error::{EndsError, WaitError};
pub use finish::NodeEnd;
pub use node::Node;
