//! Lanes: messages in order from one thread to another, over a bounded queue; a wire over two of them; and the names
//! within a process under which such wires are dialed.
//!
//! A lane has two ends. What one end takes is a prefix of what the other put, whatever the threads do. A call may spin
//! while another thread is in the middle of its step, so each takes `rt`. Only `lane` takes memory. The end mark is one
//! item, the last that is put.
//!
//! Who owns what: both ends share the queue. `LaneIn` owns the right to put, `LaneOut` the right to take, one of each;
//! `finish` takes both back. A `LaneWire` owns one end of each of two lanes, and one message in hand. `Inproc` owns the
//! halves that were dialed and not yet accepted; it is one run's, and not the process's.
//!
//! Only contracts see its lists, and what an end says about the other is what it knew at its last step, or since
//! `tell`. To read: `specs/Lanes` (what an end shows), `ends` (its calls), `rule` with `specs/Order` (what holds
//! between any two steps), then `wire` and `inproc`.
#![tactic(auto)]

mod ends;
mod inproc;
mod item;
mod rule;
mod wire;

pub use ends::{LaneEnd, LaneIn, LaneOut, finish, lane, tell};
pub use inproc::{Inproc, InprocError};
pub use item::{LaneItem, Put, PutEnd, Taken};
pub use wire::LaneWire;
