//! The real outside: TCP and Unix sockets without waiting, standard output, std's files, and a pace by the clock that
//! rests until a socket is ready. Each raises a count at each error, keeps its reason, and tells contracts nothing of
//! its content; what they do with the machine is trusted. A socket that becomes ready ends a rest. A link is not read if
//! its socket was not reported ready since a read of it found nothing.
//!
//! A link that gave 256 KiB since it last had nothing returns once that nothing is there, and the next rest is skipped.
//! So a reader that reads until nothing is there reads a bounded number of bytes, whatever the peer sends.
//!
//! `link` has links, `stream` their streams, `tcp` the net, `dial` its connections under way, `leave` the links that it
//! got back, `pace` the clock, `output` standard output, `files` files and standard input, `fault` why something failed.
//! `wake` has the links that are to be read, by what the machine reported for their sockets; links, net and pace share
//! it. `back` has the links that a net got back, as contracts see them. `side` makes net and clock for a program, and
//! ends them.
#![tactic(auto)]

mod back;
mod dial;
mod fault;
mod files;
mod leave;
mod link;
mod output;
mod pace;
mod side;
mod stream;
mod tcp;
mod wake;

pub use fault::{NetFault, Reason};
pub use files::RealFiles;
pub use link::{Counts, TURN_BYTES, TcpLink};
pub use output::RealOut;
pub use pace::RealPace;
pub use side::{end_side, real_side};
pub use tcp::TcpNet;
pub use wake::Wakes;
