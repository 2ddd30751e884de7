//! The wire over a WebSocket whose opening is done (RFC 6455 sections 5 and 6): each SP message is one binary message.
//!
//! `Frames` is the interface to the crate that does the framing. The one real implementation, `MemorySocket`, holds a
//! `tungstenite` socket over a stream in memory: what the link gives is fed to it, and what it writes is kept until the
//! link takes it. Of that crate's own state nothing is known between two calls, since a change of its stream
//! (`get_mut`) has no clause. So the promises are made call by call, by logs of what its reads gave and of what was
//! sent.
//!
//! `WsWire` owns the link and the frames. A message that was put is kept until `room` or `flush` sends it, each once
//! and in order. Then the places at which their frames end are kept, so that it is known how many are not wholly
//! written.
#![tactic(auto)]

mod counts_at_start;
mod cuts;
mod frames;
mod inlet;
mod log;
mod memory;
mod outlet;
mod reads;
mod replies;
mod rooms;
mod side;
mod socket;
mod stream;
mod waiting;
mod wire;

pub use frames::{FrameIn, FrameOut, Frames, LastResult};
pub use side::Side;
pub use socket::MemorySocket;
pub use wire::WsWire;
