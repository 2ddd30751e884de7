//! SP over TCP (the nanomsg document "TCP mapping for scalability protocols") and SP over IPC (nng_ipc(7)): greetings,
//! and a stream of messages each way. Each message is its size in 64 bits, big-endian, and that many bytes; over IPC the
//! byte 1 comes before each size. Where what came begins with a size above the limit, or over IPC with another byte, as
//! a pull begins, nothing is asked of the link. The read that brings such a size may bring bytes of the body with it.
//!
//! `TcpWire` owns a link from the greetings on. Reading: the inlet reads what the link gives into one buffer, and takes
//! message after message out of it before it asks the link again. A read asks for at least 16 KiB where part of a
//! message waits or the last read filled its room, and else for 1 KiB. It has room for at most 64 KiB beyond what came,
//! so a lying size takes no memory (no clause mentions room).
//!
//! Writing: the outlet keeps at most 16 messages and how much of the first one's frame is written. Each write gathers
//! as many frames as fit 16 KiB, or goes straight from a longer body. All memory for writing is taken when the wire is
//! made. Everything the wire shows follows from its link's bytes and those two: no history is kept.
//!
//! The plain reader is a direct program for the same definitions; tests compare the two.
#![tactic(auto)]

mod fed;
mod greeting;
mod inlet;
mod outlet;
mod reader;
mod spent;
mod stage;
mod wire;

pub use greeting::{Greeted, Greeting};
pub use reader::{Prefix, Reader};
pub use wire::TcpWire;
