//! Messages, and the wires that carry them between two peers.
//!
//! A message is a header and a body. Protocols keep their backtraces and request numbers in the header; a wire
//! writes header then body as one text, and what it pulls is all body. Memory is taken only by the calls that
//! can return `NoMemory`; taking bytes away, and putting them where room was left, moves nothing.
//!
//! A wire belongs only to its pipe. It never waits: each call does what can be done now and returns the result. What it
//! shows to proofs is one record, `WireView`, and the clauses of each call say exactly which fields of it may change. A
//! result that ends the wire (`Ended`, `Malformed`, `Failed`, `Refused`, `NoMemory`) closes it to every call but
//! `shut`. `WireMarks` is the part of that record that every wire keeps in the same way.
#![tactic(auto)]

mod body;
mod header;
mod marks;
mod message;
mod wire;

pub use marks::WireMarks;
pub use message::{HeaderFull, Message, Short};
pub use wire::{Room, Wire, WireFlush, WireIn};
