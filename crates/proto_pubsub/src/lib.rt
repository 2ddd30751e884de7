//! The machines of pub (nng_pub(7)) and sub (nng_sub(7)), cooked and raw.
//!
//! A pub sends to every pipe that is up and has room, in the turn of the send's begin. It then takes a copy for each of
//! them, so that going out takes no memory. A frame of a subscriber is malformed.
//!
//! A sub has contexts, each with topics and a queue. A frame is kept once for each context of which a topic is a prefix
//! of its body; the empty topic takes all. A full queue drops its oldest message, or, where its context prefers old
//! ones, the new one. When a topic is removed, what no topic matches any more is dropped. A raw sub has only the
//! socket's own context and takes every frame. `topics` has how a context's topics are found, `sub_contexts` the open
//! contexts, `subscribe` and `publish` the two machines.
#![tactic(auto)]

mod publish;
mod sub_contexts;
mod subscribe;
mod topics;

pub use publish::Publish;
pub use subscribe::Subscribe;
