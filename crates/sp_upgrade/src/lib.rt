//! The opening of a WebSocket (RFC 6455 sections 1.3 and 4) that carries SP (the nanomsg document "WebSocket mapping
//! for scalability protocols"): one head of HTTP each way, after which both sides write frames.
//!
//! Nothing is kept between two calls: each looks at all that came so far, at most 8,192 bytes of it, so the bytes may
//! come in pieces of any size. The head is what came up to and including the first blank line; what follows it is left
//! to the frames. The meaning of a head is stated for the one tree that `httparse`'s grammar gives it. The faults of
//! that tree are in one list, and the first one that applies is returned.
#![tactic(auto)]

mod blank;
mod client;
mod head;
mod keys;
mod lines;
mod server;
mod texts;

pub use client::{client_answer, client_head};
pub use head::{Head, HeadFault};
pub use server::server_head;
