//! The machines of requests and replies, cooked and raw.
//!
//! `Request` is a req (nng_req(7)). A send on a context begins a request with an id of its own, which goes out on one
//! pipe with room, and again when that pipe goes down or its time has come. Exactly one reply with its id is kept for
//! it, and answers it. A newer send replaces it, and a send or a receive that ends without success gives it up: the
//! operations that wait for it are then finished. Raw, the first word of a message is its header.
//!
//! `req` is what a core calls; `offers` finds what can be done. Its live requests, which of them are looked at because
//! they may be due, and its open contexts are parts of `proto_live_requests`; pipes, replies that are kept raw and
//! operations that wait are parts of `proto_requests`. To read: `Ties` in `specs/Reqs`, then the calls of the trait in
//! `req`.
//!
//! `Reply` is a rep or a respondent, from `proto_rep`.
#![tactic(auto)]

mod offers;
mod req;

pub use proto_rep::{Reply, Respond};
pub use req::Request;
