//! The live requests and the open contexts of a req, part by part.
//!
//! A live request (nng_req(7)) waits to go out, or went out and waits for its reply, or keeps its reply until a receive
//! takes it; a context has at most one. `live` has the types of a live request and of a reply that is kept.
//!
//! `lives` has the live requests, found by context and by id, and what goes out again for each. `dues` has those that
//! are looked at because they may be due, with `outs`, what went out. `req_contexts` has the open contexts.
//! `proto_reqrep` combines them.
//!
//! Contracts see each part as a list or a set, without the indexes that it keeps. To read: `specs/LiveRequests` and
//! `specs/Dues`, then the part's calls.
#![tactic(auto)]

pub mod dues;
pub mod live;
pub mod lives;
pub mod outs;
pub mod req_contexts;
