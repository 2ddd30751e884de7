//! The steps that a benchmark takes with a machine. Each returns whether it had the wanted result, so that no row
//! measures refusals: a malformed frame, nothing to take, a missing copy.
use sp_base::{Ctx, OpName, PipeId};
use sp_msg::Message;
use sp_proto::{Act, Offer, Proto, Verdict};
use std::alloc::Global;

// The operation of the slot.
fn op(slot: u32) -> OpName {
    OpName {
        slot,
        generation: 1,
    }
}

/// Begins a send. Returns whether it began.
pub fn send<M: Proto>(m: &mut M, alloc: Global, slot: u32, c: u32) -> bool {
    match Message::from_body(alloc, b"x") {
        Ok(message) => {
            m.reserve(1).is_ok() && m.begin(op(slot), Ctx(c), Act::Send(message)).is_ok()
        }
        Err(_) => false,
    }
}

/// Begins a receive. Returns whether it began.
pub fn receive<M: Proto>(m: &mut M, slot: u32, c: u32) -> bool {
    m.reserve(1).is_ok() && m.begin(op(slot), Ctx(c), Act::Recv).is_ok()
}

/// Gives the machine a frame on the pipe. Returns whether it was fine.
pub fn come<M: Proto>(m: &mut M, alloc: Global, p: u32, body: &[u8]) -> bool {
    match Message::from_body(alloc, body) {
        Ok(message) => m.frame(PipeId(p), message) == Verdict::Fine,
        Err(_) => false,
    }
}

/// Gives the machine a reply or a response with this id, or a request. Returns whether it was fine.
pub fn answer<M: Proto>(m: &mut M, alloc: Global, p: u32, id: u32) -> bool {
    let [a, b, c, d] = id.to_be_bytes();
    come(m, alloc, p, &[a | 128, b, c, d, 114])
}

/// Subscribes the context to its topic with this number, of five bytes, or unsubscribes it. Returns whether it did.
pub fn topic<M: Proto>(m: &mut M, c: u32, number: u32, on: bool) -> bool {
    let [w, x, y, z] = number.to_be_bytes();
    m.topic(Ctx(c), &[116, w, x, y, z], on).is_ok()
}

/// Does what is offered, over pipes 1 to `pipes`. Returns whether something was.
pub fn take<M: Proto>(m: &mut M, pipes: u32) -> bool {
    match m.offer() {
        Offer::Give { op } => m.won(op, None).is_some(),
        Offer::Send { op, pipe } => m.won(op, Some(pipe)).is_some(),
        Offer::Flood { op } => flood(m, op, pipes),
        Offer::Drop { op } => {
            drop(m.won(op, None));
            true
        }
        Offer::Finish { op, cause: _ } => {
            drop(m.lost(op));
            true
        }
        Offer::Again { ctx, pipe } => m.again(ctx, pipe).is_some(),
        Offer::Idle => false,
    }
}

// Sends the operation on each of the pipes that it may go to. Returns whether it went out.
fn flood<M: Proto>(m: &mut M, op: OpName, pipes: u32) -> bool {
    for i in 0..pipes {
        let p = PipeId(i + 1);
        if m.goes_to(op, p) && m.flood(op, p).is_none() {
            return false;
        }
    }
    drop(m.won(op, None));
    true
}

/// Returns whether nothing is offered, `count` times.
pub fn idle<M: Proto>(m: &mut M, count: u32) -> bool {
    for _ in 0..count {
        if m.offer() != Offer::Idle {
            return false;
        }
    }
    true
}

/// Returns whether no frame is wanted from any of pipes 1 to `pipes`.
pub fn unwanted<M: Proto>(m: &M, pipes: u32) -> bool {
    for i in 0..pipes {
        if m.wants(PipeId(i + 1)) {
            return false;
        }
    }
    true
}

/// Makes the pipe of the offered send full, or takes it down. Returns whether a send was offered.
pub fn find_lost<M: Proto>(m: &mut M, goes_down: bool) -> bool {
    match m.offer() {
        Offer::Send { op: _, pipe } => {
            if goes_down {
                m.down(pipe);
            } else {
                m.full(pipe);
            }
            true
        }
        _ => false,
    }
}
