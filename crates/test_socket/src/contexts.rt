//! Replies that come in the opposite order of the requests.
use crate::checks::{holds, same};
use crate::machines::wire;
use crate::two::ask_two;
use sp_msg::Message;
use sp_socket::Outcome;
use std::process::Abort;

// Aborts unless the receive got this body and no header.
fn is_received(rt: &impl Abort, outcome: Outcome, body: &[u8]) {
    match outcome {
        Outcome::Received(m) => {
            holds(rt, m.header().is_empty());
            same(rt, m.body(), body)
        },
        _ => panic!(rt; "nothing was received"),
    }
}

// Aborts unless the message has this header and this body.
fn is_message(rt: &impl Abort, m: &Message, header: &[u8], body: &[u8]) {
    same(rt, m.header(), header);
    same(rt, m.body(), body);
}

#[test]
fn replies_reach_the_contexts_that_asked(rt: HostRuntime) {
    let alloc = rt.alloc();
    // The wire takes two requests, and gives the reply to the second one first.
    let wire = wire(&rt, alloc, 2, "80000001'B 80000000'A");
    let ((first, second), mut wires) = ask_two(&rt, alloc, wire);
    is_received(&rt, first, b"A");
    is_received(&rt, second, b"B");
    let Some((_, wire)) = wires.pop() else {
        panic!(rt; "no wire is left")
    };
    let outs = wire.outs();
    assert_eq!(rt; outs.len(), 2);
    is_message(&rt, &outs[0], b"\x80\0\0\0", b"a");
    is_message(&rt, &outs[1], b"\x80\0\0\x01", b"b");
    match wires.pop() {
        None => wires.destroy_empty(),
        Some(_) => panic!(rt; "two wires are left"),
    }
}
