//! The code that a user of the library writes to have two requests under way at once.
ghost use Rattle.std.specs.Prelude.{◌≡◌};
ghost use Rattle.sp_proto.specs.Kinds.{Kind, Starts};
ghost use Rattle.core_state.specs.Wires.{IsUnused};
ghost use Rattle.sp_socket.specs.Passes.{IsOf};

use proto_reqrep::Request;
use sp_base::{Ctx, Role};
use sp_msg::{Message, Wire};
use sp_proto::Proto;
use sp_socket::{Config, Finished, Options, Outcome, Pass, Socket, WireList, open};
use std::alloc::Global;
use std::process::Abort;
use std::sync::Wait;

// Sends the body as a request of the context.
fn ask<P: Proto, W: Wire, R: Wait + Abort>(
    rt: &R,
    alloc: Global,
    socket: &Socket<P, W>,
    pass: &mut Pass<P, W>,
    c: Ctx,
    body: &[u8],
)
    requires { IsOf socket.now pass.old }
    ensures { IsOf socket.now pass.new }
{
    let Ok(message) = Message::from_body(alloc, body) else {
        panic!(rt; "no memory for a request")
    };
    let Ok(op) = socket.begin_send(rt, pass, c, message, None) else {
        panic!(rt; "no request began")
    };
    let _ = socket.wait(rt, pass, op);
}

// Receives the reply to the context's request.
fn reply<P: Proto, W: Wire, R: Wait + Abort>(
    rt: &R,
    socket: &Socket<P, W>,
    pass: &mut Pass<P, W>,
    c: Ctx,
) -> Outcome
    requires { IsOf socket.now pass.old }
    ensures { IsOf socket.now pass.new }
{
    let Ok(op) = socket.begin_recv(rt, pass, c, None) else {
        panic!(rt; "no receive began")
    };
    socket.wait(rt, pass, op)
}

// Sends two requests before the first reply is read. Returns the replies in the order of the requests.
fn ask_both<P: Proto, W: Wire, R: Wait + Abort>(
    rt: &R,
    alloc: Global,
    socket: &Socket<P, W>,
    pass: &mut Pass<P, W>,
) -> (Outcome, Outcome)
    requires { IsOf socket.now pass.old }
    ensures { IsOf socket.now pass.new }
{
    let Ok(other) = socket.open_ctx(rt, pass) else {
        panic!(rt; "no memory for a context")
    };
    ask(rt, alloc, socket, pass, Ctx(0), b"a");
    ask(rt, alloc, socket, pass, other, b"b");
    socket.serve(rt, pass);
    let second = reply(rt, socket, pass, other);
    let first = reply(rt, socket, pass, Ctx(0));
    (first, second)
}

/// Sends two requests over the wire, each on a context of its own. Returns the two replies in the order of the
/// requests, and the wires that are left.
pub fn ask_two<W: Wire + Drop, R: Wait + Abort>(
    rt: &R,
    alloc: Global,
    wire: W,
) -> ((Outcome, Outcome), WireList<W>)
    requires { IsUnused (W.shown wire) }
{
    let Ok(machine) = Request::new(alloc, Options::usual(Role::Req, 0), false) else {
        panic!(rt; "no memory for a req")
    };
    ask_over(rt, alloc, machine, wire)
}

// Does the same on a socket of any machine.
fn ask_over<P: Proto, W: Wire + Drop, R: Wait + Abort>(
    rt: &R,
    alloc: Global,
    machine: P,
    wire: W,
) -> ((Outcome, Outcome), WireList<W>)
    requires starts { (k : Kind) × Starts P.ties machine k }
    requires unused { IsUnused (W.shown wire) }
{
    let Ok((socket, mut passes)) = open(
        alloc,
        machine,
        Config {
            slots: 2,
            callers: 1,
        },
    ) else {
        panic!(rt; "no memory for a socket")
    };
    let Some(mut pass) = passes.pop() else {
        unreachable!()
    };
    let Ok(_) = socket.attach(rt, &mut pass, wire, 0, u32::MAX) else {
        panic!(rt; "no memory for a pipe")
    };
    let replies = ask_both(rt, alloc, &socket, &mut pass);
    socket.close(rt, &mut pass);
    passes.give(pass);
    let Finished { wires, record_: _ } = socket.finish(rt, passes);
    (replies, wires)
}
