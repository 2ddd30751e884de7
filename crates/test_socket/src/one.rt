//! The code that a user of the library writes to receive one message.
ghost use Rattle.std.specs.Prelude.{◌≡◌};
ghost use Rattle.sp_proto.specs.Kinds.{Kind, Starts};
ghost use Rattle.core_state.specs.Wires.{IsUnused};

use proto_pipeline::Pull;
use sp_base::{Ctx, Role};
use sp_msg::Wire;
use sp_proto::Proto;
use sp_socket::{Config, Finished, Options, Outcome, WireList, open};
use std::alloc::Global;
use std::process::Abort;
use std::sync::Wait;

/// Receives one message from the wire, on a pull socket with one caller. Returns the result of the receive, and the
/// wires that are left.
pub fn receive_one<W: Wire + Drop, R: Wait + Abort>(
    rt: &R,
    alloc: Global,
    wire: W,
) -> (Outcome, WireList<W>)
    requires { IsUnused (W.shown wire) }
{
    let Ok(machine) = Pull::new(alloc, Options::usual(Role::Pull, 0), false) else {
        panic!(rt; "no memory for a pull")
    };
    receive_over(rt, alloc, machine, wire)
}

// Does the same on a socket of any machine that receives.
fn receive_over<P: Proto, W: Wire + Drop, R: Wait + Abort>(
    rt: &R,
    alloc: Global,
    machine: P,
    wire: W,
) -> (Outcome, WireList<W>)
    requires starts { (k : Kind) × Starts P.ties machine k }
    requires unused { IsUnused (W.shown wire) }
{
    let Ok((socket, mut passes)) = open(
        alloc,
        machine,
        Config {
            slots: 1,
            callers: 1,
        },
    ) else {
        panic!(rt; "no memory for a socket")
    };
    let Some(mut pass) = passes.pop() else {
        unreachable!()
    };
    let Ok(_) = socket.attach(rt, &mut pass, wire, 0, u32::MAX) else {
        panic!(rt; "no memory for a pipe")
    };
    let Ok(op) = socket.begin_recv(rt, &mut pass, Ctx(0), None) else {
        panic!(rt; "no receive began")
    };
    socket.serve(rt, &mut pass);
    let outcome = socket.wait(rt, &mut pass, op);
    socket.close(rt, &mut pass);
    passes.give(pass);
    let Finished { wires, record_: _ } = socket.finish(rt, passes);
    (outcome, wires)
}
