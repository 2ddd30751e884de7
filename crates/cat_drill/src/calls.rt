//! What the callers of a drill do, one call or a few at a time.
ghost use Rattle.std.specs.Prelude.{◌≡◌, ◌++◌, ◌∷◌, [], List};
ghost use Rattle.sp_base.specs.declared.OpName.{OpName as OpNameType};
ghost use Rattle.sp_socket.specs.Open.{IsOpenFor, AreOpenFor};
ghost use Rattle.cat_drill.specs.Calling.{IsDrillPass, Calls, Later, Worked, Collects, with_op};

use sp_base::{Ctx, OpName, Tick};
use sp_msg::Wire;
use sp_proto::Proto;
use sp_socket::{Collected, Op, Outcome, Pass, Socket};
use std::sync::Wait;

/// Begins a receive. Returns `None` only where it is refused.
pub fn begin_one<P: Proto, W: Wire, R: Wait>(
    rt: &R,
    socket: &Socket<P, W>,
    pass: &mut Pass<P, W>,
    deadline: Option<Tick>,
) -> Option<Op>
    requires { IsDrillPass socket.now pass.old }
    ensures calls { (ops : List OpNameType) → Calls socket.now pass.old ops → Calls socket.now pass.new (with_op result ops) }
    ensures later { Later pass.old pass.new }
{
    match socket.begin_recv(rt, pass, Ctx(0), deadline) {
        Ok(op) => Some(op),
        Err(_) => None,
    }
}

/// Serves the pipe.
pub fn serve_one<P: Proto, W: Wire, R: Wait>(rt: &R, socket: &Socket<P, W>, pass: &mut Pass<P, W>)
    requires { IsDrillPass socket.now pass.old }
    ensures { Worked pass.old pass.new }
{
    socket.serve(rt, pass);
}

/// Ticks at this moment.
pub fn tick_one<P: Proto, W: Wire, R: Wait>(
    rt: &R,
    socket: &Socket<P, W>,
    pass: &mut Pass<P, W>,
    now: Tick,
)
    requires { IsDrillPass socket.now pass.old }
    ensures { Worked pass.old pass.new }
{
    socket.tick(rt, pass, now);
}

/// Cancels the operation, unless it has ended.
pub fn cancel_one<P: Proto, W: Wire>(socket: &Socket<P, W>, pass: &mut Pass<P, W>, op: OpName)
    requires { IsDrillPass socket.now pass.old }
    ensures { Worked pass.old pass.new }
{
    socket.cancel(pass, op);
}

/// Cancels each of these, unless it has ended.
pub fn cancel_each<P: Proto, W: Wire>(
    socket: &Socket<P, W>,
    pass: &mut Pass<P, W>,
    names: &[OpName],
)
    requires { IsDrillPass socket.now pass.old }
    ensures { Worked pass.old pass.new }
{
    for op in names {
        cancel_one(socket, pass, *op);
    }
}

fn is_received(outcome: Outcome) -> bool {
    match outcome {
        Outcome::Received(_) => true,
        _ => false,
    }
}

/// Collects the operation. One that has not ended is cancelled first. Returns whether it got a message.
pub fn collect_one<P: Proto, W: Wire, R: Wait>(
    rt: &R,
    socket: &Socket<P, W>,
    pass: &mut Pass<P, W>,
    op: Op,
) -> bool
    requires own { IsDrillPass socket.now pass.old }
    requires op { IsOpenFor pass.old op }
    ensures { Collects op pass.old pass.new }
{
    match socket.collect(rt, pass, op) {
        Collected::Ended(outcome) => is_received(outcome),
        Collected::NotYet(op) => {
            cancel_one(socket, pass, op.name());
            is_received(socket.wait(rt, pass, op))
        }
    }
}
