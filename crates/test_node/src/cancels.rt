//! Cancels of a node's operations.
ghost use Rattle.sp_node.specs.Nodes.{GoesOn};

use crate::checks::{holds, made, same};
use crate::nodes::{PUSHED, Pulls, pull};
use sp_base::Ctx;
use sp_socket::{Cause, Outcome, Phase, Polled, Raced};
use std::process::Abort;
use std::sync::Wait;

// Some turns, in which what the peer sent comes.
fn turn<R: Wait + Abort + AllocGlobal>(pull: &mut Pulls<'_, R>)
    ensures { GoesOn pull.old pull.new }
{
    pull.turn();
    pull.turn();
    pull.turn();
}

// It was received.
fn is_hello(outcome: &Outcome) -> bool {
    match outcome {
        Outcome::Received(m) => m.body() == b"hello".as_slice(),
        _ => false,
    }
}

// The node's caller cancelled it.
fn is_cancelled(outcome: &Outcome) -> bool {
    match outcome {
        Outcome::Gone { cause, by, back: _ } => *cause == Cause::Cancelled && *by == 1,
        _ => false,
    }
}

#[test]
fn a_receive_that_is_cancelled_loses_no_message(rt: HostRuntime) {
    let mut pull = pull(&rt, PUSHED, 1_000);
    let op = made(&rt, pull.begin_recv(Ctx(0), None));
    let name = op.name();
    same(&rt, pull.poll(name), Polled::Pending);
    same(&rt, pull.cancel(name), Raced::Won);
    let ended = Polled::Ended {
        phase: Phase::Cancelled,
        by: 1,
    };
    same(&rt, pull.poll(name), ended);
    turn(&mut pull);
    let outcome = pull.wait(op);
    holds(&rt, is_cancelled(&outcome));
    let came = made(&rt, pull.recv(Some(50)));
    same(&rt, came.body(), b"hello");
    let _ = pull.finish();
}

#[test]
fn a_cancel_after_the_end_loses(rt: HostRuntime) {
    let mut pull = pull(&rt, PUSHED, 1_000);
    let op = made(&rt, pull.begin_recv(Ctx(0), None));
    let name = op.name();
    turn(&mut pull);
    let lost = Raced::Ended {
        phase: Phase::Won,
        by: 0,
    };
    same(&rt, pull.cancel(name), lost);
    let outcome = pull.wait(op);
    holds(&rt, is_hello(&outcome));
    let _ = pull.finish();
}
