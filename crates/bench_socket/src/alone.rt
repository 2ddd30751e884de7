//! The same calls on a core with a single caller and no socket.
ghost use Rattle.std.specs.Prelude.{IfOk};
ghost use Rattle.sp_proto.specs.Kinds.{Kind, Starts};
ghost use Rattle.core_state.specs.Wires.{IsUnused};
ghost use Rattle.bench_socket.specs.Alone.{IsAlone};

use crate::work::Work;
use sp_base::{Ctx, NoMemory};
use sp_core::{Core, WireList};
use sp_msg::Wire;
use sp_proto::Proto;
use std::alloc::Global;
use std::sync::Wait;

/// A new core with one caller.
pub fn core_over<P: Proto + Drop, W: Wire>(alloc: Global, proto: P) -> Result<Core<P, W>, NoMemory>
    requires { (k : Kind) × Starts P.ties proto k }
    ensures { IfOk result (IsAlone P.ties P.room W.shown) }
{
    match Core::new(alloc, proto, 16, 1) {
        Err((e, _)) => Err(e),
        Ok((core, _)) => Ok(core),
    }
}

/// Attaches the wire as a pipe, and returns whether it became one.
pub fn attach_alone<P: Proto, W: Wire + Drop, R: Wait>(
    rt: &R,
    core: &mut Core<P, W>,
    wire: W,
) -> bool
    requires alone { IsAlone P.ties P.room W.shown core.old }
    requires unused { IsUnused (W.shown wire) }
    ensures { IsAlone P.ties P.room W.shown core.new }
{
    core.attach(rt, 1, wire, 0, u32::MAX).is_ok()
}

// Takes a turn that notes a link.
fn meet_alone<P: Proto, W: Wire, R: Wait>(rt: &R, core: &mut Core<P, W>)
    requires { IsAlone P.ties P.room W.shown core.old }
    ensures { IsAlone P.ties P.room W.shown core.new }
{
    core.met(rt, 1, 0);
}

// Serves the pipes.
fn serve_alone<P: Proto, W: Wire, R: Wait>(rt: &R, core: &mut Core<P, W>)
    requires { IsAlone P.ties P.room W.shown core.old }
    ensures { IsAlone P.ties P.room W.shown core.new }
{
    core.serve(rt, 1);
}

// Receives a queued message, and returns whether there was one.
fn receive_alone<P: Proto, W: Wire, R: Wait>(rt: &R, core: &mut Core<P, W>) -> bool
    requires { IsAlone P.ties P.room W.shown core.old }
    ensures { IsAlone P.ties P.room W.shown core.new }
{
    core.try_recv(rt, 1, Ctx(0)).is_ok()
}

// Does the work once, and returns whether it had the wanted result. Without a socket it is a turn, or a receive at
// once.
fn once_alone<P: Proto, W: Wire, R: Wait>(rt: &R, core: &mut Core<P, W>, work: Work) -> bool
    requires { IsAlone P.ties P.room W.shown core.old }
    ensures { IsAlone P.ties P.room W.shown core.new }
{
    if matches!(work, Work::Now) {
        serve_alone(rt, core);
        return receive_alone(rt, core);
    }
    meet_alone(rt, core);
    true
}

/// Does the work `times` times, and returns how often it had the wanted result.
pub fn many_alone<P: Proto, W: Wire, R: Wait>(
    rt: &R,
    core: &mut Core<P, W>,
    work: Work,
    times: u32,
) -> u32
    requires { IsAlone P.ties P.room W.shown core.old }
    ensures { IsAlone P.ties P.room W.shown core.new }
{
    let mut done = 0u32;
    for _ in 0..times {
        if once_alone(rt, core, work) {
            done = done.saturating_add(1);
        }
    }
    done
}

/// Ends the core, and returns its wires.
pub fn end_alone<P: Proto, W: Wire, R: Wait>(rt: &R, mut core: Core<P, W>) -> WireList<W>
    requires { IsAlone P.ties P.room W.shown core }
{
    core.close(rt, 1);
    core.into_wires()
}
