//! What callers do: the units of work that are timed, by one caller and by several in threads.
ghost use Rattle.std.specs.Prelude.{◌≡◌, IfSome, length};
ghost use Rattle.sp_socket.specs.Open.{IsOpenFor, KeepsOpen};
ghost use Rattle.sp_socket.specs.Passes.{IsOf};
ghost use Rattle.aio_word.specs.Views.{Each};

use sp_base::{Ctx, OpName};
use sp_msg::Wire;
use sp_proto::Proto;
use sp_socket::{Op, Outcome, Pass, Socket};
use std::sync::Wait;
use std::sync::atomic::{AtomicU64, Ordering};
use std::thread::{self, Threads};

/// What the callers do.
#[derive(Clone, Copy)]
pub enum Work {
    /// A turn that notes a link and no more.
    Turns,
    /// A receive that its caller cancels, and collects: two turns, where no message comes.
    Cancels,
    /// A receive: it is begun, served and collected, each in a turn.
    Receives,
    /// A receive that its caller cancels before it serves, so that the turns of others race with the cancel.
    Races,
    /// The pipes are served, and a queued message is received at once: two turns. For one caller.
    Now,
}

impl Work {
    /// The work of this name in rows.
    pub fn named(name: &str) -> Option<Work> {
        match name {
            "Turns" => Some(Work::Turns),
            "Cancels" => Some(Work::Cancels),
            "Receives" => Some(Work::Receives),
            "Races" => Some(Work::Races),
            "Now" => Some(Work::Now),
            _ => None,
        }
    }

    /// How many frames its wire has: one for each that is received.
    pub fn frames(self, times: u32) -> u32 {
        match self {
            Work::Turns | Work::Cancels => 0,
            _ => times,
        }
    }
}

// Begins a receive, if there is a free slot.
fn begin<P: Proto, W: Wire, R: Wait>(
    rt: &R,
    socket: &Socket<P, W>,
    pass: &mut Pass<P, W>,
) -> Option<Op>
    requires { IsOf socket.now pass.old }
    ensures own { IsOf socket.now pass.new }
    ensures open_ { IfSome result (IsOpenFor pass.new) }
{
    match socket.begin_recv(rt, pass, Ctx(0), None) {
        Ok(op) => Some(op),
        Err(_) => None,
    }
}

// Cancels the operation.
fn cancel<P: Proto, W: Wire>(socket: &Socket<P, W>, pass: &mut Pass<P, W>, op: OpName)
    requires { IsOf socket.now pass.old }
    ensures own { IsOf socket.now pass.new }
    ensures open_ { KeepsOpen pass.old pass.new }
{
    socket.cancel(pass, op);
}

// Serves the pipes.
fn serve<P: Proto, W: Wire, R: Wait>(rt: &R, socket: &Socket<P, W>, pass: &mut Pass<P, W>)
    requires { IsOf socket.now pass.old }
    ensures own { IsOf socket.now pass.new }
    ensures open_ { KeepsOpen pass.old pass.new }
{
    socket.serve(rt, pass);
}

// Waits for the operation.
fn wait<P: Proto, W: Wire, R: Wait>(
    rt: &R,
    socket: &Socket<P, W>,
    pass: &mut Pass<P, W>,
    op: Op,
) -> Outcome
    requires own { IsOf socket.now pass.old }
    requires op { IsOpenFor pass.old op }
    ensures { IsOf socket.now pass.new }
{
    socket.wait(rt, pass, op)
}

// Begins a receive, cancels and collects it.
fn cancels<P: Proto, W: Wire, R: Wait>(rt: &R, socket: &Socket<P, W>, pass: &mut Pass<P, W>) -> bool
    requires { IsOf socket.now pass.old }
    ensures { IsOf socket.now pass.new }
{
    let Some(op) = begin(rt, socket, pass) else {
        return false;
    };
    cancel(socket, pass, op.name());
    matches!(wait(rt, socket, pass, op), Outcome::Gone { .. })
}

// Begins a receive, serves and collects it.
fn receives<P: Proto, W: Wire, R: Wait>(
    rt: &R,
    socket: &Socket<P, W>,
    pass: &mut Pass<P, W>,
) -> bool
    requires { IsOf socket.now pass.old }
    ensures { IsOf socket.now pass.new }
{
    let Some(op) = begin(rt, socket, pass) else {
        return false;
    };
    serve(rt, socket, pass);
    matches!(wait(rt, socket, pass, op), Outcome::Received(_))
}

// Begins a receive, cancels it, serves and collects it: the others' turns may have won it.
fn races<P: Proto, W: Wire, R: Wait>(rt: &R, socket: &Socket<P, W>, pass: &mut Pass<P, W>) -> bool
    requires { IsOf socket.now pass.old }
    ensures { IsOf socket.now pass.new }
{
    let Some(op) = begin(rt, socket, pass) else {
        return false;
    };
    cancel(socket, pass, op.name());
    serve(rt, socket, pass);
    wait(rt, socket, pass, op);
    true
}

// Receives a queued message, and returns whether there was one.
fn receive<P: Proto, W: Wire, R: Wait>(rt: &R, socket: &Socket<P, W>, pass: &mut Pass<P, W>) -> bool
    requires { IsOf socket.now pass.old }
    ensures { IsOf socket.now pass.new }
{
    socket.try_recv(rt, pass, Ctx(0)).is_ok()
}

// Serves, and receives a queued message.
fn receives_now<P: Proto, W: Wire, R: Wait>(
    rt: &R,
    socket: &Socket<P, W>,
    pass: &mut Pass<P, W>,
) -> bool
    requires { IsOf socket.now pass.old }
    ensures { IsOf socket.now pass.new }
{
    serve(rt, socket, pass);
    receive(rt, socket, pass)
}

// Takes a turn that notes a link.
fn meets<P: Proto, W: Wire, R: Wait>(rt: &R, socket: &Socket<P, W>, pass: &mut Pass<P, W>) -> bool
    requires { IsOf socket.now pass.old }
    ensures { IsOf socket.now pass.new }
{
    socket.met(rt, pass, 0);
    true
}

// Does the work once, and returns whether it had the wanted result.
fn once<P: Proto, W: Wire, R: Wait>(
    rt: &R,
    socket: &Socket<P, W>,
    pass: &mut Pass<P, W>,
    work: Work,
) -> bool
    requires { IsOf socket.now pass.old }
    ensures { IsOf socket.now pass.new }
{
    match work {
        Work::Turns => meets(rt, socket, pass),
        Work::Cancels => cancels(rt, socket, pass),
        Work::Receives => receives(rt, socket, pass),
        Work::Races => races(rt, socket, pass),
        Work::Now => receives_now(rt, socket, pass),
    }
}

// Does the work `times` times, and returns how often it had the wanted result.
fn many<P: Proto, W: Wire, R: Wait>(
    rt: &R,
    socket: &Socket<P, W>,
    pass: &mut Pass<P, W>,
    work: Work,
    times: u32,
) -> u32
    requires { IsOf socket.now pass.old }
    ensures { IsOf socket.now pass.new }
{
    let mut done = 0u32;
    for _ in 0..times {
        if once(rt, socket, pass, work) {
            done = done.saturating_add(1);
        }
    }
    done
}

// Does the work `times` times, and adds to `done` how often it had the wanted result.
fn adds<P: Proto, W: Wire, R: Wait>(
    rt: &R,
    socket: &Socket<P, W>,
    pass: &mut Pass<P, W>,
    work: Work,
    times: u32,
    done: &AtomicU64,
)
    requires { IsOf socket.now pass.old }
    ensures { IsOf socket.now pass.new }
{
    let count = many(rt, socket, pass, work, times);
    done.fetch_add(u64::from(count), Ordering::SeqCst);
}

/// Has each of these callers do the work `times` times, each in a thread of its own where one can be made. Adds to
/// `done` how often it had the wanted result.
pub fn by_all<P: Proto + Send, W: Wire + Send, R: Threads + Wait + Sync>(
    rt: &R,
    socket: &Socket<P, W>,
    passes: &mut [Pass<P, W>],
    work: Work,
    times: u32,
    done: &AtomicU64,
)
    requires { Each (IsOf socket.now) passes.old }
    ensures own { Each (IsOf socket.now) passes.new }
    ensures count { length passes.new ≡ length passes.old }
{
    thread::for_each_mut(
        rt,
        passes,
        4,
        &|_i, pass: &mut Pass<P, W>|
            requires { IsOf socket.now pass.old }
            ensures { IsOf socket.entry.now pass.new }
        { adds(rt, socket, pass, work, times, done) },
    );
}
