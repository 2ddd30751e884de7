//! The passes of the measured socket.
ghost use Rattle.std.specs.Prelude.{◌≡◌, ◌<◌, [], length, false, IfOk};
ghost use Rattle.sp_proto.specs.Kinds.{Kind, Starts};
ghost use Rattle.core_state.specs.Wires.{IsUnused};
ghost use Rattle.bench_socket.specs.Lent.{AreLent};

use crate::work::{Work, by_all};
use sp_base::NoMemory;
use sp_msg::Wire;
use sp_proto::Proto;
use sp_socket::{Config, Finished, Pass, Socket, SocketPasses, WireList, open};
use std::alloc::Global;
use std::sync::Wait;
use std::sync::atomic::AtomicU64;
use std::thread::Threads;

/// A socket of four callers, with all its passes.
pub fn opened<P: Proto + Drop, W: Wire>(
    alloc: Global,
    proto: P,
) -> Result<(Socket<P, W>, SocketPasses<P, W>), NoMemory>
    requires { (k : Kind) × Starts P.ties proto k }
    ensures lent { IfOk result (λ made. AreLent made.0 made.1 []) }
    ensures callers { IfOk result (λ made. made.0.words.callers ≡ 4) }
{
    let config = Config {
        slots: 16,
        callers: 4,
    };
    match open(alloc, proto, config) {
        Ok(made) => Ok(made),
        Err(_) => Err(NoMemory),
    }
}

/// Attaches the wire as a pipe, and returns whether it became one.
pub fn attach<P: Proto, W: Wire + Drop, R: Wait>(
    rt: &R,
    socket: &Socket<P, W>,
    list: &mut SocketPasses<P, W>,
    wire: W,
) -> bool
    requires lent { AreLent socket.now list.old [] }
    requires unused { IsUnused (W.shown wire) }
    ensures { AreLent socket.now list.new [] }
{
    let Some(mut pass) = list.pop() else {
        return false;
    };
    let attached = socket.attach(rt, &mut pass, wire, 0, u32::MAX).is_ok();
    list.give(pass);
    attached
}

// Lends up to `count` passes of the list.
fn lend<P: Proto, W: Wire>(
    alloc: Global,
    socket: &Socket<P, W>,
    list: &mut SocketPasses<P, W>,
    count: u32,
) -> Vec<Pass<P, W>>
    requires { AreLent socket.now list.old [] }
    ensures { AreLent socket.now list.new result.items }
{
    let mut passes = Vec::new(alloc);
    for _ in 0..count {
        lend_one(socket, list, &mut passes);
    }
    passes
}

// Lends one more pass, if there is one, and memory.
fn lend_one<P: Proto, W: Wire>(
    socket: &Socket<P, W>,
    list: &mut SocketPasses<P, W>,
    passes: &mut Vec<Pass<P, W>>,
)
    requires { AreLent socket.now list.old passes.old.items }
    ensures { AreLent socket.now list.new passes.new.items }
{
    let _socket = socket;
    let Some(pass) = list.pop() else {
        return;
    };
    match passes.push(pass) {
        Ok(()) => (),
        Err(e) => list.give(e.value),
    }
}

// Puts the passes back into the list.
fn take_back<P: Proto, W: Wire, R: Wait>(
    rt: &R,
    socket: &Socket<P, W>,
    list: &mut SocketPasses<P, W>,
    mut passes: Vec<Pass<P, W>>,
)
    requires { AreLent socket.now list.old passes.items }
    ensures { AreLent socket.now list.new [] }
{
    for _ in rt.forever() {
        if !give_last(socket, list, &mut passes) {
            passes.destroy_empty();
            return;
        }
    }
    unreachable!()
}

// Puts the last of the passes back, and returns whether there was one.
fn give_last<P: Proto, W: Wire>(
    socket: &Socket<P, W>,
    list: &mut SocketPasses<P, W>,
    passes: &mut Vec<Pass<P, W>>,
) -> bool
    requires { AreLent socket.now list.old passes.old.items }
    ensures lent { AreLent socket.now list.new passes.new.items }
    ensures none { result ≡ false → passes.new.items ≡ [] }
{
    let _socket = socket;
    match passes.pop() {
        None => false,
        Some(pass) => {
            list.give(pass);
            true
        }
    }
}

/// Has `callers` callers do the work `times` times, each in a thread of its own where one can be made. Adds to `done`
/// how often it had the wanted result.
pub fn do_all<P: Proto + Send, W: Wire + Send, R: Threads + Wait + Sync>(
    rt: &R,
    alloc: Global,
    socket: &Socket<P, W>,
    list: &mut SocketPasses<P, W>,
    callers: u32,
    work: Work,
    times: u32,
    done: &AtomicU64,
)
    requires { AreLent socket.now list.old [] }
    ensures { AreLent socket.now list.new [] }
{
    let mut passes = lend(alloc, socket, list, callers);
    by_all(rt, socket, passes.as_mut_slice(), work, times, done);
    take_back(rt, socket, list, passes)
}

/// Closes the socket, and ends it.
pub fn end<P: Proto, W: Wire + Drop, R: Wait>(
    rt: &R,
    socket: Socket<P, W>,
    mut list: SocketPasses<P, W>,
)
    requires lent { AreLent socket list [] }
    requires callers { 0 < socket.words.callers }
{
    let Some(mut pass) = list.pop() else {
        unreachable!()
    };
    socket.close(rt, &mut pass);
    list.give(pass);
    let Finished { wires, record_: _ } = socket.finish(rt, list);
    let_go(rt, wires)
}

/// Drops the wires.
pub fn let_go<W: Drop, R: Wait>(rt: &R, mut wires: WireList<W>) {
    for _ in rt.forever() {
        if wires.pop().is_none() {
            wires.destroy_empty();
            return;
        }
    }
    unreachable!()
}
