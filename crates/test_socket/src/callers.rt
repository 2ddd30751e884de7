//! The calls on a socket as a test makes them.
ghost use Rattle.std.specs.Prelude.{◌≡◌, ◌++◌, ◌∷◌, [], IfErr, IfOk};
ghost use Rattle.aio_word.specs.Views.{Each};
ghost use Rattle.sp_proto.specs.Kinds.{Kind, Starts};
ghost use Rattle.core_state.specs.Wires.{IsUnused};
ghost use Rattle.sp_socket.specs.Passes.{IsOf};
ghost use Rattle.sp_socket.specs.Open.{IsOpenFor};
ghost use Rattle.sp_socket.specs.Finishing.{HasSeenClose};
ghost use Rattle.test_socket.specs.Calls.{IsListOf, Calls};

use sp_base::{Ctx, OpName, PipeId, SpError, Tick};
use sp_msg::{Message, Wire};
use sp_proto::Proto;
use sp_socket::{
    AttachError, BeginError, Collected, Config, CtxError, Finished, Gone, Miss, NowError, Op,
    Outcome, Pass, Polled, Raced, Served, Socket, SocketPasses, Ticked, TopicError, Totals, open,
};
use std::alloc::Global;
use std::process::Abort;
use std::sync::Wait;

/// A caller of a socket.
pub struct Caller<P: Proto, W: Wire> {
    pub pass: Pass<P, W>,
    /// The operations that it began and did not collect, in order.
    pub ops: Vec<Op>,
}

/// A socket with all its passes, or the number of the error.
pub fn opened<P: Proto, W: Wire>(
    alloc: Global,
    proto: P,
    slots: u32,
    callers: u32,
) -> Result<(Socket<P, W>, SocketPasses<P, W>), u32>
    requires { (k : Kind) × Starts P.ties proto k }
    ensures { IfOk result (λ made. IsListOf made.0 made.1) }
{
    match open(alloc, proto, Config { slots, callers }) {
        Ok(made) => Ok(made),
        Err((e, _machine)) => Err(SpError::from(e).code()),
    }
}

/// The caller of the list's last pass.
pub fn next<P: Proto, W: Wire>(
    rt: &impl Abort,
    alloc: Global,
    socket: &Socket<P, W>,
    list: &mut SocketPasses<P, W>,
) -> Caller<P, W>
    requires { IsListOf socket.now list.old }
    ensures list { IsListOf socket.now list.new }
    ensures caller { Calls socket.now result.pass result.ops.items }
{
    match list.pop() {
        Some(pass) => Caller {
            pass,
            ops: Vec::new(alloc),
        },
        None => panic!(rt; "no pass"),
    }
}

// Keeps one more operation.
fn keep(rt: &impl Abort, ops: &mut Vec<Op>, op: Op)
    ensures { ops.new.items ≡ ops.old.items ++ op ∷ [] }
{
    match ops.push(op) {
        Ok(()) => (),
        Err(_) => panic!(rt; "no memory for an operation"),
    }
}

impl<P: Proto, W: Wire> Caller<P, W> {
    /// Begins a receive, and keeps it.
    pub fn begin_recv<R: Wait + Abort>(
        &mut self,
        rt: &R,
        socket: &Socket<P, W>,
        c: Ctx,
        deadline: Option<Tick>,
    ) -> Result<OpName, BeginError>
        requires { Calls socket.now self.old.pass self.old.ops.items }
        ensures { Calls socket.now self.new.pass self.new.ops.items }
    {
        match socket.begin_recv(rt, &mut self.pass, c, deadline) {
            Err(e) => Err(e),
            Ok(op) => {
                let name = op.name();
                keep(rt, &mut self.ops, op);
                Ok(name)
            }
        }
    }

    /// Begins a send on the socket's own context, and keeps it.
    pub fn begin_send<R: Wait + Abort>(
        &mut self,
        rt: &R,
        socket: &Socket<P, W>,
        m: Message,
    ) -> Result<OpName, (BeginError, Message)>
        requires { Calls socket.now self.old.pass self.old.ops.items }
        ensures { Calls socket.now self.new.pass self.new.ops.items }
    {
        match socket.begin_send(rt, &mut self.pass, Ctx(0), m, None) {
            Err(e) => Err(e),
            Ok(op) => {
                let name = op.name();
                keep(rt, &mut self.ops, op);
                Ok(name)
            }
        }
    }

    /// Attaches the wire as a pipe over the link with place 0.
    pub fn attach<R: Wait>(
        &mut self,
        rt: &R,
        socket: &Socket<P, W>,
        w: W,
    ) -> Result<PipeId, (AttachError, W)>
        requires calls { Calls socket.now self.old.pass self.old.ops.items }
        requires unused { IsUnused (W.shown w) }
        ensures calls { Calls socket.now self.new.pass self.new.ops.items }
        ensures handed_back { IfErr result (λ e. e.1 ≡ w) }
    {
        socket.attach(rt, &mut self.pass, w, 0, u32::MAX)
    }

    /// Receives a queued message.
    pub fn try_recv<R: Wait>(&mut self, rt: &R, socket: &Socket<P, W>) -> Result<Message, NowError>
        requires { Calls socket.now self.old.pass self.old.ops.items }
        ensures { Calls socket.now self.new.pass self.new.ops.items }
    {
        socket.try_recv(rt, &mut self.pass, Ctx(0))
    }

    /// Opens a context.
    pub fn open_ctx<R: Wait>(&mut self, rt: &R, socket: &Socket<P, W>) -> Result<Ctx, CtxError>
        requires { Calls socket.now self.old.pass self.old.ops.items }
        ensures { Calls socket.now self.new.pass self.new.ops.items }
    {
        socket.open_ctx(rt, &mut self.pass)
    }

    /// Shuts the context.
    pub fn close_ctx<R: Wait>(
        &mut self,
        rt: &R,
        socket: &Socket<P, W>,
        c: Ctx,
    ) -> Result<(), CtxError>
        requires { Calls socket.now self.old.pass self.old.ops.items }
        ensures { Calls socket.now self.new.pass self.new.ops.items }
    {
        socket.close_ctx(rt, &mut self.pass, c)
    }

    /// Subscribes the socket's own context to a topic.
    pub fn subscribe<R: Wait>(
        &mut self,
        rt: &R,
        socket: &Socket<P, W>,
        topic: &[u8],
    ) -> Result<(), TopicError>
        requires { Calls socket.now self.old.pass self.old.ops.items }
        ensures { Calls socket.now self.new.pass self.new.ops.items }
    {
        socket.subscribe(rt, &mut self.pass, Ctx(0), topic)
    }

    /// Unsubscribes the socket's own context from a topic.
    pub fn unsubscribe<R: Wait>(
        &mut self,
        rt: &R,
        socket: &Socket<P, W>,
        topic: &[u8],
    ) -> Result<(), TopicError>
        requires { Calls socket.now self.old.pass self.old.ops.items }
        ensures { Calls socket.now self.new.pass self.new.ops.items }
    {
        socket.unsubscribe(rt, &mut self.pass, Ctx(0), topic)
    }

    /// Meets the link with place 1, and gives it back.
    pub fn misses<R: Wait>(&mut self, rt: &R, socket: &Socket<P, W>, miss: Miss)
        requires { Calls socket.now self.old.pass self.old.ops.items }
        ensures { Calls socket.now self.new.pass self.new.ops.items }
    {
        socket.met(rt, &mut self.pass, 1);
        socket.missed(rt, &mut self.pass, 1, miss)
    }

    /// Serves the pipes.
    pub fn serve<R: Wait>(&mut self, rt: &R, socket: &Socket<P, W>) -> Served
        requires { Calls socket.now self.old.pass self.old.ops.items }
        ensures { Calls socket.now self.new.pass self.new.ops.items }
    {
        socket.serve(rt, &mut self.pass)
    }

    /// Takes the wire of the pipe that went down first.
    pub fn take_ended<R: Wait>(&mut self, rt: &R, socket: &Socket<P, W>) -> Option<Gone<W>>
        requires { Calls socket.now self.old.pass self.old.ops.items }
        ensures { Calls socket.now self.new.pass self.new.ops.items }
    {
        socket.take_ended(rt, &mut self.pass)
    }

    /// Ticks at `now`.
    pub fn tick<R: Wait>(&mut self, rt: &R, socket: &Socket<P, W>, now: Tick) -> Ticked
        requires { Calls socket.now self.old.pass self.old.ops.items }
        ensures { Calls socket.now self.new.pass self.new.ops.items }
    {
        socket.tick(rt, &mut self.pass, now)
    }

    /// Cancels the operation.
    pub fn cancel(&mut self, socket: &Socket<P, W>, op: OpName) -> Raced
        requires { Calls socket.now self.old.pass self.old.ops.items }
        ensures { Calls socket.now self.new.pass self.new.ops.items }
    {
        socket.cancel(&mut self.pass, op)
    }

    /// The state of the operation.
    pub fn poll(&mut self, socket: &Socket<P, W>, op: OpName) -> Polled
        requires { Calls socket.now self.old.pass self.old.ops.items }
        ensures { Calls socket.now self.new.pass self.new.ops.items }
    {
        socket.poll(&mut self.pass, op)
    }

    /// Collects the kept operation that began last. `None` where it has not ended.
    pub fn collect<R: Wait + Abort>(&mut self, rt: &R, socket: &Socket<P, W>) -> Option<Outcome>
        requires { Calls socket.now self.old.pass self.old.ops.items }
        ensures { Calls socket.now self.new.pass self.new.ops.items }
    {
        let Some(op) = self.ops.pop() else {
            panic!(rt; "nothing to collect")
        };
        match socket.collect(rt, &mut self.pass, op) {
            Collected::Ended(outcome) => Some(outcome),
            Collected::NotYet(op) => {
                keep(rt, &mut self.ops, op);
                None
            }
        }
    }

    /// Waits for the kept operation that began last.
    pub fn wait<R: Wait + Abort>(&mut self, rt: &R, socket: &Socket<P, W>) -> Outcome
        requires { Calls socket.now self.old.pass self.old.ops.items }
        ensures { Calls socket.now self.new.pass self.new.ops.items }
    {
        let Some(op) = self.ops.pop() else {
            panic!(rt; "nothing to wait for")
        };
        socket.wait(rt, &mut self.pass, op)
    }

    /// Closes the socket.
    pub fn close<R: Wait>(&mut self, rt: &R, socket: &Socket<P, W>) -> Totals
        requires { Calls socket.now self.old.pass self.old.ops.items }
        ensures { Calls socket.now self.new.pass self.new.ops.items }
    {
        socket.close(rt, &mut self.pass)
    }
}

// Collects all kept operations, once they have ended.
fn collect_all<P: Proto, W: Wire, R: Wait + Abort>(
    rt: &R,
    socket: &Socket<P, W>,
    caller: &mut Caller<P, W>,
)
    requires { Calls socket.now caller.old.pass caller.old.ops.items }
    ensures calls { Calls socket.now caller.new.pass caller.new.ops.items }
    ensures none { caller.new.ops.items ≡ [] }
{
    for _ in rt.forever() {
        if caller.ops.is_empty() {
            return;
        }
        caller.wait(rt, socket);
    }
    unreachable!()
}

/// Closes the socket, collects all that the caller has open, and gives its pass back. Returns the totals.
pub fn give_back<P: Proto, W: Wire, R: Wait + Abort>(
    rt: &R,
    socket: &Socket<P, W>,
    list: &mut SocketPasses<P, W>,
    mut caller: Caller<P, W>,
) -> Totals
    requires list { IsListOf socket.now list.old }
    requires caller { Calls socket.now caller.pass caller.ops.items }
    ensures list { IsListOf socket.now list.new }
    ensures closed { HasSeenClose socket.now list.new.items }
{
    caller.close(rt, socket);
    collect_all(rt, socket, &mut caller);
    let Caller { mut pass, ops } = caller;
    ops.destroy_empty();
    let totals = socket.close(rt, &mut pass);
    list.give(pass);
    totals
}

/// Ends the socket, and returns how many wires are left.
pub fn finish<P: Proto, W: Wire + Drop, R: Wait + Abort>(
    rt: &R,
    socket: Socket<P, W>,
    list: SocketPasses<P, W>,
) -> usize
    requires list { IsListOf socket list }
    requires closed { HasSeenClose socket list.items }
{
    if !list.is_full() {
        panic!(rt; "a pass is out")
    }
    let Finished { wires, record_: _ } = socket.finish(rt, list);
    let mut wires = wires;
    let mut count = 0usize;
    for _ in rt.forever() {
        if wires.pop().is_none() {
            wires.destroy_empty();
            return count;
        }
        count = count.saturating_add(1);
    }
    unreachable!()
}
