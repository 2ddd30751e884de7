//! The calls of a socket with one caller, each one turn, but `cancel` and `poll`, which take none.
ghost use Rattle.std.specs.Prelude.{◌≡◌, ◌≢◌, Err, IfErr, IfOk, true};
ghost use Rattle.sp_proto.specs.Kinds.{text_of};
ghost use Rattle.sp_history.specs.declared.entry.RecordedAct.TheVariants as acts;
ghost use Rattle.sp_history.specs.declared.entry.Entry.TheVariants as entries;
ghost use Rattle.sp_history.specs.Past.{past_of, is_closed};
ghost use Rattle.core_state.specs.declared.causes.BeginError.TheVariants as error;
ghost use Rattle.sp_core.specs.CallSays.{ServesBusy, ServesPipes};
ghost use Rattle.sp_core.specs.Standing.{BeganBy, began, HasFirst};
ghost use Rattle.sp_core.specs.Collecting.{CollectedBy, DueBy, IsOpen};
ghost use Rattle.sp_core.specs.Closing.{ClosedBy};
ghost use Rattle.sp_core.specs.Contexts.{OpenedBy, ShutBy, SubscribedBy, UnsubscribedBy};
ghost use Rattle.sp_core.specs.Immediate.{ReceivedNow};
ghost use Rattle.core_state.specs.Wires.{numbers_of, IsUnused};
ghost use Rattle.sp_core.specs.Attaching.{AttachedBy, attached, TookWire};
ghost use Rattle.sp_socket.specs.Turns.{AllEnded};
ghost use Rattle.sp_socket.specs.Singles.{TookOne, Ticks, KeepsOpen, KeepsAllBut, StaysOpen, StaysPending};
ghost use Rattle.sp_socket.specs.Singles.{IsStill, CancelsOne, LooksAt};

use crate::single::Single;
use aio_word::{Polled, Raced};
use sp_base::{Ctx, OpName, PipeId, Tick};
use sp_core::{
    AttachError, BeginError, Collected, CtxError, Gone, NowError, Op, Served, TopicError,
};
use sp_history::entry::{Miss, Totals};
use sp_msg::{Message, Wire};
use sp_proto::Proto;
use std::sync::Wait;

impl<P: Proto, W: Wire> Single<P, W> {
    /// Begins a receive, with a deadline or none. Never refused when out of memory.
    pub fn begin_recv<R: Wait>(
        &mut self,
        rt: &R,
        c: Ctx,
        deadline: Option<Tick>,
    ) -> Result<Op, BeginError>
        ensures turn { TookOne (λ z h t. BeganBy result z h t 1 c acts.Recv deadline × (result ≢ Err error.NoMemory)) self.old self.new }
        ensures opens { IfOk result (λ op. IsOpen 1 op self.new.seen) }
        ensures open_ { KeepsOpen self.old self.new }
    {
        self.socket.begin_recv(rt, &mut self.pass, c, deadline)
    }

    /// Begins a send, with a deadline or none. Where it is refused the message is returned unchanged.
    pub fn begin_send<R: Wait>(
        &mut self,
        rt: &R,
        c: Ctx,
        m: Message,
        deadline: Option<Tick>,
    ) -> Result<Op, (BeginError, Message)>
        ensures turn { TookOne (λ z h t. BeganBy (began result) z h t 1 c (acts.Send (text_of m)) deadline × IfErr result (λ e. e.1 ≡ m)) self.old self.new }
        ensures opens { IfOk result (λ op. IsOpen 1 op self.new.seen) }
        ensures open_ { KeepsOpen self.old self.new }
    {
        self.socket.begin_send(rt, &mut self.pass, c, m, deadline)
    }

    /// Ticks at `now`, in milliseconds (one before the last tick counts as that): ends what is due.
    pub fn tick<R: Wait>(&mut self, rt: &R, now: Tick)
        ensures open_ { KeepsOpen self.old self.new }
        ensures turn { TookOne (λ z h t. Ticks h t now) self.old self.new }
    {
        let _ = self.socket.tick(rt, &mut self.pass, now);
    }

    /// Collects an operation that has ended; otherwise returns the operation.
    pub fn collect<R: Wait>(&mut self, rt: &R, op: Op) -> Collected
        requires { IsOpen 1 op self.old.seen }
        ensures open_ { StaysOpen result op self.new }
        ensures others { KeepsAllBut result op self.old self.new }
        ensures pending { StaysPending result op self.new }
        ensures turn { TookOne (λ z h t. CollectedBy result op 1 h t) self.old self.new }
    {
        self.socket.collect(rt, &mut self.pass, op)
    }

    /// Cancels the operation (nng_aio_cancel(3)), unless it has ended. Takes no turn and no memory. What the operation
    /// would have got stays for the next one. It is still to be collected.
    pub fn cancel(&mut self, op: OpName) -> Raced
        ensures still { IsStill self.old self.new }
        ensures raced { CancelsOne result op self.old self.new }
    {
        self.socket.cancel(&mut self.pass, op)
    }

    /// Returns the state of the operation. Takes no turn and no memory.
    pub fn poll(&mut self, op: OpName) -> Polled
        ensures still { IsStill self.old self.new }
        ensures polled { LooksAt result op self.old self.new }
    {
        self.socket.poll(&mut self.pass, op)
    }

    /// Receives the oldest message that is kept for the context, if there is one (nng_recvmsg(3) with
    /// NNG_FLAG_NONBLOCK). Refused as `begin_recv` is, and then where nothing is kept. Takes no memory.
    pub fn try_recv<R: Wait>(&mut self, rt: &R, c: Ctx) -> Result<Message, NowError>
        ensures open_ { KeepsOpen self.old self.new }
        ensures turn { TookOne (λ z h t. ReceivedNow result z h t 1 c) self.old self.new }
    {
        self.socket.try_recv(rt, &mut self.pass, c)
    }

    /// Opens a context (nng_ctx_open(3)); returns its number, one more than the contexts that were opened before.
    /// Refused for the first cause of `CtxError` that applies.
    pub fn open_ctx<R: Wait>(&mut self, rt: &R) -> Result<Ctx, CtxError>
        ensures open_ { KeepsOpen self.old self.new }
        ensures turn { TookOne (λ z h t. OpenedBy result z h t) self.old self.new }
    {
        self.socket.open_ctx(rt, &mut self.pass)
    }

    /// Shuts the context (nng_ctx_close(3)): what is pending on it ends, and what is kept for it is dropped. Refused
    /// where the socket is closed, or no such context is open that can be shut; the socket's own context can't be shut.
    pub fn close_ctx<R: Wait>(&mut self, rt: &R, c: Ctx) -> Result<(), CtxError>
        ensures open_ { KeepsOpen self.old self.new }
        ensures turn { TookOne (λ z h t. ShutBy result z h t c) self.old self.new }
    {
        self.socket.close_ctx(rt, &mut self.pass, c)
    }

    /// Unsubscribes the context from a topic (NNG_OPT_SUB_UNSUBSCRIBE of nng_sub(7)). What is kept for it and no topic
    /// matches any more is dropped. Refused for the first cause of `TopicError` that applies. Takes no memory.
    pub fn unsubscribe<R: Wait>(&mut self, rt: &R, c: Ctx, topic: &[u8]) -> Result<(), TopicError>
        ensures open_ { KeepsOpen self.old self.new }
        ensures turn { TookOne (λ z h t. UnsubscribedBy result z h t c topic.now) self.old self.new }
    {
        self.socket.unsubscribe(rt, &mut self.pass, c, topic)
    }

    /// Subscribes the context to a topic (NNG_OPT_SUB_SUBSCRIBE of nng_sub(7)) of at most 1,024 bytes; one that is
    /// there stays. Refused for the first cause of `TopicError` that applies.
    pub fn subscribe<R: Wait>(&mut self, rt: &R, c: Ctx, topic: &[u8]) -> Result<(), TopicError>
        ensures open_ { KeepsOpen self.old self.new }
        ensures turn { TookOne (λ z h t. SubscribedBy result z h t c topic.now) self.old self.new }
    {
        self.socket.subscribe(rt, &mut self.pass, c, topic)
    }

    /// The wire, which was not used yet, becomes a pipe over the link with this place. A frame of more than `max` bytes
    /// takes the pipe down; 2^32 - 1 is no limit.
    pub fn attach<R: Wait>(
        &mut self,
        rt: &R,
        w: W,
        place: u32,
        max: u32,
    ) -> Result<PipeId, (AttachError, W)>
        requires { IsUnused (W.shown w) }
        ensures open_ { KeepsOpen self.old self.new }
        ensures turn { TookOne (λ z h t. AttachedBy (attached result) z h t place max (numbers_of (W.shown w).name) × IfErr result (λ e. e.1 ≡ w)) self.old self.new }
    {
        self.socket.attach(rt, &mut self.pass, w, place, max)
    }

    /// Records that the net handed out the link with this place.
    pub fn met<R: Wait>(&mut self, rt: &R, place: u32)
        ensures open_ { KeepsOpen self.old self.new }
        ensures turn { TookOne (λ z h t. HasFirst (entries.Met place) t) self.old self.new }
    {
        self.socket.met(rt, &mut self.pass, place)
    }

    /// Records that the link with this place was given back without having become a pipe.
    pub fn missed<R: Wait>(&mut self, rt: &R, place: u32, miss: Miss)
        ensures open_ { KeepsOpen self.old self.new }
        ensures turn { TookOne (λ z h t. HasFirst (entries.NoUp place miss) t) self.old self.new }
    {
        self.socket.missed(rt, &mut self.pass, place, miss)
    }

    /// Serves the pipes.
    pub fn serve<R: Wait>(&mut self, rt: &R) -> Served
        ensures open_ { KeepsOpen self.old self.new }
        ensures turn { TookOne (λ z h t. ServesPipes result z h t) self.old self.new }
    {
        self.socket.serve(rt, &mut self.pass)
    }

    /// Serves the pipes that are busy, with at most `most` frames of each.
    pub fn serve_busy<R: Wait>(&mut self, rt: &R, most: u32) -> Served
        ensures open_ { KeepsOpen self.old self.new }
        ensures turn { TookOne (λ z h t. ServesBusy most result z h t) self.old self.new }
    {
        self.socket.serve_busy(rt, &mut self.pass, most)
    }

    /// Takes the wire of the pipe that went down first, of those that were not taken; `None` where there is none.
    pub fn take_ended<R: Wait>(&mut self, rt: &R) -> Option<Gone<W>>
        ensures open_ { KeepsOpen self.old self.new }
        ensures turn { TookOne (λ z h t. TookWire W.shown result z h t) self.old self.new }
    {
        self.socket.take_ended(rt, &mut self.pass)
    }

    /// Closes it: every operation ends, and each pipe is flushed once and goes down.
    pub fn close<R: Wait>(&mut self, rt: &R) -> Totals
        ensures open_ { KeepsOpen self.old self.new }
        ensures turn { TookOne (λ z h t. ClosedBy result z.callers h t) self.old self.new }
        ensures ended { AllEnded self.new.seen }
        ensures closed { is_closed (past_of self.new.seen) ≡ true }
    {
        self.socket.close(rt, &mut self.pass)
    }
}
