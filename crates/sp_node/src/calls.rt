//! The calls on operations, contexts and topics, each one turn of the socket, but `cancel` and `poll`, which take none.
//! None of them waits.
ghost use Rattle.std.specs.Prelude.{◌≡◌, ◌≢◌, Err, IfErr, IfOk};
ghost use Rattle.sp_proto.specs.Kinds.{text_of};
ghost use Rattle.sp_history.specs.declared.entry.RecordedAct.TheVariants as acts;
ghost use Rattle.core_state.specs.declared.causes.BeginError.TheVariants as error;
ghost use Rattle.sp_core.specs.Standing.{BeganBy, began};
ghost use Rattle.sp_core.specs.Collecting.{CollectedBy, IsOpen};
ghost use Rattle.sp_core.specs.Contexts.{OpenedBy, ShutBy, SubscribedBy, UnsubscribedBy};
ghost use Rattle.sp_core.specs.Immediate.{ReceivedNow};
ghost use Rattle.sp_socket.specs.Singles.{TookOne, KeepsAllBut, CancelsOne, LooksAt};
ghost use Rattle.sp_node.specs.Nodes.{GoesOn, StaysStill};

use crate::node::Node;
use sp_base::{Ctx, Link, Net, OpName, Pace, Tick};
use sp_msg::Message;
use sp_proto::Proto;
use sp_socket::{BeginError, Collected, CtxError, NowError, Op, Polled, Raced, TopicError};
use std::sync::Wait;

impl<R: Wait, P: Proto, L: Link, N: Net<L = L>, C: Pace> Node<'_, R, P, L, N, C> {
    /// Begins a receive on the context, with a deadline or none (nng_ctx_recv(3)). Refused by the first cause of
    /// `BeginError` that stands; never for being out of memory.
    pub fn begin_recv(&mut self, c: Ctx, deadline: Option<Tick>) -> Result<Op, BeginError>
        ensures goes_on { GoesOn self.old self.new }
        ensures turn { TookOne (λ z h t. BeganBy result z h t 1 c acts.Recv deadline × (result ≢ Err error.NoMemory)) self.old.single self.new.single }
        ensures opens { IfOk result (λ op. IsOpen 1 op self.new.single.seen) }
    {
        self.single.begin_recv(self.rt, c, deadline)
    }

    /// Begins a send on the context, with a deadline or none (nng_ctx_send(3)). Where it is refused, by the first cause of
    /// `BeginError` that stands, the message comes back as it was.
    pub fn begin_send(
        &mut self,
        c: Ctx,
        m: Message,
        deadline: Option<Tick>,
    ) -> Result<Op, (BeginError, Message)>
        ensures goes_on { GoesOn self.old self.new }
        ensures turn { TookOne (λ z h t. BeganBy (began result) z h t 1 c (acts.Send (text_of m)) deadline × IfErr result (λ e. e.1 ≡ m)) self.old.single self.new.single }
        ensures opens { IfOk result (λ op. IsOpen 1 op self.new.single.seen) }
    {
        self.single.begin_send(self.rt, c, m, deadline)
    }

    /// Collects an operation that has ended (nng_aio_result(3)); else it comes back. The operation is one that was begun
    /// here and not collected.
    pub fn collect(&mut self, op: Op) -> Collected
        requires open_ { IsOpen 1 op self.old.single.seen }
        ensures others { KeepsAllBut result op self.old.single self.new.single }
        ensures turn { TookOne (λ z h t. CollectedBy result op 1 h t) self.old.single self.new.single }
    {
        self.single.collect(self.rt, op)
    }

    /// Cancels the operation (nng_aio_cancel(3)), unless it has ended. Takes no turn and no memory. What the operation
    /// would have got stays for the next one. It is still to be collected.
    pub fn cancel(&mut self, op: OpName) -> Raced
        ensures still { StaysStill self.old self.new }
        ensures raced { CancelsOne result op self.old.single self.new.single }
    {
        self.single.cancel(op)
    }

    /// Returns the state of the operation, as of the last turn. Takes no turn and no memory.
    pub fn poll(&mut self, op: OpName) -> Polled
        ensures still { StaysStill self.old self.new }
        ensures polled { LooksAt result op self.old.single self.new.single }
    {
        self.single.poll(op)
    }

    /// Receives the oldest message that is kept for the context, if there is one (nng_recvmsg(3) with
    /// NNG_FLAG_NONBLOCK). Refused as `begin_recv` is, and then where nothing is kept.
    pub fn try_recv(&mut self, c: Ctx) -> Result<Message, NowError>
        ensures goes_on { GoesOn self.old self.new }
        ensures turn { TookOne (λ z h t. ReceivedNow result z h t 1 c) self.old.single self.new.single }
    {
        self.single.try_recv(self.rt, c)
    }

    /// Opens a context (nng_ctx_open(3)); returns its number, one more than the contexts that were opened before.
    /// Refused by the first cause of `CtxError` that stands.
    pub fn open_ctx(&mut self) -> Result<Ctx, CtxError>
        ensures goes_on { GoesOn self.old self.new }
        ensures turn { TookOne (λ z h t. OpenedBy result z h t) self.old.single self.new.single }
    {
        self.single.open_ctx(self.rt)
    }

    /// Shuts the context (nng_ctx_close(3)): what is pending on it ends, and what is kept for it is dropped. Refused
    /// where the node is closed, or no such context is open that can be shut; the node's own can't.
    pub fn close_ctx(&mut self, c: Ctx) -> Result<(), CtxError>
        ensures goes_on { GoesOn self.old self.new }
        ensures turn { TookOne (λ z h t. ShutBy result z h t c) self.old.single self.new.single }
    {
        self.single.close_ctx(self.rt, c)
    }

    /// Puts a topic on for the context (NNG_OPT_SUB_SUBSCRIBE of nng_sub(7)), of at most 1,024 bytes; one that is there
    /// stays. Refused by the first cause of `TopicError` that stands.
    pub fn subscribe(&mut self, c: Ctx, topic: &[u8]) -> Result<(), TopicError>
        ensures goes_on { GoesOn self.old self.new }
        ensures turn { TookOne (λ z h t. SubscribedBy result z h t c topic.now) self.old.single self.new.single }
    {
        self.single.subscribe(self.rt, c, topic)
    }

    /// Takes a topic off for the context (NNG_OPT_SUB_UNSUBSCRIBE of nng_sub(7)). What is kept for it and no topic
    /// matches any more is dropped. Refused by the first cause of `TopicError` that stands.
    pub fn unsubscribe(&mut self, c: Ctx, topic: &[u8]) -> Result<(), TopicError>
        ensures goes_on { GoesOn self.old self.new }
        ensures turn { TookOne (λ z h t. UnsubscribedBy result z h t c topic.now) self.old.single self.new.single }
    {
        self.single.unsubscribe(self.rt, c, topic)
    }
}
