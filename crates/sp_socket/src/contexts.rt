//! The calls of contexts and topics, each one turn of its caller.
ghost use Rattle.sp_core.specs.Contexts.{OpenedBy, ShutBy, SubscribedBy, UnsubscribedBy};
ghost use Rattle.sp_socket.specs.Passes.{IsOf};
ghost use Rattle.sp_socket.specs.Open.{KeepsPass};
ghost use Rattle.sp_socket.specs.Turns.{TookTurn};

use crate::pass::Pass;
use crate::socket::Socket;
use crate::turn_calls::{CloseCtx, OpenCtx, SubscribeTopic, Unsubscribe};
use sp_base::Ctx;
use sp_core::{CtxError, TopicError};
use sp_msg::Wire;
use sp_proto::Proto;
use std::sync::Wait;

impl<P: Proto, W: Wire> Socket<P, W> {
    /// Opens a context (nng_ctx_open(3)); returns its number, one more than the contexts that were opened before.
    /// Refused for the first cause of `CtxError` that applies.
    pub fn open_ctx<R: Wait>(&self, rt: &R, pass: &mut Pass<P, W>) -> Result<Ctx, CtxError>
        requires own { IsOf self.now pass.old }
        ensures pass { KeepsPass pass.old pass.new }
        ensures turn { TookTurn (λ z h t. OpenedBy result z h t) pass.old pass.new }
    {
        self.act::<OpenCtx, R>(rt, pass, OpenCtx)
    }

    /// Shuts the context (nng_ctx_close(3)): what is pending on it ends, Closed unless a caller has ended it, and what
    /// is kept for it is dropped. Refused where the socket is closed, or no such context is open that can be shut; the
    /// socket's own context can't be shut. Doesn't fail when out of memory.
    pub fn close_ctx<R: Wait>(&self, rt: &R, pass: &mut Pass<P, W>, c: Ctx) -> Result<(), CtxError>
        requires own { IsOf self.now pass.old }
        ensures pass { KeepsPass pass.old pass.new }
        ensures turn { TookTurn (λ z h t. ShutBy result z h t c) pass.old pass.new }
    {
        self.act::<CloseCtx, R>(rt, pass, CloseCtx { c })
    }

    /// Subscribes the context to a topic (NNG_OPT_SUB_SUBSCRIBE of nng_sub(7)) of at most 1,024 bytes; one that is
    /// there stays. Refused for the first cause of `TopicError` that applies.
    pub fn subscribe<R: Wait>(
        &self,
        rt: &R,
        pass: &mut Pass<P, W>,
        c: Ctx,
        topic: &[u8],
    ) -> Result<(), TopicError>
        requires own { IsOf self.now pass.old }
        ensures pass { KeepsPass pass.old pass.new }
        ensures turn { TookTurn (λ z h t. SubscribedBy result z h t c topic.now) pass.old pass.new }
    {
        self.act::<SubscribeTopic<'_>, R>(rt, pass, SubscribeTopic { c, topic })
    }

    /// Unsubscribes the context from a topic (NNG_OPT_SUB_UNSUBSCRIBE of nng_sub(7)). What is kept for it and no topic
    /// matches any more is dropped. Refused for the first cause of `TopicError` that applies. Doesn't fail when out of
    /// memory.
    pub fn unsubscribe<R: Wait>(
        &self,
        rt: &R,
        pass: &mut Pass<P, W>,
        c: Ctx,
        topic: &[u8],
    ) -> Result<(), TopicError>
        requires own { IsOf self.now pass.old }
        ensures pass { KeepsPass pass.old pass.new }
        ensures turn { TookTurn (λ z h t. UnsubscribedBy result z h t c topic.now) pass.old pass.new }
    {
        self.act::<Unsubscribe<'_>, R>(rt, pass, Unsubscribe { c, topic })
    }
}
