//! The operations of a rep that wait: its receives, and its replies.
//!
//! They are kept separately, so that a search of the replies passes no receive. Contracts see all of them in the order
//! of their begins (`Holds`).
ghost use Rattle.std.specs.Prelude.{◌≡◌, ◌≤◌, ◌<◌, ◌+◌, ◌++◌, ◌∷◌, ℕ, List, [], false, find, map, IfOk, IfSome, OnOk};
ghost use Rattle.std.specs.Option.{option_map};
ghost use Rattle.std.specs.List.{list_any};
ghost use Rattle.sp_base.specs.declared.OpName.{OpName as Name};
ghost use Rattle.sp_history.specs.Once.{AreApart};
ghost use Rattle.sp_proto.specs.Machines.{Served};
ghost use Rattle.proto_rep.specs.declared.operations.ReplyOperation.{ReplyOperation as ReplyOperationType};
ghost use Rattle.proto_rep.specs.Replies.{AreStuck, StayPassed, is_to};
ghost use Rattle.proto_rep.specs.Operations.{Holds, begun_of, is_for, is_receive, receives_on, without_first, of_recipient, of_reply, count, room, SendsFirst};

use crate::replies::{PendingReply, WaitingReplies, WaitingReply};
use proto_requests::ports::Ports;
use proto_requests::waits::{Waiter, Waits};
use sp_base::{Ctx, NoMemory, OpName, PipeId};
use sp_proto::Offer;
use std::alloc::Global;

/// A receive that waits for a request (nng_rep(7)).
#[derive(Drop)]
pub struct Recipient {
    pub op: OpName,
    pub ctx: Ctx,
}

impl Waiter for Recipient {
    ghost use Rattle.std.specs.Prelude.{false};
    ghost use Rattle.proto_rep.specs.OperationLaws as laws;

    ghost name_of = { λ w. w.op };

    ghost context_of = { λ w. w.ctx };

    ghost is_send = { λ w. false };

    ghost is_left = { λ w. false };

    ghost left = { λ w. w };

    ghost left_same = { laws.recipient_same };

    ghost left_again = { laws.recipient_again };

    ghost may_leave = { false };

    ghost left_is = { laws.recipient_is };

    fn op(&self) -> OpName {
        self.op
    }

    fn ctx(&self) -> Ctx {
        self.ctx
    }

    fn sends(&self) -> bool {
        false
    }

    fn is_over(&self) -> bool {
        false
    }

    fn leave(&mut self) {}
}

/// An operation: a send with its answer, or a receive (nng_rep(7)).
#[derive(Drop)]
pub struct ReplyOperation {
    pub op: OpName,
    pub ctx: Ctx,
    pub answer: Option<PendingReply>,
}

/// Operations that wait (nng_aio(5)).
#[derive(Drop)]
pub struct RepOperations {
    receives: Waits<Recipient>,
    replies: WaitingReplies,
}

// The receive as an operation.
fn of_recipient(w: Recipient) -> ReplyOperation
    ensures { result ≡ of_recipient w }
{
    ReplyOperation {
        op: w.op,
        ctx: w.ctx,
        answer: None,
    }
}

// The reply as an operation.
fn of_reply(w: WaitingReply) -> ReplyOperation
    ensures { result ≡ of_reply w }
{
    ReplyOperation {
        op: w.op,
        ctx: w.ctx,
        answer: Some(w.answer),
    }
}

// The sum of `more` and `others`.
fn beside(more: u32, others: usize) -> Result<u32, NoMemory>
    ensures { IfOk result (λ n. more + others ≤ n) }
{
    match u32::try_from(others) {
        Err(_) => Err(NoMemory),
        Ok(others) => match more.checked_add(others) {
            None => Err(NoMemory),
            Some(n) => Ok(n),
        },
    }
}

impl RepOperations {
    /// No operations.
    pub fn new(alloc: Global, raw: bool) -> RepOperations
        ensures none { Holds result [] }
        ensures passed { result.replies.passed ≡ [] }
    {
        RepOperations {
            receives: Waits::new(alloc),
            replies: WaitingReplies::new(alloc, raw),
        }
    }

    /// The first receive.
    pub fn first_receive(&self) -> Option<OpName>
        ensures { (ws : List ReplyOperationType) → Holds self.now ws → result ≡ option_map (λ (w : ReplyOperationType). w.op) (find is_receive ws) }
    {
        self.receives.first_receive()
    }

    /// Returns whether a receive of the context waits.
    pub fn is_receiving(&self, c: Ctx) -> bool
        ensures { (ws : List ReplyOperationType) → Holds self.now ws → result ≡ list_any (receives_on c) ws }
    {
        self.receives.is_receiving(c)
    }

    /// Offers the first of all replies whose pipe isn't up and full: it goes out, or nowhere.
    pub fn next_reply(&mut self, raw: bool, ports: &Ports) -> Offer
        ensures same { (ws : List ReplyOperationType) → Holds self.old ws → Holds self.new ws }
        ensures count { count self.new ≡ count self.old }
        ensures room { room self.new ≡ room self.old }
        ensures stuck { AreStuck raw ports.now.items self.old.replies → AreStuck raw ports.now.items self.new.replies }
        ensures offer { (ws : List ReplyOperationType) → Holds self.old ws → AreStuck raw ports.now.items self.old.replies → SendsFirst raw ports.now.items ws result }
    {
        self.replies.next(raw, ports)
    }

    /// Makes no reply passed over.
    pub fn pass_none(&mut self)
        ensures same { (ws : List ReplyOperationType) → Holds self.old ws → Holds self.new ws }
        ensures count { count self.new ≡ count self.old }
        ensures room { room self.new ≡ room self.old }
        ensures passed { self.new.replies.passed ≡ [] }
    {
        self.replies.pass_none();
    }

    /// Makes no reply that may go to this pipe passed over.
    pub fn pass_below(&mut self, raw: bool, p: PipeId)
        ensures same { (ws : List ReplyOperationType) → Holds self.old ws → Holds self.new ws }
        ensures count { count self.new ≡ count self.old }
        ensures room { room self.new ≡ room self.old }
        ensures passed { StayPassed self.old.replies self.new.replies }
        ensures none { list_any (is_to raw p) self.new.replies.passed ≡ false }
    {
        self.replies.pass_below(raw, p);
    }

    /// Takes the memory for `more` more operations.
    pub fn reserve(&mut self, more: u32) -> Result<(), NoMemory>
        ensures same { (ws : List ReplyOperationType) → Holds self.old ws → Holds self.new ws }
        ensures passed { StayPassed self.old.replies self.new.replies }
        ensures room { OnOk result (more ≤ room self.new) }
    {
        let receives = match beside(more, self.replies.len()) {
            Err(e) => return Err(e),
            Ok(n) => n,
        };
        let replies = match beside(more, self.receives.spots()) {
            Err(e) => return Err(e),
            Ok(n) => n,
        };
        match self.receives.reserve(receives) {
            Err(e) => Err(e),
            Ok(()) => self.replies.reserve(replies),
        }
    }

    /// Adds an operation, as the last one.
    pub fn push(&mut self, w: ReplyOperation)
        requires { 0 < room self.old }
        ensures more { (ws : List ReplyOperationType) → Holds self.old ws → Holds self.new (ws ++ w ∷ []) }
        ensures passed { StayPassed self.old.replies self.new.replies }
        ensures room { room self.old ≤ room self.new + 1 }
    {
        let ReplyOperation { op, ctx, answer } = w;
        match answer {
            None => self.receives.push(Recipient { op, ctx }),
            Some(answer) => self.replies.push(op, ctx, answer),
        }
    }

    /// Takes the operation out.
    pub fn take(&mut self, op: OpName) -> Option<ReplyOperation>
        ensures found { (ws : List ReplyOperationType) → AreApart (map begun_of ws) → Holds self.old ws → result ≡ find (is_for op) ws }
        ensures rest { (ws : List ReplyOperationType) → AreApart (map begun_of ws) → Holds self.old ws → Holds self.new (without_first op ws) }
        ensures passed { StayPassed self.old.replies self.new.replies }
        ensures served { (ws : List ReplyOperationType) → Holds self.old ws → IfSome result (λ w. Served (count self.old) (count self.new) (room self.old) (room self.new)) }
        ensures room { room self.old ≤ room self.new }
    {
        match self.replies.take(op) {
            Some(w) => Some(of_reply(w)),
            None => match self.receives.take(op) {
                None => None,
                Some(w) => Some(of_recipient(w)),
            },
        }
    }
}
