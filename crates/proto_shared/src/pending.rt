//! The operations that a machine has pending: its receives and its sends, each in the order of their begins.
//!
//! A machine that serves receives in order and sends in order asks for the first of each, and ends one, which is found
//! at once where it is the first. One that ends elsewhere is found by a search. The memory for the places is taken
//! before, by `reserve`, so that a begin takes no memory.
//!
//! Who owns what: the machine owns its `Pending`, which owns the message of each send, as it was begun, until the send
//! ends; then it is returned. Names of operations are the core's, and nothing here decides who ended one.
//!
//! `Pending` has all calls. To read: `specs/Waits` first, where `Holds p ss` says that exactly the operations of a
//! history's `pend` are pending; then the calls in the order of an operation's life (`reserve`, `push`,
//! `first_receive`, `first_send`, `end`). `proofs/Firsts` says what the first of each is in a history; a new machine
//! cites it.
ghost use Rattle.std.specs.Prelude.{◌≡◌, ◌+◌, ◌<◌, ◌≤◌, ℕ, List, [], ◌∷◌, ◌++◌, true, false, Some, find, filter, length, option_to_list, IfNone, OnOk};
ghost use Rattle.std.specs.VecDeque.{deque_len, deque_capacity};
ghost use Rattle.std.specs.Option.{option_map};
ghost use Rattle.std.specs.List.{position, list_any};
ghost use Rattle.sp_base.specs.declared.OpName.{OpName};
ghost use Rattle.sp_history.specs.declared.entry.RecordedAct.TheVariants.{Send};
ghost use Rattle.sp_history.specs.declared.entry.RecordedMessage.{RecordedMessage as Text};
ghost use Rattle.sp_history.specs.declared.parts.Begun.{Begun};
ghost use Rattle.sp_history.specs.Lists.{head_of};
ghost use Rattle.sp_history.specs.Legal.{is_at, is_recv};
ghost use Rattle.sp_history.specs.Past.{is_of};
ghost use Rattle.sp_proto.specs.Kinds.{text_of, entry_act};
ghost use Rattle.sp_proto.specs.Machines.{message_of};
ghost use Rattle.proto_shared.specs.Waits.{Holds, Ends, begun_of, is_uncounted, is_for, is_receive, is_send, without_first, first_name, room};

use crate::hops::next_hops;
use sp_base::{Ctx, NoMemory, OpName};
use sp_msg::Message;
use sp_proto::Act;
use std::alloc::Global;
use std::collections::VecDeque;

/// An operation that waits.
#[derive(Drop)]
struct Waiting {
    op: OpName,
    ctx: Ctx,
    /// The message of a send, as it was begun.
    message: Option<Message>,
}

/// The operations that are pending (nng_aio(5)).
#[derive(Drop)]
pub struct Pending {
    /// The receives, in the order of their begins.
    receives: VecDeque<Waiting>,
    /// The sends, in the order of their begins.
    sends: VecDeque<Waiting>,
}

impl Waiting {
    // Returns whether it is a send whose header has no hop count to go on with.
    fn is_uncounted(&self) -> bool
        ensures { result ≡ is_uncounted (begun_of self.now) }
    {
        match &self.message {
            None => false,
            Some(m) => next_hops(m.header()).is_none(),
        }
    }
}

// The place of the first send without a hop count.
fn place_of_uncounted(waiting: &VecDeque<Waiting>) -> Option<usize>
    ensures { result ≡ position (λ w. is_uncounted (begun_of w)) waiting.now.items }
{
    waiting.iter().position(|w| w.is_uncounted())
}

// The place of the operation.
fn place_of(waiting: &VecDeque<Waiting>, op: OpName) -> Option<usize>
    ensures { result ≡ position (is_for op) waiting.now.items }
{
    waiting.iter().position(|w| w.op.slot == op.slot && w.op.generation == op.generation)
}

// Takes the operation out.
fn take(waiting: &mut VecDeque<Waiting>, op: OpName) -> Option<Waiting>
    ensures found { result ≡ find (is_for op) waiting.old.items }
    ensures rest { waiting.new.items ≡ without_first op waiting.old.items }
    ensures len { deque_len waiting.new + length (option_to_list result) ≡ deque_len waiting.old }
    ensures capacity { deque_capacity waiting.new ≡ deque_capacity waiting.old }
    ensures same { IfNone result (waiting.new ≡ waiting.old) }
{
    match place_of(waiting, op) {
        None => None,
        Some(i) => waiting.remove(i),
    }
}

// The name of the first operation.
fn first_of(waiting: &VecDeque<Waiting>) -> Option<OpName>
    ensures { result ≡ option_map (λ w. w.op) (head_of waiting.now.items) }
{
    match waiting.front() {
        None => None,
        Some(w) => Some(w.op),
    }
}

impl Pending {
    /// No operation is pending, and there are no places.
    pub fn new(alloc: Global) -> Pending
        ensures { Holds result [] }
    {
        Pending {
            receives: VecDeque::new(alloc),
            sends: VecDeque::new(alloc),
        }
    }

    /// Takes the memory for `more` more operations. May be called again after `NoMemory`.
    pub fn reserve(&mut self, more: u32) -> Result<(), NoMemory>
        ensures same { (ss : List Begun) → Holds self.old ss → Holds self.new ss }
        ensures ok { OnOk result (more ≤ room self.new) }
        ensures room { room self.old ≤ room self.new }
    {
        let receives = self.receives.len() + more as usize;
        let sends = self.sends.len() + more as usize;
        self.receives.reserve(sends)?;
        self.sends.reserve(receives)?;
        Ok(())
    }

    /// Adds an operation, for which there is a place.
    pub fn push(&mut self, op: OpName, ctx: Ctx, act: Act)
        requires { 0 < room self.old }
        ensures begun { (ss : List Begun) → list_any (is_at op.slot) ss ≡ false → Holds self.old ss → Holds self.new (ss ++ record { op = op; ctx = ctx; act = entry_act act } ∷ []) }
        ensures room { room self.old ≤ room self.new + 1 }
    {
        match act {
            Act::Recv => self.receives.push_back_reserved(Waiting {
                op,
                ctx,
                message: None,
            }),
            Act::Send(m) => self.sends.push_back_reserved(Waiting {
                op,
                ctx,
                message: Some(m),
            }),
        }
    }

    /// The receive that was begun first.
    pub fn first_receive(&self) -> Option<OpName>
        ensures { (ss : List Begun) → Holds self.now ss → result ≡ first_name (filter is_receive ss) }
    {
        first_of(&self.receives)
    }

    /// The send that was begun first.
    pub fn first_send(&self) -> Option<OpName>
        ensures { (ss : List Begun) → Holds self.now ss → result ≡ first_name (filter is_send ss) }
    {
        first_of(&self.sends)
    }

    /// The first send whose header has no hop count to go on with (nng_pair(7)). Looks at the sends one by one.
    pub fn first_uncounted(&self) -> Option<OpName>
        ensures { (ss : List Begun) → Holds self.now ss → result ≡ first_name (filter is_uncounted ss) }
    {
        match place_of_uncounted(&self.sends) {
            None => None,
            Some(i) => Some(self.sends[i].op),
        }
    }

    /// Ends the receive.
    pub fn end_receive(&mut self, op: OpName)
        ensures ended { (ss : List Begun) (s : Begun) → Holds self.old ss → find (is_of op) ss ≡ Some s → is_recv s.act ≡ true → Ends self.old self.new ss op }
        ensures room { room self.old ≤ room self.new }
    {
        let _ = take(&mut self.receives, op);
    }

    /// Ends the send, and returns its message, as it was begun.
    pub fn end_send(&mut self, op: OpName) -> Option<Message>
        ensures ended { (ss : List Begun) (s : Begun) (m : Text) → Holds self.old ss → find (is_of op) ss ≡ Some s → s.act ≡ Send m → (option_map text_of result ≡ Some m) × Ends self.old self.new ss op }
        ensures room { room self.old ≤ room self.new }
    {
        match take(&mut self.sends, op) {
            None => None,
            Some(w) => w.message,
        }
    }

    /// Ends the operation, a receive or a send, and returns the message of a send, as it was begun.
    pub fn end(&mut self, op: OpName) -> Option<Message>
        ensures ended { (ss : List Begun) (s : Begun) → Holds self.old ss → find (is_of op) ss ≡ Some s → (option_map text_of result ≡ message_of s.act) × Ends self.old self.new ss op }
        ensures room { room self.old ≤ room self.new }
    {
        match take(&mut self.sends, op) {
            None => {
                self.end_receive(op);
                None
            }
            Some(w) => w.message,
        }
    }
}
