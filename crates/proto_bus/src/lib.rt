//! The machine of bus (nng_bus(7)), cooked and raw.
//!
//! A send goes to every pipe that is up and has room, in the turn of its begin. It then takes a copy for each of them,
//! so that going out takes no memory. Raw, a header of 4 bytes or more leaves out the pipe that its first word names,
//! so a message that is sent as it was received doesn't go back. Frames are kept, at most `queue` in all, and the
//! memory for them is taken when the bus is made; a further one is discarded. Raw, the header of what came is the id of
//! its pipe.
//!
//! Who owns what: a `Bus` owns what it keeps, the messages of the sends that wait (`Pending`), and the copies of the
//! send that is going out. Of its pipes it knows only how many are up: the core asks for each by `goes_to`, and hands
//! it its copy.
//!
//! To read: `Ties` of `specs/Buses`, then the calls of `Proto` below. How a flood uses the copies is in `proto_shared`.
#![tactic(auto)]

ghost use Rattle.std.specs.Prelude.{◌≡◌, ◌<◌, ◌≤◌, ◌+◌, ◌∷◌, ◌++◌, ℕ, List, [], IfOk, IsOk, IfErr, OnOk, OnErr, Option, true, find, filter, length, is_some, Some, None, if◌then◌else◌, nat_lt, false};
ghost use Rattle.std.specs.Option.{option_map};
ghost use Rattle.sp_base.specs.declared.OpName.{OpName};
ghost use Rattle.sp_history.specs.declared.entry.Entry.TheVariants.{Frame, Begin};
ghost use Rattle.sp_history.specs.declared.parts.Begun.{Begun};
ghost use Rattle.sp_history.specs.Lists.{is_number};
ghost use Rattle.sp_history.specs.Moments.{Moment, Lawful, past, also};
ghost use Rattle.sp_history.specs.Frames.{is_too_long};
ghost use Rattle.sp_history.specs.Past.{is_of, up};
ghost use Rattle.sp_proto.specs.Kinds.{Starts, entry_act};
ghost use Rattle.sp_proto.specs.Machines.{Frames, NoFlood, Takes};
ghost use Rattle.proto_shared.specs.Copies.{TakesCopies};
ghost use Rattle.proto_shared.specs.Waits.{Holds};
ghost use Rattle.proto_bus.specs.Buses.{Ties, bus_kind, copies_left, places_left, receiver_of, left_out_of, header_of};

use circular_buffer::HeapCircularBuffer;
use proto_shared::{Pending, copies_of};
use sp_base::{Ctx, NoMemory, OpName, PipeId, Role, Tick};
use sp_history::setting::Options;
use sp_msg::Message;
use sp_proto::{Act, CheckError, Offer, Proto, UpFault, Verb, Verdict};
use std::alloc::Global;

/// A bus (nng_bus(7)), cooked or raw: it sends and receives.
#[derive(Drop)]
pub struct Bus {
    alloc: Global,
    raw: bool,
    options: Options,
    /// The number of pipes that are up.
    pipes: usize,
    /// The messages that are kept, the oldest first, with places for `queue`.
    kept: HeapCircularBuffer<Message>,
    pending: Pending,
    /// The copies of the pending send, one for each pipe that gets it.
    copies: Vec<Message>,
    /// The pipe that doesn't get it.
    left_out: Option<PipeId>,
}

// The pipe that a header leaves out.
fn left_out_by(raw: bool, b: &[u8]) -> Option<PipeId>
    ensures { result ≡ left_out_of raw b.now }
{
    if !raw || b.len() < 4 {
        return None;
    }
    Some(PipeId(u32::from_be_bytes([b[0], b[1], b[2], b[3]])))
}

// Returns whether this is the pipe that is left out.
fn leaves_out(left_out: Option<PipeId>, p: PipeId) -> bool
    ensures { result ≡ is_number left_out p }
{
    match left_out {
        None => false,
        Some(other) => other.0 == p.0,
    }
}

// The message as it is kept: raw, with the id of its pipe.
fn received(raw: bool, p: PipeId, m: Message) -> Message
    requires { m.header ≡ [] }
    ensures { result ≡ record m { header = header_of raw p } }
{
    let mut whole = m;
    if raw && whole.header_append_u32(p.0).is_err() {
        unreachable!()
    }
    whole
}

impl Bus {
    /// A new bus. Takes the memory for `queue` messages.
    pub fn new(alloc: Global, options: Options, raw: bool) -> Result<Bus, NoMemory>
        ensures { IfOk result (λ m. Starts Ties m (bus_kind raw options)) }
    {
        let kept = HeapCircularBuffer::with_capacity(alloc, options.queue as usize)?;
        Ok(Bus {
            alloc,
            raw,
            options,
            pipes: 0,
            kept,
            pending: Pending::new(alloc),
            copies: Vec::new(alloc),
            left_out: None,
        })
    }

    // The receive that gets the oldest message.
    fn receiver(&self) -> Option<OpName>
        ensures { (ss : List Begun) → Holds self.now.pending ss → result ≡ receiver_of self.now.kept.items ss }
    {
        if self.kept.is_empty() {
            return None;
        }
        self.pending.first_receive()
    }
}

impl Proto for Bus {
    ghost use Rattle.std.specs.Prelude.{vec_len};
    ghost use Rattle.proto_bus.specs.Buses.{Ties, bus_kind, offers_left, places_left};
    ghost use Rattle.proto_bus.specs.BusLaws as laws;

    ghost kind = { λ m. bus_kind m.raw m.options };

    ghost ties = { Ties };

    ghost room = { places_left };

    ghost left = { offers_left };

    ghost copies = { λ m op. vec_len m.copies };

    ghost kinds = { laws.kinds };

    ghost silent = { laws.silent };

    ghost passes = { laws.passes };

    ghost anew = { laws.anew };

    fn role(&self) -> Role {
        Role::Bus
    }

    fn raw(&self) -> bool {
        self.raw
    }

    fn reserve(&mut self, slots: u32) -> Result<(), NoMemory> {
        self.pending.reserve(slots)
    }

    fn up(&mut self, p: PipeId) -> Result<(), UpFault> {
        let _ = p;
        self.pipes = self.pipes.saturating_add(1);
        Ok(())
    }

    fn down(&mut self, p: PipeId) {
        let _ = p;
        self.pipes = self.pipes.saturating_sub(1);
    }

    fn wants(&self, p: PipeId) -> bool {
        let _ = p;
        true
    }

    /// Never out of memory: there is already memory for all that it keeps.
    fn frame(&mut self, p: PipeId, m: Message) -> Verdict
        requires { m.header ≡ [] }
        ensures kept { (t : Moment) → is_too_long (past t) p m.body ≡ false → Lawful (also t (Frame p m.body)) → Ties self.old t → Frames (Ties self.new) result t p m.body }
        ensures room { places_left self.old ≤ places_left self.new }
        ensures fine { (t : Moment) → Lawful (also t (Frame p m.body)) → Ties self.old t → result ≡ Verdict.Fine }
    {
        let _discarded = self.kept.try_push_back(received(self.raw, p, m));
        Verdict::Fine
    }

    fn keeps(&self, c: Ctx) -> bool {
        let _ = c;
        !self.kept.is_empty()
    }

    fn check(&self, c: Ctx, verb: Verb) -> Result<(), CheckError> {
        let _ = verb;
        if c.0 != 0 {
            return Err(CheckError::NotSupported);
        }
        Ok(())
    }

    /// A send takes a copy for each pipe that is up, and no more. Where none is up it takes no memory, however long it
    /// is.
    fn begin(&mut self, op: OpName, c: Ctx, act: Act) -> Result<(), Message>
        requires { 0 < places_left self.old }
        ensures begun { OnOk result ((t : Moment) (deadline : Option ℕ) → NoFlood t → Takes (Ties self.old) (Ties self.new) t (Begin op t.caller c (entry_act act) deadline)) }
        ensures handed_back { IfErr result (λ m. act ≡ Act.Send m) }
        ensures same { OnErr result ((t : Moment) → Ties self.old t → Ties self.new t) }
        ensures room { places_left self.old ≤ places_left self.new + 1 }
        ensures room_kept { OnErr result (places_left self.old ≤ places_left self.new) }
        ensures copies { OnOk result ((t : Moment) → Ties self.old t → TakesCopies act (length (up (past t))) (copies_left self.new)) }
        ensures alone { (t : Moment) → Ties self.old t → up (past t) ≡ [] → OnErr result ⊥ }
    {
        match act {
            Act::Recv => {
                self.pending.push(op, c, Act::Recv);
                Ok(())
            }
            Act::Send(m) => match copies_of(self.alloc, &m, self.pipes) {
                Err(_) => Err(m),
                Ok(copies) => {
                    self.copies = copies;
                    self.left_out = left_out_by(self.raw, m.header());
                    self.pending.push(op, c, Act::Send(m));
                    Ok(())
                }
            },
        }
    }

    fn fresh(&mut self) {}

    fn offer(&mut self) -> Offer {
        match self.pending.first_send() {
            Some(op) => Offer::Flood { op },
            None => match self.receiver() {
                Some(op) => Offer::Give { op },
                None => Offer::Idle,
            },
        }
    }

    fn full(&mut self, p: PipeId) {
        let _ = p;
    }

    fn goes_to(&self, op: OpName, p: PipeId) -> bool {
        let _ = op;
        !leaves_out(self.left_out, p)
    }

    fn flood(&mut self, op: OpName, p: PipeId) -> Option<Message> {
        let _ = op;
        let _ = p;
        self.copies.pop()
    }

    fn again(&mut self, c: Ctx, p: PipeId) -> Option<Message> {
        let _ = c;
        let _ = p;
        None
    }

    fn won(&mut self, op: OpName, out: Option<PipeId>) -> Option<Message> {
        let _ = out;
        let sent = self.pending.end(op);
        if sent.is_some() {
            self.copies.clear();
            return None;
        }
        self.kept.pop_front()
    }

    fn lost(&mut self, op: OpName) -> Option<Message> {
        match self.pending.end(op) {
            Some(message) => {
                self.copies.clear();
                Some(message)
            }
            None => None,
        }
    }

    fn clock(&mut self, now: Tick) {
        let _ = now;
    }

    fn open_ctx(&mut self, c: Ctx) -> Result<(), NoMemory> {
        let _ = c;
        Err(NoMemory)
    }

    fn close_ctx(&mut self, c: Ctx) {
        let _ = c;
    }

    fn topic(&mut self, c: Ctx, t: &[u8], on: bool) -> Result<bool, NoMemory> {
        let _ = c;
        let _ = t;
        let _ = on;
        Ok(false)
    }

    fn close(&mut self) {
        self.kept.clear();
    }
}
