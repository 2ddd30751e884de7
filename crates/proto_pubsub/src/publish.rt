//! The machine of pub (nng_pub(7)), cooked and raw.
//!
//! A send goes to every pipe that is up and has room, in the turn of its begin. It then takes a copy for each of them,
//! so that going out takes no memory. A pub receives nothing: a frame is not a message of its protocol, whatever its
//! bytes.
ghost use Rattle.std.specs.Prelude.{◌≡◌, ◌<◌, ◌≤◌, ◌+◌, ℕ, [], Option, IfOk, IsOk, IfErr, OnOk, OnErr, length, false};
ghost use Rattle.sp_history.specs.declared.entry.Entry.TheVariants.{Frame, Begin};
ghost use Rattle.sp_history.specs.Moments.{Moment, Lawful, past, also};
ghost use Rattle.sp_history.specs.Frames.{is_too_long};
ghost use Rattle.sp_history.specs.Past.{up};
ghost use Rattle.sp_proto.specs.Kinds.{Starts, entry_act};
ghost use Rattle.sp_proto.specs.Machines.{Frames, NoFlood, Takes};
ghost use Rattle.proto_shared.specs.Copies.{TakesCopies};
ghost use Rattle.proto_pubsub.specs.Pubs.{Ties, pub_kind, copies_left, places_left};

use proto_shared::{Pending, copies_of};
use sp_base::{Ctx, NoMemory, OpName, PipeId, Role, Tick};
use sp_history::setting::Options;
use sp_msg::Message;
use sp_proto::{Act, CheckError, Offer, Proto, UpFault, Verb, Verdict};
use std::alloc::Global;

/// A pub (nng_pub(7)), cooked or raw: it sends.
#[derive(Drop)]
pub struct Publish {
    alloc: Global,
    raw: bool,
    options: Options,
    /// The number of pipes that are up.
    pipes: usize,
    pending: Pending,
    /// The copies of the pending send, one for each pipe that gets it.
    copies: Vec<Message>,
}

impl Publish {
    /// A new pub.
    pub fn new(alloc: Global, options: Options, raw: bool) -> Result<Publish, NoMemory>
        ensures { IfOk result (λ m. Starts Ties m (pub_kind raw options)) }
    {
        Ok(Publish {
            alloc,
            raw,
            options,
            pipes: 0,
            pending: Pending::new(alloc),
            copies: Vec::new(alloc),
        })
    }
}

impl Proto for Publish {
    ghost use Rattle.std.specs.Prelude.{vec_len};
    ghost use Rattle.proto_pubsub.specs.Pubs.{Ties, pub_kind, offers_left, places_left};
    ghost use Rattle.proto_pubsub.specs.PubLaws as laws;

    ghost kind = { λ m. pub_kind m.raw m.options };

    ghost ties = { Ties };

    ghost room = { places_left };

    ghost left = { offers_left };

    ghost copies = { λ m op. vec_len m.copies };

    ghost kinds = { laws.kinds };

    ghost silent = { laws.silent };

    ghost passes = { laws.passes };

    ghost anew = { laws.anew };

    fn role(&self) -> Role {
        Role::Pub
    }

    fn raw(&self) -> bool {
        self.raw
    }

    fn reserve(&mut self, slots: u32) -> Result<(), NoMemory> {
        self.pending.reserve(slots)
    }

    fn up(&mut self, p: PipeId) -> Result<(), UpFault> {
        let _ = p;
        self.pipes = self.pipes.saturating_add(1);
        Ok(())
    }

    fn down(&mut self, p: PipeId) {
        let _ = p;
        self.pipes = self.pipes.saturating_sub(1);
    }

    fn wants(&self, p: PipeId) -> bool {
        let _ = p;
        true
    }

    /// A frame closes its pipe.
    fn frame(&mut self, p: PipeId, m: Message) -> Verdict
        requires { m.header ≡ [] }
        ensures kept { (t : Moment) → is_too_long (past t) p m.body ≡ false → Lawful (also t (Frame p m.body)) → Ties self.old t → Frames (Ties self.new) result t p m.body }
        ensures room { places_left self.old ≤ places_left self.new }
        ensures malformed { result ≡ Verdict.Malformed }
    {
        let _ = p;
        drop(m);
        Verdict::Malformed
    }

    fn keeps(&self, c: Ctx) -> bool {
        let _ = c;
        false
    }

    fn check(&self, c: Ctx, verb: Verb) -> Result<(), CheckError> {
        if verb == Verb::Recv || c.0 != 0 {
            return Err(CheckError::NotSupported);
        }
        Ok(())
    }

    /// A send takes a copy for each pipe that is up, and no more. Where none is up it takes no memory, however long it
    /// is.
    fn begin(&mut self, op: OpName, c: Ctx, act: Act) -> Result<(), Message>
        requires { 0 < places_left self.old }
        ensures begun { OnOk result ((t : Moment) (deadline : Option ℕ) → NoFlood t → Takes (Ties self.old) (Ties self.new) t (Begin op t.caller c (entry_act act) deadline)) }
        ensures handed_back { IfErr result (λ m. act ≡ Act.Send m) }
        ensures same { OnErr result ((t : Moment) → Ties self.old t → Ties self.new t) }
        ensures room { places_left self.old ≤ places_left self.new + 1 }
        ensures room_kept { OnErr result (places_left self.old ≤ places_left self.new) }
        ensures copies { OnOk result ((t : Moment) → Ties self.old t → TakesCopies act (length (up (past t))) (copies_left self.new)) }
        ensures alone { (t : Moment) → Ties self.old t → up (past t) ≡ [] → OnErr result ⊥ }
    {
        match act {
            Act::Recv => {
                self.pending.push(op, c, Act::Recv);
                Ok(())
            }
            Act::Send(m) => match copies_of(self.alloc, &m, self.pipes) {
                Err(_) => Err(m),
                Ok(copies) => {
                    self.copies = copies;
                    self.pending.push(op, c, Act::Send(m));
                    Ok(())
                }
            },
        }
    }

    fn fresh(&mut self) {}

    fn offer(&mut self) -> Offer {
        match self.pending.first_send() {
            Some(op) => Offer::Flood { op },
            None => Offer::Idle,
        }
    }

    fn full(&mut self, p: PipeId) {
        let _ = p;
    }

    fn goes_to(&self, op: OpName, p: PipeId) -> bool {
        let _ = op;
        let _ = p;
        true
    }

    fn flood(&mut self, op: OpName, p: PipeId) -> Option<Message> {
        let _ = op;
        let _ = p;
        self.copies.pop()
    }

    fn again(&mut self, c: Ctx, p: PipeId) -> Option<Message> {
        let _ = c;
        let _ = p;
        None
    }

    fn won(&mut self, op: OpName, out: Option<PipeId>) -> Option<Message> {
        let _ = out;
        let sent = self.pending.end(op);
        drop(sent);
        self.copies.clear();
        None
    }

    fn lost(&mut self, op: OpName) -> Option<Message> {
        match self.pending.end(op) {
            Some(message) => {
                self.copies.clear();
                Some(message)
            }
            None => None,
        }
    }

    fn clock(&mut self, now: Tick) {
        let _ = now;
    }

    fn open_ctx(&mut self, c: Ctx) -> Result<(), NoMemory> {
        let _ = c;
        Err(NoMemory)
    }

    fn close_ctx(&mut self, c: Ctx) {
        let _ = c;
    }

    fn topic(&mut self, c: Ctx, t: &[u8], on: bool) -> Result<bool, NoMemory> {
        let _ = c;
        let _ = t;
        let _ = on;
        Ok(false)
    }

    fn close(&mut self) {}
}
