//! The machine of rep, and of respondent.
ghost use Rattle.std.specs.Prelude.{◌≡◌, ◌≤◌, ◌<◌, ◌+◌, ℕ, Option, List, [], Some, None, IfErr, IfOk, OnErr, OnOk, MatchOption, length, false};
ghost use Rattle.sp_base.specs.declared.role.Role.TheVariants as role;
ghost use Rattle.sp_history.specs.declared.entry.Entry.TheVariants.{Begin, Frame};
ghost use Rattle.sp_history.specs.Moments.{Moment, Lawful, past, also};
ghost use Rattle.sp_proto.specs.Machines.{Frames, NoFlood, Takes};
ghost use Rattle.sp_history.specs.Options.{Fits};
ghost use Rattle.sp_history.specs.Frames.{traced_item, is_too_long};
ghost use Rattle.sp_history.specs.Backtrace.{back};
ghost use Rattle.sp_history.specs.declared.parts.Back.TheVariants.{Found};
ghost use Rattle.sp_msg.specs.Views.{wire_text};
ghost use Rattle.sp_proto.specs.Kinds.{Starts, entry_act};
ghost use Rattle.proto_rep.specs.declared.operations.ReplyOperation.{ReplyOperation as ReplyOperationType};
ghost use Rattle.proto_rep.specs.declared.replies.PendingReply.{PendingReply as PendingReplyType};
ghost use Rattle.proto_rep.specs.Operations.{Holds, act_of};
ghost use Rattle.proto_rep.specs.Wins.{HasNoMessage, WinsFlood, WinsNowhere, WinsOut, WinsReceive};
ghost use Rattle.proto_rep.specs.Reps.{Ties, CameTooFar, offers_left, places_left, reply_kind, role_of, item_of, out_text, Gives, state_at};

use crate::operations::{RepOperations, ReplyOperation};
use crate::places::Places;
use crate::replies::{PendingReply, is_full};
use proto_requests::backlog::{Backlog, FromPipe};
use proto_requests::ports::Ports;
use proto_requests::trail::{BacktraceWords, Trail, scan};
use sp_base::{Ctx, NoMemory, OpName, PipeId, Role, Tick};
use sp_history::setting::Options;
use sp_msg::Message;
use sp_proto::{Act, CheckError, Offer, Proto, UpFault, Verb, Verdict};
use std::alloc::Global;

/// A request that is kept. Raw, its pipe and its words are also in the header.
#[derive(Drop)]
struct KeptRequest {
    pipe: PipeId,
    words: BacktraceWords,
    message: Message,
}

impl FromPipe for KeptRequest {
    ghost pipe_of = { λ k. k.pipe };

    fn pipe(&self) -> PipeId {
        self.pipe
    }
}

/// Where a request came from (nng_rep(7)).
#[derive(Drop)]
pub struct Source {
    pub pipe: PipeId,
    pub words: BacktraceWords,
}

/// The role: rep or respondent.
#[derive(Clone, Copy, PartialEq, Eq, Debug)]
enum ReplyRole {
    Rep,
    Respondent,
}

/// A rep (nng_rep(7)) or a respondent (nng_respondent(7)), cooked or raw.
#[derive(Drop)]
pub struct Reply {
    alloc: Global,
    role: ReplyRole,
    raw: bool,
    options: Options,
    ports: Ports,
    /// The requests that are kept.
    kept: Backlog<KeptRequest>,
    /// The operations that wait.
    waiting: RepOperations,
    /// The places of the open contexts.
    places: Places,
}

// A send of the act, with the request that it answers.
fn answer_of(act: Act, source: Option<Source>) -> Option<PendingReply>
    ensures act { act_of result ≡ entry_act act }
    ensures source { (r : PendingReplyType) → result ≡ Some r → r.source ≡ source }
{
    match act {
        Act::Recv => None,
        Act::Send(message) => Some(PendingReply { message, source }),
    }
}

// The message that goes out for a send.
fn outward(raw: bool, answer: PendingReply) -> Message
    ensures { wire_text result ≡ out_text raw answer }
{
    let mut message = answer.message;
    if raw {
        if message.header_trim_u32().is_err() {
            message.header_clear();
        }
        return message;
    }
    message.header_clear();
    match &answer.source {
        None => {}
        Some(s) => s.words.lead(&mut message),
    }
    message
}

// The message that a reply that was won puts on the pipe. A reply that goes nowhere has none.
fn put_out(raw: bool, answer: PendingReply, out: Option<PipeId>) -> Option<Message>
    ensures nothing { out ≡ None → result ≡ None }
    ensures message { (p : ℕ) (b : List ℕ) → out ≡ Some p → out_text raw answer ≡ b → MatchOption result ⊥ (λ m. wire_text m ≡ b) }
{
    match out {
        None => None,
        Some(_) => Some(outward(raw, answer)),
    }
}

// A frame with a whole backtrace, as it is kept.
fn traced(alloc: Global, raw: bool, ttl: u8, p: PipeId, m: Message) -> Result<KeptRequest, NoMemory>
    requires header { m.header ≡ [] }
    ensures pipe { IfOk result (λ k. k.pipe ≡ p) }
    ensures kept { IfOk result (λ k. (words rest : List ℕ) → back ttl m.body ≡ Found words rest → Some (item_of k) ≡ traced_item raw p (Found words rest)) }
{
    let mut message = m;
    match BacktraceWords::take(alloc, &mut message, ttl) {
        Err(e) => Err(e),
        Ok(words) => {
            if raw {
                let _ = message.header_append_u32(p.0);
                words.lead(&mut message);
                return Ok(KeptRequest {
                    pipe: p,
                    words: BacktraceWords::none(alloc),
                    message,
                });
            }
            Ok(KeptRequest {
                pipe: p,
                words,
                message,
            })
        }
    }
}

// A new machine.
fn unused(alloc: Global, role: ReplyRole, options: Options, raw: bool) -> Result<Reply, NoMemory>
    requires { Fits options }
    ensures { IfOk result (λ m. Starts Ties m (reply_kind (role_of role) raw options)) }
{
    match Places::new(alloc) {
        Err(e) => Err(e),
        Ok(places) => Ok(Reply {
            alloc,
            role,
            raw,
            options,
            ports: Ports::new(alloc),
            kept: Backlog::new(alloc),
            waiting: RepOperations::new(alloc, raw),
            places,
        }),
    }
}

/// Respondents (nng_respondent(7)), cooked or raw. They are reps of another role.
pub struct Respond;

impl Respond {
    /// A new respondent.
    pub fn new(alloc: Global, options: Options, raw: bool) -> Result<Reply, NoMemory>
        requires { Fits options }
        ensures { IfOk result (λ m. Starts Ties m (reply_kind role.Respondent raw options)) }
    {
        unused(alloc, ReplyRole::Respondent, options, raw)
    }
}

impl Reply {
    /// A new rep.
    pub fn new(alloc: Global, options: Options, raw: bool) -> Result<Reply, NoMemory>
        requires { Fits options }
        ensures { IfOk result (λ m. Starts Ties m (reply_kind role.Rep raw options)) }
    {
        unused(alloc, ReplyRole::Rep, options, raw)
    }

    // Gives the oldest request to a receive of the context, and, cooked, stores where it came from.
    fn give(&mut self, c: Ctx) -> Option<Message>
        ensures same { (self.new.raw ≡ self.old.raw) × (self.new.options ≡ self.old.options) × (self.new.role ≡ self.old.role) × (self.new.ports ≡ self.old.ports) × (self.new.waiting ≡ self.old.waiting) }
        ensures given { Gives c result self.old self.new }
    {
        match self.kept.pop() {
            None => None,
            Some(
                KeptRequest {
                    pipe,
                    words,
                    message,
                },
            ) => {
                if !self.raw {
                    self.places.store(c, Source { pipe, words });
                }
                Some(message)
            }
        }
    }

    // Returns whether the state of the context doesn't allow it.
    fn has_state(&self, c: Ctx, verb: Verb) -> bool
        ensures { (ws : List ReplyOperationType) → Holds self.now.waiting ws → result ≡ state_at ws self.now.places.items c verb }
    {
        match verb {
            Verb::Recv => self.waiting.is_receiving(c),
            Verb::Send => !self.places.is_stored(c),
        }
    }
}

impl Proto for Reply {
    ghost use Rattle.proto_rep.specs.Reps.{Ties, offers_left, places_left, reply_kind, role_of};
    ghost use Rattle.proto_rep.specs.RepLaws as laws;

    ghost kind = { λ m. reply_kind (role_of m.role) m.raw m.options };

    ghost ties = { Ties };

    ghost room = { places_left };

    ghost left = { offers_left };

    ghost copies = { λ m op. 0 };

    ghost kinds = { laws.kinds };

    ghost silent = { laws.silent };

    ghost passes = { laws.passes };

    ghost anew = { laws.anew };

    fn role(&self) -> Role {
        match self.role {
            ReplyRole::Rep => Role::Rep,
            ReplyRole::Respondent => Role::Respondent,
        }
    }

    fn raw(&self) -> bool {
        self.raw
    }

    fn reserve(&mut self, slots: u32) -> Result<(), NoMemory> {
        self.waiting.reserve(slots)
    }

    fn up(&mut self, p: PipeId) -> Result<(), UpFault> {
        match self.ports.push(p) {
            Ok(()) => Ok(()),
            Err(_) => Err(UpFault::NoMemory),
        }
    }

    fn down(&mut self, p: PipeId) {
        let was_full = is_full(&self.ports, p);
        self.ports.forget(p);
        self.kept.forget(p);
        // Otherwise none of the replies that are passed over waits for it.
        if was_full {
            self.waiting.pass_below(self.raw, p);
        }
    }

    fn wants(&self, p: PipeId) -> bool {
        !self.kept.has(p)
    }

    /// A frame that came too far takes no memory, and its pipe stays up.
    fn frame(&mut self, p: PipeId, m: Message) -> Verdict
        requires { m.header ≡ [] }
        ensures kept { (t : Moment) → is_too_long (past t) p m.body ≡ false → Lawful (also t (Frame p m.body)) → Ties self.old t → Frames (Ties self.new) result t p m.body }
        ensures room { places_left self.old ≤ places_left self.new }
        ensures too_far { CameTooFar self.old m.body → result ≡ Verdict.Fine }
    {
        match scan(m.body(), self.options.ttl) {
            Trail::Short => Verdict::Malformed,
            Trail::TooFar => Verdict::Fine,
            Trail::Whole => match traced(self.alloc, self.raw, self.options.ttl, p, m) {
                Err(_) => Verdict::NoMemory,
                Ok(k) => match self.kept.push(k) {
                    Ok(()) => Verdict::Fine,
                    Err(_) => Verdict::NoMemory,
                },
            },
        }
    }

    fn keeps(&self, c: Ctx) -> bool {
        let _ = c;
        !self.kept.is_empty()
    }

    fn check(&self, c: Ctx, verb: Verb) -> Result<(), CheckError> {
        if self.raw && c.0 != 0 {
            return Err(CheckError::NotSupported);
        }
        if !self.places.has(c) {
            return Err(CheckError::NoEntry);
        }
        if !self.raw && self.has_state(c, verb) {
            return Err(CheckError::State);
        }
        Ok(())
    }

    /// Never out of memory: there is already a place for the operation.
    fn begin(&mut self, op: OpName, c: Ctx, act: Act) -> Result<(), Message>
        requires { 0 < places_left self.old }
        ensures begun { OnOk result ((t : Moment) (deadline : Option ℕ) → NoFlood t → Takes (Ties self.old) (Ties self.new) t (Begin op t.caller c (entry_act act) deadline)) }
        ensures handed_back { IfErr result (λ m. act ≡ Act.Send m) }
        ensures same { OnErr result ((t : Moment) → Ties self.old t → Ties self.new t) }
        ensures room { places_left self.old ≤ places_left self.new + 1 }
        ensures room_kept { OnErr result (places_left self.old ≤ places_left self.new) }
        ensures fits { OnErr result ⊥ }
    {
        let source = self.places.unstore(c);
        let answer = answer_of(act, source);
        self.waiting.push(ReplyOperation { op, ctx: c, answer });
        Ok(())
    }

    fn fresh(&mut self) {
        self.ports.clear();
        self.waiting.pass_none();
    }

    fn offer(&mut self) -> Offer {
        if !self.kept.is_empty() {
            match self.waiting.first_receive() {
                None => {}
                Some(op) => return Offer::Give { op },
            }
        }
        self.waiting.next_reply(self.raw, &self.ports)
    }

    fn full(&mut self, p: PipeId) {
        self.ports.mark(p);
    }

    fn goes_to(&self, op: OpName, p: PipeId) -> bool {
        let _ = op;
        let _ = p;
        false
    }

    fn flood(&mut self, op: OpName, p: PipeId) -> Option<Message> {
        let _ = op;
        let _ = p;
        None
    }

    fn again(&mut self, c: Ctx, p: PipeId) -> Option<Message> {
        let _ = c;
        let _ = p;
        None
    }

    /// A reply that goes nowhere has no message.
    fn won(&mut self, op: OpName, out: Option<PipeId>) -> Option<Message>
        ensures given { WinsReceive self.old self.new op out result }
        ensures flooded { WinsFlood self.old self.new op out }
        ensures dropped { WinsNowhere self.old self.new op out }
        ensures sent { WinsOut self.old self.new op out result }
        ensures room { places_left self.old ≤ places_left self.new }
        ensures nothing { HasNoMessage self.old op out result }
    {
        match self.waiting.take(op) {
            None => None,
            Some(w) => match w.answer {
                Some(r) => put_out(self.raw, r, out),
                None => self.give(w.ctx),
            },
        }
    }

    fn lost(&mut self, op: OpName) -> Option<Message> {
        match self.waiting.take(op) {
            None => None,
            Some(w) => match w.answer {
                Some(r) => Some(r.message),
                None => None,
            },
        }
    }

    fn clock(&mut self, now: Tick) {
        let _ = now;
    }

    fn open_ctx(&mut self, c: Ctx) -> Result<(), NoMemory> {
        self.places.open(c)
    }

    fn close_ctx(&mut self, c: Ctx) {
        self.places.close(c);
    }

    fn topic(&mut self, c: Ctx, t: &[u8], on: bool) -> Result<bool, NoMemory> {
        let _ = c;
        let _ = t;
        let _ = on;
        Ok(false)
    }

    fn close(&mut self) {
        self.kept.clear();
        self.places.forget_all();
    }
}
