//! The machine of req.
ghost use Rattle.std.specs.Prelude.{◌≡◌, ◌≢◌, ◌≤◌, ◌<◌, ◌+◌, ◌-◌, ◌%◌, ◌==◌, ◌++◌, ◌&&◌, ◌||◌, ℕ, List, [], ◌∷◌, Option, None, Some, Err, IfErr, IfOk, IfSome, IfNone, IsTrue, MatchOption, OnOk, OnErr, false, true, map, find, drop, length, is_some};
ghost use Rattle.std.specs.Option.{option_map};
ghost use Rattle.std.specs.List.{list_any};
ghost use Rattle.sp_base.specs.declared.OpName.{OpName};
ghost use Rattle.sp_history.specs.declared.entry.Entry.TheVariants.{Begin, Frame};
ghost use Rattle.sp_history.specs.declared.entry.Entry.TheVariants as entries;
ghost use Rattle.sp_history.specs.declared.entry.RecordedMessage.{RecordedMessage as Text};
ghost use Rattle.sp_history.specs.declared.entry.WireNumbers.{WireNumbers};
ghost use Rattle.sp_history.specs.declared.entry.Why.{Why};
ghost use Rattle.sp_history.specs.declared.entry.Cause.{Cause as HistoryCause};
ghost use Rattle.sp_history.specs.declared.entry.Totals.{Totals};
ghost use Rattle.sp_history.specs.declared.entry.Ending.TheVariants.{Won, Gone};
ghost use Rattle.sp_history.specs.declared.entry.Completion.TheVariants.{Received, Sent};
ghost use Rattle.sp_history.specs.declared.entry.ContextChange.TheVariants as gate;
ghost use Rattle.sp_history.specs.declared.parts.Begun.{Begun};
ghost use Rattle.sp_history.specs.declared.parts.LiveRequest.{LiveRequest};
ghost use Rattle.sp_history.specs.Setting.{is_pair, floods};
ghost use Rattle.sp_history.specs.Past.{pending, up};
ghost use Rattle.sp_history.specs.Requests.{wire_of};
ghost use Rattle.sp_history.specs.Legal.{Calm};
ghost use Rattle.sp_history.specs.Moments.{Moment, Lawful, past, also, next};
ghost use Rattle.sp_history.specs.Frames.{is_too_long};
ghost use Rattle.sp_proto.specs.Machines.{CanAgain, CanDrop, CanGive, CanSend, IsOffered, Frames, NoFlood, Takes, message_of};
ghost use Rattle.sp_history.specs.Options.{Fits};
ghost use Rattle.sp_history.specs.Lists.{word, head_of};
ghost use Rattle.sp_history.specs.Requests.{next_number};
ghost use Rattle.sp_msg.specs.Views.{wire_text};
ghost use Rattle.sp_proto.specs.Kinds.{Starts, entry_act, text_of};
ghost use Rattle.proto_live_requests.specs.declared.live.KeptReply.{KeptReply as KeptReplyType};
ghost use Rattle.proto_reqrep.specs.declared.req.Asking.{Asking as AskingType};
ghost use Rattle.proto_live_requests.specs.Dues.{StaySeen};
ghost use Rattle.proto_live_requests.specs.LiveRequests.{OnePerContext, is_live_on, without_live, reply_in, with_reply, NotesOut, with_out};
ghost use Rattle.proto_reqrep.specs.Reqs.{Ties, req_kind, orphaned, free_number, gets, answers, ready_on, AreReady, IsReply, Asks, KeepsRaw, ask_state, work_left, IsNextPipe, roomy_of, AsksNot, GivesRaw, GivesReply, IsLed, sent_now, is_raw, places_left};
ghost use Rattle.proto_requests.specs.Ids.{number_after};
ghost use Rattle.proto_reqrep.specs.Roomy.{KeepsAll, DropsOnly, KeepsRoomy, DropsRoomy, HasServed};

use proto_live_requests::dues::Dues;
use proto_live_requests::live::{KeptReply, Live};
use proto_live_requests::lives::Lives;
use proto_live_requests::req_contexts::ReqContexts;
use proto_requests::backlog::Backlog;
use proto_requests::hints::Hints;
use proto_requests::ports::Ports;
use proto_requests::trail::first_word;
use proto_requests::waits::{Waiter, Waits};
use sp_base::{Ctx, NoMemory, OpName, PipeId, Role, Tick};
use sp_history::entry::Cause;
use sp_history::parts::LastOut;
use sp_history::setting::Options;
use sp_msg::Message;
use sp_proto::{Act, CheckError, Offer, Proto, UpFault, Verb, Verdict};
use std::alloc::Global;
use std::collections::BTreeSet;

/// The maximum number of live requests.
const MOST_LIVE: usize = 2_147_483_647;

/// An operation that waits: a send has its message, as it was begun (nng_req(7)).
#[derive(Drop)]
pub struct Asking {
    pub op: OpName,
    pub ctx: Ctx,
    pub message: Option<Message>,
    /// Whether its request has ended.
    pub is_orphan: bool,
}

impl Waiter for Asking {
    ghost use Rattle.std.specs.Prelude.{is_some, true};
    ghost use Rattle.proto_reqrep.specs.ReqLaws as laws;

    ghost name_of = { λ w. w.op };

    ghost context_of = { λ w. w.ctx };

    ghost is_send = { λ w. is_some w.message };

    ghost is_left = { λ w. w.is_orphan };

    ghost left = { λ w. record { op = w.op; ctx = w.ctx; message = w.message; is_orphan = true } };

    ghost left_same = { laws.left_same };

    ghost left_again = { laws.left_again };

    ghost may_leave = { true };

    ghost left_is = { laws.left_is };

    fn op(&self) -> OpName {
        self.op
    }

    fn ctx(&self) -> Ctx {
        self.ctx
    }

    fn sends(&self) -> bool {
        self.message.is_some()
    }

    fn is_over(&self) -> bool {
        self.is_orphan
    }

    fn leave(&mut self) {
        self.is_orphan = true;
    }
}

/// A req (nng_req(7)), cooked or raw.
#[derive(Drop)]
pub struct Request {
    pub(crate) raw: bool,
    pub(crate) options: Options,
    pub(crate) tick: Tick,
    pub(crate) last_id: Option<u32>,
    /// The pipe of the last Out, or 0. The next request goes to one after it.
    pub(crate) last_pipe: PipeId,
    pub(crate) ports: Ports,
    /// The roomy pipes: those that had room when they were last asked, were not asked yet, or are to be tried again.
    /// They are asked first. One for which there was no memory is missing, and so may be one on which nothing went out.
    pub(crate) roomy: BTreeSet<u32>,
    /// The pipe that was tried again last, or 0.
    retried: PipeId,
    /// Raw: the replies that are kept.
    pub(crate) kept: Backlog<KeptReply>,
    /// Cooked: the live requests, at most one of each context.
    pub(crate) live: Lives,
    /// The contexts of the requests that are looked at when they are due.
    pub(crate) dues: Dues,
    /// The operations that wait, in the order of their begins.
    pub(crate) waiting: Waits<Asking>,
    /// Contexts, among them those that have both a receive and a reply.
    pub(crate) ready: Hints<u32>,
    /// The open contexts.
    pub(crate) contexts: ReqContexts,
}

// ---- Operations

// Adds an operation, as the last one.
fn wait(waiting: &mut Waits<Asking>, op: OpName, c: Ctx, message: Option<Message>)
    requires { 0 < waiting.old.room }
    ensures items { waiting.new.items ≡ waiting.old.items ++ record { op = op; ctx = c; message = message; is_orphan = false } ∷ [] }
    ensures room { waiting.new.room + 1 ≡ waiting.old.room }
{
    waiting.push(Asking {
        op,
        ctx: c,
        message,
        is_orphan: false,
    });
}

// Ends the request of the context, and leaves its operations behind.
fn leave_behind(waiting: &mut Waits<Asking>, c: Ctx)
    ensures items { waiting.new.items ≡ map (orphaned c) waiting.old.items }
    ensures room { waiting.new.room ≡ waiting.old.room }
{
    waiting.leave_on(c);
}

// ---- Pipes

// Makes the pipe count as roomy, unless there is no memory for it.
fn add_roomy(roomy: &mut BTreeSet<u32>, p: PipeId)
    ensures { KeepsAll roomy.old.keys roomy.new.keys }
{
    let _ = roomy.insert(p.0);
}

// Makes the pipe no longer count as roomy.
fn drop_roomy(roomy: &mut BTreeSet<u32>, p: PipeId)
    ensures { DropsOnly p roomy.old.keys roomy.new.keys }
{
    let _ = roomy.remove(&p.0);
}

// Makes the next pipe after this one count as roomy, if one is up.
fn try_again(ports: &mut Ports, roomy: &mut BTreeSet<u32>, last: &mut PipeId)
    ensures ports { ports.new ≡ ports.old }
    ensures roomy { KeepsAll roomy.old.keys roomy.new.keys }
{
    match ports.free_port(*last) {
        None => {}
        Some(p) => {
            add_roomy(roomy, p);
            *last = p;
        }
    }
}

// ---- Live requests

// Makes room for one more.
fn make_room(live: &mut Lives, ready: &mut Hints<u32>, dues: &mut Dues) -> Result<(), NoMemory>
    ensures items { live.new.items ≡ live.old.items }
    ensures room { OnOk result (0 < live.new.room) }
    ensures ready { ready.new ≡ ready.old }
    ensures seen { OnePerContext live.old.items → StaySeen dues.old dues.new live.old.items }
{
    live.reserve()?;
    ready.reserve(live.len().saturating_add(2))?;
    dues.reserve(live)
}

// Takes out the reply that is kept for the context, and ends the request that it answers.
fn answered(live: &mut Lives, c: Ctx) -> Option<Message>
    ensures reply { result ≡ reply_in (find (is_live_on c) live.old.items) }
    ensures rest { live.new.items ≡ without_live c live.old.items }
{
    match live.take_live(c) {
        None => None,
        Some(x) => {
            let Live { reply, .. } = x;
            reply.map(|k| k.message)
        }
    }
}

// Replaces the header by the id.
fn led(message: Message, id: u32) -> Message
    ensures { wire_text result ≡ word id ++ message.body }
{
    let mut out = message;
    out.header_clear();
    let _ = out.header_append_u32(id);
    out
}

// The message of a send with the id of its request, which goes out.
fn asked(live: &mut Lives, c: Ctx, message: Message, out: LastOut) -> Message
    ensures live { live.new.items ≡ with_out c out live.old.items }
    ensures message { IsLed live.old.items c message.body result }
{
    match live.id_of(c) {
        None => {
            live.note_out(c, out);
            message
        }
        Some(id) => {
            live.note_out(c, out);
            led(message, id)
        }
    }
}

// ---- Ids

// The next number, with the top bit set.
fn number_after(id: u32) -> u32
    ensures { result ≡ number_after id }
{
    (id % 2_147_483_648 + 1) % 2_147_483_648 + 2_147_483_648
}

// The first number from this one on that no live request has.
fn free_number(live: &Lives, tries: usize, id: u32) -> u32
    ensures { result ≡ free_number tries live.now.items id }
{
    if tries == 0 {
        return id;
    }
    if !live.is_taken(id) {
        return id;
    }
    free_number(live, tries - 1, number_after(id))
}

// The id of the next request.
fn next_id(live: &Lives, dice: u32, last: Option<u32>) -> u32
    ensures { result ≡ free_number (length live.now.items) live.now.items (next_number dice last) }
{
    match last {
        None => free_number(live, live.len(), dice % 2_147_483_648 + 2_147_483_648),
        Some(id) => free_number(live, live.len(), number_after(id)),
    }
}

// ---- Raw messages

// Takes out the oldest reply.
fn oldest(kept: &mut Backlog<KeptReply>) -> Option<Message>
    ensures first { result ≡ option_map (λ (k : KeptReplyType). k.message) (head_of kept.old.items) }
    ensures rest { kept.new.items ≡ drop 1 kept.old.items }
{
    match kept.pop() {
        None => None,
        Some(k) => Some(k.message),
    }
}

// ---- Receives that can be given a reply

// Keeps the reply for the request that waits for it, if there is one. Its context is then looked at.
fn keep_reply(live: &mut Lives, ready: &mut Hints<u32>, id: u32, kept: KeptReply)
    ensures live { live.new.items ≡ with_reply id kept live.old.items }
    ensures ready { (ws : List AskingType) → AreReady ready.old live.old.items ws → AreReady ready.new live.new.items ws }
{
    match live.keep_reply(id, kept) {
        None => {}
        Some(c) => ready.add(c.0),
    }
}

// Makes the context looked at, a receive of which is to wait, if a reply is kept for it.
fn look_at(ready: &mut Hints<u32>, live: &Lives, c: Ctx)
    ensures { (w : AskingType) (ws : List AskingType) → w.ctx ≡ c → AreReady ready.old live.now.items ws → AreReady ready.new live.now.items (ws ++ w ∷ []) }
{
    if live.has_reply(c) {
        ready.add(c.0);
    }
}

// The first receive on the context, if a reply is kept for it.
fn ready_on(live: &Lives, waiting: &Waits<Asking>, c: Ctx) -> Option<OpName>
    ensures { result ≡ ready_on live.now.items waiting.now.items c }
{
    if !live.has_reply(c) {
        return None;
    }
    waiting.receive_on(c)
}

/// A receive that can be given a reply, of the contexts that are to be looked at. Those before its own are no longer
/// looked at.
pub fn next_ready(ready: &mut Hints<u32>, live: &Lives, waiting: &Waits<Asking>) -> Option<OpName>
    ensures ready { AreReady ready.old live.now.items waiting.now.items → AreReady ready.new live.now.items waiting.now.items }
    ensures whole { ready.new.whole ≡ ready.old.whole }
    ensures given { IfSome result (λ op. IsReply live.now.items waiting.now.items op) }
    ensures none { AreReady ready.old live.now.items waiting.now.items → ready.old.whole ≡ true → IfNone result (list_any (answers live.now.items) waiting.now.items ≡ false) }
{
    while let Some(c) = ready.first() {
        match ready_on(live, waiting, Ctx(c)) {
            Some(op) => return Some(op),
            None => ready.drop_first(),
        }
    }
    None
}

impl Request {
    /// A new req.
    pub fn new(alloc: Global, options: Options, raw: bool) -> Result<Request, NoMemory>
        requires { Fits options }
        ensures { IfOk result (λ m. Starts Ties m (req_kind raw options)) }
    {
        match ReqContexts::new(alloc) {
            Err(e) => Err(e),
            Ok(contexts) => Ok(Request {
                raw,
                options,
                tick: Tick(0),
                last_id: None,
                last_pipe: PipeId(0),
                ports: Ports::new(alloc),
                kept: Backlog::new(alloc),
                live: Lives::new(alloc),
                dues: Dues::new(alloc),
                waiting: Waits::new(alloc),
                ready: Hints::new(alloc),
                roomy: BTreeSet::new(alloc),
                retried: PipeId(0),
                contexts,
            }),
        }
    }

    // Begins a new request of the context in place of the live one.
    fn ask(&mut self, c: Ctx, m: &Message) -> Result<(), NoMemory>
        ensures asked { OnOk result (Asks c m.now.body self.old self.new) }
        ensures same { OnErr result (AsksNot self.old self.new) }
        ensures roomy { KeepsRoomy self.old self.new }
        ensures room { self.new.waiting.room ≡ self.old.waiting.room }
    {
        if self.live.len() >= MOST_LIVE {
            return Err(NoMemory);
        }
        if make_room(&mut self.live, &mut self.ready, &mut self.dues).is_err() {
            return Err(NoMemory);
        }
        let mut copy = match m.copy() {
            Err(e) => return Err(e),
            Ok(copy) => copy,
        };
        copy.header_clear();
        let _ = self.live.take_live(c);
        leave_behind(&mut self.waiting, c);
        let id = next_id(&self.live, self.options.dice, self.last_id);
        self.last_id = Some(id);
        self.live.push(Live {
            ctx: c,
            id,
            copy,
            birth: self.tick,
            last_out: None,
            reply: None,
        });
        Ok(())
    }

    // Keeps a raw reply: its first word goes to the header.
    fn keep_raw(&mut self, p: PipeId, m: Message) -> Verdict
        requires { m.header ≡ [] }
        ensures same { self.new ≡ record self.old { kept = self.new.kept } }
        ensures kept { list_any (λ (k : KeptReplyType). k.pipe == p) self.old.kept.items ≡ false → KeepsRaw result p m.body self.old.kept.items self.new.kept.items }
    {
        let mut message = m;
        match message.trim_u32() {
            Err(_) => Verdict::Malformed,
            Ok(word) => {
                let _ = message.header_append_u32(word);
                match self.kept.push(KeptReply { pipe: p, message }) {
                    Ok(()) => Verdict::Fine,
                    Err(_) => Verdict::NoMemory,
                }
            }
        }
    }

    // The message that a receive of the context gets.
    fn give(&mut self, c: Ctx) -> Option<Message>
        ensures same { self.new ≡ record self.old { live = self.new.live; kept = self.new.kept } }
        ensures raw { self.old.raw ≡ true → GivesRaw result self.old self.new }
        ensures cooked { self.old.raw ≡ false → GivesReply c result self.old self.new }
    {
        if self.raw {
            return oldest(&mut self.kept);
        }
        answered(&mut self.live, c)
    }

    // The message that goes out for a send of the context.
    fn send(&mut self, c: Ctx, m: Message, out: Option<PipeId>) -> Message
        ensures same { self.new ≡ record self.old { live = self.new.live; dues = self.new.dues; last_pipe = self.new.last_pipe; roomy = self.new.roomy } }
        ensures pipe { (p : ℕ) → out ≡ Some p → self.new.last_pipe ≡ p }
        ensures raw { self.old.raw ≡ true → (result ≡ m) × (self.new.live ≡ self.old.live) × (self.new.dues ≡ self.old.dues) }
        ensures cooked { self.old.raw ≡ false → (p : ℕ) → out ≡ Some p → self.new.live.items ≡ with_out c (sent_now self.old p) self.old.live.items }
        ensures seen { self.old.raw ≡ false → (p : ℕ) → out ≡ Some p → NotesOut self.old.dues self.new.dues self.old.live.items c (sent_now self.old p) }
        ensures roomy { KeepsRoomy self.old self.new }
        ensures message { self.old.raw ≡ false → (p : ℕ) → out ≡ Some p → IsLed self.old.live.items c m.body result }
    {
        match out {
            None => m,
            Some(pipe) => {
                self.last_pipe = pipe;
                add_roomy(&mut self.roomy, pipe);
                if self.raw {
                    return m;
                }
                self.dues.note_out(c, pipe, self.tick);
                let out = LastOut {
                    pipe,
                    when: self.tick,
                };
                asked(&mut self.live, c, m, out)
            }
        }
    }

    // Returns whether the state of the context doesn't allow it: a receive needs a live request, and no other receive.
    fn has_state(&self, c: Ctx, verb: Verb) -> bool
        ensures { result ≡ ask_state self.now.waiting.items self.now.live.items c verb }
    {
        match verb {
            Verb::Recv => !self.live.has(c) || self.waiting.is_receiving(c),
            Verb::Send => false,
        }
    }
}

impl Proto for Request {
    ghost use Rattle.proto_reqrep.specs.Reqs.{Ties, places_left, req_kind, work_left};
    ghost use Rattle.proto_reqrep.specs.ReqLaws as laws;

    ghost kind = { λ m. req_kind m.raw m.options };

    ghost ties = { Ties };

    ghost room = { places_left };

    ghost left = { work_left };

    ghost copies = { λ m op. 0 };

    ghost kinds = { laws.kinds };

    ghost silent = { laws.silent };

    ghost passes = { laws.passes };

    ghost anew = { laws.anew };

    fn role(&self) -> Role {
        Role::Req
    }

    fn raw(&self) -> bool {
        self.raw
    }

    fn reserve(&mut self, slots: u32) -> Result<(), NoMemory>
        ensures kind { req_kind self.new.raw self.new.options ≡ req_kind self.old.raw self.old.options }
        ensures same { (t : Moment) → Ties self.old t → Ties self.new t }
        ensures room { OnOk result (slots ≤ places_left self.new) }
        ensures roomy { KeepsRoomy self.old self.new }
    {
        self.waiting.reserve(slots)
    }

    fn up(&mut self, p: PipeId) -> Result<(), UpFault>
        ensures up { OnOk result ((t : Moment) (place limit : ℕ) (name : WireNumbers) → NoFlood t → Takes (Ties self.old) (Ties self.new) t (entries.Up p place limit name)) }
        ensures alone { OnOk result ((t : Moment) → Lawful t → Ties self.old t → IsTrue (is_pair t.z.role) → up (past t) ≡ []) }
        ensures refused { result ≡ Err UpFault.Refused → (t : Moment) → Lawful t → Ties self.old t → IsTrue (is_pair t.z.role) × (up (past t) ≢ []) }
        ensures same { OnErr result ((t : Moment) → Ties self.old t → Ties self.new t) }
        ensures room { places_left self.old ≤ places_left self.new }
        ensures roomy { KeepsRoomy self.old self.new }
    {
        match self.ports.push(p) {
            Ok(()) => {
                add_roomy(&mut self.roomy, p);
                Ok(())
            }
            Err(_) => Err(UpFault::NoMemory),
        }
    }

    fn down(&mut self, p: PipeId)
        ensures down { (t : Moment) (why : Why) → Takes (Ties self.old) (Ties self.new) t (entries.Down p why) }
        ensures left { (t : Moment) (op : OpName) (s : Begun) (b : List ℕ) → Lawful t → Ties self.old t → CanSend t op p s b → work_left self.new < work_left self.old }
        ensures left_again { (t : Moment) (c : ℕ) (r : LiveRequest) → Lawful t → Ties self.old t → CanAgain t c p r → work_left self.new < work_left self.old }
        ensures left_flood { (t : Moment) → Lawful t → Ties self.old t → floods t.z.role ≡ true → work_left self.new ≤ work_left self.old }
        ensures room { places_left self.old ≤ places_left self.new }
        ensures roomy { DropsRoomy p self.old self.new }
    {
        self.ports.forget(p);
        drop_roomy(&mut self.roomy, p);
        self.dues.down(&self.live, p);
    }

    fn wants(&self, p: PipeId) -> bool {
        !self.raw || !self.kept.has(p)
    }

    /// A cooked one takes no memory for a frame.
    fn frame(&mut self, p: PipeId, m: Message) -> Verdict
        requires { m.header ≡ [] }
        ensures kept { (t : Moment) → is_too_long (past t) p m.body ≡ false → Lawful (also t (Frame p m.body)) → Ties self.old t → Frames (Ties self.new) result t p m.body }
        ensures room { places_left self.old ≤ places_left self.new }
        ensures memory { is_raw self.old ≡ false → result ≢ Verdict.NoMemory }
        ensures roomy { KeepsRoomy self.old self.new }
    {
        if self.raw {
            return self.keep_raw(p, m);
        }
        match first_word(m.body()) {
            None => Verdict::Malformed,
            Some(id) => {
                let mut message = m;
                let _ = message.trim(4);
                keep_reply(
                    &mut self.live,
                    &mut self.ready,
                    id,
                    KeptReply { pipe: p, message },
                );
                Verdict::Fine
            }
        }
    }

    fn keeps(&self, c: Ctx) -> bool {
        self.gives(c)
    }

    fn check(&self, c: Ctx, verb: Verb) -> Result<(), CheckError> {
        if self.raw && c.0 != 0 {
            return Err(CheckError::NotSupported);
        }
        if !self.contexts.has(c) {
            return Err(CheckError::NoEntry);
        }
        if !self.raw && self.has_state(c, verb) {
            return Err(CheckError::State);
        }
        Ok(())
    }

    /// Never out of memory for a request of a raw socket: it keeps no copy.
    fn begin(&mut self, op: OpName, c: Ctx, act: Act) -> Result<(), Message>
        requires { 0 < places_left self.old }
        ensures begun { OnOk result ((t : Moment) (deadline : Option ℕ) → NoFlood t → Takes (Ties self.old) (Ties self.new) t (Begin op t.caller c (entry_act act) deadline)) }
        ensures handed_back { IfErr result (λ m. act ≡ Act.Send m) }
        ensures same { OnErr result ((t : Moment) → Ties self.old t → Ties self.new t) }
        ensures room { places_left self.old ≤ places_left self.new + 1 }
        ensures room_kept { OnErr result (places_left self.old ≤ places_left self.new) }
        ensures fits { is_raw self.old ≡ true → OnErr result ⊥ }
        ensures roomy { KeepsRoomy self.old self.new }
    {
        match act {
            Act::Recv => {
                look_at(&mut self.ready, &self.live, c);
                wait(&mut self.waiting, op, c, None);
                Ok(())
            }
            Act::Send(m) => {
                if self.raw {
                    wait(&mut self.waiting, op, c, Some(m));
                    return Ok(());
                }
                match self.ask(c, &m) {
                    Err(_) => Err(m),
                    Ok(()) => {
                        self.dues.shorten(&self.live);
                        wait(&mut self.waiting, op, c, Some(m));
                        Ok(())
                    }
                }
            }
        }
    }

    /// Makes one more pipe count as roomy, in the round of the pipes, so that each is tried again now and then.
    fn fresh(&mut self)
        ensures fresh { (t : Moment) (caller : ℕ) → Lawful (next t caller) → Ties self.old t → Ties self.new (next t caller) }
        ensures room { places_left self.old ≤ places_left self.new }
        ensures roomy { KeepsRoomy self.old self.new }
    {
        self.ports.clear();
        try_again(&mut self.ports, &mut self.roomy, &mut self.retried);
    }

    /// What goes out goes to the next roomy pipe after that of the last Out, in the round of their numbers, if that one
    /// is up and not full; else to the next of all such pipes.
    fn offer(&mut self) -> Offer
        ensures same { (t : Moment) → Ties self.old t → Ties self.new t }
        ensures offered { (t : Moment) → Lawful t → Calm t.z (past t) → Ties self.old t → IsOffered result t }
        ensures copies { (op : OpName) → result ≡ Offer.Flood op → (t : Moment) → Lawful t → Calm t.z (past t) → Ties self.old t → length (up (past t)) ≤ 0 }
        ensures left { work_left self.new ≤ work_left self.old }
        ensures room { places_left self.old ≤ places_left self.new }
        ensures next { (op : OpName) (p : ℕ) → result ≡ Offer.Send op p → (t : Moment) → Ties self.old t → IsNextPipe (roomy_of self.old) t p }
        ensures resend { (c p : ℕ) → result ≡ Offer.Again c p → (t : Moment) → Ties self.old t → IsNextPipe (roomy_of self.old) t p }
        ensures roomy { KeepsRoomy self.old self.new }
    {
        if let Some(op) = self.next_left() {
            return Offer::Finish {
                op,
                cause: Cause::Superseded,
            };
        }
        if let Some(op) = self.next_give() {
            return Offer::Give { op };
        }
        match self.next_port() {
            None => Offer::Idle,
            Some(pipe) => self.next_out(pipe),
        }
    }

    fn full(&mut self, p: PipeId)
        ensures full { (t : Moment) → Takes (Ties self.old) (Ties self.new) t (entries.Full p) }
        ensures left { (t : Moment) (op : OpName) (s : Begun) (b : List ℕ) → Lawful t → Ties self.old t → CanSend t op p s b → work_left self.new < work_left self.old }
        ensures left_again { (t : Moment) (c : ℕ) (r : LiveRequest) → Lawful t → Ties self.old t → CanAgain t c p r → work_left self.new < work_left self.old }
        ensures left_flood { (t : Moment) → Lawful t → Ties self.old t → floods t.z.role ≡ true → work_left self.new ≤ work_left self.old }
        ensures room { places_left self.old ≤ places_left self.new }
        ensures roomy { DropsRoomy p self.old self.new }
    {
        self.ports.mark(p);
        drop_roomy(&mut self.roomy, p);
    }

    fn goes_to(&self, op: OpName, p: PipeId) -> bool {
        let _ = op;
        let _ = p;
        false
    }

    fn flood(&mut self, op: OpName, p: PipeId) -> Option<Message> {
        let _ = op;
        let _ = p;
        None
    }

    fn again(&mut self, c: Ctx, p: PipeId) -> Option<Message>
        ensures again { (t : Moment) (r : LiveRequest) → Lawful t → Ties self.old t → CanAgain t c p r → MatchOption result (Ties self.new (also t (entries.Dry c))) (λ m. (wire_text m ≡ wire_of r) × Ties self.new (also t (entries.Out p (wire_of r)))) }
        ensures left { (t : Moment) (r : LiveRequest) → Lawful t → Ties self.old t → CanAgain t c p r → work_left self.new < work_left self.old }
        ensures room { places_left self.old ≤ places_left self.new }
        ensures roomy { KeepsRoomy self.old self.new }
    {
        match self.live.copy_of(c) {
            None => {
                self.contexts.dry(c);
                self.dues.note_dry(c);
                None
            }
            Some(copy) => {
                self.last_pipe = p;
                add_roomy(&mut self.roomy, p);
                self.dues.note_out(c, p, self.tick);
                let out = LastOut {
                    pipe: p,
                    when: self.tick,
                };
                Some(asked(&mut self.live, c, copy, out))
            }
        }
    }

    fn won(&mut self, op: OpName, out: Option<PipeId>) -> Option<Message>
        ensures given { (t : Moment) (s : Begun) (m : Text) → out ≡ None → Lawful t → Ties self.old t → CanGive t op s m → (option_map text_of result ≡ Some m) × Ties self.new (also t (entries.End op (Won (Received m)))) × HasServed self.old self.new }
        ensures flooded { (t : Moment) (s : Begun) → out ≡ None → Lawful (also t (entries.End op (Won Sent))) → Ties self.old t → pending (past t) op ≡ Some s → floods t.z.role ≡ true → Ties self.new (also t (entries.End op (Won Sent))) × HasServed self.old self.new }
        ensures dropped { (t : Moment) (s : Begun) → out ≡ None → Lawful t → Ties self.old t → CanDrop t op s → Ties self.new (also t (entries.End op (Won Sent))) × HasServed self.old self.new }
        ensures sent { (t : Moment) (p : ℕ) (s : Begun) (b : List ℕ) → out ≡ Some p → Lawful t → Ties self.old t → CanSend t op p s b → MatchOption result ⊥ (λ m. wire_text m ≡ b) × Ties self.new (also (also t (entries.Out p b)) (entries.End op (Won Sent))) × HasServed self.old self.new }
        ensures room { places_left self.old ≤ places_left self.new }
        ensures roomy { KeepsRoomy self.old self.new }
    {
        match self.waiting.take(op) {
            None => None,
            Some(w) => {
                let ctx = w.ctx;
                match w.message {
                    None => self.give(ctx),
                    Some(m) => Some(self.send(ctx, m, out)),
                }
            }
        }
    }

    fn lost(&mut self, op: OpName) -> Option<Message>
        ensures lost { (t : Moment) (s : Begun) (cause : HistoryCause) (by : ℕ) → Lawful (also t (entries.End op (Gone cause by))) → Ties self.old t → pending (past t) op ≡ Some s → (option_map text_of result ≡ message_of s.act) × Ties self.new (also t (entries.End op (Gone cause by))) × HasServed self.old self.new }
        ensures room { places_left self.old ≤ places_left self.new }
        ensures roomy { KeepsRoomy self.old self.new }
    {
        match self.waiting.take(op) {
            None => None,
            Some(w) => {
                if !self.raw && !w.is_orphan {
                    let _ = self.live.take_live(w.ctx);
                    leave_behind(&mut self.waiting, w.ctx);
                }
                w.message
            }
        }
    }

    fn clock(&mut self, now: Tick)
        ensures ticked { (t : Moment) (due : List OpName) → NoFlood t → Takes (Ties self.old) (Ties self.new) t (entries.Tick now due) }
        ensures room { places_left self.old ≤ places_left self.new }
        ensures roomy { KeepsRoomy self.old self.new }
    {
        self.tick = now;
        self.contexts.wet();
        self.dues.tick(&self.live, now, self.options.resend);
    }

    fn open_ctx(&mut self, c: Ctx) -> Result<(), NoMemory>
        ensures opened { OnOk result ((t : Moment) → Takes (Ties self.old) (Ties self.new) t (entries.Ctx c gate.Open)) }
        ensures same { OnErr result ((t : Moment) → Ties self.old t → Ties self.new t) }
        ensures room { places_left self.old ≤ places_left self.new }
        ensures roomy { KeepsRoomy self.old self.new }
    {
        self.contexts.open(c)
    }

    fn close_ctx(&mut self, c: Ctx)
        ensures shut { (t : Moment) → Takes (Ties self.old) (Ties self.new) t (entries.Ctx c gate.Shut) }
        ensures room { places_left self.old ≤ places_left self.new }
        ensures roomy { KeepsRoomy self.old self.new }
    {
        let _ = self.live.take_live(c);
        self.contexts.close(c);
    }

    fn topic(&mut self, c: Ctx, t: &[u8], on: bool) -> Result<bool, NoMemory> {
        let _ = c;
        let _ = t;
        let _ = on;
        Ok(false)
    }

    fn close(&mut self)
        ensures closed { (t : Moment) (totals : Totals) → Takes (Ties self.old) (Ties self.new) t (entries.Close totals) }
        ensures room { places_left self.old ≤ places_left self.new }
        ensures roomy { KeepsRoomy self.old self.new }
    {
        self.live.clear();
        self.dues.clear();
        self.ready.clear();
        self.kept.clear();
    }
}
