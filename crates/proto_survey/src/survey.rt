//! The machine of surveyor.
ghost use Rattle.std.specs.Prelude.{◌≡◌, ◌≤◌, ◌<◌, ◌+◌, ◌^◌, ◌%◌, ◌==◌, ◌++◌, ◌&&◌, ℕ, [], ◌∷◌, Option, None, Some, IfOk, IfErr, IsOk, OnOk, OnErr, IfSome, IfNone, false, true, not, map, filter, find, drop, length, option_to_list, is_some};
ghost use Rattle.std.specs.Vec.{vec_len, vec_capacity};
ghost use Rattle.std.specs.Option.{option_map};
ghost use Rattle.std.specs.List.{position, list_any};
ghost use Rattle.sp_history.specs.Options.{Fits};
ghost use Rattle.sp_history.specs.Lists.{head_of, first_word, is_nil};
ghost use Rattle.sp_history.specs.Requests.{next_number};
ghost use Rattle.sp_history.specs.Past.{up};
ghost use Rattle.sp_history.specs.Moments.{Moment, Lawful, past, also};
ghost use Rattle.sp_history.specs.Frames.{is_too_long};
ghost use Rattle.sp_history.specs.declared.entry.Entry.TheVariants.{Begin, Frame};
ghost use Rattle.sp_msg.specs.Views.{wire_text};
ghost use Rattle.sp_proto.specs.Kinds.{Starts, entry_act};
ghost use Rattle.sp_proto.specs.Machines.{NoFlood, Takes, Frames};
ghost use Rattle.sp_proto.specs.declared.Verdict.TheVariants as verdict;
ghost use Rattle.proto_shared.specs.Copies.{TakesCopies};
ghost use Rattle.proto_requests.specs.Ids.{number_after};
ghost use Rattle.proto_requests.specs.FirstFound.{with_found};
ghost use Rattle.proto_survey.specs.declared.survey.KeptResponse.{KeptResponse as KeptResponseType};
ghost use Rattle.proto_survey.specs.Lives.{SurveyView, is_live_on, has_number, keeps_at, first_in, given_from, with_reply, without_over, is_over, free_number};
ghost use Rattle.proto_survey.specs.Surveys.{Ties, survey_kind, places_left, without_live, out_text, AreSame, Asks, Awaits, KeepsRaw, KeepsReply, is_raw, copies_left, gets, is_given, is_fed, IsNext, survey_state};

use crate::contexts::SurveyContexts;
use crate::live::LiveSurvey;
use crate::waiting::{
    SurveyOperation, cause_of, ended_place, leave_on, leave_over, receive_place, send_place, take,
    wait, waits_on,
};
use sp_base::{Ctx, NoMemory, OpName, PipeId, Role, Tick};
use sp_history::setting::Options;
use sp_msg::Message;
use sp_proto::{Act, CheckError, Offer, Proto, UpFault, Verb, Verdict};
use std::alloc::Global;
use std::collections::VecDeque;

/// The maximum number of live surveys.
const MOST_LIVE: usize = 2_147_483_647;

/// A message that is kept, and the pipe that it came from.
#[derive(Drop)]
struct KeptResponse {
    pipe: PipeId,
    message: Message,
}

/// A surveyor (nng_surveyor(7)), cooked or raw.
#[derive(Drop)]
pub struct Survey {
    alloc: Global,
    raw: bool,
    options: Options,
    tick: Tick,
    /// The id of the survey that was begun last.
    last_id: Option<u32>,
    /// The number of pipes that are up.
    pipes: usize,
    contexts: SurveyContexts,
    /// Cooked: the live surveys, at most one of each context, in the order of their begins.
    live: Vec<LiveSurvey>,
    /// Raw: the responses that are kept, the oldest first, at most one of each pipe.
    kept: VecDeque<KeptResponse>,
    /// The operations that wait, in the order of their begins.
    waiting: Vec<SurveyOperation>,
    /// The copies of the pending send, one for each pipe that gets it.
    copies: Vec<Message>,
}

// ---- Surveys that are live

// The place of the survey of the context.
fn live_place(live: &[LiveSurvey], c: Ctx) -> Option<usize>
    ensures { result ≡ position (is_live_on c) live.now }
{
    live.iter().position(|x| x.is_on(c))
}

// The place where the survey of this id should be.
fn hint(live: &[LiveSurvey], id: u32) -> usize {
    live.partition_point(|x| x.is_below(id))
}

// Returns whether the survey at this place belongs to the context.
fn is_live_at(live: &[LiveSurvey], i: usize, c: Ctx) -> bool
    ensures { result ≡ true → list_any (is_live_on c) live.now ≡ true }
{
    i < live.len() && live[i].is_on(c)
}

// Returns whether the context, whose last survey had this id, has a live one. All are searched only if it has none, or
// if the ids began again from the lowest.
fn has_live(live: &[LiveSurvey], id: u32, c: Ctx) -> bool
    ensures { result ≡ list_any (is_live_on c) live.now }
{
    is_live_at(live, hint(live, id), c) || live.iter().any(|x| x.is_on(c))
}

// Returns whether a response is kept for the context.
fn keeps_for(live: &[LiveSurvey], c: Ctx) -> bool
    ensures { result ≡ keeps_at live.now c }
{
    match live_place(live, c) {
        None => false,
        Some(i) => !live[i].is_empty(),
    }
}

// The place of a survey that keeps a response for a receive that waits.
fn fed_place(live: &[LiveSurvey], waiting: &[SurveyOperation]) -> Option<usize>
    ensures { result ≡ position (is_fed waiting.now) live.now }
{
    live.iter()
        .position(|x| !x.is_empty() && waits_on(waiting, x.ctx()))
}

// Ends the survey of the context.
fn end_live(live: &mut Vec<LiveSurvey>, c: Ctx)
    ensures rest { live.new.items ≡ without_live c live.old.items }
    ensures len { vec_len live.new ≤ vec_len live.old }
    ensures capacity { vec_capacity live.new ≡ vec_capacity live.old }
{
    match live_place(live, c) {
        None => {}
        Some(i) => drop(live.remove(i)),
    }
}

// Ends the surveys that are over.
fn end_over(live: &mut Vec<LiveSurvey>, time: u64, now: Tick)
    ensures { live.new.items ≡ without_over time now live.old.items }
{
    live.retain(|x| !x.is_over(time, now));
}

// Returns whether one of them is over.
fn has_over(live: &[LiveSurvey], time: u64, now: Tick) -> bool
    ensures { result ≡ list_any (is_over time now) live.now }
{
    live.iter().any(|x| x.is_over(time, now))
}

// Takes out the oldest response of the context.
fn give(live: &mut [LiveSurvey], c: Ctx) -> Option<Message>
    ensures given { result ≡ first_in (find (is_live_on c) live.old) }
    ensures rest { live.new ≡ with_found (is_live_on c) given_from live.old }
{
    match live_place(live, c) {
        None => None,
        Some(i) => live[i].give(),
    }
}

// The place of the survey that has this id.
fn id_place(live: &[LiveSurvey], id: u32) -> Option<usize>
    ensures { result ≡ position (has_number id) live.now }
{
    live.iter().position(|x| x.has_id(id))
}

// Keeps the response for the survey that has this id, if there is one and it keeps fewer than `most`. Returns false
// when out of memory; then nothing changes.
fn keep(live: &mut [LiveSurvey], id: u32, most: u32, m: Message) -> bool
    ensures { KeepsReply result id most m live.old live.new }
{
    match id_place(live, id) {
        None => true,
        Some(i) => live[i].keep(most, m),
    }
}

// ---- Ids

// The next number, with the top bit set.
fn number_after(id: u32) -> u32
    ensures { result ≡ number_after id }
{
    (id % 2_147_483_648 + 1) % 2_147_483_648 + 2_147_483_648
}

// Returns whether a live survey has this id.
fn is_taken(live: &[LiveSurvey], id: u32) -> bool
    ensures { result ≡ list_any (has_number id) live.now }
{
    live.iter().any(|x| x.has_id(id))
}

// The first number from this one on that no live survey has.
fn free_number(live: &[LiveSurvey], tries: usize, id: u32) -> u32
    ensures { result ≡ free_number tries live.now id }
{
    if tries == 0 {
        return id;
    }
    if !is_taken(live, id) {
        return id;
    }
    free_number(live, tries - 1, number_after(id))
}

// The id of the next survey.
fn next_id(live: &[LiveSurvey], dice: u32, last: Option<u32>) -> u32
    ensures { result ≡ free_number (length live.now) live.now (next_number dice last) }
{
    match last {
        None => free_number(live, live.len(), dice % 2_147_483_648 + 2_147_483_648),
        Some(id) => free_number(live, live.len(), number_after(id)),
    }
}

// ---- Messages

// The number in the first 4 bytes.
fn first_word(b: &[u8]) -> Option<u32>
    ensures { result ≡ first_word b.now }
{
    if b.len() < 4 {
        return None;
    }
    Some(u32::from_be_bytes([b[0], b[1], b[2], b[3]]))
}

// `most` copies of the message. Where that is 0 it takes no memory.
fn copies_of(alloc: Global, m: &Message, most: usize) -> Result<Vec<Message>, NoMemory>
    ensures copies { IfOk result (λ v. AreSame m.now v.items) }
    ensures all { IfOk result (λ v. length v.items ≡ most) }
    ensures none { most ≡ 0 → IsOk result }
{
    let mut copies = Vec::with_capacity(alloc, most)?;
    for _ in 0..most {
        copies.push(m.copy()?)?;
    }
    Ok(copies)
}

// The copy as it goes out: raw as it is, otherwise after its id.
fn led(raw: bool, id: Option<u32>, copy: Message) -> Message
    ensures { wire_text result ≡ out_text raw id copy }
{
    if raw {
        return copy;
    }
    match id {
        None => copy,
        Some(id) => {
            let mut out = copy;
            out.header_clear();
            let _ = out.header_append_u32(id);
            out
        }
    }
}

// Raw: takes out the oldest response.
fn oldest(kept: &mut VecDeque<KeptResponse>) -> Option<Message>
    ensures first { result ≡ option_map (λ (k : KeptResponseType). k.message) (head_of kept.old.items) }
    ensures rest { kept.new.items ≡ drop 1 kept.old.items }
{
    match kept.pop_front() {
        None => None,
        Some(k) => Some(k.message),
    }
}

impl Survey {
    /// A new surveyor.
    pub fn new(alloc: Global, options: Options, raw: bool) -> Result<Survey, NoMemory>
        requires { Fits options }
        ensures { IfOk result (λ m. Starts Ties m (survey_kind raw options)) }
    {
        let contexts = SurveyContexts::new(alloc)?;
        Ok(Survey {
            alloc,
            raw,
            options,
            tick: Tick(0),
            last_id: None,
            pipes: 0,
            contexts,
            live: Vec::new(alloc),
            kept: VecDeque::new(alloc),
            waiting: Vec::new(alloc),
            copies: Vec::new(alloc),
        })
    }

    // Begins a new survey of the context in place of the live one.
    fn ask(&mut self, c: Ctx) -> Result<(), NoMemory>
        ensures asked { OnOk result (Asks c self.old self.new) }
        ensures same { OnErr result ((self.new.live.items ≡ self.old.live.items) × (self.new ≡ record self.old { live = self.new.live })) }
        ensures room { (vec_len self.new.waiting ≡ vec_len self.old.waiting) × (vec_capacity self.new.waiting ≡ vec_capacity self.old.waiting) }
    {
        if self.live.len() >= MOST_LIVE {
            return Err(NoMemory);
        }
        if self.live.reserve(1).is_err() {
            return Err(NoMemory);
        }
        end_live(&mut self.live, c);
        leave_on(&mut self.waiting, c);
        let id = next_id(&self.live, self.options.dice, self.last_id);
        self.last_id = Some(id);
        self.contexts.begin(c, id);
        self.live
            .push_reserved(LiveSurvey::new(self.alloc, c, id, self.tick));
        Ok(())
    }

    // Keeps a raw response: its first word goes to the header.
    fn keep_raw(&mut self, p: PipeId, m: Message) -> Verdict
        requires { m.header ≡ [] }
        ensures { (self.new ≡ record self.old { kept = self.new.kept }) × KeepsRaw result p m.body self.old.kept.items self.new.kept.items }
    {
        let mut message = m;
        match message.trim_u32() {
            Err(_) => Verdict::Malformed,
            Ok(word) => {
                let _ = message.header_append_u32(word);
                match self.kept.push_back(KeptResponse { pipe: p, message }) {
                    Ok(()) => Verdict::Fine,
                    Err(_) => Verdict::NoMemory,
                }
            }
        }
    }

    // Returns whether a message can be given to a receive of the context.
    fn gives(&self, c: Ctx) -> bool
        ensures { result ≡ is_given self.now.raw self.now.kept.items self.now.live.items c }
    {
        if self.raw {
            return !self.kept.is_empty();
        }
        keeps_for(&self.live, c)
    }

    // Raw: the place of the first receive, if a message is kept.
    fn raw_place(&self) -> Option<usize>
        requires { self.now.raw ≡ true }
        ensures { result ≡ position (gets self.now) self.now.waiting.items }
    {
        if !self.gives(Ctx(0)) {
            return None;
        }
        self.waiting
            .iter()
            .position(|w| w.message.is_none() && self.gives(w.ctx))
    }

    // The place of a receive that can be given a message, the first of its context.
    fn give_place(&self) -> Option<usize>
        ensures next { IfSome result (λ i. IsNext self.now i) }
        ensures none { IfNone result (find (gets self.now) self.now.waiting.items ≡ None) }
    {
        if self.raw {
            return self.raw_place();
        }
        match fed_place(&self.live, &self.waiting) {
            None => None,
            Some(i) => receive_place(&self.waiting, self.live[i].ctx()),
        }
    }

    // Returns whether the state of the context doesn't allow it: cooked, a receive needs a live survey.
    fn lacks_survey(&self, c: Ctx, verb: Verb) -> bool
        ensures { result ≡ survey_state self.now.raw self.now.live.items c verb }
    {
        if self.raw {
            return false;
        }
        match verb {
            Verb::Recv => !has_live(&self.live, self.contexts.last_id(c), c),
            Verb::Send => false,
        }
    }

    // Returns whether a message of the pipe is kept.
    fn keeps_of(&self, p: PipeId) -> bool
        ensures { result ≡ list_any (λ (k : KeptResponseType). k.pipe == p) self.now.kept.items }
    {
        self.kept.iter().any(|k| k.pipe.0 == p.0)
    }
}

impl Proto for Survey {
    ghost use Rattle.std.specs.Vec.{vec_len};
    ghost use Rattle.proto_survey.specs.Surveys.{Ties, survey_kind, places_left};
    ghost use Rattle.proto_survey.specs.SurveyLaws as laws;

    ghost kind = { λ m. survey_kind m.raw m.options };

    ghost ties = { Ties };

    ghost room = { places_left };

    ghost left = { λ m. vec_len m.waiting };

    ghost copies = { λ m op. vec_len m.copies };

    ghost kinds = { laws.kinds };

    ghost silent = { laws.silent };

    ghost passes = { laws.passes };

    ghost anew = { laws.anew };

    fn role(&self) -> Role {
        Role::Surveyor
    }

    fn raw(&self) -> bool {
        self.raw
    }

    fn reserve(&mut self, slots: u32) -> Result<(), NoMemory> {
        match self.waiting.reserve(slots as usize) {
            Ok(()) => Ok(()),
            Err(_) => Err(NoMemory),
        }
    }

    fn up(&mut self, p: PipeId) -> Result<(), UpFault> {
        let _ = p;
        self.pipes = self.pipes.saturating_add(1);
        Ok(())
    }

    fn down(&mut self, p: PipeId) {
        let _ = p;
        self.pipes = self.pipes.saturating_sub(1);
    }

    fn wants(&self, p: PipeId) -> bool {
        !self.raw || !self.keeps_of(p)
    }

    /// Cooked, it takes memory only for a response to a live survey that keeps fewer than `queue`.
    fn frame(&mut self, p: PipeId, m: Message) -> Verdict
        requires { m.header ≡ [] }
        ensures kept { (t : Moment) → is_too_long (past t) p m.body ≡ false → Lawful (also t (Frame p m.body)) → Ties self.old t → Frames (Ties self.new) result t p m.body }
        ensures room { places_left self.old ≤ places_left self.new }
        ensures memory { is_raw self.old ≡ false → result ≡ verdict.NoMemory → Awaits self.old m.body }
    {
        if self.raw {
            return self.keep_raw(p, m);
        }
        match first_word(m.body()) {
            None => Verdict::Malformed,
            Some(id) => {
                let mut message = m;
                let _ = message.trim(4);
                if keep(&mut self.live, id, self.options.queue, message) {
                    Verdict::Fine
                } else {
                    Verdict::NoMemory
                }
            }
        }
    }

    fn keeps(&self, c: Ctx) -> bool {
        self.gives(c)
    }

    fn check(&self, c: Ctx, verb: Verb) -> Result<(), CheckError> {
        if self.raw && c.0 != 0 {
            return Err(CheckError::NotSupported);
        }
        if !self.contexts.has(c) {
            return Err(CheckError::NoEntry);
        }
        if self.lacks_survey(c, verb) {
            return Err(CheckError::State);
        }
        Ok(())
    }

    /// A send takes a copy for each pipe that is up, and no more.
    fn begin(&mut self, op: OpName, c: Ctx, act: Act) -> Result<(), Message>
        requires { 0 < places_left self.old }
        ensures begun { OnOk result ((t : Moment) (deadline : Option ℕ) → NoFlood t → Takes (Ties self.old) (Ties self.new) t (Begin op t.caller c (entry_act act) deadline)) }
        ensures handed_back { IfErr result (λ m. act ≡ Act.Send m) }
        ensures same { OnErr result ((t : Moment) → Ties self.old t → Ties self.new t) }
        ensures room { places_left self.old ≤ places_left self.new + 1 }
        ensures room_kept { OnErr result (places_left self.old ≤ places_left self.new) }
        ensures copies { OnOk result ((t : Moment) → Ties self.old t → TakesCopies act (length (up (past t))) (copies_left self.new)) }
        ensures fits { OnErr result ((t : Moment) → Ties self.old t → is_raw self.old ≡ true → up (past t) ≡ [] → ⊥) }
    {
        match act {
            Act::Recv => {
                wait(&mut self.waiting, op, c, None);
                Ok(())
            }
            Act::Send(m) => match copies_of(self.alloc, &m, self.pipes) {
                Err(_) => Err(m),
                Ok(copies) => {
                    if self.raw {
                        self.copies = copies;
                        wait(&mut self.waiting, op, c, Some(m));
                        return Ok(());
                    }
                    match self.ask(c) {
                        Err(_) => Err(m),
                        Ok(()) => {
                            self.copies = copies;
                            wait(&mut self.waiting, op, c, Some(m));
                            Ok(())
                        }
                    }
                }
            },
        }
    }

    fn fresh(&mut self) {}

    fn offer(&mut self) -> Offer {
        if let Some(i) = send_place(&self.waiting) {
            return Offer::Flood {
                op: self.waiting[i].op,
            };
        }
        if let Some(i) = ended_place(&self.waiting) {
            let w = &self.waiting[i];
            return match w.ended {
                None => Offer::Idle,
                Some(end) => Offer::Finish {
                    op: w.op,
                    cause: cause_of(end),
                },
            };
        }
        match self.give_place() {
            None => Offer::Idle,
            Some(i) => Offer::Give {
                op: self.waiting[i].op,
            },
        }
    }

    fn full(&mut self, p: PipeId) {
        let _ = p;
    }

    fn goes_to(&self, op: OpName, p: PipeId) -> bool {
        let _ = op;
        let _ = p;
        true
    }

    fn flood(&mut self, op: OpName, p: PipeId) -> Option<Message> {
        let _ = op;
        let _ = p;
        match self.copies.pop() {
            None => None,
            Some(copy) => Some(led(self.raw, self.last_id, copy)),
        }
    }

    fn again(&mut self, c: Ctx, p: PipeId) -> Option<Message> {
        let _ = c;
        let _ = p;
        None
    }

    fn won(&mut self, op: OpName, out: Option<PipeId>) -> Option<Message> {
        let _ = out;
        match take(&mut self.waiting, op) {
            None => None,
            Some(w) => {
                if w.message.is_some() {
                    self.copies.clear();
                    return None;
                }
                if self.raw {
                    return oldest(&mut self.kept);
                }
                give(&mut self.live, w.ctx)
            }
        }
    }

    fn lost(&mut self, op: OpName) -> Option<Message> {
        match take(&mut self.waiting, op) {
            None => None,
            Some(w) => {
                if w.message.is_some() {
                    self.copies.clear();
                    return w.message;
                }
                w.message
            }
        }
    }

    fn clock(&mut self, now: Tick) {
        self.tick = now;
        let time = self.options.survey;
        if !has_over(&self.live, time, now) {
            return;
        }
        leave_over(&mut self.waiting, &self.live, time, now);
        end_over(&mut self.live, time, now);
    }

    fn open_ctx(&mut self, c: Ctx) -> Result<(), NoMemory> {
        self.contexts.open(c)
    }

    fn close_ctx(&mut self, c: Ctx) {
        end_live(&mut self.live, c);
        self.contexts.close(c);
    }

    fn topic(&mut self, c: Ctx, t: &[u8], on: bool) -> Result<bool, NoMemory> {
        let _ = c;
        let _ = t;
        let _ = on;
        Ok(false)
    }

    fn close(&mut self) {
        self.live.clear();
        self.kept.clear();
    }
}
