//! The machine of sub (nng_sub(7)), cooked and raw.
//!
//! Each open context has topics, and a queue of at most `queue` messages, and the memory for them is taken when it is
//! opened. A frame is kept for each context of which a topic is a prefix of it, the empty topic of each; raw, for the
//! one context that there is. A full queue discards its oldest message or the new one, as `prefer_new` says. The last
//! open context keeps the frame itself, each other one a copy, which is made before anything is discarded; the first
//! for which there is no memory is reported, and contexts of larger numbers don't get the frame either.
ghost use Rattle.std.specs.Prelude.{◌≡◌, ◌-◌, ◌+◌, ◌≤◌, ◌<◌, ◌==◌, ◌≢◌, Bool, ℕ, List, [], ◌∷◌, true, false, Some, None, IfOk, IfSome, OnErr, nat_lt, map, filter, find, length, take, drop, ◌++◌, not, option_to_list};
ghost use Rattle.std.specs.VecDeque.{deque_len, deque_capacity};
ghost use Rattle.std.specs.Option.{option_map};
ghost use Rattle.std.specs.List.{position, list_any};
ghost use Rattle.sp_history.specs.declared.entry.Entry.TheVariants.{Frame};
ghost use Rattle.sp_history.specs.Lists.{is_nil};
ghost use Rattle.sp_history.specs.Moments.{Moment, Lawful, past, also};
ghost use Rattle.sp_history.specs.Frames.{is_too_long};
ghost use Rattle.sp_history.specs.Past.{ctxs};
ghost use Rattle.sp_proto.specs.Kinds.{Starts};
ghost use Rattle.sp_proto.specs.Machines.{Frames};
ghost use Rattle.proto_pubsub.specs.SubContexts.{kept_in, takes_frame, emptied, fresh_context, given_from, is_of_context, first_in, with_found, SwitchesIn, StopsAt, SubContextView, InOrder};
ghost use Rattle.proto_pubsub.specs.Subs.{Ties, NeedsCopy, places_left, sub_kind, is_for, is_ready, keeps_at, without_first, NoneBefore};
ghost use Rattle.proto_pubsub.specs.Topics.{AreShort, IsWantedByPrefix};
ghost use Rattle.proto_pubsub.specs.declared.subscribe.WaitingReceive.{WaitingReceive as WaitingReceiveType};

use crate::sub_contexts::SubContext;
use sp_base::{Ctx, NoMemory, OpName, PipeId, Role, Tick};
use sp_history::setting::Options;
use sp_msg::Message;
use sp_proto::{Act, CheckError, Offer, Proto, UpFault, Verb, Verdict};
use std::alloc::Global;
use std::collections::VecDeque;

/// A receive that waits.
#[derive(Clone, Copy)]
struct WaitingReceive {
    op: OpName,
    ctx: Ctx,
}

/// A sub (nng_sub(7)), cooked or raw: it receives.
#[derive(Drop)]
pub struct Subscribe {
    alloc: Global,
    raw: bool,
    options: Options,
    /// The open contexts, in the order in which they were opened, which is that of their numbers.
    contexts: Vec<SubContext>,
    /// The receives that wait, in the order of their begins.
    waiting: VecDeque<WaitingReceive>,
    /// Nothing is kept for the receives before this place.
    looked: usize,
}

// Returns whether the number of `context` is below this one.
fn is_before(context: &SubContext, c: Ctx) -> bool
    ensures { result ≡ nat_lt context.now.ctx c }
{
    context.ctx().0 < c.0
}

// The place of the context, found by halving.
fn index_of(contexts: &[SubContext], c: Ctx) -> Option<usize>
    ensures place { InOrder contexts.now → result ≡ position (is_of_context c) contexts.now }
    ensures inside { IfSome result (λ i. i < length contexts.now) }
{
    let i = contexts.partition_point(|x| is_before(x, c));
    if i >= contexts.len() {
        return None;
    }
    if !contexts[i].is_of(c) {
        return None;
    }
    Some(i)
}

// Returns whether the context is open.
fn is_open(contexts: &[SubContext], c: Ctx) -> bool
    ensures { InOrder contexts.now → result ≡ list_any (is_of_context c) contexts.now }
{
    index_of(contexts, c).is_some()
}

// Returns whether something is kept for the context.
fn keeps_for(contexts: &[SubContext], c: Ctx) -> bool
    ensures { InOrder contexts.now → result ≡ keeps_at contexts.now c }
{
    match index_of(contexts, c) {
        None => false,
        Some(i) => !contexts[i].is_empty(),
    }
}

// The place of the first receive for which something is kept, from the given place on.
fn ready_place(
    contexts: &[SubContext],
    waiting: &VecDeque<WaitingReceive>,
    looked: usize,
) -> Option<usize>
    ensures place { InOrder contexts.now → NoneBefore (is_ready contexts.now) looked waiting.now.items → result ≡ position (is_ready contexts.now) waiting.now.items }
    ensures inside { (i : ℕ) → result ≡ Some i → i < deque_len waiting.now }
{
    for i in looked..waiting.len() {
        if keeps_for(contexts, waiting[i].ctx) {
            return Some(i);
        }
    }
    None
}

// The place of the operation.
fn place_of(waiting: &VecDeque<WaitingReceive>, op: OpName) -> Option<usize>
    ensures { result ≡ position (is_for op) waiting.now.items }
{
    waiting.iter().position(|w| w.op.slot == op.slot && w.op.generation == op.generation)
}

// The place `looked`, once the element at `i` is taken out.
fn moved(looked: usize, i: usize) -> usize
    ensures before { i < looked → result + 1 ≡ looked }
    ensures behind { looked ≤ i → result ≡ looked }
{
    if i < looked { looked - 1 } else { looked }
}

// Takes the operation out.
fn take(
    waiting: &mut VecDeque<WaitingReceive>,
    looked: &mut usize,
    op: OpName,
) -> Option<WaitingReceive>
    ensures found { result ≡ find (is_for op) waiting.old.items }
    ensures rest { waiting.new.items ≡ without_first op waiting.old.items }
    ensures len { deque_len waiting.new + length (option_to_list result) ≡ deque_len waiting.old }
    ensures capacity { deque_capacity waiting.new ≡ deque_capacity waiting.old }
    ensures looked { (P : WaitingReceiveType → Bool) → NoneBefore P looked.old waiting.old.items → NoneBefore P looked.new waiting.new.items }
{
    match place_of(waiting, op) {
        None => None,
        Some(i) => {
            *looked = moved(*looked, i);
            match waiting.remove(i) {
                Some(w) => Some(w),
                None => None,
            }
        }
    }
}

// Keeps a copy of the frame in each of the first `most` contexts that takes it. Stops at the first for which there is
// no memory, and returns it.
fn spread(
    contexts: &mut [SubContext],
    most: usize,
    raw: bool,
    options: Options,
    m: &Message,
) -> Option<Ctx>
    requires { most ≤ length contexts.old }
    ensures whole { result ≡ None → contexts.new ≡ map (kept_in raw options m.now) (take most contexts.old) ++ drop most contexts.old }
    ensures none { most ≡ 0 → result ≡ None }
    ensures stops { (c : ℕ) → result ≡ Some c → StopsAt (takes_frame raw options m.now.body) (kept_in raw options m.now) c contexts.old contexts.new }
{
    for i in 0..most {
        if !contexts[i].keep_copy(raw, options, m) {
            return Some(contexts[i].ctx());
        }
    }
    None
}

// Keeps the frame in each context that takes it: the last has the frame itself, each other one a copy. Stops at the
// first for which there is no memory, and returns it.
fn keep_in_all(contexts: &mut [SubContext], raw: bool, options: Options, m: Message) -> Option<Ctx>
    ensures whole { result ≡ None → contexts.new ≡ map (kept_in raw options m) contexts.old }
    ensures stops { (c : ℕ) → result ≡ Some c → StopsAt (takes_frame raw options m.body) (kept_in raw options m) c contexts.old contexts.new }
    ensures one { length contexts.old ≤ 1 → result ≡ None }
{
    let n = contexts.len();
    if n == 0 {
        return None;
    }
    match spread(contexts, n - 1, raw, options, &m) {
        Some(c) => Some(c),
        None => {
            contexts[n - 1].keep(raw, options, m);
            None
        }
    }
}

// Removes and returns the oldest message of the context.
fn give(contexts: &mut [SubContext], c: Ctx) -> Option<Message>
    ensures given { InOrder contexts.old → result ≡ first_in (find (is_of_context c) contexts.old) }
    ensures rest { InOrder contexts.old → contexts.new ≡ with_found (is_of_context c) given_from contexts.old }
{
    match index_of(contexts, c) {
        None => None,
        Some(i) => contexts[i].give(),
    }
}

// Adds a topic of the context, or removes it. Returns whether that changed something.
fn switch(
    contexts: &mut [SubContext],
    alloc: Global,
    c: Ctx,
    t: &[u8],
    on: bool,
) -> Result<bool, NoMemory>
    ensures switched { InOrder contexts.old → SwitchesIn result (find (is_of_context c) contexts.old) c contexts.old contexts.new t.now on }
    ensures off { on ≡ false → OnErr result ⊥ }
{
    match index_of(contexts, c) {
        None => Ok(false),
        Some(i) => contexts[i].switch(alloc, t, on),
    }
}

// Shuts the context.
fn shut(contexts: &mut Vec<SubContext>, c: Ctx)
    ensures { InOrder contexts.old.items → contexts.new.items ≡ filter (λ (x : SubContextView). not (is_of_context c x)) contexts.old.items }
{
    match index_of(contexts, c) {
        None => {}
        Some(i) => {
            let _ = contexts.remove(i);
        }
    }
}

// Drops all that is kept.
fn clear(contexts: &mut [SubContext])
    ensures { contexts.new ≡ map emptied contexts.old }
{
    for context in contexts.iter_mut() {
        context.clear();
    }
}

// The contexts of a new sub: the socket's own.
fn first_contexts(alloc: Global, options: Options) -> Result<Vec<SubContext>, NoMemory>
    ensures { IfOk result (λ v. v.items ≡ fresh_context options.queue 0 ∷ []) }
{
    let context = SubContext::new(alloc, Ctx(0), options)?;
    let mut contexts = Vec::new(alloc);
    contexts.push(context)?;
    Ok(contexts)
}

impl Subscribe {
    /// A new sub. Takes the memory for `queue` messages.
    pub fn new(alloc: Global, options: Options, raw: bool) -> Result<Subscribe, NoMemory>
        ensures { IfOk result (λ m. Starts Ties m (sub_kind raw options)) }
    {
        let contexts = first_contexts(alloc, options)?;
        Ok(Subscribe {
            alloc,
            raw,
            options,
            contexts,
            waiting: VecDeque::new(alloc),
            looked: 0,
        })
    }
}

impl Proto for Subscribe {
    ghost use Rattle.std.specs.VecDeque.{deque_len};
    ghost use Rattle.proto_pubsub.specs.Subs.{Ties, places_left, sub_kind};
    ghost use Rattle.proto_pubsub.specs.SubLaws as laws;

    ghost kind = { λ m. sub_kind m.raw m.options };

    ghost ties = { Ties };

    ghost room = { places_left };

    ghost left = { λ m. deque_len m.waiting };

    ghost copies = { λ m op. 0 };

    ghost kinds = { laws.kinds };

    ghost silent = { laws.silent };

    ghost passes = { laws.passes };

    ghost anew = { laws.anew };

    fn role(&self) -> Role {
        Role::Sub
    }

    fn raw(&self) -> bool {
        self.raw
    }

    fn reserve(&mut self, slots: u32) -> Result<(), NoMemory> {
        match self.waiting.reserve(slots as usize) {
            Ok(()) => Ok(()),
            Err(_) => Err(NoMemory),
        }
    }

    fn up(&mut self, p: PipeId) -> Result<(), UpFault> {
        let _ = p;
        Ok(())
    }

    fn down(&mut self, p: PipeId) {
        let _ = p;
    }

    fn wants(&self, p: PipeId) -> bool {
        let _ = p;
        true
    }

    /// Never out of memory where only one context is open: there is memory for all that it keeps, and the last open
    /// context gets the frame itself. The topics that match are found by the prefixes of the body.
    fn frame(&mut self, p: PipeId, m: Message) -> Verdict
        requires { m.header ≡ [] }
        ensures kept { (t : Moment) → is_too_long (past t) p m.body ≡ false → Lawful (also t (Frame p m.body)) → Ties self.old t → Frames (Ties self.new) result t p m.body }
        ensures room { places_left self.old ≤ places_left self.new }
        ensures one { (t : Moment) → Ties self.old t → length (ctxs (past t)) ≤ 1 → result ≡ Verdict.Fine }
        ensures raw { (t : Moment) → Lawful (also t (Frame p m.body)) → Ties self.old t → t.z.raw ≡ true → result ≡ Verdict.Fine }
        ensures dry { (t : Moment) (c : ℕ) → is_too_long (past t) p m.body ≡ false → Lawful (also t (Frame p m.body)) → Ties self.old t → result ≡ Verdict.Dry c → NeedsCopy t.z (past t) c p m.body }
        ensures prefixes { (ts : List (List ℕ)) → AreShort ts → IsWantedByPrefix ts m.body }
        ensures fits { result ≢ Verdict.NoMemory }
    {
        let _ = p;
        self.looked = 0;
        match keep_in_all(&mut self.contexts, self.raw, self.options, m) {
            None => Verdict::Fine,
            Some(c) => Verdict::Dry(c),
        }
    }

    fn keeps(&self, c: Ctx) -> bool {
        keeps_for(&self.contexts, c)
    }

    fn check(&self, c: Ctx, verb: Verb) -> Result<(), CheckError> {
        if verb == Verb::Send {
            return Err(CheckError::NotSupported);
        }
        if self.raw && c.0 != 0 {
            return Err(CheckError::NotSupported);
        }
        if !is_open(&self.contexts, c) {
            return Err(CheckError::NoEntry);
        }
        Ok(())
    }

    fn begin(&mut self, op: OpName, c: Ctx, act: Act) -> Result<(), Message> {
        match act {
            Act::Send(m) => Err(m),
            Act::Recv => {
                self.waiting
                    .push_back_reserved(WaitingReceive { op, ctx: c });
                Ok(())
            }
        }
    }

    fn fresh(&mut self) {}

    fn offer(&mut self) -> Offer {
        match ready_place(&self.contexts, &self.waiting, self.looked) {
            None => {
                self.looked = self.waiting.len();
                Offer::Idle
            }
            Some(i) => {
                self.looked = i;
                Offer::Give {
                    op: self.waiting[i].op,
                }
            }
        }
    }

    fn full(&mut self, p: PipeId) {
        let _ = p;
    }

    fn goes_to(&self, op: OpName, p: PipeId) -> bool {
        let _ = op;
        let _ = p;
        false
    }

    fn flood(&mut self, op: OpName, p: PipeId) -> Option<Message> {
        let _ = op;
        let _ = p;
        None
    }

    fn again(&mut self, c: Ctx, p: PipeId) -> Option<Message> {
        let _ = c;
        let _ = p;
        None
    }

    fn won(&mut self, op: OpName, out: Option<PipeId>) -> Option<Message> {
        let _ = out;
        match take(&mut self.waiting, &mut self.looked, op) {
            None => None,
            Some(w) => give(&mut self.contexts, w.ctx),
        }
    }

    fn lost(&mut self, op: OpName) -> Option<Message> {
        let _ = take(&mut self.waiting, &mut self.looked, op);
        None
    }

    fn clock(&mut self, now: Tick) {
        let _ = now;
    }

    fn open_ctx(&mut self, c: Ctx) -> Result<(), NoMemory> {
        let context = SubContext::new(self.alloc, c, self.options)?;
        self.contexts.push(context)?;
        Ok(())
    }

    fn close_ctx(&mut self, c: Ctx) {
        shut(&mut self.contexts, c);
    }

    fn topic(&mut self, c: Ctx, t: &[u8], on: bool) -> Result<bool, NoMemory> {
        switch(&mut self.contexts, self.alloc, c, t, on)
    }

    fn close(&mut self) {
        clear(&mut self.contexts);
    }
}
