//! Replies that wait for their pipes.
//!
//! They are kept in the order of their begins, each at a spot that is empty when it ends. When half of the spots are
//! empty, the others are moved together, so that going over all spots costs no more than there are replies. The slot of
//! a reply's name gives the number of its spot, and the spot is found from that by halving.
//!
//! An index has each of them by its pipe and its number. All whose pipes come before a mark are passed over: those
//! pipes were found full in this turn. So a turn costs one look for each pipe at which replies wait, not one for each
//! reply. A new turn sets the mark back to the start. A reply that begins sets it back to its pipe, and so does a pipe
//! that goes down and was full. The index takes memory. Where there is none, the replies are searched through, until
//! there is memory for all when one begins.
ghost use Rattle.std.specs.Prelude.{◌≡◌, ◌≤◌, ◌<◌, ◌+◌, ◌^◌, ◌++◌, ◌∷◌, ℕ, Bool, List, [], Some, true, false, not, find, filter, length, option_to_list, OnOk, IfSome};
ghost use Rattle.std.specs.List.{position, list_any};
ghost use Rattle.proto_requests.specs.Ports.{where_is};
ghost use Rattle.proto_requests.specs.Spots.{holds, held, with_value};
ghost use Rattle.proto_rep.specs.declared.replies.WaitingReply.{WaitingReply as WaitingReplyType};
ghost use Rattle.proto_rep.specs.Replies.{target_of, key_of, reply_key, way_of, can_leave, leaves_to, is_leaving, way_offer, reply_offer, is_reply_of, is_below, is_to, without_reply, isnt_full, has_key, AreFull, AreKeyed, AreRising, AreStuck, IsFullKey, IsLeast, IsPushed, OffersFirst, OffersIts, StayPassed};

use crate::rep::Source;
use proto_requests::numbers::Numbers;
use proto_requests::ports::{Destination, Ports};
use proto_requests::spots::{Spot, close_up_sparse, empty, hint};
use proto_requests::trail::first_word;
use proto_requests::waits::{Waiter, know, lose, make_spot, place_by};
use sp_base::{Ctx, NoMemory, OpName, PipeId};
use sp_msg::Message;
use sp_proto::Offer;
use std::alloc::Global;
use std::collections::BTreeSet;
use std::marker::Model;

/// The contents of a send: its message, as it was begun, and, cooked, the request that it answers (nng_rep(7)).
#[derive(Drop)]
pub struct PendingReply {
    pub message: Message,
    pub source: Option<Source>,
}

/// A reply that waits for its pipe (nng_rep(7)).
#[derive(Drop)]
pub struct WaitingReply {
    pub op: OpName,
    pub ctx: Ctx,
    pub answer: PendingReply,
    /// The number of its spot.
    pub number: u64,
}

impl Waiter for WaitingReply {
    ghost use Rattle.std.specs.Prelude.{true, false};
    ghost use Rattle.proto_rep.specs.OperationLaws as laws;

    ghost name_of = { λ w. w.op };

    ghost context_of = { λ w. w.ctx };

    ghost is_send = { λ w. true };

    ghost is_left = { λ w. false };

    ghost left = { λ w. w };

    ghost left_same = { laws.reply_same };

    ghost left_again = { laws.reply_again };

    ghost may_leave = { false };

    ghost left_is = { laws.reply_is };

    fn op(&self) -> OpName {
        self.op
    }

    fn ctx(&self) -> Ctx {
        self.ctx
    }

    fn sends(&self) -> bool {
        true
    }

    fn is_over(&self) -> bool {
        false
    }

    fn leave(&mut self) {}
}

/// Replies that wait (nng_aio(5)).
#[derive(Drop)]
pub struct WaitingReplies {
    /// Whether their pipes are in their headers.
    raw: bool,
    /// The replies, in the order of their begins.
    list: Vec<Spot<WaitingReply>>,
    /// The number of the next spot.
    next: u64,
    /// Whether the numbers rise.
    in_order: bool,
    /// The numbers of their spots by their slots.
    by_slot: Numbers,
    /// Whether all slots are known, and no two replies have the same one.
    slots_known: bool,
    /// The number of replies that wait.
    alive: usize,
    /// For each reply, the key of its pipe with its number.
    index: BTreeSet<(u64, u64)>,
    /// Whether all replies are in the index.
    is_indexed: bool,
    /// The mark: replies whose keys are below it are passed over.
    below: u64,
}

impl Model for WaitingReplies {
    ghost use Rattle.std.specs.Prelude.{◌-◌, length, filter};
    ghost use Rattle.std.specs.Vec.{vec_capacity};
    ghost use Rattle.proto_requests.specs.Spots.{held};
    ghost use Rattle.proto_rep.specs.Replies.{RepliesView, AreInRow, is_below};

    ghost Value = { RepliesView };

    ghost view = { λ m. record { items = held m.list.items; passed = filter (is_below m.raw m.below) (held m.list.items); room = vec_capacity m.list - length (held m.list.items) } };

    ghost invariant = { λ m. AreInRow m.raw m.in_order m.next m.slots_known m.by_slot m.is_indexed m.index.keys m.alive (held m.list.items) };
}

// ---- Where one goes

/// Returns whether the pipe is up, and was found full in this turn.
pub fn is_full(ports: &Ports, p: PipeId) -> bool
    ensures { result ≡ not (isnt_full (where_is ports.now.items (Some p))) }
{
    ports.way_to(Some(p)) == Destination::Full
}

// The pipe to which a send may go.
fn target_of(raw: bool, answer: &PendingReply) -> Option<PipeId>
    ensures { result ≡ target_of raw answer.now }
{
    if raw {
        return match first_word(answer.message.header()) {
            None => None,
            Some(p) => Some(PipeId(p)),
        };
    }
    match &answer.source {
        None => None,
        Some(s) => Some(s.pipe),
    }
}

// Where it may go now.
fn way_of(raw: bool, ports: &Ports, answer: &PendingReply) -> Destination
    ensures { result ≡ way_of raw ports.now.items answer.now }
{
    ports.way_to(target_of(raw, answer))
}

// Returns whether its pipe isn't up and full.
fn can_leave(raw: bool, ports: &Ports, w: &WaitingReply) -> bool
    ensures { result ≡ can_leave raw ports.now.items w.now }
{
    way_of(raw, ports, &w.answer) != Destination::Full
}

// The same for a spot.
fn can_leave_at(raw: bool, ports: &Ports, s: &Spot<WaitingReply>) -> bool
    ensures { result ≡ holds (can_leave raw ports.now.items) s.now }
{
    match &s.value {
        None => false,
        Some(w) => can_leave(raw, ports, w),
    }
}

// The place of the first such reply.
fn leaving_place(raw: bool, ports: &Ports, list: &[Spot<WaitingReply>]) -> Option<usize>
    ensures { result ≡ position (holds (can_leave raw ports.now.items)) list.now }
{
    list.iter().position(|s| can_leave_at(raw, ports, s))
}

// The offer for the reply: it goes out, or nowhere.
fn offer_of(raw: bool, ports: &Ports, w: &WaitingReply) -> Offer
    ensures { result ≡ way_offer w.now.op (way_of raw ports.now.items w.now.answer) }
{
    match way_of(raw, ports, &w.answer) {
        Destination::To(pipe) => Offer::Send { op: w.op, pipe },
        Destination::Full => Offer::Idle,
        Destination::Nowhere => Offer::Drop { op: w.op },
    }
}

// The same for the reply at this place.
fn offer_at(raw: bool, ports: &Ports, list: &[Spot<WaitingReply>], place: Option<usize>) -> Offer
    ensures { (P : WaitingReplyType → Bool) → place ≡ position (holds P) list.now → result ≡ reply_offer raw ports.now.items (find P (held list.now)) }
{
    match place {
        None => Offer::Idle,
        Some(i) => {
            if i >= list.len() {
                return Offer::Idle;
            }
            match &list[i].value {
                None => Offer::Idle,
                Some(w) => offer_of(raw, ports, w),
            }
        }
    }
}

// ---- By their pipes

// The pipe as a key.
fn key_of(to: Option<PipeId>) -> u64
    ensures { result ≡ key_of to }
{
    match to {
        None => 0,
        Some(p) => u64::from(p.0) + 1,
    }
}

// The key of the pipe to which it may go.
fn reply_key(raw: bool, answer: &PendingReply) -> u64
    ensures { result ≡ key_of (target_of raw answer.now) }
{
    key_of(target_of(raw, answer))
}

// Returns whether the pipe of this key is up, and was found full in this turn.
fn is_full_key(ports: &Ports, k: u64) -> bool
    ensures full { result ≡ true → IsFullKey ports.now.items k }
    ensures small { result ≡ true → k ≤ 2 ^ 32 }
{
    if k == 0 {
        return false;
    }
    match u32::try_from(k - 1) {
        Err(_) => false,
        Ok(p) => is_full(ports, PipeId(p)),
    }
}

// The lower of the two.
fn lower(a: u64, b: u64) -> u64
    ensures one { result ≤ a }
    ensures other { result ≤ b }
{
    if b < a { b } else { a }
}

// The next number, and whether the numbers still rise.
fn behind(n: u64, in_order: bool) -> (u64, bool)
    ensures { result.1 ≡ true → (in_order ≡ true) × (result.0 ≡ n + 1) }
{
    match n.checked_add(1) {
        None => (n, false),
        Some(m) => (m, in_order),
    }
}

// ---- The index

// Adds the pair to the index. Returns false when out of memory; then the index is empty.
fn put(index: &mut BTreeSet<(u64, u64)>, key: u64, n: u64) -> bool
    ensures it { result ≡ true → has_key key n index.new.keys ≡ true }
    ensures others { result ≡ true → (k m : ℕ) → has_key k m index.old.keys ≡ true → has_key k m index.new.keys ≡ true }
{
    if index.insert((key, n)).is_err() {
        index.clear();
        return false;
    }
    true
}

// Removes the pair from the index.
fn take_key(index: &mut BTreeSet<(u64, u64)>, key: u64, n: u64)
    ensures { (k m : ℕ) → (m ≡ n → ⊥) → has_key k m index.old.keys ≡ true → has_key k m index.new.keys ≡ true }
{
    index.remove(&(key, n));
}

// The first pair from this key on.
fn first_from(index: &BTreeSet<(u64, u64)>, from: u64) -> Option<(u64, u64)>
    ensures { IsLeast from index.now.keys result }
{
    match index.range((from, 0)..).next() {
        None => None,
        Some(x) => Some(*x),
    }
}

/// The end of the keys of full pipes, and the first pair from there on.
struct FirstRoomy {
    below: u64,
    first: Option<(u64, u64)>,
}

// Searches from this key on.
fn first_open(index: &BTreeSet<(u64, u64)>, ports: &Ports, from: u64) -> FirstRoomy
    ensures full { AreFull ports.now.items from result.below index.now.keys }
    ensures first { IsLeast result.below index.now.keys result.first }
{
    let mut below = from;
    while let Some((key, n)) = first_from(index, below) {
        if !is_full_key(ports, key) {
            return FirstRoomy {
                below,
                first: Some((key, n)),
            };
        }
        below = key + 1;
    }
    FirstRoomy { below, first: None }
}

// Adds what is at the spot to the index.
fn put_spot(index: &mut BTreeSet<(u64, u64)>, raw: bool, s: &Spot<WaitingReply>) -> bool
    ensures it { result ≡ true → AreKeyed raw index.new.keys (with_value s.now.value []) }
    ensures others { result ≡ true → (k m : ℕ) → has_key k m index.old.keys ≡ true → has_key k m index.new.keys ≡ true }
{
    match &s.value {
        None => true,
        Some(w) => put(index, reply_key(raw, &w.answer), w.number),
    }
}

// Adds all replies to the index.
fn put_all(index: &mut BTreeSet<(u64, u64)>, raw: bool, list: &[Spot<WaitingReply>]) -> bool
    ensures { result ≡ true → AreKeyed raw index.new.keys (held list.now) }
{
    index.clear();
    for s in list {
        if !put_spot(index, raw, s) {
            return false;
        }
    }
    true
}

// Adds the last reply to the index where `is_indexed` says that all others are in it, and all replies otherwise. None
// are in it where the numbers don't rise.
fn put_last(
    index: &mut BTreeSet<(u64, u64)>,
    raw: bool,
    list: &[Spot<WaitingReply>],
    in_order: bool,
    is_indexed: bool,
    key: u64,
    n: u64,
) -> bool
    ensures order { result ≡ true → in_order ≡ true }
    ensures keys { (ws : List WaitingReplyType) (w : WaitingReplyType) → (is_indexed ≡ true → AreKeyed raw index.old.keys ws) → held list.now ≡ ws ++ w ∷ [] → key ≡ reply_key raw w → n ≡ w.number → result ≡ true → AreKeyed raw index.new.keys (held list.now) }
{
    if !in_order {
        index.clear();
        return false;
    }
    if is_indexed {
        return put(index, key, n);
    }
    put_all(index, raw, list)
}

// Returns whether it has this number, may go to the pipe of this key, and the pipe isn't up and full.
fn is_leaving(raw: bool, ports: &Ports, w: &WaitingReply, key: u64, n: u64) -> bool
    ensures { result ≡ is_leaving raw ports.now.items key n w.now }
{
    w.number == n && reply_key(raw, &w.answer) == key && can_leave(raw, ports, w)
}

// The same for a spot.
fn is_leaving_at(raw: bool, ports: &Ports, s: &Spot<WaitingReply>, key: u64, n: u64) -> bool
    ensures { result ≡ holds (is_leaving raw ports.now.items key n) s.now }
{
    match &s.value {
        None => false,
        Some(w) => is_leaving(raw, ports, w, key, n),
    }
}

// Offers the reply of this number, if it may go to the pipe of this key, and the pipe isn't up and full.
fn offer_by(
    raw: bool,
    ports: &Ports,
    list: &[Spot<WaitingReply>],
    key: u64,
    n: u64,
) -> Option<Offer>
    ensures { (next : ℕ) → AreRising 0 next (held list.now) → IfSome result (OffersIts raw ports.now.items key n (held list.now)) }
{
    let i = hint(list, n);
    if i < list.len() {
        if is_leaving_at(raw, ports, &list[i], key, n) {
            return Some(offer_at(raw, ports, list, Some(i)));
        }
    }
    None
}

// The same for the first one from a mark on. Where there is none, none can leave.
fn offer_first(
    raw: bool,
    ports: &Ports,
    list: &[Spot<WaitingReply>],
    first: Option<(u64, u64)>,
) -> Option<Offer>
    ensures { (below next : ℕ) (ks : List (ℕ × ℕ)) → IsLeast below ks first → AreKeyed raw ks (held list.now) → AreRising 0 next (held list.now) → list_any (can_leave raw ports.now.items) (filter (is_below raw below) (held list.now)) ≡ false → IfSome result (OffersFirst raw ports.now.items (held list.now)) }
{
    match first {
        None => Some(Offer::Idle),
        Some((key, n)) => offer_by(raw, ports, list, key, n),
    }
}

impl WaitingReplies {
    /// No replies, and no room for any.
    pub fn new(alloc: Global, raw: bool) -> WaitingReplies
        ensures items { result.items ≡ [] }
        ensures passed { result.passed ≡ [] }
    {
        WaitingReplies {
            raw,
            list: Vec::new(alloc),
            next: 0,
            in_order: true,
            by_slot: Numbers::new(alloc),
            slots_known: true,
            alive: 0,
            index: BTreeSet::new(alloc),
            is_indexed: true,
            below: 0,
        }
    }

    /// The number of replies that wait.
    pub fn len(&self) -> usize
        ensures { result ≡ length self.now.items }
    {
        self.alive
    }

    /// Makes no reply passed over.
    pub fn pass_none(&mut self)
        ensures items { self.new.items ≡ self.old.items }
        ensures room { self.new.room ≡ self.old.room }
        ensures passed { self.new.passed ≡ [] }
    {
        self.below = 0;
    }

    /// Makes no reply that may go to this pipe passed over.
    pub fn pass_below(&mut self, raw: bool, p: PipeId)
        ensures items { self.new.items ≡ self.old.items }
        ensures room { self.new.room ≡ self.old.room }
        ensures passed { StayPassed self.old self.new }
        ensures none { list_any (is_to raw p) self.new.passed ≡ false }
    {
        if raw != self.raw {
            self.below = 0;
            return;
        }
        self.below = lower(self.below, key_of(Some(p)));
    }

    /// Offers the first of all replies whose pipe isn't up and full: it goes out, or nowhere.
    pub fn next(&mut self, raw: bool, ports: &Ports) -> Offer
        ensures items { self.new.items ≡ self.old.items }
        ensures room { self.new.room ≡ self.old.room }
        ensures stuck { AreStuck raw ports.now.items self.old → AreStuck raw ports.now.items self.new }
        ensures offer { AreStuck raw ports.now.items self.old → OffersFirst raw ports.now.items self.old.items result }
    {
        match self.next_by_key(raw, ports) {
            Some(offer) => offer,
            None => self.search(raw, ports),
        }
    }

    // The same by the index, if all replies are in it.
    fn next_by_key(&mut self, raw: bool, ports: &Ports) -> Option<Offer>
        ensures items { self.new.items ≡ self.old.items }
        ensures room { self.new.room ≡ self.old.room }
        ensures stuck { AreStuck raw ports.now.items self.old → AreStuck raw ports.now.items self.new }
        ensures offer { AreStuck raw ports.now.items self.old → IfSome result (OffersFirst raw ports.now.items self.old.items) }
    {
        if raw != self.raw {
            return None;
        }
        if !self.is_indexed {
            return None;
        }
        let FirstRoomy { below, first } = first_open(&self.index, ports, self.below);
        self.below = below;
        offer_first(raw, ports, &self.list, first)
    }

    // The same by a search.
    fn search(&self, raw: bool, ports: &Ports) -> Offer
        ensures { OffersFirst raw ports.now.items self.now.items result }
    {
        offer_at(
            raw,
            ports,
            &self.list,
            leaving_place(raw, ports, &self.list),
        )
    }

    /// Takes the memory for `more` more replies.
    pub fn reserve(&mut self, more: u32) -> Result<(), NoMemory>
        ensures items { self.new.items ≡ self.old.items }
        ensures passed { StayPassed self.old self.new }
        ensures room { OnOk result (more ≤ self.new.room) }
        ensures kept { self.old.room ≤ self.new.room }
    {
        let more = more as usize;
        match self.list.reserve(more + more) {
            Err(_) => Err(NoMemory),
            Ok(()) => self.by_slot.reserve(more),
        }
    }

    /// Adds a reply, as the last one.
    pub fn push(&mut self, op: OpName, ctx: Ctx, answer: PendingReply)
        requires { 0 < self.old.room }
        ensures items { IsPushed op ctx answer self.old.items self.new.items }
        ensures passed { StayPassed self.old self.new }
        ensures room { self.new.room + 1 ≡ self.old.room }
    {
        let n = self.next;
        let key = reply_key(self.raw, &answer);
        self.slots_known = know(self.slots_known, &mut self.by_slot, op.slot, n);
        self.alive = self.alive.saturating_add(1);
        make_spot(&mut self.list);
        self.list.push_reserved(Spot {
            number: n,
            value: Some(WaitingReply {
                op,
                ctx,
                answer,
                number: n,
            }),
        });
        self.below = lower(self.below, key);
        let (next, in_order) = behind(n, self.in_order);
        self.next = next;
        self.in_order = in_order;
        self.is_indexed = put_last(
            &mut self.index,
            self.raw,
            &self.list,
            in_order,
            self.is_indexed,
            key,
            n,
        );
    }

    // Takes the reply out.
    fn take_out(&mut self, op: OpName) -> Option<WaitingReply>
        ensures found { result ≡ find (is_reply_of op) self.old.items }
        ensures items { self.new.items ≡ without_reply op self.old.items }
        ensures passed { StayPassed self.old self.new }
        ensures len { length self.new.items + length (option_to_list result) ≡ length self.old.items }
        ensures room { self.new.room ≡ self.old.room + length (option_to_list result) }
    {
        match place_by(&self.list, &self.by_slot, self.slots_known, op) {
            None => None,
            Some(i) => match empty(&mut self.list, i) {
                None => None,
                Some(x) => {
                    lose(&mut self.by_slot, op.slot);
                    take_key(&mut self.index, reply_key(self.raw, &x.answer), x.number);
                    self.alive = self.alive.saturating_sub(1);
                    Some(x)
                }
            },
        }
    }

    // When half of the spots are empty, moves the others together.
    fn close_up(&mut self)
        ensures items { self.new.items ≡ self.old.items }
        ensures passed { StayPassed self.old self.new }
        ensures room { self.new.room ≡ self.old.room }
    {
        close_up_sparse(&mut self.list, self.alive);
    }

    /// Takes the reply out.
    pub fn take(&mut self, op: OpName) -> Option<WaitingReply>
        ensures found { result ≡ find (is_reply_of op) self.old.items }
        ensures items { self.new.items ≡ without_reply op self.old.items }
        ensures passed { StayPassed self.old self.new }
        ensures len { length self.new.items + length (option_to_list result) ≡ length self.old.items }
        ensures room { self.new.room ≡ self.old.room + length (option_to_list result) }
    {
        let reply = self.take_out(op);
        self.close_up();
        reply
    }
}
