//! The live requests.
//!
//! They are kept in the order of their begins, each at a spot that is empty when it ends, so that none of the others
//! moves; when no room is left and half of the spots are empty, the others are moved together. A request's context and
//! its id give the number of its spot, and the spot is found from that by halving and then checked. A request that
//! isn't there has no number, and whether one waits for a reply is seen at its spot. The calls here search all spots
//! only once a number wasn't kept, which is rare (`Numbers::put` says when).
ghost use Rattle.std.specs.Prelude.{◌≡◌, ◌≤◌, ◌<◌, ◌+◌, ◌-◌, ◌==◌, ◌++◌, ◌∷◌, ℕ, Bool, [], Some, None, true, false, if◌then◌else◌, find, map, length, is_some, OnOk, IfSome};
ghost use Rattle.std.specs.List.{position, list_any};
ghost use Rattle.std.specs.Option.{option_map};
ghost use Rattle.sp_history.specs.Once.{AreDistinct};
ghost use Rattle.proto_live_requests.specs.declared.live.Live.{Live as LiveType};
ghost use Rattle.proto_requests.specs.Backlogs.{IsIndexed};
ghost use Rattle.proto_live_requests.specs.LiveRequests.{is_live_on, live_ctx, live_id, waits_for, keeps_reply, with_reply, without_live, sent_at, with_kept, with_out, out_of};
ghost use Rattle.proto_requests.specs.Spots.{holds, held, changed};
ghost use Rattle.proto_live_requests.specs.Lives.{is_answered};
ghost use Rattle.proto_live_requests.specs.Dues.{awaited};
ghost use Rattle.proto_requests.specs.Numbers.{number_at, is_known};

use crate::live::{KeptReply, Live};
use proto_requests::numbers::Numbers;
use proto_requests::spots::{Spot, close_up_half, empty, hint};
use sp_base::{Ctx, NoMemory};
use sp_history::parts::LastOut;
use sp_msg::Message;
use std::alloc::Global;
use std::marker::Model;

/// The live requests (nng_req(7)).
#[derive(Drop)]
pub struct Lives {
    /// The requests, in the order of their begins.
    list: Vec<Spot<Live>>,
    /// The number of the next spot.
    next: u64,
    /// The numbers of their spots by their contexts.
    by_ctx: Numbers,
    /// The same, by their ids.
    by_id: Numbers,
    /// Whether all numbers are known, and no two requests are of one context or have one id.
    is_indexed: bool,
    /// The number of live requests.
    alive: usize,
}

impl Model for Lives {
    ghost use Rattle.std.specs.Prelude.{◌-◌};
    ghost use Rattle.std.specs.Vec.{vec_len, vec_capacity};
    ghost use Rattle.proto_requests.specs.Spots.{held};
    ghost use Rattle.proto_live_requests.specs.Lives.{LivesView, AreKept};

    ghost Value = { LivesView };

    ghost view = { λ m. record { items = held m.list.items; room = vec_capacity m.list - vec_len m.list } };

    ghost invariant = { λ m. AreKept m.is_indexed m.by_ctx m.by_id m.alive m.list.items };
}

// ---- Spots

// Returns whether it belongs to this context.
fn is_on(x: &Live, c: Ctx) -> bool
    ensures { result ≡ is_live_on c x.now }
{
    x.ctx.0 == c.0
}

// Returns whether the request of the context is at this spot.
fn stands_on(s: &Spot<Live>, c: Ctx) -> bool
    ensures { result ≡ holds (is_live_on c) s.now }
{
    match &s.value {
        None => false,
        Some(x) => is_on(x, c),
    }
}

// Returns whether a request of the context that keeps a reply is at this spot.
fn replies_on(s: &Spot<Live>, c: Ctx) -> bool
    ensures { result ≡ holds (keeps_reply c) s.now }
{
    match &s.value {
        None => false,
        Some(x) => x.ctx.0 == c.0 && x.reply.is_some(),
    }
}

// Returns whether a request with this id is at this spot.
fn has_id(s: &Spot<Live>, id: u32) -> bool
    ensures { result ≡ holds (λ (x : LiveType). x.id == id) s.now }
{
    match &s.value {
        None => false,
        Some(x) => x.id == id,
    }
}

// Returns whether it waits for a reply with this id.
fn waits(x: &Live, id: u32) -> bool
    ensures { result ≡ waits_for id x.now }
{
    x.id == id && x.last_out.is_some() && x.reply.is_none()
}

// Returns whether a request that waits for it is at this spot.
fn waits_at(s: &Spot<Live>, id: u32) -> bool
    ensures { result ≡ holds (waits_for id) s.now }
{
    match &s.value {
        None => false,
        Some(x) => waits(x, id),
    }
}

// Returns whether a request of the context that keeps a reply is among them.
fn any_reply_on(list: &[Spot<Live>], c: Ctx) -> bool
    ensures { result ≡ list_any (holds (keeps_reply c)) list.now }
{
    list.iter().any(|s| replies_on(s, c))
}

// Returns whether a request with this id is among them.
fn any_id(list: &[Spot<Live>], id: u32) -> bool
    ensures { result ≡ list_any (holds (λ (x : LiveType). x.id == id)) list.now }
{
    list.iter().any(|s| has_id(s, id))
}

// ---- Places

// The place of the request of the context.
fn search_ctx(list: &[Spot<Live>], c: Ctx) -> Option<usize>
    ensures { result ≡ position (holds (is_live_on c)) list.now }
{
    list.iter().position(|s| stands_on(s, c))
}

// The same, where no other is of the context. This place is tried first.
fn place_on(list: &[Spot<Live>], i: usize, c: Ctx) -> Option<usize>
    ensures { AreDistinct (map live_ctx (held list.now)) → result ≡ position (holds (is_live_on c)) list.now }
{
    if i < list.len() {
        if stands_on(&list[i], c) {
            return Some(i);
        }
    }
    search_ctx(list, c)
}

// The same, where its number may be known.
fn ctx_place(list: &[Spot<Live>], by_ctx: &Numbers, known: bool, c: Ctx) -> Option<usize>
    ensures { (known ≡ true → IsIndexed live_ctx (is_known by_ctx.now) (held list.now)) → result ≡ position (holds (is_live_on c)) list.now }
{
    if !known {
        return search_ctx(list, c);
    }
    match by_ctx.get(c.0) {
        None => None,
        Some(n) => place_on(list, hint(list, n), c),
    }
}

// The place of the request that has this id and waits for a reply.
fn search_id(list: &[Spot<Live>], id: u32) -> Option<usize>
    ensures { result ≡ position (holds (waits_for id)) list.now }
{
    list.iter().position(|s| waits_at(s, id))
}

// The same, where no other has the id. This place is tried first: where the one with the id is here but doesn't wait,
// none does.
fn place_of(list: &[Spot<Live>], i: usize, id: u32) -> Option<usize>
    ensures { AreDistinct (map live_id (held list.now)) → result ≡ position (holds (waits_for id)) list.now }
{
    if i < list.len() {
        let s = &list[i];
        if has_id(s, id) {
            if waits_at(s, id) {
                return Some(i);
            }
            return None;
        }
    }
    search_id(list, id)
}

// The same, where its number may be known.
fn id_place(list: &[Spot<Live>], by_id: &Numbers, known: bool, id: u32) -> Option<usize>
    ensures { (known ≡ true → IsIndexed live_id (is_known by_id.now) (held list.now)) → result ≡ position (holds (waits_for id)) list.now }
{
    if !known {
        return search_id(list, id);
    }
    match by_id.get(id) {
        None => None,
        Some(n) => place_of(list, hint(list, n), id),
    }
}

// ---- What is there

// The id of the request at this place.
fn id_at(list: &[Spot<Live>], place: Option<usize>) -> Option<u32>
    ensures { (P : LiveType → Bool) → place ≡ position (holds P) list.now → result ≡ option_map live_id (find P (held list.now)) }
{
    match place {
        None => None,
        Some(i) => {
            if i >= list.len() {
                return None;
            }
            match &list[i].value {
                None => None,
                Some(x) => Some(x.id),
            }
        }
    }
}

/// The context of the request at this place.
pub fn ctx_at(list: &[Spot<Live>], place: Option<usize>) -> Option<Ctx>
    ensures { (P : LiveType → Bool) → place ≡ position (holds P) list.now → result ≡ option_map live_ctx (find P (held list.now)) }
{
    match place {
        None => None,
        Some(i) => {
            if i >= list.len() {
                return None;
            }
            match &list[i].value {
                None => None,
                Some(x) => Some(x.ctx),
            }
        }
    }
}

/// How it went out, if it waits for a reply.
pub fn out_awaited(x: &Live) -> Option<LastOut>
    ensures { result ≡ awaited (Some x.now) }
{
    if x.reply.is_some() {
        return None;
    }
    x.last_out
}

// The same for the request at this place.
fn out_at(list: &[Spot<Live>], place: Option<usize>) -> Option<LastOut>
    ensures { (P : LiveType → Bool) → place ≡ position (holds P) list.now → result ≡ awaited (find P (held list.now)) }
{
    match place {
        None => None,
        Some(i) => {
            if i >= list.len() {
                return None;
            }
            match &list[i].value {
                None => None,
                Some(x) => out_awaited(x),
            }
        }
    }
}

// Returns whether it keeps a reply.
fn is_answered(x: &Live) -> bool
    ensures { result ≡ is_some x.now.reply }
{
    x.reply.is_some()
}

// Returns whether the request at this place keeps a reply.
fn is_answered_at(list: &[Spot<Live>], place: Option<usize>) -> bool
    ensures { (P : LiveType → Bool) → place ≡ position (holds P) list.now → result ≡ is_answered (find P (held list.now)) }
{
    match place {
        None => false,
        Some(i) => {
            if i >= list.len() {
                return false;
            }
            match &list[i].value {
                None => false,
                Some(x) => is_answered(x),
            }
        }
    }
}

// Records that the request at this spot goes out.
fn send_spot(s: &mut Spot<Live>, out: LastOut)
    ensures { s.new ≡ changed (sent_at out) s.old }
{
    match &mut s.value {
        None => {}
        Some(x) => x.last_out = Some(out),
    }
}

// Stores the reply with the request at this spot.
fn answer_spot(s: &mut Spot<Live>, kept: KeptReply)
    ensures { s.new ≡ changed (with_kept kept) s.old }
{
    match &mut s.value {
        None => {}
        Some(x) => x.reply = Some(kept),
    }
}

// Records that the request of the context, which is here, goes out.
fn set_out(list: &mut [Spot<Live>], place: Option<usize>, c: Ctx, out: LastOut)
    requires { place ≡ position (holds (is_live_on c)) list.old }
    ensures held { held list.new ≡ with_out c out (held list.old) }
    ensures len { length list.new ≡ length list.old }
{
    match place {
        None => {}
        Some(i) => send_spot(&mut list[i], out),
    }
}

// Stores the reply with the request with this id, which is here.
fn set_reply(list: &mut [Spot<Live>], place: Option<usize>, id: u32, kept: KeptReply)
    requires { place ≡ position (holds (waits_for id)) list.old }
    ensures held { held list.new ≡ with_reply id kept (held list.old) }
    ensures len { length list.new ≡ length list.old }
{
    match place {
        None => {}
        Some(i) => answer_spot(&mut list[i], kept),
    }
}

// ---- Numbers

// Makes room for the number of one more.
fn make_room(by_ctx: &mut Numbers, by_id: &mut Numbers) -> Result<(), NoMemory>
    ensures ctx { (q : ℕ) → number_at by_ctx.new q ≡ number_at by_ctx.old q }
    ensures id { (q : ℕ) → number_at by_id.new q ≡ number_at by_id.old q }
{
    if by_ctx.reserve(1).is_err() {
        return Err(NoMemory);
    }
    by_id.reserve(1)
}

// Returns whether all numbers are known, if they were, including that of a new request. False where one of its context
// or its id is already known.
fn know(all: bool, by_ctx: &mut Numbers, by_id: &mut Numbers, c: Ctx, id: u32, n: u64) -> bool
    ensures all { result ≡ true → all ≡ true }
    ensures ctx { result ≡ true → (is_known by_ctx.old c ≡ false) × ((q : ℕ) → number_at by_ctx.new q ≡ (if c == q then Some n else number_at by_ctx.old q)) }
    ensures id { result ≡ true → (is_known by_id.old id ≡ false) × ((q : ℕ) → number_at by_id.new q ≡ (if id == q then Some n else number_at by_id.old q)) }
{
    if !all {
        return false;
    }
    if by_ctx.has(c.0) {
        return false;
    }
    if by_id.has(id) {
        return false;
    }
    match by_ctx.put(c.0, n) {
        Err(_) => false,
        Ok(()) => match by_id.put(id, n) {
            Err(_) => false,
            Ok(()) => true,
        },
    }
}

// Removes the request's number.
fn lose(by_ctx: &mut Numbers, by_id: &mut Numbers, c: Ctx, id: u32)
    ensures ctx { (q : ℕ) → number_at by_ctx.new q ≡ (if c == q then None else number_at by_ctx.old q) }
    ensures id { (q : ℕ) → number_at by_id.new q ≡ (if id == q then None else number_at by_id.old q) }
{
    by_ctx.remove(c.0);
    by_id.remove(id);
}

impl Lives {
    /// No live requests.
    pub fn new(alloc: Global) -> Lives
        ensures items { result.items ≡ [] }
    {
        Lives {
            list: Vec::new(alloc),
            next: 0,
            by_ctx: Numbers::new(alloc),
            by_id: Numbers::new(alloc),
            is_indexed: true,
            alive: 0,
        }
    }

    /// The number of live requests.
    pub fn len(&self) -> usize
        ensures { result ≡ length self.now.items }
    {
        self.alive
    }

    /// Returns whether the context has a live request.
    pub fn has(&self, c: Ctx) -> bool
        ensures { result ≡ list_any (is_live_on c) self.now.items }
    {
        if !self.is_indexed {
            return search_ctx(&self.list, c).is_some();
        }
        self.by_ctx.has(c.0)
    }

    /// Returns whether a reply is kept for the context.
    pub fn has_reply(&self, c: Ctx) -> bool
        ensures { result ≡ list_any (keeps_reply c) self.now.items }
    {
        if !self.is_indexed {
            return any_reply_on(&self.list, c);
        }
        is_answered_at(
            &self.list,
            ctx_place(&self.list, &self.by_ctx, self.is_indexed, c),
        )
    }

    /// The id of the request of the context.
    pub fn id_of(&self, c: Ctx) -> Option<u32>
        ensures { result ≡ option_map live_id (find (is_live_on c) self.now.items) }
    {
        id_at(
            &self.list,
            ctx_place(&self.list, &self.by_ctx, self.is_indexed, c),
        )
    }

    /// A copy of what goes out again for the request of the context. Also `None` where there is no memory for it.
    pub fn copy_of(&self, c: Ctx) -> Option<Message>
        ensures { IfSome result (λ m. (x : LiveType) → find (is_live_on c) self.now.items ≡ Some x → m ≡ x.copy) }
    {
        match ctx_place(&self.list, &self.by_ctx, self.is_indexed, c) {
            None => None,
            Some(i) => {
                if i >= self.list.len() {
                    return None;
                }
                match &self.list[i].value {
                    None => None,
                    Some(x) => match x.copy.copy() {
                        Err(_) => None,
                        Ok(copy) => Some(copy),
                    },
                }
            }
        }
    }

    /// Returns whether a request has this id.
    pub fn is_taken(&self, id: u32) -> bool
        ensures { result ≡ list_any (λ (x : LiveType). x.id == id) self.now.items }
    {
        if !self.is_indexed {
            return any_id(&self.list, id);
        }
        self.by_id.has(id)
    }

    /// The spots, in the order of the begins.
    pub fn spots(&self) -> &[Spot<Live>]
        ensures { held result.now ≡ self.now.items }
    {
        &self.list
    }

    /// How the request of the context went out, if it waits for a reply.
    pub fn out_of(&self, c: Ctx) -> Option<LastOut>
        ensures { result ≡ out_of self.now.items c }
    {
        out_at(
            &self.list,
            ctx_place(&self.list, &self.by_ctx, self.is_indexed, c),
        )
    }

    /// Makes room for one more.
    pub fn reserve(&mut self) -> Result<(), NoMemory>
        ensures same { self.new.items ≡ self.old.items }
        ensures room { OnOk result (0 < self.new.room) }
    {
        let _ = close_up_half(&mut self.list, self.alive);
        match self.list.reserve(1) {
            Ok(()) => make_room(&mut self.by_ctx, &mut self.by_id),
            Err(_) => Err(NoMemory),
        }
    }

    /// Adds a live request.
    pub fn push(&mut self, x: Live)
        requires { 0 < self.old.room }
        ensures items { self.new.items ≡ self.old.items ++ x ∷ [] }
    {
        self.is_indexed = know(
            self.is_indexed,
            &mut self.by_ctx,
            &mut self.by_id,
            x.ctx,
            x.id,
            self.next,
        );
        self.alive = self.alive.saturating_add(1);
        self.list.push_reserved(Spot {
            number: self.next,
            value: Some(x),
        });
        self.next = self.next.wrapping_add(1);
    }

    /// Takes out the request of the context.
    pub fn take_live(&mut self, c: Ctx) -> Option<Live>
        ensures found { result ≡ find (is_live_on c) self.old.items }
        ensures rest { self.new.items ≡ without_live c self.old.items }
        ensures len { length self.new.items ≤ length self.old.items }
        ensures room { self.old.room ≤ self.new.room }
    {
        match ctx_place(&self.list, &self.by_ctx, self.is_indexed, c) {
            None => None,
            Some(i) => match empty(&mut self.list, i) {
                None => None,
                Some(x) => {
                    lose(&mut self.by_ctx, &mut self.by_id, x.ctx, x.id);
                    self.alive = self.alive.saturating_sub(1);
                    Some(x)
                }
            },
        }
    }

    /// Records that the request of the context goes out.
    pub fn note_out(&mut self, c: Ctx, out: LastOut)
        ensures items { self.new.items ≡ with_out c out self.old.items }
    {
        let place = ctx_place(&self.list, &self.by_ctx, self.is_indexed, c);
        set_out(&mut self.list, place, c, out);
    }

    /// Keeps the reply for the request that has this id and waits for a reply, if there is one. Returns its context.
    pub fn keep_reply(&mut self, id: u32, kept: KeptReply) -> Option<Ctx>
        ensures ctx { result ≡ option_map live_ctx (find (waits_for id) self.old.items) }
        ensures items { self.new.items ≡ with_reply id kept self.old.items }
    {
        let place = id_place(&self.list, &self.by_id, self.is_indexed, id);
        let ctx = ctx_at(&self.list, place);
        set_reply(&mut self.list, place, id, kept);
        ctx
    }

    /// Removes all requests.
    pub fn clear(&mut self)
        ensures items { self.new.items ≡ [] }
    {
        self.list.clear();
        self.by_ctx.clear();
        self.by_id.clear();
        self.is_indexed = true;
        self.alive = 0;
    }
}
