//! What a req offers: what can be given, what goes out, and which requests are due again.
//!
//! A look begins with what the hints name (`ready`, `dues`, and the ended operations of `waiting`); where the hints are
//! incomplete, everything is searched, which completes them again if nothing is found.
//!
//! What goes out is offered to a roomy pipe first: one that had room when it was last asked, was not asked yet, or is
//! to be tried again. Where the next of these can't be taken, or none is roomy, it is offered to the next of all pipes.
ghost use Rattle.std.specs.Prelude.{◌≡◌, ◌<◌, ◌-◌, ◌&&◌, ◌||◌, ℕ, None, Some, IfSome, IfNone, false, true, not, find, nat_lt};
ghost use Rattle.std.specs.Option.{option_map};
ghost use Rattle.std.specs.List.{position, list_any};
ghost use Rattle.sp_base.specs.declared.OpName.{OpName};
ghost use Rattle.sp_history.specs.Lists.{head_of};
ghost use Rattle.proto_reqrep.specs.declared.req.Asking.{Asking as AskingType};
ghost use Rattle.proto_requests.specs.Spots.{holds};
ghost use Rattle.proto_requests.specs.Waits.{IsOver};
ghost use Rattle.proto_live_requests.specs.LiveRequests.{live_ctx, OnePerContext, out_of};
ghost use Rattle.proto_reqrep.specs.Reqs.{is_due, gets, ReadyAmong, NoneDue, IsGift, is_given, is_late, IsSeen, IsDueOn, IsOut, due_in, is_due_out, next_of, roomy_port, chosen_port};

use crate::req::{Asking, Request, next_ready};
use proto_live_requests::dues::is_past;
use proto_live_requests::live::Live;
use proto_live_requests::lives::ctx_at;
use proto_requests::ports::Destination;
use proto_requests::spots::Spot;
use proto_requests::waits::name_at;
use sp_base::{Ctx, OpName, PipeId};
use sp_history::parts::LastOut;
use sp_proto::Offer;
use std::collections::BTreeSet;
use std::ops::Bound;

// The first of the numbers after this one.
fn first_behind(roomy: &BTreeSet<u32>, last: PipeId) -> Option<PipeId>
    ensures { result ≡ find (nat_lt last) roomy.now.keys }
{
    match roomy
        .range((Bound::Excluded(last.0), Bound::Unbounded))
        .next()
    {
        None => None,
        Some(p) => Some(PipeId(*p)),
    }
}

// The first of the numbers.
fn first_of_all(roomy: &BTreeSet<u32>) -> Option<PipeId>
    ensures { result ≡ head_of roomy.now.keys }
{
    match roomy.first() {
        None => None,
        Some(p) => Some(PipeId(*p)),
    }
}

// The first of the numbers after this one, or else the first of all.
fn next_roomy(roomy: &BTreeSet<u32>, last: PipeId) -> Option<PipeId>
    ensures { result ≡ next_of last roomy.now.keys }
{
    match first_behind(roomy, last) {
        Some(p) => Some(p),
        None => first_of_all(roomy),
    }
}

impl Request {
    // Returns whether a message can be given to a receive of the context.
    pub(crate) fn gives(&self, c: Ctx) -> bool
        ensures { result ≡ is_given self.now.raw self.now.kept.items self.now.live.items c }
    {
        if self.raw {
            return !self.kept.is_empty();
        }
        self.live.has_reply(c)
    }

    // Returns whether a receive is there that can be given a message.
    fn gives_at(&self, s: &Spot<Asking>) -> bool
        ensures { result ≡ holds (gets self.now) s.now }
    {
        match &s.value {
            None => false,
            Some(w) => w.message.is_none() && self.gives(w.ctx),
        }
    }

    // The place of the first receive that can be given a message.
    fn give_place(&self, list: &[Spot<Asking>]) -> Option<usize>
        ensures { result ≡ position (holds (gets self.now)) list.now }
    {
        list.iter().position(|s| self.gives_at(s))
    }

    // An operation whose request has ended.
    pub(crate) fn next_left(&mut self) -> Option<OpName>
        ensures same { self.new ≡ self.old }
        ensures over { IfSome result (λ op. IsOver (λ (w : AskingType). w.op) (λ (w : AskingType). w.is_orphan) self.old.waiting.items op) }
        ensures none { IfNone result (list_any (λ (w : AskingType). w.is_orphan) self.old.waiting.items ≡ false) }
    {
        self.waiting.first_left()
    }

    // The next of the roomy pipes after that of the last Out, in the round of their numbers, if it is up and not full.
    fn roomy_port(&self) -> Option<PipeId>
        ensures { result ≡ roomy_port self.now }
    {
        match self.ports.way_to(next_roomy(&self.roomy, self.last_pipe)) {
            Destination::To(p) => Some(p),
            Destination::Full => None,
            Destination::Nowhere => None,
        }
    }

    // That pipe, or else the next of all pipes after that of the last Out that is not full.
    pub(crate) fn next_port(&mut self) -> Option<PipeId>
        ensures same { self.new ≡ self.old }
        ensures port { result ≡ chosen_port self.old }
    {
        match self.roomy_port() {
            Some(p) => Some(p),
            None => self.ports.free_port(self.last_pipe),
        }
    }

    // A receive that can be given a message, found by a search of all.
    fn search_give(&mut self) -> Option<OpName>
        ensures same { self.new ≡ record self.old { ready = self.new.ready } }
        ensures ready { self.old.raw ≡ false → ReadyAmong self.old self.old.ready → ReadyAmong self.old self.new.ready }
        ensures given { IfSome result (λ op. IsGift self.old op) }
        ensures none { self.old.raw ≡ false → IfNone result (find (gets self.old) self.old.waiting.items ≡ None) }
    {
        let list = self.waiting.receives();
        match name_at(list, self.give_place(list)) {
            None => {
                self.ready.clear();
                None
            }
            Some(op) => Some(op),
        }
    }

    // The first receive of a raw req, if a message is kept.
    fn raw_give(&self) -> Option<OpName>
        ensures { self.now.raw ≡ true → result ≡ option_map (λ (w : AskingType). w.op) (find (gets self.now) self.now.waiting.items) }
    {
        if self.kept.is_empty() {
            return None;
        }
        self.waiting.first_receive()
    }

    // A receive that can be given a message.
    pub(crate) fn next_give(&mut self) -> Option<OpName>
        ensures same { self.new ≡ record self.old { ready = self.new.ready } }
        ensures ready { ReadyAmong self.old self.old.ready → ReadyAmong self.old self.new.ready }
        ensures given { IfSome result (λ op. IsGift self.old op) }
        ensures none { ReadyAmong self.old self.old.ready → IfNone result (find (gets self.old) self.old.waiting.items ≡ None) }
    {
        if self.raw {
            return self.raw_give();
        }
        if !self.ready.is_whole() {
            return self.search_give();
        }
        next_ready(&mut self.ready, &self.live, &self.waiting)
    }

    // Returns whether the live request may go out again.
    fn is_due(&self, x: &Live) -> bool
        ensures { result ≡ is_due self.now.options.resend self.now.tick self.now.ports.items self.now.contexts.items x.now }
    {
        if x.reply.is_some() {
            return false;
        }
        match x.last_out {
            None => false,
            Some(out) => self.is_late(out) && !self.contexts.is_dry(x.ctx),
        }
    }

    // Returns whether its pipe is down, or it went out too long ago.
    fn is_late(&self, out: LastOut) -> bool
        ensures { result ≡ is_late self.now.options.resend self.now.tick self.now.ports.items out }
    {
        !self.ports.is_up(out.pipe) || is_past(out.when, self.tick, self.options.resend)
    }

    // Returns whether a live request is there that may go out again.
    fn is_due_at(&self, s: &Spot<Live>) -> bool
        ensures { result ≡ holds (is_due self.now.options.resend self.now.tick self.now.ports.items self.now.contexts.items) s.now }
    {
        match &s.value {
            None => false,
            Some(x) => self.is_due(x),
        }
    }

    // The place of the first of these that may go out again.
    fn due_among(&self, list: &[Spot<Live>]) -> Option<usize>
        ensures { result ≡ position (holds (is_due self.now.options.resend self.now.tick self.now.ports.items self.now.contexts.items)) list.now }
    {
        list.iter().position(|s| self.is_due_at(s))
    }

    // Returns whether the live request of the context may go out again.
    fn is_due_on(&self, c: Ctx) -> bool
        ensures { result ≡ is_due_out self.now (out_of self.now.live.items c) c }
    {
        match self.live.out_of(c) {
            None => false,
            Some(out) => self.is_late(out) && !self.contexts.is_dry(c),
        }
    }

    // The context of a live request that may go out again. Those before it are no longer looked at.
    fn next_looked(&mut self) -> Option<Ctx>
        ensures same { self.new ≡ record self.old { dues = self.new.dues } }
        ensures seen { (last : ℕ) → OnePerContext self.old.live.items → IsSeen self.old last → IsSeen self.new last }
        ensures due { IfSome result (λ c. is_due_out self.old (out_of self.old.live.items c) c ≡ true) }
        ensures none { (last : ℕ) → OnePerContext self.old.live.items → IsSeen self.old last → self.old.dues.due.whole ≡ true → IfNone result (NoneDue self.old) }
    {
        while let Some(c) = self.dues.first() {
            if self.is_due_on(c) {
                return Some(c);
            }
            self.dues.drop_first();
        }
        None
    }

    // The same, found by a search of all.
    fn search_due(&mut self) -> Option<Ctx>
        ensures same { self.new ≡ record self.old { dues = self.new.dues } }
        ensures seen { (last : ℕ) → IsSeen self.old last → IsSeen self.new last }
        ensures due { IfSome result (λ c. option_map live_ctx (find (due_in self.old) self.old.live.items) ≡ Some c) }
        ensures none { IfNone result (NoneDue self.old) }
    {
        let list = self.live.spots();
        match ctx_at(list, self.due_among(list)) {
            None => {
                self.dues.clear_due();
                None
            }
            Some(c) => Some(c),
        }
    }

    // The same. All are searched only where not all that may be due are looked at.
    fn next_due(&mut self) -> Option<Ctx>
        ensures same { self.new ≡ record self.old { dues = self.new.dues } }
        ensures seen { (last : ℕ) → OnePerContext self.old.live.items → IsSeen self.old last → IsSeen self.new last }
        ensures due { OnePerContext self.old.live.items → IfSome result (λ c. IsDueOn self.old c) }
        ensures none { (last : ℕ) → OnePerContext self.old.live.items → IsSeen self.old last → IfNone result (NoneDue self.old) }
    {
        if !self.dues.is_whole() {
            return self.search_due();
        }
        self.next_looked()
    }

    // What can go out on this pipe: the first send, or a request that is due again.
    pub(crate) fn next_out(&mut self, pipe: PipeId) -> Offer
        ensures same { self.new ≡ record self.old { dues = self.new.dues } }
        ensures seen { (last : ℕ) → OnePerContext self.old.live.items → IsSeen self.old last → IsSeen self.new last }
        ensures offer { (last : ℕ) → OnePerContext self.old.live.items → IsSeen self.old last → IsOut self.old pipe result }
    {
        match self.waiting.first_send() {
            Some(op) => Offer::Send { op, pipe },
            None => match self.next_due() {
                None => Offer::Idle,
                Some(ctx) => Offer::Again { ctx, pipe },
            },
        }
    }
}
