//! The live requests that are looked at because they may be due.
//!
//! What went out is found in the order of its time and by its pipe (`outs`), so a tick and a pipe that goes down take
//! out only what they look at. Once its time has come, or its pipe is down, its context is looked at before the next
//! request goes out again. A context for which there was no memory for a copy is looked at again after the next tick.
//! What is left of requests that ended is dropped by a pass over all that went out, once there are about twice as many
//! entries as live requests; afterwards there are no more entries than live requests. The contexts that may be due are
//! replaced by those of all live requests once there are more of them than about twice the spots of the live requests
//! (`lives`), so that a pass over the spots costs no more than what it drops.
//!
//! Where there is no memory to record what goes out, all of it is forgotten, and the next begin of a send records it
//! again: an entry for each live request that waits for a reply. If there is no memory for this either, the next try
//! comes only after as many begins as there are spots of live requests, so that a begin pays for one of them on
//! average. Until one succeeds, a tick and a pipe that goes down have all live requests looked at, each of them once.
//! Where the contexts that may be due are not known, since there was no room for one, a begin lists those of all live
//! requests.
ghost use Rattle.std.specs.Prelude.{◌≡◌, ◌==◌, ◌+◌, ℕ, List, [], Some, true, false, nat_le, drop};
ghost use Rattle.std.specs.List.{list_any};
ghost use Rattle.sp_history.specs.Lists.{head_of};
ghost use Rattle.proto_requests.specs.Hints.{covers, covers_by, StayAmong};
ghost use Rattle.proto_requests.specs.Spots.{holds};
ghost use Rattle.proto_live_requests.specs.declared.live.Live.{Live as LiveType};
ghost use Rattle.sp_history.specs.declared.parts.LastOut.{LastOut as LastOutType};
ghost use Rattle.proto_live_requests.specs.Outs.{KeepOthers, StaySent, is_sent};
ghost use Rattle.proto_live_requests.specs.Dues.{LookAtAll, StaySeen, NotesDry, is_past, waits_so};
ghost use Rattle.proto_live_requests.specs.LiveRequests.{OnePerContext, KeepAwaited, LookAtPast, NotesOut, SeeLater, StayAmongLive, is_awaited, is_live_on, out_of};

use crate::live::Live;
use crate::lives::{Lives, out_awaited};
use crate::outs::{Outs, SentOut, is_awaited};
use proto_requests::hints::Hints;
use proto_requests::spots::Spot;
use sp_base::{Ctx, NoMemory, PipeId, Tick};
use std::alloc::Global;
use std::marker::Model;

/// What may be due.
#[derive(Drop)]
pub struct Dues {
    /// The contexts of requests that may be due.
    due: Hints<u32>,
    /// Those of requests that were due when there was no memory for a copy.
    dry: Hints<u32>,
    /// What went out.
    outs: Outs,
    /// How many begins pass before what went out is recorded again.
    pause: usize,
}

impl Model for Dues {
    ghost use Rattle.proto_live_requests.specs.Dues.{DuesView};

    ghost Value = { DuesView };

    ghost view = { λ m. record { due = m.due; dry = m.dry; outs = m.outs } };
}

/// Returns whether it went out at least `resend` milliseconds ago.
pub fn is_past(when: Tick, now: Tick, resend: u64) -> bool
    ensures { result ≡ nat_le (when + resend) now }
{
    when.0 <= now.0 && now.0 - when.0 >= resend
}

// ---- What went out

// Drops what waits for no reply, if there are more than `many` entries.
fn shorten(outs: &mut Outs, live: &Lives, many: usize)
    ensures { KeepAwaited live.now.items outs.old outs.new }
{
    if outs.len() / 2 > many {
        outs.keep_awaited(live);
    }
}

// Records the request at this spot, if it waits for a reply.
fn note_spot(outs: &mut Outs, s: &Spot<Live>)
    ensures it { (c : ℕ) (o : LastOutType) → holds (waits_so c o) s.now ≡ true → covers_by outs.new (is_sent c o) ≡ true }
    ensures more { StaySent outs.old outs.new }
{
    match &s.value {
        None => {}
        Some(x) => match out_awaited(x) {
            None => {}
            Some(out) => outs.add(SentOut {
                ctx: x.ctx,
                pipe: out.pipe,
                when: out.when,
            }),
        },
    }
}

// Records the requests at these spots that wait for a reply.
fn note_spots(outs: &mut Outs, list: &[Spot<Live>])
    ensures { (c : ℕ) (o : LastOutType) → list_any (holds (waits_so c o)) list.now ≡ true → covers_by outs.new (is_sent c o) ≡ true }
{
    for s in list {
        note_spot(outs, s);
    }
}

// Records what waits for a reply, in place of what was recorded before.
fn note_live(outs: &mut Outs, live: &Lives)
    ensures { (c : ℕ) (o : LastOutType) → out_of live.now.items c ≡ Some o → covers_by outs.new (is_sent c o) ≡ true }
{
    outs.clear();
    note_spots(outs, live.spots());
}

// The same, where not all that went out is known. Where there is no memory for it, as many begins pass before the next
// try as there are spots.
fn renew(outs: &mut Outs, pause: &mut usize, live: &Lives)
    ensures { KeepAwaited live.now.items outs.old outs.new }
{
    if outs.is_whole() {
        return;
    }
    if *pause > 0 {
        *pause -= 1;
        return;
    }
    note_live(outs, live);
    if !outs.is_whole() {
        *pause = live.spots().len();
    }
}

// ---- Contexts that are looked at

// Makes all contexts looked at, if there are more than `many`.
fn limit(contexts: &mut Hints<u32>, many: usize)
    ensures { StayAmong contexts.old contexts.new }
{
    if contexts.len() / 2 > many {
        contexts.give_up();
    }
}

// Makes the request at this spot looked at.
fn look_at_spot(due: &mut Hints<u32>, s: &Spot<Live>)
    ensures it { (q : ℕ) → holds (is_live_on q) s.now ≡ true → covers due.new q ≡ true }
    ensures more { StayAmong due.old due.new }
{
    match &s.value {
        None => {}
        Some(x) => due.add(x.ctx.0),
    }
}

// Makes the requests at these spots looked at.
fn look_at_spots(due: &mut Hints<u32>, list: &[Spot<Live>])
    ensures { (q : ℕ) → list_any (holds (is_live_on q)) list.now ≡ true → covers due.new q ≡ true }
{
    for s in list {
        look_at_spot(due, s);
    }
}

// Makes the contexts of all live requests looked at, in place of the earlier ones. There is room for them.
fn look_at_live(due: &mut Hints<u32>, live: &Lives)
    ensures { (q : ℕ) → list_any (is_live_on q) live.now.items ≡ true → covers due.new q ≡ true }
{
    due.clear();
    look_at_spots(due, live.spots());
}

// The same, where all are looked at, or more than about twice the spots of the live requests.
fn refill(due: &mut Hints<u32>, live: &Lives)
    ensures { StayAmongLive live.now.items due.old due.new }
{
    if !due.is_whole() || due.len() / 2 > live.spots().len() {
        look_at_live(due, live);
    }
}

// The same, where not all that went out is known.
fn look_at_all(due: &mut Hints<u32>, live: &Lives, known: bool)
    ensures all { known ≡ false → (q : ℕ) → list_any (is_live_on q) live.now.items ≡ true → covers due.new q ≡ true }
    ensures more { StayAmongLive live.now.items due.old due.new }
{
    if !known {
        look_at_live(due, live);
    }
}

// Makes the context looked at, if its request waits for a reply since it went out like this.
fn look_if_awaited(due: &mut Hints<u32>, live: &Lives, e: &SentOut)
    ensures it { is_awaited live.now.items e.now ≡ true → covers due.new e.now.ctx ≡ true }
    ensures more { StayAmong due.old due.new }
{
    if is_awaited(live, e) {
        due.add(e.ctx.0);
    }
}

// Makes the contexts looked at whose time has come.
fn look_at_late(outs: &mut Outs, due: &mut Hints<u32>, live: &Lives, now: Tick, resend: u64)
    ensures whole { outs.new.whole ≡ outs.old.whole }
    ensures kept { KeepOthers (is_past resend now) outs.old outs.new }
    ensures late { LookAtPast (is_past resend now) live.now.items outs.old due.new }
    ensures more { StayAmong due.old due.new }
{
    while let Some(e) = outs.first() {
        if !is_past(e.when, now, resend) {
            return;
        }
        outs.drop_first();
        look_if_awaited(due, live, &e);
    }
}

// Makes the contexts looked at whose requests went out on the pipe.
fn look_at_down(outs: &mut Outs, due: &mut Hints<u32>, p: PipeId)
    ensures whole { outs.new.whole ≡ outs.old.whole }
    ensures kept { KeepOthers (λ o. o.pipe == p) outs.old outs.new }
    ensures down { LookAtAll (λ o. o.pipe == p) outs.old.items due.new }
    ensures more { StayAmong due.old due.new }
{
    while let Some(c) = outs.pop_on(p) {
        due.add(c.0);
    }
}

// Makes room to look at `more` more contexts, and at all that went out.
fn make_room(
    due: &mut Hints<u32>,
    dry: &mut Hints<u32>,
    outs: &Outs,
    more: usize,
) -> Result<(), NoMemory>
    ensures due { due.new ≡ due.old }
    ensures dry { dry.new ≡ dry.old }
{
    due.reserve(more.saturating_add(outs.len()))?;
    dry.reserve(more)
}

impl Dues {
    /// Before anything went out.
    pub fn new(alloc: Global) -> Dues {
        Dues {
            due: Hints::new(alloc),
            dry: Hints::new(alloc),
            outs: Outs::new(alloc),
            pause: 0,
        }
    }

    /// Makes room for one more live request. Where not all that went out is known, tries to record it again.
    pub fn reserve(&mut self, live: &Lives) -> Result<(), NoMemory>
        ensures { OnePerContext live.now.items → StaySeen self.old self.new live.now.items }
    {
        let many = live.len();
        renew(&mut self.outs, &mut self.pause, live);
        refill(&mut self.due, live);
        limit(&mut self.dry, many);
        let more = many.saturating_add(2);
        make_room(&mut self.due, &mut self.dry, &self.outs, more)
    }

    /// Drops what is left of requests that ended, where there is more of it than live requests. Takes no memory.
    pub fn shorten(&mut self, live: &Lives)
        ensures { OnePerContext live.now.items → StaySeen self.old self.new live.now.items }
    {
        shorten(&mut self.outs, live, live.len());
    }

    /// Records that the request of the context goes out. Where there is no memory for this, all live requests are
    /// looked at later, until a begin records again what went out.
    pub fn note_out(&mut self, c: Ctx, pipe: PipeId, when: Tick)
        ensures { (xs : List LiveType) → NotesOut self.old self.new xs c (record { pipe = pipe; when = when }) }
    {
        self.outs.add(SentOut { ctx: c, pipe, when });
    }

    /// Records that there is no memory for a copy for the context.
    pub fn note_dry(&mut self, c: Ctx)
        ensures { NotesDry self.old self.new c }
    {
        self.dry.add(c.0);
    }

    /// Records a tick: what has become late is looked at, and no context is dry any more.
    pub fn tick(&mut self, live: &Lives, now: Tick, resend: u64)
        ensures { SeeLater self.old self.new (λ o. is_past resend now o ≡ true) (λ dry q. false) live.now.items }
    {
        self.due.take_over(&mut self.dry);
        look_at_late(&mut self.outs, &mut self.due, live, now, resend);
        look_at_all(&mut self.due, live, self.outs.is_whole());
    }

    /// Records that the pipe is down: what went out on it is looked at.
    pub fn down(&mut self, live: &Lives, p: PipeId)
        ensures { SeeLater self.old self.new (λ o. o.pipe ≡ p) (λ dry. dry) live.now.items }
    {
        look_at_all(&mut self.due, live, self.outs.is_whole());
        look_at_down(&mut self.outs, &mut self.due, p);
    }

    /// Returns whether the contexts of all that may be due are among those that are looked at.
    pub fn is_whole(&self) -> bool
        ensures { result ≡ self.now.due.whole }
    {
        self.due.is_whole()
    }

    /// The first context that is looked at.
    pub fn first(&self) -> Option<Ctx>
        ensures { result ≡ head_of self.now.due.items }
    {
        match self.due.first() {
            None => None,
            Some(c) => Some(Ctx(c)),
        }
    }

    /// Removes the first context.
    pub fn drop_first(&mut self)
        ensures { self.new ≡ record self.old { due = record { whole = self.old.due.whole; items = drop 1 self.old.due.items } } }
    {
        self.due.drop_first();
    }

    /// Removes all contexts: none is due.
    pub fn clear_due(&mut self)
        ensures { self.new ≡ record self.old { due = record { whole = true; items = [] } } }
    {
        self.due.clear();
    }

    /// Removes all: no request is live any more.
    pub fn clear(&mut self)
        ensures { self.new.dry ≡ self.old.dry }
    {
        self.due.clear();
        self.outs.clear();
    }
}
