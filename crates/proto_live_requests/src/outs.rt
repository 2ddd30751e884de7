//! What went out, in two orders.
//!
//! The entries are in one set in the order of their time, and in another by their pipes. So what went out first, and
//! what went out on a pipe, is found and taken out in a time logarithmic in their number. Equal entries are one entry.
//! When out of memory the sets are emptied, and nothing is recorded until a `clear`; `dues` then records again what
//! waits for a reply.
ghost use Rattle.std.specs.Prelude.{◌≡◌, [], true, false, drop, length, map, IfNone, IfSome, OnOk};
ghost use Rattle.std.specs.List.{filter, list_any};
ghost use Rattle.sp_history.specs.Lists.{head_of};
ghost use Rattle.proto_requests.specs.Hints.{covers_by};
ghost use Rattle.proto_live_requests.specs.Outs.{AreFrom, AreSince, IsOneLess, IsSet, NoneOn, StaySent, is_entry, piped, timed};
ghost use Rattle.proto_live_requests.specs.LiveRequests.{is_awaited};

use crate::lives::Lives;
use sp_base::{Ctx, NoMemory, PipeId, Tick};
use std::alloc::Global;
use std::collections::BTreeSet;
use std::marker::Model;

/// The pipe on which the request of a context went out, and when (nng_req(7)).
#[derive(Clone, Copy)]
pub struct SentOut {
    pub ctx: Ctx,
    pub pipe: PipeId,
    pub when: Tick,
}

/// What went out. An `add`, a `drop_first` and a `pop_on` cost a logarithm of the number of entries. After an `add`
/// that was out of memory there are no entries until a `clear`.
#[derive(Drop)]
pub struct Outs {
    /// When, on which pipe and for which context.
    by_time: BTreeSet<(u64, u32, u32)>,
    /// The same: on which pipe, for which context and when.
    by_pipe: BTreeSet<(u32, u32, u64)>,
    /// Whether all entries are here.
    is_whole: bool,
}

impl Model for Outs {
    ghost use Rattle.std.specs.Prelude.{map};
    ghost use Rattle.proto_requests.specs.Hints.{HintsView};
    ghost use Rattle.proto_live_requests.specs.declared.outs.SentOut.{SentOut};
    ghost use Rattle.proto_live_requests.specs.Outs.{AreSame, piped, timed};

    ghost Value = { HintsView SentOut };

    ghost view = { λ m. record { whole = m.is_whole; items = map timed m.by_time.keys } };

    ghost invariant = { λ m. AreSame (map timed m.by_time.keys) (map piped m.by_pipe.keys) };
}

/// Returns whether the request waits for a reply since it went out like this.
pub fn is_awaited(live: &Lives, e: &SentOut) -> bool
    ensures { result ≡ is_awaited live.now.items e.now }
{
    match live.out_of(e.ctx) {
        None => false,
        Some(out) => e.pipe.0 == out.pipe.0 && e.when.0 == out.when.0,
    }
}

// ---- Entries of the two sets

fn timed(k: &(u64, u32, u32)) -> SentOut
    ensures { result ≡ timed k.now }
{
    SentOut {
        ctx: Ctx(k.2),
        pipe: PipeId(k.1),
        when: Tick(k.0),
    }
}

fn piped(k: &(u32, u32, u64)) -> SentOut
    ensures { result ≡ piped k.now }
{
    SentOut {
        ctx: Ctx(k.1),
        pipe: PipeId(k.0),
        when: Tick(k.2),
    }
}

fn time_key(e: &SentOut) -> (u64, u32, u32)
    ensures { timed result ≡ e.now }
{
    (e.when.0, e.pipe.0, e.ctx.0)
}

fn pipe_key(e: &SentOut) -> (u32, u32, u64)
    ensures { piped result ≡ e.now }
{
    (e.pipe.0, e.ctx.0, e.when.0)
}

// Adds the entry to both sets. Out of memory it may be in one.
fn put(
    by_time: &mut BTreeSet<(u64, u32, u32)>,
    by_pipe: &mut BTreeSet<(u32, u32, u64)>,
    e: &SentOut,
) -> Result<(), NoMemory>
    ensures time { OnOk result (IsSet true e.now (map timed by_time.old.keys) (map timed by_time.new.keys)) }
    ensures pipe { OnOk result (IsSet true e.now (map piped by_pipe.old.keys) (map piped by_pipe.new.keys)) }
{
    by_time.insert(time_key(e))?;
    by_pipe.insert(pipe_key(e))?;
    Ok(())
}

// The first entry on the pipe, or on one with a larger number.
fn first_from(by_pipe: &BTreeSet<(u32, u32, u64)>, p: u32) -> Option<(u32, u32, u64)>
    ensures member { IfSome result (λ k. list_any (is_entry (piped k)) (map piped by_pipe.now.keys) ≡ true) }
    ensures least { IfSome result (λ k. AreFrom p k.0 (map piped by_pipe.now.keys)) }
    ensures none { IfNone result (NoneOn p (map piped by_pipe.now.keys)) }
{
    match by_pipe.range((p, 0, 0)..).next() {
        None => None,
        Some(k) => Some(*k),
    }
}

// The first entry on the pipe.
fn first_on(by_pipe: &BTreeSet<(u32, u32, u64)>, p: u32) -> Option<(u32, u32, u64)>
    ensures member { IfSome result (λ k. list_any (is_entry (piped k)) (map piped by_pipe.now.keys) ≡ true) }
    ensures on { IfSome result (λ k. k.0 ≡ p) }
    ensures none { IfNone result (NoneOn p (map piped by_pipe.now.keys)) }
{
    let k = first_from(by_pipe, p)?;
    if k.0 == p { Some(k) } else { None }
}

impl Outs {
    /// Before anything went out.
    pub fn new(alloc: Global) -> Outs
        ensures { result ≡ record { whole = true; items = [] } }
    {
        Outs {
            by_time: BTreeSet::new(alloc),
            by_pipe: BTreeSet::new(alloc),
            is_whole: true,
        }
    }

    /// Returns whether all that went out is here.
    pub fn is_whole(&self) -> bool
        ensures { result ≡ self.now.whole }
    {
        self.is_whole
    }

    /// The number of entries.
    pub fn len(&self) -> usize
        ensures { result ≡ length self.now.items }
    {
        self.by_time.len()
    }

    /// Adds one that went out. Takes memory; without memory there are no entries from then on, and nothing is recorded
    /// any more.
    pub fn add(&mut self, e: SentOut)
        ensures more { covers_by self.new (is_entry e) ≡ true }
        ensures same { StaySent self.old self.new }
    {
        if !self.is_whole {
            return;
        }
        if put(&mut self.by_time, &mut self.by_pipe, &e).is_err() {
            self.by_time.clear();
            self.by_pipe.clear();
            self.is_whole = false;
        }
    }

    /// The one that went out first.
    pub fn first(&self) -> Option<SentOut>
        ensures first { result ≡ head_of self.now.items }
        ensures least { IfSome result (λ e. AreSince e.when self.now.items) }
    {
        match self.by_time.first() {
            None => None,
            Some(k) => Some(timed(k)),
        }
    }

    /// Removes the one that went out first.
    pub fn drop_first(&mut self)
        ensures { self.new ≡ record { whole = self.old.whole; items = drop 1 self.old.items } }
    {
        if let Some((when, pipe, ctx)) = self.by_time.pop_first() {
            self.by_pipe.remove(&(pipe, ctx, when));
        }
    }

    /// Takes out one that went out on the pipe, and returns its context.
    pub fn pop_on(&mut self, p: PipeId) -> Option<Ctx>
        ensures whole { self.new.whole ≡ self.old.whole }
        ensures one { IfSome result (λ c. IsOneLess p c self.old.items self.new.items) }
        ensures none { IfNone result (NoneOn p self.old.items) }
        ensures same { IfNone result (self.new ≡ self.old) }
    {
        let (pipe, ctx, when) = first_on(&self.by_pipe, p.0)?;
        self.by_pipe.remove(&(pipe, ctx, when));
        self.by_time.remove(&(when, pipe, ctx));
        Some(Ctx(ctx))
    }

    /// Keeps only those that wait for a reply. Takes no memory.
    pub fn keep_awaited(&mut self, live: &Lives)
        ensures whole { self.new.whole ≡ self.old.whole }
        ensures kept { self.new.items ≡ filter (is_awaited live.now.items) self.old.items }
    {
        self.by_time.retain(|k| is_awaited(live, &timed(k)));
        self.by_pipe.retain(|k| is_awaited(live, &piped(k)));
    }

    /// Removes all: nothing that went out needs to be looked at.
    pub fn clear(&mut self)
        ensures { self.new ≡ record { whole = true; items = [] } }
    {
        self.by_time.clear();
        self.by_pipe.clear();
        self.is_whole = true;
    }
}
