//! The open contexts of a req.
//!
//! They are found by the contexts' numbers, so shutting one moves none of the others. Each has the number of the tick
//! in which there was no memory for a copy for it, so that a new tick writes nothing to them.
ghost use Rattle.std.specs.Prelude.{◌≡◌, ◌++◌, ◌∷◌, ◌==◌, [], true, false, not, IfOk, OnOk, OnErr, filter, map};
ghost use Rattle.std.specs.List.{list_any, list_all};
ghost use Rattle.proto_requests.specs.Ordered.{is_before};
ghost use Rattle.proto_live_requests.specs.ReqContexts.{ReqContextView};
ghost use Rattle.proto_live_requests.specs.LiveRequests.{context_number, dry_at, dried, wetted};

use sp_base::{Ctx, NoMemory};
use std::alloc::Global;
use std::collections::BTreeMap;
use std::marker::Model;

/// The open contexts of a req (nng_ctx(5)).
#[derive(Drop)]
pub struct ReqContexts {
    /// By the contexts' numbers: the tick in which there was last no memory for a copy of the context's request, or 0.
    dry_in: BTreeMap<u32, u64>,
    /// The number of this tick, from 1.
    tick: u64,
}

impl Model for ReqContexts {
    ghost use Rattle.std.specs.Prelude.{map};
    ghost use Rattle.proto_live_requests.specs.ReqContexts.{ReqContextsView, AreByTick, context_in};

    ghost Value = { ReqContextsView };

    ghost view = { λ m. record { items = map (context_in m.tick) m.dry_in.entries } };

    ghost invariant = { λ m. AreByTick m.tick m.dry_in.entries };
}

impl ReqContexts {
    /// Only context 0.
    pub fn new(alloc: Global) -> Result<ReqContexts, NoMemory>
        ensures { IfOk result (λ v. v.items ≡ record { ctx = 0; is_dry = false } ∷ []) }
    {
        let mut dry_in = BTreeMap::new(alloc);
        match dry_in.insert(0, 0) {
            Ok(_) => Ok(ReqContexts { dry_in, tick: 1 }),
            Err(_) => Err(NoMemory),
        }
    }

    /// Returns whether the context is open.
    pub fn has(&self, c: Ctx) -> bool
        ensures { result ≡ list_any (λ (s : ReqContextView). s.ctx == c) self.now.items }
    {
        self.dry_in.contains_key(&c.0)
    }

    /// Returns whether there was no memory for a copy for the context since the last tick.
    pub fn is_dry(&self, c: Ctx) -> bool
        ensures { result ≡ dry_at c self.now.items }
    {
        // Brings into the proof that the keys are in order.
        let _len = self.dry_in.len();
        match self.dry_in.get(&c.0) {
            None => false,
            Some(dry_in) => *dry_in == self.tick,
        }
    }

    /// Records that there is no memory for a copy for the context.
    pub fn dry(&mut self, c: Ctx)
        ensures { self.new.items ≡ map (dried c) self.old.items }
    {
        let tick = self.tick;
        match self.dry_in.get_mut(&c.0) {
            None => {}
            Some(dry_in) => *dry_in = tick,
        }
    }

    /// Makes no context dry: each may be tried again.
    pub fn wet(&mut self)
        ensures { self.new.items ≡ map wetted self.old.items }
    {
        if self.tick < u64::MAX {
            self.tick += 1;
            return;
        }
        self.dry_in.retain(|_, dry_in| {
            *dry_in = 0;
            true
        });
        self.tick = 1;
    }

    // Returns whether the number of the context is above those of all that are open.
    fn is_above_all(&self, c: Ctx) -> bool
        ensures { list_all (is_before context_number c) self.now.items ≡ true → result ≡ true }
    {
        match self.dry_in.last_key_value() {
            None => true,
            Some((last, _)) => *last < c.0,
        }
    }

    /// Opens the context. Its number is above all others; otherwise it isn't the number of a new context. Out of memory
    /// nothing changes.
    pub fn open(&mut self, c: Ctx) -> Result<(), NoMemory>
        ensures more { OnOk result (list_all (is_before context_number c) self.old.items ≡ true → self.new.items ≡ self.old.items ++ record { ctx = c; is_dry = false } ∷ []) }
        ensures same { OnErr result (self.new.items ≡ self.old.items) }
    {
        if !self.is_above_all(c) {
            return Ok(());
        }
        match self.dry_in.insert(c.0, 0) {
            Ok(_) => Ok(()),
            Err(_) => Err(NoMemory),
        }
    }

    /// Removes the context, which is no longer open.
    pub fn close(&mut self, c: Ctx)
        ensures { self.new.items ≡ filter (λ (s : ReqContextView). not (s.ctx == c)) self.old.items }
    {
        // Brings into the proof that the keys are in order.
        let _len = self.dry_in.len();
        let _ = self.dry_in.remove(&c.0);
    }
}
