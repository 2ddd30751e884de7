//! The places of open contexts.
//!
//! They are found by the contexts' numbers, so that one that is shut moves none of the others.
ghost use Rattle.std.specs.Prelude.{◌≡◌, ◌++◌, ◌∷◌, ◌==◌, ℕ, [], None, Some, true, not, IfOk, OnOk, OnErr, filter, map, is_some, if◌then◌else◌};
ghost use Rattle.std.specs.Option.{option_map};
ghost use Rattle.std.specs.List.{list_any, list_all};
ghost use Rattle.sp_history.specs.Lists.{has};
ghost use Rattle.proto_requests.specs.Ordered.{is_before};
ghost use Rattle.proto_rep.specs.Places.{ReplyContext};
ghost use Rattle.proto_rep.specs.Reps.{is_of_context, origin_of, origin_at, ctx_of};

use crate::rep::Source;
use sp_base::{Ctx, NoMemory};
use std::alloc::Global;
use std::collections::BTreeMap;
use std::marker::Model;

/// The places of open contexts (nng_ctx(5)).
#[derive(Drop)]
pub struct Places {
    /// The request that the next send of each context answers, by the contexts' numbers.
    stored: BTreeMap<u32, Option<Source>>,
}

impl Model for Places {
    ghost use Rattle.std.specs.Prelude.{map};
    ghost use Rattle.proto_rep.specs.Places.{PlacesView, place_of};

    ghost Value = { PlacesView };

    ghost view = { λ m. record { items = map place_of m.stored.entries } };
}

impl Places {
    /// The place of context 0.
    pub fn new(alloc: Global) -> Result<Places, NoMemory>
        ensures { IfOk result (λ v. v.items ≡ record { ctx = 0; stored = None } ∷ []) }
    {
        let mut stored = BTreeMap::new(alloc);
        match stored.insert(0, None) {
            Ok(_) => Ok(Places { stored }),
            Err(_) => Err(NoMemory),
        }
    }

    /// Returns whether the context is open.
    pub fn has(&self, c: Ctx) -> bool
        ensures { result ≡ list_any (is_of_context c) self.now.items }
    {
        self.stored.contains_key(&c.0)
    }

    /// Returns whether a request is stored with the context.
    pub fn is_stored(&self, c: Ctx) -> bool
        ensures { result ≡ is_some (origin_at c self.now.items) }
    {
        match self.stored.get(&c.0) {
            None => false,
            Some(stored) => stored.is_some(),
        }
    }

    /// Stores a request with the context.
    pub fn store(&mut self, c: Ctx, source: Source)
        ensures ctxs { map ctx_of self.new.items ≡ map ctx_of self.old.items }
        ensures stored { (d : ℕ) → has (map ctx_of self.old.items) c ≡ true → origin_at d self.new.items ≡ (if c == d then Some (origin_of source) else origin_at d self.old.items) }
    {
        match self.stored.get_mut(&c.0) {
            None => {}
            Some(stored) => *stored = Some(source),
        }
    }

    /// Takes out the request that is stored with the context.
    pub fn unstore(&mut self, c: Ctx) -> Option<Source>
        ensures ctxs { map ctx_of self.new.items ≡ map ctx_of self.old.items }
        ensures result { option_map origin_of result ≡ origin_at c self.old.items }
        ensures stored { (d : ℕ) → origin_at d self.new.items ≡ (if c == d then None else origin_at d self.old.items) }
    {
        match self.stored.get_mut(&c.0) {
            None => None,
            Some(stored) => stored.take(),
        }
    }

    /// Removes the requests that are stored with all contexts.
    pub fn forget_all(&mut self)
        ensures ctxs { map ctx_of self.new.items ≡ map ctx_of self.old.items }
        ensures stored { (d : ℕ) → origin_at d self.new.items ≡ None }
    {
        self.stored.retain(|_, stored| {
            *stored = None;
            true
        });
    }

    // Returns whether the number of the context is above those of all that are open.
    fn is_above_all(&self, c: Ctx) -> bool
        ensures { list_all (is_before ctx_of c) self.now.items ≡ true → result ≡ true }
    {
        match self.stored.last_key_value() {
            None => true,
            Some((last, _)) => *last < c.0,
        }
    }

    /// Opens the context. Its number is above all others; otherwise it isn't the number of a new context. Out of memory
    /// nothing changes.
    pub fn open(&mut self, c: Ctx) -> Result<(), NoMemory>
        ensures more { OnOk result (list_all (is_before ctx_of c) self.old.items ≡ true → self.new.items ≡ self.old.items ++ record { ctx = c; stored = None } ∷ []) }
        ensures same { OnErr result (self.new.items ≡ self.old.items) }
    {
        if !self.is_above_all(c) {
            return Ok(());
        }
        match self.stored.insert(c.0, None) {
            Ok(_) => Ok(()),
            Err(_) => Err(NoMemory),
        }
    }

    /// Removes the context, which is no longer open.
    pub fn close(&mut self, c: Ctx)
        ensures { self.new.items ≡ filter (λ (x : ReplyContext). not (is_of_context c x)) self.old.items }
    {
        // Brings into the proof that the keys are in order.
        let _len = self.stored.len();
        let _ = self.stored.remove(&c.0);
    }
}
