//! The open contexts of a surveyor.
//!
//! They are found by the contexts' numbers, so that one that is shut moves none of the others. Each has the id of its
//! last survey, from which the place of that survey is found by halving.
ghost use Rattle.std.specs.Prelude.{◌≡◌, ◌++◌, ◌∷◌, ◌==◌, ℕ, [], true, not, IfOk, OnOk, OnErr, filter};
ghost use Rattle.std.specs.List.{list_all};
ghost use Rattle.sp_history.specs.Lists.{has};
ghost use Rattle.proto_requests.specs.Ordered.{is_before};
ghost use Rattle.proto_survey.specs.Contexts.{itself};

use sp_base::{Ctx, NoMemory};
use std::alloc::Global;
use std::collections::BTreeMap;
use std::marker::Model;

/// The open contexts (nng_ctx(5)).
#[derive(Drop)]
pub struct SurveyContexts {
    /// By the contexts' numbers: the id of the context's last survey, or 0.
    surveys: BTreeMap<u32, u32>,
}

impl Model for SurveyContexts {
    ghost use Rattle.std.specs.Map.{keys_of};
    ghost use Rattle.proto_survey.specs.Contexts.{ContextsView};

    ghost Value = { ContextsView };

    ghost view = { λ m. record { items = keys_of m.surveys.entries } };
}

impl SurveyContexts {
    /// Only context 0.
    pub fn new(alloc: Global) -> Result<SurveyContexts, NoMemory>
        ensures { IfOk result (λ v. v.items ≡ 0 ∷ []) }
    {
        let mut surveys = BTreeMap::new(alloc);
        match surveys.insert(0, 0) {
            Ok(_) => Ok(SurveyContexts { surveys }),
            Err(_) => Err(NoMemory),
        }
    }

    /// Returns whether the context is open.
    pub fn has(&self, c: Ctx) -> bool
        ensures { result ≡ has self.now.items c }
    {
        self.surveys.contains_key(&c.0)
    }

    /// The id of the context's last survey, or 0.
    pub fn last_id(&self, c: Ctx) -> u32 {
        match self.surveys.get(&c.0) {
            None => 0,
            Some(id) => *id,
        }
    }

    /// Stores the id of the context's new survey.
    pub fn begin(&mut self, c: Ctx, id: u32)
        ensures { self.new ≡ self.old }
    {
        match self.surveys.get_mut(&c.0) {
            None => {}
            Some(last) => *last = id,
        }
    }

    // Returns whether the number of the context is above those of all that are open.
    fn is_above_all(&self, c: Ctx) -> bool
        ensures { list_all (is_before itself c) self.now.items ≡ true → result ≡ true }
    {
        match self.surveys.last_key_value() {
            None => true,
            Some((last, _)) => *last < c.0,
        }
    }

    /// Opens the context. Its number is above all others; otherwise it isn't the number of a new context. Out of memory
    /// nothing changes.
    pub fn open(&mut self, c: Ctx) -> Result<(), NoMemory>
        ensures more { OnOk result (list_all (is_before itself c) self.old.items ≡ true → self.new.items ≡ self.old.items ++ c ∷ []) }
        ensures same { OnErr result (self.new ≡ self.old) }
    {
        if !self.is_above_all(c) {
            return Ok(());
        }
        match self.surveys.insert(c.0, 0) {
            Ok(_) => Ok(()),
            Err(_) => Err(NoMemory),
        }
    }

    /// Removes the context, which is no longer open.
    pub fn close(&mut self, c: Ctx)
        ensures { self.new.items ≡ filter (λ (d : ℕ). not (d == c)) self.old.items }
    {
        // Brings into the proof that the keys are in order.
        let _len = self.surveys.len();
        let _ = self.surveys.remove(&c.0);
    }
}
