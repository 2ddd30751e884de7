//! The pipes of a pull that are up, and which of them have a message that is kept.
ghost use Rattle.std.specs.Prelude.{◌≡◌, ◌+◌, ◌<◌, ◌^◌, ◌==◌, ℕ, Some, None, false, if◌then◌else◌, length, is_some, option_map, OnOk, OnErr};
ghost use Rattle.proto_pipeline.specs.Sources.{mark_at};

use sp_base::{NoMemory, PipeId};
use std::alloc::Global;
use std::collections::HashMap;
use std::marker::Model;

/// The pipes of a pull. The cost of a call doesn't grow with their number.
#[derive(Drop)]
pub struct Sources {
    /// Whether a message is kept, by the number of the pipe.
    marks: HashMap<u32, bool>,
}

impl Model for Sources {
    ghost use Rattle.std.specs.Prelude.{ℕ, Bool, List};

    ghost Value = { List (ℕ × Bool) };

    ghost view = { λ s. s.marks.entries };
}

impl Sources {
    /// No pipes.
    pub fn new(alloc: Global) -> Sources
        ensures kept { (q : ℕ) → mark_at result q ≡ None }
        ensures count { length result ≡ 0 }
    {
        Sources {
            marks: HashMap::new(alloc),
        }
    }

    /// The number of pipes that are up.
    pub fn count(&self) -> usize
        ensures count { result ≡ length self.now }
        ensures small { result < 2 ^ 63 }
    {
        self.marks.len()
    }

    /// Returns whether a message of the pipe is kept; `None` where the pipe is not up.
    pub fn kept(&self, p: PipeId) -> Option<bool>
        ensures { result ≡ mark_at self.now p }
    {
        self.marks.get(&p.0).copied()
    }

    /// Adds a pipe that comes up, of which no message is kept.
    pub fn add(&mut self, p: PipeId) -> Result<(), NoMemory>
        ensures ok { OnOk result ((q : ℕ) → mark_at self.new q ≡ (if p == q then Some false else mark_at self.old q)) }
        ensures more { OnOk result (length self.new ≡ length self.old + (if is_some (mark_at self.old p) then 0 else 1)) }
        ensures err { OnErr result ((q : ℕ) → mark_at self.new q ≡ mark_at self.old q) }
        ensures same { OnErr result (length self.new ≡ length self.old) }
    {
        match self.marks.insert(p.0, false) {
            Ok(_) => Ok(()),
            Err(_) => Err(NoMemory),
        }
    }

    /// Removes a pipe.
    pub fn remove(&mut self, p: PipeId)
        ensures kept { (q : ℕ) → mark_at self.new q ≡ (if p == q then None else mark_at self.old q) }
        ensures count { length self.new + (if is_some (mark_at self.old p) then 1 else 0) ≡ length self.old }
    {
        let _ = self.marks.remove(&p.0);
    }

    /// Sets whether a message of the pipe is kept, where the pipe is up. Takes no memory.
    pub fn mark(&mut self, p: PipeId, is_kept: bool)
        ensures kept { (q : ℕ) → mark_at self.new q ≡ (if p == q then option_map (λ _. is_kept) (mark_at self.old p) else mark_at self.old q) }
        ensures count { length self.new ≡ length self.old }
    {
        if self.kept(p).is_none() {
            return;
        }
        if self.marks.insert(p.0, is_kept).is_err() {
            unreachable!()
        }
    }
}
