//! Files in memory.
ghost use Rattle.std.specs.Prelude.{◌≡◌, ◌↔◌, IsTrue, Some};
ghost use Rattle.sp_base.specs.Steps.{AfterWhole};
ghost use Rattle.sp_fakes.specs.Calls.{next_fails, one_call};
ghost use Rattle.std.specs.FinMap as map;
ghost use Rattle.std.specs.Cmp.Lexicographic.{slice_cmp};
ghost use Rattle.std.specs.Ordering.{nat_cmp};
ghost use Rattle.std.specs.Option.{option_copied};
ghost use Rattle.sp_fakes.specs.FilesHeld.{files_view, held_by, readings_of, named_entries, IsCopy, WholeBy};

use crate::is_listed;
use sp_base::{Bytes, Files, Whole};
use std::alloc::Global;

/// Files in memory, by their names.
#[derive(Debug, Drop)]
pub struct MemFiles {
    alloc: Global,
    pairs: Vec<(String, Bytes)>,
    fails: Vec<u64>,
    calls: u64,
    fault_count: u64,
}

impl MemFiles {
    /// Files by their names; of two with the same name the first counts. The calls with these numbers fail, and so does
    /// one for a name that isn't there.
    pub fn new(alloc: Global, pairs: Vec<(String, Bytes)>, fails: Vec<u64>) -> MemFiles
        ensures holds { files_view result ≡ record { holds = Some (map.from_entries (named_entries pairs.items)); faults = 0 } }
        ensures readings { readings_of result ≡ record { made = 0; fails = fails.items } }
    {
        MemFiles {
            alloc,
            pairs,
            fails,
            calls: 0,
            fault_count: 0,
        }
    }
}

fn is_same_name(a: &str, b: &str) -> bool
    ensures { IsTrue result ↔ (a.now ≡ b.now) }
{
    a == b
}

// The bytes of the first file of a name.
fn held<'a>(pairs: &'a [(String, Bytes)], name: &str) -> Option<&'a Bytes>
    ensures { option_copied result ≡ map.find (slice_cmp nat_cmp) name.now (named_entries pairs.now) }
{
    for pair in pairs {
        if is_same_name(pair.0.as_str(), name) {
            return Some(&pair.1);
        }
    }
    None
}

fn copied(alloc: Global, bytes: &Bytes) -> Whole
    ensures { IsCopy result bytes.now }
{
    match Bytes::from_slice(alloc, bytes.as_slice()) {
        Ok(copy) => Whole::Bytes(copy),
        Err(_) => Whole::NoMemory,
    }
}

impl Files for MemFiles {
    ghost seen = { files_view };

    fn whole(&mut self, name: &str) -> Whole
        ensures after { AfterWhole result name.now (files_view self.old) (files_view self.new) }
        ensures by { WholeBy result (next_fails (readings_of self.old)) (map.get (held_by self.old) name.now) (files_view self.old) (files_view self.new) }
        ensures holds { held_by self.new ≡ held_by self.old }
        ensures readings { readings_of self.new ≡ one_call (readings_of self.old) }
    {
        let fails = is_listed(&self.fails, self.calls);
        self.calls = self.calls.saturating_add(1);
        if fails {
            self.fault_count = self.fault_count.saturating_add(1);
            return Whole::Failed;
        }
        match held(&self.pairs, name) {
            Some(bytes) => copied(self.alloc, bytes),
            None => {
                self.fault_count = self.fault_count.saturating_add(1);
                Whole::Failed
            }
        }
    }
}
