//! A sink that keeps what was put.
ghost use Rattle.std.specs.Prelude.{◌≡◌, [], Some};
ghost use Rattle.sp_base.specs.Steps.{AfterPut};
ghost use Rattle.sp_fakes.specs.Calls.{next_fails, one_call};
ghost use Rattle.sp_fakes.specs.Sinks.{sink_view, puts_of, PutBy};

use crate::is_listed;
use sp_base::{Sink, Sunk};
use std::alloc::Global;

/// A sink that keeps what was put, and whose puts fail by number.
#[derive(Debug, Drop)]
pub struct MemSink {
    kept: Vec<u8>,
    fails: Vec<u64>,
    puts: u64,
    fault_count: u64,
}

impl MemSink {
    /// The puts with these numbers fail, and so does a put for which there is no memory.
    pub fn new(alloc: Global, fails: Vec<u64>) -> MemSink
        ensures empty { sink_view result ≡ record { text = Some []; faults = 0 } }
        ensures puts { puts_of result ≡ record { made = 0; fails = fails.items } }
    {
        MemSink {
            kept: Vec::new(alloc),
            fails,
            puts: 0,
            fault_count: 0,
        }
    }

    /// What was put.
    pub fn text(&self) -> &[u8]
        ensures { (sink_view self.now).text ≡ Some result.now }
    {
        &self.kept
    }
}

impl Sink for MemSink {
    ghost seen = { sink_view };

    fn put(&mut self, piece: &[u8]) -> Sunk
        ensures after { AfterPut result piece.now (sink_view self.old) (sink_view self.new) }
        ensures by { PutBy result (next_fails (puts_of self.old)) piece.now (sink_view self.old) (sink_view self.new) }
        ensures puts { puts_of self.new ≡ one_call (puts_of self.old) }
    {
        let fails = is_listed(&self.fails, self.puts);
        self.puts = self.puts.saturating_add(1);
        if !fails && self.kept.extend_from_slice(piece).is_ok() {
            return Sunk::Done;
        }
        self.fault_count = self.fault_count.saturating_add(1);
        Sunk::Failed
    }
}
