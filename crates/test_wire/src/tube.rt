//! A link that gives back what was written.
ghost use Rattle.std.specs.Prelude.{◌≡◌, ◌≤◌, ◌<◌, [], true, length};
ghost use Rattle.sp_base.specs.Steps.{AfterWrite};
ghost use Rattle.sp_msg.specs.Marks.{one_more};
ghost use Rattle.test_wire.specs.Untolds.{tube_view, written_in, writes_of};

use sp_base::{Link, LinkRead, LinkWrite};
use std::alloc::Global;

/// Bytes that are written and then read, in order; proofs don't see them.
#[derive(Drop)]
pub struct Tube {
    /// What was written.
    bytes: Vec<u8>,
    /// The number of bytes that were read.
    at: usize,
    /// The number of writes that take nothing, before one takes all.
    held: u64,
    /// The number of writes.
    writes: u64,
    /// The number of writes that failed.
    fault_count: u64,
    /// The number of reads that found nothing.
    idle_count: u64,
    /// The number of writes that took nothing.
    stall_count: u64,
    /// Whether it was not shut yet.
    opened: bool,
}

// Copies the first bytes of one piece over those of another, and returns how many.
fn copy_prefix(from: &[u8], to: &mut [u8]) -> usize
    ensures within { result ≤ length to.new }
    ensures most { result ≤ length from.now }
{
    let n = from.len().min(to.len());
    to[..n].copy_from_slice(&from[..n]);
    n
}

impl Tube {
    /// An empty tube, whose first `held` writes take nothing.
    pub fn new(alloc: Global, held: u64) -> Tube
        ensures is_open { (tube_view result).is_open ≡ true }
        ensures empty { written_in result ≡ [] }
        ensures writes { writes_of result ≡ 0 }
    {
        Tube {
            bytes: Vec::new(alloc),
            at: 0,
            held,
            writes: 0,
            fault_count: 0,
            idle_count: 0,
            stall_count: 0,
            opened: true,
        }
    }

    /// The number of writes, including those that took nothing.
    pub fn writes(&self) -> u64
        ensures { result ≡ writes_of self.now }
    {
        self.writes
    }

    /// Returns whether it was not shut yet.
    pub fn is_open(&self) -> bool
        ensures { result ≡ (tube_view self.now).is_open }
    {
        self.opened
    }

    /// The number of bytes that were written.
    pub fn len(&self) -> usize
        ensures { result ≡ length (written_in self.now) }
    {
        self.bytes.len()
    }
}

impl Link for Tube {
    ghost seen = { tube_view };

    fn place(&self) -> u32 {
        0
    }

    fn read(&mut self, buf: &mut [u8]) -> LinkRead {
        let n = match self.bytes.get(self.at..) {
            Some(rest) => copy_prefix(rest, buf),
            None => 0,
        };
        if n == 0 {
            self.idle_count = self.idle_count.saturating_add(1);
            return LinkRead::NotYet;
        }
        self.at = self.at.saturating_add(n);
        LinkRead::Got(n)
    }

    fn write(&mut self, buf: &[u8]) -> LinkWrite
        requires is_open { (tube_view self.old).is_open ≡ true }
        requires some { 0 < length buf.now }
        ensures after { AfterWrite result buf.now (tube_view self.old) (tube_view self.new) }
        ensures writes { writes_of self.new ≡ one_more (writes_of self.old) }
    {
        self.writes = self.writes.saturating_add(1);
        if self.held > 0 {
            self.held -= 1;
            self.stall_count = self.stall_count.saturating_add(1);
            return LinkWrite::NotYet;
        }
        if self.bytes.extend_from_slice(buf).is_err() {
            self.fault_count = self.fault_count.saturating_add(1);
            return LinkWrite::Failed;
        }
        LinkWrite::Took(buf.len())
    }

    fn shut(&mut self) {
        self.opened = false;
    }
}
