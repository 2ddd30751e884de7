//! A link that reads by a script and keeps what was written.
ghost use Rattle.std.specs.Prelude.{◌≡◌, ◌<◌, ◌≤◌, ◌+◌, ℕ, List, IsTrue, Some, [], true, false, length, take, drop, min, slice_get};
ghost use Rattle.sp_base.specs.declared.outside.LinkRead.{LinkRead as Read};
ghost use Rattle.sp_fakes.specs.Scripts.{given, left_at, IsSpent, HasLeft, GivesNext, stands_at_end};
ghost use Rattle.sp_fakes.specs.declared.link.LinkStep.{LinkStep as Step};

use crate::is_listed;
use sp_base::{Bytes, Link, LinkRead, LinkWrite, Scheme};
use std::alloc::Global;

/// A step of what a link gives.
#[derive(Debug, Drop)]
pub enum LinkStep {
    /// These bytes, in pieces of at most the buffer's length. A step without bytes is skipped.
    Bytes(Bytes),
    /// Nothing is there, once.
    NotYet,
    /// Nothing is there until this many bytes were written in all.
    After(u64),
    /// The end, forever.
    End,
    /// A fault, once.
    Fail,
}

/// A link in memory. After a script that doesn't end nothing more is there, forever.
#[derive(Debug, Drop)]
pub struct MemLink {
    script: Vec<LinkStep>,
    at: usize,
    offset: usize,
    most: usize,
    fails: Vec<u64>,
    writes: u64,
    kept: Vec<u8>,
    number: u32,
    scheme: Scheme,
    fault_count: u64,
    idle_count: u64,
    stall_count: u64,
    opened: bool,
    at_end: bool,
    ghost stays: { IsTrue (stands_at_end at_end script.items at) },
}

impl MemLink {
    ghost use Rattle.sp_fakes.specs.MemLinks.{link_view, link_script, as_made, unread_at};

    /// Reads by the script, and takes at most `take` bytes at a write. The writes with these numbers fail, and so does
    /// a write for which there is no memory.
    pub fn new(alloc: Global, script: Vec<LinkStep>, take: usize, fails: Vec<u64>) -> MemLink
        ensures unread { link_view result ≡ unread_at 0 Scheme.Tcp }
        ensures made { as_made result ≡ record { left = script.items; most = take; writes = record { made = 0; fails = fails.items } } }
        ensures script { link_script result ≡ as_made result }
    {
        MemLink {
            script,
            at: 0,
            offset: 0,
            most: take,
            fails,
            writes: 0,
            kept: Vec::new(alloc),
            number: 0,
            scheme: Scheme::Tcp,
            fault_count: 0,
            idle_count: 0,
            stall_count: 0,
            opened: true,
            at_end: false,
        }
    }

    /// What was written.
    pub fn written(&self) -> &[u8]
        ensures { (link_view self.now).written ≡ Some result.now }
    {
        &self.kept
    }

    /// Returns whether it may be read and written.
    pub fn is_open(&self) -> bool
        ensures { result ≡ (link_view self.now).is_open }
    {
        self.opened
    }

    /// The link as it was made, at this place.
    pub fn placed(self, number: u32, scheme: Scheme) -> MemLink
        ensures unread { link_view result ≡ unread_at number scheme }
        ensures made { as_made result ≡ as_made self }
        ensures script { link_script result ≡ as_made self }
    {
        let MemLink {
            script,
            at: _,
            offset: _,
            most,
            fails,
            writes: _,
            mut kept,
            number: _,
            scheme: _,
            fault_count: _,
            idle_count: _,
            stall_count: _,
            opened: _,
            at_end: _,
        } = self;
        kept.clear();
        MemLink {
            script,
            at: 0,
            offset: 0,
            most,
            fails,
            writes: 0,
            kept,
            number,
            scheme,
            fault_count: 0,
            idle_count: 0,
            stall_count: 0,
            opened: true,
            at_end: false,
        }
    }
}

impl Link for MemLink {
    ghost use Rattle.sp_base.specs.Steps.{AfterRead, AfterWrite, AfterShut};
    ghost use Rattle.sp_fakes.specs.Calls.{next_fails, one_call};
    ghost use Rattle.sp_fakes.specs.Scripts.{ReadBy, WrittenBy, faults_read, faults_written};
    ghost use Rattle.sp_fakes.specs.MemLinks.{link_view, link_script, as_made, written_on};

    ghost seen = { link_view };

    fn place(&self) -> u32 {
        self.number
    }

    fn read(&mut self, buf: &mut [u8]) -> LinkRead
        requires is_open { (link_view self.old).is_open ≡ true }
        requires room { 0 < length buf.old }
        ensures after { AfterRead result buf.new (link_view self.old) (link_view self.new) }
        ensures by { ReadBy (length (written_on self.old)) result buf.new (link_script self.old) (link_script self.new) }
        ensures faults { (link_view self.new).faults ≡ faults_read result (link_view self.old).faults }
        ensures made { as_made self.new ≡ as_made self.old }
    {
        if self.at_end {
            return LinkRead::Ended;
        }
        let written = self.kept.len() as u64;
        skip(&self.script, &mut self.at, &mut self.offset, written);
        if self.at >= self.script.len() {
            self.idle_count = self.idle_count.saturating_add(1);
            return LinkRead::NotYet;
        }
        match &self.script[self.at] {
            LinkStep::Bytes(b) => {
                let n = copy_prefix(b.as_slice(), self.offset, buf);
                self.offset += n;
                LinkRead::Got(n)
            }
            LinkStep::End => {
                self.at_end = true;
                LinkRead::Ended
            }
            LinkStep::Fail => {
                self.at += 1;
                self.offset = 0;
                self.fault_count = self.fault_count.saturating_add(1);
                LinkRead::Failed
            }
            LinkStep::NotYet => {
                self.at += 1;
                self.offset = 0;
                self.idle_count = self.idle_count.saturating_add(1);
                LinkRead::NotYet
            }
            LinkStep::After(_) => {
                self.idle_count = self.idle_count.saturating_add(1);
                LinkRead::NotYet
            }
        }
    }

    fn write(&mut self, buf: &[u8]) -> LinkWrite
        requires is_open { (link_view self.old).is_open ≡ true }
        requires some { 0 < length buf.now }
        ensures after { AfterWrite result buf.now (link_view self.old) (link_view self.new) }
        ensures by { WrittenBy result (next_fails (link_script self.old).writes) (link_script self.old).most (length buf.now) }
        ensures script { link_script self.new ≡ record (link_script self.old) { writes = one_call (link_script self.old).writes } }
        ensures faults { (link_view self.new).faults ≡ faults_written result (link_view self.old).faults }
        ensures made { as_made self.new ≡ as_made self.old }
    {
        let fails = is_listed(&self.fails, self.writes);
        self.writes = self.writes.saturating_add(1);
        if fails {
            self.fault_count = self.fault_count.saturating_add(1);
            return LinkWrite::Failed;
        }
        let n = buf.len().min(self.most);
        if n == 0 {
            self.stall_count = self.stall_count.saturating_add(1);
            return LinkWrite::NotYet;
        }
        if self.kept.extend_from_slice(&buf[..n]).is_ok() {
            return LinkWrite::Took(n);
        }
        self.fault_count = self.fault_count.saturating_add(1);
        LinkWrite::Failed
    }

    fn shut(&mut self)
        ensures after { AfterShut (link_view self.old) (link_view self.new) }
        ensures script { link_script self.new ≡ link_script self.old }
        ensures made { as_made self.new ≡ as_made self.old }
    {
        self.opened = false;
    }
}

// Returns whether a step has nothing more to give.
fn is_spent(step: &LinkStep, offset: usize, written: u64) -> bool
    ensures spent { result ≡ true → IsSpent step.now offset written }
    ensures left { result ≡ false → HasLeft step.now offset written }
{
    match step {
        LinkStep::Bytes(b) => b.as_slice().len() <= offset,
        LinkStep::After(n) => *n <= written,
        LinkStep::NotYet => false,
        LinkStep::End => false,
        LinkStep::Fail => false,
    }
}

// Passes the steps that have nothing more to give.
fn skip(script: &[LinkStep], at: &mut usize, offset: &mut usize, written: u64)
    ensures given { given script.now at.new offset.new ≡ given script.now at.old offset.old }
    ensures gives { (result : Read) → (buf : List ℕ) → (left : List Step) → GivesNext written (left_at script.now at.new offset.new) result buf left → GivesNext written (left_at script.now at.old offset.old) result buf left }
    ensures left { (step : Step) → slice_get script.now at.new ≡ Some step → HasLeft step offset.new written }
{
    while *at < script.len() {
        if !is_spent(&script[*at], *offset, written) {
            return;
        }
        *at += 1;
        *offset = 0;
    }
}

// Copies the bytes after the first ones, as many as there is room for.
fn copy_prefix(bytes: &[u8], offset: usize, buf: &mut [u8]) -> usize
    requires some { offset < length bytes.now }
    requires room { 0 < length buf.old }
    ensures size { result ≡ min (length (drop offset bytes.now)) (length buf.new) }
    ensures within { offset + result ≤ length bytes.now }
    ensures same { take result buf.new ≡ take result (drop offset bytes.now) }
{
    let rest = &bytes[offset..];
    let n = rest.len().min(buf.len());
    buf[..n].copy_from_slice(&rest[..n]);
    n
}
