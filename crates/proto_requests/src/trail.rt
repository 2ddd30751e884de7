//! The words that lead a reply back.
ghost use Rattle.std.specs.Prelude.{◌≡◌, ◌≤◌, ◌+◌, ◌*◌, ◌++◌, ℕ, List, [], length, OnOk, IfOk};
ghost use Rattle.sp_history.specs.Lists.{first_word};
ghost use Rattle.sp_history.specs.Backtrace.{back};
ghost use Rattle.sp_history.specs.declared.parts.Back.TheVariants.{Found};
ghost use Rattle.proto_requests.specs.Trails.{trail_of, bytes_of, Moves};

use sp_base::NoMemory;
use sp_msg::Message;
use std::alloc::Global;
use std::marker::Model;

/// The beginning of a frame (nng_req(7), Raw Mode).
#[derive(Clone, Copy, PartialEq, Eq, Debug)]
pub enum Trail {
    /// A whole backtrace.
    Whole,
    /// A backtrace with more words than are read.
    TooFar,
    /// A backtrace that is cut off.
    Short,
}

/// Reads a backtrace with this many hops left.
pub fn scan(b: &[u8], hops: u8) -> Trail
    ensures { result ≡ trail_of (back hops b.now) }
{
    if hops == 0 {
        return Trail::TooFar;
    }
    if b.len() < 4 {
        return Trail::Short;
    }
    if b[0] >= 128 {
        return Trail::Whole;
    }
    scan(&b[4..], hops - 1)
}

/// The number in the first 4 bytes, if there are 4.
pub fn first_word(b: &[u8]) -> Option<u32>
    ensures { result ≡ first_word b.now }
{
    if b.len() < 4 {
        return None;
    }
    Some(u32::from_be_bytes([b[0], b[1], b[2], b[3]]))
}

// Moves a whole backtrace from the body to the words.
fn pull(m: &mut Message, words: &mut Vec<u32>, hops: u8) -> Result<(), NoMemory>
    ensures moved { OnOk result (Moves hops m.old m.new words.old.items words.new.items) }
    ensures most { length words.new.items ≤ length words.old.items + hops }
{
    if hops == 0 || m.body().is_empty() {
        return Ok(());
    }
    let is_last = m.body()[0] >= 128;
    match m.trim_u32() {
        Err(_) => Ok(()),
        Ok(w) => {
            if words.push(w).is_err() {
                return Err(NoMemory);
            }
            if is_last {
                return Ok(());
            }
            pull(m, words, hops - 1)
        }
    }
}

// Puts the words after the header.
fn put(m: &mut Message, words: &[u32])
    ensures { length m.old.header + 4 * length words.now ≤ 64 → m.new ≡ record m.old { header = m.old.header ++ bytes_of words.now } }
{
    if words.is_empty() {
        return;
    }
    if m.header_append_u32(words[0]).is_err() {
        return;
    }
    put(m, &words[1..]);
}

/// At most 15 words (nng_req(7), Raw Mode).
#[derive(Drop)]
pub struct BacktraceWords {
    words: Vec<u32>,
}

impl Model for BacktraceWords {
    ghost use Rattle.std.specs.Prelude.{ℕ, List, length, ◌≤◌};
    ghost use Rattle.proto_requests.specs.Trails.{bytes_of};

    ghost Value = { List ℕ };

    ghost view = { λ m. bytes_of m.words.items };

    ghost invariant = { λ m. length m.words.items ≤ 15 };
}

impl BacktraceWords {
    /// No words.
    pub fn none(alloc: Global) -> BacktraceWords
        ensures { result ≡ [] }
    {
        BacktraceWords {
            words: Vec::new(alloc),
        }
    }

    /// Moves a whole backtrace out of the body. `Options::fits` excludes more than 15 hops.
    pub fn take(alloc: Global, m: &mut Message, hops: u8) -> Result<BacktraceWords, NoMemory>
        ensures { IfOk result (λ w. (ws rest : List ℕ) → back hops m.old.body ≡ Found ws rest → (w ≡ ws) × (m.new ≡ record m.old { body = rest })) }
    {
        if hops > 15 {
            return Err(NoMemory);
        }
        let mut words = Vec::new(alloc);
        match pull(m, &mut words, hops) {
            Err(e) => Err(e),
            Ok(()) => Ok(BacktraceWords { words }),
        }
    }

    /// Puts them after the header.
    pub fn lead(&self, m: &mut Message)
        ensures { length m.old.header ≤ 4 → m.new ≡ record m.old { header = m.old.header ++ self.now } }
    {
        put(m, &self.words);
    }
}
