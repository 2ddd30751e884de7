//! The topics of a context.
//!
//! A frame is looked up by its prefixes, one for each length that a topic has. So the cost grows with the number of
//! these lengths, and with the logarithm of the number of topics. A few topics are compared one by one.
ghost use Rattle.std.specs.Prelude.{◌≡◌, ◌++◌, ◌∷◌, ◌==◌, ℕ, List, [], true, false, length, OnOk, OnErr};
ghost use Rattle.std.specs.List.{list_any};
ghost use Rattle.sp_history.specs.Lists.{has, without, matches, same_bytes};
ghost use Rattle.sp_history.specs.Kept.{is_wanted_by};
ghost use Rattle.sp_history.specs.Legal.{has_topic};
ghost use Rattle.proto_pubsub.specs.SubContexts.{topics_without};
ghost use Rattle.proto_pubsub.specs.Topics.{is_known, is_prefix};

use sp_base::{Bytes, NoMemory};
use std::alloc::Global;
use std::collections::BTreeSet;
use std::marker::Model;

/// Up to this many topics are compared one by one.
const FEW: usize = 8;

/// The topics of a context (nng_sub(7)).
#[derive(Drop)]
pub struct Topics {
    /// The topics, in the order in which they were added.
    all: Vec<Bytes>,
    /// The same, by their bytes.
    set: BTreeSet<Vec<u8>>,
    /// The lengths that they have, each once.
    lengths: Vec<usize>,
}

impl Model for Topics {
    ghost use Rattle.std.specs.Prelude.{ℕ, List};
    ghost use Rattle.proto_pubsub.specs.Topics.{IsIndex};

    ghost Value = { List (List ℕ) };

    ghost view = { λ x. x.all.items };

    ghost invariant = { λ x. IsIndex x.set.keys x.lengths.items x.all.items };
}

// Returns whether the bytes are the same.
fn is_same(a: &[u8], b: &[u8]) -> bool
    ensures { result ≡ same_bytes a.now b.now }
{
    a == b
}

// Returns whether the topic is a prefix of the body.
fn matches(body: &[u8], topic: &[u8]) -> bool
    ensures { result ≡ matches body.now topic.now }
{
    body.starts_with(topic)
}

// Returns whether one of the topics is a prefix of the body.
fn any_matches(topics: &[Bytes], body: &[u8]) -> bool
    ensures { result ≡ is_wanted_by topics.now body.now }
{
    topics.iter().any(|t| matches(body, t.as_slice()))
}

// Returns whether the first `n` bytes of the body are a topic.
fn has_prefix(set: &BTreeSet<Vec<u8>>, body: &[u8], n: usize) -> bool
    ensures { result ≡ is_prefix set.now.keys body.now n }
{
    n <= body.len() && set.contains(&body[..n])
}

// Returns whether, for one of the lengths, the first bytes of the body are a topic.
fn any_prefix(set: &BTreeSet<Vec<u8>>, lengths: &[usize], body: &[u8]) -> bool
    ensures { result ≡ list_any (is_prefix set.now.keys body.now) lengths.now }
{
    lengths.iter().any(|n| has_prefix(set, body, *n))
}

// Removes the topic `t`.
fn drop_topic(topics: &mut Vec<Bytes>, t: &[u8])
    ensures { topics.new.items ≡ topics_without t.now topics.old.items }
{
    topics.retain(|u| !is_same(u.as_slice(), t));
}

// Returns whether one of the topics has the length `n`.
fn has_length(topics: &[Bytes], n: usize) -> bool
    ensures { result ≡ list_any (λ u. length u == n) topics.now }
{
    topics.iter().any(|u| u.as_slice().len() == n)
}

// Removes the length `n`.
fn drop_length(lengths: &mut Vec<usize>, n: usize)
    ensures { lengths.new.items ≡ without lengths.old.items n }
{
    lengths.retain(|m| *m != n);
}

// Adds the length, if it isn't there. Out of memory nothing changes.
fn add_length(lengths: &mut Vec<usize>, n: usize) -> Result<(), NoMemory>
    ensures added { OnOk result (has lengths.new.items n ≡ true) }
    ensures others { (m : ℕ) → has lengths.old.items m ≡ true → has lengths.new.items m ≡ true }
{
    if !lengths.contains(&n) {
        lengths.push(n)?;
    }
    Ok(())
}

impl Topics {
    /// No topics.
    pub fn new(alloc: Global) -> Topics
        ensures { result ≡ [] }
    {
        Topics {
            all: Vec::new(alloc),
            set: BTreeSet::new(alloc),
            lengths: Vec::new(alloc),
        }
    }

    /// Returns whether the topic is there.
    pub fn has(&self, t: &[u8]) -> bool
        ensures { result ≡ has_topic self.now t.now }
    {
        self.set.contains(t)
    }

    /// Returns whether one of the topics is a prefix of the body.
    pub fn is_wanted(&self, body: &[u8]) -> bool
        ensures { result ≡ is_wanted_by self.now body.now }
    {
        if self.all.len() <= FEW {
            return any_matches(&self.all, body);
        }
        any_prefix(&self.set, &self.lengths, body)
    }

    /// Adds a topic. Out of memory nothing changes.
    pub fn put(&mut self, alloc: Global, t: &[u8]) -> Result<(), NoMemory>
        ensures on { OnOk result (self.new ≡ self.old ++ t.now ∷ []) }
        ensures same { OnErr result (self.new ≡ self.old) }
    {
        let topic = Bytes::from_slice(alloc, t)?;
        let key = Vec::from_slice(alloc, t)?;
        self.all.reserve(1)?;
        add_length(&mut self.lengths, t.len())?;
        self.set.insert(key)?;
        self.all.push_reserved(topic);
        Ok(())
    }

    /// Removes a topic.
    pub fn remove(&mut self, t: &[u8])
        ensures { self.new ≡ topics_without t.now self.old }
    {
        let _ = self.set.remove(t);
        drop_topic(&mut self.all, t);
        if !has_length(&self.all, t.len()) {
            drop_length(&mut self.lengths, t.len());
        }
    }
}
