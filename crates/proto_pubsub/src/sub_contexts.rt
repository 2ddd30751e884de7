//! The open contexts of a sub.
ghost use Rattle.std.specs.Prelude.{◌≡◌, ◌==◌, ◌++◌, ◌∷◌, [], true, false, not, map, filter, drop, IfOk, OnOk, OnErr, if◌then◌else◌};
ghost use Rattle.std.specs.VecDeque.{deque_capacity};
ghost use Rattle.sp_history.specs.Lists.{is_nil, head_of};
ghost use Rattle.sp_history.specs.Kept.{is_wanted_by};
ghost use Rattle.proto_pubsub.specs.SubContexts.{kept_in, takes_frame, with_message, fresh_context, given_from, emptied, with_topic, without_topic, Switches};

use crate::topics::Topics;
use sp_base::{Ctx, NoMemory};
use sp_history::setting::Options;
use sp_msg::Message;
use std::alloc::Global;
use std::collections::VecDeque;
use std::marker::Model;

/// An open context (nng_sub(7), nng_ctx(5)).
#[derive(Drop)]
pub struct SubContext {
    ctx: Ctx,
    topics: Topics,
    /// The maximum number of messages that are kept.
    places: usize,
    /// The messages that are kept, the oldest first, with memory for all its places.
    kept: VecDeque<Message>,
}

impl Model for SubContext {
    ghost use Rattle.std.specs.Prelude.{◌≤◌, ◌<◌};
    ghost use Rattle.std.specs.VecDeque.{deque_capacity};
    ghost use Rattle.proto_pubsub.specs.SubContexts.{SubContextView};

    ghost Value = { SubContextView };

    ghost view = { λ x. record { ctx = x.ctx; topics = x.topics; places = x.places; kept = x.kept.items } };

    ghost invariant = { λ x. (x.places ≤ deque_capacity x.kept) × (0 < deque_capacity x.kept) };
}

// Drops what no topic matches.
fn drop_unwanted(kept: &mut VecDeque<Message>, topics: &Topics)
    ensures items { kept.new.items ≡ filter (λ m. is_wanted_by topics.now m.body) kept.old.items }
    ensures capacity { deque_capacity kept.new ≡ deque_capacity kept.old }
{
    kept.retain(|m| topics.is_wanted(m.body()));
}

impl SubContext {
    /// A context with no topic, for which nothing is kept. Takes the memory for `queue` messages.
    pub fn new(alloc: Global, ctx: Ctx, options: Options) -> Result<SubContext, NoMemory>
        ensures { IfOk result (λ x. x ≡ fresh_context options.queue ctx) }
    {
        let places = options.queue as usize;
        let kept = VecDeque::with_capacity(alloc, places.max(1))?;
        Ok(SubContext {
            ctx,
            topics: Topics::new(alloc),
            places,
            kept,
        })
    }

    /// Its number.
    pub fn ctx(&self) -> Ctx
        ensures { result ≡ self.now.ctx }
    {
        self.ctx
    }

    /// Returns whether it has this number.
    pub fn is_of(&self, c: Ctx) -> bool
        ensures { result ≡ (self.now.ctx == c) }
    {
        self.ctx.0 == c.0
    }

    /// Returns whether nothing is kept.
    pub fn is_empty(&self) -> bool
        ensures { result ≡ is_nil self.now.kept }
    {
        self.kept.is_empty()
    }

    // Returns whether it keeps a frame with this body: a topic matches it, or raw; and the queue isn't full, or
    // discards its oldest.
    fn takes(&self, raw: bool, options: Options, body: &[u8]) -> bool
        ensures { result ≡ takes_frame raw options body.now self.now }
    {
        (raw || self.topics.is_wanted(body))
            && (self.kept.len() < self.places || options.prefer_new)
    }

    // Puts the message last. In a full queue it replaces the oldest.
    fn put(&mut self, m: Message)
        ensures { self.new ≡ with_message m self.old }
    {
        if self.kept.len() >= self.places {
            drop(self.kept.pop_front());
        }
        self.kept.push_back_reserved(m);
    }

    /// Keeps the frame, where a topic matches it, or raw. Takes no memory.
    pub fn keep(&mut self, raw: bool, options: Options, m: Message)
        ensures { self.new ≡ kept_in raw options m self.old }
    {
        if self.takes(raw, options, m.body()) {
            self.put(m);
        }
    }

    /// Keeps a copy of the frame, where a topic matches it, or raw. Returns false where a copy was needed and there was
    /// no memory for it; then nothing changes.
    pub fn keep_copy(&mut self, raw: bool, options: Options, m: &Message) -> bool
        ensures kept { result ≡ true → self.new ≡ kept_in raw options m.now self.old }
        ensures same { result ≡ false → self.new ≡ self.old }
        ensures needed { result ≡ false → takes_frame raw options m.now.body self.old ≡ true }
    {
        if !self.takes(raw, options, m.body()) {
            return true;
        }
        match m.copy() {
            Err(_) => false,
            Ok(copy) => {
                self.put(copy);
                true
            }
        }
    }

    /// Removes and returns the oldest message.
    pub fn give(&mut self) -> Option<Message>
        ensures given { result ≡ head_of self.old.kept }
        ensures rest { self.new ≡ given_from self.old }
    {
        self.kept.pop_front()
    }

    /// Drops all that is kept.
    pub fn clear(&mut self)
        ensures { self.new ≡ emptied self.old }
    {
        self.kept.clear();
    }

    // Adds a topic. Out of memory nothing changes.
    fn put_on(&mut self, alloc: Global, t: &[u8]) -> Result<bool, NoMemory>
        ensures changed { IfOk result (λ changed. changed ≡ true) }
        ensures on { OnOk result (self.new ≡ with_topic t.now self.old) }
        ensures same { OnErr result (self.new ≡ self.old) }
    {
        self.topics.put(alloc, t)?;
        Ok(true)
    }

    // Removes a topic, and drops what no other topic matches.
    fn take_off(&mut self, t: &[u8])
        ensures { self.new ≡ without_topic t.now self.old }
    {
        self.topics.remove(t);
        drop_unwanted(&mut self.kept, &self.topics);
    }

    /// Adds a topic, or removes it. Returns whether that changed something.
    pub fn switch(&mut self, alloc: Global, t: &[u8], on: bool) -> Result<bool, NoMemory>
        ensures { Switches result self.old self.new t.now on }
    {
        if self.topics.has(t) == on {
            return Ok(false);
        }
        if on {
            return self.put_on(alloc, t);
        }
        self.take_off(t);
        Ok(true)
    }
}
