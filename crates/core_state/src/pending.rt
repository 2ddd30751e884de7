//! The operations that are pending: all of them in the order of their begins, and those of each context.
//!
//! Contexts are in buckets: a context's bucket is its number modulo the number of slots. Contexts are numbered one
//! after another, so two that are open share a bucket only where their numbers differ by a multiple of the number of
//! slots.
ghost use Rattle.std.specs.Prelude.{◌≡◌, ◌<◌, ◌≤◌, ◌+◌, ◌==◌, ◌++◌, ◌∷◌, [], map, length, replicate, None, IfOk};
ghost use Rattle.core_state.specs.declared.pending.PendingOperation.{PendingOperation as PendingOperationType};
ghost use Rattle.core_state.specs.Pendings.{NotIn, Differ, IsAmong, FindsOn, slot_of, others_than, in_bucket, bucket_of, first_of, behind};

use crate::rings::Rings;
use sp_base::{Ctx, NoMemory, OpName};
use std::alloc::Global;
use std::marker::Model;

/// An operation (nng_aio(5)) that was begun and has not ended.
#[derive(Clone, Copy)]
pub struct PendingOperation {
    /// Its name.
    pub op: OpName,
    /// The context that it was begun on.
    pub ctx: Ctx,
}

impl PendingOperation {
    /// Its name.
    pub fn name(&self) -> OpName
        ensures { result ≡ self.now.op }
    {
        self.op
    }

    /// Returns whether it was begun on the context.
    pub fn is_on(&self, ctx: Ctx) -> bool
        ensures { result ≡ (self.now.ctx == ctx) }
    {
        self.ctx.0 == ctx.0
    }
}

/// The pending operations of some slots, at most one for each slot (nng_aio(5)).
#[derive(Drop)]
pub struct PendingOps {
    // Slots are the numbers below this.
    slots: u32,
    // By slot: its operation, where it is pending.
    places: Vec<Option<PendingOperation>>,
    // All slots of pending operations, in the order of their begins, after the place `slots`.
    order: Rings,
    // Those of each bucket, after the place `slots` plus the number of the bucket.
    buckets: Rings,
}

impl Model for PendingOps {
    ghost use Rattle.core_state.specs.Pendings.{PendingView, Keeps, shown};

    ghost Value = { PendingView };

    ghost view = { λ d. record { slots = d.slots; items = shown d.slots d.places.items d.order } };

    ghost invariant = { λ d. Keeps d.slots d.places.items d.order d.buckets (shown d.slots d.places.items d.order) };
}

// A place for each slot, each empty.
fn no_places(alloc: Global, slots: u32) -> Result<Vec<Option<PendingOperation>>, NoMemory>
    ensures { IfOk result (λ v. v.items ≡ replicate slots None) }
{
    let mut places = Vec::with_capacity(alloc, slots as usize)?;
    for _ in 0..slots {
        places.push(None)?;
    }
    Ok(places)
}

impl PendingOps {
    /// No pending operation, of the slots below `slots`, which is 1 to 4,096.
    pub fn new(alloc: Global, slots: u32) -> Result<PendingOps, NoMemory>
        requires { (0 < slots) × (slots ≤ 4096) }
        ensures { IfOk result (λ d. d ≡ record { slots = slots; items = [] }) }
    {
        Ok(PendingOps {
            slots,
            places: no_places(alloc, slots)?,
            order: Rings::alone(alloc, slots + 1)?,
            buckets: Rings::alone(alloc, slots + slots)?,
        })
    }

    // The place before the first of the context's bucket.
    fn head_of(&self, ctx: Ctx) -> u32
        ensures head { result ≡ self.now.slots + bucket_of self.now.slots ctx }
        ensures bucket { bucket_of self.now.slots ctx < self.now.slots }
    {
        self.slots + ctx.0 % self.slots
    }

    /// Adds an operation, in a slot that has none.
    pub fn add(&mut self, op: OpName, ctx: Ctx)
        requires slot { op.slot < self.old.slots }
        requires free { NotIn op.slot (map slot_of self.old.items) }
        requires room { length self.old.items < self.old.slots }
        ensures { self.new ≡ record self.old { items = self.old.items ++ record { op = op; ctx = ctx } ∷ [] } }
    {
        let head = self.head_of(ctx);
        self.order.put_last(self.slots, op.slot);
        self.buckets.put_last(head, op.slot);
        self.places[op.slot as usize] = Some(PendingOperation { op, ctx });
    }

    /// Removes the pending operation, which has ended.
    pub fn take_out(&mut self, op: OpName)
        requires { (x : PendingOperationType) × IsAmong x self.old.items × (x.op ≡ op) }
        ensures { self.new ≡ record self.old { items = others_than op self.old.items } }
    {
        self.order.take_out(op.slot);
        self.buckets.take_out(op.slot);
        self.places[op.slot as usize] = None;
    }

    /// The one that was begun first.
    pub fn first(&self) -> Option<PendingOperation>
        ensures { result ≡ first_of self.now.items }
    {
        let slot = self.order.next(self.slots);
        if slot == self.slots {
            return None;
        }
        self.places[slot as usize]
    }

    /// The first operation in the bucket of the context.
    pub fn first_in_bucket(&self, ctx: Ctx) -> Option<PendingOperation>
        ensures { result ≡ first_of (in_bucket self.now.slots (bucket_of self.now.slots ctx) self.now.items) }
    {
        let head = self.head_of(ctx);
        let slot = self.buckets.next(head);
        if slot == head {
            return None;
        }
        self.places[slot as usize]
    }

    /// The next operation in the bucket of the pending operation.
    pub fn next_in_bucket(&self, x: &PendingOperation) -> Option<PendingOperation>
        requires { IsAmong x.now self.now.items }
        ensures apart { Differ (map slot_of self.now.items) }
        ensures next { result ≡ behind x.now.op (in_bucket self.now.slots (bucket_of self.now.slots x.now.ctx) self.now.items) }
    {
        let head = self.head_of(x.ctx);
        let slot = self.buckets.next(x.op.slot);
        if slot == head {
            return None;
        }
        self.places[slot as usize]
    }

    /// Returns a pending operation of the context.
    pub fn some_on(&self, ctx: Ctx) -> Option<OpName>
        ensures { FindsOn result ctx self.now.items }
    {
        let mut next = self.first_in_bucket(ctx);
        while let Some(x) = next {
            if x.is_on(ctx) {
                return Some(x.name());
            }
            next = self.next_in_bucket(&x);
        }
        None
    }
}
