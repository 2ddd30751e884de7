//! Pending operations by their slot and in the bucket of their context.
use crate::checks::{made, same, some};
use core_state::PendingOps;
use sp_base::{Ctx, OpName};

const FIRST: OpName = OpName {
    slot: 2,
    generation: 1,
};

const SECOND: OpName = OpName {
    slot: 0,
    generation: 1,
};

const THIRD: OpName = OpName {
    slot: 3,
    generation: 1,
};

// With four slots, contexts 1 and 5 share a bucket.
#[test]
fn the_bucket_of_a_context_has_its_operations_in_order(rt: HostRuntime) {
    let mut pending = made(&rt, PendingOps::new(rt.alloc(), 4));
    pending.add(FIRST, Ctx(1));
    pending.add(SECOND, Ctx(5));
    pending.add(THIRD, Ctx(1));
    same(&rt, pending.some_on(Ctx(1)), Some(FIRST));
    same(&rt, pending.some_on(Ctx(5)), Some(SECOND));
    same(&rt, pending.some_on(Ctx(2)), None);
    let first = some(&rt, pending.first_in_bucket(Ctx(1)));
    same(&rt, first.name().slot, 2);
}

fn is_send<T: Send>() {}

#[test]
fn pending_operations_go_to_other_threads() {
    is_send::<PendingOps>();
}
