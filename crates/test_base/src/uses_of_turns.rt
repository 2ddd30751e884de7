//! A counter and a register that threads use in turns.
use crate::checks::{made, same};
use ex_turn_lock::{count_in_turns, write_in_turns};

#[test]
fn two_threads_add_in_turns(rt: HostRuntime) {
    let counted = count_in_turns(&rt, rt.alloc(), 2000);
    let Some((count, _pass)) = counted else {
        panic!(rt; "no memory")
    };
    same(&rt, count, 4000);
}

// Each caller's writes are in the log once, in the order in which it made them.
#[test]
fn three_threads_write_into_one_register(rt: HostRuntime) {
    let log = made(&rt, write_in_turns(&rt, rt.alloc(), 300, 900));
    same(&rt, log.len(), 900);
    let mut next = [0u64; 4];
    for write in &log {
        let by = write.by as usize;
        assert!(rt; 1 <= by && by <= 3);
        same(&rt, write.value, next[by]);
        next[by] = next[by].saturating_add(1);
    }
    same(&rt, next, [0, 300, 300, 300]);
}

#[test]
fn a_full_register_writes_nothing_more(rt: HostRuntime) {
    let log = made(&rt, write_in_turns(&rt, rt.alloc(), 300, 10));
    same(&rt, log.len(), 10);
}
