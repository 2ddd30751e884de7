//! A register that keeps its history, as a machine.
ghost use Rattle.std.specs.Prelude.{◌≡◌, [], IfSome, IfOk, List, length};
ghost use Rattle.std.specs.Vec.{vec_capacity};
ghost use Rattle.turn_lock.specs.declared.turn.Turn.{Turn};
ghost use Rattle.turn_lock.specs.History.{turns_of, IsByCallers};
ghost use Rattle.ex_turn_lock.specs.declared.writes.Written.{Written};
ghost use Rattle.ex_turn_lock.specs.Logs.{writes_of, value_after};

use crate::core_state::Machine;
use crate::writes::{Write, Written};
use std::alloc::{AllocError, Global};
use std::mem;

/// A value, and all writes up to it. It must be spent.
pub struct Register {
    /// The value that was written last, or 0 where none was.
    pub value: u64,
    /// All that was written, in order. Its capacity is the register's room.
    pub log: Vec<Write>,
}

impl Register {
    /// A register with the value 0 and room for `room` writes.
    pub fn new(alloc: Global, room: usize) -> Result<Register, AllocError>
        ensures { IfOk result (λ r. (r.value ≡ 0) × (r.log.items ≡ []) × (vec_capacity r.log ≡ room)) }
    {
        Ok(Register {
            value: 0,
            log: Vec::with_capacity(alloc, room)?,
        })
    }

    /// Takes the register apart, and returns all that was written, in order.
    pub fn into_log(self) -> Vec<Write>
        ensures { result ≡ self.log }
    {
        let Register { value: _, log } = self;
        log
    }
}

impl Machine for Register {
    ghost use Rattle.std.specs.Prelude.{◌≡◌};
    ghost use Rattle.std.specs.Vec.{vec_capacity};
    ghost use Rattle.ex_turn_lock.specs.Logs.{writes_of, value_after, Replies};

    type Entry = Written;

    ghost stands = { λ r past. (r.log.items ≡ writes_of past) × (r.value ≡ value_after 0 (writes_of past)) };

    ghost room = { λ r. vec_capacity r.log };

    ghost replies = { Replies };

    fn act(&mut self, caller: u32, value: u64) -> Option<u64> {
        if self.log.len() == self.log.capacity() {
            return None;
        }
        self.log.push_reserved(Write { by: caller, value });
        Some(mem::replace(&mut self.value, value))
    }
}
