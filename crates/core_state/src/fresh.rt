//! The parts of a new core other than its machine and its pipes, and their end.
ghost use Rattle.std.specs.Prelude.{◌≡◌, ◌≤◌, ◌<◌, [], length, IfOk};
ghost use Rattle.sp_history.specs.Moments.{Moment, past};
ghost use Rattle.aio_word.specs.Fresh.{AreFresh};
ghost use Rattle.core_state.specs.OpWordsStand.{OpWordsStand};
ghost use Rattle.core_state.specs.OperationsStand.{OperationsStand, done_count};

use crate::op_words::OpWords;
use crate::operations::Operations;
use aio_word::{SeatList, words};
use sp_base::NoMemory;
use std::alloc::Global;

/// The words with the core's seat, the lists of operations, and the callers' seats. Takes all their memory.
pub fn fresh_parts(
    alloc: Global,
    slots: u32,
    callers: u32,
) -> Result<(OpWords, Operations, SeatList), NoMemory>
    requires slots { (0 < slots) × (slots ≤ 4096) }
    requires callers { (0 < callers) × (callers ≤ 64) }
    ensures op_words { IfOk result (λ made. (t : Moment) → past t ≡ [] → t.z.slots ≡ slots → t.z.callers ≡ callers → OpWordsStand made.0 t) }
    ensures words { IfOk result (λ made. (made.0.words.slots ≡ slots) × (made.0.words.callers ≡ callers)) }
    ensures operations { IfOk result (λ made. (t : Moment) → past t ≡ [] → t.z.slots ≡ slots → OperationsStand [] made.1 t) }
    ensures free { IfOk result (λ made. (length made.1.free.items ≡ slots) × (done_count made.1 ≡ 0)) }
    ensures seats { IfOk result (λ made. (length made.2 ≡ callers) × AreFresh slots 0 made.0.words.id made.2) }
{
    let (words, seat, seats) = words(alloc, slots, callers)?;
    let operations = Operations::with_slots(alloc, slots)?;
    Ok((OpWords { words, seat }, operations, seats))
}

/// Drops the words, with the core's seat, and the lists of operations.
pub fn drop_parts(op_words: OpWords, operations: Operations) {
    drop(op_words);
    drop(operations);
}
