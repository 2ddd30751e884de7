//! How words are made.
ghost use Rattle.std.specs.Prelude.{◌≡◌, ℕ, ◌+◌, ◌<◌, ◌≤◌, length, replicate, IfOk};
ghost use Rattle.aio_word.specs.Views.{one_more, new_caller, new_core};
ghost use Rattle.aio_word.specs.Fresh.{AreFresh};
ghost use Rattle.aio_word.specs.OneWinner.{IsKnownCore};

use crate::calls::Words;
use crate::rule::NewCaller;
use crate::seats::{CallSeat, CoreSeat, SeatList};
use atomic_table::Table;
use sp_base::NoMemory;
use std::alloc::Global;
use std::sync::Arc;

/// New words of `slots` slots, 1 to 4,096, with the core's seat and the seats of `callers` callers, 1 to 64. No slot
/// has had an operation, and no seat has won or read anything.
pub fn words(
    alloc: Global,
    slots: u32,
    callers: u32,
) -> Result<(Words, CoreSeat, SeatList), NoMemory>
    requires slots { (0 < slots) × (slots ≤ 4096) }
    requires callers { (0 < callers) × (callers ≤ 64) }
    ensures size { IfOk result (λ made. (made.0.slots ≡ slots) × (made.0.callers ≡ callers)) }
    ensures core { IfOk result (λ made. (made.1.words ≡ made.0.id) × (made.1.view ≡ record (new_core slots) { made = callers })) }
    ensures rule { IfOk result (λ made. IsKnownCore slots made.1.view) }
    ensures seats { IfOk result (λ made. (length made.2 ≡ callers) × AreFresh slots 0 made.0.id made.2) }
{
    let generations = zeros(alloc, slots)?;
    let (table, seat) = Table::of_words(alloc, generations.as_slice(), &slots)?;
    let table = Arc::new(alloc, table)?;
    let words = Words {
        table,
        slots,
        callers,
    };
    let mut core = CoreSeat { seat, generations };
    let seats = make_callers(alloc, &words, &mut core, callers)?;
    words.learn(&mut core);
    Ok((words, core, seats))
}

fn zeros(alloc: Global, count: u32) -> Result<Vec<u64>, NoMemory>
    ensures { IfOk result (λ v. v.items ≡ replicate count 0) }
{
    let mut zeros = Vec::with_capacity(alloc, count as usize)?;
    zeros.resize(count as usize, 0)?;
    Ok(zeros)
}

fn make_callers(
    alloc: Global,
    words: &Words,
    core: &mut CoreSeat,
    callers: u32,
) -> Result<SeatList, NoMemory>
    requires own { core.old.words ≡ words.now.id }
    requires fresh { core.old.view.made ≡ 0 }
    requires callers { callers ≤ 64 }
    ensures own { core.new.words ≡ core.old.words }
    ensures made { IfOk result (λ l. (core.new.view ≡ record core.old.view { made = callers }) × (length l ≡ callers) × AreFresh core.old.view.slots 0 core.old.words l) }
{
    let mut seats = Vec::with_capacity(alloc, callers as usize)?;
    for made in 0..callers {
        seats.push(make_caller(words, core, made + 1))?;
    }
    Ok(SeatList { seats })
}

fn make_caller(words: &Words, core: &mut CoreSeat, number: u32) -> CallSeat
    requires own { core.old.words ≡ words.now.id }
    requires number { (number ≡ core.old.view.made + 1) × (number ≤ 64) }
    ensures own { (core.new.words ≡ core.old.words) × (result.words ≡ core.old.words) }
    ensures made { (core.new.view ≡ one_more core.old.view) × (result.view ≡ new_caller core.old.view) }
{
    let seat = words.table.shared.split_seat::<NewCaller>(&mut core.seat);
    CallSeat { seat, number }
}
