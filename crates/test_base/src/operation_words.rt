//! Words of operations: racing ends, and stale names.
ghost use Rattle.std.specs.Prelude.{◌≡◌, ◌<◌, ◌≤◌, true, false, IfSome};
ghost use Rattle.aio_word.specs.Word.{is_core_end};
ghost use Rattle.aio_word.specs.Results.{HasSeen, IsName};

use crate::checks::{holds, is_none, made, same, some};
use crate::plays::PlayedLine;
use aio_word::{CallSeat, CoreSeat, Decided, Phase, Raced, Words, words};
use sp_base::OpName;
use std::alloc::Global;
use std::process::Abort;
use std::thread::{Threads, join};

const RACES: u32 = 10_000;

// The core's seat, the name of its last operation, and whether the core has seen that operation end.
#[derive(Drop)]
struct CoreOperation {
    seat: CoreSeat,
    op: OpName,
    is_over: bool,
}

// The phase in which the core may end an operation.
fn core_end(word: &str) -> Option<Phase>
    ensures { IfSome result (λ to. is_core_end to ≡ true) }
{
    match word {
        "Won" => Some(Phase::Won),
        "Shut" => Some(Phase::Shut),
        "Superseded" => Some(Phase::Superseded),
        "SurveyOver" => Some(Phase::SurveyOver),
        _ => None,
    }
}

// Begins the slot's next operation, and returns whether its name is what the line says.
fn begins(words: &Words, alloc: Global, core: &mut CoreOperation, line: &mut PlayedLine<'_>) -> bool
    requires own { core.old.seat.words ≡ words.now.id }
    requires name { IsName core.old.seat.view words.now.slots core.old.op }
    requires over { core.old.is_over ≡ true → HasSeen core.old.seat.view core.old.op.slot }
    ensures own { core.new.seat.words ≡ words.now.id }
    ensures name { IsName core.new.seat.view words.now.slots core.new.op }
    ensures over { core.new.is_over ≡ true → HasSeen core.new.seat.view core.new.op.slot }
{
    if !core.is_over {
        return false;
    }
    match words.begin(&mut core.seat, core.op.slot) {
        Ok(op) => {
            core.op = op;
            core.is_over = false;
            line.says(alloc, op)
        }
        Err(_) => false,
    }
}

// Has the core look at its operation, and returns whether it sees what the line says.
fn looks(words: &Words, alloc: Global, core: &mut CoreOperation, line: &mut PlayedLine<'_>) -> bool
    requires own { core.old.seat.words ≡ words.now.id }
    requires name { IsName core.old.seat.view words.now.slots core.old.op }
    ensures own { core.new.seat.words ≡ words.now.id }
    ensures name { IsName core.new.seat.view words.now.slots core.new.op }
    ensures over { core.new.is_over ≡ false }
{
    core.is_over = false;
    let look = words.look(&mut core.seat, core.op);
    line.says(alloc, look)
}

// Has the core decide its operation, and returns whether the result is what the line says.
fn decides(
    words: &Words,
    alloc: Global,
    core: &mut CoreOperation,
    line: &mut PlayedLine<'_>,
) -> bool
    requires own { core.old.seat.words ≡ words.now.id }
    requires name { IsName core.old.seat.view words.now.slots core.old.op }
    requires over { core.old.is_over ≡ true → HasSeen core.old.seat.view core.old.op.slot }
    ensures own { core.new.seat.words ≡ words.now.id }
    ensures name { IsName core.new.seat.view words.now.slots core.new.op }
    ensures over { core.new.is_over ≡ true → HasSeen core.new.seat.view core.new.op.slot }
{
    let Some(to) = core_end(line.word()) else {
        return false;
    };
    core.is_over = true;
    let decided = words.decide(&mut core.seat, core.op, to);
    line.says(alloc, decided)
}

// Returns whether the core finds what this caller read of its operation.
fn finds(
    words: &Words,
    alloc: Global,
    core: &mut CoreOperation,
    seat: &mut CallSeat,
    line: &mut PlayedLine<'_>,
) -> bool
    requires own { (core.old.seat.words ≡ words.now.id) × (seat.old.words ≡ words.now.id) }
    requires name { IsName core.old.seat.view words.now.slots core.old.op }
    ensures own { (core.new.seat.words ≡ words.now.id) × (seat.new.words ≡ words.now.id) }
    ensures name { IsName core.new.seat.view words.now.slots core.new.op }
    ensures over { core.new.is_over ≡ true → HasSeen core.new.seat.view core.new.op.slot }
{
    let look = words.found(&mut core.seat, seat, core.op);
    core.is_over = look.phase == Phase::Cancelled;
    line.says(alloc, look)
}

// Makes a caller's call, and returns whether the result is what the line says.
fn races(
    words: &Words,
    alloc: Global,
    seat: &mut CallSeat,
    call: &str,
    line: &mut PlayedLine<'_>,
) -> bool
    requires { seat.old.words ≡ words.now.id }
    ensures { seat.new.words ≡ words.now.id }
{
    let op = OpName {
        slot: line.small(),
        generation: line.number(),
    };
    match call {
        "cancel" => line.says(alloc, words.cancel(seat, op)),
        "expire" => line.says(alloc, words.expire(seat, op)),
        "poll" => line.says(alloc, words.poll(seat, op)),
        _ => false,
    }
}

// Makes a call on these words, and returns whether the result is what the line says.
fn is_so(
    words: &Words,
    alloc: Global,
    core: &mut CoreOperation,
    first: &mut CallSeat,
    second: &mut CallSeat,
    line: &mut PlayedLine<'_>,
) -> bool
    requires own { core.old.seat.words ≡ words.now.id }
    requires first { first.old.words ≡ words.now.id }
    requires second { second.old.words ≡ words.now.id }
    requires name { IsName core.old.seat.view words.now.slots core.old.op }
    requires over { core.old.is_over ≡ true → HasSeen core.old.seat.view core.old.op.slot }
    ensures own { core.new.seat.words ≡ words.now.id }
    ensures first { first.new.words ≡ words.now.id }
    ensures second { second.new.words ≡ words.now.id }
    ensures name { IsName core.new.seat.view words.now.slots core.new.op }
    ensures over { core.new.is_over ≡ true → HasSeen core.new.seat.view core.new.op.slot }
{
    match line.word() {
        "begin" => begins(words, alloc, core, line),
        "look" => looks(words, alloc, core, line),
        "decide" => decides(words, alloc, core, line),
        "found" => finds(words, alloc, core, first, line),
        "first" => races(words, alloc, first, line.word(), line),
        "second" => races(words, alloc, second, line.word(), line),
        "named" => line.says(alloc, core.op),
        _ => false,
    }
}

// The one of two values of the same words that the line names.
fn value_of<'a>(one: &'a Words, two: &'a Words, line: &mut PlayedLine<'_>) -> &'a Words
    requires { two.now ≡ one.now }
    ensures { result.now ≡ one.now }
{
    match line.word() {
        "one" => one,
        "two" => two,
        _ => {
            line.mark_wrong();
            one
        }
    }
}

// Plays the text on two values of the same words, and stops at the first line that is wrong.
fn goes_on(
    rt: &impl Abort,
    alloc: Global,
    one: &Words,
    two: &Words,
    mut core: CoreOperation,
    mut first: CallSeat,
    mut second: CallSeat,
    text: &str,
)
    requires same { two.now ≡ one.now }
    requires own { core.seat.words ≡ one.now.id }
    requires first { first.words ≡ one.now.id }
    requires second { second.words ≡ one.now.id }
    requires name { IsName core.seat.view one.now.slots core.op }
    requires over { core.is_over ≡ false }
{
    let mut number = 0usize;
    for line in text.lines() {
        number = number.saturating_add(1);
        let mut line = PlayedLine::new(line);
        if !line.is_blank() {
            let words = value_of(one, two, &mut line);
            let is_so = is_so(words, alloc, &mut core, &mut first, &mut second, &mut line);
            if !(is_so && line.is_read()) {
                panic!(rt; "line {number} is wrong");
            }
        }
    }
    one.join(&mut core.seat, first);
    two.join(&mut core.seat, second);
}

// Plays the text on new words of `slots` slots and two callers, and on a second value of them. The first operation has
// begun in slot 0. A line begins with the value that is called, `one` or `two`:
//
// | call | words |
// |---|---|
// | the next operation begins in the slot | `one begin OpName { slot: 0, generation: 2 }` |
// | the name of the last operation | `one named OpName { slot: 0, generation: 1 }` |
// | the core looks at it, and decides it | `one look Look { phase: Pending, by: 0 }`, `one decide Won Mine` |
// | the core finds what the first caller read of it | `one found Look { phase: Cancelled, by: 2 }` |
// | a caller cancels an operation, by its slot and generation | `one first cancel 0 1 Won` |
// | a caller times it out, and polls it | `two second expire 0 1 Stale`, `two first poll 0 1 Pending` |
fn operations_play(rt: &impl Abort, alloc: Global, slots: u32, text: &str)
    requires { (0 < slots) × (slots ≤ 4096) }
{
    let (one, mut core, mut seats) = made(rt, words(alloc, slots, 2));
    let two = made(rt, one.share());
    let second = some(rt, seats.pop());
    let first = some(rt, seats.pop());
    is_none(rt, seats.pop());
    same(rt, first.number(), 1);
    same(rt, second.number(), 2);
    let op = made(rt, one.begin(&mut core, 0));
    let core = CoreOperation {
        seat: core,
        op,
        is_over: false,
    };
    goes_on(rt, alloc, &one, &two, core, first, second, text);
}

#[test]
fn two_shares_name_the_same_words(rt: HostRuntime) {
    let text = "
        one named OpName { slot: 0, generation: 1 }
        two second cancel 0 1 Won
        one decide Won Other { phase: Cancelled, by: 2 }
        two first cancel 0 0 Stale
        one first cancel 2 1 Stale
        two begin OpName { slot: 0, generation: 2 }
        one first poll 0 2 Pending
        two decide Won Mine
        one first expire 0 2 Ended { phase: Won, by: 0 }
    ";
    operations_play(&rt, rt.alloc(), 2, text);
}

#[test]
fn the_core_ends_in_four_ways(rt: HostRuntime) {
    let text = "
        one look Look { phase: Pending, by: 0 }
        one decide Won Mine
        one look Look { phase: Won, by: 0 }
        one first poll 0 1 Ended { phase: Won, by: 0 }
        one decide Shut Other { phase: Won, by: 0 }

        one begin OpName { slot: 0, generation: 2 }
        one look Look { phase: Pending, by: 0 }
        one decide Shut Mine
        one look Look { phase: Shut, by: 0 }
        one first poll 0 2 Ended { phase: Shut, by: 0 }
        one decide Shut Other { phase: Shut, by: 0 }

        one begin OpName { slot: 0, generation: 3 }
        one look Look { phase: Pending, by: 0 }
        one decide Superseded Mine
        one look Look { phase: Superseded, by: 0 }
        one first poll 0 3 Ended { phase: Superseded, by: 0 }
        one decide Shut Other { phase: Superseded, by: 0 }

        one begin OpName { slot: 0, generation: 4 }
        one look Look { phase: Pending, by: 0 }
        one decide SurveyOver Mine
        one look Look { phase: SurveyOver, by: 0 }
        one first poll 0 4 Ended { phase: SurveyOver, by: 0 }
        one decide Shut Other { phase: SurveyOver, by: 0 }
    ";
    operations_play(&rt, rt.alloc(), 1, text);
}

#[test]
fn the_core_finds_what_a_caller_read(rt: HostRuntime) {
    let text = "
        one second cancel 0 1 Won
        one first poll 0 1 Ended { phase: Cancelled, by: 2 }
        one found Look { phase: Cancelled, by: 2 }
        one begin OpName { slot: 0, generation: 2 }
        one second expire 0 1 Stale
        one second expire 0 2 Won
        one look Look { phase: Expired, by: 2 }
    ";
    operations_play(&rt, rt.alloc(), 1, text);
}

fn decides_it(words: &Words, mut core: CoreSeat, op: OpName) -> (CoreSeat, bool)
    requires own { core.words ≡ words.now.id }
    requires name { IsName core.view words.now.slots op }
    ensures own { result.0.words ≡ words.now.id }
    ensures seen { HasSeen result.0.view op.slot }
{
    let mine = matches!(words.decide(&mut core, op, Phase::Won), Decided::Mine);
    (core, mine)
}

fn cancels_it(words: &Words, mut seat: CallSeat, op: OpName) -> (CallSeat, bool)
    requires { seat.words ≡ words.now.id }
    ensures { result.0.words ≡ words.now.id }
{
    let won = matches!(words.cancel(&mut seat, op), Raced::Won);
    (seat, won)
}

// Begins an operation. One thread decides it while another cancels it.
fn race<R: Threads + Sync + Abort>(
    rt: &R,
    words: &Words,
    mut core: CoreSeat,
    seat: CallSeat,
) -> ((CoreSeat, bool), (CallSeat, bool))
    requires own { (core.words ≡ words.now.id) × (seat.words ≡ words.now.id) }
    requires slot { 0 < words.now.slots }
    requires seen { HasSeen core.view 0 }
    ensures own { (result.0.0.words ≡ words.now.id) × (result.1.0.words ≡ words.now.id) }
    ensures seen { HasSeen result.0.0.view 0 }
{
    let op = made(rt, words.begin(&mut core, 0));
    join(
        rt,
        move || -> (CoreSeat, bool)
            requires own { core.words ≡ words.now.id }
            requires name { IsName core.view words.now.slots op }
            ensures own { result.0.words ≡ words.entry.now.id }
            ensures seen { HasSeen result.0.view op.slot }
        { decides_it(words, core, op) },
        move || -> (CallSeat, bool)
            requires { seat.words ≡ words.now.id }
            ensures { result.0.words ≡ words.entry.now.id }
        { cancels_it(words, seat, op) },
    )
}

#[test]
fn each_raced_operation_has_one_winner(rt: HostRuntime) {
    let (words, mut core, mut seats) = made(&rt, words(rt.alloc(), 1, 1));
    let mut seat = some(&rt, seats.pop());
    let mut decided = 0u32;
    let mut cancelled = 0u32;
    for _ in 0..RACES {
        let ((next_core, mine), (next_seat, won)) = race(&rt, &words, core, seat);
        core = next_core;
        seat = next_seat;
        holds(&rt, mine != won);
        decided = decided.saturating_add(u32::from(mine));
        cancelled = cancelled.saturating_add(u32::from(won));
    }
    words.join(&mut core, seat);
    same(&rt, decided.saturating_add(cancelled), RACES);
}
