//! The calls of a machine that a text names.
use bench_base::line::Line;
use bench_base::number::Number;
use std::alloc::Global;

/// A call of a machine. Pipes, contexts, slots and ids are numbers.
#[derive(Clone, Copy)]
pub enum MachineCall {
    Fresh,
    Up(Number),
    Down(Number),
    Full(Number),
    /// The offered send finds its pipe full, or its pipe goes down.
    FindFull,
    FindDown,
    Clock(Number),
    Open(Number),
    Shut(Number),
    /// A context, and the number of its topic.
    PutOn(Number, Number),
    TakeOff(Number, Number),
    /// A topic of as many letters `t` and an `a`.
    PutLettersOn(Number),
    /// The slot, and the context.
    Send(Number, Number),
    Receive(Number, Number),
    /// The pipe, and the id of the message.
    Answer(Number, Number),
    /// A frame that no topic matches: a text, or as many letters `t`.
    Stranger,
    /// A frame with a hop count comes on pipe 1.
    Hop,
    Letters(Number),
    /// Does what is offered, over as many pipes.
    Take(Number),
    /// Nothing is offered, as many times.
    Idle(Number),
    /// No frame is wanted from any of as many pipes.
    Unwanted(Number),
}

// The call that is one word.
fn alone(name: &str) -> Option<MachineCall> {
    match name {
        "fresh" => Some(MachineCall::Fresh),
        "find_full" => Some(MachineCall::FindFull),
        "find_down" => Some(MachineCall::FindDown),
        "stranger" => Some(MachineCall::Stranger),
        "hop" => Some(MachineCall::Hop),
        _ => None,
    }
}

// The call that is a word and a number.
fn with_one(name: &str, number: Number) -> Option<MachineCall> {
    match name {
        "up" => Some(MachineCall::Up(number)),
        "down" => Some(MachineCall::Down(number)),
        "full" => Some(MachineCall::Full(number)),
        "clock" => Some(MachineCall::Clock(number)),
        "open" => Some(MachineCall::Open(number)),
        "shut" => Some(MachineCall::Shut(number)),
        "put_letters_on" => Some(MachineCall::PutLettersOn(number)),
        "letters" => Some(MachineCall::Letters(number)),
        "take" => Some(MachineCall::Take(number)),
        "idle" => Some(MachineCall::Idle(number)),
        "unwanted" => Some(MachineCall::Unwanted(number)),
        _ => None,
    }
}

// The call that is a word and two numbers.
fn with_two(name: &str, first: Number, second: Number) -> Option<MachineCall> {
    match name {
        "put_on" => Some(MachineCall::PutOn(first, second)),
        "take_off" => Some(MachineCall::TakeOff(first, second)),
        "send" => Some(MachineCall::Send(first, second)),
        "receive" => Some(MachineCall::Receive(first, second)),
        "answer" => Some(MachineCall::Answer(first, second)),
        _ => None,
    }
}

// The call of this name with the numbers after it; there are two numbers where more than one word is left.
fn named(name: &str, line: &mut Line<'_>) -> Option<MachineCall> {
    if let Some(call) = alone(name) {
        return Some(call);
    }
    let first = line.number()?;
    if line.is_read() {
        return with_one(name, first);
    }
    with_two(name, first, line.number()?)
}

// The call of the words, at this size.
fn call_of(size: u32, words: &str) -> Option<MachineCall> {
    let mut line = Line::new(size, words);
    let call = named(line.word(), &mut line)?;
    if line.is_read() { Some(call) } else { None }
}

/// The calls that the text names, with commas between, if all are calls and there is memory for them.
pub fn calls_of(alloc: Global, size: u32, text: &str) -> Option<Vec<MachineCall>> {
    let mut calls = Vec::new(alloc);
    for words in text.split(',') {
        calls.push(call_of(size, words)?).ok()?;
    }
    Some(calls)
}
