//! The calls of a core that a text names.
use bench_base::line::Line;
use bench_base::number::Number;
use std::alloc::Global;

/// A call of a core. Contexts, ticks and operations are numbers.
#[derive(Clone, Copy)]
pub enum Call {
    Open,
    Shut(Number),
    Send(Number),
    SendRaw(Number),
    Receive(Number),
    /// With a deadline.
    ReceiveBy(Number, Number),
    ReceiveNow(Number),
    /// Sends again what the first operation received.
    PassOn(Number),
    CollectFirst,
    CollectLast,
    Cancel(Number),
    Expire(Number),
    /// The names of the receives that began.
    Forget,
    Serve,
    /// With at most this many frames of each pipe.
    ServeBusy(Number),
    Tick(Number),
    TakeEnded,
    Close,
    /// No call: what follows is timed apart from what came before.
    Switch,
}

// The call that is one word.
fn alone(name: &str) -> Option<Call> {
    match name {
        "open" => Some(Call::Open),
        "collect_first" => Some(Call::CollectFirst),
        "collect_last" => Some(Call::CollectLast),
        "forget" => Some(Call::Forget),
        "serve" => Some(Call::Serve),
        "take_ended" => Some(Call::TakeEnded),
        "close" => Some(Call::Close),
        "switch" => Some(Call::Switch),
        _ => None,
    }
}

// The call that is a word and a number.
fn with_number(name: &str, number: Number) -> Option<Call> {
    match name {
        "shut" => Some(Call::Shut(number)),
        "send" => Some(Call::Send(number)),
        "send_raw" => Some(Call::SendRaw(number)),
        "receive" => Some(Call::Receive(number)),
        "receive_now" => Some(Call::ReceiveNow(number)),
        "pass_on" => Some(Call::PassOn(number)),
        "cancel" => Some(Call::Cancel(number)),
        "expire" => Some(Call::Expire(number)),
        "serve_busy" => Some(Call::ServeBusy(number)),
        "tick" => Some(Call::Tick(number)),
        _ => None,
    }
}

// The call of this name with the numbers after it.
fn named(name: &str, line: &mut Line<'_>) -> Option<Call> {
    if let Some(call) = alone(name) {
        return Some(call);
    }
    let number = line.number()?;
    if name == "receive_by" {
        return Some(Call::ReceiveBy(number, line.number()?));
    }
    with_number(name, number)
}

// The call of the words, at this size.
fn call_of(size: u32, words: &str) -> Option<Call> {
    let mut line = Line::new(size, words);
    let call = named(line.word(), &mut line)?;
    if line.is_read() { Some(call) } else { None }
}

/// The calls that the text names, with commas between, if all are calls and there is memory for them.
pub fn calls_of(alloc: Global, size: u32, text: &str) -> Option<Vec<Call>> {
    let mut calls = Vec::new(alloc);
    for words in text.split(',') {
        calls.push(call_of(size, words)?).ok()?;
    }
    Some(calls)
}
