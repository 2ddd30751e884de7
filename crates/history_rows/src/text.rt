//! The words of the rows.
//!
//! | entry | words |
//! |---|---|
//! | a pipe comes up, is met, given back, goes down, is taken | `up 1`, `met 0`, `noup 0 bad`, `down 1 failed`, `taken 1` |
//! | the receive limit of a pipe that comes up; without it there is none | `up 1 4` |
//! | a frame, an out, and what a wire returns | `frame 1 78`, `out 1 78`, `full 1`, `quiet 1`, `stall 1`, `clear 1`, `unkept 1` |
//! | a begin of slot 0, generation 1 | `recv 0.1`, `send 0.1 HEADER/BODY` |
//! | the caller, the context and the deadline of a begin, after it | `k2`, `c1`, `d100` |
//! | an end | `received 0.1 HEADER/BODY`, `sent 0.1`, `cancelled 0.1 SEAT` |
//! | the other ends, written like `cancelled` | `timedout`, `closed`, `superseded`, `surveyover` |
//! | what was ended is collected | `took 0.1`, followed by `k2` for a caller |
//! | a tick and what is due | `tick 100 0.1 1.1` |
//! | contexts and topics | `open 1`, `shut 1`, `on 0 61`, `off 0 61`, `dry 1` |
//! | the close | `close BEGUN WON GONE FRAMES OUTS FULLS` |
//!
//! Bytes are hexadecimal, `-` where there are none.
//!
//! A row's role may be followed by `raw`, `old` (a full queue of a sub keeps its old messages), and, each with a
//! number, `slots3`, `queue3`, `dice7`, `ttl2`, `survey5`, `resend7`.
//!
//! No clause defines how a text is read: the notation is only for the rows, and this is its whole definition. A line
//! that was read as the wrong entry would show in the verdict of its row.

use sp_base::{Bytes, Ctx, NoMemory, OpName, PipeId, Role, Tick};
use sp_history::entry::{
    Cause, Completion, ContextChange, Ending, Entry, Miss, RecordedAct, RecordedMessage, Switch,
    Totals, Why, WireNumbers,
};
use sp_history::setting::{Options, Setting};
use std::alloc::{AllocError, AllocFailed, Global};
use std::collections::LinkedList;
use turn_lock::Turn;

/// The line can't be read, or there was no memory for it.
#[derive(Clone, Copy, Debug)]
pub struct Unread;

impl From<AllocError> for Unread {
    fn from(_e: AllocError) -> Unread {
        Unread
    }
}

impl<T: Drop> From<AllocFailed<T>> for Unread {
    fn from(_e: AllocFailed<T>) -> Unread {
        Unread
    }
}

impl From<NoMemory> for Unread {
    fn from(_e: NoMemory) -> Unread {
        Unread
    }
}

// ---- Small words

fn word<'a>(words: &[&'a str], i: usize) -> Result<&'a str, Unread> {
    match words.get(i) {
        Some(w) => Ok(*w),
        None => Err(Unread),
    }
}

fn number(text: &str) -> Result<u64, Unread> {
    match text.parse::<u64>() {
        Ok(n) => Ok(n),
        Err(_) => Err(Unread),
    }
}

fn small(text: &str) -> Result<u32, Unread> {
    match text.parse::<u32>() {
        Ok(n) => Ok(n),
        Err(_) => Err(Unread),
    }
}

fn smaller(text: &str) -> Result<u8, Unread> {
    match text.parse::<u8>() {
        Ok(n) => Ok(n),
        Err(_) => Err(Unread),
    }
}

fn op_of(text: &str) -> Result<OpName, Unread> {
    match text.split_once('.') {
        Some((slot, generation)) => Ok(OpName {
            slot: small(slot)?,
            generation: number(generation)?,
        }),
        None => Err(Unread),
    }
}

fn digit(b: u8) -> Result<u8, Unread> {
    match b {
        b'0'..=b'9' => Ok(b - b'0'),
        b'a'..=b'f' => Ok(b - b'a' + 10),
        _ => Err(Unread),
    }
}

fn byte(high: u8, low: u8) -> Result<u8, Unread> {
    let high = digit(high)?;
    let low = digit(low)?;
    if high < 16 && low < 16 {
        Ok(high * 16 + low)
    } else {
        Err(Unread)
    }
}

fn add_hex(alloc: Global, hex: &[u8], so_far: Bytes) -> Result<Bytes, Unread> {
    match hex {
        [] => Ok(so_far),
        [h, l, rest @ ..] => {
            let mut so_far = so_far;
            so_far.append(&[byte(*h, *l)?])?;
            add_hex(alloc, rest, so_far)
        }
        _ => Err(Unread),
    }
}

fn bytes_of(alloc: Global, text: &str) -> Result<Bytes, Unread> {
    let none = Bytes::from_slice(alloc, &[])?;
    if text == "-" {
        Ok(none)
    } else {
        add_hex(alloc, text.as_bytes(), none)
    }
}

fn message_of(alloc: Global, text: &str) -> Result<RecordedMessage, Unread> {
    match text.split_once('/') {
        Some((header, body)) => Ok(RecordedMessage {
            header: bytes_of(alloc, header)?,
            body: bytes_of(alloc, body)?,
        }),
        None => Err(Unread),
    }
}

fn why_of(text: &str) -> Result<Why, Unread> {
    match text {
        "ended" => Ok(Why::Ended),
        "failed" => Ok(Why::Failed),
        "malformed" => Ok(Why::Malformed),
        "refusal" => Ok(Why::Refusal),
        "closed" => Ok(Why::Closed),
        "nomemory" => Ok(Why::NoMemory),
        _ => Err(Unread),
    }
}

fn miss_of(text: &str) -> Result<Miss, Unread> {
    match text {
        "bad" => Ok(Miss::Bad),
        "ended" => Ok(Miss::Ended),
        "failed" => Ok(Miss::Failed),
        "late" => Ok(Miss::Late),
        "refused" => Ok(Miss::Refused),
        "nomemory" => Ok(Miss::NoMemory),
        _ => Err(Unread),
    }
}

fn cause_of(text: &str) -> Result<Cause, Unread> {
    match text {
        "cancelled" => Ok(Cause::Cancelled),
        "timedout" => Ok(Cause::TimedOut),
        "closed" => Ok(Cause::Closed),
        "superseded" => Ok(Cause::Superseded),
        "surveyover" => Ok(Cause::SurveyOver),
        _ => Err(Unread),
    }
}

// ---- Entries

/// What may follow a begin.
#[derive(Clone, Copy)]
struct Extras {
    caller: u32,
    ctx: u32,
    deadline: Option<Tick>,
}

fn extras_of(k: u32, words: &[&str]) -> Result<Extras, Unread> {
    let mut extras = Extras {
        caller: k,
        ctx: 0,
        deadline: None,
    };
    for w in words {
        if let Some(n) = w.strip_prefix("k") {
            extras.caller = small(n)?;
        } else if let Some(n) = w.strip_prefix("c") {
            extras.ctx = small(n)?;
        } else if let Some(n) = w.strip_prefix("d") {
            extras.deadline = Some(Tick(number(n)?));
        } else {
            return Err(Unread);
        }
    }
    Ok(extras)
}

fn begin_of(op: &str, act: RecordedAct, k: u32, more: &[&str]) -> Result<Entry, Unread> {
    let extras = extras_of(k, more)?;
    Ok(Entry::Begin(
        op_of(op)?,
        extras.caller,
        Ctx(extras.ctx),
        act,
        extras.deadline,
    ))
}

fn pipe_of(text: &str) -> Result<PipeId, Unread> {
    Ok(PipeId(small(text)?))
}

fn up_of(alloc: Global, text: &str, limit: &[&str]) -> Result<Entry, Unread> {
    let p = small(text)?;
    let limit = match limit {
        [] => u32::MAX,
        [n] => small(n)?,
        _ => return Err(Unread),
    };
    let numbers = Bytes::from_slice(alloc, &[])?;
    Ok(Entry::Up(PipeId(p), p, limit, WireNumbers { numbers }))
}

fn tick_of(alloc: Global, t: &str, ops: &[&str]) -> Result<Entry, Unread> {
    let mut due = LinkedList::new(alloc);
    for op in ops {
        due.push_back(op_of(op)?)?;
    }
    Ok(Entry::Tick(Tick(number(t)?), due))
}

fn close_of(words: &[&str]) -> Result<Entry, Unread> {
    Ok(Entry::Close(Totals {
        begun: number(word(words, 1)?)?,
        won: number(word(words, 2)?)?,
        gone: number(word(words, 3)?)?,
        frames: number(word(words, 4)?)?,
        outs: number(word(words, 5)?)?,
        fulls: number(word(words, 6)?)?,
    }))
}

fn of_pipe(name: &str, p: PipeId) -> Result<Entry, Unread> {
    match name {
        "full" => Ok(Entry::Full(p)),
        "quiet" => Ok(Entry::Quiet(p)),
        "stall" => Ok(Entry::Stall(p)),
        "clear" => Ok(Entry::Clear(p)),
        "unkept" => Ok(Entry::Unkept(p)),
        "taken" => Ok(Entry::Taken(p)),
        "dry" => Ok(Entry::Dry(Ctx(p.0))),
        "open" => Ok(Entry::Ctx(Ctx(p.0), ContextChange::Open)),
        "shut" => Ok(Entry::Ctx(Ctx(p.0), ContextChange::Shut)),
        "met" => Ok(Entry::Met(p.0)),
        _ => Err(Unread),
    }
}

fn of_bytes(alloc: Global, name: &str, n: &str, bytes: &str) -> Result<Entry, Unread> {
    let n = small(n)?;
    match name {
        "frame" => Ok(Entry::Frame(PipeId(n), bytes_of(alloc, bytes)?)),
        "out" => Ok(Entry::Out(PipeId(n), bytes_of(alloc, bytes)?)),
        "on" => Ok(Entry::Topic(Ctx(n), bytes_of(alloc, bytes)?, Switch::On)),
        "off" => Ok(Entry::Topic(Ctx(n), bytes_of(alloc, bytes)?, Switch::Off)),
        "down" => Ok(Entry::Down(PipeId(n), why_of(bytes)?)),
        "noup" => Ok(Entry::NoUp(n, miss_of(bytes)?)),
        _ => Err(Unread),
    }
}

fn received_of(alloc: Global, op: &str, m: &str) -> Result<Entry, Unread> {
    let m = message_of(alloc, m)?;
    Ok(Entry::End(op_of(op)?, Ending::Won(Completion::Received(m))))
}

fn entry_of(alloc: Global, k: u32, words: &[&str]) -> Result<Entry, Unread> {
    let name = word(words, 0)?;
    let first = word(words, 1)?;
    match name {
        "up" => up_of(alloc, first, after(words, 2)),
        "recv" => begin_of(first, RecordedAct::Recv, k, after(words, 2)),
        "send" => begin_of(
            first,
            RecordedAct::Send(message_of(alloc, word(words, 2)?)?),
            k,
            after(words, 3),
        ),
        "received" => received_of(alloc, first, word(words, 2)?),
        "sent" => Ok(Entry::End(op_of(first)?, Ending::Won(Completion::Sent))),
        "took" => Ok(Entry::Took(op_of(first)?, extras_of(k, after(words, 2))?.caller)),
        "tick" => tick_of(alloc, first, after(words, 2)),
        "close" => close_of(words),
        "frame" | "out" | "on" | "off" | "down" | "noup" => of_bytes(
            alloc,
            name,
            first,
            word(words, 2)?,
        ),
        "cancelled" | "timedout" | "closed" | "superseded" | "surveyover" => {
            Ok(Entry::End(
                op_of(first)?,
                Ending::Gone(cause_of(name)?, small(word(words, 2)?)?),
            ))
        }
        _ => of_pipe(name, pipe_of(first)?),
    }
}

fn after<'a, 'b>(words: &'a [&'b str], n: usize) -> &'a [&'b str] {
    if n <= words.len() { &words[n..] } else { &[] }
}

fn words_of<'a>(alloc: Global, text: &'a str) -> Result<Vec<&'a str>, Unread> {
    let mut words = Vec::new(alloc);
    for w in text.split_whitespace() {
        words.push(w)?;
    }
    Ok(words)
}

/// Reads a line as a turn.
pub fn turn_of(alloc: Global, line: &str) -> Result<Turn<Entry>, Unread> {
    let (k, rest) = match line.split_once(':') {
        Some((k, rest)) => (small(k)?, rest),
        None => (1, line),
    };
    let mut entries = LinkedList::new(alloc);
    for part in rest.split(',') {
        let words = words_of(alloc, part)?;
        if !words.is_empty() {
            entries.push_back(entry_of(alloc, k, words.as_slice())?)?;
        }
    }
    Ok(Turn { number: k, entries })
}

// ---- Settings

fn role_of(text: &str) -> Result<Role, Unread> {
    match text {
        "pair0" => Ok(Role::Pair0),
        "pair1" => Ok(Role::Pair1),
        "pub" => Ok(Role::Pub),
        "sub" => Ok(Role::Sub),
        "req" => Ok(Role::Req),
        "rep" => Ok(Role::Rep),
        "push" => Ok(Role::Push),
        "pull" => Ok(Role::Pull),
        "surveyor" => Ok(Role::Surveyor),
        "respondent" => Ok(Role::Respondent),
        "bus" => Ok(Role::Bus),
        _ => Err(Unread),
    }
}

fn with_option(z: Setting, w: &str) -> Result<Setting, Unread> {
    let mut z = z;
    if w == "raw" {
        z.raw = true;
    } else if w == "old" {
        z.options.prefer_new = false;
    } else if let Some(n) = w.strip_prefix("slots") {
        z.slots = small(n)?;
    } else if let Some(n) = w.strip_prefix("queue") {
        z.options.queue = small(n)?;
    } else if let Some(n) = w.strip_prefix("dice") {
        z.options.dice = small(n)?;
    } else if let Some(n) = w.strip_prefix("ttl") {
        z.options.ttl = smaller(n)?;
    } else if let Some(n) = w.strip_prefix("survey") {
        z.options.survey = number(n)?;
    } else if let Some(n) = w.strip_prefix("resend") {
        z.options.resend = number(n)?;
    } else {
        return Err(Unread);
    }
    Ok(z)
}

/// Reads the setting in `= NAME ROLE OPTION..`: 2 slots, 2 callers, a queue of 2, and otherwise the usual values,
/// except for the options.
pub fn setting_of(alloc: Global, title: &str) -> Result<Setting, Unread> {
    let words = words_of(alloc, title)?;
    let words = words.as_slice();
    let role = role_of(word(words, 2)?)?;
    let options = Options {
        queue: 2,
        ..Options::usual(role, 0)
    };
    let mut z = Setting {
        role,
        raw: false,
        options,
        slots: 2,
        callers: 2,
    };
    for w in after(words, 3) {
        z = with_option(z, w)?;
    }
    Ok(z)
}
