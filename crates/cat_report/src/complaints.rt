//! What nngcat prints on standard error when it ends with a status other than 0, or could not deliver everything to its
//! peers (nngcat(1)).
use crate::addresses::fault_of;
use crate::said::{Said, is_end, missing, said_at};
use crate::spellings::spelling_of;
use cat_play::ends::complaint;
use cat_play::status::Status;
use cat_text::{Format, name_word, print};
use sp_base::{Bytes, NoMemory};
use std::alloc::Global;

/// How a run ended.
#[derive(Clone, Copy)]
pub struct Ending<'a> {
    /// Its status.
    pub status: Status,
    /// The system's message, where a call of the system failed.
    pub reason: Option<&'a str>,
}

/// A part of the system that a run needs before it begins.
#[derive(Clone, Copy, Debug, PartialEq, Eq)]
pub enum Part {
    /// The source of random numbers.
    Random,
    /// The clock, or the readiness of sockets.
    Clock,
}

impl Part {
    fn name(self) -> &'static str {
        match self {
            Part::Random => "random numbers",
            Part::Clock => "clock and readiness of sockets",
        }
    }
}

// Prints the line of the status.
fn complain<E: Print>(err: &E, alloc: Global, status: Status) {
    let Ok(mut line) = Bytes::from_slice(alloc, b"") else {
        return;
    };
    if complaint(alloc, status, &mut line).is_ok() {
        let _ = err.write_all(line.as_slice());
    }
}

// Prints a line that helps the reader.
fn hint<E: Print>(err: &E, text: &str) {
    let _ = println!(err; "nngcat: {text}");
}

// Prints the system's message.
fn say_reason<E: Print>(err: &E, reason: Option<&str>) {
    if let Some(reason) = reason {
        hint(err, reason);
    }
}

/// Prints that the words could not be read.
pub fn say_no_words<E: Print>(err: &E, alloc: Global, status: Status) {
    complain(err, alloc, status);
    if let Status::Usage { at: _ } = status {
        hint(err, "see nngcat --help; a word is not UTF-8");
    }
}

/// Prints that a part of the system failed before the run began.
pub fn say_start<E: Print>(err: &E, alloc: Global, status: Status, part: Part, reason: &str) {
    complain(err, alloc, status);
    let name = part.name();
    let _ = println!(err; "nngcat: {name}: {reason}");
}

/// Prints that `left` links ended before their peers had closed them.
pub fn say_left_links<E: Print>(err: &E, left: u32) {
    if left > 0 {
        let _ = println!(err;
            "nngcat: links that a peer did not close in time: {left}; what was sent last may not have arrived"
        );
    }
}

// Appends a text as the format Quoted prints it, after the bytes of `before`.
fn put_quoted(alloc: Global, before: &[u8], text: &[u8], line: &mut Bytes) -> Result<(), NoMemory> {
    line.append(b"nngcat: ")?;
    line.append(before)?;
    line.append(b" ")?;
    print(alloc, Format::Quoted, text, line)
}

fn say_quoted<E: Print>(err: &E, alloc: Global, before: &[u8], text: &[u8]) {
    let Ok(mut line) = Bytes::from_slice(alloc, b"") else {
        return;
    };
    if put_quoted(alloc, before, text, &mut line).is_ok() {
        let _ = err.write_all(line.as_slice());
    }
}

// Prints the word, with no byte in it that a terminal would take for a command.
fn say_word<E: Print>(err: &E, alloc: Global, word: &str) {
    let Ok(mut line) = Bytes::from_slice(alloc, b"") else {
        return;
    };
    if name_word(alloc, word, &mut line).is_ok() {
        let _ = err.write_all(line.as_slice());
    }
}

// Prints what replaces an option of NNG's own nngcat.
fn say_spelling<E: Print>(err: &E, word: &str) {
    let name = match word.split_once('=') {
        Some((name, _)) => name,
        None => word,
    };
    if let Some(ours) = spelling_of(name) {
        let _ = println!(err; "nngcat: in place of {name}: {ours}");
    }
}

// The option whose value is in the word at this place.
fn option_at(words: &[String], at: usize) -> Option<Said<'_>> {
    let mut next = 0;
    for _ in 0..words.len() {
        let said = said_at(words, next)?;
        if said.value_at == at {
            return Some(said);
        }
        next = said.value_at.saturating_add(1);
    }
    None
}

// Prints where the value of an end stops being an address.
fn say_address<E: Print>(err: &E, alloc: Global, words: &[String], at: usize) {
    let Some(said) = option_at(words, at) else {
        return;
    };
    if !is_end(said.name) {
        return;
    }
    if let Some(fault) = fault_of(alloc, said.value.unwrap_or("")) {
        let at = fault.at;
        match format!(in alloc; "no address goes on at byte {at} with") {
            Ok(before) => say_quoted(err, alloc, before.as_bytes(), fault.rest),
            Err(_) => (),
        }
    }
}

// Prints the place of the wrong word, and the word.
fn say_wrong<E: Print>(err: &E, alloc: Global, words: &[String], at: u32) {
    complain(err, alloc, Status::Usage { at });
    match words.get(at as usize) {
        Some(word) => {
            say_spelling(err, word.as_str());
            say_word(err, alloc, word.as_str());
            say_address(err, alloc, words, at as usize);
        }
        None => {
            let lack = missing(words);
            let _ = println!(err;
                "nngcat: see nngcat --help; a word is missing at the end: {lack}"
            );
        }
    }
}

// Prints each option of this name.
fn say_options<E: Print>(err: &E, alloc: Global, words: &[String], name: &str) {
    let mut next = 0;
    for _ in 0..words.len() {
        let Some(said) = said_at(words, next) else {
            return;
        };
        if said.name == name {
            say_quoted(
                err,
                alloc,
                name.as_bytes(),
                said.value.unwrap_or("").as_bytes(),
            );
        }
        next = said.value_at.saturating_add(1);
    }
}

// Prints what failed in the net: the system's message if there is one, otherwise each address to listen on.
fn say_net<E: Print>(err: &E, alloc: Global, words: &[String], reason: Option<&str>) {
    match reason {
        Some(reason) => hint(err, reason),
        None => say_options(err, alloc, words, "--listen"),
    }
}

/// Prints how a run of these words ended: where a word is wrong, which one, and what replaces it; where a file failed,
/// or an address to listen on, each one that was named, and the system's message.
pub fn say<E: Print>(err: &E, alloc: Global, words: &[String], ending: Ending<'_>) {
    match ending.status {
        Status::Usage { at } => say_wrong(err, alloc, words, at),
        Status::FileFault => {
            complain(err, alloc, ending.status);
            say_options(err, alloc, words, "--file");
            say_reason(err, ending.reason);
        }
        Status::NetFault => {
            complain(err, alloc, ending.status);
            say_net(err, alloc, words, ending.reason);
        }
        Status::OutFault => {
            complain(err, alloc, ending.status);
            say_reason(err, ending.reason);
        }
        Status::Done | Status::SendTimedOut | Status::Over | Status::NoMemory => complain(
            err,
            alloc,
            ending.status,
        ),
    }
}
