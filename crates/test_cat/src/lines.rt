//! Runs as lines of words: the system around a run, its result, and what is compared with it.
//!
//! | line | what it says |
//! |---|---|
//! | `words WORD..` | the words of the runs below; two apostrophes are an empty word |
//! | `link STEP..`, `links COUNT STEP..` | one more link, or COUNT more, each with this script |
//! | `listener` | the links below come at one more listener |
//! | `dials PORT`, `dials PORT PATH` | the links below are for dials to this port of 127.0.0.1, over TCP or WebSocket |
//! | `dials ipc PATH` | the links below are for dials to this path over IPC |
//! | `pace TURNS STEP` | how many turns the pace has, and how many milliseconds apart |
//! | `net_fails N`, `sink_fails N` | the Nth call of the net or the sink fails |
//! | `comes STATUS` | the words are run, and have this status; the lines below are about this run |
//! | `exit N` | its exit code |
//! | `record yes`, `record no` | whether it has a record |
//! | `opened N`, `left N`, `below N`, `above N` | the links handed out; the turns left, and bounds on them |
//! | `prints BYTES..` | what was printed |
//! | `writes BYTES..`, `second BYTES..` | what was written on the first link, and on the second |
//! | `prints_one BYTES.. | BYTES..` | one of these was printed |
//! | `length N`, `longer N`, `shorter N` | how many bytes were written on the first link, and bounds on that |
//! | `tail BYTES..` | what was written on the first link ends with this |
//!
//! A step is bytes, which come at once, or `wait:N` (N times nothing), `after:N` (nothing until N bytes were written),
//! `end`, `fail`; before them there may be `take:N` (a write takes N bytes) and `single` (bytes come one at a time).
//! Bytes are hex digits, an apostrophe and text, as `0000'a` with two bytes of 0 before the `a`, or the name of a text
//! in `named`. A link's piece may be several of these with plus signs between them; all bytes of a line are compared
//! together. A line that is none of these, or lacks a word, fails its test.
use crate::checks::made;
use crate::texts::named;
use cat_fakes::{ALL, Came, Outside, TURNS, play};
use cat_run::{Status, exit_code};
use sp_base::{Addr, Bytes, Host};
use sp_fakes::{LinkStep, MemLink};
use std::alloc::Global;
use std::mem;
use std::process::Abort;
use std::sync::Wait;
use std::thread::Threads;

// ---- Words

// The first word, and the rest.
fn cut(line: &str) -> (&str, &str) {
    match line.split_once(' ') {
        Some(parts) => parts,
        None => (line, ""),
    }
}

fn number(word: &str) -> Option<u64> {
    match word.parse::<u64>() {
        Ok(n) => Some(n),
        Err(_) => None,
    }
}

fn small(word: &str) -> Option<u32> {
    match word.parse::<u32>() {
        Ok(n) => Some(n),
        Err(_) => None,
    }
}

fn size(word: &str) -> Option<usize> {
    match word.parse::<usize>() {
        Ok(n) => Some(n),
        Err(_) => None,
    }
}

fn digit(byte: u8) -> Option<u8> {
    match byte {
        b'0'..=b'9' => Some(byte - b'0'),
        b'a'..=b'f' => Some(byte - b'a' + 10),
        _ => None,
    }
}

// Appends the bytes of the hex digits. Returns whether they are pairs of digits.
fn add_hex(rt: &impl Abort, bytes: &mut Bytes, hex: &str) -> bool {
    let mut high = None;
    for byte in hex.as_bytes() {
        let Some(low) = digit(*byte) else {
            return false;
        };
        high = match high {
            None => Some(low),
            Some(first) => {
                let both: u8 = first;
                made(
                    rt,
                    bytes.append(&[both.saturating_mul(16).saturating_add(low)]),
                );
                None
            }
        };
    }
    high.is_none()
}

// Appends the bytes of the word. Returns whether it has some.
fn add_bytes(rt: &impl Abort, bytes: &mut Bytes, word: &str) -> bool {
    match word.split_once('\'') {
        Some((hex, text)) => {
            if !add_hex(rt, bytes, hex) {
                return false;
            }
            made(rt, bytes.append(text.as_bytes()));
            true
        }
        None => match named(word) {
            Some(text) => {
                made(rt, bytes.append(text.as_bytes()));
                true
            }
            None => false,
        },
    }
}

/// The bytes of the words, one after another; `None` where there is no word.
pub fn bytes_of(rt: &impl Abort, alloc: Global, words: &str) -> Option<Bytes> {
    if words.is_empty() {
        return None;
    }
    let mut bytes = made(rt, Bytes::from_slice(alloc, b""));
    for word in words.split_whitespace() {
        if !add_bytes(rt, &mut bytes, word) {
            return None;
        }
    }
    Some(bytes)
}

// The bytes of a word made of several with plus signs between them.
fn piece_of(rt: &impl Abort, alloc: Global, word: &str) -> Option<Bytes> {
    let mut bytes = made(rt, Bytes::from_slice(alloc, b""));
    for part in word.split('+') {
        if !add_bytes(rt, &mut bytes, part) {
            return None;
        }
    }
    Some(bytes)
}

// ---- What is outside of a run

/// A link that is being made.
#[derive(Drop)]
struct LinkWords {
    script: Vec<LinkStep>,
    take: usize,
    is_single: bool,
}

impl LinkWords {
    fn push(&mut self, rt: &impl Abort, step: LinkStep) {
        made(rt, self.script.push(step))
    }

    fn wait(&mut self, rt: &impl Abort, times: u64) {
        for _ in 0..times {
            self.push(rt, LinkStep::NotYet);
        }
    }

    // Adds bytes that come at once, or one at a time.
    fn say(&mut self, rt: &impl Abort, alloc: Global, bytes: Bytes) {
        if self.is_single {
            for byte in bytes.as_slice() {
                let one = made(rt, Bytes::from_slice(alloc, &[*byte]));
                self.push(rt, LinkStep::Bytes(one));
            }
        } else {
            self.push(rt, LinkStep::Bytes(bytes))
        }
    }

    // Adds nothing `n` times, or nothing until `n` bytes were written. Returns whether the kind is one of these.
    fn add_pause(&mut self, rt: &impl Abort, kind: &str, n: u64) -> bool {
        match kind {
            "wait" => self.wait(rt, n),
            "after" => self.push(rt, LinkStep::After(n)),
            _ => return false,
        }
        true
    }

    // Adds a word with a number. Returns whether it is one.
    fn add_counted(&mut self, rt: &impl Abort, word: &str) -> bool {
        let Some((kind, n)) = word.split_once(':') else {
            return false;
        };
        if kind == "take" {
            return self.set_take(n);
        }
        match number(n) {
            Some(n) => self.add_pause(rt, kind, n),
            None => false,
        }
    }

    fn set_take(&mut self, n: &str) -> bool {
        match size(n) {
            Some(take) => {
                self.take = take;
                true
            }
            None => false,
        }
    }

    // Adds one more word. Returns whether it is one of a link.
    fn add(&mut self, rt: &impl Abort, alloc: Global, word: &str) -> bool {
        match word {
            "end" => self.push(rt, LinkStep::End),
            "fail" => self.push(rt, LinkStep::Fail),
            "single" => self.is_single = true,
            _ => match piece_of(rt, alloc, word) {
                Some(bytes) => self.say(rt, alloc, bytes),
                None => return self.add_counted(rt, word),
            },
        }
        true
    }
}

/// The link of the words.
pub fn link(rt: &impl Abort, alloc: Global, words: &str) -> Option<MemLink> {
    let mut link = LinkWords {
        script: Vec::new(alloc),
        take: ALL,
        is_single: false,
    };
    for word in words.split_whitespace() {
        if !link.add(rt, alloc, word) {
            return None;
        }
    }
    let LinkWords {
        script,
        take,
        is_single: _,
    } = link;
    Some(MemLink::new(alloc, script, take, Vec::new(alloc)))
}

/// A system where nothing comes at the first listen, no dial gets a link, and nothing fails.
pub fn bare(rt: &impl Abort, alloc: Global) -> Outside {
    let mut incoming = Vec::new(alloc);
    made(rt, incoming.push(Vec::new(alloc)));
    Outside {
        incoming,
        outgoing: Vec::new(alloc),
        net_fails: Vec::new(alloc),
        sink_fails: Vec::new(alloc),
        turns: TURNS,
        step: 1,
    }
}

// Adds a link at the last address that is dialed, or at the last listener where none is.
fn add_link(rt: &impl Abort, outside: &mut Outside, link: MemLink) {
    if let Some((addr, mut links)) = outside.outgoing.pop() {
        made(rt, links.push(link));
        made(rt, outside.outgoing.push((addr, links)));
        return;
    }
    if let Some(mut links) = outside.incoming.pop() {
        made(rt, links.push(link));
        made(rt, outside.incoming.push(links));
    }
}

// Adds more links, each of these words.
fn add_links(
    rt: &impl Abort,
    alloc: Global,
    outside: &mut Outside,
    count: u32,
    words: &str,
) -> bool {
    for _ in 0..count {
        match link(rt, alloc, words) {
            Some(link) => add_link(rt, outside, link),
            None => return false,
        }
    }
    true
}

// The address with this port, over TCP where no path follows it; or over IPC.
fn address(rt: &impl Abort, alloc: Global, words: &str) -> Option<Addr> {
    let (port, path) = cut(words);
    if port == "ipc" {
        let path = made(rt, Bytes::from_slice(alloc, path.as_bytes()));
        return Some(Addr::Ipc { path });
    }
    let port = match port.parse::<u16>() {
        Ok(port) => port,
        Err(_) => return None,
    };
    let host = Host::V4(127, 0, 0, 1);
    if path.is_empty() {
        Some(Addr::Tcp { host, port })
    } else {
        let path = made(rt, Bytes::from_slice(alloc, path.as_bytes()));
        Some(Addr::Ws { host, port, path })
    }
}

fn add_dials(rt: &impl Abort, alloc: Global, outside: &mut Outside, words: &str) -> bool {
    match address(rt, alloc, words) {
        Some(addr) => {
            made(rt, outside.outgoing.push((addr, Vec::new(alloc))));
            true
        }
        None => false,
    }
}

fn set_pace(outside: &mut Outside, words: &str) -> bool {
    let (turns, step) = cut(words);
    match (number(turns), number(step)) {
        (Some(turns), Some(step)) => {
            outside.turns = turns;
            outside.step = step;
            true
        }
        _ => false,
    }
}

fn add_number(rt: &impl Abort, numbers: &mut Vec<u64>, word: &str) -> bool {
    match number(word) {
        Some(n) => {
            made(rt, numbers.push(n));
            true
        }
        None => false,
    }
}

/// Adds what a line says about the system around a run. Returns whether it is such a line.
pub fn arrange(rt: &impl Abort, alloc: Global, outside: &mut Outside, line: &str) -> bool {
    let (key, words) = cut(line);
    match key {
        "link" => add_links(rt, alloc, outside, 1, words),
        "links" => {
            let (count, words) = cut(words);
            match small(count) {
                Some(count) => add_links(rt, alloc, outside, count, words),
                None => false,
            }
        }
        "listener" => {
            made(rt, outside.incoming.push(Vec::new(alloc)));
            words.is_empty()
        }
        "dials" => add_dials(rt, alloc, outside, words),
        "pace" => set_pace(outside, words),
        "net_fails" => add_number(rt, &mut outside.net_fails, words),
        "sink_fails" => add_number(rt, &mut outside.sink_fails, words),
        _ => false,
    }
}

// ---- The result of a run

/// Returns whether it is the status of this name.
pub fn is_status(status: Status, word: &str) -> bool {
    match word {
        "done" => status == Status::Done,
        "over" => status == Status::Over,
        "send_timed_out" => status == Status::SendTimedOut,
        "net_fault" => status == Status::NetFault,
        "out_fault" => status == Status::OutFault,
        "file_fault" => status == Status::FileFault,
        _ => match word.split_once(':') {
            Some(("usage", at)) => match small(at) {
                Some(at) => status == Status::Usage { at },
                None => false,
            },
            _ => false,
        },
    }
}

// Returns whether these are the bytes of the words.
fn are(rt: &impl Abort, alloc: Global, bytes: &[u8], words: &str) -> bool {
    match bytes_of(rt, alloc, words) {
        Some(wanted) => bytes == wanted.as_slice(),
        None => false,
    }
}

// Returns whether these are the bytes of one of the words between bars.
fn is_one_of(rt: &impl Abort, alloc: Global, bytes: &[u8], words: &str) -> bool {
    for one in words.split('|') {
        if are(rt, alloc, bytes, one) {
            return true;
        }
    }
    false
}

fn end_so(rt: &impl Abort, alloc: Global, bytes: &[u8], words: &str) -> bool {
    match bytes_of(rt, alloc, words) {
        Some(wanted) => bytes.ends_with(wanted.as_slice()),
        None => false,
    }
}

/// Returns whether what the line says about the run is true.
pub fn is_so(rt: &impl Abort, alloc: Global, came: &Came, line: &str) -> bool {
    let (key, words) = cut(line);
    match key {
        "record" => words == if came.has_record { "yes" } else { "no" },
        "exit" => number(words) == Some(exit_code(came.status) as u64),
        "opened" => small(words) == Some(came.opened),
        "left" => number(words) == Some(came.left),
        "below" => match number(words) {
            Some(n) => came.left < n,
            None => false,
        },
        "above" => match number(words) {
            Some(n) => came.left > n,
            None => false,
        },
        "prints" => are(rt, alloc, came.printed.as_slice(), words),
        "prints_one" => is_one_of(rt, alloc, came.printed.as_slice(), words),
        "writes" => are(rt, alloc, came.written.as_slice(), words),
        "second" => are(rt, alloc, came.second.as_slice(), words),
        "length" => size(words) == Some(came.written.len()),
        "longer" => match size(words) {
            Some(n) => came.written.len() > n,
            None => false,
        },
        "shorter" => match size(words) {
            Some(n) => came.written.len() < n,
            None => false,
        },
        "tail" => end_so(rt, alloc, came.written.as_slice(), words),
        _ => false,
    }
}

// The state of runs that lines describe.
#[derive(Drop)]
struct RunState<'a> {
    words: &'a str,
    outside: Outside,
    came: Option<Came>,
}

/// Runs these words.
pub fn play_words<R: AllocGlobal + Wait + Threads + Sync + Abort>(
    rt: &R,
    words: &str,
    outside: Outside,
) -> Came {
    let mut texts = Vec::new(rt.alloc());
    for word in words.split_whitespace() {
        made(rt, texts.push(if word == "''" { "" } else { word }));
    }
    made(rt, play(rt, texts.as_slice(), outside))
}

// Plays one more line. Returns whether it is right.
fn takes<'a, R: AllocGlobal + Wait + Threads + Sync + Abort>(
    rt: &R,
    runs: &mut RunState<'a>,
    line: &'a str,
) -> bool {
    let alloc = rt.alloc();
    let (key, words) = cut(line);
    match key {
        "words" => {
            runs.words = words;
            true
        }
        "comes" => {
            let outside = mem::replace(&mut runs.outside, bare(rt, alloc));
            let came = play_words(rt, runs.words, outside);
            let is_right = is_status(came.status, words);
            runs.came = Some(came);
            is_right
        }
        _ => {
            if arrange(rt, alloc, &mut runs.outside, line) {
                return true;
            }
            match &runs.came {
                Some(came) => is_so(rt, alloc, came, line),
                None => false,
            }
        }
    }
}

/// Runs what the lines describe, and compares the results. Aborts at the first line that isn't right.
pub fn runs<R: AllocGlobal + Wait + Threads + Sync + Abort>(rt: &R, text: &str) {
    let mut runs = RunState {
        words: "",
        outside: bare(rt, rt.alloc()),
        came: None,
    };
    let mut n: u32 = 0;
    for line in text.trim().split('\n') {
        n = n.saturating_add(1);
        if !takes(rt, &mut runs, line.trim()) {
            panic!(rt; "line {n} is not so: {line}")
        }
    }
}
