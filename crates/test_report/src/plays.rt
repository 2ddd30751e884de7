//! A play of a report: a text with a call on each line, followed by what was said.
//!
//! - `words TEXT`: the words of the command, between single spaces; `words` by itself: no words.
//! - `reason TEXT`: what the machine said; it is kept until the next `words`.
//! - `ends STATUS`: a run ends with this status. STATUS is `done`, `usage N`, `send`, `over`, `net`, `out`, `file` or
//!   `memory`.
//! - `unread STATUS`: the words could not be read.
//! - `starts random`, `starts clock`: that part of the machine failed, for the reason.
//! - `left N`: N links were left.
//! - `says TEXT`: the next line that was said; `quiet`: nothing more was said.
use crate::checks::made;
use crate::page::Page;
use cat_report::{Ending, Part, say, say_left_links, say_no_words, say_start};
use cat_run::Status;
use std::alloc::Global;
use std::process::Abort;

/// The state of a play.
#[derive(Drop)]
struct Report<'a> {
    page: Page,
    alloc: Global,
    words: Vec<String>,
    reason: Option<&'a str>,
    // What was said and not compared yet.
    said: Vec<u8>,
}

// The words between single spaces.
fn words_of(rt: &impl Abort, alloc: Global, text: &str) -> Vec<String> {
    let mut list = Vec::new(alloc);
    if text.is_empty() {
        return list;
    }
    for word in text.split(' ') {
        let word = made(rt, String::from_str(alloc, word));
        made(rt, list.push(word));
    }
    list
}

fn status_of(text: &str) -> Option<Status> {
    if let Some(at) = text.strip_prefix("usage ") {
        return Some(Status::Usage {
            at: at.parse().ok()?,
        });
    }
    match text {
        "done" => Some(Status::Done),
        "send" => Some(Status::SendTimedOut),
        "over" => Some(Status::Over),
        "net" => Some(Status::NetFault),
        "out" => Some(Status::OutFault),
        "file" => Some(Status::FileFault),
        "memory" => Some(Status::NoMemory),
        _ => None,
    }
}

fn part_of(text: &str) -> Option<Part> {
    match text {
        "random" => Some(Part::Random),
        "clock" => Some(Part::Clock),
        _ => None,
    }
}

impl<'a> Report<'a> {
    fn ends(&mut self, text: &str) -> bool {
        let Some(status) = status_of(text) else {
            return false;
        };
        let reason = self.reason;
        say(
            &self.page,
            self.alloc,
            &self.words,
            Ending { status, reason },
        );
        true
    }

    fn unread(&mut self, text: &str) -> bool {
        match status_of(text) {
            Some(status) => {
                say_no_words(&self.page, self.alloc, status);
                true
            }
            None => false,
        }
    }

    fn starts(&mut self, text: &str) -> bool {
        match part_of(text) {
            Some(part) => {
                let reason = self.reason.unwrap_or("");
                say_start(&self.page, self.alloc, Status::FileFault, part, reason);
                true
            }
            None => false,
        }
    }

    fn left(&mut self, text: &str) -> bool {
        match text.parse::<u32>() {
            Ok(left) => {
                say_left_links(&self.page, left);
                true
            }
            Err(_) => false,
        }
    }

    // Returns whether the next line is this one. It is removed.
    fn says(&mut self, line: &str) -> bool {
        let count = line.len();
        if !self.said.starts_with(line.as_bytes()) || self.said.get(count) != Some(&b'\n') {
            return false;
        }
        self.said.drain(..count.saturating_add(1));
        true
    }

    // Plays one line, and returns whether it is right.
    fn plays(&mut self, rt: &impl Abort, call: &str, text: &'a str) -> bool {
        match call {
            "words" => {
                self.words = words_of(rt, self.alloc, text);
                self.reason = None;
                true
            }
            "reason" => {
                self.reason = Some(text);
                true
            }
            "ends" => self.ends(text),
            "unread" => self.unread(text),
            "starts" => self.starts(text),
            "left" => self.left(text),
            "says" => return self.says(text),
            "quiet" => return self.said.is_empty(),
            _ => false,
        }
    }
}

/// The number of the first line that is wrong, from 1 on; `None` where all are right.
pub fn wrong_line(rt: &impl Abort, alloc: Global, play: &str) -> Option<u32> {
    let mut report = Report {
        page: Page::new(alloc, false),
        alloc,
        words: Vec::new(alloc),
        reason: None,
        said: Vec::new(alloc),
    };
    let mut number: u32 = 0;
    for line in play.split('\n') {
        number = number.saturating_add(1);
        let line = line.trim();
        let (call, text) = match line.split_once(' ') {
            Some((call, text)) => (call, text),
            None => (line, ""),
        };
        if line.is_empty() {
            continue;
        }
        if !report.plays(rt, call, text) {
            return Some(number);
        }
        let mut said = report.page.take();
        made(rt, report.said.append(&mut said));
    }
    None
}
