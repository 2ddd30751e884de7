//! Texts that are played. Each line is a call, with what it returns. Words are separated by spaces; a blank line is
//! skipped. A line that isn't a call, a number that is too large and a leftover word are wrong.
use std::alloc::Global;
use std::fmt::Debug;
use std::process::Abort;
use std::sync::Wait;

/// What a text is played on.
pub trait Playing {
    /// Makes the line's call, and returns whether the result is what the line says.
    fn is_right<R: Wait>(&mut self, rt: &R, alloc: Global, line: &mut PlayedLine<'_>) -> bool;
}

/// Plays the text, and aborts at the first line that is wrong.
pub fn plays<R: Wait + Abort, P: Playing>(rt: &R, alloc: Global, player: &mut P, text: &str) {
    let mut number = 0usize;
    for line in text.lines() {
        number = number.saturating_add(1);
        let mut line = PlayedLine::new(line);
        if !line.is_blank() && !(player.is_right(rt, alloc, &mut line) && line.is_read()) {
            panic!(rt; "line {number} is wrong");
        }
    }
}

/// A line that is read word by word. A word that is missing, or isn't what is asked for, makes the line wrong, and
/// reads as 0 or nothing.
#[derive(Drop)]
pub struct PlayedLine<'a> {
    rest: &'a str,
    is_wrong: bool,
}

impl<'a> PlayedLine<'a> {
    /// A line from its start.
    pub fn new(text: &'a str) -> PlayedLine<'a> {
        PlayedLine {
            rest: text,
            is_wrong: false,
        }
    }

    /// Makes the line wrong.
    pub fn mark_wrong(&mut self) {
        self.is_wrong = true;
    }

    /// Returns whether the line is blank.
    pub fn is_blank(&self) -> bool {
        self.rest.trim().is_empty()
    }

    /// The next word; it is empty where none is left.
    pub fn word(&mut self) -> &'a str {
        let text = self.rest.trim_start();
        match text.split_once(' ') {
            Some((word, rest)) => {
                self.rest = rest;
                word
            }
            None => {
                self.rest = "";
                text
            }
        }
    }

    /// The next word as a number.
    pub fn number(&mut self) -> u64 {
        match self.word().parse::<u64>() {
            Ok(number) => number,
            Err(_) => {
                self.is_wrong = true;
                0
            }
        }
    }

    /// The next word as a smaller number.
    pub fn small(&mut self) -> u32 {
        match u32::try_from(self.number()) {
            Ok(number) => number,
            Err(_) => {
                self.is_wrong = true;
                0
            }
        }
    }

    /// The bytes of the next word after its apostrophe: `'abc`, `'` for none.
    pub fn bytes(&mut self) -> &'a [u8] {
        match self.word().strip_prefix('\'') {
            Some(text) => text.as_bytes(),
            None => {
                self.is_wrong = true;
                b""
            }
        }
    }

    /// The rest of the line.
    pub fn rest(&mut self) -> &'a str {
        let rest = self.rest;
        self.rest = "";
        rest
    }

    /// Returns whether the rest of the line is `it`, as `Debug` writes it.
    pub fn says<T: Debug + Drop>(&mut self, alloc: Global, it: T) -> bool {
        let rest = self.rest();
        match format!(in alloc; "{it:?}") {
            Ok(text) => text.as_str() == rest,
            Err(_) => false,
        }
    }

    /// Returns whether every word was read, and each was what was asked for.
    pub fn is_read(&self) -> bool {
        !self.is_wrong && self.is_blank()
    }
}
