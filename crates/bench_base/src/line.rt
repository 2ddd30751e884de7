//! A line of a text, and the words in it.
use crate::number::{Number, count_of, number_of};

/// A line that is read word by word, at one size. A word that is missing, or isn't what is asked for, makes the line
/// wrong, and reads as 0 or nothing.
#[derive(Clone, Copy)]
pub struct Line<'a> {
    size: u32,
    /// The part that was not read, or `None` where all was read.
    rest: Option<&'a str>,
    is_wrong: bool,
}

impl<'a> Line<'a> {
    /// A line from its start.
    pub fn new(size: u32, text: &'a str) -> Line<'a> {
        Line {
            size,
            rest: Some(text.trim()),
            is_wrong: false,
        }
    }

    /// The next word.
    pub fn word(&mut self) -> &'a str {
        let Some(text) = self.rest else {
            self.is_wrong = true;
            return "";
        };
        match text.split_once(' ') {
            Some((word, rest)) => {
                self.rest = Some(rest);
                word
            }
            None => {
                self.rest = None;
                text
            }
        }
    }

    /// The next word as a number that is always the same.
    pub fn count(&mut self) -> u32 {
        match count_of(self.size, self.word()) {
            Some(count) => count,
            None => {
                self.is_wrong = true;
                0
            }
        }
    }

    /// The next word as a number.
    pub fn number(&mut self) -> Option<Number> {
        number_of(self.size, self.word())
    }

    /// The rest of the line.
    pub fn rest(&mut self) -> &'a str {
        match self.rest {
            Some(text) => {
                self.rest = None;
                text
            }
            None => "",
        }
    }

    /// Returns whether every word was read, and each was what was asked for.
    pub fn is_read(&self) -> bool {
        !self.is_wrong && self.rest.is_none()
    }
}
