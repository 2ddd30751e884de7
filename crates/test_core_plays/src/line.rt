//! The lines of a play's text, and the words in them.
use std::alloc::Global;

/// What a line of a text says without its indentation; `None` where it is blank or a comment.
pub fn call_of(line: &str) -> Option<&str> {
    let call = line.trim_start();
    if call.is_empty() || call.starts_with("//") {
        None
    } else {
        Some(call)
    }
}

/// The bytes of a word, if it is one of bytes and there is memory for them.
pub fn bytes_of(alloc: Global, word: &str) -> Option<Vec<u8>> {
    let (digits, text) = word.split_once('\'')?;
    let Ok(mut bytes) = hex::decode(alloc, digits) else {
        return None;
    };
    match bytes.extend_from_slice(text.as_bytes()) {
        Ok(()) => Some(bytes),
        Err(_) => None,
    }
}

/// A line that is read word by word. A word that is missing, or isn't what is asked for, makes the line wrong, and
/// reads as 0 or nothing.
#[derive(Clone, Copy)]
pub struct PlayLine<'a> {
    alloc: Global,
    /// The part that was not read, or `None` where all was read.
    rest: Option<&'a str>,
    is_wrong: bool,
}

impl<'a> PlayLine<'a> {
    /// A line from its start.
    pub fn new(alloc: Global, text: &'a str) -> PlayLine<'a> {
        PlayLine {
            alloc,
            rest: Some(text),
            is_wrong: false,
        }
    }

    /// Makes the line wrong.
    pub fn mark_wrong(&mut self) {
        self.is_wrong = true;
    }

    /// The next word.
    pub fn word(&mut self) -> &'a str {
        let Some(text) = self.rest else {
            self.mark_wrong();
            return "";
        };
        match text.split_once(' ') {
            Some((word, rest)) => {
                self.rest = Some(rest);
                word
            }
            None => {
                self.rest = None;
                text
            }
        }
    }

    /// Returns whether the next word is `word`.
    pub fn says(&mut self, word: &str) -> bool {
        self.word() == word
    }

    /// The next word, which is `true` or `false`.
    pub fn flag(&mut self) -> bool {
        match self.word() {
            "true" => true,
            "false" => false,
            _ => {
                self.mark_wrong();
                false
            }
        }
    }

    /// The next word as a number.
    pub fn number(&mut self) -> u32 {
        match self.word().parse::<u32>() {
            Ok(number) => number,
            Err(_) => {
                self.mark_wrong();
                0
            }
        }
    }

    /// The next word as a number that may be larger.
    pub fn long(&mut self) -> u64 {
        match self.word().parse::<u64>() {
            Ok(number) => number,
            Err(_) => {
                self.mark_wrong();
                0
            }
        }
    }

    /// The bytes of the next word.
    pub fn bytes(&mut self) -> Vec<u8> {
        match bytes_of(self.alloc, self.word()) {
            Some(bytes) => bytes,
            None => {
                self.mark_wrong();
                Vec::new(self.alloc)
            }
        }
    }

    /// As many zeros as the next word says.
    pub fn zeros(&mut self) -> Vec<u8> {
        let count = self.number() as usize;
        match vec![in self.alloc; 0u8; count] {
            Ok(bytes) => bytes,
            Err(_) => {
                self.mark_wrong();
                Vec::new(self.alloc)
            }
        }
    }

    /// The rest of the line.
    pub fn rest(&mut self) -> &'a str {
        match self.rest {
            Some(text) => {
                self.rest = None;
                text
            }
            None => "",
        }
    }

    /// Returns whether every word was read, and each was what was asked for.
    pub fn is_read(&self) -> bool {
        !self.is_wrong && self.rest.is_none()
    }
}
