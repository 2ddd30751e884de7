//! A call of a play's text, and the words in it.
use sp_base::OpName;
use std::alloc::Global;

/// A call that is read word by word. Words have single spaces between them. A word that is missing, or isn't what is
/// asked for, makes the call wrong, and reads as 0 or nothing.
#[derive(Clone, Copy)]
pub struct CallLine<'a> {
    alloc: Global,
    // The part that was not read, or `None` where all was read.
    rest: Option<&'a str>,
    // The number that `#` stands for.
    round: u32,
    is_wrong: bool,
}

/// The number of a word that has only digits.
pub fn number_of(word: &str) -> Option<u64> {
    if word.starts_with('+') {
        return None;
    }
    word.parse::<u64>().ok()
}

/// The frame's bytes: hexadecimal digits for the first bytes, an apostrophe, and the rest as text.
pub fn bytes_of(alloc: Global, word: &str) -> Option<Vec<u8>> {
    let (digits, text) = word.split_once('\'')?;
    let mut bytes = Vec::new(alloc);
    for pair in digits.as_bytes().chunks(2) {
        let [high, low] = pair else {
            return None;
        };
        let high = (*high as char).to_digit(16)?;
        let low = (*low as char).to_digit(16)?;
        bytes.push((high * 16 + low) as u8).ok()?;
    }
    bytes.extend_from_slice(text.as_bytes()).ok()?;
    Some(bytes)
}

impl<'a> CallLine<'a> {
    /// A call from its start, in the round with this number.
    pub fn new(alloc: Global, text: &'a str, round: u32) -> CallLine<'a> {
        CallLine {
            alloc,
            rest: Some(text),
            round,
            is_wrong: false,
        }
    }

    /// The next word.
    pub fn word(&mut self) -> &'a str {
        let Some(text) = self.rest else {
            self.is_wrong = true;
            return "";
        };
        match text.split_once(' ') {
            Some((word, rest)) => {
                self.rest = Some(rest);
                word
            }
            None => {
                self.rest = None;
                text
            }
        }
    }

    /// Returns whether the next word is `word`.
    pub fn says(&mut self, word: &str) -> bool {
        self.word() == word
    }

    // The number of the word, or 0.
    fn value(&mut self, word: &str) -> u64 {
        if word == "#" {
            return self.round as u64;
        }
        match number_of(word) {
            Some(value) => value,
            None => {
                self.is_wrong = true;
                0
            }
        }
    }

    /// The next word as a number.
    pub fn long(&mut self) -> u64 {
        let word = self.word();
        self.value(word)
    }

    // The number of the word, if it has 32 bits, or 0.
    fn small(&mut self, word: &str) -> u32 {
        match u32::try_from(self.value(word)) {
            Ok(value) => value,
            Err(_) => {
                self.is_wrong = true;
                0
            }
        }
    }

    /// The next word as a number of 32 bits.
    pub fn number(&mut self) -> u32 {
        let word = self.word();
        self.small(word)
    }

    /// The next word as the name of an operation: its slot, and its generation.
    pub fn name(&mut self) -> OpName {
        let (slot, generation) = match self.word().split_once('.') {
            Some(parts) => parts,
            None => ("", ""),
        };
        OpName {
            slot: self.small(slot),
            generation: self.value(generation),
        }
    }

    /// Returns whether the next word is the name of this operation, or `any`.
    pub fn names(&mut self, op: OpName) -> bool {
        let mut other = *self;
        if other.says("any") {
            *self = other;
            return true;
        }
        self.name() == op
    }

    /// The bytes of the next word.
    pub fn bytes(&mut self) -> Vec<u8> {
        match bytes_of(self.alloc, self.word()) {
            Some(bytes) => bytes,
            None => {
                self.is_wrong = true;
                Vec::new(self.alloc)
            }
        }
    }

    /// Returns whether the next word has these bytes, or is `any`.
    pub fn is_body(&mut self, body: &[u8]) -> bool {
        let mut other = *self;
        if other.says("any") {
            *self = other;
            return true;
        }
        body == self.bytes().as_slice()
    }

    /// The part that was not read.
    pub fn rest(&self) -> &'a str {
        match self.rest {
            Some(text) => text,
            None => "",
        }
    }

    /// Returns whether every word was read, and each was what was asked for.
    pub fn is_read(&self) -> bool {
        !self.is_wrong && self.rest.is_none()
    }
}
