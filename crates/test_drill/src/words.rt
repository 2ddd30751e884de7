//! Words of a text: numbers, and ranges of counts.

/// A range of counts.
#[derive(Clone, Copy)]
pub struct Range {
    pub least: u64,
    pub most: u64,
}

impl Range {
    /// Returns whether `n` lies in the range.
    pub fn has(self, n: u64) -> bool {
        self.least <= n && n <= self.most
    }
}

/// The range of a word: `2` for two, `1..64` for one to 64, both included.
pub fn range_of(word: &str) -> Option<Range> {
    let (least, most) = match word.split_once("..") {
        Some(ends) => ends,
        None => (word, word),
    };
    match (least.parse::<u64>(), most.parse::<u64>()) {
        (Ok(least), Ok(most)) => Some(Range { least, most }),
        _ => None,
    }
}
