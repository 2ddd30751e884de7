//! Numbers of a text.

/// A number that may change from one repetition to the next.
#[derive(Clone, Copy)]
pub struct Number {
    /// The first value.
    from: u32,
    /// The change at each repetition.
    step: u32,
    falls: bool,
}

impl Number {
    /// The value after `times` repetitions.
    pub fn after(self, times: u32) -> u32 {
        let change = self.step.saturating_mul(times);
        if self.falls {
            self.from.saturating_sub(change)
        } else {
            self.from.saturating_add(change)
        }
    }
}

// Digits, `n`, or digits and `n`.
fn factor(size: u32, word: &str) -> Option<u32> {
    match word.split_once('n') {
        None => word.parse::<u32>().ok(),
        Some((times, behind)) => {
            if !behind.is_empty() {
                return None;
            }
            if times.is_empty() {
                return Some(size);
            }
            Some(times.parse::<u32>().ok()?.saturating_mul(size))
        }
    }
}

// A factor, or one that is divided by another.
fn term(size: u32, word: &str) -> Option<u32> {
    match word.split_once('/') {
        None => factor(size, word),
        Some((whole, parts)) => Some(factor(size, whole)? / factor(size, parts)?.max(1)),
    }
}

/// The value of the word at this size, if it is a number.
pub fn count_of(size: u32, word: &str) -> Option<u32> {
    if let Some((left, right)) = word.split_once('+') {
        return Some(term(size, left)?.saturating_add(term(size, right)?));
    }
    if let Some((left, right)) = word.split_once('-') {
        return Some(term(size, left)?.saturating_sub(term(size, right)?));
    }
    term(size, word)
}

// The number that grows by the step, with this text after `i`.
fn growing(size: u32, step: &str, more: &str) -> Option<Number> {
    let step = if step.is_empty() {
        1
    } else {
        count_of(size, step)?
    };
    let from = match more.strip_prefix("+") {
        Some(more) => count_of(size, more)?,
        None => {
            if !more.is_empty() {
                return None;
            }
            0
        }
    };
    Some(Number {
        from,
        step,
        falls: false,
    })
}

// The number that falls by 1 from this one; nothing may follow its `i`.
fn falling(size: u32, from: &str, behind: &str) -> Option<Number> {
    if !behind.is_empty() {
        return None;
    }
    Some(Number {
        from: count_of(size, from)?,
        step: 1,
        falls: true,
    })
}

/// The number of the word at this size.
pub fn number_of(size: u32, word: &str) -> Option<Number> {
    match word.split_once('i') {
        None => Some(Number {
            from: count_of(size, word)?,
            step: 0,
            falls: false,
        }),
        Some((before, behind)) => match before.strip_suffix("-") {
            None => growing(size, before, behind),
            Some(from) => falling(size, from, behind),
        },
    }
}
