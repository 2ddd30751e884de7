//! The words of a play: results as words, and bytes. `None` where it isn't such a word, or there is no memory.
use sp_base::OpName;
use sp_history::entry::Cause;
use sp_msg::Message;
use sp_proto::CheckError;
use std::alloc::Global;

/// What the number names: the first operation of its slot, or a pipe or a context. `1.7` is the seventh operation.
pub fn named(word: &str) -> Option<OpName> {
    let (slot, generation) = match word.split_once('.') {
        Some(parts) => parts,
        None => (word, "1"),
    };
    match (slot.parse::<u32>(), generation.parse::<u64>()) {
        (Ok(slot), Ok(generation)) => Some(OpName { slot, generation }),
        _ => None,
    }
}

/// Milliseconds: `10ms`, `10min`.
pub fn milliseconds(word: &str) -> Option<u64> {
    if let Some(minutes) = word.strip_suffix("min") {
        return minutes.parse::<u64>().ok()?.checked_mul(60_000);
    }
    word.strip_suffix("ms")?.parse::<u64>().ok()
}

/// The word for true or false.
pub fn yes_or_no(it: bool) -> &'static str {
    if it { "yes" } else { "no" }
}

/// The word for whether a machine is raw.
pub fn raw_or_cooked(raw: bool) -> &'static str {
    if raw { "raw" } else { "cooked" }
}

/// The word for the cause for which an operation should end.
pub fn cause(why: Cause) -> &'static str {
    match why {
        Cause::Cancelled => "cancelled",
        Cause::TimedOut => "timed_out",
        Cause::Closed => "closed",
        Cause::Superseded => "superseded",
        Cause::SurveyOver => "survey_over",
    }
}

/// The word for the result of a check of an operation.
pub fn word_of_check(returned: Result<(), CheckError>) -> &'static str {
    match returned {
        Ok(()) => "ok",
        Err(CheckError::NotSupported) => "not_supported",
        Err(CheckError::NoEntry) => "no_entry",
        Err(CheckError::State) => "state",
    }
}

fn digit(b: u8) -> Option<u8> {
    match b {
        b'0'..=b'9' => Some(b - b'0'),
        b'a'..=b'f' => Some(b - b'a' + 10),
        _ => None,
    }
}

// The bytes of hexadecimal digits.
fn from_hex(alloc: Global, hex: &[u8]) -> Option<Vec<u8>> {
    let mut bytes = Vec::new(alloc);
    for pair in hex.chunks(2) {
        let [high, low] = pair else {
            return None;
        };
        bytes.push((digit(*high)? << 4) | digit(*low)?).ok()?;
    }
    Some(bytes)
}

// Appends the text `times` times.
fn append(bytes: &mut Vec<u8>, text: &[u8], times: u32) -> Option<()> {
    for _ in 0..times {
        bytes.extend_from_slice(text).ok()?;
    }
    Some(())
}

/// Hexadecimal digits of the first bytes, an apostrophe, and the others as text: `80000000'a`, `'m*1000`.
pub fn bytes(alloc: Global, word: &str) -> Option<Vec<u8>> {
    let (hex, text) = word.split_once('\'')?;
    let mut bytes = from_hex(alloc, hex.as_bytes())?;
    match text.split_once('*') {
        None => append(&mut bytes, text.as_bytes(), 1)?,
        Some((text, times)) => append(&mut bytes, text.as_bytes(), times.parse::<u32>().ok()?)?,
    }
    Some(bytes)
}

// The last six hexadecimal digits.
fn hexadecimal(alloc: Global, n: u32) -> Option<String> {
    let mut text = String::new(alloc);
    for shift in [20, 16, 12, 8, 4, 0] {
        text.push(char::from_digit((n >> shift) % 16, 16)?).ok()?;
    }
    Some(text)
}

/// The calls of the round with this number.
pub fn round(alloc: Global, n: u32, calls: &str) -> Option<String> {
    let number = n.to_string(alloc).ok()?;
    let next = n.saturating_add(1).to_string(alloc).ok()?;
    let digits = hexadecimal(alloc, n)?;
    let mut text = String::new(alloc);
    for c in calls.chars() {
        match c {
            '#' => text.push_str(&number),
            '&' => text.push_str(&next),
            '%' => text.push_str(&digits),
            _ => text.push(c),
        }
        .ok()?;
    }
    Some(text)
}

// Appends these words to the header, and returns whether it could.
fn heads(m: &mut Message, header: &[u8]) -> bool {
    for word in header.chunks(4) {
        let [a, b, c, d] = word else {
            return false;
        };
        if m.header_append_u32(u32::from_be_bytes([*a, *b, *c, *d]))
            .is_err()
        {
            return false;
        }
    }
    true
}

/// A message with this header and this body.
pub fn message(alloc: Global, header: &str, body: &str) -> Option<Message> {
    let header = bytes(alloc, header)?;
    let body = bytes(alloc, body)?;
    let mut m = Message::from_body(alloc, &body).ok()?;
    if heads(&mut m, &header) {
        Some(m)
    } else {
        None
    }
}

/// Returns whether the message has this header and this body.
pub fn is_message(alloc: Global, m: &Message, header: &str, body: &str) -> bool {
    match (bytes(alloc, header), bytes(alloc, body)) {
        (Some(header), Some(body)) => m.header() == &header[..] && m.body() == &body[..],
        _ => false,
    }
}

/// Returns whether there is a message with this header and this body.
pub fn is_this(alloc: Global, m: Option<Message>, header: &str, body: &str) -> bool {
    match m {
        None => false,
        Some(m) => is_message(alloc, &m, header, body),
    }
}
