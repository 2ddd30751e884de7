//! Rows of a text, one a line. The words of a row have single spaces between them.
use crate::checks::made;
use std::alloc::Global;
use std::process::Abort;

// The meaning of a word of a row: two apostrophes for the empty word, `A` and `B` for addresses, each other word for
// itself.
fn meant(word: &str) -> &str {
    match word {
        "''" => "",
        "A" => "tcp://127.0.0.1:5555",
        "B" => "tcp://127.0.0.1:5556",
        other => other,
    }
}

/// The words of a row as a list; an empty row has none.
pub fn words_of(rt: &impl Abort, alloc: Global, row: &str) -> Vec<String> {
    let mut list = Vec::new(alloc);
    if row.is_empty() {
        return list;
    }
    for word in row.split(' ') {
        let word = made(rt, String::from_str(alloc, meant(word)));
        made(rt, list.push(word));
    }
    list
}

/// The bytes of a text: two hex digits a byte up to an apostrophe, and after it the bytes themselves.
pub fn bytes_of(rt: &impl Abort, alloc: Global, text: &str) -> Option<Vec<u8>> {
    let (digits, rest) = text.split_once('\'')?;
    let mut bytes = made(rt, hex::decode(alloc, digits));
    made(rt, bytes.extend_from_slice(rest.as_bytes()));
    Some(bytes)
}
