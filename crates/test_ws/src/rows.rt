//! Rows of a text, one a line.
use crate::checks::made;
use std::alloc::Global;
use std::process::Abort;

// The parts before and after the first byte of this value.
fn cut_at(text: &[u8], mark: u8) -> Option<(&[u8], &[u8])> {
    let at = text.iter().position(|byte| *byte == mark)?;
    let (before, after) = text.split_at_checked(at)?;
    Some((before, after.split_first()?.1))
}

/// The parts before and after the bar of a row; there is a space on each side of the bar.
pub fn cut(row: &[u8]) -> Option<(&[u8], &[u8])> {
    let (before, after) = cut_at(row, b'|')?;
    Some((before.strip_suffix(b" ")?, after.strip_prefix(b" ")?))
}

/// The bytes of a text: two hex digits a byte up to an apostrophe, and after it the bytes themselves.
pub fn bytes_of(rt: &impl Abort, alloc: Global, text: &[u8]) -> Vec<u8> {
    let Some((digits, rest)) = cut_at(text, b'\'') else {
        panic!(rt; "bytes without an apostrophe")
    };
    let mut bytes = made(rt, hex::decode(alloc, digits));
    made(rt, bytes.extend_from_slice(rest));
    bytes
}
