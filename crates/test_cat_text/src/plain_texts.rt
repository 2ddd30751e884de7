//! The texts of bodies, made in the simplest way, from only their rules. Slow, and only for comparing.

use crate::checks::made;
use cat_text::Format;
use std::alloc::Global;
use std::process::Abort;

fn is_visible(byte: u8) -> bool {
    byte >= 0x20 && byte <= 0x7e
}

/// A digit of a number below 16.
fn digit(n: u8) -> u8 {
    b"0123456789abcdef"[n as usize % 16]
}

fn push(rt: &impl Abort, text: &mut Vec<u8>, byte: u8) {
    made(rt, text.push(byte));
}

fn escape(rt: &impl Abort, text: &mut Vec<u8>, byte: u8) {
    backslash(rt, text, b'x');
    push(rt, text, digit(byte / 16));
    push(rt, text, digit(byte % 16));
}

fn backslash(rt: &impl Abort, text: &mut Vec<u8>, letter: u8) {
    push(rt, text, b'\\');
    push(rt, text, letter);
}

fn quote(rt: &impl Abort, text: &mut Vec<u8>, byte: u8) {
    match byte {
        b'"' | b'\\' => backslash(rt, text, byte),
        b'\n' => backslash(rt, text, b'n'),
        b'\r' => backslash(rt, text, b'r'),
        b'\t' => backslash(rt, text, b't'),
        _ => {
            if is_visible(byte) {
                push(rt, text, byte);
            } else {
                escape(rt, text, byte);
            }
        }
    }
}

/// Pushes the last `bytes` big-endian bytes of a length.
fn push_length(rt: &impl Abort, text: &mut Vec<u8>, len: usize, bytes: u32) {
    for k in 0..bytes {
        let mut rest = len;
        for _ in 0..bytes - 1 - k {
            rest = rest / 256;
        }
        push(rt, text, (rest % 256) as u8);
    }
}

fn push_head(rt: &impl Abort, text: &mut Vec<u8>, len: usize) {
    let (head, bytes) = if len <= 255 {
        (0xc4, 1)
    } else if len <= 65_535 {
        (0xc5, 2)
    } else {
        (0xc6, 4)
    };
    push(rt, text, head);
    push_length(rt, text, len, bytes);
}

fn push_byte(rt: &impl Abort, text: &mut Vec<u8>, format: Format, byte: u8) {
    match format {
        Format::None => (),
        Format::Ascii => push(rt, text, if is_visible(byte) { byte } else { b'.' }),
        Format::Quoted => quote(rt, text, byte),
        Format::Hex => escape(rt, text, byte),
        Format::Raw | Format::Msgpack => push(rt, text, byte),
    }
}

/// The bytes of `prefix`, followed by the text of the body.
pub fn text_of(
    rt: &impl Abort,
    alloc: Global,
    format: Format,
    body: &[u8],
    prefix: &[u8],
) -> Vec<u8> {
    let (begin, end): (&[u8], &[u8]) = match format {
        Format::Quoted | Format::Hex => (b"\"", b"\"\n"),
        Format::Ascii => (b"", b"\n"),
        Format::None | Format::Raw | Format::Msgpack => (b"", b""),
    };
    let mut text = made(rt, Vec::from_slice(alloc, prefix));
    if format == Format::Msgpack {
        push_head(rt, &mut text, body.len());
    }
    made(rt, text.extend_from_slice(begin));
    for byte in body {
        push_byte(rt, &mut text, format, *byte);
    }
    made(rt, text.extend_from_slice(end));
    text
}
