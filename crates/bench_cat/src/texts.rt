//! How fast bodies are printed in each format, compared with a plain loop over their bytes.

use bench_base::timing::{now, since};
use cat_text::{Format, print};
use sp_base::{Bytes, NoMemory};
use std::alloc::Global;
use std::io::{Eprint, Print};
use std::time::Clock;

/// The size of a body in bytes.
const SIZE: usize = 1_048_576;

/// How often each is measured; the least time counts.
const TIMES: u32 = 30;

// Bytes that look random, so that each byte is as likely as any other (a linear congruence).
fn body_of(alloc: Global) -> Result<Vec<u8>, NoMemory> {
    let mut body = Vec::new(alloc);
    let mut x: u32 = 7;
    for _ in 0..SIZE {
        x = x.wrapping_mul(1_664_525).wrapping_add(1_013_904_223);
        body.push((x >> 24) as u8)?;
    }
    Ok(body)
}

// Only letters: none is printed in a special way, except for the length of its text.
fn letters_of(alloc: Global) -> Result<Vec<u8>, NoMemory> {
    let mut body = Vec::new(alloc);
    for n in 0..SIZE {
        body.push(b'a' + (n % 26) as u8)?;
    }
    Ok(body)
}

fn digit(n: u8) -> u8 {
    b"0123456789abcdef"[n as usize % 16]
}

fn push_escape(out: &mut Vec<u8>, byte: u8) -> Result<(), NoMemory> {
    out.push(b'\\')?;
    out.push(b'x')?;
    out.push(digit(byte / 16))?;
    out.push(digit(byte % 16))?;
    Ok(())
}

fn push_letter(out: &mut Vec<u8>, letter: u8) -> Result<(), NoMemory> {
    out.push(b'\\')?;
    out.push(letter)?;
    Ok(())
}

fn push_quoted(out: &mut Vec<u8>, byte: u8) -> Result<(), NoMemory> {
    match byte {
        b'"' => push_letter(out, b'"'),
        b'\\' => push_letter(out, b'\\'),
        b'\n' => push_letter(out, b'n'),
        b'\r' => push_letter(out, b'r'),
        b'\t' => push_letter(out, b't'),
        0x20..=0x7e => {
            out.push(byte)?;
            Ok(())
        }
        _ => push_escape(out, byte),
    }
}

// A plain loop over the bytes, which pushes the printed form of each.
#[inline(never)]
fn plain_loop(out: &mut Vec<u8>, format: Format, body: &[u8]) -> Result<(), NoMemory> {
    for byte in body {
        match format {
            Format::Quoted => push_quoted(out, *byte)?,
            Format::Hex => push_escape(out, *byte)?,
            Format::Ascii => out.push(if (0x20..=0x7e).contains(byte) {
                *byte
            } else {
                b'.'
            })?,
            _ => out.push(*byte)?,
        }
    }
    Ok(())
}

// The microseconds of a plain loop.
fn time_loop<R: AllocGlobal + Clock>(
    rt: &R,
    format: Format,
    body: &[u8],
) -> Result<u128, NoMemory> {
    let mut least = u128::MAX;
    let mut out: Vec<u8> = Vec::new(rt.alloc());
    for _ in 0..TIMES {
        out.clear();
        let start = now(rt);
        plain_loop(&mut out, format, body)?;
        least = least.min(since(rt, start) / 1_000);
    }
    Ok(least)
}

/// How long prints in a format took, and how many bytes each of them wrote.
#[derive(Clone, Copy)]
struct Printed {
    micros: u128,
    len: usize,
}

// The least time of prints into a reused buffer.
fn time_print<R: AllocGlobal + Clock>(
    rt: &R,
    format: Format,
    body: &[u8],
) -> Result<Printed, NoMemory> {
    let mut micros = u128::MAX;
    let mut text: Vec<u8> = Vec::new(rt.alloc());
    for _ in 0..TIMES {
        text.clear();
        let mut out = Bytes::from_vec(text);
        let start = now(rt);
        print(rt.alloc(), format, body, &mut out)?;
        micros = micros.min(since(rt, start) / 1_000);
        text = out.into_vec();
    }
    let len = text.len();
    Ok(Printed { micros, len })
}

// Prints how long the text of a format is, and to standard error how long it took. Returns whether it could.
fn compare<R: AllocGlobal + Clock + Eprint + Print>(
    rt: &R,
    name: &str,
    format: Format,
    what: &str,
    body: &[u8],
) -> Result<bool, NoMemory> {
    let plain = time_loop(rt, format, body)?;
    let Printed { micros, len } = time_print(rt, format, body)?;
    Ok(
        println!(rt; "print {name}, {what}: {len} bytes").is_ok()
            && eprintln!(rt; "print {name}, {what}: {micros} us, a plain loop {plain} us").is_ok(),
    )
}

// Compares each format.
fn compare_all<R: AllocGlobal + Clock + Eprint + Print>(
    rt: &R,
    what: &str,
    body: &[u8],
) -> Result<bool, NoMemory> {
    Ok(
        compare(rt, "raw", Format::Raw, what, body)?
            && compare(rt, "ascii", Format::Ascii, what, body)?
            && compare(rt, "quoted", Format::Quoted, what, body)?
            && compare(rt, "hex", Format::Hex, what, body)?
            && compare(rt, "msgpack", Format::Msgpack, what, body)?,
    )
}

/// Measures bodies of any bytes, and of only letters. Returns whether it could.
pub fn bench<R: AllocGlobal + Clock + Eprint + Print>(rt: &R) -> Result<bool, NoMemory> {
    let any = body_of(rt.alloc())?;
    let letters = letters_of(rt.alloc())?;
    Ok(compare_all(rt, "any bytes", &any)? && compare_all(rt, "letters", &letters)?)
}
