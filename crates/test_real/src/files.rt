//! The contents of files, as lines of a text:
//!
//! | line | what it says |
//! |---|---|
//! | `empty /dev/null` | the file has no byte |
//! | `some /etc/passwd` | it has some |
//! | `fails /no/such/file` | it can't be read |
//! | `write 200000 bytes_of_a_test` | 200,000 bytes are written to it |
//! | `whole 200000 bytes_of_a_test` | it gives exactly these bytes |
//! | `remove bytes_of_a_test` | it is removed |
//! | `counted 20000 -` | it gives 20,000 bytes, each of which says how many are left |
use crate::bytes::{counted, patterned};
use crate::checks::{holds, is_right, made};
use cat_run::real::RealFiles;
use sp_base::{Files, Whole};
use std::alloc::Global;
use std::fs;
use std::process::Abort;
use std::rt::{Clock, Files as SystemFiles};

// Returns whether the file gives these bytes; `None` where it can't be read.
fn gives<F: Files>(files: &mut F, name: &str, wanted: Option<&[u8]>) -> bool {
    match files.whole(name) {
        Whole::Bytes(bytes) => match wanted {
            Some(wanted) => bytes.as_slice() == wanted,
            None => false,
        },
        Whole::Failed => wanted.is_none(),
        Whole::NoMemory => false,
    }
}

fn gives_some<F: Files>(files: &mut F, name: &str) -> bool {
    match files.whole(name) {
        Whole::Bytes(bytes) => !bytes.as_slice().is_empty(),
        Whole::Failed | Whole::NoMemory => false,
    }
}

fn is_counted_so<F: Files, S: SystemFiles>(
    system: &S,
    files: &mut F,
    alloc: Global,
    call: &str,
    count: &str,
    name: &str,
) -> Option<bool> {
    let count = count.parse::<u32>().ok()?;
    let bytes = if call == "counted" {
        counted(alloc, count).ok()?
    } else {
        patterned(alloc, count as usize).ok()?
    };
    match call {
        "write" => Some(fs::write(system, name, &bytes).is_ok()),
        "whole" | "counted" => Some(gives(files, name, Some(&bytes))),
        _ => None,
    }
}

// Returns whether the line is right; `None` where it isn't a line.
fn is_so<F: Files, S: SystemFiles>(
    system: &S,
    files: &mut F,
    alloc: Global,
    line: &str,
) -> Option<bool> {
    let (call, words) = line.split_once(' ')?;
    if let Some((count, name)) = words.split_once(' ') {
        if name.contains(' ') {
            return None;
        }
        return is_counted_so(system, files, alloc, call, count, name);
    }
    match call {
        "empty" => Some(gives(files, words, Some(&[]))),
        "some" => Some(gives_some(files, words)),
        "fails" => Some(gives(files, words, None)),
        "remove" => Some(fs::remove_file(system, words).is_ok()),
        _ => None,
    }
}

// The number of the first line that isn't right, from 1 on.
fn wrong_line<F: Files, S: SystemFiles>(
    system: &S,
    files: &mut F,
    alloc: Global,
    lines: &str,
) -> Option<usize> {
    let mut n = 0usize;
    for line in lines.lines() {
        n = n.saturating_add(1);
        let line = line.trim();
        if !line.is_empty() && is_so(system, files, alloc, line) != Some(true) {
            return Some(n);
        }
    }
    None
}

/// Aborts where the files of this system don't give what the lines say.
pub fn files_give<
    R: SystemFiles + Input + Clock + AllocGlobal + Drop,
    S: SystemFiles + AllocGlobal + Abort,
>(rt: &S, system: R, lines: &str) {
    let mut files = RealFiles::new(system);
    is_right(rt, wrong_line(rt, &mut files, rt.alloc(), lines));
}

/// Aborts where this file of this system doesn't fail for this reason.
pub fn files_fail<R: SystemFiles + Input + Clock + AllocGlobal + Drop, S: AllocGlobal + Abort>(
    rt: &S,
    system: R,
    name: &str,
    why: &str,
) {
    let mut files = RealFiles::new(system);
    holds(rt, gives(&mut files, name, None));
    let Some(reason) = files.last_fault() else {
        panic!(rt; "{name}");
    };
    let said = made(rt, format!(in rt.alloc(); "{reason}"));
    holds(rt, said.as_str() == why);
}
