//! Functions on lists.

ghost use Rattle.std.specs.Prelude.{◌≡◌, IfOk, length, filter, find, not};
ghost use Rattle.sp_history.specs.Lists.{has, without, all_in, same_bytes, same_op, is_nil, matches, word, first_word, is_number};
ghost use Rattle.sp_history.specs.Past.{is_of, without_begun};

use sp_base::{Ctx, NoMemory, OpName, PipeId};
use sp_history::parts::Begun;
use std::collections::LinkedList;

/// Returns whether the pipe is in the list.
pub fn has_pipe(pipes: &LinkedList<PipeId>, p: PipeId) -> bool
    ensures { result ≡ has pipes.now p }
{
    pipes.iter().any(|q| q.0 == p.0)
}

/// Returns whether the context is in the list.
pub fn has_ctx(contexts: &LinkedList<Ctx>, c: Ctx) -> bool
    ensures { result ≡ has contexts.now c }
{
    contexts.iter().any(|d| d.0 == c.0)
}

/// Returns whether each pipe of the first list is in the whole.
pub fn all_in(pipes: &LinkedList<PipeId>, whole: &LinkedList<PipeId>) -> bool
    ensures { result ≡ all_in pipes.now whole.now }
{
    pipes.iter().all(|p| has_pipe(whole, *p))
}

/// Returns whether the list is empty.
pub fn is_empty<T>(xs: &LinkedList<T>) -> bool
    ensures { result ≡ is_nil xs.now }
{
    xs.is_empty()
}

/// Returns whether the bytes are the same.
pub fn same_bytes(a: &[u8], b: &[u8]) -> bool
    ensures { result ≡ same_bytes a.now b.now }
{
    match (a, b) {
        ([], []) => true,
        ([x, xs @ ..], [y, ys @ ..]) => *x == *y && same_bytes(xs, ys),
        _ => false,
    }
}

/// Returns whether slot and generation are the same.
pub fn same_op(a: OpName, b: OpName) -> bool
    ensures { result ≡ same_op a b }
{
    a.slot == b.slot && a.generation == b.generation
}

/// Returns whether the operation has this name.
pub fn is_of(op: OpName, s: &Begun) -> bool
    ensures { result ≡ is_of op s.now }
{
    same_op(s.op, op)
}

/// Returns whether the topic is a prefix of the body.
pub fn matches(body: &[u8], topic: &[u8]) -> bool
    ensures { result ≡ matches body.now topic.now }
{
    body.starts_with(topic)
}

/// The number in 4 bytes, the highest first.
pub fn word(n: u32) -> [u8; 4]
    ensures { result ≡ word n }
{
    n.to_be_bytes()
}

/// The number in the first 4 bytes, if there are 4.
pub fn first_word(b: &[u8]) -> Option<u32>
    ensures { result ≡ first_word b.now }
{
    if b.len() < 4 {
        return None;
    }
    Some(u32::from_be_bytes([b[0], b[1], b[2], b[3]]))
}

/// Returns whether it is there, and is this number.
pub fn is_number(found: Option<u32>, n: u32) -> bool
    ensures { result ≡ is_number found n }
{
    match found {
        None => false,
        Some(m) => m == n,
    }
}

/// The list without this pipe.
pub fn without_pipe(pipes: LinkedList<PipeId>, p: PipeId) -> Result<LinkedList<PipeId>, NoMemory>
    ensures { IfOk result (λ kept. kept ≡ without pipes p) }
{
    let mut pipes = pipes;
    match pipes.pop_front() {
        None => Ok(pipes),
        Some(x) => {
            let mut rest = without_pipe(pipes, p)?;
            if x.0 != p.0 {
                rest.push_front(x)?;
            }
            Ok(rest)
        }
    }
}

/// The list without this context.
pub fn without_ctx(contexts: LinkedList<Ctx>, c: Ctx) -> Result<LinkedList<Ctx>, NoMemory>
    ensures { IfOk result (λ kept. kept ≡ without contexts c) }
{
    let mut contexts = contexts;
    match contexts.pop_front() {
        None => Ok(contexts),
        Some(x) => {
            let mut rest = without_ctx(contexts, c)?;
            if x.0 != c.0 {
                rest.push_front(x)?;
            }
            Ok(rest)
        }
    }
}

/// All operations except this one.
pub fn without_begun(ss: LinkedList<Begun>, op: OpName) -> Result<LinkedList<Begun>, NoMemory>
    ensures { IfOk result (λ kept. kept ≡ without_begun ss op) }
{
    let mut ss = ss;
    match ss.pop_front() {
        None => Ok(ss),
        Some(x) => {
            let mut rest = without_begun(ss, op)?;
            if !is_of(op, &x) {
                rest.push_front(x)?;
            }
            Ok(rest)
        }
    }
}

/// The first operation with this name.
pub fn find_begun(ss: LinkedList<Begun>, op: OpName) -> Option<Begun>
    ensures { result ≡ find (is_of op) ss }
{
    let mut ss = ss;
    match ss.pop_front() {
        None => None,
        Some(s) => {
            if is_of(op, &s) {
                Some(s)
            } else {
                find_begun(ss, op)
            }
        }
    }
}
