//! What a role does, and what one frame means to it.

ghost use Rattle.std.specs.Prelude.{◌≡◌, IfOk, [], take, drop};
ghost use Rattle.sp_history.specs.Backtrace.{back, behind, is_short};
ghost use Rattle.sp_history.specs.Hops.{hops_of};
ghost use Rattle.sp_history.specs.Frames.{breaks_rule, is_above, malformed, plain_item, traced_item, counted_item, item_of};
ghost use Rattle.sp_history.specs.Setting.{is_req, is_sub, is_pair, is_reply, is_asker, floods, has_contexts, has_topics, has_requests, resends, has_hops, has_stored};
ghost use Rattle.history_judge_past.specs.Story.{entries_of};

use crate::entries::Past;
use crate::lists::word;
use crate::past::limit_of;
use sp_base::{Bytes, NoMemory, PipeId, Role};
use sp_history::entry::RecordedMessage;
use sp_history::parts::{Back, Item};
use sp_history::setting::Setting;
use std::alloc::Global;

// ---- Roles

/// Returns whether a send goes to every target, in the turn of its begin.
pub fn floods(role: Role) -> bool
    ensures { result ≡ floods role }
{
    matches!(role, Role::Pub | Role::Surveyor | Role::Bus)
}

/// Returns whether the role is sub.
pub fn is_sub(role: Role) -> bool
    ensures { result ≡ is_sub role }
{
    matches!(role, Role::Sub)
}

/// Returns whether the role is req.
pub fn is_req(role: Role) -> bool
    ensures { result ≡ is_req role }
{
    matches!(role, Role::Req)
}

/// Returns whether a send answers what the last receive gave.
pub fn is_reply(role: Role) -> bool
    ensures { result ≡ is_reply role }
{
    matches!(role, Role::Rep | Role::Respondent)
}

/// Returns whether the role is pair, of either version.
pub fn is_pair(role: Role) -> bool
    ensures { result ≡ is_pair role }
{
    matches!(role, Role::Pair0 | Role::Pair1)
}

/// Returns whether a send asks for replies.
pub fn is_asker(role: Role) -> bool
    ensures { result ≡ is_asker role }
{
    matches!(role, Role::Req | Role::Surveyor)
}

/// Returns whether contexts can be opened.
pub fn has_contexts(z: Setting) -> bool
    ensures { result ≡ has_contexts z }
{
    z.role.contexts() && !z.raw
}

/// Returns whether it is a cooked sub.
pub fn has_topics(z: Setting) -> bool
    ensures { result ≡ has_topics z }
{
    is_sub(z.role) && !z.raw
}

/// Returns whether it is a cooked req or surveyor.
pub fn has_requests(z: Setting) -> bool
    ensures { result ≡ has_requests z }
{
    is_asker(z.role) && !z.raw
}

/// Returns whether it is a cooked req, which sends again.
pub fn resends(z: Setting) -> bool
    ensures { result ≡ resends z }
{
    is_req(z.role) && !z.raw
}

/// Returns whether it is a raw pair of version 1.
pub fn has_hops(z: Setting) -> bool
    ensures { result ≡ has_hops z }
{
    matches!(z.role, Role::Pair1) && z.raw
}

/// Returns whether it is a cooked rep or respondent.
pub fn has_stored(z: Setting) -> bool
    ensures { result ≡ has_stored z }
{
    is_reply(z.role) && !z.raw
}

// ---- Frames

fn behind(alloc: Global, w: &[u8], found: Back) -> Result<Back, NoMemory>
    ensures { IfOk result (λ r. r ≡ behind w.now found) }
{
    match found {
        Back::Found(words, rest) => {
            let mut whole = Bytes::from_slice(alloc, w)?;
            whole.append(words.as_slice())?;
            Ok(Back::Found(whole, rest))
        }
        Back::TooFar => Ok(Back::TooFar),
        Back::Short => Ok(Back::Short),
    }
}

/// The backtrace that is a prefix of the bytes, with this many hops left.
pub fn back(alloc: Global, hops: u8, b: &[u8]) -> Result<Back, NoMemory>
    ensures { IfOk result (λ r. r ≡ back hops b.now) }
{
    if hops == 0 {
        return Ok(Back::TooFar);
    }
    if b.len() < 4 {
        return Ok(Back::Short);
    }
    let first = &b[..4];
    let rest = &b[4..];
    if b[0] >= 128 {
        return found(alloc, first, rest);
    }
    let further = back(alloc, hops - 1, rest)?;
    behind(alloc, first, further)
}

fn found(alloc: Global, words: &[u8], rest: &[u8]) -> Result<Back, NoMemory>
    ensures { IfOk result (λ r. r ≡ Back.Found words.now rest.now) }
{
    let words = Bytes::from_slice(alloc, words)?;
    let rest = Bytes::from_slice(alloc, rest)?;
    Ok(Back::Found(words, rest))
}

fn is_short(found: &Back) -> bool
    ensures { result ≡ is_short found.now }
{
    matches!(found, Back::Short)
}

/// The hop count of a frame of pair version 1, if it has one.
fn hops_of(b: &[u8]) -> Option<u8>
    ensures { result ≡ hops_of b.now }
{
    match b {
        [w, x, y, hops, ..] if *w == 0 && *x == 0 && *y == 0 => Some(*hops),
        _ => None,
    }
}

fn breaks_rule(alloc: Global, z: Setting, b: &[u8]) -> Result<bool, NoMemory>
    ensures { IfOk result (λ r. r ≡ breaks_rule z b.now) }
{
    match z.role {
        Role::Pub => Ok(true),
        Role::Pair1 => Ok(hops_of(b).is_none()),
        Role::Req | Role::Surveyor => Ok(b.len() < 4),
        Role::Rep | Role::Respondent => {
            let found = back(alloc, z.options.ttl, b)?;
            Ok(is_short(&found))
        }
        Role::Pair0 | Role::Sub | Role::Push | Role::Pull | Role::Bus => Ok(false),
    }
}

fn is_above(limit: Option<u32>, b: &[u8]) -> bool
    ensures { result ≡ is_above limit b.now }
{
    match limit {
        None => false,
        Some(limit) => (limit as usize) < b.len() && limit != u32::MAX,
    }
}

/// Returns whether a frame of the pipe that comes after this past is malformed: it breaks the rule of the role, or is
/// longer than the pipe's limit.
pub fn malformed(
    alloc: Global,
    z: Setting,
    past: &Past,
    p: PipeId,
    b: &[u8],
) -> Result<bool, NoMemory>
    ensures { IfOk result (λ r. r ≡ malformed z (entries_of past.now) p b.now) }
{
    Ok(breaks_rule(alloc, z, b)? || is_above(limit_of(past, p), b))
}

/// The bytes without the first 4.
pub fn after_word(b: &[u8]) -> &[u8]
    ensures { result.now ≡ drop 4 b.now }
{
    if b.len() < 4 { &[] } else { &b[4..] }
}

fn item(
    alloc: Global,
    p: PipeId,
    words: &[u8],
    header: &[u8],
    body: &[u8],
) -> Result<Item, NoMemory>
    ensures { IfOk result (λ i. i ≡ record { pipe = p; words = words.now; message = record { header = header.now; body = body.now } }) }
{
    let words = Bytes::from_slice(alloc, words)?;
    let header = Bytes::from_slice(alloc, header)?;
    let body = Bytes::from_slice(alloc, body)?;
    Ok(Item {
        pipe: p,
        words,
        message: RecordedMessage { header, body },
    })
}

/// The item that a cooked receive will give: only the body.
pub fn plain_item(alloc: Global, p: PipeId, b: &[u8]) -> Result<Item, NoMemory>
    ensures { IfOk result (λ i. i ≡ plain_item p b.now) }
{
    item(alloc, p, &[], &[], b)
}

fn traced_item(alloc: Global, raw: bool, p: PipeId, found: Back) -> Result<Option<Item>, NoMemory>
    ensures { IfOk result (λ i. i ≡ traced_item raw p found) }
{
    match found {
        Back::Found(words, rest) => {
            if raw {
                let mut header = Bytes::from_slice(alloc, &word(p.0))?;
                header.append(words.as_slice())?;
                Ok(Some(item(alloc, p, &[], header.as_slice(), rest.as_slice())?))
            } else {
                Ok(Some(item(alloc, p, words.as_slice(), &[], rest.as_slice())?))
            }
        }
        Back::TooFar => Ok(None),
        Back::Short => Ok(None),
    }
}

fn worded_item(alloc: Global, p: PipeId, b: &[u8]) -> Result<Item, NoMemory>
    ensures { IfOk result (λ i. i ≡ record { pipe = p; words = []; message = record { header = take 4 b.now; body = drop 4 b.now } }) }
{
    if b.len() < 4 {
        return item(alloc, p, &[], b, &[]);
    }
    item(alloc, p, &[], &b[..4], &b[4..])
}

fn counted_item(
    alloc: Global,
    raw: bool,
    ttl: u8,
    p: PipeId,
    b: &[u8],
) -> Result<Option<Item>, NoMemory>
    ensures { IfOk result (λ i. i ≡ counted_item raw ttl p b.now (hops_of b.now)) }
{
    match hops_of(b) {
        None => Ok(None),
        Some(hops) => {
            if ttl < hops {
                Ok(None)
            } else if raw {
                Ok(Some(worded_item(alloc, p, b)?))
            } else {
                Ok(Some(plain_item(alloc, p, after_word(b))?))
            }
        }
    }
}

/// The item that a frame of the pipe is kept as, if it is kept.
pub fn item_of(alloc: Global, z: Setting, p: PipeId, b: &[u8]) -> Result<Option<Item>, NoMemory>
    ensures { IfOk result (λ i. i ≡ item_of z p b.now) }
{
    match z.role {
        Role::Pair0 | Role::Pull | Role::Sub => Ok(Some(plain_item(alloc, p, b)?)),
        Role::Pair1 => counted_item(alloc, z.raw, z.options.ttl, p, b),
        Role::Bus => {
            if z.raw {
                Ok(Some(item(alloc, p, &[], &word(p.0), b)?))
            } else {
                Ok(Some(plain_item(alloc, p, b)?))
            }
        }
        Role::Req | Role::Surveyor => {
            if z.raw {
                Ok(Some(worded_item(alloc, p, b)?))
            } else {
                Ok(Some(plain_item(alloc, p, after_word(b))?))
            }
        }
        Role::Rep | Role::Respondent => {
            let found = back(alloc, z.options.ttl, b)?;
            traced_item(alloc, z.raw, p, found)
        }
        Role::Push | Role::Pub => Ok(None),
    }
}
