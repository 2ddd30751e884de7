//! One request: its id, what goes out for it, and what it keeps.

ghost use Rattle.std.specs.Prelude.{◌≡◌, ◌+◌, ◌%◌, ◌^◌, IfOk};
ghost use Rattle.std.specs.List.{list_any};
ghost use Rattle.sp_history.specs.Requests.{next_number, has_id, free_from, next_id, is_on, wire_of, is_for, has_room, with_out, with_frame, with_taken, is_over};
ghost use Rattle.history_judge_past.specs.Story.{entries_of};

use history_judge_past::entries::Past;
use history_judge_past::frames::{after_word, is_req, malformed, plain_item};
use history_judge_past::lists::{first_word, is_empty, is_number, same_bytes, word};
use sp_base::{Bytes, Ctx, NoMemory, PipeId, Tick};
use sp_history::parts::{LastOut, LiveRequest, Requests};
use sp_history::setting::Setting;
use std::alloc::Global;
use std::collections::LinkedList;

// ---- Ids

fn next_number(dice: u32, last: Option<u32>) -> u32
    ensures { result ≡ next_number dice last }
{
    match last {
        None => 0x8000_0000 + dice % 0x8000_0000,
        Some(id) => after(id),
    }
}

fn after(id: u32) -> u32
    ensures { result ≡ 2 ^ 31 + (id + 1) % 2 ^ 31 }
{
    if id == u32::MAX {
        0x8000_0000
    } else {
        0x8000_0000 + (id + 1) % 0x8000_0000
    }
}

fn has_id(id: u32, live: &LinkedList<LiveRequest>) -> bool
    ensures { result ≡ list_any (has_id id) live.now }
{
    live.iter().any(|r| r.id == id)
}

fn free_from(tries: usize, live: &LinkedList<LiveRequest>, id: u32) -> u32
    ensures { result ≡ free_from tries live.now id }
{
    if tries == 0 {
        return id;
    }
    if has_id(id, live) {
        free_from(tries - 1, live, after(id))
    } else {
        id
    }
}

/// The id of the next send.
pub fn next_id(z: Setting, rs: &Requests) -> u32
    ensures { result ≡ next_id z rs.now }
{
    free_from(
        rs.live.len(),
        &rs.live,
        next_number(z.options.dice, rs.last_id),
    )
}

// ---- One request

/// Returns whether it belongs to this context.
pub fn is_on(c: Ctx, r: &LiveRequest) -> bool
    ensures { result ≡ is_on c r.now }
{
    r.ctx.0 == c.0
}

/// What goes out for it.
pub fn wire_of(alloc: Global, r: &LiveRequest) -> Result<Bytes, NoMemory>
    ensures { IfOk result (λ b. b ≡ wire_of r.now) }
{
    let mut whole = Bytes::from_slice(alloc, &word(r.id))?;
    whole.append(r.body.as_slice())?;
    Ok(whole)
}

fn is_for(b: &[u8], r: &LiveRequest) -> bool
    ensures { result ≡ is_for b.now r.now }
{
    is_number(first_word(b), r.id)
}

fn has_room(z: Setting, r: &LiveRequest) -> bool
    ensures { result ≡ has_room z r.now }
{
    if is_req(z.role) {
        r.last_out.is_some() && is_empty(&r.replies)
    } else {
        r.replies.len() < z.options.queue as usize
    }
}

/// The request after an Out of its bytes.
pub fn with_out(
    alloc: Global,
    t: Tick,
    p: PipeId,
    b: &[u8],
    r: LiveRequest,
) -> Result<LiveRequest, NoMemory>
    ensures { IfOk result (λ s. s ≡ with_out t p b.now r) }
{
    let mut r = r;
    let wire = wire_of(alloc, &r)?;
    if same_bytes(b, wire.as_slice()) {
        r.last_out = Some(LastOut { pipe: p, when: t });
    }
    Ok(r)
}

/// The request after a reply. A reply that is not malformed goes to the request whose id it has, without the id.
pub fn with_frame(
    alloc: Global,
    z: Setting,
    past: &Past,
    p: PipeId,
    b: &[u8],
    r: LiveRequest,
) -> Result<LiveRequest, NoMemory>
    ensures { IfOk result (λ s. s ≡ with_frame z (entries_of past.now) p b.now r) }
{
    let mut r = r;
    if !malformed(alloc, z, past, p, b)? && is_for(b, &r) && has_room(z, &r) {
        r.replies.push_back(plain_item(alloc, p, after_word(b))?)?;
    }
    Ok(r)
}

/// The request after its oldest reply was given.
pub fn with_taken(c: Ctx, r: LiveRequest) -> LiveRequest
    ensures { result ≡ with_taken c r }
{
    let mut r = r;
    if is_on(c, &r) {
        let _ = r.replies.pop_front();
    }
    r
}

/// Returns whether the time of the survey has passed.
pub fn is_over(z: Setting, t: Tick, r: &LiveRequest) -> bool
    ensures { result ≡ is_over z t r.now }
{
    z.options.survey <= t.0 && r.birth.0 <= t.0 - z.options.survey
}
