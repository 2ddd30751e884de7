//! Kept messages, and stored requests.

ghost use Rattle.std.specs.Prelude.{◌≡◌, ◌==◌, [], ◌&&◌, ◌||◌, IfOk, filter, not, drop, if◌then◌else◌};
ghost use Rattle.std.specs.List.{list_any};
ghost use Rattle.std.specs.Option.{option_map};
ghost use Rattle.sp_history.specs.Lists.{same_op, matches, head_of};
ghost use Rattle.sp_history.specs.Past.{pending, topics};
ghost use Rattle.sp_history.specs.Kept.{pool_of, is_wanted_by, takes, add_item, add_discarding, add_for, after_frame, is_on_pool, is_from, after_down, keeps, pool_keeping, pool, replies_of, kept, has_none_of, wanted_for, wanted, origin_of, is_on_ctx, given_from, stored, route};
ghost use Rattle.history_judge_past.specs.Story.{entries_of};

use crate::one_request::wire_of;
use crate::requests::{live_on, requests};
use history_judge_past::entries::Past;
use history_judge_past::frames::{
    has_requests, has_stored, has_topics, is_reply, item_of, malformed,
};
use history_judge_past::lists::{has_ctx, is_empty, matches, same_op};
use history_judge_past::past::{ctxs, now, pending, topics};
use sp_base::{Bytes, Ctx, NoMemory, OpName, PipeId, Role};
use sp_history::entry::{Completion, ContextChange, Ending, Entry, Switch};
use sp_history::parts::{Begun, Item, Keeping, LiveRequest, Origin};
use sp_history::setting::Setting;
use std::alloc::Global;
use std::collections::LinkedList;

// ---- Pools

fn pool_of(z: Setting, c: Ctx) -> Ctx
    ensures { result ≡ pool_of z c }
{
    if has_topics(z) { c } else { Ctx(0) }
}

fn is_wanted_by(ts: &LinkedList<Bytes>, b: &[u8]) -> bool
    ensures { result ≡ is_wanted_by ts.now b.now }
{
    ts.iter().any(|t| matches(b, t.as_slice()))
}

fn takes(
    alloc: Global,
    z: Setting,
    past: &Past,
    c: Ctx,
    p: PipeId,
    b: &[u8],
) -> Result<bool, NoMemory>
    ensures { IfOk result (λ r. r ≡ takes z (entries_of past.now) c p b.now) }
{
    if malformed(alloc, z, past, p, b)? {
        return Ok(false);
    }
    if has_topics(z) {
        let open = ctxs(alloc, past)?;
        let ts = topics(alloc, past, c)?;
        Ok(has_ctx(&open, c) && is_wanted_by(&ts, b))
    } else {
        Ok(c.0 == 0)
    }
}

fn add_item(i: Option<Item>, items: LinkedList<Item>) -> Result<LinkedList<Item>, NoMemory>
    ensures { IfOk result (λ r. r ≡ add_item i items) }
{
    let mut items = items;
    match i {
        None => Ok(items),
        Some(i) => {
            items.push_back(i)?;
            Ok(items)
        }
    }
}

fn without_first(items: LinkedList<Item>) -> LinkedList<Item>
    ensures { result ≡ drop 1 items }
{
    let mut items = items;
    let _ = items.pop_front();
    items
}

fn add_discarding(
    prefer_new: bool,
    most: u32,
    i: Option<Item>,
    items: LinkedList<Item>,
) -> Result<LinkedList<Item>, NoMemory>
    ensures { IfOk result (λ r. r ≡ add_discarding prefer_new most i items) }
{
    if items.len() < most as usize {
        return add_item(i, items);
    }
    if prefer_new {
        add_item(i, without_first(items))
    } else {
        Ok(items)
    }
}

fn add_for(
    z: Setting,
    i: Option<Item>,
    items: LinkedList<Item>,
) -> Result<LinkedList<Item>, NoMemory>
    ensures { IfOk result (λ r. r ≡ add_for z.role z i items) }
{
    match z.role {
        Role::Sub => add_discarding(z.options.prefer_new, z.options.queue, i, items),
        Role::Bus => add_discarding(false, z.options.queue, i, items),
        Role::Pair0 | Role::Pair1 | Role::Pub | Role::Req | Role::Rep => add_item(i, items),
        Role::Push | Role::Pull | Role::Surveyor | Role::Respondent => add_item(i, items),
    }
}

fn after_frame(
    alloc: Global,
    z: Setting,
    past: &Past,
    c: Ctx,
    p: PipeId,
    b: &[u8],
    items: LinkedList<Item>,
) -> Result<LinkedList<Item>, NoMemory>
    ensures { IfOk result (λ r. r ≡ after_frame z (entries_of past.now) c p b.now items) }
{
    if takes(alloc, z, past, c, p, b)? {
        let i = item_of(alloc, z, p, b)?;
        add_for(z, i, items)
    } else {
        Ok(items)
    }
}

fn is_on_pool(z: Setting, c: Ctx, s: Option<Begun>) -> bool
    ensures { result ≡ is_on_pool z c s }
{
    match s {
        None => false,
        Some(s) => pool_of(z, s.ctx).0 == c.0,
    }
}

fn is_from(p: PipeId, i: &Item) -> bool
    ensures { result ≡ is_from p i.now }
{
    i.pipe.0 == p.0
}

fn not_from(items: LinkedList<Item>, p: PipeId) -> Result<LinkedList<Item>, NoMemory>
    ensures { IfOk result (λ kept. kept ≡ filter (λ i. not (is_from p i)) items) }
{
    let mut items = items;
    match items.pop_front() {
        None => Ok(items),
        Some(x) => {
            let mut rest = not_from(items, p)?;
            if !is_from(p, &x) {
                rest.push_front(x)?;
            }
            Ok(rest)
        }
    }
}

fn still_wanted(
    items: LinkedList<Item>,
    ts: &LinkedList<Bytes>,
) -> Result<LinkedList<Item>, NoMemory>
    ensures { IfOk result (λ kept. kept ≡ filter (λ i. is_wanted_by ts.now i.message.body) items) }
{
    let mut items = items;
    match items.pop_front() {
        None => Ok(items),
        Some(x) => {
            let mut rest = still_wanted(items, ts)?;
            if is_wanted_by(ts, x.message.body.as_slice()) {
                rest.push_front(x)?;
            }
            Ok(rest)
        }
    }
}

fn after_down(z: Setting, p: PipeId, items: LinkedList<Item>) -> Result<LinkedList<Item>, NoMemory>
    ensures { IfOk result (λ r. r ≡ after_down z p items) }
{
    if is_reply(z.role) {
        not_from(items, p)
    } else {
        Ok(items)
    }
}

fn given(
    alloc: Global,
    z: Setting,
    before: &Past,
    c: Ctx,
    op: OpName,
    items: LinkedList<Item>,
) -> Result<LinkedList<Item>, NoMemory>
    ensures { IfOk result (λ r. r ≡ (if is_on_pool z c (pending (entries_of before.now) op) then drop 1 items else items)) }
{
    if is_on_pool(z, c, pending(alloc, before, op)?) {
        Ok(without_first(items))
    } else {
        Ok(items)
    }
}

fn keeps(how: Keeping, c: Ctx) -> bool
    ensures { result ≡ keeps how c }
{
    match how {
        Keeping::Everywhere => true,
        Keeping::Nowhere => false,
        Keeping::Below(d) => c.0 < d.0,
    }
}

fn if_kept(
    alloc: Global,
    z: Setting,
    how: Keeping,
    before: &Past,
    c: Ctx,
    p: PipeId,
    b: &[u8],
    items: LinkedList<Item>,
) -> Result<LinkedList<Item>, NoMemory>
    ensures { IfOk result (λ r. r ≡ (if keeps how c then after_frame z (entries_of before.now) c p b.now items else items)) }
{
    if keeps(how, c) {
        after_frame(alloc, z, before, c, p, b, items)
    } else {
        Ok(items)
    }
}

fn after_topic(
    alloc: Global,
    past: &Past,
    d: Ctx,
    c: Ctx,
    items: LinkedList<Item>,
) -> Result<LinkedList<Item>, NoMemory>
    ensures { IfOk result (λ r. r ≡ (if d == c then filter (λ i. is_wanted_by (topics (entries_of past.now) c) i.message.body) items else items)) }
{
    if d.0 == c.0 {
        still_wanted(items, &topics(alloc, past, c)?)
    } else {
        Ok(items)
    }
}

fn after_shut(alloc: Global, d: Ctx, c: Ctx, items: LinkedList<Item>) -> LinkedList<Item>
    ensures { result ≡ (if d == c then [] else items) }
{
    if d.0 == c.0 {
        LinkedList::new(alloc)
    } else {
        items
    }
}

fn pool_keeping(
    alloc: Global,
    z: Setting,
    how: Keeping,
    past: &Past,
    c: Ctx,
) -> Result<LinkedList<Item>, NoMemory>
    ensures { IfOk result (λ r. r ≡ pool_keeping z how (entries_of past.now) c) }
{
    match past {
        Past::Start => Ok(LinkedList::new(alloc)),
        Past::After(Entry::Unkept(_), before) => pool_keeping(
            alloc,
            z,
            Keeping::Nowhere,
            before,
            c,
        ),
        Past::After(Entry::Dry(d), before) => pool_keeping(alloc, z, Keeping::Below(*d), before, c),
        Past::After(Entry::Frame(p, b), before) => {
            let items = pool_keeping(alloc, z, Keeping::Everywhere, before, c)?;
            if_kept(alloc, z, how, before, c, *p, b.as_slice(), items)
        }
        Past::After(Entry::End(op, Ending::Won(Completion::Received(_))), before) => {
            let items = pool_keeping(alloc, z, Keeping::Everywhere, before, c)?;
            given(alloc, z, before, c, *op, items)
        }
        Past::After(Entry::Topic(d, _, Switch::Off), before) => {
            let items = pool_keeping(alloc, z, Keeping::Everywhere, before, c)?;
            after_topic(alloc, past, *d, c, items)
        }
        Past::After(Entry::Down(p, _), before) => {
            let items = pool_keeping(alloc, z, Keeping::Everywhere, before, c)?;
            after_down(z, *p, items)
        }
        Past::After(Entry::Ctx(d, ContextChange::Shut), before) => {
            let items = pool_keeping(alloc, z, Keeping::Everywhere, before, c)?;
            Ok(after_shut(alloc, *d, c, items))
        }
        Past::After(Entry::Close(_), _) => Ok(LinkedList::new(alloc)),
        Past::After(_, before) => pool_keeping(alloc, z, Keeping::Everywhere, before, c),
    }
}

/// The items of the pool of this number.
fn pool(alloc: Global, z: Setting, past: &Past, c: Ctx) -> Result<LinkedList<Item>, NoMemory>
    ensures { IfOk result (λ r. r ≡ pool z (entries_of past.now) c) }
{
    pool_keeping(alloc, z, Keeping::Everywhere, past, c)
}

fn replies_of(alloc: Global, r: Option<LiveRequest>) -> LinkedList<Item>
    ensures { result ≡ replies_of r }
{
    match r {
        None => LinkedList::new(alloc),
        Some(r) => r.replies,
    }
}

/// What is kept for a context, the oldest first.
pub fn kept(alloc: Global, z: Setting, past: &Past, c: Ctx) -> Result<LinkedList<Item>, NoMemory>
    ensures { IfOk result (λ r. r ≡ kept z (entries_of past.now) c) }
{
    if has_requests(z) {
        let r = live_on(alloc, z, past, c)?;
        Ok(replies_of(alloc, r))
    } else {
        pool(alloc, z, past, pool_of(z, c))
    }
}

fn has_none_of(p: PipeId, items: &LinkedList<Item>) -> bool
    ensures { result ≡ has_none_of p items.now }
{
    !any_from(p, items)
}

fn any_from(p: PipeId, items: &LinkedList<Item>) -> bool
    ensures { result ≡ list_any (is_from p) items.now }
{
    items.iter().any(|i| is_from(p, i))
}

fn wanted_for(role: Role, raw: bool, p: PipeId, items: &LinkedList<Item>) -> bool
    ensures { result ≡ wanted_for role raw p items.now }
{
    match role {
        Role::Pair0 | Role::Pair1 => is_empty(items),
        Role::Pull | Role::Rep | Role::Respondent => has_none_of(p, items),
        Role::Req | Role::Surveyor => !raw || has_none_of(p, items),
        Role::Pub | Role::Sub | Role::Push | Role::Bus => true,
    }
}

/// Returns whether frames of the pipe are wanted.
pub fn wanted(alloc: Global, z: Setting, past: &Past, p: PipeId) -> Result<bool, NoMemory>
    ensures { IfOk result (λ r. r ≡ wanted z (entries_of past.now) p) }
{
    let items = kept(alloc, z, past, Ctx(0))?;
    Ok(wanted_for(z.role, z.raw, p, &items))
}

// ---- Stored requests

fn is_on_ctx(c: Ctx, s: Option<Begun>) -> bool
    ensures { result ≡ is_on_ctx c s }
{
    match s {
        None => false,
        Some(s) => s.ctx.0 == c.0,
    }
}

fn first_origin(items: LinkedList<Item>) -> Option<Origin>
    ensures { result ≡ option_map origin_of (head_of items) }
{
    let mut items = items;
    match items.pop_front() {
        None => None,
        Some(i) => Some(Origin {
            pipe: i.pipe,
            words: i.words,
        }),
    }
}

fn given_from(alloc: Global, z: Setting, past: &Past, c: Ctx) -> Result<Option<Origin>, NoMemory>
    ensures { IfOk result (λ r. r ≡ given_from z (entries_of past.now) c) }
{
    match past {
        Past::Start => Ok(None),
        Past::After(Entry::End(op, Ending::Won(Completion::Received(_))), before) => {
            if is_on_ctx(c, pending(alloc, before, *op)?) {
                Ok(first_origin(kept(alloc, z, before, c)?))
            } else {
                given_from(alloc, z, before, c)
            }
        }
        Past::After(Entry::Begin(_, _, d, _, _), before) => {
            if d.0 == c.0 {
                Ok(None)
            } else {
                given_from(alloc, z, before, c)
            }
        }
        Past::After(Entry::Ctx(d, ContextChange::Shut), before) => {
            if d.0 == c.0 {
                Ok(None)
            } else {
                given_from(alloc, z, before, c)
            }
        }
        Past::After(Entry::Close(_), _) => Ok(None),
        Past::After(_, before) => given_from(alloc, z, before, c),
    }
}

/// The request that the context's next send answers.
pub fn stored(alloc: Global, z: Setting, past: &Past, c: Ctx) -> Result<Option<Origin>, NoMemory>
    ensures { IfOk result (λ r. r ≡ stored z (entries_of past.now) c) }
{
    if has_stored(z) {
        given_from(alloc, z, past, c)
    } else {
        Ok(None)
    }
}

/// The request that a send answers, as the definition of this name.
pub fn route(alloc: Global, z: Setting, past: &Past, op: OpName) -> Result<Option<Origin>, NoMemory>
    ensures { IfOk result (λ r. r ≡ route z (entries_of past.now) op) }
{
    match past {
        Past::Start => Ok(None),
        Past::After(Entry::Begin(other, _, c, _, _), before) => {
            if same_op(*other, op) {
                stored(alloc, z, before, *c)
            } else {
                route(alloc, z, before, op)
            }
        }
        Past::After(_, before) => route(alloc, z, before, op),
    }
}
