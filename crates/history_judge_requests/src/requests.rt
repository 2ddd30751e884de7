//! The requests of a socket, and what each entry does to them.

ghost use Rattle.std.specs.Prelude.{if◌then◌else◌, ◌≡◌, ◌++◌, IfOk, [], ◌∷◌, filter, find, map, not};
ghost use Rattle.std.specs.Option.{option_map};
ghost use Rattle.sp_history.specs.Lists.{has, same_op};
ghost use Rattle.sp_history.specs.Requests.{no_requests, is_on, with_out, with_frame, with_taken, change_live, is_over, is_orphan, orphan_of, is_bereft, end_on, begin_on, of_live, after_end, without_orphan, over_at, after_moment, asked, requests, live_on, request_of, how_ended};
ghost use Rattle.sp_history.specs.Past.{now, pend, pending, without_begun};
ghost use Rattle.history_judge_past.specs.Story.{entries_of};

use crate::one_request::{is_on, is_over, next_id, with_frame, with_out, with_taken};
use history_judge_past::entries::{Past, copy_bytes};
use history_judge_past::frames::{has_requests, is_req};
use history_judge_past::lists::{has_ctx, same_op, without_begun};
use history_judge_past::past::{now, pend, pending};
use sp_base::{Bytes, Ctx, NoMemory, OpName, PipeId, Tick};
use sp_history::entry::{Completion, ContextChange, Ending, Entry, RecordedAct, RecordedMessage};
use sp_history::parts::{Begun, How, Item, LiveRequest, Orphan, Requests};
use sp_history::setting::Setting;
use std::alloc::Global;
use std::collections::LinkedList;

// ---- All of them

fn all_with_out(
    alloc: Global,
    t: Tick,
    p: PipeId,
    b: &[u8],
    live: LinkedList<LiveRequest>,
) -> Result<LinkedList<LiveRequest>, NoMemory>
    ensures { IfOk result (λ found. found ≡ map (with_out t p b.now) live) }
{
    let mut live = live;
    match live.pop_front() {
        None => Ok(live),
        Some(r) => {
            let mut rest = all_with_out(alloc, t, p, b, live)?;
            let r = with_out(alloc, t, p, b, r)?;
            rest.push_front(r)?;
            Ok(rest)
        }
    }
}

fn all_with_frame(
    alloc: Global,
    z: Setting,
    past: &Past,
    p: PipeId,
    b: &[u8],
    live: LinkedList<LiveRequest>,
) -> Result<LinkedList<LiveRequest>, NoMemory>
    ensures { IfOk result (λ found. found ≡ map (with_frame z (entries_of past.now) p b.now) live) }
{
    let mut live = live;
    match live.pop_front() {
        None => Ok(live),
        Some(r) => {
            let mut rest = all_with_frame(alloc, z, past, p, b, live)?;
            let r = with_frame(alloc, z, past, p, b, r)?;
            rest.push_front(r)?;
            Ok(rest)
        }
    }
}

fn all_with_taken(
    c: Ctx,
    live: LinkedList<LiveRequest>,
) -> Result<LinkedList<LiveRequest>, NoMemory>
    ensures { IfOk result (λ found. found ≡ map (with_taken c) live) }
{
    let mut live = live;
    match live.pop_front() {
        None => Ok(live),
        Some(r) => {
            let mut rest = all_with_taken(c, live)?;
            let r = with_taken(c, r);
            rest.push_front(r)?;
            Ok(rest)
        }
    }
}

fn is_orphan(rs: &Requests, op: OpName) -> bool
    ensures { result ≡ is_orphan rs.now op }
{
    rs.orphans.iter().any(|o| same_op(o.op, op))
}

fn is_bereft(cs: &LinkedList<Ctx>, rs: &Requests, s: &Begun) -> bool
    ensures { result ≡ is_bereft cs.now rs.now s.now }
{
    has_ctx(cs, s.ctx) && !is_orphan(rs, s.op)
}

fn bereft(
    ss: LinkedList<Begun>,
    cs: &LinkedList<Ctx>,
    rs: &Requests,
) -> Result<LinkedList<Begun>, NoMemory>
    ensures { IfOk result (λ kept. kept ≡ filter (is_bereft cs.now rs.now) ss) }
{
    let mut ss = ss;
    match ss.pop_front() {
        None => Ok(ss),
        Some(x) => {
            let mut rest = bereft(ss, cs, rs)?;
            if is_bereft(cs, rs, &x) {
                rest.push_front(x)?;
            }
            Ok(rest)
        }
    }
}

fn not_on(
    live: LinkedList<LiveRequest>,
    cs: &LinkedList<Ctx>,
) -> Result<LinkedList<LiveRequest>, NoMemory>
    ensures { IfOk result (λ kept. kept ≡ filter (λ r. not (has cs.now r.ctx)) live) }
{
    let mut live = live;
    match live.pop_front() {
        None => Ok(live),
        Some(x) => {
            let mut rest = not_on(live, cs)?;
            if !has_ctx(cs, x.ctx) {
                rest.push_front(x)?;
            }
            Ok(rest)
        }
    }
}

fn without_orphan_of(os: LinkedList<Orphan>, op: OpName) -> Result<LinkedList<Orphan>, NoMemory>
    ensures { IfOk result (λ kept. kept ≡ filter (λ o. not (same_op o.op op)) os) }
{
    let mut os = os;
    match os.pop_front() {
        None => Ok(os),
        Some(x) => {
            let mut rest = without_orphan_of(os, op)?;
            if !same_op(x.op, op) {
                rest.push_front(x)?;
            }
            Ok(rest)
        }
    }
}

fn orphans_of(
    h: How,
    ss: LinkedList<Begun>,
    os: LinkedList<Orphan>,
) -> Result<LinkedList<Orphan>, NoMemory>
    ensures { IfOk result (λ found. found ≡ os ++ map (orphan_of h) ss) }
{
    let mut ss = ss;
    let mut os = os;
    match ss.pop_front() {
        None => Ok(os),
        Some(s) => {
            os.push_back(Orphan { op: s.op, how: h })?;
            orphans_of(h, ss, os)
        }
    }
}

fn end_on(
    cs: &LinkedList<Ctx>,
    h: How,
    ss: LinkedList<Begun>,
    rs: Requests,
) -> Result<Requests, NoMemory>
    ensures { IfOk result (λ found. found ≡ end_on cs.now h ss rs) }
{
    let left = bereft(ss, cs, &rs)?;
    let live = not_on(rs.live, cs)?;
    let orphans = orphans_of(h, left, rs.orphans)?;
    Ok(Requests {
        live,
        orphans,
        last_id: rs.last_id,
    })
}

fn begin_on(
    z: Setting,
    t: Tick,
    c: Ctx,
    body: Bytes,
    rs: Requests,
    none: LinkedList<Item>,
) -> Result<Requests, NoMemory>
    requires { none ≡ [] }
    ensures { IfOk result (λ found. found ≡ begin_on z t c body rs) }
{
    let mut rs = rs;
    let id = next_id(z, &rs);
    rs.live.push_back(LiveRequest {
        ctx: c,
        id,
        body,
        birth: t,
        last_out: None,
        replies: none,
    })?;
    rs.last_id = Some(id);
    Ok(rs)
}

fn of_live(rs: &Requests, s: Option<Begun>) -> Option<Begun>
    ensures { result ≡ of_live rs.now s }
{
    match s {
        None => None,
        Some(s) => { if is_orphan(rs, s.op) { None } else { Some(s) } }
    }
}

fn one_ctx(alloc: Global, c: Ctx) -> Result<LinkedList<Ctx>, NoMemory>
    ensures { IfOk result (λ cs. cs ≡ c ∷ []) }
{
    let mut cs = LinkedList::new(alloc);
    cs.push_back(c)?;
    Ok(cs)
}

fn after_end(
    alloc: Global,
    z: Setting,
    ending: &Ending,
    s: Option<Begun>,
    ss: LinkedList<Begun>,
    rs: Requests,
) -> Result<Requests, NoMemory>
    ensures { IfOk result (λ found. found ≡ after_end z ending.now s ss rs) }
{
    let Some(s) = s else {
        return Ok(rs);
    };
    match ending {
        Ending::Won(Completion::Sent) => Ok(rs),
        Ending::Won(Completion::Received(_)) => {
            if is_req(z.role) {
                end_on(&one_ctx(alloc, s.ctx)?, How::Answered, ss, rs)
            } else {
                let live = all_with_taken(s.ctx, rs.live)?;
                Ok(Requests {
                    live,
                    orphans: rs.orphans,
                    last_id: rs.last_id,
                })
            }
        }
        Ending::Gone(_, _) => {
            if is_req(z.role) {
                end_on(&one_ctx(alloc, s.ctx)?, How::GivenUp, ss, rs)
            } else {
                Ok(rs)
            }
        }
    }
}

fn without_orphan(op: OpName, rs: Requests) -> Result<Requests, NoMemory>
    ensures { IfOk result (λ found. found ≡ without_orphan op rs) }
{
    let orphans = without_orphan_of(rs.orphans, op)?;
    Ok(Requests {
        live: rs.live,
        orphans,
        last_id: rs.last_id,
    })
}

/// The contexts of the surveys that are over, and all the requests unchanged.
#[derive(Drop)]
struct Over {
    cs: LinkedList<Ctx>,
    live: LinkedList<LiveRequest>,
}

fn add_over(
    z: Setting,
    t: Tick,
    r: &LiveRequest,
    cs: LinkedList<Ctx>,
) -> Result<LinkedList<Ctx>, NoMemory>
    ensures { IfOk result (λ found. found ≡ (if is_over z t r.now then r.now.ctx ∷ cs else cs)) }
{
    let mut cs = cs;
    if is_over(z, t, r) {
        cs.push_front(r.ctx)?;
    }
    Ok(cs)
}

fn over_ctxs(
    alloc: Global,
    z: Setting,
    t: Tick,
    live: LinkedList<LiveRequest>,
) -> Result<Over, NoMemory>
    ensures { IfOk result (λ r. (r.cs ≡ map (λ r. r.ctx) (filter (is_over z t) live)) × (r.live ≡ live)) }
{
    let mut live = live;
    match live.pop_front() {
        None => Ok(Over {
            cs: LinkedList::new(alloc),
            live,
        }),
        Some(r) => {
            let found = over_ctxs(alloc, z, t, live)?;
            let cs = add_over(z, t, &r, found.cs)?;
            let mut rest = found.live;
            rest.push_front(r)?;
            Ok(Over { cs, live: rest })
        }
    }
}

#[tactic(auto, unfolding(sp_history::specs::Requests::after_moment))]
fn after_moment(
    alloc: Global,
    z: Setting,
    t: Tick,
    ss: LinkedList<Begun>,
    rs: Requests,
) -> Result<Requests, NoMemory>
    ensures { IfOk result (λ found. found ≡ after_moment z t ss rs) }
{
    if is_req(z.role) {
        return Ok(rs);
    }
    let found = over_ctxs(alloc, z, t, rs.live)?;
    let rs = Requests {
        live: found.live,
        orphans: rs.orphans,
        last_id: rs.last_id,
    };
    end_on(&found.cs, How::Over, ss, rs)
}

// ---- What each entry does

fn none(alloc: Global) -> Requests
    ensures { result ≡ no_requests }
{
    Requests {
        live: LinkedList::new(alloc),
        orphans: LinkedList::new(alloc),
        last_id: None,
    }
}

fn after_begin(
    alloc: Global,
    z: Setting,
    before: &Past,
    c: Ctx,
    m: &RecordedMessage,
    rs: Requests,
) -> Result<Requests, NoMemory>
    ensures { IfOk result (λ found. found ≡ begin_on z (now (entries_of before.now)) c m.now.body (end_on (c ∷ []) How.Replaced (pend (entries_of before.now)) rs)) }
{
    let ss = pend(alloc, before)?;
    let rs = end_on(&one_ctx(alloc, c)?, How::Replaced, ss, rs)?;
    let body = copy_bytes(alloc, &m.body)?;
    begin_on(z, now(before), c, body, rs, LinkedList::new(alloc))
}

fn after_ending(
    alloc: Global,
    z: Setting,
    before: &Past,
    op: OpName,
    ending: &Ending,
    rs: Requests,
) -> Result<Requests, NoMemory>
    ensures { IfOk result (λ found. found ≡ without_orphan op (after_end z ending.now (of_live rs (pending (entries_of before.now) op)) (without_begun (pend (entries_of before.now)) op) rs)) }
{
    let s = of_live(&rs, pending(alloc, before, op)?);
    let ss = without_begun(pend(alloc, before)?, op)?;
    let rs = after_end(alloc, z, ending, s, ss, rs)?;
    without_orphan(op, rs)
}

fn after_out(
    alloc: Global,
    before: &Past,
    p: PipeId,
    b: &[u8],
    rs: Requests,
) -> Result<Requests, NoMemory>
    ensures { IfOk result (λ found. found ≡ change_live (with_out (now (entries_of before.now)) p b.now) rs) }
{
    let live = all_with_out(alloc, now(before), p, b, rs.live)?;
    Ok(Requests {
        live,
        orphans: rs.orphans,
        last_id: rs.last_id,
    })
}

fn after_frame(
    alloc: Global,
    z: Setting,
    past: &Past,
    p: PipeId,
    b: &[u8],
    rs: Requests,
) -> Result<Requests, NoMemory>
    ensures { IfOk result (λ found. found ≡ change_live (with_frame z (entries_of past.now) p b.now) rs) }
{
    let live = all_with_frame(alloc, z, past, p, b, rs.live)?;
    Ok(Requests {
        live,
        orphans: rs.orphans,
        last_id: rs.last_id,
    })
}

fn after_close(alloc: Global, rs: Requests) -> Requests
    ensures { result ≡ record rs { live = [] } }
{
    Requests {
        live: LinkedList::new(alloc),
        orphans: rs.orphans,
        last_id: rs.last_id,
    }
}

fn asked(alloc: Global, z: Setting, past: &Past) -> Result<Requests, NoMemory>
    ensures { IfOk result (λ found. found ≡ asked z (entries_of past.now)) }
{
    match past {
        Past::Start => Ok(none(alloc)),
        Past::After(Entry::Begin(_, _, c, RecordedAct::Send(m), _), before) => {
            let rs = asked(alloc, z, before)?;
            after_begin(alloc, z, before, *c, m, rs)
        }
        Past::After(Entry::End(op, ending), before) => {
            let rs = asked(alloc, z, before)?;
            after_ending(alloc, z, before, *op, ending, rs)
        }
        Past::After(Entry::Out(p, b), before) => {
            let rs = asked(alloc, z, before)?;
            after_out(alloc, before, *p, b.as_slice(), rs)
        }
        Past::After(Entry::Unkept(_), before) => match &**before {
            Past::After(Entry::Frame(_, _), earlier) => asked(alloc, z, earlier),
            _ => asked(alloc, z, before),
        },
        Past::After(Entry::Frame(p, b), before) => {
            let rs = asked(alloc, z, before)?;
            after_frame(alloc, z, before, *p, b.as_slice(), rs)
        }
        Past::After(Entry::Ctx(c, ContextChange::Shut), before) => {
            let rs = asked(alloc, z, before)?;
            end_on(&one_ctx(alloc, *c)?, How::Shut, pend(alloc, before)?, rs)
        }
        Past::After(Entry::Tick(t, _), before) => {
            let rs = asked(alloc, z, before)?;
            after_moment(alloc, z, *t, pend(alloc, before)?, rs)
        }
        Past::After(Entry::Close(_), before) => Ok(after_close(alloc, asked(alloc, z, before)?)),
        Past::After(_, before) => asked(alloc, z, before),
    }
}

/// The requests of a socket.
pub fn requests(alloc: Global, z: Setting, past: &Past) -> Result<Requests, NoMemory>
    ensures { IfOk result (λ found. found ≡ requests z (entries_of past.now)) }
{
    if has_requests(z) {
        asked(alloc, z, past)
    } else {
        Ok(none(alloc))
    }
}

fn first_on(c: Ctx, live: LinkedList<LiveRequest>) -> Option<LiveRequest>
    ensures { result ≡ find (is_on c) live }
{
    let mut live = live;
    match live.pop_front() {
        None => None,
        Some(r) => {
            if is_on(c, &r) {
                Some(r)
            } else {
                first_on(c, live)
            }
        }
    }
}

/// The live request of the context.
pub fn live_on(
    alloc: Global,
    z: Setting,
    past: &Past,
    c: Ctx,
) -> Result<Option<LiveRequest>, NoMemory>
    ensures { IfOk result (λ found. found ≡ live_on z (entries_of past.now) c) }
{
    let rs = requests(alloc, z, past)?;
    Ok(first_on(c, rs.live))
}

/// The live request of the operation, which is pending.
pub fn request_of(
    alloc: Global,
    z: Setting,
    past: &Past,
    s: &Begun,
) -> Result<Option<LiveRequest>, NoMemory>
    ensures { IfOk result (λ found. found ≡ request_of z (entries_of past.now) s.now) }
{
    let rs = requests(alloc, z, past)?;
    if is_orphan(&rs, s.op) {
        Ok(None)
    } else {
        Ok(first_on(s.ctx, rs.live))
    }
}

fn how_of(op: OpName, os: LinkedList<Orphan>) -> Option<How>
    ensures { result ≡ option_map (λ o. o.how) (find (λ o. same_op o.op op) os) }
{
    let mut os = os;
    match os.pop_front() {
        None => None,
        Some(o) => {
            if same_op(o.op, op) {
                Some(o.how)
            } else {
                how_of(op, os)
            }
        }
    }
}

/// How the request of the operation ended.
pub fn how_ended(
    alloc: Global,
    z: Setting,
    past: &Past,
    op: OpName,
) -> Result<Option<How>, NoMemory>
    ensures { IfOk result (λ found. found ≡ how_ended z (entries_of past.now) op) }
{
    let rs = requests(alloc, z, past)?;
    Ok(how_of(op, rs.orphans))
}
