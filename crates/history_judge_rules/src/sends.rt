//! Where a send goes, what it puts on the pipes, and how it is won.

ghost use Rattle.std.specs.Prelude.{◌≡◌, ◌==◌, ◌++◌, ◌&&◌, ◌||◌, IfOk, filter};
ghost use Rattle.std.specs.List.{list_any};
ghost use Rattle.std.specs.Option.{option_map};
ghost use Rattle.sp_history.specs.Lists.{has, same_bytes, same_op};
ghost use Rattle.sp_history.specs.Requests.{wire_of};
ghost use Rattle.sp_history.specs.Kept.{kept, route};
ghost use Rattle.sp_history.specs.Sends.{is_origin, may_go, targets, traced, bytes_for, bytes_of, are_bytes, is_lost, is_due_again, is_resend, unclaimed, is_answered_by, flooded, is_flooded, begun_before, is_first_for, follows_out, lacks_hops, has_no_way, goes_nowhere, is_sent};
ghost use Rattle.sp_history.specs.Hops.{hop_word, next_hops};
ghost use Rattle.history_judge_past.specs.Story.{entries_of};

use history_judge_past::entries::{Past, copy_bytes};
use history_judge_past::frames::{after_word, floods, has_hops, is_reply, resends};
use history_judge_past::lists::{
    all_in, first_word, has_pipe, is_empty, is_number, same_bytes, same_op,
};
use history_judge_past::past::{now, pend, up};
use history_judge_requests::kept::route;
use history_judge_requests::one_request::wire_of;
use history_judge_requests::requests::{request_of, requests};
use sp_base::{Bytes, NoMemory, OpName, PipeId, Role};
use sp_history::entry::{Entry, RecordedAct, RecordedMessage};
use sp_history::parts::{Begun, LastOut, LiveRequest, Origin};
use sp_history::setting::Setting;
use std::alloc::Global;
use std::collections::LinkedList;

// ---- Targets and bytes

fn is_origin(o: &Option<Origin>, p: PipeId) -> bool
    ensures { result ≡ is_origin o.now p }
{
    match o {
        None => false,
        Some(o) => o.pipe.0 == p.0,
    }
}

/// The hop count with which a raw message that has this header goes out.
fn next_hops(header: &[u8]) -> Option<u8>
    ensures { result ≡ next_hops header.now }
{
    match header {
        [w, x, y, hops] if *w == 0 && *x == 0 && *y == 0 && *hops < 255 => Some(*hops + 1),
        _ => None,
    }
}

fn may_go(z: Setting, origin: &Option<Origin>, header: &[u8], p: PipeId) -> bool
    ensures { result ≡ may_go z.role z.raw origin.now header.now p }
{
    match z.role {
        Role::Rep | Role::Respondent => {
            if z.raw {
                is_number(first_word(header), p.0)
            } else {
                is_origin(origin, p)
            }
        }
        Role::Bus => !z.raw || !is_number(first_word(header), p.0),
        Role::Pair1 => !z.raw || next_hops(header).is_some(),
        Role::Pair0 | Role::Pub | Role::Sub | Role::Req => true,
        Role::Push | Role::Pull | Role::Surveyor => true,
    }
}

fn may_all_go(
    pipes: LinkedList<PipeId>,
    z: Setting,
    origin: &Option<Origin>,
    header: &[u8],
) -> Result<LinkedList<PipeId>, NoMemory>
    ensures { IfOk result (λ kept. kept ≡ filter (may_go z.role z.raw origin.now header.now) pipes) }
{
    let mut pipes = pipes;
    match pipes.pop_front() {
        None => Ok(pipes),
        Some(x) => {
            let mut rest = may_all_go(pipes, z, origin, header)?;
            if may_go(z, origin, header, x) {
                rest.push_front(x)?;
            }
            Ok(rest)
        }
    }
}

/// The pipes to which the send may go.
pub fn targets(
    alloc: Global,
    z: Setting,
    past: &Past,
    s: &Begun,
) -> Result<LinkedList<PipeId>, NoMemory>
    ensures { IfOk result (λ r. r ≡ targets z (entries_of past.now) s.now) }
{
    match &s.act {
        RecordedAct::Recv => Ok(LinkedList::new(alloc)),
        RecordedAct::Send(m) => {
            let origin = route(alloc, z, past, s.op)?;
            may_all_go(up(alloc, past)?, z, &origin, m.header.as_slice())
        }
    }
}

fn joined(alloc: Global, prefix: &[u8], back: &[u8]) -> Result<Bytes, NoMemory>
    ensures { IfOk result (λ r. r ≡ prefix.now ++ back.now) }
{
    let mut whole = Bytes::from_slice(alloc, prefix)?;
    whole.append(back)?;
    Ok(whole)
}

fn traced(alloc: Global, origin: &Option<Origin>, body: &Bytes) -> Result<Option<Bytes>, NoMemory>
    ensures { IfOk result (λ r. r ≡ traced origin.now body.now) }
{
    match origin {
        None => Ok(None),
        Some(o) => Ok(Some(joined(alloc, o.words.as_slice(), body.as_slice())?)),
    }
}

fn asked_bytes(alloc: Global, r: &Option<LiveRequest>) -> Result<Option<Bytes>, NoMemory>
    ensures { IfOk result (λ b. b ≡ option_map wire_of r.now) }
{
    match r {
        None => Ok(None),
        Some(r) => Ok(Some(wire_of(alloc, r)?)),
    }
}

fn counted_bytes(alloc: Global, hops: u8, body: &Bytes) -> Result<Bytes, NoMemory>
    ensures { IfOk result (λ b. b ≡ hop_word hops ++ body.now) }
{
    joined(alloc, &[0, 0, 0, hops], body.as_slice())
}

fn raw_counted_bytes(alloc: Global, m: &RecordedMessage) -> Result<Option<Bytes>, NoMemory>
    ensures { IfOk result (λ b. b ≡ option_map (λ n. hop_word n ++ m.now.body) (next_hops m.now.header)) }
{
    match next_hops(m.header.as_slice()) {
        None => Ok(None),
        Some(hops) => Ok(Some(counted_bytes(alloc, hops, &m.body)?)),
    }
}

fn bytes_for(
    alloc: Global,
    z: Setting,
    origin: &Option<Origin>,
    r: &Option<LiveRequest>,
    m: &RecordedMessage,
) -> Result<Option<Bytes>, NoMemory>
    ensures { IfOk result (λ b. b ≡ bytes_for z.role z.raw origin.now r.now m.now) }
{
    match z.role {
        Role::Req | Role::Surveyor => {
            if z.raw {
                Ok(Some(joined(alloc, m.header.as_slice(), m.body.as_slice())?))
            } else {
                asked_bytes(alloc, r)
            }
        }
        Role::Rep | Role::Respondent => {
            if z.raw {
                Ok(Some(joined(alloc, after_word(m.header.as_slice()), m.body.as_slice())?))
            } else {
                traced(alloc, origin, &m.body)
            }
        }
        Role::Pair1 => {
            if z.raw {
                raw_counted_bytes(alloc, m)
            } else {
                Ok(Some(counted_bytes(alloc, 1, &m.body)?))
            }
        }
        Role::Pair0 | Role::Pub | Role::Sub | Role::Push | Role::Pull | Role::Bus => {
            Ok(Some(copy_bytes(alloc, &m.body)?))
        }
    }
}

/// What goes out for the send.
pub fn bytes_of(
    alloc: Global,
    z: Setting,
    past: &Past,
    s: &Begun,
) -> Result<Option<Bytes>, NoMemory>
    ensures { IfOk result (λ b. b ≡ bytes_of z (entries_of past.now) s.now) }
{
    match &s.act {
        RecordedAct::Recv => Ok(None),
        RecordedAct::Send(m) => {
            let origin = route(alloc, z, past, s.op)?;
            let r = request_of(alloc, z, past, s)?;
            bytes_for(alloc, z, &origin, &r, m)
        }
    }
}

fn are_bytes(found: Option<Bytes>, b: &[u8]) -> bool
    ensures { result ≡ are_bytes found b.now }
{
    match found {
        None => false,
        Some(a) => same_bytes(a.as_slice(), b),
    }
}

// ---- Sending again

fn is_lost(alloc: Global, z: Setting, past: &Past, out: Option<LastOut>) -> Result<bool, NoMemory>
    ensures { IfOk result (λ r. r ≡ is_lost z (entries_of past.now) out) }
{
    let Some(o) = out else {
        return Ok(false);
    };
    let pipes = up(alloc, past)?;
    let t = now(past);
    Ok(!has_pipe(&pipes, o.pipe) || z.options.resend <= t.0 && o.when.0 <= t.0 - z.options.resend)
}

/// Returns whether the request may go out again.
pub fn is_due_again(
    alloc: Global,
    z: Setting,
    past: &Past,
    r: &LiveRequest,
) -> Result<bool, NoMemory>
    ensures { IfOk result (λ b. b ≡ is_due_again z (entries_of past.now) r.now) }
{
    if !is_empty(&r.replies) {
        return Ok(false);
    }
    is_lost(alloc, z, past, r.last_out)
}

fn any_again(
    alloc: Global,
    z: Setting,
    past: &Past,
    b: &[u8],
    live: LinkedList<LiveRequest>,
) -> Result<bool, NoMemory>
    ensures { IfOk result (λ found. found ≡ list_any (λ r. is_due_again z (entries_of past.now) r && same_bytes (wire_of r) b.now) live) }
{
    let mut live = live;
    match live.pop_front() {
        None => Ok(false),
        Some(r) => {
            let wire = wire_of(alloc, &r)?;
            if is_due_again(alloc, z, past, &r)? && same_bytes(wire.as_slice(), b) {
                return Ok(true);
            }
            any_again(alloc, z, past, b, live)
        }
    }
}

/// Returns whether an Out of these bytes is a request that goes out again.
fn is_resend(alloc: Global, z: Setting, past: &Past, b: &[u8]) -> Result<bool, NoMemory>
    ensures { IfOk result (λ found. found ≡ is_resend z (entries_of past.now) b.now) }
{
    if !resends(z) {
        return Ok(false);
    }
    let rs = requests(alloc, z, past)?;
    any_again(alloc, z, past, b, rs.live)
}

// ---- How a send is won

/// Returns whether an Out of a send waits for the send's End.
pub fn unclaimed(alloc: Global, z: Setting, past: &Past) -> Result<bool, NoMemory>
    ensures { IfOk result (λ found. found ≡ unclaimed z (entries_of past.now)) }
{
    match past {
        Past::After(Entry::Out(_, b), before) => Ok(!is_resend(alloc, z, before, b.as_slice())?),
        Past::After(Entry::Full(_) | Entry::Down(_, _), before) => {
            if floods(z.role) {
                unclaimed(alloc, z, before)
            } else {
                Ok(false)
            }
        }
        _ => Ok(false),
    }
}

fn is_answered_by(
    alloc: Global,
    z: Setting,
    past: &Past,
    s: &Begun,
    seen: &LinkedList<PipeId>,
) -> Result<bool, NoMemory>
    ensures { IfOk result (λ found. found ≡ is_answered_by z (entries_of past.now) s.now seen.now) }
{
    let ts = targets(alloc, z, past, s)?;
    if !(all_in(&ts, seen) && all_in(seen, &ts)) {
        return Ok(false);
    }
    Ok(!unclaimed(alloc, z, past)?)
}

#[tactic(auto, using(sp_history::proofs::Flooding::flooded_here))]
fn flooded(
    alloc: Global,
    z: Setting,
    s: &Begun,
    b: &[u8],
    seen: LinkedList<PipeId>,
    past: &Past,
) -> Result<bool, NoMemory>
    ensures { IfOk result (λ found. found ≡ flooded z s.now b.now seen (entries_of past.now)) }
{
    if is_answered_by(alloc, z, past, s, &seen)? {
        return Ok(true);
    }
    match past {
        Past::After(Entry::Out(p, x), before) => {
            if !same_bytes(x.as_slice(), b) || has_pipe(&seen, *p) {
                return Ok(false);
            }
            let mut seen = seen;
            seen.push_front(*p)?;
            flooded(alloc, z, s, b, seen, before)
        }
        Past::After(Entry::Full(p) | Entry::Down(p, _), before) => {
            if has_pipe(&seen, *p) {
                return Ok(false);
            }
            let mut seen = seen;
            seen.push_front(*p)?;
            flooded(alloc, z, s, b, seen, before)
        }
        _ => Ok(false),
    }
}

fn is_flooded(
    alloc: Global,
    z: Setting,
    past: &Past,
    s: &Begun,
    b: Option<Bytes>,
) -> Result<bool, NoMemory>
    ensures { IfOk result (λ found. found ≡ is_flooded z (entries_of past.now) s.now b) }
{
    match b {
        None => Ok(false),
        Some(b) => flooded(alloc, z, s, b.as_slice(), LinkedList::new(alloc), past),
    }
}

fn begun_before(
    alloc: Global,
    op: OpName,
    ss: LinkedList<Begun>,
) -> Result<LinkedList<Begun>, NoMemory>
    ensures { IfOk result (λ found. found ≡ begun_before op ss) }
{
    let mut ss = ss;
    match ss.pop_front() {
        None => Ok(ss),
        Some(s) => {
            if same_op(s.op, op) {
                return Ok(LinkedList::new(alloc));
            }
            let mut rest = begun_before(alloc, op, ss)?;
            rest.push_front(s)?;
            Ok(rest)
        }
    }
}

fn any_for(
    alloc: Global,
    z: Setting,
    past: &Past,
    p: PipeId,
    ss: LinkedList<Begun>,
) -> Result<bool, NoMemory>
    ensures { IfOk result (λ found. found ≡ list_any (λ other. has (targets z (entries_of past.now) other) p) ss) }
{
    let mut ss = ss;
    match ss.pop_front() {
        None => Ok(false),
        Some(s) => {
            let ts = targets(alloc, z, past, &s)?;
            if has_pipe(&ts, p) {
                return Ok(true);
            }
            any_for(alloc, z, past, p, ss)
        }
    }
}

fn is_first_for(
    alloc: Global,
    z: Setting,
    past: &Past,
    s: &Begun,
    p: PipeId,
) -> Result<bool, NoMemory>
    ensures { IfOk result (λ found. found ≡ is_first_for z (entries_of past.now) s.now p) }
{
    let earlier = begun_before(alloc, s.op, pend(alloc, past)?)?;
    Ok(!any_for(alloc, z, past, p, earlier)?)
}

fn follows_out(alloc: Global, z: Setting, s: &Begun, past: &Past) -> Result<bool, NoMemory>
    ensures { IfOk result (λ found. found ≡ follows_out z s.now (entries_of past.now)) }
{
    match past {
        Past::After(Entry::Out(p, b), before) => {
            let ts = targets(alloc, z, before, s)?;
            let bytes = bytes_of(alloc, z, before, s)?;
            if !(has_pipe(&ts, *p) && are_bytes(bytes, b.as_slice())) {
                return Ok(false);
            }
            is_first_for(alloc, z, before, s, *p)
        }
        _ => Ok(false),
    }
}

fn lacks_hops(act: &RecordedAct) -> bool
    ensures { result ≡ lacks_hops act.now }
{
    match act {
        RecordedAct::Recv => false,
        RecordedAct::Send(m) => next_hops(m.header.as_slice()).is_none(),
    }
}

/// Returns whether no pipe will get the send.
pub fn has_no_way(alloc: Global, z: Setting, past: &Past, s: &Begun) -> Result<bool, NoMemory>
    ensures { IfOk result (λ found. found ≡ has_no_way z (entries_of past.now) s.now) }
{
    let ts = targets(alloc, z, past, s)?;
    Ok(is_reply(z.role) && is_empty(&ts) || has_hops(z) && lacks_hops(&s.act))
}

fn goes_nowhere(alloc: Global, z: Setting, past: &Past, s: &Begun) -> Result<bool, NoMemory>
    ensures { IfOk result (λ found. found ≡ goes_nowhere z (entries_of past.now) s.now) }
{
    if !has_no_way(alloc, z, past, s)? {
        return Ok(false);
    }
    Ok(!unclaimed(alloc, z, past)?)
}

/// Returns whether the send may be won here.
pub fn is_sent(alloc: Global, z: Setting, past: &Past, s: &Begun) -> Result<bool, NoMemory>
    ensures { IfOk result (λ found. found ≡ is_sent z (entries_of past.now) s.now) }
{
    if floods(z.role) {
        let b = bytes_of(alloc, z, past, s)?;
        return is_flooded(alloc, z, past, s, b);
    }
    if follows_out(alloc, z, s, past)? {
        return Ok(true);
    }
    goes_nowhere(alloc, z, past, s)
}
