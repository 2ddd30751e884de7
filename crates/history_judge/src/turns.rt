//! Whole turns and histories.

ghost use Rattle.std.specs.Prelude.{◌≡◌, ◌≢◌, ◌↔◌, ◌≤◌, ◌<◌, ◌^◌, ◌+◌, ◌∷◌, ◌||◌, ◌&&◌, [], ℕ, List, IsTrue, IfOk, not, Option, Some, None, true, false};
ghost use Rattle.std.specs.List.{list_all};
ghost use Rattle.sp_history.specs.declared.entry.Entry.{Entry};
ghost use Rattle.sp_history.specs.declared.entry.Entry.TheVariants.{Full};
ghost use Rattle.sp_history.specs.declared.entry.Why.TheVariants.{Malformed};
ghost use Rattle.sp_history.specs.Lists.{has, head_of};
ghost use Rattle.sp_history.specs.Setting.{is_pair, has_topics, has_contexts, resends};
ghost use Rattle.sp_history.specs.Past.{onto, totals, up, ups, pend, now, due_at, opened, ctxs, topics, caller_of, untaken};
ghost use Rattle.sp_history.specs.Kept.{wanted};
ghost use Rattle.sp_history.specs.Requests.{requests};
ghost use Rattle.sp_history.specs.Legal.{IsUp, condemned, is_pending_on, has_topic, is_uncollected, is_after_frame, may_dry, MayCome, Allowed, Follows, starts_well, LegalTurn};
ghost use Rattle.sp_history.specs.Settled.{is_dry, receive_settled, send_settled, request_settled, SettledWith, SettledBy};
ghost use Rattle.history_judge_past.specs.Story.{entries_of};
ghost use Rattle.history_judge.specs.Judgements.{Judges, JudgesFrom, full_pipes, verdict_of};
ghost use Rattle.history_judge_rules.specs.Faults.{Finds};

use crate::judgement::Judgement;
use history_judge_past::entries::Past;
use history_judge_past::frames::{has_contexts, has_topics, is_pair, is_sub, resends};
use history_judge_past::lists::{has_ctx, has_pipe, is_empty};
use history_judge_past::past::{
    caller_of, counts, ctxs, due_at, is_closed, now, one_more, opened, pend, topics, untaken, up,
    ups,
};
use history_judge_requests::kept::{kept, wanted};
use history_judge_requests::requests::requests;
use history_judge_rules::faults::Fault;
use history_judge_rules::rules::{
    comes_after_close, condemned, goes_on, has_topic, is_after_frame, is_pending_on, is_recv,
    is_uncollected, is_up, may_begin, may_dry, may_end, may_finish,
};
use history_judge_rules::sends::{has_no_way, is_due_again, targets};
use sp_base::{Bytes, Ctx, NoMemory, OpName, PipeId, Tick};
use sp_history::entry::{ContextChange, Entry, Switch, Totals, Why};
use sp_history::parts::{Begun, LiveRequest, Orphan};
use sp_history::setting::Setting;
use std::alloc::Global;
use std::collections::LinkedList;
use turn_lock::Turn;

// ---- One entry

fn may_come_up(alloc: Global, z: Setting, past: &Past, p: PipeId) -> Result<Option<Fault>, NoMemory>
    ensures { IfOk result (λ f. Finds f ((p ≡ ups (entries_of past.now) + 1) × (IsTrue (is_pair z.role) → up (entries_of past.now) ≡ []) × (p < 2 ^ 31))) }
{
    if u64::from(p.0) != one_more(ups(past)?)? {
        return Ok(Some(Fault::WrongNumber));
    }
    if is_pair(z.role) && !up(alloc, past)?.is_empty() {
        return Ok(Some(Fault::SecondPipe));
    }
    if p.0 > 0x7fff_ffff {
        return Ok(Some(Fault::NoMoreNumbers));
    }
    Ok(None)
}

fn is_malformed(why: Why) -> bool
    ensures { IsTrue result ↔ (why ≡ Malformed) }
{
    matches!(why, Why::Malformed)
}

fn may_go_down(
    alloc: Global,
    z: Setting,
    past: &Past,
    p: PipeId,
    why: Why,
) -> Result<Option<Fault>, NoMemory>
    ensures { IfOk result (λ f. Finds f (IsUp (entries_of past.now) p × (IsTrue (has (condemned z (entries_of past.now)) p) → why ≡ Malformed))) }
{
    if !is_up(alloc, past, p)? {
        return Ok(Some(Fault::NotUp));
    }
    let pipes = condemned(alloc, z, past)?;
    if has_pipe(&pipes, p) && !is_malformed(why) {
        return Ok(Some(Fault::IsMalformed));
    }
    Ok(None)
}

fn may_be_pulled(
    alloc: Global,
    z: Setting,
    past: &Past,
    p: PipeId,
) -> Result<Option<Fault>, NoMemory>
    ensures { IfOk result (λ f. Finds f (IsUp (entries_of past.now) p × IsTrue (wanted z (entries_of past.now) p))) }
{
    if !is_up(alloc, past, p)? {
        return Ok(Some(Fault::NotUp));
    }
    if !wanted(alloc, z, past, p)? {
        return Ok(Some(Fault::NotWanted));
    }
    Ok(None)
}

fn may_be_framed(
    alloc: Global,
    z: Setting,
    past: &Past,
    p: PipeId,
) -> Result<Option<Fault>, NoMemory>
    ensures { IfOk result (λ f. Finds f (IsUp (entries_of past.now) p × IsTrue (wanted z (entries_of past.now) p) × (has (condemned z (entries_of past.now)) p ≡ false))) }
{
    if !is_up(alloc, past, p)? {
        return Ok(Some(Fault::NotUp));
    }
    if !wanted(alloc, z, past, p)? {
        return Ok(Some(Fault::NotWanted));
    }
    let pipes = condemned(alloc, z, past)?;
    if has_pipe(&pipes, p) {
        return Ok(Some(Fault::IsMalformed));
    }
    Ok(None)
}

fn must_be_up(alloc: Global, past: &Past, p: PipeId) -> Result<Option<Fault>, NoMemory>
    ensures { IfOk result (λ f. Finds f (IsUp (entries_of past.now) p)) }
{
    if is_up(alloc, past, p)? {
        Ok(None)
    } else {
        Ok(Some(Fault::NotUp))
    }
}

fn may_be_unkept(
    alloc: Global,
    z: Setting,
    past: &Past,
    p: PipeId,
) -> Result<Option<Fault>, NoMemory>
    ensures { IfOk result (λ f. Finds f (IsTrue (is_after_frame z (entries_of past.now) p))) }
{
    if is_after_frame(alloc, z, past, p)? {
        Ok(None)
    } else {
        Ok(Some(Fault::NoFrameBefore))
    }
}

fn is_first(pipes: LinkedList<PipeId>, p: PipeId) -> bool
    ensures { IsTrue result ↔ (head_of pipes ≡ Some p) }
{
    let mut pipes = pipes;
    match pipes.pop_front() {
        None => false,
        Some(q) => q == p,
    }
}

fn may_be_taken(alloc: Global, past: &Past, p: PipeId) -> Result<Option<Fault>, NoMemory>
    ensures { IfOk result (λ f. Finds f (head_of (untaken (entries_of past.now)) ≡ Some p)) }
{
    if is_first(untaken(alloc, past)?, p) {
        Ok(None)
    } else {
        Ok(Some(Fault::NotNextTaken))
    }
}

fn may_take(
    alloc: Global,
    k: u32,
    past: &Past,
    op: OpName,
    caller: u32,
) -> Result<Option<Fault>, NoMemory>
    ensures { IfOk result (λ f. Finds f ((caller ≡ k) × (caller_of (entries_of past.now) op ≡ Some k) × IsTrue (is_uncollected (entries_of past.now) op))) }
{
    if caller != k {
        return Ok(Some(Fault::OtherCaller));
    }
    if !is_uncollected(alloc, past, op)? {
        return Ok(Some(Fault::NothingToCollect));
    }
    match caller_of(past, op) {
        None => Ok(Some(Fault::NothingToCollect)),
        Some(by) => {
            if by == k {
                Ok(None)
            } else {
                Ok(Some(Fault::OtherCaller))
            }
        }
    }
}

fn are_same(ops: &LinkedList<OpName>, others: &LinkedList<OpName>) -> bool
    ensures { IsTrue result ↔ (ops.now ≡ others.now) }
{
    ops == others
}

fn may_tick(
    alloc: Global,
    past: &Past,
    t: Tick,
    ops: &LinkedList<OpName>,
) -> Result<Option<Fault>, NoMemory>
    ensures { IfOk result (λ f. Finds f ((now (entries_of past.now) ≤ t) × (ops.now ≡ due_at (entries_of past.now) t))) }
{
    if now(past).0 > t.0 {
        return Ok(Some(Fault::TimeGoesBack));
    }
    let found = due_at(alloc, past, t)?;
    if are_same(ops, &found) {
        Ok(None)
    } else {
        Ok(Some(Fault::WrongDue))
    }
}

fn may_open(z: Setting, past: &Past, c: Ctx) -> Result<Option<Fault>, NoMemory>
    ensures { IfOk result (λ f. Finds f (IsTrue (has_contexts z) × (c ≡ opened (entries_of past.now) + 1))) }
{
    if !has_contexts(z) {
        return Ok(Some(Fault::NoContexts));
    }
    if u64::from(c.0) != one_more(opened(past)?)? {
        return Ok(Some(Fault::WrongNumber));
    }
    Ok(None)
}

fn may_shut(alloc: Global, past: &Past, c: Ctx) -> Result<Option<Fault>, NoMemory>
    ensures { IfOk result (λ f. Finds f ((c ≢ 0) × IsTrue (has (ctxs (entries_of past.now)) c) × (is_pending_on (entries_of past.now) c ≡ false))) }
{
    if c.0 == 0 {
        return Ok(Some(Fault::OwnContext));
    }
    let open = ctxs(alloc, past)?;
    if !has_ctx(&open, c) {
        return Ok(Some(Fault::NoSuchContext));
    }
    if is_pending_on(alloc, past, c)? {
        return Ok(Some(Fault::StillPending));
    }
    Ok(None)
}

fn topic_fault(alloc: Global, z: Setting, past: &Past, c: Ctx) -> Result<Option<Fault>, NoMemory>
    ensures { IfOk result (λ f. Finds f (IsTrue (has_topics z) × IsTrue (has (ctxs (entries_of past.now)) c))) }
{
    if !has_topics(z) {
        return Ok(Some(Fault::NoTopics));
    }
    let open = ctxs(alloc, past)?;
    if has_ctx(&open, c) {
        Ok(None)
    } else {
        Ok(Some(Fault::NoSuchContext))
    }
}

fn may_put_on(
    alloc: Global,
    z: Setting,
    past: &Past,
    c: Ctx,
    t: &Bytes,
) -> Result<Option<Fault>, NoMemory>
    ensures { IfOk result (λ f. Finds f (IsTrue (has_topics z) × IsTrue (has (ctxs (entries_of past.now)) c) × (has_topic (topics (entries_of past.now) c) t.now ≡ false))) }
{
    match topic_fault(alloc, z, past, c)? {
        Some(fault) => Ok(Some(fault)),
        None => {
            let ts = topics(alloc, past, c)?;
            if has_topic(&ts, t.as_slice()) {
                Ok(Some(Fault::TopicThere))
            } else {
                Ok(None)
            }
        }
    }
}

fn may_take_off(
    alloc: Global,
    z: Setting,
    past: &Past,
    c: Ctx,
    t: &Bytes,
) -> Result<Option<Fault>, NoMemory>
    ensures { IfOk result (λ f. Finds f (IsTrue (has_topics z) × IsTrue (has (ctxs (entries_of past.now)) c) × IsTrue (has_topic (topics (entries_of past.now) c) t.now))) }
{
    match topic_fault(alloc, z, past, c)? {
        Some(fault) => Ok(Some(fault)),
        None => {
            let ts = topics(alloc, past, c)?;
            if has_topic(&ts, t.as_slice()) {
                Ok(None)
            } else {
                Ok(Some(Fault::TopicAbsent))
            }
        }
    }
}

fn are_totals(past: &Past, t: Totals) -> Result<bool, NoMemory>
    ensures { IfOk result (λ r. IsTrue r ↔ (t ≡ totals (entries_of past.now))) }
{
    let found = counts(past)?;
    Ok(t == found)
}

fn may_close(alloc: Global, past: &Past, t: Totals) -> Result<Option<Fault>, NoMemory>
    ensures { IfOk result (λ f. Finds f ((pend (entries_of past.now) ≡ []) × (up (entries_of past.now) ≡ []) × (t ≡ totals (entries_of past.now)))) }
{
    if !pend(alloc, past)?.is_empty() {
        return Ok(Some(Fault::StillPending));
    }
    if !up(alloc, past)?.is_empty() {
        return Ok(Some(Fault::StillUp));
    }
    if are_totals(past, t)? {
        Ok(None)
    } else {
        Ok(Some(Fault::WrongTotals))
    }
}

fn may_be_dry(alloc: Global, z: Setting, past: &Past, c: Ctx) -> Result<Option<Fault>, NoMemory>
    ensures { IfOk result (λ f. Finds f (IsTrue (may_dry z (entries_of past.now) c))) }
{
    if may_dry(alloc, z, past, c)? {
        Ok(None)
    } else {
        Ok(Some(Fault::NothingCopied))
    }
}

/// The fault of the entry itself, if there is one.
fn may_come(
    alloc: Global,
    z: Setting,
    k: u32,
    past: &Past,
    e: &Entry,
) -> Result<Option<Fault>, NoMemory>
    ensures { IfOk result (λ f. Finds f (MayCome z k (entries_of past.now) e.now)) }
{
    match e {
        Entry::Up(p, _, _, _) => may_come_up(alloc, z, past, *p),
        Entry::Met(_) => Ok(None),
        Entry::NoUp(_, _) => Ok(None),
        Entry::Down(p, why) => may_go_down(alloc, z, past, *p, *why),
        Entry::Frame(p, _) => may_be_framed(alloc, z, past, *p),
        Entry::Out(p, _) => must_be_up(alloc, past, *p),
        Entry::Full(p) => must_be_up(alloc, past, *p),
        Entry::Quiet(p) => may_be_pulled(alloc, z, past, *p),
        Entry::Stall(p) => must_be_up(alloc, past, *p),
        Entry::Clear(p) => must_be_up(alloc, past, *p),
        Entry::Unkept(p) => may_be_unkept(alloc, z, past, *p),
        Entry::Taken(p) => may_be_taken(alloc, past, *p),
        Entry::Begin(op, caller, c, act, _) => may_begin(alloc, z, k, past, *op, *caller, *c, act),
        Entry::End(op, ending) => may_finish(alloc, z, past, *op, ending),
        Entry::Took(op, caller) => may_take(alloc, k, past, *op, *caller),
        Entry::Tick(t, ops) => may_tick(alloc, past, *t, ops),
        Entry::Ctx(c, ContextChange::Open) => may_open(z, past, *c),
        Entry::Ctx(c, ContextChange::Shut) => may_shut(alloc, past, *c),
        Entry::Topic(c, t, Switch::On) => may_put_on(alloc, z, past, *c, t),
        Entry::Topic(c, t, Switch::Off) => may_take_off(alloc, z, past, *c, t),
        Entry::Dry(c) => may_be_dry(alloc, z, past, *c),
        Entry::Close(t) => may_close(alloc, past, *t),
    }
}

/// The fault of the entry here, if there is one.
fn allowed(
    alloc: Global,
    z: Setting,
    k: u32,
    past: &Past,
    e: &Entry,
) -> Result<Option<Fault>, NoMemory>
    ensures { IfOk result (λ f. Finds f (Allowed z k (entries_of past.now) e.now)) }
{
    if !goes_on(alloc, z, past, e)? {
        return Ok(Some(Fault::Interrupted));
    }
    if is_closed(past) && !comes_after_close(e) {
        return Ok(Some(Fault::AfterClose));
    }
    may_come(alloc, z, k, past, e)
}

// ---- What a turn leaves undone

fn receive_settled(alloc: Global, z: Setting, past: &Past, s: &Begun) -> Result<bool, NoMemory>
    ensures { IfOk result (λ r. r ≡ receive_settled z (entries_of past.now) s.now) }
{
    if !is_recv(&s.act) {
        return Ok(true);
    }
    let items = kept(alloc, z, past, s.ctx)?;
    Ok(is_empty(&items))
}

fn are_full(fulls: &LinkedList<PipeId>, pipes: &LinkedList<PipeId>) -> bool
    ensures { result ≡ list_all (has fulls.now) pipes.now }
{
    pipes.iter().all(|p| has_pipe(fulls, *p))
}

fn send_settled(
    alloc: Global,
    z: Setting,
    past: &Past,
    fulls: &LinkedList<PipeId>,
    s: &Begun,
) -> Result<bool, NoMemory>
    ensures { IfOk result (λ r. r ≡ send_settled z (entries_of past.now) (has fulls.now) s.now) }
{
    if is_recv(&s.act) {
        return Ok(true);
    }
    let ts = targets(alloc, z, past, s)?;
    Ok(are_full(fulls, &ts) && !has_no_way(alloc, z, past, s)?)
}

fn is_dry(past: &Past, c: Ctx) -> bool
    ensures { result ≡ is_dry (entries_of past.now) c }
{
    match past {
        Past::Start => false,
        Past::After(Entry::Dry(d), before) => d.0 == c.0 || is_dry(before, c),
        Past::After(Entry::Tick(_, _), _) => false,
        Past::After(_, before) => is_dry(before, c),
    }
}

fn request_settled(
    alloc: Global,
    z: Setting,
    past: &Past,
    fulls: &LinkedList<PipeId>,
    r: &LiveRequest,
) -> Result<bool, NoMemory>
    ensures { IfOk result (λ b. b ≡ request_settled z (entries_of past.now) (has fulls.now) r.now) }
{
    if !is_due_again(alloc, z, past, r)? {
        return Ok(true);
    }
    let pipes = up(alloc, past)?;
    Ok(are_full(fulls, &pipes) || is_dry(past, r.ctx))
}

fn receives_settled(
    alloc: Global,
    z: Setting,
    past: &Past,
    ss: LinkedList<Begun>,
) -> Result<bool, NoMemory>
    ensures { IfOk result (λ r. r ≡ list_all (receive_settled z (entries_of past.now)) ss) }
{
    let mut ss = ss;
    match ss.pop_front() {
        None => Ok(true),
        Some(s) => {
            if !receive_settled(alloc, z, past, &s)? {
                return Ok(false);
            }
            receives_settled(alloc, z, past, ss)
        }
    }
}

fn sends_settled(
    alloc: Global,
    z: Setting,
    past: &Past,
    fulls: &LinkedList<PipeId>,
    ss: LinkedList<Begun>,
) -> Result<bool, NoMemory>
    ensures { IfOk result (λ r. r ≡ list_all (send_settled z (entries_of past.now) (has fulls.now)) ss) }
{
    let mut ss = ss;
    match ss.pop_front() {
        None => Ok(true),
        Some(s) => {
            if !send_settled(alloc, z, past, fulls, &s)? {
                return Ok(false);
            }
            sends_settled(alloc, z, past, fulls, ss)
        }
    }
}

fn requests_settled(
    alloc: Global,
    z: Setting,
    past: &Past,
    fulls: &LinkedList<PipeId>,
    live: LinkedList<LiveRequest>,
) -> Result<bool, NoMemory>
    ensures { IfOk result (λ r. r ≡ list_all (request_settled z (entries_of past.now) (has fulls.now)) live) }
{
    let mut live = live;
    match live.pop_front() {
        None => Ok(true),
        Some(r) => {
            if !request_settled(alloc, z, past, fulls, &r)? {
                return Ok(false);
            }
            requests_settled(alloc, z, past, fulls, live)
        }
    }
}

/// What the turn that ends here leaves undone.
fn undone(
    alloc: Global,
    z: Setting,
    past: &Past,
    fulls: &LinkedList<PipeId>,
) -> Result<Option<Fault>, NoMemory>
    ensures { IfOk result (λ f. Finds f (SettledWith z (entries_of past.now) (has fulls.now))) }
{
    if !receives_settled(alloc, z, past, pend(alloc, past)?)? {
        return Ok(Some(Fault::ReceiveWaits));
    }
    if !sends_settled(alloc, z, past, fulls, pend(alloc, past)?)? {
        return Ok(Some(Fault::SendWaits));
    }
    let rs = requests(alloc, z, past)?;
    if !rs.orphans.is_empty() {
        return Ok(Some(Fault::OrphanWaits));
    }
    if resends(z) && !requests_settled(alloc, z, past, fulls, rs.live)? {
        return Ok(Some(Fault::RequestWaits));
    }
    Ok(None)
}

// ---- A turn

fn with_full(e: &Entry, fulls: LinkedList<PipeId>) -> Result<LinkedList<PipeId>, NoMemory>
    ensures { IfOk result (λ r. (turn : List Entry) → fulls ≡ full_pipes turn → r ≡ full_pipes (e.now ∷ turn)) }
{
    let mut fulls = fulls;
    match e {
        Entry::Full(p) => {
            fulls.push_front(*p)?;
            Ok(fulls)
        }
        _ => Ok(fulls),
    }
}

/// A past to which the entries of a turn were added, the pipes that were found full in it, and the fault of it.
#[derive(Drop)]
struct Followed {
    past: Past,
    fulls: LinkedList<PipeId>,
    fault: Option<Fault>,
}

fn follow(
    alloc: Global,
    z: Setting,
    k: u32,
    past: Past,
    entries: LinkedList<Entry>,
    fulls: LinkedList<PipeId>,
) -> Result<Followed, NoMemory>
    ensures past { IfOk result (λ r. entries_of r.past ≡ onto entries (entries_of past)) }
    ensures fulls { IfOk result (λ r. (turn : List Entry) → fulls ≡ full_pipes turn → r.fulls ≡ full_pipes (onto entries turn)) }
    ensures fault { IfOk result (λ r. Finds r.fault (Follows z k (entries_of past) entries)) }
{
    let mut entries = entries;
    match entries.pop_front() {
        None => Ok(Followed {
            past,
            fulls,
            fault: None,
        }),
        Some(e) => {
            let first = allowed(alloc, z, k, &past, &e)?;
            let fulls = with_full(&e, fulls)?;
            let past = Past::After(e, Box::new(alloc, past)?);
            let rest = follow(alloc, z, k, past, entries, fulls)?;
            Ok(Followed {
                past: rest.past,
                fulls: rest.fulls,
                fault: first.or(rest.fault),
            })
        }
    }
}

fn starts_well(z: Setting, entries: &LinkedList<Entry>) -> bool
    ensures { result ≡ starts_well z entries.now }
{
    match entries.front() {
        Some(Entry::Unkept(_)) => false,
        Some(Entry::Dry(_)) => !is_sub(z.role),
        _ => true,
    }
}

/// The fault of the number of a turn and of its first entry, if there is one.
fn start_fault(z: Setting, k: u32, entries: &LinkedList<Entry>) -> Option<Fault>
    ensures { Finds result ((1 ≤ k) × (k ≤ z.callers) × IsTrue (starts_well z entries.now)) }
{
    if k < 1 || k > z.callers {
        return Some(Fault::NoSuchCaller);
    }
    if starts_well(z, entries) {
        None
    } else {
        Some(Fault::BeginsInMidTurn)
    }
}

/// A past to which a turn was added, the fault of the turn, and what it leaves undone.
#[derive(Drop)]
struct Judged {
    past: Past,
    illegal: Option<Fault>,
    undone: Option<Fault>,
}

fn judge_turn(
    alloc: Global,
    z: Setting,
    past: Past,
    k: u32,
    entries: LinkedList<Entry>,
) -> Result<Judged, NoMemory>
    ensures past { IfOk result (λ r. entries_of r.past ≡ onto entries (entries_of past)) }
    ensures legal { IfOk result (λ r. Finds r.illegal (LegalTurn z (entries_of past) (record { number = k; entries = entries }))) }
    ensures settled { IfOk result (λ r. Finds r.undone (SettledBy z (onto entries (entries_of past)) (onto entries []))) }
{
    let start = start_fault(z, k, &entries);
    let followed = follow(alloc, z, k, past, entries, LinkedList::new(alloc))?;
    let end = may_end(alloc, z, &followed.past)?;
    let undone = undone(alloc, z, &followed.past, &followed.fulls)?;
    Ok(Judged {
        past: followed.past,
        illegal: start.or(followed.fault).or(end),
        undone,
    })
}

/// The verdict on a turn and on what follows it.
fn together(illegal: Option<Fault>, undone: Option<Fault>, rest: Judgement) -> Judgement
    ensures { result ≡ verdict_of illegal undone rest }
{
    if let Some(fault) = illegal {
        return Judgement::Illegal(fault);
    }
    let Some(fault) = undone else {
        return rest;
    };
    match rest {
        Judgement::Illegal(other) => Judgement::Illegal(other),
        _ => Judgement::Unsettled(fault),
    }
}

#[tactic(auto, using(crate::proofs::Verdicts::judged))]
fn judge_from(
    alloc: Global,
    z: Setting,
    past: Past,
    turns: LinkedList<Turn<Entry>>,
) -> Result<Judgement, NoMemory>
    ensures { IfOk result (λ v. JudgesFrom v z (entries_of past) turns) }
{
    let mut turns = turns;
    match turns.pop_front() {
        None => Ok(Judgement::Right),
        Some(Turn { number, entries }) => {
            let judged = judge_turn(alloc, z, past, number, entries)?;
            let rest = judge_from(alloc, z, judged.past, turns)?;
            Ok(together(judged.illegal, judged.undone, rest))
        }
    }
}

/// Returns whether the history is legal and settled for the setting, and if not, the first thing that is wrong with it.
pub fn judge(
    alloc: Global,
    z: Setting,
    history: LinkedList<Turn<Entry>>,
) -> Result<Judgement, NoMemory>
    ensures { IfOk result (λ v. Judges v z history) }
{
    judge_from(alloc, z, Past::Start, history)
}
