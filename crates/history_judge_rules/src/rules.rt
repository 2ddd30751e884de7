//! What may come next, and how a turn may end.

ghost use Rattle.std.specs.Prelude.{◌==◌, ◌++◌, ◌≡◌, ◌≤◌, ◌↔◌, ◌&&◌, ◌||◌, ◌∷◌, [], IsTrue, IfOk, filter, find, not, is_some, Option, Some, None, MatchOption};
ghost use Rattle.std.specs.List.{list_any};
ghost use Rattle.std.specs.Option.{option_map};
ghost use Rattle.sp_history.specs.Lists.{head_of, same_bytes};
ghost use Rattle.sp_history.specs.Past.{pending, totals};
ghost use Rattle.sp_history.specs.Requests.{how_ended};
ghost use Rattle.sp_history.specs.Legal.{is_recv, is_recv_on, is_at, is_free, is_pending_on, has_topic, does, state_for, is_state, condemned, ctx_of, unshut, is_closing, is_unkept, sending, MayEnd, is_memory_down, is_part_of_send, goes_on, is_after_frame, is_after_any_frame, is_due_on, may_dry, MayBegin, MayReceive, was_superseded, was_over, MayGo, MayEndAs, is_uncollected, IsUp, comes_after_close};
ghost use Rattle.history_judge_past.specs.Story.{entries_of};
ghost use Rattle.history_judge_rules.specs.Faults.{Finds};

use crate::faults::Fault;
use crate::sends::{is_due_again, is_sent, unclaimed};
use history_judge_past::entries::Past;
use history_judge_past::frames::{floods, has_requests, is_sub, malformed, resends};
use history_judge_past::lists::{
    has_ctx, has_pipe, is_empty, is_of, same_bytes, without_ctx, without_pipe,
};
use history_judge_past::past::{begins, ctxs, one_more, pend, pending, uncollected, up};
use history_judge_requests::kept::{kept, stored};
use history_judge_requests::requests::{how_ended, live_on, request_of};
use sp_base::{Bytes, Ctx, NoMemory, OpName, PipeId, Role};
use sp_history::entry::{
    Cause, Completion, ContextChange, Ending, Entry, RecordedAct, RecordedMessage, Why,
};
use sp_history::parts::{Begun, How, Item, LiveRequest, OperationEnd};
use sp_history::setting::Setting;
use std::alloc::Global;
use std::collections::LinkedList;

// ---- Small words

/// Returns whether the act is a receive.
pub fn is_recv(act: &RecordedAct) -> bool
    ensures { result ≡ is_recv act.now }
{
    matches!(act, RecordedAct::Recv)
}

fn is_recv_on(c: Ctx, s: &Begun) -> bool
    ensures { result ≡ is_recv_on c s.now }
{
    is_recv(&s.act) && s.ctx.0 == c.0
}

fn any_at(slot: u32, ss: &LinkedList<Begun>) -> bool
    ensures { result ≡ list_any (is_at slot) ss.now }
{
    ss.iter().any(|s| s.op.slot == slot)
}

fn any_ended_at(slot: u32, es: &LinkedList<OperationEnd>) -> bool
    ensures { result ≡ list_any (λ e. is_at slot e.begun) es.now }
{
    es.iter().any(|e| e.begun.op.slot == slot)
}

/// Returns whether no operation of the slot is pending or uncollected.
pub fn is_free(alloc: Global, past: &Past, slot: u32) -> Result<bool, NoMemory>
    ensures { IfOk result (λ r. r ≡ is_free (entries_of past.now) slot) }
{
    let ss = pend(alloc, past)?;
    let es = uncollected(alloc, past)?;
    Ok(!any_at(slot, &ss) && !any_ended_at(slot, &es))
}

fn any_on(c: Ctx, ss: &LinkedList<Begun>) -> bool
    ensures { result ≡ list_any (λ s. s.ctx == c) ss.now }
{
    ss.iter().any(|s| s.ctx.0 == c.0)
}

/// Returns whether an operation is pending on the context.
pub fn is_pending_on(alloc: Global, past: &Past, c: Ctx) -> Result<bool, NoMemory>
    ensures { IfOk result (λ r. r ≡ is_pending_on (entries_of past.now) c) }
{
    let ss = pend(alloc, past)?;
    Ok(any_on(c, &ss))
}

/// Returns whether the topic is there.
pub fn has_topic(ts: &LinkedList<Bytes>, t: &[u8]) -> bool
    ensures { result ≡ has_topic ts.now t.now }
{
    ts.iter().any(|u| same_bytes(u.as_slice(), t))
}

fn does(role: Role, act: &RecordedAct) -> bool
    ensures { result ≡ does role act.now }
{
    match act {
        RecordedAct::Recv => role.receives(),
        RecordedAct::Send(_) => role.sends(),
    }
}

fn any_recv_on(c: Ctx, ss: &LinkedList<Begun>) -> bool
    ensures { result ≡ list_any (is_recv_on c) ss.now }
{
    ss.iter().any(|s| is_recv_on(c, s))
}

fn recv_state(alloc: Global, z: Setting, past: &Past, c: Ctx) -> Result<bool, NoMemory>
    ensures { IfOk result (λ r. r ≡ state_for z.role z (entries_of past.now) c RecordedAct.Recv) }
{
    match z.role {
        Role::Req => {
            if live_on(alloc, z, past, c)?.is_none() {
                return Ok(true);
            }
            let ss = pend(alloc, past)?;
            Ok(any_recv_on(c, &ss))
        }
        Role::Surveyor => Ok(live_on(alloc, z, past, c)?.is_none()),
        Role::Rep | Role::Respondent => {
            let ss = pend(alloc, past)?;
            Ok(any_recv_on(c, &ss))
        }
        Role::Pair0 | Role::Pair1 | Role::Pub | Role::Sub => Ok(false),
        Role::Push | Role::Pull | Role::Bus => Ok(false),
    }
}

fn send_state(
    alloc: Global,
    z: Setting,
    past: &Past,
    c: Ctx,
    m: &RecordedMessage,
) -> Result<bool, NoMemory>
    ensures { IfOk result (λ r. r ≡ state_for z.role z (entries_of past.now) c (RecordedAct.Send m.now)) }
{
    match z.role {
        Role::Rep | Role::Respondent => Ok(stored(alloc, z, past, c)?.is_none()),
        Role::Req | Role::Surveyor => Ok(false),
        Role::Pair0 | Role::Pair1 | Role::Pub | Role::Sub => Ok(false),
        Role::Push | Role::Pull | Role::Bus => Ok(false),
    }
}

/// Returns whether a begin on the context is refused for the protocol's state.
pub fn is_state(
    alloc: Global,
    z: Setting,
    past: &Past,
    c: Ctx,
    act: &RecordedAct,
) -> Result<bool, NoMemory>
    ensures { IfOk result (λ r. r ≡ is_state z (entries_of past.now) c act.now) }
{
    if z.raw {
        return Ok(false);
    }
    match act {
        RecordedAct::Recv => recv_state(alloc, z, past, c),
        RecordedAct::Send(m) => send_state(alloc, z, past, c, m),
    }
}

// ---- What an entry leaves to be done in its turn

/// The pipes with a malformed frame that have not gone down since.
pub fn condemned(alloc: Global, z: Setting, past: &Past) -> Result<LinkedList<PipeId>, NoMemory>
    ensures { IfOk result (λ r. r ≡ condemned z (entries_of past.now)) }
{
    match past {
        Past::Start => Ok(LinkedList::new(alloc)),
        Past::After(Entry::Frame(p, b), before) => {
            let mut pipes = condemned(alloc, z, before)?;
            if malformed(alloc, z, before, *p, b.as_slice())? {
                pipes.push_back(*p)?;
            }
            Ok(pipes)
        }
        Past::After(Entry::Down(p, _), before) => {
            let pipes = condemned(alloc, z, before)?;
            without_pipe(pipes, *p)
        }
        Past::After(_, before) => condemned(alloc, z, before),
    }
}

fn add_ctx(s: Option<Begun>, cs: LinkedList<Ctx>) -> Result<LinkedList<Ctx>, NoMemory>
    ensures { IfOk result (λ r. r ≡ cs ++ ctx_of s) }
{
    let mut cs = cs;
    match s {
        None => Ok(cs),
        Some(s) => {
            cs.push_back(s.ctx)?;
            Ok(cs)
        }
    }
}

fn unshut(alloc: Global, past: &Past) -> Result<LinkedList<Ctx>, NoMemory>
    ensures { IfOk result (λ r. r ≡ unshut (entries_of past.now)) }
{
    match past {
        Past::Start => Ok(LinkedList::new(alloc)),
        Past::After(Entry::End(op, Ending::Gone(Cause::Closed, _)), before) => {
            let cs = unshut(alloc, before)?;
            add_ctx(pending(alloc, before, *op)?, cs)
        }
        Past::After(Entry::Ctx(c, ContextChange::Shut), before) => {
            let cs = unshut(alloc, before)?;
            without_ctx(cs, *c)
        }
        Past::After(Entry::Close(_), _) => Ok(LinkedList::new(alloc)),
        Past::After(_, before) => unshut(alloc, before),
    }
}

fn is_closing(past: &Past) -> bool
    ensures { result ≡ is_closing (entries_of past.now) }
{
    match past {
        Past::Start => false,
        Past::After(Entry::Down(_, Why::Closed), _) => true,
        Past::After(Entry::Close(_), _) => false,
        Past::After(_, before) => is_closing(before),
    }
}

/// Returns whether an Unkept came last.
pub fn is_unkept(past: &Past) -> bool
    ensures { result ≡ is_unkept (entries_of past.now) }
{
    matches!(past, Past::After(Entry::Unkept(_), _))
}

fn is_none_sending(ss: LinkedList<Begun>) -> bool
    ensures { IsTrue result ↔ (sending ss ≡ []) }
{
    let mut ss = ss;
    match ss.pop_front() {
        None => true,
        Some(s) => is_recv(&s.act) && is_none_sending(ss),
    }
}

/// What a turn that ends here leaves undone.
pub fn may_end(alloc: Global, z: Setting, past: &Past) -> Result<Option<Fault>, NoMemory>
    ensures { IfOk result (λ f. Finds f (MayEnd z (entries_of past.now))) }
{
    if !condemned(alloc, z, past)?.is_empty() {
        return Ok(Some(Fault::MalformedStaysUp));
    }
    if unclaimed(alloc, z, past)? {
        return Ok(Some(Fault::OutUnclaimed));
    }
    if is_unkept(past) {
        return Ok(Some(Fault::UnkeptStaysUp));
    }
    if !unshut(alloc, past)?.is_empty() {
        return Ok(Some(Fault::NotShut));
    }
    if is_closing(past) {
        return Ok(Some(Fault::NotClosed));
    }
    if floods(z.role) && !is_none_sending(pend(alloc, past)?) {
        return Ok(Some(Fault::FloodPending));
    }
    Ok(None)
}

// ---- What may come next

fn is_memory_down(p: PipeId, e: &Entry) -> bool
    ensures { result ≡ is_memory_down p e.now }
{
    match e {
        Entry::Down(q, Why::NoMemory) => p.0 == q.0,
        _ => false,
    }
}

fn is_part_of_send(z: Setting, e: &Entry) -> bool
    ensures { result ≡ is_part_of_send z e.now }
{
    match e {
        Entry::Out(_, _) | Entry::Full(_) | Entry::Down(_, _) => floods(z.role),
        Entry::End(_, Ending::Won(Completion::Sent)) => true,
        _ => false,
    }
}

/// Returns whether the entry may follow: the pipe of an Unkept goes down at once, and an Out is followed by the rest of
/// its send.
pub fn goes_on(alloc: Global, z: Setting, past: &Past, e: &Entry) -> Result<bool, NoMemory>
    ensures { IfOk result (λ r. r ≡ goes_on z (entries_of past.now) e.now) }
{
    match past {
        Past::After(Entry::Unkept(p), _) => Ok(is_memory_down(*p, e)),
        _ => {
            if unclaimed(alloc, z, past)? {
                Ok(is_part_of_send(z, e))
            } else {
                Ok(true)
            }
        }
    }
}

/// Returns whether a frame of the pipe came last, and is not malformed.
pub fn is_after_frame(alloc: Global, z: Setting, past: &Past, p: PipeId) -> Result<bool, NoMemory>
    ensures { IfOk result (λ r. r ≡ is_after_frame z (entries_of past.now) p) }
{
    match past {
        Past::After(Entry::Frame(q, b), before) => {
            if q.0 != p.0 {
                return Ok(false);
            }
            Ok(!malformed(alloc, z, before, *q, b.as_slice())?)
        }
        _ => Ok(false),
    }
}

fn is_after_any_frame(past: &Past) -> bool
    ensures { result ≡ is_after_any_frame (entries_of past.now) }
{
    matches!(past, Past::After(Entry::Frame(_, _), _))
}

fn is_due_on(
    alloc: Global,
    z: Setting,
    past: &Past,
    r: Option<LiveRequest>,
) -> Result<bool, NoMemory>
    ensures { IfOk result (λ b. b ≡ is_due_on z (entries_of past.now) r) }
{
    match r {
        None => Ok(false),
        Some(r) => is_due_again(alloc, z, past, &r),
    }
}

/// Returns whether there may be no memory for a copy for the context.
pub fn may_dry(alloc: Global, z: Setting, past: &Past, c: Ctx) -> Result<bool, NoMemory>
    ensures { IfOk result (λ b. b ≡ may_dry z (entries_of past.now) c) }
{
    let open = ctxs(alloc, past)?;
    if !has_ctx(&open, c) {
        return Ok(false);
    }
    if is_sub(z.role) && is_after_any_frame(past) {
        return Ok(true);
    }
    if !resends(z) {
        return Ok(false);
    }
    let r = live_on(alloc, z, past, c)?;
    is_due_on(alloc, z, past, r)
}

/// The fault of this begin in a turn of caller k, if there is one.
pub fn may_begin(
    alloc: Global,
    z: Setting,
    k: u32,
    past: &Past,
    op: OpName,
    caller: u32,
    c: Ctx,
    act: &RecordedAct,
) -> Result<Option<Fault>, NoMemory>
    ensures { IfOk result (λ f. Finds f (MayBegin z k (entries_of past.now) op caller c act.now)) }
{
    if caller != k {
        return Ok(Some(Fault::OtherCaller));
    }
    if op.slot >= z.slots {
        return Ok(Some(Fault::NoSuchSlot));
    }
    if !is_free(alloc, past, op.slot)? {
        return Ok(Some(Fault::SlotTaken));
    }
    if op.generation != one_more(begins(past, op.slot)?)? {
        return Ok(Some(Fault::WrongGeneration));
    }
    if op.generation > 0xff_ffff_ffff {
        return Ok(Some(Fault::WornSlot));
    }
    if !does(z.role, act) {
        return Ok(Some(Fault::RoleCannot));
    }
    let open = ctxs(alloc, past)?;
    if !has_ctx(&open, c) {
        return Ok(Some(Fault::NoSuchContext));
    }
    if is_state(alloc, z, past, c, act)? {
        return Ok(Some(Fault::WrongState));
    }
    Ok(None)
}

fn first_recv_on(c: Ctx, ss: LinkedList<Begun>) -> Option<OpName>
    ensures { result ≡ option_map (λ first. first.op) (find (is_recv_on c) ss) }
{
    let mut ss = ss;
    match ss.pop_front() {
        None => None,
        Some(s) => {
            if is_recv_on(c, &s) {
                Some(s.op)
            } else {
                first_recv_on(c, ss)
            }
        }
    }
}

fn oldest(items: LinkedList<Item>) -> Option<RecordedMessage>
    ensures { result ≡ option_map (λ i. i.message) (head_of items) }
{
    let mut items = items;
    match items.pop_front() {
        None => None,
        Some(i) => Some(i.message),
    }
}

fn are_equal(a: &[u8], b: &[u8]) -> bool
    ensures { IsTrue result ↔ (a.now ≡ b.now) }
{
    a == b
}

fn is_message(found: Option<RecordedMessage>, m: &RecordedMessage) -> bool
    ensures { IsTrue result ↔ (found ≡ Some m.now) }
{
    match found {
        None => false,
        Some(a) => are_equal(a.header.as_slice(), m.header.as_slice())
            && are_equal(a.body.as_slice(), m.body.as_slice()),
    }
}

fn is_op(found: Option<OpName>, op: OpName) -> bool
    ensures { IsTrue result ↔ (found ≡ Some op) }
{
    match found {
        None => false,
        Some(a) => a == op,
    }
}

fn may_receive(
    alloc: Global,
    z: Setting,
    past: &Past,
    s: &Begun,
    m: &RecordedMessage,
) -> Result<Option<Fault>, NoMemory>
    ensures { IfOk result (λ f. Finds f (MayReceive z (entries_of past.now) s.now m.now)) }
{
    if !is_recv(&s.act) {
        return Ok(Some(Fault::NotReceive));
    }
    if !is_op(first_recv_on(s.ctx, pend(alloc, past)?), s.op) {
        return Ok(Some(Fault::NotFirst));
    }
    if !is_message(oldest(kept(alloc, z, past, s.ctx)?), m) {
        return Ok(Some(Fault::NotOldest));
    }
    if has_requests(z) && request_of(alloc, z, past, s)?.is_none() {
        return Ok(Some(Fault::RequestOver));
    }
    Ok(None)
}

fn was_superseded(how: Option<How>) -> bool
    ensures { result ≡ was_superseded how }
{
    matches!(how, Some(How::Replaced | How::GivenUp))
}

fn was_over(how: Option<How>) -> bool
    ensures { result ≡ was_over how }
{
    matches!(how, Some(How::Over))
}

fn by_caller(z: Setting, by: u32) -> Option<Fault>
    ensures { Finds result ((1 ≤ by) × (by ≤ z.callers)) }
{
    if 1 <= by && by <= z.callers {
        None
    } else {
        Some(Fault::WrongSeat)
    }
}

fn by_socket(by: u32) -> Option<Fault>
    ensures { Finds result (by ≡ 0) }
{
    if by == 0 {
        None
    } else {
        Some(Fault::WrongSeat)
    }
}

fn go_superseded(
    alloc: Global,
    z: Setting,
    past: &Past,
    s: &Begun,
    by: u32,
) -> Result<Option<Fault>, NoMemory>
    ensures { IfOk result (λ f. Finds f ((by ≡ 0) × IsTrue (was_superseded (how_ended z (entries_of past.now) s.now.op)))) }
{
    if by != 0 {
        return Ok(Some(Fault::WrongSeat));
    }
    if !was_superseded(how_ended(alloc, z, past, s.op)?) {
        return Ok(Some(Fault::NotSuperseded));
    }
    Ok(None)
}

fn go_over(
    alloc: Global,
    z: Setting,
    past: &Past,
    s: &Begun,
    by: u32,
) -> Result<Option<Fault>, NoMemory>
    ensures { IfOk result (λ f. Finds f ((by ≡ 0) × IsTrue (is_recv s.now.act) × IsTrue (was_over (how_ended z (entries_of past.now) s.now.op)))) }
{
    if by != 0 {
        return Ok(Some(Fault::WrongSeat));
    }
    if !is_recv(&s.act) {
        return Ok(Some(Fault::NotReceive));
    }
    if !was_over(how_ended(alloc, z, past, s.op)?) {
        return Ok(Some(Fault::SurveyNotOver));
    }
    Ok(None)
}

fn may_go(
    alloc: Global,
    z: Setting,
    past: &Past,
    s: &Begun,
    cause: Cause,
    by: u32,
) -> Result<Option<Fault>, NoMemory>
    ensures { IfOk result (λ f. Finds f (MayGo z (entries_of past.now) s.now cause by)) }
{
    match cause {
        Cause::Cancelled | Cause::TimedOut => Ok(by_caller(z, by)),
        Cause::Closed => Ok(by_socket(by)),
        Cause::Superseded => go_superseded(alloc, z, past, s, by),
        Cause::SurveyOver => go_over(alloc, z, past, s, by),
    }
}

fn may_end_as(
    alloc: Global,
    z: Setting,
    past: &Past,
    ending: &Ending,
    s: &Begun,
) -> Result<Option<Fault>, NoMemory>
    ensures { IfOk result (λ f. Finds f (MayEndAs z (entries_of past.now) ending.now s.now)) }
{
    match ending {
        Ending::Won(Completion::Received(m)) => may_receive(alloc, z, past, s, m),
        Ending::Won(Completion::Sent) => {
            if is_recv(&s.act) {
                return Ok(Some(Fault::NotSend));
            }
            if is_sent(alloc, z, past, s)? {
                Ok(None)
            } else {
                Ok(Some(Fault::NotSent))
            }
        }
        Ending::Gone(cause, by) => may_go(alloc, z, past, s, *cause, *by),
    }
}

/// The fault of this end, if there is one.
pub fn may_finish(
    alloc: Global,
    z: Setting,
    past: &Past,
    op: OpName,
    ending: &Ending,
) -> Result<Option<Fault>, NoMemory>
    ensures { IfOk result (λ f. Finds f (MatchOption (pending (entries_of past.now) op) ⊥ (MayEndAs z (entries_of past.now) ending.now))) }
{
    match pending(alloc, past, op)? {
        None => Ok(Some(Fault::NotPending)),
        Some(s) => may_end_as(alloc, z, past, ending, &s),
    }
}

/// Returns whether the operation ended and was not collected.
pub fn is_uncollected(alloc: Global, past: &Past, op: OpName) -> Result<bool, NoMemory>
    ensures { IfOk result (λ r. r ≡ is_uncollected (entries_of past.now) op) }
{
    let es = uncollected(alloc, past)?;
    Ok(es.iter().any(|e| is_of(op, &e.begun)))
}

/// Returns whether the pipe is up.
pub fn is_up(alloc: Global, past: &Past, p: PipeId) -> Result<bool, NoMemory>
    ensures { IfOk result (λ r. IsTrue r ↔ IsUp (entries_of past.now) p) }
{
    let pipes = up(alloc, past)?;
    Ok(has_pipe(&pipes, p))
}

/// Returns whether the entry may still come when the socket is closed.
pub fn comes_after_close(e: &Entry) -> bool
    ensures { result ≡ comes_after_close e.now }
{
    matches!(
        e,
        Entry::Took(_, _) | Entry::Taken(_) | Entry::Met(_) | Entry::NoUp(_, _)
    )
}
