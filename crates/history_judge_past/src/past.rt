//! What a past contains.

ghost use Rattle.std.specs.Prelude.{◌≡◌, IfOk, filter, map, not, ◌+◌, ◌++◌, [], ◌∷◌};
ghost use Rattle.sp_history.specs.Lists.{same_op, same_bytes};
ghost use Rattle.sp_history.specs.Past.{up, ups, untaken, limit_of, pend, pending, ended_as, uncollected, caller_of, begins, now, timer_of, is_due, timers, is_earlier, put_in_order, by_deadline, due_at, opened, ctxs, topics, is_closed, counts, counted, without_begun, is_of};
ghost use Rattle.history_judge_past.specs.Story.{entries_of};

use crate::entries::{Past, copy_act, copy_bytes, copy_ending};
use crate::lists::{find_begun, same_bytes, same_op, without_begun, without_ctx, without_pipe};
use sp_base::{Bytes, Ctx, NoMemory, OpName, PipeId, Tick};
use sp_history::entry::{ContextChange, Ending, Entry, RecordedAct, Switch, Totals};
use sp_history::parts::{Begun, OperationEnd, Timer};
use std::alloc::Global;
use std::collections::LinkedList;

/// The number plus one. A count beyond its type belongs to a history that doesn't fit into memory.
pub fn one_more(n: u64) -> Result<u64, NoMemory>
    ensures { IfOk result (λ m. m ≡ n + 1) }
{
    if n == u64::MAX {
        return Err(NoMemory);
    }
    Ok(n + 1)
}

/// The pipes that are up.
pub fn up(alloc: Global, past: &Past) -> Result<LinkedList<PipeId>, NoMemory>
    ensures { IfOk result (λ found. found ≡ up (entries_of past.now)) }
{
    match past {
        Past::Start => Ok(LinkedList::new(alloc)),
        Past::After(Entry::Up(p, _, _, _), before) => {
            let mut pipes = up(alloc, before)?;
            pipes.push_back(*p)?;
            Ok(pipes)
        }
        Past::After(Entry::Down(p, _), before) => {
            let pipes = up(alloc, before)?;
            without_pipe(pipes, *p)
        }
        Past::After(_, before) => up(alloc, before),
    }
}

/// The number of pipes that came up. A count above 2^64 - 1 returns `NoMemory`.
pub fn ups(past: &Past) -> Result<u64, NoMemory>
    ensures { IfOk result (λ found. found ≡ ups (entries_of past.now)) }
{
    match past {
        Past::Start => Ok(0),
        Past::After(Entry::Up(_, _, _, _), before) => one_more(ups(before)?),
        Past::After(_, before) => ups(before),
    }
}

/// The pipes that are down and whose wire wasn't taken, in the order in which they went down.
pub fn untaken(alloc: Global, past: &Past) -> Result<LinkedList<PipeId>, NoMemory>
    ensures { IfOk result (λ found. found ≡ untaken (entries_of past.now)) }
{
    match past {
        Past::Start => Ok(LinkedList::new(alloc)),
        Past::After(Entry::Down(p, _), before) => {
            let mut pipes = untaken(alloc, before)?;
            pipes.push_back(*p)?;
            Ok(pipes)
        }
        Past::After(Entry::Taken(p), before) => {
            let pipes = untaken(alloc, before)?;
            without_pipe(pipes, *p)
        }
        Past::After(_, before) => untaken(alloc, before),
    }
}

/// The receive limit with which the pipe came up.
pub fn limit_of(past: &Past, p: PipeId) -> Option<u32>
    ensures { result ≡ limit_of (entries_of past.now) p }
{
    match past {
        Past::Start => None,
        Past::After(Entry::Up(q, _, limit, _), before) => {
            if q.0 == p.0 {
                Some(*limit)
            } else {
                limit_of(before, p)
            }
        }
        Past::After(_, before) => limit_of(before, p),
    }
}

fn begun(alloc: Global, op: OpName, c: Ctx, act: &RecordedAct) -> Result<Begun, NoMemory>
    ensures { IfOk result (λ s. s ≡ record { op = op; ctx = c; act = act.now }) }
{
    let act = copy_act(alloc, act)?;
    Ok(Begun { op, ctx: c, act })
}

/// The operations that have a begin and no end, in the order of their begins.
pub fn pend(alloc: Global, past: &Past) -> Result<LinkedList<Begun>, NoMemory>
    ensures { IfOk result (λ found. found ≡ pend (entries_of past.now)) }
{
    match past {
        Past::Start => Ok(LinkedList::new(alloc)),
        Past::After(Entry::Begin(op, _, c, act, _), before) => {
            let mut ss = pend(alloc, before)?;
            ss.push_back(begun(alloc, *op, *c, act)?)?;
            Ok(ss)
        }
        Past::After(Entry::End(op, _), before) => {
            let ss = pend(alloc, before)?;
            without_begun(ss, *op)
        }
        Past::After(_, before) => pend(alloc, before),
    }
}

/// The operation, while it is pending.
pub fn pending(alloc: Global, past: &Past, op: OpName) -> Result<Option<Begun>, NoMemory>
    ensures { IfOk result (λ found. found ≡ pending (entries_of past.now) op) }
{
    Ok(find_begun(pend(alloc, past)?, op))
}

/// All ended operations except this one.
pub fn without_ended(
    es: LinkedList<OperationEnd>,
    op: OpName,
) -> Result<LinkedList<OperationEnd>, NoMemory>
    ensures { IfOk result (λ kept. kept ≡ filter (λ e. not (same_op e.begun.op op)) es) }
{
    let mut es = es;
    match es.pop_front() {
        None => Ok(es),
        Some(x) => {
            let mut rest = without_ended(es, op)?;
            if !same_op(x.begun.op, op) {
                rest.push_front(x)?;
            }
            Ok(rest)
        }
    }
}

fn add_ended(
    alloc: Global,
    es: LinkedList<OperationEnd>,
    ending: &Ending,
    s: Option<Begun>,
) -> Result<LinkedList<OperationEnd>, NoMemory>
    ensures { IfOk result (λ found. found ≡ es ++ ended_as ending.now s) }
{
    let mut es = es;
    match s {
        None => Ok(es),
        Some(s) => {
            let ending = copy_ending(alloc, ending)?;
            es.push_back(OperationEnd { begun: s, ending })?;
            Ok(es)
        }
    }
}

/// The operations that ended and were not collected, in the order of their ends.
pub fn uncollected(alloc: Global, past: &Past) -> Result<LinkedList<OperationEnd>, NoMemory>
    ensures { IfOk result (λ found. found ≡ uncollected (entries_of past.now)) }
{
    match past {
        Past::Start => Ok(LinkedList::new(alloc)),
        Past::After(Entry::End(op, ending), before) => {
            let es = uncollected(alloc, before)?;
            let s = pending(alloc, before, *op)?;
            add_ended(alloc, es, ending, s)
        }
        Past::After(Entry::Took(op, _), before) => {
            let es = uncollected(alloc, before)?;
            without_ended(es, *op)
        }
        Past::After(_, before) => uncollected(alloc, before),
    }
}

/// Who began the operation.
pub fn caller_of(past: &Past, op: OpName) -> Option<u32>
    ensures { result ≡ caller_of (entries_of past.now) op }
{
    match past {
        Past::Start => None,
        Past::After(Entry::Begin(other, k, _, _, _), before) => {
            if same_op(*other, op) {
                Some(*k)
            } else {
                caller_of(before, op)
            }
        }
        Past::After(_, before) => caller_of(before, op),
    }
}

/// How often an operation was begun at the slot.
pub fn begins(past: &Past, slot: u32) -> Result<u64, NoMemory>
    ensures { IfOk result (λ found. found ≡ begins (entries_of past.now) slot) }
{
    match past {
        Past::Start => Ok(0),
        Past::After(Entry::Begin(op, _, _, _, _), before) => {
            let found = begins(before, slot)?;
            if op.slot == slot {
                one_more(found)
            } else {
                Ok(found)
            }
        }
        Past::After(_, before) => begins(before, slot),
    }
}

/// The largest tick so far.
pub fn now(past: &Past) -> Tick
    ensures { result ≡ now (entries_of past.now) }
{
    match past {
        Past::Start => Tick(0),
        Past::After(Entry::Tick(t, _), before) => Tick(now(before).0.max(t.0)),
        Past::After(_, before) => now(before),
    }
}

fn is_due(t: Tick, d: &Timer) -> bool
    ensures { result ≡ is_due t d.now }
{
    d.due.0 <= t.0
}

/// All deadlines except that of this operation.
pub fn without_timer(ds: LinkedList<Timer>, op: OpName) -> Result<LinkedList<Timer>, NoMemory>
    ensures { IfOk result (λ kept. kept ≡ filter (λ d. not (same_op d.op op)) ds) }
{
    let mut ds = ds;
    match ds.pop_front() {
        None => Ok(ds),
        Some(x) => {
            let mut rest = without_timer(ds, op)?;
            if !same_op(x.op, op) {
                rest.push_front(x)?;
            }
            Ok(rest)
        }
    }
}

/// The deadlines that are still to come at the moment.
pub fn not_due(ds: LinkedList<Timer>, t: Tick) -> Result<LinkedList<Timer>, NoMemory>
    ensures { IfOk result (λ kept. kept ≡ filter (λ d. not (is_due t d)) ds) }
{
    let mut ds = ds;
    match ds.pop_front() {
        None => Ok(ds),
        Some(x) => {
            let mut rest = not_due(ds, t)?;
            if !is_due(t, &x) {
                rest.push_front(x)?;
            }
            Ok(rest)
        }
    }
}

/// The deadlines that are reached at the moment.
pub fn due(ds: LinkedList<Timer>, t: Tick) -> Result<LinkedList<Timer>, NoMemory>
    ensures { IfOk result (λ kept. kept ≡ filter (is_due t) ds) }
{
    let mut ds = ds;
    match ds.pop_front() {
        None => Ok(ds),
        Some(x) => {
            let mut rest = due(ds, t)?;
            if is_due(t, &x) {
                rest.push_front(x)?;
            }
            Ok(rest)
        }
    }
}

fn add_timer(
    ds: LinkedList<Timer>,
    op: OpName,
    deadline: Option<Tick>,
) -> Result<LinkedList<Timer>, NoMemory>
    ensures { IfOk result (λ found. found ≡ ds ++ timer_of op deadline) }
{
    let mut ds = ds;
    match deadline {
        None => Ok(ds),
        Some(due) => {
            ds.push_back(Timer { due, op })?;
            Ok(ds)
        }
    }
}

/// The deadlines of the pending operations that were in no due list, in the order of their begins.
pub fn timers(alloc: Global, past: &Past) -> Result<LinkedList<Timer>, NoMemory>
    ensures { IfOk result (λ found. found ≡ timers (entries_of past.now)) }
{
    match past {
        Past::Start => Ok(LinkedList::new(alloc)),
        Past::After(Entry::Begin(op, _, _, _, deadline), before) => {
            let ds = timers(alloc, before)?;
            add_timer(ds, *op, *deadline)
        }
        Past::After(Entry::End(op, _), before) => {
            let ds = timers(alloc, before)?;
            without_timer(ds, *op)
        }
        Past::After(Entry::Tick(t, _), before) => {
            let ds = timers(alloc, before)?;
            not_due(ds, *t)
        }
        Past::After(_, before) => timers(alloc, before),
    }
}

fn is_earlier(a: &Timer, b: &Timer) -> bool
    ensures { result ≡ is_earlier a.now b.now }
{
    a.due.0 < b.due.0 || a.due.0 == b.due.0 && a.op.slot < b.op.slot
}

fn put_in_order(d: Timer, ds: LinkedList<Timer>) -> Result<LinkedList<Timer>, NoMemory>
    ensures { IfOk result (λ found. found ≡ put_in_order d ds) }
{
    let mut ds = ds;
    match ds.pop_front() {
        None => {
            ds.push_front(d)?;
            Ok(ds)
        }
        Some(e) => {
            if is_earlier(&d, &e) {
                ds.push_front(e)?;
                ds.push_front(d)?;
                Ok(ds)
            } else {
                let mut rest = put_in_order(d, ds)?;
                rest.push_front(e)?;
                Ok(rest)
            }
        }
    }
}

fn by_deadline(ds: LinkedList<Timer>) -> Result<LinkedList<Timer>, NoMemory>
    ensures { IfOk result (λ found. found ≡ by_deadline ds) }
{
    let mut ds = ds;
    match ds.pop_front() {
        None => Ok(ds),
        Some(d) => {
            let rest = by_deadline(ds)?;
            put_in_order(d, rest)
        }
    }
}

fn ops_of(alloc: Global, ds: LinkedList<Timer>) -> Result<LinkedList<OpName>, NoMemory>
    ensures { IfOk result (λ found. found ≡ map (λ d. d.op) ds) }
{
    let mut ds = ds;
    match ds.pop_front() {
        None => Ok(LinkedList::new(alloc)),
        Some(d) => {
            let mut rest = ops_of(alloc, ds)?;
            rest.push_front(d.op)?;
            Ok(rest)
        }
    }
}

/// The operations that are due at the moment, by deadline and then by slot.
pub fn due_at(alloc: Global, past: &Past, t: Tick) -> Result<LinkedList<OpName>, NoMemory>
    ensures { IfOk result (λ found. found ≡ due_at (entries_of past.now) t) }
{
    let ds = due(timers(alloc, past)?, t)?;
    ops_of(alloc, by_deadline(ds)?)
}

/// The number of contexts that were opened.
pub fn opened(past: &Past) -> Result<u64, NoMemory>
    ensures { IfOk result (λ found. found ≡ opened (entries_of past.now)) }
{
    match past {
        Past::Start => Ok(0),
        Past::After(Entry::Ctx(_, ContextChange::Open), before) => one_more(opened(before)?),
        Past::After(_, before) => opened(before),
    }
}

/// The contexts that are open, 0 always.
pub fn ctxs(alloc: Global, past: &Past) -> Result<LinkedList<Ctx>, NoMemory>
    ensures { IfOk result (λ found. found ≡ ctxs (entries_of past.now)) }
{
    match past {
        Past::Start => {
            let mut contexts = LinkedList::new(alloc);
            contexts.push_back(Ctx(0))?;
            Ok(contexts)
        }
        Past::After(Entry::Ctx(c, ContextChange::Open), before) => {
            let mut contexts = ctxs(alloc, before)?;
            contexts.push_back(*c)?;
            Ok(contexts)
        }
        Past::After(Entry::Ctx(c, ContextChange::Shut), before) => {
            let contexts = ctxs(alloc, before)?;
            without_ctx(contexts, *c)
        }
        Past::After(_, before) => ctxs(alloc, before),
    }
}

/// All topics except this one.
pub fn without_topic(ts: LinkedList<Bytes>, t: &Bytes) -> Result<LinkedList<Bytes>, NoMemory>
    ensures { IfOk result (λ kept. kept ≡ filter (λ u. not (same_bytes u t.now)) ts) }
{
    let mut ts = ts;
    match ts.pop_front() {
        None => Ok(ts),
        Some(x) => {
            let mut rest = without_topic(ts, t)?;
            if !same_bytes(x.as_slice(), t.as_slice()) {
                rest.push_front(x)?;
            }
            Ok(rest)
        }
    }
}

/// The topics of the context, in the order in which they were added.
pub fn topics(alloc: Global, past: &Past, c: Ctx) -> Result<LinkedList<Bytes>, NoMemory>
    ensures { IfOk result (λ found. found ≡ topics (entries_of past.now) c) }
{
    match past {
        Past::Start => Ok(LinkedList::new(alloc)),
        Past::After(Entry::Topic(d, t, Switch::On), before) => {
            let mut ts = topics(alloc, before, c)?;
            if d.0 == c.0 {
                ts.push_back(copy_bytes(alloc, t)?)?;
            }
            Ok(ts)
        }
        Past::After(Entry::Topic(d, t, Switch::Off), before) => {
            let ts = topics(alloc, before, c)?;
            if d.0 == c.0 {
                without_topic(ts, t)
            } else {
                Ok(ts)
            }
        }
        Past::After(Entry::Ctx(d, ContextChange::Shut), before) => {
            if d.0 == c.0 {
                Ok(LinkedList::new(alloc))
            } else {
                topics(alloc, before, c)
            }
        }
        Past::After(_, before) => topics(alloc, before, c),
    }
}

/// Returns whether the socket is closed.
pub fn is_closed(past: &Past) -> bool
    ensures { result ≡ is_closed (entries_of past.now) }
{
    match past {
        Past::Start => false,
        Past::After(Entry::Close(_), _) => true,
        Past::After(_, before) => is_closed(before),
    }
}

/// How often things happened.
pub fn counts(past: &Past) -> Result<Totals, NoMemory>
    ensures { IfOk result (λ found. found ≡ counts (entries_of past.now)) }
{
    match past {
        Past::Start => Ok(Totals {
            begun: 0,
            won: 0,
            gone: 0,
            frames: 0,
            outs: 0,
            fulls: 0,
        }),
        Past::After(e, before) => count(e, counts(before)?),
    }
}

fn count(e: &Entry, so_far: Totals) -> Result<Totals, NoMemory>
    ensures { IfOk result (λ found. found ≡ counted e.now so_far) }
{
    match e {
        Entry::Begin(_, _, _, _, _) => Ok(Totals {
            begun: one_more(so_far.begun)?,
            ..so_far
        }),
        Entry::End(_, Ending::Won(_)) => Ok(Totals {
            won: one_more(so_far.won)?,
            ..so_far
        }),
        Entry::End(_, Ending::Gone(_, _)) => Ok(Totals {
            gone: one_more(so_far.gone)?,
            ..so_far
        }),
        Entry::Frame(_, _) => Ok(Totals {
            frames: one_more(so_far.frames)?,
            ..so_far
        }),
        Entry::Out(_, _) => Ok(Totals {
            outs: one_more(so_far.outs)?,
            ..so_far
        }),
        Entry::Full(_) => Ok(Totals {
            fulls: one_more(so_far.fulls)?,
            ..so_far
        }),
        _ => Ok(so_far),
    }
}
