//! The operations of a surveyor that wait.
ghost use Rattle.std.specs.Prelude.{◌≡◌, ◌<◌, ◌+◌, ◌++◌, ◌==◌, ◌∷◌, [], None, Some, map, find, length, option_to_list, is_some};
ghost use Rattle.std.specs.List.{position, list_any};
ghost use Rattle.std.specs.Vec.{vec_len, vec_capacity};
ghost use Rattle.proto_survey.specs.declared.waiting.SurveyOperation.{SurveyOperation as SurveyOperationType};
ghost use Rattle.proto_survey.specs.declared.waiting.SurveyEnd.TheVariants as ends;
ghost use Rattle.proto_survey.specs.Lives.{over_on};
ghost use Rattle.proto_survey.specs.Askings.{is_asked, is_sending, receives_on, without_first, left_by, ended_by, cause_is};

use crate::live::LiveSurvey;
use sp_base::{Ctx, OpName, Tick};
use sp_history::entry::Cause;
use sp_msg::Message;

/// How a survey ended before its receives did (nng_surveyor(7)).
#[derive(Clone, Copy, PartialEq, Eq, Debug)]
pub enum SurveyEnd {
    /// A newer one began on its context.
    Replaced,
    /// Its time had passed.
    Over,
}

/// An operation that waits: a send has its message, as it was begun (nng_surveyor(7)).
#[derive(Drop)]
pub struct SurveyOperation {
    /// Its name.
    pub op: OpName,
    /// The context that it was begun on.
    pub ctx: Ctx,
    /// The message of a send.
    pub message: Option<Message>,
    /// How the survey of a receive has ended, if it has.
    pub ended: Option<SurveyEnd>,
}

// The place of the operation.
fn place_of(waiting: &[SurveyOperation], op: OpName) -> Option<usize>
    ensures { result ≡ position (is_asked op) waiting.now }
{
    waiting.iter().position(|w| w.op.slot == op.slot && w.op.generation == op.generation)
}

/// Takes the operation out.
pub fn take(waiting: &mut Vec<SurveyOperation>, op: OpName) -> Option<SurveyOperation>
    ensures found { result ≡ find (is_asked op) waiting.old.items }
    ensures rest { waiting.new.items ≡ without_first op waiting.old.items }
    ensures len { vec_len waiting.new + length (option_to_list result) ≡ vec_len waiting.old }
    ensures capacity { vec_capacity waiting.new ≡ vec_capacity waiting.old }
{
    match place_of(waiting, op) {
        None => None,
        Some(i) => Some(waiting.remove(i)),
    }
}

/// Adds an operation, as the last one.
pub fn wait(waiting: &mut Vec<SurveyOperation>, op: OpName, c: Ctx, message: Option<Message>)
    requires { vec_len waiting.old < vec_capacity waiting.old }
    ensures items { waiting.new.items ≡ waiting.old.items ++ record { op = op; ctx = c; message = message; ended = None } ∷ [] }
    ensures len { vec_len waiting.new ≡ vec_len waiting.old + 1 }
    ensures capacity { vec_capacity waiting.new ≡ vec_capacity waiting.old }
{
    waiting.push_reserved(SurveyOperation {
        op,
        ctx: c,
        message,
        ended: None,
    });
}

/// The place of the first send.
pub fn send_place(waiting: &[SurveyOperation]) -> Option<usize>
    ensures { result ≡ position is_sending waiting.now }
{
    waiting.iter().position(|w| w.message.is_some())
}

/// The place of the first operation whose survey has ended.
pub fn ended_place(waiting: &[SurveyOperation]) -> Option<usize>
    ensures { result ≡ position (λ (w : SurveyOperationType). is_some w.ended) waiting.now }
{
    waiting.iter().position(|w| w.ended.is_some())
}

// How its survey ended, where `on` says that it may end now.
fn ended_by(on: bool, end: SurveyEnd, was: Option<SurveyEnd>) -> Option<SurveyEnd>
    ensures { result ≡ ended_by on end was }
{
    match was {
        Some(first) => Some(first),
        None => { if on { Some(end) } else { None } }
    }
}

// Returns whether the contexts are the same.
fn is_same(a: Ctx, b: Ctx) -> bool
    ensures { result ≡ (a == b) }
{
    a.0 == b.0
}

/// Returns whether a receive of the context waits.
pub fn waits_on(waiting: &[SurveyOperation], c: Ctx) -> bool
    ensures { result ≡ list_any (receives_on c) waiting.now }
{
    waiting
        .iter()
        .any(|w| w.message.is_none() && is_same(w.ctx, c))
}

/// The place of the first receive of the context.
pub fn receive_place(waiting: &[SurveyOperation], c: Ctx) -> Option<usize>
    ensures { result ≡ position (receives_on c) waiting.now }
{
    waiting
        .iter()
        .position(|w| w.message.is_none() && is_same(w.ctx, c))
}

/// Marks the receives of the context, whose survey is replaced.
pub fn leave_on(waiting: &mut [SurveyOperation], c: Ctx)
    ensures { waiting.new ≡ map (left_by (λ d. d == c) ends.Replaced) waiting.old }
{
    for w in waiting.iter_mut() {
        w.ended = ended_by(is_same(w.ctx, c), SurveyEnd::Replaced, w.ended);
    }
}

// Returns whether the survey of the context is over.
fn is_over_on(live: &[LiveSurvey], time: u64, now: Tick, c: Ctx) -> bool
    ensures { result ≡ over_on time now live.now c }
{
    live.iter().any(|x| x.is_on(c) && x.is_over(time, now))
}

/// Marks the receives whose surveys are over.
pub fn leave_over(waiting: &mut [SurveyOperation], live: &[LiveSurvey], time: u64, now: Tick)
    ensures { waiting.new ≡ map (left_by (over_on time now live.now) ends.Over) waiting.old }
{
    for w in waiting.iter_mut() {
        w.ended = ended_by(is_over_on(live, time, now, w.ctx), SurveyEnd::Over, w.ended);
    }
}

/// The cause for which a receive is finished whose survey ended in this way.
pub fn cause_of(end: SurveyEnd) -> Cause
    ensures { result ≡ cause_is end }
{
    match end {
        SurveyEnd::Replaced => Cause::Superseded,
        SurveyEnd::Over => Cause::SurveyOver,
    }
}
