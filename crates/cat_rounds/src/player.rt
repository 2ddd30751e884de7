//! The play of one socket: one operation after another.
ghost use Rattle.std.specs.Prelude.{◌≡◌, ◌↔◌, ◌<◌, ◌+◌, Option, None, Some, [], IsTrue, IfOk, IfSome, is_some, true, false, is_none, not, ◌&&◌, Bool};
ghost use Rattle.std.specs.Option.{option_map};
ghost use Rattle.sp_history.specs.Past.{past_of, is_closed};
ghost use Rattle.sp_socket.specs.Turns.{AllEnded};
ghost use Rattle.cat_play.specs.Scripts.{texts, under_way, is_receive_next};
ghost use Rattle.cat_play.specs.Playing.{after_seconds, is_within, is_left, waits_for_interval, waits_for_pipe};
ghost use Rattle.sp_socket.specs.Singles.{IsSound};
ghost use Rattle.cat_rounds.specs.Lasting.{play_of, is_survey_over, IsUnderWay, IsNewPlayer};
ghost use Rattle.sp_history.specs.Setting.{floods};
ghost use Rattle.cat_rounds.specs.PlayerSteps.{PrintsOn, AddsNoText, IsKept, KnowsPipes, Stands, GoesOnBy, SameScript, PrintedAfter, PrintedThen, Sinks, is_failed_step, is_failed_collect, Puts, PutsPiece, PutsFor, NotedAs, Rested, counts_one, counts_for_last, over_for, step_for, gone_for, CollectsLast};

use crate::next::{LastCollected, counts, floods, receives_next};
use cat_text::{Format, TopicList, push_text};
use sp_base::{Bytes, Ctx, NoMemory, Role, Sink, Sunk, Tick};
use sp_msg::{Message, Wire};
use sp_proto::Proto;
use sp_socket::{BeginError, Cause, Collected, Op, Outcome, Single};
use std::alloc::Global;
use std::mem;
use std::sync::Wait;

/// The context on which everything is played.
pub const CTX: Ctx = Ctx(0);

/// How long a survey is live, in milliseconds: the default of a socket.
const SURVEY_TIME: u64 = 1_000;

/// What is to be played: the plan without its ends (nngcat(1)).
#[derive(Drop)]
pub struct Script {
    /// The role of its socket.
    pub role: Role,
    /// What each send carries.
    pub body: Option<Bytes>,
    /// The topics of a sub.
    pub topics: TopicList,
    /// How many items are counted until it is over; `None` is never.
    pub count: Option<u32>,
    /// The interval, in seconds, like the other times.
    pub interval: Option<u32>,
    /// How long a receive may take.
    pub recv_timeout: Option<u32>,
    /// How long a send may take.
    pub send_timeout: Option<u32>,
    /// How bodies are printed.
    pub format: Format,
}

/// How a play ended (nngcat(1)).
#[derive(Clone, Copy, Debug, PartialEq, Eq)]
pub enum PlayEnd {
    /// It goes on.
    Open,
    /// The count is reached, or a receive timed out.
    Finished,
    /// A send timed out.
    SendTimedOut,
}

/// The result of a step of the play (nngcat(1)).
#[derive(Clone, Copy, Debug, PartialEq, Eq)]
pub enum StepResult {
    /// The next operation is under way.
    Begun,
    /// An operation is under way, or nothing can begin.
    Rests,
    /// The output failed.
    OutFault,
    /// Out of memory.
    NoMemory,
}

/// The result of collecting.
pub enum Collecting {
    /// No operation is under way now.
    Free,
    /// It hasn't ended.
    NotYet,
    /// The output failed.
    OutFault,
    /// Out of memory.
    NoMemory,
}

/// A play that is under way (nngcat(1)).
pub struct Player {
    alloc: Global,
    /// What is to be played.
    pub script: Script,
    /// The operation that is under way.
    pub op: Option<Op>,
    /// How many more items count before it is over; `None` is never.
    pub due: Option<u32>,
    /// What was collected last.
    pub last: LastCollected,
    /// The tick at which the last send was begun.
    pub last_send: Option<Tick>,
    /// How it ended, or that it goes on.
    pub over: PlayEnd,
    /// The buffer in which texts are composed.
    text: Vec<u8>,
}

// Holds the operation, where none was under way.
fn hold(place: &mut Option<Op>, op: Op)
    requires { place.old ≡ None }
    ensures { place.new ≡ Some op }
{
    match mem::replace(place, Some(op)) {
        None => (),
        Some(_other) => unreachable!(),
    }
}

// The result of a step whose begin was refused.
fn step_for(error: BeginError) -> StepResult
    ensures { result ≡ step_for error }
{
    match error {
        BeginError::NoMemory => StepResult::NoMemory,
        BeginError::Closed => StepResult::Rests,
        BeginError::NotSupported => StepResult::Rests,
        BeginError::NoEntry => StepResult::Rests,
        BeginError::State => StepResult::Rests,
        BeginError::Busy => StepResult::Rests,
    }
}

// The tick that many seconds after `now`.
fn after(now: Tick, seconds: Option<u32>) -> Option<Tick>
    ensures { result ≡ option_map (after_seconds now) seconds }
{
    match seconds {
        None => None,
        Some(seconds) => Some(Tick(now.0.saturating_add(1_000 * seconds as u64))),
    }
}

impl Player {
    /// A play that hasn't begun.
    pub fn new(alloc: Global, script: Script) -> Player
        ensures { IsNewPlayer script result }
    {
        let count = script.count;
        let over = if count == Some(0) {
            PlayEnd::Finished
        } else {
            PlayEnd::Open
        };
        Player {
            alloc,
            script,
            op: None,
            due: count,
            last: LastCollected::Nothing,
            last_send: None,
            over,
            text: Vec::new(alloc),
        }
    }

    /// Collects what has ended, prints it, and begins the next operation, if it may.
    pub fn step<R: Wait, P: Proto, W: Wire, S: Sink>(
        &mut self,
        rt: &R,
        single: &mut Single<P, W>,
        out: &mut S,
        now: Tick,
        has_pipe: bool,
    ) -> StepResult
        requires stands { Stands single.old self.old now }
        requires pipes { KnowsPipes has_pipe single.old self.old }
        ensures stands { Stands single.new self.new now }
        ensures script { SameScript self.old self.new }
        ensures goes_on { GoesOnBy single.old single.new }
        ensures rested { Rested result single.new self.new }
        ensures printed { PrintsOn (PrintedAfter result) (S.seen out.old) (S.seen out.new) single.old single.new self.old self.new }
        ensures sinks { Sinks (is_failed_step result) (S.seen out.old) (S.seen out.new) }
        ensures begun { result ≡ StepResult.Begun → is_some self.new.op ≡ true }
        ensures kept { result ≡ StepResult.Rests → IsKept self.old.op self.new.op }
    {
        match self.collect(rt, single, out, now) {
            Collecting::Free => self.begin(rt, single, now, has_pipe),
            Collecting::NotYet => StepResult::Rests,
            Collecting::OutFault => StepResult::OutFault,
            Collecting::NoMemory => StepResult::NoMemory,
        }
    }

    // Collects the operation that is under way, if it has ended.
    fn collect<R: Wait, P: Proto, W: Wire, S: Sink>(
        &mut self,
        rt: &R,
        single: &mut Single<P, W>,
        out: &mut S,
        now: Tick,
    ) -> Collecting
        requires stands { Stands single.old self.old now }
        ensures stands { Stands single.new self.new now }
        ensures script { SameScript self.old self.new }
        ensures goes_on { GoesOnBy single.old single.new }
        ensures free { result ≡ Collecting.Free → self.new.op ≡ None }
        ensures kept { result ≡ Collecting.NotYet → self.new.op ≡ self.old.op }
        ensures left { is_left (past_of single.new.seen) ≡ false }
        ensures busy { result ≡ Collecting.NotYet → is_some (under_way (past_of single.new.seen)) ≡ true }
        ensures printed { PrintsOn (PrintedThen result) (S.seen out.old) (S.seen out.new) single.old single.new self.old self.new }
        ensures sinks { Sinks (is_failed_collect result) (S.seen out.old) (S.seen out.new) }
        ensures pipes { (has_pipe : Bool) → KnowsPipes has_pipe single.old self.old → KnowsPipes has_pipe single.new self.new }
    {
        let Some(op) = self.op.take() else {
            return Collecting::Free;
        };
        match single.collect(rt, op) {
            Collected::NotYet(op) => {
                hold(&mut self.op, op);
                Collecting::NotYet
            }
            Collected::Ended(outcome) => self.note(outcome, out, now),
        }
    }

    // Records how an operation ended.
    fn note<S: Sink>(&mut self, outcome: Outcome, out: &mut S, now: Tick) -> Collecting
        requires due { self.old.due ≡ Some 0 → ⊥ }
        ensures noted { NotedAs (is_survey_over self.old.last_send now) outcome self.old self.new }
        ensures printed { PutsFor outcome result self.new (S.seen out.old).text (S.seen out.new).text }
        ensures sinks { Sinks (is_failed_collect result) (S.seen out.old) (S.seen out.new) }
    {
        match outcome {
            Outcome::Received(m) => {
                self.count(LastCollected::Received, now);
                self.print(&m, out)
            }
            Outcome::Sent => {
                self.count(LastCollected::Sent, now);
                Collecting::Free
            }
            Outcome::Gone { cause, by: _, back } => {
                self.gone(cause, back.is_none(), now);
                Collecting::Free
            }
        }
    }

    // Records that an operation ended without success, a receive or a send.
    fn gone(&mut self, cause: Cause, receives: bool, now: Tick)
        requires due { self.old.due ≡ Some 0 → ⊥ }
        ensures gone { self.new ≡ gone_for (is_survey_over self.old.last_send now) cause receives self.old }
    {
        match cause {
            Cause::SurveyOver => self.count(LastCollected::SurveyOver, now),
            Cause::TimedOut => self.timed_out(receives),
            Cause::Cancelled | Cause::Closed | Cause::Superseded => self.last = LastCollected::Gone,
        }
    }

    // Records the result of the operation that was collected.
    fn count(&mut self, last: LastCollected, now: Tick)
        requires due { self.old.due ≡ Some 0 → ⊥ }
        ensures { self.new ≡ counts_one (counts_for_last self.old.script (is_survey_over self.old.last_send now) last) last self.old }
    {
        let is_over = self.is_survey_over(now);
        self.last = last;
        if counts(self.script.role, self.script.body.is_some(), is_over, last) {
            self.one_less();
        }
    }

    // Records that one more item counts.
    fn one_less(&mut self)
        requires { self.old.due ≡ Some 0 → ⊥ }
        ensures { self.new ≡ counts_one true self.old.last self.old }
    {
        match self.due {
            None => (),
            Some(n) => {
                self.due = Some(n - 1);
                if n == 1 {
                    self.over = PlayEnd::Finished;
                }
            }
        }
    }

    // Returns whether no survey is live: none was begun, or the time of the last one has passed.
    fn is_survey_over(&self, now: Tick) -> bool
        ensures { result ≡ is_survey_over self.now.last_send now }
    {
        match self.last_send {
            None => true,
            Some(since) => !is_before(now, since, SURVEY_TIME),
        }
    }

    // Records that an operation timed out, a receive or a send.
    fn timed_out(&mut self, receives: bool)
        ensures { self.new ≡ record self.old { last = LastCollected.Gone; over = over_for receives } }
    {
        self.last = LastCollected::Gone;
        self.over = if receives {
            PlayEnd::Finished
        } else {
            PlayEnd::SendTimedOut
        };
    }

    // Prints the message.
    fn print<S: Sink>(&mut self, m: &Message, out: &mut S) -> Collecting
        ensures same { self.new ≡ record self.old { text = self.new.text } }
        ensures puts { Puts result self.old m.now (S.seen out.old).text (S.seen out.new).text }
        ensures sinks { Sinks (is_failed_collect result) (S.seen out.old) (S.seen out.new) }
    {
        match self.script.format {
            Format::None => Collecting::Free,
            Format::Raw => put(out, m.body()),
            format => {
                self.text.clear();
                match push_text(&mut self.text, format, m.body()) {
                    Err(NoMemory) => Collecting::NoMemory,
                    Ok(()) => put(out, &self.text),
                }
            }
        }
    }

    // Begins the next operation, where none is under way.
    fn begin<R: Wait, P: Proto, W: Wire>(
        &mut self,
        rt: &R,
        single: &mut Single<P, W>,
        now: Tick,
        has_pipe: bool,
    ) -> StepResult
        requires stands { Stands single.old self.old now }
        requires free { self.old.op ≡ None }
        requires pipes { KnowsPipes has_pipe single.old self.old }
        requires left { is_left (past_of single.old.seen) ≡ false }
        ensures stands { Stands single.new self.new now }
        ensures script { SameScript self.old self.new }
        ensures goes_on { GoesOnBy single.old single.new }
        ensures rested { Rested result single.new self.new }
        ensures texts { AddsNoText self.old.script single.old single.new }
        ensures fault { result ≡ StepResult.OutFault → ⊥ }
        ensures begun { result ≡ StepResult.Begun → is_some self.new.op ≡ true }
        ensures kept { result ≡ StepResult.Rests → self.new.op ≡ None }
    {
        if self.over != PlayEnd::Open {
            return StepResult::Rests;
        }
        let is_over = self.is_survey_over(now);
        if receives_next(
            self.script.role,
            self.script.body.is_some(),
            is_over,
            self.last,
        ) {
            self.begin_recv(rt, single, now)
        } else if self.waits_for_pipe(has_pipe) || self.is_within_interval(now) {
            StepResult::Rests
        } else {
            self.begin_send(rt, single, now)
        }
    }

    fn begin_recv<R: Wait, P: Proto, W: Wire>(
        &mut self,
        rt: &R,
        single: &mut Single<P, W>,
        now: Tick,
    ) -> StepResult
        requires stands { Stands single.old self.old now }
        requires free { self.old.op ≡ None }
        requires left { is_left (past_of single.old.seen) ≡ false }
        requires open_ { self.old.over ≡ PlayEnd.Open }
        requires next { is_receive_next single.old.setting (play_of self.old.script) (past_of single.old.seen) ≡ true }
        ensures stands { Stands single.new self.new now }
        ensures script { SameScript self.old self.new }
        ensures goes_on { GoesOnBy single.old single.new }
        ensures rested { Rested result single.new self.new }
        ensures texts { AddsNoText self.old.script single.old single.new }
        ensures fault { result ≡ StepResult.OutFault → ⊥ }
        ensures begun { result ≡ StepResult.Begun → is_some self.new.op ≡ true }
        ensures kept { result ≡ StepResult.Rests → self.new.op ≡ None }
    {
        match single.begin_recv(rt, CTX, after(now, self.script.recv_timeout)) {
            Err(_) => StepResult::Rests,
            Ok(op) => {
                hold(&mut self.op, op);
                StepResult::Begun
            }
        }
    }

    // Returns whether the first send waits until a pipe is up.
    fn waits_for_pipe(&self, has_pipe: bool) -> bool
        ensures { result ≡ (floods self.now.script.role && is_none self.now.last_send && not has_pipe) }
    {
        floods(self.script.role) && self.last_send.is_none() && !has_pipe
    }

    // Returns whether the interval since the last send hasn't passed.
    fn is_within_interval(&self, now: Tick) -> bool
        ensures { result ≡ is_within self.now.script.interval self.now.last_send now }
    {
        is_held_back(self.script.interval, self.last_send, now)
    }

    fn begin_send<R: Wait, P: Proto, W: Wire>(
        &mut self,
        rt: &R,
        single: &mut Single<P, W>,
        now: Tick,
    ) -> StepResult
        requires stands { Stands single.old self.old now }
        requires free { self.old.op ≡ None }
        requires left { is_left (past_of single.old.seen) ≡ false }
        requires open_ { self.old.over ≡ PlayEnd.Open }
        requires next { is_receive_next single.old.setting (play_of self.old.script) (past_of single.old.seen) ≡ false }
        requires pipe { waits_for_pipe (play_of self.old.script) (past_of single.old.seen) ≡ false }
        requires spaced { waits_for_interval (play_of self.old.script) (past_of single.old.seen) ≡ false }
        ensures stands { Stands single.new self.new now }
        ensures script { SameScript self.old self.new }
        ensures goes_on { GoesOnBy single.old single.new }
        ensures rested { Rested result single.new self.new }
        ensures texts { AddsNoText self.old.script single.old single.new }
        ensures fault { result ≡ StepResult.OutFault → ⊥ }
        ensures begun { result ≡ StepResult.Begun → is_some self.new.op ≡ true }
        ensures kept { result ≡ StepResult.Rests → self.new.op ≡ None }
    {
        let Ok(m) = self.message() else {
            return StepResult::NoMemory;
        };
        match single.begin_send(rt, CTX, m, after(now, self.script.send_timeout)) {
            Err((error, _)) => step_for(error),
            Ok(op) => {
                hold(&mut self.op, op);
                self.last_send = Some(now);
                StepResult::Begun
            }
        }
    }

    // A message with the data.
    fn message(&self) -> Result<Message, NoMemory>
        ensures { IfOk result (λ m. (m.header ≡ []) × IfSome self.now.script.body (λ body. m.body ≡ body)) }
    {
        match &self.script.body {
            None => Message::from_body(self.alloc, &[]),
            Some(body) => Message::from_body(self.alloc, body.as_slice()),
        }
    }

    /// Collects what the close has ended.
    pub fn finish<R: Wait, P: Proto, W: Wire>(self, rt: &R, single: &mut Single<P, W>)
        requires op { IsUnderWay self.op single.old.seen }
        requires closed { is_closed (past_of single.old.seen) ≡ true }
        requires ended { AllEnded single.old.seen }
        requires sound { IsSound single.old }
        ensures finished { CollectsLast single.old single.new }
        ensures none { self.op ≡ None → single.new.seen ≡ single.old.seen }
    {
        let Player {
            alloc: _,
            script: _,
            op,
            due: _,
            last: _,
            last_send: _,
            over: _,
            text: _,
        } = self;
        let Some(op) = op else {
            return;
        };
        match single.collect(rt, op) {
            Collected::Ended(_) => (),
            Collected::NotYet(_op) => unreachable!(),
        }
    }
}

// Returns whether the interval since `since` hasn't passed.
fn is_held_back(interval: Option<u32>, since: Option<Tick>, now: Tick) -> bool
    ensures { result ≡ is_within interval since now }
{
    match (interval, since) {
        (Some(seconds), Some(since)) => is_before(now, since, 1_000 * seconds as u64),
        _ => false,
    }
}

// Returns whether fewer than `pause` milliseconds have passed since `since`.
fn is_before(now: Tick, since: Tick, pause: u64) -> bool
    ensures { IsTrue result ↔ (now < since + pause) }
{
    match since.0.checked_add(pause) {
        None => true,
        Some(end) => now.0 < end,
    }
}

// Puts a piece out, if it has a byte.
fn put<S: Sink>(out: &mut S, piece: &[u8]) -> Collecting
    ensures puts { PutsPiece result piece.now (S.seen out.old).text (S.seen out.new).text }
    ensures sinks { Sinks (is_failed_collect result) (S.seen out.old) (S.seen out.new) }
{
    if piece.is_empty() {
        return Collecting::Free;
    }
    match out.put(piece) {
        Sunk::Done => Collecting::Free,
        Sunk::Failed => Collecting::OutFault,
    }
}
