//! The rounds of a run.
ghost use Rattle.std.specs.Prelude.{◌≡◌, ◌≢◌, ◌≤◌, ◌+◌, ◌&&◌, not, None, true, false, length};
ghost use Rattle.sp_history.specs.Past.{past_of};
ghost use Rattle.cat_play.specs.Scripts.{has_ticked, texts};
ghost use Rattle.cat_rounds.specs.Lasting.{HasServed, MayTick};
ghost use Rattle.cat_rounds.specs.PlayerSteps.{AddsNoText, KnowsPipes, GoesOnBy, SameScript, Sinks};
ghost use Rattle.cat_rounds.specs.Late.{IsLateBy, RoundIsLate, StallsMore};
ghost use Rattle.cat_rounds.specs.Parts.{IsAt, StaysAt};
ghost use Rattle.cat_rounds.specs.Resting.{BeginsNothing, IsAtRest, MovesStill, RoundMoves};
ghost use Rattle.cat_rounds.specs.RunRounds.{RunIsOpen, RunGoesOn, RoundGoesOn, SameRun, GoesTo, RoundGoesTo, Drains, WentOrOver, PacedTo, TicksOnce, PrintsRun, PrintsTo, PrintsGoing, PrintsRound, TurnsNames, IsDryAt, past_now, has_more, is_failed_part, is_failed_round, is_failed_run};

use crate::player::{PlayEnd, StepResult};
use crate::run_parts::RunParts;
use crate::stillness::{gives_up, note};
use cat_play::status::Status;
use sp_base::{Link, Net, Pace, Paced, Sink, Tick};
use sp_proto::Proto;
use sp_socket::Served;
use std::sync::Wait;

/// The maximum number of times that the pipes are served in a round, while messages move.
const SWEEPS: u32 = 64;

/// The maximum number of steps of the play between two serves.
const STEPS: u32 = 64;

/// The result of a round.
#[derive(Clone, Copy, Debug, PartialEq, Eq)]
pub enum Round {
    /// The run goes on. The flag says whether messages still move.
    Goes(bool),
    /// The run is over.
    Ends(Status),
}

/// The result of a part of a round.
#[derive(Clone, Copy, Debug, PartialEq, Eq)]
pub enum Going {
    /// The run goes on. The flag says whether messages still move.
    Rests(bool),
    /// It is over.
    Over,
    /// The output failed.
    OutFault,
    /// Out of memory.
    NoMemory,
}

impl<R: Wait, P: Proto, L: Link> RunParts<'_, R, P, L> {
    /// Takes rounds until the play is over and all is written, the pace is over, or something fails.
    pub fn go_round<N: Net<L = L>, Pa: Pace, S: Sink>(
        &mut self,
        net: &mut N,
        pace: &mut Pa,
        out: &mut S,
    ) -> Status
        requires stands { RunIsOpen L.seen self.old (N.seen net.old) }
        requires may_tick { MayTick self.old.single.setting self.old.single.seen self.old.player }
        requires unticked { has_ticked (past_of self.old.single.seen) ≡ false }
        ensures stands { RunGoesOn L.seen self.old self.new (N.seen net.old) (N.seen net.new) }
        ensures dry { IsDryAt result self.new.single }
        ensures went { WentOrOver result self.new.single self.new.player (S.seen out.old) (S.seen out.new) (Pa.seen pace.new) }
        ensures pace { PacedTo result (Pa.seen pace.old) (Pa.seen pace.new) (past_of self.new.single.seen) }
        ensures printed { PrintsRun (PrintsTo result) (S.seen out.old) (S.seen out.new) self.old self.new }
        ensures sinks { Sinks (is_failed_run result) (S.seen out.old) (S.seen out.new) }
        ensures same { SameRun self.old self.new }
        ensures late { IsLateBy 1 self.new.single self.new.player }
    {
        let mut moved = true;
        'rounds: for _ in self.rt.forever() {
            match pace.turn(moved) {
                Paced::Over => return Status::Over,
                Paced::At(now) => match self.round(net, out, now) {
                    Round::Ends(status) => return status,
                    Round::Goes(went) => moved = went,
                },
            }
        }
        unreachable!()
    }

    // One round.
    fn round<N: Net<L = L>, S: Sink>(&mut self, net: &mut N, out: &mut S, now: Tick) -> Round
        requires stands { RunIsOpen L.seen self.old (N.seen net.old) }
        requires may_tick { MayTick self.old.single.setting self.old.single.seen self.old.player }
        requires later { past_now self.old.single ≤ now }
        requires late { IsLateBy 0 self.old.single self.old.player }
        ensures stands { RoundGoesOn L.seen result self.old self.new (N.seen net.old) (N.seen net.new) }
        ensures ticked { TicksOnce now self.old.single self.new.single }
        ensures went { RoundGoesTo result self.new.single self.new.player }
        ensures printed { PrintsRun (PrintsRound result) (S.seen out.old) (S.seen out.new) self.old self.new }
        ensures sinks { Sinks (is_failed_round result) (S.seen out.old) (S.seen out.new) }
        ensures same { SameRun self.old self.new }
        ensures names { TurnsNames now self.old.ends self.new.ends self.old.inproc self.new.inproc }
        ensures late { RoundIsLate result self.new.single self.new.player }
        ensures moved { RoundMoves result self.new.player self.old.single self.new.single }
    {
        self.single.tick(self.rt, now);
        let turn = self.ends.turn(self.rt, net, &mut self.inproc, &mut self.single, now, false);
        if turn.is_dry {
            return Round::Ends(Status::NoMemory);
        }
        let going = self.play(out, now);
        // Brings the invariant of the field into the proof.
        let _single = &self.single;
        match going {
            Going::Rests(moved) => Round::Goes(moved),
            Going::Over => {
                let drained = self.drain(now);
                let _single = &self.single;
                drained
            }
            Going::OutFault => Round::Ends(Status::OutFault),
            Going::NoMemory => Round::Ends(Status::NoMemory),
        }
    }

    // Serves the pipes and continues the play, while messages move.
    fn play<S: Sink>(&mut self, out: &mut S, now: Tick) -> Going
        requires at { IsAt self.old.single self.old.player now }
        ensures at { IsAt self.new.single self.new.player now }
        ensures goes_on { GoesOnBy self.old.single self.new.single }
        ensures went { GoesTo result self.new.single self.new.player }
        ensures printed { PrintsRun (PrintsGoing result) (S.seen out.old) (S.seen out.new) self.old self.new }
        ensures sinks { Sinks (is_failed_part result) (S.seen out.old) (S.seen out.new) }
        ensures same { SameScript self.old.player self.new.player × (self.new.ends ≡ self.old.ends) }
        ensures names { self.new.inproc ≡ self.old.inproc }
        ensures over { self.old.player.over ≢ PlayEnd.Open → result ≡ Going.Over }
        ensures moved { MovesStill result self.old.single self.new.single }
    {
        'sweeps: for _ in 0..SWEEPS {
            if self.player.over != PlayEnd::Open {
                return Going::Over;
            }
            match self.sweep(out, now) {
                Going::Rests(false) => return Going::Rests(false),
                Going::Rests(true) => (),
                Going::Over => return Going::Over,
                Going::OutFault => return Going::OutFault,
                Going::NoMemory => return Going::NoMemory,
            }
        }
        Going::Rests(true)
    }

    // Serves the pipes once, and continues the play.
    fn sweep<S: Sink>(&mut self, out: &mut S, now: Tick) -> Going
        requires at { IsAt self.old.single self.old.player now }
        ensures at { IsAt self.new.single self.new.player now }
        ensures goes_on { GoesOnBy self.old.single self.new.single }
        ensures still { result ≡ Going.Rests false → IsAtRest self.new.single }
        ensures turns { length self.old.single.seen + 1 ≤ length self.new.single.seen }
        ensures went { GoesTo result self.new.single self.new.player }
        ensures printed { PrintsRun (PrintsGoing result) (S.seen out.old) (S.seen out.new) self.old self.new }
        ensures sinks { Sinks (is_failed_part result) (S.seen out.old) (S.seen out.new) }
        ensures same { SameScript self.old.player self.new.player × (self.new.ends ≡ self.old.ends) }
        ensures names { self.new.inproc ≡ self.old.inproc }
    {
        let served = self.single.serve(self.rt);
        let has_pipe = served.up > 0;
        match self.steps(out, now, has_pipe) {
            Going::Rests(went) => Going::Rests(went || served.moved),
            Going::Over => Going::Over,
            Going::OutFault => Going::OutFault,
            Going::NoMemory => Going::NoMemory,
        }
    }

    // Continues the play until it rests.
    fn steps<S: Sink>(&mut self, out: &mut S, now: Tick, has_pipe: bool) -> Going
        requires at { IsAt self.old.single self.old.player now }
        requires served { HasServed self.old.single.setting self.old.single.seen }
        requires pipes { KnowsPipes has_pipe self.old.single self.old.player }
        ensures at { IsAt self.new.single self.new.player now }
        ensures goes_on { GoesOnBy self.old.single self.new.single }
        ensures kept { result ≡ Going.Rests false → BeginsNothing self.old.single self.new.single }
        ensures went { GoesTo result self.new.single self.new.player }
        ensures printed { PrintsRun (PrintsGoing result) (S.seen out.old) (S.seen out.new) self.old self.new }
        ensures sinks { Sinks (is_failed_part result) (S.seen out.old) (S.seen out.new) }
        ensures same { SameScript self.old.player self.new.player × (self.new.ends ≡ self.old.ends) }
        ensures names { self.new.inproc ≡ self.old.inproc }
    {
        let mut moved = false;
        'steps: for _ in 0..STEPS {
            match self
                .player
                .step(self.rt, &mut self.single, out, now, has_pipe)
            {
                StepResult::Begun => moved = true,
                StepResult::Rests => return Going::Rests(moved),
                StepResult::OutFault => return Going::OutFault,
                StepResult::NoMemory => return Going::NoMemory,
            }
        }
        Going::Rests(moved)
    }

    // Ends the run, whose play is over, as soon as no pipe has something left to write. Where a send timed out, it also
    // ends once no link has taken a byte for as long as a send may take.
    fn drain(&mut self, now: Tick) -> Round
        requires at { IsAt self.old.single self.old.player now }
        requires over { self.old.player.over ≢ PlayEnd.Open }
        requires free { self.old.player.op ≡ None }
        ensures at { StaysAt self.old self.new }
        ensures goes_on { GoesOnBy self.old.single self.new.single }
        ensures went { RoundGoesTo result self.new.single self.new.player }
        ensures drains { Drains result now self.old.still self.new.single self.new.player self.new.still }
        ensures texts { AddsNoText self.old.player.script self.old.single self.new.single }
        ensures same { (self.new.player ≡ self.old.player) × (self.new.ends ≡ self.old.ends) }
        ensures names { self.new.inproc ≡ self.old.inproc }
        ensures fault { (result ≡ Round.Ends Status.OutFault → ⊥) × (result ≡ Round.Ends Status.NoMemory → ⊥) }
        ensures stalls { StallsMore result self.old.single self.new.single }
        ensures rests { result ≡ Round.Goes true → ⊥ }
    {
        let served = self.single.serve(self.rt);
        note(&mut self.still, served.taken, now);
        let timeout = self.player.script.send_timeout;
        let given_up = gives_up(&self.still, self.player.over, timeout, now);
        let waits = goes_on(served, given_up);
        if waits {
            return Round::Goes(false);
        }
        match self.player.over {
            PlayEnd::SendTimedOut => Round::Ends(Status::SendTimedOut),
            PlayEnd::Finished => Round::Ends(Status::Done),
            PlayEnd::Open => unreachable!(),
        }
    }
}

// Returns whether the run goes on though its play is over.
fn goes_on(served: Served, given_up: bool) -> bool
    ensures { result ≡ (has_more served && not given_up) }
{
    has_more(served) && !given_up
}

// Returns whether a pipe has something left to write.
fn has_more(served: Served) -> bool
    ensures { result ≡ has_more served }
{
    served.waiting > 0
}
