//! The immediate receive: an operation is begun, won and collected in one turn, where a message is kept.
//!
//! No operation is begun where nothing is kept. A caller that guessed the name of the operation may end it first; then
//! the message stays, and the next try has another name.
ghost use Rattle.std.specs.Prelude.{[]};
ghost use Rattle.sp_history.specs.Moments.{Moment};
ghost use Rattle.sp_core.specs.Owning.{Owns};
ghost use Rattle.sp_core.specs.Standing.{IsSettled};
ghost use Rattle.sp_core.specs.BeginSteps.{MayDraw};
ghost use Rattle.sp_core.specs.CollectSteps.{DrawsToReceive, ReceivesAtOnce, TriesOnce};
ghost use Rattle.sp_core.specs.CallSays.{MayTakeTurn, ReceivesNow, TakesOneTurn};

use crate::owner::Core;
use core_state::{NowError, Outcome};
use sp_base::{Ctx, OpName};
use sp_history::entry::Entry;
use sp_msg::{Message, Wire};
use sp_proto::{Act, Proto, Verb};
use std::sync::Wait;
use turn_lock::Stands;

impl<P: Proto, W: Wire> Core<P, W> {
    /// Receives the oldest message that is kept for the context, if there is one: an operation is begun, won and
    /// collected in one turn. Refused as `begin_recv` is, and then where nothing is kept. Doesn't fail when out of
    /// memory.
    pub fn try_recv<R: Wait>(&mut self, rt: &R, k: u32, c: Ctx) -> Result<Message, NowError>
        requires turn { MayTakeTurn ⟦<Core<P, W> as Stands>⟧.stands self.old k }
        ensures { TakesOneTurn ⟦<Core<P, W> as Stands>⟧.stands P.kind self.old self.new k (ReceivesNow result k c self.old self.new) }
    {
        self.open_turn(rt, k, c);
        self.receive_now(rt, c)
    }

    // Tries until a message is received, or none can be. The turn is settled before and after.
    fn receive_now<R: Wait>(&mut self, rt: &R, c: Ctx) -> Result<Message, NowError>
        requires { (t : Moment) × Owns P.ties P.room W.shown [] self.old t × IsSettled t }
        ensures { ReceivesAtOnce P.ties P.room W.shown result c self.old self.new }
    {
        for _ in rt.forever() {
            match self.try_once(rt, c) {
                Err(e) => return Err(e),
                Ok(Some(m)) => return Ok(m),
                Ok(None) => (),
            }
        }
        unreachable!()
    }

    // Tries once. Returns `None` where a caller ended the receive first.
    fn try_once<R: Wait>(&mut self, rt: &R, c: Ctx) -> Result<Option<Message>, NowError>
        requires { (t : Moment) × Owns P.ties P.room W.shown [] self.old t × IsSettled t }
        ensures { TriesOnce P.ties P.room W.shown result c self.old self.new }
    {
        let op = match self.draw_to_receive(c) {
            Err(e) => return Err(e),
            Ok(op) => op,
        };
        match self.begin_drawn(op, c, Act::Recv, None) {
            Ok(()) => (),
            Err(_) => unreachable!(),
        }
        self.give(op);
        let outcome = self.take(op);
        self.settle(rt);
        match outcome {
            Outcome::Received(m) => Ok(Some(m)),
            Outcome::Gone {
                cause: _,
                by: _,
                back: _,
            } => Ok(None),
            Outcome::Sent => unreachable!(),
        }
    }

    // Draws a slot for a receive that can be given something at once.
    fn draw_to_receive(&mut self, c: Ctx) -> Result<OpName, NowError>
        requires { MayDraw self.old }
        ensures { DrawsToReceive P.ties P.room W.shown result c self.old self.new }
    {
        let op = match self.draw_for(c, Verb::Recv) {
            Err(e) => return Err(NowError::Begin(e)),
            Ok(op) => op,
        };
        if !self.proto.keeps(c) {
            self.operations.put_back(op.slot);
            return Err(NowError::Again);
        }
        Ok(op)
    }
}
