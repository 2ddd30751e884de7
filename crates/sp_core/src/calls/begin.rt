//! The calls that begin operations.
ghost use Rattle.std.specs.Prelude.{◌≡◌, ◌≢◌, [], Err, IfErr, IfOk, IfSome};
ghost use Rattle.sp_history.specs.Moments.{Moment};
ghost use Rattle.core_state.specs.Pendings.{IsAmong};
ghost use Rattle.sp_proto.specs.Kinds.{entry_act};
ghost use Rattle.sp_core.specs.Cores.{pending_of};
ghost use Rattle.sp_core.specs.Owning.{Owns, IsInTurn};
ghost use Rattle.sp_core.specs.BeginSteps.{OpensTurn, TellsMayBegin, MayDraw, DrawsFor, DrawsSlot, MayPutBack, MayBegin, BeginsDrawn};
ghost use Rattle.sp_core.specs.SettleSteps.{SettlesTo, LooksOn, FindsOf};
ghost use Rattle.sp_core.specs.CallSays.{MayTakeTurn, BeginsRecv, BeginsSend, TakesOneTurn};

use crate::ops::Op;
use crate::owner::Core;
use core_state::{BeginError, Decision, PendingOperation};
use sp_base::{Ctx, OpName, Tick};
use sp_history::entry::Entry;
use sp_msg::{Message, Wire};
use sp_proto::{Act, CheckError, Proto, Verb};
use std::sync::Wait;
use turn_lock::Stands;

impl<P: Proto, W: Wire> Core<P, W> {
    /// Begins a receive on the context, with a deadline or none. It ends with a message, or without one; its caller
    /// collects it. Refused for the first of these causes: the socket is closed; the role doesn't receive, or has no
    /// such contexts; the context isn't open; the protocol's state; every slot is taken. Doesn't fail when out of
    /// memory.
    pub fn begin_recv<R: Wait>(
        &mut self,
        rt: &R,
        k: u32,
        c: Ctx,
        deadline: Option<Tick>,
    ) -> Result<Op, BeginError>
        requires turn { MayTakeTurn ⟦<Core<P, W> as Stands>⟧.stands self.old k }
        ensures turn { TakesOneTurn ⟦<Core<P, W> as Stands>⟧.stands P.kind self.old self.new k (BeginsRecv result k c deadline self.old self.new) }
        ensures memory { result ≢ Err BeginError.NoMemory }
    {
        self.open_turn(rt, k, c);
        let op = match self.draw_for(c, Verb::Recv) {
            Err(e) => return Err(e),
            Ok(op) => op,
        };
        match self.begin_drawn(op, c, Act::Recv, deadline) {
            Ok(()) => (),
            Err(_) => unreachable!(),
        }
        self.settle(rt);
        Ok(Op::new(op))
    }

    /// Begins a send on the context, with a deadline or none. Refused as `begin_recv` is, and when out of memory last;
    /// then the message is returned unchanged.
    pub fn begin_send<R: Wait>(
        &mut self,
        rt: &R,
        k: u32,
        c: Ctx,
        m: Message,
        deadline: Option<Tick>,
    ) -> Result<Op, (BeginError, Message)>
        requires turn { MayTakeTurn ⟦<Core<P, W> as Stands>⟧.stands self.old k }
        ensures turn { TakesOneTurn ⟦<Core<P, W> as Stands>⟧.stands P.kind self.old self.new k (BeginsSend result k c m deadline self.old self.new) }
        ensures handed_back { IfErr result (λ e. e.1 ≡ m) }
    {
        self.open_turn(rt, k, c);
        let op = match self.draw_for(c, Verb::Send) {
            Err(e) => return Err((e, m)),
            Ok(op) => op,
        };
        match self.begin_drawn(op, c, Act::Send(m), deadline) {
            Ok(()) => (),
            Err(m) => return Err((BeginError::NoMemory, m)),
        }
        self.settle(rt);
        Ok(Op::new(op))
    }

    // The first part of a turn that begins an operation: records which pending operations of the context callers have
    // ended, and does what can be done.
    pub(crate) fn open_turn<R: Wait>(&mut self, rt: &R, k: u32, c: Ctx)
        requires turn { MayTakeTurn ⟦<Core<P, W> as Stands>⟧.stands self.old k }
        ensures { OpensTurn P.ties P.room W.shown k c P.kind self.old self.new }
    {
        self.begin_turn();
        self.find_ended(c);
        self.settle(rt);
    }

    // Records which pending operations of the context callers have ended.
    fn find_ended(&mut self, c: Ctx)
        requires { IsInTurn P.ties P.room W.shown self.old }
        ensures { SettlesTo P.ties P.room W.shown self.old self.new (LooksOn c self.old self.new) }
    {
        let mut next = self.operations.pending.first_in_bucket(c);
        while let Some(x) = next {
            next = self.operations.pending.next_in_bucket(&x);
            self.note_if_ended(&x, c);
        }
    }

    // Records the end of the pending operation, if it is of the context and a caller has ended it.
    fn note_if_ended(&mut self, x: &PendingOperation, c: Ctx)
        requires { (t : Moment) × Owns P.ties P.room W.shown [] self.old t × IsAmong x.now (pending_of self.old) }
        ensures { SettlesTo P.ties P.room W.shown self.old self.new (FindsOf x.now c self.old self.new) }
    {
        if !x.is_on(c) {
            return;
        }
        let op = x.name();
        match self.op_words.look(op) {
            None => (),
            Some(Decision::Won) => unreachable!(),
            Some(Decision::Gone { cause, by }) => self.note_end(op, cause, by),
        }
    }

    // Draws a slot for an operation that may begin on the context.
    pub(crate) fn draw_for(&mut self, c: Ctx, verb: Verb) -> Result<OpName, BeginError>
        requires { MayDraw self.old }
        ensures drawn { DrawsFor P.ties P.room W.shown result c verb self.old self.new }
        ensures back { IfOk result (λ op. MayPutBack self.new op) }
    {
        if let Err(e) = self.may_begin(c, verb) {
            return Err(e);
        }
        let Some(op) = self.draw() else {
            return Err(BeginError::Busy);
        };
        Ok(op)
    }

    // Returns whether the socket is open and the protocol lets an operation begin.
    fn may_begin(&self, c: Ctx, verb: Verb) -> Result<(), BeginError>
        ensures { TellsMayBegin P.ties P.room W.shown result c verb self.now }
    {
        if self.closed {
            return Err(BeginError::Closed);
        }
        match self.proto.check(c, verb) {
            Ok(()) => Ok(()),
            Err(CheckError::NotSupported) => Err(BeginError::NotSupported),
            Err(CheckError::NoEntry) => Err(BeginError::NoEntry),
            Err(CheckError::State) => Err(BeginError::State),
        }
    }

    // Draws a free slot that isn't worn, and names its next operation.
    fn draw(&mut self) -> Option<OpName>
        requires { MayDraw self.old }
        ensures drawn { DrawsSlot P.ties P.room W.shown result self.old self.new }
        ensures back { IfSome result (λ op. MayPutBack self.new op) }
    {
        while let Some(slot) = self.operations.draw() {
            if let Some(op) = self.op_words.next(slot) {
                return Some(op);
            }
        }
        None
    }

    // Begins the drawn operation, while no send to many pipes is pending. Where there is no memory for a send, its slot
    // is free again and its message is returned.
    pub(crate) fn begin_drawn(
        &mut self,
        op: OpName,
        c: Ctx,
        act: Act,
        deadline: Option<Tick>,
    ) -> Result<(), Message>
        requires { MayBegin P.ties P.room W.shown op c (entry_act act) self.old }
        ensures begun { BeginsDrawn P.ties P.room W.shown result op c (entry_act act) deadline self.old self.new }
        ensures handed_back { IfErr result (λ m. act ≡ Act.Send m) }
    {
        match self.proto.begin(op, c, act) {
            Err(m) => {
                self.operations.put_back(op.slot);
                Err(m)
            }
            Ok(()) => {
                self.op_words.begin(op);
                self.operations.start(op, c, deadline);
                self.tally.begun();
                Ok(())
            }
        }
    }
}
