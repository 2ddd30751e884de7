//! What one turn of the ends does.
ghost use Rattle.std.specs.Prelude.{◌≡◌, ◌≤◌, ◌<◌, ◌+◌, ◌-◌, ◌*◌, ◌^◌, min, ◌||◌, ℕ, true, false, length, slice_get, Some, None, Ok, IfOk};
ghost use Rattle.std.specs.List.{AllByRecursion};
ghost use Rattle.sp_base.specs.Addresses.{is_dialable, scheme_of};
ghost use Rattle.sp_history.specs.Past.{past_of};
ghost use Rattle.sp_history.specs.Found.{before_last_tick};
ghost use Rattle.sp_ends.specs.LinkRecords.{has_dry_miss};
ghost use Rattle.sp_ends.specs.LinkCounts.{CanRise, has_room};
ghost use Rattle.sp_ends.specs.declared.dialer.Dialer.{Dialer as DialerType};
ghost use Rattle.sp_ends.specs.declared.listener.Listener.{Listener as ListenerType};
ghost use Rattle.sp_links.specs.Origins.{serving, asking};
ghost use Rattle.sp_ends.specs.EndViews.{Beginning};
ghost use Rattle.sp_ends.specs.RunLinks.{IsListener};
ghost use Rattle.sp_ends.specs.Freeing.{Frees, Redials, Turns, AreWaiting, KnowsLinks, KnowsDialed, AreSameDialers};
ghost use Rattle.sp_ends.specs.Listening.{room_for, dialed_of, IsFromOne, KeepsFrom, KeepsOwn, FewerOwn};
ghost use Rattle.sp_ends.specs.NameTurns.{TurnsCallers, LanesTurn, TakesCallers, TakesPipe};
ghost use Rattle.sp_ends.specs.NameSteps.{GoesOn, KeepsLinks, Accepting, AllBring};
ghost use Rattle.sp_ends.specs.EndsTurns.{UngreetedGoOn, HaveTicked, StandAgain, TurnGoesOn, IsInTurn, AreToBeAsked, AskedStand, AreToBeDialed, DialedStand, CountsRise, WaitOn, WaitWith, GreetsInTurn, HasArrived, MeetsInTurn, AllTaken, FewInProgress, SameEnds, Serves, InTurnWith, HasWaitedSince, AreWaitingBehind, AsksNet, DialsAt, AreYoung, asked_after, asks_of, AsksAll, AsksEach, AsksDue, HasAskedOne, HasAskedTo, FitsIn};
ghost use Rattle.sp_ends.specs.SocketSteps.{Quietly, IsDry, NoLane};
ghost use Rattle.sp_ends.specs.WholeTurns.{TurnsEnds};
ghost use Rattle.sp_socket.specs.Singles.{IsNow, IsSound};
ghost use Rattle.sp_ends.specs.NewcomerSteps.{is_dry_for};

use crate::ends::Ends;
use crate::greeting::{NewcomerFate, greet_one, miss};
use crate::links::{LinkEnds, room_for};
use crate::names::{LINKS_A_TURN, NameEnds};
use crate::newcomer::{Newcomer, newcomer_over};
use crate::shut::leave_wire;
use sp_base::{Link, Linked, Net, NoMemory, PipeId, Scheme, Tick};
use sp_history::entry::Miss;
use sp_lane::Inproc;
use sp_links::{EndWire, Way};
use sp_proto::Proto;
use sp_socket::{Gone, Single};
use std::alloc::Global;
use std::sync::Wait;

/// The result of a turn of the ends.
#[derive(Clone, Copy, Debug, PartialEq, Eq)]
pub struct EndsTurn {
    /// Whether a link was given back when out of memory, in this turn or an earlier one.
    pub is_dry: bool,
}

impl EndsTurn {
    // The result of a turn before it does anything.
    fn new(was_dry: bool) -> EndsTurn
        ensures { result.is_dry ≡ was_dry }
    {
        EndsTurn { is_dry: was_dry }
    }

    // Records that a link was given back for this cause.
    fn missed(&mut self, miss: Miss)
        ensures { self.new.is_dry ≡ (is_dry_for miss || self.old.is_dry) }
    {
        self.is_dry = miss == Miss::NoMemory || self.is_dry;
    }
}

impl<L: Link> Ends<L> {
    /// One turn of the ends, at this tick, which is the history's. It takes the wires whose pipes are down and gives
    /// their links back. It goes on with the greetings, asks each listener for at most 16 links, and dials each address
    /// that is due. Then it does the same with names within the process. Where there is no memory for a link, the link
    /// is given back and the result says so; the other links still have their turn. `was_dry` says whether an earlier
    /// turn has said so.
    pub fn turn<R: Wait, N: Net<L = L>, P: Proto>(
        &mut self,
        rt: &R,
        net: &mut N,
        inproc: &mut Inproc,
        single: &mut Single<P, EndWire<L>>,
        now: Tick,
        was_dry: bool,
    ) -> EndsTurn
        requires ticked { HaveTicked L.seen single.old (N.seen net.old) self.old.links }
        requires sound { IsSound single.old }
        requires now { IsNow now single.old }
        requires dry { IsDry was_dry single.old }
        ensures { TurnsEnds L.seen now result.is_dry self.old self.new (N.seen net.old) (N.seen net.new) single.old single.new inproc.old inproc.new }
    {
        self.links
            .turn(&mut self.names, rt, net, inproc, single, now, was_dry)
    }
}

impl<L: Link> LinkEnds<L> {
    // The turn, with these names within the process.
    fn turn<R: Wait, N: Net<L = L>, P: Proto>(
        &mut self,
        names: &mut NameEnds,
        rt: &R,
        net: &mut N,
        inproc: &mut Inproc,
        single: &mut Single<P, EndWire<L>>,
        now: Tick,
        was_dry: bool,
    ) -> EndsTurn
        requires ticked { HaveTicked L.seen single.old (N.seen net.old) self.old }
        requires sound { IsSound single.old }
        requires now { IsNow now single.old }
        requires dry { IsDry was_dry single.old }
        ensures stands { StandAgain L.seen single.old single.new (N.seen net.old) (N.seen net.new) self.old self.new }
        ensures sound { IsSound single.new }
        ensures quietly { Quietly single.old single.new }
        ensures dry { IsDry result.is_dry single.new }
        ensures same { SameEnds self.old self.new }
        ensures names { names.new.names ≡ names.old.names }
        ensures turns { Turns now (N.seen net.old) (N.seen net.new) self.old.dialers self.new.dialers }
        ensures waits { AreWaiting now self.new.dialers }
        ensures taken { AllTaken single.old single.new }
        ensures young { AreYoung now 0 self.new.newcomers }
        ensures waited { AllByRecursion (HasWaitedSince L.seen self.old.newcomers (N.seen net.old).opened) self.new.newcomers }
        ensures known { KnowsDialed (length self.old.listeners) (N.seen net.old) (N.seen net.new) self.new.dialers }
        ensures listens { (N.seen net.new).listens ≡ (N.seen net.old).listens }
        ensures asked { AsksAll now self.old (N.seen net.old) (N.seen net.new) }
        ensures each { AsksEach now self.old (N.seen net.old) (N.seen net.new) }
        ensures dues { AsksDue now self.old.dialers (N.seen net.old) (N.seen net.new) }
        ensures few { FewInProgress self.old self.new }
        ensures callers { TurnsCallers now single.old single.new names.old.callers names.new.callers }
        ensures lanes { LanesTurn now self.old names.old names.new single.old single.new inproc.old inproc.new }
    {
        let mut turn = EndsTurn::new(was_dry);
        self.take_all_ended(names, rt, net, single, now);
        self.go_on(rt, net, single, now, &mut turn);
        names.call_all(rt, inproc, single, self.role, now);
        names.accept_all(rt, inproc, single);
        turn
    }

    // Takes the wires whose pipes are down, and gives their links back.
    fn take_all_ended<R: Wait, N: Net<L = L>, P: Proto>(
        &mut self,
        names: &mut NameEnds,
        rt: &R,
        net: &mut N,
        single: &mut Single<P, EndWire<L>>,
        now: Tick,
    )
        requires in_turn { IsInTurn L.seen self.old (N.seen net.old) single.old now (length self.old.newcomers) }
        ensures in_turn { UngreetedGoOn L.seen now self.old self.new (N.seen net.old) (N.seen net.new) single.old single.new }
        ensures few { length self.new.newcomers ≤ length self.old.newcomers }
        ensures newcomers { self.new.newcomers ≡ self.old.newcomers }
        ensures serves { Serves self.old self.new (N.seen net.old) (N.seen net.new) single.old single.new }
        ensures frees { Frees now (N.seen net.old) (N.seen net.new) self.old.dialers self.new.dialers }
        ensures dry { has_dry_miss (past_of single.new.seen) ≡ has_dry_miss (past_of single.old.seen) }
        ensures taken { AllTaken single.old single.new }
        ensures names { names.new.names ≡ names.old.names }
        ensures callers { TakesCallers now single.old single.new names.old.callers names.new.callers }
    {
        'takes: for _ in rt.forever() {
            let Some(pipe) = self.take_ended(rt, net, single, now) else {
                return;
            };
            names.lost(now, pipe);
        }
        unreachable!()
    }

    // Continues the greetings, and asks each listener and each dialer that is due.
    fn go_on<R: Wait, N: Net<L = L>, P: Proto>(
        &mut self,
        rt: &R,
        net: &mut N,
        single: &mut Single<P, EndWire<L>>,
        now: Tick,
        turn: &mut EndsTurn,
    )
        requires ticked { AreToBeAsked L.seen self.old (N.seen net.old) single.old now }
        requires room { has_room (before_last_tick (past_of single.old.seen)) ≡ true → length self.old.newcomers ≤ 192 }
        requires dry { IsDry turn.old.is_dry single.old }
        ensures stands { AskedStand L.seen now self.old self.new (N.seen net.old) (N.seen net.new) single.old single.new }
        ensures sound { IsSound single.new }
        ensures quietly { Quietly single.old single.new }
        ensures no_lane { NoLane single.old single.new }
        ensures dry { IsDry turn.new.is_dry single.new }
        ensures same { SameEnds self.old self.new }
        ensures turns { Turns now (N.seen net.old) (N.seen net.new) self.old.dialers self.new.dialers }
        ensures waits { AreWaiting now self.new.dialers }
        ensures young { AreYoung now 0 self.new.newcomers }
        ensures waited { (opened : ℕ) → opened ≤ (N.seen net.old).opened → AreWaitingBehind L.seen self.old.newcomers opened 0 self.new.newcomers }
        ensures known { KnowsDialed (length self.old.listeners) (N.seen net.old) (N.seen net.new) self.new.dialers }
        ensures listens { (N.seen net.new).listens ≡ (N.seen net.old).listens }
        ensures asked { AsksAll now self.old (N.seen net.old) (N.seen net.new) }
        ensures each { AsksEach now self.old (N.seen net.old) (N.seen net.new) }
        ensures dues { AsksDue now self.old.dialers (N.seen net.old) (N.seen net.new) }
        ensures few { FewInProgress self.old self.new }
    {
        self.greet_all(rt, net, single, now, turn);
        self.accept_all(rt, net, single, now, turn);
        self.dial_all(rt, net, single, now, turn);
    }

    // Takes one wire whose pipe is down, if there is one, and gives its link back.
    fn take_ended<R: Wait, N: Net<L = L>, P: Proto>(
        &mut self,
        rt: &R,
        net: &mut N,
        single: &mut Single<P, EndWire<L>>,
        now: Tick,
    ) -> Option<PipeId>
        requires in_turn { IsInTurn L.seen self.old (N.seen net.old) single.old now (length self.old.newcomers) }
        ensures in_turn { UngreetedGoOn L.seen now self.old self.new (N.seen net.old) (N.seen net.new) single.old single.new }
        ensures few { length self.new.newcomers ≤ length self.old.newcomers }
        ensures newcomers { self.new.newcomers ≡ self.old.newcomers }
        ensures serves { Serves self.old self.new (N.seen net.old) (N.seen net.new) single.old single.new }
        ensures frees { Frees now (N.seen net.old) (N.seen net.new) self.old.dialers self.new.dialers }
        ensures dry { has_dry_miss (past_of single.new.seen) ≡ has_dry_miss (past_of single.old.seen) }
        ensures taken { TakesPipe result single.old single.new }
    {
        let Some(Gone { pipe, why: _, wire }) = single.take_ended(rt) else {
            return None;
        };
        let Some(link) = leave_wire(rt, wire) else {
            return Some(pipe);
        };
        let place = link.place();
        net.give_back(link);
        self.lost(now, place);
        Some(pipe)
    }

    // Continues all greetings that are under way.
    fn greet_all<R: Wait, N: Net<L = L>, P: Proto>(
        &mut self,
        rt: &R,
        net: &mut N,
        single: &mut Single<P, EndWire<L>>,
        now: Tick,
        turn: &mut EndsTurn,
    )
        requires in_turn { IsInTurn L.seen self.old (N.seen net.old) single.old now (length self.old.newcomers) }
        requires dry { IsDry turn.old.is_dry single.old }
        ensures in_turn { TurnGoesOn L.seen now self.old self.new (N.seen net.old) (N.seen net.new) single.old single.new (length self.old.newcomers) 0 }
        ensures few { length self.new.newcomers ≤ length self.old.newcomers }
        ensures serves { Serves self.old self.new (N.seen net.old) (N.seen net.new) single.old single.new }
        ensures frees { Frees now (N.seen net.old) (N.seen net.new) self.old.dialers self.new.dialers }
        ensures dry { IsDry turn.new.is_dry single.new }
        ensures young { AreYoung now 0 self.new.newcomers }
        ensures waited { (opened : ℕ) → AreWaitingBehind L.seen self.old.newcomers opened 0 self.new.newcomers }
        ensures own { FewerOwn self.old.newcomers self.new.newcomers }
    {
        'greets: for _ in 0..self.newcomers.len() {
            let Some(newcomer) = self.next_newcomer() else {
                unreachable!()
            };
            self.greet(rt, net, single, newcomer, now, turn);
        }
    }

    // Continues the greetings of one link, which goes after the newcomers unless it is done with.
    fn greet<R: Wait, N: Net<L = L>, P: Proto>(
        &mut self,
        rt: &R,
        net: &mut N,
        single: &mut Single<P, EndWire<L>>,
        newcomer: Newcomer<L>,
        now: Tick,
        turn: &mut EndsTurn,
    )
        requires in_turn { (start : Beginning) × (k : ℕ) × InTurnWith L.seen start newcomer self.old (N.seen net.old) single.old now k }
        requires room { length self.old.newcomers < room_for (length self.old.listeners) }
        requires from { IsFromOne (length self.old.listeners) newcomer.from }
        requires dry { IsDry turn.old.is_dry single.old }
        ensures in_turn { GreetsInTurn L.seen now newcomer self.old self.new (N.seen net.old) (N.seen net.new) single.old single.new }
        ensures few { length self.new.newcomers ≤ length self.old.newcomers + 1 }
        ensures serves { Serves self.old self.new (N.seen net.old) (N.seen net.new) single.old single.new }
        ensures frees { Frees now (N.seen net.old) (N.seen net.new) self.old.dialers self.new.dialers }
        ensures dry { IsDry turn.new.is_dry single.new }
        ensures young { (k : ℕ) → AreYoung now k self.old.newcomers → AreYoung now k self.new.newcomers }
        ensures waited { WaitWith L.seen newcomer self.old.newcomers self.new.newcomers }
        ensures kept { KeepsFrom newcomer.from self.old.newcomers self.new.newcomers }
    {
        let place = newcomer.opening.link.place();
        match greet_one(self.alloc, rt, net, single, newcomer, now) {
            NewcomerFate::Stays(newcomer) => self.keep(newcomer),
            NewcomerFate::Up => (),
            NewcomerFate::Missed(miss) => {
                turn.missed(miss);
                self.lost(now, place);
            }
        }
    }

    // Asks each listener.
    fn accept_all<R: Wait, N: Net<L = L>, P: Proto>(
        &mut self,
        rt: &R,
        net: &mut N,
        single: &mut Single<P, EndWire<L>>,
        now: Tick,
        turn: &mut EndsTurn,
    )
        requires in_turn { IsInTurn L.seen self.old (N.seen net.old) single.old now 0 }
        requires listens { AllByRecursion (IsListener (N.seen net.old)) self.old.listeners }
        requires dry { IsDry turn.old.is_dry single.old }
        ensures { HasAskedTo L.seen (length self.old.listeners) self.old self.new (N.seen net.old) (N.seen net.new) single.old single.new now turn.new.is_dry }
    {
        'accepts: for i in 0..self.listeners.len() {
            self.accept_from(rt, net, single, i, now, turn);
        }
    }

    // Asks the listener at this place of the list until it has no link, or has brought as many as it may.
    fn accept_from<R: Wait, N: Net<L = L>, P: Proto>(
        &mut self,
        rt: &R,
        net: &mut N,
        single: &mut Single<P, EndWire<L>>,
        i: usize,
        now: Tick,
        turn: &mut EndsTurn,
    )
        requires in_turn { IsInTurn L.seen self.old (N.seen net.old) single.old now 0 }
        requires inside { i < length self.old.listeners }
        requires listens { AllByRecursion (IsListener (N.seen net.old)) self.old.listeners }
        requires dry { IsDry turn.old.is_dry single.old }
        ensures { HasAskedOne L.seen i self.old self.new (N.seen net.old) (N.seen net.new) single.old single.new now turn.new.is_dry }
    {
        'links: for _ in 0..LINKS_A_TURN {
            if self.is_full(i) {
                return;
            }
            if !self.accept_one(rt, net, single, i, now, turn) {
                return;
            }
        }
    }

    // Asks the listener at this place of the list for one link, and returns whether it brought one.
    fn accept_one<R: Wait, N: Net<L = L>, P: Proto>(
        &mut self,
        rt: &R,
        net: &mut N,
        single: &mut Single<P, EndWire<L>>,
        i: usize,
        now: Tick,
        turn: &mut EndsTurn,
    ) -> bool
        requires in_turn { IsInTurn L.seen self.old (N.seen net.old) single.old now 0 }
        requires inside { i < length self.old.listeners }
        requires listens { (l : ListenerType) → slice_get self.old.listeners i ≡ Some l → IsListener (N.seen net.old) l }
        requires dry { IsDry turn.old.is_dry single.old }
        ensures in_turn { TurnGoesOn L.seen now self.old self.new (N.seen net.old) (N.seen net.new) single.old single.new 0 0 }
        ensures few { length self.new.newcomers + (N.seen net.old).opened ≤ length self.old.newcomers + (N.seen net.new).opened }
        ensures kept { KeepsFrom (Some i) self.old.newcomers self.new.newcomers }
        ensures asks { AsksNet (N.seen net.old) (N.seen net.new) }
        ensures none { result ≡ false → CanRise (N.seen net.new).idles → CanRise (N.seen net.new).faults → asks_of (N.seen net.old) + 16 ≤ asks_of (N.seen net.new) }
        ensures dialers { AreSameDialers self.old.dialers self.new.dialers }
        ensures frees { Frees now (N.seen net.old) (N.seen net.new) self.old.dialers self.new.dialers }
        ensures quietly { Quietly single.old single.new }
        ensures no_lane { NoLane single.old single.new }
        ensures same { SameEnds self.old self.new }
        ensures dry { IsDry turn.new.is_dry single.new }
        ensures handed { (N.seen net.new).opened ≤ (N.seen net.old).opened + 1 }
        ensures young { AreYoung now 0 self.old.newcomers → AreYoung now 0 self.new.newcomers }
        ensures waited { WaitOn L.seen (N.seen net.old).opened self.old.newcomers self.new.newcomers }
    {
        match net.accept(self.listeners[i].at) {
            Linked::NotYet => false,
            Linked::Begun => false,
            Linked::Failed => false,
            Linked::Got(link) => {
                let way = self.serving(i);
                let max = self.listen_limit(i);
                self.meet_newcomer(rt, net, single, link, way, max, Some(i), now, turn);
                true
            }
        }
    }

    // How a link begins that the listener at this place of the list brought.
    fn serving(&self, i: usize) -> Result<Way, NoMemory>
        requires inside { i < length self.now.listeners }
        ensures { (l : ListenerType) → slice_get self.now.listeners i ≡ Some l → IfOk result (λ way. way ≡ serving l.addr) }
    {
        Way::serving(self.alloc, &self.listeners[i].addr)
    }

    // The receive limit of the links that the listener at this place of the list brings.
    fn listen_limit(&self, i: usize) -> u32
        requires inside { i < length self.now.listeners }
        ensures { (l : ListenerType) → slice_get self.now.listeners i ≡ Some l → result ≡ l.max }
    {
        self.listeners[i].max
    }

    // Dials each address that is due.
    fn dial_all<R: Wait, N: Net<L = L>, P: Proto>(
        &mut self,
        rt: &R,
        net: &mut N,
        single: &mut Single<P, EndWire<L>>,
        now: Tick,
        turn: &mut EndsTurn,
    )
        requires in_turn { IsInTurn L.seen self.old (N.seen net.old) single.old now 0 }
        requires asked { AreToBeDialed L.seen self.old (N.seen net.old) single.old now }
        requires dry { IsDry turn.old.is_dry single.old }
        ensures in_turn { TurnGoesOn L.seen now self.old self.new (N.seen net.old) (N.seen net.new) single.old single.new 0 0 }
        ensures asked { DialedStand L.seen now self.old self.new (N.seen net.old) (N.seen net.new) single.old single.new }
        ensures quietly { Quietly single.old single.new }
        ensures no_lane { NoLane single.old single.new }
        ensures few { KeepsOwn self.old.newcomers self.new.newcomers × (dialed_of self.new.newcomers ≤ dialed_of self.old.newcomers + length self.old.dialers) }
        ensures same { SameEnds self.old self.new }
        ensures dry { IsDry turn.new.is_dry single.new }
        ensures turns { Turns now (N.seen net.old) (N.seen net.new) self.old.dialers self.new.dialers }
        ensures waits { AreWaiting now self.new.dialers }
        ensures listens { (N.seen net.new).listens ≡ (N.seen net.old).listens }
        ensures dialed { AsksDue now self.old.dialers (N.seen net.old) (N.seen net.new) }
        ensures counts { CountsRise (N.seen net.old) (N.seen net.new) }
        ensures known { KnowsLinks (N.seen net.old).opened (N.seen net.new) self.new.dialers }
        ensures young { AreYoung now 0 self.old.newcomers → AreYoung now 0 self.new.newcomers }
        ensures waited { WaitOn L.seen (N.seen net.old).opened self.old.newcomers self.new.newcomers }
    {
        'dials: for i in 0..self.dialers.len() {
            if !self.dialers[i].is_due(now) {
                continue;
            }
            self.dial_one(rt, net, single, i, now, turn);
        }
    }

    // Dials the address at this place of the list.
    fn dial_one<R: Wait, N: Net<L = L>, P: Proto>(
        &mut self,
        rt: &R,
        net: &mut N,
        single: &mut Single<P, EndWire<L>>,
        i: usize,
        now: Tick,
        turn: &mut EndsTurn,
    )
        requires in_turn { IsInTurn L.seen self.old (N.seen net.old) single.old now 0 }
        requires dialable { (d : DialerType) × (slice_get self.old.dialers i ≡ Some d) × (is_dialable d.addr ≡ true) }
        requires dry { IsDry turn.old.is_dry single.old }
        ensures in_turn { TurnGoesOn L.seen now self.old self.new (N.seen net.old) (N.seen net.new) single.old single.new 0 0 }
        ensures asks { AsksNet (N.seen net.old) (N.seen net.new) }
        ensures dialed { DialsAt i now (N.seen net.old) (N.seen net.new) self.old.dialers self.new.dialers }
        ensures redials { Redials i now (N.seen net.old) (N.seen net.new) self.old.dialers self.new.dialers }
        ensures quietly { Quietly single.old single.new }
        ensures no_lane { NoLane single.old single.new }
        ensures few { length self.new.newcomers ≤ length self.old.newcomers + 1 }
        ensures kept { KeepsFrom None self.old.newcomers self.new.newcomers }
        ensures same { SameEnds self.old self.new }
        ensures dry { IsDry turn.new.is_dry single.new }
        ensures known { KnowsLinks (N.seen net.old).opened (N.seen net.new) self.new.dialers }
        ensures young { AreYoung now 0 self.old.newcomers → AreYoung now 0 self.new.newcomers }
        ensures waited { WaitOn L.seen (N.seen net.old).opened self.old.newcomers self.new.newcomers }
    {
        let said = net.dial(&self.dialers[i].addr);
        self.dialers[i].dialed(now, &said);
        match said {
            Linked::NotYet => (),
            Linked::Begun => (),
            Linked::Failed => (),
            Linked::Got(link) => {
                let max = self.dial_limit(i);
                let way = self.asking(i);
                self.meet_newcomer(rt, net, single, link, way, max, None, now, turn);
            }
        }
    }

    // The receive limit of the links that the address at this place of the list gives.
    fn dial_limit(&self, i: usize) -> u32
        requires inside { i < length self.now.dialers }
        ensures { (d : DialerType) → slice_get self.now.dialers i ≡ Some d → result ≡ d.max }
    {
        self.dialers[i].max
    }

    // How a link begins that the address at this place of the list has just given.
    fn asking(&mut self, i: usize) -> Result<Way, NoMemory>
        requires inside { i < length self.old.dialers }
        ensures way { (n : ℕ) × (n ≡ min self.old.asked (2 ^ 64 - 1 - self.old.dice)) × ((d : DialerType) → slice_get self.old.dialers i ≡ Some d → IfOk result (λ way. way ≡ asking d.addr (self.old.dice + n))) }
        ensures asked { (d : DialerType) → slice_get self.old.dialers i ≡ Some d → self.new.asked ≡ asked_after (scheme_of d.addr) self.old.asked }
        ensures same { self.new ≡ record self.old { asked = self.new.asked } }
    {
        let start = u64::from(self.dice).saturating_add(self.asked);
        let way = Way::asking(self.alloc, &self.dialers[i].addr, start);
        self.asked = asked_after(self.dialers[i].addr.scheme(), self.asked);
        way
    }

    // The way of a link, where there is room for one more link; there always is for the links of 64 ends.
    fn fitting(&self, way: Result<Way, NoMemory>) -> Result<Way, NoMemory>
        ensures { FitsIn way result self.now }
    {
        let Some(room) = room_for(self.listeners.len()) else {
            return Err(NoMemory);
        };
        if self.newcomers.len() < room {
            way
        } else {
            Err(NoMemory)
        }
    }

    // Records a link that this listener has just brought, and greets it. Its way is missing when out of memory.
    fn meet_newcomer<R: Wait, N: Net<L = L>, P: Proto>(
        &mut self,
        rt: &R,
        net: &mut N,
        single: &mut Single<P, EndWire<L>>,
        link: L,
        way: Result<Way, NoMemory>,
        max: u32,
        from: Option<usize>,
        now: Tick,
        turn: &mut EndsTurn,
    )
        requires fresh { HasArrived L.seen now link way max self.old (N.seen net.old) single.old }
        requires from { IsFromOne (length self.old.listeners) from }
        requires dry { IsDry turn.old.is_dry single.old }
        ensures in_turn { MeetsInTurn L.seen now link way max self.old self.new (N.seen net.old) (N.seen net.new) single.old single.new }
        ensures few { length self.new.newcomers ≤ length self.old.newcomers + 1 }
        ensures serves { Serves self.old self.new (N.seen net.old) (N.seen net.new) single.old single.new }
        ensures frees { Frees now (N.seen net.old) (N.seen net.new) self.old.dialers self.new.dialers }
        ensures dry { IsDry turn.new.is_dry single.new }
        ensures young { AreYoung now 0 self.old.newcomers → AreYoung now 0 self.new.newcomers }
        ensures waited { WaitOn L.seen (L.seen link).place self.old.newcomers self.new.newcomers }
        ensures kept { KeepsFrom from self.old.newcomers self.new.newcomers }
    {
        let place = link.place();
        single.met(rt, place);
        let way = self.fitting(way);
        match newcomer_over(self.alloc, link, self.role, way, now, from, max) {
            Ok(newcomer) => self.greet(rt, net, single, newcomer, now, turn),
            Err((NoMemory, link)) => {
                miss(rt, net, single, link, Miss::NoMemory);
                turn.missed(Miss::NoMemory);
                self.lost(now, place);
            }
        }
    }
}

// The number of WebSocket links that were dialed, once one of this scheme was.
fn asked_after(scheme: Scheme, asked: u64) -> u64
    ensures { result ≡ asked_after scheme asked }
{
    match scheme {
        Scheme::Tcp => asked,
        Scheme::Ws => asked.saturating_add(1),
        Scheme::Inproc => asked,
        Scheme::Ipc => asked,
    }
}
