//! The calls, in the order of an operation's life: it begins, the core and the callers race to end it, and the core
//! finds how it ended. Then the seats are joined.
ghost use Rattle.std.specs.Prelude.{◌≡◌, ◌<◌, true, IfOk, MatchResult};
ghost use Rattle.aio_word.specs.declared.phase.Phase.TheVariants.{Cancelled, Expired};
ghost use Rattle.aio_word.specs.Word.{is_core_end, is_call_end, is_decided};
ghost use Rattle.aio_word.specs.Sight.{IsSameSeat};
ghost use Rattle.aio_word.specs.Views.{learned, absorbed};
ghost use Rattle.aio_word.specs.Results.{HasSeen, IsName, CoreSaw, Agrees, of_op};
ghost use Rattle.aio_word.specs.OneWinner.{IsKnownCaller, IsKnownCore};
ghost use Rattle.aio_word.specs.Winners.{HasOneWinner};
ghost use Rattle.aio_word.specs.Meanings.{MatchDecided, MatchRaced, MatchPolled, BeganAt, IsNextName, IsWorn};

use crate::phase::Phase;
use crate::results::{Decided, Look, Polled, Raced, Worn};
use crate::rule::{
    Begins, Decides, Joined, Learns, Looks, Noted, Polls, Races, WordsRule, WordsView,
};
use crate::seats::{CallSeat, CoreSeat};
use crate::word::{LAST, by_in, generation_in, phase_in, word_with};
use atomic_table::Table;
use sp_base::{NoMemory, OpName};
use std::alloc::Global;
use std::marker::Model;
use std::sync::Arc;

/// The words of some slots. Several values can share the same words, and each seat of the words fits each value.
/// Several threads may use them at once (nng_aio(5)).
#[derive(Drop)]
pub struct Words {
    // The words, by slot, under the rule.
    pub(crate) table: Arc<Table<(), WordsView, u32, WordsRule, Global>, Global>,
    // Slots are the numbers below this.
    pub(crate) slots: u32,
    // Callers are numbered from 1 to this.
    pub(crate) callers: u32,
}

impl Model for Words {
    ghost use Rattle.std.specs.Prelude.{◌≡◌, ◌<◌};
    ghost use Rattle.std.specs.Arc.{arc_value};
    ghost use Rattle.aio_word.specs.Sight.{Named};

    ghost Value = { Named };

    ghost view = { λ w. record { id = (arc_value w.table).shared.table_id; slots = w.slots; callers = w.callers } };

    ghost invariant = { λ w. ((arc_value w.table).shared.table_id.words ≡ w.slots) × ((arc_value w.table).shared.key ≡ w.slots) × (0 < w.slots) };
}

impl Words {
    /// A second value of the same words.
    pub fn share(&self) -> Result<Words, NoMemory>
        ensures { IfOk result (λ w. w ≡ self.now) }
    {
        let table = Arc::try_clone(&self.table)?;
        Ok(Words {
            table,
            slots: self.slots,
            callers: self.callers,
        })
    }

    /// Begins the slot's next operation, and names it. The core has seen that the slot's last operation ended, or the
    /// slot had none. `Worn` at the last generation, 2^40 - 1; then nothing changes.
    pub fn begin(&self, core: &mut CoreSeat, slot: u32) -> Result<OpName, Worn>
        requires own { core.old.words ≡ self.now.id }
        requires slot { slot < self.now.slots }
        requires seen { HasSeen core.old.view slot }
        ensures own { core.new.words ≡ core.old.words }
        ensures begun { MatchResult result (λ op. (op.slot ≡ slot) × BeganAt core.old.view op core.new.view) (λ _. IsWorn core.old.view slot × (core.new.view ≡ core.old.view)) }
        ensures name { IfOk result (λ op. IsName core.new.view self.now.slots op) }
        ensures rule { IfOk result (λ _. IsKnownCore self.now.slots core.new.view) }
    {
        // Brings the invariant of the field into the proof.
        let _slots = &self.slots;
        let at = slot as usize;
        let last = core.generations[at];
        if last >= LAST {
            return Err(Worn);
        }
        let generation = last + 1;
        let word = word_with(generation, Phase::Pending, 0);
        self.table.shared.store::<Begins>(&mut core.seat, at, word);
        core.generations[at] = generation;
        Ok(OpName { slot, generation })
    }

    /// The name of the slot's next operation, as `begin` will give it. `Worn` where `begin` returns it. Takes no step.
    pub fn next(&self, core: &CoreSeat, slot: u32) -> Result<OpName, Worn>
        requires own { core.now.words ≡ self.now.id }
        requires slot { slot < self.now.slots }
        ensures { MatchResult result (λ op. (op.slot ≡ slot) × IsNextName core.now.view op) (λ _. IsWorn core.now.view slot) }
    {
        // Brings the invariant of the field into the proof.
        let _slots = &self.slots;
        let last = core.generations[slot as usize];
        if LAST <= last {
            return Err(Worn);
        }
        Ok(OpName {
            slot,
            generation: last + 1,
        })
    }

    /// The phase of the core's operation. Where it has ended, the core records the end. Never `Idle`.
    pub fn look(&self, core: &mut CoreSeat, op: OpName) -> Look
        requires own { core.old.words ≡ self.now.id }
        requires name { IsName core.old.view self.now.slots op }
        ensures own { core.new.words ≡ core.old.words }
        ensures returned { CoreSaw core.old.view (of_op op result.phase result.by) core.new.view }
        ensures seen { is_decided result.phase ≡ true → HasSeen core.new.view op.slot }
        ensures rule { IsKnownCore self.now.slots core.new.view }
    {
        let found = self
            .table
            .shared
            .load::<Looks>(&mut core.seat, op.slot as usize);
        Look {
            phase: phase_in(found),
            by: by_in(found),
        }
    }

    /// Ends the core's operation as `to`, one of the core's four ends, unless it has ended. One exchange.
    pub fn decide(&self, core: &mut CoreSeat, op: OpName, to: Phase) -> Decided
        requires own { core.old.words ≡ self.now.id }
        requires name { IsName core.old.view self.now.slots op }
        requires end { is_core_end to ≡ true }
        ensures own { core.new.words ≡ core.old.words }
        ensures returned { MatchDecided result core.old.view op to core.new.view }
        ensures seen { HasSeen core.new.view op.slot }
        ensures rule { IsKnownCore self.now.slots core.new.view }
    {
        // Brings the invariant of the field into the proof.
        let _generations = &core.generations;
        let pending = word_with(op.generation, Phase::Pending, 0);
        let ended = word_with(op.generation, to, 0);
        let found = self
            .table
            .shared
            .compare_exchange::<Decides>(&mut core.seat, op.slot as usize, pending, ended);
        if found == pending {
            return Decided::Mine;
        }
        Decided::Other {
            phase: phase_in(found),
            by: by_in(found),
        }
    }

    /// Cancels the operation, unless it has ended. One exchange, or no step where there is no such slot.
    pub fn cancel(&self, seat: &mut CallSeat, op: OpName) -> Raced
        requires own { seat.old.words ≡ self.now.id }
        ensures own { IsSameSeat seat.old seat.new }
        ensures returned { MatchRaced result seat.old.view self.now.slots op Cancelled seat.new.view }
        ensures rule { op.slot < self.now.slots → IsKnownCaller self.now.slots seat.new.view }
    {
        self.race(seat, op, Phase::Cancelled)
    }

    /// Lets the operation expire, unless it has ended. One exchange, or no step where there is no such slot.
    pub fn expire(&self, seat: &mut CallSeat, op: OpName) -> Raced
        requires own { seat.old.words ≡ self.now.id }
        ensures own { IsSameSeat seat.old seat.new }
        ensures returned { MatchRaced result seat.old.view self.now.slots op Expired seat.new.view }
        ensures rule { op.slot < self.now.slots → IsKnownCaller self.now.slots seat.new.view }
    {
        self.race(seat, op, Phase::Expired)
    }

    // Ends the operation as `to`, unless it has ended. Takes a step also for a name that no word can show, so that each
    // result except for a slot out of range rests on a step.
    fn race(&self, seat: &mut CallSeat, op: OpName, to: Phase) -> Raced
        requires own { seat.old.words ≡ self.now.id }
        requires end { is_call_end to ≡ true }
        ensures own { IsSameSeat seat.old seat.new }
        ensures returned { MatchRaced result seat.old.view self.now.slots op to seat.new.view }
        ensures rule { op.slot < self.now.slots → IsKnownCaller self.now.slots seat.new.view }
    {
        if op.slot >= self.slots {
            return Raced::Stale;
        }
        if op.generation == 0 || op.generation > LAST {
            self.table
                .shared
                .load::<Polls>(&mut seat.seat, op.slot as usize);
            return Raced::Stale;
        }
        let pending = word_with(op.generation, Phase::Pending, 0);
        let ended = word_with(op.generation, to, seat.number);
        let found = self
            .table
            .shared
            .compare_exchange::<Races>(&mut seat.seat, op.slot as usize, pending, ended);
        if found == pending {
            return Raced::Won;
        }
        if generation_in(found) != op.generation {
            return Raced::Stale;
        }
        Raced::Ended {
            phase: phase_in(found),
            by: by_in(found),
        }
    }

    /// The phase of the operation, for a caller. One step, or no step where there is no such slot.
    pub fn poll(&self, seat: &mut CallSeat, op: OpName) -> Polled
        requires own { seat.old.words ≡ self.now.id }
        ensures own { IsSameSeat seat.old seat.new }
        ensures returned { MatchPolled result seat.old.view self.now.slots op seat.new.view }
        ensures rule { op.slot < self.now.slots → IsKnownCaller self.now.slots seat.new.view }
    {
        if op.slot >= self.slots {
            return Polled::Stale;
        }
        let found = self
            .table
            .shared
            .load::<Polls>(&mut seat.seat, op.slot as usize);
        if op.generation == 0 || generation_in(found) != op.generation {
            return Polled::Stale;
        }
        match phase_in(found) {
            Phase::Pending => Polled::Pending,
            phase => Polled::Ended {
                phase,
                by: by_in(found),
            },
        }
    }

    /// The phase of the core's operation, together with what the caller's seat has read: where the seat has read its
    /// end, that end is returned. The seat is unchanged.
    pub fn found(&self, core: &mut CoreSeat, seat: &mut CallSeat, op: OpName) -> Look
        requires core { core.old.words ≡ self.now.id }
        requires own { seat.old.words ≡ self.now.id }
        requires name { IsName core.old.view self.now.slots op }
        ensures core { core.new.words ≡ core.old.words }
        ensures own { (seat.new.words ≡ seat.old.words) × (seat.new.view ≡ seat.old.view) }
        ensures returned { CoreSaw (learned core.old.view seat.old.view) (of_op op result.phase result.by) core.new.view }
        ensures seen { is_decided result.phase ≡ true → HasSeen core.new.view op.slot }
        ensures rule { IsKnownCore self.now.slots core.new.view }
        ensures read { Agrees (of_op op result.phase result.by) seat.old.view.reads }
    {
        let note = self.table.shared.split_seat::<Noted>(&mut seat.seat);
        self.table.shared.join_seat::<Noted>(&mut core.seat, note);
        self.look(core, op)
    }

    /// Takes in what a caller's seat has won and read. Consumes the seat. Of the callers that have joined, the core's
    /// ends that name one are exactly those of its wins that have ended, and no operation was won twice.
    pub fn join(&self, core: &mut CoreSeat, seat: CallSeat)
        requires core { core.old.words ≡ self.now.id }
        requires own { seat.words ≡ self.now.id }
        ensures own { core.new.words ≡ core.old.words }
        ensures joined { core.new.view ≡ absorbed core.old.view seat.view }
        ensures winners { HasOneWinner core.new.view }
        ensures rule { IsKnownCore self.now.slots core.new.view }
    {
        let CallSeat { seat, number: _ } = seat;
        self.table.shared.join_seat::<Joined>(&mut core.seat, seat);
        self.learn(core);
    }

    // A step that changes nothing, and shows the rule to the core.
    pub(crate) fn learn(&self, core: &mut CoreSeat)
        requires core { core.old.words ≡ self.now.id }
        ensures same { core.new ≡ core.old }
        ensures rule { IsKnownCore self.now.slots core.new.view }
    {
        self.table.shared.load::<Learns>(&mut core.seat, 0);
    }
}
