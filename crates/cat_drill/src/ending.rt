//! The end of a drill: the socket is closed, and what it has done is checked.
ghost use Rattle.std.specs.Prelude.{◌≡◌, ◌≤◌, ◌%◌, ◌^◌, ◌∷◌, ◌++◌, [], List, true, Some, IfSome};
ghost use Rattle.std.specs.List.{sum as list_sum};
ghost use Rattle.turn_lock.specs.declared.turn.Turn.{Turn};
ghost use Rattle.sp_history.specs.declared.entry.Entry.{Entry};
ghost use Rattle.sp_history.specs.declared.entry.Why.{Why as WhyType};
ghost use Rattle.sp_history.specs.Past.{past_of};
ghost use Rattle.sp_history.specs.Legal.{Legal};
ghost use Rattle.core_state.specs.declared.pipes.DownPipe.{DownPipe};
ghost use Rattle.sp_core.specs.Parts.{HasWires};
ghost use Rattle.cat_play.specs.Drilling.{values, drill_setting, Drills, GivesAll};
ghost use Rattle.cat_drill.specs.DrillWires.{IsSource};
ghost use Rattle.cat_drill.specs.Calling.{AreFourCallers};
ghost use Rattle.cat_drill.specs.Ending.{IsFedBy, IsOut, IsWhole, ClosesWith, CameFrom};

use crate::drill_wire::DrillWire;
use crate::source::DrillSource;
use crate::tasks::FourCallers;
use sp_base::PipeId;
use sp_lane::{LaneOut, finish};
use sp_msg::Wire;
use sp_proto::Proto;
use sp_socket::{Finished, Record, Socket, SocketPasses, Totals, WireList};
use std::sync::Wait;

/// What is left of a drill's socket. The list of wires must be spent.
pub struct Closed<W> {
    pub totals: Totals,
    pub wires: WireList<W>,
    pub record_: Record,
}

// Gives all passes back.
fn give_all<P: Proto, W: Wire>(list: &mut SocketPasses<P, W>, four_callers: FourCallers<P, W>)
    requires main { four_callers.main.lock ≡ Some list.old.lock }
    requires two { four_callers.two.lock ≡ Some list.old.lock }
    requires three { four_callers.three.lock ≡ Some list.old.lock }
    requires four { four_callers.four.lock ≡ Some list.old.lock }
    ensures items { list.new.items ≡ list.old.items ++ four_callers.main ∷ four_callers.two ∷ four_callers.three ∷ four_callers.four ∷ [] }
    ensures same { (list.new.callers ≡ list.old.callers) × (list.new.lock ≡ list.old.lock) }
{
    let FourCallers {
        main,
        two,
        three,
        four,
    } = four_callers;
    list.give(main);
    list.give(two);
    list.give(three);
    list.give(four);
}

/// Closes and ends the socket.
pub fn close_all<P: Proto, W: Wire, R: Wait>(
    rt: &R,
    socket: Socket<P, W>,
    list: SocketPasses<P, W>,
    four_callers: FourCallers<P, W>,
) -> Closed<W>
    requires list { IsOut socket list }
    requires four_callers { AreFourCallers socket four_callers.main four_callers.two four_callers.three four_callers.four [] }
    ensures drills { Drills result.record_.turns }
    ensures wires { HasWires W.shown result.wires drill_setting (past_of result.record_.turns) }
    ensures closes { ClosesWith result.totals four_callers.main.seen result.record_.turns }
{
    let mut list = list;
    let mut four_callers = four_callers;
    let totals = socket.close(rt, &mut four_callers.main);
    give_all(&mut list, four_callers);
    let Finished { wires, record_ } = socket.finish(rt, list);
    Closed {
        totals,
        wires,
        record_,
    }
}

/// Drops the wires.
pub fn drop_all<W: Drop, R: Wait>(rt: &R, mut wires: WireList<W>) {
    for _ in rt.forever() {
        if wires.pop().is_none() {
            wires.destroy_empty();
            return;
        }
    }
    unreachable!()
}

// The wire of the pipe that went down last, if it is this one.
fn take_pipe<R: Wait>(rt: &R, mut wires: WireList<DrillWire>, pipe: PipeId) -> Option<DrillWire>
    ensures { IfSome result (λ drill_wire. (rest : List (DownPipe DrillWire)) × ((why : WhyType) × (wires ≡ rest ++ record { id = pipe; why = why; wire = drill_wire } ∷ []))) }
{
    let last = wires.pop();
    drop_all(rt, wires);
    let (id, drill_wire) = last?;
    if id == pipe { Some(drill_wire) } else { None }
}

// The end of the lane from which the pipe was fed, where no message was lost.
fn take_lane<R: Wait>(rt: &R, wires: WireList<DrillWire>, pipe: PipeId) -> Option<LaneOut>
    ensures { IfSome result (λ lane. (past : List Entry) → HasWires (λ w. w) wires drill_setting past → CameFrom pipe lane past) }
{
    let drill_wire = take_pipe(rt, wires, pipe)?;
    drill_wire.into_lane()
}

// Returns whether nothing is left in the lane, and `count` messages were put, came and were given.
fn is_whole(left: u64, put: u32, totals: Totals, count: u32) -> bool
    ensures { result ≡ true → IsWhole left put totals count }
{
    left == 0 && put == count && totals.won == count as u64 && totals.frames == count as u64
}

/// The sum of the values, where all that were put came and were given. Otherwise there was no memory.
pub fn sum_of_all<R: Wait>(
    rt: &R,
    wires: WireList<DrillWire>,
    pipe: PipeId,
    source: DrillSource,
    totals: Totals,
    record_: &Record,
    count: u32,
) -> Option<u64>
    requires count { count ≤ 1000000 }
    requires legal { Legal drill_setting record_.now.turns }
    requires wires { HasWires (λ w. w) wires drill_setting (past_of record_.now.turns) }
    requires source { IsSource source }
    requires closes { (seen : List (Turn Entry)) × IsFedBy pipe source.lane.name seen × ClosesWith totals seen record_.now.turns }
    ensures { IfSome result (λ total. GivesAll count record_.now.turns × (total ≡ list_sum (values count) % 2 ^ 64)) }
{
    let DrillSource {
        lane,
        value: _,
        total,
        count: put,
    } = source;
    let taken = take_lane(rt, wires, pipe)?;
    let end = finish(lane, taken);
    let whole = is_whole(end.left, put, totals, count);
    if whole { Some(total) } else { None }
}
