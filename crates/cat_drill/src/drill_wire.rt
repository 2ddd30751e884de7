//! The wire of a drill: over the lane that the drill fills, and one that carries nothing.
ghost use Rattle.std.specs.Prelude.{◌≡◌, ◌||◌, false, [], IfSome, Some, List, ℕ};
ghost use Rattle.sp_msg.specs.Views.{OverLanes};
ghost use Rattle.core_state.specs.Wires.{IsUnused};
ghost use Rattle.sp_lane.specs.Items.{texts};
ghost use Rattle.sp_lane.specs.Lanes.{has_end};
ghost use Rattle.sp_lane.specs.LaneWires.{is_lost};

use sp_lane::{LaneIn, LaneOut, LaneWire};
use sp_msg::{Message, Room, Wire, WireFlush, WireIn};
use std::marker::Model;
use std::sync::Wait;

/// A wire over two lanes that records whether a message was lost.
#[derive(Drop)]
pub struct DrillWire {
    wire: LaneWire,
    /// Whether a message was taken and lost when out of memory.
    lost: bool,
}

impl Model for DrillWire {
    ghost use Rattle.sp_msg.specs.Views.{WireView};
    ghost use Rattle.cat_drill.specs.DrillWires.{IsDrillWire};

    ghost Value = { WireView };

    ghost view = { λ f. f.wire.wire };

    ghost invariant = { λ f. IsDrillWire f.wire f.lost };
}

fn is_lost(returned: &WireIn) -> bool
    ensures { result ≡ is_lost returned.now }
{
    match returned {
        WireIn::NoMemory => true,
        WireIn::Message(_) => false,
        WireIn::NotYet => false,
        WireIn::Ended => false,
        WireIn::Malformed => false,
        WireIn::Failed => false,
        WireIn::Refused => false,
    }
}

fn either(a: bool, b: bool) -> bool
    ensures { result ≡ (a || b) }
{
    a || b
}

impl DrillWire {
    /// A wire that is fed from this lane.
    pub fn new(out: LaneIn, inp: LaneOut) -> DrillWire
        requires begun { has_end out.put ≡ false }
        requires fresh { inp.taken ≡ [] }
        ensures unused { IsUnused result }
        ensures name { result.name ≡ OverLanes out.name inp.name }
    {
        DrillWire {
            wire: LaneWire::new(out, inp),
            lost: false,
        }
    }

    /// The lane from which it was fed, where no message was lost.
    pub fn into_lane(self) -> Option<LaneOut>
        ensures came { IfSome result (λ lane. self.came ≡ Some (texts lane.taken)) }
        ensures name { IfSome result (λ lane. (out : List ℕ) × (self.name ≡ OverLanes out lane.name)) }
    {
        let DrillWire { wire, lost } = self;
        if lost {
            return None;
        }
        let (_, inp) = wire.into_halves();
        Some(inp)
    }
}

impl Wire for DrillWire {
    ghost shown = { λ f. f };

    fn pull<R: Wait>(&mut self, rt: &R) -> WireIn {
        let returned = self.wire.pull(rt);
        self.lost = either(self.lost, is_lost(&returned));
        returned
    }

    fn room<R: Wait>(&mut self, rt: &R) -> Room {
        self.wire.room(rt)
    }

    fn put<R: Wait>(&mut self, rt: &R, m: Message) {
        self.wire.put(rt, m)
    }

    fn flush<R: Wait>(&mut self, rt: &R) -> WireFlush {
        self.wire.flush(rt)
    }

    fn taken(&self) -> u64 {
        self.wire.taken()
    }

    fn shut(&mut self) {
        self.wire.shut()
    }
}
