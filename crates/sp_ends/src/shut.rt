//! Links and wires that are shut and given back.
ghost use Rattle.std.specs.Prelude.{◌≡◌, ◌<◌, true, false};
ghost use Rattle.std.specs.List.{AllByRecursion};
ghost use Rattle.sp_base.specs.Steps.{AfterGiveBack};
ghost use Rattle.sp_ends.specs.RunLinks.{SameCounts};
ghost use Rattle.sp_ends.specs.ShutWires.{IsLeftOf, HangsUp, MayDrain, TellsEnd, AreHandedOut, WiresBack, with_links};

use crate::newcomer::Newcomer;
use sp_base::{Link, Net};
use sp_lane::LaneWire;
use sp_links::EndWire;
use sp_msg::Wire;
use sp_socket::WireList;
use std::collections::VecDeque;
use std::sync::Wait;

/// Shuts a link that is done with, and gives it back.
pub fn leave<N: Net>(net: &mut N, mut link: N::L)
    requires { (N.L.seen link).place < (N.seen net.old).opened }
    ensures { AfterGiveBack (record (N.L.seen link) { is_open = false }) (N.seen net.old) (N.seen net.new) }
{
    link.shut();
    net.give_back(link);
}

/// Shuts a wire that a pipe had, and the link under it. A wire within the process has none, and tells its end to the
/// other half, if there is room for it.
pub fn leave_wire<R: Wait, L: Link>(rt: &R, mut wire: EndWire<L>) -> Option<L>
    ensures { IsLeftOf L.seen wire result }
{
    wire.shut();
    tell_end(rt, wire).into_link()
}

// Tells the end of a wire within the process that was shut; any other wire stays unchanged.
fn tell_end<R: Wait, L: Link>(rt: &R, wire: EndWire<L>) -> EndWire<L>
    requires { MayDrain wire }
    ensures { TellsEnd wire result }
{
    match wire {
        EndWire::Tcp(wire) => EndWire::Tcp(wire),
        EndWire::Ws(wire) => EndWire::Ws(wire),
        EndWire::Lane(lane) => EndWire::Lane(hang_up(rt, lane)),
    }
}

// Tells the end of a lane that was shut to its other half, if there is room for it.
fn hang_up<R: Wait>(rt: &R, lane: LaneWire) -> LaneWire
    requires { lane.wire.drains ≡ true }
    ensures { HangsUp lane result }
{
    let mut lane = lane;
    let _ = lane.flush(rt);
    lane
}

/// Gives back the links of the wires.
pub fn give_wires_back<R: Wait, N: Net>(rt: &R, net: &mut N, mut wires: WireList<EndWire<N::L>>)
    requires { AreHandedOut (N.seen net.old).opened wires }
    ensures { WiresBack wires (N.seen net.old) (N.seen net.new) }
{
    'wires: while let Some((_, wire)) = wires.pop() {
        if let Some(link) = leave_wire(rt, wire) {
            net.give_back(link);
        }
    }
    wires.destroy_empty();
}

/// Gives back the links whose greetings are under way.
pub fn give_newcomers_back<N: Net>(net: &mut N, newcomers: VecDeque<Newcomer<N::L>>)
    requires { AllByRecursion (λ n. (N.L.seen n.opening.link).place < (N.seen net.old).opened) newcomers.items }
    ensures back { (N.seen net.new).back ≡ with_links N.L.seen (N.seen net.old).back newcomers.items }
    ensures counts { SameCounts (N.seen net.old) (N.seen net.new) }
{
    let mut newcomers = newcomers;
    'links: while let Some(newcomer) = newcomers.pop_front() {
        let Newcomer {
            opening,
            met: _,
            from: _,
            max: _,
        } = newcomer;
        leave(net, opening.into_link());
    }
    newcomers.destroy_empty();
}
