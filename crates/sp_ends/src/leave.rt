//! How the ends of a run end.
ghost use Rattle.std.specs.Prelude.{◌≡◌, []};
ghost use Rattle.sp_ends.specs.RunLinks.{SameCounts};
ghost use Rattle.sp_ends.specs.LeftLinks.{StandWithWires, LeaveLinks};

use crate::ends::Ends;
use crate::links::LinkEnds;
use crate::shut::{give_newcomers_back, give_wires_back};
use sp_base::{Link, Net};
use sp_links::EndWire;
use sp_socket::WireList;
use std::sync::Wait;

impl<L: Link> Ends<L> {
    /// Gives all links back: those whose greetings are under way, and those of the wires, which are all the wires that
    /// a closed socket with this history had. A lane tells its end to the other half, if it has room.
    pub fn give_all_back<R: Wait, N: Net<L = L>>(
        self,
        rt: &R,
        net: &mut N,
        wires: WireList<EndWire<L>>,
    )
        requires stands { StandWithWires L.seen (N.seen net.old) self.links wires }
        ensures left { LeaveLinks L.seen (N.seen net.old) (N.seen net.new) self.links wires }
        ensures counts { SameCounts (N.seen net.old) (N.seen net.new) }
    {
        let Ends { links, names: _ } = self;
        links.give_all_back(rt, net, wires);
    }

    /// Drops the rest, which has no link.
    pub fn destroy_empty(self)
        requires { self.links.newcomers ≡ [] }
    {
        let Ends { links, names: _ } = self;
        links.destroy_empty();
    }
}

impl<L: Link> LinkEnds<L> {
    // Gives back the links whose greetings are under way, and those of the wires.
    fn give_all_back<R: Wait, N: Net<L = L>>(self, rt: &R, net: &mut N, wires: WireList<EndWire<L>>)
        requires stands { StandWithWires L.seen (N.seen net.old) self wires }
        ensures left { LeaveLinks L.seen (N.seen net.old) (N.seen net.new) self wires }
        ensures counts { SameCounts (N.seen net.old) (N.seen net.new) }
    {
        let LinkEnds {
            alloc: _,
            role: _,
            dice: _,
            asked: _,
            listeners: _,
            greetings: _,
            dialers: _,
            newcomers,
        } = self;
        give_newcomers_back(net, newcomers);
        give_wires_back(rt, net, wires);
    }

    // Drops the rest, which has no link.
    pub(crate) fn destroy_empty(self)
        requires { self.newcomers ≡ [] }
    {
        let LinkEnds {
            alloc: _,
            role: _,
            dice: _,
            asked: _,
            listeners: _,
            greetings: _,
            dialers: _,
            newcomers,
        } = self;
        newcomers.destroy_empty();
    }
}
