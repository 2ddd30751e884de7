//! The parts of a run.
use crate::player::Player;
use crate::stillness::Stillness;
use sp_base::Link;
use sp_ends::Ends;
use sp_lane::Inproc;
use sp_links::EndWire;
use sp_proto::Proto;
use sp_socket::Single;
use std::marker::Model;

/// The runtime with which a run waits, its socket, its ends, its play, the names within the process, and, once the play
/// is over, the time since which no link took a byte. It must be spent.
pub(crate) struct RunParts<'r, R, P: Proto, L: Link> {
    pub rt: &'r R,
    pub single: Single<P, EndWire<L>>,
    pub ends: Ends<L>,
    pub player: Player,
    pub inproc: Inproc,
    pub still: Option<Stillness>,
}

// Contracts see the parts without the runtime. The history of the socket is sound, and the play corresponds to it.
impl<'r, R, P: Proto, L: Link> Model for RunParts<'r, R, P, L> {
    ghost use Rattle.cat_rounds.specs.Parts.{RunPartsView, IsRunning};

    ghost Value = { RunPartsView L };

    ghost view = { λ r. record { single = r.single; ends = r.ends; player = r.player; inproc = r.inproc; still = r.still } };

    ghost invariant = { λ r. IsRunning r.single r.player };
}
