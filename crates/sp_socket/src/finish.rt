//! How a socket ends.
ghost use Rattle.std.specs.Prelude.{◌≡◌, [], length, List};
ghost use Rattle.aio_word.specs.Views.{Each};
ghost use Rattle.turn_lock.specs.declared.turn.Turn.{Turn};
ghost use Rattle.sp_history.specs.declared.entry.Entry.{Entry};
ghost use Rattle.sp_core.specs.Standing.{StandsFor};
ghost use Rattle.sp_core.specs.CallSays.{core_label};
ghost use Rattle.sp_socket.specs.Finishing.{HasSeenClose, IsFinished, Joins};

use crate::boxed::BoxedCore;
use crate::list::SocketPasses;
use crate::pass_parts::PassParts;
use crate::record::{Record, Told};
use crate::socket::Socket;
use sp_core::{Core, WireList};
use sp_msg::Wire;
use sp_proto::Proto;
use std::sync::Wait;
use turn_lock::{Stack, TurnPass};

/// The history that a pass has seen.
pub struct Seen;

impl<P: Proto, W: Wire> Told<TurnPass<BoxedCore<P, W>>> for Seen {
    ghost told = { λ p. p.seen };
}

/// What is left of a socket (nng_close(3)).
pub struct Finished<W> {
    /// The wires that were not taken, as the core left them.
    pub wires: WireList<W>,
    /// The history of all turns.
    pub record_: Record,
}

impl<P: Proto, W: Wire> Socket<P, W> {
    /// Ends a closed socket, with all its passes. Takes no memory.
    pub fn finish<R: Wait>(self, rt: &R, passes: SocketPasses<P, W>) -> Finished<W>
        requires own { passes.lock ≡ self.lock }
        requires all { length passes.items ≡ passes.callers }
        requires callers { passes.callers ≡ self.words.callers }
        requires closed { HasSeenClose self passes.items }
        ensures { IsFinished W.shown result.wires result.record_.turns passes.items }
    {
        let Socket {
            lock,
            words: _,
            waiters: _,
        } = self;
        let SocketPasses { turns, mut parts } = passes;
        let (held, pass) = lock.end(rt, turns);
        let mut core = held.into_core();
        join_all(&mut core, &mut parts);
        parts.destroy_empty();
        Finished {
            wires: core.into_wires(),
            record_: Record::of::<TurnPass<BoxedCore<P, W>>, Seen>(&pass),
        }
    }
}

// The core takes in what the seats have won and read, the last seat first.
fn join_all<P: Proto, W: Wire>(core: &mut Core<P, W>, parts: &mut Stack<PassParts>)
    requires stands { (h : List (Turn Entry)) × StandsFor P.ties P.room W.shown core.old h }
    requires own { Each (λ x. x.seat.words ≡ (core_label P.kind core.old).words) parts.old }
    ensures stands { (h : List (Turn Entry)) → StandsFor P.ties P.room W.shown core.old h → StandsFor P.ties P.room W.shown core.new h }
    ensures label { core_label P.kind core.new ≡ core_label P.kind core.old }
    ensures joined { Joins core.old core.new parts.old }
    ensures taken { parts.new ≡ [] }
{
    let Some((PassParts { seat, names: _ }, _)) = parts.pop() else {
        return;
    };
    core.join(seat);
    join_all(core, parts);
}
