//! The pipes of a closed socket, with the wires that were not taken.
ghost use Rattle.std.specs.Prelude.{◌≡◌, ◌∷◌, ◌++◌, [], IfSome, IfNone};
ghost use Rattle.sp_history.specs.declared.entry.Why.{Why as WhyType};
ghost use Rattle.core_state.specs.Pipes.{held, up_pipes};

use crate::pipes::{DownPipe, PipePlace, Pipes};
use sp_base::PipeId;
use std::collections::VecDeque;
use std::marker::Model;

/// The pipes of a closed socket whose wires were not taken, in the order in which they went down. It must be spent:
/// `pop` until `None`, then `destroy_empty`.
pub struct WireList<W> {
    down: VecDeque<DownPipe<W>>,
}

impl<W> Model for WireList<W> {
    ghost use Rattle.std.specs.Prelude.{List};
    ghost use Rattle.core_state.specs.declared.pipes.DownPipe.{DownPipe};

    ghost Value = { List (DownPipe W) };

    ghost view = { λ l. l.down.items };
}

impl<W> WireList<W> {
    /// Takes the last pipe with its wire. Returns `None` exactly where the list is empty.
    pub fn pop(&mut self) -> Option<(PipeId, W)>
        ensures none { IfNone result ((self.old ≡ []) × (self.new ≡ [])) }
        ensures last { IfSome result (λ taken. (why : WhyType) × (self.old ≡ self.new ++ record { id = taken.0; why = why; wire = taken.1 } ∷ [])) }
    {
        match self.down.pop_back() {
            None => None,
            Some(DownPipe { id, why: _, wire }) => Some((id, wire)),
        }
    }

    /// Drops the list, which is empty.
    pub fn destroy_empty(self)
        requires { self ≡ [] }
    {
        let WireList { down } = self;
        down.destroy_empty();
    }
}

// Drops the places, which are empty.
fn end_places<W>(mut places: VecDeque<PipePlace<W>>)
    requires { held places.items ≡ [] }
{
    while let Some(
        PipePlace {
            id: _,
            limit: _,
            wire,
            busy: _,
            listed: _,
        },
    ) = places.pop_front()
    {
        match wire {
            None => {}
            Some(_wire) => unreachable!(),
        }
    }
    places.destroy_empty();
}

impl<W> Pipes<W> {
    /// The pipes that are down, where none is up.
    pub fn into_down(self) -> WireList<W>
        requires { up_pipes self ≡ [] }
        ensures { result ≡ self.down.items }
    {
        let Pipes {
            places,
            count: _,
            down,
            busy: _,
        } = self;
        end_places(places);
        WireList { down }
    }
}
