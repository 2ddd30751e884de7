//! The wires of a play.
ghost use Rattle.std.specs.Prelude.{◌≡◌, IfSome};
ghost use Rattle.core_state.specs.Wires.{IsUnused};

use sp_msg::Wire;
use std::alloc::Global;
use std::marker::Model;
use std::process::Abort;

/// Wires that were not used yet, in the order in which they become pipes.
#[derive(Drop)]
pub struct UnusedWires<W: Wire> {
    left: Vec<W>,
}

// Contracts see the number of wires.
impl<W: Wire> Model for UnusedWires<W> {
    ghost use Rattle.std.specs.Prelude.{ℕ, length};
    ghost use Rattle.aio_word.specs.Views.{Each};
    ghost use Rattle.core_state.specs.Wires.{IsUnused};

    ghost Value = { ℕ };

    ghost view = { λ u. length u.left.items };

    ghost invariant = { λ u. Each (λ w. IsUnused (W.shown w)) u.left.items };
}

impl<W: Wire> UnusedWires<W> {
    /// No wires.
    pub fn new(alloc: Global) -> UnusedWires<W> {
        UnusedWires {
            left: Vec::new(alloc),
        }
    }

    /// Adds a wire after the others.
    pub fn add(&mut self, rt: &impl Abort, wire: W)
        requires { IsUnused (W.shown wire) }
    {
        match self.left.push(wire) {
            Ok(()) => (),
            Err(_) => panic!(rt; "no memory for a wire"),
        }
    }

    /// Takes the first wire.
    pub fn take(&mut self) -> Option<W>
        ensures { IfSome result (λ w. IsUnused (W.shown w)) }
    {
        if self.left.is_empty() {
            None
        } else {
            Some(self.left.remove(0))
        }
    }
}
