//! What a finished socket did, as contracts see it.
ghost use Rattle.std.specs.Prelude.{◌≡◌, List, []};
ghost use Rattle.std.specs.Borrow.{ftrue};
ghost use Rattle.turn_lock.specs.declared.turn.Turn.{Turn};
ghost use Rattle.sp_history.specs.declared.entry.Entry.{Entry};

use std::marker::Model;

/// The history that a value shows to contracts.
pub(crate) trait Told<X> {
    ghost use Rattle.std.specs.Prelude.{List};
    ghost use Rattle.turn_lock.specs.declared.turn.Turn.{Turn};
    ghost use Rattle.sp_history.specs.declared.entry.Entry.{Entry};

    ghost told: { X → List (Turn Entry) };
}

/// What a socket did, from its first turn to its last. It has no bytes: only contracts see it, as its turns. Only a
/// socket that ends makes one.
#[derive(Drop)]
pub struct Record {
    // Private, so that no other crate can make a record.
    made: (),
    pub ghost turns: { List (Turn Entry) },
}

impl Model for Record {
    ghost also_owns = { λ _. ftrue };
}

// It owns nothing.
unsafe impl Send for Record {}

unsafe impl Sync for Record {}

impl Record {
    // The history that the value shows.
    pub(crate) fn of<X, T: Told<X>>(value: &X) -> Record
        ensures { result.turns ≡ T.told value.now }
    {
        let _ = value;
        Record { made: () }
    }
}
