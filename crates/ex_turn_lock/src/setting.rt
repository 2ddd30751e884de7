//! The label of a small core: what no turn of it changes.
ghost use base.Fml.{ftrue};
ghost use Rattle.atomic_table.specs.Seated.{TableId, table_id_coded};

use std::marker::Model;

/// What no call changes: the machine's room, and the name of the words. No value of it is made.
pub struct MachineLabel {
    /// How much the machine has room for.
    pub room: u64,
    pub ghost words: { TableId } by { table_id_coded },
}

impl Model for MachineLabel {
    ghost also_owns = { λ _. ftrue };
}
