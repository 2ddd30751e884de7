//! Deadlines of operations in a wheel, and lists of names.
//!
//! `Deadlines` has at most one entry for each slot: the operation that has the slot, and when it expires. The owner of
//! the slots puts an entry when an operation with a timeout begins, removes it when the operation ends, and takes what
//! is due when a tick comes. An entry is due at each moment from its deadline on. Entries come in order of deadline,
//! then of slot. Whether the operation is then still pending is decided by the words (`aio_word`).
//!
//! The wheel has 513 lists of slots. A deadline within the 256 ticks of the latest `due` is in the list of its tick,
//! one within the 65,536 ticks in the list of its 256 ticks, and what is later in the last list. What is overdue is in
//! the list of the latest `due`. A list has no order, and its slots are linked by their numbers. So `put` and `remove`
//! write a fixed number of links. A `due` takes out what is in the lists between the moment of the previous `due` and
//! its own, at most all 513, sorts it by deadline and slot, names what is due, and links the others into the lists that
//! they now belong in. It goes over lists, never over ticks.
//!
//! Who owns what: the entry of a slot is kept by slot, with its name and deadline (`BySlot`); the wheel has only slot
//! numbers, which follow from the entries and the latest moment. `Deadlines` owns both, and a vector with room for an
//! entry of each slot, in which a `due` sorts. All memory is taken by `Deadlines::new`, `ListDeadlines::new` and
//! `NameList::with_room`. No other call takes any or can fail.
//!
//! What is proved: `Deadlines` and `ListDeadlines`, a sorted vector, both show to contracts an ordered list
//! (`Schedule`), and each call has the same contract for both. `run_due` makes any list of calls on either: it is
//! proved over the trait `Due`, so both give the same names and leave the same list. `Deadlines::wheel` lends the
//! lists, and says which list has each slot. No clause mentions the time that a call takes.
#![tactic(auto)]

mod by_slot;
mod deadlines;
mod due;
mod entries;
mod list_deadlines;
mod names;
mod turning;
mod wheel;

pub use deadlines::{Deadline, Deadlines};
pub use due::{Due, DueCall, run_due};
pub use list_deadlines::ListDeadlines;
pub use names::NameList;
pub use wheel::{BUCKETS, Wheel};
