//! Two ways to use a turn lock.
//!
//! `counter` has a state whose calls know the turn that they add, and end with `leave`. `core_state` has a state that
//! is generic in its machine, whose contract says only that there is such a turn. Its calls end with `leave_some`, and
//! ensure one turn of the caller's own and a result over the history before it. `register` is such a machine, and keeps
//! its history. `endings` says what the end proves about each caller.
#![tactic(auto)]

mod core_state;
mod counter;
mod endings;
mod play;
mod register;
mod setting;
mod writes;

pub use core_state::{CoreState, Machine, act, act_all, act_both};
pub use counter::{Added, Counter, add, count_in_turns};
pub use endings::{end_with_three, end_with_two};
pub use play::write_in_turns;
pub use register::Register;
pub use setting::MachineLabel;
pub use writes::{Write, Written};
