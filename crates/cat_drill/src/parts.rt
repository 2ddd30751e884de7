//! The parts of a drill, for tests of one round.
pub use crate::drill_wire::DrillWire;
pub use crate::ending::{Closed, close_all, drop_all};
pub use crate::rounds::{begin_all, collect_all, contend, rounds};
pub use crate::run::{four_callers_of, lanes};
pub use crate::source::DrillSource;
pub use crate::tasks::{FourCallers, work};
