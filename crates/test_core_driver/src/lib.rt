//! A core that one caller drives, with the operations that it began and did not collect: for tests and benchmarks of
//! cores.
#![tactic(auto)]

mod calls;

pub use calls::Driver;
