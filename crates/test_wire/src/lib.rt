//! Examples of messages and wires, and two links for them: one that reads by a script, and one that gives back what was
//! written and counts the writes. Both tell proofs nothing about their bytes, so a wire may be made over them without
//! greetings.
#![tactic(auto)]

#[cfg(test)]
mod buffers;
#[cfg(test)]
mod checks;
#[cfg(test)]
mod tests;
mod tube;
mod untold;

pub use tube::Tube;
pub use untold::Untold;
