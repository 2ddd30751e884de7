//! Tests of what nngcat prints besides messages: each status with its lines, separate texts, spellings of NNG's own
//! nngcat, and addresses.
#![tactic(auto)]

#[cfg(test)]
mod checks;
#[cfg(test)]
mod ends;
#[cfg(test)]
mod page;
#[cfg(test)]
mod plays;
