//! Tests of nodes over memory: messages over a link and within the process, cancels, how a node ends, refusals, and their
//! texts.
#![tactic(auto)]

#[cfg(test)]
mod cancels;
#[cfg(test)]
mod checks;
#[cfg(test)]
mod ends;
#[cfg(test)]
mod nodes;
pub mod slow;
