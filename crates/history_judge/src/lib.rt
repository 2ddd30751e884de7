//! A plain program that reads a history and says whether it is legal and settled.
//!
//! It follows the definitions of `sp_history` literally, over what the crates below it compute of a past. Its contract
//! is the definition. It exists so that histories can be written down as tests of the definitions.
#![tactic(auto)]

pub mod judgement;
pub mod turns;
