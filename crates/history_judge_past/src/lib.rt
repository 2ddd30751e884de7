//! What a past says about pipes, contexts, topics and operations, and what a frame says, computed by a plain program.
//!
//! It follows the definitions of `sp_history` literally, and so is slow: each notion is computed again from the past.
//! Its contract is the definition. `history_judge_requests` continues from here; `history_judge` reads whole histories
//! with both.
#![tactic(auto)]

pub mod entries;
pub mod frames;
pub mod lists;
pub mod past;
