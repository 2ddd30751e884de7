//! What may come next in a history, and how a turn may end, computed by a plain program; and where a send goes, what it
//! puts on the pipes and how it is won.
//!
//! It follows the definitions of `sp_history` literally, over what `history_judge_past` and `history_judge_requests`
//! compute of a past. Its contract is the definition.
#![tactic(auto)]

pub mod faults;
pub mod rules;
pub mod sends;
