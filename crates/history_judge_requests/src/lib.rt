//! What a past says about requests and of kept messages, computed by a plain program: the live requests, the frames
//! that are kept and for which context, and the replies that are due.
//!
//! It follows the definitions of `sp_history` literally, over what `history_judge_past` computes of pipes and
//! operations, and so is slow: each notion is computed again from the past. Its contract is the definition.
#![tactic(auto)]

pub mod kept;
pub mod one_request;
pub mod requests;
