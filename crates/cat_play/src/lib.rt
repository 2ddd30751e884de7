//! What nngcat does with a plan, as definitions: the records that are plays of it, what they count and print, what is
//! written on the links, what the rounds were spent on, and why a run ended.
//!
//! Nothing here is a program but the two calls of `ends`. A record is the history of the one socket of a run, and each
//! notion says what one entry, or one turn, does to what was before it; so one more entry is one step of computation.
//! The contract of the top call cites these words, and they stay the same for all roles and ends.
//!
//! - `Plans`: the play of a plan; the words and the texts are those of `cat_text`.
//! - `Scripts`: the next call, what counts, when a play is over. `Playing`: `Plays`, its rules. `Rules`: those that are
//!   broken.
//! - `Spending`: what the rounds were spent on. `Drilling`: the drill.
//! - `Ends`: the number and the line of each status.
//! - `Running`: the statuses with their causes, and the whole result. `Steps`: what one more turn does to a play.
//!
//! What is written on the links is defined by `sp_links` (`specs/Ways`) and `sp_ends` (`specs/LinkRecords`); example
//! records, each with its verdict, are in `play_rows`.
#![tactic(auto)]

pub mod ends;
pub mod laws;
pub mod status;
