//! What benchmarks share: the lines of a text that a benchmark plays, the numbers in them, and the timing of calls.
//!
//! A number is a word: `7`, `n` (the size at which the text is played), `16n`, `n/2`, or two of these with `+` or `-`
//! between them. Where calls are repeated it may also be `i` (the number of times that they were made before), `3i`,
//! either of these with `+` and a number, or a number and `-i`.
#![tactic(auto)]

pub mod line;
pub mod number;
pub mod timing;
