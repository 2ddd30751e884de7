//! What nngcat prints besides messages: help and version on standard output, and on standard error how a run ended
//! (nngcat(1)).
//!
//! `help` has the two texts for standard output. `complaints` has the lines on standard error: the first is the
//! status's own (`complaint` of `cat_play`), the others help the reader and also begin with `nngcat: `. `said` finds the
//! options among words, `spellings` names what replaces an option of NNG's own nngcat, and `addresses` finds where a
//! text stops being an address. Everything is generic over the output.
#![tactic(auto)]

mod addresses;
mod complaints;
mod help;
mod said;
mod spellings;

pub use complaints::{Ending, Part, say, say_left_links, say_no_words, say_start};
pub use help::{HELP, VERSION, asked_text, print_text};
