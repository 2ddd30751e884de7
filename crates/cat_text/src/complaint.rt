//! The line about a wrong word.
ghost use Rattle.std.specs.Prelude.{◌≡◌, ◌++◌, ◌∷◌, [], OnOk, OnErr, ℕ, List};
ghost use Rattle.cat_text.specs.Naming.{naming, naming_line, IsQuiet, IsBytes};

use crate::plan::Format;
use crate::printing::print;
use sp_base::{Bytes, NoMemory};
use std::alloc::Global;

/// Appends the line that names a wrong word to `out`. The word is in it as the format Quoted prints it, so only visible
/// bytes reach a terminal. Fails only when out of memory, and then a part of it may have been appended.
pub fn name_word(alloc: Global, word: &str, out: &mut Bytes) -> Result<(), NoMemory>
    ensures { OnOk result (out.new ≡ out.old ++ naming word.now) }
{
    out.append(b"nngcat: see nngcat --help; can't go on with ")?;
    print(alloc, Format::Quoted, word.as_bytes(), out)
}

/// The line that names a word has no control byte except the line feed at its end, for any word.
pub fn names_quietly()
    ensures line { (word : List ℕ) → naming word ≡ naming_line word ++ 10 ∷ [] }
    ensures quiet { (word : List ℕ) → IsBytes word → IsQuiet (naming_line word) }
{}
