//! The number of links in their greetings, for each listener.
ghost use Rattle.std.specs.Prelude.{◌≡◌, ◌≤◌, ◌<◌, ◌+◌, ◌-◌, ◌^◌, ℕ, length, Some, get_or};
ghost use Rattle.sp_ends.specs.Listening.{one_from};

// Adds 1 to the count at this place of the list, if there is one.
pub(crate) fn one_more(counts: &mut Vec<usize>, at: Option<usize>)
    requires small { (i : ℕ) → i < length counts.old.items → get_or counts.old.items i 0 < 2 ^ 64 - 1 }
    ensures length { length counts.new.items ≡ length counts.old.items }
    ensures counts { (i : ℕ) → i < length counts.old.items → get_or counts.new.items i 0 ≡ get_or counts.old.items i 0 + one_from i at }
{
    let Some(i) = at else {
        return;
    };
    if i < counts.len() {
        counts[i] += 1;
    }
}

// Subtracts 1 from it.
pub(crate) fn one_less(counts: &mut Vec<usize>, at: Option<usize>)
    requires some { (i : ℕ) → i < length counts.old.items → one_from i at ≤ get_or counts.old.items i 0 }
    ensures length { length counts.new.items ≡ length counts.old.items }
    ensures counts { (i : ℕ) → i < length counts.old.items → get_or counts.old.items i 0 ≡ get_or counts.new.items i 0 + one_from i at }
{
    let Some(i) = at else {
        return;
    };
    if i < counts.len() {
        counts[i] -= 1;
    }
}
