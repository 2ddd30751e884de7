//! Spots in a row, each with an element or empty.
//!
//! An element that is taken out leaves its spot empty, so that none of the others moves. Each spot has a number; the
//! numbers rise along the row. So a spot is found from its number by halving, even where empty spots before it were
//! removed.
ghost use Rattle.std.specs.Prelude.{◌≡◌, ◌≤◌, ◌<◌, ◌+◌, ℕ, Bool, Some, true, false, find, length, take, drop};
ghost use Rattle.std.specs.Vec.{vec_len, vec_capacity};
ghost use Rattle.std.specs.List.{list_any, position};
ghost use Rattle.proto_requests.specs.FirstFound.{without_found};
ghost use Rattle.proto_requests.specs.Spots.{holds, held, stays};

/// A spot of a row: its number, and an element or none.
#[derive(Drop)]
pub struct Spot<T> {
    /// Its number.
    pub number: u64,
    /// The element at the spot.
    pub value: Option<T>,
}

/// The place where the spot of this number should be.
pub fn hint<T>(list: &[Spot<T>], n: u64) -> usize {
    list.partition_point(|s| s.number < n)
}

/// All from this spot on.
pub fn rest<T>(list: &[Spot<T>], from: usize) -> &[Spot<T>]
    requires { from ≤ length list.now }
    ensures { result.now ≡ drop from list.now }
{
    &list[from..]
}

/// Removes the empty spots.
pub fn close_up<T: Drop>(list: &mut Vec<Spot<T>>)
    ensures held { held list.new.items ≡ held list.old.items }
    ensures len { vec_len list.new ≡ length (held list.old.items) }
    ensures capacity { vec_capacity list.new ≡ vec_capacity list.old }
{
    list.retain(|s| s.value.is_some());
}

/// Takes out what is there.
pub fn empty<T>(list: &mut [Spot<T>], i: usize) -> Option<T>
    requires { i < length list.old }
    ensures found { (P : T → Bool) → position (holds P) list.old ≡ Some i → result ≡ find P (held list.old) }
    ensures rest { (P : T → Bool) → position (holds P) list.old ≡ Some i → held list.new ≡ without_found P (held list.old) }
    ensures none { (P : T → Bool) (n : ℕ) → list_any (holds P) (take n list.old) ≡ false → list_any (holds P) (take n list.new) ≡ false }
    ensures len { length list.new ≡ length list.old }
{
    list[i].value.take()
}

/// Removes the empty spots, unless there is room for `more` more. Returns whether the others moved.
pub fn close_up_for<T: Drop>(list: &mut Vec<Spot<T>>, more: usize) -> bool
    ensures held { held list.new.items ≡ held list.old.items }
    ensures same { result ≡ false → (list.new.items ≡ list.old.items) × (vec_len list.new + more ≤ vec_capacity list.new) }
    ensures closed { result ≡ true → vec_len list.new ≡ length (held list.old.items) }
    ensures capacity { vec_capacity list.new ≡ vec_capacity list.old }
{
    if more <= list.capacity() - list.len() {
        return false;
    }
    close_up(list);
    true
}

/// Where half of the spots are empty, removes those. Returns whether the others moved.
pub fn close_up_sparse<T: Drop>(list: &mut Vec<Spot<T>>, standing: usize) -> bool
    ensures held { held list.new.items ≡ held list.old.items }
    ensures same { result ≡ false → list.new.items ≡ list.old.items }
    ensures capacity { vec_capacity list.new ≡ vec_capacity list.old }
{
    if standing > list.len() / 2 {
        return false;
    }
    close_up(list);
    true
}

/// The same, where no room is left.
pub fn close_up_half<T: Drop>(list: &mut Vec<Spot<T>>, standing: usize) -> bool
    ensures held { held list.new.items ≡ held list.old.items }
    ensures same { result ≡ false → list.new.items ≡ list.old.items }
{
    if list.len() < list.capacity() {
        return false;
    }
    close_up_sparse(list, standing)
}

/// The mark, if nothing moved.
pub fn stays(moved: bool, from: usize) -> usize
    ensures { result ≡ stays moved from }
{
    if moved { 0 } else { from }
}
