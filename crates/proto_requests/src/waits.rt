//! Operations that wait.
//!
//! They are kept in the order of their begins, each at a spot that is empty when it ends, so that none of the others
//! moves; once all spots are used, those that are left are moved together. The slot of an operation's name gives the
//! number of its spot, and the spot is found from that by halving and then checked. So does the context of a receive,
//! and of a send whose request has not ended. The places of the first send and of the first receive are known, and
//! those whose requests have ended are in a queue. All are searched only where two have the same slot, or where two
//! receives or two such sends are of the same context, as those of a raw socket are, or once there was no memory for
//! such a number or for a place in the queue.
ghost use Rattle.std.specs.Prelude.{◌≡◌, ◌≤◌, ◌<◌, ◌+◌, ◌==◌, ◌++◌, ◌∷◌, ◌&&◌, ℕ, Bool, [], Some, None, true, false, not, if◌then◌else◌, find, map, filter, take, length, option_to_list, OnOk, IfSome, IfNone};
ghost use Rattle.std.specs.Vec.{vec_len, vec_capacity};
ghost use Rattle.std.specs.Option.{option_map};
ghost use Rattle.std.specs.List.{position, list_any};
ghost use Rattle.sp_base.specs.declared.OpName.{OpName as Name};
ghost use Rattle.sp_history.specs.Lists.{same_op};
ghost use Rattle.sp_history.specs.Once.{AreDistinct};
ghost use Rattle.proto_requests.specs.Backlogs.{IsIndexed};
ghost use Rattle.proto_requests.specs.Hints.{covers_by, StayCovered};
ghost use Rattle.proto_requests.specs.Numbers.{is_known};
ghost use Rattle.proto_requests.specs.FirstFound.{without_found, with_found, reached};
ghost use Rattle.proto_requests.specs.Spots.{holds, held};
ghost use Rattle.proto_requests.specs.Waits.{is_named, slot_of, isnt, is_open, is_kind, is_kind_on, receives_on, left_on, left_spot, over_name, AreLookedAt, IsOver, IsMark, AreApartOn};

use crate::hints::Hints;
use crate::numbers::Numbers;
use crate::spots::{Spot, close_up, close_up_for, empty, hint, rest, stays};
use sp_base::{Ctx, NoMemory, OpName};
use std::alloc::Global;
use std::marker::Model;

/// An operation that waits (nng_aio(5)).
pub trait Waiter: Drop {
    ghost name_of: { Self → Name };

    ghost context_of: { Self → ℕ };

    ghost is_send: { Self → Bool };

    ghost is_left: { Self → Bool };

    // the operation after its request has ended
    ghost left: { Self → Self };

    // that changes neither its name nor its context, and doesn't make a receive a send
    ghost left_same: { (x : Self) → (name_of (left x) ≡ name_of x) × (context_of (left x) ≡ context_of x) × (is_send (left x) ≡ is_send x) };

    // and changes nothing where the request has already ended
    ghost left_again: { (x : Self) → is_left x ≡ true → left x ≡ x };

    // requests may end
    ghost may_leave: { Bool };

    // and then it is known that they have
    ghost left_is: { (x : Self) → may_leave ≡ true → is_left (left x) ≡ true };

    /// Its name.
    fn op(&self) -> OpName
        ensures { result ≡ name_of self.now };

    /// Its context.
    fn ctx(&self) -> Ctx
        ensures { result ≡ context_of self.now };

    /// Returns whether it is a send.
    fn sends(&self) -> bool
        ensures { result ≡ is_send self.now };

    /// Returns whether its request has ended.
    fn is_over(&self) -> bool
        ensures { result ≡ is_left self.now };

    /// Ends its request.
    fn leave(&mut self)
        ensures { self.new ≡ left self.old };
}

/// Operations that wait (nng_aio(5)).
#[derive(Drop)]
pub struct Waits<T: Waiter> {
    /// The operations, in the order of their begins.
    list: Vec<Spot<T>>,
    /// The number of the next spot.
    next: u64,
    /// The numbers of the spots by their slots.
    by_slot: Numbers,
    /// Whether all slots are known, and no two have the same one.
    slots_known: bool,
    /// The numbers of the receives by their contexts.
    receives: Numbers,
    /// Whether all contexts of receives are known, and no two have the same one.
    receives_known: bool,
    /// The numbers of the sends whose requests have not ended by their contexts.
    opens: Numbers,
    /// Whether all contexts of those are known, and no two have the same one.
    opens_known: bool,
    /// No send is before this spot.
    send_from: usize,
    /// No receive is before this spot.
    receive_from: usize,
    /// Operations, among them all whose requests have ended.
    ended: Hints<OpName>,
}

impl<T: Waiter> Model for Waits<T> {
    ghost use Rattle.std.specs.Prelude.{◌-◌, length};
    ghost use Rattle.std.specs.Vec.{vec_capacity};
    ghost use Rattle.proto_requests.specs.Spots.{held};
    ghost use Rattle.proto_requests.specs.Waits.{WaitsView, AreNoted};

    ghost Value = { WaitsView T };

    ghost view = { λ m. record { items = held m.list.items; room = vec_capacity m.list - length (held m.list.items) } };

    ghost invariant = { λ m. AreNoted T.name_of T.context_of T.is_send T.is_left m.slots_known m.by_slot m.receives_known m.receives m.opens_known m.opens m.send_from m.receive_from m.ended m.list.items };
}

// ---- Spots

// Returns whether it has this name.
fn is_named<T: Waiter>(x: &T, op: OpName) -> bool
    ensures { result ≡ is_named T.name_of op x.now }
{
    let name = x.op();
    name.slot == op.slot && name.generation == op.generation
}

// Returns whether the operation is at this spot.
fn names<T: Waiter>(s: &Spot<T>, op: OpName) -> bool
    ensures { result ≡ holds (is_named T.name_of op) s.now }
{
    match &s.value {
        None => false,
        Some(x) => is_named(x, op),
    }
}

// Returns whether a send is at this spot.
fn sends<T: Waiter>(s: &Spot<T>) -> bool
    ensures { result ≡ holds T.is_send s.now }
{
    match &s.value {
        None => false,
        Some(x) => x.sends(),
    }
}

// Returns whether a receive is at this spot.
fn receives<T: Waiter>(s: &Spot<T>) -> bool
    ensures { result ≡ holds (isnt T.is_send) s.now }
{
    match &s.value {
        None => false,
        Some(x) => !x.sends(),
    }
}

// Returns whether it is a send whose request has not ended, or, where `send` is false, a receive.
fn is_kind<T: Waiter>(x: &T, send: bool) -> bool
    ensures { result ≡ is_kind T.is_send T.is_left send x.now }
{
    if send {
        return is_open(x);
    }
    !x.sends()
}

// Returns whether one of these on the context is at this spot.
fn stands_on<T: Waiter>(s: &Spot<T>, send: bool, c: Ctx) -> bool
    ensures { result ≡ holds (is_kind_on T.is_send T.is_left T.context_of send c) s.now }
{
    match &s.value {
        None => false,
        Some(x) => is_kind(x, send) && x.ctx().0 == c.0,
    }
}

// Returns whether an operation whose request has ended is at this spot.
fn is_over<T: Waiter>(s: &Spot<T>) -> bool
    ensures { result ≡ holds T.is_left s.now }
{
    match &s.value {
        None => false,
        Some(x) => x.is_over(),
    }
}

// The place of the operation.
fn search<T: Waiter>(list: &[Spot<T>], op: OpName) -> Option<usize>
    ensures { result ≡ position (holds (is_named T.name_of op)) list.now }
{
    list.iter().position(|s| names(s, op))
}

// The same, where no two have the same slot. This place is tried first.
fn place_of<T: Waiter>(list: &[Spot<T>], i: usize, op: OpName) -> Option<usize>
    ensures { AreDistinct (map (slot_of T.name_of) (held list.now)) → result ≡ position (holds (is_named T.name_of op)) list.now }
{
    if i < list.len() {
        if names(&list[i], op) {
            return Some(i);
        }
    }
    search(list, op)
}

/// The place of the operation, whose number may be known.
pub fn place_by<T: Waiter>(
    list: &[Spot<T>],
    by_slot: &Numbers,
    known: bool,
    op: OpName,
) -> Option<usize>
    ensures { (known ≡ true → IsIndexed (slot_of T.name_of) (is_known by_slot.now) (held list.now)) → result ≡ position (holds (is_named T.name_of op)) list.now }
{
    if !known {
        return search(list, op);
    }
    match by_slot.get(op.slot) {
        None => None,
        Some(n) => place_of(list, hint(list, n), op),
    }
}

// The place of the first send.
fn send_in<T: Waiter>(list: &[Spot<T>]) -> Option<usize>
    ensures { result ≡ position (holds T.is_send) list.now }
{
    list.iter().position(|s| sends(s))
}

// The same, if none is before this spot.
fn send_from<T: Waiter>(list: &[Spot<T>], from: usize) -> Option<usize>
    requires { from ≤ length list.now }
    ensures { list_any (holds T.is_send) (take from list.now) ≡ false → result ≡ position (holds T.is_send) list.now }
{
    match send_in(rest(list, from)) {
        None => None,
        Some(i) => Some(from + i),
    }
}

// The place of the first receive.
fn receive_in<T: Waiter>(list: &[Spot<T>]) -> Option<usize>
    ensures { result ≡ position (holds (isnt T.is_send)) list.now }
{
    list.iter().position(|s| receives(s))
}

// The same, if none is before this spot.
fn receive_from<T: Waiter>(list: &[Spot<T>], from: usize) -> Option<usize>
    requires { from ≤ length list.now }
    ensures { list_any (holds (isnt T.is_send)) (take from list.now) ≡ false → result ≡ position (holds (isnt T.is_send)) list.now }
{
    match receive_in(rest(list, from)) {
        None => None,
        Some(i) => Some(from + i),
    }
}

// The spot of the first send, or the end, if none is before this spot.
fn send_mark<T: Waiter>(list: &[Spot<T>], from: usize) -> usize
    ensures { IsMark T.is_send from list.now → IsMark T.is_send result list.now }
{
    if from > list.len() {
        return 0;
    }
    reached(send_from(list, from), list.len())
}

// The spot of the first receive, or the end, if none is before this spot.
fn receive_mark<T: Waiter>(list: &[Spot<T>], from: usize) -> usize
    ensures { IsMark (isnt T.is_send) from list.now → IsMark (isnt T.is_send) result list.now }
{
    if from > list.len() {
        return 0;
    }
    reached(receive_from(list, from), list.len())
}

// The place of the first operation whose request has ended.
fn over_in<T: Waiter>(list: &[Spot<T>]) -> Option<usize>
    ensures { result ≡ position (holds T.is_left) list.now }
{
    list.iter().position(|s| is_over(s))
}

/// The name of the operation at this place.
pub fn name_at<T: Waiter>(list: &[Spot<T>], place: Option<usize>) -> Option<OpName>
    ensures { (P : T → Bool) → place ≡ position (holds P) list.now → result ≡ option_map T.name_of (find P (held list.now)) }
{
    match place {
        None => None,
        Some(i) => {
            if i >= list.len() {
                return None;
            }
            match &list[i].value {
                None => None,
                Some(x) => Some(x.op()),
            }
        }
    }
}

// The spot that was found, or the end.
fn reached(place: Option<usize>, end: usize) -> usize
    ensures { result ≡ reached place end }
{
    match place {
        None => end,
        Some(i) => i,
    }
}

// The place of the first of these on the context: sends whose requests have not ended, or receives.
fn search_on<T: Waiter>(list: &[Spot<T>], send: bool, c: Ctx) -> Option<usize>
    ensures { result ≡ position (holds (is_kind_on T.is_send T.is_left T.context_of send c)) list.now }
{
    list.iter().position(|s| stands_on(s, send, c))
}

// The same, where no other is on the context. This place is tried first.
fn place_at<T: Waiter>(list: &[Spot<T>], i: usize, send: bool, c: Ctx) -> Option<usize>
    ensures { AreDistinct (map T.context_of (filter (is_kind T.is_send T.is_left send) (held list.now))) → result ≡ position (holds (is_kind_on T.is_send T.is_left T.context_of send c)) list.now }
{
    if i < list.len() {
        if stands_on(&list[i], send, c) {
            return Some(i);
        }
    }
    search_on(list, send, c)
}

// The same, where its number may be known.
fn place_on<T: Waiter>(
    list: &[Spot<T>],
    numbers: &Numbers,
    known: bool,
    send: bool,
    c: Ctx,
) -> Option<usize>
    ensures { (known ≡ true → IsIndexed T.context_of (is_known numbers.now) (filter (is_kind T.is_send T.is_left send) (held list.now))) → result ≡ position (holds (is_kind_on T.is_send T.is_left T.context_of send c)) list.now }
{
    if !known {
        return search_on(list, send, c);
    }
    match numbers.get(c.0) {
        None => None,
        Some(n) => place_at(list, hint(list, n), send, c),
    }
}

// Returns whether a receive on the context is among them.
fn any_receive<T: Waiter>(list: &[Spot<T>], c: Ctx) -> bool
    ensures { result ≡ list_any (holds (receives_on T.is_send T.context_of c)) list.now }
{
    list.iter().any(|s| stands_on(s, false, c))
}

// Returns whether it is a send whose request has not ended.
fn is_open<T: Waiter>(x: &T) -> bool
    ensures { result ≡ is_open T.is_send T.is_left x.now }
{
    x.sends() && !x.is_over()
}

// Ends the request of the operation at this spot, if it is of the context.
fn leave_spot<T: Waiter>(s: &mut Spot<T>, c: Ctx)
    ensures { s.new ≡ left_spot T.context_of T.left c s.old }
{
    match &mut s.value {
        None => {}
        Some(x) => {
            if c.0 == x.ctx().0 {
                x.leave();
            }
        }
    }
}

// Ends the request of the context.
fn leave_in<T: Waiter>(list: &mut [Spot<T>], c: Ctx)
    ensures { list.new ≡ map (left_spot T.context_of T.left c) list.old }
{
    for s in list.iter_mut() {
        leave_spot(s, c);
    }
}

// Makes the operation at this place looked at.
fn note_at<T: Waiter>(list: &[Spot<T>], place: Option<usize>, ended: &mut Hints<OpName>)
    ensures it { (P : T → Bool) (x : T) → place ≡ position (holds P) list.now → find P (held list.now) ≡ Some x → covers_by ended.new (same_op (T.name_of x)) ≡ true }
    ensures more { StayCovered ended.old ended.new }
{
    match name_at(list, place) {
        None => {}
        Some(op) => ended.add(op),
    }
}

// Ends the request of the operation at this place, if it is of the context.
fn leave_at<T: Waiter>(list: &mut [Spot<T>], place: Option<usize>, c: Ctx)
    ensures { (P : T → Bool) → place ≡ position (holds P) list.old → list.new ≡ with_found (holds P) (left_spot T.context_of T.left c) list.old }
{
    match place {
        None => {}
        Some(i) => {
            if i < list.len() {
                leave_spot(&mut list[i], c);
            }
        }
    }
}

// Ends the request of the context, and makes what waits for it looked at: a send, and then a receive, which are found
// by their numbers, if these are known.
fn leave<T: Waiter>(
    list: &mut [Spot<T>],
    receives: &Numbers,
    opens: &Numbers,
    known: bool,
    ended: &mut Hints<OpName>,
    c: Ctx,
)
    ensures list { (known ≡ true → AreApartOn T.context_of T.is_send T.is_left receives.now opens.now list.old) → list.new ≡ map (left_spot T.context_of T.left c) list.old }
    ensures ended { (known ≡ true → AreApartOn T.context_of T.is_send T.is_left receives.now opens.now list.old) → AreLookedAt T.name_of T.is_left ended.old list.old → AreLookedAt T.name_of T.is_left ended.new list.new }
{
    if !known {
        leave_in(list, c);
        ended.give_up();
        return;
    }
    let receive = place_on(list, receives, true, false, c);
    let send = place_on(list, opens, true, true, c);
    note_at(list, send, ended);
    note_at(list, receive, ended);
    leave_at(list, receive, c);
    leave_at(list, send, c);
}

// The name of the operation at this place, if its request has ended.
fn over_at<T: Waiter>(list: &[Spot<T>], place: Option<usize>) -> Option<OpName>
    ensures { (P : T → Bool) → place ≡ position (holds P) list.now → result ≡ over_name T.name_of T.is_left (find P (held list.now)) }
{
    match place {
        None => None,
        Some(i) => {
            if i >= list.len() {
                return None;
            }
            match &list[i].value {
                None => None,
                Some(x) => { if x.is_over() { Some(x.op()) } else { None } }
            }
        }
    }
}

// An operation whose request has ended, of those that are looked at. Those before it are no longer looked at.
fn next_over<T: Waiter>(
    ended: &mut Hints<OpName>,
    list: &[Spot<T>],
    by_slot: &Numbers,
) -> Option<OpName>
    requires { IsIndexed (slot_of T.name_of) (is_known by_slot.now) (held list.now) }
    ensures ended { AreLookedAt T.name_of T.is_left ended.old list.now → AreLookedAt T.name_of T.is_left ended.new list.now }
    ensures over { IfSome result (λ op. IsOver T.name_of T.is_left (held list.now) op) }
    ensures none { AreLookedAt T.name_of T.is_left ended.old list.now → ended.old.whole ≡ true → IfNone result (list_any T.is_left (held list.now) ≡ false) }
{
    while let Some(op) = ended.first() {
        match over_at(list, place_by(list, by_slot, true, op)) {
            Some(found) => return Some(found),
            None => ended.drop_first(),
        }
    }
    None
}

/// Makes a spot for one more, for which there is room, and returns whether the others moved.
pub fn make_spot<T: Waiter>(list: &mut Vec<Spot<T>>) -> bool
    requires { length (held list.old.items) < vec_capacity list.old }
    ensures held { held list.new.items ≡ held list.old.items }
    ensures same { result ≡ false → list.new.items ≡ list.old.items }
    ensures spot { vec_len list.new < vec_capacity list.new }
    ensures capacity { vec_capacity list.new ≡ vec_capacity list.old }
{
    if list.len() < list.capacity() {
        return false;
    }
    close_up(list);
    true
}

// ---- Numbers

/// Returns whether all numbers are known, if they were, including this one. False where one is already known for the
/// same key.
pub fn know(all: bool, numbers: &mut Numbers, k: u32, n: u64) -> bool
    ensures all { result ≡ true → all ≡ true }
    ensures more { result ≡ true → (is_known numbers.old k ≡ false) × ((q : ℕ) → is_known numbers.new q ≡ (if k == q then true else is_known numbers.old q)) }
{
    if !all {
        return false;
    }
    if numbers.has(k) {
        return false;
    }
    match numbers.put(k, n) {
        Err(_) => false,
        Ok(()) => true,
    }
}

// The same, if it is one of these.
fn know_if(all: bool, numbers: &mut Numbers, is_one: bool, c: Ctx, n: u64) -> bool
    ensures all { result ≡ true → all ≡ true }
    ensures same { is_one ≡ false → numbers.new ≡ numbers.old }
    ensures more { result ≡ true → is_one ≡ true → (is_known numbers.old c ≡ false) × ((q : ℕ) → is_known numbers.new q ≡ (if c == q then true else is_known numbers.old q)) }
{
    if !is_one {
        return all;
    }
    know(all, numbers, c.0, n)
}

// Makes the operation looked at, if its request has ended.
fn note_if(ended: &mut Hints<OpName>, is_over: bool, op: OpName)
    ensures it { is_over ≡ true → covers_by ended.new (same_op op) ≡ true }
    ensures more { StayCovered ended.old ended.new }
{
    if is_over {
        ended.add(op);
    }
}

// Returns whether both are known.
fn both(receives: bool, opens: bool) -> bool
    ensures { result ≡ (receives && opens) }
{
    receives && opens
}

/// Removes the number for `k`.
pub fn lose(numbers: &mut Numbers, k: u32)
    ensures { (q : ℕ) → is_known numbers.new q ≡ (if k == q then false else is_known numbers.old q) }
{
    numbers.remove(k);
}

// The same, if it is one of these.
fn lose_if(numbers: &mut Numbers, is_one: bool, c: Ctx)
    ensures { (q : ℕ) → is_known numbers.new q ≡ (if is_one then (if c == q then false else is_known numbers.old q) else is_known numbers.old q) }
{
    if is_one {
        lose(numbers, c.0);
    }
}

// Makes room for the numbers of `more` more operations.
fn make_room(
    by_slot: &mut Numbers,
    receives: &mut Numbers,
    opens: &mut Numbers,
    ended: &mut Hints<OpName>,
    more: usize,
) -> Result<(), NoMemory>
    ensures slot { (q : ℕ) → is_known by_slot.new q ≡ is_known by_slot.old q }
    ensures receive { (q : ℕ) → is_known receives.new q ≡ is_known receives.old q }
    ensures open { (q : ℕ) → is_known opens.new q ≡ is_known opens.old q }
    ensures ended { ended.new ≡ ended.old }
{
    by_slot.reserve(more)?;
    receives.reserve(more)?;
    opens.reserve(more)?;
    ended.reserve(more)
}

impl<T: Waiter> Waits<T> {
    /// No operations, and no room for any.
    pub fn new(alloc: Global) -> Waits<T>
        ensures { result.items ≡ [] }
    {
        Waits {
            list: Vec::new(alloc),
            next: 0,
            by_slot: Numbers::new(alloc),
            slots_known: true,
            receives: Numbers::new(alloc),
            receives_known: true,
            opens: Numbers::new(alloc),
            opens_known: true,
            send_from: 0,
            receive_from: 0,
            ended: Hints::new(alloc),
        }
    }

    /// All spots from one on before which there is no receive.
    pub fn receives(&self) -> &[Spot<T>]
        ensures { (P : T → Bool) → ((x : T) → P x ≡ true → isnt T.is_send x ≡ true) → find P (held result.now) ≡ find P self.now.items }
    {
        rest(&self.list, self.receive_from)
    }

    /// The first send.
    pub fn first_send(&self) -> Option<OpName>
        ensures { result ≡ option_map T.name_of (find T.is_send self.now.items) }
    {
        name_at(&self.list, send_from(&self.list, self.send_from))
    }

    /// The first receive.
    pub fn first_receive(&self) -> Option<OpName>
        ensures { result ≡ option_map T.name_of (find (isnt T.is_send) self.now.items) }
    {
        name_at(&self.list, receive_from(&self.list, self.receive_from))
    }

    /// The first receive on the context.
    pub fn receive_on(&self, c: Ctx) -> Option<OpName>
        ensures { result ≡ option_map T.name_of (find (receives_on T.is_send T.context_of c) self.now.items) }
    {
        name_at(
            &self.list,
            place_on(&self.list, &self.receives, self.receives_known, false, c),
        )
    }

    /// An operation whose request has ended.
    pub fn first_left(&mut self) -> Option<OpName>
        ensures same { self.new ≡ self.old }
        ensures over { IfSome result (λ op. IsOver T.name_of T.is_left self.old.items op) }
        ensures none { IfNone result (list_any T.is_left self.old.items ≡ false) }
    {
        if !self.slots_known {
            return self.search_left();
        }
        if !self.ended.is_whole() {
            return self.search_left();
        }
        next_over(&mut self.ended, &self.list, &self.by_slot)
    }

    // The same, found by a search of all.
    fn search_left(&mut self) -> Option<OpName>
        ensures same { self.new ≡ self.old }
        ensures over { IfSome result (λ op. IsOver T.name_of T.is_left self.old.items op) }
        ensures none { IfNone result (list_any T.is_left self.old.items ≡ false) }
    {
        match name_at(&self.list, over_in(&self.list)) {
            None => {
                self.ended.clear();
                None
            }
            Some(op) => Some(op),
        }
    }

    /// Returns whether a receive of the context waits.
    pub fn is_receiving(&self, c: Ctx) -> bool
        ensures { result ≡ list_any (receives_on T.is_send T.context_of c) self.now.items }
    {
        if self.receives_known {
            return self.receives.has(c.0);
        }
        any_receive(&self.list, c)
    }

    /// The number of spots, at least that of the operations that wait.
    pub fn spots(&self) -> usize
        ensures { length self.now.items ≤ result }
    {
        self.list.len()
    }

    /// Makes room for `more` more operations.
    pub fn reserve(&mut self, more: u32) -> Result<(), NoMemory>
        ensures same { self.new.items ≡ self.old.items }
        ensures room { OnOk result (more ≤ self.new.room) }
        ensures kept { self.old.room ≤ self.new.room }
    {
        let more = more as usize;
        let moved = close_up_for(&mut self.list, more + more);
        self.send_from = stays(moved, self.send_from);
        self.receive_from = stays(moved, self.receive_from);
        match self.list.reserve(more + more) {
            Ok(()) => make_room(
                &mut self.by_slot,
                &mut self.receives,
                &mut self.opens,
                &mut self.ended,
                more,
            ),
            Err(_) => Err(NoMemory),
        }
    }

    /// Adds an operation, as the last one.
    pub fn push(&mut self, x: T)
        requires { 0 < self.old.room }
        ensures items { self.new.items ≡ self.old.items ++ x ∷ [] }
        ensures room { self.new.room + 1 ≡ self.old.room }
    {
        let name = x.op();
        let sends = x.sends();
        let open = is_open(&x);
        let is_over = x.is_over();
        let c = x.ctx();
        let n = self.next;
        self.next = n.wrapping_add(1);
        let moved = make_spot(&mut self.list);
        self.list.push_reserved(Spot {
            number: n,
            value: Some(x),
        });
        self.send_from = send_mark(&self.list, stays(moved, self.send_from));
        self.receive_from = receive_mark(&self.list, stays(moved, self.receive_from));
        self.slots_known = know(self.slots_known, &mut self.by_slot, name.slot, n);
        self.receives_known = know_if(self.receives_known, &mut self.receives, !sends, c, n);
        self.opens_known = know_if(self.opens_known, &mut self.opens, open, c, n);
        note_if(&mut self.ended, is_over, name);
    }

    /// Takes the operation out.
    pub fn take(&mut self, op: OpName) -> Option<T>
        ensures found { result ≡ find (is_named T.name_of op) self.old.items }
        ensures rest { self.new.items ≡ without_found (is_named T.name_of op) self.old.items }
        ensures len { length self.new.items + length (option_to_list result) ≡ length self.old.items }
        ensures room { self.new.room ≡ self.old.room + length (option_to_list result) }
    {
        match place_by(&self.list, &self.by_slot, self.slots_known, op) {
            None => None,
            Some(i) => match empty(&mut self.list, i) {
                None => None,
                Some(x) => {
                    let c = x.ctx();
                    let sends = x.sends();
                    let open = is_open(&x);
                    lose(&mut self.by_slot, op.slot);
                    lose_if(&mut self.receives, !sends, c);
                    lose_if(&mut self.opens, open, c);
                    self.send_from = send_mark(&self.list, self.send_from);
                    self.receive_from = receive_mark(&self.list, self.receive_from);
                    Some(x)
                }
            },
        }
    }

    /// Ends the request of the context.
    pub fn leave_on(&mut self, c: Ctx)
        requires { T.may_leave ≡ true }
        ensures items { self.new.items ≡ map (left_on T.context_of T.left c) self.old.items }
        ensures room { self.new.room ≡ self.old.room }
    {
        leave(
            &mut self.list,
            &self.receives,
            &self.opens,
            both(self.receives_known, self.opens_known),
            &mut self.ended,
            c,
        );
        lose(&mut self.opens, c.0);
    }
}
