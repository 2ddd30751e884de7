//! Deadlines of operations in both forms, and lists of their names.
ghost use Rattle.std.specs.Prelude.{ℕ, ◌≡◌, ◌<◌, ◌≤◌};
ghost use Rattle.aio_expire.specs.Buckets.{IsListed};

use crate::checks::made;
use crate::plays::{PlayedLine, Playing, plays};
use aio_expire::{BUCKETS, Deadlines, Due, ListDeadlines, NameList, Wheel};
use sp_base::{NoMemory, OpName, Tick};
use std::alloc::Global;
use std::process::Abort;
use std::sync::Wait;

// The form of deadlines that a text is played on.
trait Kept: Due {
    // The wheel that they are kept in, if it is one.
    fn wheel(&self) -> Option<&Wheel>;
}

impl Kept for Deadlines {
    fn wheel(&self) -> Option<&Wheel> {
        Some(Deadlines::wheel(self))
    }
}

impl Kept for ListDeadlines {
    fn wheel(&self) -> Option<&Wheel> {
        None
    }
}

// Deadlines of some slots, and a list of those that were due. An operation is written as its slot; its generation is 1.
//
// | call | words |
// |---|---|
// | the operation has a deadline at this moment | `put 2 10` |
// | the same for the slot's operation of generation 2 | `again 2 10` |
// | each slot has a deadline, the last one at this moment, each other this much later than the next | `falling 10 3` |
// | the slot's deadline is removed, and whether it had one | `remove 2 true` |
// | what is due at this moment is added to the list | `due 10` |
// | the names on the list, how many there are, and how many more it holds | `are []`, `count 0`, `spare 3` |
// | they are of all slots, from the last one down | `are_all` |
// | the list is emptied | `clear` |
// | the slots in this list of the wheel, if it is one, by number | `list 512 [2, 3]` |
#[derive(Drop)]
struct Schedule<D: Kept> {
    deadlines: D,
    names: NameList,
    slots: u32,
    ghost fits: { (D.schedule deadlines).slots ≡ slots },
}

impl<D: Kept> Playing for Schedule<D> {
    fn is_right<R: Wait>(&mut self, _rt: &R, alloc: Global, line: &mut PlayedLine<'_>) -> bool {
        match line.word() {
            "put" => self.puts(line.small(), 1, line.number()),
            "again" => self.puts(line.small(), 2, line.number()),
            "falling" => self.puts_all(line.number(), line.small()),
            "remove" => {
                let slot = line.small();
                line.says(alloc, self.deadlines.remove(slot))
            }
            "due" => self.is_due(line.number()),
            "are" => line.says(alloc, self.names.as_slice()),
            "are_all" => self.are_all(),
            "count" => line.says(alloc, self.names.as_slice().len()),
            "spare" => line.says(alloc, self.names.spare()),
            "clear" => {
                self.names.clear();
                true
            }
            "list" => self.has_list(alloc, line.small(), line),
            _ => false,
        }
    }
}

impl<D: Kept> Schedule<D> {
    // Gives the operation a deadline, and returns whether its slot had none.
    fn puts(&mut self, slot: u32, generation: u64, at: u64) -> bool {
        if slot >= self.slots || self.deadlines.remove(slot) {
            return false;
        }
        self.deadlines.put(OpName { slot, generation }, Tick(at));
        true
    }

    // Gives each slot a deadline, the last one at this moment and each other `step` later than the next.
    fn puts_all(&mut self, at: u64, step: u32) -> bool {
        let slots = self.slots;
        for behind in 0..slots {
            let later = u64::from(behind) * u64::from(step);
            if !self.puts(slots - 1 - behind, 1, at.saturating_add(later)) {
                return false;
            }
        }
        true
    }

    // Adds what is due to the list, and returns whether the list had room for all.
    fn is_due(&mut self, now: u64) -> bool {
        if self.names.spare() < self.slots as usize {
            return false;
        }
        self.deadlines.due(Tick(now), &mut self.names);
        true
    }

    // Returns whether all slots are named, from the last one down.
    fn are_all(&self) -> bool {
        let slots = self.names.as_slice().iter().map(|op| op.slot);
        slots.eq((0..self.slots).rev())
    }

    // Returns whether this list of the wheel has the slots that the line says.
    fn has_list(&self, alloc: Global, bucket: u32, line: &mut PlayedLine<'_>) -> bool {
        if bucket >= BUCKETS {
            return false;
        }
        match self.deadlines.wheel() {
            Some(wheel) => match slots_of(alloc, wheel, bucket) {
                Ok(slots) => line.says(alloc, slots),
                Err(_) => false,
            },
            None => !line.rest().is_empty(),
        }
    }
}

// The slots of one list of a wheel, by number.
fn slots_of(alloc: Global, wheel: &Wheel, bucket: u32) -> Result<Vec<u32>, NoMemory>
    requires { bucket < 513 }
{
    let mut slots = Vec::new(alloc);
    let mut at = wheel.first(bucket);
    for _ in 0..4_096 {
        let Some(slot) = at else {
            break;
        };
        slots.push(slot)?;
        at = wheel.next(slot);
    }
    slots.sort()?;
    Ok(slots)
}

// Plays the text on both forms of deadlines of `slots` slots, each with a list for `room` names.
fn deadlines_play<R: Wait + Abort>(rt: &R, alloc: Global, slots: u32, room: u32, text: &str)
    requires { (0 < slots) × (slots ≤ 4096) }
{
    let mut in_wheel = Schedule {
        deadlines: made(rt, Deadlines::new(alloc, slots)),
        names: made(rt, NameList::with_room(alloc, room)),
        slots,
    };
    plays(rt, alloc, &mut in_wheel, text);
    let mut in_list = Schedule {
        deadlines: made(rt, ListDeadlines::new(alloc, slots)),
        names: made(rt, NameList::with_room(alloc, room)),
        slots,
    };
    plays(rt, alloc, &mut in_list, text);
}

#[test]
fn a_wheel_turns_over_any_jump(rt: HostRuntime) {
    let text = "
        put 0 5
        put 1 300
        put 2 70000
        put 3 18446744073709551615
        list 5 [0]
        list 257 [1]
        list 512 [2, 3]
        due 4
        are []
        due 299
        are [OpName { slot: 0, generation: 1 }]
        list 44 [1]
        clear
        due 65536
        are [OpName { slot: 1, generation: 1 }]
        list 44 []
        list 273 [2]
        clear
        due 70000
        are [OpName { slot: 2, generation: 1 }]
        again 0 3
        list 112 [0]
        clear
        due 70000
        are [OpName { slot: 0, generation: 2 }]
        list 512 [3]
        clear
        due 18446744073709551615
        are [OpName { slot: 3, generation: 1 }]
        list 512 []
    ";
    deadlines_play(&rt, rt.alloc(), 4, 4, text);
}

#[test]
fn a_moment_below_an_earlier_one_takes_only_what_is_due_then(rt: HostRuntime) {
    let text = "
        due 1000
        put 0 10
        put 1 700
        put 2 1000
        put 3 1001
        list 232 [0, 1, 2]
        list 233 [3]
        due 9
        are []
        due 10
        are [OpName { slot: 0, generation: 1 }]
        list 232 [1, 2]
        due 999
        are [OpName { slot: 0, generation: 1 }, OpName { slot: 1, generation: 1 }]
        due 0
        count 2
        due 1000
        count 3
        list 232 []
        list 233 [3]
    ";
    deadlines_play(&rt, rt.alloc(), 4, 8, text);
}

#[test]
fn one_moment_names_every_slot(rt: HostRuntime) {
    let text = "
        falling 87715 3
        due 87714
        count 0
        due 87715
        count 1
        again 4095 80000
        clear
        due 100000
        are_all
        count 4096
        spare 4096
        clear
        falling 18446744073709500000 1
        due 18446744073709551615
        are_all
    ";
    deadlines_play(&rt, rt.alloc(), 4_096, 8_192, text);
}

#[test]
fn deadlines_come_by_time_then_slot(rt: HostRuntime) {
    let text = "
        put 2 10
        put 0 10
        put 1 9
        due 9
        are [OpName { slot: 1, generation: 1 }]
        due 10
        are [OpName { slot: 1, generation: 1 }, OpName { slot: 0, generation: 1 }, OpName { slot: 2, generation: 1 }]
        due 10
        count 3
        remove 3 false
    ";
    deadlines_play(&rt, rt.alloc(), 4, 12, text);
}

#[test]
fn the_first_and_the_last_moment(rt: HostRuntime) {
    let text = "
        put 0 18446744073709551615
        put 1 0
        due 0
        are [OpName { slot: 1, generation: 1 }]
        due 18446744073709551615
        are [OpName { slot: 1, generation: 1 }, OpName { slot: 0, generation: 1 }]
    ";
    deadlines_play(&rt, rt.alloc(), 2, 4, text);
}

#[test]
fn a_slot_has_a_deadline_again(rt: HostRuntime) {
    let text = "
        put 0 5
        remove 0 true
        remove 0 false
        put 0 7
        due 6
        are []
        due 7
        are [OpName { slot: 0, generation: 1 }]
        clear
        put 0 3
        due 4
        are [OpName { slot: 0, generation: 1 }]
    ";
    deadlines_play(&rt, rt.alloc(), 1, 1, text);
}

#[test]
fn one_is_taken_from_among_others(rt: HostRuntime) {
    let text = "
        put 0 8
        put 1 8
        put 2 8
        remove 3 false
        remove 4 false
        remove 1 true
        remove 1 false
        put 1 2
        remove 2 true
        due 18446744073709551615
        are [OpName { slot: 1, generation: 1 }, OpName { slot: 0, generation: 1 }]
    ";
    deadlines_play(&rt, rt.alloc(), 4, 4, text);
}

fn is_send<T: Send>() {}

#[test]
fn deadlines_and_lists_go_to_other_threads() {
    is_send::<Deadlines>();
    is_send::<ListDeadlines>();
    is_send::<NameList>();
}

#[test]
fn a_list_says_how_much_more_it_holds(rt: HostRuntime) {
    let text = "
        put 0 1
        due 1
        spare 2
        clear
        spare 3
    ";
    deadlines_play(&rt, rt.alloc(), 2, 3, text);
}
