//! What the main caller puts in the lane.
ghost use Rattle.std.specs.Prelude.{◌≡◌, ◌<◌, ◌≤◌, ◌+◌, ◌%◌, ◌^◌};
ghost use Rattle.cat_drill.specs.DrillWires.{IsSource};

use sp_base::{NoMemory, next_value};
use sp_lane::{LaneIn, Put};
use sp_msg::Message;
use std::alloc::Global;
use std::sync::Wait;

/// The maximum number of messages that are put in one round.
const MOST: u32 = 64;

/// The end at which messages are put, and what was put there.
#[derive(Drop)]
pub struct DrillSource {
    pub lane: LaneIn,
    /// The last value that was put, 0 before the first.
    pub value: u64,
    /// The sum of the values, modulo 2^64.
    pub total: u64,
    /// The number of values.
    pub count: u32,
}

// The sum of both, modulo 2^64.
fn added(total: u64, value: u64) -> u64
    ensures { result ≡ (total + value) % 2 ^ 64 }
{
    total.wrapping_add(value)
}

impl DrillSource {
    // Puts the next value, if the lane isn't full. Returns whether it was put.
    fn put_one<R: Wait>(&mut self, rt: &R, alloc: Global) -> Result<bool, NoMemory>
        requires source { IsSource self.old }
        requires few { self.old.count < 1000000 }
        ensures source { IsSource self.new }
        ensures name { self.new.lane.name ≡ self.old.lane.name }
    {
        let value = next_value(self.value);
        let total = added(self.total, value);
        let m = Message::from_body(alloc, &value.to_be_bytes())?;
        match self.lane.put(rt, m) {
            Put::Full(_) => Ok(false),
            Put::Done => {
                self.value = value;
                self.total = total;
                self.count += 1;
                Ok(true)
            }
        }
    }

    // Puts at most 64 more values, and at most `count` in all.
    fn put_some<R: Wait>(&mut self, rt: &R, alloc: Global, count: u32) -> Result<(), NoMemory>
        requires source { IsSource self.old }
        requires count { count ≤ 1000000 }
        ensures source { IsSource self.new }
        ensures name { self.new.lane.name ≡ self.old.lane.name }
    {
        for _ in 0..MOST {
            if self.count >= count || !self.put_one(rt, alloc)? {
                return Ok(());
            }
        }
        Ok(())
    }

    /// Puts the values of one round. Returns how many were put, or `None` where all are put or there was no memory.
    pub fn put_next<R: Wait>(&mut self, rt: &R, alloc: Global, count: u32) -> Option<u32>
        requires source { IsSource self.old }
        requires count { count ≤ 1000000 }
        ensures source { IsSource self.new }
        ensures name { self.new.lane.name ≡ self.old.lane.name }
    {
        let before = self.count;
        if before >= count || self.put_some(rt, alloc, count).is_err() {
            return None;
        }
        Some(self.count.saturating_sub(before))
    }
}
