//! Sockets over lanes within the process.
ghost use Rattle.std.specs.Prelude.{◌≡◌, ◌≤◌, []};

use crate::checks::is_right;
use crate::machines::{pull, push};
use crate::marks::{ThreadMarks, unmarked};
use crate::plays::wrong_line;
use crate::wires::UnusedWires;
use sp_lane::{LaneIn, LaneOut, LaneWire, Put, PutEnd, lane};
use sp_msg::{Message, Room, Wire, WireFlush, WireIn};
use std::alloc::Global;
use std::process::Abort;
use std::sync::Wait;
use std::thread::Threads;

/// A lane of `cap` items. Aborts when out of memory.
pub fn lane_of(rt: &impl Abort, alloc: Global, cap: u32) -> (LaneIn, LaneOut)
    requires least { 1 ≤ cap }
    requires most { cap ≤ 8192 }
    ensures { result.0.put ≡ [] }
{
    match lane(alloc, cap) {
        Ok(ends) => ends,
        Err(_) => panic!(rt; "no memory for a lane"),
    }
}

// Puts a message with this body.
fn put<R: Wait + Abort>(rt: &R, alloc: Global, input: &mut LaneIn, body: &[u8]) {
    let Ok(m) = Message::from_body(alloc, body) else {
        panic!(rt; "no memory for a message")
    };
    if input.is_ended() || !matches!(input.put(rt, m), Put::Done) {
        panic!(rt; "no room in the lane")
    }
}

// Puts the end mark.
fn put_end<R: Wait + Abort>(rt: &R, input: &mut LaneIn) {
    if input.is_ended() || !matches!(input.put_end(rt), PutEnd::Done) {
        panic!(rt; "no room in the lane")
    }
}

// A wire over lanes. If it has the other end of the lane that it puts into, it makes room by itself once it was full
// three times.
#[derive(Drop)]
struct LateWire {
    wire: LaneWire,
    // The other end of the lane that it puts into, where the wire has it.
    other: Option<LaneOut>,
    // The number of times that it was full.
    fulls: u32,
}

impl LateWire {
    // Notes that it was full. The third time, takes a message at the other end.
    fn was_full<R: Wait>(&mut self, rt: &R)
        ensures { self.new.wire ≡ self.old.wire }
    {
        self.fulls = self.fulls.saturating_add(1);
        if self.fulls == 3
            && let Some(other) = &mut self.other
        {
            other.take(rt);
        }
    }
}

impl Wire for LateWire {
    ghost shown = { λ w. w.wire.wire };

    fn pull<R: Wait>(&mut self, rt: &R) -> WireIn {
        self.wire.pull(rt)
    }

    fn room<R: Wait>(&mut self, rt: &R) -> Room {
        let returned = self.wire.room(rt);
        if returned == Room::Full {
            self.was_full(rt);
        }
        returned
    }

    fn put<R: Wait>(&mut self, rt: &R, m: Message) {
        self.wire.put(rt, m)
    }

    fn flush<R: Wait>(&mut self, rt: &R) -> WireFlush {
        self.wire.flush(rt)
    }

    fn taken(&self) -> u64 {
        self.wire.taken()
    }

    fn shut(&mut self) {
        self.wire.shut()
    }
}

// A wire that puts into one lane and takes from the other.
fn over(
    rt: &impl Abort,
    alloc: Global,
    out: LaneIn,
    inp: LaneOut,
    other: Option<LaneOut>,
) -> UnusedWires<LateWire>
    requires { out.put ≡ [] }
{
    let mut wires = UnusedWires::new(alloc);
    let wire = LateWire {
        wire: LaneWire::new(out, inp),
        other,
        fulls: 0,
    };
    wires.add(rt, wire);
    wires
}

// Plays the text on a pull over such a wire.
fn pull_plays<R: Wait + Abort + Threads + Sync>(
    rt: &R,
    alloc: Global,
    wires: UnusedWires<LateWire>,
    marks: &ThreadMarks,
    play: &str,
) {
    let wrong = wrong_line(rt, alloc, pull(rt, alloc), "2 1", wires, None, marks, play);
    is_right(rt, wrong)
}

// Plays the text on a push over such a wire, with the other end of its lane.
fn push_plays<R: Wait + Abort + Threads + Sync>(
    rt: &R,
    alloc: Global,
    wires: UnusedWires<LateWire>,
    lane: Option<LaneOut>,
    marks: &ThreadMarks,
    play: &str,
) {
    let wrong = wrong_line(rt, alloc, push(rt, alloc), "4 1", wires, lane, marks, play);
    is_right(rt, wrong)
}

// Frames come in the order in which they were put, and the pipe ends after them.
#[test]
fn a_lane_gives_its_frames_in_order(rt: HostRuntime) {
    let play = "
        takes 1
        1 attaches 1
        1 receives 0 0.1
        1 serves yes
        1 collects received 'a
        1 receives 0 0.2
        1 serves yes
        1 collects received 'b
        1 serves no
        1 down 1 ended
        1 gives_back 2 2 0 2 0 0
        left 0
    ";
    let alloc = rt.alloc();
    let (silent, _) = lane_of(&rt, alloc, 1);
    let (mut input, output) = lane_of(&rt, alloc, 4);
    put(&rt, alloc, &mut input, b"a");
    put(&rt, alloc, &mut input, b"b");
    put_end(&rt, &mut input);
    let wires = over(&rt, alloc, silent, output, None);
    pull_plays(&rt, alloc, wires, &unmarked(&rt, alloc), play);
}

// A send that waits goes out as soon as the lane has room, with no other caller.
#[test]
fn a_waiting_send_finds_room(rt: HostRuntime) {
    let play = "
        takes 1
        1 attaches 1
        1 sends 'x 0.1
        1 sends 'x 1.1
        1 sends 'x 2.1
        1 polls 2.1 pending
        lane 'x
        1 waits sent
        1 gives_back 3 3 0 0 3 1
        left 1
    ";
    let alloc = rt.alloc();
    let (input, output) = lane_of(&rt, alloc, 1);
    let (_, silent) = lane_of(&rt, alloc, 1);
    let wires = over(&rt, alloc, input, silent, None);
    push_plays(&rt, alloc, wires, Some(output), &unmarked(&rt, alloc), play);
}

// A send whose room comes while its caller waits goes out, with no other caller: a wait takes turn after turn. The wire
// is full when the send begins and in the first two turns of the wait.
#[test]
fn a_send_waits_for_room(rt: HostRuntime) {
    let play = "
        takes 1
        1 attaches 1
        1 sends 'x 0.1
        1 sends 'x 1.1
        1 sends 'x 2.1
        1 polls 2.1 pending
        1 waits sent
        1 gives_back 3 3 0 0 3 3
        left 1
    ";
    let alloc = rt.alloc();
    let (input, output) = lane_of(&rt, alloc, 1);
    let (_, silent) = lane_of(&rt, alloc, 1);
    let wires = over(&rt, alloc, input, silent, Some(output));
    push_plays(&rt, alloc, wires, None, &unmarked(&rt, alloc), play);
}
