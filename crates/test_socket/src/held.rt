//! A turn that its wire delays: others wait for only that turn, and a cancel doesn't wait at all. No socket shuts a
//! wire.
ghost use Rattle.std.specs.Prelude.{◌≡◌};
ghost use Rattle.core_state.specs.Wires.{IsUnused};

use crate::checks::{holds, is_right};
use crate::machines::{pull, wire};
use crate::marks::{ThreadMarks, shared, unmarked};
use crate::plays::wrong_line;
use crate::wires::UnusedWires;
use sp_fakes::MemWire;
use sp_msg::{Message, Room, Wire, WireFlush, WireIn};
use std::alloc::Global;
use std::process::Abort;
use std::sync::{Arc, Wait};
use std::thread::Threads;

// A wire that delays the turn in which it is pulled first.
#[derive(Drop)]
struct HeldWire {
    wire: MemWire,
    marks: Arc<ThreadMarks>,
    // Whether it has delayed a turn.
    done: bool,
}

impl HeldWire {
    // Waits once until the cancel has returned.
    fn hold(&mut self)
        ensures { self.new.wire ≡ self.old.wire }
    {
        if self.done {
            return;
        }
        self.done = true;
        self.marks.hold();
    }
}

impl Wire for HeldWire {
    ghost shown = { λ w. w.wire.wire };

    fn pull<R: Wait>(&mut self, rt: &R) -> WireIn {
        self.hold();
        self.wire.pull(rt)
    }

    fn room<R: Wait>(&mut self, rt: &R) -> Room {
        self.wire.room(rt)
    }

    fn put<R: Wait>(&mut self, rt: &R, m: Message) {
        self.wire.put(rt, m)
    }

    fn flush<R: Wait>(&mut self, rt: &R) -> WireFlush {
        self.wire.flush(rt)
    }

    fn taken(&self) -> u64 {
        self.wire.taken()
    }

    fn shut(&mut self) {
        self.marks.shut.set(1);
        self.wire.shut()
    }
}

// A wire that gives `gives`, and delays no turn where `done` is true.
fn held(
    rt: &impl Abort,
    alloc: Global,
    marks: &Arc<ThreadMarks>,
    gives: &str,
    done: bool,
) -> HeldWire
    ensures { IsUnused result.wire.wire }
{
    HeldWire {
        wire: wire(rt, alloc, 0, gives),
        marks: shared(rt, marks),
        done,
    }
}

// Plays the text on a pull over such wires.
fn plays<R: Wait + Abort + Threads + Sync>(
    rt: &R,
    alloc: Global,
    size: &str,
    wires: UnusedWires<HeldWire>,
    marks: &ThreadMarks,
    play: &str,
) {
    let wrong = wrong_line(rt, alloc, pull(rt, alloc), size, wires, None, marks, play);
    is_right(rt, wrong)
}

// The wire delays the first turn. During it a receive is cancelled, and another caller comes to tick.
#[test]
fn a_cancel_returns_within_a_held_turn(rt: HostRuntime) {
    let play = "
        takes 4
        4 attaches 1
        4 receives 0 0.1
        takes 3
        takes 2
        takes 1
        together
        + 3 serves no
        + 2 sees held | sees entered | cancels 0.1 won | marks returned
        + 1 sees held | marks entered | ticks 1 0 0
        4 sees held
        4 receives 0 1.1
        4 serves yes
        4 collects received 'x
        4 collects gone cancelled 2
        all_give_back 2 1 1 1 0 0
        left 1
    ";
    let alloc = rt.alloc();
    let marks = unmarked(&rt, alloc);
    let mut wires = UnusedWires::new(alloc);
    wires.add(&rt, held(&rt, alloc, &marks, "pause 'x", false));
    plays(&rt, alloc, "4 4", wires, &marks, play);
}

// A wire that ends is taken as it is, and one that is up at the close comes back at the end of the socket: neither is
// shut.
#[test]
fn a_socket_shuts_no_wire(rt: HostRuntime) {
    let play = "
        takes 1
        1 attaches 1
        1 attaches 2
        1 serves yes
        1 down 1 ended
        1 gives_back 0 0 0 0 0 0
        left 1
    ";
    let alloc = rt.alloc();
    let marks = unmarked(&rt, alloc);
    let mut wires = UnusedWires::new(alloc);
    wires.add(&rt, held(&rt, alloc, &marks, "end", true));
    wires.add(&rt, held(&rt, alloc, &marks, "silent", true));
    plays(&rt, alloc, "4 1", wires, &marks, play);
    holds(&rt, marks.shut.now() == 0);
}
