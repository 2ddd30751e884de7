//! Two pairs of version 1 within the process.
ghost use Rattle.std.specs.Prelude.{◌≡◌};
ghost use Rattle.core_state.specs.Wires.{IsUnused};

use crate::checks::same;
use crate::lanes::lane_of;
use proto_pair::{Pair, Pair1};
use sp_base::{Ctx, Role};
use sp_lane::LaneWire;
use sp_msg::Message;
use sp_socket::{Collected, Options, Single, SingleEnd};
use std::alloc::Global;
use std::process::Abort;
use std::sync::Wait;

// A pair over this wire. Aborts when out of memory.
fn pair_over<R: Wait + Abort>(rt: &R, alloc: Global, wire: LaneWire) -> Single<Pair, LaneWire>
    requires { IsUnused wire.wire }
{
    let Ok(machine) = Pair1::new(alloc, Options::usual(Role::Pair1, 0), false) else {
        panic!(rt; "no memory for a pair")
    };
    let Ok(mut pair) = Single::open(alloc, machine, 2) else {
        panic!(rt; "no memory for a socket")
    };
    let Ok(_) = pair.attach(rt, wire, 0, u32::MAX) else {
        panic!(rt; "no memory for a pipe")
    };
    pair
}

// Sends the body from one pair to the other, and checks that it comes.
fn says<R: Wait + Abort>(
    rt: &R,
    alloc: Global,
    from: &mut Single<Pair, LaneWire>,
    to: &mut Single<Pair, LaneWire>,
    body: &[u8],
) {
    let Ok(said) = Message::from_body(alloc, body) else {
        panic!(rt; "no memory for a message")
    };
    let Ok(op) = from.begin_send(rt, Ctx(0), said, None) else {
        panic!(rt; "no send began")
    };
    match from.collect(rt, op) {
        Collected::Ended(_) => (),
        Collected::NotYet(_op) => panic!(rt; "the send waits"),
    }
    from.serve(rt);
    to.serve(rt);
    match to.try_recv(rt, Ctx(0)) {
        Ok(came) => same(rt, came.body(), body),
        Err(_) => panic!(rt; "no message came"),
    }
}

// Closes the pair, whose one wire is left.
fn ends<R: Wait + Abort>(rt: &R, pair: Single<Pair, LaneWire>) {
    let mut pair = pair;
    pair.close(rt);
    let SingleEnd { wires, record_: _ } = pair.finish(rt);
    let mut wires = wires;
    let Some((_, _wire)) = wires.pop() else {
        panic!(rt; "no wire is left")
    };
    match wires.pop() {
        None => wires.destroy_empty(),
        Some(_) => panic!(rt; "two wires are left"),
    }
}

#[test]
fn pairs_of_version_1_meet_over_inproc(rt: HostRuntime) {
    let alloc = rt.alloc();
    let (there, from_there) = lane_of(&rt, alloc, 4);
    let (back, from_back) = lane_of(&rt, alloc, 4);
    let mut first = pair_over(&rt, alloc, LaneWire::new(there, from_back));
    let mut second = pair_over(&rt, alloc, LaneWire::new(back, from_there));
    says(&rt, alloc, &mut first, &mut second, b"there");
    says(&rt, alloc, &mut second, &mut first, b"back");
    ends(&rt, first);
    ends(&rt, second);
}
