//! A wire over two lanes: what it puts goes into one, what it pulls comes from the other.
ghost use Rattle.std.specs.Prelude.{◌≡◌, true, false, IfSome, Some};
ghost use Rattle.sp_msg.specs.Views.{OverLanes};
ghost use Rattle.sp_msg.specs.Wires.{AfterPull, AfterRoom, AfterPut, AfterFlush, AfterShut, may_flush};
ghost use Rattle.sp_lane.specs.Lanes.{has_end};
ghost use Rattle.sp_lane.specs.LaneWires.{new_lane_wire, PulledFrom, Joins, Pushed, TriedEnd, Drained, room_of, flush_of, is_lost, LanePulled, LaneRoomed, LaneFlushed, SameLanes};

use crate::ends::{LaneIn, LaneOut};
use crate::item::{Put, PutEnd, Taken};
use sp_msg::{Message, Room, Wire, WireFlush, WireIn, WireMarks};
use std::marker::Model;
use std::sync::Wait;

/// A wire over two lanes (nng_inproc(7)). It keeps one message in hand, so `put` never fails. Only `pull` takes memory,
/// where it joins a header and a body.
#[derive(Drop)]
pub struct LaneWire {
    /// Where messages are put.
    out: LaneIn,
    /// Where they come from.
    inp: LaneOut,
    /// The message that was put and isn't in the lane yet.
    hand: Option<Message>,
    /// The last message that was taken was lost when out of memory.
    lost: bool,
    /// The wire was shut: a flush puts the end mark after the message in hand.
    is_shut: bool,
    /// What it shows besides its bytes.
    marks: WireMarks,
}

impl Model for LaneWire {
    ghost use Rattle.sp_lane.specs.LaneWires.{LaneWireView, lane_wire_view, IsLaneWire};

    ghost Value = { LaneWireView };

    ghost view = { λ w. lane_wire_view w.out w.inp w.hand w.lost w.is_shut w.marks };

    ghost invariant = { λ w. IsLaneWire w.out w.hand w.lost w.is_shut w.marks };
}

// The message as a wire returns it: all of it is body.
fn bare(m: Message) -> WireIn
    ensures { Joins m result }
{
    let mut m = m;
    match m.join() {
        Ok(()) => WireIn::Message(m),
        Err(_) => WireIn::NoMemory,
    }
}

// The result of a pull, from the next item of the lane.
fn pull_from<R: Wait>(inp: &mut LaneOut, rt: &R) -> WireIn
    ensures { PulledFrom result inp.old inp.new }
{
    match inp.take(rt) {
        Taken::Message(m) => bare(m),
        Taken::Empty => WireIn::NotYet,
        Taken::End => WireIn::Ended,
    }
}

// Puts what is in hand into the lane, if it isn't full; returns what stays in hand.
fn push_hand<R: Wait>(out: &mut LaneIn, hand: Option<Message>, rt: &R) -> Option<Message>
    requires { IfSome hand (λ _. has_end out.old.put ≡ false) }
    ensures { Pushed hand result out.old out.new }
{
    match hand {
        None => None,
        Some(m) => match out.put(rt, m) {
            Put::Done => None,
            Put::Full(back) => Some(back),
        },
    }
}

// Puts the end mark, if `wanted` and the lane isn't full.
fn try_end<R: Wait>(out: &mut LaneIn, wanted: bool, rt: &R)
    requires { wanted ≡ true → has_end out.old.put ≡ false }
    ensures { TriedEnd wanted out.old out.new }
{
    if wanted {
        match out.put_end(rt) {
            PutEnd::Done => {}
            PutEnd::Full => {}
        }
    }
}

// Puts the message in hand first, and after it the end mark if the wire was shut.
fn drain<R: Wait>(out: &mut LaneIn, hand: Option<Message>, is_shut: bool, rt: &R) -> Option<Message>
    requires { IfSome hand (λ _. has_end out.old.put ≡ false) }
    ensures { Drained is_shut hand result out.old out.new }
{
    let left = push_hand(out, hand, rt);
    let wanted = is_shut && (left.is_none() && !out.is_ended());
    try_end(out, wanted, rt);
    left
}

fn room_of(hand: &Option<Message>) -> Room
    ensures { result ≡ room_of hand.now }
{
    match hand {
        None => Room::Yes,
        Some(_) => Room::Full,
    }
}

fn flush_of(hand: &Option<Message>) -> WireFlush
    ensures { result ≡ flush_of hand.now }
{
    match hand {
        None => WireFlush::Empty,
        Some(_) => WireFlush::NotYet,
    }
}

fn is_lost(returned: &WireIn) -> bool
    ensures { result ≡ is_lost returned.now }
{
    match returned {
        WireIn::NoMemory => true,
        WireIn::Message(_) => false,
        WireIn::NotYet => false,
        WireIn::Ended => false,
        WireIn::Malformed => false,
        WireIn::Failed => false,
        WireIn::Refused => false,
    }
}

impl LaneWire {
    /// A wire over two lanes, neither of which has ended. It counts from here on. Takes no memory and never fails.
    pub fn new(out: LaneIn, inp: LaneOut) -> LaneWire
        requires { has_end out.put ≡ false }
        ensures { result ≡ new_lane_wire out inp }
    {
        let mut out = out;
        let mut inp = inp;
        out.mark();
        inp.mark();
        LaneWire {
            out,
            inp,
            hand: None,
            lost: false,
            is_shut: false,
            marks: WireMarks::new(),
        }
    }

    /// Returns whether it may be pulled, asked for room and flushed.
    pub fn is_open(&self) -> bool
        ensures { result ≡ self.now.wire.is_open }
    {
        self.marks.is_open
    }

    /// Returns whether room for one message was found and isn't used yet.
    pub fn is_ready(&self) -> bool
        ensures { result ≡ self.now.wire.is_ready }
    {
        self.marks.is_ready
    }

    /// Both halves, as they are; a message in hand is dropped.
    pub fn into_halves(self) -> (LaneIn, LaneOut)
        ensures out { result.0 ≡ self.out }
        ensures inp { result.1 ≡ self.inp }
    {
        let LaneWire {
            out,
            inp,
            hand: _,
            lost: _,
            is_shut: _,
            marks: _,
        } = self;
        (out, inp)
    }
}

impl Wire for LaneWire {
    ghost shown = { λ w. w.wire };

    fn pull<R: Wait>(&mut self, rt: &R) -> WireIn
        requires { self.old.wire.is_open ≡ true }
        ensures after { AfterPull result self.old.wire self.new.wire }
        ensures lane { LanePulled result self.old self.new }
    {
        let returned = pull_from(&mut self.inp, rt);
        self.marks.pulled(&returned);
        self.lost = is_lost(&returned);
        returned
    }

    fn room<R: Wait>(&mut self, rt: &R) -> Room
        requires { self.old.wire.is_open ≡ true }
        ensures after { AfterRoom result self.old.wire self.new.wire }
        ensures lane { LaneRoomed result self.old self.new }
    {
        let hand = self.hand.take();
        self.hand = push_hand(&mut self.out, hand, rt);
        let returned = room_of(&self.hand);
        self.marks.roomed(returned);
        returned
    }

    fn put<R: Wait>(&mut self, _rt: &R, m: Message)
        requires is_open { self.old.wire.is_open ≡ true }
        requires is_ready { self.old.wire.is_ready ≡ true }
        ensures after { AfterPut m self.old.wire self.new.wire }
        ensures hand { self.new.hand ≡ Some m }
        ensures lanes { SameLanes self.old self.new }
    {
        self.hand = Some(m);
        self.marks.put();
    }

    fn flush<R: Wait>(&mut self, rt: &R) -> WireFlush
        requires { may_flush self.old.wire ≡ true }
        ensures after { AfterFlush result self.old.wire self.new.wire }
        ensures lane { LaneFlushed result self.old self.new }
    {
        let hand = self.hand.take();
        self.hand = drain(&mut self.out, hand, self.is_shut, rt);
        let returned = flush_of(&self.hand);
        self.marks.flushed(returned);
        returned
    }

    fn taken(&self) -> u64 {
        0
    }

    fn shut(&mut self)
        ensures after { AfterShut self.old.wire self.new.wire }
        ensures drains { self.new.wire.drains ≡ true }
        ensures hand { self.new.hand ≡ self.old.hand }
        ensures lanes { SameLanes self.old self.new }
        ensures name { self.new.wire.name ≡ OverLanes self.new.out.name self.new.inp.name }
    {
        self.is_shut = true;
        self.marks.shut();
    }
}
