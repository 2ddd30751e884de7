//! The wire over WebSocket: a link and its frames, with what each call of `Wire` does to them.
ghost use Rattle.std.specs.Prelude.{◌≡◌, ◌≤◌, ◌<◌, ◌++◌, ◌∷◌, ℕ, [], true, false, MatchResult, length};
ghost use Rattle.sp_base.specs.Steps.{AfterShut as LinkShut};
ghost use Rattle.sp_msg.specs.Views.{wire_text};
ghost use Rattle.sp_msg.specs.Marks.{fresh_marks};
ghost use Rattle.sp_msg.specs.Wires.{AfterPull, AfterRoom, AfterPut, AfterFlush, AfterShut, may_flush};
ghost use Rattle.sp_ws.specs.Wires.{IsNewWire, Tied, WsPulled, WsWrote, RoomCause, FlushCause, Holds, ws_state, ws_view};

use crate::counts_at_start::CountsAtStart;
use crate::frames::Frames;
use crate::inlet::{pull_from, read_room};
use crate::outlet::{FrameOutlet, flush_from, room_from};
use crate::side::Side;
use crate::socket::MemorySocket;
use sp_base::{Link, NoMemory};
use sp_msg::{Message, Room, Wire, WireFlush, WireIn, WireMarks};
use std::alloc::Global;
use std::marker::Model;
use std::sync::Wait;

/// A wire over a link whose WebSocket is open (nng_ws(7)): each message, header then body, is one binary message (RFC
/// 6455 sections 5.6 and 6). At most 16 messages wait. After any result but a message, `NotYet`, `Yes`, `Full` and
/// `Empty` only `shut` is lawful.
#[derive(Drop)]
pub struct WsWire<L: Link> {
    /// Where memory for messages is taken.
    alloc: Global,
    link: L,
    frames: MemorySocket,
    /// What was put and isn't wholly written.
    outlet: FrameOutlet,
    /// Where a read of the link puts its bytes.
    room: Vec<u8>,
    /// The last body that came was not handed on.
    lost: bool,
    /// The maximum length of a body that is read, in bytes.
    max: u32,
    /// What it shows besides its bytes.
    marks: WireMarks,
    /// How often the link had had nothing to read or had taken nothing when the wire was made.
    spent: CountsAtStart,
}

impl<L: Link> Model for WsWire<L> {
    ghost use Rattle.std.specs.Prelude.{◌<◌, length};
    ghost use Rattle.sp_ws.specs.Wires.{WsView, ws_state, ws_view, Holds};

    ghost Value = { WsView };

    ghost view = { λ w. ws_view (ws_state (L.seen w.link) w.frames w.outlet w.lost w.max w.spent.ticks w.marks) };

    ghost invariant = { λ w. Holds (ws_state (L.seen w.link) w.frames w.outlet w.lost w.max w.spent.ticks w.marks) × (0 < length w.room.items) };
}

impl<L: Link> WsWire<L> {
    /// A wire over a link whose opening is done; `rest` is what came after the opening's head. A body that is read has
    /// at most `max` bytes. Fails only when out of memory, and then the link comes back as it was.
    pub fn new(
        alloc: Global,
        link: L,
        side: Side,
        rest: &[u8],
        max: u32,
    ) -> Result<WsWire<L>, (NoMemory, L)>
        requires { (L.seen link).is_open ≡ true }
        ensures { MatchResult result (λ w. IsNewWire side max rest.now (L.seen link) w) (λ e. e.1 ≡ link) }
    {
        let Ok(outlet) = FrameOutlet::new(alloc) else {
            return Err((NoMemory, link));
        };
        let Ok(room) = read_room(alloc) else {
            return Err((NoMemory, link));
        };
        let mut frames = MemorySocket::new(alloc, side, max);
        let Ok(()) = frames.feed(rest) else {
            return Err((NoMemory, link));
        };
        Ok(WsWire::made(alloc, link, frames, outlet, room, max))
    }

    // A new wire over a link that, as `spent` says, had had nothing to read or had taken nothing.
    fn made(
        alloc: Global,
        link: L,
        frames: MemorySocket,
        outlet: FrameOutlet,
        room: Vec<u8>,
        max: u32,
    ) -> WsWire<L>
        ghost spent: { ℕ }
        requires { Holds (ws_state (L.seen link) frames outlet false max spent fresh_marks) × (0 < length room.items) }
        ensures { result ≡ ws_view (ws_state (L.seen link) frames outlet false max spent fresh_marks) }
    {
        WsWire {
            alloc,
            link,
            frames,
            outlet,
            room,
            lost: false,
            max,
            marks: WireMarks::new(),
            spent: CountsAtStart::of(),
        }
    }

    /// Returns whether it may be pulled, asked for room and flushed.
    pub fn is_open(&self) -> bool
        ensures { result ≡ self.now.wire.is_open }
    {
        self.marks.is_open
    }

    /// The capacity of its buffers, in bytes. For those of the `tungstenite` socket it counts the most that one frame
    /// or one feed brought since that socket was made.
    pub fn capacity(&self) -> usize {
        let came = self.room.capacity().saturating_add(self.frames.capacity());
        came.saturating_add(self.outlet.capacity())
    }

    /// The link, as it is.
    pub fn into_link(self) -> L
        ensures link { L.seen result ≡ self.link }
        ensures tied { Tied self }
    {
        let WsWire {
            alloc: _,
            link,
            frames: _,
            outlet: _,
            room: _,
            lost: _,
            max: _,
            marks: _,
            spent: _,
        } = self;
        link
    }
}

impl<L: Link> Wire for WsWire<L> {
    ghost shown = { λ w. w.wire };

    fn pull<R: Wait>(&mut self, _rt: &R) -> WireIn
        requires { self.old.wire.is_open ≡ true }
        ensures after { AfterPull result self.old.wire self.new.wire }
        ensures ws { WsPulled result self.old self.new }
        ensures tied { Tied self.new }
    {
        let had = self.frames.waiting().len();
        let (returned, lost) = pull_from(
            self.alloc,
            &mut self.frames,
            &mut self.link,
            &mut self.room,
            self.max,
        );
        self.outlet.answer(&mut self.frames, &mut self.link, had);
        self.lost = lost;
        self.marks.pulled(&returned);
        returned
    }

    fn room<R: Wait>(&mut self, _rt: &R) -> Room
        requires { self.old.wire.is_open ≡ true }
        ensures after { AfterRoom result self.old.wire self.new.wire }
        ensures cause { RoomCause result self.old self.new }
        ensures ws { WsWrote self.old self.new }
        ensures tied { Tied self.new }
    {
        let returned = room_from(&mut self.outlet, &mut self.frames, &mut self.link);
        self.marks.roomed(returned);
        returned
    }

    fn put<R: Wait>(&mut self, _rt: &R, m: Message)
        requires is_open { self.old.wire.is_open ≡ true }
        requires is_ready { self.old.wire.is_ready ≡ true }
        ensures after { AfterPut m self.old.wire self.new.wire }
        ensures link { self.new.link ≡ self.old.link }
        ensures frames { self.new.frames ≡ self.old.frames }
        ensures held { self.new.outlet.held ≡ self.old.outlet.held ++ wire_text m ∷ [] }
        ensures tied { Tied self.new }
    {
        self.marks.put();
        self.outlet.put(m);
    }

    fn flush<R: Wait>(&mut self, _rt: &R) -> WireFlush
        requires { may_flush self.old.wire ≡ true }
        ensures after { AfterFlush result self.old.wire self.new.wire }
        ensures cause { FlushCause result self.old self.new }
        ensures ws { WsWrote self.old self.new }
        ensures tied { Tied self.new }
    {
        let returned = flush_from(&mut self.outlet, &mut self.frames, &mut self.link);
        self.marks.flushed(returned);
        returned
    }

    fn taken(&self) -> u64 {
        self.outlet.taken()
    }

    fn shut(&mut self)
        ensures after { AfterShut self.old.wire self.new.wire }
        ensures link { LinkShut self.old.link self.new.link }
        ensures frames { self.new.frames ≡ self.old.frames }
        ensures tied { Tied self.new }
    {
        self.marks.shut();
        self.link.shut();
    }
}
