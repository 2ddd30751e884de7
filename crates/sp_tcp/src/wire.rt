//! A wire over a link: messages in frames.
ghost use Rattle.std.specs.Prelude.{◌≡◌, ℕ, true, MatchResult};
ghost use Rattle.sp_base.specs.Steps.{AfterShut as LinkShut};
ghost use Rattle.sp_base.specs.SpStream.{framing_for};
ghost use Rattle.sp_msg.specs.Wires.{AfterPull, AfterRoom, AfterPut, AfterFlush, AfterShut, may_flush};
ghost use Rattle.sp_msg.specs.Marks.{fresh_marks};
ghost use Rattle.sp_tcp.specs.TcpWires.{tcp_state, tcp_view, Holds, Met, IsNewWire, Framed, TcpPulled, TcpWrote, RoomCause, FlushCause};

use crate::inlet::{Inlet, pull_from};
use crate::outlet::{Outlet, room_from, write_from};
use crate::spent::Spent;
use sp_base::{Framing, Link, NoMemory};
use sp_msg::{Message, Room, Wire, WireFlush, WireIn, WireMarks};
use std::alloc::Global;
use std::marker::Model;
use std::sync::Wait;

/// A wire over a link on which the greetings are done (SP over TCP, nng_tcp(7), or over IPC, nng_ipc(7)). It reads into
/// one buffer, from which it takes message after message, and writes many small frames at once. Only `pull` takes
/// memory.
#[derive(Drop)]
pub struct TcpWire<L: Link> {
    /// The link, greeted by both sides.
    link: L,
    /// What came and wasn't pulled.
    inlet: Inlet,
    /// What was put and isn't wholly written.
    outlet: Outlet,
    /// The maximum length of a body that is read, in bytes.
    max: u32,
    /// How messages are framed.
    framing: Framing,
    /// What it shows besides its bytes.
    marks: WireMarks,
    /// How often the link had had nothing to read or had taken nothing when the wire was made.
    spent: Spent,
}

impl<L: Link> Model for TcpWire<L> {
    ghost use Rattle.sp_tcp.specs.Views.{TcpView};
    ghost use Rattle.sp_tcp.specs.TcpWires.{tcp_state, tcp_view, Holds};

    ghost Value = { TcpView };

    ghost view = { λ w. tcp_view (tcp_state w.framing (L.seen w.link) w.inlet w.outlet w.max w.spent.ticks w.marks) };

    ghost invariant = { λ w. Holds (tcp_state w.framing (L.seen w.link) w.inlet w.outlet w.max w.spent.ticks w.marks) };
}

impl<L: Link> TcpWire<L> {
    /// A wire over a link on which the greetings are done: where the link is told, exactly the own greeting was
    /// written, and exactly the peer's greeting and then `rest` came. A body that is read has at most `max` bytes. The
    /// framing is that of IPC for a link of IPC, and that of TCP for every other link.
    pub fn new(
        alloc: Global,
        link: L,
        rest: &[u8],
        max: u32,
        framing: Framing,
    ) -> Result<TcpWire<L>, (NoMemory, L)>
        requires is_open { (L.seen link).is_open ≡ true }
        requires met { Met rest.now (L.seen link) }
        requires framed { framing ≡ framing_for (L.seen link).scheme }
        ensures { MatchResult result (λ w. IsNewWire framing max (L.seen link) w) (λ e. e.1 ≡ link) }
    {
        let Ok(inlet) = Inlet::new(alloc, rest) else {
            return Err((NoMemory, link));
        };
        let Ok(outlet) = Outlet::new(alloc) else {
            return Err((NoMemory, link));
        };
        Ok(TcpWire::made(link, inlet, outlet, max, framing))
    }

    // A new wire over a link that, as `spent` says, had had nothing to read or had taken nothing.
    fn made(link: L, inlet: Inlet, outlet: Outlet, max: u32, framing: Framing) -> TcpWire<L>
        ghost spent: { ℕ }
        requires { Holds (tcp_state framing (L.seen link) inlet outlet max spent fresh_marks) }
        ensures { result ≡ tcp_view (tcp_state framing (L.seen link) inlet outlet max spent fresh_marks) }
    {
        TcpWire {
            link,
            inlet,
            outlet,
            max,
            framing,
            marks: WireMarks::new(),
            spent: Spent::of(),
        }
    }

    /// Returns whether it may be pulled, asked for room and flushed.
    pub fn is_open(&self) -> bool
        ensures { result ≡ self.now.wire.is_open }
    {
        self.marks.is_open
    }

    /// Returns whether room for one message was found and isn't used yet.
    pub fn is_ready(&self) -> bool
        ensures { result ≡ self.now.wire.is_ready }
    {
        self.marks.is_ready
    }

    /// The link, as it is.
    pub fn into_link(self) -> L
        ensures link { L.seen result ≡ self.link }
        ensures framed { Framed self }
    {
        let TcpWire {
            link,
            inlet: _,
            outlet: _,
            max: _,
            framing: _,
            marks: _,
            spent: _,
        } = self;
        link
    }
}

impl<L: Link> Wire for TcpWire<L> {
    ghost shown = { λ w. w.wire };

    fn pull<R: Wait>(&mut self, _rt: &R) -> WireIn
        requires { self.old.wire.is_open ≡ true }
        ensures after { AfterPull result self.old.wire self.new.wire }
        ensures tcp { TcpPulled result self.old self.new }
        ensures framed { Framed self.new }
    {
        let mark = self.framing.mark();
        let returned = pull_from(&mut self.inlet, &mut self.link, mark, self.max);
        self.marks.pulled(&returned);
        returned
    }

    fn room<R: Wait>(&mut self, _rt: &R) -> Room
        requires { self.old.wire.is_open ≡ true }
        ensures after { AfterRoom result self.old.wire self.new.wire }
        ensures cause { RoomCause result self.old self.new }
        ensures tcp { TcpWrote self.old self.new }
        ensures framed { Framed self.new }
    {
        let mark = self.framing.mark();
        let returned = room_from(&mut self.outlet, mark, &mut self.link);
        self.marks.roomed(returned);
        returned
    }

    fn put<R: Wait>(&mut self, _rt: &R, m: Message)
        requires is_open { self.old.wire.is_open ≡ true }
        requires is_ready { self.old.wire.is_ready ≡ true }
        ensures after { AfterPut m self.old.wire self.new.wire }
        ensures link { self.new.link ≡ self.old.link }
        ensures framed { Framed self.new }
    {
        self.marks.put();
        self.outlet.put(m);
    }

    fn flush<R: Wait>(&mut self, _rt: &R) -> WireFlush
        requires { may_flush self.old.wire ≡ true }
        ensures after { AfterFlush result self.old.wire self.new.wire }
        ensures cause { FlushCause result self.old self.new }
        ensures tcp { TcpWrote self.old self.new }
        ensures framed { Framed self.new }
    {
        let mark = self.framing.mark();
        let returned = write_from(&mut self.outlet, mark, &mut self.link);
        self.marks.flushed(returned);
        returned
    }

    fn taken(&self) -> u64 {
        self.outlet.taken()
    }

    fn shut(&mut self)
        ensures after { AfterShut self.old.wire self.new.wire }
        ensures link { LinkShut self.old.link self.new.link }
        ensures framed { Framed self.new }
    {
        self.marks.shut();
        self.link.shut();
    }
}
