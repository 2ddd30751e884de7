//! A wire over WebSocket, and how its link began.
ghost use Rattle.std.specs.Prelude.{◌≡◌, ◌++◌, ◌∷◌, [], ⊤, true};
ghost use Rattle.sp_base.specs.Steps.{AfterShut as LinkShut};
ghost use Rattle.sp_msg.specs.Views.{wire_text};
ghost use Rattle.sp_msg.specs.Wires.{AfterPull, AfterRoom, AfterPut, AfterFlush, AfterShut, may_flush};
ghost use Rattle.sp_ws.specs.Wires.{WsPulled, WsWrote, RoomCause, FlushCause};
ghost use Rattle.sp_links.specs.declared.way.Way.{Way as WayType};
ghost use Rattle.sp_links.specs.Numbers.{way_number};
ghost use Rattle.sp_links.specs.Opened.{IsBegun, opened_view, IsOpenedOver, IsSameWay};

use crate::way::Way;
use sp_base::{Link, Role};
use sp_msg::{Message, Room, Wire, WireFlush, WireIn};
use sp_ws::WsWire;
use std::marker::Model;
use std::sync::Wait;

/// A wire over a WebSocket (nng_ws(7)) whose opening is done, by the own role and the way in which it was opened.
#[derive(Drop)]
pub struct OpenedWire<L: Link> {
    wire: WsWire<L>,
    role: Role,
    way: Way,
}

/// Ways with the same number are the same, so a wire's name determines how its link began.
pub fn name_ways()
    ensures { (v w : WayType) → way_number v ≡ way_number w → v ≡ w }
{}

impl<L: Link> Model for OpenedWire<L> {
    ghost use Rattle.sp_links.specs.Opened.{OpenedView, opened_view, IsBegun};

    ghost Value = { OpenedView };

    ghost view = { λ w. opened_view w.wire w.role w.way };

    ghost invariant = { λ w. IsBegun w.role w.way w.wire.link };
}

impl<L: Link> OpenedWire<L> {
    /// The wire over a link that began in this way.
    pub fn new(wire: WsWire<L>, role: Role, way: Way) -> OpenedWire<L>
        requires begun { IsBegun role way wire.link }
        ensures { result ≡ opened_view wire role way }
    {
        OpenedWire { wire, role, way }
    }

    /// Returns whether it may be pulled, asked for room and flushed.
    pub fn is_open(&self) -> bool
        ensures { result ≡ self.now.wire.is_open }
    {
        self.wire.is_open()
    }

    /// The link, as it is.
    pub fn into_link(self) -> L
        ensures link { L.seen result ≡ self.ws.link }
        ensures stands { IsOpenedOver self }
    {
        let OpenedWire {
            wire,
            role: _,
            way: _,
        } = self;
        wire.into_link()
    }
}

impl<L: Link> Wire for OpenedWire<L> {
    ghost shown = { λ w. w.wire };

    fn pull<R: Wait>(&mut self, rt: &R) -> WireIn
        requires { self.old.wire.is_open ≡ true }
        ensures after { AfterPull result self.old.wire self.new.wire }
        ensures ws { WsPulled result self.old.ws self.new.ws }
        ensures way { IsSameWay self.old self.new }
        ensures stands { IsOpenedOver self.new }
    {
        self.wire.pull(rt)
    }

    fn room<R: Wait>(&mut self, rt: &R) -> Room
        requires { self.old.wire.is_open ≡ true }
        ensures after { AfterRoom result self.old.wire self.new.wire }
        ensures cause { RoomCause result self.old.ws self.new.ws }
        ensures ws { WsWrote self.old.ws self.new.ws }
        ensures way { IsSameWay self.old self.new }
        ensures stands { IsOpenedOver self.new }
    {
        self.wire.room(rt)
    }

    fn put<R: Wait>(&mut self, rt: &R, m: Message)
        requires is_open { self.old.wire.is_open ≡ true }
        requires is_ready { self.old.wire.is_ready ≡ true }
        ensures after { AfterPut m self.old.wire self.new.wire }
        ensures link { self.new.ws.link ≡ self.old.ws.link }
        ensures frames { self.new.ws.frames ≡ self.old.ws.frames }
        ensures held { self.new.ws.outlet.held ≡ self.old.ws.outlet.held ++ wire_text m ∷ [] }
        ensures way { IsSameWay self.old self.new }
        ensures stands { IsOpenedOver self.new }
    {
        self.wire.put(rt, m);
    }

    fn flush<R: Wait>(&mut self, rt: &R) -> WireFlush
        requires { may_flush self.old.wire ≡ true }
        ensures after { AfterFlush result self.old.wire self.new.wire }
        ensures cause { FlushCause result self.old.ws self.new.ws }
        ensures ws { WsWrote self.old.ws self.new.ws }
        ensures way { IsSameWay self.old self.new }
        ensures stands { IsOpenedOver self.new }
    {
        self.wire.flush(rt)
    }

    fn taken(&self) -> u64 {
        self.wire.taken()
    }

    fn shut(&mut self)
        ensures after { AfterShut self.old.wire self.new.wire }
        ensures link { LinkShut self.old.ws.link self.new.ws.link }
        ensures frames { self.new.ws.frames ≡ self.old.ws.frames }
        ensures way { IsSameWay self.old self.new }
        ensures stands { IsOpenedOver self.new }
    {
        self.wire.shut();
    }
}
