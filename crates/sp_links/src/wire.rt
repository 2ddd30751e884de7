//! A wire of any of the four transports: each call is that of the wire inside.
ghost use Rattle.std.specs.Prelude.{◌≡◌, true};
ghost use Rattle.sp_msg.specs.Wires.{AfterPull, AfterRoom, AfterPut, AfterFlush, AfterShut, may_flush};
ghost use Rattle.sp_links.specs.EndWires.{shown, Stands, Pulled, Roomed, Flushed, Puts, Shuts, IsOverLanes, IsLinkUnder};

use crate::opened::OpenedWire;
use sp_base::Link;
use sp_lane::LaneWire;
use sp_msg::{Message, Room, Wire, WireFlush, WireIn};
use sp_tcp::TcpWire;
use std::sync::Wait;

/// A wire of one of the transports (nng_tcp(7), nng_ipc(7), nng_ws(7), nng_inproc(7)).
#[derive(Drop)]
pub enum EndWire<L: Link> {
    /// SP over TCP or IPC.
    Tcp(TcpWire<L>),
    /// SP over WebSocket.
    Ws(OpenedWire<L>),
    /// Within the process.
    Lane(LaneWire),
}

impl<L: Link> EndWire<L> {
    /// Returns whether it may be pulled, asked for room and flushed.
    pub fn is_open(&self) -> bool
        ensures { result ≡ (shown self.now).is_open }
    {
        match self {
            EndWire::Tcp(wire) => wire.is_open(),
            EndWire::Ws(wire) => wire.is_open(),
            EndWire::Lane(wire) => wire.is_open(),
        }
    }

    /// The link under it, as it is; a wire within the process has none.
    pub fn into_link(self) -> Option<L>
        ensures link { IsLinkUnder L.seen self result }
        ensures stands { Stands self }
    {
        match self {
            EndWire::Tcp(wire) => Some(wire.into_link()),
            EndWire::Ws(wire) => Some(wire.into_link()),
            EndWire::Lane(_) => None,
        }
    }
}

impl<L: Link> Wire for EndWire<L> {
    ghost shown = { λ w. shown w };

    fn pull<R: Wait>(&mut self, rt: &R) -> WireIn
        requires { (shown self.old).is_open ≡ true }
        ensures after { AfterPull result (shown self.old) (shown self.new) }
        ensures pulled { Pulled result self.old self.new }
        ensures stands { Stands self.new }
    {
        match self {
            EndWire::Tcp(wire) => wire.pull(rt),
            EndWire::Ws(wire) => wire.pull(rt),
            EndWire::Lane(wire) => wire.pull(rt),
        }
    }

    fn room<R: Wait>(&mut self, rt: &R) -> Room
        requires { (shown self.old).is_open ≡ true }
        ensures after { AfterRoom result (shown self.old) (shown self.new) }
        ensures roomed { Roomed result self.old self.new }
        ensures stands { Stands self.new }
    {
        match self {
            EndWire::Tcp(wire) => wire.room(rt),
            EndWire::Ws(wire) => wire.room(rt),
            EndWire::Lane(wire) => wire.room(rt),
        }
    }

    fn put<R: Wait>(&mut self, rt: &R, m: Message)
        requires is_open { (shown self.old).is_open ≡ true }
        requires is_ready { (shown self.old).is_ready ≡ true }
        ensures after { AfterPut m (shown self.old) (shown self.new) }
        ensures puts { Puts m self.old self.new }
        ensures stands { Stands self.new }
    {
        match self {
            EndWire::Tcp(wire) => wire.put(rt, m),
            EndWire::Ws(wire) => wire.put(rt, m),
            EndWire::Lane(wire) => wire.put(rt, m),
        }
    }

    fn flush<R: Wait>(&mut self, rt: &R) -> WireFlush
        requires { may_flush (shown self.old) ≡ true }
        ensures after { AfterFlush result (shown self.old) (shown self.new) }
        ensures flushed { Flushed result self.old self.new }
        ensures stands { Stands self.new }
    {
        match self {
            EndWire::Tcp(wire) => wire.flush(rt),
            EndWire::Ws(wire) => wire.flush(rt),
            EndWire::Lane(wire) => wire.flush(rt),
        }
    }

    fn taken(&self) -> u64 {
        match self {
            EndWire::Tcp(wire) => wire.taken(),
            EndWire::Ws(wire) => wire.taken(),
            EndWire::Lane(wire) => wire.taken(),
        }
    }

    fn shut(&mut self)
        ensures after { AfterShut (shown self.old) (shown self.new) }
        ensures shuts { Shuts self.old self.new }
        ensures stands { Stands self.new }
        ensures lanes { IsOverLanes self.new }
    {
        match self {
            EndWire::Tcp(wire) => wire.shut(),
            EndWire::Ws(wire) => wire.shut(),
            EndWire::Lane(wire) => wire.shut(),
        }
    }
}
