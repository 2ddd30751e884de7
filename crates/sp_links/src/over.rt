//! The wire of a link whose opening is done.
ghost use Rattle.std.specs.Prelude.{◌≡◌, true, MatchResult};
ghost use Rattle.sp_tcp.specs.TcpWires.{Met};
ghost use Rattle.sp_links.specs.Going.{IsOpened};
ghost use Rattle.sp_links.specs.EndWires.{IsNewTcpOver, IsNewWsOver, IsNewOver};
ghost use Rattle.sp_links.specs.Opened.{IsBegun, side_of, framed_by};
ghost use Rattle.sp_links.specs.Openings.{scheme_for};
ghost use Rattle.sp_base.specs.SpStream.{framing_for};

use crate::opened::OpenedWire;
use crate::opening::Opening;
use crate::way::{Way, seed_of};
use crate::wire::EndWire;
use sp_base::{Framing, Link, NoMemory, Role};
use sp_tcp::TcpWire;
use sp_ws::{Side, WsWire};
use std::alloc::Global;

impl<L: Link> EndWire<L> {
    /// The wire of an opened link, by its transport; it gets the bytes that came after the peer's part. A body that is
    /// read has at most `max` bytes. Fails only when out of memory, and then the link is returned unchanged.
    pub fn over(alloc: Global, opening: Opening<L>, max: u32) -> Result<EndWire<L>, (NoMemory, L)>
        requires opened { IsOpened L.seen opening }
        requires scheme { (L.seen opening.link).scheme ≡ scheme_for opening.way }
        ensures { MatchResult result (λ w. IsNewOver L.seen max opening w) (λ e. e.1 ≡ opening.link) }
    {
        let Opening {
            link,
            role,
            way,
            own: _,
            said: _,
            came,
            used,
        } = opening;
        let Some(used) = used else { unreachable!() };
        let rest = &came.as_slice()[used..];
        match side_of(&way) {
            None => over_tcp(alloc, link, rest, max, framed_by(&way)),
            Some(side) => over_ws(alloc, link, side, rest, max, role, way),
        }
    }
}

// The side of a WebSocket that was opened in this way; `None` for TCP and IPC.
fn side_of(way: &Way) -> Option<Side>
    ensures { result ≡ side_of way.now }
{
    match way {
        Way::Greeting { framing: _ } => None,
        Way::Serves { path: _ } => Some(Side::Server),
        Way::Asks { addr: _, start } => Some(Side::Client {
            seed: seed_of(*start),
        }),
    }
}

// How messages are framed on a link that was opened in this way.
fn framed_by(way: &Way) -> Framing
    ensures { result ≡ framed_by way.now }
{
    match way {
        Way::Greeting { framing } => *framing,
        Way::Serves { path: _ } => Framing::Tcp,
        Way::Asks { addr: _, start: _ } => Framing::Tcp,
    }
}

fn over_tcp<L: Link>(
    alloc: Global,
    link: L,
    rest: &[u8],
    max: u32,
    framing: Framing,
) -> Result<EndWire<L>, (NoMemory, L)>
    requires is_open { (L.seen link).is_open ≡ true }
    requires met { Met rest.now (L.seen link) }
    requires framed { framing ≡ framing_for (L.seen link).scheme }
    ensures { MatchResult result (λ w. IsNewTcpOver framing max (L.seen link) w) (λ e. e.1 ≡ link) }
{
    match TcpWire::new(alloc, link, rest, max, framing) {
        Ok(wire) => Ok(EndWire::Tcp(wire)),
        Err(refused) => Err(refused),
    }
}

fn over_ws<L: Link>(
    alloc: Global,
    link: L,
    side: Side,
    rest: &[u8],
    max: u32,
    role: Role,
    way: Way,
) -> Result<EndWire<L>, (NoMemory, L)>
    requires is_open { (L.seen link).is_open ≡ true }
    requires begun { IsBegun role way (L.seen link) }
    ensures { MatchResult result (λ w. IsNewWsOver side max rest.now role way (L.seen link) w) (λ e. e.1 ≡ link) }
{
    match WsWire::new(alloc, link, side, rest, max) {
        Ok(wire) => Ok(EndWire::Ws(OpenedWire::new(wire, role, way))),
        Err(refused) => Err(refused),
    }
}
