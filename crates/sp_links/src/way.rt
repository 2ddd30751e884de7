//! The ways in which a link begins.
ghost use Rattle.std.specs.Prelude.{◌≡◌, ℕ, List, [], IfOk};
ghost use Rattle.sp_links.specs.Keys.{key_of, seed_of};
ghost use Rattle.sp_links.specs.Laws.{StaysGood, StaysBad, IsNeverBoth, OwesOne, OwesNoMore};
ghost use Rattle.sp_links.specs.Openings.{CanBegin, Begins};
ghost use Rattle.sp_links.specs.Origins.{serving, asking};
ghost use Rattle.sp_links.specs.declared.way.Way.{Way as WayType};

use sp_base::{Addr, Bytes, Framing, NoMemory, Role, next_value};
use sp_tcp::Greeting;
use sp_upgrade::client_head;
use std::alloc::Global;

/// How a link begins.
#[derive(Debug, Drop)]
pub enum Way {
    /// Over TCP or IPC: both sides write a greeting.
    Greeting { framing: Framing },
    /// Over WebSocket, listening: a request for this path is answered.
    Serves { path: Bytes },
    /// Over WebSocket, dialing: this address is asked, with a key that the generator makes from `start`.
    Asks { addr: Addr, start: u64 },
}

impl Way {
    /// How a link begins that was accepted at this address. Fails only when out of memory.
    pub fn serving(alloc: Global, addr: &Addr) -> Result<Way, NoMemory>
        ensures { IfOk result (λ way. way ≡ serving addr.now) }
    {
        match addr {
            Addr::Tcp { host: _, port: _ } => Ok(Way::Greeting {
                framing: Framing::Tcp,
            }),
            Addr::Ws {
                host: _,
                port: _,
                path,
            } => Ok(Way::Serves {
                path: Bytes::from_slice(alloc, path.as_slice())?,
            }),
            Addr::Inproc { name: _ } => Ok(Way::Greeting {
                framing: Framing::Tcp,
            }),
            Addr::Ipc { path: _ } => Ok(Way::Greeting {
                framing: Framing::Ipc,
            }),
        }
    }

    /// How a link begins that was dialed to this address, where the key is made from `start`. Fails only when out of
    /// memory.
    pub fn asking(alloc: Global, addr: &Addr, start: u64) -> Result<Way, NoMemory>
        ensures { IfOk result (λ way. way ≡ asking addr.now start) }
    {
        match addr {
            Addr::Tcp { host: _, port: _ } => Ok(Way::Greeting {
                framing: Framing::Tcp,
            }),
            Addr::Ws {
                host: _,
                port: _,
                path: _,
            } => Ok(Way::Asks {
                addr: copy_of(alloc, addr)?,
                start,
            }),
            Addr::Inproc { name: _ } => Ok(Way::Greeting {
                framing: Framing::Tcp,
            }),
            Addr::Ipc { path: _ } => Ok(Way::Greeting {
                framing: Framing::Ipc,
            }),
        }
    }

    /// What came stays right or wrong, whatever follows, and is never both; and at most one text is owed for it.
    pub fn has_laws()
        ensures good { (role : Role) (way : WayType) → StaysGood role way }
        ensures bad { (role : Role) (way : WayType) → StaysBad role way }
        ensures apart { (role : Role) (way : WayType) → IsNeverBoth role way }
        ensures owes { (role : Role) (way : WayType) → OwesOne role way }
        ensures no_more { (role : Role) (way : WayType) → OwesNoMore role way }
    {}
}

/// The 16 bytes of the key (RFC 6455 section 4.1): the next two values of the generator, big-endian.
pub(crate) fn key_of(start: u64) -> [u8; 16]
    ensures { result ≡ key_of start }
{
    let first = next_value(start);
    let [a, b, c, d, e, f, g, h] = first.to_be_bytes();
    let [i, j, k, l, m, n, o, p] = next_value(first).to_be_bytes();
    [a, b, c, d, e, f, g, h, i, j, k, l, m, n, o, p]
}

/// The seed of the masks: the value after those two.
#[tactic(auto, unfolding(crate::specs::Keys::seed_of))]
pub fn seed_of(start: u64) -> u64
    ensures { result ≡ seed_of start }
{
    next_value(next_value(next_value(start)))
}

/// What is written before anything came.
pub(crate) fn first_text(alloc: Global, role: Role, way: &Way) -> Result<Bytes, NoMemory>
    requires { CanBegin way.now }
    ensures { IfOk result (λ text. Begins role way.now text) }
{
    match way {
        Way::Greeting { framing: _ } => Bytes::from_slice(alloc, Greeting::new(role).hello()),
        Way::Serves { path: _ } => Ok(nothing(alloc)),
        Way::Asks { addr, start } => client_head(alloc, &key_of(*start), addr, role),
    }
}

/// No bytes. Takes no memory.
pub(crate) fn nothing(alloc: Global) -> Bytes
    ensures { result ≡ [] }
{
    Bytes::from_vec(Vec::new(alloc))
}

/// The same address. Fails only when out of memory.
pub fn copy_of(alloc: Global, addr: &Addr) -> Result<Addr, NoMemory>
    ensures { IfOk result (λ copy. copy ≡ addr.now) }
{
    match addr {
        Addr::Tcp { host, port } => Ok(Addr::Tcp {
            host: *host,
            port: *port,
        }),
        Addr::Ws { host, port, path } => Ok(Addr::Ws {
            host: *host,
            port: *port,
            path: Bytes::from_slice(alloc, path.as_slice())?,
        }),
        Addr::Inproc { name } => Ok(Addr::Inproc {
            name: Bytes::from_slice(alloc, name.as_slice())?,
        }),
        Addr::Ipc { path } => Ok(Addr::Ipc {
            path: Bytes::from_slice(alloc, path.as_slice())?,
        }),
    }
}
