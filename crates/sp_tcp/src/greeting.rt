//! Greetings (SP TCP mapping, "Connection initiation"): each side writes its own 8 bytes first, and reads the 8 bytes
//! of its peer's role.
ghost use Rattle.std.specs.Prelude.{◌≡◌, ◌≤◌, ◌+◌, ◌++◌, ◌↔◌, ℕ, true, [], take, drop, length, IsTrue};
ghost use Rattle.sp_base.specs.SpTcp.{hello};
ghost use Rattle.sp_base.specs.Roles.{role_number};
ghost use Rattle.sp_tcp.specs.Greetings.{FedAs, peer_hello};

use crate::fed::{Fed, Piece};
use sp_base::Role;
use std::marker::Model;

/// The result of a piece of the peer's greeting.
#[derive(Clone, Copy, Debug, PartialEq, Eq)]
pub enum Greeted {
    /// The greeting is not whole yet.
    More,
    /// The greeting is whole. The number is how many bytes of the piece follow it.
    Peer(usize),
    /// Something else came.
    Bad,
}

/// The greetings of a link (nng_tcp(7)): the own one, and how far the peer's came. Contracts see the own role, all
/// bytes that were fed, and whether it still waits for more; after `Peer` or `Bad` it takes no more.
#[derive(Debug, Drop)]
pub struct Greeting {
    /// The role of this side.
    role: Role,
    /// The greeting that this side writes.
    own: [u8; 8],
    /// The greeting that is expected from the peer.
    peer: [u8; 8],
    /// The number of bytes of the peer's greeting that came.
    seen: usize,
    /// Whether it still waits for more.
    waits: bool,
    /// All bytes that were fed. They take no memory.
    fed: Fed,
}

impl Model for Greeting {
    ghost use Rattle.std.specs.Prelude.{take, length, ◌≤◌, ◌≡◌};
    ghost use Rattle.sp_base.specs.SpTcp.{hello};
    ghost use Rattle.sp_base.specs.Roles.{role_number};
    ghost use Rattle.sp_tcp.specs.Views.{GreetingView};
    ghost use Rattle.sp_tcp.specs.Greetings.{peer_hello, AreGreetings};

    ghost Value = { GreetingView };

    ghost view = { λ g. record { role = g.role; fed = g.fed.bytes; is_open = g.waits } };

    ghost invariant = { λ g. AreGreetings g.role g.own g.peer g.seen g.waits g.fed.bytes };
}

fn greeting_of(number: u16) -> [u8; 8]
    ensures { result ≡ hello number }
{
    let [high, low] = number.to_be_bytes();
    [0, 83, 80, 0, high, low, 0, 0]
}

// Returns whether the bytes are the same.
pub(crate) fn is_same(a: &[u8], b: &[u8]) -> bool
    ensures { IsTrue result ↔ (a.now ≡ b.now) }
{
    a == b
}

impl Greeting {
    /// The greetings of a link of a socket of this role, before anything came from the peer.
    pub fn new(role: Role) -> Greeting
        ensures { result ≡ record { role = role; fed = []; is_open = true } }
    {
        Greeting {
            role,
            own: greeting_of(role.number()),
            peer: greeting_of(role.peer().number()),
            seen: 0,
            waits: true,
            fed: Fed::none(),
        }
    }

    /// The greeting that this side writes.
    pub fn hello(&self) -> &[u8]
        ensures { result.now ≡ hello (role_number self.now.role) }
    {
        &self.own
    }

    /// Returns whether it waits for more of the peer's greeting, so that more may be fed.
    pub fn is_open(&self) -> bool
        ensures { result ≡ self.now.is_open }
    {
        self.waits
    }

    /// Takes the next piece that came, however the bytes are cut. Takes no memory.
    pub fn feed(&mut self, piece: &[u8]) -> Greeted
        requires { self.old.is_open ≡ true }
        ensures role { self.new.role ≡ self.old.role }
        ensures fed { self.new.fed ≡ self.old.fed ++ piece.now }
        ensures exact { FedAs result piece.now (peer_hello self.old.role) self.old.fed self.new.is_open }
    {
        self.fed = self.fed.and(&Piece { bytes: piece });
        let wanted = &self.peer[self.seen..];
        let count = wanted.len().min(piece.len());
        if !is_same(&piece[..count], &wanted[..count]) {
            self.waits = false;
            return Greeted::Bad;
        }
        self.seen += count;
        if self.seen < 8 {
            return Greeted::More;
        }
        self.waits = false;
        Greeted::Peer(piece.len() - count)
    }
}
