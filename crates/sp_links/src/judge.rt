//! Judging the bytes that came.
ghost use Rattle.std.specs.Prelude.{◌≡◌, ◌↔◌, IsTrue};
ghost use Rattle.sp_links.specs.Openings.{Judges, PartOf};
ghost use Rattle.sp_base.specs.declared.framing.Framing.TheVariants as framings;
ghost use Rattle.sp_links.specs.declared.way.Way.TheVariants as ways;

use crate::way::{Way, key_of, nothing};
use sp_base::{Bytes, Role};
use sp_tcp::Greeting;
use sp_upgrade::{Head, client_answer, server_head};
use std::alloc::Global;

/// The verdict on all bytes that came.
pub enum PeerPart {
    /// The peer's part isn't whole yet.
    More,
    /// The peer's part is the first `used` bytes, and `answer` is to be written for it.
    Good { used: usize, answer: Bytes },
    /// The bytes are wrong, whatever follows.
    Bad,
    /// Out of memory.
    NoMemory,
}

/// The verdict on the bytes that came, on a link that begins in this way.
pub(crate) fn judge(alloc: Global, role: Role, way: &Way, came: &[u8]) -> PeerPart
    ensures { Judges role way.now result came.now }
{
    match way {
        Way::Greeting { framing: _ } => judge_greeting(alloc, role, came),
        Way::Serves { path } => part_of(server_head(alloc, came, role, path.as_slice())),
        Way::Asks { addr: _, start } => part_of(client_answer(alloc, came, &key_of(*start), role)),
    }
}

// The verdict is the same for every framing.
fn judge_greeting(alloc: Global, role: Role, came: &[u8]) -> PeerPart
    ensures { Judges role (ways.Greeting framings.Tcp) result came.now }
{
    let greeting = Greeting::new(role.peer());
    let wanted = greeting.hello();
    let count = came.len().min(8);
    if !is_same(&came[..count], &wanted[..count]) {
        return PeerPart::Bad;
    }
    if count < 8 {
        return PeerPart::More;
    }
    PeerPart::Good {
        used: 8,
        answer: nothing(alloc),
    }
}

fn is_same(a: &[u8], b: &[u8]) -> bool
    ensures { IsTrue result ↔ (a.now ≡ b.now) }
{
    a == b
}

fn part_of(head: Head) -> PeerPart
    ensures { PartOf head result }
{
    match head {
        Head::More => PeerPart::More,
        Head::Good { used, answer } => PeerPart::Good {
            used: used as usize,
            answer,
        },
        Head::Bad(_) => PeerPart::Bad,
        Head::NoMemory => PeerPart::NoMemory,
    }
}
