//! Links in memory that are opened by a greeting, by serving and by asking, with exact bytes.
ghost use Rattle.sp_base.specs.Steps.{IsNew};
ghost use Rattle.sp_fakes.specs.MemLinks.{link_view};
ghost use Rattle.sp_links.specs.Openings.{CanBegin};
ghost use Rattle.sp_links.specs.Going.{IsUnderWay};

use crate::checks::{holds, made};
use crate::heads::{REQUEST, RESPONSE};
use sp_base::{Addr, Bytes, Framing, Host, Role, Scheme};
use sp_fakes::{LinkStep, MemLink};
use sp_links::{Opening, Progress, Way};
use std::alloc::Global;
use std::process::Abort;

// The request with the key that the generator gives from 0 on, and its response.
const ASKED: &[u8] =
    b"GET / HTTP/1.1\r\nHost: 127.0.0.1:5555\r\nUpgrade: websocket\r\nConnection: Upgrade\r\nSec-WebSocket-Key: FAV7fvdngU8aCO4RhLptMg==\r\nSec-WebSocket-Version: 13\r\nSec-WebSocket-Protocol: rep.sp.nanomsg.org\r\n\r\n";

const ANSWERED: &[u8] =
    b"HTTP/1.1 101 Switching Protocols\r\nUpgrade: websocket\r\nConnection: Upgrade\r\nSec-WebSocket-Accept: pcNwVK8H2TInp2i0TlaErEE0lwU=\r\nSec-WebSocket-Protocol: rep.sp.nanomsg.org\r\n\r\n";

// What a rep writes first over TCP.
const GREETING: &[u8] = b"\x00SP\x00\x00\x31\x00\x00";

// A link that takes 40 bytes a write. It brings these pieces, the second after `after` bytes were written.
fn linked(
    rt: &impl Abort,
    alloc: Global,
    first: &[u8],
    after: u64,
    second: &[u8],
    scheme: Scheme,
) -> MemLink
    ensures { IsNew (link_view result).place (link_view result) }
{
    let mut script = Vec::new(alloc);
    made(rt, script.push(LinkStep::Bytes(bytes(rt, alloc, first))));
    made(rt, script.push(LinkStep::NotYet));
    made(rt, script.push(LinkStep::After(after)));
    made(rt, script.push(LinkStep::Bytes(bytes(rt, alloc, second))));
    MemLink::new(alloc, script, 40, Vec::new(alloc)).placed(0, scheme)
}

fn bytes(rt: &impl Abort, alloc: Global, text: &[u8]) -> Bytes {
    Bytes::from_vec(made(rt, Vec::from_slice(alloc, text)))
}

// Tries twice, where the first try waits.
fn greet_twice(opening: &mut Opening<MemLink>, alloc: Global) -> Progress
    requires { IsUnderWay link_view opening.old }
{
    match opening.greet(alloc) {
        Progress::Waits => opening.greet(alloc),
        other => other,
    }
}

// Returns whether the opening has this result, after the link wrote `written`. If it is opened, the bytes `behind`
// follow the peer's part.
fn comes_to(
    alloc: Global,
    link: MemLink,
    role: Role,
    way: Way,
    wanted: Progress,
    written: &[u8],
    behind: &[u8],
) -> bool
    requires fresh { IsNew (link_view link).place (link_view link) }
    requires can { CanBegin way }
{
    let Ok(mut opening) = Opening::new(alloc, link, role, way) else {
        return false;
    };
    let is_wanted = greet_twice(&mut opening, alloc) == wanted;
    let has_behind = is_behind(opening.came.as_slice(), opening.used, behind);
    let link = opening.into_link();
    is_wanted && (wanted != Progress::Opened || has_behind) && link.written() == written
}

// Returns whether the bytes `behind` follow the first `used`.
fn is_behind(came: &[u8], used: Option<usize>, behind: &[u8]) -> bool {
    match used {
        Some(used) => used <= came.len() && &came[used..] == behind,
        None => false,
    }
}

#[test]
fn a_listening_link_answers(rt: HostRuntime) {
    let alloc = rt.alloc();
    let link = linked(&rt, alloc, &REQUEST[..100], 0, &REQUEST[100..], Scheme::Ws);
    let way = Way::Serves {
        path: bytes(&rt, alloc, b"/"),
    };
    let opened = Progress::Opened;
    holds(
        &rt,
        comes_to(alloc, link, Role::Rep, way, opened, RESPONSE, b""),
    );
}

#[test]
fn a_dialing_link_asks_first(rt: HostRuntime) {
    let alloc = rt.alloc();
    let mut all = made(&rt, Vec::from_slice(alloc, ANSWERED));
    made(&rt, all.extend_from_slice(b"\x82\x00"));
    let link = linked(&rt, alloc, b"", 197, &all, Scheme::Ws);
    let addr = Addr::Ws {
        host: Host::V4(127, 0, 0, 1),
        port: 5555,
        path: bytes(&rt, alloc, b"/"),
    };
    let way = Way::Asks { addr, start: 0 };
    let opened = Progress::Opened;
    holds(
        &rt,
        comes_to(alloc, link, Role::Req, way, opened, ASKED, b"\x82\x00"),
    );
}

#[test]
fn both_sides_greet_over_tcp(rt: HostRuntime) {
    let alloc = rt.alloc();
    let rest = b"\x00\x00\x30\x00\x00\x00\x00";
    let link = linked(&rt, alloc, b"\x00SP", 8, rest, Scheme::Tcp);
    let opened = Progress::Opened;
    holds(
        &rt,
        comes_to(
            alloc,
            link,
            Role::Rep,
            Way::Greeting {
                framing: Framing::Tcp,
            },
            opened,
            GREETING,
            b"\x00\x00",
        ),
    );
}

#[test]
fn what_is_wrong_is_not_answered(rt: HostRuntime) {
    let alloc = rt.alloc();
    let link = linked(&rt, alloc, b"\x00SQ", 0, b"", Scheme::Ipc);
    let bad = Progress::Bad;
    let way = Way::Greeting {
        framing: Framing::Ipc,
    };
    holds(
        &rt,
        comes_to(alloc, link, Role::Rep, way, bad, GREETING, b""),
    );
    let link = linked(&rt, alloc, REQUEST, 0, b"", Scheme::Ws);
    let way = Way::Serves {
        path: bytes(&rt, alloc, b"/b"),
    };
    holds(&rt, comes_to(alloc, link, Role::Rep, way, bad, b"", b""));
}
