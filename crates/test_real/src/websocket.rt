//! Runs over WebSocket on the machine's sockets, byte for byte: the peer writes and reads plain bytes.

use crate::checks::{holds, made};
use cat_run::real::{RealFiles, RealPace, TcpNet};
use cat_run::{Status, run};
use sp_base::{Pace, Paced};
use sp_fakes::MemSink;
use std::alloc::Global;
use std::io::{Read, Write};
use std::net::{IpAddr, Ipv4Addr, OpenListener, OpenStream, SocketAddr, TcpListener, TcpStream};
use std::process::Abort;
use std::rt::{Clock, Files as SystemFiles};
use std::sync::Wait;
use std::thread::Threads;

// The sample head of the standard, from a req to a rep.
const HEAD: &[u8] =
    b"GET / HTTP/1.1\r\nHost: 127.0.0.1:5555\r\nUpgrade: websocket\r\nConnection: Upgrade\r\nSec-WebSocket-Key: dGhlIHNhbXBsZSBub25jZQ==\r\nSec-WebSocket-Version: 13\r\nSec-WebSocket-Protocol: rep.sp.nanomsg.org\r\n\r\n";

// The request `q` in a masked frame.
const REQUEST: &[u8] = b"\x82\x85\x00\x00\x00\x00\x80\x00\x00\x05q";

// What a rep writes in all: the answer to the head, and its reply.
const REPLIED: &[u8] =
    b"HTTP/1.1 101 Switching Protocols\r\nUpgrade: websocket\r\nConnection: Upgrade\r\nSec-WebSocket-Accept: s3pPLMBiTxaQ9kYGzzhZRbK+xOo=\r\nSec-WebSocket-Protocol: rep.sp.nanomsg.org\r\n\r\n\x82\x06\x80\x00\x00\x05OK";

// The answer to the first head of a pull that was given the number 0.
const GRANTS: &[u8] =
    b"HTTP/1.1 101 Switching Protocols\r\nUpgrade: websocket\r\nConnection: Upgrade\r\nSec-WebSocket-Accept: pcNwVK8H2TInp2i0TlaErEE0lwU=\r\nSec-WebSocket-Protocol: push.sp.nanomsg.org\r\n\r\n";

/// How a peer meets a run.
#[derive(Drop)]
enum PeerEnd<R: std::net::Net> {
    /// It connects to this address.
    Dials(SocketAddr),
    /// It waits at this listener.
    Listens(R::Listener),
}

// The peer's socket, which doesn't wait.
fn met<R: std::net::Net>(rt: &R, end: &PeerEnd<R>) -> Option<R::Stream> {
    let stream = match end {
        PeerEnd::Dials(to) => TcpStream::connect(rt, *to).ok()?,
        PeerEnd::Listens(listener) => {
            let (stream, _) = listener.accept().ok()?;
            stream
        }
    };
    stream.set_nonblocking(true).ok()?;
    Some(stream)
}

// Reads what came, up to the end or until nothing is there.
fn hear<S: Read>(stream: &mut S, came: &mut Vec<u8>) {
    let mut buffer = [0u8; 256];
    for _ in 0..1_000 {
        match stream.read(&mut buffer) {
            Ok(n) => {
                if n == 0 || came.extend_from_slice(&buffer[..n]).is_err() {
                    return;
                }
            }
            Err(_) => return,
        }
    }
}

/// A peer over a socket of this machine: once `after` bytes came in all, it sends a text at each turn.
#[derive(Drop)]
struct Peer<'a, R: std::net::Net + Drop> {
    rt: R,
    end: PeerEnd<R>,
    stream: Option<R::Stream>,
    after: usize,
    says: &'a [&'a [u8]],
    said: usize,
    came: Vec<u8>,
}

impl<'a, R: std::net::Net + Drop> Peer<'a, R> {
    // Reads what came, and sends the next text.
    fn turn(&mut self) {
        if self.stream.is_none() {
            self.stream = met(&self.rt, &self.end);
        }
        let Some(stream) = &mut self.stream else {
            return;
        };
        hear(stream, &mut self.came);
        let Some(text) = self.says.get(self.said) else {
            return;
        };
        if self.came.len() >= self.after {
            let _ = stream.write_all(text);
            self.said = self.said.saturating_add(1);
        }
    }

    // Reads to the end, and returns all that came.
    fn heard(self) -> Vec<u8> {
        let Peer {
            rt: _,
            end: _,
            mut stream,
            after: _,
            says: _,
            said: _,
            mut came,
        } = self;
        if let Some(stream) = &mut stream {
            if stream.set_nonblocking(false).is_ok() {
                hear(stream, &mut came);
            }
        }
        came
    }
}

/// A pace with a peer that has its turn before each of the run's.
#[derive(Drop)]
struct PaceWithPeer<'a, P: Pace + Drop, R: std::net::Net + Drop> {
    pace: P,
    peer: Peer<'a, R>,
}

impl<'a, P: Pace + Drop, R: std::net::Net + Drop> Pace for PaceWithPeer<'a, P, R> {
    ghost seen = { λ b. P.seen b.pace };

    fn turn(&mut self, moved: bool) -> Paced {
        self.peer.turn();
        self.pace.turn(moved)
    }
}

/// What a peer sends and receives, and what the run prints.
#[derive(Clone, Copy)]
struct Talk<'a> {
    /// The number of bytes that come before it sends something.
    after: usize,
    says: &'a [&'a [u8]],
    hears: &'a [u8],
    prints: &'a [u8],
}

// Runs the words with a peer's talk. Returns whether the run was done and all was right; `None` where the net failed.
fn is_so<
    R: std::net::Net
        + SystemFiles
        + Input
        + Clock
        + AllocGlobal
        + Abort
        + Wait
        + Threads
        + Sync
        + Clone
        + Drop,
>(rt: &R, text: &str, end: PeerEnd<R>, talk: Talk<'_>) -> Option<bool> {
    let alloc = rt.alloc();
    let words = words_of(rt, alloc, text);
    let own = made(rt, RealPace::new(made(rt, rt.clone()), rt, alloc));
    let mut net = TcpNet::new(made(rt, rt.clone()), made(rt, own.registry()), alloc);
    let mut files = RealFiles::new(made(rt, rt.clone()));
    let mut out = MemSink::new(alloc, Vec::new(alloc));
    let peer = Peer {
        rt: made(rt, rt.clone()),
        end,
        stream: None,
        after: talk.after,
        says: talk.says,
        said: 0,
        came: Vec::new(alloc),
    };
    let mut pace = PaceWithPeer { pace: own, peer };
    let ran = run(rt, &words, &mut net, &mut files, &mut pace, &mut out, 0);
    drop(net);
    let PaceWithPeer { pace: _, peer } = pace;
    let heard = peer.heard();
    if ran.status == Status::NetFault {
        return None;
    }
    let done = ran.status == Status::Done && out.text() == talk.prints;
    Some(done && heard.as_slice() == talk.hears)
}

/// The words between spaces.
pub(crate) fn words_of(rt: &impl Abort, alloc: Global, text: &str) -> Vec<String> {
    let mut words = Vec::new(alloc);
    for word in text.split(' ') {
        made(rt, words.push(made(rt, String::from_str(alloc, word))));
    }
    words
}

/// A port of this machine.
pub(crate) fn here(port: u16) -> SocketAddr {
    SocketAddr::new(IpAddr::V4(Ipv4Addr::new(127, 0, 0, 1)), port)
}

// Runs a rep at this port; its peer sends the head in two pieces, the second one followed by the request.
fn rep_answers<
    R: std::net::Net
        + SystemFiles
        + Input
        + Clock
        + AllocGlobal
        + Abort
        + Wait
        + Threads
        + Sync
        + Clone
        + Drop,
>(rt: &R, port: u16) -> Option<bool> {
    let words = made(
        rt,
        format!(in rt.alloc();
            "--rep --listen ws://127.0.0.1:{port}/ --data OK --ascii --count 1 --recv-timeout 20"
        ),
    );
    let (begun, rest) = HEAD.split_at(100.min(HEAD.len()));
    let talk = Talk {
        after: 0,
        says: &[begun, rest, REQUEST],
        hears: REPLIED,
        prints: b"q\n",
    };
    is_so(rt, &words, PeerEnd::Dials(here(port)), talk)
}

#[test]
fn a_rep_answers_a_websocket_of_this_machine(rt: HostRuntime) {
    for port in 28_275..28_305 {
        if let Some(so) = rep_answers(&rt, port) {
            holds(&rt, so);
            return;
        }
    }
    assert!(rt; false, "no port is free");
}

#[test]
fn a_pull_dials_a_websocket_of_this_machine(rt: HostRuntime) {
    holds(&rt, pull_dials(&rt) == Some(true));
}

// Runs a pull that dials; its peer answers its head, and sends a message.
fn pull_dials<
    R: std::net::Net
        + SystemFiles
        + Input
        + Clock
        + AllocGlobal
        + Abort
        + Wait
        + Threads
        + Sync
        + Clone
        + Drop,
>(rt: &R) -> Option<bool> {
    let listener = made(rt, TcpListener::bind(rt, here(0)));
    made(rt, listener.set_nonblocking(true));
    let port = made(rt, listener.local_addr()).port();
    let words = made(
        rt,
        format!(in rt.alloc();
            "--pull --dial ws://127.0.0.1:{port}/ --ascii --count 1 --recv-timeout 20"
        ),
    );
    let asks = made(
        rt,
        format!(in rt.alloc();
            "GET / HTTP/1.1\r\nHost: 127.0.0.1:{port}\r\nUpgrade: websocket\r\nConnection: Upgrade\r\nSec-WebSocket-Key: FAV7fvdngU8aCO4RhLptMg==\r\nSec-WebSocket-Version: 13\r\nSec-WebSocket-Protocol: push.sp.nanomsg.org\r\n\r\n"
        ),
    );
    let talk = Talk {
        after: asks.len(),
        says: &[GRANTS, b"\x82\x05hello"],
        hears: asks.as_bytes(),
        prints: b"hello\n",
    };
    is_so(rt, &words, PeerEnd::Listens(listener), talk)
}
