//! Nodes over links in memory.
use crate::checks::{holds, made, same};
use proto_bus::Bus;
use proto_pipeline::Pull;
use sp_base::{Addr, Bytes, Host, Role};
use sp_fakes::{LinkStep, MemLink, MemNet, MemPace, NetLink};
use sp_msg::Message;
use sp_node::{EndsError, Node, NodeEnds, RECV_MAX_SIZE, WaitError};
use sp_socket::{BeginError, Cause, Options};
use std::process::Abort;
use std::sync::Wait;

/// What a push says first (the greeting of SP over TCP), and then one message.
pub const PUSHED: &[u8] = b"\0SP\0\0\x50\0\0\0\0\0\0\0\0\0\x05hello";

// What a push asks over WebSocket.
const ASKED: &str =
    "GET / HTTP/1.1\r\nHost: 127.0.0.1:5556\r\nUpgrade: websocket\r\nConnection: Upgrade\r\n\
    Sec-WebSocket-Key: dGhlIHNhbXBsZSBub25jZQ==\r\nSec-WebSocket-Version: 13\r\n\
    Sec-WebSocket-Protocol: pull.sp.nanomsg.org\r\n\r\n";

// Then one message, in a binary frame whose key is zeros.
const FRAMED: &[u8] = b"\x82\x85\0\0\0\0world";

// The greeting of a push, and another message.
const PUSHED_OTHER: &[u8] = b"\0SP\0\0\x50\0\0\0\0\0\0\0\0\0\x05world";

/// A pull over memory, and its net.
pub type Pulls<'r, R> = Node<'r, R, Pull, NetLink, MemNet, MemPace>;

// One link, on which these pieces come, one after the other.
fn link_of<R: Abort + AllocGlobal>(rt: &R, pieces: &[&[u8]]) -> Vec<MemLink> {
    let alloc = rt.alloc();
    let mut script = Vec::new(alloc);
    for piece in pieces {
        let came = made(rt, Bytes::from_slice(alloc, piece));
        made(rt, script.push(LinkStep::Bytes(came)));
    }
    let mut links = Vec::new(alloc);
    made(
        rt,
        links.push(MemLink::new(alloc, script, 64, Vec::new(alloc))),
    );
    links
}

// A net in which one link comes to the first listener, on which these bytes come; its calls with these numbers fail.
fn net_of<R: Abort + AllocGlobal>(rt: &R, bytes: &[u8], fails: Vec<u64>) -> MemNet {
    let alloc = rt.alloc();
    let mut incoming = Vec::new(alloc);
    made(rt, incoming.push(link_of(rt, &[bytes])));
    made(rt, MemNet::new(alloc, incoming, Vec::new(alloc), fails))
}

// A pull before its first turn, with so many turns.
fn pull_ends<'r, R: Wait + Abort + AllocGlobal>(
    rt: &'r R,
    net: MemNet,
    turns: u64,
) -> NodeEnds<'r, R, Pull, NetLink, MemNet, MemPace> {
    let Ok(machine) = Pull::new(rt.alloc(), Options::usual(Role::Pull, 0), false) else {
        panic!(rt; "out of memory")
    };
    made(
        rt,
        NodeEnds::open(rt, machine, net, MemPace::new(turns, 1), 0),
    )
}

/// A pull that listens.
pub fn pull<'r, R: Wait + Abort + AllocGlobal>(
    rt: &'r R,
    bytes: &[u8],
    turns: u64,
) -> Pulls<'r, R> {
    let mut ends = pull_ends(rt, net_of(rt, bytes, Vec::new(rt.alloc())), turns);
    same(
        rt,
        ends.listen("tcp://127.0.0.1:5555", RECV_MAX_SIZE),
        Ok(()),
    );
    ends.start()
}

#[test]
fn a_message_comes_and_no_second_one(rt: HostRuntime) {
    let mut pull = pull(&rt, PUSHED, 1_000);
    let came = made(&rt, pull.recv(Some(50)));
    same(&rt, came.body(), b"hello");
    same(
        &rt,
        pull.recv(Some(20)).err(),
        Some(WaitError::Gone(Cause::TimedOut)),
    );
    let _ = pull.close();
    same(
        &rt,
        pull.recv(None).err(),
        Some(WaitError::Begin(BeginError::Closed)),
    );
    let end = pull.finish();
    same(&rt, end.net.opened(), 1);
    let is_shut = match end.net.returned(0) {
        Some(link) => !link.is_open(),
        None => false,
    };
    holds(&rt, is_shut);
}

// Checks that only this one of two messages comes.
fn only<R: Wait + Abort + AllocGlobal>(rt: &R, mut pull: Pulls<'_, R>, body: &[u8]) {
    let came = made(rt, pull.recv(Some(50)));
    same(rt, came.body(), body);
    same(
        rt,
        pull.recv(Some(20)).err(),
        Some(WaitError::Gone(Cause::TimedOut)),
    );
    let end = pull.finish();
    same(rt, end.net.opened(), 2);
}

// Checks that only this message comes, where `hello` comes over TCP and `world` over TCP or WebSocket.
fn only_of_listeners<R: Wait + Abort + AllocGlobal>(
    rt: &R,
    pieces: &[&[u8]],
    text: &str,
    limits: (u32, u32),
    body: &[u8],
) {
    let alloc = rt.alloc();
    let mut incoming = Vec::new(alloc);
    made(rt, incoming.push(link_of(rt, &[PUSHED])));
    made(rt, incoming.push(link_of(rt, pieces)));
    let outgoing = Vec::new(alloc);
    let net = made(rt, MemNet::new(alloc, incoming, outgoing, Vec::new(alloc)));
    let mut ends = pull_ends(rt, net, 1_000);
    same(rt, ends.listen("tcp://127.0.0.1:5555", limits.0), Ok(()));
    same(rt, ends.listen(text, limits.1), Ok(()));
    only(rt, ends.start(), body);
}

#[test]
fn each_end_has_its_own_limit(rt: HostRuntime) {
    let other = "tcp://127.0.0.1:5556";
    only_of_listeners(&rt, &[PUSHED_OTHER], other, (4, 5), b"world");
    only_of_listeners(&rt, &[PUSHED_OTHER], other, (5, 4), b"hello");
}

#[test]
fn an_end_over_websocket_has_its_own_limit(rt: HostRuntime) {
    let other = "ws://127.0.0.1:5556/";
    only_of_listeners(&rt, &[ASKED.as_bytes(), FRAMED], other, (4, 5), b"world");
    only_of_listeners(&rt, &[ASKED.as_bytes(), FRAMED], other, (5, 4), b"hello");
}

// A link that comes when this port is dialed, on which these bytes come.
fn dialed<R: Abort + AllocGlobal>(rt: &R, port: u16, bytes: &[u8]) -> (Addr, Vec<MemLink>) {
    let addr = Addr::Tcp {
        host: Host::V4(127, 0, 0, 1),
        port,
    };
    (addr, link_of(rt, &[bytes]))
}

// Checks that only this message comes, where `hello` comes from the first address that is dialed and `world` from the
// second.
fn only_of_dialers<R: Wait + Abort + AllocGlobal>(rt: &R, limits: (u32, u32), body: &[u8]) {
    let alloc = rt.alloc();
    let mut outgoing = Vec::new(alloc);
    made(rt, outgoing.push(dialed(rt, 5555, PUSHED)));
    made(rt, outgoing.push(dialed(rt, 5556, PUSHED_OTHER)));
    let incoming = Vec::new(alloc);
    let net = made(rt, MemNet::new(alloc, incoming, outgoing, Vec::new(alloc)));
    let mut ends = pull_ends(rt, net, 1_000);
    same(rt, ends.dial("tcp://127.0.0.1:5555", limits.0), Ok(()));
    same(rt, ends.dial("tcp://127.0.0.1:5556", limits.1), Ok(()));
    only(rt, ends.start(), body);
}

#[test]
fn each_dialed_address_has_its_own_limit(rt: HostRuntime) {
    only_of_dialers(&rt, (4, 5), b"world");
    only_of_dialers(&rt, (5, 4), b"hello");
}

#[test]
fn a_clock_that_is_over_closes_it(rt: HostRuntime) {
    let mut pull = pull(&rt, b"", 3);
    same(
        &rt,
        pull.recv(None).err(),
        Some(WaitError::Gone(Cause::Closed)),
    );
    holds(&rt, pull.is_closed());
    let _ = pull.finish();
}

// No limit holds within the process.
#[test]
fn a_bus_hears_itself_within_the_process(rt: HostRuntime) {
    let alloc = rt.alloc();
    let Ok(machine) = Bus::new(alloc, Options::usual(Role::Bus, 0), false) else {
        panic!(&rt; "out of memory")
    };
    let net = net_of(&rt, b"", Vec::new(alloc));
    let mut ends = made(
        &rt,
        NodeEnds::open(&rt, machine, net, MemPace::new(1_000, 1), 0),
    );
    same(&rt, ends.listen("inproc://a", 4), Ok(()));
    same(&rt, ends.listen("inproc://a", 4), Err(EndsError::InUse));
    same(&rt, ends.dial("inproc://a", 0), Ok(()));
    let mut bus = ends.start();
    bus.turn();
    bus.turn();
    let said = made(&rt, Message::from_body(alloc, b"hello"));
    made(&rt, bus.send(said, Some(50)));
    let came = made(&rt, bus.recv(Some(50)));
    same(&rt, came.body(), b"hello");
    let _ = bus.finish();
}

// What an end that is refused says of the text.
fn says<R: Wait + Abort + AllocGlobal>(rt: &R, refused: Result<(), EndsError>, text: &str) {
    match refused {
        Ok(()) => panic!(rt; "not refused: {text}"),
        Err(why) => {
            let said = made(rt, format!(in rt.alloc(); "{why}"));
            same(rt, said.as_str(), text);
        }
    }
}

#[test]
fn refusals_have_texts(rt: HostRuntime) {
    let alloc = rt.alloc();
    let mut fails = Vec::new(alloc);
    made(&rt, fails.push(0));
    let mut ends = pull_ends(&rt, net_of(&rt, b"", fails), 10);
    says(
        &rt,
        ends.listen("tcp://127.0.0.1:5555", RECV_MAX_SIZE),
        "Address in use",
    );
    says(
        &rt,
        ends.listen("tcp:/127.0.0.1:5555", RECV_MAX_SIZE),
        "Address invalid behind its first 5 bytes",
    );
    says(
        &rt,
        ends.dial("tcp://*:5555", RECV_MAX_SIZE),
        "Address invalid: no one host",
    );
    for _ in 0..64 {
        same(
            &rt,
            ends.dial("tcp://127.0.0.1:5556", RECV_MAX_SIZE),
            Ok(()),
        );
    }
    says(
        &rt,
        ends.dial("tcp://127.0.0.1:5557", RECV_MAX_SIZE),
        "Resource busy",
    );
    let mut pull = ends.start();
    match pull.recv(Some(5)) {
        Ok(_) => panic!(&rt; "a message"),
        Err(why) => {
            let said = made(&rt, format!(in alloc; "{why}"));
            same(&rt, said.as_str(), "Timed out");
        }
    }
    let _ = pull.finish();
}
