//! The net and the pace of this machine, as lines:
//!
//! | line | what it says |
//! |---|---|
//! | `carries 12000000 28115` | 12,000,000 bytes go there and back, over a link of the net to itself |
//! | `talks 2 27815` | 2 ports have no listener; then a byte goes there and back, and the port is in use |
//! | `resets read 28155` | a peer resets the connection, and a read finds the fault |
//! | `resets write 28235` | the same, and a write finds it |
//! | `reaches one 28195` | a listener at one address of this machine is reached there, and not at another one |
//! | `reaches every 28235` | a listener at every address is reached at both |
//! | `local socket_of_a_test` | the path isn't there; then a byte goes there and back, the path is in use, and stays |
//! | `file file_of_a_test` | at a file nobody listens, and a listen fails; at a path below it both fail |
//! | `rests 3 3` | after 3 quiet turns the tick is 3 or later |
//! | `looks_again 101 5 5 50` | after 101 quiet turns the shortest of 5 rests takes 5 to 50 milliseconds |
//!
//! The last number of a line of the net is a port: the line uses the first free one of 30 ports from it on. Where bytes
//! go there and back, no link and no byte came before, and the end comes after them.
ghost use Rattle.std.specs.Prelude.{◌≡◌, ◌≤◌, ◌<◌, true, length, IsSome, IfSome};
ghost use Rattle.std.specs.FinMap as map;
ghost use Rattle.sp_base.specs.Addresses.{is_dialable, is_linked};

use crate::bytes::patterned;
use crate::checks::made;
use cat_run::real::{RealPace, TcpNet};
use sp_base::{Addr, Bytes, Host, Link, LinkRead, LinkWrite, Linked, Listened, Net, Pace, Paced};
use std::alloc::Global;
use std::fs;
use std::fs::Files;
use std::net::{IpAddr, Ipv4Addr, SocketAddr, TcpStream};
use std::process::Abort;
use std::rt::Clock;

/// An address of this machine.
pub fn address(last: u8, port: u16) -> Addr
    ensures dialable { is_dialable result ≡ true }
    ensures linked { is_linked result ≡ true }
{
    Addr::Tcp {
        host: Host::V4(127, 0, 0, last),
        port,
    }
}

// The address to listen at: every address, or one.
fn place(every: bool, port: u16) -> Addr
    ensures { is_linked result ≡ true }
{
    if every {
        Addr::Tcp {
            host: Host::Any,
            port,
        }
    } else {
        address(1, port)
    }
}

/// The first of 30 ports that is free, with the number of the listener there.
pub fn listening<N: Net>(net: &mut N, every: bool, first: u16) -> Option<(u32, u16)>
    ensures { IfSome result (λ l. IsSome (map.get (N.seen net.new).listens l.0)) }
{
    for step in 0..30 {
        let port = first.saturating_add(step);
        if let Listened::At(at) = net.listen(&place(every, port)) {
            return Some((at, port));
        }
    }
    None
}

/// Gives the link back.
pub fn done<N: Net>(net: &mut N, link: N::L)
    requires { (N.L.seen link).place < (N.seen net.old).opened }
    ensures opened { (N.seen net.new).opened ≡ (N.seen net.old).opened }
    ensures listens { (N.seen net.new).listens ≡ (N.seen net.old).listens }
{
    let mut link = link;
    link.shut();
    net.give_back(link);
}

/// Accepts a link within 1,000 turns.
pub fn accepted<N: Net, P: Pace>(net: &mut N, at: u32, pace: &mut P) -> Option<N::L>
    requires { IsSome (map.get (N.seen net.old).listens at) }
    ensures link { IfSome result (λ l. ((N.L.seen l).is_open ≡ true) × ((N.L.seen l).place < (N.seen net.new).opened)) }
    ensures opened { (N.seen net.old).opened ≤ (N.seen net.new).opened }
    ensures listens { (N.seen net.new).listens ≡ (N.seen net.old).listens }
{
    for turn in 0..1_000 {
        let _paced = pace.turn(false);
        match net.accept(at) {
            Linked::Got(link) => return Some(link),
            Linked::NotYet | Linked::Begun | Linked::Failed => (),
        }
    }
    None
}

// Returns whether an accept finds no link yet, which is no fault.
fn nobody_comes<N: Net>(net: &mut N, at: u32) -> bool
    requires { IsSome (map.get (N.seen net.old).listens at) }
    ensures { (N.seen net.new).listens ≡ (N.seen net.old).listens }
{
    match net.accept(at) {
        Linked::NotYet => true,
        Linked::Begun | Linked::Failed => false,
        Linked::Got(link) => {
            done(net, link);
            false
        }
    }
}

// Returns whether a dial finds no listener yet, which is no fault.
fn is_refused<N: Net>(net: &mut N, addr: &Addr) -> bool
    requires { is_dialable addr.now ≡ true }
{
    match net.dial(addr) {
        Linked::NotYet => true,
        Linked::Begun | Linked::Failed => false,
        Linked::Got(link) => {
            done(net, link);
            false
        }
    }
}

/// Returns whether a read finds nothing yet, which is no fault.
pub fn nothing_comes<L: Link>(link: &mut L) -> bool
    requires { (L.seen link.old).is_open ≡ true }
    ensures place { (L.seen link.new).place ≡ (L.seen link.old).place }
    ensures still { (L.seen link.new).is_open ≡ true }
{
    let mut buffer = [0u8; 4];
    matches!(link.read(&mut buffer), LinkRead::NotYet)
}

/// The result of the first read that finds something, within a bounded number of turns.
pub fn found<L: Link, P: Pace>(link: &mut L, pace: &mut P) -> LinkRead
    requires { (L.seen link.old).is_open ≡ true }
    ensures place { (L.seen link.new).place ≡ (L.seen link.old).place }
    ensures still { (L.seen link.new).is_open ≡ true }
{
    let mut buffer = [0u8; 4];
    for turn in 0..1_000 {
        let _paced = pace.turn(false);
        match link.read(&mut buffer) {
            LinkRead::NotYet => (),
            other => return other,
        }
    }
    LinkRead::NotYet
}

// Writes until a fault, within a bounded number of turns, and returns whether one came.
fn write_fails<L: Link, P: Pace>(link: &mut L, pace: &mut P) -> bool
    requires { (L.seen link.old).is_open ≡ true }
    ensures { (L.seen link.new).place ≡ (L.seen link.old).place }
{
    for turn in 0..1_000 {
        let _paced = pace.turn(false);
        match link.write(b"more") {
            LinkWrite::Failed => return true,
            LinkWrite::NotYet | LinkWrite::Took(_) => (),
        }
    }
    false
}

// Returns whether a write (`by_write`) or a read finds the fault.
fn fails<L: Link, P: Pace>(by_write: bool, link: &mut L, pace: &mut P) -> bool
    requires { (L.seen link.old).is_open ≡ true }
    ensures { (L.seen link.new).place ≡ (L.seen link.old).place }
{
    if by_write {
        write_fails(link, pace)
    } else {
        found(link, pace) == LinkRead::Failed
    }
}

/// Writes what the link takes of the bytes after the first `sent`, and returns how many were sent by now.
pub fn write_on<L: Link>(link: &mut L, bytes: &[u8], sent: usize) -> Option<usize>
    requires { (L.seen link.old).is_open ≡ true }
    ensures place { (L.seen link.new).place ≡ (L.seen link.old).place }
    ensures still { (L.seen link.new).is_open ≡ true }
{
    let rest = bytes.get(sent..)?;
    if rest.is_empty() {
        return Some(sent);
    }
    match link.write(rest) {
        LinkWrite::Took(n) => Some(sent.saturating_add(n)),
        LinkWrite::NotYet => Some(sent),
        LinkWrite::Failed => None,
    }
}

// The number of bytes that came by now, if the first `n` bytes of the buffer are those after the first `came`.
fn came_on(buffer: &[u8], n: usize, bytes: &[u8], came: usize) -> Option<usize> {
    let all = came.saturating_add(n);
    if buffer.get(..n)? == bytes.get(came..all)? {
        Some(all)
    } else {
        None
    }
}

// Reads once, and returns how many bytes came by now, where all were right.
fn read_on<L: Link>(link: &mut L, buffer: &mut [u8], bytes: &[u8], came: usize) -> Option<usize>
    requires open_ { (L.seen link.old).is_open ≡ true }
    requires room { 0 < length buffer.old }
    ensures place { (L.seen link.new).place ≡ (L.seen link.old).place }
    ensures still { (L.seen link.new).is_open ≡ true }
    ensures room { length buffer.new ≡ length buffer.old }
{
    match link.read(buffer) {
        LinkRead::Got(n) => came_on(buffer, n, bytes, came),
        LinkRead::NotYet => Some(came),
        LinkRead::Ended | LinkRead::Failed => None,
    }
}

/// Returns whether all bytes pass from one link to the other as they are, though the sockets between may hold fewer.
/// The pace rests at each turn, or, for many bytes, at each hundredth.
pub fn carries<A: Link, B: Link, P: Pace>(
    from: &mut A,
    to: &mut B,
    pace: &mut P,
    bytes: &[u8],
    buffer: &mut [u8],
) -> bool
    requires from_open { (A.seen from.old).is_open ≡ true }
    requires to_open { (B.seen to.old).is_open ≡ true }
    requires room { 0 < length buffer.old }
    ensures from_place { (A.seen from.new).place ≡ (A.seen from.old).place }
    ensures from_still { (A.seen from.new).is_open ≡ true }
    ensures to_place { (B.seen to.new).place ≡ (B.seen to.old).place }
    ensures to_still { (B.seen to.new).is_open ≡ true }
    ensures room { length buffer.new ≡ length buffer.old }
{
    let many = bytes.len() > 1;
    let mut sent = 0;
    let mut came = 0;
    for turn in 0..20_000 {
        if came == bytes.len() {
            return true;
        }
        match write_on(from, bytes, sent) {
            Some(n) => sent = n,
            None => return false,
        }
        let _paced = pace.turn(many && turn % 100 != 99);
        match read_on(to, buffer, bytes, came) {
            Some(n) => came = n,
            None => return false,
        }
    }
    false
}

// Dials the own listener, sends the bytes each way, and ends. Returns whether no link came before, nothing came before
// it was sent, the bytes came as they are, and then the end.
fn talks_to_itself<N: Net, P: Pace>(
    net: &mut N,
    pace: &mut P,
    at: u32,
    addr: &Addr,
    bytes: &[u8],
    buffer: &mut [u8],
) -> Option<bool>
    requires at { IsSome (map.get (N.seen net.old).listens at) }
    requires addr { is_dialable addr.now ≡ true }
    requires room { 0 < length buffer.old }
{
    let nobody_came = nobody_comes(net, at);
    let mut dialed = match net.dial(addr) {
        Linked::Got(link) => link,
        Linked::NotYet | Linked::Begun | Linked::Failed => return None,
    };
    let Some(mut met) = accepted(net, at, pace) else {
        done(net, dialed);
        return None;
    };
    let nothing_came = nothing_comes(&mut met);
    let there = carries(&mut dialed, &mut met, pace, bytes, buffer);
    let back = carries(&mut met, &mut dialed, pace, bytes, buffer);
    done(net, dialed);
    let ended = found(&mut met, pace) == LinkRead::Ended;
    done(net, met);
    Some(nobody_came && nothing_came && there && back && ended)
}

// Sends `count` bytes there and back.
fn carries_at<N: Net, P: Pace>(
    net: &mut N,
    pace: &mut P,
    alloc: Global,
    count: usize,
    first: u16,
) -> Option<bool> {
    let bytes = patterned(alloc, count).ok()?;
    let mut buffer = patterned(alloc, 100_000).ok()?;
    let (at, port) = listening(net, false, first)?;
    talks_to_itself(net, pace, at, &address(1, port), &bytes, &mut buffer)
}

// Listens at the address, talks to itself there, and tries to listen there again. `None` where it is taken.
fn talks_at<N: Net, P: Pace>(net: &mut N, pace: &mut P, addr: &Addr) -> Option<bool>
    requires dialable { is_dialable addr.now ≡ true }
    requires linked { is_linked addr.now ≡ true }
{
    let refused = is_refused(net, addr);
    match net.listen(addr) {
        Listened::At(at) => {
            let mut buffer = [0u8; 4];
            let talked = talks_to_itself(net, pace, at, addr, b"x", &mut buffer);
            let in_use = matches!(net.listen(addr), Listened::Failed);
            Some(refused && in_use && talked == Some(true))
        }
        Listened::Failed => None,
    }
}

// An address of IPC.
fn local(alloc: Global, path: &str) -> Option<Addr>
    ensures { IfSome result (λ addr. (is_dialable addr ≡ true) × (is_linked addr ≡ true)) }
{
    match Bytes::from_slice(alloc, path.as_bytes()) {
        Ok(path) => Some(Addr::Ipc { path }),
        Err(_) => None,
    }
}

// Talks to itself at this path, whose file is left.
fn talks_locally<S: Files, N: Net, P: Pace>(
    system: &S,
    net: &mut N,
    pace: &mut P,
    alloc: Global,
    path: &str,
) -> Option<bool> {
    let addr = local(alloc, path)?;
    let _ = fs::remove_file(system, path);
    let talked = talks_at(net, pace, &addr)?;
    Some(talked && fs::remove_file(system, path).is_ok())
}

// Returns whether a dial is a fault.
fn is_failed<N: Net>(net: &mut N, addr: &Addr) -> bool
    requires { is_dialable addr.now ≡ true }
{
    match net.dial(addr) {
        Linked::Failed => true,
        Linked::NotYet | Linked::Begun => false,
        Linked::Got(link) => {
            done(net, link);
            false
        }
    }
}

// Makes a file with this name, where nobody listens and no listen is possible, nor below it; then removes it.
fn is_no_socket<S: Files, N: Net>(
    system: &S,
    net: &mut N,
    alloc: Global,
    name: &str,
) -> Option<bool> {
    let there = local(alloc, name)?;
    let below = format!(in alloc; "{name}/a").ok()?;
    let below = local(alloc, below.as_str())?;
    fs::write(system, name, b"mine").ok()?;
    let nobody = is_refused(net, &there);
    let taken = matches!(net.listen(&there), Listened::Failed);
    let both = is_failed(net, &below) && matches!(net.listen(&below), Listened::Failed);
    let kept = fs::remove_file(system, name).is_ok();
    Some(nobody && taken && both && kept)
}

// Returns whether all went well at `count` of 30 ports; `None` where too few were free.
fn talks_from<N: Net, P: Pace>(net: &mut N, pace: &mut P, count: u32, first: u16) -> Option<bool> {
    let mut well = 0u32;
    for step in 0..30 {
        if let Some(one) = talks_at(net, pace, &address(1, first.saturating_add(step))) {
            if !one {
                return Some(false);
            }
            well = well.saturating_add(1);
            if well == count {
                return Some(true);
            }
        }
    }
    None
}

// Closes a peer that has unread bytes, so that the system resets the connection, and returns whether the fault is
// found.
fn meets_a_reset<S: std::net::Net, N: Net, P: Pace>(
    system: &S,
    net: &mut N,
    pace: &mut P,
    at: u32,
    port: u16,
    by_write: bool,
) -> Option<bool>
    requires { IsSome (map.get (N.seen net.old).listens at) }
{
    let to = SocketAddr::new(IpAddr::V4(Ipv4Addr::new(127, 0, 0, 1)), port);
    let peer = TcpStream::connect(system, to).ok()?;
    let mut met = accepted(net, at, pace)?;
    let sent = met.write(b"unread");
    for turn in 0..20 {
        let _paced = pace.turn(false);
    }
    drop(peer);
    let failed = fails(by_write, &mut met, pace);
    done(net, met);
    Some(failed && matches!(sent, LinkWrite::Took(6)))
}

fn resets_at<S: std::net::Net, N: Net, P: Pace>(
    system: &S,
    net: &mut N,
    pace: &mut P,
    call: &str,
    first: u16,
) -> Option<bool> {
    let by_write = match call {
        "read" => false,
        "write" => true,
        _ => return None,
    };
    let (at, port) = listening(net, false, first)?;
    meets_a_reset(system, net, pace, at, port, by_write)
}

// Returns whether a dial, tried often, reaches a listener.
fn reaches<N: Net, P: Pace>(net: &mut N, pace: &mut P, addr: &Addr) -> bool
    requires { is_dialable addr.now ≡ true }
{
    for turn in 0..20 {
        match net.dial(addr) {
            Linked::Got(link) => {
                done(net, link);
                return true;
            }
            Linked::NotYet | Linked::Begun | Linked::Failed => (),
        }
        let _paced = pace.turn(false);
    }
    false
}

// Returns whether a listener is reached at one address, and at another just where it listens at every one.
fn reaches_at<N: Net, P: Pace>(net: &mut N, pace: &mut P, at: &str, first: u16) -> Option<bool> {
    let every = match at {
        "one" => false,
        "every" => true,
        _ => return None,
    };
    let (_, port) = listening(net, every, first)?;
    let own = reaches(net, pace, &address(1, port));
    let other = reaches(net, pace, &address(2, port));
    Some(own && other == every)
}

// The tick after `turns` turns in which nothing moved.
fn quiet<P: Pace>(pace: &mut P, turns: u32) -> u64 {
    let mut now = 0;
    for _ in 0..turns {
        now = match pace.turn(false) {
            Paced::At(tick) => tick.0,
            Paced::Over => 0,
        };
    }
    now
}

// The shortest of `rests` rests.
fn shortest<P: Pace>(pace: &mut P, before: u64, rests: u32) -> u64 {
    let mut before = before;
    let mut shortest = u64::MAX;
    for _ in 0..rests {
        let now = quiet(pace, 1);
        shortest = shortest.min(now.saturating_sub(before));
        before = now;
    }
    shortest
}

// Returns whether the line of the pace, with two numbers or four, is right.
fn paces<P: Pace>(pace: &mut P, name: &str, words: &str) -> Option<bool> {
    let (turns, rest) = words.split_once(' ')?;
    let turns = turns.parse::<u32>().ok()?;
    if name == "rests" {
        let tick = rest.parse::<u64>().ok()?;
        return Some(quiet(pace, turns) >= tick);
    }
    let (rests, bounds) = rest.split_once(' ')?;
    let (least, most) = bounds.split_once(' ')?;
    let rests = rests.parse::<u32>().ok()?;
    let least = least.parse::<u64>().ok()?;
    let most = most.parse::<u64>().ok()?;
    let before = quiet(pace, turns);
    let rest = shortest(pace, before, rests);
    Some(least <= rest && rest <= most)
}

// Returns whether the line is right; `None` where it isn't a line, or no port is free.
fn is_so<S: std::net::Net + Files, N: Net, P: Pace>(
    system: &S,
    net: &mut N,
    pace: &mut P,
    alloc: Global,
    line: &str,
) -> Option<bool> {
    let (name, words) = line.split_once(' ')?;
    if name == "rests" || name == "looks_again" {
        return paces(pace, name, words);
    }
    if name == "local" {
        return talks_locally(system, net, pace, alloc, words);
    }
    if name == "file" {
        return is_no_socket(system, net, alloc, words);
    }
    let (word, port) = words.split_once(' ')?;
    let port = port.parse::<u16>().ok()?;
    match name {
        "resets" => resets_at(system, net, pace, word, port),
        "reaches" => reaches_at(net, pace, word, port),
        "carries" => carries_at(net, pace, alloc, word.parse::<usize>().ok()?, port),
        "talks" => talks_from(net, pace, word.parse::<u32>().ok()?, port),
        _ => None,
    }
}

/// Aborts where the line isn't right for the net and the pace of this machine.
pub fn plays<R: std::net::Net + Files + Clock + AllocGlobal + Abort + Clone + Drop>(
    rt: &R,
    line: &str,
) {
    let mut pace = made(rt, RealPace::new(made(rt, rt.clone()), rt, rt.alloc()));
    let registry = made(rt, pace.registry());
    let mut net = TcpNet::new(made(rt, rt.clone()), registry, rt.alloc());
    let so = is_so(rt, &mut net, &mut pace, rt.alloc(), line);
    assert!(rt; so == Some(true), "{line}: {so:?}");
}
