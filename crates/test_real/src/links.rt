//! Behavior that only the net and the pace of this machine have, as lines:
//!
//! | line | what it says |
//! |---|---|
//! | `wakes byte 28315` | a byte that came ends a rest of a second within 50 milliseconds, in most of 20 tries |
//! | `wakes peer 28355` | so does each of two peers that dialed a listener |
//! | `wakes room 28755` | so does room on a link that took nothing more |
//! | `prompt both 28395` | a link that was dialed and one that was accepted send small messages at once |
//! | `marks 500 28435` | 500 pairs of links, one after another and beside a pair that stays, need few marks |
//! | `alone 45000 42424` | 45,000 dials to a port without a listener fail: no socket is connected to itself |
//! | `floods 400000 28475` | of 400,000 bytes a link gives a part, then none once, and the next rest ends at once |
//! | `under_way made 28515` | a connection that isn't made at once has begun, and is made when it is reported |
//! | `leaves slow 28555` | a peer that takes its time, and sends a byte, gets all that was written |
//! | `leaves sending 28795` | so does one that sends much more than a turn reads of it |
//! | `leaves silent 28595` | two that don't end their streams are waited for, two seconds in all, and counted |
//! | `leaves reset 28845` | one that is dropped with bytes that it hasn't read is counted |
//! | `says in_use 28635` | why a listen failed: the port has a listener |
//! | `says elsewhere 28675` | why a listen failed: the address is another machine's |
//!
//! The last number is a port: the line uses the first free one of 30 ports from it on; `alone` and `under_way` use the
//! port itself.
ghost use Rattle.std.specs.Prelude.{◌≡◌, ◌≤◌, ◌<◌, true, length, IsSome, IfSome};
ghost use Rattle.std.specs.FinMap as map;
ghost use Rattle.sp_base.specs.Addresses.{is_dialable, is_linked};

use crate::bytes::patterned;
use crate::checks::made;
use crate::nets::{accepted, address, carries, done, found, listening, nothing_comes, write_on};
use cat_run::real::{NetFault, RealPace, TURN_BYTES, TcpLink, TcpNet};
use sp_base::{Addr, Host, Link, LinkRead, Linked, Listened, Net, Pace};
use std::alloc::Global;
use std::io::{Read, Write};
use std::net::{IpAddr, Ipv4Addr, OpenListener, OpenStream, SocketAddr, TcpListener, TcpStream};
use std::process::Abort;
use std::rt::Clock;
use std::thread;
use std::thread::Threads;
use std::time::{Duration, Instant};

/// A pace that rests when it is asked.
pub trait Rests: Pace {
    /// Rests for at most this many milliseconds.
    fn rests(&mut self, most: u64);

    /// The number of marks of its net.
    fn marks(&self) -> usize;
}

impl<R: Clock + Drop> Rests for RealPace<R> {
    fn rests(&mut self, most: u64) {
        let _ = self.rest(most);
    }

    fn marks(&self) -> usize {
        match self.registry() {
            Ok(wakes) => wakes.marks(),
            Err(_) => usize::MAX,
        }
    }
}

/// A link that may hold small messages back.
pub trait Prompt: Link {
    /// Returns whether it doesn't hold them back.
    fn is_prompt(&self) -> bool;
}

impl Prompt for TcpLink {
    fn is_prompt(&self) -> bool {
        self.nodelay().unwrap_or(false)
    }
}

/// A net whose links go on after they were given back.
pub trait Finishes<P>: Net {
    /// Finishes these links, and returns how many were not whole at the end.
    fn finishes(&mut self, pace: &mut P) -> u32;

    /// The reason of its last failure.
    fn says(&self) -> Option<NetFault>;
}

impl<R: std::net::Net + std::fs::Files + Drop, C: Clock + Drop> Finishes<RealPace<C>>
    for TcpNet<R> {
    fn finishes(&mut self, pace: &mut RealPace<C>) -> u32 {
        self.finish(pace)
    }

    fn says(&self) -> Option<NetFault> {
        self.last_fault()
    }
}

/// The result of a dial.
#[derive(Clone, Copy, Debug, PartialEq, Eq)]
pub enum DialEnd {
    /// A link, which is given back.
    Links,
    /// There is no link.
    NotYet,
    /// The connection has begun.
    Begun,
    Fails,
}

/// Dials once.
pub fn dial<N: Net>(net: &mut N, addr: &Addr) -> DialEnd
    requires { is_dialable addr.now ≡ true }
{
    match net.dial(addr) {
        Linked::Got(link) => {
            done(net, link);
            DialEnd::Links
        }
        Linked::NotYet => DialEnd::NotYet,
        Linked::Begun => DialEnd::Begun,
        Linked::Failed => DialEnd::Fails,
    }
}

fn here(port: u16) -> SocketAddr {
    SocketAddr::new(IpAddr::V4(Ipv4Addr::new(127, 0, 0, 1)), port)
}

// The milliseconds that a rest of at most `most` takes.
fn rest_takes<S: Clock, P: Rests>(system: &S, pace: &mut P, most: u64) -> Option<u128> {
    let start = Instant::now(system).ok()?;
    pace.rests(most);
    Some(start.elapsed(system).ok()?.as_millis())
}

// Returns whether a rest of a second ends within `most` milliseconds.
fn ends_within<S: Clock, P: Rests>(system: &S, pace: &mut P, most: u128) -> bool {
    matches!(rest_takes(system, pace, 1_000), Some(took) if took < most)
}

// Returns whether a byte ends a rest soon, and can then be read.
fn byte_wakes<S: Clock, W: Write, L: Link, P: Rests>(
    system: &S,
    peer: &mut W,
    link: &mut L,
    pace: &mut P,
) -> bool
    requires { (L.seen link.old).is_open ≡ true }
    ensures place { (L.seen link.new).place ≡ (L.seen link.old).place }
    ensures still { (L.seen link.new).is_open ≡ true }
{
    let nothing = nothing_comes(link);
    pace.rests(0);
    let soon = peer.write_all(b"x").is_ok() && ends_within(system, pace, 50);
    let came = found(link, pace) == LinkRead::Got(1);
    nothing && soon && came
}

// The number of tries, of 20, in which a byte does.
fn bytes_wake<S: Clock, W: Write, L: Link, P: Rests>(
    system: &S,
    peer: &mut W,
    link: &mut L,
    pace: &mut P,
) -> u32
    requires { (L.seen link.old).is_open ≡ true }
    ensures place { (L.seen link.new).place ≡ (L.seen link.old).place }
{
    let mut soon = 0u32;
    for turn in 0..20 {
        if byte_wakes(system, peer, link, pace) {
            soon = soon.saturating_add(1);
        }
    }
    soon
}

// Returns whether the one peer that is there ends a rest soon.
fn is_told<S: Clock, N: Net, P: Rests>(system: &S, net: &mut N, pace: &mut P, at: u32) -> bool
    requires { IsSome (map.get (N.seen net.old).listens at) }
    ensures { (N.seen net.new).listens ≡ (N.seen net.old).listens }
{
    let soon = ends_within(system, pace, 50);
    match accepted(net, at, pace) {
        Some(link) => {
            done(net, link);
            soon
        }
        None => false,
    }
}

// Returns whether each of two peers that dial ends a rest soon, and can then be accepted.
fn peers_are_told<S: std::net::Net + Clock, N: Net, P: Rests>(
    system: &S,
    net: &mut N,
    pace: &mut P,
    at: u32,
    port: u16,
) -> bool
    requires { IsSome (map.get (N.seen net.old).listens at) }
    ensures { (N.seen net.new).listens ≡ (N.seen net.old).listens }
{
    pace.rests(0);
    let one = TcpStream::connect(system, here(port));
    let other = TcpStream::connect(system, here(port));
    let first = is_told(system, net, pace, at);
    let second = is_told(system, net, pace, at);
    one.is_ok() && other.is_ok() && first && second
}

// The number of tries, of 20, in which both do.
fn peers_wake<S: std::net::Net + Clock, N: Net, P: Rests>(
    system: &S,
    net: &mut N,
    pace: &mut P,
    at: u32,
    port: u16,
) -> u32
    requires { IsSome (map.get (N.seen net.old).listens at) }
{
    let mut soon = 0u32;
    for turn in 0..20 {
        if peers_are_told(system, net, pace, at, port) {
            soon = soon.saturating_add(1);
        }
    }
    soon
}

// Returns whether room on a full link ends a rest soon. The peer takes what is in transit.
fn room_wakes<S: Clock, R: Read, L: Link, P: Rests>(
    system: &S,
    peer: &mut R,
    link: &mut L,
    pace: &mut P,
    bytes: &[u8],
) -> bool
    requires { (L.seen link.old).is_open ≡ true }
    ensures { (L.seen link.new).place ≡ (L.seen link.old).place }
{
    let sent = fill_link(link, bytes);
    pace.rests(0);
    let mut left = sent / 2;
    let mut buffer = [0u8; 16_384];
    for turn in 0..100_000 {
        match peer.read(&mut buffer) {
            Ok(n) if n < left => left = left.saturating_sub(n),
            _ => break,
        }
    }
    sent < bytes.len() && ends_within(system, pace, 500)
}

fn wakes<S: std::net::Net + Clock, N: Net, P: Rests>(
    system: &S,
    net: &mut N,
    pace: &mut P,
    bytes: &[u8],
    word: &str,
    first: u16,
) -> Option<bool> {
    let (at, port) = listening(net, false, first)?;
    if word == "peer" {
        return Some(peers_wake(system, net, pace, at, port) > 10);
    }
    let mut peer = TcpStream::connect(system, here(port)).ok()?;
    let mut link = accepted(net, at, pace)?;
    let soon = if word == "room" {
        room_wakes(system, &mut peer, &mut link, pace, bytes)
    } else {
        bytes_wake(system, &mut peer, &mut link, pace) > 10
    };
    done(net, link);
    Some(soon)
}

// Two links of a connection of the net to itself.
struct Pair<L> {
    dialed: L,
    met: L,
}

fn met_itself<N: Net, P: Pace>(
    net: &mut N,
    pace: &mut P,
    at: u32,
    addr: &Addr,
) -> Option<Pair<N::L>>
    requires at { IsSome (map.get (N.seen net.old).listens at) }
    requires addr { is_dialable addr.now ≡ true }
    ensures pair { IfSome result (λ p. ((N.L.seen p.dialed).is_open ≡ true) × ((N.L.seen p.met).is_open ≡ true) × ((N.L.seen p.dialed).place < (N.seen net.new).opened) × ((N.L.seen p.met).place < (N.seen net.new).opened)) }
    ensures opened { (N.seen net.old).opened ≤ (N.seen net.new).opened }
    ensures listens { (N.seen net.new).listens ≡ (N.seen net.old).listens }
{
    let dialed = match net.dial(addr) {
        Linked::Got(link) => link,
        Linked::NotYet | Linked::Begun | Linked::Failed => return None,
    };
    match accepted(net, at, pace) {
        Some(met) => Some(Pair { dialed, met }),
        None => {
            done(net, dialed);
            None
        }
    }
}

fn part<N: Net>(net: &mut N, pair: Pair<N::L>)
    requires dialed { (N.L.seen pair.dialed).place < (N.seen net.old).opened }
    requires met { (N.L.seen pair.met).place < (N.seen net.old).opened }
    ensures opened { (N.seen net.new).opened ≡ (N.seen net.old).opened }
    ensures listens { (N.seen net.new).listens ≡ (N.seen net.old).listens }
{
    let Pair { dialed, met } = pair;
    done(net, dialed);
    done(net, met);
}

fn is_prompt<L: Prompt, N: Net<L = L>, P: Pace>(
    net: &mut N,
    pace: &mut P,
    first: u16,
) -> Option<bool> {
    let (at, port) = listening(net, false, first)?;
    let pair = met_itself(net, pace, at, &address(1, port))?;
    let prompt = pair.dialed.is_prompt() && pair.met.is_prompt();
    part(net, pair);
    Some(prompt)
}

// Makes a pair and gives it back.
fn meets<N: Net, P: Pace>(net: &mut N, pace: &mut P, at: u32, addr: &Addr) -> bool
    requires at { IsSome (map.get (N.seen net.old).listens at) }
    requires addr { is_dialable addr.now ≡ true }
    ensures opened { (N.seen net.old).opened ≤ (N.seen net.new).opened }
    ensures listens { (N.seen net.new).listens ≡ (N.seen net.old).listens }
{
    match met_itself(net, pace, at, addr) {
        Some(pair) => {
            part(net, pair);
            true
        }
        None => false,
    }
}

// Makes `count` pairs, one after another, and returns whether it could.
fn meets_often<N: Net, P: Pace>(
    net: &mut N,
    pace: &mut P,
    at: u32,
    addr: &Addr,
    count: usize,
) -> bool
    requires at { IsSome (map.get (N.seen net.old).listens at) }
    requires addr { is_dialable addr.now ≡ true }
    ensures opened { (N.seen net.old).opened ≤ (N.seen net.new).opened }
    ensures listens { (N.seen net.new).listens ≡ (N.seen net.old).listens }
{
    for turn in 0..count {
        if !meets(net, pace, at, addr) {
            return false;
        }
    }
    true
}

// Returns whether `count` pairs need few marks beside those of one that stays, on which a byte passes at the end.
fn needs_few_marks<N: Net, P: Rests>(
    net: &mut N,
    pace: &mut P,
    count: usize,
    first: u16,
) -> Option<bool> {
    let (at, port) = listening(net, false, first)?;
    let addr = address(1, port);
    let mut stays = met_itself(net, pace, at, &addr)?;
    let met = meets_often(net, pace, at, &addr, count);
    let few = (2..=6).contains(&pace.marks());
    let mut buffer = [0u8; 4];
    let passes = carries(&mut stays.dialed, &mut stays.met, pace, b"x", &mut buffer);
    part(net, stays);
    Some(met && few && passes)
}

// Returns whether `count` dials in a row find no listener.
fn is_alone<N: Net>(net: &mut N, addr: &Addr, count: usize) -> bool
    requires { is_dialable addr.now ≡ true }
{
    for turn in 0..count {
        if dial(net, addr) != DialEnd::NotYet {
            return false;
        }
    }
    true
}

// Writes as much of the bytes as the peer's socket takes at once, and returns how many bytes it took.
fn flood<W: Write>(peer: &mut W, bytes: &[u8]) -> usize {
    let mut sent = 0usize;
    for turn in 0..1_000 {
        let Some(rest) = bytes.get(sent..) else {
            return sent;
        };
        match peer.write(rest) {
            Ok(0) | Err(_) => return sent,
            Ok(n) => sent = sent.saturating_add(n),
        }
    }
    sent
}

// Reads until nothing is there, with a rest of no time after each read, and returns how many bytes came.
fn drained<L: Link, P: Rests>(link: &mut L, pace: &mut P, buffer: &mut [u8]) -> usize
    requires open_ { (L.seen link.old).is_open ≡ true }
    requires room { 0 < length buffer.old }
    ensures place { (L.seen link.new).place ≡ (L.seen link.old).place }
    ensures still { (L.seen link.new).is_open ≡ true }
    ensures room { length buffer.new ≡ length buffer.old }
{
    let mut came = 0usize;
    for turn in 0..100_000 {
        match link.read(buffer) {
            LinkRead::Got(n) => came = came.saturating_add(n),
            LinkRead::NotYet | LinkRead::Ended | LinkRead::Failed => return came,
        }
        pace.rests(0);
    }
    came
}

// Returns whether a link of a peer that sent many bytes gives a part of them, the next rest ends at once, and more
// bytes are there.
fn gives_a_part<S: Clock, L: Link, P: Rests>(system: &S, link: &mut L, pace: &mut P) -> bool
    requires { (L.seen link.old).is_open ≡ true }
    ensures { (L.seen link.new).place ≡ (L.seen link.old).place }
{
    let mut buffer = [0u8; 4_096];
    let came = drained(link, pace, &mut buffer);
    let soon = ends_within(system, pace, 500);
    let more = matches!(link.read(&mut buffer), LinkRead::Got(_));
    came >= 65_536 && came < TURN_BYTES.saturating_add(4_096) && soon && more
}

fn floods<S: std::net::Net + Clock, N: Net, P: Rests>(
    system: &S,
    net: &mut N,
    pace: &mut P,
    bytes: &[u8],
    first: u16,
) -> Option<bool> {
    let (at, port) = listening(net, false, first)?;
    let mut peer = TcpStream::connect(system, here(port)).ok()?;
    peer.set_nonblocking(true).ok()?;
    let mut link = accepted(net, at, pace)?;
    let sent = flood(&mut peer, bytes);
    let part = gives_a_part(system, &mut link, pace);
    done(net, link);
    Some(sent == bytes.len() && part)
}

/// Dials until a connection isn't made at once, since too many wait at the listener. Returns whether that came.
pub fn fills<N: Net>(net: &mut N, addr: &Addr) -> bool
    requires { is_dialable addr.now ≡ true }
{
    for turn in 0..1_000 {
        match dial(net, addr) {
            DialEnd::Links => (),
            other => return other == DialEnd::Begun,
        }
    }
    false
}

/// Accepts all connections that wait.
pub fn take_all<A: OpenListener>(listener: &A) {
    for turn in 0..1_000 {
        if listener.accept().is_err() {
            return;
        }
    }
}

// Returns whether a connection that has begun is made once it is reported. The machine asks the peer again after a
// second.
fn is_made_later<S: std::net::Net + Clock, N: Net, P: Rests>(
    system: &S,
    net: &mut N,
    pace: &mut P,
    port: u16,
) -> Option<bool> {
    let listener = TcpListener::bind(system, here(port)).ok()?;
    listener.set_nonblocking(true).ok()?;
    let addr = address(1, port);
    let begun = fills(net, &addr) && dial(net, &addr) == DialEnd::Begun;
    pace.rests(0);
    take_all(&listener);
    let took = rest_takes(system, pace, 8_000)?;
    Some(begun && took < 7_000 && dial(net, &addr) == DialEnd::Links)
}

// Writes what a link takes at once, and returns how many bytes it took.
fn fill_link<L: Link>(link: &mut L, bytes: &[u8]) -> usize
    requires { (L.seen link.old).is_open ≡ true }
    ensures { (L.seen link.new).place ≡ (L.seen link.old).place }
{
    let mut sent = 0usize;
    for turn in 0..1_000 {
        match write_on(link, bytes, sent) {
            Some(n) if n > sent => sent = n,
            _ => return sent,
        }
    }
    sent
}

// A peer that waits until the link is given back, sends these bytes, and reads to the end; how many bytes came.
fn reads_slowly<R: Clock, S: Read + Write + Drop>(rt: &R, stream: S, sends: &[u8]) -> usize {
    let mut stream = stream;
    let mut buffer = [0u8; 16_384];
    let mut came = 0usize;
    thread::sleep(rt, Duration::from_millis(200));
    if stream.write_all(sends).is_err() {
        return 0;
    }
    for turn in 0..10_000 {
        match stream.read(&mut buffer) {
            Ok(0) | Err(_) => return came,
            Ok(n) => came = came.saturating_add(n),
        }
    }
    came
}

// Returns whether a peer that sends these bytes and reads slowly gets all that was written on a link that was given
// back.
fn leaves_whole<
    S: std::net::Net<Stream = TcpStream> + Clock + Threads + Sync,
    N: Finishes<P>,
    P: Rests,
>(system: &S, net: &mut N, pace: &mut P, bytes: &[u8], sends: &[u8], first: u16) -> Option<bool> {
    let (at, port) = listening(net, false, first)?;
    let peer = TcpStream::connect(system, here(port)).ok()?;
    let mut link = accepted(net, at, pace)?;
    let sent = fill_link(&mut link, bytes);
    done(net, link);
    let (came, lost) = thread::join(
        system,
        move || reads_slowly(system, peer, sends),
        || net.finishes(pace),
    );
    Some(sent > 500_000 && came == sent && lost == 0)
}

// Returns whether a peer that goes with bytes that it hasn't read, after the link was given back, counts as one that
// hasn't received everything.
fn counts_a_reset<S: std::net::Net, N: Finishes<P>, P: Rests>(
    system: &S,
    net: &mut N,
    pace: &mut P,
    bytes: &[u8],
    first: u16,
) -> Option<bool> {
    let (at, port) = listening(net, false, first)?;
    let peer = TcpStream::connect(system, here(port)).ok()?;
    let mut link = accepted(net, at, pace)?;
    let sent = fill_link(&mut link, bytes);
    done(net, link);
    drop(peer);
    Some(sent > 500_000 && net.finishes(pace) == 1)
}

// Returns whether two peers that don't end their streams are waited for, for two seconds in all.
fn waits_for_end<S: std::net::Net + Clock, N: Finishes<P>, P: Rests>(
    system: &S,
    net: &mut N,
    pace: &mut P,
    first: u16,
) -> Option<bool> {
    let (at, port) = listening(net, false, first)?;
    let one = TcpStream::connect(system, here(port)).ok()?;
    let other = TcpStream::connect(system, here(port)).ok()?;
    let first = accepted(net, at, pace)?;
    let Some(second) = accepted(net, at, pace) else {
        done(net, first);
        return None;
    };
    done(net, first);
    done(net, second);
    let start = Instant::now(system).ok()?;
    let lost = net.finishes(pace);
    let took = start.elapsed(system).ok()?.as_millis();
    let again = net.finishes(pace);
    drop(one);
    drop(other);
    Some(lost == 2 && again == 0 && (1_900..3_900).contains(&took))
}

// Returns whether a listen at a place fails for the reason that the line says.
fn says<N: Finishes<P>, P: Pace>(
    net: &mut N,
    alloc: Global,
    word: &str,
    first: u16,
) -> Option<bool> {
    let (_, port) = listening(net, false, first)?;
    let (host, why) = match word {
        "in_use" => ("127.0.0.1", "address in use"),
        "elsewhere" => ("192.0.2.1", "no such address on this machine"),
        _ => return None,
    };
    let wanted = format!(in alloc; "tcp://{host}:{port}: {why}").ok()?;
    let failed = match word {
        "in_use" => matches!(net.listen(&address(1, port)), Listened::Failed),
        _ => matches!(net.listen(&elsewhere(port)), Listened::Failed),
    };
    let said = net.says()?;
    let said = format!(in alloc; "{said}").ok()?;
    Some(failed && said.as_str() == wanted.as_str())
}

// An address that no machine has (RFC 5737).
fn elsewhere(port: u16) -> Addr
    ensures { is_linked result ≡ true }
{
    Addr::Tcp {
        host: Host::V4(192, 0, 2, 1),
        port,
    }
}

// Returns whether the line is right; `None` where it isn't a line, or no port is free.
fn is_so<
    S: std::net::Net<Stream = TcpStream> + Clock + Threads + Sync,
    L: Prompt,
    N: Finishes<P> + Net<L = L>,
    P: Rests,
>(system: &S, net: &mut N, pace: &mut P, alloc: Global, line: &str) -> Option<bool> {
    let (name, words) = line.split_once(' ')?;
    let (word, port) = words.split_once(' ')?;
    let port = port.parse::<u16>().ok()?;
    match (name, word) {
        ("wakes", _) => {
            let bytes = patterned(alloc, 12_000_000).ok()?;
            wakes(system, net, pace, &bytes, word, port)
        }
        ("prompt", "both") => is_prompt(net, pace, port),
        ("marks", _) => needs_few_marks(net, pace, word.parse::<usize>().ok()?, port),
        ("alone", _) => Some(is_alone(net, &address(1, port), word.parse::<usize>().ok()?)),
        ("floods", _) => {
            let bytes = patterned(alloc, word.parse::<usize>().ok()?).ok()?;
            floods(system, net, pace, &bytes, port)
        }
        ("under_way", "made") => is_made_later(system, net, pace, port),
        ("leaves", "slow") => {
            let bytes = patterned(alloc, 2_400_000).ok()?;
            leaves_whole(system, net, pace, &bytes, b"x", port)
        }
        ("leaves", "sending") => {
            let bytes = patterned(alloc, 4_000_000).ok()?;
            leaves_whole(system, net, pace, &bytes, &bytes, port)
        }
        ("leaves", "silent") => waits_for_end(system, net, pace, port),
        ("leaves", "reset") => {
            let bytes = patterned(alloc, 2_400_000).ok()?;
            counts_a_reset(system, net, pace, &bytes, port)
        }
        ("says", _) => says(net, alloc, word, port),
        _ => None,
    }
}

/// Aborts where the line isn't right for the net and the pace of this machine.
pub fn real_plays<
    R: std::net::Net<Stream = TcpStream>
        + std::fs::Files
        + Clock
        + Threads
        + Sync
        + AllocGlobal
        + Abort
        + Clone
        + Drop,
>(rt: &R, line: &str) {
    let mut pace = made(rt, RealPace::new(made(rt, rt.clone()), rt, rt.alloc()));
    let registry = made(rt, pace.registry());
    let mut net = TcpNet::new(made(rt, rt.clone()), registry, rt.alloc());
    let so = is_so(rt, &mut net, &mut pace, rt.alloc(), line);
    assert!(rt; so == Some(true), "{line}: {so:?}");
}
