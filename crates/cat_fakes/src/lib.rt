//! A run of nngcat over an outside in memory: its outside, and its result, for tests to compare.
#![tactic(auto)]

ghost use Rattle.std.specs.Prelude.{◌≡◌, IfOk};
ghost use Rattle.sp_base.specs.declared.addr.Scheme.TheVariants as schemes;
ghost use Rattle.sp_fakes.specs.MemLinks.{link_view, unread_at};

use cat_run::{Status, run};
use sp_base::{Addr, Bytes, Host, NoMemory};
use sp_fakes::{LinkStep, MemFiles, MemLink, MemNet, MemPace, MemSink};
use std::alloc::Global;
use std::sync::Wait;
use std::thread::Threads;

/// The number of turns of a test's pace, a millisecond apart.
pub const TURNS: u64 = 200;

/// The greeting of a push socket.
pub const HELLO_80: &[u8] = b"\x00SP\x00\x00\x50\x00\x00";

/// The greeting of a pull socket.
pub const HELLO_81: &[u8] = b"\x00SP\x00\x00\x51\x00\x00";

/// A pull that prints one message.
pub const PULL: &[&str] = &[
    "--pull",
    "--listen",
    "tcp://127.0.0.1:5555",
    "--ascii",
    "--count",
    "1",
];

/// More bytes than any write: a link with this limit takes all at once.
pub const ALL: usize = 1_000_000;

/// A link that gives these pieces, and then nothing forever, or the end; it takes at most that many bytes at a write.
pub fn link_of(
    alloc: Global,
    pieces: &[&[u8]],
    ends: bool,
    take: usize,
) -> Result<MemLink, NoMemory>
    ensures { IfOk result (λ link. link_view link ≡ unread_at 0 schemes.Tcp) }
{
    let mut script = Vec::new(alloc);
    for piece in pieces {
        script.push(LinkStep::Bytes(Bytes::from_slice(alloc, piece)?))?;
    }
    if ends {
        script.push(LinkStep::End)?;
    }
    Ok(MemLink::new(alloc, script, take, Vec::new(alloc)))
}

/// A link that gives these bytes one at a time, and then nothing forever.
pub fn trickle(alloc: Global, texts: &[&[u8]]) -> Result<MemLink, NoMemory>
    ensures { IfOk result (λ link. link_view link ≡ unread_at 0 schemes.Tcp) }
{
    let mut script = Vec::new(alloc);
    for text in texts {
        for byte in text.iter() {
            script.push(LinkStep::Bytes(Bytes::from_slice(alloc, &[*byte])?))?;
        }
    }
    Ok(MemLink::new(alloc, script, ALL, Vec::new(alloc)))
}

/// A link that gives a piece, then this step, then another piece.
pub fn between(
    alloc: Global,
    piece: &[u8],
    step: LinkStep,
    more: &[u8],
) -> Result<MemLink, NoMemory>
    ensures { IfOk result (λ link. link_view link ≡ unread_at 0 schemes.Tcp) }
{
    let mut script = Vec::new(alloc);
    script.push(LinkStep::Bytes(Bytes::from_slice(alloc, piece)?))?;
    script.push(step)?;
    script.push(LinkStep::Bytes(Bytes::from_slice(alloc, more)?))?;
    Ok(MemLink::new(alloc, script, ALL, Vec::new(alloc)))
}

/// The words of a list.
pub fn words(alloc: Global, texts: &[&str]) -> Result<Vec<String>, NoMemory> {
    let mut list = Vec::new(alloc);
    for text in texts {
        list.push(String::from_str(alloc, text)?)?;
    }
    Ok(list)
}

/// The outside of a run: the links that come at its listens and those that its dials get, one list for each; the calls
/// of the net and of the sink that fail; the number of turns of the pace, and how many milliseconds they are apart.
#[derive(Drop)]
pub struct Outside {
    pub incoming: Vec<Vec<MemLink>>,
    pub outgoing: Vec<(Addr, Vec<MemLink>)>,
    pub net_fails: Vec<u64>,
    pub sink_fails: Vec<u64>,
    pub turns: u64,
    pub step: u64,
}

/// These links come at the first listen; nothing fails.
pub fn incoming(alloc: Global, links: Vec<MemLink>) -> Result<Outside, NoMemory> {
    let mut incoming = Vec::new(alloc);
    incoming.push(links)?;
    Ok(Outside {
        incoming,
        outgoing: Vec::new(alloc),
        net_fails: Vec::new(alloc),
        sink_fails: Vec::new(alloc),
        turns: TURNS,
        step: 1,
    })
}

/// Dials to port 5555 of this machine get these links; nothing fails.
pub fn outgoing(alloc: Global, links: Vec<MemLink>) -> Result<Outside, NoMemory> {
    let addr = Addr::Tcp {
        host: Host::V4(127, 0, 0, 1),
        port: 5555,
    };
    let mut outgoing = Vec::new(alloc);
    outgoing.push((addr, links))?;
    Ok(Outside {
        incoming: Vec::new(alloc),
        outgoing,
        net_fails: Vec::new(alloc),
        sink_fails: Vec::new(alloc),
        turns: TURNS,
        step: 1,
    })
}

/// The result of a run: its status, whether it has a record, what was printed, what was written on the first link and
/// on the second, how many links were handed out, and how many turns are left.
#[derive(Drop)]
pub struct Came {
    pub status: Status,
    pub has_record: bool,
    pub printed: Vec<u8>,
    pub written: Vec<u8>,
    pub second: Vec<u8>,
    pub opened: u32,
    pub left: u64,
}

// What was written on the link that was given back with this place; nothing where there was none.
fn written_on(alloc: Global, net: &MemNet, place: u32) -> Result<Vec<u8>, NoMemory> {
    match net.returned(place) {
        Some(link) => Ok(Vec::from_slice(alloc, link.written())?),
        None => Ok(Vec::new(alloc)),
    }
}

/// Runs the words. The file `letter` holds `dear all`.
pub fn play<R: AllocGlobal + Wait + Threads + Sync>(
    rt: &R,
    texts: &[&str],
    outside: Outside,
) -> Result<Came, NoMemory> {
    let alloc = rt.alloc();
    let list = words(alloc, texts)?;
    let mut pairs = Vec::new(alloc);
    pairs.push((
        String::from_str(alloc, "letter")?,
        Bytes::from_slice(alloc, b"dear all")?,
    ))?;
    let mut files = MemFiles::new(alloc, pairs, Vec::new(alloc));
    let Outside {
        incoming,
        outgoing,
        net_fails,
        sink_fails,
        turns,
        step,
    } = outside;
    let mut net = MemNet::new(alloc, incoming, outgoing, net_fails)?;
    let mut pace = MemPace::new(turns, step);
    let mut out = MemSink::new(alloc, sink_fails);
    let end = run(rt, &list, &mut net, &mut files, &mut pace, &mut out, 0);
    let written = written_on(alloc, &net, 0)?;
    let second = written_on(alloc, &net, 1)?;
    Ok(Came {
        status: end.status,
        has_record: end.record_.is_some(),
        printed: Vec::from_slice(alloc, out.text())?,
        written,
        second,
        opened: net.opened(),
        left: pace.left(),
    })
}

/// Plays a pull of one message over one link that takes any length.
pub fn one<R: AllocGlobal + Wait + Threads + Sync>(
    rt: &R,
    pieces: &[&[u8]],
    ends: bool,
) -> Result<Came, NoMemory> {
    taking(rt, pieces, ends, ALL)
}

/// Plays a pull of one message over one link that takes at most that many bytes at a write.
pub fn taking<R: AllocGlobal + Wait + Threads + Sync>(
    rt: &R,
    pieces: &[&[u8]],
    ends: bool,
    take: usize,
) -> Result<Came, NoMemory> {
    over_one(rt, PULL, link_of(rt.alloc(), pieces, ends, take)?)
}

/// Plays these words over one link that comes.
pub fn over_one<R: AllocGlobal + Wait + Threads + Sync>(
    rt: &R,
    texts: &[&str],
    link: MemLink,
) -> Result<Came, NoMemory> {
    let alloc = rt.alloc();
    let mut links = Vec::new(alloc);
    links.push(link)?;
    play(rt, texts, incoming(alloc, links)?)
}

/// Plays a pull of one message over two links, the second of which gives a good greeting and the message `later`.
pub fn followed<R: AllocGlobal + Wait + Threads + Sync>(
    rt: &R,
    first: MemLink,
) -> Result<Came, NoMemory> {
    let alloc = rt.alloc();
    let mut links = Vec::new(alloc);
    links.push(first)?;
    links.push(link_of(
        alloc,
        &[HELLO_80, b"\x00\x00\x00\x00\x00\x00\x00\x05later"],
        false,
        ALL,
    )?)?;
    play(rt, PULL, incoming(alloc, links)?)
}

/// Plays the words over no link.
pub fn unlinked<R: AllocGlobal + Wait + Threads + Sync>(
    rt: &R,
    texts: &[&str],
) -> Result<Came, NoMemory> {
    let alloc = rt.alloc();
    play(rt, texts, incoming(alloc, Vec::new(alloc))?)
}
