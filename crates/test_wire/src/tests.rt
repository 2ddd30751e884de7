//! Messages, the plain reader, the TCP wire and the wire in memory, with exact bytes, counts and refusals.
ghost use Rattle.std.specs.Prelude.{◌≡◌, true};

use super::*;
use crate::checks::{holds, made, same};
use sp_base::{Bytes, Framing, Scheme, SpError};
use sp_fakes::{LinkStep, MemLink, MemWire, WireStep};
use sp_msg::{HeaderFull, Message, Room, Short, Wire, WireFlush, WireIn};
use sp_tcp::{Prefix, Reader, TcpWire};
use std::alloc::Global;
use std::process::Abort;
use std::sync::Wait;

// ---- messages

// `abcdef` without its first 2 bytes and its last.
fn cut(rt: &impl Abort, alloc: Global) -> Message {
    let mut m = made(rt, Message::from_body(alloc, b"abcdef"));
    made(rt, m.trim(2));
    made(rt, m.chop(1));
    m
}

// The same with `xy` before and `z` after, and a word in its header.
fn edited(rt: &impl Abort, alloc: Global) -> Message {
    let mut m = cut(rt, alloc);
    made(rt, m.insert(b"xy"));
    made(rt, m.append(b"z"));
    made(rt, m.header_append_u32(1));
    m
}

// The number of the error, or 0.
fn short_code(returned: Result<(), Short>) -> u32 {
    match returned {
        Ok(()) => 0,
        Err(e) => SpError::from(e).code(),
    }
}

fn full_code(returned: Result<(), HeaderFull>) -> u32 {
    match returned {
        Ok(()) => 0,
        Err(e) => SpError::from(e).code(),
    }
}

#[test]
fn a_message_is_trimmed(rt: HostRuntime) {
    let c = cut(&rt, rt.alloc());
    same(&rt, c.body(), b"cde".as_slice());
    let mut m = edited(&rt, rt.alloc());
    same(&rt, m.body(), b"xycdez".as_slice());
    same(&rt, short_code(m.trim(7)), 3);
    same(&rt, short_code(m.chop(7)), 3);
    same(&rt, m.body(), b"xycdez".as_slice());
    same(&rt, made(&rt, m.header_trim_u32()), 1);
    holds(&rt, m.header_trim_u32().is_err());
}

#[test]
fn bytes_go_before_a_body_that_was_not_trimmed(rt: HostRuntime) {
    let mut m = made(&rt, Message::from_body(rt.alloc(), b"cd"));
    made(&rt, m.header_append_u32(1));
    made(&rt, m.insert(b"ab"));
    same(&rt, m.body(), b"abcd".as_slice());
    same(&rt, m.header(), b"\x00\x00\x00\x01".as_slice());
}

#[test]
fn a_message_is_joined_and_copied(rt: HostRuntime) {
    let m = edited(&rt, rt.alloc());
    let mut c = made(&rt, m.copy());
    same(&rt, c.header(), m.header());
    same(&rt, c.body(), b"xycdez".as_slice());
    made(&rt, c.join());
    holds(&rt, c.header().is_empty());
    same(&rt, c.body(), b"\x00\x00\x00\x01xycdez".as_slice());
    same(&rt, made(&rt, c.trim_u32()), 1);
}

#[test]
fn a_header_holds_sixteen_words(rt: HostRuntime) {
    let mut m = edited(&rt, rt.alloc());
    for _ in 0..15 {
        made(&rt, m.header_append_u32(7));
    }
    same(&rt, full_code(m.header_append_u32(7)), 17);
}

// ---- what is pulled

// A wire over a link with this script, that takes `take` bytes a write; its writes with these numbers fail.
fn scripted(
    rt: &impl Abort,
    alloc: Global,
    script: Vec<LinkStep>,
    rest: &[u8],
    take: usize,
    fails: &[u64],
    max: u32,
) -> TcpWire<Untold>
    ensures { result.wire.is_open ≡ true }
{
    let link = Untold {
        link: MemLink::new(alloc, script, take, made(rt, Vec::from_slice(alloc, fails))),
    };
    match TcpWire::new(alloc, link, rest, max, Framing::Tcp) {
        Ok(wire) => wire,
        Err(_) => panic!(rt; "no memory for a wire"),
    }
}

// The same, where the link gives the bytes in pieces of length `piece` with a pause after each, and then ends.
fn wire(
    rt: &impl Abort,
    alloc: Global,
    bytes: &[u8],
    piece: usize,
    take: usize,
    fails: &[u64],
    max: u32,
) -> TcpWire<Untold>
    ensures { result.wire.is_open ≡ true }
{
    scripted(
        rt,
        alloc,
        pieces(rt, alloc, bytes, piece),
        &[],
        take,
        fails,
        max,
    )
}

fn pieces(rt: &impl Abort, alloc: Global, bytes: &[u8], piece: usize) -> Vec<LinkStep> {
    let mut script = Vec::new(alloc);
    let mut at = 0;
    for _ in 0..bytes.len() {
        if at >= bytes.len() {
            break;
        }
        let end = at.saturating_add(piece).min(bytes.len());
        made(
            rt,
            script.push(LinkStep::Bytes(made(rt, Bytes::from_slice(alloc, &bytes[at..end])))),
        );
        made(rt, script.push(LinkStep::NotYet));
        at = end;
    }
    made(rt, script.push(LinkStep::End));
    script
}

// What is pulled: each body in brackets, and how the pulls end.
fn pulls<W: Wire, R: Wait + Abort>(alloc: Global, rt: &R, wire: &mut W) -> Vec<u8>
    requires { (W.shown wire.old).is_open ≡ true }
{
    let mut said = Vec::new(alloc);
    'turns: for _ in 0..200 {
        match wire.pull(rt) {
            WireIn::Message(m) => {
                made(rt, said.push(b'['));
                made(rt, said.extend_from_slice(m.body()));
                made(rt, said.push(b']'));
            }
            WireIn::NotYet => {}
            WireIn::Ended => {
                made(rt, said.push(b'e'));
                return said;
            }
            WireIn::Malformed => {
                made(rt, said.push(b'x'));
                return said;
            }
            WireIn::Failed => {
                made(rt, said.push(b'f'));
                return said;
            }
            WireIn::Refused => {
                made(rt, said.push(b'r'));
                return said;
            }
            WireIn::NoMemory => {
                made(rt, said.push(b'n'));
                return said;
            }
        }
    }
    said
}

// The same with the plain reader.
fn plainly(rt: &impl Abort, alloc: Global, bytes: &[u8], max: u32) -> Vec<u8> {
    let mut said = Vec::new(alloc);
    let mut reader = Reader::new(alloc);
    made(rt, reader.append(bytes));
    for _ in 0..200 {
        match reader.front(max) {
            Prefix::Message(body) => {
                made(rt, said.push(b'['));
                made(rt, said.extend_from_slice(body));
                made(rt, said.push(b']'));
                let size = body.len();
                reader.pass(size);
            }
            Prefix::Part => {
                made(rt, said.push(b'e'));
                return said;
            }
            Prefix::Oversize => {
                made(rt, said.push(b'x'));
                return said;
            }
        }
    }
    said
}

// Returns whether the wire gives `wanted` from pieces of this length, and so does the plain reader.
fn agrees<R: Wait + Abort>(
    alloc: Global,
    rt: &R,
    bytes: &[u8],
    piece: usize,
    wanted: &[u8],
) -> bool {
    let plain = plainly(rt, alloc, bytes, 3);
    let mut wire = wire(rt, alloc, bytes, piece, 1, &[], 3);
    let said = pulls(alloc, rt, &mut wire);
    said.as_slice() == wanted && plain.as_slice() == wanted
}

// Returns whether the wire and the plain reader give `wanted` from pieces of each length up to 9.
fn agrees_in_pieces<R: Wait + Abort>(alloc: Global, rt: &R, bytes: &[u8], wanted: &[u8]) -> bool {
    let mut agreed = true;
    for piece in 1..10 {
        agreed = agreed && agrees(alloc, rt, bytes, piece, wanted);
    }
    agreed
}

#[test]
fn a_wire_agrees_with_the_plain_reader(rt: HostRuntime) {
    let alloc = rt.alloc();
    // two messages, the second of no bytes
    let bytes = b"\x00\x00\x00\x00\x00\x00\x00\x02hi\x00\x00\x00\x00\x00\x00\x00\x00";
    holds(&rt, agrees_in_pieces(alloc, &rt, bytes, b"[hi][]e"));
    // the end within a size
    let bytes = b"\x00\x00\x00\x00\x00\x00\x00\x01a\x00\x00\x00";
    holds(&rt, agrees_in_pieces(alloc, &rt, bytes, b"[a]e"));
    // the end within a body
    holds(
        &rt,
        agrees_in_pieces(alloc, &rt, b"\x00\x00\x00\x00\x00\x00\x00\x03ab", b"e"),
    );
    // the limit exactly
    holds(
        &rt,
        agrees_in_pieces(
            alloc,
            &rt,
            b"\x00\x00\x00\x00\x00\x00\x00\x03abc",
            b"[abc]e",
        ),
    );
    // one byte above the limit
    let bytes = b"\x00\x00\x00\x00\x00\x00\x00\x01a\x00\x00\x00\x00\x00\x00\x00\x04abcd";
    holds(&rt, agrees_in_pieces(alloc, &rt, bytes, b"[a]x"));
    // a size of which only the first 4 bytes differ from 1
    holds(
        &rt,
        agrees_in_pieces(alloc, &rt, b"\x00\x00\x00\x01\x00\x00\x00\x01a", b"x"),
    );
}

// Returns whether the wire pulls this.
fn gives<W: Wire, R: Wait + Abort>(alloc: Global, rt: &R, wire: &mut W, wanted: &[u8]) -> bool
    requires { (W.shown wire.old).is_open ≡ true }
{
    pulls(alloc, rt, wire).as_slice() == wanted
}

// Returns whether a wire with the usual limit pulls this from these bytes.
fn gives_usual<R: Wait + Abort>(alloc: Global, rt: &R, bytes: &[u8], wanted: &[u8]) -> bool {
    let mut wire = wire(rt, alloc, bytes, 8, 1, &[], 1_048_576);
    gives(alloc, rt, &mut wire, wanted)
}

#[test]
fn a_size_of_the_usual_limit_passes(rt: HostRuntime) {
    let alloc = rt.alloc();
    holds(
        &rt,
        gives_usual(alloc, &rt, b"\x00\x00\x00\x00\x00\x10\x00\x00", b"e"),
    );
    holds(
        &rt,
        gives_usual(alloc, &rt, b"\x00\x00\x00\x00\x00\x10\x00\x01", b"x"),
    );
}

#[test]
fn a_read_that_fails_ends_the_wire(rt: HostRuntime) {
    let alloc = rt.alloc();
    let mut script = Vec::new(alloc);
    made(
        &rt,
        script.push(LinkStep::Bytes(made(
            &rt,
            Bytes::from_slice(alloc, b"\x00\x00\x00\x00\x00\x00\x00\x02hi\x00"),
        ))),
    );
    made(&rt, script.push(LinkStep::Fail));
    let mut fails = scripted(&rt, alloc, script, &[], 1, &[], 100);
    holds(&rt, gives(alloc, &rt, &mut fails, b"[hi]f"));
}

#[test]
fn what_follows_the_greeting_is_read_first(rt: HostRuntime) {
    let alloc = rt.alloc();
    let script = pieces(&rt, alloc, b"i\x00\x00\x00\x00\x00\x00\x00\x01a", 4);
    let mut wire = scripted(
        &rt,
        alloc,
        script,
        b"\x00\x00\x00\x00\x00\x00\x00\x02h",
        1,
        &[],
        100,
    );
    holds(&rt, gives(alloc, &rt, &mut wire, b"[hi][a]e"));
}

fn mem(rt: &impl Abort, alloc: Global, end: WireStep, fails: &[u64]) -> MemWire
    ensures { result.wire.is_open ≡ true }
{
    let mut steps = Vec::new(alloc);
    made(
        rt,
        steps.push(WireStep::Bytes(made(rt, Bytes::from_slice(alloc, b"x")))),
    );
    made(rt, steps.push(WireStep::NotYet));
    made(rt, steps.push(end));
    MemWire::new(alloc, steps, 1, made(rt, Vec::from_slice(alloc, fails)))
}

// Returns whether a wire in memory with this end, whose pulls with these numbers fail, pulls this.
fn mem_gives<R: Wait + Abort>(
    alloc: Global,
    rt: &R,
    end: WireStep,
    fails: &[u64],
    wanted: &[u8],
) -> bool {
    let mut wire = mem(rt, alloc, end, fails);
    gives(alloc, rt, &mut wire, wanted)
}

#[test]
fn a_wire_in_memory_goes_by_its_script(rt: HostRuntime) {
    let alloc = rt.alloc();
    holds(&rt, mem_gives(alloc, &rt, WireStep::End, &[], b"[x]e"));
    holds(
        &rt,
        mem_gives(alloc, &rt, WireStep::Malformed, &[], b"[x]x"),
    );
    holds(&rt, mem_gives(alloc, &rt, WireStep::End, &[1], b"[x]f"));
    let mut full = mem(&rt, alloc, WireStep::End, &[]);
    same(&rt, puts(alloc, &rt, &mut full, 2).as_str(), "yf");
    same(
        &rt,
        texts(&rt, alloc, full.outs()).as_slice(),
        b"[\x00\x00\x00\x07|hello]".as_slice(),
    );
}

// The messages, each as its header, a bar and its body in brackets.
fn texts(rt: &impl Abort, alloc: Global, messages: &[Message]) -> Vec<u8> {
    let mut said = Vec::new(alloc);
    for m in messages {
        made(rt, said.push(b'['));
        made(rt, said.extend_from_slice(m.header()));
        made(rt, said.push(b'|'));
        made(rt, said.extend_from_slice(m.body()));
        made(rt, said.push(b']'));
    }
    said
}

// ---- what is put

// Puts `times` messages where there is room, and tells what each `room` returned.
fn puts<W: Wire, R: Wait + Abort>(alloc: Global, rt: &R, wire: &mut W, times: u32) -> String
    requires { (W.shown wire.old).is_open ≡ true }
{
    let mut said = String::new(alloc);
    'turns: for _ in 0..times {
        let mut m = made(rt, Message::from_body(alloc, b"hello"));
        if m.header_append_u32(7).is_err() {
            break;
        }
        match wire.room(rt) {
            Room::Yes => {
                wire.put(rt, m);
                made(rt, said.push_str("y"));
            }
            Room::Full => made(rt, said.push_str("f")),
            Room::Failed => {
                made(rt, said.push_str("x"));
                return said;
            }
            Room::Refused | Room::NoMemory => {
                made(rt, said.push_str("n"));
                return said;
            }
        }
    }
    said
}

#[test]
fn a_wire_holds_sixteen_messages(rt: HostRuntime) {
    let alloc = rt.alloc();
    let mut stuck = wire(&rt, alloc, b"", 1, 0, &[], 100);
    same(
        &rt,
        puts(alloc, &rt, &mut stuck, 17).as_str(),
        "yyyyyyyyyyyyyyyyf",
    );
    let mut slow = wire(&rt, alloc, b"", 1, 1, &[], 100);
    same(
        &rt,
        puts(alloc, &rt, &mut slow, 17).as_str(),
        "yyyyyyyyyyyyyyyyy",
    );
    let link = slow.into_link();
    let written = link.link.written();
    same(&rt, written.len(), 16 * 17);
    let first = b"\x00\x00\x00\x00\x00\x00\x00\x09\x00\x00\x00\x07hello";
    holds(&rt, written.starts_with(first));
}

#[test]
fn a_write_that_fails_ends_the_wire(rt: HostRuntime) {
    let alloc = rt.alloc();
    let mut fails = wire(&rt, alloc, b"", 1, 5, &[1], 100);
    same(
        &rt,
        puts(alloc, &rt, &mut fails, 20).as_str(),
        "yyyyyyyyyyyyyyyyx",
    );
    let link = fails.into_link();
    same(&rt, link.link.written(), b"\x00\x00\x00\x00\x00".as_slice());
}

fn tube(rt: &impl Abort, alloc: Global, held: u64) -> TcpWire<Tube>
    ensures { result.wire.is_open ≡ true }
{
    match TcpWire::new(alloc, Tube::new(alloc, held), &[], 100, Framing::Tcp) {
        Ok(wire) => wire,
        Err(_) => panic!(rt; "no memory for a wire"),
    }
}

#[test]
fn sixteen_frames_go_out_in_one_write(rt: HostRuntime) {
    let alloc = rt.alloc();
    let mut wire = tube(&rt, alloc, 1);
    same(
        &rt,
        puts(alloc, &rt, &mut wire, 18).as_str(),
        "yyyyyyyyyyyyyyyyfy",
    );
    same(&rt, wire.taken(), 16 * 17);
    let link = wire.into_link();
    same(&rt, link.writes(), 2);
    same(&rt, link.len(), 16 * 17);
}

#[test]
fn nothing_is_written_while_there_is_room(rt: HostRuntime) {
    let alloc = rt.alloc();
    let mut wire = tube(&rt, alloc, 0);
    same(
        &rt,
        puts(alloc, &rt, &mut wire, 16).as_str(),
        "yyyyyyyyyyyyyyyy",
    );
    same(&rt, wire.taken(), 0);
    same(&rt, wire.into_link().writes(), 0);
}

// Puts a message, tells what `times` flushes returned, and shuts the wire.
fn flushes<W: Wire, R: Wait + Abort>(alloc: Global, rt: &R, wire: &mut W, times: u32) -> String
    requires { (W.shown wire.old).is_open ≡ true }
{
    let m = made(rt, Message::from_body(alloc, b"hello"));
    let mut said = String::new(alloc);
    match wire.room(rt) {
        Room::Yes => wire.put(rt, m),
        Room::Full | Room::Failed | Room::Refused | Room::NoMemory => return said,
    }
    'turns: for _ in 0..times {
        match wire.flush(rt) {
            WireFlush::Empty => made(rt, said.push_str("e")),
            WireFlush::NotYet => made(rt, said.push_str("n")),
            WireFlush::Failed | WireFlush::Refused | WireFlush::NoMemory => {
                made(rt, said.push_str("x"));
                return said;
            }
        }
    }
    wire.shut();
    said
}

#[test]
fn a_flush_says_whether_all_is_written(rt: HostRuntime) {
    let alloc = rt.alloc();
    let mut wire = tube(&rt, alloc, 2);
    same(&rt, flushes(alloc, &rt, &mut wire, 4).as_str(), "nnee");
    let link = wire.into_link();
    same(&rt, link.writes(), 3);
    same(&rt, link.len(), 13);
    holds(&rt, !link.is_open());
}

// ---- over IPC

// A wire of IPC over a link that gives the bytes in pieces of length `piece` with a pause after each, and then ends. A
// body has at most `max` bytes, and a write takes `take`.
fn ipc(
    rt: &impl Abort,
    alloc: Global,
    bytes: &[u8],
    piece: usize,
    take: usize,
    max: u32,
) -> TcpWire<Untold>
    ensures { result.wire.is_open ≡ true }
{
    let made_link = MemLink::new(
        alloc,
        pieces(rt, alloc, bytes, piece),
        take,
        Vec::new(alloc),
    );
    let link = Untold {
        link: made_link.placed(0, Scheme::Ipc),
    };
    match TcpWire::new(alloc, link, &[], max, Framing::Ipc) {
        Ok(wire) => wire,
        Err(_) => panic!(rt; "no memory for a wire"),
    }
}

// What the bytes of a link of IPC show, message by message, with the plain reader behind each byte before a size.
fn plainly_over_ipc(rt: &impl Abort, alloc: Global, bytes: &[u8], max: u32) -> Vec<u8> {
    let mut said = Vec::new(alloc);
    let mut left = bytes;
    for _ in 0..200 {
        let Some((first, behind)) = left.split_first() else {
            made(rt, said.push(b'e'));
            return said;
        };
        if *first != 1 {
            made(rt, said.push(b'x'));
            return said;
        }
        let mut reader = Reader::new(alloc);
        made(rt, reader.append(behind));
        match reader.front(max) {
            Prefix::Message(body) => {
                made(rt, said.push(b'['));
                made(rt, said.extend_from_slice(body));
                made(rt, said.push(b']'));
                left = &behind[body.len().saturating_add(8).min(behind.len())..];
            }
            Prefix::Part => {
                made(rt, said.push(b'e'));
                return said;
            }
            Prefix::Oversize => {
                made(rt, said.push(b'x'));
                return said;
            }
        }
    }
    said
}

// Returns whether a wire of IPC gives `wanted` from pieces of each length up to 10, and so does the plain reading.
fn ipc_gives<R: Wait + Abort>(alloc: Global, rt: &R, bytes: &[u8], wanted: &[u8]) -> bool {
    let plain = plainly_over_ipc(rt, alloc, bytes, 3);
    let mut all = plain.as_slice() == wanted;
    for piece in 1..11 {
        let mut wire = ipc(rt, alloc, bytes, piece, 1, 3);
        let said = pulls(alloc, rt, &mut wire);
        all = all && said.as_slice() == wanted;
    }
    all
}

#[test]
fn a_wire_of_ipc_reads_a_byte_before_each_size(rt: HostRuntime) {
    let alloc = rt.alloc();
    // two messages, the second of no bytes
    let bytes = b"\x01\x00\x00\x00\x00\x00\x00\x00\x02hi\x01\x00\x00\x00\x00\x00\x00\x00\x00";
    holds(&rt, ipc_gives(alloc, &rt, bytes, b"[hi][]e"));
    // another byte, after a message and first
    let bytes = b"\x01\x00\x00\x00\x00\x00\x00\x00\x02hi\x00";
    holds(&rt, ipc_gives(alloc, &rt, bytes, b"[hi]x"));
    holds(&rt, ipc_gives(alloc, &rt, b"\x02", b"x"));
    // a size above the limit, and the limit
    let bytes = b"\x01\x00\x00\x00\x00\x00\x00\x00\x04";
    holds(&rt, ipc_gives(alloc, &rt, bytes, b"x"));
    let bytes = b"\x01\x00\x00\x00\x00\x00\x00\x00\x03abc";
    holds(&rt, ipc_gives(alloc, &rt, bytes, b"[abc]e"));
}

#[test]
fn a_stream_of_ipc_ends_at_each_place(rt: HostRuntime) {
    let alloc = rt.alloc();
    let bytes = b"\x01\x00\x00\x00\x00\x00\x00\x00\x02hi\x01\x00\x00\x00\x00\x00\x00\x00\x01a\x00";
    // within the first message, its byte alone and with 1 to 7 bytes of its size too
    for end in 0..11 {
        holds(&rt, ipc_gives(alloc, &rt, &bytes[..end], b"e"));
    }
    for end in 11..21 {
        holds(&rt, ipc_gives(alloc, &rt, &bytes[..end], b"[hi]e"));
    }
    holds(&rt, ipc_gives(alloc, &rt, &bytes[..21], b"[hi][a]e"));
    holds(&rt, ipc_gives(alloc, &rt, bytes, b"[hi][a]x"));
}

#[test]
fn a_wire_of_ipc_writes_a_byte_before_each_size(rt: HostRuntime) {
    let alloc = rt.alloc();
    let mut stuck = ipc(&rt, alloc, b"", 1, 0, 100);
    same(
        &rt,
        puts(alloc, &rt, &mut stuck, 17).as_str(),
        "yyyyyyyyyyyyyyyyf",
    );
    let mut slow = ipc(&rt, alloc, b"", 1, 1, 100);
    same(
        &rt,
        puts(alloc, &rt, &mut slow, 17).as_str(),
        "yyyyyyyyyyyyyyyyy",
    );
    let link = slow.into_link();
    let written = link.link.written();
    same(&rt, written.len(), 16 * 18);
    let first = b"\x01\x00\x00\x00\x00\x00\x00\x00\x09\x00\x00\x00\x07hello\x01";
    holds(&rt, written.starts_with(first));
}
