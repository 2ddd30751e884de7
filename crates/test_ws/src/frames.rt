//! What a wire pulls from the frames that come (RFC 6455 sections 5.2 to 5.7).
ghost use Rattle.std.specs.Prelude.{◌≡◌, true};
ghost use Rattle.sp_fakes.specs.MemLinks.{link_view};

use crate::checks::{holds, made, same, same_at};
use crate::rows::{bytes_of, cut};
use sp_base::Bytes;
use sp_fakes::{LinkStep, MemLink};
use sp_msg::{Room, Wire, WireFlush, WireIn};
use sp_ws::{Side, WsWire};
use std::alloc::Global;
use std::process::Abort;
use std::sync::Wait;

const MAX: u32 = 1_048_576;

/// The bytes in pieces of length `piece` with a pause after each, and then the step `last`.
pub(crate) fn pieces(
    rt: &impl Abort,
    alloc: Global,
    bytes: &[u8],
    piece: usize,
    last: LinkStep,
) -> Vec<LinkStep> {
    let mut script = Vec::new(alloc);
    let mut at = 0;
    for _ in 0..bytes.len() {
        if at >= bytes.len() {
            break;
        }
        let end = at.saturating_add(piece).min(bytes.len());
        made(
            rt,
            script.push(LinkStep::Bytes(made(rt, Bytes::from_slice(alloc, &bytes[at..end])))),
        );
        made(rt, script.push(LinkStep::NotYet));
        at = end;
    }
    made(rt, script.push(last));
    script
}

/// A wire over a link.
pub(crate) fn over(
    rt: &impl Abort,
    alloc: Global,
    link: MemLink,
    side: Side,
    rest: &[u8],
    max: u32,
) -> WsWire<MemLink>
    requires { (link_view link).is_open ≡ true }
    ensures { result.wire.is_open ≡ true }
{
    match WsWire::new(alloc, link, side, rest, max) {
        Ok(wire) => wire,
        Err(_) => panic!(rt; "no memory for a wire"),
    }
}

// What is pulled: each body in brackets, and how the pulls end.
fn pulls<W: Wire, R: Wait + Abort>(alloc: Global, rt: &R, wire: &mut W) -> Vec<u8>
    requires { (W.shown wire.old).is_open ≡ true }
{
    let mut said = Vec::new(alloc);
    'turns: for _ in 0..200 {
        match wire.pull(rt) {
            WireIn::Message(m) => {
                made(rt, said.push(b'['));
                made(rt, said.extend_from_slice(m.body()));
                made(rt, said.push(b']'));
            }
            WireIn::NotYet => {}
            WireIn::Ended => {
                made(rt, said.push(b'e'));
                return said;
            }
            WireIn::Malformed => {
                made(rt, said.push(b'x'));
                return said;
            }
            WireIn::Failed => {
                made(rt, said.push(b'f'));
                return said;
            }
            WireIn::Refused => {
                made(rt, said.push(b'r'));
                return said;
            }
            WireIn::NoMemory => panic!(rt; "no memory"),
        }
    }
    said
}

/// The same for a wire on this side over this link, which has already read `rest`.
pub(crate) fn pulled<R: Wait + Abort>(
    alloc: Global,
    rt: &R,
    link: MemLink,
    side: Side,
    rest: &[u8],
    max: u32,
) -> Vec<u8>
    requires { (link_view link).is_open ≡ true }
{
    let mut wire = over(rt, alloc, link, side, rest, max);
    pulls(alloc, rt, &mut wire)
}

/// Returns whether a wire on this side pulls `wanted` from these bytes, in pieces of length `piece`.
pub(crate) fn gives<R: Wait + Abort>(
    alloc: Global,
    rt: &R,
    side: Side,
    bytes: &[u8],
    piece: usize,
    max: u32,
    wanted: &[u8],
) -> bool {
    let script = pieces(rt, alloc, bytes, piece, LinkStep::End);
    let link = MemLink::new(alloc, script, 100, Vec::new(alloc));
    pulled(alloc, rt, link, side, &[], max).as_slice() == wanted
}

// Returns whether it does so byte by byte, and all at once.
fn gives_both<R: Wait + Abort>(
    alloc: Global,
    rt: &R,
    side: Side,
    bytes: &[u8],
    wanted: &[u8],
) -> bool {
    let slow = gives(alloc, rt, side, bytes, 1, MAX, wanted);
    let quick = gives(alloc, rt, side, bytes, 10_000, MAX, wanted);
    slow && quick
}

// Checks that a wire on this side pulls what follows the bar of each row.
fn check_rows<R: Wait + Abort>(alloc: Global, rt: &R, side: Side, rows: &str) {
    let mut number: u32 = 0;
    for row in rows.as_bytes().split(|byte| *byte == b'\n') {
        number = number.saturating_add(1);
        let Some((bytes, wanted)) = cut(row) else {
            panic!(rt; "row {number} has no bar")
        };
        let bytes = bytes_of(rt, alloc, bytes);
        let wanted = bytes_of(rt, alloc, wanted);
        same_at(
            rt,
            number,
            gives_both(alloc, rt, side, &bytes, &wanted),
            true,
        );
    }
}

const HELLO: &[u8] = b"\x82\x85\x37\xfa\x21\x3d\x7f\x9f\x4d\x51\x58";

// Frames of a client and what a server pulls from them. The last is the masked pong of RFC 6455 section 5.7.
const PULLED: &str = "\
828537fa213d7f9f'MQX | '[Hello]e
828000000000' | '[]e
02830000000080000080820000000005'q | 5b80000005'q]e
028000000000808000000000' | '[]e
82810000000061898000000000828100000000'b | '[a][b]e
0281000000006189810000000070808100000000'b | '[ab]e
028100000000618a800000000000810000000062808000000000' | '[ab]e
82810000000061888000000000' | '[a]e
02810000000061888000000000' | 'e
88820000000003e8' | 'e
828537fa213d7f' | 'e
82' | 'e
' | 'e
8a8537fa213d7f9f4d5158828000000000' | '[]e";

#[test]
fn a_server_pulls_binary_messages(rt: HostRuntime) {
    check_rows(rt.alloc(), &rt, Side::Server, PULLED);
}

const REFUSED: &str = "\
818537fa213d7f9f'MQX | 'x
8201'q | 'x
8900' | 'x
c28100000000'a | 'x
a28100000000'a | 'x
928100000000'a | 'x
838000000000' | 'x
878000000000' | 'x
8b8000000000' | 'x
8f8000000000' | 'x
808100000000'a | 'x
098000000000' | 'x
088000000000' | 'x
02810000000061828100000000'b | 'x
88810000000003' | 'x
82ff000000000010000100000000' | 'x
82ff7fffffffffffffff00000000' | 'x
82ffffffffffffffffff00000000' | 'x
82810000000061818100000000'b | '[a]x";

#[test]
fn a_server_refuses_what_is_no_binary_message(rt: HostRuntime) {
    check_rows(rt.alloc(), &rt, Side::Server, REFUSED);
}

const UNMASKED: &str = "\
8205'Hello | '[Hello]e
020348656c8002'lo | '[Hello]e
890548656c6c6f8200' | '[]e
8105'Hello | 'x
010348656c8002'lo | 'x
828537fa213d7f9f'MQX | 'x
8800' | 'e";

#[test]
fn a_client_pulls_unmasked_messages(rt: HostRuntime) {
    check_rows(rt.alloc(), &rt, Side::Client { seed: 7 }, UNMASKED);
}

// Returns whether a server pulls `wanted` from these bytes, where a message may have `max` bytes.
fn gives_up_to<R: Wait + Abort>(
    alloc: Global,
    rt: &R,
    bytes: &[u8],
    max: u32,
    wanted: &[u8],
) -> bool {
    gives(alloc, rt, Side::Server, bytes, 100, max, wanted)
}

#[test]
fn a_message_has_at_most_max_bytes(rt: HostRuntime) {
    let alloc = rt.alloc();
    let five: &[u8] = b"\x02\x83\x00\x00\x00\x00abc\x80\x82\x00\x00\x00\x00de";
    holds(&rt, gives_up_to(alloc, &rt, five, 5, b"[abcde]e"));
    holds(&rt, gives_up_to(alloc, &rt, five, 4, b"x"));
    holds(&rt, gives_up_to(alloc, &rt, HELLO, 5, b"[Hello]e"));
    holds(&rt, gives_up_to(alloc, &rt, HELLO, 4, b"x"));
    // the second fragment exceeds the limit, and neither fragment is the last
    let begun: &[u8] = b"\x02\x83\x00\x00\x00\x00abc\x00\x82\x00\x00\x00\x00de";
    holds(&rt, gives_up_to(alloc, &rt, begun, 4, b"x"));
}

// A masked frame of `length` zero bytes, with its length in eight bytes.
fn zeroes(rt: &impl Abort, alloc: Global, length: u64) -> Vec<u8> {
    let mut frame = made(rt, Vec::from_slice(alloc, b"\x82\xff"));
    made(rt, frame.extend_from_slice(&length.to_be_bytes()));
    made(rt, frame.extend_from_slice(&[0, 0, 0, 0]));
    for _ in 0..length {
        made(rt, frame.push(0));
    }
    frame
}

// The length of the first message that the wire pulls, and whether what it pulls is malformed.
fn first_of<W: Wire, R: Wait + Abort>(rt: &R, wire: &mut W) -> (usize, bool)
    requires { (W.shown wire.old).is_open ≡ true }
{
    match wire.pull(rt) {
        WireIn::Message(m) => (m.body().len(), false),
        WireIn::Malformed => (0, true),
        WireIn::NoMemory => panic!(rt; "no memory"),
        _ => (0, false),
    }
}

// The same for a wire on this side, to which these bytes come.
fn first_length<R: Wait + Abort>(alloc: Global, rt: &R, side: Side, bytes: &[u8]) -> (usize, bool) {
    let script = pieces(rt, alloc, bytes, bytes.len(), LinkStep::NotYet);
    let link = MemLink::new(alloc, script, 100, Vec::new(alloc));
    let mut wire = over(rt, alloc, link, side, &[], MAX);
    first_of(rt, &mut wire)
}

#[test]
fn a_mebibyte_is_pulled_and_no_byte_more(rt: HostRuntime) {
    let longest = zeroes(&rt, rt.alloc(), 1_048_576);
    let first = first_length(rt.alloc(), &rt, Side::Server, &longest);
    same(&rt, first, (1_048_576, false));
    let longer = zeroes(&rt, rt.alloc(), 1_048_577);
    let first = first_length(rt.alloc(), &rt, Side::Server, &longer);
    same(&rt, first, (0, true));
}

// Returns whether a client pulls a message of `length` bytes after this header.
fn pulls_length<R: Wait + Abort>(alloc: Global, rt: &R, header: &[u8], length: usize) -> bool {
    let mut frame = made(rt, Vec::from_slice(alloc, header));
    made(rt, frame.resize(header.len().saturating_add(length), b'a'));
    first_length(alloc, rt, Side::Client { seed: 7 }, &frame) == (length, false)
}

#[test]
fn a_client_pulls_frames_of_each_length(rt: HostRuntime) {
    let alloc = rt.alloc();
    holds(&rt, pulls_length(alloc, &rt, b"\x82\x7d", 125));
    holds(&rt, pulls_length(alloc, &rt, b"\x82\x7e\x01\x00", 256));
    let header = b"\x82\x7f\x00\x00\x00\x00\x00\x01\x00\x00";
    holds(&rt, pulls_length(alloc, &rt, header, 65_536));
}

#[test]
fn bytes_behind_the_head_come_first(rt: HostRuntime) {
    let script = pieces(&rt, rt.alloc(), b"\x58", 1, LinkStep::End);
    let link = MemLink::new(rt.alloc(), script, 100, Vec::new(rt.alloc()));
    let said = pulled(rt.alloc(), &rt, link, Side::Server, &HELLO[..10], MAX);
    same(&rt, said.as_slice(), b"[Hello]e".as_slice());
}

// Returns whether the wire has room and nothing to write, and then pulls this message.
fn gives_after_a_flush<R: Wait>(rt: &R, w: &mut WsWire<MemLink>, wanted: &[u8]) -> bool
    requires { w.old.wire.is_open ≡ true }
{
    let Room::Yes = w.room(rt) else {
        return false;
    };
    let WireFlush::Empty = w.flush(rt) else {
        return false;
    };
    match w.pull(rt) {
        WireIn::Message(m) => m.body() == wanted,
        _ => false,
    }
}

#[test]
fn bytes_behind_the_head_stay_while_nothing_is_pulled(rt: HostRuntime) {
    let link = MemLink::new(rt.alloc(), Vec::new(rt.alloc()), 100, Vec::new(rt.alloc()));
    let mut w = over(&rt, rt.alloc(), link, Side::Server, HELLO, MAX);
    holds(&rt, gives_after_a_flush(&rt, &mut w, b"Hello"));
}

#[test]
fn a_link_that_fails_fails_its_wire(rt: HostRuntime) {
    let script = pieces(&rt, rt.alloc(), &HELLO[..10], 4, LinkStep::Fail);
    let link = MemLink::new(rt.alloc(), script, 100, Vec::new(rt.alloc()));
    let said = pulled(rt.alloc(), &rt, link, Side::Server, &[], MAX);
    same(&rt, said.as_slice(), b"f".as_slice());
    let script = pieces(&rt, rt.alloc(), HELLO, 4, LinkStep::Fail);
    let link = MemLink::new(rt.alloc(), script, 100, Vec::new(rt.alloc()));
    let said = pulled(rt.alloc(), &rt, link, Side::Server, &[], MAX);
    same(&rt, said.as_slice(), b"[Hello]f".as_slice());
}
