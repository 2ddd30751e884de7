//! What a wire writes (RFC 6455 sections 5.2, 5.3 and 5.5).
ghost use Rattle.std.specs.Prelude.{◌≡◌, true};

use crate::checks::{holds, made, same};
use crate::frames::{gives, over, pieces};
use sp_fakes::{LinkStep, MemLink};
use sp_msg::{Message, Room, Wire, WireFlush, WireIn};
use sp_ws::{Side, WsWire};
use std::alloc::Global;
use std::process::Abort;
use std::sync::Wait;

const MAX: u32 = 1_048_576;

// A wire over a link that gives nothing and takes `take` bytes a write; the writes with these numbers fail.
fn quiet(
    rt: &impl Abort,
    alloc: Global,
    side: Side,
    take: usize,
    fails: Vec<u64>,
) -> WsWire<MemLink>
    ensures { result.wire.is_open ≡ true }
{
    let link = MemLink::new(alloc, Vec::new(alloc), take, fails);
    over(rt, alloc, link, side, &[], MAX)
}

// What a wire on this side writes while it pulls all of these bytes, which are no message, and whether it has ended
// after that.
fn answered<R: Wait + Abort>(alloc: Global, rt: &R, side: Side, bytes: &[u8]) -> (Vec<u8>, bool) {
    let script = pieces(rt, alloc, bytes, 100, LinkStep::NotYet);
    let link = MemLink::new(alloc, script, 100, Vec::new(alloc));
    let mut w = over(rt, alloc, link, side, &[], MAX);
    let has_ended = matches!(w.pull(rt), WireIn::Ended);
    w.shut();
    let link = w.into_link();
    (made(rt, Vec::from_slice(alloc, link.written())), has_ended)
}

// Checks that the answer to these bytes is written by the pull that found them.
fn check_answer<R: Wait + Abort>(
    alloc: Global,
    rt: &R,
    side: Side,
    bytes: &[u8],
    wanted: &[u8],
    has_ended: bool,
) {
    let (written, ended) = answered(alloc, rt, side, bytes);
    same(rt, written.as_slice(), wanted);
    same(rt, ended, has_ended);
}

#[test]
fn a_pong_answers_a_ping(rt: HostRuntime) {
    let ping = b"\x89\x81\x00\x00\x00\x00p";
    check_answer(rt.alloc(), &rt, Side::Server, ping, b"\x8a\x01p", false);
    let masked = b"\x8a\x81\x51\x75\xda\x14\x21";
    let side = Side::Client { seed: 7 };
    check_answer(rt.alloc(), &rt, side, b"\x89\x01p", masked, false);
}

#[test]
fn a_close_frame_answers_a_close_frame(rt: HostRuntime) {
    let alloc = rt.alloc();
    let close = b"\x88\x82\x00\x00\x00\x00\x03\xe8";
    let answer = b"\x88\x02\x03\xe8";
    check_answer(alloc, &rt, Side::Server, close, answer, true);
    let bare = b"\x88\x80\x00\x00\x00\x00";
    check_answer(alloc, &rt, Side::Server, bare, b"\x88\x00", true);
    let both = b"\x89\x81\x00\x00\x00\x00p\x88\x80\x00\x00\x00\x00";
    let answers = b"\x8a\x01p\x88\x00";
    check_answer(alloc, &rt, Side::Server, both, answers, true);
    let side = Side::Client { seed: 7 };
    let masked = b"\x88\x82\x51\x75\xda\x14\x52\x9d";
    check_answer(alloc, &rt, side, answer, masked, true);
}

// Puts messages `q` until there is no room, and returns how many and what was returned then.
fn fills<R: Wait + Abort>(alloc: Global, rt: &R, wire: &mut WsWire<MemLink>) -> (u32, Room)
    requires { wire.old.wire.is_open ≡ true }
{
    let mut count = 0;
    for _ in 0..40u32 {
        match wire.room(rt) {
            Room::Yes => {
                let m = made(rt, Message::from_body(alloc, b"q"));
                wire.put(rt, m);
                count += 1;
            }
            other => return (count, other),
        }
    }
    (count, Room::Yes)
}

#[test]
fn sixteen_messages_wait_at_most(rt: HostRuntime) {
    let mut w = quiet(&rt, rt.alloc(), Side::Server, 0, Vec::new(rt.alloc()));
    same(&rt, fills(rt.alloc(), &rt, &mut w), (16, Room::Full));
}

// The number of messages that a wire takes whose write with this number fails, what it returns then, and the number of
// bytes written.
fn until_it_fails<R: Wait + Abort>(
    alloc: Global,
    rt: &R,
    side: Side,
    take: usize,
    write: u64,
) -> (u32, Room, usize) {
    let mut w = quiet(
        rt,
        alloc,
        side,
        take,
        made(rt, Vec::from_slice(alloc, &[write])),
    );
    let (count, room) = fills(alloc, rt, &mut w);
    (count, room, w.into_link().written().len())
}

#[test]
fn a_write_that_fails_fails_its_wire(rt: HostRuntime) {
    let first = until_it_fails(rt.alloc(), &rt, Side::Server, 100, 0);
    same(&rt, first, (16, Room::Failed, 0));
    let third = until_it_fails(rt.alloc(), &rt, Side::Client { seed: 1 }, 2, 2);
    same(&rt, third, (16, Room::Failed, 4));
}

// What a wire writes that sends one message in writes of `take` bytes.
fn sent<R: Wait + Abort>(alloc: Global, rt: &R, side: Side, take: usize) -> Vec<u8> {
    let mut w = quiet(rt, alloc, side, take, Vec::new(alloc));
    if let Room::Yes = w.room(rt) {
        let mut m = made(rt, Message::from_body(alloc, b"q"));
        let _ = m.header_append_u32(0x8000_0005);
        w.put(rt, m);
        let _ = w.flush(rt);
    }
    let link = w.into_link();
    made(rt, Vec::from_slice(alloc, link.written()))
}

#[test]
fn a_message_is_one_binary_frame(rt: HostRuntime) {
    let frame = b"\x82\x05\x80\x00\x00\x05q";
    same(
        &rt,
        sent(rt.alloc(), &rt, Side::Server, 1).as_slice(),
        frame.as_slice(),
    );
    same(
        &rt,
        sent(rt.alloc(), &rt, Side::Server, 100).as_slice(),
        frame.as_slice(),
    );
    let masked = sent(rt.alloc(), &rt, Side::Client { seed: 7 }, 3);
    same(&rt, masked.len(), 11);
    holds(&rt, masked.starts_with(b"\x82\x85"));
    let wanted: &[u8] = b"[\x80\x00\x00\x05q]e";
    holds(
        &rt,
        gives(rt.alloc(), &rt, Side::Server, &masked, 2, MAX, wanted),
    );
}

// Returns whether there was room for one more message.
fn puts<R: Wait + Abort>(alloc: Global, rt: &R, w: &mut WsWire<MemLink>, body: &[u8]) -> bool
    requires { w.old.wire.is_open ≡ true }
    ensures { result ≡ true → w.new.wire.is_open ≡ true }
{
    let Room::Yes = w.room(rt) else {
        return false;
    };
    let m = made(rt, Message::from_body(alloc, body));
    w.put(rt, m);
    true
}

#[test]
fn each_frame_has_its_own_mask(rt: HostRuntime) {
    let mut w = quiet(
        &rt,
        rt.alloc(),
        Side::Client { seed: 7 },
        100,
        Vec::new(rt.alloc()),
    );
    let body: &[u8] = b"\x80\x00\x00\x05q";
    if puts(rt.alloc(), &rt, &mut w, body) && puts(rt.alloc(), &rt, &mut w, body) {
        let _ = w.flush(&rt);
    }
    let wanted: &[u8] =
        b"\x82\x85\x7e\x43\x28\xbc\xfe\x43\x28\xb9\x0f\x82\x85\xf4\xa6\x1a\x7f\x74\xa6\x1a\x7a\x85";
    same(&rt, w.into_link().written(), wanted);
}

// Returns whether a server writes a message of `length` bytes after this header.
fn writes_length<R: Wait + Abort>(alloc: Global, rt: &R, length: usize, header: &[u8]) -> bool {
    let mut body = Vec::new(alloc);
    made(rt, body.resize(length, b'a'));
    let mut w = quiet(rt, alloc, Side::Server, 100_000, Vec::new(alloc));
    if puts(alloc, rt, &mut w, &body) {
        let _ = w.flush(rt);
    }
    let link = w.into_link();
    let written = link.written();
    written.len() == header.len().saturating_add(length)
        && written.starts_with(header)
        && written.ends_with(&body)
}

#[test]
fn a_server_writes_frames_of_each_length(rt: HostRuntime) {
    let alloc = rt.alloc();
    holds(&rt, writes_length(alloc, &rt, 125, b"\x82\x7d"));
    holds(&rt, writes_length(alloc, &rt, 126, b"\x82\x7e\x00\x7e"));
    holds(&rt, writes_length(alloc, &rt, 65_535, b"\x82\x7e\xff\xff"));
    let header = b"\x82\x7f\x00\x00\x00\x00\x00\x01\x00\x00";
    holds(&rt, writes_length(alloc, &rt, 65_536, header));
}
