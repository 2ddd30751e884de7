//! Examples of heads: the sample of RFC 6455 section 1.3 with the subprotocol of SP, and heads near it.

use crate::checks::{holds, made, same, same_at};
use sp_base::{Addr, Bytes, Host, Role};
use sp_upgrade::{Head, HeadFault, client_answer, client_head, server_head};
use std::alloc::Global;
use std::process::Abort;

/// A client's head.
pub(crate) const REQUEST: &[u8] = b"\
    GET / HTTP/1.1\r\n\
    Host: 127.0.0.1:5555\r\n\
    Upgrade: websocket\r\n\
    Connection: Upgrade\r\n\
    Sec-WebSocket-Key: dGhlIHNhbXBsZSBub25jZQ==\r\n\
    Sec-WebSocket-Version: 13\r\n\
    Sec-WebSocket-Protocol: rep.sp.nanomsg.org\r\n\
    \r\n";

/// The answer to the client's head.
pub(crate) const RESPONSE: &[u8] = b"\
    HTTP/1.1 101 Switching Protocols\r\n\
    Upgrade: websocket\r\n\
    Connection: Upgrade\r\n\
    Sec-WebSocket-Accept: s3pPLMBiTxaQ9kYGzzhZRbK+xOo=\r\n\
    Sec-WebSocket-Protocol: rep.sp.nanomsg.org\r\n\
    \r\n";

const NONCE: &[u8] = b"the sample nonce";

/// The sample with the first `old` replaced by `new`.
pub(crate) fn varied(
    rt: &impl Abort,
    alloc: Global,
    sample: &[u8],
    old: &[u8],
    new: &[u8],
) -> Vec<u8> {
    let mut out = Vec::new(alloc);
    for at in 0..sample.len() {
        let rest = &sample[at..];
        if rest.starts_with(old) {
            made(rt, out.extend_from_slice(&sample[..at]));
            made(rt, out.extend_from_slice(new));
            made(rt, out.extend_from_slice(&rest[old.len()..]));
            return out;
        }
    }
    out
}

/// A head without its carriage returns.
pub(crate) fn without_returns(rt: &impl Abort, alloc: Global, head: &[u8]) -> Vec<u8> {
    let mut bare = Vec::new(alloc);
    for b in head {
        if *b != b'\r' {
            made(rt, bare.push(*b));
        }
    }
    bare
}

/// The fault of a head at a listening rep with the path `/`.
pub(crate) fn fault(alloc: Global, came: &[u8]) -> Option<HeadFault> {
    match server_head(alloc, came, Role::Rep, b"/") {
        Head::Bad(fault) => Some(fault),
        _ => None,
    }
}

// The fault of an answer at a dialing req.
fn client_fault(alloc: Global, came: &[u8]) -> Option<HeadFault> {
    match client_answer(alloc, came, NONCE, Role::Req) {
        Head::Bad(fault) => Some(fault),
        _ => None,
    }
}

fn is_good(alloc: Global, came: &[u8], length: usize) -> bool {
    match server_head(alloc, came, Role::Rep, b"/") {
        Head::Good { used, answer } => used as usize == length && answer.as_slice() == RESPONSE,
        _ => false,
    }
}

fn is_more(alloc: Global, came: &[u8]) -> bool {
    match server_head(alloc, came, Role::Rep, b"/") {
        Head::More => true,
        _ => false,
    }
}

// The sample with an ignored line, so that it is `length` bytes long in all.
fn padded(rt: &impl Abort, alloc: Global, length: usize) -> Vec<u8> {
    let mut line = made(rt, Vec::from_slice(alloc, b"X-Y: "));
    made(rt, line.resize(length.saturating_sub(199), b'a'));
    made(rt, line.extend_from_slice(b"\r\nHost"));
    varied(rt, alloc, REQUEST, b"Host", &line)
}

/// The sample with `more` more lines.
pub(crate) fn with_lines(rt: &impl Abort, alloc: Global, more: usize) -> Vec<u8> {
    let mut lines = Vec::new(alloc);
    for _ in 0..more {
        made(rt, lines.extend_from_slice(b"X: y\r\n"));
    }
    made(rt, lines.extend_from_slice(b"Host"));
    varied(rt, alloc, REQUEST, b"Host", &lines)
}

#[test]
fn the_sample_opening_is_good(rt: HostRuntime) {
    same(&rt, REQUEST.len(), 197);
    same(&rt, RESPONSE.len(), 173);
    holds(&rt, is_good(rt.alloc(), REQUEST, 197));
    let mut more = made(&rt, Vec::from_slice(rt.alloc(), REQUEST));
    made(&rt, more.extend_from_slice(b"\x82\x00\r\n\r\n"));
    holds(&rt, is_good(rt.alloc(), &more, 197));
}

#[test]
fn a_head_in_the_making_is_more(rt: HostRuntime) {
    holds(&rt, is_more(rt.alloc(), &REQUEST[..196]));
    holds(&rt, is_more(rt.alloc(), b""));
    let mut long = Vec::new(rt.alloc());
    made(&rt, long.resize(8191, b'a'));
    holds(&rt, is_more(rt.alloc(), &long));
    made(&rt, long.push(b'a'));
    same(&rt, fault(rt.alloc(), &long), Some(HeadFault::TooLong));
    made(&rt, long.extend_from_slice(REQUEST));
    same(&rt, fault(rt.alloc(), &long), Some(HeadFault::TooLong));
}

#[test]
fn a_head_has_at_most_8192_bytes_and_64_lines(rt: HostRuntime) {
    let longest = padded(&rt, rt.alloc(), 8192);
    holds(&rt, is_good(rt.alloc(), &longest, 8192));
    let longer = padded(&rt, rt.alloc(), 8193);
    same(&rt, fault(rt.alloc(), &longer), Some(HeadFault::TooLong));
    let most = with_lines(&rt, rt.alloc(), 58);
    holds(&rt, is_good(rt.alloc(), &most, most.len()));
    let many = with_lines(&rt, rt.alloc(), 59);
    same(&rt, fault(rt.alloc(), &many), Some(HeadFault::NotHttp));
}

#[test]
fn the_first_blank_line_ends_a_head(rt: HostRuntime) {
    let one = varied(&rt, rt.alloc(), REQUEST, b"5555\r\n", b"5555\n");
    holds(&rt, is_good(rt.alloc(), &one, 196));
    let first = varied(&rt, rt.alloc(), REQUEST, b"GET", b"\r\nGET");
    holds(&rt, is_good(rt.alloc(), &first, 199));
    let empty = varied(&rt, rt.alloc(), REQUEST, b"Host: 127.0.0.1:5555", b"Host:");
    holds(&rt, is_good(rt.alloc(), &empty, empty.len()));
    let two = varied(
        &rt,
        rt.alloc(),
        REQUEST,
        b"Upgrade: websocket",
        b"Upgrade: h2c\r\nUpgrade: websocket",
    );
    holds(&rt, is_good(rt.alloc(), &two, two.len()));
    let bare = without_returns(&rt, rt.alloc(), REQUEST);
    holds(&rt, is_more(rt.alloc(), &bare));
}

#[test]
fn the_first_fault_decides(rt: HostRuntime) {
    let post = varied(
        &rt,
        rt.alloc(),
        REQUEST,
        b"GET / HTTP/1.1",
        b"POST /b HTTP/1.0",
    );
    same(&rt, fault(rt.alloc(), &post), Some(HeadFault::Method));
    let old = varied(&rt, rt.alloc(), REQUEST, b"Version: 13", b"Version: 12");
    let both = varied(&rt, rt.alloc(), &old, b"dGhlIHNhbXBsZSBub25jZQ==", b"AAAA");
    same(&rt, fault(rt.alloc(), &both), Some(HeadFault::WsVersion));
}

#[test]
fn names_and_tokens_ignore_case(rt: HostRuntime) {
    let a = varied(
        &rt,
        rt.alloc(),
        REQUEST,
        b"Upgrade: websocket",
        b"upgrade: h2c , WebSocket",
    );
    let b = varied(
        &rt,
        rt.alloc(),
        &a,
        b"Connection: Upgrade",
        b"CONNECTION: keep-alive,UPGRADE",
    );
    let c = varied(
        &rt,
        rt.alloc(),
        &b,
        b"Sec-WebSocket-Protocol: ",
        b"sec-websocket-protocol: x, ",
    );
    holds(&rt, is_good(rt.alloc(), &c, c.len()));
}

#[test]
fn a_client_writes_its_head(rt: HostRuntime) {
    let addr = Addr::Ws {
        host: Host::V4(127, 0, 0, 1),
        port: 5555,
        path: made(&rt, Bytes::from_slice(rt.alloc(), b"/")),
    };
    let head = made(&rt, client_head(rt.alloc(), NONCE, &addr, Role::Req));
    same(&rt, head.as_slice(), REQUEST);
}

// A fault, the text in the sample that is replaced, and its replacement; bars separate the rows.
const ANSWERS: &[u8] = b"\
    Status^101 Switching Protocols^200 OK|\
    Status^101 Switching^100 Switching|\
    Version^HTTP/1.1^HTTP/1.0|\
    NotHttp^HTTP/1.1^HTTP/1.2|\
    Accept^s3p^t3p|\
    Accept^s3p^S3P|\
    Accept^Sec-WebSocket-Accept: s3pPLMBiTxaQ9kYGzzhZRbK+xOo=\r\n^|\
    Accept^Sec-WebSocket-Accept: s3pPLMBiTxaQ9kYGzzhZRbK+xOo=\r\n\
    ^Sec-WebSocket-Accept: s3pPLMBiTxaQ9kYGzzhZRbK+xOo=\r\n\
    Sec-WebSocket-Accept: s3pPLMBiTxaQ9kYGzzhZRbK+xOo=\r\n|\
    Extension^Upgrade: websocket\r\n^Upgrade: websocket\r\nSec-WebSocket-Extensions: permessage-deflate\r\n|\
    Extension^rep.sp.nanomsg.org\r\n^req.sp.nanomsg.org\r\nsec-websocket-extensions: x; y=1\r\n|\
    Accept^Accept: s3p^Extensions: x\r\nSec-WebSocket-Accept: t3p|\
    Protocol^rep.sp^x, rep.sp|\
    Protocol^rep.sp^req.sp|\
    Protocol^Sec-WebSocket-Protocol: rep.sp.nanomsg.org\r\n^|\
    Protocol^org\r\n^org\r\nSec-WebSocket-Protocol: rep.sp.nanomsg.org\r\n|\
    Upgrade^Upgrade: websocket\r\n^|\
    Connection^Connection: Upgrade\r\n^";

// The three parts of a row.
fn parts(row: &[u8]) -> Option<(&[u8], &[u8], &[u8])> {
    let mut parts = row.split(|byte| *byte == b'^');
    Some((parts.next()?, parts.next()?, parts.next()?))
}

// Checks that each row's answer has its fault at a dialing req.
fn check_answers(rt: &impl Abort, alloc: Global, rows: &[u8]) {
    let mut number: u32 = 0;
    for row in rows.split(|byte| *byte == b'|') {
        number = number.saturating_add(1);
        let Some((wanted, old, new)) = parts(row) else {
            panic!(rt; "row {number} is short")
        };
        let came = varied(rt, alloc, RESPONSE, old, new);
        let Some(found) = client_fault(alloc, &came) else {
            panic!(rt; "row {number} has no fault")
        };
        let found = made(rt, format!(in alloc; "{found:?}"));
        same_at(
            rt,
            number,
            found.as_str(),
            made(rt, std::str::from_utf8(wanted)),
        );
    }
}

#[test]
fn a_client_checks_the_answer(rt: HostRuntime) {
    match client_answer(rt.alloc(), RESPONSE, NONCE, Role::Req) {
        Head::Good { used, answer } => {
            same(&rt, used, 173);
            holds(&rt, answer.as_slice().is_empty())
        },
        _ => assert!(rt; false),
    }
    match client_answer(rt.alloc(), &RESPONSE[..172], NONCE, Role::Req) {
        Head::More => {}
        _ => assert!(rt; false),
    }
    check_answers(&rt, rt.alloc(), ANSWERS);
}
