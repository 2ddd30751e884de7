//! The listening side.
ghost use Rattle.std.specs.Prelude.{◌≡◌, ◌≤◌, ℕ, List, length, map, codes, All};
ghost use Rattle.httparse.specs.Spans.{IsRequestWithin, IsHeaderWithin, header_bytes};
ghost use Rattle.sp_upgrade.specs.Blanks.{most};
ghost use Rattle.sp_upgrade.specs.Keys.{is_key_line};
ghost use Rattle.sp_upgrade.specs.Lines.{values, sole};
ghost use Rattle.sp_upgrade.specs.Opening.{request_fault_at, GoodRequest, BadRequest, OfHead, ServerAnswers};

use crate::blank::end_of_head;
use crate::head::{Head, HeadFault};
use crate::keys::is_key;
use crate::lines::{any_has_token, has_line, sole_is, sole_value};
use crate::texts::{answer_text, subprotocol};
use httparse::Status;
use httparse::spans::{EMPTY_HEADER_SPAN, HeaderSpan, RequestSpans, parse_request};
use sp_base::Role;
use std::alloc::Global;

/// The maximum length of a head, in bytes.
pub(crate) const MOST: usize = 8192;

// The first fault of a head that was read.
fn fault_of(
    head: &[u8],
    found: &RequestSpans,
    spans: &[HeaderSpan],
    role: Role,
    path: &[u8],
) -> Option<HeadFault>
    requires { IsRequestWithin head.now spans.now found.now }
    ensures { result ≡ request_fault_at role path.now head.now found.now spans.now }
{
    let lines = &spans[..found.headers];
    if found.method.of(head) != b"GET".as_slice() {
        return Some(HeadFault::Method);
    }
    if found.version != 1 {
        return Some(HeadFault::Version);
    }
    if found.path.of(head) != path {
        return Some(HeadFault::Path);
    }
    if !has_line(head, lines, b"Host") {
        return Some(HeadFault::Host);
    }
    if !any_has_token(false, head, lines, b"Upgrade", b"websocket") {
        return Some(HeadFault::Upgrade);
    }
    if !any_has_token(false, head, lines, b"Connection", b"upgrade") {
        return Some(HeadFault::Connection);
    }
    if !sole_is(head, lines, b"Sec-WebSocket-Version", b"13") {
        return Some(HeadFault::WsVersion);
    }
    if !has_key(head, lines) {
        return Some(HeadFault::Key);
    }
    let wanted = subprotocol(role).as_bytes();
    if !any_has_token(true, head, lines, b"Sec-WebSocket-Protocol", wanted) {
        return Some(HeadFault::Protocol);
    }
    None
}

fn has_key(head: &[u8], lines: &[HeaderSpan]) -> bool
    requires { All (IsHeaderWithin (length head.now)) lines.now }
    ensures { result ≡ is_key_line (sole (values (codes "Sec-WebSocket-Key") (map (header_bytes head.now) lines.now))) }
{
    match sole_value(head, lines, b"Sec-WebSocket-Key") {
        Some(key) => is_key(key),
        None => false,
    }
}

// The result for a head.
fn read_request(alloc: Global, head: &[u8], role: Role, path: &[u8]) -> Head
    requires { length head.now ≤ most }
    ensures { OfHead (GoodRequest role path.now) (BadRequest role path.now) result head.now }
{
    let mut spans = [EMPTY_HEADER_SPAN; 64];
    let found = match parse_request(head, &mut spans) {
        Ok(Status::Complete(found)) if found.len == head.len() => found,
        _ => return Head::Bad(HeadFault::NotHttp),
    };
    if let Some(fault) = fault_of(head, &found, &spans, role, path) {
        return Head::Bad(fault);
    }
    let Some(key) = sole_value(head, &spans[..found.headers], b"Sec-WebSocket-Key") else {
        return Head::Bad(HeadFault::Key);
    };
    match answer_text(alloc, role, key) {
        Ok(answer) => Head::Good {
            used: head.len() as u32,
            answer,
        },
        Err(_) => Head::NoMemory,
    }
}

/// The result for the bytes that came to a listening socket of this role and path (RFC 6455 sections 1.3, 4.2.1 and
/// 4.2.2; the subprotocol is NAME`.sp.nanomsg.org`, with the listening role's name, as in the WebSocket mapping of SP).
/// `More` exactly where fewer than 8,192 came without a blank line; otherwise the first fault that applies, in the
/// order of `HeadFault`; otherwise the answer. Looks at no byte after the 8,192nd. `NoMemory` only where the head is
/// good and there is no memory for its answer.
pub fn server_head(alloc: Global, came: &[u8], role: Role, path: &[u8]) -> Head
    ensures { ServerAnswers result came.now role path.now }
{
    let seen = &came[..came.len().min(MOST)];
    match end_of_head(seen) {
        Some(used) => read_request(alloc, &seen[..used], role, path),
        None if came.len() < MOST => Head::More,
        None => Head::Bad(HeadFault::TooLong),
    }
}
