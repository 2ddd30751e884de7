//! The dialing side.
ghost use Rattle.std.specs.Prelude.{◌≡◌, ◌≤◌, ℕ, List, length, IfOk};
ghost use Rattle.httparse.specs.Spans.{IsResponseWithin};
ghost use Rattle.sp_base.specs.Roles.{role_peer};
ghost use Rattle.sp_upgrade.specs.Blanks.{most};
ghost use Rattle.sp_upgrade.specs.Opening.{response_fault_at, GoodResponse, BadResponse, OfHead, ClientAnswers};
ghost use Rattle.sp_upgrade.specs.Texts.{Dials, IsDialed, request_text};

use crate::blank::end_of_head;
use crate::head::{Head, HeadFault};
use crate::keys::{accept_value, key_text};
use crate::lines::{any_has_token, has_line, sole_is};
use crate::server::MOST;
use crate::texts::{host_text, request_text, subprotocol};
use httparse::Status;
use httparse::spans::{EMPTY_HEADER_SPAN, HeaderSpan, ResponseSpans, parse_response};
use sp_base::{Addr, Bytes, Host, NoMemory, Role};
use std::alloc::Global;

/// What a dialing socket of this role writes first (RFC 6455 sections 1.3 and 4.1): it asks for the subprotocol of its
/// peer. The address has one host, whose four numbers and port are in the Host line; the 16 bytes of the key are chosen
/// by the caller. Fails only when out of memory.
pub fn client_head(alloc: Global, key: &[u8], addr: &Addr, role: Role) -> Result<Bytes, NoMemory>
    requires key { length key.now ≡ 16 }
    requires addr { IsDialed addr.now }
    ensures { IfOk result (λ text. (host path : List ℕ) → Dials addr.now host path → text ≡ request_text (role_peer role) host path key.now) }
{
    match addr {
        Addr::Ws {
            host: Host::V4(a, b, c, d),
            port,
            path,
        } => {
            let host = host_text(alloc, *a, *b, *c, *d, *port)?;
            let text = request_text(alloc, role.peer(), host.as_slice(), path.as_slice(), key)?;
            Ok(text)
        }
        _ => unreachable!(),
    }
}

// The first fault of a head that was read.
fn fault_of(
    head: &[u8],
    found: &ResponseSpans,
    spans: &[HeaderSpan],
    key: &[u8],
    role: Role,
) -> Option<HeadFault>
    requires within { IsResponseWithin head.now spans.now found.now }
    requires key { length key.now ≡ 16 }
    ensures { result ≡ response_fault_at role key.now head.now found.now spans.now }
{
    let lines = &spans[..found.headers];
    if found.version != 1 {
        return Some(HeadFault::Version);
    }
    if found.code != 101 {
        return Some(HeadFault::Status);
    }
    if !any_has_token(false, head, lines, b"Upgrade", b"websocket") {
        return Some(HeadFault::Upgrade);
    }
    if !any_has_token(false, head, lines, b"Connection", b"upgrade") {
        return Some(HeadFault::Connection);
    }
    let accept = accept_value(&key_text(key));
    if !sole_is(head, lines, b"Sec-WebSocket-Accept", &accept) {
        return Some(HeadFault::Accept);
    }
    if has_line(head, lines, b"Sec-WebSocket-Extensions") {
        return Some(HeadFault::Extension);
    }
    let asked = subprotocol(role.peer()).as_bytes();
    if !sole_is(head, lines, b"Sec-WebSocket-Protocol", asked) {
        return Some(HeadFault::Protocol);
    }
    None
}

// The result for a head.
fn read_response(alloc: Global, head: &[u8], key: &[u8], role: Role) -> Head
    requires long { length head.now ≤ most }
    requires key { length key.now ≡ 16 }
    ensures { OfHead (GoodResponse role key.now) (BadResponse role key.now) result head.now }
{
    let mut spans = [EMPTY_HEADER_SPAN; 64];
    let found = match parse_response(head, &mut spans) {
        Ok(Status::Complete(found)) if found.len == head.len() => found,
        _ => return Head::Bad(HeadFault::NotHttp),
    };
    if let Some(fault) = fault_of(head, &found, &spans, key, role) {
        return Head::Bad(fault);
    }
    match Bytes::from_slice(alloc, b"") {
        Ok(answer) => Head::Good {
            used: head.len() as u32,
            answer,
        },
        Err(_) => Head::NoMemory,
    }
}

/// The result for the bytes that came to a dialing socket of this role, which wrote these 16 bytes of key (RFC 6455
/// section 4.1): like `server_head`, with an empty answer. There must be exactly one line with the accept value and one
/// with the subprotocol, and none with an extension, since none was asked for.
pub fn client_answer(alloc: Global, came: &[u8], key: &[u8], role: Role) -> Head
    requires { length key.now ≡ 16 }
    ensures { ClientAnswers result came.now key.now role }
{
    let seen = &came[..came.len().min(MOST)];
    match end_of_head(seen) {
        Some(used) => read_response(alloc, &seen[..used], key, role),
        None if came.len() < MOST => Head::More,
        None => Head::Bad(HeadFault::TooLong),
    }
}
