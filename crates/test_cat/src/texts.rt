//! Texts that have a name in the lines of tests: what a drill prints, greetings, and heads of WebSocket's opening
//! handshake.

// The texts, each after its name and an equals sign, with a bar between two. Heads of clients have a key: the sample
// key of the standard, or the first or the second key of a run.
const TEXTS: &str = "\
    drill_of_two=given 2\nsum 3318706044697439873\nopen 0\n|\
    greets_pair=\0SP\0\0\x10\0\0|\
    greets_pair1=\0SP\0\0\x11\0\0|\
    greets_req=\0SP\0\0\x30\0\0|\
    greets_rep=\0SP\0\0\x31\0\0|\
    greets_push=\0SP\0\0\x50\0\0|\
    greets_pull=\0SP\0\0\x51\0\0|\
    greets_pub=\0SP\0\0\x20\0\0|\
    greets_sub=\0SP\0\0\x21\0\0|\
    greets_surveyor=\0SP\0\0\x62\0\0|\
    greets_respondent=\0SP\0\0\x63\0\0|\
    greets_bus=\0SP\0\0\x70\0\0|\
    asks_rep=GET / HTTP/1.1\r\nHost: 127.0.0.1:5555\r\nUpgrade: websocket\r\nConnection: Upgrade\r\n\
    Sec-WebSocket-Key: dGhlIHNhbXBsZSBub25jZQ==\r\nSec-WebSocket-Version: 13\r\n\
    Sec-WebSocket-Protocol: rep.sp.nanomsg.org\r\n\r\n|\
    asks_rep_at_a=GET /a HTTP/1.1\r\nHost: 127.0.0.1:5555\r\nUpgrade: websocket\r\nConnection: Upgrade\r\n\
    Sec-WebSocket-Key: dGhlIHNhbXBsZSBub25jZQ==\r\nSec-WebSocket-Version: 13\r\n\
    Sec-WebSocket-Protocol: rep.sp.nanomsg.org\r\n\r\n|\
    asks_rep_at_b=GET /b HTTP/1.1\r\nHost: 127.0.0.1:5555\r\nUpgrade: websocket\r\nConnection: Upgrade\r\n\
    Sec-WebSocket-Key: dGhlIHNhbXBsZSBub25jZQ==\r\nSec-WebSocket-Version: 13\r\n\
    Sec-WebSocket-Protocol: rep.sp.nanomsg.org\r\n\r\n|\
    asks_half=GET / HTTP/1.1\r\n|\
    asks_pull=GET / HTTP/1.1\r\nHost: 127.0.0.1:5555\r\nUpgrade: websocket\r\nConnection: Upgrade\r\n\
    Sec-WebSocket-Key: dGhlIHNhbXBsZSBub25jZQ==\r\nSec-WebSocket-Version: 13\r\n\
    Sec-WebSocket-Protocol: pull.sp.nanomsg.org\r\n\r\n|\
    rep_answers=HTTP/1.1 101 Switching Protocols\r\nUpgrade: websocket\r\nConnection: Upgrade\r\n\
    Sec-WebSocket-Accept: s3pPLMBiTxaQ9kYGzzhZRbK+xOo=\r\nSec-WebSocket-Protocol: rep.sp.nanomsg.org\r\n\r\n|\
    req_asks=GET / HTTP/1.1\r\nHost: 127.0.0.1:5555\r\nUpgrade: websocket\r\nConnection: Upgrade\r\n\
    Sec-WebSocket-Key: FAV7fvdngU8aCO4RhLptMg==\r\nSec-WebSocket-Version: 13\r\n\
    Sec-WebSocket-Protocol: rep.sp.nanomsg.org\r\n\r\n|\
    grants_req=HTTP/1.1 101 Switching Protocols\r\nUpgrade: websocket\r\nConnection: Upgrade\r\n\
    Sec-WebSocket-Accept: pcNwVK8H2TInp2i0TlaErEE0lwU=\r\nSec-WebSocket-Protocol: rep.sp.nanomsg.org\r\n\r\n|\
    grants_pull=HTTP/1.1 101 Switching Protocols\r\nUpgrade: websocket\r\nConnection: Upgrade\r\n\
    Sec-WebSocket-Accept: pcNwVK8H2TInp2i0TlaErEE0lwU=\r\nSec-WebSocket-Protocol: push.sp.nanomsg.org\r\n\r\n|\
    first_key=GET / HTTP/1.1\r\nHost: 127.0.0.1:5555\r\nUpgrade: websocket\r\nConnection: Upgrade\r\n\
    Sec-WebSocket-Key: FAV7fvdngU8aCO4RhLptMg==\r\nSec-WebSocket-Version: 13\r\n\
    Sec-WebSocket-Protocol: push.sp.nanomsg.org\r\n\r\n|\
    second_key=GET / HTTP/1.1\r\nHost: 127.0.0.1:5555\r\nUpgrade: websocket\r\nConnection: Upgrade\r\n\
    Sec-WebSocket-Key: bFdvrEP9AHyCaIazhkobGw==\r\nSec-WebSocket-Version: 13\r\n\
    Sec-WebSocket-Protocol: push.sp.nanomsg.org\r\n\r\n|\
    first_key_at_a=GET /a HTTP/1.1\r\nHost: 127.0.0.1:5555\r\nUpgrade: websocket\r\nConnection: Upgrade\r\n\
    Sec-WebSocket-Key: FAV7fvdngU8aCO4RhLptMg==\r\nSec-WebSocket-Version: 13\r\n\
    Sec-WebSocket-Protocol: push.sp.nanomsg.org\r\n\r\n|\
    first_key_at_b=GET /b HTTP/1.1\r\nHost: 127.0.0.1:5556\r\nUpgrade: websocket\r\nConnection: Upgrade\r\n\
    Sec-WebSocket-Key: FAV7fvdngU8aCO4RhLptMg==\r\nSec-WebSocket-Version: 13\r\n\
    Sec-WebSocket-Protocol: push.sp.nanomsg.org\r\n\r\n|\
    second_key_at_b=GET /b HTTP/1.1\r\nHost: 127.0.0.1:5556\r\nUpgrade: websocket\r\nConnection: Upgrade\r\n\
    Sec-WebSocket-Key: bFdvrEP9AHyCaIazhkobGw==\r\nSec-WebSocket-Version: 13\r\n\
    Sec-WebSocket-Protocol: push.sp.nanomsg.org\r\n\r\n";

/// The text with this name.
pub fn named(name: &str) -> Option<&'static str> {
    for entry in TEXTS.split('|') {
        if let Some((found, text)) = entry.split_once('=') {
            if found == name {
                return Some(text);
            }
        }
    }
    None
}
