//! Wrong heads, each named by the first rule that it breaks (RFC 6455 section 4.2.1): more than 220 of them, and the
//! sample with each of its bytes but the last four replaced by 0.

use crate::checks::{holds, made, same, same_at};
use crate::heads::{REQUEST, fault, varied, with_lines, without_returns};
use sp_upgrade::HeadFault;
use std::alloc::Global;
use std::process::Abort;

// Aborts unless the head has this fault.
fn has_fault(rt: &impl Abort, alloc: Global, came: &[u8], wanted: HeadFault) {
    same(rt, fault(alloc, came), Some(wanted));
}

// Checks that the sample with each of these texts in place of the old one has this fault; bars separate the texts.
fn check_each(rt: &impl Abort, alloc: Global, old: &[u8], texts: &[u8], wanted: HeadFault) {
    let mut number: u32 = 0;
    for new in texts.split(|byte| *byte == b'|') {
        number = number.saturating_add(1);
        let came = varied(rt, alloc, REQUEST, old, new);
        same_at(rt, number, fault(alloc, &came), Some(wanted));
    }
}

#[test]
fn other_methods_are_refused(rt: HostRuntime) {
    let texts = b"POST|PUT|HEAD|DELETE|OPTIONS|TRACE|CONNECT|PATCH|get|Get|\
        gET|GETS|GE|G|PRI|LINK|MKCOL|PURGE|GOT|XGET";
    check_each(&rt, rt.alloc(), b"GET", texts, HeadFault::Method);
}

#[test]
fn other_targets_are_refused(rt: HostRuntime) {
    let texts = b"\
        GET /b |\
        GET /?x |\
        GET /? |\
        GET // |\
        GET /. |\
        GET /.. |\
        GET * |\
        GET http://127.0.0.1:5555/ |\
        GET /%2f |\
        GET /%20 |\
        GET /a/ |\
        GET b |\
        GET \\ ";
    check_each(&rt, rt.alloc(), b"GET / ", texts, HeadFault::Path);
}

#[test]
fn other_versions_of_http_are_refused(rt: HostRuntime) {
    let old = b"HTTP/1.0";
    check_each(&rt, rt.alloc(), b"HTTP/1.1", old, HeadFault::Version);
    let texts = b"\
        HTTP/1.2|\
        HTTP/2.0|\
        HTTP/0.9|\
        HTTP/11|\
        http/1.1|\
        HTTP/1.1x|\
        HTTPS/1.1|\
        HTTP/1|\
        HTTP/1.|\
        |\
        HTTP /1.1|\
        RTSP/1.1";
    check_each(&rt, rt.alloc(), b"HTTP/1.1", texts, HeadFault::NotHttp);
}

#[test]
fn what_is_no_head_is_refused(rt: HostRuntime) {
    let texts = b"\
        Host\r\n|\
        Host : x\r\n|\
        Ho st: x\r\n|\
        : x\r\n|\
        Host: \0\r\n|\
        Host: \x01\r\n|\
        Host: a\x7fb\r\n|\
        H\x80st: x\r\n|\
        Host: x\n\n|\
        (Host): x\r\n|\
        Host: x\r\r\n|\
        Host; x\r\n|\
        Ho@st: x\r\n|\
        Host: x\r\n y\r\n|\
        Host: x\r\n\ty\r\n|\
        Host: x\n\r\n|\
        \nHost: x\r\n";
    check_each(
        &rt,
        rt.alloc(),
        b"Host: 127.0.0.1:5555\r\n",
        texts,
        HeadFault::NotHttp,
    );
    has_fault(&rt, rt.alloc(), b"x\r\n\r\n", HeadFault::NotHttp);
    has_fault(&rt, rt.alloc(), b"\r\n\r\n", HeadFault::NotHttp);
    has_fault(&rt, rt.alloc(), b"\x16\x03\x01\r\n\r\n", HeadFault::NotHttp);
}

#[test]
fn folded_lines_are_refused(rt: HostRuntime) {
    let texts = b"Upgrade:\r\n websocket|Upgrade: h2c,\r\n\twebsocket";
    check_each(
        &rt,
        rt.alloc(),
        b"Upgrade: websocket",
        texts,
        HeadFault::NotHttp,
    );
    let texts = b"Connection:\r\n Upgrade|Connection: x,\n Upgrade";
    check_each(
        &rt,
        rt.alloc(),
        b"Connection: Upgrade",
        texts,
        HeadFault::NotHttp,
    );
    check_each(
        &rt,
        rt.alloc(),
        b"Key: dGhl",
        b"Key:\r\n dGhl|Key: dGhl\r\n ",
        HeadFault::NotHttp,
    );
    check_each(
        &rt,
        rt.alloc(),
        b"Version: 13",
        b"Version:\r\n 13",
        HeadFault::NotHttp,
    );
    check_each(
        &rt,
        rt.alloc(),
        b"Protocol: rep",
        b"Protocol:\r\n\trep",
        HeadFault::NotHttp,
    );
    check_each(
        &rt,
        rt.alloc(),
        b"nanomsg.org",
        b"nanomsg.org\r\n , x",
        HeadFault::NotHttp,
    );
}

#[test]
fn lines_that_end_in_lf_alone_end_no_head(rt: HostRuntime) {
    let mut came = without_returns(&rt, rt.alloc(), REQUEST);
    same(&rt, fault(rt.alloc(), &came), None);
    made(&rt, came.extend_from_slice(b"\r\n\r\n"));
    has_fault(&rt, rt.alloc(), &came, HeadFault::NotHttp);
}

#[test]
fn heads_of_too_many_lines_are_refused(rt: HostRuntime) {
    let counts: &[usize] = &[59, 60, 64, 100, 1_000];
    for more in counts {
        let came = with_lines(&rt, rt.alloc(), *more);
        has_fault(&rt, rt.alloc(), &came, HeadFault::NotHttp);
    }
}

// These bytes, followed by this line 8,192 times.
fn endless(rt: &impl Abort, alloc: Global, begun: &[u8], line: &[u8]) -> Vec<u8> {
    let mut came = made(rt, Vec::from_slice(alloc, begun));
    for _ in 0..8_192u32 {
        made(rt, came.extend_from_slice(line));
    }
    came
}

#[test]
fn heads_that_never_end_are_refused(rt: HostRuntime) {
    let lines = b"a|\0|\n|\r|\r\r\n|X: y\r\n|GET / HTTP/1.1\r\n|Host: 127.0.0.1:5555\r\n";
    for line in lines.split(|byte| *byte == b'|') {
        has_fault(
            &rt,
            rt.alloc(),
            &endless(&rt, rt.alloc(), b"", line),
            HeadFault::TooLong,
        );
        let came = endless(&rt, rt.alloc(), &REQUEST[..195], line);
        has_fault(&rt, rt.alloc(), &came, HeadFault::TooLong);
    }
}

#[test]
fn heads_without_a_host_are_refused(rt: HostRuntime) {
    let texts = b"|Hosts: x\r\n|X-Host: x\r\n|Hos: x\r\n";
    check_each(
        &rt,
        rt.alloc(),
        b"Host: 127.0.0.1:5555\r\n",
        texts,
        HeadFault::Host,
    );
}

#[test]
fn other_upgrades_are_refused(rt: HostRuntime) {
    let texts = b"\
        X: y|\
        Upgrade: h2c|\
        Upgrade: websockets|\
        Upgrade: web socket|\
        Upgrade: websocket/13|\
        Upgrade:|\
        Upgrade: websocket;q=1|\
        Upgrade: \"websocket\"|\
        Upgrade: h2c websocket|\
        X-Upgrade: websocket|\
        Upgrade: ,|\
        Upgrade: web,socket|\
        Upgrade: h2c, tls/1.0|\
        Upgrades: websocket|\
        Upgrade: xwebsocket";
    check_each(
        &rt,
        rt.alloc(),
        b"Upgrade: websocket",
        texts,
        HeadFault::Upgrade,
    );
}

#[test]
fn other_connections_are_refused(rt: HostRuntime) {
    let texts = b"\
        X: y|\
        Connection: keep-alive|\
        Connection: close|\
        Connection: Upgrades|\
        Connection: up grade|\
        Connection:|\
        Connection: ,|\
        Connection: keep-alive, close|\
        Connection: keep-alive Upgrade|\
        Connection: Upgrade;|\
        Connection: \"Upgrade\"|\
        Proxy-Connection: Upgrade|\
        Connections: Upgrade|\
        Connection: xUpgrade|\
        Connection: websocket";
    check_each(
        &rt,
        rt.alloc(),
        b"Connection: Upgrade",
        texts,
        HeadFault::Connection,
    );
}

#[test]
fn other_versions_of_websocket_are_refused(rt: HostRuntime) {
    let texts = b"\
        Sec-WebSocket-Version: 12|\
        Sec-WebSocket-Version: 8|\
        Sec-WebSocket-Version: 0|\
        Sec-WebSocket-Version: 14|\
        Sec-WebSocket-Version: 130|\
        Sec-WebSocket-Version: 013|\
        Sec-WebSocket-Version: +13|\
        Sec-WebSocket-Version: 13.0|\
        Sec-WebSocket-Version: 13, 8|\
        Sec-WebSocket-Version: 13,13|\
        Sec-WebSocket-Version:|\
        Sec-WebSocket-Version: 1 3|\
        Sec-WebSocket-Version: 13;|\
        Sec-WebSocket-Version: 0x0d|\
        X: 13|\
        Sec-WebSocket-Version: 13\r\nSec-WebSocket-Version: 13|\
        Sec-WebSocket-Version: 13\r\nsec-websocket-version: 8";
    check_each(
        &rt,
        rt.alloc(),
        b"Sec-WebSocket-Version: 13",
        texts,
        HeadFault::WsVersion,
    );
}

#[test]
fn other_keys_are_refused(rt: HostRuntime) {
    let texts = b"\
        AAAA|\
        |\
        =|\
        ==|\
        dGhlIHNhbXBsZSBub25jZQ|\
        dGhlIHNhbXBsZSBub25jZQ=|\
        dGhlIHNhbXBsZSBub25jZQ===|\
        dGhlIHNhbXBsZSBub25jZR==|\
        dGhlIHNhbXBsZSBub25jZf==|\
        dGhlIHNhbXBsZSBub25j|\
        dGhlIHNhbXBsZSBub25jZXQ=|\
        dGhlIHNhbXBsZSBub25jZXRl|\
        dGhlIHNhbXBsZSBub2 5jZQ==|\
        dGhlIHNhbXBsZSBub25j_Q==|\
        dGhlIHNhbXBsZSBub25j-Q==|\
        \"dGhlIHNhbXBsZSBub25jZQ==\"|\
        dGhlIHNhbXBsZSBub25jZQ==, dGhlIHNhbXBsZSBub25jZQ==|\
        7468652073616d706c65206e6f6e6365|\
        the sample nonce|\
        dGhlIHNhbXBsZSBub25jZQ==\r\nSec-WebSocket-Key: dGhlIHNhbXBsZSBub25jZQ==";
    check_each(
        &rt,
        rt.alloc(),
        b"dGhlIHNhbXBsZSBub25jZQ==",
        texts,
        HeadFault::Key,
    );
    let none = b"X-Key";
    check_each(&rt, rt.alloc(), b"Sec-WebSocket-Key", none, HeadFault::Key);
}

#[test]
fn keys_of_zeroes_that_are_not_16_bytes_are_refused(rt: HostRuntime) {
    for length in 0..32usize {
        let mut key = Vec::new(rt.alloc());
        made(&rt, key.resize(length, b'A'));
        let came = varied(&rt, rt.alloc(), REQUEST, b"dGhlIHNhbXBsZSBub25jZQ==", &key);
        has_fault(&rt, rt.alloc(), &came, HeadFault::Key);
    }
}

#[test]
fn other_subprotocols_are_refused(rt: HostRuntime) {
    let texts = b"\
        pair.sp.nanomsg.org|\
        pair1.sp.nanomsg.org|\
        pub.sp.nanomsg.org|\
        sub.sp.nanomsg.org|\
        req.sp.nanomsg.org|\
        push.sp.nanomsg.org|\
        pull.sp.nanomsg.org|\
        surveyor.sp.nanomsg.org|\
        respondent.sp.nanomsg.org|\
        bus.sp.nanomsg.org|\
        REP.sp.nanomsg.org|\
        rep.SP.nanomsg.org|\
        rep.sp.nanomsg.ORG|\
        rep|\
        |\
        ,|\
        sp.nanomsg.org|\
        rep.sp.nanomsg.com|\
        rep.sp.nanomsg.org.|\
        xrep.sp.nanomsg.org|\
        rep.sp.nanomsg.orgx|\
        rep.sp.nanomsg.org x|\
        rep .sp.nanomsg.org|\
        rep;.sp.nanomsg.org|\
        \"rep.sp.nanomsg.org\"|\
        rep.sp,nanomsg.org|\
        mqtt|\
        chat, superchat";
    check_each(
        &rt,
        rt.alloc(),
        b"rep.sp.nanomsg.org",
        texts,
        HeadFault::Protocol,
    );
    let none = b"X-Protocol";
    check_each(
        &rt,
        rt.alloc(),
        b"Sec-WebSocket-Protocol",
        none,
        HeadFault::Protocol,
    );
}

#[test]
fn a_byte_0_stands_in_no_head(rt: HostRuntime) {
    let mut came = made(&rt, Vec::from_slice(rt.alloc(), REQUEST));
    for at in 0..193usize {
        holds(&rt, at < came.len());
        holds(&rt, at < REQUEST.len());
        came[at] = 0;
        has_fault(&rt, rt.alloc(), &came, HeadFault::NotHttp);
        came[at] = REQUEST[at];
    }
}
