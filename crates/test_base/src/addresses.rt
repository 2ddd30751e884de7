//! Addresses of each transport, right and wrong, with the place of each fault.
use crate::plays::{PlayedLine, Playing, plays};
use sp_base::Addr;
use std::alloc::Global;
use std::process::Abort;
use std::sync::Wait;

// Each line is a text and, after ` | `, what it is read as.
#[derive(Drop)]
struct Readings;

impl Playing for Readings {
    fn is_right<R: Wait>(&mut self, _rt: &R, alloc: Global, line: &mut PlayedLine<'_>) -> bool {
        match line.rest().split_once(" | ") {
            Some((text, reading)) => PlayedLine::new(reading).says(alloc, Addr::read(alloc, text)),
            None => false,
        }
    }
}

fn check_rows<R: Wait + Abort>(rt: &R, alloc: Global, rows: &str) {
    plays(rt, alloc, &mut Readings, rows);
}

const READ: &str = "\
tcp://127.0.0.1:5555 | Ok(Tcp { host: V4(127, 0, 0, 1), port: 5555 })
tcp://*:0 | Ok(Tcp { host: Any, port: 0 })
tcp://localhost:80 | Ok(Tcp { host: V4(127, 0, 0, 1), port: 80 })
tcp://255.255.255.255:65535 | Ok(Tcp { host: V4(255, 255, 255, 255), port: 65535 })";

const REFUSED: &str = "\
inproc:// | Err(Fault { at: 9 })
inproc:/x | Err(Fault { at: 8 })
inproc://a b | Err(Fault { at: 10 })
inproc://\u{7f} | Err(Fault { at: 9 })
inproc | Err(Fault { at: 6 })
inproc:x | Err(Fault { at: 7 })
tcp://256.0.0.1:1 | Err(Fault { at: 8 })
tcp://127.0.0.1 | Err(Fault { at: 15 })
tcp://1.2.3.4:65536 | Err(Fault { at: 18 })
 | Err(Fault { at: 0 })
tcp://1.2.3.4: | Err(Fault { at: 14 })
tcp://00.0.0.0:1 | Err(Fault { at: 7 })
TCP://1.2.3.4:1 | Err(Fault { at: 0 })
tcp://1.2.3:1 | Err(Fault { at: 11 })
tcp://local:1 | Err(Fault { at: 11 })
tcp://1.2.3.4:1  | Err(Fault { at: 15 })
tcp:/1.2.3.4:1 | Err(Fault { at: 5 })
ws://1.2.3.4:80/a b | Err(Fault { at: 17 })
ws://1.2.3.4:80? | Err(Fault { at: 15 })
ws://1.2.3.4:80/a? | Err(Fault { at: 17 })
ws:// | Err(Fault { at: 5 })
wss://a | Err(Fault { at: 2 })
WS://1.2.3.4:80 | Err(Fault { at: 0 })
ws://1.2.3.4 | Err(Fault { at: 12 })
ws://1.2.3.4:65536/ | Err(Fault { at: 17 })
ws://1.2.3.4:080 | Err(Fault { at: 14 })";

#[test]
fn addresses_are_read(rt: HostRuntime) {
    check_rows(&rt, rt.alloc(), READ);
    check_rows(&rt, rt.alloc(), REFUSED);
}

const NAMES: &str = "\
inproc://x | Ok(Inproc { name: Bytes { items: [120] } })
inproc://!~ | Ok(Inproc { name: Bytes { items: [33, 126] } })
inproc://\
    0123456789012345678901234567890123456789012345678901234567890123456789\
    012345678901234567890123456789012345678901234567890123456789 | Err(Fault { at: 137 })";

#[test]
fn names_within_the_process_are_read(rt: HostRuntime) {
    check_rows(&rt, rt.alloc(), NAMES);
}

// The last two paths have 100 letters and 101.
const OF_IPC: &str = "\
ipc:///tmp/a | Ok(Ipc { path: Bytes { items: [47, 116, 109, 112, 47, 97] } })
ipc://a | Ok(Ipc { path: Bytes { items: [97] } })
ipc:// | Err(Fault { at: 6 })
ipc:/a | Err(Fault { at: 5 })
ipc: | Err(Fault { at: 4 })
ip | Err(Fault { at: 2 })
i | Err(Fault { at: 1 })
in | Err(Fault { at: 2 })
ix | Err(Fault { at: 1 })
ipc://a b | Err(Fault { at: 7 })
IPC://a | Err(Fault { at: 0 })
ipc://\
    aaaaaaaaaaaaaaaaaaaaaaaaaaaaaaaaaaaaaaaaaaaaaaaaaa\
    aaaaaaaaaaaaaaaaaaaaaaaaaaaaaaaaaaaaaaaaaaaaaaaaaa | \
    Ok(Ipc { path: Bytes { items: [\
    97, 97, 97, 97, 97, 97, 97, 97, 97, 97, 97, 97, 97, 97, 97, 97, 97, 97, 97, 97, 97, 97, 97, 97, 97, 97, \
    97, 97, 97, 97, 97, 97, 97, 97, 97, 97, 97, 97, 97, 97, 97, 97, 97, 97, 97, 97, 97, 97, 97, 97, 97, 97, \
    97, 97, 97, 97, 97, 97, 97, 97, 97, 97, 97, 97, 97, 97, 97, 97, 97, 97, 97, 97, 97, 97, 97, 97, 97, 97, \
    97, 97, 97, 97, 97, 97, 97, 97, 97, 97, 97, 97, 97, 97, 97, 97, 97, 97, 97, 97, 97, 97] } })
ipc://\
    aaaaaaaaaaaaaaaaaaaaaaaaaaaaaaaaaaaaaaaaaaaaaaaaaa\
    aaaaaaaaaaaaaaaaaaaaaaaaaaaaaaaaaaaaaaaaaaaaaaaaaaa | Err(Fault { at: 106 })";

#[test]
fn addresses_of_ipc_are_read(rt: HostRuntime) {
    check_rows(&rt, rt.alloc(), OF_IPC);
}

const OF_WEBSOCKET: &str = "\
ws://localhost:80/a | Ok(Ws { host: V4(127, 0, 0, 1), port: 80, path: Bytes { items: [47, 97] } })
ws://1.2.3.4:80 | Ok(Ws { host: V4(1, 2, 3, 4), port: 80, path: Bytes { items: [47] } })
ws://1.2.3.4:80/ | Ok(Ws { host: V4(1, 2, 3, 4), port: 80, path: Bytes { items: [47] } })
ws://*:0/ | Ok(Ws { host: Any, port: 0, path: Bytes { items: [47] } })
ws://1.2.3.4:0//aZ09-._~/ | Ok(Ws { host: V4(1, 2, 3, 4), port: 0, path: Bytes { items: [\
    47, 47, 97, 90, 48, 57, 45, 46, 95, 126, 47] } })";

#[test]
fn addresses_of_websocket_are_read(rt: HostRuntime) {
    check_rows(&rt, rt.alloc(), OF_WEBSOCKET);
}

// 127 letters after the slash, and 128.
const LONG_PATHS: &str = "\
ws://1.2.3.4:80/\
    aaaaaaaaaaaaaaaaaaaaaaaaaaaaaaaaaaaaaaaaaaaaaaaaaaaaaaaaaaaaaaaa\
    aaaaaaaaaaaaaaaaaaaaaaaaaaaaaaaaaaaaaaaaaaaaaaaaaaaaaaaaaaaaaaa | \
    Ok(Ws { host: V4(1, 2, 3, 4), port: 80, path: Bytes { items: [\
    47, 97, 97, 97, 97, 97, 97, 97, 97, 97, 97, 97, 97, 97, 97, 97, 97, 97, 97, 97, 97, 97, 97, 97, 97, 97, \
    97, 97, 97, 97, 97, 97, 97, 97, 97, 97, 97, 97, 97, 97, 97, 97, 97, 97, 97, 97, 97, 97, 97, 97, 97, 97, \
    97, 97, 97, 97, 97, 97, 97, 97, 97, 97, 97, 97, 97, 97, 97, 97, 97, 97, 97, 97, 97, 97, 97, 97, 97, 97, \
    97, 97, 97, 97, 97, 97, 97, 97, 97, 97, 97, 97, 97, 97, 97, 97, 97, 97, 97, 97, 97, 97, 97, 97, 97, 97, \
    97, 97, 97, 97, 97, 97, 97, 97, 97, 97, 97, 97, 97, 97, 97, 97, 97, 97, 97, 97, 97, 97, 97, 97] } })
ws://1.2.3.4:80/\
    aaaaaaaaaaaaaaaaaaaaaaaaaaaaaaaaaaaaaaaaaaaaaaaaaaaaaaaaaaaaaaaa\
    aaaaaaaaaaaaaaaaaaaaaaaaaaaaaaaaaaaaaaaaaaaaaaaaaaaaaaaaaaaaaaaa | Err(Fault { at: 143 })";

#[test]
fn a_path_has_at_most_128_bytes(rt: HostRuntime) {
    check_rows(&rt, rt.alloc(), LONG_PATHS);
}
