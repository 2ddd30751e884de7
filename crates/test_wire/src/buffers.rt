//! The buffer of a wire after a large message.
ghost use Rattle.std.specs.Prelude.{◌≡◌, true};
ghost use Rattle.test_wire.specs.Untolds.{untold_view};

use crate::checks::{holds, made, same};
use sp_base::{Bytes, Framing, Link, LinkRead, LinkWrite};
use sp_fakes::{LinkStep, MemLink};
use sp_msg::{Wire, WireIn};
use sp_tcp::TcpWire;
use std::alloc::Global;
use std::process::Abort;
use std::sync::Wait;

/// The body of a large message.
const LARGE: usize = 1_048_576;

/// A link in memory, whose bytes proofs don't see; it notes the room of its last read in bytes.
#[derive(Drop)]
struct NotingLink {
    link: MemLink,
    room: usize,
}

impl Link for NotingLink {
    ghost seen = { λ a. untold_view a.link };

    fn place(&self) -> u32 {
        self.link.place()
    }

    fn read(&mut self, buf: &mut [u8]) -> LinkRead {
        self.room = buf.len();
        self.link.read(buf)
    }

    fn write(&mut self, buf: &[u8]) -> LinkWrite {
        self.link.write(buf)
    }

    fn shut(&mut self) {
        self.link.shut();
    }
}

fn is_send<T: Send>() {}

// A wire may go to another thread wherever its link may.
fn is_send_over<L: Link + Send>() {
    is_send::<TcpWire<L>>();
}

// The frame of a large message.
fn large(rt: &impl Abort, alloc: Global) -> Bytes {
    let mut frame = made(rt, Bytes::from_slice(alloc, &(LARGE as u64).to_be_bytes()));
    let piece = [7u8; 1_024];
    for _ in 0..LARGE / 1_024 {
        made(rt, frame.append(&piece));
    }
    frame
}

// A wire over a link that brings a large message, and then nothing.
fn wire(rt: &impl Abort, alloc: Global) -> TcpWire<NotingLink>
    ensures { result.wire.is_open ≡ true }
{
    let mut script = Vec::new(alloc);
    made(rt, script.push(LinkStep::Bytes(large(rt, alloc))));
    let link = NotingLink {
        link: MemLink::new(alloc, script, 1, Vec::new(alloc)),
        room: 0,
    };
    match TcpWire::new(alloc, link, &[], LARGE as u32, Framing::Tcp) {
        Ok(wire) => wire,
        Err(_) => panic!(rt; "no memory for a wire"),
    }
}

// The number of bytes of the messages that `times` pulls give.
fn pulled<W: Wire, R: Wait>(rt: &R, wire: &mut W, times: u32) -> usize
    requires { (W.shown wire.old).is_open ≡ true }
{
    let mut came: usize = 0;
    'turns: for _ in 0..times {
        match wire.pull(rt) {
            WireIn::Message(m) => came = came.saturating_add(m.body().len()),
            WireIn::NotYet => {}
            WireIn::Ended
            | WireIn::Malformed
            | WireIn::Failed
            | WireIn::Refused
            | WireIn::NoMemory => return 0,
        }
    }
    came
}

// The room of the last read of `times` pulls; `None` where the message didn't come whole.
fn room_after<R: Wait + Abort>(alloc: Global, rt: &R, times: u32) -> Option<usize> {
    let mut wire = wire(rt, alloc);
    let came = pulled(rt, &mut wire, times);
    let NotingLink { link: _, room } = wire.into_link();
    (came == LARGE).then_some(room)
}

// The first pull gives the message, and the second finds nothing more and drops the buffer.
#[test]
fn a_wire_reads_into_little_room_after_a_large_message(rt: HostRuntime) {
    let before = room_after(rt.alloc(), &rt, 2);
    let after = room_after(rt.alloc(), &rt, 3);
    holds(&rt, matches!(before, Some(room) if room >= LARGE));
    same(&rt, after, Some(1_024));
}
