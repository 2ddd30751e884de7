//! What was put and is not wholly written.
ghost use Rattle.std.specs.Prelude.{◌≡◌, ◌≤◌, ◌<◌, ◌+◌, ◌-◌, ◌^◌, ◌++◌, ◌∷◌, ℕ, List, [], true, take, drop, length, map, IfOk};
ghost use Rattle.std.specs.VecDeque.{deque_capacity};
ghost use Rattle.sp_base.specs.SpTcp.{frame};
ghost use Rattle.sp_base.specs.SpIpc.{marked, marked_all};
ghost use Rattle.sp_tcp.specs.Marked.{head_of, IsMark};
ghost use Rattle.sp_msg.specs.Views.{wire_text};
ghost use Rattle.sp_tcp.specs.Stages.{added, gathered};
ghost use Rattle.sp_msg.specs.Wires.{RoomAfter};
ghost use Rattle.sp_tcp.specs.Outlets.{SentWithin, IsLongRest, Passed, WrotePrefix, WrotePiece, FlushedFrom, RoomFrom};

use crate::stage::WriteStage;
use sp_base::{Link, LinkWrite, NoMemory};
use sp_msg::{Message, Room, WireFlush};
use std::alloc::Global;
use std::collections::VecDeque;
use std::marker::Model;

/// The maximum number of messages that wait.
const MOST_WAITING: usize = 16;

/// The maximum number of bytes that are gathered for one write. A longer rest of a body is written from where it is.
const STAGE_ROOM: usize = 16_384;

/// The messages that wait, and how many bytes of the first one's frame are written. A write gathers the frames that
/// wait as far as the stage holds them; what the link doesn't take is gathered again for the next write.
#[derive(Debug, Drop)]
pub struct Outlet {
    /// The oldest first; room for `MOST_WAITING` was taken when it was made.
    waiting: VecDeque<Message>,
    /// How many bytes of the first frame are written.
    sent: usize,
    /// Where small frames are gathered.
    stage: WriteStage,
    /// The number of bytes that the link took in all, saturating.
    taken: u64,
}

impl Model for Outlet {
    ghost use Rattle.std.specs.Prelude.{◌≤◌, ◌<◌, map};
    ghost use Rattle.std.specs.VecDeque.{deque_capacity};
    ghost use Rattle.sp_msg.specs.Views.{wire_text};
    ghost use Rattle.sp_tcp.specs.Views.{OutletView};

    ghost Value = { OutletView };

    ghost view = { λ o. record { waiting = map wire_text o.waiting.items; sent = o.sent } };

    ghost invariant = { λ o. (16 ≤ deque_capacity o.waiting) × (0 < o.stage.most) × (o.stage.most ≤ 65536) };
}

// Adds the next bytes of a frame, past the first `skip`. Returns how many bytes are still to be skipped after it.
fn add_frame(stage: &mut WriteStage, m: &Message, skip: usize) -> usize
    ensures bytes { stage.new ≡ added stage.old skip (frame (wire_text m.now)) }
    ensures skip { result ≡ skip - length (frame (wire_text m.now)) }
{
    let head = (m.size() as u64).to_be_bytes();
    let behind_head = stage.add(skip, &head);
    let behind_header = stage.add(behind_head, m.header());
    stage.add(behind_header, m.body())
}

// Adds the next bytes of a frame with the bytes of `mark` before its size, past the first `skip`. Returns how many
// bytes are still to be skipped after it.
fn add_marked(stage: &mut WriteStage, mark: &[u8], m: &Message, skip: usize) -> usize
    ensures bytes { stage.new ≡ added stage.old skip (marked mark.now (wire_text m.now)) }
    ensures skip { result ≡ skip - length (marked mark.now (wire_text m.now)) }
{
    let behind_mark = stage.add(skip, mark);
    add_frame(stage, m, behind_mark)
}

// Gathers the next bytes of the frames, past the first `skip`.
fn gather(stage: &mut WriteStage, mark: &[u8], waiting: &VecDeque<Message>, sent: usize)
    ensures { stage.new ≡ gathered stage.old sent (marked_all mark.now (map wire_text waiting.now.items)) }
{
    stage.clear();
    let mut skip = sent;
    'gathers: for i in 0..waiting.len() {
        skip = add_marked(stage, mark, &waiting[i], skip);
    }
}

// The rest of the body of `m`, where all before it is written and it is longer than `most`; else nothing.
fn long_rest<'a>(mark: &[u8], m: &'a Message, sent: usize, most: usize) -> &'a [u8]
    requires few { IsMark mark.now }
    requires within { sent < head_of mark.now + length (wire_text m.now) }
    ensures { IsLongRest mark.now m.now sent result.now }
{
    let before = mark.len() + 8 + m.header().len();
    if sent < before {
        return &[];
    }
    let rest = &m.body()[sent - before..];
    if rest.len() <= most {
        return &[];
    }
    rest
}

// Removes the frames that are wholly written, where `written` bytes are. Returns how many bytes of the next frame are
// written.
fn pass_frames(mark: &[u8], waiting: &mut VecDeque<Message>, written: usize) -> usize
    requires few { IsMark mark.now }
    requires fits { written ≤ length (marked_all mark.now (map wire_text waiting.old.items)) }
    ensures passed { Passed mark.now written (map wire_text waiting.old.items) (map wire_text waiting.new.items) result }
    ensures within { SentWithin mark.now result (map wire_text waiting.new.items) }
    ensures room { deque_capacity waiting.new ≡ deque_capacity waiting.old }
{
    let mut left = written;
    'frames: while let Some(front) = waiting.front() {
        let size = mark.len() + 8 + front.size();
        if left < size {
            return left;
        }
        left -= size;
        let _ = waiting.pop_front();
    }
    left
}

impl Outlet {
    /// Empty, with all memory that it needs.
    pub fn new(alloc: Global) -> Result<Outlet, NoMemory>
        ensures { IfOk result (λ outlet. outlet ≡ record { waiting = []; sent = 0 }) }
    {
        let waiting = VecDeque::with_capacity(alloc, MOST_WAITING)?;
        let stage = WriteStage::new(alloc, STAGE_ROOM)?;
        Ok(Outlet {
            waiting,
            sent: 0,
            stage,
            taken: 0,
        })
    }

    /// How many messages are not wholly written.
    pub fn len(&self) -> usize
        ensures { result ≡ length self.now.waiting }
    {
        self.waiting.len()
    }

    /// The number of bytes that the link took in all, saturating.
    pub fn taken(&self) -> u64 {
        self.taken
    }

    /// Takes one more message. Takes no memory.
    pub fn put(&mut self, m: Message)
        requires { length self.old.waiting < 16 }
        ensures text { self.new ≡ record self.old { waiting = self.old.waiting ++ wire_text m ∷ [] } }
        ensures fit { length (wire_text m) < 2 ^ 63 }
    {
        let _size = m.size();
        self.waiting.push_back_reserved(m);
    }

    // One write, of a prefix of what is not written.
    fn write_prefix<L: Link>(&mut self, mark: &[u8], link: &mut L) -> LinkWrite
        requires is_open { (L.seen link.old).is_open ≡ true }
        requires waiting { 0 < length self.old.waiting }
        requires few { IsMark mark.now }
        requires within { SentWithin mark.now self.old.sent self.old.waiting }
        ensures same { self.new ≡ self.old }
        ensures wrote { WrotePrefix mark.now result self.old (L.seen link.old) (L.seen link.new) }
    {
        let Some(front) = self.waiting.front() else {
            unreachable!()
        };
        let _size = front.size();
        let rest = long_rest(mark, front, self.sent, self.stage.most());
        if !rest.is_empty() {
            return link.write(rest);
        }
        gather(&mut self.stage, mark, &self.waiting, self.sent);
        link.write(self.stage.as_slice())
    }

    // One write, after which the frames that are wholly written are removed.
    fn write_once<L: Link>(&mut self, mark: &[u8], link: &mut L) -> LinkWrite
        requires is_open { (L.seen link.old).is_open ≡ true }
        requires waiting { 0 < length self.old.waiting }
        requires few { IsMark mark.now }
        requires within { SentWithin mark.now self.old.sent self.old.waiting }
        ensures { WrotePiece mark.now result self.old self.new (L.seen link.old) (L.seen link.new) }
    {
        match self.write_prefix(mark, link) {
            LinkWrite::Took(n) => {
                self.taken = self.taken.saturating_add(n as u64);
                let written = self.sent + n;
                self.sent = pass_frames(mark, &mut self.waiting, written);
                LinkWrite::Took(n)
            }
            LinkWrite::NotYet => LinkWrite::NotYet,
            LinkWrite::Failed => LinkWrite::Failed,
        }
    }
}

/// Writes what the link takes, with the bytes of `mark` before each size.
pub fn write_from<L: Link>(outlet: &mut Outlet, mark: &[u8], link: &mut L) -> WireFlush
    requires is_open { (L.seen link.old).is_open ≡ true }
    requires few { IsMark mark.now }
    requires within { SentWithin mark.now outlet.old.sent outlet.old.waiting }
    ensures { FlushedFrom mark.now result outlet.old outlet.new (L.seen link.old) (L.seen link.new) }
{
    'writes: while outlet.len() > 0 {
        match outlet.write_once(mark, link) {
            LinkWrite::Took(_) => {}
            LinkWrite::NotYet => return WireFlush::NotYet,
            LinkWrite::Failed => return WireFlush::Failed,
        }
    }
    WireFlush::Empty
}

// Returns whether there is room for one more message, where the writing ended with `flushed` and `waiting` messages are
// not wholly written.
fn room_after(flushed: WireFlush, waiting: usize) -> Room
    ensures { RoomAfter flushed waiting result }
{
    match flushed {
        WireFlush::Empty => Room::Yes,
        WireFlush::NotYet => {
            if waiting < MOST_WAITING {
                Room::Yes
            } else {
                Room::Full
            }
        }
        WireFlush::Failed => Room::Failed,
        WireFlush::Refused => Room::Refused,
        WireFlush::NoMemory => Room::NoMemory,
    }
}

/// Returns whether there is room for one more message. Where the outlet is full, what the link takes is written first.
pub fn room_from<L: Link>(outlet: &mut Outlet, mark: &[u8], link: &mut L) -> Room
    requires is_open { (L.seen link.old).is_open ≡ true }
    requires few { IsMark mark.now }
    requires within { SentWithin mark.now outlet.old.sent outlet.old.waiting }
    ensures { RoomFrom mark.now result outlet.old outlet.new (L.seen link.old) (L.seen link.new) }
{
    if outlet.len() < MOST_WAITING {
        return Room::Yes;
    }
    let flushed = write_from(outlet, mark, link);
    room_after(flushed, outlet.len())
}
