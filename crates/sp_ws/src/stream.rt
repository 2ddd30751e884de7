//! A `tungstenite` socket over memory, with what goes into it and what came out of it.
ghost use Rattle.std.specs.Prelude.{◌≡◌, ◌≤◌, ◌++◌, ℕ, List, [], length, drop, IsTrue, IfOk, true};
ghost use Rattle.std.specs.Prelude.{◌∷◌};
ghost use Rattle.sp_ws.specs.Streams.{remaining_in, handed_in, unread_in, unread_of, Fetched, Loaded, ReadTo, IsNamed, Noted, NextIs, SendIs, KeptUnread};
ghost use Rattle.sp_ws.specs.Views.{HasLimits};
ghost use Rattle.sp_ws.specs.Frames.{IsFrame, IsCopied, Fails};
ghost use Rattle.tungstenite.specs.Socket.{Reads};

use crate::cuts::Cuts;
use crate::frames::FrameIn;
use crate::log::{Log, NextBody};
use crate::memory::{Keys, Memory};
use crate::reads::{Given, ReadLog};
use crate::replies::Replies;
use crate::rooms::{KEPT_ROOM, give_back};
use crate::waiting::Waiting;
use sp_base::{Bytes, NoMemory, next_value};
use std::alloc::Global;
use std::io::ErrorKind;
use tungstenite::{Error, Message, Role, WebSocket, WebSocketConfig};
use websocket::error::ProtocolError;

/// How many bytes the socket asks for in one read of its stream.
const READ_BYTES: usize = 4_096;

/// The maximum number of bytes, handed over at once or in one frame, of a socket that is kept.
const USUAL_ROOM: u64 = 131_072;

/// After this many reads in a row that bring nothing, more of the room is freed.
const QUIET_READS: u32 = 64;

/// The socket; what was fed and not handed over to it; and what it wrote.
#[derive(Drop)]
pub(crate) struct Stream {
    /// Where memory is taken.
    pub alloc: Global,
    /// The side of the connection, and where a client's next masking keys start from.
    pub role: Role,
    pub seed: u64,
    /// The maximum length of a message or a frame, in bytes.
    pub max: u32,
    /// What reads.
    pub socket: WebSocket<Memory, Keys>,
    pub fed: Vec<u8>,
    /// What was handed over to it. It takes no memory.
    pub handed: Log,
    /// How that is cut into frames.
    pub cuts: Cuts,
    /// How many reads in a row found no message since something was fed.
    pub quiet: u32,
    /// What waits for the link, and the replies among it.
    pub out: Waiting,
    pub replies: Replies,
    /// What each read of the socket gave. It takes no memory.
    pub reads: ReadLog,
}

// A copy of a message.
fn copied(alloc: Global, b: &[u8]) -> FrameIn
    ensures { IsCopied result b.now }
{
    match Bytes::from_slice(alloc, b) {
        Ok(bytes) => FrameIn::Binary(bytes),
        Err(_) => FrameIn::NoMemory,
    }
}

// The name of a failed read, where the stream is empty or not.
fn name_failure(error: Error, is_empty: bool) -> FrameIn
    ensures { Fails result error is_empty }
{
    match error {
        Error::OutOfMemory => FrameIn::NoMemory,
        Error::ConnectionClosed | Error::AlreadyClosed => FrameIn::Closed,
        Error::Io(cause) => {
            let kind = cause.kind();
            if kind == ErrorKind::OutOfMemory {
                FrameIn::NoMemory
            } else if kind == ErrorKind::WouldBlock && is_empty {
                FrameIn::Idle
            } else {
                FrameIn::Broken
            }
        }
        // A stream in memory doesn't end.
        Error::Protocol(cause) => {
            if cause == ProtocolError::ResetWithoutClosingHandshake && is_empty {
                FrameIn::NoMemory
            } else {
                FrameIn::Broken
            }
        }
        _ => FrameIn::Broken,
    }
}

// The frame of one binary message. Each message has a socket of its own, whose whole state is known: no other bytes
// wait in it, and it was not closed. Its buffer has no limit, so it is never full.
fn framed(alloc: Global, role: Role, seed: u64, b: &[u8]) -> Result<Vec<u8>, NoMemory>
    ensures { IfOk result (λ v. IsFrame role v.items b.now) }
{
    let memory = Memory {
        fed: Vec::new(alloc),
        at: 0,
        out: Vec::new(alloc),
    };
    let Ok(message) = Message::binary(alloc, b) else {
        return Err(NoMemory);
    };
    let mut socket = WebSocket::from_raw_socket(alloc, memory, Keys { state: seed }, role, None);
    match socket.send(message) {
        Ok(()) => {
            let Memory { fed: _, at: _, out } = socket.into_inner();
            Ok(out)
        }
        Err(_) => Err(NoMemory),
    }
}

// The name of a read's result, if the message isn't skipped.
fn name(alloc: Global, returned: Result<Message, Error>, is_empty: bool) -> Option<FrameIn>
    ensures { IsNamed result returned is_empty }
{
    match returned {
        Ok(Message::Binary(b)) => Some(copied(alloc, &b)),
        Ok(Message::Text(_)) => Some(FrameIn::Text),
        Ok(Message::Close(_)) => Some(FrameIn::Closed),
        Ok(Message::Ping(_)) | Ok(Message::Pong(_)) => None,
        Err(error) => Some(name_failure(error, is_empty)),
    }
}

// A socket that has read nothing, over an empty stream. Messages and frames have at most `max` bytes. Its keys, which
// mask what the framing rules answer by themselves, are none of those that start from the seed.
fn new_socket(alloc: Global, role: Role, seed: u64, max: u32) -> WebSocket<Memory, Keys>
    ensures unread { unread_in result.stream ≡ [] }
    ensures limits { HasLimits max result.conn.config }
{
    let memory = Memory {
        fed: Vec::new(alloc),
        at: 0,
        out: Vec::new(alloc),
    };
    let config = WebSocketConfig::default()
        .read_buffer_size(READ_BYTES)
        .max_message_size(Some(max as usize))
        .max_frame_size(Some(max as usize));
    let keys = Keys { state: !seed };
    WebSocket::from_raw_socket(alloc, memory, keys, role, Some(config))
}

impl Stream {
    /// Nothing was fed and nothing waits. Messages and frames have at most `max` bytes.
    pub(crate) fn new(alloc: Global, role: Role, seed: u64, max: u32) -> Stream
        ensures fed { result.fed.items ≡ [] }
        ensures handed { handed_in result ≡ [] }
        ensures out { result.out ≡ [] }
        ensures unread { unread_of result ≡ 0 }
        ensures role { result.role ≡ role }
        ensures reads { result.reads.all ≡ [] }
        ensures limits { HasLimits max result.socket.conn.config }
    {
        Stream {
            alloc,
            role,
            seed,
            max,
            socket: new_socket(alloc, role, seed, max),
            fed: Vec::new(alloc),
            handed: Log::none(),
            cuts: Cuts::new(),
            quiet: 0,
            out: Waiting::new(alloc),
            replies: Replies::none(),
            reads: ReadLog::none(),
        }
    }

    /// Hands over to the socket what was fed. A change of the socket's stream has no clause, so the result is checked.
    fn load(&mut self) -> bool
        ensures loaded { Loaded result self.old self.new }
        ensures reads { self.new.reads ≡ self.old.reads }
    {
        if self.fed.is_empty() {
            return true;
        }
        let before = self.socket.get_ref().unread();
        let taken = self.socket.get_mut().hand_over(&self.fed);
        if !taken || !self.socket.get_ref().has_behind(before, &self.fed) {
            return false;
        }
        self.handed = self.handed.and(&NextBody { bytes: &self.fed });
        self.cuts.pass(&self.fed);
        self.quiet = 0;
        self.fed.clear();
        true
    }

    /// Has the socket write what it keeps to its stream: the answer to a close frame (RFC 6455 section 5.5.1), which it
    /// would write at its next read.
    fn flush_socket(&mut self) -> bool
        ensures kept { KeptUnread result self.old self.new }
        ensures out { self.new.out ≡ self.old.out }
        ensures reads { self.new.reads ≡ self.old.reads }
    {
        let unread = self.socket.get_ref().unread();
        let flushed = self.socket.flush().is_ok();
        flushed && self.socket.get_ref().unread() == unread
    }

    /// Puts what the socket wrote after what waits; the first `late` bytes of it were written before this call. Where
    /// many replies wait, those of this call stay in the socket's stream, in place of the earlier ones: the last pong
    /// may answer all (RFC 6455 section 5.5.3).
    fn fetch(&mut self, late: usize) -> bool
        ensures fetched { Fetched result self.old self.new }
        ensures reads { self.new.reads ≡ self.old.reads }
    {
        if !self.flush_socket() {
            return false;
        }
        let written = self.socket.get_ref().out.len();
        if written == 0 {
            return true;
        }
        if self.replies.are_many() {
            return written == late || self.forget(late);
        }
        if self.out.extend(&self.socket.get_ref().out).is_err() {
            return false;
        }
        self.replies = self.replies.and(written, self.out.len());
        self.forget(written)
    }

    /// Forgets the first `n` bytes that the socket wrote.
    fn forget(&mut self, n: usize) -> bool
        ensures kept { KeptUnread result self.old self.new }
        ensures out { self.new.out ≡ self.old.out }
        ensures reads { self.new.reads ≡ self.old.reads }
    {
        let unread = self.socket.get_ref().unread();
        let left = self.socket.get_ref().out.len().saturating_sub(n);
        self.socket.get_mut().forget(n);
        let memory = self.socket.get_ref();
        memory.unread() == unread && memory.out.len() == left
    }

    // The maximum number of bytes, handed over at once or in one frame, of a socket that is kept.
    fn kept_room(&self) -> u64 {
        if self.quiet >= QUIET_READS {
            KEPT_ROOM as u64
        } else {
            USUAL_ROOM
        }
    }

    /// Replaces a socket whose buffers have grown large by a new one. The new one is open and keeps nothing: all that
    /// the old one was given were whole frames of whole messages, which it read.
    fn renew(&mut self)
        ensures kept { KeptUnread true self.old self.new }
        ensures out { self.new.out ≡ self.old.out }
        ensures reads { self.new.reads ≡ self.old.reads }
    {
        if self.cuts.most() <= self.kept_room() {
            return;
        }
        if !self.cuts.are_whole() || !self.socket.can_write() {
            return;
        }
        let memory = self.socket.get_ref();
        if memory.unread() == 0 && memory.out.is_empty() {
            self.seed = next_value(self.seed);
            self.socket = new_socket(self.alloc, self.role, self.seed, self.max);
            self.cuts = Cuts::new();
        }
    }

    /// Frees the buffers that a long message took, and those of a link that brought nothing for long. No message is
    /// left of what was fed.
    fn give_back_room(&mut self)
        ensures fed { self.new.fed.items ≡ self.old.fed.items }
        ensures unread { unread_of self.new ≡ unread_of self.old }
        ensures handed { self.new.handed ≡ self.old.handed }
        ensures role { self.new.role ≡ self.old.role }
        ensures out { self.new.out ≡ self.old.out }
        ensures reads { self.new.reads ≡ self.old.reads }
    {
        self.quiet = self.quiet.saturating_add(1);
        if self.quiet >= QUIET_READS {
            give_back(&mut self.fed);
        }
        self.renew();
    }

    /// The capacity of its own buffers, in bytes, and for those of the socket, which doesn't show theirs, the largest
    /// number of bytes that a frame had, or that were fed at once, since the socket was made.
    pub(crate) fn capacity(&self) -> usize {
        let memory = self.socket.get_ref();
        let came = self.fed.capacity().saturating_add(memory.fed.capacity());
        let goes = self.out.capacity().saturating_add(memory.out.capacity());
        let own = came.saturating_add(goes);
        own.saturating_add(self.cuts.most() as usize)
    }

    /// One read of the socket, which is logged. No other function reads it.
    fn read_once(&mut self) -> Result<Message, Error>
        ensures read { Reads remaining_in self.old.socket self.new.socket result }
        ensures noted { self.new.reads.all ≡ self.old.reads.all ++ result ∷ [] }
        ensures fed { self.new.fed ≡ self.old.fed }
        ensures handed { self.new.handed ≡ self.old.handed }
        ensures out { self.new.out ≡ self.old.out }
        ensures role { self.new.role ≡ self.old.role }
    {
        let returned = self.socket.read();
        self.reads = self.reads.and(&Given {
            returned: &returned,
        });
        returned
    }

    /// The socket's next message, past pings and pongs.
    fn read_next(&mut self) -> FrameIn
        ensures read { ReadTo result self.old.socket self.new.socket }
        ensures noted { Noted result self.old self.new }
        ensures fed { self.new.fed ≡ self.old.fed }
        ensures handed { self.new.handed ≡ self.old.handed }
        ensures out { self.new.out ≡ self.old.out }
        ensures role { self.new.role ≡ self.old.role }
    {
        'reads: for _ in 0..u64::MAX {
            let returned = self.read_once();
            let is_empty = self.socket.get_ref().unread() == 0;
            if let Some(named) = name(self.alloc, returned, is_empty) {
                return named;
            }
        }
        FrameIn::NoMemory
    }

    /// The next message of what was fed. Where there is no memory a message may be lost.
    pub(crate) fn next(&mut self) -> FrameIn
        ensures next { NextIs result self.old self.new }
        ensures noted { Noted result self.old self.new }
    {
        if !self.load() {
            return FrameIn::NoMemory;
        }
        let late = self.socket.get_ref().out.len();
        let returned = self.read_next();
        if !self.fetch(late) {
            return FrameIn::NoMemory;
        }
        if let FrameIn::Idle = returned {
            self.give_back_room();
        }
        returned
    }

    /// Frames one binary message. Fails only when out of memory.
    pub(crate) fn send(&mut self, b: &[u8]) -> Result<(), NoMemory>
        ensures { SendIs result b.now self.old self.new }
    {
        let frame = framed(self.alloc, self.role, self.seed, b)?;
        self.out.extend(&frame)?;
        self.seed = next_value(self.seed);
        Ok(())
    }
}
