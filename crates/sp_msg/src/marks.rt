//! What every wire keeps besides its bytes.
ghost use Rattle.std.specs.Prelude.{◌≡◌, true, false};
ghost use Rattle.sp_msg.specs.Marks.{fresh_marks, marks_pulled, marks_roomed, marks_flushed, marks_put, marks_shut};

use crate::wire::{Room, WireFlush, WireIn};

/// Which calls of a wire are lawful, how it ended, and its counts. Counts saturate.
#[derive(Clone, Copy, Debug, PartialEq, Eq)]
pub struct WireMarks {
    /// Room for one message was found and isn't used yet.
    pub is_ready: bool,
    /// Calls other than `shut` are lawful.
    pub is_open: bool,
    /// A pull returned that the peer has ended.
    pub ended: bool,
    /// A pull returned that the next message is malformed.
    pub malformed: bool,
    /// How often `Failed` was returned.
    pub faults: u64,
    /// How often `Full` was returned.
    pub fulls: u64,
    /// How often a pull returned `NotYet`.
    pub idles: u64,
    /// How often a flush returned `NotYet`.
    pub stalls: u64,
    /// How often `Refused` was returned.
    pub refusals: u64,
}

impl WireMarks {
    /// The marks of a new wire: open, without room, every count 0.
    pub fn new() -> WireMarks
        ensures { result ≡ fresh_marks }
    {
        WireMarks {
            is_ready: false,
            is_open: true,
            ended: false,
            malformed: false,
            faults: 0,
            fulls: 0,
            idles: 0,
            stalls: 0,
            refusals: 0,
        }
    }

    fn failed(&mut self)
        ensures { self.new ≡ marks_pulled WireIn.Failed self.old }
    {
        self.is_open = false;
        self.faults = self.faults.saturating_add(1);
    }

    fn refused(&mut self)
        ensures { self.new ≡ marks_pulled WireIn.Refused self.old }
    {
        self.is_open = false;
        self.refusals = self.refusals.saturating_add(1);
    }

    /// Records a pull that returned `returned`.
    pub fn pulled(&mut self, returned: &WireIn)
        ensures { self.new ≡ marks_pulled returned.now self.old }
    {
        match returned {
            WireIn::Message(_) => {}
            WireIn::NotYet => self.idles = self.idles.saturating_add(1),
            WireIn::Ended => {
                self.is_open = false;
                self.ended = true;
            }
            WireIn::Malformed => {
                self.is_open = false;
                self.malformed = true;
            }
            WireIn::Failed => self.failed(),
            WireIn::Refused => self.refused(),
            WireIn::NoMemory => self.is_open = false,
        }
    }

    /// Records a call of `room` that returned `returned`.
    pub fn roomed(&mut self, returned: Room)
        ensures { self.new ≡ marks_roomed returned self.old }
    {
        match returned {
            Room::Yes => self.is_ready = true,
            Room::Full => self.fulls = self.fulls.saturating_add(1),
            Room::Failed => self.failed(),
            Room::Refused => self.refused(),
            Room::NoMemory => self.is_open = false,
        }
    }

    /// Records that a message was put.
    pub fn put(&mut self)
        ensures { self.new ≡ marks_put self.old }
    {
        self.is_ready = false;
    }

    /// Records a flush that returned `returned`.
    pub fn flushed(&mut self, returned: WireFlush)
        ensures { self.new ≡ marks_flushed returned self.old }
    {
        match returned {
            WireFlush::Empty => {}
            WireFlush::NotYet => self.stalls = self.stalls.saturating_add(1),
            WireFlush::Failed => self.failed(),
            WireFlush::Refused => self.refused(),
            WireFlush::NoMemory => self.is_open = false,
        }
    }

    /// Records that the wire was shut.
    pub fn shut(&mut self)
        ensures { self.new ≡ marks_shut self.old }
    {
        self.is_ready = false;
        self.is_open = false;
    }
}
