//! Links that were given back. Their peers may not have received everything yet, and closing a link whose peer still
//! sends discards what the peer hasn't taken.
use crate::link::Counts;
use crate::pace::RealPace;
use crate::stream::LinkStream;
use crate::wake::{Mark, Wakes};
use std::alloc::Global;
use std::collections::VecDeque;
use std::io::ErrorKind;
use std::rt::Clock;

/// How many milliseconds `finish` waits at most.
const LINGER: u64 = 2_000;

/// How often in a row a link is read before others have their turn.
const READS: usize = 64;

/// A link whose writing half is shut.
#[derive(Drop)]
struct Leaving {
    stream: LinkStream,
    mark: Mark,
}

/// Links that were given back.
#[derive(Drop)]
pub(crate) struct Leavers {
    links: VecDeque<Leaving>,
    // How many links are handed out and not back yet.
    out: usize,
}

// The state of a link that was given back.
#[derive(Clone, Copy, PartialEq, Eq)]
enum Left {
    /// The peer hasn't shut its half.
    Waits,
    /// The peer has shut its half: it took all that was written before.
    Whole,
    /// The link is reset.
    Lost,
}

impl Leaving {
    // Drops what comes.
    fn drop_what_comes(&mut self) -> Left {
        let mut buffer = [0u8; 4_096];
        for _ in 0..READS {
            match self.stream.read(&mut buffer) {
                Ok(0) => return Left::Whole,
                Ok(_) => (),
                Err(e) => {
                    return match e.kind() {
                        ErrorKind::WouldBlock => Left::Waits,
                        ErrorKind::Interrupted => self.has_more(),
                        _ => Left::Lost,
                    };
                }
            }
        }
        self.has_more()
    }

    fn has_more(&self) -> Left {
        self.mark.has_more();
        Left::Waits
    }

    fn close(self, wakes: &Wakes) {
        let Leaving { stream, mark } = self;
        drop(stream);
        let _ = wakes.unmark(mark);
    }

    // Drops what comes, if the link was reported.
    fn turn(&mut self) -> Left {
        if self.mark.take() {
            self.drop_what_comes()
        } else {
            Left::Waits
        }
    }
}

impl Leavers {
    /// No link is handed out and none is back.
    pub(crate) fn new(alloc: Global) -> Leavers {
        Leavers {
            links: VecDeque::new(alloc),
            out: 0,
        }
    }

    /// Records that a link is handed out. Where there is no memory, one more link is closed as soon as it is back.
    pub(crate) fn hand_out(&mut self) {
        self.out = self.out.saturating_add(1);
        let _ = self.links.reserve(self.out);
    }

    /// Takes a link back. One that failed, or whose peer had ended, is closed at once. Takes no memory.
    pub(crate) fn take_back(
        &mut self,
        wakes: &Wakes,
        stream: LinkStream,
        mark: Mark,
        counts: &Counts,
    ) {
        self.out = self.out.saturating_sub(1);
        if counts.ended || counts.faults > 0 {
            let _ = wakes.unmark(mark);
        } else {
            stream.shut();
            mark.set();
            self.keep(wakes, Leaving { stream, mark });
        }
    }

    /// Closes them, and returns how many there were.
    pub(crate) fn close(&mut self, wakes: &Wakes) -> u32 {
        let mut closed = 0u32;
        for _ in 0..self.links.len() {
            if let Some(leaving) = self.links.pop_front() {
                leaving.close(wakes);
                closed = closed.saturating_add(1);
            }
        }
        closed
    }

    /// Drops what comes on them until each peer has shut its half too, for at most two seconds, and closes them.
    /// Returns how many were not whole.
    pub(crate) fn finish<C: Clock + Drop>(&mut self, wakes: &Wakes, pace: &mut RealPace<C>) -> u32 {
        let mut lost = 0u32;
        let _ = pace.rest(0);
        let until = pace.now().saturating_add(LINGER);
        for _ in 0..u64::MAX {
            lost = lost.saturating_add(self.turn(wakes));
            let left = until.saturating_sub(pace.now());
            if self.links.is_empty() || left == 0 || pace.rest(left).is_err() {
                break;
            }
        }
        lost.saturating_add(self.close(wakes))
    }

    // Takes a turn of each. Returns how many were lost.
    fn turn(&mut self, wakes: &Wakes) -> u32 {
        let mut lost = 0u32;
        for _ in 0..self.links.len() {
            if let Some(leaving) = self.links.pop_front() {
                if self.turn_one(wakes, leaving) == Left::Lost {
                    lost = lost.saturating_add(1);
                }
            }
        }
        lost
    }

    // Takes a turn of one that was taken out of the list. It goes back if its peer hasn't shut its half.
    fn turn_one(&mut self, wakes: &Wakes, leaving: Leaving) -> Left {
        let mut leaving = leaving;
        let left = leaving.turn();
        if left == Left::Waits {
            self.keep(wakes, leaving);
        } else {
            leaving.close(wakes);
        }
        left
    }

    // Puts one into the list, if there is room.
    fn keep(&mut self, wakes: &Wakes, leaving: Leaving) {
        if self.links.len() < self.links.capacity() {
            self.links.push_back_reserved(leaving);
        } else {
            leaving.close(wakes);
        }
    }
}
