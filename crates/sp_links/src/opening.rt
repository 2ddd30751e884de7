//! A link in its opening.
ghost use Rattle.std.specs.Prelude.{◌≡◌, ◌≤◌, length, None, MatchResult};
ghost use Rattle.sp_base.specs.Steps.{IsNew};
ghost use Rattle.sp_links.specs.Openings.{CanBegin, Begins};
ghost use Rattle.sp_links.specs.Going.{Stands, IsUnderWay, IsHearing, IsLater, IsFresh, SaidTo, HeardTo, OpenedTo, TakenIn, IsOpened};

use crate::judge::{PeerPart, judge};
use crate::way::{Way, first_text, nothing};
use sp_base::{Bytes, Link, LinkRead, LinkWrite, NoMemory, Role};
use std::alloc::Global;

/// A link that carries no messages yet (nng_stream(5)).
pub struct Opening<L: Link> {
    /// The link, which is open.
    pub link: L,
    /// The role of this side.
    pub role: Role,
    pub way: Way,
    /// All that is to be written so far, from the beginning.
    pub own: Bytes,
    /// The number of bytes of it that are written.
    pub said: usize,
    /// All that came.
    pub came: Bytes,
    /// The length of the peer's part, once it is whole and right.
    pub used: Option<usize>,
}

/// The progress of an opening.
#[derive(Clone, Copy, Debug, PartialEq, Eq)]
pub enum Progress {
    /// The link brings or takes nothing yet.
    Waits,
    /// The peer's part is right, and all that is owed is written.
    Opened,
    /// What came is wrong.
    Bad,
    Ended,
    Failed,
    NoMemory,
}

/// The result of taking a piece of what came.
pub enum Heard {
    More,
    Whole,
    Bad,
    NoMemory,
}

// Where a read of the link puts its bytes.
fn empty_piece() -> [u8; 256]
    ensures { length result ≡ 256 }
{
    [0; 256]
}

impl<L: Link> Opening<L> {
    /// A link that was just handed out. Fails only when out of memory; then the link is returned.
    pub fn new(alloc: Global, link: L, role: Role, way: Way) -> Result<Opening<L>, (NoMemory, L)>
        requires fresh { IsNew (L.seen link).place (L.seen link) }
        requires can { CanBegin way }
        ensures { MatchResult result (λ n. IsFresh L.seen link role way n × IsUnderWay L.seen n) (λ e. e.1 ≡ link) }
    {
        let Ok(own) = first_text(alloc, role, &way) else {
            return Err((NoMemory, link));
        };
        Ok(Opening {
            link,
            role,
            way,
            own,
            said: 0,
            came: nothing(alloc),
            used: None,
        })
    }

    /// The link, as it is.
    pub fn into_link(self) -> L
        ensures { result ≡ self.link }
    {
        let Opening {
            link,
            role: _,
            way: _,
            own: _,
            said: _,
            came: _,
            used: _,
        } = self;
        link
    }

    /// Writes what the link takes of what is owed, and reads what it brings of the peer's part, as far as that goes.
    pub fn greet(&mut self, alloc: Global) -> Progress
        requires under_way { IsUnderWay L.seen self.old }
        ensures opened { OpenedTo L.seen result self.old self.new }
        ensures later { IsLater (L.seen self.old.link) (L.seen self.new.link) }
    {
        match self.say() {
            Progress::Opened => self.go_on(alloc),
            Progress::Waits => Progress::Waits,
            Progress::Bad => Progress::Bad,
            Progress::Ended => Progress::Ended,
            Progress::Failed => Progress::Failed,
            Progress::NoMemory => Progress::NoMemory,
        }
    }

    // Continues where all that is owed so far is written.
    fn go_on(&mut self, alloc: Global) -> Progress
        requires stands { Stands L.seen self.old }
        requires said { self.old.said ≡ length self.old.own }
        ensures opened { OpenedTo L.seen result self.old self.new }
        ensures later { IsLater (L.seen self.old.link) (L.seen self.new.link) }
    {
        match self.used {
            Some(_) => Progress::Opened,
            None => self.hear_and_answer(alloc),
        }
    }

    // Reads the peer's part, and writes what is owed for it.
    fn hear_and_answer(&mut self, alloc: Global) -> Progress
        requires hearing { IsHearing L.seen self.old }
        ensures opened { OpenedTo L.seen result self.old self.new }
        ensures later { IsLater (L.seen self.old.link) (L.seen self.new.link) }
    {
        match self.hear(alloc) {
            Progress::Opened => self.say(),
            Progress::Waits => Progress::Waits,
            Progress::Bad => Progress::Bad,
            Progress::Ended => Progress::Ended,
            Progress::Failed => Progress::Failed,
            Progress::NoMemory => Progress::NoMemory,
        }
    }

    // Writes until all that is owed so far is written, or the link takes no more.
    fn say(&mut self) -> Progress
        requires stands { Stands L.seen self.old }
        ensures said { SaidTo L.seen result self.old self.new }
        ensures later { IsLater (L.seen self.old.link) (L.seen self.new.link) }
    {
        'writes: while self.said < self.own.as_slice().len() {
            match self.link.write(&self.own.as_slice()[self.said..]) {
                LinkWrite::Took(n) => self.said += n,
                LinkWrite::NotYet => return Progress::Waits,
                LinkWrite::Failed => return Progress::Failed,
            }
        }
        Progress::Opened
    }

    // Reads until the peer's part is whole or wrong, or the link brings no more.
    fn hear(&mut self, alloc: Global) -> Progress
        requires hearing { IsHearing L.seen self.old }
        ensures heard { HeardTo L.seen result self.old self.new }
        ensures later { IsLater (L.seen self.old.link) (L.seen self.new.link) }
    {
        let mut piece = empty_piece();
        'reads: loop {
            match self.link.read(&mut piece) {
                LinkRead::NotYet => return Progress::Waits,
                LinkRead::Ended => return Progress::Ended,
                LinkRead::Failed => return Progress::Failed,
                LinkRead::Got(n) => match self.take_in(alloc, &piece[..n]) {
                    Heard::More => (),
                    Heard::Whole => return Progress::Opened,
                    Heard::Bad => return Progress::Bad,
                    Heard::NoMemory => return Progress::NoMemory,
                },
            }
        }
    }

    // Adds a piece that came.
    fn take_in(&mut self, alloc: Global, piece: &[u8]) -> Heard
        ensures { TakenIn result piece.now self.old self.new }
    {
        if self.came.append(piece).is_err() {
            return Heard::NoMemory;
        }
        match judge(alloc, self.role, &self.way, self.came.as_slice()) {
            PeerPart::More => Heard::More,
            PeerPart::Bad => Heard::Bad,
            PeerPart::NoMemory => Heard::NoMemory,
            PeerPart::Good { used, answer } => {
                if self.own.append(answer.as_slice()).is_err() {
                    return Heard::NoMemory;
                }
                self.used = Some(used);
                Heard::Whole
            }
        }
    }
}
