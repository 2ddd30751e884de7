//! An address that is dialed.
ghost use Rattle.std.specs.Prelude.{◌≡◌, IsTrue, ◌↔◌, None, Some};
ghost use Rattle.sp_ends.specs.DialMoments.{IsDueAt};
ghost use Rattle.sp_ends.specs.DialerSteps.{HasTried, next_after, place_after, IsFreed, IsSameDialer};

use sp_base::{Addr, Link, Linked, Tick};

/// The milliseconds between the end of a try, or of a link, and the next dial.
pub(crate) const PAUSE: u64 = 100;

/// An address that is dialed again and again, while there is no link to it (nng_dialer(5)).
#[derive(Drop)]
pub struct Dialer {
    /// The address, which can be dialed.
    pub addr: Addr,
    /// The receive limit of its links, in bytes.
    pub max: u32,
    /// The tick from which on it may be dialed; `None` means never.
    pub next: Option<u64>,
    /// The link that it has, if it has one.
    pub place: Option<u32>,
    /// How often the net was asked for it, saturating.
    pub tries: u64,
}

impl Dialer {
    /// A dialer that has no link, and may be dialed at once.
    pub fn new(addr: Addr, max: u32) -> Dialer
        ensures { (result.addr ≡ addr) × (result.max ≡ max) × (result.next ≡ Some 0) × (result.place ≡ None) × (result.tries ≡ 0) }
    {
        Dialer {
            addr,
            max,
            next: Some(0),
            place: None,
            tries: 0,
        }
    }

    /// Returns whether it is to be dialed at this tick.
    pub fn is_due(&self, now: Tick) -> bool
        ensures { IsTrue result ↔ ((self.now.place ≡ None) × IsDueAt self.now.next now) }
    {
        match self.next {
            None => false,
            Some(next) => self.place.is_none() && next <= now.0,
        }
    }

    /// Records that the address was dialed at this tick, with the result `said`. While a connection is under way the
    /// net is asked for it at the next tick; a try that is over is followed by the pause.
    pub fn dialed<L: Link>(&mut self, now: Tick, said: &Linked<L>)
        ensures { HasTried (next_after said.now now) (place_after L.seen said.now) self.old self.new }
    {
        match said {
            Linked::Got(link) => self.tried(now.0.checked_add(PAUSE), Some(link.place())),
            Linked::NotYet => self.tried(now.0.checked_add(PAUSE), None),
            Linked::Begun => self.tried(Some(now.0), None),
            Linked::Failed => self.tried(now.0.checked_add(PAUSE), None),
        }
    }

    // Records that the net was asked once more: from the tick `next` on it may be asked again, and `place` is its link.
    fn tried(&mut self, next: Option<u64>, place: Option<u32>)
        ensures { HasTried next place self.old self.new }
    {
        self.next = next;
        self.place = place;
        self.tries = self.tries.saturating_add(1);
    }

    /// Records that the link with this place is back. If it was this dialer's, it may dial again after the pause.
    pub fn lost(&mut self, now: Tick, place: u32)
        ensures same { IsSameDialer self.old self.new }
        ensures freed { IsFreed now place self.old self.new }
    {
        if self.place == Some(place) {
            self.next = now.0.checked_add(PAUSE);
            self.place = None;
        }
    }
}
