//! A pace by the clock.
ghost use Rattle.std.specs.Prelude.{◌≡◌, ◌-◌, ◌^◌, false, IfOk};
ghost use Rattle.sp_real.specs.Real.{pace_view, RestsOnly};

use crate::wake::Wakes;
use mio::{Events, Poll};
use sp_base::{Pace, Paced, Tick};
use std::alloc::Global;
use std::rt::Clock;
use std::time::{Duration, Instant};
use std::{io, thread};

/// The maximum number of ready sockets that one rest records.
const READY: usize = 64;

/// The maximum rest, in milliseconds, while a socket was ready not long ago.
const REST: u64 = 1;

/// After this many rests in a row that no socket ended, a pace is idle.
const QUIET_RESTS: u32 = 100;

/// The maximum rest of an idle pace, in milliseconds.
const IDLE_REST: u64 = 10;

/// A pace that rests where nothing moved, for a millisecond or until a socket of its registry is ready, with 2^64 - 1
/// turns. It doesn't rest if a link returned that nothing is there but may have more (`TURN_BYTES`). After a hundred
/// rests in a row that no socket ended it rests for up to ten milliseconds. Its ticks are milliseconds since it was
/// made.
#[derive(Drop)]
pub struct RealPace<R: Clock + Drop> {
    rt: R,
    poll: Poll,
    events: Events,
    wakes: Wakes,
    start: Instant,
    left: u64,
    latest: u64,
    over: bool,
    // The number of rests in a row that no socket has ended.
    quiet: u32,
}

impl<R: Clock + Drop> RealPace<R> {
    /// A pace whose ticks count from now. Fails where the clock or the machine's readiness does, or when out of memory.
    pub fn new<N: std::net::Net>(rt: R, net: &N, alloc: Global) -> io::Result<RealPace<R>>
        ensures { IfOk result (λ p. (p.left ≡ 2 ^ 64 - 1) × (p.over ≡ false)) }
    {
        let poll = Poll::new(net)?;
        let events = Events::with_capacity(alloc, READY)?;
        let wakes = Wakes::new(poll.registry().try_clone()?, alloc)?;
        let start = Instant::now(&rt)?;
        Ok(RealPace {
            rt,
            poll,
            events,
            wakes,
            start,
            left: u64::MAX,
            latest: 0,
            over: false,
            quiet: 0,
        })
    }

    /// The registry for the sockets that end a rest.
    pub fn registry(&self) -> io::Result<Wakes> {
        self.wakes.share()
    }

    /// Rests for at most `most` milliseconds, or until a socket is ready or a link has more than it gave, without a
    /// turn. Returns whether one was ready or had more. Fails where the clock does.
    pub fn rest(&mut self, most: u64) -> io::Result<bool>
        ensures { RestsOnly (pace_view self.old.left self.old.latest self.old.over) (pace_view self.new.left self.new.latest self.new.over) }
    {
        let woken = self.wait(most);
        self.read_clock()?;
        Ok(woken)
    }

    /// The last tick.
    pub(crate) fn now(&self) -> u64 {
        self.latest
    }

    // Waits for `most` milliseconds, or until a socket is ready. Returns whether one is, or a link had more than it
    // gave. Where the machine can't say which are ready, each is looked at after ten milliseconds at most.
    fn wait(&mut self, most: u64) -> bool
        ensures { RestsOnly (pace_view self.old.left self.old.latest self.old.over) (pace_view self.new.left self.new.latest self.new.over) }
    {
        let more = self.wakes.take_more();
        let most = if more { 0 } else { most };
        let time = Duration::from_millis(most);
        match self.poll.poll(&mut self.events, Some(time)) {
            Ok(()) => self.wakes.note(&self.events) || more,
            Err(_) => {
                self.wakes.note_all();
                thread::sleep(&self.rt, Duration::from_millis(most.min(IDLE_REST)));
                more
            }
        }
    }

    // Sets the last tick to now.
    fn read_clock(&mut self) -> io::Result<()>
        ensures { RestsOnly (pace_view self.old.left self.old.latest self.old.over) (pace_view self.new.left self.new.latest self.new.over) }
    {
        let since = self.start.elapsed(&self.rt)?;
        let now = u64::try_from(since.as_millis()).unwrap_or(u64::MAX);
        self.latest = self.latest.max(now);
        self.wakes.set_tick(self.latest);
        Ok(())
    }
}

// The maximum rest, in milliseconds.
fn longest_rest(moved: bool, quiet: u32) -> u64 {
    if moved {
        0
    } else if quiet < QUIET_RESTS {
        REST
    } else {
        IDLE_REST
    }
}

impl<R: Clock + Drop> Pace for RealPace<R> {
    ghost seen = { λ p. pace_view p.left p.latest p.over };

    fn turn(&mut self, moved: bool) -> Paced {
        if self.left == 0 {
            self.over = true;
            return Paced::Over;
        }
        self.left -= 1;
        let woken = self.wait(longest_rest(moved, self.quiet));
        if moved || woken {
            self.quiet = 0;
        } else {
            self.quiet = self.quiet.saturating_add(1);
        }
        let _ = self.read_clock();
        Paced::At(Tick(self.latest))
    }
}
