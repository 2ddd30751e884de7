//! A pace with a given number of turns.
ghost use Rattle.std.specs.Prelude.{◌≡◌, ◌≤◌, ◌<◌, ◌^◌, false};

use sp_base::{Pace, Paced, Tick};

/// Turns at the ticks 0, step, 2 step and so on; the last possible tick stays.
#[derive(Debug, Drop)]
pub struct MemPace {
    turns: u64,
    step: u64,
    next: u64,
    latest: u64,
    over: bool,
    ghost rises: { latest ≤ next },
    ghost within: { next < 2 ^ 64 },
}

impl MemPace {
    ghost use Rattle.sp_fakes.specs.Paces.{pace_view, ticks_of};

    /// A pace of `left` turns, `step` milliseconds apart.
    pub fn new(left: u64, step: u64) -> MemPace
        ensures turns { pace_view result ≡ record { left = left; latest = 0; is_over = false } }
        ensures ticks { ticks_of result ≡ record { next = 0; step = step } }
    {
        MemPace {
            turns: left,
            step,
            next: 0,
            latest: 0,
            over: false,
        }
    }

    /// The number of turns that are left.
    pub fn left(&self) -> u64
        ensures { result ≡ (pace_view self.now).left }
    {
        self.turns
    }

    /// Returns whether it has returned that no turn is left.
    pub fn is_over(&self) -> bool
        ensures { result ≡ (pace_view self.now).is_over }
    {
        self.over
    }
}

impl Pace for MemPace {
    ghost use Rattle.sp_base.specs.Steps.{AfterTurn};
    ghost use Rattle.sp_fakes.specs.Paces.{pace_view, ticks_of, TurnBy};

    ghost seen = { pace_view };

    fn turn(&mut self, _moved: bool) -> Paced
        ensures after { AfterTurn result (pace_view self.old) (pace_view self.new) }
        ensures by { TurnBy result (ticks_of self.old) (ticks_of self.new) }
    {
        if self.turns == 0 {
            self.over = true;
            return Paced::Over;
        }
        self.turns -= 1;
        let tick = self.next;
        self.latest = tick;
        self.next = tick.saturating_add(self.step);
        Paced::At(Tick(tick))
    }
}
