//! What is counted of a socket's history.
ghost use Rattle.std.specs.Prelude.{◌≡◌, ◌-◌, ◌^◌, ◌<◌, ℕ, List, max};
ghost use Rattle.sp_history.specs.declared.entry.ContextChange.TheVariants as gate;
ghost use Rattle.sp_history.specs.declared.entry.Entry.TheVariants.{Down, Frame, Out, Full};
ghost use Rattle.sp_history.specs.declared.entry.Entry.TheVariants as entries;
ghost use Rattle.sp_history.specs.declared.entry.Why.{Why};
ghost use Rattle.sp_history.specs.declared.setting.Setting.{Setting};
ghost use Rattle.sp_proto.specs.Kinds.{start};
ghost use Rattle.sp_history.specs.Moments.{Moment, also, next};
ghost use Rattle.core_state.specs.Tallies.{Tallies};
ghost use Rattle.core_state.specs.PartSteps.{CountsUp, CountsBegun, CountsWon, CountsGone, CountsShut, CountsTick};

use sp_base::Tick;
use sp_history::entry::Totals;

/// The number of pipes that came up, the totals, each saturating, and the last tick (nng_stat(5)).
#[derive(Clone, Copy, PartialEq, Eq, Debug)]
pub struct Tally {
    /// The number of pipes that came up.
    pub ups: u32,
    /// The totals so far.
    pub totals: Totals,
    /// Whether the turn has a frame, an Out, an end or a Down.
    pub moved: bool,
    /// The largest tick, 0 before the first.
    pub latest: Tick,
    /// The number of contexts that were opened, the socket's own among them.
    pub opened: u32,
    /// The number of contexts that are open.
    pub open_ctxs: u32,
}

impl Tally {
    /// The counts before anything happened.
    pub fn new() -> Tally
        ensures { (z : Setting) (caller : ℕ) → Tallies result (start z caller) }
    {
        Tally {
            ups: 0,
            totals: Totals {
                begun: 0,
                won: 0,
                gone: 0,
                frames: 0,
                outs: 0,
                fulls: 0,
            },
            moved: false,
            latest: Tick(0),
            opened: 0,
            open_ctxs: 1,
        }
    }

    /// Records that a turn begins.
    pub fn turn(&mut self)
        ensures { (t : Moment) (caller : ℕ) → Tallies self.old t → Tallies self.new (next t caller) }
    {
        self.moved = false;
    }

    /// Counts a pipe that comes up.
    pub fn up(&mut self)
        requires { self.old.ups < 2 ^ 32 - 1 }
        ensures { CountsUp self.old self.new }
    {
        self.ups += 1;
    }

    /// Counts a pipe that goes down.
    pub fn down(&mut self)
        ensures { (t : Moment) (p : ℕ) (why : Why) → Tallies self.old t → Tallies self.new (also t (Down p why)) }
    {
        self.moved = true;
    }

    /// Counts an operation that begins.
    pub fn begun(&mut self)
        ensures { CountsBegun self.old self.new }
    {
        self.totals.begun = self.totals.begun.saturating_add(1);
    }

    /// Counts an operation that is won.
    pub fn won(&mut self)
        ensures { CountsWon self.old self.new }
    {
        self.totals.won = self.totals.won.saturating_add(1);
        self.moved = true;
    }

    /// Counts an operation that ends without success.
    pub fn gone(&mut self)
        ensures { CountsGone self.old self.new }
    {
        self.totals.gone = self.totals.gone.saturating_add(1);
        self.moved = true;
    }

    /// Counts a frame that comes.
    pub fn frame(&mut self)
        ensures { (t : Moment) (p : ℕ) (b : List ℕ) → Tallies self.old t → Tallies self.new (also t (Frame p b)) }
    {
        self.totals.frames = self.totals.frames.saturating_add(1);
        self.moved = true;
    }

    /// Counts a message that goes out.
    pub fn out(&mut self)
        ensures { (t : Moment) (p : ℕ) (b : List ℕ) → Tallies self.old t → Tallies self.new (also t (Out p b)) }
    {
        self.totals.outs = self.totals.outs.saturating_add(1);
        self.moved = true;
    }

    /// Counts a pipe that is found full.
    pub fn full(&mut self)
        ensures { (t : Moment) (p : ℕ) → Tallies self.old t → Tallies self.new (also t (Full p)) }
    {
        self.totals.fulls = self.totals.fulls.saturating_add(1);
    }

    /// Counts a context that is opened.
    pub fn open_ctx(&mut self)
        requires { (self.old.opened < 2 ^ 32 - 1) × (self.old.open_ctxs < 2 ^ 32 - 1) }
        ensures { (t : Moment) (c : ℕ) → Tallies self.old t → Tallies self.new (also t (entries.Ctx c gate.Open)) }
    {
        self.opened += 1;
        self.open_ctxs += 1;
    }

    /// Counts a context that is shut.
    pub fn shut_ctx(&mut self)
        requires { 0 < self.old.open_ctxs }
        ensures { CountsShut self.old self.new }
    {
        self.open_ctxs -= 1;
    }

    /// The later of `now` and the last tick.
    pub fn not_before(&self, now: Tick) -> Tick
        ensures { result ≡ max self.now.latest now }
    {
        if now.0 < self.latest.0 {
            return self.latest;
        }
        now
    }

    /// Records the tick `now`, which is no earlier than the last one.
    pub fn tick(&mut self, now: Tick)
        ensures { CountsTick now self.old self.new }
    {
        self.latest = now;
    }
}
