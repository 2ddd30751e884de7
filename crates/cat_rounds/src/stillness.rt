//! Since when no link has taken a byte, while a run waits for what is left to write.
ghost use Rattle.std.specs.Prelude.{◌≡◌, Some};
ghost use Rattle.cat_rounds.specs.Stillness.{noted_still, gives_up_at};

use crate::player::PlayEnd;
use sp_base::Tick;

/// What the links had taken, and since when.
#[derive(Clone, Copy, Debug, PartialEq, Eq)]
pub struct Stillness {
    /// How much they had taken, in a unit of their own.
    pub taken: u64,
    /// The tick at which they were first seen to have taken that.
    pub since: Tick,
}

/// Records that at this tick they have taken `taken`.
pub fn note(still: &mut Option<Stillness>, taken: u64, now: Tick)
    ensures { still.new ≡ Some (noted_still still.old taken now) }
{
    if let Some(known) = still {
        if known.taken == taken {
            return;
        }
    }
    *still = Some(Stillness { taken, since: now });
}

/// Returns whether a play that ended so is given up at this tick: its send timed out, and no link has taken a byte for as
/// many seconds as the send may take, and since a tick before this one.
pub fn gives_up(
    still: &Option<Stillness>,
    over: PlayEnd,
    send_timeout: Option<u32>,
    now: Tick,
) -> bool
    ensures { result ≡ gives_up_at over send_timeout still.now now }
{
    let Some(known) = still else {
        return false;
    };
    match over {
        PlayEnd::Open => false,
        PlayEnd::Finished => false,
        PlayEnd::SendTimedOut => match send_timeout {
            None => false,
            Some(seconds) => {
                known.since.0 < now.0
                    && now.0.saturating_sub(known.since.0) >= 1_000 * seconds as u64
            }
        },
    }
}
