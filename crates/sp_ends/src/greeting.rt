//! The greetings of a link, until it is a pipe or is given back.
ghost use Rattle.std.specs.Prelude.{◌<◌};
ghost use Rattle.sp_links.specs.Going.{IsOpened};
ghost use Rattle.sp_ends.specs.RunLinks.{SameCounts};
ghost use Rattle.sp_ends.specs.SocketSteps.{Quietly, NoLane};
ghost use Rattle.sp_socket.specs.Singles.{IsSound, IsNow};
ghost use Rattle.sp_ends.specs.NewcomerSteps.{IsNextToGreet, GreetsTo, IsInHand, IsOpenInHand, AttachesTo, MissesAs, DriesBy, FateBack, FateIsYoung, FateIsFrom, FateHasWaited, GivesOneBack, IsOut, DecidedFor, MissesFor, is_dry_for, is_dry_fate};

use crate::newcomer::Newcomer;
use crate::shut::leave;
use sp_base::{Link, Net, NoMemory, Tick};
use sp_history::entry::Miss;
use sp_links::{EndWire, Opening, Progress};
use sp_proto::Proto;
use sp_socket::{AttachError, Single};
use std::alloc::Global;
use std::sync::Wait;

/// The maximum time for the greetings of a link, in milliseconds.
const GREETING_TIME: u64 = 10_000;

/// The fate of a newcomer.
pub enum NewcomerFate<L: Link> {
    /// Its greetings go on.
    Stays(Newcomer<L>),
    /// It is a pipe now.
    Up,
    /// It is back.
    Missed(Miss),
}

/// What is to be done with a newcomer.
pub enum NewcomerDecision {
    /// Its greetings go on.
    Stays,
    /// It becomes a pipe.
    Attach,
    /// It is given back.
    Miss(Miss),
}

/// Continues the greetings of a link.
pub fn greet_one<R: Wait, N: Net, P: Proto>(
    alloc: Global,
    rt: &R,
    net: &mut N,
    single: &mut Single<P, EndWire<N::L>>,
    newcomer: Newcomer<N::L>,
    now: Tick,
) -> NewcomerFate<N::L>
    requires stands { IsNextToGreet N.L.seen newcomer single.old (N.seen net.old) }
    requires now { IsNow now single.old }
    requires sound { IsSound single.old }
    ensures stands { GreetsTo N.L.seen newcomer result single.old single.new (N.seen net.old) (N.seen net.new) }
    ensures sound { IsSound single.new }
    ensures quietly { Quietly single.old single.new }
    ensures no_lane { NoLane single.old single.new }
    ensures counts { SameCounts (N.seen net.old) (N.seen net.new) }
    ensures dry { DriesBy (is_dry_fate result) single.old single.new }
    ensures back { FateBack result (N.L.seen newcomer.opening.link).place (N.seen net.old) (N.seen net.new) }
    ensures young { FateIsYoung now result }
    ensures from { FateIsFrom newcomer.from result }
    ensures waited { FateHasWaited N.L.seen newcomer result }
{
    let Newcomer {
        mut opening,
        met,
        from,
        max,
    } = newcomer;
    let progress = opening.greet(alloc);
    match decide(progress, met, now) {
        NewcomerDecision::Stays => NewcomerFate::Stays(Newcomer {
            opening,
            met,
            from,
            max,
        }),
        NewcomerDecision::Attach => attach(alloc, rt, net, single, opening, max),
        NewcomerDecision::Miss(why) => {
            miss(rt, net, single, opening.into_link(), why);
            NewcomerFate::Missed(why)
        }
    }
}

// What is to be done with a link, met at this tick.
fn decide(progress: Progress, met: Tick, now: Tick) -> NewcomerDecision
    ensures { DecidedFor result progress met now }
{
    match progress {
        Progress::Opened => NewcomerDecision::Attach,
        Progress::Bad => NewcomerDecision::Miss(Miss::Bad),
        Progress::Ended => NewcomerDecision::Miss(Miss::Ended),
        Progress::Failed => NewcomerDecision::Miss(Miss::Failed),
        Progress::NoMemory => NewcomerDecision::Miss(Miss::NoMemory),
        Progress::Waits => {
            if now.0.saturating_sub(met.0) >= GREETING_TIME {
                NewcomerDecision::Miss(Miss::Late)
            } else {
                NewcomerDecision::Stays
            }
        }
    }
}

// Makes a pipe of a link whose opening is done, with this receive limit.
fn attach<R: Wait, N: Net, P: Proto>(
    alloc: Global,
    rt: &R,
    net: &mut N,
    single: &mut Single<P, EndWire<N::L>>,
    opening: Opening<N::L>,
    max: u32,
) -> NewcomerFate<N::L>
    requires opened { IsOpened N.L.seen opening }
    requires stands { IsOpenInHand N.L.seen opening max single.old (N.seen net.old) }
    requires sound { IsSound single.old }
    ensures stands { AttachesTo N.L.seen opening max result single.old single.new (N.seen net.old) (N.seen net.new) }
    ensures sound { IsSound single.new }
    ensures quietly { Quietly single.old single.new }
    ensures no_lane { NoLane single.old single.new }
    ensures counts { SameCounts (N.seen net.old) (N.seen net.new) }
    ensures dry { DriesBy (is_dry_fate result) single.old single.new }
    ensures back { FateBack result (N.L.seen opening.link).place (N.seen net.old) (N.seen net.new) }
    ensures out { IsOut result }
{
    let place = opening.link.place();
    match EndWire::over(alloc, opening, max) {
        Err((NoMemory, link)) => {
            miss(rt, net, single, link, Miss::NoMemory);
            NewcomerFate::Missed(Miss::NoMemory)
        }
        Ok(wire) => match single.attach(rt, wire, place, max) {
            Ok(_) => NewcomerFate::Up,
            Err((why, wire)) => {
                let Some(link) = wire.into_link() else {
                    unreachable!()
                };
                let why = miss_for(why);
                miss(rt, net, single, link, why);
                NewcomerFate::Missed(why)
            }
        },
    }
}

// The miss for a link that was refused for this cause.
fn miss_for(why: AttachError) -> Miss
    ensures { MissesFor why result }
{
    match why {
        AttachError::Closed => Miss::Refused,
        AttachError::Refused => Miss::Refused,
        AttachError::Many => Miss::Refused,
        AttachError::NoMemory => Miss::NoMemory,
    }
}

/// Shuts a link that doesn't become a pipe, and gives it back, for this cause.
pub fn miss<R: Wait, N: Net, P: Proto>(
    rt: &R,
    net: &mut N,
    single: &mut Single<P, EndWire<N::L>>,
    link: N::L,
    why: Miss,
)
    requires stands { IsInHand N.L.seen link single.old (N.seen net.old) }
    requires sound { IsSound single.old }
    ensures stands { MissesAs N.L.seen link why single.old single.new (N.seen net.old) (N.seen net.new) }
    ensures sound { IsSound single.new }
    ensures quietly { Quietly single.old single.new }
    ensures no_lane { NoLane single.old single.new }
    ensures counts { SameCounts (N.seen net.old) (N.seen net.new) }
    ensures dry { DriesBy (is_dry_for why) single.old single.new }
    ensures back { GivesOneBack (N.L.seen link).place (N.seen net.old) (N.seen net.new) }
{
    let place = link.place();
    leave(net, link);
    single.missed(rt, place, why);
}
