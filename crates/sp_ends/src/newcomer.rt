//! A link that was handed out and isn't a pipe yet.
ghost use Rattle.std.specs.Prelude.{◌≡◌, Ok, IfOk, MatchResult};
ghost use Rattle.sp_base.specs.Steps.{IsNew};
ghost use Rattle.sp_links.specs.Openings.{CanBegin};
ghost use Rattle.sp_ends.specs.NewcomerSteps.{IsNewcomer};
ghost use Rattle.sp_links.specs.declared.way.Way.{Way as WayType};

use sp_base::{Link, NoMemory, Role, Tick};
use sp_links::{Opening, Way};
use std::alloc::Global;

/// A link that is being opened (nng_stream(5)).
pub struct Newcomer<L: Link> {
    pub opening: Opening<L>,
    /// The tick at which it was handed out.
    pub met: Tick,
    /// The listener that brought it, by its place in the list; `None` where it was dialed.
    pub from: Option<usize>,
    /// The receive limit of that listener, or of the dialer, in bytes.
    pub max: u32,
}

impl<L: Link> Newcomer<L> {
    /// A link that was just handed out. Fails only when out of memory; then the link is returned.
    pub fn new(
        alloc: Global,
        link: L,
        role: Role,
        way: Way,
        met: Tick,
        from: Option<usize>,
        max: u32,
    ) -> Result<Newcomer<L>, (NoMemory, L)>
        requires fresh { IsNew (L.seen link).place (L.seen link) }
        requires can { CanBegin way }
        ensures { MatchResult result (λ n. IsNewcomer L.seen link role way met from max n) (λ e. e.1 ≡ link) }
    {
        match Opening::new(alloc, link, role, way) {
            Ok(opening) => Ok(Newcomer {
                opening,
                met,
                from,
                max,
            }),
            Err(refused) => Err(refused),
        }
    }
}

/// A link that was just handed out. Fails only when out of memory; then the link is returned.
pub fn newcomer_over<L: Link>(
    alloc: Global,
    link: L,
    role: Role,
    way: Result<Way, NoMemory>,
    met: Tick,
    from: Option<usize>,
    max: u32,
) -> Result<Newcomer<L>, (NoMemory, L)>
    requires fresh { IsNew (L.seen link).place (L.seen link) }
    requires can { IfOk way CanBegin }
    ensures { MatchResult result (λ n. (begins : WayType) × (way ≡ Ok begins) × IsNewcomer L.seen link role begins met from max n) (λ e. e.1 ≡ link) }
{
    match way {
        Ok(way) => Newcomer::new(alloc, link, role, way, met, from, max),
        Err(NoMemory) => Err((NoMemory, link)),
    }
}
