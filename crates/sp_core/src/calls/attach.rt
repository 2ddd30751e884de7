//! The calls of the pipes: a wire becomes a pipe, a link is met or given back, and the wire of a pipe that went down is
//! taken.
ghost use Rattle.std.specs.Prelude.{◌≡◌, [], IfErr};
ghost use Rattle.sp_history.specs.declared.entry.Entry.TheVariants.{Met, NoUp};
ghost use Rattle.sp_history.specs.Moments.{Moment};
ghost use Rattle.sp_proto.specs.Machines.{NoFlood};
ghost use Rattle.core_state.specs.Wires.{IsUnused};
ghost use Rattle.sp_core.specs.Owning.{Owns};
ghost use Rattle.sp_core.specs.Standing.{HasFirst};
ghost use Rattle.sp_core.specs.Attaching.{NotesLink, TookWire};
ghost use Rattle.sp_core.specs.ServeSteps.{BringsUp, TellsMayAttach, LeavesNumbers};
ghost use Rattle.sp_core.specs.CallSays.{MayTakeTurn, AttachesWire, TakesOneTurn};

use crate::owner::Core;
use core_state::{AttachError, DownPipe, has_its_one};
use sp_base::PipeId;
use sp_history::entry::{Miss, Why};
use sp_msg::Wire;
use sp_proto::Proto;
use std::sync::Wait;
use turn_lock::Stands;

// The maximum number of pipes that are up, or down with a wire that was not taken.
const MOST_PIPES: usize = 4_096;

// The largest number of a pipe.
const LAST_NUMBER: u32 = 2_147_483_647;

/// A pipe (nng_pipe(5)) that went down, with its wire.
#[derive(Drop)]
pub struct Gone<W> {
    /// Its number.
    pub pipe: PipeId,
    /// Why it went down.
    pub why: Why,
    /// Its wire, as the core left it.
    pub wire: W,
}

impl<P: Proto, W: Wire> Core<P, W> {
    /// The wire, which was not used yet, becomes a pipe over the link with this place; returns its number, one more
    /// than the pipes that came up before. A frame of more than `max` bytes takes the pipe down; 2^32 - 1 is no limit.
    /// Takes all memory that the pipe needs until its wire is taken. Refused for the first cause of `AttachError` that
    /// applies; then the wire is returned unchanged.
    pub fn attach<R: Wait>(
        &mut self,
        rt: &R,
        k: u32,
        w: W,
        place: u32,
        max: u32,
    ) -> Result<PipeId, (AttachError, W)>
        requires turn { MayTakeTurn ⟦<Core<P, W> as Stands>⟧.stands self.old k }
        requires unused { IsUnused (W.shown w) }
        ensures turn { TakesOneTurn ⟦<Core<P, W> as Stands>⟧.stands P.kind self.old self.new k (AttachesWire W.shown result w place max) }
        ensures handed_back { IfErr result (λ e. e.1 ≡ w) }
    {
        self.begin_turn();
        let returned = self.bring_up(w, max);
        self.settle(rt);
        returned
    }

    /// Records that the net handed out the link with this place. May be called after the close. Doesn't fail when out
    /// of memory.
    pub fn met<R: Wait>(&mut self, rt: &R, k: u32, place: u32)
        requires turn { MayTakeTurn ⟦<Core<P, W> as Stands>⟧.stands self.old k }
        ensures { TakesOneTurn ⟦<Core<P, W> as Stands>⟧.stands P.kind self.old self.new k (λ z h t. HasFirst (Met place) t) }
    {
        self.note_link(rt, k);
    }

    /// Records that the link with this place was given back without having become a pipe. May be called after the
    /// close. Doesn't fail when out of memory.
    pub fn missed<R: Wait>(&mut self, rt: &R, k: u32, place: u32, miss: Miss)
        requires turn { MayTakeTurn ⟦<Core<P, W> as Stands>⟧.stands self.old k }
        ensures { TakesOneTurn ⟦<Core<P, W> as Stands>⟧.stands P.kind self.old self.new k (λ z h t. HasFirst (NoUp place miss) t) }
    {
        self.note_link(rt, k);
    }

    // The turn in which a link was met or given back. The core itself keeps no record of it.
    fn note_link<R: Wait>(&mut self, rt: &R, k: u32)
        requires turn { MayTakeTurn ⟦<Core<P, W> as Stands>⟧.stands self.old k }
        ensures turn { NotesLink ⟦<Core<P, W> as Stands>⟧.stands self.old self.new k }
        ensures label { ⟦<Core<P, W> as Stands>⟧.label self.new ≡ ⟦<Core<P, W> as Stands>⟧.label self.old }
    {
        self.begin_turn();
        self.settle(rt);
    }

    /// Takes the wire of the pipe that went down first, of those that were not taken; `None` where there is none. May
    /// be called after the close. Doesn't fail when out of memory.
    pub fn take_ended<R: Wait>(&mut self, rt: &R, k: u32) -> Option<Gone<W>>
        requires turn { MayTakeTurn ⟦<Core<P, W> as Stands>⟧.stands self.old k }
        ensures { TakesOneTurn ⟦<Core<P, W> as Stands>⟧.stands P.kind self.old self.new k (TookWire W.shown result) }
    {
        self.begin_turn();
        let taken = self.pipes.take_first();
        self.settle(rt);
        let Some(DownPipe { id, why, wire }) = taken else {
            return None;
        };
        Some(Gone {
            pipe: id,
            why,
            wire,
        })
    }

    // Makes the wire a pipe, if that can be, with all memory that it needs, while no send to many pipes is pending.
    fn bring_up(&mut self, w: W, max: u32) -> Result<PipeId, (AttachError, W)>
        requires owns { (t : Moment) × Owns P.ties P.room W.shown [] self.old t × NoFlood t }
        requires unused { IsUnused (W.shown w) }
        ensures up { BringsUp P.ties P.room W.shown result w max self.old self.new }
        ensures handed_back { IfErr result (λ e. e.1 ≡ w) }
    {
        if let Some(e) = self.why_not() {
            return Err((e, w));
        }
        if self.pipes.make_room().is_err() {
            return Err((AttachError::NoMemory, w));
        }
        let p = PipeId(self.tally.ups + 1);
        if self.proto.up(p).is_err() {
            return Err((AttachError::NoMemory, w));
        }
        self.pipes.add(p, max, w);
        self.tally.up();
        Ok(p)
    }

    // The reason why no pipe may come up, other than being out of memory.
    fn why_not(&self) -> Option<AttachError>
        ensures told { TellsMayAttach P.ties P.room W.shown result self.now }
        ensures room { LeavesNumbers result self.now }
    {
        if self.closed {
            return Some(AttachError::Closed);
        }
        if has_its_one(&self.proto, self.pipes.count) {
            return Some(AttachError::Refused);
        }
        if self.pipes.count.saturating_add(self.pipes.down.len()) >= MOST_PIPES {
            return Some(AttachError::Many);
        }
        if self.tally.ups >= LAST_NUMBER {
            return Some(AttachError::Many);
        }
        None
    }
}
