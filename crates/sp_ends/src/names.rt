//! The ends of a run that are reached by names within the process.
ghost use Rattle.std.specs.Prelude.{◌≡◌, ◌<◌, ◌*◌, [], length};
ghost use Rattle.sp_ends.specs.AddedNames.{ListensName, DialsName};
ghost use Rattle.sp_ends.specs.NameSteps.{AreLost, GoesOn, KeepsLinks, CallsAll, CallsAt, DialsDue, TriesName, Accepting, Brings, AllBring, HasFewer, HasNewLane, CameUp};
ghost use Rattle.sp_lane.specs.Registry.{IsNewHalf};

use crate::error::EndError;
use crate::name_dialer::NameDialer;
use crate::shut::leave_wire;
use sp_base::{Bytes, Link, PipeId, Role, Tick};
use sp_lane::{Inproc, InprocError, LaneWire};
use sp_links::EndWire;
use sp_proto::Proto;
use sp_socket::Single;
use std::alloc::Global;
use std::marker::Model;
use std::sync::Wait;

/// The maximum number of links that a listener is asked for in a turn, and of lanes that a name is asked for.
pub const LINKS_A_TURN: u32 = 16;

/// The place of a pipe that has no link of a net.
const LANE_PLACE: u32 = u32::MAX;

/// The receive limit of such a pipe: none.
const NO_LIMIT: u32 = u32::MAX;

/// Names that are listened on (nng_listener(5)), and names that are dialed (nng_dialer(5)).
#[derive(Drop)]
pub struct NameEnds {
    alloc: Global,
    /// The names that are listened on.
    pub names: Vec<Bytes>,
    /// The names that are dialed.
    pub callers: Vec<NameDialer>,
}

impl Model for NameEnds {
    ghost use Rattle.sp_ends.specs.EndViews.{NamesView};

    ghost Value = { NamesView };

    ghost view = { λ n. record { names = n.names.items; callers = n.callers.items } };
}

impl NameEnds {
    /// No names.
    pub fn new(alloc: Global) -> NameEnds
        ensures { result ≡ record { names = []; callers = [] } }
    {
        NameEnds {
            alloc,
            names: Vec::new(alloc),
            callers: Vec::new(alloc),
        }
    }

    /// Listens on one more name, in this role.
    pub fn listen(&mut self, inproc: &mut Inproc, name: &[u8], role: Role) -> Result<(), EndError>
        ensures { ListensName result name.now role self.old self.new inproc.old inproc.new }
    {
        if self.names.reserve(1).is_err() {
            return Err(EndError::NoMemory);
        }
        let Ok(copy) = Bytes::from_slice(self.alloc, name) else {
            return Err(EndError::NoMemory);
        };
        match inproc.listen(name, role) {
            Ok(()) => {
                self.names.push_reserved(copy);
                Ok(())
            }
            Err(InprocError::InUse) => Err(EndError::InUse),
            Err(InprocError::NoMemory) => Err(EndError::NoMemory),
            Err(InprocError::NoEntry) => unreachable!(),
            Err(InprocError::Proto) => unreachable!(),
        }
    }

    /// Dials one more name, from the next turn on.
    pub fn dial(&mut self, name: &[u8]) -> Result<(), EndError>
        ensures { DialsName result name.now self.old self.new }
    {
        let Ok(copy) = Bytes::from_slice(self.alloc, name) else {
            return Err(EndError::NoMemory);
        };
        match self.callers.push(NameDialer::new(copy)) {
            Ok(()) => Ok(()),
            Err(_) => Err(EndError::NoMemory),
        }
    }

    /// Records that the wire of this pipe was taken: its dialer may dial again.
    pub fn lost(&mut self, now: Tick, pipe: PipeId)
        ensures names { self.new.names ≡ self.old.names }
        ensures lost { AreLost now pipe self.old.callers self.new.callers }
    {
        for caller in self.callers.iter_mut() {
            caller.lost(now, pipe);
        }
    }

    /// Dials each name that is due.
    pub fn call_all<R: Wait, L: Link, P: Proto>(
        &mut self,
        rt: &R,
        inproc: &mut Inproc,
        single: &mut Single<P, EndWire<L>>,
        role: Role,
        now: Tick,
    )
        ensures on { GoesOn single.old single.new }
        ensures links { KeepsLinks L.seen single.old single.new }
        ensures names { self.new.names ≡ self.old.names }
        ensures callers { CallsAll now single.old single.new self.old.callers self.new.callers }
        ensures dials { DialsDue now role single.old single.new inproc.old inproc.new self.old.callers self.new.callers }
    {
        'calls: for i in 0..self.callers.len() {
            if !self.callers[i].is_due(now) {
                continue;
            }
            self.call_one(rt, inproc, single, i, role, now);
        }
    }

    // Dials the name at this place of the list.
    fn call_one<R: Wait, L: Link, P: Proto>(
        &mut self,
        rt: &R,
        inproc: &mut Inproc,
        single: &mut Single<P, EndWire<L>>,
        i: usize,
        role: Role,
        now: Tick,
    )
        requires inside { i < length self.old.callers }
        ensures on { GoesOn single.old single.new }
        ensures links { KeepsLinks L.seen single.old single.new }
        ensures names { self.new.names ≡ self.old.names }
        ensures called { CallsAt i now role single.old single.new inproc.old inproc.new self.old.callers self.new.callers }
    {
        let pipe = call(rt, inproc, single, self.callers[i].name.as_slice(), role);
        self.callers[i].called(now, pipe);
    }

    /// Asks each name for the lanes that were dialed.
    pub fn accept_all<R: Wait, L: Link, P: Proto>(
        &self,
        rt: &R,
        inproc: &mut Inproc,
        single: &mut Single<P, EndWire<L>>,
    )
        ensures on { GoesOn single.old single.new }
        ensures links { KeepsLinks L.seen single.old single.new }
        ensures accepted { Accepting (16 * length self.now.names) single.old single.new inproc.old inproc.new }
        ensures brings { AllBring self.now.names inproc.old inproc.new }
    {
        'names: for i in 0..self.names.len() {
            accept_from(rt, inproc, single, self.names[i].as_slice());
        }
    }
}

// Dials the name; the lane becomes a pipe, unless it is refused.
fn call<R: Wait, L: Link, P: Proto>(
    rt: &R,
    inproc: &mut Inproc,
    single: &mut Single<P, EndWire<L>>,
    name: &[u8],
    role: Role,
) -> Option<PipeId>
    ensures on { GoesOn single.old single.new }
    ensures links { KeepsLinks L.seen single.old single.new }
    ensures came { HasNewLane result single.old single.new }
    ensures tries { TriesName name.now role result single.old single.new inproc.old inproc.new }
{
    match inproc.dial(name, role) {
        Ok(lane) => attach_lane(rt, single, lane),
        Err(_) => None,
    }
}

// Asks the name until it has no lane, or has brought as many as it may.
fn accept_from<R: Wait, L: Link, P: Proto>(
    rt: &R,
    inproc: &mut Inproc,
    single: &mut Single<P, EndWire<L>>,
    name: &[u8],
)
    ensures on { GoesOn single.old single.new }
    ensures links { KeepsLinks L.seen single.old single.new }
    ensures accepted { Accepting 16 single.old single.new inproc.old inproc.new }
    ensures brings { Brings name.now inproc.old inproc.new }
    ensures fewer { HasFewer inproc.old inproc.new }
{
    'lanes: for _ in 0..LINKS_A_TURN {
        let Some(lane) = inproc.accept(name) else {
            return;
        };
        let _ = attach_lane(rt, single, lane);
    }
}

// Makes a pipe of a lane. One that `attach` refuses is shut, which tells the other half.
fn attach_lane<R: Wait, L: Link, P: Proto>(
    rt: &R,
    single: &mut Single<P, EndWire<L>>,
    lane: LaneWire,
) -> Option<PipeId>
    requires fresh { IsNewHalf lane }
    ensures on { GoesOn single.old single.new }
    ensures links { KeepsLinks L.seen single.old single.new }
    ensures came { CameUp result single.old single.new }
{
    match single.attach(rt, EndWire::Lane(lane), LANE_PLACE, NO_LIMIT) {
        Ok(pipe) => Some(pipe),
        Err((_, wire)) => match leave_wire(rt, wire) {
            None => None,
            Some(_link) => unreachable!(),
        },
    }
}
