//! Machines, wires and cores that can be made. Plays are generic over them, since proofs about written-out types are
//! costly.
ghost use Rattle.std.specs.Prelude.{◌<◌, ◌≤◌, IfOk};
ghost use Rattle.sp_proto.specs.Kinds.{Kind, Starts};
ghost use Rattle.core_state.specs.Wires.{IsUnused};

use proto_pipeline::{Pull, Push};
use proto_reqrep::{Reply, Request};
use proto_survey::Survey;
use sp_base::{NoMemory, Role};
use sp_fakes::{MemWire, WireStep};
use sp_history::setting::Options;
use sp_msg::Wire;
use sp_proto::Proto;
use std::alloc::Global;
use test_core_driver::Driver;

/// A machine that can be made.
pub trait Made: Proto {
    /// A new machine, raw or cooked.
    fn made(alloc: Global, raw: bool) -> Result<Self, NoMemory>
        ensures { IfOk result (λ m. (k : Kind) × Starts Self.ties m k) };
}

impl Made for Push {
    fn made(alloc: Global, raw: bool) -> Result<Push, NoMemory> {
        let machine = Push::new(alloc, Options::usual(Role::Push, 0), raw)?;
        Ok(machine)
    }
}

impl Made for Pull {
    fn made(alloc: Global, raw: bool) -> Result<Pull, NoMemory> {
        let machine = Pull::new(alloc, Options::usual(Role::Pull, 0), raw)?;
        Ok(machine)
    }
}

impl Made for Request {
    fn made(alloc: Global, raw: bool) -> Result<Request, NoMemory> {
        let machine = Request::new(alloc, Options::usual(Role::Req, 0), raw)?;
        Ok(machine)
    }
}

impl Made for Reply {
    fn made(alloc: Global, raw: bool) -> Result<Reply, NoMemory> {
        let machine = Reply::new(alloc, Options::usual(Role::Rep, 0), raw)?;
        Ok(machine)
    }
}

// It keeps 8,192 responses.
impl Made for Survey {
    fn made(alloc: Global, raw: bool) -> Result<Survey, NoMemory> {
        let mut options = Options::usual(Role::Surveyor, 0);
        options.queue = 8_192;
        let machine = Survey::new(alloc, options, raw)?;
        Ok(machine)
    }
}

/// A wire that can be made of a script.
pub trait Scripted: Wire + Drop {
    /// A wire that gives the script, and takes `room` messages.
    fn scripted(alloc: Global, script: Vec<WireStep>, room: u64) -> Self
        ensures { IsUnused (Self.shown result) };
}

impl Scripted for MemWire {
    fn scripted(alloc: Global, script: Vec<WireStep>, room: u64) -> MemWire {
        MemWire::new(alloc, script, room, Vec::new(alloc))
    }
}

/// A core of `slots` slots, 1 to 4,096, with no pipe.
pub fn driver_of<P: Made, W: Wire>(
    alloc: Global,
    raw: bool,
    slots: u32,
) -> Result<Driver<P, W>, NoMemory> {
    if slots < 1 {
        return Err(NoMemory);
    }
    if slots > 4_096 {
        return Err(NoMemory);
    }
    Driver::new(alloc, P::made(alloc, raw)?, slots)
}
