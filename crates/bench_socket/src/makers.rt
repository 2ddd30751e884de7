//! Machines and wires that can be made. Runs are generic over them, since proofs about written-out types are costly.
ghost use Rattle.std.specs.Prelude.{IfOk};
ghost use Rattle.sp_proto.specs.Kinds.{Kind, Starts};
ghost use Rattle.core_state.specs.Wires.{IsUnused};

use proto_pipeline::Pull;
use sp_base::{Bytes, NoMemory, Role};
use sp_fakes::{MemWire, WireStep};
use sp_msg::Wire;
use sp_proto::Proto;
use sp_socket::Options;
use std::alloc::Global;

/// A machine that can be made.
pub trait SocketMachine: Proto {
    /// A new machine.
    fn made(alloc: Global) -> Result<Self, NoMemory>
        ensures { IfOk result (λ m. (k : Kind) × Starts Self.ties m k) };
}

impl SocketMachine for Pull {
    fn made(alloc: Global) -> Result<Pull, NoMemory> {
        let machine = Pull::new(alloc, Options::usual(Role::Pull, 0), false)?;
        Ok(machine)
    }
}

/// A wire that can be made of a script.
pub trait ScriptedWire: Wire + Drop {
    /// A wire that gives the script.
    fn scripted(alloc: Global, script: Vec<WireStep>) -> Self
        ensures { IsUnused (Self.shown result) };
}

impl ScriptedWire for MemWire {
    fn scripted(alloc: Global, script: Vec<WireStep>) -> MemWire {
        MemWire::new(alloc, script, 0, Vec::new(alloc))
    }
}

/// A script of `frames` frames of one byte.
pub fn script(alloc: Global, frames: u32) -> Result<Vec<WireStep>, NoMemory> {
    let mut steps = Vec::new(alloc);
    for _ in 0..frames {
        steps.push(WireStep::Bytes(Bytes::from_slice(alloc, b"x")?))?;
    }
    Ok(steps)
}
