//! The core in its box, and a lock over it.
ghost use Rattle.std.specs.Prelude.{◌≡◌, ◌≤◌, [], Some, IfOk, IfErr};
ghost use Rattle.turn_lock.specs.Passes.{new_list};
ghost use Rattle.sp_core.specs.Standing.{StandsFor};
ghost use Rattle.sp_core.specs.CallSays.{core_label};

use sp_core::{Core, CoreLabel};
use sp_history::entry::Entry;
use sp_msg::Wire;
use sp_proto::Proto;
use std::alloc::Global;
use turn_lock::{PassList, Stands, TurnLock};

/// A core in a box, as the lock hands it from turn to turn: so a turn moves one pointer, and not the whole core.
pub struct BoxedCore<P, W> {
    pub(crate) core: Box<Core<P, W>>,
}

// It stands for what its core stands for.
impl<P: Proto, W: Wire> Stands for BoxedCore<P, W> {
    ghost use Rattle.sp_core.specs.Standing.{StandsFor};
    ghost use Rattle.sp_core.specs.CallSays.{core_label};

    type Entry = Entry;

    type Label = CoreLabel;

    ghost stands = { λ b h. StandsFor P.ties P.room W.shown b.core.value h };

    ghost label = { λ b. core_label P.kind b.core.value };
}

impl<P, W> BoxedCore<P, W> {
    pub(crate) fn into_core(self) -> Core<P, W>
        ensures { result ≡ self.core.value }
    {
        let BoxedCore { core } = self;
        Box::into_inner(core)
    }
}

// A lock with the core in its box, and its turn passes. When out of memory the core is returned.
pub(crate) fn locked<P: Proto, W: Wire>(
    alloc: Global,
    core: Core<P, W>,
    callers: u32,
) -> Result<(TurnLock<BoxedCore<P, W>>, PassList<BoxedCore<P, W>>), Core<P, W>>
    requires callers { (1 ≤ callers) × (callers ≤ 64) }
    requires stands { StandsFor P.ties P.room W.shown core [] }
    ensures ok { IfOk result (λ made. made.1 ≡ new_list made.0 (Some (core_label P.kind core)) callers) }
    ensures err { IfErr result (λ back. back ≡ core) }
{
    match Box::new(alloc, core) {
        Err(refused) => Err(refused.value),
        Ok(core) => match TurnLock::new(alloc, BoxedCore { core }, callers) {
            Err((_, held)) => Err(held.into_core()),
            Ok(made) => Ok(made),
        },
    }
}
