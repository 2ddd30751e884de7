//! Three threads that write into one register.
ghost use Rattle.std.specs.Prelude.{◌≡◌, [], IfOk};
ghost use Rattle.std.specs.Vec.{vec_capacity};
ghost use Rattle.ex_turn_lock.specs.Logs.{IsLogOfThree};

use crate::core_state::{CoreState, act_all};
use crate::endings::end_with_three;
use crate::register::Register;
use crate::writes::Write;
use atomic_table::{Table, TableRule};
use std::alloc::{AllocError, Global};
use std::sync::Wait;
use std::thread::Threads;
use turn_lock::TurnLock;

// The table that the label names has no rule.
struct NoRule;

impl TableRule<u8, (), ()> for NoRule {
    ghost holds = { λ _ _. Unit {0} };

    ghost first = { λ _. tt };
}

impl CoreState<Register> {
    fn into_log(self) -> Vec<Write>
        ensures { result ≡ self.machine.log }
    {
        let CoreState { machine, words } = self;
        drop(words);
        machine.into_log()
    }
}

// Takes the turns of three callers, and returns all that they wrote.
fn take_turns<R: Threads + Wait + Sync>(
    rt: &R,
    alloc: Global,
    core: CoreState<Register>,
    times: u64,
) -> Result<Vec<Write>, AllocError>
    requires { (core.machine.value ≡ 0) × (core.machine.log.items ≡ []) }
    ensures { IfOk result (λ log. IsLogOfThree times (vec_capacity core.machine.log) log.items) }
{
    let (lock, mut list) = match TurnLock::new(alloc, core, 3) {
        Ok(made) => made,
        Err((failed, core)) => {
            let _ = core.into_log();
            return Err(failed);
        }
    };
    let Some(third) = list.pop() else {
        unreachable!()
    };
    let Some(second) = list.pop() else {
        unreachable!()
    };
    let Some(first) = list.pop() else {
        unreachable!()
    };
    let (first, second, third) = act_all(rt, &lock, first, second, third, times);
    let (core, _pass) = end_with_three(rt, lock, list, first, second, third);
    Ok(core.into_log())
}

/// Has three callers write 0, 1, 2 and so on, each `times` times, into a register with room for `room` writes. Returns
/// all that was written, in order.
pub fn write_in_turns<R: Threads + Wait + Sync>(
    rt: &R,
    alloc: Global,
    times: u64,
    room: usize,
) -> Result<Vec<Write>, AllocError>
    ensures { IfOk result (λ log. IsLogOfThree times room log.items) }
{
    let machine = Register::new(alloc, room)?;
    let made = Table::<u8, (), (), NoRule, Global>::of_words(alloc, &[0], &());
    let (table, words) = match made {
        Ok(made) => made,
        Err(failed) => {
            let _ = machine.into_log();
            return Err(failed);
        }
    };
    let log = take_turns(rt, alloc, CoreState { machine, words }, times);
    table.close().free();
    log
}
