//! Plays texts on cores over the machines of all roles. Each machine is written out in one place, since that is costly
//! to prove.
ghost use Rattle.std.specs.Prelude.{◌≡◌, ◌<◌, ◌≤◌, IfOk};
ghost use Rattle.sp_history.specs.Options.{Fits};
ghost use Rattle.sp_proto.specs.Kinds.{Kind, Starts};

use crate::checks::{fails, is_right};
use proto_bus::Bus;
use proto_pair::{Pair, Pair1};
use proto_pipeline::{Pull, Push};
use proto_pubsub::{Publish, Subscribe};
use proto_reqrep::{Reply, Request, Respond};
use proto_survey::Survey;
use sp_base::{NoMemory, Role};
use sp_history::setting::Options;
use sp_proto::Proto;
use std::alloc::Global;
use std::process::Abort;
use std::sync::Wait;
use test_core_driver::Driver;
use test_core_plays::{CorePlay, PlayWire};

/// A core of `slots` slots over the machine, with the operations that one caller began.
pub fn driver<P: Proto + Drop, R: AllocGlobal + Abort>(
    rt: &R,
    machine: P,
    slots: u32,
) -> Driver<P, PlayWire>
    requires slots { (0 < slots) × (slots ≤ 4096) }
    requires starts { (k : Kind) × Starts P.ties machine k }
{
    match Driver::new(rt.alloc(), machine, slots) {
        Ok(driver) => driver,
        Err(_) => fails(rt),
    }
}

/// Checks that the core returns what each line says, and ends with these wires.
pub fn driver_plays<P: Proto, R: AllocGlobal + Wait + Abort>(
    rt: &R,
    driver: Driver<P, PlayWire>,
    calls: &str,
    wires: &str,
) {
    let mut play = CorePlay::new(rt.alloc(), driver);
    is_right(rt, play.wrong_line(rt, rt.alloc(), calls));
    is_right(rt, play.wrong_wire(rt, rt.alloc(), wires));
}

/// Checks that a core of `slots` slots over the machine returns what each line says, and ends with these wires.
pub fn plays<P: Proto + Drop, R: AllocGlobal + Wait + Abort>(
    rt: &R,
    machine: P,
    slots: u32,
    calls: &str,
    wires: &str,
)
    requires slots { (0 < slots) × (slots ≤ 4096) }
    requires starts { (k : Kind) × Starts P.ties machine k }
{
    driver_plays(rt, driver(rt, machine, slots), calls, wires);
}

/// A pull, raw or not.
pub fn pull<R: AllocGlobal + Abort>(rt: &R, raw: bool) -> Pull
    ensures { (k : Kind) × Starts ⟦<Pull as Proto>⟧.ties result k }
{
    match Pull::new(rt.alloc(), Options::usual(Role::Pull, 0), raw) {
        Ok(machine) => machine,
        Err(_) => fails(rt),
    }
}

/// Checks that a core over a pull, raw or not, returns what each line says, and ends with these wires.
pub fn pull_plays<R: AllocGlobal + Wait + Abort>(
    rt: &R,
    raw: bool,
    slots: u32,
    calls: &str,
    wires: &str,
)
    requires slots { (0 < slots) × (slots ≤ 4096) }
{
    plays(rt, pull(rt, raw), slots, calls, wires);
}

/// Checks the same over a push, raw or not.
pub fn push_plays<R: AllocGlobal + Wait + Abort>(
    rt: &R,
    raw: bool,
    slots: u32,
    calls: &str,
    wires: &str,
)
    requires slots { (0 < slots) × (slots ≤ 4096) }
{
    match Push::new(rt.alloc(), Options::usual(Role::Push, 0), raw) {
        Ok(machine) => plays(rt, machine, slots, calls, wires),
        Err(_) => fails(rt),
    }
}

/// A pair, raw or not.
pub fn pair<R: AllocGlobal + Abort>(rt: &R, raw: bool) -> Pair
    ensures { (k : Kind) × Starts ⟦<Pair as Proto>⟧.ties result k }
{
    match Pair::new(rt.alloc(), Options::usual(Role::Pair0, 0), raw) {
        Ok(machine) => machine,
        Err(_) => fails(rt),
    }
}

/// Checks that a core of 16 slots over a pair, raw or not, returns what each line says, and ends with these wires.
pub fn pair_plays<R: AllocGlobal + Wait + Abort>(rt: &R, raw: bool, calls: &str, wires: &str) {
    plays(rt, pair(rt, raw), 16, calls, wires);
}

/// A pair of version 1, raw or not.
pub fn pair1<R: AllocGlobal + Abort>(rt: &R, raw: bool) -> Pair
    ensures { (k : Kind) × Starts ⟦<Pair as Proto>⟧.ties result k }
{
    match Pair1::new(rt.alloc(), Options::usual(Role::Pair1, 0), raw) {
        Ok(machine) => machine,
        Err(_) => fails(rt),
    }
}

/// Checks the same over a pair of version 1, raw or not.
pub fn pair1_plays<R: AllocGlobal + Wait + Abort>(rt: &R, raw: bool, calls: &str, wires: &str) {
    plays(rt, pair1(rt, raw), 16, calls, wires);
}

/// Checks the same over a bus with these options.
pub fn bus_plays<R: AllocGlobal + Wait + Abort>(
    rt: &R,
    options: Options,
    raw: bool,
    calls: &str,
    wires: &str,
) {
    match Bus::new(rt.alloc(), options, raw) {
        Ok(machine) => plays(rt, machine, 16, calls, wires),
        Err(_) => fails(rt),
    }
}

/// Checks the same over a pub.
pub fn publisher_plays<R: AllocGlobal + Wait + Abort>(rt: &R, calls: &str, wires: &str) {
    match Publish::new(rt.alloc(), Options::usual(Role::Pub, 0), false) {
        Ok(machine) => plays(rt, machine, 16, calls, wires),
        Err(_) => fails(rt),
    }
}

/// Checks the same over a sub with these options.
pub fn sub_plays<R: AllocGlobal + Wait + Abort>(
    rt: &R,
    options: Options,
    raw: bool,
    calls: &str,
    wires: &str,
) {
    match Subscribe::new(rt.alloc(), options, raw) {
        Ok(machine) => plays(rt, machine, 16, calls, wires),
        Err(_) => fails(rt),
    }
}

/// Checks the same over a req with these options.
pub fn req_plays_with<R: AllocGlobal + Wait + Abort>(
    rt: &R,
    options: Options,
    raw: bool,
    calls: &str,
    wires: &str,
)
    requires { Fits options }
{
    match Request::new(rt.alloc(), options, raw) {
        Ok(machine) => plays(rt, machine, 16, calls, wires),
        Err(_) => fails(rt),
    }
}

/// Checks the same over a req, raw or not, whose ids begin at `dice`.
pub fn req_plays<R: AllocGlobal + Wait + Abort>(
    rt: &R,
    raw: bool,
    dice: u32,
    calls: &str,
    wires: &str,
) {
    req_plays_with(rt, Options::usual(Role::Req, dice), raw, calls, wires);
}

// A rep or, of the other role, a respondent.
fn replier(
    alloc: Global,
    is_respondent: bool,
    options: Options,
    raw: bool,
) -> Result<Reply, NoMemory>
    requires { Fits options }
    ensures { IfOk result (λ m. (k : Kind) × Starts ⟦<Reply as Proto>⟧.ties m k) }
{
    if is_respondent {
        let machine = Respond::new(alloc, options, raw)?;
        Ok(machine)
    } else {
        let machine = Reply::new(alloc, options, raw)?;
        Ok(machine)
    }
}

// Plays a text on a core over a rep, or over a respondent.
fn replier_plays<R: AllocGlobal + Wait + Abort>(
    rt: &R,
    is_respondent: bool,
    options: Options,
    raw: bool,
    calls: &str,
    wires: &str,
)
    requires { Fits options }
{
    match replier(rt.alloc(), is_respondent, options, raw) {
        Ok(machine) => plays(rt, machine, 16, calls, wires),
        Err(_) => fails(rt),
    }
}

/// Checks the same over a rep with these options.
pub fn rep_plays_with<R: AllocGlobal + Wait + Abort>(
    rt: &R,
    options: Options,
    raw: bool,
    calls: &str,
    wires: &str,
)
    requires { Fits options }
{
    replier_plays(rt, false, options, raw, calls, wires);
}

/// Checks the same over a rep, raw or not.
pub fn rep_plays<R: AllocGlobal + Wait + Abort>(rt: &R, raw: bool, calls: &str, wires: &str) {
    replier_plays(rt, false, Options::usual(Role::Rep, 0), raw, calls, wires);
}

/// Checks the same over a respondent, raw or not.
pub fn respondent_plays<R: AllocGlobal + Wait + Abort>(
    rt: &R,
    raw: bool,
    calls: &str,
    wires: &str,
) {
    replier_plays(
        rt,
        true,
        Options::usual(Role::Respondent, 0),
        raw,
        calls,
        wires,
    );
}

/// Checks the same over a surveyor with these options.
pub fn surveyor_plays_with<R: AllocGlobal + Wait + Abort>(
    rt: &R,
    options: Options,
    raw: bool,
    calls: &str,
    wires: &str,
)
    requires { Fits options }
{
    match Survey::new(rt.alloc(), options, raw) {
        Ok(machine) => plays(rt, machine, 16, calls, wires),
        Err(_) => fails(rt),
    }
}

/// Checks the same over a surveyor, raw or not.
pub fn surveyor_plays<R: AllocGlobal + Wait + Abort>(rt: &R, raw: bool, calls: &str, wires: &str) {
    surveyor_plays_with(rt, Options::usual(Role::Surveyor, 0), raw, calls, wires);
}
