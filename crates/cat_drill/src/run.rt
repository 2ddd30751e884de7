//! A drill from its beginning to its end.
ghost use Rattle.std.specs.Prelude.{◌≡◌, ◌≢◌, ◌<◌, ◌≤◌, ◌%◌, ◌^◌, ◌∷◌, ◌++◌, ℕ, [], List, None, IfOk, IfSome, length};
ghost use Rattle.std.specs.List.{sum as list_sum};
ghost use Rattle.std.specs.Option.{option_map};
ghost use Rattle.sp_base.specs.Views.{NetView, FilesView, PaceView};
ghost use Rattle.sp_msg.specs.Views.{OverLanes};
ghost use Rattle.core_state.specs.Wires.{IsUnused};
ghost use Rattle.cat_play.specs.declared.status.Status.TheVariants as status;
ghost use Rattle.cat_play.specs.Drilling.{values, lines, drill_setting, Drills, GivesAll};
ghost use Rattle.cat_play.specs.Running.{world, RunsDrill};
ghost use Rattle.cat_drill.specs.DrillWires.{IsSource};
ghost use Rattle.cat_drill.specs.Calling.{AreFourCallers};
ghost use Rattle.cat_drill.specs.Ending.{IsOut, IsFedBy, Prints, EndsDrill};
ghost use Rattle.sp_socket.specs.Passes.{new_list};

use crate::drill_wire::DrillWire;
use crate::ending::{Closed, close_all, drop_all, sum_of_all};
use crate::rounds::rounds;
use crate::source::DrillSource;
use crate::tasks::{FourCallers, Gate};
use cat_play::status::Status;
use proto_pipeline::Pull;
use sp_base::{NoMemory, PipeId, Role, Sink, Sunk};
use sp_lane::lane;
use sp_msg::Wire;
use sp_proto::Proto;
use sp_socket::{Config, Options, Pass, Record, Socket, SocketPasses, open};
use std::alloc::Global;
use std::sync::Wait;
use std::thread::Threads;

/// The capacity of the lane, in messages.
const LANE: u32 = 64;

// The receive limit of a pipe over lanes: none.
const NO_LIMIT: u32 = u32::MAX;

/// What a drill returns (nngcat(1)).
#[derive(Drop)]
pub struct DrillEnd {
    /// Why it ended: `Done`, `OutFault` or `NoMemory`.
    pub status: Status,
    /// The history of its socket; `None` where there was no memory to open one.
    pub record_: Option<Record>,
}

/// The lane of a drill, and the wire that is fed from it.
pub fn lanes(alloc: Global) -> Result<(DrillSource, DrillWire), NoMemory>
    ensures source { IfOk result (λ made. IsSource made.0) }
    ensures unused { IfOk result (λ made. IsUnused made.1) }
    ensures name { IfOk result (λ made. (out : List ℕ) × (made.1.name ≡ OverLanes out made.0.lane.name)) }
{
    let (input, output) = lane(alloc, LANE)?;
    let (silent, _) = lane(alloc, 1)?;
    let source = DrillSource {
        lane: input,
        value: 0,
        total: 0,
        count: 0,
    };
    Ok((source, DrillWire::new(silent, output)))
}

// Takes the last pass.
fn take_last<P: Proto, W: Wire>(list: &mut SocketPasses<P, W>) -> Pass<P, W>
    requires { 0 < length list.old.items }
    ensures last { list.old.items ≡ list.new.items ++ result ∷ [] }
    ensures same { (list.new.callers ≡ list.old.callers) × (list.new.lock ≡ list.old.lock) }
{
    match list.pop() {
        Some(pass) => pass,
        None => unreachable!(),
    }
}

/// All passes of a new list.
pub fn four_callers_of<P: Proto, W: Wire>(
    list: &mut SocketPasses<P, W>,
    socket: &Socket<P, W>,
) -> FourCallers<P, W>
    requires list { list.old ≡ new_list socket.now drill_setting }
    requires words { (socket.now.words.slots ≡ 256) × (socket.now.words.callers ≡ 4) }
    ensures list { IsOut socket.now list.new }
    ensures four_callers { AreFourCallers socket.now result.main result.two result.three result.four [] }
{
    let _socket = socket;
    let four = take_last(list);
    let three = take_last(list);
    let two = take_last(list);
    let main = take_last(list);
    FourCallers {
        main,
        two,
        three,
        four,
    }
}

// The three lines.
fn text_of(alloc: Global, count: u32, total: u64) -> Result<Vec<u8>, NoMemory>
    requires { total ≡ list_sum (values count) % 2 ^ 64 }
    ensures { IfOk result (λ text. text.items ≡ lines count) }
{
    let messages = count.to_string(alloc)?;
    let sum = total.to_string(alloc)?;
    let mut text = Vec::new(alloc);
    text.extend_from_slice(b"given ")?;
    text.extend_from_slice(messages.as_bytes())?;
    text.extend_from_slice(b"\nsum ")?;
    text.extend_from_slice(sum.as_bytes())?;
    text.extend_from_slice(b"\nopen 0")?;
    text.extend_from_slice(b"\n")?;
    Ok(text)
}

// Prints the three lines.
fn print<S: Sink>(alloc: Global, out: &mut S, count: u32, total: u64) -> Status
    requires { total ≡ list_sum (values count) % 2 ^ 64 }
    ensures { Prints result count (S.seen out.old) (S.seen out.new) }
{
    let Ok(text) = text_of(alloc, count, total) else {
        return Status::NoMemory;
    };
    match out.put(text.as_slice()) {
        Sunk::Done => Status::Done,
        Sunk::Failed => Status::OutFault,
    }
}

fn unopened() -> DrillEnd
    ensures { (result.status ≡ status.NoMemory) × (result.record_ ≡ None) }
{
    DrillEnd {
        status: Status::NoMemory,
        record_: None,
    }
}

// How the drill ended, by the sum of the values where all were given.
fn conclude<S: Sink>(
    alloc: Global,
    out: &mut S,
    count: u32,
    record_: Record,
    total: Option<u64>,
) -> DrillEnd
    requires drills { Drills record_.turns }
    requires all { IfSome total (λ n. GivesAll count record_.turns × (n ≡ list_sum (values count) % 2 ^ 64)) }
    ensures ends { EndsDrill result.status count (option_map (λ r. r.turns) result.record_) (S.seen out.old) (S.seen out.new) }
    ensures kept { result.record_ ≢ None }
{
    match total {
        None => DrillEnd {
            status: Status::NoMemory,
            record_: Some(record_),
        },
        Some(total) => {
            let status = print(alloc, out, count, total);
            DrillEnd {
                status,
                record_: Some(record_),
            }
        }
    }
}

// A drill's socket, with all its passes in the list, and both ends of its lane.
struct OpenedDrill {
    socket: Socket<Pull, DrillWire>,
    list: SocketPasses<Pull, DrillWire>,
    source: DrillSource,
    drill_wire: DrillWire,
}

// The same, once its pipe is up and its callers have their passes.
struct JoinedDrill {
    socket: Socket<Pull, DrillWire>,
    list: SocketPasses<Pull, DrillWire>,
    four_callers: FourCallers<Pull, DrillWire>,
    source: DrillSource,
    pipe: PipeId,
}

// Runs the drill on a socket whose pipe is up.
fn play<R: AllocGlobal + Wait + Threads + Sync, G: Gate + Sync, S: Sink>(
    rt: &R,
    joined: JoinedDrill,
    count: u32,
    gate: &G,
    out: &mut S,
) -> DrillEnd
    requires count { count ≤ 1000000 }
    requires list { IsOut joined.socket joined.list }
    requires four_callers { AreFourCallers joined.socket joined.four_callers.main joined.four_callers.two joined.four_callers.three joined.four_callers.four [] }
    requires source { IsSource joined.source }
    requires fed { IsFedBy joined.pipe joined.source.lane.name joined.four_callers.main.seen }
    ensures ends { EndsDrill result.status count (option_map (λ r. r.turns) result.record_) (S.seen out.old) (S.seen out.new) }
    ensures kept { result.record_ ≢ None }
{
    let JoinedDrill {
        socket,
        list,
        four_callers,
        mut source,
        pipe,
    } = joined;
    let alloc = rt.alloc();
    let four_callers = rounds(rt, alloc, &socket, gate, four_callers, &mut source, count);
    let Closed {
        totals,
        wires,
        record_,
    } = close_all(rt, socket, list, four_callers);
    let total = sum_of_all(rt, wires, pipe, source, totals, &record_, count);
    conclude(alloc, out, count, record_, total)
}

// Runs the drill on a socket that was opened.
fn drill_on<R: AllocGlobal + Wait + Threads + Sync, G: Gate + Sync, S: Sink>(
    rt: &R,
    opened: OpenedDrill,
    count: u32,
    gate: &G,
    out: &mut S,
) -> DrillEnd
    requires count { count ≤ 1000000 }
    requires list { opened.list ≡ new_list opened.socket drill_setting }
    requires words { (opened.socket.words.slots ≡ 256) × (opened.socket.words.callers ≡ 4) }
    requires source { IsSource opened.source }
    requires unused { IsUnused opened.drill_wire }
    requires name { (x : List ℕ) × (opened.drill_wire.name ≡ OverLanes x opened.source.lane.name) }
    ensures ends { EndsDrill result.status count (option_map (λ r. r.turns) result.record_) (S.seen out.old) (S.seen out.new) }
    ensures kept { result.record_ ≢ None }
{
    let OpenedDrill {
        socket,
        mut list,
        source,
        drill_wire,
    } = opened;
    let mut four_callers = four_callers_of(&mut list, &socket);
    match socket.attach(rt, &mut four_callers.main, drill_wire, 0, NO_LIMIT) {
        Ok(pipe) => {
            let joined = JoinedDrill {
                socket,
                list,
                four_callers,
                source,
                pipe,
            };
            play(rt, joined, count, gate, out)
        }
        Err(_) => {
            let Closed {
                totals: _,
                wires,
                record_,
            } = close_all(rt, socket, list, four_callers);
            drop_all(rt, wires);
            conclude(rt.alloc(), out, count, record_, None)
        }
    }
}

/// Sends `count` messages, 1 to 1,000,000, through a lane of 64 to a pull socket of 256 slots and 4 callers, round by
/// round: four tasks in threads of their own serve, cancel and let expire what one caller has begun. Prints how many
/// were given, the sum of their values, and how many operations have no end. Out of memory ends it early.
pub fn drill<R: AllocGlobal + Wait + Threads + Sync, G: Gate + Sync, S: Sink>(
    rt: &R,
    count: u32,
    gate: &G,
    out: &mut S,
) -> DrillEnd
    requires { (1 ≤ count) × (count ≤ 1000000) }
    ensures { (net : NetView) (files : FilesView) (pace : PaceView) → RunsDrill result.status count (option_map (λ r. r.turns) result.record_) (world net files pace (S.seen out.old)) (world net files pace (S.seen out.new)) }
{
    let alloc = rt.alloc();
    let Ok((source, drill_wire)) = lanes(alloc) else {
        return unopened();
    };
    let Ok(machine) = Pull::new(alloc, Options::usual(Role::Pull, 0), false) else {
        return unopened();
    };
    let config = Config {
        slots: 256,
        callers: 4,
    };
    match open(alloc, machine, config) {
        Err(_) => unopened(),
        Ok((socket, list)) => {
            let opened = OpenedDrill {
                socket,
                list,
                source,
                drill_wire,
            };
            drill_on(rt, opened, count, gate, out)
        }
    }
}
