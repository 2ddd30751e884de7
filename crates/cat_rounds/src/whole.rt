//! A run from its beginning to its end.
ghost use Rattle.std.specs.Prelude.{◌≡◌, [], Option, None, IfOk};
ghost use Rattle.std.specs.Option.{option_map};
ghost use Rattle.sp_base.specs.Views.{FilesView};
ghost use Rattle.sp_links.specs.Origins.{run_ways};
ghost use Rattle.cat_play.specs.Running.{world, RunsPlan, EndsPlan};
ghost use Rattle.cat_rounds.specs.PlayerSteps.{SameScript};
ghost use Rattle.cat_rounds.specs.RunRounds.{PrintsRun, PrintsTo, IsDryAt};
ghost use Rattle.cat_rounds.specs.SubscribedTopics.{CanSubscribe};
ghost use Rattle.cat_rounds.specs.Late.{IsLateBy};
ghost use Rattle.cat_rounds.specs.Built.{MayFollow, FollowsOn, RunIsOver, RunFinishes, IsBuilt, IsMachineOf, ListensOnce, AreBuilt, IsBuiltEnd, IsBody, Follows, AddsEnd, origins_of};

use crate::player::{Player, Script};
use crate::run_parts::RunParts;
use cat_play::status::Status;
use cat_text::{CatPlan, Data, End};
use sp_base::{Bytes, Link, Net, NoMemory, Pace, Sink};
use sp_ends::{EndError, Ends};
use sp_lane::Inproc;
use sp_proto::Proto;
use sp_socket::{Record, Single, SingleEnd};
use std::sync::Wait;

/// The maximum number of operations of a run's socket.
const SLOTS: u32 = 16;

/// What a run returns (nngcat(1)).
#[derive(Drop)]
pub struct CatEnd {
    /// Why it ended.
    pub status: Status,
    /// The history of its socket; `None` where no socket was opened.
    pub record_: Option<Record>,
}

// The result where no socket was opened.
fn unopened(status: Status) -> CatEnd
    ensures { (result.status ≡ status) × (result.record_ ≡ None) }
{
    CatEnd {
        status,
        record_: None,
    }
}

/// A plan to be played, with the runtime that its run waits with. `dice` is the number that its socket is made from;
/// the keys of WebSocket openings are made from it too (nngcat(1)).
pub struct PlannedRun<'r, R> {
    /// The runtime.
    pub rt: &'r R,
    /// The plan, with its data.
    pub plan: CatPlan,
    /// The random number.
    pub dice: u32,
}

/// Plays the plan on a socket over this machine, which has the plan's role and is in its initial state: opens the
/// socket, listens and dials in the order of the plan, adds its topics, takes the rounds, closes, and gives every link
/// back. Names within the process belong only to this run.
/// Whatever it returns, the history of the socket has all that was done.
pub fn play<R: AllocGlobal + Wait, N: Net, Pa: Pace, S: Sink, P: Proto + Drop>(
    planned: PlannedRun<'_, R>,
    machine: Result<P, NoMemory>,
    net: &mut N,
    pace: &mut Pa,
    out: &mut S,
) -> CatEnd
    requires starts { IfOk machine (IsMachineOf P.ties planned.plan.role planned.dice) }
    requires built { IsBuilt planned.plan }
    ensures runs { (files : FilesView) →
        RunsPlan (run_ways planned.entry.plan.role (origins_of planned.entry.plan planned.entry.dice)) result.status planned.entry.plan planned.entry.dice (option_map (λ r. r.turns) result.record_) (world (N.seen net.old) files (Pa.seen pace.old) (S.seen out.old)) (world (N.seen net.new) files (Pa.seen pace.new) (S.seen out.new)) }
    ensures once { ListensOnce result.status planned.entry.plan.ends }
    ensures in_time { (files : FilesView) →
        EndsPlan result.status planned.entry.plan planned.entry.dice (option_map (λ r. r.turns) result.record_) (world (N.seen net.old) files (Pa.seen pace.old) (S.seen out.old)) (world (N.seen net.new) files (Pa.seen pace.new) (S.seen out.new)) }
{
    let PlannedRun { rt, plan, dice } = planned;
    let Ok(machine) = machine else {
        return unopened(Status::NoMemory);
    };
    let alloc = rt.alloc();
    let CatPlan {
        role,
        ends,
        data_,
        topics,
        count,
        interval,
        recv_timeout,
        send_timeout,
        recv_max,
        format,
    } = plan;
    let script = Script {
        role,
        body: body_of(data_),
        topics,
        count,
        interval,
        recv_timeout,
        send_timeout,
        format,
    };
    let Ok(links) = Ends::new(alloc, role, dice) else {
        return unopened(Status::NoMemory);
    };
    let Ok(single) = Single::open(alloc, machine, SLOTS) else {
        links.destroy_empty();
        return unopened(Status::NoMemory);
    };
    let mut parts = RunParts {
        rt,
        single,
        ends: links,
        player: Player::new(alloc, script),
        inproc: Inproc::new(alloc),
        still: None,
    };
    let status = parts.follow(ends.as_slice(), recv_max, net, pace, out);
    parts.finish(net, status)
}

// The data of the plan, where it isn't a file's.
fn body_of(data_: Data) -> Option<Bytes>
    ensures { IsBody data_ result }
{
    match data_ {
        Data::None => None,
        Data::Text(text) => Some(text),
        Data::File(_) => None,
    }
}

impl<R: Wait, P: Proto, L: Link> RunParts<'_, R, P, L> {
    // Listens and dials as planned, with this receive limit, adds the topics, and takes the rounds.
    fn follow<N: Net<L = L>, Pa: Pace, S: Sink>(
        &mut self,
        ends: &[End],
        max: u32,
        net: &mut N,
        pace: &mut Pa,
        out: &mut S,
    ) -> Status
        requires stands { MayFollow L.seen ends.now max self.old (N.seen net.old) }
        requires fresh { self.old.single.seen ≡ [] }
        requires no_ends { (self.old.ends.links.listeners ≡ []) × (self.old.ends.links.dialers ≡ []) }
        requires no_names { self.old.inproc ≡ [] }
        requires built { AreBuilt ends.now }
        requires topics { CanSubscribe self.old.single.setting self.old.player.script.topics }
        ensures stands { FollowsOn L.seen ends.now max self.old self.new (N.seen net.old) (N.seen net.new) }
        ensures dry { IsDryAt result self.new.single }
        ensures followed { Follows result ends.now self.new.single self.new.ends.links self.new.player (N.seen net.old) (N.seen net.new) (Pa.seen pace.old) (Pa.seen pace.new) (S.seen out.old) (S.seen out.new) }
        ensures printed { PrintsRun (PrintsTo result) (S.seen out.old) (S.seen out.new) self.old self.new }
        ensures same { SameScript self.old.player self.new.player × (self.new.single.setting ≡ self.old.single.setting) }
        ensures late { IsLateBy 1 self.new.single self.new.player }
    {
        for end in ends {
            match self.add(net, end, max) {
                Ok(()) => (),
                Err(EndError::Fault) => return Status::NetFault,
                Err(EndError::InUse) => return Status::NetFault,
                Err(EndError::NoMemory) => return Status::NoMemory,
            }
        }
        self.begin(net, pace, out)
    }

    // Adds one end of the plan, with this receive limit.
    fn add<N: Net<L = L>>(&mut self, net: &mut N, end: &End, max: u32) -> Result<(), EndError>
        requires built { IsBuiltEnd end.now }
        ensures added { AddsEnd result end.now max self.old.ends self.new.ends (N.seen net.old) (N.seen net.new) self.old.inproc self.new.inproc }
        ensures same { self.new ≡ record self.old { ends = self.new.ends; inproc = self.new.inproc } }
    {
        match end {
            End::Listen(addr) => self.ends.listen(net, &mut self.inproc, addr, max),
            End::Dial(addr) => self.ends.dial(addr, max),
        }
    }

    // Closes the socket, and gives everything back.
    fn finish<N: Net<L = L>>(self, net: &mut N, status: Status) -> CatEnd
        requires stands { RunIsOver L.seen self (N.seen net.old) }
        ensures status { result.status ≡ status }
        ensures finished { RunFinishes L.seen self.entry (N.seen net.old) (N.seen net.new) (option_map (λ r. r.turns) result.record_) }
    {
        let RunParts {
            rt,
            mut single,
            ends,
            player,
            inproc: _,
            still: _,
        } = self;
        let _ = single.close(rt);
        player.finish(rt, &mut single);
        let SingleEnd { wires, record_ } = single.finish(rt);
        ends.give_all_back(rt, net, wires);
        CatEnd {
            status,
            record_: Some(record_),
        }
    }
}
