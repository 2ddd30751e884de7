//! The topics of a sub, which are added before the first round.
ghost use Rattle.std.specs.Prelude.{◌≡◌, ◌≤◌, [], length, IsTrue};
ghost use Rattle.sp_history.specs.Legal.{has_topic};
ghost use Rattle.sp_history.specs.Past.{past_of, topics};
ghost use Rattle.sp_history.specs.Setting.{has_topics};
ghost use Rattle.cat_rounds.specs.PlayerSteps.{Sinks};
ghost use Rattle.cat_rounds.specs.RunRounds.{RunIsOpen, RunGoesOn, SameRun, WentOrOver, PacedTo, PrintsRun, PrintsTo, IsDryAt, is_failed_run};
ghost use Rattle.cat_rounds.specs.Late.{IsLateBy};
ghost use Rattle.cat_rounds.specs.SubscribedTopics.{CanSubscribe, IsBefore, Prepares, IsOnFor, AreOnFor};

use crate::player::{CTX, Player};
use crate::run_parts::RunParts;
use cat_play::status::Status;
use sp_base::{Link, Net, NoMemory, Pace, Sink};
use sp_msg::Wire;
use sp_proto::Proto;
use sp_socket::{Single, TopicError};
use std::sync::Wait;

// Adds one topic of the play.
fn subscribe<R: Wait, P: Proto, W: Wire>(
    rt: &R,
    single: &mut Single<P, W>,
    _player: &Player,
    topic: &[u8],
) -> Result<(), NoMemory>
    requires before { IsBefore single.old _player.now }
    requires planned { IsTrue (has_topic _player.now.script.topics topic.now) }
    requires can { IsTrue (has_topics single.old.setting) × (length topic.now ≤ 1024) }
    ensures prepares { Prepares single.old single.new _player.now }
    ensures on { IsOnFor result topic.now single.new }
{
    match single.subscribe(rt, CTX, topic) {
        Ok(()) => Ok(()),
        Err(TopicError::NoMemory) => Err(NoMemory),
        Err(TopicError::Closed) => unreachable!(),
        Err(TopicError::NotSupported) => unreachable!(),
        Err(TopicError::NoEntry) => unreachable!(),
        Err(TopicError::TooLong) => unreachable!(),
    }
}

// Adds all topics of the play.
fn subscribe_all<R: Wait, P: Proto, W: Wire>(
    rt: &R,
    single: &mut Single<P, W>,
    player: &Player,
) -> Result<(), NoMemory>
    requires before { IsBefore single.old player.now }
    requires can { CanSubscribe single.old.setting player.now.script.topics }
    ensures prepares { Prepares single.old single.new player.now }
    ensures on { AreOnFor result player.now.script.topics single.new }
{
    for topic in player.script.topics.as_slice() {
        subscribe(rt, single, player, topic.as_slice())?;
    }
    Ok(())
}

impl<R: Wait, P: Proto, L: Link> RunParts<'_, R, P, L> {
    // Adds the topics, and takes the rounds.
    pub(crate) fn begin<N: Net<L = L>, Pa: Pace, S: Sink>(
        &mut self,
        net: &mut N,
        pace: &mut Pa,
        out: &mut S,
    ) -> Status
        requires stands { RunIsOpen L.seen self.old (N.seen net.old) }
        requires fresh { self.old.single.seen ≡ [] }
        requires can { CanSubscribe self.old.single.setting self.old.player.script.topics }
        ensures stands { RunGoesOn L.seen self.old self.new (N.seen net.old) (N.seen net.new) }
        ensures dry { IsDryAt result self.new.single }
        ensures went { WentOrOver result self.new.single self.new.player (S.seen out.old) (S.seen out.new) (Pa.seen pace.new) }
        ensures pace { PacedTo result (Pa.seen pace.old) (Pa.seen pace.new) (past_of self.new.single.seen) }
        ensures printed { PrintsRun (PrintsTo result) (S.seen out.old) (S.seen out.new) self.old self.new }
        ensures sinks { Sinks (is_failed_run result) (S.seen out.old) (S.seen out.new) }
        ensures same { SameRun self.old self.new }
        ensures late { IsLateBy 1 self.new.single self.new.player }
    {
        match subscribe_all(self.rt, &mut self.single, &self.player) {
            Ok(()) => self.go_round(net, pace, out),
            Err(_) => Status::NoMemory,
        }
    }
}
