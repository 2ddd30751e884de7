//! Calls that wait: they go round until what they have begun has ended.
ghost use Rattle.std.specs.Prelude.{◌≡◌, Some};
ghost use Rattle.sp_core.specs.Collecting.{IsOpen};
ghost use Rattle.sp_node.specs.Nodes.{GoesOn};
ghost use Rattle.sp_node.specs.Waits.{WaitsFor, Receives, Sends, deadline_of};

use crate::error::WaitError;
use crate::node::Node;
use sp_base::{Ctx, Link, Net, Pace, Tick};
use sp_msg::Message;
use sp_proto::Proto;
use sp_socket::{Collected, Op, Outcome};
use std::sync::Wait;

// The context of the calls that name none.
const CTX: Ctx = Ctx(0);

impl<R: Wait, P: Proto, L: Link, N: Net<L = L>, C: Pace> Node<'_, R, P, L, N, C> {
    /// Waits for a message, for `time` milliseconds or without end (nng_recvmsg(3)). The time counts from the clock as it
    /// is when the call begins. Fails where nothing could begin (`Begin`), or by what ended it: its time (`TimedOut`), a
    /// node that is closed (`Closed`), or what the protocol names.
    pub fn recv(&mut self, time: Option<u64>) -> Result<Message, WaitError>
        ensures received { Receives result time self.old self.new }
        ensures goes_on { GoesOn self.old self.new }
    {
        let deadline = self.deadline(time);
        match self.begin_recv(CTX, deadline) {
            Err(why) => Err(WaitError::Begin(why)),
            Ok(op) => match self.wait(op) {
                Outcome::Received(m) => Ok(m),
                Outcome::Gone {
                    cause,
                    by: _,
                    back: _,
                } => Err(WaitError::Gone(cause)),
                Outcome::Sent => unreachable!(),
            },
        }
    }

    /// Sends a message, and waits until a pipe has it, for `time` milliseconds or without end (nng_sendmsg(3)). What is on a
    /// pipe is written as later calls go round, `flush` and `finish` among them. Fails as `recv` does; a message that
    /// isn't sent is let go.
    pub fn send(&mut self, m: Message, time: Option<u64>) -> Result<(), WaitError>
        ensures sent { Sends result m time self.old self.new }
        ensures goes_on { GoesOn self.old self.new }
    {
        let deadline = self.deadline(time);
        match self.begin_send(CTX, m, deadline) {
            Err((why, _)) => Err(WaitError::Begin(why)),
            Ok(op) => match self.wait(op) {
                Outcome::Sent => Ok(()),
                Outcome::Gone {
                    cause,
                    by: _,
                    back: _,
                } => Err(WaitError::Gone(cause)),
                Outcome::Received(_) => unreachable!(),
            },
        }
    }

    /// Waits until the operation has ended, and collects it (nng_aio_wait(3)). The operation is one that was begun here
    /// and not collected.
    pub fn wait(&mut self, op: Op) -> Outcome
        requires open_ { IsOpen 1 op self.old.single.seen }
        ensures waited { WaitsFor result op self.old.single self.new.single }
    {
        let mut op = op;
        for _ in self.rt.forever() {
            match self.collect(op) {
                Collected::Ended(outcome) => return outcome,
                Collected::NotYet(back) => op = back,
            }
            self.go();
        }
        unreachable!()
    }

    // So many milliseconds from now on, by a clock that is asked anew.
    fn deadline(&mut self, time: Option<u64>) -> Option<Tick>
        ensures goes_on { GoesOn self.old self.new }
        ensures deadline { result ≡ deadline_of time self.new.single }
    {
        match time {
            None => None,
            Some(time) => {
                self.turn();
                Some(self.after(time))
            }
        }
    }

    // So many milliseconds after the last tick.
    fn after(&self, time: u64) -> Tick
        ensures { Some result ≡ deadline_of (Some time) self.now.single }
    {
        Tick(self.latest.0.saturating_add(time))
    }
}
