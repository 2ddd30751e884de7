//! The calls without a turn: a caller ends an operation, whoever began it, or looks up its state. They never wait.
ghost use Rattle.std.specs.Prelude.{◌<◌};
ghost use Rattle.aio_word.specs.declared.phase.Phase.TheVariants as phase;
ghost use Rattle.sp_socket.specs.Passes.{IsOf};
ghost use Rattle.sp_socket.specs.Open.{TakesNoTurn};
ghost use Rattle.sp_socket.specs.Expiring.{RacedAs, PolledAs, IsKnownPass, wins_and_reads};

use crate::pass::Pass;
use crate::socket::Socket;
use aio_word::{Polled, Raced};
use sp_base::OpName;
use sp_msg::Wire;
use sp_proto::Proto;

impl<P: Proto, W: Wire> Socket<P, W> {
    /// Cancels the operation (nng_aio_cancel(3)), unless it has ended. One exchange on its word, and no turn: it
    /// doesn't wait, and takes no memory. What the operation would have got stays for the next one.
    pub fn cancel(&self, pass: &mut Pass<P, W>, op: OpName) -> Raced
        requires own { IsOf self.now pass.old }
        ensures still { TakesNoTurn pass.old pass.new }
        ensures raced { RacedAs phase.Cancelled result pass.old.number self.now.words.slots op (wins_and_reads pass.old) (wins_and_reads pass.new) }
        ensures rule { op.slot < self.now.words.slots → IsKnownPass self.now.words.slots pass.new }
    {
        let raced = self.words.cancel(&mut pass.parts.seat, op);
        self.wake_where(matches!(raced, Raced::Won));
        raced
    }

    /// Returns the state of the operation. One look at its word, and no turn: it doesn't wait, and takes no memory.
    pub fn poll(&self, pass: &mut Pass<P, W>, op: OpName) -> Polled
        requires own { IsOf self.now pass.old }
        ensures still { TakesNoTurn pass.old pass.new }
        ensures polled { PolledAs result pass.old.number self.now.words.slots op (wins_and_reads pass.old) (wins_and_reads pass.new) }
        ensures rule { op.slot < self.now.words.slots → IsKnownPass self.now.words.slots pass.new }
    {
        self.words.poll(&mut pass.parts.seat, op)
    }
}
