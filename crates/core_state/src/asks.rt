//! Questions to a machine: what its kind of socket has, whether a context is open, and a copy of a send.
ghost use Rattle.std.specs.Prelude.{◌≡◌, ◌+◌, ◌<◌, ◌≤◌, true, false, IsTrue};
ghost use Rattle.sp_history.specs.Lists.{has};
ghost use Rattle.sp_history.specs.Moments.{Moment, Lawful, past};
ghost use Rattle.sp_history.specs.Past.{ctxs};
ghost use Rattle.sp_history.specs.Setting.{has_contexts, has_topics, is_pair};
ghost use Rattle.core_state.specs.PartSteps.{CopiesFor};

use sp_base::{Ctx, OpName, PipeId, Role};
use sp_msg::Message;
use sp_proto::{CheckError, Proto, Verb};

/// Returns whether contexts can be opened.
pub fn has_ctxs<P: Proto>(proto: &P) -> bool
    ensures { (t : Moment) → P.ties proto.now t → result ≡ has_contexts t.z }
{
    proto.role().contexts() && !proto.raw()
}

/// Returns whether contexts have topics.
pub fn has_tops<P: Proto>(proto: &P) -> bool
    ensures { (t : Moment) → P.ties proto.now t → result ≡ has_topics t.z }
{
    matches!(proto.role(), Role::Sub) && !proto.raw()
}

/// Returns whether the role has one pipe at a time, and of the `count` pipes some are up.
pub fn has_its_one<P: Proto>(proto: &P, count: usize) -> bool
    ensures one { result ≡ true → (t : Moment) → P.ties proto.now t → IsTrue (is_pair t.z.role) × (0 < count) }
    ensures none { result ≡ false → (t : Moment) → P.ties proto.now t → IsTrue (is_pair t.z.role) → count ≡ 0 }
{
    match proto.role() {
        Role::Pair0 | Role::Pair1 => count > 0,
        _ => false,
    }
}

/// Returns whether the context is open, of a socket that has contexts.
pub fn is_ctx_open<P: Proto>(proto: &P, c: Ctx) -> bool
    ensures { (t : Moment) → Lawful t → P.ties proto.now t → has_contexts t.z ≡ true → result ≡ has (ctxs (past t)) c }
{
    match proto.check(c, Verb::Recv) {
        Ok(()) => true,
        Err(CheckError::NotSupported) => false,
        Err(CheckError::NoEntry) => false,
        Err(CheckError::State) => true,
    }
}

/// The copy of the send for the pipe.
pub fn copy_of<P: Proto>(proto: &mut P, op: OpName, p: PipeId) -> Message
    requires { 0 < P.copies proto.old op }
    ensures flooded { CopiesFor P.ties result proto.old proto.new op p }
    ensures copies { P.copies proto.old op ≤ P.copies proto.new op + 1 }
    ensures left { P.left proto.new ≤ P.left proto.old }
    ensures room { P.room proto.old ≤ P.room proto.new }
{
    match proto.flood(op, p) {
        Some(m) => m,
        None => unreachable!(),
    }
}
