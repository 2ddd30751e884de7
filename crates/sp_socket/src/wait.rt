//! Waiting for an operation.
ghost use Rattle.sp_core.specs.declared.calls.collect.Collected.TheVariants as collected;
ghost use Rattle.sp_socket.specs.Passes.{IsOf, IsSamePass};
ghost use Rattle.sp_socket.specs.Open.{IsOpenFor, KeepsOthers};
ghost use Rattle.sp_socket.specs.Waiting.{WaitedFor, HasLookedOn};

use crate::pass::Pass;
use crate::socket::Socket;
use aio_word::Polled;
use sp_base::OpName;
use sp_core::{Collected, Op, Outcome};
use sp_msg::Wire;
use sp_proto::Proto;
use std::sync::Wait;
use std::thread;

// How often a caller that waits looks before it sleeps, and how often it is woken before it takes another turn.
const LOOKS: u32 = 64;

impl<P: Proto, W: Wire> Socket<P, W> {
    /// Waits until the caller's operation has ended (nng_aio_wait(3)), and collects it: returns its outcome, as the
    /// history has it. Takes a turn, looks at the operation 64 times, between which it yields the processor, and takes
    /// another turn. Then it sleeps until the call of another caller may have ended an operation, for ten milliseconds
    /// at most, and takes a turn where its own has ended or nobody woke it. Doesn't fail when out of memory.
    pub fn wait<R: Wait>(&self, rt: &R, pass: &mut Pass<P, W>, op: Op) -> Outcome
        requires own { IsOf self.now pass.old }
        requires op { IsOpenFor pass.old op }
        ensures same { IsSamePass pass.old pass.new }
        ensures open_ { KeepsOthers (collected.Ended result) op pass.old pass.new }
        ensures waited { WaitedFor result op pass.old pass.new }
    {
        let mut op = op;
        let mut sleeps = false;
        for _ in rt.forever() {
            match self.collect(rt, pass, op) {
                Collected::Ended(outcome) => return outcome,
                Collected::NotYet(back) => op = back,
            }
            self.await_end(rt, pass, op.name(), sleeps);
            sleeps = true;
        }
        unreachable!()
    }

    // Looks or sleeps until the operation may have ended, or the caller is to take a turn.
    fn await_end<R: Wait>(&self, rt: &R, pass: &mut Pass<P, W>, op: OpName, sleeps: bool)
        requires own { IsOf self.now pass.old }
        ensures { HasLookedOn pass.old pass.new }
    {
        if sleeps {
            self.sleep_on(rt, pass, op);
        } else {
            self.look_on(pass, op);
        }
    }

    // Looks at the operation while it is pending, at most `LOOKS` times.
    fn look_on(&self, pass: &mut Pass<P, W>, op: OpName)
        requires own { IsOf self.now pass.old }
        ensures { HasLookedOn pass.old pass.new }
    {
        for _ in 0..LOOKS {
            thread::yield_now();
            if !self.is_pending(pass, op) {
                return;
            }
        }
    }

    // Sleeps while the operation is pending and somebody wakes it, at most `LOOKS` times.
    fn sleep_on<R: Wait>(&self, rt: &R, pass: &mut Pass<P, W>, op: OpName)
        requires own { IsOf self.now pass.old }
        ensures { HasLookedOn pass.old pass.new }
    {
        for _ in 0..LOOKS {
            if !self.is_woken(rt, pass, op) {
                return;
            }
        }
    }

    // Sleeps once, unless the operation has ended. Returns whether somebody woke it.
    fn is_woken<R: Wait>(&self, rt: &R, pass: &mut Pass<P, W>, op: OpName) -> bool
        requires own { IsOf self.now pass.old }
        ensures { HasLookedOn pass.old pass.new }
    {
        let wakes = self.waiters.enter();
        let pending = self.is_pending(pass, op);
        let woken = pending && self.waiters.sleep(rt, wakes);
        self.waiters.leave();
        woken
    }

    // Returns whether the operation is pending.
    fn is_pending(&self, pass: &mut Pass<P, W>, op: OpName) -> bool
        requires own { IsOf self.now pass.old }
        ensures { HasLookedOn pass.old pass.new }
    {
        matches!(self.poll(pass, op), Polled::Pending)
    }
}
