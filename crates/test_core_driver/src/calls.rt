//! The calls of a core as its driver makes them: each is made by caller 1, and each operation that it begins is kept.
//!
//! What must hold before a call of a core (it has a history in which the kept operations are open) is the invariant of
//! `Driver`. So its calls require nothing, and a test over them has only its own checks to prove.
ghost use Rattle.std.specs.Prelude.{◌≡◌, ◌<◌, ◌≤◌, ℕ, IfErr};
ghost use Rattle.sp_proto.specs.Kinds.{Kind, Starts};
ghost use Rattle.core_state.specs.Wires.{IsUnused};

use aio_expire::NameList;
use aio_word::{CallSeat, Polled, Raced};
use sp_base::{Ctx, NoMemory, OpName, PipeId, Tick};
use sp_core::{
    AttachError, BeginError, Collected, Core, CtxError, Gone, NowError, Op, Outcome, Served,
    TopicError, WireList,
};
use sp_history::entry::{Miss, Totals};
use sp_msg::{Message, Wire};
use sp_proto::Proto;
use std::alloc::Global;
use std::collections::VecDeque;
use std::marker::Model;
use std::sync::Wait;

/// A core of two callers, the seats of both, and the operations that caller 1 began and did not collect. It must be
/// spent: `finish` ends it.
pub struct Driver<P: Proto, W: Wire> {
    core: Core<P, W>,
    seat: CallSeat,
    /// The seat of caller 2, which only cancels.
    other: CallSeat,
    /// The number of the core's slots.
    slots: u32,
    /// The open operations, in the order in which they began, except for what `swap` and `collect_first` change.
    ops: VecDeque<Op>,
}

// Contracts see how many operations are open.
impl<P: Proto, W: Wire> Model for Driver<P, W> {
    ghost use Rattle.std.specs.Prelude.{ℕ, length};
    ghost use Rattle.test_core_driver.specs.Drives.{Drives};

    ghost Value = { ℕ };

    ghost view = { λ d. length d.ops.items };

    ghost invariant = { λ d. Drives P.ties P.room W.shown d.core d.seat d.other d.slots d.ops.items };
}

// The wires, the last one first, as far as there is memory for the list; the others are dropped.
fn take_all<W: Drop, R: Wait>(
    rt: &R,
    alloc: Global,
    wires: WireList<W>,
) -> Result<Vec<(PipeId, W)>, NoMemory> {
    let mut wires = wires;
    let mut all = Vec::new(alloc);
    let mut is_whole = true;
    for _ in rt.forever() {
        match wires.pop() {
            None => {
                wires.destroy_empty();
                return if is_whole { Ok(all) } else { Err(NoMemory) };
            }
            Some(pipe) => is_whole &= all.push(pipe).is_ok(),
        }
    }
    unreachable!()
}

impl<P: Proto + Drop, W: Wire> Driver<P, W> {
    /// A new core of `slots` slots, 1 to 4,096.
    pub fn new(alloc: Global, proto: P, slots: u32) -> Result<Driver<P, W>, NoMemory>
        requires slots { (0 < slots) × (slots ≤ 4096) }
        requires starts { (k : Kind) × Starts P.ties proto k }
    {
        let ops = VecDeque::with_capacity(alloc, slots as usize + 1)?;
        match Core::new(alloc, proto, slots, 2) {
            Err((e, _)) => {
                ops.destroy_empty();
                Err(e)
            }
            Ok((core, mut seats)) => {
                let Some(other) = seats.pop() else {
                    unreachable!()
                };
                let Some(seat) = seats.pop() else {
                    unreachable!()
                };
                Ok(Driver {
                    core,
                    seat,
                    other,
                    slots,
                    ops,
                })
            }
        }
    }
}

impl<P: Proto, W: Wire> Driver<P, W> {
    /// Begins a receive, and keeps it.
    pub fn begin_recv<R: Wait>(
        &mut self,
        rt: &R,
        c: Ctx,
        deadline: Option<Tick>,
    ) -> Result<OpName, BeginError> {
        if self.ops.len() >= self.ops.capacity() {
            return Err(BeginError::NoMemory);
        }
        match self.core.begin_recv(rt, 1, c, deadline) {
            Err(e) => Err(e),
            Ok(op) => {
                let name = op.name();
                self.ops.push_back_reserved(op);
                Ok(name)
            }
        }
    }

    /// Begins a send, and keeps it.
    pub fn begin_send<R: Wait>(
        &mut self,
        rt: &R,
        c: Ctx,
        m: Message,
        deadline: Option<Tick>,
    ) -> Result<OpName, (BeginError, Message)> {
        if self.ops.len() >= self.ops.capacity() {
            return Err((BeginError::NoMemory, m));
        }
        match self.core.begin_send(rt, 1, c, m, deadline) {
            Err(e) => Err(e),
            Ok(op) => {
                let name = op.name();
                self.ops.push_back_reserved(op);
                Ok(name)
            }
        }
    }

    /// Receives at once.
    pub fn try_recv<R: Wait>(&mut self, rt: &R, c: Ctx) -> Result<Message, NowError> {
        self.core.try_recv(rt, 1, c)
    }

    /// Cancels the operation. `None` without memory.
    pub fn cancel(&mut self, op: OpName) -> Option<Raced> {
        match self.core.words() {
            Err(_) => None,
            Ok(words) => Some(words.cancel(&mut self.seat, op)),
        }
    }

    /// Cancels the operation, by caller 2. `None` without memory.
    pub fn cancel_by_other(&mut self, op: OpName) -> Option<Raced> {
        match self.core.words() {
            Err(_) => None,
            Ok(words) => Some(words.cancel(&mut self.other, op)),
        }
    }

    /// Lets the operation time out. `None` without memory.
    pub fn expire(&mut self, op: OpName) -> Option<Raced> {
        match self.core.words() {
            Err(_) => None,
            Ok(words) => Some(words.expire(&mut self.seat, op)),
        }
    }

    /// The state of the operation, as caller 1 reads it. `None` without memory.
    pub fn poll(&mut self, op: OpName) -> Option<Polled> {
        match self.core.words() {
            Err(_) => None,
            Ok(words) => Some(words.poll(&mut self.seat, op)),
        }
    }

    /// Moves the core's time to this tick, and returns the operations that are due.
    pub fn tick<R: Wait>(
        &mut self,
        rt: &R,
        alloc: Global,
        now: Tick,
    ) -> Result<NameList, NoMemory> {
        let mut names = NameList::with_room(alloc, self.slots)?;
        self.core.due(rt, 1, now, &mut names);
        Ok(names)
    }

    /// The number of open operations.
    pub fn open_count(&self) -> usize
        ensures { result ≡ self.now }
    {
        self.ops.len()
    }

    /// Swaps the order of the two operations that began last. Does nothing where fewer are open.
    pub fn swap(&mut self) {
        let Some(last) = self.ops.pop_back() else {
            return;
        };
        match self.ops.pop_back() {
            None => self.ops.push_back_reserved(last),
            Some(before) => {
                self.ops.push_back_reserved(last);
                self.ops.push_back_reserved(before)
            }
        }
    }

    /// Collects the open operation that began first, if it has ended. Otherwise that operation becomes the last.
    pub fn collect_first<R: Wait>(&mut self, rt: &R) -> Option<Outcome> {
        match self.ops.pop_front() {
            None => None,
            Some(op) => match self.core.collect(rt, 1, &mut self.seat, op) {
                Collected::Ended(outcome) => Some(outcome),
                Collected::NotYet(op) => {
                    self.ops.push_back_reserved(op);
                    None
                }
            },
        }
    }

    /// Collects the open operation that began last, if it has ended.
    pub fn collect<R: Wait>(&mut self, rt: &R) -> Option<Outcome> {
        match self.ops.pop_back() {
            None => None,
            Some(op) => match self.core.collect(rt, 1, &mut self.seat, op) {
                Collected::Ended(outcome) => Some(outcome),
                Collected::NotYet(op) => {
                    self.ops.push_back_reserved(op);
                    None
                }
            },
        }
    }
}

impl<P: Proto, W: Wire> Driver<P, W> {
    /// Opens a context.
    pub fn open_ctx<R: Wait>(&mut self, rt: &R) -> Result<Ctx, CtxError> {
        self.core.open_ctx(rt, 1)
    }

    /// Shuts the context.
    pub fn close_ctx<R: Wait>(&mut self, rt: &R, c: Ctx) -> Result<(), CtxError> {
        self.core.close_ctx(rt, 1, c)
    }

    /// Subscribes the context to a topic.
    pub fn subscribe<R: Wait>(&mut self, rt: &R, c: Ctx, topic: &[u8]) -> Result<(), TopicError> {
        self.core.subscribe(rt, 1, c, topic)
    }

    /// Unsubscribes the context from a topic.
    pub fn unsubscribe<R: Wait>(&mut self, rt: &R, c: Ctx, topic: &[u8]) -> Result<(), TopicError> {
        self.core.unsubscribe(rt, 1, c, topic)
    }

    /// Attaches the wire.
    pub fn attach<R: Wait>(
        &mut self,
        rt: &R,
        w: W,
        place: u32,
        max: u32,
    ) -> Result<PipeId, (AttachError, W)>
        requires { IsUnused (W.shown w) }
        ensures { IfErr result (λ e. e.1 ≡ w) }
    {
        self.core.attach(rt, 1, w, place, max)
    }

    /// Notes a link that was met.
    pub fn met<R: Wait>(&mut self, rt: &R, place: u32) {
        self.core.met(rt, 1, place)
    }

    /// Notes a link that became no pipe.
    pub fn missed<R: Wait>(&mut self, rt: &R, place: u32, miss: Miss) {
        self.core.missed(rt, 1, place, miss)
    }

    /// Serves the pipes.
    pub fn serve<R: Wait>(&mut self, rt: &R) -> Served {
        self.core.serve(rt, 1)
    }

    /// Serves the pipes that are busy, with at most `most` frames of each.
    pub fn serve_busy<R: Wait>(&mut self, rt: &R, most: u32) -> Served {
        self.core.serve_busy(rt, 1, most)
    }

    /// Takes the oldest pipe that is down.
    pub fn take_ended<R: Wait>(&mut self, rt: &R) -> Option<Gone<W>> {
        self.core.take_ended(rt, 1)
    }

    /// Closes the core.
    pub fn close<R: Wait>(&mut self, rt: &R) -> Totals {
        self.core.close(rt, 1)
    }
}

impl<P: Proto, W: Wire + Drop> Driver<P, W> {
    /// Closes the core, collects the open operations, and ends it. Returns the wires that were not taken, the last one
    /// first.
    pub fn finish<R: Wait>(self, rt: &R, alloc: Global) -> Result<Vec<(PipeId, W)>, NoMemory> {
        let mut driver = self;
        driver.close(rt);
        for _ in rt.forever() {
            if driver.open_count() == 0 {
                return driver.take_apart(rt, alloc);
            }
            let _ = driver.collect_first(rt);
        }
        unreachable!()
    }

    // Ends the core, of which no operation is open.
    fn take_apart<R: Wait>(self, rt: &R, alloc: Global) -> Result<Vec<(PipeId, W)>, NoMemory>
        requires { self ≡ 0 }
    {
        let Driver {
            core,
            seat,
            other: _,
            slots: _,
            ops,
        } = self;
        ops.destroy_empty();
        let mut core = core;
        core.join(seat);
        core.close(rt, 1);
        take_all(rt, alloc, core.into_wires())
    }
}
