//! The machine of pair (nng_pair(7)), versions 0 and 1 of its protocol, cooked and raw.
//!
//! At most one pipe is up. It keeps one message and wants no further frame before a receive has got it, so one place
//! suffices and it is never out of memory for a frame. What it keeps stays when the pipe goes down. A send goes to the
//! pipe when that has room, in the order of the begins.
//!
//! Version 0 sends only the body, cooked and raw. In version 1 a word with a hop count comes before each body: a frame
//! without one is malformed, one with more hops than the options allow is discarded, and raw the word is in the header.
//! A raw send whose header has no hop count goes nowhere, and is won at once.
//!
//! Who owns what: a `Pair` owns the message that is kept and, in its `Pending`, those of the sends that wait. Of its
//! pipe it knows the number, and whether it was found full in this turn; the wire is the core's.
//!
//! It is the smallest machine, so whoever writes one reads it first. `Ties` of `specs/Pairs` says which moments of a
//! history a pair stands for. Each call of `Proto` below goes from one moment to the next.
#![tactic(auto)]

ghost use Rattle.std.specs.Prelude.{◌≡◌, ◌≢◌, length, take, drop, if◌then◌else◌, ◌+◌, ◌<◌, ◌≤◌, ℕ, List, [], Option, IfOk, IfErr, OnOk, OnErr, Err, IsTrue, false};
ghost use Rattle.sp_history.specs.declared.entry.Entry.TheVariants.{Begin, Frame, Up};
ghost use Rattle.sp_history.specs.declared.entry.WireNumbers.{WireNumbers};
ghost use Rattle.sp_history.specs.declared.parts.Begun.{Begun};
ghost use Rattle.sp_history.specs.Moments.{Moment, Lawful, past, also};
ghost use Rattle.sp_history.specs.Frames.{is_too_long};
ghost use Rattle.sp_history.specs.Past.{up};
ghost use Rattle.sp_history.specs.Setting.{is_pair};
ghost use Rattle.sp_history.specs.Hops.{hop_word};
ghost use Rattle.sp_history.specs.Sends.{lacks_hops};
ghost use Rattle.sp_base.specs.declared.role.Role.TheVariants as role;
ghost use Rattle.sp_proto.specs.Kinds.{Starts, entry_act};
ghost use Rattle.sp_proto.specs.Machines.{Frames, NoFlood, Takes};
ghost use Rattle.proto_shared.specs.Waits.{Holds};
ghost use Rattle.proto_pair.specs.Pairs.{Ties, pair_kind, pair1_kind, kind_for, role_of, counts, places_left, marked, receiver_of, send_offer, Arrives, GoesOut, NoneStray, FindsStray};

use proto_shared::{Pending, hops_of, next_hops};
use sp_base::{Ctx, NoMemory, OpName, PipeId, Role, Tick};
use sp_history::setting::Options;
use sp_msg::Message;
use sp_proto::{Act, CheckError, Offer, Proto, UpFault, Verb, Verdict};
use std::alloc::Global;

/// The pipe that is up.
#[derive(Clone, Copy)]
struct PairPort {
    pipe: PipeId,
    /// Whether it was found full in this turn.
    is_full: bool,
}

/// The version of the protocol.
#[derive(Clone, Copy, PartialEq, Eq, Debug)]
enum PairVersion {
    Zero,
    One,
}

/// What a frame is to a pair.
#[derive(Debug, Drop)]
enum Arrival {
    /// A message, as a receive will get it.
    Kept(Message),
    /// It has come over too many hops.
    TooFar,
    /// It has no hop count.
    Malformed,
}

/// A pair (nng_pair(7)), cooked or raw: it sends and receives.
#[derive(Drop)]
pub struct Pair {
    version: PairVersion,
    raw: bool,
    options: Options,
    /// The pipe that is up, if one is.
    port: Option<PairPort>,
    /// A message that came, and that no receive has got yet.
    kept: Option<Message>,
    pending: Pending,
    /// Whether a send may be pending that no pipe will get.
    may_stray: bool,
}

// The pipe, marked as full or not.
fn mark(port: Option<PairPort>, is_full: bool) -> Option<PairPort>
    ensures { result ≡ marked is_full port }
{
    match port {
        None => None,
        Some(x) => Some(PairPort {
            pipe: x.pipe,
            is_full,
        }),
    }
}

// What a frame is to a pair of this version.
fn read_frame(version: PairVersion, raw: bool, ttl: u8, m: Message) -> Arrival
    requires { m.header ≡ [] }
    ensures { Arrives version raw ttl m result }
{
    match version {
        PairVersion::Zero => Arrival::Kept(m),
        PairVersion::One => match hops_of(m.body()) {
            None => Arrival::Malformed,
            Some(hops) => {
                if ttl < hops {
                    return Arrival::TooFar;
                }
                Arrival::Kept(counted(raw, m))
            }
        },
    }
}

// The message without its first word, which is raw in the header.
fn counted(raw: bool, m: Message) -> Message
    requires { (m.header ≡ []) × (4 ≤ length m.body) }
    ensures body { result.body ≡ drop 4 m.body }
    ensures header { result.header ≡ (if raw then take 4 m.body else []) }
{
    let mut m = m;
    let Ok(word) = m.trim_u32() else {
        return m;
    };
    if raw && m.header_append_u32(word).is_err() {
        return m;
    }
    m
}

// What goes out for the message of a send.
fn outgoing(version: PairVersion, raw: bool, m: Message) -> Message
    ensures { GoesOut version raw m result }
{
    match version {
        PairVersion::Zero => bare(m),
        PairVersion::One => {
            if !raw {
                return with_hops(m, 1);
            }
            match next_hops(m.header()) {
                None => m,
                Some(hops) => with_hops(m, hops),
            }
        }
    }
}

fn bare(m: Message) -> Message
    ensures { result ≡ record m { header = [] } }
{
    let mut m = m;
    m.header_clear();
    m
}

fn with_hops(m: Message, hops: u8) -> Message
    ensures { result ≡ record m { header = hop_word hops } }
{
    let mut m = bare(m);
    let _ = m.header_append_u32(hops as u32);
    m
}

// Returns whether it sends a message whose header has no hop count to go on with.
fn is_uncounted(act: &Act) -> bool
    ensures { result ≡ lacks_hops (entry_act act.now) }
{
    match act {
        Act::Recv => false,
        Act::Send(m) => next_hops(m.header()).is_none(),
    }
}

// A new pair.
fn unused(alloc: Global, version: PairVersion, options: Options, raw: bool) -> Pair
    ensures { Starts Ties result (kind_for version raw options) }
{
    Pair {
        version,
        raw,
        options,
        port: None,
        kept: None,
        pending: Pending::new(alloc),
        may_stray: false,
    }
}

/// Pairs of version 1 (nng_pair(7)), cooked or raw. They are pairs of another role.
pub struct Pair1;

impl Pair1 {
    /// A new pair of version 1.
    pub fn new(alloc: Global, options: Options, raw: bool) -> Result<Pair, NoMemory>
        ensures { IfOk result (λ m. Starts Ties m (pair1_kind raw options)) }
    {
        Ok(unused(alloc, PairVersion::One, options, raw))
    }
}

impl Pair {
    /// A new pair of version 0.
    pub fn new(alloc: Global, options: Options, raw: bool) -> Result<Pair, NoMemory>
        ensures { IfOk result (λ m. Starts Ties m (pair_kind raw options)) }
    {
        Ok(unused(alloc, PairVersion::Zero, options, raw))
    }

    // Returns whether a send needs a hop count in its header.
    fn counts(&self) -> bool
        ensures { result ≡ counts self.now.version self.now.raw }
    {
        matches!(self.version, PairVersion::One) && self.raw
    }

    // A send that no pipe will get, if one is pending.
    fn stray(&mut self) -> Option<OpName>
        ensures same { self.new ≡ record self.old { may_stray = self.new.may_stray } }
        ensures found { FindsStray result self.old }
        ensures left { self.new.may_stray ≡ false → (ss : List Begun) → Holds self.old.pending ss → (self.old.may_stray ≡ false → NoneStray self.old ss) → NoneStray self.old ss }
    {
        if !self.may_stray || !self.counts() {
            return None;
        }
        let found = self.pending.first_uncounted();
        self.may_stray = found.is_some();
        found
    }

    // The receive that gets what is kept.
    fn receiver(&self) -> Option<OpName>
        ensures { (ss : List Begun) → Holds self.now.pending ss → result ≡ receiver_of self.now.kept ss }
    {
        match &self.kept {
            None => None,
            Some(_) => self.pending.first_receive(),
        }
    }

    // The first send, where the pipe may have room.
    fn send_offer(&self) -> Offer
        ensures { (ss : List Begun) → Holds self.now.pending ss → result ≡ send_offer self.now.port ss }
    {
        match self.port {
            None => Offer::Idle,
            Some(port) => {
                if port.is_full {
                    return Offer::Idle;
                }
                match self.pending.first_send() {
                    None => Offer::Idle,
                    Some(op) => Offer::Send {
                        op,
                        pipe: port.pipe,
                    },
                }
            }
        }
    }
}

impl Proto for Pair {
    ghost use Rattle.proto_pair.specs.Pairs.{Ties, kind_for, role_of, offers_left, places_left};
    ghost use Rattle.proto_pair.specs.PairLaws as laws;

    ghost kind = { λ m. kind_for m.version m.raw m.options };

    ghost ties = { Ties };

    ghost room = { places_left };

    ghost left = { offers_left };

    ghost copies = { λ m op. 0 };

    ghost kinds = { laws.kinds };

    ghost silent = { laws.silent };

    ghost passes = { laws.passes };

    ghost anew = { laws.anew };

    fn role(&self) -> Role {
        match self.version {
            PairVersion::Zero => Role::Pair0,
            PairVersion::One => Role::Pair1,
        }
    }

    fn raw(&self) -> bool {
        self.raw
    }

    fn reserve(&mut self, slots: u32) -> Result<(), NoMemory> {
        self.pending.reserve(slots)
    }

    /// Never out of memory: there is already a place for the pipe.
    fn up(&mut self, p: PipeId) -> Result<(), UpFault>
        ensures up { OnOk result ((t : Moment) (place limit : ℕ) (name : WireNumbers) → NoFlood t → Takes (Ties self.old) (Ties self.new) t (Up p place limit name)) }
        ensures alone { OnOk result ((t : Moment) → Lawful t → Ties self.old t → IsTrue (is_pair t.z.role) → up (past t) ≡ []) }
        ensures refused { result ≡ Err UpFault.Refused → (t : Moment) → Lawful t → Ties self.old t → IsTrue (is_pair t.z.role) × (up (past t) ≢ []) }
        ensures same { OnErr result ((t : Moment) → Ties self.old t → Ties self.new t) }
        ensures room { places_left self.old ≤ places_left self.new }
        ensures fits { result ≢ Err UpFault.NoMemory }
    {
        if self.port.is_some() {
            return Err(UpFault::Refused);
        }
        self.port = Some(PairPort {
            pipe: p,
            is_full: false,
        });
        Ok(())
    }

    fn down(&mut self, p: PipeId) {
        let _ = p;
        self.port = None;
    }

    fn wants(&self, p: PipeId) -> bool {
        let _ = p;
        self.kept.is_none()
    }

    /// Never out of memory: there is already a place for the message. No frame is malformed in version 0.
    fn frame(&mut self, p: PipeId, m: Message) -> Verdict
        requires { m.header ≡ [] }
        ensures kept { (t : Moment) → is_too_long (past t) p m.body ≡ false → Lawful (also t (Frame p m.body)) → Ties self.old t → Frames (Ties self.new) result t p m.body }
        ensures room { places_left self.old ≤ places_left self.new }
        ensures fine { role_of self.old.version ≡ role.Pair0 → result ≡ Verdict.Fine }
        ensures fits { result ≢ Verdict.NoMemory }
    {
        let _ = p;
        match read_frame(self.version, self.raw, self.options.ttl, m) {
            Arrival::Kept(m) => {
                self.kept = Some(m);
                Verdict::Fine
            }
            Arrival::TooFar => Verdict::Fine,
            Arrival::Malformed => Verdict::Malformed,
        }
    }

    fn keeps(&self, c: Ctx) -> bool {
        let _ = c;
        self.kept.is_some()
    }

    fn check(&self, c: Ctx, verb: Verb) -> Result<(), CheckError> {
        let _ = verb;
        if c.0 != 0 {
            return Err(CheckError::NotSupported);
        }
        Ok(())
    }

    /// Never out of memory: there is already a place for the operation.
    fn begin(&mut self, op: OpName, c: Ctx, act: Act) -> Result<(), Message>
        requires { 0 < places_left self.old }
        ensures begun { OnOk result ((t : Moment) (deadline : Option ℕ) → NoFlood t → Takes (Ties self.old) (Ties self.new) t (Begin op t.caller c (entry_act act) deadline)) }
        ensures handed_back { IfErr result (λ m. act ≡ Act.Send m) }
        ensures same { OnErr result ((t : Moment) → Ties self.old t → Ties self.new t) }
        ensures room { places_left self.old ≤ places_left self.new + 1 }
        ensures room_kept { OnErr result (places_left self.old ≤ places_left self.new) }
        ensures fits { OnErr result ⊥ }
    {
        self.may_stray = self.may_stray || self.counts() && is_uncounted(&act);
        self.pending.push(op, c, act);
        Ok(())
    }

    fn fresh(&mut self) {
        self.port = mark(self.port, false);
    }

    fn offer(&mut self) -> Offer {
        match self.receiver() {
            Some(op) => Offer::Give { op },
            None => match self.stray() {
                Some(op) => Offer::Drop { op },
                None => self.send_offer(),
            },
        }
    }

    fn full(&mut self, p: PipeId) {
        let _ = p;
        self.port = mark(self.port, true);
    }

    fn goes_to(&self, op: OpName, p: PipeId) -> bool {
        let _ = op;
        let _ = p;
        false
    }

    fn flood(&mut self, op: OpName, p: PipeId) -> Option<Message> {
        let _ = op;
        let _ = p;
        None
    }

    fn again(&mut self, c: Ctx, p: PipeId) -> Option<Message> {
        let _ = c;
        let _ = p;
        None
    }

    fn won(&mut self, op: OpName, out: Option<PipeId>) -> Option<Message> {
        match out {
            None => match self.pending.end(op) {
                None => self.kept.take(),
                Some(_) => None,
            },
            Some(_) => match self.pending.end_send(op) {
                None => None,
                Some(message) => Some(outgoing(self.version, self.raw, message)),
            },
        }
    }

    fn lost(&mut self, op: OpName) -> Option<Message> {
        self.pending.end(op)
    }

    fn clock(&mut self, now: Tick) {
        let _ = now;
    }

    fn open_ctx(&mut self, c: Ctx) -> Result<(), NoMemory> {
        let _ = c;
        Err(NoMemory)
    }

    fn close_ctx(&mut self, c: Ctx) {
        let _ = c;
    }

    fn topic(&mut self, c: Ctx, t: &[u8], on: bool) -> Result<bool, NoMemory> {
        let _ = c;
        let _ = t;
        let _ = on;
        Ok(false)
    }

    fn close(&mut self) {
        self.kept = None;
    }
}
