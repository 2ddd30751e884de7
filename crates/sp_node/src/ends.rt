//! A node before its first turn.
ghost use Rattle.std.specs.Prelude.{◌≡◌, ◌<◌, true, false, IfOk};
ghost use Rattle.sp_proto.specs.Kinds.{Kind, Starts};
ghost use Rattle.sp_base.specs.Addresses.{is_linked, is_dialable};
ghost use Rattle.sp_node.specs.NewNodes.{Begins, StartsAs};
ghost use Rattle.sp_node.specs.MoreEnds.{Listens, Dials, OfText, ReadsAddress, error_of};

use crate::error::EndsError;
use crate::node::Node;
use sp_base::{Addr, AddrError, Link, Net, NoMemory, Pace, Tick};
use sp_ends::{EndError, Ends};
use sp_lane::Inproc;
use sp_links::EndWire;
use sp_proto::Proto;
use sp_socket::Single;
use std::alloc::Global;
use std::marker::Model;
use std::sync::Wait;

/// The usual receive limit, in bytes (NNG_OPT_RECVMAXSZ of nng_options(5)): 1 MiB.
pub const RECV_MAX_SIZE: u32 = 1_048_576;

// How many ends a node has at most.
const MOST: u32 = 64;

// How many operations the socket of a node has at once.
const SLOTS: u32 = 16;

/// A socket, its net and its clock, before the first turn. It must be spent: `start` makes a node of it.
pub struct NodeEnds<'r, R, P: Proto, L: Link, N: Net<L = L>, C: Pace> {
    rt: &'r R,
    alloc: Global,
    single: Single<P, EndWire<L>>,
    ends: Ends<L>,
    // The names that the node itself listens on.
    inproc: Inproc,
    net: N,
    pace: C,
    // How many ends there are.
    count: u32,
}

impl<'r, R, P: Proto, L: Link, N: Net<L = L>, C: Pace> Model for NodeEnds<'r, R, P, L, N, C> {
    ghost use Rattle.sp_node.specs.NewNodes.{NewNodeView, IsNewNode};

    ghost Value = { NewNodeView L };

    ghost view = { λ n. record { single = n.single; ends = n.ends; faults = (N.seen n.net).faults } };

    ghost invariant = { λ n. IsNewNode n.single n.ends (N.seen n.net) n.inproc n.count };
}

impl<
    'r,
    R: Wait + AllocGlobal,
    P: Proto + Drop,
    L: Link,
    N: Net<L = L> + Drop,
    C: Pace + Drop,
> NodeEnds<'r, R, P, L, N, C> {
    /// Opens a socket (nng_pull_open(3) and its like) over this machine, as the machine's `new` gives it, with 16
    /// operations at once and no end. The keys of openings over WebSocket are made from `dice`.
    pub fn open(
        rt: &'r R,
        machine: P,
        net: N,
        pace: C,
        dice: u32,
    ) -> Result<NodeEnds<'r, R, P, L, N, C>, NoMemory>
        requires starts { (k : Kind) × Starts P.ties machine k }
        ensures { IfOk result (Begins dice (P.kind machine)) }
    {
        let alloc = rt.alloc();
        let ends = Ends::new(alloc, machine.role(), dice)?;
        let Ok(single) = Single::open(alloc, machine, SLOTS) else {
            ends.destroy_empty();
            return Err(NoMemory);
        };
        Ok(NodeEnds {
            rt,
            alloc,
            single,
            ends,
            inproc: Inproc::new(alloc),
            net,
            pace,
            count: 0,
        })
    }
}

impl<'r, R: Wait, P: Proto, L: Link, N: Net<L = L>, C: Pace> NodeEnds<'r, R, P, L, N, C> {
    /// Listens at one address more (nng_listen(3)): over TCP, IPC and WebSocket at once, on a name within this node. A
    /// message of more than `max` bytes takes its pipe down (NNG_OPT_RECVMAXSZ of nng_options(5)); on a name there is
    /// no limit. Refused with the ends as they were, where the text is no address (`Address`), the node has 64 ends
    /// (`Many`), the net fails (`Fault`, as for a port in use) or the name is listened on (`InUse`).
    pub fn listen(&mut self, text: &str, max: u32) -> Result<(), EndsError>
        ensures { OfText result text.now (λ addr. Listens result addr max self.old self.new) (self.new ≡ self.old) }
    {
        match address(self.alloc, text) {
            Ok(addr) => self.listen_at(&addr, max),
            Err(why) => Err(why),
        }
    }

    /// Dials one address more, from the first turn on, and again whenever its link is lost (nng_dial(3) with
    /// NNG_FLAG_NONBLOCK), with the receive limit `max` as in `listen`. Refused with the node as it was, where the text
    /// is no address (`Address`), its host is `*` (`Host`) or the node has 64 ends (`Many`).
    pub fn dial(&mut self, text: &str, max: u32) -> Result<(), EndsError>
        ensures { OfText result text.now (λ addr. Dials result addr max self.old self.new) (self.new ≡ self.old) }
    {
        match address(self.alloc, text) {
            Ok(addr) => self.dial_at(&addr, max),
            Err(why) => Err(why),
        }
    }

    /// As `listen`, of an address that was read.
    pub fn listen_at(&mut self, addr: &Addr, max: u32) -> Result<(), EndsError>
        ensures { Listens result addr.now max self.old self.new }
    {
        if self.count >= MOST {
            return Err(EndsError::Many);
        }
        match self.ends.listen(&mut self.net, &mut self.inproc, addr, max) {
            Ok(()) => {
                self.count += 1;
                Ok(())
            }
            Err(why) => Err(error_of(why)),
        }
    }

    /// As `dial`, of an address that was read.
    pub fn dial_at(&mut self, addr: &Addr, max: u32) -> Result<(), EndsError>
        ensures { Dials result addr.now max self.old self.new }
    {
        if addr.is_linked() && !addr.is_dialable() {
            return Err(EndsError::Host);
        }
        if self.count >= MOST {
            return Err(EndsError::Many);
        }
        match self.ends.dial(addr, max) {
            Ok(()) => {
                self.count += 1;
                Ok(())
            }
            Err(why) => Err(error_of(why)),
        }
    }

    /// The node, which may send and receive.
    pub fn start(self) -> Node<'r, R, P, L, N, C>
        ensures { StartsAs self.entry result }
    {
        let NodeEnds {
            rt,
            alloc: _,
            single,
            ends,
            inproc,
            net,
            pace,
            count: _,
        } = self;
        Node {
            rt,
            single,
            ends,
            inproc,
            net,
            pace,
            latest: Tick(0),
            dry: false,
            closed: false,
            moved: true,
            sweeps: SERVED,
        }
    }
}

// So often that the first thing that is done is a turn.
const SERVED: u32 = u32::MAX;

// The address of a text.
fn address(alloc: Global, text: &str) -> Result<Addr, EndsError>
    ensures { ReadsAddress result text.now }
{
    match Addr::read(alloc, text) {
        Ok(addr) => Ok(addr),
        Err(AddrError::Fault { at }) => Err(EndsError::Address { at }),
        Err(AddrError::NoMemory) => Err(EndsError::NoMemory),
    }
}

// Why an end was refused.
fn error_of(why: EndError) -> EndsError
    ensures { result ≡ error_of why }
{
    match why {
        EndError::Fault => EndsError::Fault,
        EndError::InUse => EndsError::InUse,
        EndError::NoMemory => EndsError::NoMemory,
    }
}
