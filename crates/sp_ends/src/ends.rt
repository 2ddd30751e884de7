//! All ends of a run.
ghost use Rattle.std.specs.Prelude.{◌≡◌, true, IfOk};
ghost use Rattle.sp_base.specs.Addresses.{is_dialable, is_linked};
ghost use Rattle.sp_ends.specs.EndViews.{no_ends};
ghost use Rattle.sp_ends.specs.AddedEnds.{ListensAlso, DialsAlso};

use crate::error::EndError;
use crate::links::LinkEnds;
use crate::names::NameEnds;
use sp_base::{Addr, Link, Net, NoMemory, Role};
use sp_lane::Inproc;
use std::alloc::Global;
use std::marker::Model;

/// Addresses over links of a net that are listened on and dialed (nng_listener(5), nng_dialer(5)), the links that are
/// being opened, and names within the process that are listened on and dialed. Its room for links is taken when it is
/// made.
pub struct Ends<L: Link> {
    pub(crate) links: LinkEnds<L>,
    pub(crate) names: NameEnds,
}

impl<L: Link> Model for Ends<L> {
    ghost use Rattle.sp_ends.specs.EndViews.{EndsView};

    ghost Value = { EndsView L };

    ghost view = { λ e. record { links = e.links; names = e.names } };
}

impl<L: Link> Ends<L> {
    /// No ends. The key of the n-th opening over WebSocket that is dialed, from 0, is made from `dice` + n.
    pub fn new(alloc: Global, role: Role, dice: u32) -> Result<Ends<L>, NoMemory>
        ensures { IfOk result (λ e. e ≡ no_ends role dice) }
    {
        Ok(Ends {
            links: LinkEnds::new(alloc, role, dice)?,
            names: NameEnds::new(alloc),
        })
    }

    /// Listens on one more address of any kind: for TCP, IPC and WebSocket over the net, for names in `inproc`. A
    /// message of more than `max` bytes takes its pipe down; within the process there is no limit. Returns `InUse` only
    /// where the name is already listened on there.
    pub fn listen<N: Net<L = L>>(
        &mut self,
        net: &mut N,
        inproc: &mut Inproc,
        addr: &Addr,
        max: u32,
    ) -> Result<(), EndError>
        ensures { ListensAlso result addr.now max self.old self.new (N.seen net.old) (N.seen net.new) inproc.old inproc.new }
    {
        match addr {
            Addr::Tcp { host: _, port: _ } => self.links.listen(net, addr, max),
            Addr::Ws {
                host: _,
                port: _,
                path: _,
            } => self.links.listen(net, addr, max),
            Addr::Ipc { path: _ } => self.links.listen(net, addr, max),
            Addr::Inproc { name } => self.names.listen(inproc, name.as_slice(), self.links.role),
        }
    }

    /// Dials one more address, of any kind, from the next turn on. A message of more than `max` bytes takes its pipe
    /// down; within the process there is no limit.
    pub fn dial(&mut self, addr: &Addr, max: u32) -> Result<(), EndError>
        requires dialable { is_linked addr.now ≡ true → is_dialable addr.now ≡ true }
        ensures { DialsAlso result addr.now max self.old self.new }
    {
        match addr {
            Addr::Tcp { host: _, port: _ } => self.links.dial(addr, max),
            Addr::Ws {
                host: _,
                port: _,
                path: _,
            } => self.links.dial(addr, max),
            Addr::Ipc { path: _ } => self.links.dial(addr, max),
            Addr::Inproc { name } => self.names.dial(name.as_slice()),
        }
    }
}
