//! The socket, its beginning and its end.
ghost use Rattle.std.specs.Prelude.{◌≡◌, ◌≤◌, ◌<◌, [], IfOk, true};
ghost use Rattle.sp_proto.specs.Kinds.{Kind, Starts, setting_of};
ghost use Rattle.sp_history.specs.Past.{past_of, is_closed};
ghost use Rattle.sp_socket.specs.Singles.{FinishedAs, IsNewSingle};

use crate::begin::open;
use crate::config::Config;
use crate::finish::Finished;
use crate::list::SocketPasses;
use crate::pass::Pass;
use crate::record::Record;
use crate::socket::Socket;
use sp_base::NoMemory;
use sp_core::WireList;
use sp_msg::Wire;
use sp_proto::Proto;
use std::alloc::Global;
use std::marker::Model;
use std::sync::Wait;

/// A socket (nng_socket(5)) with its one caller. It must be spent: `finish` ends it.
pub struct Single<P: Proto, W: Wire> {
    pub(crate) socket: Socket<P, W>,
    // Empty while the pass is handed out.
    passes: SocketPasses<P, W>,
    pub(crate) pass: Pass<P, W>,
}

impl<P: Proto, W: Wire> Model for Single<P, W> {
    ghost use Rattle.sp_socket.specs.Singles.{SingleView, single_of, IsSingle};

    ghost Value = { SingleView };

    ghost view = { λ s. single_of s.pass };

    ghost invariant = { λ s. IsSingle s.socket s.passes s.pass };
}

/// What is left of a finished socket. The list of wires must be spent (nng_close(3)).
pub struct SingleEnd<W> {
    /// The wires that were not taken.
    pub wires: WireList<W>,
    /// The whole history.
    pub record_: Record,
}

impl<P: Proto + Drop, W: Wire> Single<P, W> {
    /// Opens a socket of `slots` slots, 1 to 4,096, over a machine in its initial state.
    pub fn open(alloc: Global, proto: P, slots: u32) -> Result<Single<P, W>, NoMemory>
        requires starts { (k : Kind) × Starts P.ties proto k }
        requires slots { (1 ≤ slots) × (slots ≤ 4096) }
        ensures { IfOk result (IsNewSingle (setting_of (P.kind proto) slots 1)) }
    {
        let config = Config { slots, callers: 1 };
        match open(alloc, proto, config) {
            Err(_) => Err(NoMemory),
            Ok((socket, mut passes)) => {
                let Some(pass) = passes.pop() else {
                    unreachable!()
                };
                Ok(Single {
                    socket,
                    passes,
                    pass,
                })
            }
        }
    }
}

impl<P: Proto, W: Wire> Single<P, W> {
    /// Ends a closed socket. Takes no memory.
    pub fn finish<R: Wait>(self, rt: &R) -> SingleEnd<W>
        requires closed { is_closed (past_of self.seen) ≡ true }
        ensures { FinishedAs W.shown self result.wires result.record_.turns }
    {
        let Single {
            socket,
            mut passes,
            pass,
        } = self;
        passes.give(pass);
        let Finished { wires, record_ } = socket.finish(rt, passes);
        SingleEnd { wires, record_ }
    }
}
