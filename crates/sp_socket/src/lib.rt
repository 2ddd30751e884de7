//! A socket that several callers share: a core behind a turn lock, and for each caller a pass.
//!
//! A pass is a caller's right to take turns, its seat at the words of the operations, and room for the names that are
//! due. Each call with a pass enters the lock, does one call of the core for the pass's number, and leaves: so it is
//! one turn of that caller. What the call did and returned is stated over the history that the pass has then seen. No
//! call holds the lock while it waits for another caller; what ends an operation from outside the lock is one exchange
//! on its word.
//!
//! Who owns what: the lock owns the core, in a box, so that a turn moves one pointer; only a pass owns its seat. `open`
//! takes all room for operations, deadlines and names. `finish` takes the passes back, joins their seats, and hands out
//! the wires that were not taken and the record of the whole history.
//!
//! A program with one caller uses a `Single`: a socket with its one pass. Every turn of the history is this caller's,
//! so what it has seen is the whole history, and each call adds exactly one turn. Contracts see the history and its
//! setting.
#![tactic(auto)]

mod begin;
mod boxed;
mod calls;
mod cancel;
mod config;
mod contexts;
mod core_call;
mod expiring;
mod finish;
mod list;
mod pass;
mod pass_parts;
mod record;
mod shared;
mod single;
mod single_calls;
mod socket;
mod turn_calls;
mod wait;
mod waiters;

pub use aio_word::{Phase, Polled, Raced};
pub use begin::open;
pub use config::{Config, OpenError, Ticked};
pub use finish::Finished;
pub use list::SocketPasses;
pub use pass::Pass;
pub use record::Record;
pub use single::{Single, SingleEnd};
pub use socket::Socket;
pub use sp_core::{
    AttachError, BeginError, Collected, CtxError, Gone, NowError, Op, Outcome, Served, TopicError,
    WireList,
};
pub use sp_history::entry::{Cause, Miss, Totals, Why};
pub use sp_history::setting::Options;
