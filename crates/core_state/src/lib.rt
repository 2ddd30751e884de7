//! The state of a core, in parts: the words of its operations with its own seat, the lists of operations, the pipes with
//! their wires, and the counts. The core itself, with its calls, is `sp_core`.
//!
//! One relation ties each part to a moment of the socket's history (`OpWordsStand`, `OperationsStand`, `PipesStand`,
//! `Tallies`). Each of its calls goes from the relation at one moment to the relation with one more entry. No part uses
//! another.
//!
//! Who owns what: `OpWords` has the words, which callers share, and the core's one seat at them. `Operations` has the
//! lists of pending and ended operations, the free slots and the deadlines, with all memory taken at the start. `Pipes`
//! has each wire from the moment it becomes a pipe until it is taken. `Tally` has only numbers. All of them belong to
//! one core.
//!
//! Operations that are pending are kept by slot (`pending`), in doubly linked lists of slots (`rings`): one of all, in
//! the order of their begins, and one for each bucket of contexts, in the same order. A context's bucket is its number
//! modulo the number of slots. To add or to take out an operation changes two neighbours in each of its two rings, and
//! nothing is searched. To find those of a context, its bucket is walked and each is tested for the context.
//!
//! The order to read: `op_words`, with `reading` for what callers' seats show; `operations`, with `pending` and
//! `rings`, `leaving` for what goes out of the lists and `outcome` for what an operation ended with; `pipes`, with
//! `wire_list` for what a closed core leaves; `tally`; `fresh`, which makes a new core's parts; and last `asks`, the
//! questions to a machine, with `causes` and `served`, what calls of a core return.
#![tactic(auto)]

mod asks;
mod causes;
mod fresh;
mod leaving;
mod op_words;
mod operations;
mod outcome;
mod pending;
mod pipes;
mod reading;
mod rings;
mod served;
mod tally;
mod wire_list;

pub use asks::{copy_of, has_ctxs, has_its_one, has_tops, is_ctx_open};
pub use causes::{AttachError, BeginError, CtxError, NowError, TopicError};
pub use fresh::{drop_parts, fresh_parts};
pub use op_words::{Decision, OpWords};
pub use operations::{EndedOperation, Operations};
pub use outcome::Outcome;
pub use pending::{PendingOperation, PendingOps};
pub use pipes::{Asked, DownPipe, Flushed, PipePlace, Pipes, Pulled};
pub use served::Served;
pub use tally::Tally;
pub use wire_list::WireList;
