//! How a link begins, and the wire of a pipe, whatever its transport is: TCP, IPC, WebSocket, or two lanes within the
//! process.
//!
//! Over TCP and IPC each side writes its greeting and reads that of its peer. Over WebSocket the dialing side writes a
//! request and reads the response, and the listening side reads the request and writes the response. `Way` says which of these
//! it is, `judge` what the bytes that came mean, however they are cut into pieces. `Opening` is a link that carries no
//! messages yet: it writes what it owes so far, reads until the peer's part is whole or wrong, and writes what it owes
//! for that. The bytes after the peer's part go to the wire.
//!
//! `EndWire` is the wire of a pipe. Each call is that of the wire inside, and so is each ghost definition. What its
//! clauses state besides those of `Wire` is what that wire states; a wire keeps its transport. A wire over WebSocket
//! also keeps how its link began (`OpenedWire`), since a history has nothing of a link but its wire's name. So this
//! name has the own role and the way, and the rest is an invariant of the wire until its link comes back.
//!
//! To read: `specs/Ways` (what must come, what is owed, what is wrong), `opening`, then `wire` and `over`.
#![tactic(auto)]

mod judge;
mod opened;
mod opening;
mod over;
mod way;
mod wire;

pub use opened::{OpenedWire, name_ways};
pub use opening::{Opening, Progress};
pub use way::{Way, copy_of, seed_of};
pub use wire::EndWire;
