//! The ends of a socket: where it listens, whom it dials, and the links and lanes that these bring, until they are pipes.
//!
//! A turn of the ends comes once between two ticks. It takes the wires whose pipes are down and gives their links back,
//! goes on with the greetings that are under way, and then asks each listener for up to 16 links and dials each address
//! that is due. A link is greeted as soon as it is handed out. One that is greeted becomes a pipe; one that can't is
//! shut and given back, with the cause recorded in the history. So at every moment each link that the net handed out is
//! in one of three places: among the newcomers, with the socket, or back.
//!
//! Names within the process are dialed and asked after that. What they bring is a lane, which needs no greeting: it
//! becomes a pipe in the same turn, at a place that no link has, or it is shut, which tells the other half.
//!
//! `newcomer` has one link in its opening, `greeting` its fate, `shut` links and wires that are given back; `dialer`
//! one address that is dialed, `listener` one that is listened on; `name_dialer` one name that is dialed, `names` all
//! names. `links` has all ends over links, `ends` these and the names; `turn` what one turn does, `leave` how it ends.
//!
//! The relation between the links, their net and the history of the socket is `LinksStand` (`specs/RunLinks`); what
//! follows for them from the record is in `specs/LinkRecords` and `specs/LinkCounts`.
#![tactic(auto)]

mod counts;
mod dialer;
mod ends;
mod error;
mod greeting;
mod leave;
mod links;
mod listener;
mod name_dialer;
mod names;
mod newcomer;
mod shut;
mod turn;

pub use ends::Ends;
pub use error::EndError;
pub use turn::EndsTurn;
