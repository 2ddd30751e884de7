//! What the machines of several protocols share: the operations that are pending (`pending`), the copies of a send
//! that goes to all pipes (`flood_copies`), and hop counts (`hops`).
#![tactic(auto)]

mod flood_copies;
mod hops;
mod pending;

pub use flood_copies::{copies, copies_of};
pub use hops::{hops_of, next_hops};
pub use pending::Pending;
