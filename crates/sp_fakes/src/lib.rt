//! The outside in memory: links that read by a script, a net that hands them out, a pace with a given number of turns,
//! a sink that keeps what was put, files, and wires of whole messages. Each is proved against its trait and tells
//! contracts its contents, so that a test shows what a caller did. Lists of numbers say which calls fail; the first
//! call is number 0.
#![tactic(auto)]

ghost use Rattle.std.specs.Prelude.{◌≡◌};
ghost use Rattle.sp_fakes.specs.Calls.{is_among};

mod files;
mod link;
mod net;
mod pace;
mod sink;
mod wire;

pub use files::MemFiles;
pub use link::{LinkStep, MemLink};
pub use net::{MemNet, NetLink, Returned};
pub use pace::MemPace;
pub use sink::MemSink;
pub use wire::{MemWire, WireStep};

// Returns whether a number is in the list of those that fail.
fn is_listed(fails: &[u64], call: u64) -> bool
    ensures { result ≡ is_among call fails.now }
{
    fails.contains(&call)
}
