//! An address that is listened on.

use sp_base::Addr;

/// An address on which the net listens (nng_listener(5)).
#[derive(Debug, Drop)]
pub struct Listener {
    /// The number by which the net knows it.
    pub at: u32,
    /// It is reached over links of a net.
    pub addr: Addr,
    /// The receive limit of its links, in bytes.
    pub max: u32,
}
