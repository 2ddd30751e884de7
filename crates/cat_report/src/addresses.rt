//! The place where a text stops being an address.
use sp_base::{Addr, AddrError};
use std::alloc::Global;

/// The bytes of a text that begin some address, and what follows them.
#[derive(Clone, Copy)]
pub struct Fault<'a> {
    /// The number of bytes that begin some address.
    pub at: u32,
    /// The rest of the text.
    pub rest: &'a [u8],
}

/// Where the text stops being an address; `None` where it is one, or when out of memory.
pub fn fault_of(alloc: Global, text: &str) -> Option<Fault<'_>> {
    match Addr::read(alloc, text) {
        Ok(_) => None,
        Err(AddrError::NoMemory) => None,
        Err(AddrError::Fault { at }) => Some(Fault {
            at,
            rest: text.as_bytes().get(at as usize..)?,
        }),
    }
}
