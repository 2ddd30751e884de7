//! Bytes that are written and compared.
ghost use Rattle.std.specs.Prelude.{◌<◌, length, IfOk};

use sp_base::NoMemory;
use std::alloc::Global;

// The byte at a place of what is sent; neighbouring places have different bytes.
fn pattern(at: usize) -> u8 {
    (at.wrapping_mul(7).wrapping_add(at / 251) % 251) as u8
}

/// The first `n` bytes of the pattern.
pub fn patterned(alloc: Global, n: usize) -> Result<Vec<u8>, NoMemory>
    ensures { IfOk result (λ v. 0 < n → 0 < length v.items) }
{
    let mut bytes = Vec::new(alloc);
    for at in 0..n {
        bytes.push(pattern(at))?;
    }
    Ok(bytes)
}

/// `n` bytes, each of which says how many are left.
pub fn counted(alloc: Global, n: u32) -> Result<Vec<u8>, NoMemory> {
    let mut bytes = Vec::new(alloc);
    for gone in 0..n {
        bytes.push((n.saturating_sub(gone) % 251) as u8)?;
    }
    Ok(bytes)
}
