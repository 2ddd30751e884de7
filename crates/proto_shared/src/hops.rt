//! The hop count of pair version 1 (nng_pair(7)): the last byte of a word whose other bytes are zero.
ghost use Rattle.std.specs.Prelude.{◌≡◌};
ghost use Rattle.sp_history.specs.Hops.{hops_of, next_hops};

/// The hop count of a frame, if it has one.
pub fn hops_of(b: &[u8]) -> Option<u8>
    ensures { result ≡ hops_of b.now }
{
    match b {
        [w, x, y, hops, ..] if *w == 0 && *x == 0 && *y == 0 => Some(*hops),
        _ => None,
    }
}

/// The hop count with which a raw message that has this header goes out, if it has one.
pub fn next_hops(header: &[u8]) -> Option<u8>
    ensures { result ≡ next_hops header.now }
{
    match header {
        [w, x, y, hops] if *w == 0 && *x == 0 && *y == 0 && *hops < 255 => Some(*hops + 1),
        _ => None,
    }
}
