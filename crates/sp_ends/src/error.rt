//! Why an end could not be added.
ghost use Rattle.std.specs.Prelude.{◌≡◌};
ghost use Rattle.sp_ends.specs.Errors.{end_number};

use sp_base::SpError;

/// Why an end could not be added (nng_listen(3), nng_dial(3)). As an `SpError` it is an NNG error; a net that fails to
/// listen is taken as an address in use.
#[derive(Clone, Copy, Debug, PartialEq, Eq)]
pub enum EndError {
    /// The net failed to listen.
    Fault,
    /// The name is listened on within the process.
    InUse,
    /// Out of memory.
    NoMemory,
}

impl From<EndError> for SpError {
    ghost from_gives = { λ why r. r ≡ end_number why };

    fn from(why: EndError) -> SpError {
        match why {
            EndError::Fault => SpError::InUse,
            EndError::InUse => SpError::InUse,
            EndError::NoMemory => SpError::NoMemory,
        }
    }
}
