//! How much unused room for bytes is kept.
ghost use Rattle.std.specs.Prelude.{◌≡◌};

/// The maximum capacity of an empty buffer that is kept, in bytes.
pub(crate) const KEPT_ROOM: usize = 1_024;

/// Frees the room of an empty buffer, where it is more than is kept. Takes no memory.
pub(crate) fn give_back(bytes: &mut Vec<u8>)
    ensures { bytes.new.items ≡ bytes.old.items }
{
    if bytes.is_empty() && bytes.capacity() > KEPT_ROOM {
        bytes.shrink_to(0);
    }
}
