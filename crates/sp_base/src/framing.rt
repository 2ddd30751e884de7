//! How messages follow one another on a stream.
ghost use Rattle.std.specs.Prelude.{◌≡◌};
ghost use Rattle.sp_base.specs.SpStream.{mark_of};

/// How messages follow one another on a stream, after the greetings (nng_tcp(7), nng_ipc(7)).
#[derive(Clone, Copy, Debug, PartialEq, Eq)]
pub enum Framing {
    /// SP over TCP: the size of a message in 64 bits, and that many bytes.
    Tcp,
    /// SP over IPC: the byte 1 comes before each size.
    Ipc,
}

impl Framing {
    /// The bytes that come before each size.
    pub fn mark(self) -> &'static [u8]
        ensures { result.now ≡ mark_of self }
    {
        match self {
            Framing::Tcp => b"",
            Framing::Ipc => b"\x01",
        }
    }
}
