//! The sides of a connection.
ghost use Rattle.std.specs.Prelude.{◌≡◌};
ghost use Rattle.sp_ws.specs.Sides.{role_of};

use tungstenite::Role;

/// The side of the connection: a client masks what it sends (RFC 6455 section 5.3), with keys from the generator that
/// starts from the seed.
#[derive(Clone, Copy, Debug, PartialEq, Eq)]
pub enum Side {
    /// Listened: takes masked frames, sends bare ones (RFC 6455, 5.1).
    Server,
    /// Dialed: sends masked frames, takes bare ones (RFC 6455, 5.1).
    Client { seed: u64 },
}

impl Side {
    pub(crate) fn role(self) -> Role
        ensures { result ≡ role_of self }
    {
        match self {
            Side::Server => Role::Server,
            Side::Client { seed: _ } => Role::Client,
        }
    }

    pub(crate) fn seed(self) -> u64 {
        match self {
            Side::Server => 0,
            Side::Client { seed } => seed,
        }
    }
}
