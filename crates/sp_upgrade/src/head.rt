//! The result for the bytes of a head that came.
ghost use Rattle.std.specs.Prelude.{List, ℕ};
ghost use Rattle.sp_base.specs.declared.role.Role.{Role};
ghost use Rattle.sp_upgrade.specs.Opening.{AreOne, ServerAnswers, ClientAnswers};

use sp_base::Bytes;

/// Why a head doesn't open a WebSocket, by the rules of RFC 6455, section 4.2.1 for a server and 4.1 for a client. A
/// server finds the first eleven, a client `TooLong`, `NotHttp`, `Version`, `Status`, `Upgrade`, `Connection`,
/// `Accept`, `Extension` and `Protocol`, each in this order.
#[derive(Clone, Copy, Debug, PartialEq, Eq)]
pub enum HeadFault {
    /// 8,192 bytes have no blank line.
    TooLong,
    /// Not an HTTP head of exactly this length, with at most 64 header lines.
    NotHttp,
    /// The method isn't GET.
    Method,
    /// The version isn't 1.1.
    Version,
    /// The target isn't the listener's path.
    Path,
    /// No Host line.
    Host,
    /// No Upgrade line has the token `websocket`.
    Upgrade,
    /// No Connection line has the token `upgrade`.
    Connection,
    /// Not exactly one Sec-WebSocket-Version line, of value 13.
    WsVersion,
    /// Not exactly one Sec-WebSocket-Key line, of the base64 of 16 bytes.
    Key,
    /// The subprotocol is not offered, or is not the one that was asked for.
    Protocol,
    /// The status isn't 101.
    Status,
    /// Not exactly one Sec-WebSocket-Accept line, of the value that answers the key.
    Accept,
    /// There is a Sec-WebSocket-Extensions line, though no extension was asked for.
    Extension,
}

/// The result of reading a head (RFC 6455 section 4).
#[derive(Debug, Drop)]
pub enum Head {
    /// The head isn't whole yet.
    More,
    /// A head that opens a WebSocket: it is the first `used` bytes, and `answer` is to be written.
    Good { used: u32, answer: Bytes },
    /// It doesn't open one, and no further bytes can change that.
    Bad(HeadFault),
    /// Out of memory for the answer to a good head; nothing is lost.
    NoMemory,
}

impl Head {
    /// The same bytes have one result on each side, except when out of memory.
    pub fn is_one()
        ensures server { (role : Role) (path came : List ℕ) → AreOne (λ answer. ServerAnswers answer came role path) }
        ensures client { (role : Role) (key came : List ℕ) → AreOne (λ answer. ClientAnswers answer came key role) }
    {}
}
