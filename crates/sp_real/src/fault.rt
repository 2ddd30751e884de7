//! Why the machine refused something.
use sp_base::{Host, Scheme};
use std::io::ErrorKind;
use std::{fmt, io};

/// Why a call of the machine failed. Its text is short, such as `address in use`.
#[derive(Clone, Copy, Debug)]
pub struct Reason {
    error: io::Error,
}

impl Reason {
    /// The reason for an error of the machine.
    pub fn of(error: io::Error) -> Reason {
        Reason { error }
    }
}

impl fmt::Display for Reason {
    fn fmt<W: fmt::Write>(&self, f: &mut fmt::Formatter<W>) -> fmt::Result {
        match self.error.kind() {
            ErrorKind::NotFound => f.write_str("no such file"),
            ErrorKind::AddrNotAvailable => f.write_str("no such address on this machine"),
            ErrorKind::Other | ErrorKind::Uncategorized => fmt::Display::fmt(&self.error, f),
            kind => fmt::Display::fmt(&kind, f),
        }
    }
}

/// Where a listen, an accept or a dial failed, and why. Its text is like `tcp://127.0.0.1:80: permission denied` or
/// `ipc:///tmp/a: address in use`; the path of a WebSocket address is left out.
#[derive(Clone, Copy, Debug)]
pub struct NetFault {
    place: Place,
    reason: Reason,
}

/// Where a net listens or dials.
#[derive(Clone, Copy, Debug)]
pub(crate) struct Place {
    pub(crate) scheme: Scheme,
    pub(crate) host: Host,
    pub(crate) port: u16,
    /// For IPC; of other schemes it is empty.
    pub(crate) path: SocketPath,
}

/// The maximum length of the path of a Unix socket, in bytes.
const MOST_PATH: usize = 100;

/// The path of a Unix socket.
#[derive(Clone, Copy, Debug)]
pub(crate) struct SocketPath {
    bytes: [u8; MOST_PATH],
    length: usize,
}

impl SocketPath {
    /// This path, as far as there is room for it.
    pub(crate) fn of(path: &[u8]) -> SocketPath {
        let mut bytes = [0u8; MOST_PATH];
        let length = path.len().min(MOST_PATH);
        bytes[..length].copy_from_slice(&path[..length]);
        SocketPath { bytes, length }
    }

    /// Its text.
    pub(crate) fn as_str(&self) -> &str {
        let path = self.bytes.get(..self.length).unwrap_or(b"");
        std::str::from_utf8(path).unwrap_or("")
    }
}

impl NetFault {
    pub(crate) fn new(place: Place, error: io::Error) -> NetFault {
        NetFault {
            place,
            reason: Reason::of(error),
        }
    }

    /// The scheme of the address.
    pub fn scheme(&self) -> Scheme {
        self.place.scheme
    }

    /// The host of the address.
    pub fn host(&self) -> Host {
        self.place.host
    }

    /// The port of the address.
    pub fn port(&self) -> u16 {
        self.place.port
    }

    /// The path of an address of IPC; of another it is empty.
    pub fn path(&self) -> &str {
        self.place.path.as_str()
    }

    /// Why it failed.
    pub fn reason(&self) -> Reason {
        self.reason
    }
}

impl fmt::Display for Place {
    fn fmt<W: fmt::Write>(&self, f: &mut fmt::Formatter<W>) -> fmt::Result {
        let scheme = match self.scheme {
            Scheme::Tcp => "tcp",
            Scheme::Ws => "ws",
            Scheme::Inproc => "inproc",
            Scheme::Ipc => return write!(f, "ipc://{}", self.path.as_str()),
        };
        let port = self.port;
        match self.host {
            Host::Any => write!(f, "{scheme}://*:{port}"),
            Host::V4(a, b, c, d) => write!(f, "{scheme}://{a}.{b}.{c}.{d}:{port}"),
        }
    }
}

impl fmt::Display for NetFault {
    fn fmt<W: fmt::Write>(&self, f: &mut fmt::Formatter<W>) -> fmt::Result {
        write!(f, "{}: {}", self.place, self.reason)
    }
}
