//! Connections that were begun and aren't established yet, and those to Unix sockets, which are made at once.
use crate::stream::LinkStream;
use crate::wake::{Mark, Wakes};
use mio::net::{TcpStream, UnixStream};
use std::alloc::Global;
use std::collections::BTreeMap;
use std::io;
use std::io::ErrorKind;
use std::net::{Net, SocketAddr};

/// How many milliseconds a connection may take. Packets to its peer may be dropped; then it is given up, and a new one
/// is begun at once.
const LIMIT: u64 = 5_000;

/// The result of a dial.
pub(crate) enum Dialed {
    /// The connection is established.
    Made(LinkStream, Mark),
    /// It is under way.
    Begun,
    /// The address has no listener, or its path isn't there.
    Refused,
    Failed(io::Error),
}

/// A connection under way.
#[derive(Drop)]
struct Dialing {
    stream: TcpStream,
    // Set when the machine reported the connection since it was last checked.
    mark: Mark,
    // The pace's tick when it was begun.
    begun: u64,
}

/// The connections under way, by their addresses.
#[derive(Drop)]
pub(crate) struct Dials {
    under_way: BTreeMap<SocketAddr, Dialing>,
}

// Returns whether there is no listener yet.
fn is_refused(e: &io::Error) -> bool {
    matches!(
        e.kind(),
        ErrorKind::ConnectionRefused | ErrorKind::TimedOut | ErrorKind::WouldBlock
    )
}

fn not_made(e: io::Error) -> Dialed {
    if is_refused(&e) {
        Dialed::Refused
    } else {
        Dialed::Failed(e)
    }
}

// Returns whether a connection is established. A socket that is connected to itself counts as refused.
fn is_made(stream: &TcpStream) -> io::Result<bool> {
    if let Some(e) = stream.take_error()? {
        return Err(e);
    }
    match stream.peer_addr() {
        Ok(peer) => {
            if peer == stream.local_addr()? {
                Err(io::Error::from(ErrorKind::ConnectionRefused))
            } else {
                Ok(true)
            }
        }
        Err(e) => {
            if e.kind() == ErrorKind::NotConnected {
                Ok(false)
            } else {
                Err(e)
            }
        }
    }
}

impl Dialing {
    // Begins a connection whose socket ends rests of the pace.
    fn begin<R: Net>(rt: &R, wakes: &Wakes, to: SocketAddr) -> io::Result<Dialing> {
        let mut stream = TcpStream::connect(rt, to)?;
        let mark = wakes.mark(&mut stream);
        Ok(Dialing {
            stream,
            mark,
            begun: wakes.tick(),
        })
    }

    fn is_old(&self, tick: u64, limit: u64) -> bool {
        tick.saturating_sub(self.begun) >= limit
    }
}

impl Dials {
    /// No connection is under way.
    pub(crate) fn new(alloc: Global) -> Dials {
        Dials {
            under_way: BTreeMap::new(alloc),
        }
    }

    /// Asks for the connection to an address, and begins one if none is under way. Where nothing was reported for it,
    /// this makes no system call.
    pub(crate) fn ask<R: Net>(&mut self, rt: &R, wakes: &Wakes, to: SocketAddr) -> Dialed {
        if self.is_quiet(wakes.tick(), to) {
            return Dialed::Begun;
        }
        let dialing = match self.under_way.remove(&to) {
            Some(dialing) => dialing,
            None => {
                self.forget_one(wakes);
                match Dialing::begin(rt, wakes, to) {
                    Ok(dialing) => dialing,
                    Err(e) => return not_made(e),
                }
            }
        };
        self.look(wakes, to, dialing)
    }

    // Returns whether nothing was reported for the connection to an address, and it isn't given up yet.
    fn is_quiet(&self, tick: u64, to: SocketAddr) -> bool {
        match self.under_way.get(&to) {
            Some(dialing) => !dialing.mark.is_set() && !dialing.is_old(tick, LIMIT),
            None => false,
        }
    }

    // Checks the state of a connection with the machine.
    fn look(&mut self, wakes: &Wakes, to: SocketAddr, dialing: Dialing) -> Dialed {
        let _ = dialing.mark.take();
        match is_made(&dialing.stream) {
            Ok(true) => Dialed::Made(LinkStream::Tcp(dialing.stream), dialing.mark),
            Ok(false) => self.keep(wakes, to, dialing),
            Err(e) => {
                let _ = wakes.unmark(dialing.mark);
                not_made(e)
            }
        }
    }

    // Keeps a connection for the next dial, if it isn't too old, and there is memory for it.
    fn keep(&mut self, wakes: &Wakes, to: SocketAddr, dialing: Dialing) -> Dialed {
        if dialing.is_old(wakes.tick(), LIMIT) {
            let _ = wakes.unmark(dialing.mark);
            return Dialed::Refused;
        }
        match self.under_way.insert(to, dialing) {
            Ok(_) => Dialed::Begun,
            Err(_) => Dialed::Refused,
        }
    }

    // Gives up a connection that was not asked for in a long time, if there is one.
    fn forget_one(&mut self, wakes: &Wakes) {
        let Some(to) = self.forgotten(wakes.tick()) else {
            return;
        };
        if let Some(dialing) = self.under_way.remove(&to) {
            let _ = wakes.unmark(dialing.mark);
        }
    }

    fn forgotten(&self, tick: u64) -> Option<SocketAddr> {
        for (to, dialing) in self.under_way.iter() {
            if dialing.is_old(tick, LIMIT.saturating_mul(2)) {
                return Some(*to);
            }
        }
        None
    }
}

// Connects to a Unix socket. Doesn't wait.
fn connect<R: Net>(rt: &R, path: &[u8]) -> io::Result<UnixStream> {
    match std::str::from_utf8(path) {
        Ok(path) => UnixStream::connect(rt, path),
        Err(_) => Err(io::Error::from(ErrorKind::InvalidInput)),
    }
}

/// A connection to a Unix socket, which is made at once or not at all. It counts as refused where nobody listens, where
/// the path isn't there, and where the listener has no room for one more.
pub(crate) fn dial_unix<R: Net>(rt: &R, wakes: &Wakes, path: &[u8]) -> Dialed {
    match connect(rt, path) {
        Ok(mut stream) => {
            let mark = wakes.mark(&mut stream);
            Dialed::Made(LinkStream::Unix(stream), mark)
        }
        Err(e) => {
            if e.kind() == ErrorKind::NotFound {
                Dialed::Refused
            } else {
                not_made(e)
            }
        }
    }
}
