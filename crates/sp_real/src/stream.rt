//! The stream of a link: over TCP, or over a Unix socket.
ghost use Rattle.std.specs.Io.{ReadsAtMost, WritesAtMost};

use mio::net::{TcpStream, UnixStream};
use std::io;
use std::io::{Read, Write};
use std::net::Shutdown;

/// The stream of a link, which doesn't wait.
#[derive(Drop)]
pub(crate) enum LinkStream {
    Tcp(TcpStream),
    Unix(UnixStream),
}

impl LinkStream {
    /// Reads what is there.
    pub(crate) fn read(&mut self, buf: &mut [u8]) -> io::Result<usize>
        ensures { ReadsAtMost result buf.new }
    {
        match self {
            LinkStream::Tcp(stream) => stream.read(buf),
            LinkStream::Unix(stream) => stream.read(buf),
        }
    }

    /// Writes what the machine takes.
    pub(crate) fn write(&mut self, buf: &[u8]) -> io::Result<usize>
        ensures { WritesAtMost result buf.now }
    {
        match self {
            LinkStream::Tcp(stream) => stream.write(buf),
            LinkStream::Unix(stream) => stream.write(buf),
        }
    }

    /// Ends the own half of the stream.
    pub(crate) fn shut(&self) {
        let _ = match self {
            LinkStream::Tcp(stream) => stream.shutdown(Shutdown::Write),
            LinkStream::Unix(stream) => stream.shutdown(Shutdown::Write),
        };
    }

    /// Sends small messages at once (tcp(7), TCP_NODELAY). A Unix socket always does.
    pub(crate) fn hold_nothing(&self) {
        match self {
            LinkStream::Tcp(stream) => {
                let _ = stream.set_nodelay(true);
            }
            LinkStream::Unix(_) => {}
        }
    }

    /// Returns whether small messages are sent at once.
    pub(crate) fn nodelay(&self) -> io::Result<bool> {
        match self {
            LinkStream::Tcp(stream) => stream.nodelay(),
            LinkStream::Unix(_) => Ok(true),
        }
    }
}
