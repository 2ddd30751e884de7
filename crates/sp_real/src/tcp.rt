//! TCP and Unix sockets without waiting.
ghost use Rattle.std.specs.Prelude.{◌≡◌, ◌≢◌, ◌⊎◌, ◌↔◌, IsTrue, IsSome, Some};
ghost use Rattle.std.specs.FinMap as map;
ghost use Rattle.std.specs.IoError.{error_kind};
ghost use Rattle.std.specs.declared.io.ErrorKind.TheVariants as kinds;
ghost use Rattle.sp_base.specs.Addresses.{scheme_of};
ghost use Rattle.sp_base.specs.Listeners.{listens_of};
ghost use Rattle.sp_base.specs.Steps.{AfterLinking};
ghost use Rattle.sp_base.specs.declared.outside.Linked.TheVariants as linked;
ghost use Rattle.sp_real.specs.Real.{link_view, real_net_view, unasked_net};

use crate::back::ReturnedLinks;
use crate::dial::{Dialed, Dials, dial_unix};
use crate::fault::{NetFault, Place, SocketPath};
use crate::leave::Leavers;
use crate::link::{TcpLink, waits};
use crate::pace::RealPace;
use crate::stream::LinkStream;
use crate::wake::{ANY, Mark, Wakes};
use mio::Interest;
use mio::net::{TcpListener, UnixListener};
use sp_base::{Addr, Host, Linked, Listened, ListenerSchemes, Net, Scheme};
use std::alloc::Global;
use std::fs::Files;
use std::io;
use std::io::ErrorKind;
use std::net::{IpAddr, Ipv4Addr, SocketAddr};
use std::rt::Clock;

/// A socket that listens.
#[derive(Drop)]
enum ListenSocket {
    Tcp(TcpListener),
    Unix(UnixListener),
}

/// A listener, and its place.
#[derive(Drop)]
struct Listener {
    socket: ListenSocket,
    place: Place,
}

/// TCP (nng_tcp(7)), and IPC over Unix sockets (nng_ipc(7)). The file of a Unix socket is made by its listen, which fails
/// where the path is there already, and stays. Listeners, links and dials don't wait. A connection that isn't established yet is kept by its
/// address until it is asked for again, and given up after five seconds of the pace. A link that was given back is
/// closed at the next listen, accept or dial, or by `finish`.
#[derive(Drop)]
pub struct TcpNet<R: std::net::Net + Drop> {
    rt: R,
    wakes: Wakes,
    listeners: Vec<Listener>,
    dials: Dials,
    leavers: Leavers,
    schemes: ListenerSchemes,
    opened: u32,
    back: ReturnedLinks,
    faults: u64,
    idles: u64,
    last_fault: Option<NetFault>,
}

impl<R: std::net::Net + Drop> TcpNet<R> {
    /// A net that has no listeners and has handed out no link. Its sockets end the rests of the pace whose registry
    /// this is.
    pub fn new(rt: R, wakes: Wakes, alloc: Global) -> TcpNet<R>
        ensures { real_net_view result.schemes result.opened result.back.entries result.faults result.idles ≡ unasked_net }
    {
        TcpNet {
            rt,
            wakes,
            listeners: Vec::new(alloc),
            dials: Dials::new(alloc),
            leavers: Leavers::new(alloc),
            schemes: ListenerSchemes::new(alloc),
            opened: 0,
            back: ReturnedLinks::none(),
            faults: 0,
            idles: 0,
            last_fault: None,
        }
    }

    /// The last listen, accept or dial that failed, if the machine gave a reason.
    pub fn last_fault(&self) -> Option<NetFault> {
        self.last_fault
    }

    /// Reads and drops what comes on the links that were given back, all at once, until each peer has ended its stream
    /// too, for at most 2,000 ms; then closes them. So a peer that takes long gets all that was written on its link.
    /// Returns how many links were reset, or had a peer that did not end. The pace is the one of the net's registry.
    pub fn finish<C: Clock + Drop>(&mut self, pace: &mut RealPace<C>) -> u32
        ensures { real_net_view self.new.schemes self.new.opened self.new.back.entries self.new.faults self.new.idles ≡ real_net_view self.old.schemes self.old.opened self.old.back.entries self.old.faults self.old.idles }
    {
        self.leavers.finish(&self.wakes, pace)
    }

    // Closes the links that were given back.
    fn close_left(&mut self)
        ensures { self.new ≡ record self.old { leavers = self.new.leavers } }
    {
        let _ = self.leavers.close(&self.wakes);
    }

    // The place of a listener.
    fn place(&self, at: u32) -> Place
        requires { IsSome (map.get (listens_of self.now.schemes) at) }
        ensures { Some result.scheme ≡ map.get (listens_of self.now.schemes) at }
    {
        let scheme = self.schemes.scheme(at);
        let (host, port, path) = match self.listeners.get(at as usize) {
            Some(listener) => (
                listener.place.host,
                listener.place.port,
                listener.place.path,
            ),
            None => (Host::Any, 0, SocketPath::of(b"")),
        };
        Place {
            scheme,
            host,
            port,
            path,
        }
    }

    // Asks the machine for a connection.
    fn asked(&mut self, addr: &Addr, place: Place) -> Dialed
        ensures { self.new ≡ record self.old { dials = self.new.dials } }
    {
        if place.scheme == Scheme::Ipc {
            return dial_unix(&self.rt, &self.wakes, path_of(addr));
        }
        match socket_addr(place) {
            Ok(to) => self.dials.ask(&self.rt, &self.wakes, to),
            Err(e) => Dialed::Failed(e),
        }
    }

    // Makes a link of this connection, if a place is left for one.
    fn hand_out(&mut self, stream: LinkStream, mark: Mark, place: Place) -> Linked<TcpLink>
        ensures not_begun { result ≢ linked.Begun }
        ensures shows { AfterLinking link_view result (Some place.scheme) (real_net_view self.old.schemes self.old.opened self.old.back.entries self.old.faults self.old.idles) (real_net_view self.new.schemes self.new.opened self.new.back.entries self.new.faults self.new.idles) }
    {
        if self.opened < u32::MAX - 1 {
            self.leavers.hand_out();
            let link = TcpLink::new(stream, mark, self.opened, place.scheme);
            self.opened += 1;
            return Linked::Got(link);
        }
        let _ = self.wakes.unmark(mark);
        self.fail(place, io::Error::other("no number is left for a link"))
    }

    // Records that an accept or a dial failed.
    fn fail(&mut self, place: Place, error: io::Error) -> Linked<TcpLink>
        ensures failed { result ≡ linked.Failed }
        ensures shows { AfterLinking link_view result (Some place.scheme) (real_net_view self.old.schemes self.old.opened self.old.back.entries self.old.faults self.old.idles) (real_net_view self.new.schemes self.new.opened self.new.back.entries self.new.faults self.new.idles) }
    {
        self.last_fault = Some(NetFault::new(place, error));
        self.faults = self.faults.saturating_add(1);
        Linked::Failed
    }
}

// The path of an address of IPC; of another it is empty.
fn path_of(addr: &Addr) -> &[u8] {
    match addr {
        Addr::Tcp { host: _, port: _ } => b"",
        Addr::Ws {
            host: _,
            port: _,
            path: _,
        } => b"",
        Addr::Inproc { name: _ } => b"",
        Addr::Ipc { path } => path.as_slice(),
    }
}

// The place of an address.
fn place_of(addr: &Addr) -> Place
    ensures { result.scheme ≡ scheme_of addr.now }
{
    let (host, port) = match addr {
        Addr::Tcp { host, port } => (*host, *port),
        Addr::Ws {
            host,
            port,
            path: _,
        } => (*host, *port),
        Addr::Inproc { name: _ } => (Host::Any, 0),
        Addr::Ipc { path: _ } => (Host::Any, 0),
    };
    Place {
        scheme: addr.scheme(),
        host,
        port,
        path: SocketPath::of(path_of(addr)),
    }
}

// The socket address of a place. A place within the process or the machine has none.
fn socket_addr(place: Place) -> io::Result<SocketAddr> {
    if place.scheme == Scheme::Inproc || place.scheme == Scheme::Ipc {
        return Err(io::Error::from(ErrorKind::Unsupported));
    }
    let ip = match place.host {
        Host::Any => Ipv4Addr::new(0, 0, 0, 0),
        Host::V4(a, b, c, d) => Ipv4Addr::new(a, b, c, d),
    };
    Ok(SocketAddr::new(IpAddr::V4(ip), place.port))
}

// A socket that listens on TCP and ends rests.
fn bind_tcp<R: std::net::Net>(rt: &R, wakes: &Wakes, place: Place) -> io::Result<ListenSocket> {
    let mut socket = TcpListener::bind(rt, socket_addr(place)?)?;
    let _ = wakes
        .registry
        .register(&mut socket, ANY, Interest::READABLE);
    Ok(ListenSocket::Tcp(socket))
}

// A Unix socket that listens and ends rests. Makes the file, which must not be there yet.
fn bind_unix<R: std::net::Net + Files>(
    rt: &R,
    wakes: &Wakes,
    path: &[u8],
) -> io::Result<ListenSocket> {
    let Ok(path) = std::str::from_utf8(path) else {
        return Err(io::Error::from(ErrorKind::InvalidInput));
    };
    let mut socket = UnixListener::bind(rt, path)?;
    let _ = wakes
        .registry
        .register(&mut socket, ANY, Interest::READABLE);
    Ok(ListenSocket::Unix(socket))
}

// A listener whose socket ends rests.
fn bind<R: std::net::Net + Files>(
    rt: &R,
    wakes: &Wakes,
    addr: &Addr,
    place: Place,
) -> io::Result<Listener> {
    let socket = if place.scheme == Scheme::Ipc {
        bind_unix(rt, wakes, path_of(addr))?
    } else {
        bind_tcp(rt, wakes, place)?
    };
    Ok(Listener { socket, place })
}

// Takes a connection of a listener. The new socket is ready to write, which ends the next rest. So the connections
// after this one are asked for though the machine doesn't report them.
fn take_one(wakes: &Wakes, listeners: &[Listener], at: u32) -> io::Result<(LinkStream, Mark)> {
    let Some(listener) = listeners.get(at as usize) else {
        return Err(io::Error::from(ErrorKind::NotFound));
    };
    match &listener.socket {
        ListenSocket::Tcp(socket) => {
            let (mut stream, _) = socket.accept()?;
            let mark = wakes.mark(&mut stream);
            Ok((LinkStream::Tcp(stream), mark))
        }
        ListenSocket::Unix(socket) => {
            let (mut stream, _) = socket.accept()?;
            let mark = wakes.mark(&mut stream);
            Ok((LinkStream::Unix(stream), mark))
        }
    }
}

// Returns whether there is no connection yet, or one that came is gone again.
fn nobody_came(e: &io::Error) -> bool
    ensures { IsTrue result ↔ ((error_kind e.now ≡ kinds.WouldBlock) ⊎ (error_kind e.now ≡ kinds.Interrupted) ⊎ (error_kind e.now ≡ kinds.ConnectionAborted)) }
{
    waits(e) || e.kind() == ErrorKind::ConnectionAborted
}

impl<R: std::net::Net + Files + Drop> Net for TcpNet<R> {
    type L = TcpLink;

    ghost seen = { λ n. real_net_view n.schemes n.opened n.back.entries n.faults n.idles };

    fn listen(&mut self, addr: &Addr) -> Listened {
        self.close_left();
        let place = place_of(addr);
        let error = match bind(&self.rt, &self.wakes, addr, place) {
            Ok(listener) => {
                if self.listeners.push(listener).is_ok() {
                    if let Ok(number) = self.schemes.add(addr.scheme()) {
                        return Listened::At(number);
                    }
                    let _ = self.listeners.pop();
                }
                io::Error::from(ErrorKind::OutOfMemory)
            }
            Err(e) => e,
        };
        self.last_fault = Some(NetFault::new(place, error));
        self.faults = self.faults.saturating_add(1);
        Listened::Failed
    }

    fn accept(&mut self, at: u32) -> Linked<TcpLink> {
        self.close_left();
        let place = self.place(at);
        match take_one(&self.wakes, &self.listeners, at) {
            Ok((stream, mark)) => self.hand_out(stream, mark, place),
            Err(e) => {
                if nobody_came(&e) {
                    self.idles = self.idles.saturating_add(1);
                    Linked::NotYet
                } else {
                    self.fail(place, e)
                }
            }
        }
    }

    fn dial(&mut self, addr: &Addr) -> Linked<TcpLink> {
        self.close_left();
        let place = place_of(addr);
        match self.asked(addr, place) {
            Dialed::Made(stream, mark) => self.hand_out(stream, mark, place),
            Dialed::Begun => {
                self.idles = self.idles.saturating_add(1);
                Linked::Begun
            }
            Dialed::Refused => {
                self.idles = self.idles.saturating_add(1);
                Linked::NotYet
            }
            Dialed::Failed(e) => self.fail(place, e),
        }
    }

    fn give_back(&mut self, link: TcpLink) {
        let (stream, mark, counts) = link.into_parts();
        self.leavers.take_back(&self.wakes, stream, mark, &counts);
        self.back = self.back.with(&counts);
    }
}
