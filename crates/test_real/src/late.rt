//! A pace whose time is set, and a connection that is given up by it.
use crate::checks::{holds, made};
use crate::links::{DialEnd, dial, fills, take_all};
use crate::nets::address;
use cat_run::real::{RealPace, TcpNet};
use sp_base::{Net, Pace};
use std::cell::Cell;
use std::io::Result as IoResult;
use std::net::{IpAddr, Ipv4Addr, OpenListener, SocketAddr, TcpListener};
use std::process::Abort;
use std::rt::Clock;
use std::time::Duration;

/// A clock that is set in milliseconds.
#[derive(Drop)]
struct SetClock<'a> {
    now: &'a Cell<u64>,
}

impl<'a> Clock for SetClock<'a> {
    fn monotonic(&self) -> IoResult<Duration> {
        Ok(Duration::from_millis(self.now.get()))
    }

    fn since_1970(&self) -> IoResult<Duration> {
        Ok(Duration::from_millis(self.now.get()))
    }
}

// The result of a dial at this time.
fn dial_at<N: Net, P: Pace>(
    net: &mut N,
    pace: &mut P,
    clock: &Cell<u64>,
    now: u64,
    port: u16,
) -> DialEnd {
    clock.set(now);
    let _paced = pace.turn(true);
    dial(net, &address(1, port))
}

// A connection that isn't made is asked for until five seconds are over, and then another one begins. `None` where the
// port is taken.
fn is_given_up<R: std::net::Net + std::fs::Files + AllocGlobal + Abort + Clone + Drop>(
    rt: &R,
    port: u16,
) -> Option<bool> {
    let to = SocketAddr::new(IpAddr::V4(Ipv4Addr::new(127, 0, 0, 1)), port);
    let listener = TcpListener::bind(rt, to).ok()?;
    let clock = Cell::new(10);
    let mut pace = made(rt, RealPace::new(SetClock { now: &clock }, rt, rt.alloc()));
    let registry = made(rt, pace.registry());
    let mut net = TcpNet::new(made(rt, rt.clone()), registry, rt.alloc());
    let begun = fills(&mut net, &address(1, port));
    let early = dial_at(&mut net, &mut pace, &clock, 4_900, port);
    let late = dial_at(&mut net, &mut pace, &clock, 5_100, port);
    let again = dial_at(&mut net, &mut pace, &clock, 5_200, port);
    drop(listener);
    let over = early == DialEnd::Begun && late == DialEnd::NotYet && again == DialEnd::Begun;
    Some(begun && over)
}

// The result of the dial after a connection under way was reported: its listener accepts what waits, or goes. The pace
// stands still, so the connection is never given up. `None` where the port is taken.
fn dial_when_reported<R: std::net::Net + std::fs::Files + AllocGlobal + Abort + Clone + Drop>(
    rt: &R,
    goes: bool,
    port: u16,
) -> Option<DialEnd> {
    let to = SocketAddr::new(IpAddr::V4(Ipv4Addr::new(127, 0, 0, 1)), port);
    let listener = TcpListener::bind(rt, to).ok()?;
    listener.set_nonblocking(true).ok()?;
    let clock = Cell::new(10);
    let mut pace = made(rt, RealPace::new(SetClock { now: &clock }, rt, rt.alloc()));
    let registry = made(rt, pace.registry());
    let mut net = TcpNet::new(made(rt, rt.clone()), registry, rt.alloc());
    let addr = address(1, port);
    if !fills(&mut net, &addr) {
        return Some(DialEnd::Fails);
    }
    let _ = pace.rest(0);
    if goes {
        drop(listener);
        let _ = pace.rest(8_000);
        return Some(dial(&mut net, &addr));
    }
    take_all(&listener);
    let _ = pace.rest(8_000);
    Some(dial(&mut net, &addr))
}

// Aborts where that dial isn't this.
fn dials_when_reported<R: std::net::Net + std::fs::Files + AllocGlobal + Abort + Clone + Drop>(
    rt: &R,
    goes: bool,
    wanted: DialEnd,
    first: u16,
) {
    for step in 0..30 {
        if let Some(end) = dial_when_reported(rt, goes, first.saturating_add(step)) {
            assert!(rt; end == wanted, "{end:?}");
            return;
        }
    }
    assert!(rt; false, "no port is free");
}

#[test]
fn a_connection_that_is_made_is_found_when_it_is_reported(rt: HostRuntime) {
    dials_when_reported(&rt, false, DialEnd::Links, 28_885);
}

#[test]
fn a_connection_whose_listener_goes_is_dialed_again(rt: HostRuntime) {
    dials_when_reported(&rt, true, DialEnd::NotYet, 28_925);
}

#[test]
fn a_connection_that_is_not_made_is_given_up_after_five_seconds(rt: HostRuntime) {
    for port in 28_715..28_745 {
        if let Some(so) = is_given_up(&rt, port) {
            holds(&rt, so);
            return;
        }
    }
    assert!(rt; false, "no port is free");
}
