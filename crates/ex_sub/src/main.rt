//! Dials as a sub, takes every topic, prints ten messages and ends. On the other side:
//! `nngcat --pub --listen tcp://127.0.0.1:5580 --data news --interval 1`. The address is the program's argument.
#![tactic(auto)]

use anyhow::{Context, Result, bail};
use proto_pubsub::Subscribe;
use sp_base::{Ctx, Link, Net, Pace, Role};
use sp_node::{Node, NodeEnds, RECV_MAX_SIZE, WaitError};
use sp_proto::Proto;
use sp_real::{end_side, real_side};
use sp_socket::Options;
use std::env;
use std::sync::Wait;

// Prints ten messages, each of which is waited for at most ten seconds.
fn receive<R: Wait + Print + AllocGlobal, P: Proto, L: Link, N: Net<L = L>, C: Pace>(
    rt: &R,
    sub: &mut Node<'_, R, P, L, N, C>,
) -> Result<()> {
    sub.subscribe(Ctx(0), b"").map_err(WaitError::from)?;
    for _ in 0..10 {
        let message = sub.recv(Some(10_000))?;
        let text = String::from_utf8_lossy(rt.alloc(), message.body())?;
        println!(rt; "{text}")?;
    }
    Ok(())
}

fn main(rt: HostRuntime) -> Result<()> {
    let alloc = rt.alloc();
    let mut words = env::args(&rt)?.skip(1);
    let address = words.next().context("usage: ex_sub tcp://127.0.0.1:5580")?;
    let (net, pace) = real_side(&rt)?;
    let Ok(machine) = Subscribe::new(alloc, Options::usual(Role::Sub, 0), false) else {
        bail!("Out of memory")
    };
    let Ok(mut ends) = NodeEnds::open(&rt, machine, net, pace, 0) else {
        bail!("Out of memory")
    };
    let dialed = ends.dial(&address, RECV_MAX_SIZE).context(&address);
    let mut sub = ends.start();
    let received = match dialed {
        Ok(()) => receive(&rt, &mut sub),
        Err(why) => Err(why),
    };
    let _ = end_side(sub.finish().side());
    received
}
