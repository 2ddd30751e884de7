//! Dials as a req, asks once and prints the reply. On the other side:
//! `nngcat --rep --listen tcp://127.0.0.1:5579 --data hello`. The address is the program's argument.
#![tactic(auto)]

use anyhow::{Context, Result, bail};
use proto_reqrep::Request;
use sp_base::{Link, Net, Pace, Role};
use sp_msg::Message;
use sp_node::{Node, NodeEnds, RECV_MAX_SIZE};
use sp_proto::Proto;
use sp_real::{end_side, real_side};
use sp_socket::Options;
use std::env;
use std::sync::Wait;

// Asks, waits at most ten seconds for a peer and at most ten for its reply, and prints it.
fn ask<R: Wait + Print + AllocGlobal, P: Proto, L: Link, N: Net<L = L>, C: Pace>(
    rt: &R,
    req: &mut Node<'_, R, P, L, N, C>,
) -> Result<()> {
    let Ok(question) = Message::from_body(rt.alloc(), b"who is there?") else {
        bail!("Out of memory")
    };
    req.send(question, Some(10_000))?;
    let reply = req.recv(Some(10_000))?;
    let text = String::from_utf8_lossy(rt.alloc(), reply.body())?;
    println!(rt; "{text}")?;
    Ok(())
}

fn main(rt: HostRuntime) -> Result<()> {
    let alloc = rt.alloc();
    let mut words = env::args(&rt)?.skip(1);
    let address = words.next().context("usage: ex_req tcp://127.0.0.1:5579")?;
    let (net, pace) = real_side(&rt)?;
    let Ok(machine) = Request::new(alloc, Options::usual(Role::Req, 0), false) else {
        bail!("Out of memory")
    };
    let Ok(mut ends) = NodeEnds::open(&rt, machine, net, pace, 0) else {
        bail!("Out of memory")
    };
    let dialed = ends.dial(&address, RECV_MAX_SIZE).context(&address);
    let mut req = ends.start();
    let asked = match dialed {
        Ok(()) => ask(&rt, &mut req),
        Err(why) => Err(why),
    };
    let _ = end_side(req.finish().side());
    asked
}
