//! Listens as a pull, prints ten messages and ends. On the other side, ten times:
//! `nngcat --push --dial tcp://127.0.0.1:5578 --data hello`. The address is the program's argument.
#![tactic(auto)]

use anyhow::{Context, Result, bail};
use proto_pipeline::Pull;
use sp_base::{Link, Net, Pace, Role};
use sp_node::{Node, NodeEnds, RECV_MAX_SIZE};
use sp_proto::Proto;
use sp_real::{end_side, real_side};
use sp_socket::Options;
use std::env;
use std::sync::Wait;

// Prints ten messages, each of which is waited for at most ten seconds.
fn receive<R: Wait + Print + AllocGlobal, P: Proto, L: Link, N: Net<L = L>, C: Pace>(
    rt: &R,
    pull: &mut Node<'_, R, P, L, N, C>,
) -> Result<()> {
    for _ in 0..10 {
        let message = pull.recv(Some(10_000))?;
        let text = String::from_utf8_lossy(rt.alloc(), message.body())?;
        println!(rt; "{text}")?;
    }
    Ok(())
}

fn main(rt: HostRuntime) -> Result<()> {
    let alloc = rt.alloc();
    let mut words = env::args(&rt)?.skip(1);
    let address = words.next().context("usage: ex_pull tcp://127.0.0.1:5578")?;
    let (net, pace) = real_side(&rt)?;
    let Ok(machine) = Pull::new(alloc, Options::usual(Role::Pull, 0), false) else {
        bail!("Out of memory")
    };
    let Ok(mut ends) = NodeEnds::open(&rt, machine, net, pace, 0) else {
        bail!("Out of memory")
    };
    let listened = ends.listen(&address, RECV_MAX_SIZE).context(&address);
    let mut pull = ends.start();
    let received = match listened {
        Ok(()) => receive(&rt, &mut pull),
        Err(why) => Err(why),
    };
    let _ = end_side(pull.finish().side());
    received
}
