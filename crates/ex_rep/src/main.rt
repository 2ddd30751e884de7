//! Listens as a rep, answers each of ten requests with its own text and ends. On the other side, ten times:
//! `nngcat --req --dial tcp://127.0.0.1:5581 --data hello`. The address is the program's argument.
#![tactic(auto)]

use anyhow::{Context, Result, bail};
use proto_reqrep::Reply;
use sp_base::{Link, Net, Pace, Role};
use sp_msg::Message;
use sp_node::{Node, NodeEnds, RECV_MAX_SIZE};
use sp_proto::Proto;
use sp_real::{end_side, real_side};
use sp_socket::Options;
use std::env;
use std::sync::Wait;

// Answers ten requests, each of which is waited for at most ten seconds.
fn answer<R: Wait + Print + AllocGlobal, P: Proto, L: Link, N: Net<L = L>, C: Pace>(
    rt: &R,
    rep: &mut Node<'_, R, P, L, N, C>,
) -> Result<()> {
    for _ in 0..10 {
        let request = rep.recv(Some(10_000))?;
        let copy = Message::from_body(rt.alloc(), request.body()).ok();
        rep.send(copy.context("Out of memory")?, Some(10_000))?;
    }
    Ok(())
}

fn main(rt: HostRuntime) -> Result<()> {
    let alloc = rt.alloc();
    let mut words = env::args(&rt)?.skip(1);
    let address = words.next().context("usage: ex_rep tcp://127.0.0.1:5581")?;
    let (net, pace) = real_side(&rt)?;
    let Ok(machine) = Reply::new(alloc, Options::usual(Role::Rep, 0), false) else {
        bail!("Out of memory")
    };
    let Ok(mut ends) = NodeEnds::open(&rt, machine, net, pace, 0) else {
        bail!("Out of memory")
    };
    let listened = ends.listen(&address, RECV_MAX_SIZE).context(&address);
    let mut rep = ends.start();
    let answered = match listened {
        Ok(()) => answer(&rt, &mut rep),
        Err(why) => Err(why),
    };
    let _ = end_side(rep.finish().side());
    answered
}
