//! What a program takes of the machine, and how it ends that.
ghost use Rattle.std.specs.Prelude.{◌≡◌, ◌-◌, ◌^◌, false, IfOk};
ghost use Rattle.sp_real.specs.Real.{real_net_view, unasked_net};

use crate::pace::RealPace;
use crate::tcp::TcpNet;
use std::io;
use std::io::ErrorKind;
use std::net::Net;
use std::rt::{Clock, Runtime};

/// A net, and the clock whose rests its sockets end. Fails where the machine's clock or its readiness does, or out of
/// memory (`ErrorKind::OutOfMemory`).
pub fn real_side<R: Runtime + AllocGlobal + Net>(rt: &R) -> io::Result<(TcpNet<R>, RealPace<R>)>
    ensures net { IfOk result (λ s. real_net_view s.0.schemes s.0.opened s.0.back.entries s.0.faults s.0.idles ≡ unasked_net) }
    ensures pace { IfOk result (λ s. (s.1.left ≡ 2 ^ 64 - 1) × (s.1.over ≡ false)) }
{
    let pace = RealPace::new(own(rt)?, rt, rt.alloc())?;
    let net = TcpNet::new(own(rt)?, pace.registry()?, rt.alloc());
    Ok((net, pace))
}

/// Ends the net and the clock, as `TcpNet::finish`: waits until the peers of the links that came back have what was
/// written, for two seconds at most. Returns how many links were reset, or had a peer that did not end.
pub fn end_side<R: Net + Clock + Drop>(side: (TcpNet<R>, RealPace<R>)) -> u32 {
    let (mut net, mut pace) = side;
    net.finish(&mut pace)
}

// The runtime once more, for a part that keeps it.
fn own<R: Clone>(rt: &R) -> io::Result<R> {
    match rt.clone() {
        Ok(own) => Ok(own),
        Err(_) => Err(io::Error::from(ErrorKind::OutOfMemory)),
    }
}
