//! Which types threads may share.
use crate::{Pass, Record, Socket, SocketPasses};
use sp_msg::Wire;
use sp_proto::Proto;

fn is_send<T: Send>() {}

fn is_sync<T: Sync>() {}

// A socket is shared by threads, and passes, lists and records go from thread to thread, wherever machine and wire may
// go.
pub(crate) fn is_shared<P: Proto + Send, W: Wire + Send>() {
    is_passed::<P, W>();
    is_sync::<Socket<P, W>>();
    is_send::<Socket<P, W>>();
    is_send::<SocketPasses<P, W>>();
    is_send::<Record>();
    is_sync::<Record>();
}

fn is_passed<P: Proto + Send, W: Wire + Send>() {
    is_send::<Pass<P, W>>();
}
