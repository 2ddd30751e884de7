//! What may go to other threads.
use aio_word::{CallSeat, Words};
use proto_pipeline::{Pull, Push};
use sp_core::{Core, WireList};
use sp_fakes::MemWire;
use sp_msg::{Message, Wire};
use sp_proto::Proto;

fn is_send<T: Send>() {}

fn is_sync<T: Sync>() {}

// A core, and what is left of it, may go wherever machine and wire may go.
fn is_send_over<P: Proto + Send, W: Wire + Send>() {
    is_send::<Core<P, W>>();
    is_send::<WireList<W>>();
}

#[test]
fn cores_words_and_messages_go_to_other_threads() {
    is_send_over::<Pull, MemWire>();
    is_send_over::<Push, MemWire>();
    is_send::<CallSeat>();
    is_send::<Words>();
    is_sync::<Words>();
    is_send::<Message>();
    is_sync::<Message>();
}
