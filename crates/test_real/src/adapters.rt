//! The real system byte for byte: what no clause can say about the machine's sockets, files and output.
use crate::bytes::patterned;
use crate::checks::made;
use crate::files::{files_fail, files_give};
use crate::links::real_plays;
use crate::nets::plays;
use crate::outputs::puts;
use cat_run::real::Reason;
use sp_base::Sunk;
use std::io::{Error, ErrorKind};

// More bytes than the sockets of a link hold in transit.
#[test]
fn pieces_larger_than_the_sockets_hold_pass_byte_for_byte(rt: HostRuntime) {
    plays(&rt, "carries 12000000 28115");
}

#[test]
fn a_peer_that_resets_is_a_fault(rt: HostRuntime) {
    plays(&rt, "resets read 28155");
}

#[test]
fn a_write_to_a_peer_that_resets_is_a_fault(rt: HostRuntime) {
    plays(&rt, "resets write 28235");
}

#[test]
fn a_listener_at_one_address_is_not_reached_at_another(rt: HostRuntime) {
    plays(&rt, "reaches one 28195");
}

// A listener at every address of this machine is reached at each of two.
#[test]
fn a_listener_at_every_address_is_reached_at_each(rt: HostRuntime) {
    plays(&rt, "reaches every 28235");
}

#[test]
fn a_byte_ends_a_rest(rt: HostRuntime) {
    real_plays(&rt, "wakes byte 28315");
}

#[test]
fn a_peer_that_dials_ends_a_rest(rt: HostRuntime) {
    real_plays(&rt, "wakes peer 28355");
}

#[test]
fn room_on_a_link_ends_a_rest(rt: HostRuntime) {
    real_plays(&rt, "wakes room 28755");
}

#[test]
fn small_messages_are_not_held_back(rt: HostRuntime) {
    real_plays(&rt, "prompt both 28395");
}

#[test]
fn marks_of_links_that_are_back_serve_again(rt: HostRuntime) {
    real_plays(&rt, "marks 500 28435");
}

// The machine tries one port after another for the own end of a connection, and so the port itself once.
#[test]
fn a_connection_to_itself_is_refused(rt: HostRuntime) {
    real_plays(&rt, "alone 45000 42424");
}

#[test]
fn a_peer_that_sends_without_pause_leaves_room_for_others(rt: HostRuntime) {
    real_plays(&rt, "floods 400000 28475");
}

#[test]
fn a_connection_under_way_is_made_when_it_is_reported(rt: HostRuntime) {
    real_plays(&rt, "under_way made 28515");
}

#[test]
fn a_slow_peer_gets_all_that_was_written(rt: HostRuntime) {
    real_plays(&rt, "leaves slow 28555");
}

// A link that was given back is read in turns of 64 reads, of 4,096 bytes each.
#[test]
fn a_peer_that_still_sends_gets_all_that_was_written(rt: HostRuntime) {
    real_plays(&rt, "leaves sending 28795");
}

#[test]
fn a_peer_that_does_not_end_is_waited_for_two_seconds(rt: HostRuntime) {
    real_plays(&rt, "leaves silent 28595");
}

#[test]
fn a_peer_that_resets_a_link_that_is_back_is_counted(rt: HostRuntime) {
    real_plays(&rt, "leaves reset 28845");
}

#[test]
fn a_listen_that_fails_says_why(rt: HostRuntime) {
    real_plays(&rt, "says in_use 28635");
    real_plays(&rt, "says elsewhere 28675");
}

// Root may listen everywhere, so no test meets this one at a port.
#[test]
fn a_port_that_is_not_permitted_says_so(rt: HostRuntime) {
    let reason = Reason::of(Error::from(ErrorKind::PermissionDenied));
    let said = made(&rt, format!(in rt.alloc(); "{reason}"));
    assert!(rt; said.as_str() == "permission denied", "{said}");
}

#[test]
fn a_file_that_fails_says_why(rt: HostRuntime) {
    files_fail(&rt, made(&rt, rt.clone()), "/no/such/file", "no such file");
    files_fail(&rt, made(&rt, rt.clone()), "/", "is a directory");
}

#[test]
fn a_file_gives_all_its_bytes(rt: HostRuntime) {
    let lines = "
        write 200000 known_bytes_of_the_adapters
        whole 200000 known_bytes_of_the_adapters
        remove known_bytes_of_the_adapters
        fails known_bytes_of_the_adapters
    ";
    files_give(&rt, made(&rt, rt.clone()), lines);
}

#[test]
fn a_slow_output_takes_all_that_was_put(rt: HostRuntime) {
    let bytes = made(&rt, patterned(rt.alloc(), 1_000));
    puts(&rt, "slow", &bytes, Sunk::Done, 1_000);
}

// Like a closed pipe, a full device, and an output that takes nothing.
#[test]
fn an_output_that_fails_is_a_fault(rt: HostRuntime) {
    for word in "broken_pipe storage_full other takes_nothing".split(' ') {
        puts(&rt, word, b"more than seven", Sunk::Failed, 7);
    }
}
