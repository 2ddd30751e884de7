//! What sockets return to the callers of one thread.
use crate::checks::same;
use crate::machines::{line_wrong_for, plays, wire};
use crate::one::receive_one;
use sp_socket::Outcome;

#[test]
fn a_cancelled_receive_leaves_the_frame_for_the_next(rt: HostRuntime) {
    let play = "
        takes 2
        takes 1
        1 attaches 1
        1 receives 0 0.1
        2 cancels 0.1 won
        1 receives 0 1.1
        2 polls 1.1 pending
        2 serves yes
        1 collects received 'x
        1 collects gone cancelled 2
        2 gives_back 2 1 1 1 0 0
        1 gives_back 2 1 1 1 0 0
        left 1
    ";
    plays(&rt, rt.alloc(), "pull 4 2", "'x", play);
}

#[test]
fn a_cancel_after_the_frame_is_too_late(rt: HostRuntime) {
    let play = "
        takes 2
        takes 1
        1 attaches 1
        1 receives 0 0.1
        2 serves yes
        2 cancels 0.1 ended won 0
        1 collects received 'x
        1 gives_back 1 1 0 1 0 0
        2 gives_back 1 1 0 1 0 0
        left 1
    ";
    plays(&rt, rt.alloc(), "pull 4 2", "'x", play);
}

#[test]
fn a_receive_times_out_at_its_deadline(rt: HostRuntime) {
    let play = "
        takes 2
        takes 1
        1 receives_by 0 100 0.1
        1 polls 0.1 pending
        2 ticks 99 0 0
        1 collects_not
        2 ticks 100 1 0
        1 cancels 0.1 ended expired 2
        1 collects gone timedout 2
        1 gives_back 1 0 1 0 0 0
        2 gives_back 1 0 1 0 0 0
        left 0
    ";
    plays(&rt, rt.alloc(), "pull 4 2", "", play);
}

// An operation that is due after it was cancelled counts as lost for the caller that ticks.
#[test]
fn a_tick_loses_what_was_cancelled(rt: HostRuntime) {
    let play = "
        takes 1
        1 receives_by 0 7 0.1
        1 receives_by 0 7 1.1
        1 cancels 0.1 won
        1 ticks 7 1 1
        1 collects gone timedout 1
        1 collects gone cancelled 1
        1 gives_back 2 0 2 0 0 0
        left 0
    ";
    plays(&rt, rt.alloc(), "pull 4 1", "", play);
}

#[test]
fn close_ends_what_is_pending_once(rt: HostRuntime) {
    let play = "
        takes 2
        takes 1
        1 attaches 1
        1 receives_by 0 1 0.1
        1 receives 0 1.1
        1 receives 0 2.1
        2 closes 3 0 3 0 0 0
        1 receives 0 error 7
        1 collects gone closed 0
        1 collects gone closed 0
        1 collects gone closed 0
        2 attaches error 7
        1 closes 3 0 3 0 0 0
        2 down 1 closed
        1 gives_back 3 0 3 0 0 0
        2 gives_back 3 0 3 0 0 0
        left 0
    ";
    plays(&rt, rt.alloc(), "pull 4 2", "silent; silent", play);
}

#[test]
fn a_slot_is_busy_until_it_is_collected(rt: HostRuntime) {
    let play = "
        takes 1
        1 receives 0 0.1
        1 receives 0 error 4
        1 cancels 0.1 won
        1 collects gone cancelled 1
        1 receives 0 0.2
        1 cancels 0.1 stale
        1 polls 0.1 stale
        1 polls 0.2 pending
        1 gives_back 2 0 2 0 0 0
        left 0
    ";
    plays(&rt, rt.alloc(), "pull 1 1", "", play);
}

#[test]
fn a_push_refuses_receives_and_hands_messages_back(rt: HostRuntime) {
    let play = "
        takes 1
        1 receives 0 error 9
        1 sends 'x 0.1
        1 closes 1 0 1 0 0 0
        1 collects gone closed 0 'x
        1 sends 'x error 7
        1 gives_back 1 0 1 0 0 0
        left 0
    ";
    plays(&rt, rt.alloc(), "push 2 1", "", play);
}

#[test]
fn a_pull_refuses_sends_contexts_and_topics(rt: HostRuntime) {
    let play = "
        takes 1
        1 sends 'x error 9
        1 receives 5 error 9
        1 opens error 9
        1 shuts 0 error 12
        1 subscribes 'x error 9
        1 unsubscribes 'x error 9
        1 gives_back 0 0 0 0 0 0
        left 0
    ";
    plays(&rt, rt.alloc(), "pull 2 1", "", play);
}

#[test]
fn what_is_kept_is_received_at_once(rt: HostRuntime) {
    let play = "
        takes 1
        1 misses late
        1 attaches 1
        1 now error 8
        1 serves yes
        1 now received 'x
        1 gives_back 1 1 0 1 0 0
        left 1
    ";
    plays(&rt, rt.alloc(), "pull 1 1", "'x", play);
}

#[test]
fn waiting_collects_what_has_ended(rt: HostRuntime) {
    let play = "
        takes 2
        takes 1
        1 attaches 1
        1 receives 0 0.1
        1 serves yes
        1 waits received 'x
        1 receives 0 0.2
        2 cancels 0.2 won
        1 waits gone cancelled 2
        1 gives_back 2 1 1 1 0 0
        2 gives_back 2 1 1 1 0 0
        left 1
    ";
    plays(&rt, rt.alloc(), "pull 2 2", "'x", play);
}

// A socket of the most slots and callers has as many passes.
#[test]
fn slots_and_callers_have_bounds(rt: HostRuntime) {
    let alloc = rt.alloc();
    for socket in "pull 0 1,pull 1 0,pull 4097 1,pull 1 65".split(',') {
        plays(&rt, alloc, socket, "", "no_socket 3");
    }
    let play = "
        takes 64
        all_out
        64 gives_back 0 0 0 0 0 0
        all_in
        left 0
    ";
    plays(&rt, alloc, "pull 4096 64", "", play);
}

// A line that is not a call, has an unknown word, or has a word too many, is wrong.
#[test]
fn a_line_that_is_no_call_is_wrong(rt: HostRuntime) {
    let play = "
        takes 2
        ! takes
        ! jump
        ! 2
        ! 3 serve
        ! 2 jump
        ! 2 serve 1
        ! 2 serves maybe
        ! 2 for 1..2 serve
        ! 2 for 2..1: serve
        ! 2 for 1..two: serve
        ! 2 for 1..2: serve |
        ! 2 for 1..2: serve | jump
        ! + 2 serve
        ! 2 attaches 1
        ! 2 opens
        ! 2 shuts 4294967296 error 12
        ! 2 receives 0 error +9
        ! 2 sends x error 9
        ! 2 polls 0 stale
        ! 2 misses soon
        ! 2 sees jump
        ! 2 ticks 1 0
        ! lane 'x
        ! all_in
        ! left 0
        all_give_back 1 0 1 0 0 0
        left 0
    ";
    plays(&rt, rt.alloc(), "pull 2 2", "", play);
}

#[test]
fn the_first_wrong_line_is_told(rt: HostRuntime) {
    let alloc = rt.alloc();
    let play = "
        takes 1

        together
        + 1 serve
        + 1 serves yes
        1 gives_back 0 0 0 0 0 0
        left 0
    ";
    same(
        &rt,
        line_wrong_for(&rt, alloc, "pull 1 1", "", play),
        Some(6),
    );
    same(
        &rt,
        line_wrong_for(&rt, alloc, "pull 1 1", "", "takes 1"),
        Some(0),
    );
}

#[test]
fn one_message_is_received(rt: HostRuntime) {
    let alloc = rt.alloc();
    let (outcome, mut wires) = receive_one(&rt, alloc, wire(&rt, alloc, 0, "'x"));
    match outcome {
        Outcome::Received(m) => same(&rt, m.body(), b"x".as_slice()),
        _ => panic!(rt; "nothing was received"),
    }
    let Some((p, _wire)) = wires.pop() else {
        panic!(rt; "no wire is left")
    };
    same(&rt, p.0, 1);
    match wires.pop() {
        None => wires.destroy_empty(),
        Some(_) => panic!(rt; "two wires are left"),
    }
}
