//! What sockets return to callers in several threads.
use crate::machines::plays;

#[test]
fn two_threads_begin_serve_collect_and_close(rt: HostRuntime) {
    let play = "
        takes 3
        takes 2
        takes 1
        3 attaches 1
        together
        + 2 for 1..16: receives 0 any | serve | waits received any
        + 1 for 1..16: receives 0 any | serve | waits received any
        together
        + 2 closes 32 32 0 32 0 0
        + 1 closes 32 32 0 32 0 0
        all_give_back 32 32 0 32 0 0
        left 1
    ";
    plays(&rt, rt.alloc(), "pull 4 3", "bytes*32", play);
}

// Receives by four callers on two pipes, which race for the lock.
#[test]
fn four_threads_race_for_the_lock(rt: HostRuntime) {
    let play = "
        takes 5
        takes 4
        takes 3
        takes 2
        takes 1
        5 attaches 1
        5 attaches 2
        together
        + 4 for 1..50: receives 0 any | serve | waits received any
        + 3 for 1..50: receives 0 any | serve | waits received any
        + 2 for 1..50: receives 0 any | serve | waits received any
        + 1 for 1..50: receives 0 any | serve | waits received any
        all_give_back 200 200 0 200 0 0
        left 2
    ";
    plays(&rt, rt.alloc(), "pull 8 5", "bytes*100; bytes*100", play);
}

// Two callers close at the same time. Each receive ends once, and both return the same totals.
#[test]
fn two_threads_close_and_return_the_same(rt: HostRuntime) {
    let play = "
        takes 3
        takes 2
        takes 1
        3 attaches 1
        3 for 0..1: receives_by 0 1 #.1
        3 for 2..3: receives 0 #.1
        together
        + 2 closes 4 0 4 0 0 0
        + 1 closes 4 0 4 0 0 0
        3 for 0..3: collects gone closed 0
        all_give_back 4 0 4 0 0 0
        left 1
    ";
    plays(&rt, rt.alloc(), "pull 4 3", "silent", play);
}

// ---- Waiting

// One waits for a receive, and another serves. The message comes.
#[test]
fn waiting_receives_what_another_thread_serves(rt: HostRuntime) {
    let play = "
        takes 3
        takes 2
        takes 1
        3 attaches 1
        together
        + 2 sees begun | serve
        + 1 receives 0 0.1 | marks begun | waits received 'x
        all_give_back 1 1 0 1 0 0
        left 1
    ";
    plays(&rt, rt.alloc(), "pull 1 3", "'x", play);
}

// One waits for a receive, and another cancels it.
#[test]
fn waiting_ends_where_another_thread_cancels(rt: HostRuntime) {
    let play = "
        takes 3
        takes 2
        takes 1
        together
        + 2 sees begun | cancels 0.1 won
        + 1 receives 0 0.1 | marks begun | waits gone cancelled 2
        all_give_back 1 0 1 0 0 0
        left 0
    ";
    plays(&rt, rt.alloc(), "pull 1 3", "", play);
}

// ---- A race

// One caller serves, two cancel, and one lets due operations expire. Each receive ends once, by one of them.
#[test]
fn many_receives_are_raced(rt: HostRuntime) {
    let play = "
        takes 5
        takes 4
        takes 3
        takes 2
        takes 1
        5 for 0..31: receives_by 0 1 #.1
        5 for 32..63: receives 0 #.1
        5 attaches 1
        together
        + 4 for 1..16: serve
        + 3 for 0..63: tries #.1
        + 2 for 32..63: tries #.1
        + 1 ticks_counted 1
        5 for 0..63: collects_counted
        5 in_all 64
        all_give_back counted 0 48
        left 1
    ";
    plays(&rt, rt.alloc(), "pull 64 5", "bytes*48", play);
}

// One caller receives at once, again and again, and another cancels operations whose names it guesses. Each message is
// received, in order.
#[test]
fn guessed_names_lose_no_message(rt: HostRuntime) {
    let play = "
        takes 3
        takes 2
        takes 1
        3 attaches 1
        together
        + 2 for 1..201: serve | now_next
        + 1 for 1..50: guesses 0.256
        3 has_received 200
        all_give_back counted 200 200
        left 1
    ";
    plays(&rt, rt.alloc(), "pull 1 3", "bytes*200", play);
}
