//! Subs: topics, contexts, and what a full queue discards.
use crate::roles::sub_plays;
use sp_base::Role;
use sp_history::setting::Options;
use std::process::Abort;
use std::sync::Wait;

// Checks that a core over a sub that keeps two messages a context returns what each line says, and ends with these
// wires.
fn small_sub_plays<R: AllocGlobal + Wait + Abort>(
    rt: &R,
    raw: bool,
    prefer_new: bool,
    calls: &str,
    wires: &str,
) {
    let mut options = Options::usual(Role::Sub, 0);
    options.queue = 2;
    options.prefer_new = prefer_new;
    sub_plays(rt, options, raw, calls, wires);
}

// Nothing was put on the one pipe.
const NOTHING: &str = "put 1";

#[test]
fn a_subscriber_keeps_what_its_topics_match(rt: HostRuntime) {
    let calls = "
        joins 0 0 1 'abc pause 'abc 'a 'abd 'abe
        serve
        not_now 0 8
        subscribes 0 'ab 0
        // A topic that is there stays once, and what came before isn't kept.
        subscribes 0 'ab 0
        not_now 0 8
        serve
        now 0 ' 'abd
        now 0 ' 'abe
        not_now 0 8
        unsubscribes 0 'ab 0
        unsubscribes 0 'ab 12
        close 2 2 0 5 0 0
    ";
    small_sub_plays(&rt, false, true, calls, NOTHING);
}

#[test]
fn a_frame_above_its_pipes_limit_is_not_kept(rt: HostRuntime) {
    let calls = "
        subscribes 0 ' 0
        joins_within 0 2 0 1 'ab 'abc 'd
        joins_within 1 3 0 2 'xyz
        serves true 1 0 1
        down 1 malformed
        now 0 ' 'ab
        now 0 ' 'xyz
        not_now 0 8
        close 2 2 0 3 0 0
    ";
    small_sub_plays(&rt, false, true, calls, "put 2");
}

// Topics of this many lengths are kept as a set.
#[test]
fn the_empty_topic_is_one_of_many(rt: HostRuntime) {
    let calls = "
        joins 0 0 1 'b 'ab 'q
        subscribes 0 ' 0
        subscribes 0 'a 0
        subscribes 0 'cc 0
        subscribes 0 'ddd 0
        subscribes 0 'eeee 0
        subscribes 0 'fffff 0
        subscribes 0 'gggggg 0
        subscribes 0 'hhhhhhh 0
        subscribes 0 'iiiiiiii 0
        subscribes 0 'jjjjjjjjj 0
        unsubscribes 0 ' 0
        serve
        now 0 ' 'ab
        not_now 0 8
        close 1 1 0 3 0 0
    ";
    small_sub_plays(&rt, false, true, calls, NOTHING);
}

#[test]
fn a_subscriber_that_prefers_the_older_discards_the_new_one(rt: HostRuntime) {
    let calls = "
        joins 0 0 1 'abc 'abd 'abe
        subscribes 0 ' 0
        serve
        now 0 ' 'abc
        now 0 ' 'abd
        not_now 0 8
        close 2 2 0 3 0 0
    ";
    small_sub_plays(&rt, false, false, calls, NOTHING);
}

#[test]
fn contexts_keep_apart(rt: HostRuntime) {
    let calls = "
        opens 1
        opens 2
        subscribes 0 'a 0
        subscribes 1 'ab 0
        subscribes 2 'a 0
        joins 0 0 1 'abc 'ax
        serve
        unsubscribes 2 'a 0
        not_now 2 8
        now 1 ' 'abc
        not_now 1 8
        now 0 ' 'abc
        now 0 ' 'ax
        not_now 0 8
        close 3 3 0 2 0 0
    ";
    small_sub_plays(&rt, false, true, calls, NOTHING);
}

#[test]
fn a_context_that_is_shut_ends_its_receives(rt: HostRuntime) {
    let calls = "
        opens 1
        receive 0
        receive 1
        receive 1
        cancel_by_other 1 won
        shuts 1 0
        gone closed 0
        gone cancelled 2
        // The receive of the other context waits on.
        not_yet
        shuts 1 12
        opens 2
        close 3 0 3 0 0 0
        gone closed 0
    ";
    small_sub_plays(&rt, false, true, calls, "");
}

#[test]
fn a_subscriber_refuses_what_it_does_not_do(rt: HostRuntime) {
    let calls = "
        // The longest topic, and one that is longer.
        subscribes_zeros 0 1024 0
        subscribes_zeros 0 1025 17
        unsubscribes_zeros 0 1025 12
        subscribes 7 'a 12
        unsubscribes 7 'a 12
        shuts 0 12
        not_now 5 12
        no_receive 5 12
        no_send 0 00000007' 'm 9
        close 0 0 0 0 0 0
    ";
    small_sub_plays(&rt, false, true, calls, "");
}

#[test]
fn a_raw_subscriber_keeps_every_frame(rt: HostRuntime) {
    let calls = "
        joins 0 0 1 'a 'b '
        serve
        now 0 ' 'b
        now 0 ' '
        not_now 0 8
        no_context 9
        subscribes 0 'a 9
        unsubscribes 0 'a 9
        not_now 1 9
        close 2 2 0 3 0 0
    ";
    small_sub_plays(&rt, true, true, calls, NOTHING);
}
