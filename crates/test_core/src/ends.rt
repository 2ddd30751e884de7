//! Closing, deadlines, and the numbers of causes.
use crate::checks::same;
use crate::roles::{pull_plays, push_plays, sub_plays};
use sp_base::{Role, SpError};
use sp_history::entry::Cause;
use sp_history::setting::Options;

#[test]
fn a_closed_core_begins_nothing(rt: HostRuntime) {
    let of_pull = "
        close 0 0 0 0 0 0
        no_receive 0 7
    ";
    pull_plays(&rt, false, 1, of_pull, "");
    let of_push = "
        closed
        no_send 0 00000007' 'x 7
    ";
    push_plays(&rt, false, 1, of_push, "");
}

#[test]
fn a_close_with_three_pending(rt: HostRuntime) {
    let calls = "
        receive 0
        receive 0
        receive 0
        close 3 0 3 0 0 0
        gone closed 0
        gone closed 0
        gone closed 0
        close 3 0 3 0 0 0
    ";
    pull_plays(&rt, false, 3, calls, "");
}

#[test]
fn a_close_ends_what_is_pending_once(rt: HostRuntime) {
    let calls = "
        opens 1
        receive 0
        receive 1
        receive 0
        close 3 0 3 0 0 0
        close 3 0 3 0 0 0
        gone closed 0
        gone closed 0
        gone closed 0
        no_receive 0 7
        not_now 0 7
        no_context 7
        shuts 1 7
        subscribes 0 'a 7
        unsubscribes 0 'a 7
        no_pipe 0 7 end
    ";
    let options = Options::usual(Role::Sub, 0);
    sub_plays(&rt, options, false, calls, "");
}

#[test]
fn causes_have_their_numbers(rt: HostRuntime) {
    same(&rt, SpError::from(Cause::Cancelled).code(), 20);
    same(&rt, SpError::from(Cause::TimedOut).code(), 5);
    same(&rt, SpError::from(Cause::Closed).code(), 7);
    same(&rt, SpError::from(Cause::Superseded).code(), 20);
    same(&rt, SpError::from(Cause::SurveyOver).code(), 5);
}

#[test]
fn a_deadline_is_named_once(rt: HostRuntime) {
    let calls = "
        receive_by 0 5
        due 4 0
        due_is 5 0
        due 6 0
        not_yet
        expire 0 won
        cancel 0 ended expired 1
        gone timedout 1
        // A moment before the last counts as that.
        receive_by 0 6
        due_is 3 1
        closed
        due 9 0
        gone closed 0
    ";
    pull_plays(&rt, false, 1, calls, "");
}

#[test]
fn what_a_caller_ended_is_found_at_the_next_begin(rt: HostRuntime) {
    let calls = "
        receive_by 0 5
        cancel 0 won
        receive 0
        // The first has ended, so that its deadline is gone.
        due 5 0
        close 2 0 2 0 0 0
        gone closed 0
        gone cancelled 1
    ";
    pull_plays(&rt, false, 2, calls, "");
}
