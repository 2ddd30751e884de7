//! What a surveyor sends and prints, and a respondent.
use crate::checks::{holds, made, same};
use crate::lines::{is_so, runs};
use cat_fakes::{TURNS, between, incoming, play};
use cat_run::Status;
use sp_fakes::{LinkStep, MemLink};
use std::alloc::Global;
use std::process::Abort;

const HELLO_99: &[u8] = b"\x00SP\x00\x00\x63\x00\x00";

const ASKS: &[&str] = &[
    "--surveyor",
    "--listen",
    "tcp://127.0.0.1:5555",
    "--data",
    "s",
    "--raw",
    "--count",
    "1",
];

// The survey is over at tick 1,000, and the run closes in the round after it.
#[test]
fn a_survey_prints_what_came_in_time(rt: HostRuntime) {
    runs(
        &rt,
        "words --surveyor --listen tcp://127.0.0.1:5555 --data s --raw --count 1
        link greets_respondent after:21 000000000000000580000000'a+000000000000000580000000'b
        pace 1500 1
        comes done
        writes greets_surveyor 000000000000000580000000's
        prints 'ab
        left 498",
    );
}

// A response of another survey is dropped, and one without an id closes its pipe.
#[test]
fn a_response_of_another_survey_is_not_printed(rt: HostRuntime) {
    runs(
        &rt,
        "words --surveyor --listen tcp://127.0.0.1:5555 --data s --raw --count 1
        link greets_respondent after:21 000000000000000580000007'x+000000000000000580000000'a
        pace 200 100
        comes done
        writes greets_surveyor 000000000000000580000000's
        prints 'a
        link greets_respondent after:21 0000000000000003800000'+000000000000000580000000'b
        pace 200 100
        comes done
        writes greets_surveyor 000000000000000580000000's
        prints '",
    );
}

// A survey without answers is over at its time, while a receive waits. Where there is no peer to ask, no survey begins.
// In the last run the deadline of the receive comes first.
#[test]
fn a_survey_without_a_response_is_over(rt: HostRuntime) {
    runs(
        &rt,
        "words --surveyor --listen tcp://127.0.0.1:5555 --data s --raw --count 1
        link greets_respondent
        pace 200 100
        comes done
        writes greets_surveyor 000000000000000580000000's
        prints '
        left 188
        comes over
        left 0
        words --surveyor --listen tcp://127.0.0.1:5555 --data s --recv-timeout 0
        link greets_respondent
        comes done
        writes greets_surveyor 000000000000000580000000's
        left 197",
    );
}

// The next survey begins when the one before is over, and not before its interval.
#[test]
fn surveys_follow_one_another(rt: HostRuntime) {
    runs(
        &rt,
        "words --surveyor --listen tcp://127.0.0.1:5555 --data s --count 2 --interval 0
        link greets_respondent
        pace 200 100
        comes done
        writes greets_surveyor 000000000000000580000000's 000000000000000580000001's
        left 178
        words --surveyor --listen tcp://127.0.0.1:5555 --data s --count 2 --interval 1
        link greets_respondent
        pace 200 100
        comes done
        writes greets_surveyor 000000000000000580000000's 000000000000000580000001's
        left 178
        words --surveyor --listen tcp://127.0.0.1:5555 --data s --count 2 --interval 3
        link greets_respondent
        pace 200 100
        comes done
        writes greets_surveyor 000000000000000580000000's 000000000000000580000001's
        left 158",
    );
}

// Two respondents that send more than a round takes.
fn talkers(rt: &impl Abort, alloc: Global) -> Vec<MemLink> {
    let mut much = Vec::new(alloc);
    for _ in 0..5_000 {
        made(
            rt,
            much.extend_from_slice(b"\x00\x00\x00\x00\x00\x00\x00\x05\x80\x00\x00\x00a"),
        );
    }
    let mut links = Vec::new(alloc);
    made(
        rt,
        links.push(made(rt, between(alloc, HELLO_99, LinkStep::After(21), &much))),
    );
    made(
        rt,
        links.push(made(rt, between(alloc, HELLO_99, LinkStep::After(21), &much))),
    );
    links
}

// A second goes by while a response waits to be collected: it is printed and the survey counts, but the other queued
// responses are dropped.
#[test]
fn a_survey_is_found_over_at_a_response(rt: HostRuntime) {
    let alloc = rt.alloc();
    let mut outside = made(&rt, incoming(alloc, talkers(&rt, alloc)));
    outside.step = 1_000;
    let came = made(&rt, play(&rt, ASKS, outside));
    same(&rt, came.status, Status::Done);
    holds(
        &rt,
        is_so(
            &rt,
            alloc,
            &came,
            "writes greets_surveyor 000000000000000580000000's",
        ),
    );
    same(&rt, came.left, TURNS - 2);
    holds(&rt, came.printed.len() > 64);
    holds(&rt, came.printed.len() < 10_000);
    holds(&rt, came.printed.iter().all(|byte| *byte == b'a'));
}

// Without data it counts what it prints, and writes only its greeting.
#[test]
fn a_respondent_answers_a_survey(rt: HostRuntime) {
    runs(
        &rt,
        "words --respondent --listen tcp://127.0.0.1:5555 --data OK --ascii --count 1
        link greets_surveyor 000000000000000580000005'q
        comes done
        prints 'q 0a'
        writes greets_respondent 000000000000000680000005'OK
        words --respondent --listen tcp://127.0.0.1:5555 --ascii --count 1
        link greets_surveyor 000000000000000580000005'q
        comes done
        prints 'q 0a'
        writes greets_respondent",
    );
}
