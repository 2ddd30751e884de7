//! A pull prints what its peers push.
use crate::checks::{made, same};
use crate::lines::runs;
use cat_fakes::{ALL, HELLO_80, link_of, one, over_one};
use cat_run::Status;

#[test]
fn prints_one_message_that_came_over_one_link(rt: HostRuntime) {
    runs(
        &rt,
        "words --pull --listen tcp://127.0.0.1:5555 --ascii --count 1
        link greets_push 0000000000000005' 'hello
        comes done
        record yes
        prints 'hello 0a'
        writes greets_pull",
    );
}

#[test]
fn an_empty_message_prints_an_empty_line(rt: HostRuntime) {
    runs(
        &rt,
        "words --pull --listen tcp://127.0.0.1:5555 --ascii --count 1
        link greets_push 0000000000000000'
        comes done
        prints 0a'",
    );
}

#[test]
fn bytes_that_come_one_at_a_time_print_the_same(rt: HostRuntime) {
    runs(
        &rt,
        "words --pull --listen tcp://127.0.0.1:5555 --ascii --count 1
        link single greets_push 0000000000000005'hello
        comes done
        prints 'hello 0a'
        writes greets_pull",
    );
}

#[test]
fn a_link_that_stops_in_its_greeting_holds_nobody_up(rt: HostRuntime) {
    runs(
        &rt,
        "words --pull --listen tcp://127.0.0.1:5555 --ascii --count 1
        link 00'SQ
        link greets_push 0000000000000005'later
        comes done
        prints 'later 0a'
        writes greets_pull
        second greets_pull
        opened 2
        left 199",
    );
}

#[test]
fn a_peer_of_another_role_is_given_back(rt: HostRuntime) {
    runs(
        &rt,
        "words --pull --listen tcp://127.0.0.1:5555 --ascii --count 1
        link greets_req
        comes over
        writes greets_pull
        prints '
        left 0",
    );
}

#[test]
fn a_link_that_ends_inside_a_message_prints_nothing(rt: HostRuntime) {
    runs(
        &rt,
        "words --pull --listen tcp://127.0.0.1:5555 --ascii --count 1
        link greets_push 0000000000000009'abc end
        comes over
        writes greets_pull
        prints '",
    );
}

#[test]
fn messages_that_came_whole_are_printed_before_the_end(rt: HostRuntime) {
    runs(
        &rt,
        "words --pull --listen tcp://127.0.0.1:5555 --ascii --count 1
        link greets_push 0000000000000005'hello end
        comes done
        prints 'hello 0a'",
    );
}

#[test]
fn bytes_that_are_not_visible_are_dots(rt: HostRuntime) {
    runs(
        &rt,
        "words --pull --listen tcp://127.0.0.1:5555 --ascii --count 1
        link greets_push 00000000000000061f207e7f0aff'
        comes done
        prints '. 20'~... 0a'",
    );
}

#[test]
fn a_body_of_the_limit_is_printed_and_one_above_it_is_not(rt: HostRuntime) {
    let alloc = rt.alloc();
    let body = made(&rt, vec![in alloc; b'x'; 1_048_576]);
    let size = b"\x00\x00\x00\x00\x00\x10\x00\x00";
    const RAW: &[&str] = &[
        "--pull",
        "--listen",
        "tcp://127.0.0.1:5555",
        "--raw",
        "--count",
        "1",
    ];
    let link = made(&rt, link_of(alloc, &[HELLO_80, size, &body], false, ALL));
    let came = made(&rt, over_one(&rt, RAW, link));
    same(&rt, came.status, Status::Done);
    same(&rt, came.printed.as_slice(), body.as_slice());
    let above = b"\x00\x00\x00\x00\x00\x10\x00\x01";
    let came = made(&rt, one(&rt, &[HELLO_80, above, &body, b"x"], false));
    same(&rt, came.status, Status::Over);
    same(&rt, came.printed.len(), 0);
}

#[test]
fn a_limit_of_four_bytes(rt: HostRuntime) {
    runs(
        &rt,
        "words --pull --listen tcp://127.0.0.1:5555 --raw --count 1 --recv-max 4
        link greets_push 0000000000000004'abcd
        comes done
        prints 'abcd
        link greets_push 0000000000000005'abcde
        comes over
        prints '
        words --recv-max=4 --pull --dial tcp://127.0.0.1:5555 --raw --count 1
        dials 5555
        link greets_push 0000000000000005'abcde
        comes over
        prints '",
    );
}

#[test]
fn a_limit_of_nothing_is_none(rt: HostRuntime) {
    let alloc = rt.alloc();
    let body = made(&rt, vec![in alloc; b'a'; 1_048_577]);
    let size = b"\x00\x00\x00\x00\x00\x10\x00\x01";
    const RAW: &[&str] = &[
        "--pull",
        "--listen",
        "tcp://127.0.0.1:5555",
        "--raw",
        "--count",
        "1",
        "--recv-max",
        "0",
    ];
    let link = made(&rt, link_of(alloc, &[HELLO_80, size, &body], false, ALL));
    let came = made(&rt, over_one(&rt, RAW, link));
    same(&rt, came.status, Status::Done);
    same(&rt, came.printed.as_slice(), body.as_slice());
}

#[test]
fn a_link_may_take_little_at_a_time(rt: HostRuntime) {
    runs(
        &rt,
        "words --pull --listen tcp://127.0.0.1:5555 --ascii --count 1
        link take:1 greets_push 0000000000000005'hello
        comes done
        writes greets_pull
        link take:0 greets_push 0000000000000005'hello
        comes over
        writes '
        prints '",
    );
}

#[test]
fn a_link_that_pauses_is_read_on(rt: HostRuntime) {
    runs(
        &rt,
        "words --pull --listen tcp://127.0.0.1:5555 --ascii --count 1
        link greets_push wait:1 0000000000000005'hello
        comes done
        prints 'hello 0a'
        writes greets_pull",
    );
}

#[test]
fn a_link_that_ended_is_followed_by_the_next(rt: HostRuntime) {
    runs(
        &rt,
        "words --pull --listen tcp://127.0.0.1:5555 --ascii --count 1
        link greets_push end
        link greets_push 0000000000000005'later
        comes done
        prints 'later 0a'
        writes greets_pull
        second greets_pull",
    );
}

#[test]
fn a_link_that_failed_is_followed_by_the_next(rt: HostRuntime) {
    runs(
        &rt,
        "words --pull --listen tcp://127.0.0.1:5555 --ascii --count 1
        link greets_push fail 0000000000000005'hello
        link greets_push 0000000000000005'later
        comes done
        prints 'later 0a'
        second greets_pull",
    );
}

#[test]
fn a_link_with_an_oversize_is_followed_by_the_next(rt: HostRuntime) {
    runs(
        &rt,
        "words --pull --listen tcp://127.0.0.1:5555 --ascii --count 1
        link greets_push 0000000000100001' 'x
        link greets_push 0000000000000005'later
        comes done
        prints 'later 0a'
        second greets_pull",
    );
}

#[test]
fn two_links_are_served_at_once(rt: HostRuntime) {
    runs(
        &rt,
        "words --pull --listen tcp://127.0.0.1:5555 --ascii --count 2
        link greets_push wait:1 0000000000000005'hello
        link greets_push 0000000000000005'later
        comes done
        prints 'later 0a'hello 0a'
        writes greets_pull
        second greets_pull",
    );
}

// While 256 links are in their greetings none is accepted, so the last link prints only where silent ones were given
// up.
#[test]
fn a_greeting_that_never_comes_is_given_up(rt: HostRuntime) {
    runs(
        &rt,
        "words --pull --listen tcp://127.0.0.1:5555 --ascii --count 1
        links 256 00'SP
        link greets_push 0000000000000005'hello
        pace 600 30
        comes done
        opened 257
        prints 'hello 0a'
        writes greets_pull",
    );
}
