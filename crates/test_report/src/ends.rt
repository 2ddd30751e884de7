//! The texts for each end of a run.
use crate::checks::{holds, made, same};
use crate::page::Page;
use crate::plays::wrong_line;
use cat_report::{HELP, VERSION, asked_text, print_text};
use cat_run::{Status, exit_code};
use std::alloc::Global;

#[test]
fn each_status_has_its_line(rt: HostRuntime) {
    let play = "
        words --pull --listen tcp://127.0.0.1:5555
        ends done
        quiet
        ends send
        says nngcat: send timed out
        quiet
        ends over
        says nngcat: stopped
        quiet
        ends memory
        says nngcat: out of memory
        quiet
        ends out
        says nngcat: output fault
        quiet
        reason broken pipe
        ends out
        says nngcat: output fault
        says nngcat: broken pipe
        quiet
    ";
    same(&rt, wrong_line(&rt, rt.alloc(), play), None);
}

#[test]
fn each_status_has_its_number(rt: HostRuntime) {
    same(&rt, exit_code(Status::Done), 0);
    same(&rt, exit_code(Status::Usage { at: 7 }), 1);
    same(&rt, exit_code(Status::SendTimedOut), 2);
    same(&rt, exit_code(Status::Over), 3);
    same(&rt, exit_code(Status::NetFault), 4);
    same(&rt, exit_code(Status::OutFault), 5);
    same(&rt, exit_code(Status::FileFault), 6);
    same(&rt, exit_code(Status::NoMemory), 7);
}

#[test]
fn a_fault_of_the_net_says_what_the_machine_said(rt: HostRuntime) {
    let play = "
        words --pull --listen tcp://127.0.0.1:5555 --listen=ws://*:80/a
        reason tcp://127.0.0.1:5555: address in use
        ends net
        says nngcat: network fault
        says nngcat: tcp://127.0.0.1:5555: address in use
        quiet
        words --pull --listen inproc://a --listen=inproc://a
        ends net
        says nngcat: network fault
        says nngcat: --listen \"inproc://a\"
        says nngcat: --listen \"inproc://a\"
        quiet
    ";
    same(&rt, wrong_line(&rt, rt.alloc(), play), None);
}

#[test]
fn a_fault_of_a_file_names_the_file_and_the_reason(rt: HostRuntime) {
    let play = "
        words --push --dial tcp://127.0.0.1:5555 --file missing
        reason no such file
        ends file
        says nngcat: file fault
        says nngcat: --file \"missing\"
        says nngcat: no such file
        quiet
    ";
    same(&rt, wrong_line(&rt, rt.alloc(), play), None);
}

#[test]
fn a_part_of_the_machine_that_fails_names_no_file(rt: HostRuntime) {
    let play = "
        words --push --dial tcp://127.0.0.1:5555 --file fine
        reason permission denied
        starts random
        says nngcat: file fault
        says nngcat: random numbers: permission denied
        quiet
        starts clock
        says nngcat: file fault
        says nngcat: clock and readiness of sockets: permission denied
        quiet
    ";
    same(&rt, wrong_line(&rt, rt.alloc(), play), None);
}

#[test]
fn a_wrong_word_is_named(rt: HostRuntime) {
    let play = "
        words --push --nothing
        ends usage 1
        says nngcat: bad word 1
        says nngcat: see nngcat --help; can't go on with \"--nothing\"
        quiet
        words --push --dial
        ends usage 2
        says nngcat: bad word 2
        says nngcat: see nngcat --help; a word is missing at the end: the value of the last option
        quiet
        words --pull --recv-max
        ends usage 2
        says nngcat: bad word 2
        says nngcat: see nngcat --help; a word is missing at the end: the value of the last option
        quiet
        words --recv-max 4 --listen tcp://127.0.0.1:5555
        ends usage 4
        says nngcat: bad word 4
        says nngcat: see nngcat --help; a word is missing at the end: a role
        quiet
        words --pull --recv-max 4
        ends usage 3
        says nngcat: bad word 3
        says nngcat: see nngcat --help; a word is missing at the end: --listen or --dial
        quiet
        words
        ends usage 0
        says nngcat: bad word 0
        says nngcat: see nngcat --help; a word is missing at the end: a role
        quiet
        words --pull
        ends usage 1
        says nngcat: bad word 1
        says nngcat: see nngcat --help; a word is missing at the end: --listen or --dial
        quiet
        words --push --dial tcp://127.0.0.1:5555
        ends usage 3
        says nngcat: bad word 3
        says nngcat: see nngcat --help; a word is missing at the end: --data or --file
        quiet
        unread usage 0
        says nngcat: bad word 0
        says nngcat: see nngcat --help; a word is not UTF-8
        quiet
        unread memory
        says nngcat: out of memory
        quiet
    ";
    same(&rt, wrong_line(&rt, rt.alloc(), play), None);
}

#[test]
fn an_address_is_said_up_to_where_it_fails(rt: HostRuntime) {
    let play = "
        words --push --dial tcp://127.0.0.1:99999 --data a
        ends usage 2
        says nngcat: bad word 2
        says nngcat: see nngcat --help; can't go on with \"tcp://127.0.0.1:99999\"
        says nngcat: no address goes on at byte 20 with \"9\"
        quiet
        words --pull --listen=tls+tcp://127.0.0.1:1
        ends usage 1
        says nngcat: bad word 1
        says nngcat: see nngcat --help; can't go on with \"--listen=tls+tcp://127.0.0.1:1\"
        says nngcat: no address goes on at byte 1 with \"ls+tcp://127.0.0.1:1\"
        quiet
        words --pull --listen tcp://example.org:1
        ends usage 2
        says nngcat: bad word 2
        says nngcat: see nngcat --help; can't go on with \"tcp://example.org:1\"
        says nngcat: no address goes on at byte 6 with \"example.org:1\"
        quiet
    ";
    same(&rt, wrong_line(&rt, rt.alloc(), play), None);
}

#[test]
fn links_that_were_left_are_said(rt: HostRuntime) {
    let play = "
        left 0
        quiet
        left 2
        says nngcat: links that a peer did not close in time: 2; what was sent last may not have arrived
        quiet
    ";
    same(&rt, wrong_line(&rt, rt.alloc(), play), None);
}

#[test]
fn a_line_that_is_wrong_is_told(rt: HostRuntime) {
    let alloc = rt.alloc();
    same(
        &rt,
        wrong_line(&rt, alloc, "ends done\nquiet\nsays a"),
        Some(3),
    );
    same(&rt, wrong_line(&rt, alloc, "ends over\nquiet"), Some(2));
    same(
        &rt,
        wrong_line(&rt, alloc, "ends over\nsays nngcat: stop"),
        Some(2),
    );
    same(&rt, wrong_line(&rt, alloc, "nothing"), Some(1));
}

// The word as the list of a command's words.
fn asked(rt: &HostRuntime, text: &str) -> Option<&'static str> {
    let alloc: Global = rt.alloc();
    let mut words = Vec::new(alloc);
    for word in text.split(' ') {
        let Ok(word) = String::from_str(alloc, word) else {
            return None;
        };
        if words.push(word).is_err() {
            return None;
        }
    }
    asked_text(&words)
}

#[test]
fn help_and_version_stand_alone(rt: HostRuntime) {
    same(&rt, asked(&rt, "--help"), Some(HELP));
    same(&rt, asked(&rt, "--version"), Some(VERSION));
    same(&rt, asked(&rt, "--help --version"), None);
    same(&rt, asked(&rt, "--pull"), None);
    holds(
        &rt,
        HELP.starts_with("Usage: nngcat ROLE ENDPOINT.. [OPTION]..\n"),
    );
    same(
        &rt,
        VERSION,
        "nngcat (Goshwelib) 0.1.0, with the behaviour of NNG 1.x\n",
    );
}

#[test]
fn a_text_is_printed_whole_or_the_output_failed(rt: HostRuntime) {
    let alloc = rt.alloc();
    let err = Page::new(alloc, false);
    let page = Page::new(alloc, false);
    same(&rt, print_text(&page, &err, alloc, HELP), Status::Done);
    holds(&rt, page.take().as_slice() == HELP.as_bytes());
    holds(&rt, err.take().is_empty());
    let page = Page::new(alloc, true);
    same(&rt, print_text(&page, &err, alloc, HELP), Status::OutFault);
    let said = b"nngcat: output fault\nnngcat: broken pipe\n";
    holds(&rt, err.take().as_slice() == said.as_slice());
}

#[test]
fn a_spelling_of_nngs_own_is_answered_on_the_second_line(rt: HostRuntime) {
    let rows = "
        -A=--ascii
        -Q=--quoted
        -D=--data
        -F=--file
        -C=--count
        -i=--interval
        --bind=--listen
        --connect=--dial
        -L=--listen tcp://127.0.0.1:PORT
        --bind-local=--listen tcp://127.0.0.1:PORT
        -l=--dial tcp://127.0.0.1:PORT
        --connect-local=--dial tcp://127.0.0.1:PORT
        --format=--raw, --ascii, --quoted, --hex, --msgpack or none of them
        -h=--help
        -V=--version
        -X=--listen ipc://PATH
        --bind-ipc=--listen ipc://PATH
        -x=--dial ipc://PATH
        --connect-ipc=--dial ipc://PATH
        -d=nothing stands in its place here
        --delay=nothing stands in its place here
        -Z=--recv-max
        --recv-maxsz=--recv-max
        -q=nothing stands in its place here
        --silent=nothing stands in its place here
        -v=nothing stands in its place here
        --verbose=nothing stands in its place here
        --compat=nothing stands in its place here
        --async=nothing stands in its place here
        -k=nothing stands in its place here
        --insecure=nothing stands in its place here
        --cacert=nothing stands in its place here
        -E=nothing stands in its place here
        --cert=nothing stands in its place here
        --key=nothing stands in its place here
        --zt-home=nothing stands in its place here
    ";
    let mut count: u32 = 0;
    for row in rows.split('\n') {
        if let Some((theirs, ours)) = row.trim().split_once('=') {
            let play = format!(in rt.alloc();
                "words --pull {theirs}\nends usage 1\nsays nngcat: bad word 1\nsays nngcat: in place of {theirs}: {ours}\nsays nngcat: see nngcat --help; can't go on with \"{theirs}\"\nquiet"
            );
            let play = made(&rt, play);
            same(&rt, wrong_line(&rt, rt.alloc(), play.as_str()), None);
            count = count.saturating_add(1);
        }
    }
    same(&rt, count, 36);
}
