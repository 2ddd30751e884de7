//! The plans that words are read as, compared as texts.

use crate::checks::{holds, made, same, same_at};
use crate::rows::words_of;
use cat_text::{CatPlan, Data, End, Plan, PlanError};
use sp_base::{Addr, Bytes, Host};
use std::alloc::Global;
use std::fmt::Write;
use std::process::Abort;

// A name, and bytes between apostrophes.
fn push_bytes(rt: &impl Abort, text: &mut String, name: &str, bytes: &Bytes) {
    let bytes = made(rt, std::str::from_utf8(bytes.as_slice()));
    made(rt, write!(text, " {name} '{bytes}'"));
}

fn push_host(rt: &impl Abort, text: &mut String, host: &Host, port: u16) {
    match host {
        Host::Any => made(rt, write!(text, "*:{port}")),
        Host::V4(a, b, c, d) => made(rt, write!(text, "{a}.{b}.{c}.{d}:{port}")),
    }
}

fn push_address(rt: &impl Abort, text: &mut String, addr: &Addr) {
    match addr {
        Addr::Tcp { host, port } => push_host(rt, text, host, *port),
        Addr::Ws { host, port, path } => {
            made(rt, text.push_str("ws "));
            push_host(rt, text, host, *port);
            made(
                rt,
                text.push_str(made(rt, std::str::from_utf8(path.as_slice()))),
            );
        }
        Addr::Inproc { name } => {
            made(
                rt,
                text.push_str(made(rt, std::str::from_utf8(name.as_slice()))),
            )
        }
        Addr::Ipc { path } => {
            made(rt, text.push_str("ipc "));
            made(
                rt,
                text.push_str(made(rt, std::str::from_utf8(path.as_slice()))),
            )
        }
    }
}

fn push_end(rt: &impl Abort, text: &mut String, end: &End) {
    match end {
        End::Dial(addr) => {
            made(rt, text.push_str(" dial "));
            push_address(rt, text, addr);
        }
        End::Listen(addr) => {
            made(rt, text.push_str(" listen "));
            push_address(rt, text, addr);
        }
    }
}

fn push_data(rt: &impl Abort, text: &mut String, data: &Data) {
    match data {
        Data::None => (),
        Data::Text(bytes) => push_bytes(rt, text, "text", bytes),
        Data::File(bytes) => push_bytes(rt, text, "file", bytes),
    }
}

fn push_number(rt: &impl Abort, text: &mut String, name: &str, number: Option<u32>) {
    if let Some(n) = number {
        made(rt, write!(text, " {name} {n}"));
    }
}

fn show_cat(rt: &impl Abort, alloc: Global, plan: &CatPlan) -> String {
    let mut text = made(rt, format!(in alloc; "{:?}", plan.role));
    for end in plan.ends.as_slice() {
        push_end(rt, &mut text, end);
    }
    push_data(rt, &mut text, &plan.data_);
    for topic in plan.topics.as_slice() {
        push_bytes(rt, &mut text, "topic", topic);
    }
    push_number(rt, &mut text, "count", plan.count);
    push_number(rt, &mut text, "interval", plan.interval);
    push_number(rt, &mut text, "recv", plan.recv_timeout);
    push_number(rt, &mut text, "send", plan.send_timeout);
    if plan.recv_max != 1_048_576 {
        push_number(rt, &mut text, "max", Some(plan.recv_max));
    }
    made(rt, write!(text, " {:?}", plan.format));
    text
}

/// The plan of the words as a text.
fn show_words(rt: &impl Abort, alloc: Global, list: &[String]) -> String {
    match Plan::read(alloc, list) {
        Ok(Plan::Drill { count }) => made(rt, format!(in alloc; "drill {count}")),
        Ok(Plan::Cat(plan)) => show_cat(rt, alloc, &plan),
        Err(PlanError::Usage { at }) => made(rt, format!(in alloc; "wrong at {at}")),
        Err(PlanError::NoMemory) => panic!(rt; "no memory"),
    }
}

/// Checks that the words of each row have the plan after the bar.
pub fn check_plans(rt: &impl Abort, alloc: Global, rows: &str) {
    let mut number: u32 = 0;
    for row in rows.lines() {
        number = number.saturating_add(1);
        let Some((given, wanted)) = row.split_once(" | ") else {
            panic!(rt; "row {number} has no bar")
        };
        let shown = show_words(rt, alloc, &words_of(rt, alloc, given));
        same_at(rt, number, shown.as_str(), wanted);
    }
}

const PLANS: &str = "\
--drill 1 | drill 1
--drill=1 | drill 1
--drill 1000000 | drill 1000000
--push --listen A --data= | Push listen 127.0.0.1:5555 text '' count 1 None
--push --listen A --data --pull | Push listen 127.0.0.1:5555 text '--pull' count 1 None
--push --listen A --data=a=b | Push listen 127.0.0.1:5555 text 'a=b' count 1 None
--sub --listen A | Sub listen 127.0.0.1:5555 topic '' None
--sub --listen A --subscribe= | Sub listen 127.0.0.1:5555 topic '' None
--sub --listen A --subscribe b --subscribe=a --subscribe b | \
    Sub listen 127.0.0.1:5555 topic 'b' topic 'a' topic 'b' None
--pull --listen A --count 4294967295 | Pull listen 127.0.0.1:5555 count 4294967295 None
--pull --listen A --count 0 | Pull listen 127.0.0.1:5555 None
--pull --listen A --interval 86400 | Pull listen 127.0.0.1:5555 interval 86400 None
--pull --listen A --send-timeout 5 | Pull listen 127.0.0.1:5555 send 5 None
--pull --listen A --recv-timeout=0 | Pull listen 127.0.0.1:5555 recv 0 None
--rep --listen A | Rep listen 127.0.0.1:5555 None
--pair0 --listen A | Pair0 listen 127.0.0.1:5555 None
--pair1 --listen A | Pair1 listen 127.0.0.1:5555 None
--recv-max 4 --pull --listen A | Pull listen 127.0.0.1:5555 max 4 None
--pull --listen A --recv-max 1048576 | Pull listen 127.0.0.1:5555 None
--pull --listen A --recv-max 0 | Pull listen 127.0.0.1:5555 max 2147483647 None
--push --dial=tcp://127.0.0.1:5556 --data=x --recv-max=2147483647 | \
    Push dial 127.0.0.1:5556 text 'x' count 1 max 2147483647 None
--raw --listen=tcp://127.0.0.1:5555 --pull0 | Pull listen 127.0.0.1:5555 Raw
--file f --msgpack --bus --dial B | Bus dial 127.0.0.1:5556 file 'f' count 1 Msgpack";

#[test]
fn readings_have_their_plan(rt: HostRuntime) {
    check_plans(&rt, rt.alloc(), PLANS);
}

const ENDS: &str = "\
--pull --listen A --dial B --dial inproc://x | Pull listen 127.0.0.1:5555 dial 127.0.0.1:5556 dial x None
--pull --dial A | Pull dial 127.0.0.1:5555 None
--pull --dial=tcp://127.0.0.1:5555 | Pull dial 127.0.0.1:5555 None
--pull --listen inproc://x | Pull listen x None
--pull --dial A --dial A | Pull dial 127.0.0.1:5555 dial 127.0.0.1:5555 None
--pull --listen A --listen A | Pull listen 127.0.0.1:5555 listen 127.0.0.1:5555 None
--pull --listen tcp://*:0 | Pull listen *:0 None
--listen tcp://localhost:1 --pull --listen=inproc://tcp://*:0 | Pull listen 127.0.0.1:1 listen tcp://*:0 None
--pull --listen ws://*:0 --dial=ws://1.2.3.4:80/a/b | Pull listen ws *:0/ dial ws 1.2.3.4:80/a/b None
--pull --dial ws://localhost:65535 | Pull dial ws 127.0.0.1:65535/ None
--pull --listen ipc:///tmp/a --dial=ipc://b | Pull listen ipc /tmp/a dial ipc b None";

#[test]
fn ends_keep_the_order_of_the_words(rt: HostRuntime) {
    check_plans(&rt, rt.alloc(), ENDS);
}

const COUNTS: &str = "\
--push --listen A --data x | Push listen 127.0.0.1:5555 text 'x' count 1 None
--push --listen A --data x --interval 2 | Push listen 127.0.0.1:5555 text 'x' interval 2 None
--push --listen A --data x --count 0 | Push listen 127.0.0.1:5555 text 'x' None
--pub --listen A --data x | Pub listen 127.0.0.1:5555 text 'x' count 1 None
--pub --listen A --data x --interval 2 | Pub listen 127.0.0.1:5555 text 'x' interval 2 None
--pub --listen A --data x --count 0 | Pub listen 127.0.0.1:5555 text 'x' None
--req --listen A --data x | Req listen 127.0.0.1:5555 text 'x' count 1 None
--req --listen A --data x --interval 2 | Req listen 127.0.0.1:5555 text 'x' interval 2 None
--req --listen A --data x --count 0 | Req listen 127.0.0.1:5555 text 'x' None
--surveyor --listen A --data x | Surveyor listen 127.0.0.1:5555 text 'x' count 1 None
--surveyor --listen A --data x --interval 2 | Surveyor listen 127.0.0.1:5555 text 'x' interval 2 None
--surveyor --listen A --data x --count 0 | Surveyor listen 127.0.0.1:5555 text 'x' None
--pair --listen A --data x | Pair0 listen 127.0.0.1:5555 text 'x' count 1 None
--pair --listen A --data x --interval 2 | Pair0 listen 127.0.0.1:5555 text 'x' interval 2 None
--pair --listen A --data x --count 0 | Pair0 listen 127.0.0.1:5555 text 'x' None
--pair1 --listen A --data x | Pair1 listen 127.0.0.1:5555 text 'x' count 1 None
--pair1 --listen A --data x --interval 2 | Pair1 listen 127.0.0.1:5555 text 'x' interval 2 None
--pair1 --listen A --data x --count 0 | Pair1 listen 127.0.0.1:5555 text 'x' None
--bus --listen A --data x | Bus listen 127.0.0.1:5555 text 'x' count 1 None
--bus --listen A --data x --interval 2 | Bus listen 127.0.0.1:5555 text 'x' interval 2 None
--bus --listen A --data x --count 0 | Bus listen 127.0.0.1:5555 text 'x' None
--rep --listen A --data x | Rep listen 127.0.0.1:5555 text 'x' None
--respondent --listen A --data x | Respondent listen 127.0.0.1:5555 text 'x' None
--pull --listen A | Pull listen 127.0.0.1:5555 None
--pull --listen A --count 3 | Pull listen 127.0.0.1:5555 count 3 None
--rep --listen A | Rep listen 127.0.0.1:5555 None
--rep --listen A --count 3 | Rep listen 127.0.0.1:5555 count 3 None
--respondent --listen A | Respondent listen 127.0.0.1:5555 None
--respondent --listen A --count 3 | Respondent listen 127.0.0.1:5555 count 3 None
--pair --listen A | Pair0 listen 127.0.0.1:5555 None
--pair --listen A --count 3 | Pair0 listen 127.0.0.1:5555 count 3 None
--bus --listen A | Bus listen 127.0.0.1:5555 None
--bus --listen A --count 3 | Bus listen 127.0.0.1:5555 count 3 None";

#[test]
fn the_count_is_that_of_the_role(rt: HostRuntime) {
    check_plans(&rt, rt.alloc(), COUNTS);
}

const NAMES: &str = "\
--pair --listen A --data=x | Pair0 listen 127.0.0.1:5555 text 'x' count 1 None
--pair0 --listen A --data=x | Pair0 listen 127.0.0.1:5555 text 'x' count 1 None
--pair1 --listen A --data=x | Pair1 listen 127.0.0.1:5555 text 'x' count 1 None
--pub --listen A --data=x | Pub listen 127.0.0.1:5555 text 'x' count 1 None
--pub0 --listen A --data=x | Pub listen 127.0.0.1:5555 text 'x' count 1 None
--sub --listen A --send-timeout=1 | Sub listen 127.0.0.1:5555 topic '' send 1 None
--sub0 --listen A --send-timeout=1 | Sub listen 127.0.0.1:5555 topic '' send 1 None
--req --listen A --data=x | Req listen 127.0.0.1:5555 text 'x' count 1 None
--req0 --listen A --data=x | Req listen 127.0.0.1:5555 text 'x' count 1 None
--rep --listen A --data=x | Rep listen 127.0.0.1:5555 text 'x' None
--rep0 --listen A --data=x | Rep listen 127.0.0.1:5555 text 'x' None
--push --listen A --data=x | Push listen 127.0.0.1:5555 text 'x' count 1 None
--push0 --listen A --data=x | Push listen 127.0.0.1:5555 text 'x' count 1 None
--pull --listen A --send-timeout=1 | Pull listen 127.0.0.1:5555 send 1 None
--pull0 --listen A --send-timeout=1 | Pull listen 127.0.0.1:5555 send 1 None
--surveyor --listen A --data=x | Surveyor listen 127.0.0.1:5555 text 'x' count 1 None
--surveyor0 --listen A --data=x | Surveyor listen 127.0.0.1:5555 text 'x' count 1 None
--respondent --listen A --data=x | Respondent listen 127.0.0.1:5555 text 'x' None
--respondent0 --listen A --data=x | Respondent listen 127.0.0.1:5555 text 'x' None
--bus --listen A --data=x | Bus listen 127.0.0.1:5555 text 'x' count 1 None
--bus0 --listen A --data=x | Bus listen 127.0.0.1:5555 text 'x' count 1 None";

#[test]
fn each_name_of_a_role_is_that_role(rt: HostRuntime) {
    check_plans(&rt, rt.alloc(), NAMES);
}

// The data of a push of these words and this value.
fn data_of(rt: &impl Abort, alloc: Global, row: &str, value: &str) -> Data {
    let mut list = words_of(rt, alloc, row);
    made(rt, list.push(made(rt, String::from_str(alloc, value))));
    match Plan::read(alloc, &list) {
        Ok(Plan::Cat(plan)) => plan.data_,
        Ok(Plan::Drill { count: _ }) => panic!(rt; "a drill"),
        Err(why) => panic!(rt; "{why:?}"),
    }
}

// Returns whether a push with this text sends these bytes.
fn sends(rt: &impl Abort, alloc: Global, text: &str, bytes: &[u8]) -> bool {
    match data_of(rt, alloc, "--push --listen A --data", text) {
        Data::Text(data_) => data_.as_slice() == bytes,
        Data::None | Data::File(_) => false,
    }
}

// Returns whether a push with this name sends the file of this name.
fn sends_file(rt: &impl Abort, alloc: Global, name: &str) -> bool {
    match data_of(rt, alloc, "--push --listen A --file", name) {
        Data::File(file) => file.as_slice() == name.as_bytes(),
        Data::None | Data::Text(_) => false,
    }
}

#[test]
fn data_are_the_bytes_of_the_text(rt: HostRuntime) {
    holds(&rt, sends(&rt, rt.alloc(), "\u{e9}", b"\xc3\xa9"));
    let bytes: &[u8] = b"\xe2\x82\xaca\xf0\x9f\x98\x80";
    holds(&rt, sends(&rt, rt.alloc(), "\u{20ac}a\u{1f600}", bytes));
}

// A text, followed by `times` times a piece.
fn repeated(rt: &impl Abort, alloc: Global, begin: &str, piece: &str, times: u32) -> String {
    let mut text = made(rt, String::from_str(alloc, begin));
    for _ in 0..times {
        made(rt, text.push_str(piece));
    }
    text
}

#[test]
fn long_data_and_long_names_are_read(rt: HostRuntime) {
    let name = repeated(&rt, rt.alloc(), "", "a", 4_096);
    same(&rt, name.len(), 4_096);
    holds(&rt, sends_file(&rt, rt.alloc(), name.as_str()));
    // The longest word that Linux passes to a program.
    let text = repeated(&rt, rt.alloc(), "", "a", 131_071);
    same(&rt, text.len(), 131_071);
    holds(&rt, sends(&rt, rt.alloc(), text.as_str(), text.as_bytes()));
}

// The longest list that has a plan: a sub with 64 topics, 64 ends, and each other option that it may have.
#[test]
fn the_longest_list_is_read(rt: HostRuntime) {
    let alloc = rt.alloc();
    let ends_and_topics = " --subscribe a --listen A --subscribe b --dial B";
    let mut row = repeated(&rt, alloc, "--sub", ends_and_topics, 32);
    made(
        &rt,
        row.push_str(" --count 1 --interval 2 --recv-timeout 3 --send-timeout 4 --hex"),
    );
    let list = words_of(&rt, alloc, row.as_str());
    same(&rt, list.len(), 266);
    let ends = repeated(
        &rt,
        alloc,
        "Sub",
        " listen 127.0.0.1:5555 dial 127.0.0.1:5556",
        32,
    );
    let mut wanted = repeated(&rt, alloc, ends.as_str(), " topic 'a' topic 'b'", 32);
    made(
        &rt,
        wanted.push_str(" count 1 interval 2 recv 3 send 4 Hex"),
    );
    let shown = show_words(&rt, alloc, &list);
    same(&rt, shown.as_str(), wanted.as_str());
}
