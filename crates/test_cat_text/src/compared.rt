//! `Plan::read` and `print` compared with plain references, over generated words and bodies.

use crate::checks::{holds, made, same};
use crate::plain_texts::text_of;
use crate::plain_words::{
    ListedOption, OptionKind, address_of, drill_of, formats_of, is_right, number_of, plan_of,
    pushed, roles_of, stop_of, times, value_of,
};
use cat_text::{CatPlan, Data, End, Format, Plan, PlanError, print};
use sp_base::{Addr, Bytes, Role};
use std::alloc::Global;
use std::process::Abort;

/// The words that lists are made of; two apostrophes are the empty one.
const POOL: &str = "\
    --pull --push --sub0 --req --rep --pair --pair1 --bus0 --pub --surveyor --respondent0 --listen --listen=tcp://*:0 \
    --listen=inproc://a --dial --dial=tcp://1.2.3.4:5 --dial=tcp://*:1 --dial=tcp://1.2.3.4:0 \
    tcp://127.0.0.1:5555 tcp://*:5 tcp://127.0.0.1:0 inproc://x ipc://x ipc:// tcp://1.2.3 --data --data=a=b --file --file= \
    --file=f --subscribe --subscribe=a --count --count=2 --count=4294967296 --interval --interval=86400 \
    --recv-timeout=86401 --send-timeout=0 --recv-max --recv-max=0 0 3 01 x '' --ascii --hex --pull=x --drill --drill=1 --drill=0 --bogus";

/// Whole options that most often go together.
const PARTS: &str = "\
    --listen=tcp://127.0.0.1:5555 --dial=tcp://10.0.0.1:1 --listen=inproc://x --dial=inproc://y \
    --listen=ws://*:80/a --dial=ws://1.2.3.4:80 --data= --data=hello --file=f --subscribe= --subscribe=a \
    --subscribe=b=c --count=0 --count=7 --interval=0 --interval=3 --recv-timeout=4 --send-timeout=86400 --raw \
    --quoted --msgpack --ascii --recv-max=9";

/// The next number of a random sequence (a linear congruence).
fn next(seed: u32) -> u32 {
    seed.wrapping_mul(1_664_525).wrapping_add(1_013_904_223)
}

/// A number below `n` from the upper bits.
fn below(seed: u32, n: usize) -> usize {
    if n == 0 { 0 } else { (seed >> 8) as usize % n }
}

/// A word among the first `n`.
fn word(words: &'static str, seed: u32, n: usize) -> &'static str {
    match words.split(' ').nth(below(seed, n)) {
        Some("''") | None => "",
        Some(word) => word,
    }
}

/// A list of `len` words of the pool.
fn any_words(rt: &impl Abort, alloc: Global, seed: &mut u32, len: usize) -> Vec<String> {
    let mut list = Vec::new(alloc);
    for _ in 0..len {
        *seed = next(*seed);
        pushed(rt, &mut list, alloc, word(POOL, *seed, 51));
    }
    list
}

/// A list of `len` options, with a role somewhere among them.
fn likely_words(rt: &impl Abort, alloc: Global, seed: &mut u32, len: usize) -> Vec<String> {
    let mut list = Vec::new(alloc);
    *seed = next(*seed);
    let place = below(*seed, len.saturating_add(1));
    for n in 0..len.saturating_add(1) {
        *seed = next(*seed);
        let text = if n == place {
            word(POOL, *seed, 11)
        } else {
            word(PARTS, *seed, 23)
        };
        pushed(rt, &mut list, alloc, text);
    }
    list
}

fn is_same_address(a: &Addr, b: &Addr) -> bool {
    match (a, b) {
        (
            Addr::Tcp { host, port },
            Addr::Tcp {
                host: other,
                port: number,
            },
        ) => *host == *other && *port == *number,
        (
            Addr::Ws { host, port, path },
            Addr::Ws {
                host: other,
                port: number,
                path: way,
            },
        ) => *host == *other && *port == *number && path.as_slice() == way.as_slice(),
        (Addr::Inproc { name }, Addr::Inproc { name: other }) => {
            name.as_slice() == other.as_slice()
        }
        (Addr::Ipc { path }, Addr::Ipc { path: other }) => path.as_slice() == other.as_slice(),
        _ => false,
    }
}

/// Returns whether the value is this address.
fn is_address(rt: &impl Abort, alloc: Global, addr: &Addr, value: &[u8]) -> bool {
    match address_of(rt, alloc, value) {
        Some(wanted) => is_same_address(addr, &wanted),
        None => false,
    }
}

/// Returns whether the end is the one of an option of this number.
fn is_end(rt: &impl Abort, alloc: Global, end: Option<&End>, n: usize, value: &[u8]) -> bool {
    match (end, n) {
        (Some(End::Dial(addr)), 0) => is_address(rt, alloc, addr, value),
        (Some(End::Listen(addr)), 1) => is_address(rt, alloc, addr, value),
        _ => false,
    }
}

fn has_ends(
    rt: &impl Abort,
    alloc: Global,
    ends: &[End],
    words: &[String],
    list: &[ListedOption],
) -> bool {
    let mut k: usize = 0;
    for said in list {
        if let OptionKind::Valued(n) = said.kind {
            if n < 2 {
                if !is_end(rt, alloc, ends.get(k), n, value_of(words, *said)) {
                    return false;
                }
                k = k.saturating_add(1);
            }
        }
    }
    k == ends.len()
}

fn has_topics(topics: &[Bytes], role: Role, words: &[String], list: &[ListedOption]) -> bool {
    if role == Role::Sub && times(list, 4) == 0 {
        return topics.len() == 1 && topics[0].as_slice().is_empty();
    }
    let mut k: usize = 0;
    for said in list {
        if said.kind == OptionKind::Valued(4) {
            match topics.get(k) {
                Some(topic) => {
                    if topic.as_slice() != value_of(words, *said) {
                        return false;
                    }
                }
                None => return false,
            }
            k = k.saturating_add(1);
        }
    }
    k == topics.len()
}

/// The value of the option of this number, if it is there.
fn value_at<'a>(words: &'a [String], list: &[ListedOption], n: usize) -> Option<&'a [u8]> {
    for said in list {
        if said.kind == OptionKind::Valued(n) {
            return Some(value_of(words, *said));
        }
    }
    None
}

fn number_at(words: &[String], list: &[ListedOption], n: usize) -> Option<u64> {
    match value_at(words, list, n) {
        Some(text) => number_of(text, 4_294_967_295),
        None => None,
    }
}

fn has_data(data: &Data, words: &[String], list: &[ListedOption]) -> bool {
    match data {
        Data::None => value_at(words, list, 2).is_none() && value_at(words, list, 3).is_none(),
        Data::Text(text) => value_at(words, list, 2) == Some(text.as_slice()),
        Data::File(name) => value_at(words, list, 3) == Some(name.as_slice()),
    }
}

/// The number of items after which such a play ends.
fn count_of(role: Role, words: &[String], list: &[ListedOption]) -> Option<u64> {
    let has_body = times(list, 2).saturating_add(times(list, 3)) == 1;
    let sends_first = match role {
        Role::Push => true,
        Role::Pub => true,
        Role::Req => true,
        Role::Surveyor => true,
        Role::Pair0 => has_body,
        Role::Pair1 => has_body,
        Role::Bus => has_body,
        _ => false,
    };
    match number_at(words, list, 5) {
        Some(0) => None,
        Some(n) => Some(n),
        None => {
            if sends_first && times(list, 6) == 0 {
                Some(1)
            } else {
                None
            }
        }
    }
}

/// The receive limit of such a play.
fn limit_of(words: &[String], list: &[ListedOption]) -> u64 {
    match number_at(words, list, 9) {
        Some(0) => 2_147_483_647,
        Some(n) => n,
        None => 1_048_576,
    }
}

fn is_number(said: Option<u32>, wanted: Option<u64>) -> bool {
    match (said, wanted) {
        (Some(a), Some(b)) => u64::from(a) == b,
        (None, None) => true,
        _ => false,
    }
}

fn agrees(
    rt: &impl Abort,
    alloc: Global,
    plan: &CatPlan,
    words: &[String],
    list: &[ListedOption],
) -> bool {
    let role = plan.role;
    has_ends(rt, alloc, plan.ends.as_slice(), words, list)
        && roles_of(list).0 == Some(role)
        && has_data(&plan.data_, words, list)
        && has_topics(plan.topics.as_slice(), role, words, list)
        && is_number(plan.count, count_of(role, words, list))
        && is_number(plan.interval, number_at(words, list, 6))
        && is_number(plan.recv_timeout, number_at(words, list, 7))
        && is_number(plan.send_timeout, number_at(words, list, 8))
        && u64::from(plan.recv_max) == limit_of(words, list)
        && plan.format == formats_of(list).0
}

/// Returns whether the plain reference reads the words as this plan.
fn is_plan(rt: &impl Abort, alloc: Global, plan: &CatPlan, words: &[String]) -> bool {
    match plan_of(rt, alloc, words) {
        Some(list) => agrees(rt, alloc, plan, words, &list),
        None => false,
    }
}

/// Returns whether the words are read as the plain reference reads them.
fn is_read_right(rt: &impl Abort, alloc: Global, words: &[String]) -> bool {
    match Plan::read(alloc, words) {
        Ok(Plan::Drill { count }) => drill_of(words) == Some(u64::from(count)),
        Ok(Plan::Cat(plan)) => is_plan(rt, alloc, &plan, words),
        Err(PlanError::Usage { at }) => {
            !is_right(rt, alloc, words) && stop_of(rt, alloc, words) == at as usize
        }
        Err(PlanError::NoMemory) => panic!(rt; "no memory"),
    }
}

#[test]
fn any_words_are_read_as_the_plain_reading_reads_them(rt: HostRuntime) {
    let mut seed: u32 = 7;
    for n in 0..1_000usize {
        let words = any_words(&rt, rt.alloc(), &mut seed, n % 7);
        holds(&rt, is_read_right(&rt, rt.alloc(), &words));
    }
}

#[test]
fn likely_words_are_read_as_the_plain_reading_reads_them(rt: HostRuntime) {
    let mut seed: u32 = 11;
    for n in 0..2_000usize {
        let words = likely_words(&rt, rt.alloc(), &mut seed, n % 6);
        holds(&rt, is_read_right(&rt, rt.alloc(), &words));
    }
}

/// A body of `len` bytes, most of which are printed in a special way.
fn any_body(rt: &impl Abort, alloc: Global, seed: &mut u32, len: usize) -> Vec<u8> {
    let mut body = Vec::new(alloc);
    for _ in 0..len {
        *seed = next(*seed);
        made(rt, body.push((*seed >> 24) as u8));
    }
    body
}

fn format_of(n: usize) -> Format {
    match n % 6 {
        0 => Format::None,
        1 => Format::Ascii,
        2 => Format::Raw,
        3 => Format::Quoted,
        4 => Format::Hex,
        _ => Format::Msgpack,
    }
}

/// Checks that the body is printed as the plain reference prints it, after two letters.
fn is_printed(rt: &impl Abort, alloc: Global, format: Format, body: &[u8]) {
    let mut out = made(rt, Bytes::from_slice(alloc, b"ab"));
    made(rt, print(alloc, format, body, &mut out));
    let wanted = text_of(rt, alloc, format, body, b"ab");
    same(rt, out.as_slice(), wanted.as_slice());
}

#[test]
fn bodies_are_printed_as_the_plain_printing_prints_them(rt: HostRuntime) {
    let mut seed: u32 = 13;
    for n in 0..6_000usize {
        let body = any_body(&rt, rt.alloc(), &mut seed, n % 97);
        is_printed(&rt, rt.alloc(), format_of(n), &body);
    }
}
