//! The words of nngcat, read in the simplest way, from only their rules: a list is cut into options, and the rules are
//! then checked over the whole list. How far a list can be the beginning of a right one is found by trying what could
//! follow. Slow, and only for comparing.

use crate::checks::made;
use cat_text::Format;
use sp_base::{Addr, AddrError, Host, Role};
use std::alloc::Global;
use std::process::Abort;

/// The names of the options with a value, one a line; their places are their numbers.
const VALUED: &str = "\
--dial
--listen
--data
--file
--subscribe
--count
--interval
--recv-timeout
--send-timeout
--recv-max";

/// The options for roles, one a line. Each may have a 0 after it.
const ROLES: &str = "\
--pair
--pub
--sub
--req
--rep
--push
--pull
--surveyor
--respondent
--bus";

/// The kind of an option.
#[derive(Clone, Copy, Debug, PartialEq, Eq)]
pub enum OptionKind {
    Role(Role),
    Format(Format),
    /// An option with a value, by its number.
    Valued(usize),
}

/// An option of a list: its kind, and the word and the byte at which its value begins.
#[derive(Clone, Copy, Debug)]
pub struct ListedOption {
    pub kind: OptionKind,
    pub word: usize,
    pub from: usize,
}

fn role_of(text: &str) -> Option<OptionKind> {
    if text == "--pair1" {
        return Some(OptionKind::Role(Role::Pair1));
    }
    let role = match text.strip_suffix('0').unwrap_or(text) {
        "--pair" => Role::Pair0,
        "--pub" => Role::Pub,
        "--sub" => Role::Sub,
        "--req" => Role::Req,
        "--rep" => Role::Rep,
        "--push" => Role::Push,
        "--pull" => Role::Pull,
        "--surveyor" => Role::Surveyor,
        "--respondent" => Role::Respondent,
        "--bus" => Role::Bus,
        _ => return None,
    };
    Some(OptionKind::Role(role))
}

fn format_of(text: &str) -> Option<OptionKind> {
    let format = match text {
        "--ascii" => Format::Ascii,
        "--raw" => Format::Raw,
        "--quoted" => Format::Quoted,
        "--hex" => Format::Hex,
        "--msgpack" => Format::Msgpack,
        _ => return None,
    };
    Some(OptionKind::Format(format))
}

fn valued_of(text: &str) -> Option<OptionKind> {
    for (i, name) in VALUED.lines().enumerate() {
        if name == text {
            return Some(OptionKind::Valued(i));
        }
    }
    None
}

fn kind_of(text: &[u8]) -> Option<OptionKind> {
    let text = std::str::from_utf8(text).ok()?;
    if let Some(kind) = role_of(text) {
        return Some(kind);
    }
    if let Some(kind) = format_of(text) {
        return Some(kind);
    }
    valued_of(text)
}

/// The place of the first `=` of a word.
fn equals_of(word: &[u8]) -> Option<usize> {
    for i in 0..word.len() {
        if word[i] == b'=' {
            return Some(i);
        }
    }
    None
}

/// The option that begins with the word at `i`.
fn option_at(words: &[String], i: usize) -> Option<ListedOption> {
    let Some(word) = words.get(i) else {
        return None;
    };
    let bytes = word.as_bytes();
    match equals_of(bytes) {
        Some(cut) => {
            if cut >= bytes.len() {
                return None;
            }
            match kind_of(&bytes[..cut]) {
                Some(OptionKind::Valued(n)) => Some(ListedOption {
                    kind: OptionKind::Valued(n),
                    word: i,
                    from: cut + 1,
                }),
                _ => None,
            }
        }
        None => match kind_of(bytes) {
            Some(kind) => Some(ListedOption {
                kind,
                word: i.saturating_add(1),
                from: 0,
            }),
            None => None,
        },
    }
}

/// The list cut into options; `None` where it can't be cut so.
pub fn options_of(rt: &impl Abort, alloc: Global, words: &[String]) -> Option<Vec<ListedOption>> {
    let mut list: Vec<ListedOption> = Vec::new(alloc);
    let mut next: usize = 0;
    for i in 0..words.len() {
        if i == next {
            let said = option_at(words, i)?;
            next = i + 1;
            if let OptionKind::Valued(_) = said.kind {
                next = said.word.max(i).saturating_add(1);
            }
            made(rt, list.push(said));
        }
    }
    if next == words.len() {
        Some(list)
    } else {
        None
    }
}

/// The value of an option.
pub fn value_of(words: &[String], said: ListedOption) -> &[u8] {
    match words.get(said.word) {
        Some(word) => word.as_bytes().get(said.from..).unwrap_or(b""),
        None => b"",
    }
}

/// A number up to `most` in decimal digits, without a leading zero.
pub fn number_of(text: &[u8], most: u64) -> Option<u64> {
    if text.is_empty() || text.len() > 10 {
        return None;
    }
    if text.len() > 1 && text[0] == b'0' {
        return None;
    }
    let mut n: u64 = 0;
    for digit in text {
        if *digit < b'0' || *digit > b'9' {
            return None;
        }
        n = n.wrapping_mul(10).wrapping_add(u64::from(*digit - b'0'));
    }
    if n <= most { Some(n) } else { None }
}

/// The address of a text.
pub fn address_of(rt: &impl Abort, alloc: Global, text: &[u8]) -> Option<Addr> {
    match Addr::read(alloc, std::str::from_utf8(text).ok()?) {
        Ok(addr) => Some(addr),
        Err(AddrError::Fault { at: _ }) => None,
        Err(AddrError::NoMemory) => panic!(rt; "no memory"),
    }
}

fn may_be_dialed(addr: &Addr) -> bool {
    match addr {
        Addr::Tcp { host, port } => *host != Host::Any && *port != 0,
        Addr::Ws {
            host,
            port,
            path: _,
        } => *host != Host::Any && *port != 0,
        Addr::Inproc { name: _ } => true,
        Addr::Ipc { path: _ } => true,
    }
}

/// Returns whether an option of this number takes the value.
fn is_value(rt: &impl Abort, alloc: Global, n: usize, value: &[u8]) -> bool {
    match n {
        0 => match address_of(rt, alloc, value) {
            Some(addr) => may_be_dialed(&addr),
            None => false,
        },
        1 => address_of(rt, alloc, value).is_some(),
        2 => true,
        3 => !value.is_empty(),
        4 => value.len() <= 1_024,
        5 => number_of(value, 4_294_967_295).is_some(),
        9 => number_of(value, 2_147_483_647).is_some(),
        _ => number_of(value, 86_400).is_some(),
    }
}

/// The number of options of the list with this number.
pub fn times(list: &[ListedOption], n: usize) -> usize {
    let mut count: usize = 0;
    for said in list {
        if said.kind == OptionKind::Valued(n) {
            count = count.saturating_add(1);
        }
    }
    count
}

/// The last role of the list, and the number of roles.
pub fn roles_of(list: &[ListedOption]) -> (Option<Role>, usize) {
    let mut role = None;
    let mut count: usize = 0;
    for said in list {
        if let OptionKind::Role(r) = said.kind {
            role = Some(r);
            count = count.saturating_add(1);
        }
    }
    (role, count)
}

/// The last format of the list, and the number of formats.
pub fn formats_of(list: &[ListedOption]) -> (Format, usize) {
    let mut format = Format::None;
    let mut count: usize = 0;
    for said in list {
        if let OptionKind::Format(f) = said.kind {
            format = f;
            count = count.saturating_add(1);
        }
    }
    (format, count)
}

fn needs_data(role: Role) -> bool {
    role == Role::Push || role == Role::Pub || role == Role::Req || role == Role::Surveyor
}

fn takes_no_data(role: Role) -> bool {
    role == Role::Pull || role == Role::Sub
}

/// Returns whether the numbers of the options are right: each may come only as often as its table says.
fn is_counted(list: &[ListedOption]) -> bool {
    let (role, roles) = roles_of(list);
    let Some(role) = role else {
        return false;
    };
    let ends = times(list, 0).saturating_add(times(list, 1));
    let bodies = times(list, 2).saturating_add(times(list, 3));
    let topics = times(list, 4);
    roles == 1
        && ends >= 1
        && ends <= 64
        && bodies <= 1
        && topics <= 64
        && times(list, 5) <= 1
        && times(list, 6) <= 1
        && times(list, 7) <= 1
        && times(list, 8) <= 1
        && times(list, 9) <= 1
        && formats_of(list).1 <= 1
        && (!needs_data(role) || bodies == 1)
        && (!takes_no_data(role) || bodies == 0)
        && (role == Role::Sub || topics == 0)
}

fn has_values(rt: &impl Abort, alloc: Global, words: &[String], list: &[ListedOption]) -> bool {
    for said in list {
        if let OptionKind::Valued(n) = said.kind {
            if said.word >= words.len() || !is_value(rt, alloc, n, value_of(words, *said)) {
                return false;
            }
        }
    }
    true
}

/// The options of a list that has a plan without a drill.
pub fn plan_of(rt: &impl Abort, alloc: Global, words: &[String]) -> Option<Vec<ListedOption>> {
    let list = options_of(rt, alloc, words)?;
    if is_counted(&list) && has_values(rt, alloc, words, &list) {
        Some(list)
    } else {
        None
    }
}

/// The number of a drill, where the list is one.
pub fn drill_of(words: &[String]) -> Option<u64> {
    let (name, number) = match words {
        [word] => word.as_str().split_once('=')?,
        [name, number] => (name.as_str(), number.as_str()),
        _ => return None,
    };
    if name != "--drill" {
        return None;
    }
    match number_of(number.as_bytes(), 1_000_000) {
        Some(0) => None,
        other => other,
    }
}

/// Returns whether the list has a plan.
pub fn is_right(rt: &impl Abort, alloc: Global, words: &[String]) -> bool {
    drill_of(words).is_some() || plan_of(rt, alloc, words).is_some()
}

/// What can follow the beginning of a right list: a value that is missing, a role, a body, an end.
const VALUES: [&str; 4] = ["", "1", "x", "tcp://127.0.0.1:1"];

/// Pushes a word.
pub fn pushed(rt: &impl Abort, list: &mut Vec<String>, alloc: Global, word: &str) {
    made(rt, list.push(made(rt, String::from_str(alloc, word))));
}

/// The prefix followed by a value, if one is missing.
fn valued(rt: &impl Abort, alloc: Global, prefix: &[String], value: usize) -> Vec<String> {
    let mut list = Vec::new(alloc);
    for word in prefix {
        pushed(rt, &mut list, alloc, word.as_str());
    }
    if value > 0 && value <= VALUES.len() {
        pushed(rt, &mut list, alloc, VALUES[value - 1]);
    }
    list
}

/// The option of the role with this place, from 1 on.
fn role_name(place: usize) -> Option<&'static str> {
    ROLES.lines().nth(place.checked_sub(1)?)
}

/// The list followed by a role, a body and an end, each if it is asked for.
fn followed(
    rt: &impl Abort,
    alloc: Global,
    prefix: &[String],
    role: usize,
    body: bool,
    end: bool,
) -> Vec<String> {
    let mut list = valued(rt, alloc, prefix, 0);
    if let Some(name) = role_name(role) {
        pushed(rt, &mut list, alloc, name);
    }
    if body {
        pushed(rt, &mut list, alloc, "--data=");
    }
    if end {
        pushed(rt, &mut list, alloc, "--listen=tcp://127.0.0.1:1");
    }
    list
}

fn is_right_with_role(rt: &impl Abort, alloc: Global, prefix: &[String], role: usize) -> bool {
    for more in 0..4u32 {
        let list = followed(rt, alloc, prefix, role, more % 2 == 1, more / 2 == 1);
        if is_right(rt, alloc, &list) {
            return true;
        }
    }
    false
}

/// Returns whether something can follow these words, which are whole options.
fn is_right_with_more(rt: &impl Abort, alloc: Global, prefix: &[String], has_role: bool) -> bool {
    if is_right_with_role(rt, alloc, prefix, 0) {
        return true;
    }
    if has_role {
        return false;
    }
    for role in 1..11usize {
        if is_right_with_role(rt, alloc, prefix, role) {
            return true;
        }
    }
    false
}

fn is_right_with_value(rt: &impl Abort, alloc: Global, prefix: &[String], value: usize) -> bool {
    let list = valued(rt, alloc, prefix, value);
    if drill_of(&list).is_some() {
        return true;
    }
    match options_of(rt, alloc, &list) {
        Some(options) => is_right_with_more(rt, alloc, &list, roles_of(&options).1 > 0),
        None => false,
    }
}

/// Returns whether the words are a prefix of some right list.
pub fn is_prefix(rt: &impl Abort, alloc: Global, prefix: &[String]) -> bool {
    for value in 0..5usize {
        if is_right_with_value(rt, alloc, prefix, value) {
            return true;
        }
    }
    false
}

/// The number of words of the longest prefix with which some right list begins.
pub fn stop_of(rt: &impl Abort, alloc: Global, words: &[String]) -> usize {
    let mut most: usize = 0;
    for n in 0..words.len() {
        if !is_prefix(rt, alloc, &words[..n + 1]) {
            return most;
        }
        most = n + 1;
    }
    most
}
