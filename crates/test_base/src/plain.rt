//! Numbers of roles, the generator, bytes, greetings, and the system in memory: files, links and nets.
ghost use Rattle.std.specs.Prelude.{◌≡◌, true};
ghost use Rattle.sp_base.specs.Addresses.{is_dialable};

use crate::checks::{holds, made, same};
use crate::plays::{PlayedLine, Playing, plays};
use sp_base::{Addr, Bytes, Files, Host, Link, LinkRead, Linked, Net, Role, next_value};
use sp_fakes::{LinkStep, MemFiles, MemLink, MemNet, Returned};
use sp_tcp::Greeting;
use std::alloc::Global;
use std::sync::Wait;

// Each line is a number with its meaning:
//
// | row | what it says |
// |---|---|
// | `role 33 Sub 32 sub false true true` | its role, its peer, its name; whether it sends, receives, has contexts |
// | `greeting 16 Pair0 [0, 83, 80, 0, 0, 16, 0, 0]` | the role and its greeting |
// | `none 18` | no role has the number |
#[derive(Drop)]
struct Roles;

impl Playing for Roles {
    fn is_right<R: Wait>(&mut self, _rt: &R, alloc: Global, line: &mut PlayedLine<'_>) -> bool {
        let row = line.word();
        let Ok(number) = u16::try_from(line.small()) else {
            return false;
        };
        match Role::from_number(number) {
            Some(role) => role.number() == number && is_role(alloc, role, row, line),
            None => row == "none",
        }
    }
}

fn is_role(alloc: Global, role: Role, row: &str, line: &mut PlayedLine<'_>) -> bool {
    let text = match row {
        "role" => role_text(alloc, role),
        "greeting" => format!(in alloc; "{role:?} {:?}", Greeting::new(role).hello()).ok(),
        _ => None,
    };
    match text {
        Some(text) => text.as_str() == line.rest(),
        None => false,
    }
}

fn role_text(alloc: Global, role: Role) -> Option<String> {
    let peer = role.peer().number();
    let name = role.name();
    let (sends, receives, contexts) = (role.sends(), role.receives(), role.contexts());
    format!(in alloc; "{role:?} {peer} {name} {sends} {receives} {contexts}").ok()
}

const ROLES: &str = "\
role 16 Pair0 16 pair true true false
role 17 Pair1 17 pair1 true true false
role 32 Pub 33 pub true false false
role 33 Sub 32 sub false true true
role 48 Req 49 req true true true
role 49 Rep 48 rep true true true
role 80 Push 81 push true false false
role 81 Pull 80 pull false true false
role 98 Surveyor 99 surveyor true true true
role 99 Respondent 98 respondent true true true
role 112 Bus 112 bus true true false
none 0
none 18
none 34
none 65535";

#[test]
fn roles_have_their_numbers(rt: HostRuntime) {
    plays(&rt, rt.alloc(), &mut Roles, ROLES);
}

#[test]
fn the_generator_begins_with_two_known_values(rt: HostRuntime) {
    let first = next_value(0);
    same(&rt, first, 1_442_695_040_888_963_407);
    same(&rt, next_value(first), 1_876_011_003_808_476_466);
}

#[test]
fn bytes_grow(rt: HostRuntime) {
    let mut bytes = made(&rt, Bytes::from_slice(rt.alloc(), b"x"));
    made(&rt, bytes.append(b"yz"));
    same(&rt, bytes.as_slice(), b"xyz".as_slice());
    let mut items = bytes.into_vec();
    made(&rt, items.push(b'!'));
    let bytes = Bytes::from_vec(items);
    same(&rt, bytes.as_slice(), b"xyz!".as_slice());
}

#[test]
fn files_in_memory_are_read_by_their_names(rt: HostRuntime) {
    let alloc = rt.alloc();
    let name = made(&rt, String::from_str(alloc, "a"));
    let bytes = made(&rt, Bytes::from_slice(alloc, b"one"));
    let pairs = made(&rt, vec![in alloc; (name, bytes)]);
    let mut files = MemFiles::new(alloc, pairs, Vec::new(alloc));
    let found = files.whole("a");
    holds(
        &rt,
        PlayedLine::new("Bytes(Bytes { items: [111, 110, 101] })").says(alloc, found),
    );
    holds(&rt, PlayedLine::new("Failed").says(alloc, files.whole("b")));
}

const GREETINGS: &str = "\
greeting 16 Pair0 [0, 83, 80, 0, 0, 16, 0, 0]
greeting 17 Pair1 [0, 83, 80, 0, 0, 17, 0, 0]
greeting 32 Pub [0, 83, 80, 0, 0, 32, 0, 0]
greeting 33 Sub [0, 83, 80, 0, 0, 33, 0, 0]
greeting 48 Req [0, 83, 80, 0, 0, 48, 0, 0]
greeting 49 Rep [0, 83, 80, 0, 0, 49, 0, 0]
greeting 80 Push [0, 83, 80, 0, 0, 80, 0, 0]
greeting 81 Pull [0, 83, 80, 0, 0, 81, 0, 0]
greeting 98 Surveyor [0, 83, 80, 0, 0, 98, 0, 0]
greeting 99 Respondent [0, 83, 80, 0, 0, 99, 0, 0]
greeting 112 Bus [0, 83, 80, 0, 0, 112, 0, 0]";

#[test]
fn greetings_of_all_roles(rt: HostRuntime) {
    plays(&rt, rt.alloc(), &mut Roles, GREETINGS);
}

// Reads once, and returns what came: the first byte, or a mark.
fn read_byte<L: Link>(link: &mut L) -> u8
    requires { (L.seen link.old).is_open ≡ true }
    ensures { (L.seen link.new).is_open ≡ true }
{
    let mut buffer = [0u8; 8];
    match link.read(&mut buffer) {
        LinkRead::Got(_) => buffer[0],
        LinkRead::NotYet => b'-',
        LinkRead::Ended => b'.',
        LinkRead::Failed => b'!',
    }
}

// The results of eight reads of a link, with a write of three bytes before the sixth.
fn reads_of<L: Link>(link: &mut L) -> [u8; 8]
    requires { (L.seen link.old).is_open ≡ true }
{
    let a = read_byte(link);
    let b = read_byte(link);
    let c = read_byte(link);
    let d = read_byte(link);
    let e = read_byte(link);
    let _written = link.write(b"xyz");
    let f = read_byte(link);
    let g = read_byte(link);
    let h = read_byte(link);
    [a, b, c, d, e, f, g, h]
}

#[test]
fn a_link_in_memory_goes_by_its_script(rt: HostRuntime) {
    let alloc = rt.alloc();
    let first = LinkStep::Bytes(made(&rt, Bytes::from_slice(alloc, b"a")));
    let second = LinkStep::Bytes(made(&rt, Bytes::from_slice(alloc, b"b")));
    let script = made(
        &rt,
        vec![in alloc;
            first,
            LinkStep::Fail,
            LinkStep::NotYet,
            LinkStep::After(3),
            second,
            LinkStep::End,
        ],
    );
    let mut link = MemLink::new(alloc, script, 9, Vec::new(alloc));
    same(&rt, reads_of(&mut link), *b"a!---b..");
    same(&rt, link.written(), b"xyz".as_slice());
}

#[test]
fn a_long_list_of_links_that_came_back_is_let_go(rt: HostRuntime) {
    let alloc = rt.alloc();
    let mut came_back = Returned::Nothing;
    for _ in 0..100_000u32 {
        let link = MemLink::new(alloc, Vec::new(alloc), 9, Vec::new(alloc));
        came_back = Returned::More(link, made(&rt, Box::new(alloc, came_back)));
    }
    drop(came_back);
}

// Dials twice, and returns whether the first dial failed and the second gave a link.
fn dials<N: Net>(net: &mut N, addr: &Addr) -> bool
    requires { is_dialable addr.now ≡ true }
{
    let failed = match net.dial(addr) {
        Linked::Failed => true,
        Linked::NotYet | Linked::Begun => false,
        Linked::Got(link) => {
            net.give_back(link);
            false
        }
    };
    match net.dial(addr) {
        Linked::Got(link) => {
            net.give_back(link);
            failed
        }
        Linked::NotYet | Linked::Begun | Linked::Failed => false,
    }
}

// Some address that can be dialed.
fn address() -> Addr
    ensures { is_dialable result ≡ true }
{
    Addr::Tcp {
        host: Host::V4(127, 0, 0, 1),
        port: 5555,
    }
}

#[test]
fn a_failed_dial_uses_up_no_link(rt: HostRuntime) {
    let alloc = rt.alloc();
    let link = MemLink::new(alloc, Vec::new(alloc), 9, Vec::new(alloc));
    let links = made(&rt, vec![in alloc; link]);
    let outgoing = made(&rt, vec![in alloc; (address(), links)]);
    let fails = made(&rt, vec![in alloc; 0]);
    let mut net = made(&rt, MemNet::new(alloc, Vec::new(alloc), outgoing, fails));
    holds(&rt, dials(&mut net, &address()));
    same(&rt, net.opened(), 1);
}
