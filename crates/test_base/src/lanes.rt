//! Examples of lanes, of the wire over two of them and of names within the process.
ghost use Rattle.std.specs.Prelude.{◌≡◌, true, false};
ghost use Rattle.sp_lane.specs.Lanes.{has_end};

use crate::checks::{holds, made};
use crate::plays::{PlayedLine, Playing, plays};
use sp_base::Role;
use sp_lane::{Inproc, InprocError, LaneIn, LaneOut, LaneWire, Put, PutEnd, Taken, finish, lane};
use sp_msg::{Message, Room, Wire, WireFlush, WireIn};
use std::alloc::Global;
use std::process::Abort;
use std::sync::Wait;
use std::thread::join;

fn put_one<R: Wait>(rt: &R, mut input: LaneIn, m: Message) -> LaneIn
    ensures { result.name ≡ input.name }
{
    if !input.is_ended() {
        let _ = input.put(rt, m);
    }
    input
}

fn take_one<R: Wait>(rt: &R, mut output: LaneOut) -> LaneOut
    ensures { result.name ≡ output.name }
{
    let _ = output.take(rt);
    output
}

// Both ends can go to threads of their own.
#[test]
fn ends_go_to_threads(rt: HostRuntime) {
    let (input, output) = made(&rt, lane(rt.alloc(), 1));
    let m = made(&rt, Message::from_body(rt.alloc(), b"a"));
    let (input, output) = join(
        &rt,
        move || -> LaneIn
            ensures { result.name ≡ input.name }
        { put_one(&rt, input, m) },
        move || -> LaneOut
            ensures { result.name ≡ output.name }
        { take_one(&rt, output) },
    );
    let end = finish(input, output);
    holds(&rt, end.left <= 1);
}

// The two ends of a lane.
//
// | call | words |
// |---|---|
// | a put of this message is done; it is refused, and the same message comes back | `puts 'abc`, `full 'abc` |
// | the end mark is put | `ends` |
// | a take gives this message, nothing, and the end mark | `takes 'abc`, `empty`, `over` |
#[derive(Drop)]
struct Lane {
    input: LaneIn,
    output: LaneOut,
}

impl Playing for Lane {
    fn is_right<R: Wait>(&mut self, rt: &R, alloc: Global, line: &mut PlayedLine<'_>) -> bool {
        let call = line.word();
        if !matches!(call, "takes" | "empty" | "over") {
            return !self.input.is_ended() && puts(rt, alloc, &mut self.input, call, line);
        }
        match self.output.take(rt) {
            Taken::Message(m) => call == "takes" && m.body() == line.bytes(),
            Taken::Empty => call == "empty",
            Taken::End => call == "over",
        }
    }
}

fn puts<R: Wait>(
    rt: &R,
    alloc: Global,
    input: &mut LaneIn,
    name: &str,
    line: &mut PlayedLine<'_>,
) -> bool
    requires { has_end input.old.put ≡ false }
{
    if name == "ends" {
        return matches!(input.put_end(rt), PutEnd::Done);
    }
    let body = line.bytes();
    let Ok(m) = Message::from_body(alloc, body) else {
        return false;
    };
    match input.put(rt, m) {
        Put::Done => name == "puts",
        Put::Full(back) => name == "full" && back.header().is_empty() && back.body() == body,
    }
}

#[test]
fn lanes_give_in_order(rt: HostRuntime) {
    let text = "
        puts 'a
        full 'b
        takes 'a
        empty
        ends
        over
    ";
    let (input, output) = made(&rt, lane(rt.alloc(), 1));
    plays(&rt, rt.alloc(), &mut Lane { input, output }, text);
}

// Names within the process, the half that was dialed last, and the one that was accepted last.
//
// | call | words |
// |---|---|
// | the name is listened on, and what that returns | `listen x rep Ok(())` |
// | it is dialed, and what that returns | `dial x req Err(NoEntry)` |
// | a half of it is accepted, and whether there was one | `accept x true` |
// | the half that was dialed is dropped | `drops` |
// | a half sends a message with this number as its header | `dialed sends 5 'abc` |
// | it has written all | `dialed flushes` |
// | it pulls this message, and the end | `met pulls 'abc`, `met ends` |
// | it is shut, and has written all | `dialed shuts` |
#[derive(Drop)]
struct Names {
    names: Inproc,
    dialed: Option<LaneWire>,
    met: Option<LaneWire>,
}

fn role_of(word: &str) -> Option<Role> {
    match word {
        "req" => Some(Role::Req),
        "rep" => Some(Role::Rep),
        "push" => Some(Role::Push),
        _ => None,
    }
}

impl Playing for Names {
    fn is_right<R: Wait>(&mut self, rt: &R, alloc: Global, line: &mut PlayedLine<'_>) -> bool {
        match line.word() {
            "dialed" => is_so(rt, alloc, &mut self.dialed, line),
            "met" => is_so(rt, alloc, &mut self.met, line),
            "drops" => {
                self.dialed = None;
                true
            }
            "accept" => {
                self.met = self.names.accept(line.word().as_bytes());
                line.says(alloc, self.met.is_some())
            }
            call => self.is_named(alloc, call, line),
        }
    }
}

fn names_play<R: Wait + Abort>(rt: &R, alloc: Global, text: &str) {
    let mut names = Names {
        names: Inproc::new(alloc),
        dialed: None,
        met: None,
    };
    plays(rt, alloc, &mut names, text);
}

impl Names {
    // Returns whether a call that names a role is right.
    fn is_named(&mut self, alloc: Global, call: &str, line: &mut PlayedLine<'_>) -> bool {
        let name = line.word().as_bytes();
        let Some(role) = role_of(line.word()) else {
            return false;
        };
        let returned = match call {
            "listen" => self.names.listen(name, role),
            "dial" => self.dials(name, role),
            _ => return false,
        };
        line.says(alloc, returned)
    }

    // Dials, and keeps the half that it gets.
    fn dials(&mut self, name: &[u8], role: Role) -> Result<(), InprocError> {
        match self.names.dial(name, role) {
            Ok(wire) => {
                self.dialed = Some(wire);
                Ok(())
            }
            Err(why) => Err(why),
        }
    }
}

// Returns whether a call of a half is right.
fn is_so<R: Wait>(
    rt: &R,
    alloc: Global,
    half: &mut Option<LaneWire>,
    line: &mut PlayedLine<'_>,
) -> bool {
    let Some(wire) = half else {
        return false;
    };
    match line.word() {
        "shuts" => {
            wire.shut();
            matches!(wire.flush(rt), WireFlush::Empty)
        }
        "sends" => sends(rt, alloc, wire, line),
        "flushes" => wire.is_open() && matches!(wire.flush(rt), WireFlush::Empty),
        call => wire.is_open() && pulls(wire.pull(rt), call, line),
    }
}

// Returns whether what was pulled is what the line says.
fn pulls(pulled: WireIn, call: &str, line: &mut PlayedLine<'_>) -> bool {
    match pulled {
        WireIn::Message(m) => {
            call == "pulls" && m.header().is_empty() && m.body() == line.bytes()
        }
        WireIn::Ended => call == "ends",
        WireIn::NotYet | WireIn::Malformed | WireIn::Failed | WireIn::Refused | WireIn::NoMemory =>
            false,
    }
}

// A message with a number as its header, and a body.
fn message(alloc: Global, line: &mut PlayedLine<'_>) -> Option<Message> {
    let number = line.small();
    let mut m = Message::from_body(alloc, line.bytes()).ok()?;
    m.header_append_u32(number).ok()?;
    Some(m)
}

// Puts a message on the wire, and returns whether it had room.
fn sends<R: Wait>(rt: &R, alloc: Global, wire: &mut LaneWire, line: &mut PlayedLine<'_>) -> bool {
    let Some(m) = message(alloc, line) else {
        return false;
    };
    if !wire.is_open() {
        return false;
    }
    match wire.room(rt) {
        Room::Yes => {
            wire.put(rt, m);
            true
        }
        Room::Full | Room::Failed | Room::Refused | Room::NoMemory => false,
    }
}

#[test]
fn inproc_names_are_dialed_and_accepted(rt: HostRuntime) {
    let text = "
        dial x req Err(NoEntry)
        listen x rep Ok(())
        listen x rep Err(InUse)
        dial x push Err(Proto)
        dial x req Ok(())
        drops
        accept x true
        accept x false
    ";
    names_play(&rt, rt.alloc(), text);
}

#[test]
fn a_wire_within_the_process_carries_and_ends(rt: HostRuntime) {
    let text = "
        listen x rep Ok(())
        dial x req Ok(())
        accept x true
        dialed sends 1751214177 'b
        dialed flushes
        met pulls 'hahab
        dialed shuts
        met ends
    ";
    names_play(&rt, rt.alloc(), text);
}
