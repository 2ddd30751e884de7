//! Machines made from texts, each of which plays a text. Its role comes first, as `bus`; several roles have plus signs
//! between them, as `rep+respondent`. Words for unusual settings follow:
//!
//! | what | word |
//! |---|---|
//! | it is raw | `raw` |
//! | a full queue keeps its old messages | `prefer_old` |
//! | the first id of requests | `dice=5` |
//! | the room of the queue | `queue=2` |
//! | the milliseconds until a request goes out again | `resend=1` |
//! | the greatest length of a backtrace in words | `ttl=15` |
//!
//! Except for a push of `pipeline`, each machine is written out only here: a function that passes one to a generic
//! function takes seconds to prove.
ghost use Rattle.std.specs.Prelude.{IfSome};
ghost use Rattle.sp_history.specs.Options.{Fits};

use crate::plays::wrong_line;
use proto_bus::Bus;
use proto_pair::{Pair, Pair1};
use proto_pipeline::{Pull, Push};
use proto_pubsub::{Publish, Subscribe};
use proto_reqrep::{Reply, Request};
use proto_survey::{Respond, Survey};
use sp_base::{NoMemory, Role};
use sp_history::setting::Options;
use sp_proto::Proto;
use std::alloc::Global;

/// The number (from 1 on) of the first line at which a machine of this text returns something else; 0 where the text is
/// not one of a machine, or there is no memory for it.
pub fn line_wrong_for(alloc: Global, machines: &str, play: &str) -> Option<usize> {
    let (roles, words) = match machines.split_once(' ') {
        Some(parts) => parts,
        None => (machines, ""),
    };
    for role in roles.split('+') {
        let line = of_role(alloc, role, words, play);
        if line.is_some() {
            return line;
        }
    }
    None
}

fn of_role(alloc: Global, role: &str, words: &str, play: &str) -> Option<usize> {
    match role {
        "pair" => pair(alloc, words, play),
        "pair1" => pair1(alloc, words, play),
        "pub" => publish(alloc, words, play),
        "sub" => subscribe(alloc, words, play),
        "req" => request(alloc, words, play),
        "rep" => reply(alloc, words, play),
        "push" => push(alloc, words, play),
        "pull" => pull(alloc, words, play),
        "surveyor" => survey(alloc, words, play),
        "respondent" => respond(alloc, words, play),
        "bus" => bus(alloc, words, play),
        _ => Some(0),
    }
}

// The setting of a machine.
#[derive(Clone, Copy)]
struct MachineSetting {
    options: Options,
    raw: bool,
}

fn kind_of(role: Role, words: &str) -> Option<MachineSetting> {
    let mut it = MachineSetting {
        options: Options::usual(role, 0),
        raw: false,
    };
    for word in words.split_whitespace() {
        if !is_set(&mut it, word) {
            return None;
        }
    }
    Some(it)
}

fn is_set(it: &mut MachineSetting, word: &str) -> bool {
    match word.split_once('=') {
        Some((name, value)) => match value.parse::<u64>() {
            Ok(n) => is_number_set(&mut it.options, name, n),
            Err(_) => false,
        },
        None => is_named_set(it, word),
    }
}

fn is_named_set(it: &mut MachineSetting, word: &str) -> bool {
    match word {
        "raw" => it.raw = true,
        "prefer_old" => it.options.prefer_new = false,
        _ => return false,
    }
    true
}

fn is_number_set(options: &mut Options, name: &str, n: u64) -> bool {
    if name == "resend" {
        options.resend = n;
        return true;
    }
    match u32::try_from(n) {
        Ok(n) => is_small_number_set(options, name, n),
        Err(_) => false,
    }
}

fn is_small_number_set(options: &mut Options, name: &str, n: u32) -> bool {
    match name {
        "dice" => options.dice = n,
        "queue" => options.queue = n,
        "ttl" => return is_limit_set(options, n),
        _ => return false,
    }
    true
}

fn is_limit_set(options: &mut Options, n: u32) -> bool {
    let Ok(ttl) = u8::try_from(n) else {
        return false;
    };
    options.ttl = ttl;
    true
}

fn plays<M: Proto>(alloc: Global, machine: Result<M, NoMemory>, play: &str) -> Option<usize> {
    match machine {
        Ok(mut m) => wrong_line(&mut m, alloc, play),
        Err(_) => Some(0),
    }
}

fn pair(alloc: Global, words: &str, play: &str) -> Option<usize> {
    match kind_of(Role::Pair0, words) {
        Some(it) => plays(alloc, Pair::new(alloc, it.options, it.raw), play),
        None => Some(0),
    }
}

fn pair1(alloc: Global, words: &str, play: &str) -> Option<usize> {
    match kind_of(Role::Pair1, words) {
        Some(it) => plays(alloc, Pair1::new(alloc, it.options, it.raw), play),
        None => Some(0),
    }
}

fn publish(alloc: Global, words: &str, play: &str) -> Option<usize> {
    match kind_of(Role::Pub, words) {
        Some(it) => plays(alloc, Publish::new(alloc, it.options, it.raw), play),
        None => Some(0),
    }
}

fn subscribe(alloc: Global, words: &str, play: &str) -> Option<usize> {
    match kind_of(Role::Sub, words) {
        Some(it) => plays(alloc, Subscribe::new(alloc, it.options, it.raw), play),
        None => Some(0),
    }
}

fn bus(alloc: Global, words: &str, play: &str) -> Option<usize> {
    match kind_of(Role::Bus, words) {
        Some(it) => plays(alloc, Bus::new(alloc, it.options, it.raw), play),
        None => Some(0),
    }
}

fn pull(alloc: Global, words: &str, play: &str) -> Option<usize> {
    match kind_of(Role::Pull, words) {
        Some(it) => plays(alloc, Pull::new(alloc, it.options, it.raw), play),
        None => Some(0),
    }
}

fn push(alloc: Global, words: &str, play: &str) -> Option<usize> {
    match kind_of(Role::Push, words) {
        Some(it) => push_plays(alloc, Push::new(alloc, it.options, it.raw), play),
        None => Some(0),
    }
}

/// The number (from 1 on) of the first line at which this push returns something else.
pub fn push_plays(alloc: Global, push: Result<Push, NoMemory>, play: &str) -> Option<usize> {
    plays(alloc, push, play)
}

// The setting of the words, with its numbers in range, as the machines below require.
fn kind_that_fits(role: Role, words: &str) -> Option<MachineSetting>
    ensures { IfSome result (λ it. Fits it.options) }
{
    let it = kind_of(role, words)?;
    if it.options.fits() { Some(it) } else { None }
}

fn request(alloc: Global, words: &str, play: &str) -> Option<usize> {
    match kind_that_fits(Role::Req, words) {
        Some(it) => plays(alloc, Request::new(alloc, it.options, it.raw), play),
        None => Some(0),
    }
}

// A respondent is a rep too.
fn rep_plays(alloc: Global, rep: Result<Reply, NoMemory>, play: &str) -> Option<usize> {
    plays(alloc, rep, play)
}

fn reply(alloc: Global, words: &str, play: &str) -> Option<usize> {
    match kind_that_fits(Role::Rep, words) {
        Some(it) => rep_plays(alloc, Reply::new(alloc, it.options, it.raw), play),
        None => Some(0),
    }
}

fn respond(alloc: Global, words: &str, play: &str) -> Option<usize> {
    match kind_that_fits(Role::Respondent, words) {
        Some(it) => rep_plays(alloc, Respond::new(alloc, it.options, it.raw), play),
        None => Some(0),
    }
}

fn survey(alloc: Global, words: &str, play: &str) -> Option<usize> {
    match kind_that_fits(Role::Surveyor, words) {
        Some(it) => plays(alloc, Survey::new(alloc, it.options, it.raw), play),
        None => Some(0),
    }
}
