//! How a round calls links and listeners, when it ends, and what the pace is told about it.
ghost use Rattle.sp_fakes.specs.Paces.{pace_view};

use crate::checks::{holds, made, same};
use crate::lines::runs;
use cat_fakes::{ALL, HELLO_80, Outside, incoming, link_of, play, words};
use cat_run::{Status, run};
use sp_base::{Pace, Paced};
use sp_fakes::{MemFiles, MemLink, MemNet, MemPace, MemSink};
use std::alloc::Global;
use std::process::Abort;

const PULL: &[&str] = &["--pull", "--listen", "tcp://127.0.0.1:5555", "--raw"];

/// A message of one byte, `x`.
const X: &[u8] = b"\x00\x00\x00\x00\x00\x00\x00\x01x";

// A link that gives `count` messages at once, and then nothing.
fn talker(rt: &impl Abort, alloc: Global, count: u32) -> MemLink {
    let mut all = made(rt, Vec::from_slice(alloc, HELLO_80));
    for _ in 0..count {
        made(rt, all.extend_from_slice(X));
    }
    made(rt, link_of(alloc, &[all.as_slice()], false, ALL))
}

/// A pace in memory that counts what it was told.
#[derive(Drop)]
struct CountingPace {
    pace: MemPace,
    moved: u32,
    rested: u32,
}

impl Pace for CountingPace {
    ghost seen = { λ p. pace_view p.pace };

    fn turn(&mut self, moved: bool) -> Paced {
        if moved {
            self.moved = self.moved.saturating_add(1);
        } else {
            self.rested = self.rested.saturating_add(1);
        }
        self.pace.turn(moved)
    }
}

// Where a round ends with messages that wait, the pace is told that messages move; on a silent link, that none do.
#[test]
fn the_pace_is_told_whether_messages_move(rt: HostRuntime) {
    let alloc = rt.alloc();
    let mut links = Vec::new(alloc);
    made(&rt, links.push(talker(&rt, alloc, 500)));
    let mut lists = Vec::new(alloc);
    made(&rt, lists.push(links));
    let mut net = made(
        &rt,
        MemNet::new(alloc, lists, Vec::new(alloc), Vec::new(alloc)),
    );
    let mut files = MemFiles::new(alloc, Vec::new(alloc), Vec::new(alloc));
    let mut pace = CountingPace {
        pace: MemPace::new(200, 1),
        moved: 0,
        rested: 0,
    };
    let mut out = MemSink::new(alloc, Vec::new(alloc));
    let list = made(&rt, words(alloc, PULL));
    let end = run(&rt, &list, &mut net, &mut files, &mut pace, &mut out, 0);
    same(&rt, end.status, Status::Over);
    same(&rt, out.text().len(), 500);
    holds(&rt, pace.moved > 3);
    holds(&rt, pace.moved < 20);
    holds(&rt, pace.rested > 180);
}

// A system in which these links come, and the pace has `turns` turns.
fn within(rt: &impl Abort, alloc: Global, links: Vec<MemLink>, turns: u64) -> Outside {
    let mut outside = made(rt, incoming(alloc, links));
    outside.turns = turns;
    outside
}

// A round ends, however much comes.
#[test]
fn a_round_prints_some_messages(rt: HostRuntime) {
    let alloc = rt.alloc();
    let mut links = Vec::new(alloc);
    made(&rt, links.push(talker(&rt, alloc, 10_000)));
    let came = made(&rt, play(&rt, PULL, within(&rt, alloc, links, 1)));
    same(&rt, came.status, Status::Over);
    holds(&rt, came.printed.len() >= 64);
    holds(&rt, came.printed.len() <= 64 * 65);
}

// Each listener is asked until it has no link, or has given 16 in this turn: 40 links come at one, or 20 at each of
// two.
#[test]
fn each_listener_brings_16_links_a_turn(rt: HostRuntime) {
    runs(
        &rt,
        "words --pull --listen tcp://127.0.0.1:5555 --raw
        links 40 greets_push
        listener
        links 40 greets_push
        pace 1 1
        comes over
        opened 16
        words --pull --listen tcp://127.0.0.1:5555 --raw
        links 40 greets_push
        listener
        links 40 greets_push
        pace 2 1
        comes over
        opened 32
        words --pull --listen tcp://127.0.0.1:5555 --raw
        links 40 greets_push
        listener
        links 40 greets_push
        pace 3 1
        comes over
        opened 40
        words --pull --listen tcp://127.0.0.1:5555 --raw
        links 40 greets_push
        listener
        links 40 greets_push
        pace 30 1
        comes over
        opened 40
        words --pull --listen tcp://127.0.0.1:5555 --listen tcp://127.0.0.1:5556
        links 20 greets_push
        listener
        links 20 greets_push
        pace 1 1
        comes over
        opened 32
        words --pull --listen tcp://127.0.0.1:5555 --listen tcp://127.0.0.1:5556
        links 20 greets_push
        listener
        links 20 greets_push
        pace 2 1
        comes over
        opened 40",
    );
}

// While 256 links of a listener are in their greetings, it isn't asked for another.
#[test]
fn nothing_is_accepted_behind_256_greetings(rt: HostRuntime) {
    runs(
        &rt,
        "words --pull --listen tcp://127.0.0.1:5555 --raw
        links 300 00'SP
        pace 60 1
        comes over
        opened 256",
    );
}

// With 256 silent links at one listener, the other one still gives its link, which comes after 320 wrong ones and so
// after 20 turns.
#[test]
fn silent_links_hold_back_no_other_listener(rt: HostRuntime) {
    runs(
        &rt,
        "words --pull --listen tcp://127.0.0.1:5555 --listen tcp://127.0.0.1:5556 --raw --count 1
        links 300 00'SP
        listener
        links 320 00'SQ
        link greets_push 0000000000000001'x
        pace 60 1
        comes done
        opened 577
        prints 'x",
    );
}

// Seventeen listeners give 272 silent links in the first turn. A bus talks to itself over a name in the same turn.
#[test]
fn silent_links_hold_back_no_name(rt: HostRuntime) {
    runs(
        &rt,
        "words --bus --listen inproc://x --dial inproc://x --data m --listen tcp://127.0.0.1:5555 \
            --listen tcp://127.0.0.1:5556 --listen tcp://127.0.0.1:5557 --listen tcp://127.0.0.1:5558 \
            --listen tcp://127.0.0.1:5559 --listen tcp://127.0.0.1:5560 --listen tcp://127.0.0.1:5561 \
            --listen tcp://127.0.0.1:5562 --listen tcp://127.0.0.1:5563 --listen tcp://127.0.0.1:5564 \
            --listen tcp://127.0.0.1:5565 --listen tcp://127.0.0.1:5566 --listen tcp://127.0.0.1:5567 \
            --listen tcp://127.0.0.1:5568 --listen tcp://127.0.0.1:5569 --listen tcp://127.0.0.1:5570 \
            --listen tcp://127.0.0.1:5571
        links 16 00'SP
        listener
        links 16 00'SP
        listener
        links 16 00'SP
        listener
        links 16 00'SP
        listener
        links 16 00'SP
        listener
        links 16 00'SP
        listener
        links 16 00'SP
        listener
        links 16 00'SP
        listener
        links 16 00'SP
        listener
        links 16 00'SP
        listener
        links 16 00'SP
        listener
        links 16 00'SP
        listener
        links 16 00'SP
        listener
        links 16 00'SP
        listener
        links 16 00'SP
        listener
        links 16 00'SP
        listener
        links 16 00'SP
        pace 1 1
        comes done
        opened 272",
    );
}

// A link whose greeting is wrong is no longer in its greetings: after 300 of them a right one comes up.
#[test]
fn wrong_greetings_keep_nobody_out(rt: HostRuntime) {
    runs(
        &rt,
        "words --pull --listen tcp://127.0.0.1:5555 --raw --count 1
        links 300 00'SQ
        link greets_push 0000000000000001'x
        pace 60 1
        comes done
        opened 301
        prints 'x",
    );
}

// In 100 turns each of three silent links is read some 100 times.
#[test]
fn a_silent_link_is_read_once_a_round(rt: HostRuntime) {
    runs(
        &rt,
        "words --pull --listen tcp://127.0.0.1:5555 --raw
        links 3 greets_push wait:95 0000000000000001'x
        pace 100 1
        comes over
        opened 3
        prints 'xxx
        links 3 greets_push wait:101 0000000000000001'x
        pace 100 1
        comes over
        opened 3
        prints '",
    );
}

#[test]
fn a_run_goes_on_for_many_rounds(rt: HostRuntime) {
    runs(
        &rt,
        "words --pull --listen tcp://127.0.0.1:5555 --raw
        pace 200000 1
        comes over
        left 0",
    );
}
