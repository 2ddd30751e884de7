//! The net in memory by itself, and runs whose links are lost, refused or given back.
use crate::checks::{holds, made, same};
use crate::lines::{link, runs};
use cat_fakes::{PULL, words};
use cat_run::{Status, run};
use sp_base::{Addr, Host, Link, LinkRead, Linked, Listened, Net};
use sp_fakes::{MemFiles, MemLink, MemNet, MemPace, MemSink};
use std::alloc::Global;
use std::process::Abort;

// Listens at a port, accepts there, and returns the listener's number and how many bytes came from the link at once.
fn first_read(net: &mut MemNet, port: u16) -> Option<(u32, usize)> {
    let addr = Addr::Tcp {
        host: Host::Any,
        port,
    };
    let Listened::At(at) = net.listen(&addr) else {
        return None;
    };
    let mut link = match net.accept(at) {
        Linked::Got(link) => link,
        Linked::NotYet | Linked::Begun | Linked::Failed => return None,
    };
    let mut buffer = [0u8; 16];
    let came = match link.read(&mut buffer) {
        LinkRead::Got(n) => Some((at, n)),
        LinkRead::NotYet | LinkRead::Ended | LinkRead::Failed => None,
    };
    link.shut();
    net.give_back(link);
    came
}

// A link for each of the scripts in the text, with commas between them.
fn links_of(rt: &impl Abort, alloc: Global, text: &str) -> Vec<MemLink> {
    let mut links = Vec::new(alloc);
    for words in text.split(',') {
        match link(rt, alloc, words) {
            Some(link) => made(rt, links.push(link)),
            None => panic!(rt; "no link: {words}"),
        }
    }
    links
}

#[test]
fn each_listener_has_links_of_its_own(rt: HostRuntime) {
    let alloc = rt.alloc();
    let mut incoming = Vec::new(alloc);
    for text in "'a 'bb 'ccc".split_whitespace() {
        made(&rt, incoming.push(links_of(&rt, alloc, text)));
    }
    let mut net = made(
        &rt,
        MemNet::new(alloc, incoming, Vec::new(alloc), Vec::new(alloc)),
    );
    same(&rt, first_read(&mut net, 1), Some((0, 1)));
    same(&rt, first_read(&mut net, 2), Some((1, 2)));
    same(&rt, first_read(&mut net, 3), Some((2, 3)));
    same(&rt, first_read(&mut net, 4), None);
}

// The first link brings a message and ends, the second brings another. A hundred milliseconds lie between them.
#[test]
fn a_pipe_that_is_lost_is_dialed_again(rt: HostRuntime) {
    runs(
        &rt,
        "words --pull --dial tcp://127.0.0.1:5555 --ascii --count 2
        dials 5555
        link greets_push 0000000000000001'a end
        link greets_push 0000000000000001'b
        comes done
        opened 2
        prints 'a 0a'b 0a'
        writes greets_pull
        second greets_pull
        below 100",
    );
}

// A dial that fails is tried again 100 milliseconds later. A link without a greeting is given back after ten seconds,
// and the address is dialed again.
#[test]
fn a_dial_that_fails_is_tried_again(rt: HostRuntime) {
    runs(
        &rt,
        "words --pull --dial tcp://127.0.0.1:5555 --count 1
        dials 5555
        link greets_push 0000000000000005'hello
        net_fails 0
        comes done
        opened 1
        below 100
        dials 5555
        links 3
        pace 95 100
        comes over
        opened 1
        dials 5555
        links 3
        pace 195 100
        comes over
        opened 2
        dials 5555
        links 3
        pace 215 100
        comes over
        opened 3",
    );
}

// Returns whether the link with this place came back, and was shut.
fn is_back(net: &MemNet, place: u32) -> bool {
    match net.returned(place) {
        Some(link) => !link.is_open(),
        None => false,
    }
}

// A run ends with one link up, one in its greetings, and one that has ended: all three come back.
#[test]
fn every_link_comes_back(rt: HostRuntime) {
    let alloc = rt.alloc();
    let mut incoming = Vec::new(alloc);
    let links = links_of(&rt, alloc, "greets_push,00'SP,greets_push end");
    made(&rt, incoming.push(links));
    let mut net = made(
        &rt,
        MemNet::new(alloc, incoming, Vec::new(alloc), Vec::new(alloc)),
    );
    let mut files = MemFiles::new(alloc, Vec::new(alloc), Vec::new(alloc));
    let mut pace = MemPace::new(20, 1);
    let mut out = MemSink::new(alloc, Vec::new(alloc));
    let list = made(&rt, words(alloc, PULL));
    let end = run(&rt, &list, &mut net, &mut files, &mut pace, &mut out, 0);
    same(&rt, end.status, Status::Over);
    same(&rt, net.opened(), 3);
    for place in 0..3 {
        holds(&rt, is_back(&net, place));
    }
}
