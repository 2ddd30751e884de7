//! A net of links in memory.
ghost use Rattle.std.specs.Prelude.{◌≡◌, ◌≤◌, ◌<◌, ◌+◌, ◌-◌, ◌^◌, ◌↔◌, ℕ, Some, None, IfSome, IfNone, IfOk, IsSome, IsTrue, true, length};
ghost use Rattle.std.specs.FinMap as map;
ghost use Rattle.std.specs.Ordering.{nat_cmp};
ghost use Rattle.sp_base.specs.Views.{LinkView};
ghost use Rattle.sp_base.specs.Addresses.{is_linked, is_dialable};
ghost use Rattle.sp_base.specs.Steps.{AfterRead, AfterWrite, AfterShut, AfterListen, AfterAccept, AfterDial, AfterGiveBack};
ghost use Rattle.sp_fakes.specs.Calls.{next_fails, one_call};
ghost use Rattle.sp_fakes.specs.Scripts.{ReadBy, WrittenBy, faults_read, faults_written};
ghost use Rattle.sp_fakes.specs.MemLinks.{link_view, link_script, as_made, written_on, unread_at};
ghost use Rattle.sp_fakes.specs.Nets.{link_of, net_view, net_script, fresh_net, queue_of, queues_of, queues_to, all_as_made, lists_as_made, dials_as_made, Queue, RefusedAs, GoesAt, GoesTo, IsPast, IsPlaceOf, ListenBy, AcceptBy, DialBy, IsFirst, IsHandedOn, IsLinked, HasNone, HasNoListener, faults_listened, faults_linked};

use crate::is_listed;
use crate::link::MemLink;
use sp_base::{
    Addr, Link, LinkRead, LinkWrite, Linked, Listened, ListenerSchemes, Net, NoMemory, Scheme,
};
use std::alloc::Global;
use std::collections::VecDeque;
use std::mem;

/// The links that were given back, the newest first.
pub enum Returned {
    /// None was given back.
    Nothing,
    /// The newest, and those before it.
    More(MemLink, Box<Returned>),
}

impl Drop for Returned {
    // Drops them one after another: a long list is too deep for a recursive drop.
    fn drop(mut self) {
        loop {
            match self {
                Returned::Nothing => return,
                Returned::More(_, below) => self = Box::into_inner(below),
            }
        }
    }
}

/// A link of the net, with the room for it among those that come back.
#[derive(Drop)]
pub struct NetLink {
    link: MemLink,
    node: Box<Returned>,
}

impl Link for NetLink {
    ghost seen = { λ l. link_view l.link };

    fn place(&self) -> u32 {
        self.link.place()
    }

    fn read(&mut self, buf: &mut [u8]) -> LinkRead
        requires is_open { (link_view (link_of self.old)).is_open ≡ true }
        requires room { 0 < length buf.old }
        ensures after { AfterRead result buf.new (link_view (link_of self.old)) (link_view (link_of self.new)) }
        ensures by { ReadBy (length (written_on (link_of self.old))) result buf.new (link_script (link_of self.old)) (link_script (link_of self.new)) }
        ensures faults { (link_view (link_of self.new)).faults ≡ faults_read result (link_view (link_of self.old)).faults }
    {
        self.link.read(buf)
    }

    fn write(&mut self, buf: &[u8]) -> LinkWrite
        requires is_open { (link_view (link_of self.old)).is_open ≡ true }
        requires some { 0 < length buf.now }
        ensures after { AfterWrite result buf.now (link_view (link_of self.old)) (link_view (link_of self.new)) }
        ensures by { WrittenBy result (next_fails (link_script (link_of self.old)).writes) (link_script (link_of self.old)).most (length buf.now) }
        ensures script { link_script (link_of self.new) ≡ record (link_script (link_of self.old)) { writes = one_call (link_script (link_of self.old)).writes } }
        ensures faults { (link_view (link_of self.new)).faults ≡ faults_written result (link_view (link_of self.old)).faults }
    {
        self.link.write(buf)
    }

    fn shut(&mut self)
        ensures after { AfterShut (link_view (link_of self.old)) (link_view (link_of self.new)) }
        ensures script { link_script (link_of self.new) ≡ link_script (link_of self.old) }
    {
        self.link.shut()
    }
}

/// A net that has, for each listener and each dialed address, a list of the links that come.
#[derive(Drop)]
pub struct MemNet {
    incoming: Vec<VecDeque<NetLink>>,
    outgoing: Vec<(Addr, VecDeque<NetLink>)>,
    listeners: ListenerSchemes,
    handed: u32,
    returned: Returned,
    fails: Vec<u64>,
    calls: u64,
    fault_count: u64,
    idle_count: u64,
}

// The links with the room for their return.
fn with_nodes(alloc: Global, list: Vec<MemLink>) -> Result<VecDeque<NetLink>, NoMemory>
    ensures { IfOk result (λ links. queue_of links.items ≡ all_as_made list.items) }
{
    let mut links = VecDeque::new(alloc);
    for link in list {
        let node = Box::new(alloc, Returned::Nothing)?;
        links.push_back(NetLink { link, node })?;
    }
    Ok(links)
}

// The lists with the room for their return.
fn all_with_nodes(
    alloc: Global,
    lists: Vec<Vec<MemLink>>,
) -> Result<Vec<VecDeque<NetLink>>, NoMemory>
    ensures { IfOk result (λ all. queues_of all.items ≡ lists_as_made lists.items) }
{
    let mut all = Vec::new(alloc);
    for list in lists {
        all.push(with_nodes(alloc, list)?)?;
    }
    Ok(all)
}

fn addresses_with_nodes(
    alloc: Global,
    lists: Vec<(Addr, Vec<MemLink>)>,
) -> Result<Vec<(Addr, VecDeque<NetLink>)>, NoMemory>
    ensures { IfOk result (λ all. queues_to all.items ≡ dials_as_made lists.items) }
{
    let mut all = Vec::new(alloc);
    for (addr, list) in lists {
        all.push((addr, with_nodes(alloc, list)?))?;
    }
    Ok(all)
}

impl MemNet {
    /// A net with, for each listener in the order of `listen` and for each address that is dialed, the links that come,
    /// the first one first; one without a list has none. Calls of `listen`, `accept` and `dial` with these numbers
    /// fail.
    pub fn new(
        alloc: Global,
        incoming: Vec<Vec<MemLink>>,
        outgoing: Vec<(Addr, Vec<MemLink>)>,
        fails: Vec<u64>,
    ) -> Result<MemNet, NoMemory>
        ensures fresh { IfOk result (λ net. net_view net ≡ fresh_net) }
        ensures calls { IfOk result (λ net. (net_script net).calls ≡ record { made = 0; fails = fails.items }) }
        ensures listened { IfOk result (λ net. (net_script net).listened ≡ 0) }
        ensures accepts { IfOk result (λ net. (net_script net).accepts ≡ lists_as_made incoming.items) }
        ensures dials { IfOk result (λ net. (net_script net).dials ≡ dials_as_made outgoing.items) }
    {
        let incoming = all_with_nodes(alloc, incoming)?;
        let outgoing = addresses_with_nodes(alloc, outgoing)?;
        Ok(MemNet {
            incoming,
            outgoing,
            listeners: ListenerSchemes::new(alloc),
            handed: 0,
            returned: Returned::Nothing,
            fails,
            calls: 0,
            fault_count: 0,
            idle_count: 0,
        })
    }

    /// The link that was given back with this place.
    pub fn returned(&self, place: u32) -> Option<&MemLink>
        ensures found { IfSome result (λ link. map.get (net_view self.now).back place ≡ Some (link_view link.now)) }
        ensures none { IfNone result (map.get (net_view self.now).back place ≡ None) }
    {
        let mut rest = &self.returned;
        while let Returned::More(link, below) = rest {
            if link.place() == place {
                return Some(link);
            }
            rest = below;
        }
        None
    }

    /// The number of links that were handed out.
    pub fn opened(&self) -> u32
        ensures { result ≡ (net_view self.now).opened }
    {
        self.handed
    }

    // Returns whether this call is listed.
    fn fails(&mut self) -> bool
        ensures view { net_view self.new ≡ net_view self.old }
        ensures listed { result ≡ next_fails (net_script self.old).calls }
        ensures script { net_script self.new ≡ record (net_script self.old) { calls = one_call (net_script self.old).calls } }
    {
        let fails = is_listed(&self.fails, self.calls);
        self.calls = self.calls.saturating_add(1);
        fails
    }

    // Returns whether this accept or dial fails.
    fn refuses(&mut self) -> bool
        ensures view { net_view self.new ≡ net_view self.old }
        ensures refused { RefusedAs result (next_fails (net_script self.old).calls) (net_view self.old).opened }
        ensures script { net_script self.new ≡ record (net_script self.old) { calls = one_call (net_script self.old).calls } }
    {
        let fails = self.fails();
        fails || self.handed >= u32::MAX - 1
    }

    // Counts and returns that there is no link.
    fn idle(&mut self) -> Linked<NetLink>
        ensures none { HasNone result (net_view self.old) (net_view self.new) }
        ensures returned { result ≡ Linked.NotYet }
        ensures script { net_script self.new ≡ net_script self.old }
        ensures faults { (net_view self.new).faults ≡ faults_linked result (net_view self.old).faults }
    {
        self.idle_count = self.idle_count.saturating_add(1);
        Linked::NotYet
    }

    // Counts and returns a fault.
    fn fault(&mut self) -> Linked<NetLink>
        ensures none { HasNone result (net_view self.old) (net_view self.new) }
        ensures returned { result ≡ Linked.Failed }
        ensures script { net_script self.new ≡ net_script self.old }
        ensures faults { (net_view self.new).faults ≡ faults_linked result (net_view self.old).faults }
    {
        self.fault_count = self.fault_count.saturating_add(1);
        Linked::Failed
    }

    // Counts and returns that no listener was added.
    fn no_listener(&mut self) -> Listened
        ensures returned { result ≡ Listened.Failed }
        ensures none { HasNoListener result (net_view self.old) (net_view self.new) }
        ensures script { net_script self.new ≡ net_script self.old }
        ensures faults { (net_view self.new).faults ≡ faults_listened result (net_view self.old).faults }
    {
        self.fault_count = self.fault_count.saturating_add(1);
        Listened::Failed
    }

    // Hands out the link that is found, if there is one.
    fn hand_out(&mut self, found: Option<NetLink>, scheme: Scheme) -> Linked<NetLink>
        requires { (net_view self.old).opened < 2 ^ 32 - 2 }
        ensures linked { IsLinked result (Some scheme) (net_view self.old) (net_view self.new) }
        ensures on { IsHandedOn found result }
        ensures script { net_script self.new ≡ net_script self.old }
        ensures faults { (net_view self.new).faults ≡ faults_linked result (net_view self.old).faults }
    {
        let Some(NetLink { link, node }) = found else {
            return self.idle();
        };
        let number = self.handed;
        self.handed += 1;
        Linked::Got(NetLink {
            link: link.placed(number, scheme),
            node,
        })
    }
}

impl Net for MemNet {
    type L = NetLink;

    ghost seen = { net_view };

    fn listen(&mut self, addr: &Addr) -> Listened
        requires { is_linked addr.now ≡ true }
        ensures after { AfterListen result addr.now (net_view self.old) (net_view self.new) }
        ensures by { ListenBy result (net_script self.old) (net_script self.new) }
        ensures faults { (net_view self.new).faults ≡ faults_listened result (net_view self.old).faults }
    {
        if self.fails() {
            return self.no_listener();
        }
        match self.listeners.add(addr.scheme()) {
            Ok(number) => Listened::At(number),
            Err(_) => self.no_listener(),
        }
    }

    fn accept(&mut self, at: u32) -> Linked<NetLink>
        requires { IsSome (map.get (net_view self.old).listens at) }
        ensures after { AfterAccept (λ l. link_view (link_of l)) result at (net_view self.old) (net_view self.new) }
        ensures by { AcceptBy result at (net_view self.old).opened (net_script self.old) (net_script self.new) }
        ensures faults { (net_view self.new).faults ≡ faults_linked result (net_view self.old).faults }
    {
        if self.refuses() {
            return self.fault();
        }
        let scheme = self.listeners.scheme(at);
        let found = first_of(&mut self.incoming, at as usize);
        self.hand_out(found, scheme)
    }

    fn dial(&mut self, addr: &Addr) -> Linked<NetLink>
        requires { is_dialable addr.now ≡ true }
        ensures after { AfterDial (λ l. link_view (link_of l)) result addr.now (net_view self.old) (net_view self.new) }
        ensures by { DialBy result addr.now (net_view self.old).opened (net_script self.old) (net_script self.new) }
        ensures faults { (net_view self.new).faults ≡ faults_linked result (net_view self.old).faults }
    {
        if self.refuses() {
            return self.fault();
        }
        let found = first_to(&mut self.outgoing, addr);
        self.hand_out(found, addr.scheme())
    }

    fn give_back(&mut self, link: NetLink)
        requires { (link_view (link_of link)).place < (net_view self.old).opened }
        ensures after { AfterGiveBack (link_view (link_of link)) (net_view self.old) (net_view self.new) }
        ensures script { net_script self.new ≡ net_script self.old }
    {
        let NetLink { link, mut node } = link;
        *node = mem::replace(&mut self.returned, Returned::Nothing);
        self.returned = Returned::More(link, node);
    }
}

// The first link of a list.
fn take_first(list: &mut VecDeque<NetLink>) -> Option<NetLink>
    ensures { IsFirst result (queue_of list.old.items) (queue_of list.new.items) }
{
    list.pop_front()
}

// The next link of a listener.
fn first_of(incoming: &mut Vec<VecDeque<NetLink>>, at: usize) -> Option<NetLink>
    ensures { (queue : Queue) × (after : Queue) × GoesAt at (queues_of incoming.old.items) (queues_of incoming.new.items) queue after × IsFirst result queue after }
{
    if at >= incoming.len() {
        return None;
    }
    take_first(&mut incoming[at])
}

// The next link of an address.
fn first_to(outgoing: &mut Vec<(Addr, VecDeque<NetLink>)>, addr: &Addr) -> Option<NetLink>
    ensures { (queue : Queue) × (after : Queue) × GoesTo addr.now (queues_to outgoing.old.items) (queues_to outgoing.new.items) queue after × IsFirst result queue after }
{
    match place_of(outgoing, addr) {
        Some(at) => take_first(&mut outgoing[at].1),
        None => None,
    }
}

// The place of the first list of an address.
fn place_of(outgoing: &[(Addr, VecDeque<NetLink>)], addr: &Addr) -> Option<usize>
    ensures found { IfSome result (λ at. IsPlaceOf addr.now outgoing.now at) }
    ensures none { IfNone result (IsPast addr.now outgoing.now (length outgoing.now)) }
{
    for at in 0..outgoing.len() {
        if is_same(&outgoing[at].0, addr) {
            return Some(at);
        }
    }
    None
}

fn is_same(a: &Addr, b: &Addr) -> bool
    ensures { IsTrue result ↔ (a.now ≡ b.now) }
{
    match (a, b) {
        (Addr::Tcp { host, port }, Addr::Tcp { host: h, port: p }) => host == h && port == p,
        (
            Addr::Ws { host, port, path },
            Addr::Ws {
                host: h,
                port: p,
                path: q,
            },
        ) => host == h && port == p && path.as_slice() == q.as_slice(),
        (Addr::Inproc { name }, Addr::Inproc { name: n }) => name.as_slice() == n.as_slice(),
        (Addr::Ipc { path }, Addr::Ipc { path: p }) => path.as_slice() == p.as_slice(),
        _ => false,
    }
}
