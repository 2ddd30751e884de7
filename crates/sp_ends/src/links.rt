//! The ends of a run that are reached over links of a net.
ghost use Rattle.std.specs.Prelude.{◌≡◌, ◌<◌, ◌+◌, ◌*◌, ◌++◌, ◌∷◌, [], nat_le, length, true, IfOk, IfSome};
ghost use Rattle.sp_base.specs.Addresses.{is_dialable, is_linked};
ghost use Rattle.sp_ends.specs.EndViews.{no_links};
ghost use Rattle.sp_ends.specs.AddedEnds.{ListensLink, DialsLink};
ghost use Rattle.sp_ends.specs.Freeing.{AreFreed};
ghost use Rattle.sp_ends.specs.Listening.{room_for, own_of, IsFromOne, LeavesFirst};
ghost use Rattle.sp_ends.specs.EndsTurns.{SameButPlaces};

use crate::counts::{one_less, one_more};
use crate::dialer::Dialer;
use crate::error::EndError;
use crate::listener::Listener;
use crate::newcomer::Newcomer;
use sp_base::{Addr, Link, Listened, Net, NoMemory, Role, Tick};
use sp_links::copy_of;
use std::alloc::Global;
use std::collections::VecDeque;
use std::marker::Model;

/// The maximum number of links of one listener that are being opened at once. While there are as many, it isn't asked
/// for more.
const MOST_NEWCOMERS: usize = 256;

/// The number of dialed links that there is room for.
const MOST_DIALED: usize = 64;

/// Listeners, dialers, and the links that are being opened. The room for the links of a listener is taken with it.
pub(crate) struct LinkEnds<L: Link> {
    pub(crate) alloc: Global,
    /// The role in the openings.
    pub(crate) role: Role,
    /// The number from which the keys of WebSocket are made.
    pub(crate) dice: u32,
    /// The number of WebSocket links that were dialed, saturating.
    pub(crate) asked: u64,
    pub(crate) listeners: Vec<Listener>,
    /// The number of links of each listener that are being opened, in the order of the listeners.
    pub(crate) greetings: Vec<usize>,
    pub(crate) dialers: Vec<Dialer>,
    /// Those that a turn has passed are after the others; otherwise in the order in which they were handed out.
    pub(crate) newcomers: VecDeque<Newcomer<L>>,
}

impl<L: Link> Model for LinkEnds<L> {
    ghost use Rattle.std.specs.Prelude.{length};
    ghost use Rattle.std.specs.VecDeque.{deque_capacity};
    ghost use Rattle.sp_ends.specs.EndViews.{LinkEndsView};
    ghost use Rattle.sp_ends.specs.Listening.{AreCounted};

    ghost Value = { LinkEndsView L };

    ghost view = { λ e. record { role = e.role; dice = e.dice; asked = e.asked; listeners = e.listeners.items; dialers = e.dialers.items; newcomers = e.newcomers.items } };

    ghost invariant = { λ e. AreCounted e.greetings.items (length e.listeners.items) e.newcomers.items (deque_capacity e.newcomers) };
}

impl<L: Link> LinkEnds<L> {
    /// No ends. The key of the n-th opening over WebSocket that is dialed, from 0, is made from `dice` + n.
    pub fn new(alloc: Global, role: Role, dice: u32) -> Result<LinkEnds<L>, NoMemory>
        ensures { IfOk result (λ e. e ≡ no_links role dice) }
    {
        Ok(LinkEnds {
            alloc,
            role,
            dice,
            asked: 0,
            listeners: Vec::new(alloc),
            greetings: Vec::new(alloc),
            dialers: Vec::new(alloc),
            newcomers: VecDeque::with_capacity(alloc, MOST_DIALED)?,
        })
    }

    /// Listens on one more address, of TCP, IPC or WebSocket, with this receive limit for its links.
    pub fn listen<N: Net<L = L>>(
        &mut self,
        net: &mut N,
        addr: &Addr,
        max: u32,
    ) -> Result<(), EndError>
        requires linked { is_linked addr.now ≡ true }
        ensures { ListensLink result addr.now max self.old self.new (N.seen net.old) (N.seen net.new) }
    {
        if self.listeners.reserve(1).is_err() || self.greetings.reserve(1).is_err() {
            return Err(EndError::NoMemory);
        }
        let Some(room) = room_for(self.listeners.len() + 1) else {
            return Err(EndError::NoMemory);
        };
        let more = room.saturating_sub(self.newcomers.len());
        if self.newcomers.reserve(more).is_err() {
            return Err(EndError::NoMemory);
        }
        let Ok(copy) = copy_of(self.alloc, addr) else {
            return Err(EndError::NoMemory);
        };
        match net.listen(addr) {
            Listened::Failed => Err(EndError::Fault),
            Listened::At(at) => {
                self.listeners.push_reserved(Listener {
                    at,
                    addr: copy,
                    max,
                });
                self.greetings.push_reserved(0);
                Ok(())
            }
        }
    }

    /// Dials one more address, of TCP, IPC or WebSocket, from the next turn on, with this receive limit for its links.
    pub fn dial(&mut self, addr: &Addr, max: u32) -> Result<(), EndError>
        requires dialable { is_dialable addr.now ≡ true }
        ensures { DialsLink result addr.now max self.old self.new }
    {
        let Ok(copy) = copy_of(self.alloc, addr) else {
            return Err(EndError::NoMemory);
        };
        match self.dialers.push(Dialer::new(copy, max)) {
            Ok(()) => Ok(()),
            Err(_) => Err(EndError::NoMemory),
        }
    }

    // Returns whether as many links of the listener at this place of the list are being opened as may be at once.
    pub(crate) fn is_full(&self, i: usize) -> bool
        requires inside { i < length self.now.listeners }
        ensures { result ≡ nat_le 256 (own_of i self.now.newcomers) }
    {
        self.greetings[i] >= MOST_NEWCOMERS
    }

    // Puts the link after those that are being opened.
    pub(crate) fn keep(&mut self, newcomer: Newcomer<L>)
        requires room { length self.old.newcomers < room_for (length self.old.listeners) }
        requires from { IsFromOne (length self.old.listeners) newcomer.from }
        ensures { self.new ≡ record self.old { newcomers = self.old.newcomers ++ newcomer ∷ [] } }
    {
        one_more(&mut self.greetings, newcomer.from);
        self.newcomers.push_back_reserved(newcomer);
    }

    // Removes the first of those that are being opened, if there is one.
    pub(crate) fn next_newcomer(&mut self) -> Option<Newcomer<L>>
        ensures { LeavesFirst result self.old self.new }
    {
        let Some(newcomer) = self.newcomers.pop_front() else {
            return None;
        };
        one_less(&mut self.greetings, newcomer.from);
        Some(newcomer)
    }

    // Records that the link with this place is back: its dialer may dial again.
    pub(crate) fn lost(&mut self, now: Tick, place: u32)
        ensures same { SameButPlaces self.old self.new }
        ensures freed { AreFreed now place self.old.dialers self.new.dialers }
    {
        for dialer in self.dialers.iter_mut() {
            dialer.lost(now, place);
        }
    }
}

// The number of links in their opening that there is room for with this many listeners.
pub(crate) fn room_for(listeners: usize) -> Option<usize>
    ensures { IfSome result (λ n. n ≡ room_for listeners) }
{
    listeners
        .checked_mul(MOST_NEWCOMERS)?
        .checked_add(MOST_DIALED)
}
