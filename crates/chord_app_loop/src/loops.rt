//! The event loops of a server.
ghost use Rattle.std.specs.Prelude.{◌≡◌, ◌≤◌, ◌+◌, IfOk, vec_len};

use crate::event_loop::{EventLoop, Setting};
use crate::guest::Guest;
use crate::owner::Owner;
use crate::rules::Rules;
use crate::seat::Seat;
use chord_serve::{Protocol, Stream};
use crossbeam_channel::{Receiver, Sender};
use mio::{Events, Poll, Token, Waker};
use std::alloc::{AllocError, Global};
use std::net::Net;
use std::os::fd::AsRawFd;
use std::sync::atomic::{AtomicBool, AtomicU64, Ordering};
use std::sync::{Mutex, Wait};
use std::thread::{Threads, available_parallelism};
use std::time::Clock;

/// Of how many streams one wait tells at most.
const EVENTS: usize = 1_024;

/// The token of a waker. No connection has it.
pub(crate) const WAKE: Token = Token(usize::MAX);

/// What an event loop waits with.
#[derive(Drop)]
pub(crate) struct Waits {
    pub poll: Poll,
    pub events: Events,
}

/// A connection that comes to an event loop.
#[derive(Drop)]
pub(crate) enum Coming<P: Protocol, S: Stream> {
    New(Guest<S>),
    /// From another loop.
    Given(Seat<P, S>),
}

/// An event loop, as other threads see it.
#[derive(Drop)]
pub(crate) struct Loop<P: Protocol, S: Stream> {
    /// The event loop has them locked while it runs.
    pub waits: Mutex<Waits>,
    waker: Waker,
    inbox: Sender<Coming<P, S>, Global>,
    pub arrivals: Receiver<Coming<P, S>, Global>,
}

impl<P: Protocol, S: Stream> Loop<P, S> {
    fn wake(&self) {
        let _ = self.waker.wake().is_ok();
    }
}

impl<P: Protocol + Drop, S: Stream + Drop> Loop<P, S> {
    /// None without memory or a descriptor for it.
    fn open<R: Net>(rt: &R, alloc: Global) -> Option<Loop<P, S>> {
        let poll = Poll::new(rt).ok()?;
        let waker = Waker::new(poll.registry(), WAKE).ok()?;
        let events = Events::with_capacity(alloc, EVENTS).ok()?;
        let (inbox, arrivals) = crossbeam_channel::unbounded(alloc).ok()?;
        Some(Loop {
            waits: Mutex::new(Waits { poll, events }),
            waker,
            inbox,
            arrivals,
        })
    }

    /// Sends a connection to it.
    fn send<R: Wait>(&self, rt: &R, coming: Coming<P, S>) {
        drop(self.inbox.send(rt, coming));
        self.wake();
    }
}

/// The event loops of a server.
#[derive(Drop)]
pub struct Loops<P: Protocol, S: Stream> {
    first: Loop<P, S>,
    others: Vec<Loop<P, S>>,
    pub(crate) rules: Rules,
    /// Which one gets the next connection that the first one gives away.
    turn: AtomicU64,
    /// How many connections the loops behind the first one have.
    given: AtomicU64,
    is_over: AtomicBool,
}

impl<P: Protocol + Drop, S: Stream + Drop> Loops<P, S> {
    /// One event loop and this many more, or as many of these as there are memory and descriptors
    /// for.
    pub fn open<R: Net>(
        rt: &R,
        alloc: Global,
        rules: Rules,
        more: u64,
    ) -> Result<Loops<P, S>, AllocError>
        ensures more { IfOk result (λ loops. vec_len loops.others ≤ more) }
        ensures rules { IfOk result (λ loops. loops.rules ≡ rules) }
    {
        let first = Loop::open(rt, alloc).ok_or(AllocError)?;
        let mut others = Vec::new(alloc);
        for _ in 0..more {
            if let Some(one) = Loop::open(rt, alloc) {
                others.push(one)?;
            }
        }
        Ok(Loops {
            first,
            others,
            rules,
            turn: AtomicU64::new(0),
            given: AtomicU64::new(0),
            is_over: AtomicBool::new(false),
        })
    }

    /// One for each processor, or one if it is not known how many there are.
    pub fn for_processors<R: Net + Threads>(
        rt: &R,
        alloc: Global,
        rules: Rules,
    ) -> Result<Loops<P, S>, AllocError> {
        match available_parallelism(rt) {
            Ok(processors) => Loops::open(rt, alloc, rules, processors.get() as u64 - 1),
            Err(_) => Loops::open(rt, alloc, rules, 0),
        }
    }
}

impl<P: Protocol, S: Stream> Loops<P, S> {
    /// How many there are.
    pub fn count(&self) -> u64
        ensures { result ≡ vec_len self.now.others + 1 }
    {
        self.others.len() as u64 + 1
    }

    /// The one of this number.
    fn get(&self, number: u64) -> Option<&Loop<P, S>> {
        match number.checked_sub(1) {
            Some(place) => self.others.get(place as usize),
            None => Some(&self.first),
        }
    }

    /// Wakes all of them, so that they look what is to be done.
    pub fn wake(&self) {
        self.first.wake();
        for one in self.others.iter() {
            one.wake();
        }
    }

    /// Ends them once they serve no connection. Nothing may be added any more.
    pub fn end(&self) {
        self.is_over.store(true, Ordering::SeqCst);
        self.wake();
    }

    /// Notes that a connection of a loop behind the first one ended.
    pub(crate) fn note_end_of_given(&self) {
        self.given.fetch_sub(1, Ordering::Relaxed);
    }

    /// Whether the loops behind the first one have connections, so that there are more busy clients
    /// than one loop serves.
    pub(crate) fn has_given(&self) -> bool {
        self.given.load(Ordering::Relaxed) > 0
    }

    pub(crate) fn is_over(&self) -> bool {
        self.is_over.load(Ordering::SeqCst)
    }
}

impl<P: Protocol + Drop, S: Stream + Drop> Loops<P, S> {
    /// Adds a connection that begins.
    pub fn add<R: Wait>(&self, rt: &R, guest: Guest<S>) {
        self.first.send(rt, Coming::New(guest));
    }

    /// Gives a connection to one of the loops behind the first, in turn. Gives it back if there is
    /// none.
    pub(crate) fn give<R: Wait>(&self, rt: &R, seat: Seat<P, S>) -> Option<Seat<P, S>> {
        let turn = self.turn.fetch_add(1, Ordering::SeqCst) as usize;
        match self.others.get(turn % self.others.len().max(1)) {
            Some(other) => {
                self.given.fetch_add(1, Ordering::Relaxed);
                other.send(rt, Coming::Given(seat));
                None
            }
            None => Some(seat),
        }
    }
}

impl<P: Protocol + Drop, S: Stream + AsRawFd + Drop> Loops<P, S> {
    /// Runs the event loop of this number, until all of them are ended.
    pub fn run<R: Wait + Clock, O: Owner<P, S>>(
        &self,
        rt: &R,
        alloc: Global,
        owner: &O,
        number: u64,
    ) {
        let Some(one) = self.get(number) else {
            return;
        };
        let mut waits = one.waits.lock(rt);
        let setting = Setting {
            rt,
            owner,
            loops: self,
            arrivals: &one.arrivals,
            is_first: number == 0,
        };
        if let Ok(running) = EventLoop::new(alloc, setting, &mut *waits) {
            running.run();
        }
    }
}
