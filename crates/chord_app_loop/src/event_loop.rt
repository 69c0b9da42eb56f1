//! The thread that serves all connections that came to it.

use crate::budget::SMALL_BYTES;
use crate::closing::Closing;
use crate::guest::{Guest, LATE_MILLISECONDS};
use crate::loops::{Coming, Loops, WAKE, Waits};
use crate::owner::{Met, Owner};
use crate::rules::LOOKS_A_SECOND;
use crate::seat::{Driven, Ready, Seat};
use crate::timer::Timer;
use chord_app_sockets::Ended;
use chord_serve::{Link, Protocol, Served, Stream};
use crossbeam_channel::Receiver;
use mio::unix::SourceFd;
use mio::{Interest, Token};
use slab::Slab;
use std::alloc::{AllocError, Global};
use std::mem;
use std::net::TcpStream;
use std::os::fd::{AsRawFd, RawFd};
use std::sync::{Arc, Wait};
use std::time::{Clock, Duration, Instant};

/// How often the first loop looks for more behind work before it sleeps, while it has all
/// connections.
const POLLS: u32 = 100;

/// How often it does while other loops have some: their clients want the processor.
const CROWDED_POLLS: u32 = 1;

/// Behind how many waits in a row that found something at once the first loop gives a connection to
/// another one.
const BUSY_WAITS: u32 = 256;

/// How many milliseconds lie between two looks at all connections.
const LOOK_MILLISECONDS: u64 = 1_000 / LOOKS_A_SECOND;

/// How many milliseconds lie between two meetings of a connection that waits.
const MEETING_MILLISECONDS: u64 = 2;

/// How often a connection that begins is read before others have their turn.
const MOST_READS: u32 = 4;

/// Where an event loop runs.
#[derive(Drop)]
pub(crate) struct Setting<'l, R, O, P: Protocol, S: Stream> {
    pub rt: &'l R,
    pub owner: &'l O,
    pub loops: &'l Loops<P, S>,
    pub arrivals: &'l Receiver<Coming<P, S>, Global>,
    /// Whether it is the first one, which keeps its connections until it does not sleep any more.
    pub is_first: bool,
}

/// A connection of an event loop.
#[derive(Drop)]
enum Place<P: Protocol, S: Stream> {
    Begins(Guest<S>),
    Served(Seat<P, S>),
    Closing(Closing),
    /// None: it moves to another place.
    Empty,
}

/// Serves connections. It sleeps while no client sends anything and no request waits.
#[derive(Drop)]
pub(crate) struct EventLoop<'l, R, O, P: Protocol, S: Stream> {
    setting: Setting<'l, R, O, P, S>,
    alloc: Global,
    waits: &'l mut Waits,
    places: Slab<Place<P, S>>,
    /// What each read goes through.
    buffer: Vec<u8>,
    /// The connections of which the last wait told.
    ready: Vec<Ready>,
    /// Those that go on behind these.
    again: Vec<usize>,
    timer: Timer,
    /// Whether it was woken for what came from other threads.
    is_woken: bool,
    /// How often it still looks for more before it sleeps.
    polls: u32,
    /// How many waits in a row found something at once.
    busy_waits: u32,
    /// When it last looked for silent clients, and at what its connections hold.
    looked: Option<Instant>,
    /// Whether some connections may be held back.
    holds_back: bool,
    /// How many looks in a row found that all connections hold too much.
    over_looks: u64,
    /// The connections whose answers wait until changes are written, up to the next mark.
    held: Vec<usize>,
    mark: u64,
    /// Up to where they are written.
    written: u64,
}

impl<'l, R, O, P: Protocol, S: Stream> EventLoop<'l, R, O, P, S> {
    pub fn new(
        alloc: Global,
        setting: Setting<'l, R, O, P, S>,
        waits: &'l mut Waits,
    ) -> Result<EventLoop<'l, R, O, P, S>, AllocError> {
        let mut buffer = Vec::new(alloc);
        buffer.resize(setting.loops.rules.read_size.most_bytes(), 0)?;
        Ok(EventLoop {
            setting,
            alloc,
            waits,
            places: Slab::new(alloc),
            buffer,
            ready: Vec::new(alloc),
            again: Vec::new(alloc),
            timer: Timer::new(alloc),
            is_woken: true,
            polls: 0,
            busy_waits: 0,
            looked: None,
            holds_back: false,
            over_looks: 0,
            held: Vec::new(alloc),
            mark: 0,
            written: 0,
        })
    }

    /// Has waits tell of a descriptor by this key.
    fn register(&self, key: usize, descriptor: RawFd) -> bool {
        let both = Interest::READABLE | Interest::WRITABLE;
        let registry = self.waits.poll.registry();
        registry
            .register(&mut SourceFd(&descriptor), Token(key), both)
            .is_ok()
    }

    /// Has waits tell no more of a descriptor.
    fn deregister(&self, descriptor: RawFd) {
        let registry = self.waits.poll.registry();
        let _ = registry.deregister(&mut SourceFd(&descriptor)).is_ok();
    }

    /// Whether connections wait closely for their next tries, so that a sleep of whole milliseconds
    /// is too long.
    fn is_close(&self) -> bool {
        match self.timer.first() {
            Some((_, key)) => match self.places.get(key) {
                Some(Place::Served(seat)) => seat.is_tried_closely(),
                _ => false,
            },
            None => false,
        }
    }
}

impl<R: Clock, O, P: Protocol, S: Stream> EventLoop<'_, R, O, P, S> {
    /// What time it is, if the clock can be read.
    fn now(&self) -> Option<Instant> {
        Instant::now(self.setting.rt).ok()
    }

    /// How long the next wait takes at most: for ever where nothing is to be done.
    fn time(&self) -> Option<Duration> {
        if !self.again.is_empty() || self.polls > 0 || self.is_close() {
            return Some(Duration::ZERO);
        }
        let look = Duration::from_millis(LOOK_MILLISECONDS);
        let longest = if self.places.is_empty() {
            None
        } else {
            Some(look)
        };
        let Some((first, _)) = self.timer.first() else {
            return longest;
        };
        match self.now() {
            Some(now) => Some(first.duration_since(now).min(longest.unwrap_or(look))),
            None => Some(Duration::ZERO),
        }
    }

    /// Waits until some connections have something, and notes which. Where there is no memory for
    /// that, each may.
    fn wait(&mut self) -> Result<(), AllocError> {
        let time = self.time();
        self.ready.clear();
        let Waits { poll, events } = &mut *self.waits;
        let _ = poll.poll(events, time).is_ok();
        let is_found = !events.is_empty();
        self.busy_waits = if is_found && time == Some(Duration::ZERO) {
            self.busy_waits.saturating_add(1)
        } else {
            0
        };
        self.polls = if is_found && self.setting.is_first {
            if self.setting.loops.has_given() {
                CROWDED_POLLS
            } else {
                POLLS
            }
        } else {
            self.polls.saturating_sub(1)
        };
        for event in events.iter() {
            if event.token() == WAKE {
                self.is_woken = true;
            } else {
                self.ready.push(Ready::of(event))?;
            }
        }
        Ok(())
    }

    /// Whether the request of this connection that waits is tried again at some time.
    fn is_scheduled(&self, key: usize) -> bool {
        match self.places.get(key) {
            Some(Place::Served(seat)) => seat.time.is_some(),
            _ => false,
        }
    }

    /// Notes that the connection of this key, which begins, is met after this many milliseconds.
    /// Says false if that cannot be.
    fn meet_later(&mut self, key: usize, milliseconds: u64) -> bool {
        let Some(now) = self.now() else {
            return false;
        };
        let Some(time) = now.checked_add(Duration::from_millis(milliseconds)) else {
            return false;
        };
        if let Some(Place::Begins(guest)) = self.places.get_mut(key) {
            guest.time = Some(time);
        }
        self.timer.add(time, key)
    }

    /// Notes when the connection of this key is tried again. Says false if that cannot be.
    fn schedule(&mut self, key: usize) -> bool {
        let Some(now) = self.now() else {
            return false;
        };
        let time = match self.places.get_mut(key) {
            Some(Place::Served(seat)) => seat.schedule(now, &self.setting.loops.rules),
            _ => None,
        };
        match time {
            Some(time) => self.timer.add(time, key),
            None => false,
        }
    }
}

impl<R: Clock, O: Owner<P, S>, P: Protocol + Drop, S: Stream + AsRawFd + Drop> EventLoop<
    '_,
    R,
    O,
    P,
    S,
> {
    /// Keeps a connection. None if there is no memory or descriptor for it: it is ended then.
    fn keep(&mut self, descriptor: RawFd, place: Place<P, S>) -> Option<usize> {
        match self.places.insert(place) {
            Ok(key) => {
                if self.register(key, descriptor) {
                    return Some(key);
                }
                self.end_at(key, Ended::Served(Served::Memory));
            }
            Err(refused) => self.let_go(refused.value, Ended::Served(Served::Memory)),
        }
        None
    }

    /// Ends a connection: tells how, and closes it.
    fn let_go(&mut self, place: Place<P, S>, ended: Ended) {
        match place {
            Place::Begins(guest) => {
                self.deregister(guest.as_raw_fd());
                let (number, stream) = guest.into_parts();
                self.leave(number, stream, ended, None);
            }
            Place::Served(seat) => {
                self.deregister(seat.as_raw_fd());
                self.setting.owner.budget().note(seat.held, 0);
                if !self.setting.is_first {
                    self.setting.loops.note_end_of_given();
                }
                let (number, stream, protocol) = seat.into_parts();
                self.leave(number, stream, ended, Some(protocol));
            }
            Place::Closing(closing) => {
                let number = closing.number;
                self.deregister(closing.as_raw_fd());
                drop(closing);
                self.setting.owner.hear_close(number);
            }
            Place::Empty => {}
        }
    }

    /// Ends the connection of this key.
    fn end_at(&mut self, key: usize, ended: Ended) {
        if let Some(place) = self.places.try_remove(key) {
            self.let_go(place, ended);
        }
    }

    /// Tells how a connection ended, and closes it.
    fn leave(&mut self, number: u64, stream: Arc<TcpStream>, ended: Ended, protocol: Option<P>) {
        self.setting.owner.hear_end(number, &ended, protocol);
        if ended.is_closed_slowly() && self.closes_slowly(number, &stream) {
            drop(stream);
            return;
        }
        drop(stream);
        self.setting.owner.hear_close(number);
    }

    /// Ends the server's side of a connection, and says whether it is kept until its client has
    /// ended the other.
    fn closes_slowly(&mut self, number: u64, stream: &Arc<TcpStream>) -> bool {
        let Some(now) = self.now() else {
            return false;
        };
        let Some(closing) = Closing::begin(number, stream, now) else {
            return false;
        };
        let until = closing.until;
        let descriptor = closing.as_raw_fd();
        match self.places.insert(Place::Closing(closing)) {
            Ok(key) => {
                if self.register(key, descriptor) && self.timer.add(until, key) {
                    return true;
                }
                self.deregister(descriptor);
                drop(self.places.try_remove(key));
                false
            }
            Err(refused) => {
                drop(refused.value);
                false
            }
        }
    }

    /// Drops what came of a connection that is being closed.
    fn drop_input(&mut self, key: usize) {
        let is_over = match self.places.get_mut(key) {
            Some(Place::Closing(closing)) => !closing.drop_input(&mut self.buffer),
            _ => false,
        };
        if is_over {
            self.end_at(key, Ended::Served(Served::Ended));
        }
    }

    /// Has the connection of this key driven again behind the others.
    fn go_on_later(&mut self, key: usize) {
        if self.again.push(key).is_err() {
            self.end_at(key, Ended::Served(Served::Memory));
        }
    }

    /// Has this link serve the connection of this key.
    fn begin(&mut self, key: usize, link: Link<P, S>) {
        let turns = self.setting.loops.rules.turns;
        let Some(place) = self.places.get_mut(key) else {
            drop(link);
            return;
        };
        let begun = match mem::replace(place, Place::Empty) {
            Place::Begins(guest) => {
                let (number, stream) = guest.into_parts();
                Place::Served(Seat::new(number, stream, link, turns))
            }
            other => {
                drop(link);
                other
            }
        };
        drop(mem::replace(place, begun));
    }

    /// Learns what the connection of this key becomes.
    fn meet(&mut self, key: usize) {
        let met = match self.places.get(key) {
            Some(Place::Begins(guest)) => self.setting.owner.meet(guest),
            _ => return,
        };
        match met {
            Met::Reads => {}
            Met::Waits => {
                if !self.meet_later(key, MEETING_MILLISECONDS) {
                    self.end_at(key, Ended::Served(Served::Memory));
                }
            }
            Met::Begins(link) => {
                self.begin(key, link);
                self.go_on_later(key);
            }
            Met::Ended(ended) => self.end_at(key, ended),
        }
    }

    /// Reads what came of a connection that begins, and learns what it becomes.
    fn hear(&mut self, key: usize) {
        for _ in 0..MOST_READS {
            let heard = match self.places.get_mut(key) {
                Some(Place::Begins(guest)) => guest.read(&mut self.buffer),
                _ => return,
            };
            match heard {
                Ok(true) => self.meet(key),
                Ok(false) => return,
                Err(served) => {
                    self.end_at(key, Ended::Served(served));
                    return;
                }
            }
        }
        self.go_on_later(key);
    }

    /// Has the connection of this key do what there is to do. One that cannot be tried again later
    /// is told at once that its request has no answer.
    fn drive(&mut self, key: usize) {
        let driven = match self.places.get_mut(key) {
            Some(Place::Served(seat)) => {
                let owner = self.setting.owner;
                let driven = seat.drive(&mut self.buffer, owner.budget(), owner, self.written);
                self.holds_back |= seat.is_held_back;
                driven
            }
            Some(Place::Begins(_)) => return self.hear(key),
            Some(Place::Closing(_)) => return self.drop_input(key),
            Some(Place::Empty) | None => return,
        };
        match driven {
            Driven::Rests => {}
            Driven::Again => self.go_on_later(key),
            Driven::Waits => self.wait_for(key),
            Driven::Held => self.hold(key),
            Driven::Holds => self.end_at(key, Ended::Served(Served::Memory)),
            Driven::Ended(ended) => self.end_at(key, ended),
        }
    }

    /// Has the request of this connection that waits tried again later.
    fn wait_for(&mut self, key: usize) {
        if !self.is_scheduled(key) && !self.schedule(key) {
            self.stop_waiting(key);
            self.go_on_later(key);
        }
    }

    /// Has the answers of this connection written once changes are.
    fn hold(&mut self, key: usize) {
        let Some(Place::Served(seat)) = self.places.get_mut(key) else {
            return;
        };
        self.mark = self.mark.max(seat.mark());
        let (waits, was_held) = (seat.waits(), seat.is_held);
        seat.is_held = true;
        if !was_held && self.held.push(key).is_err() {
            self.end_at(key, Ended::Served(Served::Memory));
        } else if waits {
            self.wait_for(key);
        }
    }

    /// Drives a connection whose answers waited until changes were written.
    fn drive_held(&mut self, key: usize) {
        if let Some(Place::Served(seat)) = self.places.get_mut(key) {
            seat.is_held = false;
        }
        self.drive(key);
    }

    /// Has changes written for those that wait, and then their answers: all that came in one round
    /// wait for one write.
    fn settle(&mut self) {
        if self.held.is_empty() {
            return;
        }
        let before = self.written;
        self.written = self.setting.owner.settle(self.mark);
        if self.written == before {
            return;
        }
        let none = Vec::new(self.alloc);
        for key in mem::replace(&mut self.held, none) {
            self.drive_held(key);
        }
    }

    /// Tries the request of this connection that waits for the last time.
    fn stop_waiting(&mut self, key: usize) {
        if let Some(Place::Served(seat)) = self.places.get_mut(key) {
            seat.stop_waiting(self.setting.owner);
        }
    }

    /// Drives the connections of which the wait told.
    fn drive_ready(&mut self) {
        for at in 0..self.ready.len() {
            if let Some(ready) = self.ready.get(at) {
                let ready = *ready;
                match self.places.get_mut(ready.key) {
                    Some(Place::Served(seat)) => seat.note(ready),
                    Some(Place::Begins(guest)) => guest.note(),
                    _ => {}
                }
                self.drive(ready.key);
            }
        }
    }

    /// Drives all connections, of which each may have something.
    fn drive_all(&mut self) {
        for key in 0..self.places.capacity() {
            match self.places.get_mut(key) {
                Some(Place::Served(seat)) => seat.note(Ready::all(key)),
                Some(Place::Begins(guest)) => guest.note(),
                _ => {}
            }
            self.drive(key);
        }
    }

    /// Drives those that go on, each once.
    fn drive_again(&mut self) {
        if self.again.is_empty() {
            return;
        }
        let none = Vec::new(self.alloc);
        for key in mem::replace(&mut self.again, none) {
            self.drive(key);
        }
    }

    /// Does what is to be done at this time with the connection of this key.
    fn drive_late(&mut self, now: Instant, time: Instant, key: usize) {
        match self.places.get_mut(key) {
            Some(Place::Served(seat)) if seat.time == Some(time) => {
                let patience = self.setting.loops.rules.patience;
                seat.try_again(now, patience, self.setting.owner);
                self.drive(key);
            }
            Some(Place::Begins(guest)) if guest.time == Some(time) => {
                guest.time = None;
                guest.is_late = true;
                self.meet(key);
            }
            Some(Place::Closing(closing)) if closing.until == time => {
                self.end_at(key, Ended::Served(Served::Ended));
            }
            _ => {}
        }
    }

    /// Drives the connections whose time has come.
    fn drive_due(&mut self) {
        if self.timer.first().is_none() {
            return;
        }
        let Some(now) = self.now() else {
            return;
        };
        for _ in 0..u64::MAX {
            match self.timer.next_due(now) {
                Some((time, key)) => self.drive_late(now, time, key),
                None => return,
            }
        }
    }

    /// Ends the connections of clients that were silent in more looks than these.
    fn end_silent(&mut self, most: u64) {
        for key in 0..self.places.capacity() {
            let is_silent = match self.places.get_mut(key) {
                Some(Place::Served(seat)) => seat.is_silent(most),
                Some(Place::Begins(guest)) => guest.is_silent(most),
                _ => false,
            };
            if is_silent {
                self.end_at(key, Ended::Idle);
            }
        }
    }

    /// Drives the connections that were held back.
    fn drive_held_back(&mut self) {
        if !mem::replace(&mut self.holds_back, false) {
            return;
        }
        for key in 0..self.places.capacity() {
            match self.places.get(key) {
                Some(Place::Served(seat)) if seat.is_held_back => self.drive(key),
                _ => {}
            }
        }
    }

    /// The connection that holds the most, and how many bytes.
    fn largest(&self) -> (usize, u64) {
        let mut largest = (0, 0);
        for key in 0..self.places.capacity() {
            match self.places.get(key) {
                Some(Place::Served(seat)) if seat.held > largest.1 => largest = (key, seat.held),
                _ => {}
            }
        }
        largest
    }

    /// Where all connections hold too much for a second, ends the one that holds the most. Where
    /// they do no more, goes on with those that were held back.
    fn look_at_memory(&mut self) {
        let budget = self.setting.owner.budget();
        if !budget.is_over() {
            self.over_looks = 0;
            self.drive_held_back();
            return;
        }
        self.over_looks = self.over_looks.saturating_add(1);
        let (key, bytes) = self.largest();
        budget.note_most(bytes);
        if self.over_looks > LOOKS_A_SECOND && bytes > SMALL_BYTES && budget.is_largest(bytes) {
            self.end_at(key, Ended::Served(Served::Memory));
        }
    }

    /// Looks for silent clients, and at what all hold, once in a while.
    fn look(&mut self) {
        let Some(now) = self.now() else {
            return;
        };
        let looked = self.looked.unwrap_or(now);
        self.looked = Some(looked);
        if now.duration_since(looked) < Duration::from_millis(LOOK_MILLISECONDS) {
            return;
        }
        self.looked = Some(now);
        if let Some(most) = self.setting.loops.rules.most_looks() {
            self.end_silent(most);
        }
        self.look_at_memory();
    }

    /// Ends the input of all connections.
    fn end_inputs(&mut self) {
        for key in 0..self.places.capacity() {
            match self.places.get_mut(key) {
                Some(Place::Served(seat)) => {
                    seat.note_end(self.setting.owner);
                    self.drive(key);
                }
                Some(Place::Begins(guest)) => {
                    guest.note_end();
                    self.meet(key);
                }
                _ => {}
            }
        }
    }

    /// Takes in a connection.
    fn take_in(&mut self, coming: Coming<P, S>) {
        match coming {
            Coming::New(guest) => {
                if let Some(key) = self.keep(guest.as_raw_fd(), Place::Begins(guest)) {
                    let _ = self.meet_later(key, LATE_MILLISECONDS);
                    self.meet(key);
                }
            }
            Coming::Given(seat) => {
                let mut seat = seat;
                seat.time = None;
                seat.is_held = false;
                if let Some(key) = self.keep(seat.as_raw_fd(), Place::Served(seat)) {
                    self.drive(key);
                }
            }
        }
    }
}

impl<R: Wait + Clock, O: Owner<P, S>, P: Protocol + Drop, S: Stream + AsRawFd + Drop> EventLoop<
    '_,
    R,
    O,
    P,
    S,
> {
    /// Takes in what came from other threads.
    fn take_in_all(&mut self) {
        for _ in 0..u64::MAX {
            match self.setting.arrivals.try_recv(self.setting.rt) {
                Ok(coming) => self.take_in(coming),
                Err(_) => return,
            }
        }
    }

    /// Gives one of the connections that have something to another loop, where this one has not
    /// slept for a while.
    fn give_away(&mut self) {
        if !self.setting.is_first || self.busy_waits < BUSY_WAITS {
            return;
        }
        self.busy_waits = 0;
        let Some(ready) = self.ready.first() else {
            return;
        };
        let key = ready.key;
        let Some(Place::Served(_)) = self.places.get(key) else {
            return;
        };
        match self.places.try_remove(key) {
            Some(Place::Served(seat)) => {
                self.deregister(seat.as_raw_fd());
                if let Some(seat) = self.setting.loops.give(self.setting.rt, seat) {
                    self.take_in(Coming::Given(seat));
                }
            }
            other => drop(other),
        }
    }

    /// Serves connections until none will come any more.
    pub fn run(mut self) {
        for _ in 0..u64::MAX {
            if self.wait().is_err() {
                self.drive_all();
            }
            if mem::replace(&mut self.is_woken, false) {
                self.take_in_all();
                if self.setting.owner.wants_end() {
                    self.end_inputs();
                }
            }
            if self.places.is_empty() && self.setting.loops.is_over() {
                return;
            }
            self.give_away();
            self.drive_ready();
            self.drive_again();
            self.drive_due();
            self.settle();
            self.look();
        }
    }
}
