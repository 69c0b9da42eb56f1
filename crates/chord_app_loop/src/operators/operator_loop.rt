//! The event loop of operators.

use crate::operators::gate::{OperatorGate, Reception};
use crate::operators::place::{Going, Place};
use crate::operators::visitor::Visitor;
use chord_app_operator::Operator;
use mio::unix::SourceFd;
use mio::{Events, Interest, Poll, Token};
use slab::Slab;
use std::alloc::Global;
use std::io::{self, ErrorKind};
use std::mem;
use std::net::{Net, TcpStream};
use std::os::fd::{AsRawFd, RawFd};
use std::time::{Clock, Duration, Instant};

/// Of how many streams one wait tells at most.
const EVENTS: usize = 256;

/// The token of the door. No connection has it.
const DOOR: Token = Token(usize::MAX);

/// How many bytes of a client that is being closed one read drops.
const DROPPED_BYTES: usize = 4_096;

/// How many milliseconds lie between two looks at all connections.
const LOOK_MILLISECONDS: u64 = 250;

/// For how many milliseconds the door rests where a connection could not be accepted.
const REST_MILLISECONDS: u64 = 10;

/// How many seconds connections have to end once the server is stopped.
const END_SECONDS: u64 = 1;

/// Serves operators, until the server is stopped. It sleeps while there is no connection.
#[derive(Drop)]
pub struct OperatorLoop<'d, R, H, O: Operator> {
    rt: &'d R,
    alloc: Global,
    gate: OperatorGate<'d>,
    reception: &'d H,
    poll: Poll,
    events: Events,
    places: Slab<Place<'d, O>>,
    buffer: Vec<u8>,
    /// Whether a client may wait at the door.
    may_accept: bool,
    /// Whether connections have more to do at once.
    goes_on: bool,
    /// What time it was behind the last wait.
    now: Instant,
    /// When it ends, once the server is stopped.
    until: Option<Instant>,
}

impl<'d, R: Net + Clock, H, O: Operator> OperatorLoop<'d, R, H, O> {
    /// Fails without memory, a descriptor or a clock for it.
    pub fn open(
        rt: &'d R,
        alloc: Global,
        gate: OperatorGate<'d>,
        reception: &'d H,
    ) -> io::Result<OperatorLoop<'d, R, H, O>> {
        let mut buffer = Vec::new(alloc);
        buffer.resize(DROPPED_BYTES, 0)?;
        let poll = Poll::new(rt)?;
        let events = Events::with_capacity(alloc, EVENTS)?;
        let now = Instant::now(rt)?;
        gate.listener.set_nonblocking(true)?;
        let descriptor = gate.listener.as_raw_fd();
        poll.registry()
            .register(&mut SourceFd(&descriptor), DOOR, Interest::READABLE)?;
        Ok(OperatorLoop {
            rt,
            alloc,
            gate,
            reception,
            poll,
            events,
            places: Slab::new(alloc),
            buffer,
            may_accept: true,
            goes_on: false,
            now,
            until: None,
        })
    }
}

impl<R: Net + Clock, H: Reception<O>, O: Operator + Drop> OperatorLoop<'_, R, H, O> {
    /// How long the next wait takes at most: for ever where nothing is to be done.
    fn time(&self) -> Option<Duration> {
        if self.goes_on {
            Some(Duration::ZERO)
        } else if self.may_accept {
            Some(Duration::from_millis(REST_MILLISECONDS))
        } else if self.places.is_empty() {
            None
        } else {
            Some(Duration::from_millis(LOOK_MILLISECONDS))
        }
    }

    /// Waits until the door or a connection has something, and notes which.
    fn wait(&mut self) {
        let time = self.time();
        let _ = self.poll.poll(&mut self.events, time).is_ok();
        for event in self.events.iter() {
            if event.token() == DOOR {
                self.may_accept = true;
            } else if let Some(place) = self.places.get_mut(event.token().0) {
                place.note();
            }
        }
        if let Ok(now) = Instant::now(self.rt) {
            self.now = now;
        }
    }

    /// Has waits tell of a connection by its key.
    fn register(&self, key: usize, descriptor: RawFd) -> bool {
        let both = Interest::READABLE | Interest::WRITABLE;
        let registry = self.poll.registry();
        registry
            .register(&mut SourceFd(&descriptor), Token(key), both)
            .is_ok()
    }

    /// Lets a connection go, which closes it.
    fn remove(&mut self, key: usize) {
        drop(self.places.try_remove(key));
    }

    /// The connection whose client is silent for the longest time.
    fn most_silent(&self) -> Option<usize> {
        let keys = 0..self.places.capacity();
        keys.filter(|key| self.places.get(*key).is_some())
            .min_by_key(|key| self.places.get(*key).map(|place| place.silent_since()))
    }

    /// Takes a connection in. Where there are as many as there may be, one goes for it.
    fn admit(&mut self, stream: TcpStream) {
        if self.places.len() >= self.gate.limits.connections
            && let Some(key) = self.most_silent()
        {
            self.remove(key);
        }
        let Some(service) = self.reception.receive() else {
            return;
        };
        let Ok(visitor) = Visitor::new(self.alloc, self.gate, stream, service, self.now) else {
            return;
        };
        let descriptor = visitor.as_raw_fd();
        match self.places.insert(Place::Served(visitor)) {
            Ok(key) => {
                if !self.register(key, descriptor) {
                    self.remove(key);
                }
            }
            Err(refused) => drop(refused.value),
        }
    }

    /// Takes in who waits at the door, as many as there may be at once.
    fn accept(&mut self) {
        for _ in 0..self.gate.limits.connections {
            if !self.may_accept {
                return;
            }
            match self.gate.listener.accept() {
                Ok((stream, _)) => self.admit(stream),
                Err(error) => {
                    self.may_accept = error.kind() != ErrorKind::WouldBlock;
                    return;
                }
            }
        }
    }

    /// Ends a connection: slowly where it was answered, for its client may still send.
    fn end(&mut self, key: usize) {
        let closing = match self.places.get(key) {
            Some(Place::Served(visitor)) => visitor.begin_to_close(key, self.now),
            _ => None,
        };
        match (closing, self.places.get_mut(key)) {
            (Some(closing), Some(place)) => {
                let may_read = true;
                drop(mem::replace(place, Place::Closing { closing, may_read }));
                self.goes_on = true;
            }
            (closing, _) => {
                drop(closing);
                self.remove(key);
            }
        }
    }

    /// Has each connection do what there is to do.
    fn drive(&mut self) {
        self.goes_on = false;
        for key in 0..self.places.capacity() {
            let going = match self.places.get_mut(key) {
                Some(place) => place.drive(&mut self.buffer, self.now),
                None => Going::Rests,
            };
            match going {
                Going::Rests => {}
                Going::Again => self.goes_on = true,
                Going::Ended => self.end(key),
            }
        }
    }

    /// Ends the connections whose time is over.
    fn end_silent(&mut self) {
        for key in 0..self.places.capacity() {
            let seconds = self.gate.limits.seconds;
            if let Some(place) = self.places.get(key)
                && place.is_over(seconds, self.now)
            {
                self.end(key);
            }
        }
    }

    /// Once the server is stopped, ends all inputs. Says whether that is done, or its time is over.
    fn is_over(&mut self) -> bool {
        if !self.gate.stop.is_stopped() {
            return false;
        }
        if self.until.is_none() {
            self.until = self.now.checked_add(Duration::from_secs(END_SECONDS));
            for key in 0..self.places.capacity() {
                if let Some(place) = self.places.get_mut(key) {
                    place.note();
                }
            }
        }
        self.places.is_empty() || self.until.is_none_or(|until| until <= self.now)
    }

    /// Serves operators, until the server is stopped. What came is answered before one more client
    /// is taken in.
    pub fn run(mut self) {
        for _ in 0..u64::MAX {
            self.wait();
            if self.is_over() {
                return;
            }
            self.drive();
            if self.until.is_none() {
                self.accept();
            }
            self.end_silent();
        }
    }
}
