//! A connection on an event loop.
ghost use Rattle.std.specs.Prelude.{◌≡◌, ◌≢◌, ◌⊎◌, [], true, false, Some, None};
ghost use Rattle.chord_app_sockets.specs.declared.ended.Ended.{Ended as EndedOf};
ghost use Rattle.chord_serve.specs.declared.link.stage.Stage.TheVariants.{Over};
ghost use Rattle.chord_serve.specs.declared.served.Served.{Served as ServedOf};

use crate::budget::{Budget, SMALL_BYTES};
use crate::rules::Rules;
use chord_app_sockets::Ended;
use chord_serve::{Link, Marks, Protocol, Served, Stream};
use mio::event::Event;
use std::io::ErrorKind;
use std::net::TcpStream;
use std::os::fd::{AsRawFd, RawFd};
use std::sync::Arc;
use std::time::{Duration, Instant};

/// How many rounds of a read, answers and a write a connection has before others have theirs.
const MOST_ROUNDS: u32 = 4;

/// A connection that wrote more bytes than these has no further round before others have theirs.
const MOST_BYTES: usize = 65_536;

/// How many tries of a request follow each other closely.
const CLOSE_TRIES: u32 = 3;

/// How a connection goes on behind its rounds.
#[derive(Clone, Copy, Debug, PartialEq, Eq)]
pub(crate) enum Driven {
    /// Once its stream has something.
    Rests,
    /// Once others had their rounds.
    Again,
    /// Once it is tried again.
    Waits,
    /// Once changes are written up to its mark.
    Held,
    /// It holds too much, and is to be ended.
    Holds,
    /// It ended so.
    Ended(Ended),
}

/// What a wait tells of a stream.
#[derive(Clone, Copy)]
pub(crate) struct Ready {
    pub key: usize,
    pub is_readable: bool,
    pub is_writable: bool,
    /// Whether its client sends no more behind what came.
    pub is_last: bool,
    /// Whether nothing can be written any more.
    pub is_shut: bool,
}

impl Ready {
    /// What a wait may have told of a stream.
    pub fn all(key: usize) -> Ready {
        Ready {
            key,
            is_readable: true,
            is_writable: true,
            is_last: true,
            is_shut: false,
        }
    }

    pub fn of(event: &Event) -> Ready {
        Ready {
            key: event.token().0,
            is_readable: event.is_readable(),
            is_writable: event.is_writable(),
            is_last: event.is_read_closed() || event.is_error(),
            is_shut: event.is_write_closed(),
        }
    }
}

/// A link, and what is known of its stream: a wait tells of changes alone.
#[derive(Drop)]
pub(crate) struct Seat<P: Protocol, S: Stream> {
    pub number: u64,
    /// What is closed at the end.
    pub stream: Arc<TcpStream>,
    link: Link<P, S>,
    may_read: bool,
    may_write: bool,
    is_last: bool,
    is_shut: bool,
    /// How many reads it still has.
    turns: u64,
    /// Since when its next request waits.
    waits_since: Option<Instant>,
    /// When that is tried again.
    pub time: Option<Instant>,
    /// How many looks in a row found its client silent.
    looks: u64,
    /// How many bytes came that are not answered.
    input: u64,
    /// How many bytes it holds, as the budget counts them.
    pub held: u64,
    /// Whether its input ends, so that it is read for its end alone.
    is_ending: bool,
    /// Whether it is not read, since all connections hold too much.
    pub is_held_back: bool,
    /// Whether its loop writes its answers once changes are written.
    pub is_held: bool,
}

impl<P: Protocol, S: Stream> Seat<P, S> {
    pub fn new(number: u64, stream: Arc<TcpStream>, link: Link<P, S>, turns: u64) -> Seat<P, S> {
        Seat {
            number,
            stream,
            link,
            may_read: true,
            may_write: true,
            is_last: false,
            is_shut: false,
            turns,
            waits_since: None,
            time: None,
            looks: 0,
            input: 0,
            held: 0,
            is_ending: false,
            is_held_back: false,
            is_held: false,
        }
    }

    /// Notes what a wait told.
    pub fn note(&mut self, ready: Ready) {
        self.may_read |= ready.is_readable;
        self.may_write |= ready.is_writable;
        self.is_last |= ready.is_last;
        self.is_shut |= ready.is_shut;
    }

    /// Tries the request that waits for the last time.
    pub fn stop_waiting<M: Marks>(&mut self, marks: &M) {
        self.link.stop_waiting(marks);
    }

    /// Up to where changes must be written before its answers may be.
    pub fn mark(&self) -> u64 {
        self.link.mark()
    }

    /// Notes that its input ends. The request that waits is tried for the last time.
    pub fn note_end<M: Marks>(&mut self, marks: &M) {
        self.is_ending = true;
        self.may_read = true;
        self.link.stop_waiting(marks);
    }

    /// Notes a look in which nothing came. Says whether its client was silent in more than these.
    pub fn is_silent(&mut self, most: u64) -> bool {
        if self.link.waits() {
            self.looks = 0;
        }
        self.looks = self.looks.saturating_add(1);
        self.looks > most
    }

    /// Reads once, if there may be something. Behind less than the buffer takes there is no more,
    /// but for the end.
    fn read(&mut self, buffer: &mut [u8]) {
        if !self.may_read || self.is_held_back || self.turns == 0 || !self.link.wants_read() {
            return;
        }
        match self.link.read_from(buffer) {
            Ok(count) => {
                self.looks = 0;
                self.turns -= 1;
                self.input = self.input.saturating_add(count as u64);
                self.may_read = self.is_last || count == buffer.len();
            }
            Err(error) => self.may_read = error.kind() == ErrorKind::Interrupted,
        }
    }

    /// Whether there are answers that wait until changes are written.
    fn holds_answers(&self, written: u64) -> bool {
        self.link.wants_write() && !self.link.may_write(written)
    }

    /// Writes once, if there is something to write. Says how many bytes were written.
    fn write(&mut self, written: u64) -> usize {
        if !self.may_write || !self.link.wants_write() || !self.link.may_write(written) {
            return 0;
        }
        match self.link.write_to(written) {
            Ok(count) => {
                self.looks = 0;
                count
            }
            Err(error) => {
                self.may_write = error.kind() != ErrorKind::WouldBlock;
                0
            }
        }
    }

    /// How it ended, if it did: all is written then, or its client takes no more. A request that
    /// waits then is left, and so are answers that wait until changes are written.
    fn ended(&self, written: u64) -> Option<Ended>
        ensures over { (end : EndedOf) → result ≡ Some end → (self.now.is_shut ≡ true)
            ⊎ ((self.now.link.machine.is_lost ≡ true) ⊎ (self.now.link.machine.due ≡ [])) }
        ensures done { result ≡ None → (self.now.link.machine.is_lost ≡ false)
            × ((end : ServedOf) → self.now.link.machine.stage ≡ Over end
            → self.now.link.machine.due ≢ []) }
    {
        if self.is_shut && (self.link.waits() || self.holds_answers(written)) {
            return Some(Ended::Served(Served::Write));
        }
        if self.link.is_done() {
            return Some(Ended::Served(self.link.end().unwrap_or(Served::Write)));
        }
        if self.turns == 0 && self.link.wants_read() && !self.link.wants_write() {
            return Some(Ended::Served(Served::TurnsSpent));
        }
        None
    }

    /// Whether it has more to do at once.
    fn goes_on(&self, written: u64) -> bool {
        self.link.wants_advance()
            || (self.may_read && !self.is_held_back && self.link.wants_read())
            || (self.may_write && self.link.wants_write() && self.link.may_write(written))
    }

    /// Tells the budget what it holds now.
    fn count(&mut self, budget: &Budget)
        ensures { self.new ≡ record self.old { input = self.new.input; held = self.new.held } }
    {
        if !self.link.waits() && !self.link.wants_advance() {
            self.input = self.link.partial();
        }
        let held = self.input.saturating_add(self.link.unwritten());
        budget.note(self.held, held);
        self.held = held;
    }

    /// Reads, answers and writes, for some rounds, within what all connections may hold. Changes are
    /// written up to this mark.
    pub fn drive<M: Marks>(
        &mut self,
        buffer: &mut [u8],
        budget: &Budget,
        marks: &M,
        written: u64,
    ) -> Driven
        // All is written where it ended, or its client takes no more.
        ensures over { (end : EndedOf) → result ≡ Driven.Ended end → (self.new.is_shut ≡ true)
            ⊎ ((self.new.link.machine.is_lost ≡ true) ⊎ (self.new.link.machine.due ≡ [])) }
    {
        self.is_held_back = self.held > SMALL_BYTES && budget.is_over() && !self.is_ending;
        let driven = self.drive_rounds(buffer, marks, written);
        self.count(budget);
        if self.held > SMALL_BYTES && budget.is_far_over() && !matches!(driven, Driven::Ended(_)) {
            return Driven::Holds;
        }
        driven
    }

    /// How it goes on that has no more to do at once.
    fn rests(&self, written: u64) -> Driven
        ensures { (end : EndedOf) → result ≢ Driven.Ended end }
    {
        if self.holds_answers(written) {
            Driven::Held
        } else if self.link.waits() {
            Driven::Waits
        } else {
            Driven::Rests
        }
    }

    /// Reads, answers and writes, for some rounds.
    fn drive_rounds<M: Marks>(&mut self, buffer: &mut [u8], marks: &M, written: u64) -> Driven
        ensures over { (end : EndedOf) → result ≡ Driven.Ended end → (self.new.is_shut ≡ true)
            ⊎ ((self.new.link.machine.is_lost ≡ true) ⊎ (self.new.link.machine.due ≡ [])) }
    {
        let mut sent: usize = 0;
        for _ in 0..MOST_ROUNDS {
            self.read(buffer);
            self.link.advance(marks);
            sent = sent.saturating_add(self.write(written));
            if let Some(ended) = self.ended(written) {
                return Driven::Ended(ended);
            }
            if !self.goes_on(written) {
                return self.rests(written);
            }
            if sent > MOST_BYTES {
                return Driven::Again;
            }
        }
        Driven::Again
    }

    /// When the request that waits is tried again, which is noted. One that waits for the first
    /// time does so since now.
    pub fn schedule(&mut self, now: Instant, rules: &Rules) -> Option<Instant> {
        let tries = self.link.tries();
        if tries <= 1 {
            self.waits_since = Some(now);
        }
        self.time = now.checked_add(rules.pause(tries));
        self.time
    }

    /// Whether the tries of the request that waits follow each other closely.
    pub fn is_tried_closely(&self) -> bool {
        self.link.tries() <= CLOSE_TRIES
    }

    /// Tries the request that waits once more, for the last time if its time is over.
    pub fn try_again<M: Marks>(&mut self, now: Instant, patience: Duration, marks: &M) {
        self.time = None;
        match self.waits_since {
            Some(since) if now.duration_since(since) < patience => self.link.try_again(marks),
            _ => self.link.stop_waiting(marks),
        }
    }

    /// Whether its next request waits for its answer.
    pub fn waits(&self) -> bool {
        self.link.waits()
    }
}

impl<P: Protocol, S: Stream + AsRawFd> AsRawFd for Seat<P, S> {
    fn as_raw_fd(&self) -> RawFd {
        self.link.descriptor()
    }
}

impl<P: Protocol, S: Stream + Drop> Seat<P, S> {
    /// Its number, its stream, and what spoke.
    pub fn into_parts(self) -> (u64, Arc<TcpStream>, P) {
        let Seat {
            number,
            stream,
            link,
            may_read: _,
            may_write: _,
            is_last: _,
            is_shut: _,
            turns: _,
            waits_since: _,
            time: _,
            looks: _,
            input: _,
            held: _,
            is_ending: _,
            is_held_back: _,
            is_held: _,
        } = self;
        (number, stream, link.into_protocol())
    }
}
