//! A connection of an operator.
ghost use Rattle.std.specs.Prelude.{◌≡◌, ◌⊎◌, true};
ghost use Rattle.http_server.specs.Connection.{history};
ghost use Rattle.http_server.specs.History.{IsDone};

use crate::closing::Closing;
use crate::operators::gate::OperatorGate;
use crate::operators::place::Going;
use crate::operators::stream::OperatorStream;
use chord_app_operator::{Operator, OperatorLink, OperatorService};
use std::alloc::{AllocError, Global};
use std::io::ErrorKind;
use std::net::TcpStream;
use std::os::fd::{AsRawFd, RawFd};
use std::sync::Arc;
use std::time::Instant;

/// A link, and what is known of its stream: a wait tells of changes alone.
#[derive(Drop)]
pub(crate) struct Visitor<'d, O: Operator> {
    /// What is closed at the end.
    stream: Arc<TcpStream>,
    link: OperatorLink<O, OperatorStream<'d>, OperatorStream<'d>>,
    may_read: bool,
    may_write: bool,
    /// When it began, or its client last took bytes of an answer.
    pub since: Instant,
    is_answered: bool,
}

impl<'d, O: Operator + Drop> Visitor<'d, O> {
    /// A connection that begins now, which this service serves.
    pub fn new(
        alloc: Global,
        gate: OperatorGate<'d>,
        stream: TcpStream,
        service: OperatorService<O>,
        now: Instant,
    ) -> Result<Visitor<'d, O>, AllocError> {
        let _ = stream.set_nodelay(true).is_ok();
        let _ = stream.set_nonblocking(true).is_ok();
        let stream = Arc::new(alloc, stream)?;
        let ends = OperatorStream::both(&stream, gate.stop)?;
        Ok(Visitor {
            stream,
            link: OperatorLink::new(gate.keys, service, ends),
            may_read: true,
            may_write: true,
            since: now,
            is_answered: false,
        })
    }
}

impl<O: Operator> Visitor<'_, O> {
    /// Notes that there may be something to do.
    pub fn note(&mut self) {
        self.may_read = true;
        self.may_write = true;
    }

    /// Reads once, if there may be something.
    fn read(&mut self) {
        if !self.may_read || !self.link.wants_read() {
            return;
        }
        if let Err(error) = self.link.read_from() {
            self.may_read = error.kind() == ErrorKind::Interrupted;
        }
    }

    /// Writes once, if there is something to write.
    fn write(&mut self, now: Instant) {
        if !self.may_write || !self.link.wants_write() {
            return;
        }
        match self.link.write_to() {
            Ok(_) => {
                self.since = now;
                self.is_answered = true;
            }
            Err(error) => self.may_write = error.kind() == ErrorKind::Interrupted,
        }
    }

    /// Reads, answers and writes, each once.
    pub fn drive(&mut self, now: Instant) -> Going
        // All is written where it ended, or its stream failed.
        ensures over { result ≡ Going.Ended → (self.new.link.machine.is_lost ≡ true)
            ⊎ IsDone (history self.new.link.machine.connection) }
    {
        self.read();
        self.link.advance();
        self.write(now);
        self.link.advance();
        if self.link.is_done() {
            Going::Ended
        } else if (self.may_read && self.link.wants_read())
            || (self.may_write && self.link.wants_write())
        {
            Going::Again
        } else {
            Going::Rests
        }
    }

    /// Ends the server's side. None if nothing was answered, or that cannot be: it is closed then.
    pub fn begin_to_close(&self, key: usize, now: Instant) -> Option<Closing> {
        if !self.is_answered {
            return None;
        }
        Closing::begin(key as u64, &self.stream, now)
    }
}

impl<O: Operator> AsRawFd for Visitor<'_, O> {
    fn as_raw_fd(&self) -> RawFd {
        self.stream.as_raw_fd()
    }
}
