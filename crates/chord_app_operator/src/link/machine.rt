//! What a link does, one call at a time.
ghost use Rattle.std.specs.Prelude.{◌≡◌, ◌<◌, ℕ, List, length, take, Ok, true, IfOk, IsFalse, OnErr};
ghost use Rattle.std.specs.Io.KnownBytes.{Appends, Consumes, IsAtEnd, Keeps};
ghost use Rattle.http_server.specs.Connection.{config_of, history};
ghost use Rattle.http_server.specs.Exchange.{Calls};
ghost use Rattle.http_server.specs.History.{IsQuiet, Rests, after_read, after_sent};
ghost use Rattle.chord_app_operator.specs.Told.{ServesBy};

use crate::link::duplex::Duplex;
use crate::operator::Operator;
use crate::service::OperatorService;
use http_server::{Connection, Log};
use std::io::{self, ErrorKind, Read, Write};

#[derive(Drop)]
pub(crate) struct Machine<O, R, W> {
    /// The stream and the service with which it began. Only proofs read them.
    pub(crate) first: Log<Duplex<R, W>, OperatorService<O>>,
    pub(crate) connection: Connection,
    pub(crate) service: OperatorService<O>,
    pub(crate) stream: Duplex<R, W>,
    /// Whether a read or a write failed.
    pub(crate) is_lost: bool,
}

/// Whether the stream only asks to be called again.
fn is_passing(error: &io::Error) -> bool {
    matches!(error.kind(), ErrorKind::WouldBlock | ErrorKind::Interrupted)
}

impl<O, R: Read, W: Write> Machine<O, R, W> {
    /// Reads once.
    pub(crate) fn read(&mut self) -> io::Result<usize>
        ensures same { self.new ≡ record self.old {
          connection = self.new.connection;
          stream = self.new.stream;
          is_lost = self.new.is_lost;
        } }
        ensures writer { self.new.stream.writer ≡ self.old.stream.writer }
        ensures config { config_of self.new.connection ≡ config_of self.old.connection }
        ensures ok { IfOk result (λ n. (more : List ℕ) × (length more ≡ n)
            × Consumes (R.remaining self.old.stream.reader)
            (R.remaining self.new.stream.reader) more
            × (history self.new.connection ≡ after_read (history self.old.connection) more)) }
        ensures end { result ≡ Ok 0 → IsFalse (history self.old.connection).ended
            → IsAtEnd (R.remaining self.new.stream.reader) }
        ensures err { OnErr result ((history self.new.connection ≡ history self.old.connection)
            × Keeps (R.remaining self.old.stream.reader) (R.remaining self.new.stream.reader)) }
    {
        let read = self.connection.read_from(&mut self.stream.reader);
        if let Err(error) = &read {
            self.is_lost = !is_passing(error);
        }
        read
    }

    /// Writes once. A write of no byte fails.
    pub(crate) fn write(&mut self) -> io::Result<usize>
        ensures same { self.new ≡ record self.old {
          connection = self.new.connection;
          stream = self.new.stream;
          is_lost = self.new.is_lost;
        } }
        ensures reader { self.new.stream.reader ≡ self.old.stream.reader }
        ensures config { config_of self.new.connection ≡ config_of self.old.connection }
        ensures none { result ≡ Ok 0 → self.new.is_lost ≡ true }
        ensures ok { IfOk result (λ n. (history self.new.connection
            ≡ after_sent (history self.old.connection) n)
            × Appends (W.contents self.old.stream.writer) (W.contents self.new.stream.writer)
            (take n (history self.old.connection).pending)) }
        ensures err { OnErr result ((history self.new.connection ≡ history self.old.connection)
            × Keeps (W.contents self.old.stream.writer) (W.contents self.new.stream.writer)) }
    {
        let written = self.connection.write_to(&mut self.stream.writer);
        self.is_lost = match &written {
            Ok(count) => *count == 0,
            Err(error) => !is_passing(error),
        };
        written
    }
}

impl<O: Operator, R, W> Machine<O, R, W> {
    /// Has the service answer what came.
    pub(crate) fn answer(&mut self)
        ensures same { self.new ≡ record self.old {
          connection = self.new.connection;
          service = self.new.service;
        } }
        ensures config { config_of self.new.connection ≡ config_of self.old.connection }
        ensures calls { Calls (ServesBy O.answers) self.old.service self.new.service
            (history self.old.connection).calls (history self.new.connection).calls }
        ensures rests { Rests (config_of self.new.connection) (history self.new.connection) }
        ensures quiet { IsQuiet (history self.old.connection) (history self.new.connection) }
    {
        self.connection.advance(&mut self.service);
    }
}
