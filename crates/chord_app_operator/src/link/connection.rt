//! One connection of an operator.
ghost use Rattle.std.specs.Prelude.{◌≡◌, ◌⊎◌, ◌↔◌, ◌∷◌, [], ◌<◌, ℕ, List, length, take, true, false, Ok, IfOk, IsTrue, IsFalse, OnErr};
ghost use Rattle.std.specs.Io.KnownBytes.{Appends, Consumes, IsAtEnd, Keeps};
ghost use Rattle.http_server.specs.Connection.{config_of, history};
ghost use Rattle.http_server.specs.History.{IsDone, IsQuiet, Rests, WantsRead, new_history, after_read, after_sent};
ghost use Rattle.chord_app_operator.specs.Told.{ServesBy, Told};

use crate::link::duplex::Duplex;
use crate::link::machine::Machine;
use crate::operator::Operator;
use crate::service::OperatorService;
use http_server::{Config, Connection, Log};
use std::hash::RandomState;
use std::io::{self, Read, Write};

/// The most bytes of a body that is read. The service refuses one of more than 4,096 bytes.
const MOST_BODY: usize = 8_192;

/// A connection of an operator. Its driver reads while it `wants_read`, writes while it
/// `wants_write`, and calls `advance` behind each of both, until it `is_done`. Nothing is flushed.
///
/// What it wrote answers the first of the requests that it read, in their order, and each of these
/// was given to its service once.
#[derive(Drop)]
pub struct OperatorLink<O: Operator, R: Read, W: Write> {
    machine: Machine<O, R, W>,
    ghost told: { ∥ Told (ServesBy O.answers) 8192 R.remaining W.contents machine.first.items
        machine.stream (config_of machine.connection) (history machine.connection)
        machine.service ∥₁ },
}

impl<O: Operator, R: Read, W: Write> OperatorLink<O, R, W> {
    /// A link that has read nothing. The names of headers are told apart by these keys.
    pub fn new(
        keys: RandomState,
        service: OperatorService<O>,
        stream: Duplex<R, W>,
    ) -> OperatorLink<O, R, W>
        ensures first { result.machine.first.items ≡ (stream, service) ∷ [] }
        ensures stream { result.machine.stream ≡ stream }
        ensures service { result.machine.service ≡ service }
        ensures history { history result.machine.connection ≡ new_history }
        ensures lost { result.machine.is_lost ≡ false }
    {
        let config = Config {
            max_body_len: MOST_BODY,
            ..Config::default()
        };
        let none = Log::new();
        let first = none.and(&stream, &service);
        let connection = Connection::new(service.alloc(), keys, config);
        let machine = Machine {
            first,
            connection,
            service,
            stream,
            is_lost: false,
        };
        OperatorLink { machine }
    }

    /// What is true of it at each moment.
    pub fn told(&self)
        ensures { ∥ Told (ServesBy O.answers) 8192 R.remaining W.contents
            self.now.machine.first.items self.now.machine.stream
            (config_of self.now.machine.connection) (history self.now.machine.connection)
            self.now.machine.service ∥₁ }
    {}

    /// Whether it reads more.
    pub fn wants_read(&self) -> bool
        ensures { IsTrue result ↔ ((self.now.machine.is_lost ≡ false)
            × WantsRead (config_of self.now.machine.connection)
            (history self.now.machine.connection)) }
    {
        !self.machine.is_lost && self.machine.connection.wants_read()
    }

    /// Whether answers are to be written.
    pub fn wants_write(&self) -> bool
        ensures { IsTrue result ↔ ((self.now.machine.is_lost ≡ false)
            × (0 < length (history self.now.machine.connection).pending)) }
    {
        !self.machine.is_lost && self.machine.connection.wants_write()
    }

    /// Whether nothing is left to do: let it go.
    pub fn is_done(&self) -> bool
        ensures { IsTrue result ↔ ((self.now.machine.is_lost ≡ true)
            ⊎ IsDone (history self.now.machine.connection)) }
    {
        self.machine.is_lost || self.machine.connection.is_done()
    }

    /// Reads once, if it wants to. No bytes are the end of the input.
    pub fn read_from(&mut self) -> io::Result<usize>
        ensures first { self.new.machine.first ≡ self.old.machine.first }
        ensures service { self.new.machine.service ≡ self.old.machine.service }
        ensures took { self.old.machine.is_lost ≡ false
            → WantsRead (config_of self.old.machine.connection)
            (history self.old.machine.connection)
            → IfOk result (λ n. (more : List ℕ) × (length more ≡ n)
            × Consumes (R.remaining self.old.machine.stream.reader)
            (R.remaining self.new.machine.stream.reader) more
            × (history self.new.machine.connection
            ≡ after_read (history self.old.machine.connection) more)) }
    {
        if !self.wants_read() {
            return Ok(0);
        }
        self.machine.read()
    }

    /// Answers what is whole, until enough is to be written.
    pub fn advance(&mut self)
        ensures first { self.new.machine.first ≡ self.old.machine.first }
        ensures stream { self.new.machine.stream ≡ self.old.machine.stream }
        ensures lost { self.old.machine.is_lost ≡ true → self.new.machine ≡ self.old.machine }
        ensures quiet { IsQuiet (history self.old.machine.connection)
            (history self.new.machine.connection) }
        ensures rests { self.old.machine.is_lost ≡ false
            → Rests (config_of self.new.machine.connection)
            (history self.new.machine.connection) }
    {
        if self.machine.is_lost {
            return;
        }
        self.machine.answer();
    }

    /// Writes once, if there is something to write.
    pub fn write_to(&mut self) -> io::Result<usize>
        ensures first { self.new.machine.first ≡ self.old.machine.first }
        ensures service { self.new.machine.service ≡ self.old.machine.service }
        ensures none { self.old.machine.is_lost ≡ false
            → 0 < length (history self.old.machine.connection).pending
            → result ≡ Ok 0 → self.new.machine.is_lost ≡ true }
        ensures wrote { self.old.machine.is_lost ≡ false
            → IfOk result (λ n. (history self.new.machine.connection
            ≡ after_sent (history self.old.machine.connection) n)
            × Appends (W.contents self.old.machine.stream.writer)
            (W.contents self.new.machine.stream.writer)
            (take n (history self.old.machine.connection).pending)) }
        ensures kept { OnErr result ((history self.new.machine.connection
            ≡ history self.old.machine.connection)
            × Keeps (W.contents self.old.machine.stream.writer)
            (W.contents self.new.machine.stream.writer)) }
    {
        if !self.wants_write() {
            return Ok(0);
        }
        self.machine.write()
    }
}

impl<O: Operator + Drop, R: Read, W: Write> OperatorLink<O, R, W> {
    /// What answered, and the stream. What is left to write is let go.
    pub fn into_parts(self) -> (OperatorService<O>, Duplex<R, W>)
        ensures service { result.0 ≡ self.machine.service }
        ensures stream { result.1 ≡ self.machine.stream }
    {
        let OperatorLink { machine } = self;
        let Machine {
            first: _,
            connection,
            service,
            stream,
            is_lost: _,
        } = machine;
        drop(connection);
        (service, stream)
    }
}
