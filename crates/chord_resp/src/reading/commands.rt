//! The commands of a stream of bytes.
ghost use Rattle.std.specs.Prelude.{◌≡◌, ◌++◌, [], length, OnOk, OnErr};
ghost use Rattle.chord_resp.specs.Machine.{start};
ghost use Rattle.chord_resp.specs.Reading.{TakesNext, is_between, partial_bytes};

use crate::reading::machine::Machine;
use crate::reading::read_error::ReadError;
use crate::reading::taken::take_from;
use crate::reading::words::Words;
use std::alloc::{AllocError, Global};
use std::marker::Model;

/// A stream of commands, in pieces of any length. Contracts see what has come of
/// the next command, and the bytes that were fed and not read yet.
#[derive(Debug, Drop)]
pub struct Commands {
    machine: Machine,
    bytes: Vec<u8>,
    // How many of `bytes` are read.
    start: usize,
}

impl Model for Commands {
    ghost use Rattle.std.specs.Prelude.{◌≤◌, drop, vec_len};
    ghost use Rattle.chord_resp.specs.Reading.{Reader};

    ghost Value = { Reader };

    ghost view = { λ c. record { state = c.machine; bytes = drop c.start c.bytes.items } };

    ghost invariant = { λ c. c.start ≤ vec_len c.bytes };
}

impl Commands {
    pub fn new(alloc: Global) -> Commands
        ensures state { result.state ≡ start }
        ensures bytes { result.bytes ≡ [] }
    {
        Commands {
            machine: Machine::new(alloc),
            bytes: Vec::new(alloc),
            start: 0,
        }
    }

    /// How many bytes were fed and not read.
    pub fn left(&self) -> usize
        ensures { result ≡ length self.now.bytes }
    {
        self.bytes.len() - self.start
    }

    /// How many bytes are kept of a command that has not come whole; `u64::MAX` stands for more.
    pub fn partial(&self) -> u64
        ensures { result ≡ partial_bytes self.now }
    {
        self.machine.kept_behind(self.left() as u64)
    }

    /// Whether the stream may end here: no command has begun.
    pub fn is_between(&self) -> bool
        ensures { result ≡ is_between self.now }
    {
        self.left() == 0 && self.machine.is_at_start()
    }

    /// Adds a piece of the stream.
    pub fn feed(&mut self, piece: &[u8]) -> Result<(), AllocError>
        ensures state { self.new.state ≡ self.old.state }
        ensures ok { OnOk result (self.new.bytes ≡ self.old.bytes ++ piece.now) }
        ensures err { OnErr result (self.new.bytes ≡ self.old.bytes) }
    {
        // A byte moves up at most once for each byte read.
        if self.start > self.bytes.len() - self.start {
            self.bytes.drain(..self.start);
            self.start = 0;
        }
        self.bytes.extend_from_slice(piece)
    }

    /// The next command, if all of it was fed.
    pub fn next(&mut self) -> Result<Option<Words>, ReadError>
        ensures { TakesNext self.old result self.new }
    {
        let taken = take_from(&mut self.machine, &self.bytes[self.start..]);
        self.start += taken.count;
        taken.found
    }
}
