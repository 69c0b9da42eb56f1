//! Bytes that were fed and not read yet.
ghost use Rattle.std.specs.Prelude.{◌≡◌, ◌≤◌, ◌++◌, [], length, drop, OnOk, OnErr};

use std::alloc::{AllocError, Global};
use std::marker::Model;

/// Bytes that are added at the end and taken off the front. Contracts see those that are left.
#[derive(Debug, Drop)]
pub(crate) struct Window {
    bytes: Vec<u8>,
    /// How many of `bytes` are read.
    start: usize,
}

impl Model for Window {
    ghost use Rattle.std.specs.Prelude.{ℕ, List, ◌≤◌, drop, vec_len};

    ghost Value = { List ℕ };

    ghost view = { λ w. drop w.start w.bytes.items };

    ghost invariant = { λ w. w.start ≤ vec_len w.bytes };
}

impl Window {
    pub fn new(alloc: Global) -> Window
        ensures { result ≡ [] }
    {
        Window {
            bytes: Vec::new(alloc),
            start: 0,
        }
    }

    pub fn as_slice(&self) -> &[u8]
        ensures { result.now ≡ self.now }
    {
        &self.bytes[self.start..]
    }

    /// Adds a piece.
    pub fn feed(&mut self, piece: &[u8]) -> Result<(), AllocError>
        ensures ok { OnOk result (self.new ≡ self.old ++ piece.now) }
        ensures err { OnErr result (self.new ≡ self.old) }
    {
        // A byte moves up at most once for each byte read.
        if self.start > self.bytes.len() - self.start {
            self.bytes.drain(..self.start);
            self.start = 0;
        }
        self.bytes.extend_from_slice(piece)
    }

    /// Takes this many bytes off the front.
    pub fn skip(&mut self, count: usize)
        requires { count ≤ length self.old }
        ensures { self.new ≡ drop count self.old }
    {
        self.start += count;
    }
}
