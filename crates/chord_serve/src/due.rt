//! The output that is due.
ghost use Rattle.std.specs.Prelude.{◌≡◌, ◌≤◌, [], length, nat_lt, vec_capacity};
ghost use Rattle.chord_serve.specs.Writes.{Joins, Writes};

use crate::write_bytes::write_bytes;
use std::alloc::{AllocError, Global};
use std::io::{self, Write};
use std::marker::Model;

/// Output of more bytes than these is written before more is added.
const DUE_LIMIT: usize = 65_536;

/// A buffer with room for more bytes than these is freed once it is written.
const KEPT_BYTES: usize = 131_072;

/// Takes all bytes off, and frees a buffer with room for more than this many.
pub(crate) fn clear(bytes: &mut Vec<u8>, alloc: Global, most: usize)
    ensures none { bytes.new.items ≡ [] }
    ensures room { vec_capacity bytes.new ≤ most }
{
    if bytes.capacity() > most {
        *bytes = Vec::new(alloc);
    } else {
        bytes.clear();
    }
}

/// The answers that are to be written together. The buffer serves for the next ones too.
#[derive(Debug, Drop)]
pub struct Due {
    pub bytes: Vec<u8>,
}

impl Model for Due {
    ghost use Rattle.std.specs.Prelude.{ℕ, List};

    ghost Value = { List ℕ };

    ghost view = { λ d. d.bytes.items };
}

impl Due {
    /// No output.
    pub fn new(alloc: Global) -> Due
        ensures { result ≡ [] }
    {
        Due {
            bytes: Vec::new(alloc),
        }
    }

    /// Begins anew.
    pub fn clear(&mut self, alloc: Global)
        ensures { self.new ≡ [] }
    {
        clear(&mut self.bytes, alloc, KEPT_BYTES);
    }

    /// Adds an answer.
    pub fn add(&mut self, frame: &[u8]) -> Result<(), AllocError>
        ensures { Joins result self.old self.new frame.now }
    {
        self.bytes.extend_from_slice(frame)?;
        Ok(())
    }

    /// Whether the output must be written before more is added.
    pub fn is_full(&self) -> bool
        ensures { result ≡ nat_lt DUE_LIMIT (length self.now) }
    {
        DUE_LIMIT < self.bytes.len()
    }

    /// Writes all of it.
    pub fn write_to<W: Write>(&self, writer: &mut W) -> io::Result<()>
        ensures { Writes result (W.contents writer.old) (W.contents writer.new) self.now }
    {
        write_bytes(writer, &self.bytes)
    }
}
