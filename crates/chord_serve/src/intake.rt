//! What one read after another takes in.
ghost use Rattle.std.specs.Prelude.{◌≡◌, ◌≤◌, [], length, OnOk, OnErr, IfOk};
ghost use Rattle.std.specs.Io.KnownBytes.{Consumes, IsAtEnd, Keeps};
ghost use Rattle.chord_serve.specs.BytesRead.{most_bytes};

use crate::read_size::ReadSize;
use std::alloc::{AllocError, Global};
use std::io::{self, Read};
use std::marker::Model;

/// How many bytes the first read takes at most.
const FIRST_BYTES: usize = 4_096;

/// A buffer for the reads of a connection. It begins small, so that a connection which sends little
/// takes little memory, and doubles after each read that filled it, up to its size. Contracts see
/// the size, and the bytes that the last read took.
#[derive(Debug, Drop)]
pub struct Intake {
    buffer: Vec<u8>,
    /// How many bytes the last read took.
    count: usize,
    size: ReadSize,
}

impl Model for Intake {
    ghost use Rattle.std.specs.Prelude.{◌≤◌, ◌<◌, take, vec_len};
    ghost use Rattle.chord_serve.specs.BytesRead.{Taken, most_bytes};

    ghost Value = { Taken };

    ghost view = { λ a. record { size = a.size; bytes = take a.count a.buffer.items } };

    ghost invariant = { λ a. (a.count ≤ vec_len a.buffer) × (0 < vec_len a.buffer) × (vec_len a.buffer ≤ most_bytes a.size) };
}

impl Intake {
    /// A buffer that has taken nothing in.
    pub fn new(alloc: Global, size: ReadSize) -> Result<Intake, AllocError>
        ensures { IfOk result (λ intake. intake ≡ record { size = size; bytes = [] }) }
    {
        Ok(Intake {
            buffer: vec![in alloc; 0; FIRST_BYTES]?,
            count: 0,
            size,
        })
    }

    /// The bytes that the last read took.
    pub fn bytes(&self) -> &[u8]
        ensures { result.now ≡ self.now.bytes }
    {
        &self.buffer[..self.count]
    }

    // Doubles the buffer, up to its size. It stays as it is if memory is out.
    fn widen(&mut self)
        ensures { self.new ≡ self.old }
    {
        let wider = self.size.most_bytes().min(2 * self.buffer.len());
        let _ = self.buffer.resize(wider, 0).is_ok();
    }

    /// Reads once.
    pub fn read_from<R: Read>(&mut self, reader: &mut R) -> io::Result<()>
        ensures size { self.new.size ≡ self.old.size }
        ensures most { length self.new.bytes ≤ most_bytes self.old.size }
        ensures ok { OnOk result (Consumes (R.remaining reader.old) (R.remaining reader.new) self.new.bytes) }
        ensures end { OnOk result (self.new.bytes ≡ [] → IsAtEnd (R.remaining reader.new)) }
        ensures err { OnErr result (Keeps (R.remaining reader.old) (R.remaining reader.new)) }
    {
        if self.count == self.buffer.len() {
            self.widen();
        }
        self.count = reader.read(&mut self.buffer)?;
        Ok(())
    }
}
