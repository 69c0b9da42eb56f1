//! What a link reads and writes.
ghost use Rattle.std.specs.Prelude.{ℕ, List, None, Option};
ghost use Rattle.std.specs.Io.{ReadsAtMost, WritesAtMost};
ghost use Rattle.std.specs.Io.KnownBytes.{Keeps, ReadConsumes, WriteAppends};

use std::io::{self, Read, Write};

/// A stream in both directions. A read keeps what was written, and a write what is left to read,
/// which no clause of `Read` and `Write` says.
pub trait Stream {
    /// The bytes that reads will give from here on, where they are known.
    ghost left: { Self → Option (List ℕ) } = { λ _. None };

    /// The bytes that were written, where they are known.
    ghost held: { Self → Option (List ℕ) } = { λ _. None };

    fn read(&mut self, buffer: &mut [u8]) -> io::Result<usize>
        ensures bound { ReadsAtMost result buffer.new }
        ensures bytes { ReadConsumes (left self.old) (left self.new) result buffer.new }
        ensures other { Keeps (held self.old) (held self.new) };

    fn write(&mut self, bytes: &[u8]) -> io::Result<usize>
        ensures bound { WritesAtMost result bytes.now }
        ensures bytes { WriteAppends (held self.old) (held self.new) result bytes.now }
        ensures other { Keeps (left self.old) (left self.new) };
}

/// A reader and a writer as one stream.
#[derive(Drop)]
pub struct Pair<R, W> {
    pub reader: R,
    pub writer: W,
}

impl<R: Read, W: Write> Stream for Pair<R, W> {
    ghost left = { λ p. R.remaining p.reader };

    ghost held = { λ p. W.contents p.writer };

    fn read(&mut self, buffer: &mut [u8]) -> io::Result<usize> {
        self.reader.read(buffer)
    }

    fn write(&mut self, bytes: &[u8]) -> io::Result<usize> {
        self.writer.write(bytes)
    }
}
