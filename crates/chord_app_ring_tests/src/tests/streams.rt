//! A stream that is made up: what the server answers on it, and what it was sent.

use std::alloc::Global;
use std::io::{self, Read, Write};

/// A stream whose other end has this answer.
#[derive(Drop)]
pub struct MadeStream<'a> {
    answer: &'a [u8],
    /// The most bytes of one read.
    step: usize,
    /// Whether a write fails.
    is_deaf: bool,
    /// Whether a read fails behind the answer, where it would be at its end.
    breaks: bool,
    pub sent: Vec<u8>,
}

impl<'a> MadeStream<'a> {
    /// One that gives at most `step` bytes at once.
    pub fn new(alloc: Global, answer: &'a [u8], step: usize) -> MadeStream<'a> {
        MadeStream {
            answer,
            step,
            is_deaf: false,
            breaks: false,
            sent: Vec::new(alloc),
        }
    }

    /// One to which nothing can be written.
    pub fn deaf(alloc: Global) -> MadeStream<'a> {
        MadeStream {
            is_deaf: true,
            ..MadeStream::new(alloc, b"", 1)
        }
    }

    /// One that breaks behind its answer.
    pub fn breaking(alloc: Global, answer: &'a [u8]) -> MadeStream<'a> {
        MadeStream {
            breaks: true,
            ..MadeStream::new(alloc, answer, 7)
        }
    }
}

impl Read for MadeStream<'_> {
    fn read(&mut self, buf: &mut [u8]) -> io::Result<usize> {
        if self.answer.is_empty() && self.breaks {
            return Err(io::Error::from(io::ErrorKind::ConnectionReset));
        }
        let most = self.step.min(buf.len());
        self.answer.read(&mut buf[..most])
    }
}

impl Write for MadeStream<'_> {
    fn write(&mut self, buf: &[u8]) -> io::Result<usize> {
        if self.is_deaf {
            return Err(io::Error::from(io::ErrorKind::BrokenPipe));
        }
        self.sent.write(buf)
    }

    fn flush(&mut self) -> io::Result<()> {
        Ok(())
    }
}
