//! A reader and writer that moves few bytes in a call, and fails after some calls.
use std::io::{self, Read, Write};

/// What a device lets through.
#[derive(Clone, Copy)]
pub struct Limits {
    /// The most bytes of one call.
    pub step: usize,
    /// The calls that do not fail.
    pub calls: u64,
}

/// Limits of a device that no test reaches.
pub const FREE: Limits = Limits {
    step: usize::MAX,
    calls: 100,
};

#[derive(Drop)]
pub struct Limited<T> {
    pub inner: T,
    limits: Limits,
    /// The calls that did not fail.
    pub calls: u64,
}

impl<T> Limited<T> {
    pub fn new(inner: T, limits: Limits) -> Limited<T> {
        Limited {
            inner,
            limits,
            calls: 0,
        }
    }

    fn turn(&mut self, len: usize) -> io::Result<usize> {
        if self.calls >= self.limits.calls {
            return Err(io::Error::from(io::ErrorKind::WouldBlock));
        }
        self.calls += 1;
        Ok(len.min(self.limits.step))
    }
}

impl<T: Read> Read for Limited<T> {
    fn read(&mut self, buf: &mut [u8]) -> io::Result<usize> {
        let len = self.turn(buf.len())?.min(buf.len());
        self.inner.read(&mut buf[..len])
    }
}

impl<T: Write> Write for Limited<T> {
    fn write(&mut self, buf: &[u8]) -> io::Result<usize> {
        let len = self.turn(buf.len())?.min(buf.len());
        self.inner.write(&buf[..len])
    }

    fn flush(&mut self) -> io::Result<()> {
        Ok(())
    }
}
