//! A reader and writer that moves some bytes, and then fails.
use std::io::{self, Read, Write};

/// Lets a number of bytes through, and fails from then on.
#[derive(Drop)]
pub struct Cut<T> {
    pub inner: T,
    left: usize,
}

impl<T> Cut<T> {
    pub fn new(inner: T, left: usize) -> Cut<T> {
        Cut { inner, left }
    }

    fn most(&self, len: usize) -> io::Result<usize> {
        if self.left == 0 {
            return Err(io::Error::from(io::ErrorKind::ConnectionReset));
        }
        Ok(len.min(self.left))
    }
}

impl<T: Read> Read for Cut<T> {
    fn read(&mut self, buf: &mut [u8]) -> io::Result<usize> {
        let len = self.most(buf.len())?.min(buf.len());
        let count = self.inner.read(&mut buf[..len])?;
        self.left = self.left.saturating_sub(count);
        Ok(count)
    }
}

impl<T: Write> Write for Cut<T> {
    fn write(&mut self, buf: &[u8]) -> io::Result<usize> {
        let len = self.most(buf.len())?.min(buf.len());
        let count = self.inner.write(&buf[..len])?;
        self.left = self.left.saturating_sub(count);
        Ok(count)
    }

    fn flush(&mut self) -> io::Result<()> {
        Ok(())
    }
}
