//! Connections that are cut on purpose.

use crate::load::bounds::Drops;
use rand_core::Rng;
use rand_pcg::Pcg32;
use std::io::{self, ErrorKind, Write};

/// How a connection is cut.
#[derive(Clone, Copy, Debug, PartialEq, Eq)]
pub enum Cut {
    /// Behind a whole request, with answers on their way, which resets it.
    Behind,
    /// Behind this number of bytes of a request's frame.
    Within(usize),
}

/// Says where a connection of a load is cut.
#[derive(Drop)]
pub struct Cutter {
    random: Pcg32,
    every: u64,
}

impl Cutter {
    /// That of the connection of this number, which has random numbers of its own.
    pub fn new(drops: Drops, connection: u64) -> Cutter {
        Cutter {
            random: Pcg32::new(drops.seed, connection),
            every: drops.every,
        }
    }

    /// Whether to cut the connection at this request, and how: one in `every` of them. A request of
    /// version 2 has at least 24 bytes.
    pub fn cut(&mut self) -> Option<Cut> {
        let draw = self.random.next_u64();
        if draw % self.every.max(1) != 0 {
            return None;
        }
        let way = self.random.next_u32();
        if way % 2 == 0 {
            Some(Cut::Behind)
        } else {
            Some(Cut::Within((way / 2 % 23) as usize))
        }
    }
}

/// A writer that fails once it has written this number of bytes.
#[derive(Drop)]
pub struct CutWriter<W> {
    writer: W,
    left: usize,
}

impl<W> CutWriter<W> {
    pub fn new(writer: W, left: usize) -> CutWriter<W> {
        CutWriter { writer, left }
    }
}

impl<W: Write> Write for CutWriter<W> {
    fn write(&mut self, bytes: &[u8]) -> io::Result<usize> {
        if self.left == 0 {
            return Err(io::Error::from(ErrorKind::ConnectionReset));
        }
        let most = bytes.len().min(self.left);
        let count = self.writer.write(&bytes[..most])?;
        self.left = self.left.saturating_sub(count);
        Ok(count)
    }

    fn flush(&mut self) -> io::Result<()> {
        self.writer.flush()
    }
}
