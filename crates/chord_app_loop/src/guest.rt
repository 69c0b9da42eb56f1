//! A connection that begins.

use chord_serve::{Served, Stream};
use std::alloc::Global;
use std::io::ErrorKind;
use std::net::TcpStream;
use std::os::fd::{AsRawFd, RawFd};
use std::sync::Arc;
use std::time::Instant;

/// How many milliseconds a guest is silent until it is met again.
pub(crate) const LATE_MILLISECONDS: u64 = 1_000;

/// A connection of which it is not known yet what it becomes.
#[derive(Drop)]
pub struct Guest<S: Stream> {
    pub number: u64,
    /// Its stream, which does not block.
    pub stream: Arc<TcpStream>,
    /// The bytes that came.
    pub heard: Vec<u8>,
    /// Whether no more come.
    pub is_ended: bool,
    /// Whether it was there for a second.
    pub is_late: bool,
    /// What it is read from.
    socket: S,
    may_read: bool,
    /// When it is met again.
    pub(crate) time: Option<Instant>,
    /// How many looks in a row found its client silent.
    looks: u64,
}

impl<S: Stream> Guest<S> {
    /// A connection that was accepted. Its socket reads its stream.
    pub fn new(alloc: Global, number: u64, stream: Arc<TcpStream>, socket: S) -> Guest<S> {
        Guest {
            number,
            stream,
            heard: Vec::new(alloc),
            is_ended: false,
            is_late: false,
            socket,
            may_read: true,
            time: None,
            looks: 0,
        }
    }

    /// Notes that there may be something to read.
    pub(crate) fn note(&mut self) {
        self.may_read = true;
    }

    /// Notes that no more comes.
    pub(crate) fn note_end(&mut self) {
        self.is_ended = true;
    }

    /// Notes a look in which nothing came. Says whether its client was silent in more than these.
    pub(crate) fn is_silent(&mut self, most: u64) -> bool {
        self.looks = self.looks.saturating_add(1);
        self.looks > most
    }

    /// Reads once. Says whether something came, or the input ended.
    pub(crate) fn read(&mut self, buffer: &mut [u8]) -> Result<bool, Served> {
        if !self.may_read || self.is_ended {
            return Ok(false);
        }
        match self.socket.read(buffer) {
            Ok(count) => {
                self.looks = 0;
                self.is_ended = count == 0;
                match self.heard.extend_from_slice(&buffer[..count]) {
                    Ok(()) => Ok(true),
                    Err(_) => Err(Served::Memory),
                }
            }
            Err(error) => match error.kind() {
                ErrorKind::WouldBlock => {
                    self.may_read = false;
                    Ok(false)
                }
                ErrorKind::Interrupted => Ok(false),
                _ => Err(Served::Read),
            },
        }
    }
}

impl<S: Stream> AsRawFd for Guest<S> {
    fn as_raw_fd(&self) -> RawFd {
        self.stream.as_raw_fd()
    }
}

impl<S: Stream + Drop> Guest<S> {
    /// Its number, and its stream.
    pub(crate) fn into_parts(self) -> (u64, Arc<TcpStream>) {
        let Guest {
            number,
            stream,
            heard,
            is_ended: _,
            is_late: _,
            socket,
            may_read: _,
            time: _,
            looks: _,
        } = self;
        drop(heard);
        drop(socket);
        (number, stream)
    }
}
