//! The stream of a client.

use chord_app_sockets::Clients;
use chord_serve::Stream;
use std::io::{self, Read, Write};
use std::net::TcpStream;
use std::os::fd::{AsRawFd, RawFd};
use std::sync::Arc;

/// A stream that does not block, whose bytes are counted with those of all clients. Its input is at
/// its end once all connections are told to end.
#[derive(Drop)]
pub struct Socket<'c> {
    stream: Arc<TcpStream>,
    clients: &'c Clients,
}

impl<'c> Socket<'c> {
    pub fn new(stream: Arc<TcpStream>, clients: &'c Clients) -> Socket<'c> {
        Socket { stream, clients }
    }
}

impl Stream for Socket<'_> {
    fn read(&mut self, buffer: &mut [u8]) -> io::Result<usize> {
        if self.clients.are_told_to_end() {
            return Ok(0);
        }
        self.clients.counted(&*self.stream).read(buffer)
    }

    fn write(&mut self, bytes: &[u8]) -> io::Result<usize> {
        self.clients.counted(&*self.stream).write(bytes)
    }
}

impl AsRawFd for Socket<'_> {
    fn as_raw_fd(&self) -> RawFd {
        self.stream.as_raw_fd()
    }
}
