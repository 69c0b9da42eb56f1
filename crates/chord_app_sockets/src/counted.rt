//! The stream of a client, whose bytes are counted.

use crate::clients::Clients;
use std::io::{self, Read, Write};
use std::net::TcpStream;

/// Reads and writes a stream, and counts its bytes with those of all clients.
#[derive(Clone, Copy)]
pub struct CountedStream<'s, 'c> {
    stream: &'s TcpStream,
    clients: &'c Clients,
}

impl<'s, 'c> CountedStream<'s, 'c> {
    pub(crate) fn new(stream: &'s TcpStream, clients: &'c Clients) -> CountedStream<'s, 'c> {
        CountedStream { stream, clients }
    }
}

impl Read for CountedStream<'_, '_> {
    fn read(&mut self, buf: &mut [u8]) -> io::Result<usize> {
        let mut stream = self.stream;
        let read = stream.read(buf);
        if let Ok(count) = &read {
            self.clients.note_read(*count);
        }
        read
    }
}

impl Write for CountedStream<'_, '_> {
    fn write(&mut self, buf: &[u8]) -> io::Result<usize> {
        let mut stream = self.stream;
        let written = stream.write(buf);
        if let Ok(count) = &written {
            self.clients.note_written(*count);
        }
        written
    }

    fn flush(&mut self) -> io::Result<()> {
        let mut stream = self.stream;
        stream.flush()
    }
}
