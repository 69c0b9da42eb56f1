//! The stream of an operator.

use chord_app_operator::Duplex;
use chord_app_sockets::Stop;
use std::alloc::AllocError;
use std::io::{self, Read, Write};
use std::net::TcpStream;
use std::sync::Arc;

/// A stream that does not block. Its input is at its end once the server is stopped.
#[derive(Drop)]
pub(crate) struct OperatorStream<'d> {
    stream: Arc<TcpStream>,
    stop: &'d Stop,
}

impl<'d> OperatorStream<'d> {
    fn new(stream: &Arc<TcpStream>, stop: &'d Stop) -> Result<OperatorStream<'d>, AllocError> {
        Ok(OperatorStream {
            stream: Arc::try_clone(stream)?,
            stop,
        })
    }

    /// Both directions of a stream.
    pub fn both(
        stream: &Arc<TcpStream>,
        stop: &'d Stop,
    ) -> Result<Duplex<OperatorStream<'d>, OperatorStream<'d>>, AllocError> {
        Ok(Duplex {
            reader: OperatorStream::new(stream, stop)?,
            writer: OperatorStream::new(stream, stop)?,
        })
    }
}

impl Read for OperatorStream<'_> {
    fn read(&mut self, buffer: &mut [u8]) -> io::Result<usize> {
        if self.stop.is_stopped() {
            return Ok(0);
        }
        let mut stream = &*self.stream;
        stream.read(buffer)
    }
}

impl Write for OperatorStream<'_> {
    fn write(&mut self, bytes: &[u8]) -> io::Result<usize> {
        let mut stream = &*self.stream;
        stream.write(bytes)
    }

    fn flush(&mut self) -> io::Result<()> {
        let mut stream = &*self.stream;
        stream.flush()
    }
}
