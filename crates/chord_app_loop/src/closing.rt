//! Connections that ended, and whose clients may still send.

use std::io::{ErrorKind, Read};
use std::net::{Shutdown, TcpStream};
use std::os::fd::{AsRawFd, RawFd};
use std::sync::Arc;
use std::time::{Duration, Instant};

/// For how many seconds bytes of a client are dropped at most.
const DROP_SECONDS: u64 = 1;

/// How many bytes of a client are dropped at most, but for the last read.
const DROP_BYTES: usize = 1_048_576;

/// A connection of which the server's side is ended. If it were closed while bytes of its client
/// are unread, it would be reset, and answers that the client has not read would be lost. So what
/// comes is dropped, until the client ends its side, a second is over, or 1 MiB came.
#[derive(Drop)]
pub(crate) struct Closing {
    pub number: u64,
    stream: Arc<TcpStream>,
    /// When it is over.
    pub until: Instant,
    /// How many bytes are still dropped.
    left: usize,
}

impl Closing {
    /// Ends the server's side. None if that cannot be.
    pub fn begin(number: u64, stream: &Arc<TcpStream>, now: Instant) -> Option<Closing> {
        let until = now.checked_add(Duration::from_secs(DROP_SECONDS))?;
        stream.shutdown(Shutdown::Write).ok()?;
        Some(Closing {
            number,
            stream: Arc::try_clone(stream).ok()?,
            until,
            left: DROP_BYTES,
        })
    }

    /// Drops what came. Says whether more may come.
    pub fn drop_input(&mut self, buffer: &mut [u8]) -> bool {
        for _ in 0..DROP_BYTES {
            let mut stream = &*self.stream;
            match stream.read(buffer) {
                Ok(count) if count > 0 && count < self.left => self.left -= count,
                Ok(_) => return false,
                Err(error) => return error.kind() == ErrorKind::WouldBlock,
            }
        }
        false
    }
}

impl AsRawFd for Closing {
    fn as_raw_fd(&self) -> RawFd {
        self.stream.as_raw_fd()
    }
}
