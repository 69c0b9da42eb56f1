//! How `serve --stay` is stopped.

use crate::doors::{Doors, wake};
use std::io::{self, Read};
use std::net::{Net, SocketAddr};
use std::sync::atomic::{AtomicBool, Ordering};
use std::time::Clock;

/// Tells the server at these addresses to take no more connections.
#[derive(Drop)]
pub struct Stop {
    first: SocketAddr,
    second: Option<SocketAddr>,
    stopped: AtomicBool,
}

impl Stop {
    /// What stops a server at one address.
    pub fn new(address: SocketAddr) -> Stop {
        Stop {
            first: address,
            second: None,
            stopped: AtomicBool::new(false),
        }
    }

    /// What stops a server with these doors.
    pub fn of(doors: Doors<'_>) -> io::Result<Stop> {
        Ok(Stop {
            first: doors.first().listener.local_addr()?,
            second: doors.second_address()?,
            stopped: AtomicBool::new(false),
        })
    }

    pub fn is_stopped(&self) -> bool {
        self.stopped.load(Ordering::SeqCst)
    }

    /// Stops the server, and connects to each door, so that it wakes if it waits for a connection.
    pub fn stop<R: Net + Clock>(&self, rt: &R) {
        self.stopped.store(true, Ordering::SeqCst);
        wake(rt, self.first);
        if let Some(second) = self.second {
            wake(rt, second);
        }
    }

    /// Stops the server once the input ends or can't be read. The bytes of the input are ignored.
    pub fn stop_behind<I: Read, R: Net + Clock>(&self, rt: &R, input: &mut I) {
        let mut buffer = [0u8; 512];
        for _ in 0..u64::MAX {
            match input.read(&mut buffer) {
                Ok(0) => break,
                Ok(_) => {}
                Err(error) if error.kind() == io::ErrorKind::Interrupted => {}
                Err(_) => break,
            }
        }
        self.stop(rt);
    }
}
