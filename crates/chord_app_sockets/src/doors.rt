//! Where clients connect.
ghost use Rattle.std.specs.Prelude.{◌≡◌};
ghost use Rattle.chord_app_sockets.specs.Doors.{first_of, second_of};

use std::net::{Net, SocketAddr, TcpListener, TcpStream};
use std::time::{Clock, Duration};
use std::{io, thread};

/// How many times a door is tried to be woken.
const WAKES: u64 = 1_000;

/// What a client speaks.
#[derive(Clone, Copy, Debug, PartialEq, Eq)]
pub enum Protocol {
    /// Frames, with a number for each request.
    Frames,
    /// Redis's protocol, version 2.
    Redis,
}

/// A listener for the clients that speak one protocol.
#[derive(Clone, Copy)]
pub struct Door<'a> {
    pub protocol: Protocol,
    pub listener: &'a TcpListener,
}

/// The listeners of a server: for one protocol, or for both.
#[derive(Clone, Copy)]
pub enum Doors<'a> {
    Frames(&'a TcpListener),
    Redis(&'a TcpListener),
    Both {
        frames: &'a TcpListener,
        redis: &'a TcpListener,
    },
}

impl Door<'_> {
    /// Connects to it, so that a server that waits there for a connection wakes.
    pub fn wake<R: Net + Clock>(self, rt: &R) {
        if let Ok(address) = self.listener.local_addr() {
            wake(rt, address);
        }
    }
}

/// Connects to the address, so that a server that waits there for a connection wakes.
pub(crate) fn wake<R: Net + Clock>(rt: &R, address: SocketAddr) {
    for _ in 0..WAKES {
        if TcpStream::connect(rt, address).is_ok() {
            return;
        }
        thread::sleep(rt, Duration::from_millis(10));
    }
}

impl<'a> Doors<'a> {
    /// The door that there always is.
    pub fn first(self) -> Door<'a>
        ensures { result ≡ first_of self.entry }
    {
        match self {
            Doors::Frames(listener) => Door {
                protocol: Protocol::Frames,
                listener,
            },
            Doors::Redis(listener) => Door {
                protocol: Protocol::Redis,
                listener,
            },
            Doors::Both { frames, .. } => Door {
                protocol: Protocol::Frames,
                listener: frames,
            },
        }
    }

    /// The other door, if there are two.
    pub fn second(self) -> Option<Door<'a>>
        ensures { result ≡ second_of self.entry }
    {
        match self {
            Doors::Frames(_) | Doors::Redis(_) => None,
            Doors::Both { redis, .. } => Some(Door {
                protocol: Protocol::Redis,
                listener: redis,
            }),
        }
    }

    /// The address of the second door, if there are two.
    pub fn second_address(self) -> io::Result<Option<SocketAddr>> {
        match self.second() {
            Some(door) => Ok(Some(door.listener.local_addr()?)),
            None => Ok(None),
        }
    }
}
