//! The handle of a server.

use std::net::{Net, TcpListener, TcpStream};
use std::sync::Wait;
use std::thread::Threads;
use std::time::Clock;

/// A handle that may do all that a server does: start threads, wait, sleep, and open connections.
/// Each thread can have a copy.
pub trait Host: Threads
    + Wait
    + Clock
    + Net<Listener = TcpListener, Stream = TcpStream>
    + Copy
    + Send
    + Sync
    + 'static {}

impl<
    T: Threads
        + Wait
        + Clock
        + Net<Listener = TcpListener, Stream = TcpStream>
        + Copy
        + Send
        + Sync
        + 'static,
> Host for T {}
