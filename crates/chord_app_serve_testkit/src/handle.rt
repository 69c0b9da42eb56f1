//! The handle of a test.

use std::sync::Wait;
use std::thread::Threads;
use std::time::Clock;

/// A handle that may do all that a server's `Host` may, but for sockets. A function that a test
/// calls with the program's own handle names the types of its sockets itself: the prover does not
/// cover a call there through a trait that fixes them.
pub trait Handle: Threads + Wait + Clock + Copy + Send + Sync + 'static {}

impl<T: Threads + Wait + Clock + Copy + Send + Sync + 'static> Handle for T {}
