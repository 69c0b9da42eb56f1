//! Open connections.

use crate::counted::CountedStream;
use std::alloc::{AllocError, Global};
use std::net::{Shutdown, TcpStream};
use std::sync::atomic::{AtomicBool, AtomicU64, Ordering};
use std::sync::{Arc, Condvar, CondvarTimeouts, Mutex, Wait};
use std::time::{Clock, Duration};

/// How many seconds connections have to end that are told to.
const END_SECONDS: u64 = 1;

/// The streams of the connections that are open, each with its number.
#[derive(Drop)]
pub struct Clients {
    open: Mutex<Vec<(u64, Arc<TcpStream>)>>,
    /// Is notified when a connection is removed.
    removed: Condvar,
    told_to_end: AtomicBool,
    /// How many bytes came from all clients so far.
    bytes_read: AtomicU64,
    /// How many went to them.
    bytes_written: AtomicU64,
}

impl Clients {
    pub fn new(alloc: Global) -> Clients {
        Clients {
            open: Mutex::new(Vec::new(alloc)),
            removed: Condvar::new(),
            told_to_end: AtomicBool::new(false),
            bytes_read: AtomicU64::new(0),
            bytes_written: AtomicU64::new(0),
        }
    }

    /// Adds a connection.
    pub fn add(
        &self,
        rt: &impl Wait,
        number: u64,
        stream: &Arc<TcpStream>,
    ) -> Result<(), AllocError> {
        let stream = Arc::try_clone(stream)?;
        self.open.lock(rt).push((number, stream))?;
        Ok(())
    }

    /// Removes a connection.
    pub fn forget(&self, rt: &impl Wait, number: u64) {
        self.open.lock(rt).retain(|client| client.0 != number);
        self.removed.notify_all();
    }

    /// Shuts down a connection, so that nothing more is read or written, and its server ends it.
    pub fn end_one(&self, rt: &impl Wait, number: u64) {
        let open = self.open.lock(rt);
        for (_, stream) in open.iter().filter(|client| client.0 == number) {
            let _ = stream.shutdown(Shutdown::Both).is_ok();
        }
    }

    /// How many connections are open.
    pub fn count(&self, rt: &impl Wait) -> u64 {
        self.open.lock(rt).len() as u64
    }

    /// Waits until each connection was removed.
    pub fn wait_for_all(&self, rt: &impl Wait) {
        let open = self.open.lock(rt);
        drop(self.removed.wait_while(rt, open, |open| !open.is_empty()));
    }

    /// A stream whose bytes are counted.
    pub fn counted<'s, 'c>(&'c self, stream: &'s TcpStream) -> CountedStream<'s, 'c> {
        CountedStream::new(stream, self)
    }

    /// Counts bytes that came from a client.
    pub(crate) fn note_read(&self, count: usize) {
        self.bytes_read.fetch_add(count as u64, Ordering::Relaxed);
    }

    /// Counts bytes that went to a client.
    pub(crate) fn note_written(&self, count: usize) {
        self.bytes_written
            .fetch_add(count as u64, Ordering::Relaxed);
    }

    /// How many bytes were read from streams that are counted.
    pub fn bytes_read(&self) -> u64 {
        self.bytes_read.load(Ordering::Relaxed)
    }

    /// How many bytes were written to them.
    pub fn bytes_written(&self) -> u64 {
        self.bytes_written.load(Ordering::Relaxed)
    }

    /// Tells all connections to end.
    pub fn tell_to_end(&self) {
        self.told_to_end.store(true, Ordering::SeqCst);
    }

    /// Whether all connections are to end.
    pub fn are_told_to_end(&self) -> bool {
        self.told_to_end.load(Ordering::SeqCst)
    }

    /// Tells all connections to end, waits until each was removed, for a second at most, and shuts
    /// down those that are left, so that nothing more is read or written.
    pub fn end_all<R: Wait + Clock>(&self, rt: &R) {
        self.tell_to_end();
        let open = self.open.lock(rt);
        let time = Duration::from_secs(END_SECONDS);
        let (open, _) = self
            .removed
            .wait_timeout_while(rt, open, time, |open| !open.is_empty());
        for (_, stream) in open.iter() {
            let _ = stream.shutdown(Shutdown::Both).is_ok();
        }
    }
}
