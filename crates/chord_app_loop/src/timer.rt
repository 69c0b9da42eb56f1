//! What is to be done at which time.

use std::alloc::Global;
use std::collections::BTreeSet;
use std::time::Instant;

/// The keys of connections, each with a time at which it is driven. A key may have several times,
/// and may be another connection's when its time comes.
#[derive(Drop)]
pub(crate) struct Timer {
    times: BTreeSet<(Instant, usize)>,
}

impl Timer {
    pub fn new(alloc: Global) -> Timer {
        Timer {
            times: BTreeSet::new(alloc),
        }
    }

    /// Adds a time. Says false if there is no memory for it.
    pub fn add(&mut self, time: Instant, key: usize) -> bool {
        self.times.insert((time, key)).is_ok()
    }

    /// The first time, and its key.
    pub fn first(&self) -> Option<(Instant, usize)> {
        self.times.first().copied()
    }

    /// Takes the first time off, if it has come.
    pub fn next_due(&mut self, now: Instant) -> Option<(Instant, usize)> {
        match self.first() {
            Some((time, _)) if time <= now => self.times.pop_first(),
            _ => None,
        }
    }
}
