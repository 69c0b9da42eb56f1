//! How much memory the connections of a server take.
ghost use Rattle.std.specs.Prelude.{◌≡◌};

use std::sync::atomic::{AtomicU64, Ordering};

/// A connection that holds at most this many bytes is read whatever the others hold.
pub(crate) const SMALL_BYTES: u64 = 65_536;

/// How many bytes all connections of a server hold: of requests that are not answered, and of
/// answers that are not written. Above the limit, one that holds more than 65,536 is not read;
/// where that lasts for a second, the one that holds the most ends. Above twice the limit, each
/// ends that holds more than 65,536 behind its turn.
#[derive(Drop)]
pub struct Budget {
    limit: u64,
    held: AtomicU64,
    /// The most that one connection held, of those that looks found since one was ended.
    largest: AtomicU64,
}

impl Budget {
    /// Nothing is held yet.
    pub fn new(limit: u64) -> Budget
        ensures { result.limit ≡ limit }
    {
        Budget {
            limit,
            held: AtomicU64::new(0),
            largest: AtomicU64::new(0),
        }
    }

    /// How many bytes are held.
    pub fn held(&self) -> u64 {
        self.held.load(Ordering::Relaxed)
    }

    /// Notes what a connection holds now, which held `before`.
    pub(crate) fn note(&self, before: u64, now: u64) {
        if now > before {
            self.held.fetch_add(now - before, Ordering::Relaxed);
        } else if now < before {
            self.held.fetch_sub(before - now, Ordering::Relaxed);
        }
    }

    /// Whether more is held than the limit.
    pub(crate) fn is_over(&self) -> bool {
        self.held() > self.limit
    }

    /// Whether more is held than twice the limit.
    pub(crate) fn is_far_over(&self) -> bool {
        self.held() > self.limit.saturating_mul(2)
    }

    /// Notes the most that one connection of an event loop holds.
    pub(crate) fn note_most(&self, bytes: u64) {
        self.largest.fetch_max(bytes, Ordering::Relaxed);
    }

    /// Whether no connection of another event loop was found that holds more. If so, the next one
    /// to end is looked for anew.
    pub(crate) fn is_largest(&self, bytes: u64) -> bool {
        if bytes < self.largest.load(Ordering::Relaxed) {
            return false;
        }
        self.largest.store(0, Ordering::Relaxed);
        true
    }
}
