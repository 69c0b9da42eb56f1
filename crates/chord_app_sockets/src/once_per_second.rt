//! What is done at most once a second.

use std::sync::atomic::{AtomicU64, Ordering};

/// Lets one through a second.
#[derive(Drop)]
pub struct OncePerSecond {
    /// From when on the next one passes.
    next_ms: AtomicU64,
}

impl OncePerSecond {
    pub fn new() -> OncePerSecond {
        OncePerSecond {
            next_ms: AtomicU64::new(0),
        }
    }

    /// Whether one passes at this time, in milliseconds from any beginning on.
    pub fn passes(&self, now_ms: u64) -> bool {
        let next = self.next_ms.load(Ordering::SeqCst);
        let then = now_ms.saturating_add(1_000);
        next <= now_ms
            && self
                .next_ms
                .compare_exchange(next, then, Ordering::SeqCst, Ordering::SeqCst)
                .is_ok()
    }
}
