//! Counts of a ring.

/// The callers of a ring.
#[derive(Clone, Copy, Debug, PartialEq, Eq)]
pub struct CallerCounts {
    /// How many are open now.
    pub open: u64,
    /// How many may be open at once.
    pub all: u64,
    /// How many wait for an answer of the ring now.
    pub pending: u64,
}
