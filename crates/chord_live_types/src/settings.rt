//! How large a ring is, and how long its callers wait.
ghost use Rattle.std.specs.Prelude.{IsTrue, ◌↔◌};
ghost use Rattle.chord_live_types.specs.Limits.{AreWithin};

/// How large a ring is, and how long its callers wait.
#[derive(Clone, Copy, Debug, PartialEq, Eq)]
pub struct Settings {
    /// How many nodes have room at once, 1 to 4,096: each needs a slot until it is gone.
    pub slots: usize,
    /// How many callers there may be, at most 16,384.
    pub callers: usize,
    /// How many successors a node's list may have, 2 to 16.
    pub successors: usize,
    /// How many times a request is sent at most, 1 to 1,000.
    pub tries: u64,
    /// How many milliseconds a caller waits for a reply after each time, 1 to 60,000.
    pub wait_ms: u64,
}

impl Settings {
    /// Whether each setting is within its limits.
    pub fn are_within(&self) -> bool
        ensures { IsTrue result ↔ AreWithin self.now }
    {
        1 <= self.slots
            && self.slots <= 4_096
            && self.callers <= 16_384
            && 2 <= self.successors
            && self.successors <= 16
            && 1 <= self.tries
            && self.tries <= 1_000
            && 1 <= self.wait_ms
            && self.wait_ms <= 60_000
    }
}
