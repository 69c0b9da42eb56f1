//! A node's answers to the messages of handovers.

/// The answer to a part.
#[derive(Clone, Copy, Debug, PartialEq, Eq)]
pub enum PartAnswer {
    /// The handover is taken, now or before.
    Got,
    /// The node is gone and will not take it.
    Declined,
    /// It is not the next one of its sender.
    Early,
    /// The parts make no payload, or one whose span overlaps a held one.
    Clash,
    /// The store has no room for its pairs.
    Full,
    /// The part is buffered.
    Part,
}

/// The answer to a Declined.
#[derive(Clone, Copy, Debug, PartialEq, Eq)]
pub enum Back {
    /// Its segment is held again.
    Held,
    /// The outbox has no such item.
    Unknown,
    /// Its span overlaps a held one.
    Clash,
    /// The store has no room for its pairs.
    Full,
}
