//! What a node did since it was admitted. A count stays at 2^64 - 1.

/// How many requests a node got, by what it did with each.
#[derive(Clone, Copy, Debug, PartialEq, Eq)]
pub struct AskCounts {
    /// It told the reply.
    pub told: u64,
    /// It passed the request on.
    pub forwarded: u64,
    /// It sent nothing, since the request was not for it or too old.
    pub dropped: u64,
    /// Its store had no room.
    pub full: u64,
}

/// How many handovers a node took part in.
#[derive(Clone, Copy, Debug, PartialEq, Eq)]
pub struct HandoverCounts {
    /// It put them into its outbox.
    pub given: u64,
    /// It took them from other nodes.
    pub taken: u64,
    /// It gave them, and their receivers declined them.
    pub declined: u64,
}

/// All that it did.
#[derive(Clone, Copy, Debug, PartialEq, Eq)]
pub struct NodeCounts {
    pub asks: AskCounts,
    pub handovers: HandoverCounts,
    /// How many rounds of upkeep it had.
    pub ticks: u64,
}
