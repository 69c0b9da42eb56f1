//! What a node holds, and what it gives away.

use chord_ident::Span;

/// A segment that a node holds.
#[derive(Clone, Copy, Debug, PartialEq, Eq)]
pub struct SegmentSight {
    pub span: Span,
    /// How many replies it keeps for requests that come again; at most 2^64 - 1 are told.
    pub kept: u64,
}

/// A handover that is under way: it stays in the giver's outbox until it is taken or declined.
#[derive(Clone, Copy, Debug, PartialEq, Eq)]
pub struct OutboxSight {
    /// The number of the node that gets it.
    pub to: u64,
    /// The handover's number: its giver counts those to each receiver from 1 on.
    pub number: u64,
    pub span: Span,
    pub pairs: u64,
}
