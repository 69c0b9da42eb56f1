//! A node as it is seen.

use crate::counts::NodeCounts;
use crate::parts::{OutboxSight, SegmentSight};
use crate::phase::Phase;
use chord_ident::Id;

/// A node at one moment, as one look under its lock shows it. Looks at two nodes are of two
/// moments.
#[derive(Debug, Drop)]
pub struct NodeSight {
    /// Its number, which no other node ever has.
    pub number: u64,
    pub id: Id,
    pub phase: Phase,
    /// The number of its predecessor, where it knows one.
    pub predecessor: Option<u64>,
    /// The numbers of its successors, the nearest first.
    pub successors: Vec<u64>,
    /// How many fingers it knows.
    pub fingers: u64,
    /// The segments that it holds.
    pub segments: Vec<SegmentSight>,
    /// How many pairs of a key and a value it holds.
    pub pairs: u64,
    /// The handovers that it gave and that are not over yet, the oldest first.
    pub outbox: Vec<OutboxSight>,
    /// What it did.
    pub counts: NodeCounts,
}
