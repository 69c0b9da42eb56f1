//! A ring of two nodes, one of which gives the other a part of what it holds, one that crashed, and
//! one that is rescued.

use crate::samples::{empty_node, empty_ring, filled, peopled};
use chord_app_operator::{RingSight, StoreKind, StoredNode};
use chord_ident::{Id, Span};
use chord_sight::{AskCounts, HandoverCounts, NodeSight, OutboxSight, Phase, SegmentSight};
use std::alloc::{AllocError, Global};

/// A quarter of the circle.
pub const QUARTER: u128 = 1 << 126;

/// A span by its ends.
pub fn span(after: u128, upto: u128) -> Span {
    Span::new(Id::new(after), Id::new(upto))
}

/// Puts in the lists of the node that gives.
fn fill_giving(node: &mut NodeSight) -> Result<(), AllocError> {
    node.successors.push(1)?;
    node.successors.push(0)?;
    node.segments.push(SegmentSight {
        span: span(2 * QUARTER, QUARTER),
        kept: 12,
    })?;
    for (to, number) in [(1, 3), (2, 4)] {
        node.outbox.push(OutboxSight {
            to,
            number,
            span: span(QUARTER, QUARTER + 16),
            pairs: 64,
        })?;
    }
    Ok(())
}

fn giving(alloc: Global) -> Result<StoredNode, AllocError> {
    let mut node = empty_node(alloc, 0, QUARTER, Phase::Staying);
    node.sight.predecessor = Some(1);
    node.sight.fingers = 7;
    node.sight.pairs = 1234;
    node.sight.counts.asks = AskCounts {
        told: 100,
        forwarded: 3,
        dropped: 2,
        full: 1,
    };
    node.sight.counts.handovers = HandoverCounts {
        given: 1,
        taken: 2,
        declined: 5,
    };
    node.sight.counts.ticks = u64::MAX;
    filled(fill_giving(&mut node.sight), node)
}

/// Puts in the segments of the node that leaves.
fn fill_leaving(node: &mut NodeSight) -> Result<(), AllocError> {
    node.segments.push(SegmentSight {
        span: span(QUARTER + 16, QUARTER + 32),
        kept: 0,
    })?;
    Ok(
        node.segments.push(SegmentSight {
            span: span(QUARTER + 32, 2 * QUARTER),
            kept: 1,
        })?,
    )
}

fn leaving(alloc: Global) -> Result<StoredNode, AllocError> {
    let mut node = empty_node(alloc, 1, 2 * QUARTER, Phase::Leaving);
    node.store = StoreKind::List;
    filled(fill_leaving(&mut node.sight), node)
}

/// A node that crashed.
fn crashed(alloc: Global) -> StoredNode {
    let mut node = empty_node(alloc, 2, u128::MAX, Phase::Crashed);
    node.store = StoreKind::Capped;
    node
}

/// Puts in all nodes.
fn put_nodes(alloc: Global, nodes: &mut Vec<StoredNode>) -> Result<(), AllocError> {
    nodes.push(giving(alloc)?)?;
    nodes.push(leaving(alloc)?)?;
    nodes.push(crashed(alloc))?;
    nodes.push(empty_node(alloc, 3, 0, Phase::Gone))?;
    Ok(nodes.push(empty_node(alloc, 4, 3 * QUARTER, Phase::Rescuing))?)
}

/// The ring.
pub fn ring(alloc: Global) -> Result<RingSight, AllocError> {
    let mut ring = empty_ring(alloc);
    let outcome = put_nodes(alloc, &mut ring.nodes);
    peopled(outcome, ring)
}
