//! The numbers of a node.
ghost use Rattle.std.specs.Prelude.{◌≡◌};
ghost use Rattle.chord_app_operator.specs.Metrics.{node_count};

use chord_sight::NodeSight;

/// A number of a node.
#[derive(Clone, Copy, Debug, PartialEq, Eq)]
pub enum NodeCount {
    Pairs,
    Segments,
    OutboxItems,
    Told,
    Forwarded,
    Dropped,
    Full,
    Given,
    Taken,
    Declined,
    Ticks,
}

impl NodeCount {
    /// The number.
    pub fn of(self, node: &NodeSight) -> u64
        ensures { result ≡ node_count self node.now }
    {
        match self {
            NodeCount::Pairs => node.pairs,
            NodeCount::Segments => node.segments.len() as u64,
            NodeCount::OutboxItems => node.outbox.len() as u64,
            NodeCount::Told => node.counts.asks.told,
            NodeCount::Forwarded => node.counts.asks.forwarded,
            NodeCount::Dropped => node.counts.asks.dropped,
            NodeCount::Full => node.counts.asks.full,
            NodeCount::Given => node.counts.handovers.given,
            NodeCount::Taken => node.counts.handovers.taken,
            NodeCount::Declined => node.counts.handovers.declined,
            NodeCount::Ticks => node.counts.ticks,
        }
    }
}
