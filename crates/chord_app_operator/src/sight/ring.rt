//! What an operator sees of a ring.
ghost use Rattle.std.specs.Prelude.{◌≡◌};
ghost use Rattle.std.specs.List.{count_by};
ghost use Rattle.chord_app_operator.specs.Rows.{HasRows, gone_of, is_present};

use super::answers::ProtocolAnswers;
use super::counts::CallerCounts;
use super::node::StoredNode;
use super::process::ProcessSight;
use super::times::RequestTimes;
use super::traffic::{ByteCounts, EndCounts, SessionCounts};
use crate::request::Rows;

/// A look at a ring: one at each node, one after another.
#[derive(Debug, Drop)]
pub struct RingSight {
    /// How many successors a node keeps at most.
    pub successors: u64,
    /// How many nodes there may be at once.
    pub slots: u64,
    /// How many nodes there ever were.
    pub ever: u64,
    /// Whether the ring allowed each crash so far. Once it did not, only a new ring repairs itself
    /// for sure.
    pub premise: bool,
    pub callers: CallerCounts,
    /// How many clients are connected now.
    pub connections: u64,
    pub ends: EndCounts,
    pub sessions: SessionCounts,
    pub answers: ProtocolAnswers,
    pub times: RequestTimes,
    pub bytes: ByteCounts,
    pub process: ProcessSight,
    /// How long the server has run, in milliseconds.
    pub uptime_ms: u64,
    /// How often nodes passed requests on that are not among these.
    pub past_forwards: u64,
    pub nodes: Vec<StoredNode>,
}

// How many of these nodes are not gone.
fn present_among(nodes: &[StoredNode]) -> u64
    ensures { result ≡ count_by is_present nodes.now }
{
    let mut count = 0u64;
    for node in nodes {
        if Rows::Present.has(node.sight.phase) {
            count += 1;
        }
    }
    count
}

impl RingSight {
    /// How many nodes are gone, of all that ever were.
    pub(crate) fn gone(&self) -> u64
        ensures { result ≡ gone_of self.now }
    {
        self.ever.saturating_sub(present_among(&self.nodes))
    }

    /// Leaves out the nodes that are not shown.
    pub(crate) fn keep(&mut self, rows: Rows)
        ensures { HasRows rows self.old self.new }
    {
        self.nodes.retain(|node| rows.has(node.sight.phase));
    }
}
