//! What an operator sees of a node, as plain data: which node it is, its links, what it holds and
//! what it did.
#![tactic(auto)]

mod counts;
mod node;
mod parts;
mod phase;

pub use counts::{AskCounts, HandoverCounts, NodeCounts};
pub use node::NodeSight;
pub use parts::{OutboxSight, SegmentSight};
pub use phase::Phase;
