//! A node with its store.

use crate::request::StoreKind;
use chord_sight::NodeSight;

/// A node, and the kind of its store.
#[derive(Debug, Drop)]
pub struct StoredNode {
    pub sight: NodeSight,
    pub store: StoreKind,
}
