//! Who holds an identifier.

/// A node, or a handover that its receiver has not taken.
#[derive(Clone, Copy, Debug, PartialEq, Eq)]
pub enum Holder {
    /// The node of this number.
    Node(u64),
    /// The handover of this number, between these nodes.
    UnderWay { from: u64, to: u64, number: u64 },
}
