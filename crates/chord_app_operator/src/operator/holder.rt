//! Who holds an identifier.

/// Who holds an identifier, as one node after another says it.
#[derive(Clone, Copy, Debug, PartialEq, Eq)]
pub enum Holder {
    /// The node with this number.
    Node(u64),
    /// A handover that is under way.
    Handover {
        from: u64,
        to: u64,
        /// The handover's number at its giver.
        number: u64,
    },
    /// It moved while the nodes were asked.
    Moved,
}
