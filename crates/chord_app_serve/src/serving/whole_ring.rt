//! The end of a server's ring.

/// A ring that ended. One look at all its nodes and callers proved that they are a reachable world.
#[derive(Clone, Copy, Debug, PartialEq, Eq)]
pub struct WholeRing {
    /// How many nodes it had, with those that are gone.
    pub nodes: u64,
    /// How many callers it had.
    pub callers: usize,
}
