//! The steps of a ring, and their answers.

use chord_ident::Id;
use chord_links::Peer;

/// A step of a ring.
#[derive(Clone, Copy, Debug, PartialEq, Eq)]
pub enum RingStep {
    /// A new node with this identifier joins behind a member.
    Join(Id, u64),
    /// A member copies the list of its first entry.
    Stabilise(u64, u64),
    /// A member takes a nearer node as its first entry.
    Candidate(u64, u64),
    /// A member drops its dead first entry.
    DropDead(u64),
    /// A member hears of a node that may be its predecessor.
    Rectify(u64, u64),
}

/// What a step of a ring did.
#[derive(Clone, Copy, Debug, PartialEq, Eq)]
pub enum RingDid {
    /// The new node's number.
    Joined(u64),
    /// The first entry's predecessor, if it is between the member and that entry.
    Candidate(Option<Peer>),
    Done,
}
