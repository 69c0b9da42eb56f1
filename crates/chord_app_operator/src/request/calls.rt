//! The calls.

use super::rows::Rows;
use super::store_kind::StoreKind;
use chord_ident::Id;

/// A node is to join.
#[derive(Clone, Copy, Debug, PartialEq, Eq)]
pub struct JoinRequest {
    /// Its identifier. Without one the operator picks it.
    pub id: Option<Id>,
    /// The kind of its store.
    pub store: StoreKind,
    /// The limit of a capped store.
    pub limit: Option<u64>,
    /// The number of the node that it joins by. Without one the operator picks it.
    pub via: Option<u64>,
}

/// A node is to crash.
#[derive(Clone, Copy, Debug, PartialEq, Eq)]
pub struct CrashRequest {
    pub node: u64,
    /// Whether it crashes also where the ring would not stand without it.
    pub is_forced: bool,
}

/// Pairs are to be read, in order of identifier.
#[derive(Clone, Copy, Debug, PartialEq, Eq)]
pub struct PairsRequest {
    /// Those behind this identifier. Without one, from the least identifier on.
    pub after: Option<Id>,
    /// At most this many, 1 to 1,000.
    pub limit: u64,
}

/// What an operator asks for.
#[derive(Clone, Copy, Debug, PartialEq, Eq)]
pub enum OperatorCall {
    Page,
    /// The ring, with these nodes.
    Ring(Rows),
    Metrics,
    Health,
    Ready,
    Join(JoinRequest),
    /// The node with this number is to leave.
    Leave(u64),
    Crash(CrashRequest),
    /// The node with this number, which crashed, is to be rescued.
    Rescue(u64),
    /// The holder of this identifier.
    Holder(Id),
    Pairs(PairsRequest),
    Stop,
}
