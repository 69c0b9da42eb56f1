//! Why a ring refuses.

use thiserror::Error;

/// Why there is no ring of these settings.
#[derive(Clone, Copy, Debug, PartialEq, Eq, Error)]
pub enum NewFault {
    #[error("the settings are outside their limits")]
    BadSettings,
    #[error("out of memory")]
    Memory,
}

/// Why there is no first node.
#[derive(Clone, Copy, Debug, PartialEq, Eq, Error)]
pub enum CreateFault {
    #[error("the ring is stopped")]
    Stopped,
    #[error("there is a first node")]
    AlreadyCreated,
    #[error("out of memory")]
    Memory,
}

/// Why a node does not join.
#[derive(Clone, Copy, Debug, PartialEq, Eq, Error)]
pub enum JoinFault {
    #[error("the ring is stopped")]
    Stopped,
    #[error("all slots are taken")]
    NoSlot,
    #[error("a node has the identifier")]
    IdTaken,
    #[error("no node has the number")]
    NoSuchNode,
    #[error("the ring is not settled there")]
    Unsettled,
    #[error("out of memory")]
    Memory,
}

/// No node has the number.
#[derive(Clone, Copy, Debug, PartialEq, Eq, Error)]
#[error("no node has the number")]
pub struct NoSuchNode;

/// Why a node does not begin to leave.
#[derive(Clone, Copy, Debug, PartialEq, Eq, Error)]
pub enum LeaveFault {
    #[error("no node has the number")]
    NoSuchNode,
    #[error("the node does not stay")]
    NotStaying,
}

/// Why a round of upkeep ended early.
#[derive(Clone, Copy, Debug, PartialEq, Eq, Error)]
pub enum TickFault {
    #[error("no node has the number")]
    NoSuchNode,
    #[error("the ring is stopped")]
    Stopped,
    #[error("out of memory")]
    Memory,
}
