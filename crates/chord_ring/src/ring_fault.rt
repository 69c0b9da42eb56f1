//! Why a ring does not take a step.

use crate::steps::{CandidateFault, DropFault, StabiliseFault};
use thiserror::Error;

/// Why a ring does not take a step.
#[derive(Clone, Copy, Debug, PartialEq, Eq, Error)]
pub enum RingFault {
    #[error("no such node")]
    NoSuchNode,
    #[error("the identifier was used before")]
    IdTaken,
    #[error("the new node does not lie before the first entry")]
    NotBetween,
    #[error("{0}")]
    Stabilise(StabiliseFault),
    #[error("{0}")]
    Candidate(CandidateFault),
    #[error("{0}")]
    Drop(DropFault),
    #[error("out of memory")]
    Memory,
}
