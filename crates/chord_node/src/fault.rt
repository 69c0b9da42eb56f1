//! Refusals of a node.

use thiserror::Error;

/// Why a held segment is not cut.
#[derive(Clone, Copy, Debug, PartialEq, Eq, Error)]
pub enum CutAtFault {
    #[error("the node holds no segment at this place")]
    NoSegment,
    #[error("the cut is not inside the segment")]
    NotInside,
    #[error("out of memory")]
    Memory,
}

/// Why two held segments are not merged.
#[derive(Clone, Copy, Debug, PartialEq, Eq, Error)]
pub enum MergeFault {
    #[error("the node holds no two segments at these places")]
    NoSegment,
    #[error("the second does not begin where the first ends")]
    NotAdjacent,
    #[error("the segments meet")]
    Overlap,
    #[error("a call is kept in both")]
    Twice,
    #[error("out of memory")]
    Memory,
}

/// Why a held segment is not given.
#[derive(Clone, Copy, Debug, PartialEq, Eq, Error)]
pub enum GiveFault {
    #[error("the node holds no segment at this place")]
    NoSegment,
    #[error("the numbers of this receiver are spent")]
    NumbersSpent,
    #[error("out of memory")]
    Memory,
}

/// Why a part is not sent again.
#[derive(Clone, Copy, Debug, PartialEq, Eq, Error)]
pub enum ResendPartFault {
    #[error("there is no such part")]
    NoPart,
    #[error("out of memory")]
    Memory,
}

/// The node is leaving or gone, so it can't begin to leave.
#[derive(Clone, Copy, Debug, PartialEq, Eq, Error)]
#[error("the node is not staying")]
pub struct NotStaying;

/// Why a node does not retire.
#[derive(Clone, Copy, Debug, PartialEq, Eq, Error)]
pub enum RetireFault {
    #[error("the node is not leaving")]
    NotLeaving,
    #[error("the node holds a segment or hands one over")]
    NotEmpty,
}
