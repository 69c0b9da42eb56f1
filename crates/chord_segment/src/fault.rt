//! Why a segment is not cut, or two are not joined.
ghost use Rattle.std.specs.Prelude.{◌≡◌};
ghost use Rattle.chord_segment.specs.declared.fault.CutFault.TheVariants.{Memory as CutMemory};
ghost use Rattle.chord_segment.specs.declared.fault.SegmentJoinFault.TheVariants.{Memory as JoinMemory};

use crate::segment::Segment;
use std::alloc::AllocError;
use thiserror::Error;

/// Why a segment is not cut.
#[derive(Clone, Copy, Debug, PartialEq, Eq, Error)]
pub enum CutFault {
    #[error("the place of the cut is not inside the segment")]
    NotInside,
    #[error("out of memory")]
    Memory,
}

impl From<AllocError> for CutFault {
    ghost from_gives = { λ _ fault. fault ≡ CutMemory };

    fn from(_refused: AllocError) -> CutFault {
        CutFault::Memory
    }
}

/// Why two segments are not joined.
#[derive(Clone, Copy, Debug, PartialEq, Eq, Error)]
pub enum SegmentJoinFault {
    #[error("the second segment does not begin where the first ends")]
    NotAdjacent,
    #[error("the segments overlap")]
    Overlap,
    #[error("the segments keep the same call")]
    Twice,
    #[error("out of memory")]
    Memory,
}

impl From<AllocError> for SegmentJoinFault {
    ghost from_gives = { λ _ fault. fault ≡ JoinMemory };

    fn from(_refused: AllocError) -> SegmentJoinFault {
        SegmentJoinFault::Memory
    }
}

/// A segment that was not cut, given back.
#[derive(Debug, Drop)]
pub struct Uncut {
    pub fault: CutFault,
    pub segment: Segment,
}

/// Two segments that were not joined, given back.
#[derive(Debug, Drop)]
pub struct Unjoined {
    pub fault: SegmentJoinFault,
    pub first: Segment,
    pub second: Segment,
}
