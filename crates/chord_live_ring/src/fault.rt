//! Why a node does not depart.
ghost use Rattle.std.specs.Prelude.{◌≡◌};
ghost use Rattle.chord_live_ring.specs.Refused.{crash_refusal, departure_refusal, retire_refusal};

use chord_node::RetireFault;
use thiserror::Error;

/// Why a node does not retire.
#[derive(Clone, Copy, Debug, PartialEq, Eq, Error)]
pub enum RingRetireFault {
    #[error("no node has the number")]
    NoSuchNode,
    #[error("the node is not leaving")]
    NotLeaving,
    #[error("the node holds a segment or hands one over")]
    NotEmpty,
    #[error("the ring would not hold together")]
    Unsafe,
}

/// Why a node does not crash.
#[derive(Clone, Copy, Debug, PartialEq, Eq, Error)]
pub enum CrashFault {
    #[error("no node has the number")]
    NoSuchNode,
    #[error("the node crashed or is gone")]
    NotLive,
    #[error("the ring would not hold together")]
    Unsafe,
}

/// Why a node is not rescued.
#[derive(Clone, Copy, Debug, PartialEq, Eq, Error)]
pub enum RescueFault {
    #[error("no node has the number")]
    NoSuchNode,
    #[error("the node did not crash, or is rescued already")]
    NotCrashed,
    #[error("no node stays that could take over what it holds")]
    NoMember,
    #[error("the ring is stopped")]
    Stopped,
}

/// Why a node does not depart.
#[derive(Clone, Copy, Debug, PartialEq, Eq)]
pub(crate) enum DepartFault {
    /// It is to retire, and is not leaving.
    NotLeaving,
    /// It is to retire, and holds a segment or hands one over.
    NotEmpty,
    /// It is to crash, and did so before or is gone.
    NotLive,
    /// The others would not be safe.
    Unsafe,
}

impl From<RetireFault> for DepartFault {
    ghost from_gives = { λ refused fault. fault ≡ departure_refusal refused };

    fn from(refused: RetireFault) -> DepartFault {
        match refused {
            RetireFault::NotLeaving => DepartFault::NotLeaving,
            RetireFault::NotEmpty => DepartFault::NotEmpty,
        }
    }
}

impl From<DepartFault> for RingRetireFault {
    ghost from_gives = { λ refused fault. fault ≡ retire_refusal refused };

    fn from(refused: DepartFault) -> RingRetireFault {
        match refused {
            DepartFault::NotLeaving | DepartFault::NotLive => RingRetireFault::NotLeaving,
            DepartFault::NotEmpty => RingRetireFault::NotEmpty,
            DepartFault::Unsafe => RingRetireFault::Unsafe,
        }
    }
}

impl From<DepartFault> for CrashFault {
    ghost from_gives = { λ refused fault. fault ≡ crash_refusal refused };

    fn from(refused: DepartFault) -> CrashFault {
        match refused {
            DepartFault::NotLive | DepartFault::NotLeaving | DepartFault::NotEmpty => {
                CrashFault::NotLive
            }
            DepartFault::Unsafe => CrashFault::Unsafe,
        }
    }
}
