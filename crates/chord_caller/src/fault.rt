//! Refusals of a caller.
ghost use Rattle.std.specs.Prelude.{◌≡◌};
ghost use Rattle.chord_caller.specs.declared.fault.SubmitFault.TheVariants.{Memory as SubmitMemory};
ghost use Rattle.chord_caller.specs.declared.fault.ResendFault.TheVariants.{Memory as ResendMemory};
ghost use Rattle.chord_caller.specs.declared.fault.TakeFault.TheVariants.{Memory as TakeMemory};

use chord_map::RequestFault;
use std::alloc::AllocError;
use thiserror::Error;

/// Why a request is not submitted.
#[derive(Clone, Copy, Debug, PartialEq, Eq, Error)]
pub enum SubmitFault {
    #[error(transparent)]
    Bad(RequestFault),
    #[error("the window is full")]
    WindowFull,
    #[error("the numbers are spent")]
    NumbersSpent,
    #[error("out of memory")]
    Memory,
}

impl From<AllocError> for SubmitFault {
    ghost from_gives = { λ _ fault. fault ≡ SubmitMemory };

    fn from(_refused: AllocError) -> SubmitFault {
        SubmitFault::Memory
    }
}

/// Why a request is not sent again.
#[derive(Clone, Copy, Debug, PartialEq, Eq, Error)]
pub enum ResendFault {
    #[error("no request of that number is pending")]
    Idle,
    #[error("out of memory")]
    Memory,
}

impl From<AllocError> for ResendFault {
    ghost from_gives = { λ _ fault. fault ≡ ResendMemory };

    fn from(_refused: AllocError) -> ResendFault {
        ResendFault::Memory
    }
}

/// Why a reply is not taken.
#[derive(Clone, Copy, Debug, PartialEq, Eq, Error)]
pub enum TakeFault {
    #[error("the reply is to no request of this caller")]
    Foreign,
    #[error("out of memory")]
    Memory,
}

impl From<AllocError> for TakeFault {
    ghost from_gives = { λ _ fault. fault ≡ TakeMemory };

    fn from(_refused: AllocError) -> TakeFault {
        TakeFault::Memory
    }
}
