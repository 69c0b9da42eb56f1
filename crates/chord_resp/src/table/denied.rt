ghost use Rattle.chord_resp.specs.declared.table.denied.Denied.TheVariants.{Memory, Refused};
ghost use Rattle.std.specs.Prelude.{◌≡◌};

use crate::table::refusal::Refusal;
use std::alloc::{AllocError, AllocFailed};

/// Why words are no command that can be done.
#[derive(Debug, Drop)]
pub enum Denied {
    Refused(Refusal),
    Memory,
}

impl From<Refusal> for Denied {
    ghost from_gives = { λ refusal e. e ≡ Refused refusal };

    fn from(refusal: Refusal) -> Denied {
        Denied::Refused(refusal)
    }
}

impl From<AllocError> for Denied {
    ghost from_gives = { λ _ e. e ≡ Memory };

    fn from(_refused: AllocError) -> Denied {
        Denied::Memory
    }
}

impl<T: Drop> From<AllocFailed<T>> for Denied {
    ghost from_gives = { λ _ e. e ≡ Memory };

    fn from(_refused: AllocFailed<T>) -> Denied {
        Denied::Memory
    }
}
