ghost use Rattle.chord_resp.specs.declared.reading.read_error.ReadError.TheVariants.{Memory};
ghost use Rattle.std.specs.Prelude.{◌≡◌};

use crate::reading::protocol_error::ProtocolError;
use std::alloc::{AllocError, AllocFailed};

/// Why no command is read.
#[derive(Clone, Copy, Debug, PartialEq, Eq)]
pub enum ReadError {
    Protocol(ProtocolError),
    Memory,
}

impl From<AllocError> for ReadError {
    ghost from_gives = { λ _ e. e ≡ Memory };

    fn from(_refused: AllocError) -> ReadError {
        ReadError::Memory
    }
}

impl<T: Drop> From<AllocFailed<T>> for ReadError {
    ghost from_gives = { λ _ e. e ≡ Memory };

    fn from(_refused: AllocFailed<T>) -> ReadError {
        ReadError::Memory
    }
}
