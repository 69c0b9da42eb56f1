//! Why the command does not do what it is asked for.
ghost use Rattle.std.specs.Prelude.{◌≡◌};
ghost use Rattle.chord_app_ring.specs.declared.fault.RingFault.TheVariants as ring;

use std::alloc::{AllocError, AllocFailed};
use std::io;
use thiserror::Error;

/// Why the server did not do what it was asked for, or is not known to have done it.
#[derive(Debug, Drop, Error)]
pub enum RingFault {
    /// Nobody is found at the port.
    #[error("no server is found")]
    Connect(io::ErrorKind),
    /// The connection ended before the whole answer came.
    #[error("the connection ended before the answer")]
    Lost,
    #[error("the server's answer is not understood")]
    NotUnderstood,
    /// The server refused, and says so in this text.
    #[error("refused")]
    Refused(Vec<u8>),
    /// The server had no memory, not for an answer either.
    #[error("the server is out of memory")]
    ServerMemory,
    #[error("out of memory")]
    Memory,
}

impl From<AllocError> for RingFault {
    ghost from_gives = { λ _ fault. fault ≡ ring.Memory };

    fn from(_refused: AllocError) -> RingFault {
        RingFault::Memory
    }
}

impl<T: Drop> From<AllocFailed<T>> for RingFault {
    ghost from_gives = { λ _ fault. fault ≡ ring.Memory };

    fn from(_refused: AllocFailed<T>) -> RingFault {
        RingFault::Memory
    }
}
