//! What is wrong with a frame, or with its request.
ghost use Rattle.std.specs.Prelude.{◌≡◌};
ghost use Rattle.chord_wire.specs.Fault.{out_of_memory, code_number, code_of};

use crate::codes;
use std::alloc::{AllocError, AllocFailed};
use std::fmt;
use thiserror::Error;

/// What is wrong.
#[derive(Clone, Copy, Debug, PartialEq, Eq, Error)]
pub enum FaultCode {
    BadLength,
    BadVersion,
    BadOperation,
    BadKey,
    BadValue,
    Trailing,
    Memory,
    NumberReused,
    BadNumber,
    Full,
    NoAnswer,
    BadFloor,
    CallersSpent,
    SessionKnown,
    NoSession,
    OutOfPlace,
}

impl FaultCode {
    /// The fault with this code in a frame; none for the code of Memory.
    pub fn from_number(number: u8) -> Option<FaultCode>
        ensures { result ≡ code_of number }
    {
        match number {
            codes::BAD_LENGTH => Some(FaultCode::BadLength),
            codes::BAD_VERSION => Some(FaultCode::BadVersion),
            codes::BAD_OPERATION => Some(FaultCode::BadOperation),
            codes::BAD_KEY => Some(FaultCode::BadKey),
            codes::BAD_VALUE => Some(FaultCode::BadValue),
            codes::TRAILING => Some(FaultCode::Trailing),
            codes::NUMBER_REUSED => Some(FaultCode::NumberReused),
            codes::BAD_NUMBER => Some(FaultCode::BadNumber),
            codes::FULL => Some(FaultCode::Full),
            codes::NO_ANSWER => Some(FaultCode::NoAnswer),
            codes::BAD_FLOOR => Some(FaultCode::BadFloor),
            codes::SESSION_KNOWN => Some(FaultCode::SessionKnown),
            codes::NO_SESSION => Some(FaultCode::NoSession),
            codes::CALLERS_SPENT => Some(FaultCode::CallersSpent),
            codes::OUT_OF_PLACE => Some(FaultCode::OutOfPlace),
            _ => None,
        }
    }

    /// The code of the fault in a frame.
    pub fn to_number(self) -> u8
        ensures { result ≡ code_number self }
    {
        match self {
            FaultCode::BadLength => codes::BAD_LENGTH,
            FaultCode::BadVersion => codes::BAD_VERSION,
            FaultCode::BadOperation => codes::BAD_OPERATION,
            FaultCode::BadKey => codes::BAD_KEY,
            FaultCode::BadValue => codes::BAD_VALUE,
            FaultCode::Trailing => codes::TRAILING,
            FaultCode::Memory => codes::MEMORY,
            FaultCode::NumberReused => codes::NUMBER_REUSED,
            FaultCode::BadNumber => codes::BAD_NUMBER,
            FaultCode::Full => codes::FULL,
            FaultCode::NoAnswer => codes::NO_ANSWER,
            FaultCode::BadFloor => codes::BAD_FLOOR,
            FaultCode::CallersSpent => codes::CALLERS_SPENT,
            FaultCode::SessionKnown => codes::SESSION_KNOWN,
            FaultCode::NoSession => codes::NO_SESSION,
            FaultCode::OutOfPlace => codes::OUT_OF_PLACE,
        }
    }

    /// What is wrong, in words.
    fn text(self) -> &'static str {
        match self {
            FaultCode::BadLength => "bad length",
            FaultCode::BadVersion => "bad version",
            FaultCode::BadOperation => "bad operation",
            FaultCode::BadKey => "bad key",
            FaultCode::BadValue => "bad value",
            FaultCode::Trailing => "bytes behind the last field",
            FaultCode::Memory => "out of memory",
            FaultCode::NumberReused => "the number was another request's",
            FaultCode::BadNumber => "bad number",
            FaultCode::Full => "the store is full",
            FaultCode::NoAnswer => "no answer came in time",
            FaultCode::BadFloor => "bad floor",
            FaultCode::CallersSpent => "no caller is left for the connection",
            FaultCode::SessionKnown => "the session is known already",
            FaultCode::NoSession => "no such session is kept",
            FaultCode::OutOfPlace => "the frame does not belong here",
        }
    }
}

impl fmt::Display for FaultCode {
    fn fmt<W: fmt::Write>(&self, f: &mut fmt::Formatter<W>) -> fmt::Result {
        f.write_str(self.text())
    }
}

/// A fault, and the number of its request, or 0 if that is not known.
#[derive(Clone, Copy, Debug, PartialEq, Eq, Error)]
#[error("request {number}: {code}")]
pub struct WireFault {
    pub code: FaultCode,
    pub number: u64,
}

impl From<AllocError> for WireFault {
    ghost from_gives = { λ _ e. e ≡ out_of_memory };

    fn from(_error: AllocError) -> WireFault {
        WireFault {
            code: FaultCode::Memory,
            number: 0,
        }
    }
}

impl<T: Drop> From<AllocFailed<T>> for WireFault {
    ghost from_gives = { λ _ e. e ≡ out_of_memory };

    fn from(_error: AllocFailed<T>) -> WireFault {
        WireFault {
            code: FaultCode::Memory,
            number: 0,
        }
    }
}
