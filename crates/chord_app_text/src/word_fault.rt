//! Why words are no request.
ghost use Rattle.std.specs.Prelude.{◌≡◌};
ghost use Rattle.chord_app_text.specs.declared.word_fault.WordFault.TheVariants.{OutOfMemory};

use std::alloc::{AllocError, AllocFailed};
use std::fmt;

/// Which word of a request is wrong.
#[derive(Clone, Copy, Debug, PartialEq, Eq)]
pub enum WordFault {
    /// The line is no UTF-8.
    NoText,
    /// The line is longer than any request.
    LineLong,
    NoOperation,
    NoKey,
    NoValue,
    /// A word stands behind the key of a retrieve.
    ValueOfRetrieve,
    FourthWord,
    KeyDigits,
    ValueDigits,
    KeyLength,
    ValueLength,
    OutOfMemory,
}

/// What is wrong, and what may stand there.
impl fmt::Display for WordFault {
    fn fmt<W: fmt::Write>(&self, f: &mut fmt::Formatter<W>) -> fmt::Result {
        f.write_str(match self {
            WordFault::NoText => "the line is not UTF-8",
            WordFault::LineLong => "the line has more than 16384 bytes",
            WordFault::NoOperation => "word 1 of the request is not insert, retrieve or remove",
            WordFault::NoKey => "word 2 of the request is missing: a key",
            WordFault::NoValue => "word 3 of the request is missing: a value",
            WordFault::ValueOfRetrieve => {
                "word 3 of the request is too much: a retrieve has only a key"
            }
            WordFault::FourthWord => "word 4 of the request is too much: a value is the last word",
            WordFault::KeyDigits => {
                "word 2 of the request is no key: behind x: come pairs of hexadecimal digits"
            }
            WordFault::ValueDigits => {
                "word 3 of the request is no value: behind x: come pairs of hexadecimal digits"
            }
            WordFault::KeyLength => "word 2 of the request is no key: a key has 1 to 255 bytes",
            WordFault::ValueLength => {
                "word 3 of the request is no value: a value has at most 4096 bytes"
            }
            WordFault::OutOfMemory => "out of memory",
        })
    }
}

impl From<AllocError> for WordFault {
    ghost from_gives = { λ _ fault. fault ≡ OutOfMemory };

    fn from(_refused: AllocError) -> WordFault {
        WordFault::OutOfMemory
    }
}

impl<T: Drop> From<AllocFailed<T>> for WordFault {
    ghost from_gives = { λ _ fault. fault ≡ OutOfMemory };

    fn from(_refused: AllocFailed<T>) -> WordFault {
        WordFault::OutOfMemory
    }
}
