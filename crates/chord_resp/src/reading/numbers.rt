//! The phases that read a number and what stands around it.
ghost use Rattle.std.specs.Prelude.{◌≡◌};
ghost use Rattle.chord_resp.specs.Machine.{longer, count_step, mark_step, size_step};

use crate::limits::{DIGITS, LONG_WORD_BYTES, LONG_WORDS};
use crate::reading::phase::Phase;
use crate::reading::protocol_error::ProtocolError;

/// The number with one more digit. None if the byte is no digit or the number would be above
/// `most`.
fn longer(most: u32, number: u32, byte: u8) -> Option<u32>
    ensures { result ≡ longer most number byte }
{
    if byte < b'0' || b'9' < byte {
        return None;
    }
    let next = number as u64 * 10 + (byte - b'0') as u64;
    if next > most as u64 {
        return None;
    }
    Some(next as u32)
}

pub fn count_step(digits: u32, number: u32, byte: u8) -> Result<Phase, ProtocolError>
    ensures { result ≡ count_step digits number byte }
{
    if byte == b'\r' {
        if digits == 0 {
            return Err(ProtocolError::BadCount);
        }
        return Ok(Phase::CountEnd { number });
    }
    if DIGITS <= digits {
        return Err(ProtocolError::TooLong);
    }
    match longer(LONG_WORDS, number, byte) {
        None => Err(ProtocolError::BadCount),
        Some(number) => Ok(Phase::Count {
            digits: digits + 1,
            number,
        }),
    }
}

pub fn mark_step(byte: u8) -> Result<Phase, ProtocolError>
    ensures { result ≡ mark_step byte }
{
    if byte == b'$' {
        Ok(Phase::Size {
            digits: 0,
            number: 0,
        })
    } else {
        Err(ProtocolError::NoDollar(byte))
    }
}

pub fn size_step(digits: u32, number: u32, byte: u8) -> Result<Phase, ProtocolError>
    ensures { result ≡ size_step digits number byte }
{
    if byte == b'\r' {
        if digits == 0 {
            return Err(ProtocolError::BadLength);
        }
        return Ok(Phase::SizeEnd { number });
    }
    if DIGITS <= digits {
        return Err(ProtocolError::TooLong);
    }
    match longer(LONG_WORD_BYTES, number, byte) {
        None => Err(ProtocolError::BadLength),
        Some(number) => Ok(Phase::Size {
            digits: digits + 1,
            number,
        }),
    }
}
