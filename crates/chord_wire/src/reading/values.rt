//! Strictly rising values.
ghost use Rattle.std.specs.Prelude.{◌≡◌, None};
ghost use Rattle.std.specs.Option.{option_copied};
ghost use Rattle.chord_wire.specs.Reading.{Reads};
ghost use Rattle.chord_wire.specs.ReadingReplies.{is_above, value_above, rising_at, ReadsPast, Copies};

use crate::fault::{FaultCode, WireFault};
use crate::reading::fields::value_at;
use chord_map::{Bytes, Values};
use std::alloc::Global;

pub fn is_above(before: Option<&[u8]>, value: &[u8]) -> bool
    ensures { result ≡ is_above (option_copied before.entry) value.now }
{
    match before {
        None => true,
        Some(before) => before.cmp(&value).is_lt(),
    }
}

/// A value that is above the one before it, and the bytes after it.
#[tactic(auto, unfolding(crate::specs::ReadingReplies::value_above))]
fn value_above<'a>(
    number: u64,
    before: Option<&[u8]>,
    bytes: &'a [u8],
) -> Result<(&'a [u8], &'a [u8]), WireFault>
    ensures { Reads (λ x. (x.0.now, x.1.now)) result (value_above number (option_copied before.entry) bytes.now) }
{
    let (value, rest) = value_at(number, bytes)?;
    if !is_above(before, value) {
        return Err(WireFault {
            code: FaultCode::BadValue,
            number,
        });
    }
    Ok((value, rest))
}

/// The bytes after the values.
pub fn past_values(number: u64, count: u32, bytes: &[u8]) -> Result<&[u8], WireFault>
    ensures { ReadsPast (λ rest. rest.now) result (rising_at number None count bytes.now) }
{
    let mut before = None;
    let mut rest = bytes;
    for _ in 0..count {
        let (value, after) = value_above(number, before, rest)?;
        before = Some(value);
        rest = after;
    }
    Ok(rest)
}

/// Copies of the values.
pub fn copied_values(
    alloc: Global,
    number: u64,
    count: u32,
    bytes: &[u8],
) -> Result<(Values, &[u8]), WireFault>
    ensures { Copies (λ x. (x.0, x.1.now)) result (rising_at number None count bytes.now) }
{
    let mut values = Values::new(alloc);
    let mut before = None;
    let mut rest = bytes;
    for _ in 0..count {
        let (value, after) = value_above(number, before, rest)?;
        values.push(Bytes::from_slice(alloc, value)?)?;
        before = Some(value);
        rest = after;
    }
    Ok((values, rest))
}
