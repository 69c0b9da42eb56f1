//! Single fields, from left to right.
ghost use Rattle.std.specs.Prelude.{◌≡◌, ◌≤◌, length};
ghost use Rattle.std.specs.Int.{w16, w32, w64};
ghost use Rattle.chord_wire.specs.Fault.{fault};
ghost use Rattle.chord_wire.specs.Reading.{Reads, number_at, key_at, value_at};

use crate::fault::{FaultCode, WireFault};
use chord_map::limits::VALUE_BYTES;

pub fn u16_at(bytes: &[u8], fault: WireFault) -> Result<(u16, &[u8]), WireFault>
    ensures { Reads (λ x. (x.0, x.1.now)) result (number_at w16 fault bytes.now) }
{
    if bytes.len() < 2 {
        return Err(fault);
    }
    let (front, rest) = bytes.split_at(2);
    Ok((u16::from_be_bytes([front[0], front[1]]), rest))
}

pub fn u32_at(bytes: &[u8], fault: WireFault) -> Result<(u32, &[u8]), WireFault>
    ensures { Reads (λ x. (x.0, x.1.now)) result (number_at w32 fault bytes.now) }
{
    if bytes.len() < 4 {
        return Err(fault);
    }
    let (front, rest) = bytes.split_at(4);
    Ok((
        u32::from_be_bytes([front[0], front[1], front[2], front[3]]),
        rest,
    ))
}

pub fn u64_at(bytes: &[u8], fault: WireFault) -> Result<(u64, &[u8]), WireFault>
    ensures { Reads (λ x. (x.0, x.1.now)) result (number_at w64 fault bytes.now) }
{
    if bytes.len() < 8 {
        return Err(fault);
    }
    let (front, rest) = bytes.split_at(8);
    let number = u64::from_be_bytes([
        front[0], front[1], front[2], front[3], front[4], front[5], front[6], front[7],
    ]);
    Ok((number, rest))
}

#[tactic(auto, unfolding(crate::specs::Reading::key_at))]
pub fn key_at(number: u64, bytes: &[u8]) -> Result<(&[u8], &[u8]), WireFault>
    ensures { Reads (λ x. (x.0.now, x.1.now)) result (key_at number bytes.now) }
{
    let fault = WireFault {
        code: FaultCode::BadKey,
        number,
    };
    match bytes {
        [] => Err(fault),
        [len, rest @ ..] => {
            let len = *len as usize;
            if len == 0 || rest.len() < len {
                return Err(fault);
            }
            Ok(rest.split_at(len))
        }
    }
}

#[tactic(auto, unfolding(crate::specs::Reading::value_at))]
pub fn value_at(number: u64, bytes: &[u8]) -> Result<(&[u8], &[u8]), WireFault>
    ensures { Reads (λ x. (x.0.now, x.1.now)) result (value_at number bytes.now) }
{
    let fault = WireFault {
        code: FaultCode::BadValue,
        number,
    };
    let (len, rest) = u16_at(bytes, fault)?;
    let len = len as usize;
    if len > VALUE_BYTES || rest.len() < len {
        return Err(fault);
    }
    Ok(rest.split_at(len))
}
