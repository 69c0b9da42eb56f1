//! The body of a request; its key and value are borrowed.
ghost use Rattle.std.specs.Prelude.{◌≡◌};
ghost use Rattle.std.specs.Int.{w64};
ghost use Rattle.chord_wire.specs.Fault.{fault};
ghost use Rattle.chord_wire.specs.View.{request_of, wire_request};
ghost use Rattle.chord_wire.specs.Reading.{Reads, number_at, floor_at, operands_at, fields_at, request_in};

use crate::codes::{INSERT, REMOVE, RETRIEVE, VERSION_1, VERSION_2, WINDOW};
use crate::fault::{FaultCode, WireFault};
use crate::reading::fields::{key_at, u64_at, value_at};
use crate::request::RequestView;

/// A whole body, with key and value not copied yet.
#[derive(Clone, Copy)]
pub struct BodyView<'a> {
    pub version: u8,
    pub number: u64,
    pub floor: u64,
    pub request: RequestView<'a>,
}

// The floor field, or in version 1, which has none, the floor from the number.
#[tactic(auto, unfolding(crate::specs::Reading::floor_at))]
fn floor_at(version: u8, number: u64, bytes: &[u8]) -> Result<(u64, &[u8]), WireFault>
    ensures { Reads (λ x. (x.0, x.1.now)) result (floor_at version number bytes.now) }
{
    if version == VERSION_1 {
        return Ok((number.saturating_sub(1), bytes));
    }
    let fault = WireFault {
        code: FaultCode::BadFloor,
        number,
    };
    let (floor, rest) = u64_at(bytes, fault)?;
    if number <= floor || number - floor > WINDOW {
        return Err(fault);
    }
    Ok((floor, rest))
}

#[tactic(auto, unfolding(crate::specs::Reading::operands_at))]
fn operands_at(
    operation: u8,
    number: u64,
    bytes: &[u8],
) -> Result<(RequestView<'_>, &[u8]), WireFault>
    ensures { Reads (λ x. (request_of x.0, x.1.now)) result (operands_at operation number bytes.now) }
{
    let (key, rest) = key_at(number, bytes)?;
    if operation == RETRIEVE {
        return Ok((RequestView::Retrieve { key }, rest));
    }
    let (value, rest) = value_at(number, rest)?;
    if operation == INSERT {
        return Ok((RequestView::Insert { key, value }, rest));
    }
    Ok((RequestView::Remove { key, value }, rest))
}

#[tactic(auto, unfolding(crate::specs::Reading::fields_at))]
fn fields_at(version: u8, operation: u8, bytes: &[u8]) -> Result<BodyView<'_>, WireFault>
    ensures { Reads wire_request result (fields_at version operation bytes.now) }
{
    let fault = WireFault {
        code: FaultCode::BadLength,
        number: 0,
    };
    let (number, rest) = u64_at(bytes, fault)?;
    let (floor, rest) = floor_at(version, number, rest)?;
    let (request, rest) = operands_at(operation, number, rest)?;
    if !rest.is_empty() {
        return Err(WireFault {
            code: FaultCode::Trailing,
            number,
        });
    }
    Ok(BodyView {
        version,
        number,
        floor,
        request,
    })
}

/// The request of a whole body, or its first fault.
#[tactic(auto, unfolding(crate::specs::Reading::request_in))]
pub fn request_in(body: &[u8]) -> Result<BodyView<'_>, WireFault>
    ensures { Reads wire_request result (request_in body.now) }
{
    match body {
        [version, operation, rest @ ..] => {
            if *version != VERSION_1 && *version != VERSION_2 {
                return Err(WireFault {
                    code: FaultCode::BadVersion,
                    number: 0,
                });
            }
            if *operation < INSERT || *operation > REMOVE {
                return Err(WireFault {
                    code: FaultCode::BadOperation,
                    number: 0,
                });
            }
            fields_at(*version, *operation, rest)
        }
        _ => Err(WireFault {
            code: FaultCode::BadLength,
            number: 0,
        }),
    }
}
