//! The body of a client's frame in a session.
ghost use Rattle.std.specs.Prelude.{◌≡◌};
ghost use Rattle.chord_wire.specs.Reading.{Reads, request_in};
ghost use Rattle.chord_wire.specs.ReadingReplies.{CopiesLast};
ghost use Rattle.chord_wire.specs.SessionReading.{is_control, zeros_at, flag_at, opening_at, control_at, control_in, session_in};

use crate::codes::{BEGINS, CLOSE, OPEN, RESUMES, TOKEN_BYTES, VERSION_2};
use crate::fault::{FaultCode, WireFault};
use crate::reading::fields::u64_at;
use crate::reading::request_body::request_in;
use crate::request::WireRequest;
use crate::session_frame::{Opening, SessionFrame};
use crate::token::Token;
use std::alloc::Global;

// A frame whose fields are missing or wrong.
const BAD_VALUE: WireFault = WireFault {
    code: FaultCode::BadValue,
    number: 0,
};

// Whether this is an open or a close.
fn is_control(version: u8, operation: u8) -> bool
    ensures { result ≡ is_control version operation }
{
    version == VERSION_2 && (operation == OPEN || operation == CLOSE)
}

// The bytes after number and floor, both 0.
#[tactic(auto, unfolding(crate::specs::SessionReading::zeros_at))]
fn zeros_at(bytes: &[u8]) -> Result<&[u8], WireFault>
    ensures { Reads (λ rest. rest.now) result (zeros_at bytes.now) }
{
    let missing = WireFault {
        code: FaultCode::BadLength,
        number: 0,
    };
    let (number, rest) = u64_at(bytes, missing)?;
    let fault = WireFault {
        code: FaultCode::BadFloor,
        number,
    };
    let (floor, rest) = u64_at(rest, fault)?;
    if number == 0 && floor == 0 {
        return Ok(rest);
    }
    Err(fault)
}

#[tactic(auto, unfolding(crate::specs::SessionReading::flag_at))]
fn flag_at(bytes: &[u8]) -> Result<(bool, &[u8]), WireFault>
    ensures { Reads (λ x. (x.0, x.1.now)) result (flag_at bytes.now) }
{
    match bytes {
        [] => Err(BAD_VALUE),
        [flag, rest @ ..] => match *flag {
            BEGINS => Ok((false, rest)),
            RESUMES => Ok((true, rest)),
            _ => Err(BAD_VALUE),
        },
    }
}

#[tactic(auto, unfolding(crate::specs::SessionReading::opening_at))]
fn opening_at(bytes: &[u8]) -> Result<(Opening, &[u8]), WireFault>
    ensures { Reads (λ x. (x.0, x.1.now)) result (opening_at bytes.now) }
{
    if bytes.len() < TOKEN_BYTES {
        return Err(BAD_VALUE);
    }
    let (front, rest) = bytes.split_at(TOKEN_BYTES);
    let mut token = [0; TOKEN_BYTES];
    token.copy_from_slice(front);
    let (resumes, rest) = flag_at(rest)?;
    let opening = Opening {
        token: Token { bytes: token },
        resumes,
    };
    Ok((opening, rest))
}

#[tactic(auto, unfolding(crate::specs::SessionReading::control_at))]
fn control_at(operation: u8, bytes: &[u8]) -> Result<(SessionFrame, &[u8]), WireFault>
    ensures { Reads (λ x. (x.0, x.1.now)) result (control_at operation bytes.now) }
{
    if operation == OPEN {
        let (opening, rest) = opening_at(bytes)?;
        return Ok((SessionFrame::Open(opening), rest));
    }
    Ok((SessionFrame::Close, bytes))
}

#[tactic(auto, unfolding(crate::specs::SessionReading::control_in))]
fn control_in(operation: u8, bytes: &[u8]) -> Result<SessionFrame, WireFault>
    ensures { Reads (λ x. x) result (control_in operation bytes.now) }
{
    let rest = zeros_at(bytes)?;
    let (control, rest) = control_at(operation, rest)?;
    if !rest.is_empty() {
        return Err(WireFault {
            code: FaultCode::Trailing,
            number: 0,
        });
    }
    Ok(control)
}

// The request of a whole body, copied.
fn request_of(alloc: Global, body: &[u8]) -> Result<WireRequest, WireFault>
    ensures { CopiesLast result (request_in body.now) }
{
    let view = request_in(body)?;
    Ok(WireRequest {
        version: view.version,
        number: view.number,
        floor: view.floor,
        request: view.request.to_request(alloc)?,
    })
}

/// The frame of a whole body, or its first fault.
#[tactic(auto, unfolding(crate::specs::SessionReading::session_in))]
pub fn session_in(alloc: Global, body: &[u8]) -> Result<SessionFrame, WireFault>
    ensures { CopiesLast result (session_in body.now) }
{
    match body {
        [version, operation, rest @ ..] => {
            if is_control(*version, *operation) {
                return control_in(*operation, rest);
            }
            Ok(SessionFrame::Request(request_of(alloc, body)?))
        }
        _ => Err(WireFault {
            code: FaultCode::BadLength,
            number: 0,
        }),
    }
}
