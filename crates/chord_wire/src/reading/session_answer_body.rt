//! The body of a server's frame in a session.
ghost use Rattle.std.specs.Prelude.{◌≡◌};
ghost use Rattle.chord_wire.specs.Reading.{Reads};
ghost use Rattle.chord_wire.specs.ReadingReplies.{CopiesLast};
ghost use Rattle.chord_wire.specs.SessionReading.{is_told, told_at, told_under, told_in, session_answer_in};

use crate::codes::{CLOSED, OPENED, VERSION_1};
use crate::fault::{FaultCode, WireFault};
use crate::reading::answer_body::answer_in;
use crate::reading::fields::u64_at;
use crate::session_answer::SessionAnswer;
use std::alloc::Global;

// Whether this is an opened or a closed.
fn is_told(version: u8, kind: u8) -> bool
    ensures { result ≡ is_told version kind }
{
    version == VERSION_1 && (kind == OPENED || kind == CLOSED)
}

#[tactic(auto, unfolding(crate::specs::SessionReading::told_at))]
fn told_at(kind: u8, bytes: &[u8]) -> Result<(SessionAnswer, &[u8]), WireFault>
    ensures { Reads (λ x. (x.0, x.1.now)) result (told_at kind bytes.now) }
{
    if kind == OPENED {
        let fault = WireFault {
            code: FaultCode::BadValue,
            number: 0,
        };
        let (floor, rest) = u64_at(bytes, fault)?;
        let (last, rest) = u64_at(rest, fault)?;
        return Ok((SessionAnswer::Opened { floor, last }, rest));
    }
    Ok((SessionAnswer::Closed, bytes))
}

fn told_under(kind: u8, number: u64, bytes: &[u8]) -> Result<(SessionAnswer, &[u8]), WireFault>
    ensures { Reads (λ x. (x.0, x.1.now)) result (told_under kind number bytes.now) }
{
    if number == 0 {
        return told_at(kind, bytes);
    }
    Err(WireFault {
        code: FaultCode::BadValue,
        number,
    })
}

#[tactic(auto, unfolding(crate::specs::SessionReading::told_in))]
fn told_in(kind: u8, bytes: &[u8]) -> Result<SessionAnswer, WireFault>
    ensures { Reads (λ x. x) result (told_in kind bytes.now) }
{
    let missing = WireFault {
        code: FaultCode::BadLength,
        number: 0,
    };
    let (number, rest) = u64_at(bytes, missing)?;
    let (told, rest) = told_under(kind, number, rest)?;
    if !rest.is_empty() {
        return Err(WireFault {
            code: FaultCode::Trailing,
            number: 0,
        });
    }
    Ok(told)
}

/// The frame of a whole body, or its first fault.
#[tactic(auto, unfolding(crate::specs::SessionReading::session_answer_in))]
pub fn session_answer_in(alloc: Global, body: &[u8]) -> Result<SessionAnswer, WireFault>
    ensures { CopiesLast result (session_answer_in body.now) }
{
    match body {
        [version, kind, rest @ ..] => {
            if is_told(*version, *kind) {
                return told_in(*kind, rest);
            }
            Ok(SessionAnswer::Answer(answer_in(alloc, body)?))
        }
        _ => Err(WireFault {
            code: FaultCode::BadLength,
            number: 0,
        }),
    }
}
