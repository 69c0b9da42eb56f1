//! The body of an answer.
ghost use Rattle.std.specs.Prelude.{◌≡◌, ◌==◌, if◌then◌else◌};
ghost use Rattle.chord_wire.specs.Reading.{Reads};
ghost use Rattle.chord_wire.specs.ReadingReplies.{answer_in, answer_fields, values_from, status_at, code_at, status_of, answer_at_end, CopiesLast};

use crate::answer::Answer;
use crate::codes::{CHANGED, FAULT, INSERTED, REMOVED, RETRIEVED, SET_FULL, UNCHANGED, VERSION_1};
use crate::fault::{FaultCode, WireFault};
use crate::reading::fields::{u32_at, u64_at};
use crate::reading::values::{copied_values, past_values};
use chord_map::Reply;
use chord_map::limits::SET_VALUES;
use std::alloc::Global;

// The reply to an insert or a remove.
fn reply_with(kind: u8, status: u8) -> Option<Reply>
    ensures { result ≡ status_of kind status }
{
    if kind == INSERTED {
        match status {
            UNCHANGED => Some(Reply::Present),
            CHANGED => Some(Reply::Added),
            SET_FULL => Some(Reply::SetFull),
            _ => None,
        }
    } else {
        match status {
            UNCHANGED => Some(Reply::Absent),
            CHANGED => Some(Reply::Removed),
            _ => None,
        }
    }
}

#[tactic(auto, unfolding(crate::specs::ReadingReplies::status_at))]
fn status_at(kind: u8, number: u64, bytes: &[u8]) -> Result<(Answer, &[u8]), WireFault>
    ensures { Reads (λ x. (x.0, x.1.now)) result (status_at kind number bytes.now) }
{
    let fault = WireFault {
        code: FaultCode::BadValue,
        number,
    };
    match bytes {
        [] => Err(fault),
        [status, rest @ ..] => match reply_with(kind, *status) {
            None => Err(fault),
            Some(reply) => Ok((Answer::Reply { number, reply }, rest)),
        },
    }
}

#[tactic(auto, unfolding(crate::specs::ReadingReplies::code_at))]
fn code_at(number: u64, bytes: &[u8]) -> Result<(Answer, &[u8]), WireFault>
    ensures { Reads (λ x. (x.0, x.1.now)) result (code_at number bytes.now) }
{
    let fault = WireFault {
        code: FaultCode::BadValue,
        number,
    };
    match bytes {
        [] => Err(fault),
        [code, rest @ ..] => match FaultCode::from_number(*code) {
            None => Err(fault),
            Some(code) => Ok((Answer::Fault { number, code }, rest)),
        },
    }
}

#[tactic(auto, unfolding(crate::specs::ReadingReplies::values_from))]
fn values_answer(alloc: Global, number: u64, bytes: &[u8]) -> Result<Answer, WireFault>
    ensures { CopiesLast result (answer_at_end number (values_from number bytes.now)) }
{
    let fault = WireFault {
        code: FaultCode::BadValue,
        number,
    };
    let (count, rest) = u32_at(bytes, fault)?;
    if count as usize > SET_VALUES {
        return Err(fault);
    }
    // Every other fault comes before any value is copied.
    let behind = past_values(number, count, rest)?;
    if !behind.is_empty() {
        return Err(WireFault {
            code: FaultCode::Trailing,
            number,
        });
    }
    let (values, _) = copied_values(alloc, number, count, rest)?;
    Ok(Answer::Reply {
        number,
        reply: Reply::Values(values.share()?),
    })
}

#[tactic(auto, unfolding(crate::specs::ReadingReplies::answer_fields, crate::specs::ReadingReplies::answer_at))]
fn answer_fields(alloc: Global, kind: u8, bytes: &[u8]) -> Result<Answer, WireFault>
    ensures { CopiesLast result (answer_fields kind bytes.now) }
{
    let fault = WireFault {
        code: FaultCode::BadLength,
        number: 0,
    };
    let (number, rest) = u64_at(bytes, fault)?;
    if kind == RETRIEVED {
        return values_answer(alloc, number, rest);
    }
    let (answer, behind) = status_or_code(kind, number, rest)?;
    if !behind.is_empty() {
        return Err(WireFault {
            code: FaultCode::Trailing,
            number,
        });
    }
    Ok(answer)
}

fn status_or_code(kind: u8, number: u64, bytes: &[u8]) -> Result<(Answer, &[u8]), WireFault>
    ensures { Reads (λ x. (x.0, x.1.now)) result (if kind == 255 then code_at number bytes.now else status_at kind number bytes.now) }
{
    if kind == FAULT {
        code_at(number, bytes)
    } else {
        status_at(kind, number, bytes)
    }
}

#[tactic(auto, unfolding(crate::specs::ReadingReplies::answer_in))]
pub fn answer_in(alloc: Global, body: &[u8]) -> Result<Answer, WireFault>
    ensures { CopiesLast result (answer_in body.now) }
{
    match body {
        [version, kind, rest @ ..] => {
            if *version != VERSION_1 {
                return Err(WireFault {
                    code: FaultCode::BadVersion,
                    number: 0,
                });
            }
            if !matches!(*kind, INSERTED | RETRIEVED | REMOVED | FAULT) {
                return Err(WireFault {
                    code: FaultCode::BadOperation,
                    number: 0,
                });
            }
            answer_fields(alloc, *kind, rest)
        }
        _ => Err(WireFault {
            code: FaultCode::BadLength,
            number: 0,
        }),
    }
}
