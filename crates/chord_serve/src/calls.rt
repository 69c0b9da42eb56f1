//! One call to a server.
ghost use Rattle.std.specs.Prelude.{◌≡◌, ◌≢◌, ◌*◌, Ok, Err, None};
ghost use Rattle.std.specs.Io.KnownBytes.{IsAtEnd};
ghost use Rattle.chord_map.specs.declared.request.Request.{Request};
ghost use Rattle.chord_map.specs.Checked.{IsRequest};
ghost use Rattle.chord_wire.specs.Spelling.{IsWireRequest, frame, request_body, version_1, version_2};
ghost use Rattle.chord_wire.specs.ReadingReplies.{next_answer};
ghost use Rattle.chord_serve.specs.BytesRead.{ReadsBetween, ReadsInTurns};
ghost use Rattle.chord_serve.specs.Calls.{ReadsAnswer, ReadsMore, GetsAnswer, IsCalled};

use crate::write_bytes::write_bytes;
use chord_map::Request;
use chord_wire::{Answer, Answers, FaultCode, write_request, write_request_2};
use std::alloc::Global;
use std::io::{Read, Write};
use thiserror::Error;

/// Why a call has no answer.
#[derive(Clone, Copy, Debug, PartialEq, Eq, Error)]
pub enum CallFault {
    #[error("the request could not be written")]
    Write,
    #[error("no more could be read")]
    Read,
    #[error("the other end ended the connection")]
    Ended,
    #[error("the answer is no frame: {0}")]
    Malformed(FaultCode),
    #[error("no whole answer came within the reads that were allowed")]
    TurnsSpent,
    #[error("out of memory")]
    Memory,
}

// The next answer, if its frame is whole.
fn look(answers: &mut Answers) -> Result<Option<Answer>, CallFault>
    ensures reads { ReadsAnswer result answers.old answers.new }
    ensures not_ended { result ≢ Err CallFault.Ended }
    ensures not_spent { result ≢ Err CallFault.TurnsSpent }
{
    match answers.next() {
        Ok(answer) => Ok(answer),
        Err(fault) => {
            if fault.code == FaultCode::Memory {
                Err(CallFault::Memory)
            } else {
                Err(CallFault::Malformed(fault.code))
            }
        }
    }
}

// One read, and then the next answer, if its frame is whole.
fn read_more<R: Read>(reader: &mut R, answers: &mut Answers) -> Result<Option<Answer>, CallFault>
    requires { next_answer answers.old ≡ Ok None }
    ensures reads { ReadsMore result answers.old (R.remaining reader.old) (R.remaining reader.new) answers.new }
    ensures end { result ≡ Err CallFault.Ended → IsAtEnd (R.remaining reader.new) }
    ensures bytes { ReadsBetween 0 4096 (R.remaining reader.old) (R.remaining reader.new) }
    ensures not_spent { result ≢ Err CallFault.TurnsSpent }
    ensures progress { result ≡ Ok None → ReadsBetween 1 4096 (R.remaining reader.old) (R.remaining reader.new) }
{
    let mut buffer = [0u8; 4096];
    let count = match reader.read(&mut buffer) {
        Ok(count) => count,
        Err(_) => return Err(CallFault::Read),
    };
    if count == 0 {
        return Err(CallFault::Ended);
    }
    match answers.feed(&buffer[..count]) {
        Ok(()) => look(answers),
        Err(_) => Err(CallFault::Memory),
    }
}

// The first answer, in at most `turns` reads, of at most 4,096 bytes each. The contract counts
// bytes; tests count reads.
pub(crate) fn await_answer<R: Read>(
    reader: &mut R,
    answers: &mut Answers,
    turns: u64,
) -> Result<Answer, CallFault>
    ensures gets { GetsAnswer result answers.old (R.remaining reader.old) (R.remaining reader.new) answers.new }
    ensures end { result ≡ Err CallFault.Ended → IsAtEnd (R.remaining reader.new) }
    ensures turns { ReadsInTurns (result ≡ Err CallFault.TurnsSpent) 4096 turns (R.remaining reader.old) (R.remaining reader.new) }
{
    if let Some(answer) = look(answers)? {
        return Ok(answer);
    }
    for _ in 0..turns {
        if let Some(answer) = read_more(reader, answers)? {
            return Ok(answer);
        }
    }
    Err(CallFault::TurnsSpent)
}

// Writes the frame, and waits for the first answer.
fn exchange<R: Read, W: Write>(
    reader: &mut R,
    writer: &mut W,
    answers: &mut Answers,
    frame: &[u8],
    turns: u64,
) -> Result<Answer, CallFault>
    ensures called { IsCalled result frame.now answers.old (R.remaining reader.old) (R.remaining reader.new) (W.contents writer.old) (W.contents writer.new) answers.new }
    ensures end { result ≡ Err CallFault.Ended → IsAtEnd (R.remaining reader.new) }
    ensures turns { ReadsInTurns (result ≡ Err CallFault.TurnsSpent) 4096 turns (R.remaining reader.old) (R.remaining reader.new) }
{
    match write_bytes(writer, frame) {
        Ok(()) => await_answer(reader, answers, turns),
        Err(_) => Err(CallFault::Write),
    }
}

/// Writes a version 1 request, and gives the first answer. It makes at most `turns` reads; the
/// contract says how many bytes these may take, and tests count the reads.
pub fn call<R: Read, W: Write>(
    alloc: Global,
    reader: &mut R,
    writer: &mut W,
    answers: &mut Answers,
    number: u64,
    request: &Request,
    turns: u64,
) -> Result<Answer, CallFault>
    requires { IsRequest request.now }
    ensures called { IsCalled result (frame (request_body (version_1 number request.now))) answers.old (R.remaining reader.old) (R.remaining reader.new) (W.contents writer.old) (W.contents writer.new) answers.new }
    ensures end { result ≡ Err CallFault.Ended → IsAtEnd (R.remaining reader.new) }
    ensures turns { ReadsInTurns (result ≡ Err CallFault.TurnsSpent) 4096 turns (R.remaining reader.old) (R.remaining reader.new) }
{
    match write_request(alloc, number, request) {
        Ok(frame) => exchange(reader, writer, answers, &frame, turns),
        Err(_) => Err(CallFault::Memory),
    }
}

/// Writes a version 2 request, and gives the first answer. It makes at most `turns` reads; the
/// contract says how many bytes these may take, and tests count the reads.
pub fn call_2<R: Read, W: Write>(
    alloc: Global,
    reader: &mut R,
    writer: &mut W,
    answers: &mut Answers,
    number: u64,
    floor: u64,
    request: &Request,
    turns: u64,
) -> Result<Answer, CallFault>
    requires { IsWireRequest (version_2 number floor request.now) }
    ensures called { IsCalled result (frame (request_body (version_2 number floor request.now))) answers.old (R.remaining reader.old) (R.remaining reader.new) (W.contents writer.old) (W.contents writer.new) answers.new }
    ensures end { result ≡ Err CallFault.Ended → IsAtEnd (R.remaining reader.new) }
    ensures turns { ReadsInTurns (result ≡ Err CallFault.TurnsSpent) 4096 turns (R.remaining reader.old) (R.remaining reader.new) }
{
    match write_request_2(alloc, number, floor, request) {
        Ok(frame) => exchange(reader, writer, answers, &frame, turns),
        Err(_) => Err(CallFault::Memory),
    }
}
