//! A connection whose driver waits for its reader and its writer.
ghost use Rattle.std.specs.Prelude.{◌≡◌, ◌≢◌, ◌<◌, ◌≤◌, ◌*◌, [], List, ℕ, length, Some, Ok, Err, true, IfErr, OnOk};
ghost use Rattle.std.specs.Io.KnownBytes.{Appends, Consumes};
ghost use Rattle.chord_serve.specs.BytesRead.{ReadsBetween, ReadsInTurns, most_bytes};
ghost use Rattle.chord_serve.specs.Conversing.{AnswersPart, SendsPart, AnswersAll, AnswersPiece, TakesTurn, Converses};
ghost use Rattle.chord_serve.specs.Ends.{IsStop, EndsInput};

use crate::due::Due;
use crate::intake::Intake;
use crate::link::protocol::Protocol;
use crate::link::stage::Step;
use crate::read_size::ReadSize;
use crate::served::Served;
use std::alloc::Global;
use std::io::{Read, Write};

// Answers requests into the output until none is whole (false) or the output is full (true). None
// waits.
fn answer_part<P: Protocol>(alloc: Global, protocol: &mut P, due: &mut Due) -> Result<bool, Served>
    requires empty { due.old ≡ [] }
    requires idle { P.idle protocol.old }
    ensures part { AnswersPart P.hears P.says P.stops P.rests result protocol.old due.new protocol.new }
    ensures idle { OnOk result (P.idle protocol.new) }
    ensures stop { IfErr result IsStop }
    ensures shorter { result ≡ Ok true → P.unread protocol.new < P.unread protocol.old }
{
    while !due.is_full() {
        match protocol.answer_next(alloc, due, false)? {
            Step::Answered => {}
            Step::Nothing => return Ok(false),
            Step::Later => unreachable!(),
        }
    }
    Ok(true)
}

// Answers some requests, and then writes the output, even if the connection ended.
fn send_part<P: Protocol, W: Write>(
    alloc: Global,
    protocol: &mut P,
    due: &mut Due,
    writer: &mut W,
) -> Result<bool, Served>
    requires { P.idle protocol.old }
    ensures part { SendsPart P.hears P.says P.stops P.rests result protocol.old (W.contents writer.old) (W.contents writer.new) protocol.new }
    ensures idle { OnOk result (P.idle protocol.new) }
    ensures stop { IfErr result IsStop }
    ensures shorter { result ≡ Ok true → P.unread protocol.new < P.unread protocol.old }
{
    due.clear(alloc);
    let result = answer_part(alloc, protocol, due);
    match due.write_to(writer) {
        Ok(()) => result,
        Err(_) => Err(Served::Write),
    }
}

// Answers all whole requests.
fn answer_all<P: Protocol, W: Write>(
    alloc: Global,
    protocol: &mut P,
    due: &mut Due,
    writer: &mut W,
) -> Result<(), Served>
    requires { P.idle protocol.old }
    ensures idle { OnOk result (P.idle protocol.new) }
    ensures stop { IfErr result IsStop }
    ensures all { AnswersAll P.hears P.says P.stops P.rests result protocol.old (W.contents writer.old) (W.contents writer.new) protocol.new }
{
    while send_part(alloc, protocol, due, writer)? {}
    due.clear(alloc);
    Ok(())
}

// Answers all requests that are whole with this piece of the input. No bytes are the end of the
// input.
fn answer_piece<P: Protocol, W: Write>(
    alloc: Global,
    protocol: &mut P,
    due: &mut Due,
    piece: &[u8],
    writer: &mut W,
) -> Result<(), Served>
    requires rests { P.rests protocol.old }
    requires idle { P.idle protocol.old }
    ensures idle { OnOk result (P.idle protocol.new) }
    ensures end { IfErr result (λ end. EndsInput end (Some piece.now)) }
    ensures some { OnOk result (1 ≤ length piece.now) }
    ensures not_spent { result ≢ Err Served.TurnsSpent }
    ensures not_read { result ≢ Err Served.Read }
    ensures answered { AnswersPiece P.hears P.says P.stops P.rests P.between result protocol.old piece.now (W.contents writer.old) (W.contents writer.new) protocol.new }
{
    if piece.is_empty() {
        if protocol.is_between() {
            return Err(Served::Ended);
        }
        return Err(Served::Truncated);
    }
    match protocol.feed(piece) {
        Ok(()) => answer_all(alloc, protocol, due, writer),
        Err(_) => Err(Served::Memory),
    }
}

// One read, then the answers to all whole requests, written together.
fn take_turn<P: Protocol, R: Read, W: Write>(
    alloc: Global,
    protocol: &mut P,
    intake: &mut Intake,
    due: &mut Due,
    reader: &mut R,
    writer: &mut W,
) -> Result<(), Served>
    requires rests { P.rests protocol.old }
    requires idle { P.idle protocol.old }
    ensures idle { OnOk result (P.idle protocol.new) }
    ensures size { intake.new.size ≡ intake.old.size }
    ensures end { IfErr result (λ end. EndsInput end (R.remaining reader.new)) }
    ensures bytes { ReadsBetween 0 (most_bytes intake.old.size) (R.remaining reader.old) (R.remaining reader.new) }
    ensures not_spent { result ≢ Err Served.TurnsSpent }
    ensures progress { OnOk result (ReadsBetween 1 (most_bytes intake.old.size) (R.remaining reader.old) (R.remaining reader.new)) }
    ensures turn { TakesTurn P.hears P.says P.stops P.rests P.between result protocol.old (R.remaining reader.old) (R.remaining reader.new) (W.contents writer.old) (W.contents writer.new) protocol.new }
{
    match intake.read_from(reader) {
        Ok(()) => answer_piece(alloc, protocol, due, intake.bytes(), writer),
        Err(_) => Err(Served::Read),
    }
}

// Takes at most `turns` turns.
fn take_turns<P: Protocol, R: Read, W: Write>(
    alloc: Global,
    protocol: &mut P,
    reader: &mut R,
    writer: &mut W,
    size: ReadSize,
    turns: u64,
) -> Served
    requires rests { P.rests protocol.old }
    requires idle { P.idle protocol.old }
    ensures end { EndsInput result (R.remaining reader.new) }
    ensures turns { ReadsInTurns (result ≡ Served.TurnsSpent) (most_bytes size) turns (R.remaining reader.old) (R.remaining reader.new) }
    ensures conversed { (input : List ℕ) × (output : List ℕ) × Consumes (R.remaining reader.old) (R.remaining reader.new) input
        × Converses P.hears P.says P.stops P.rests P.between result protocol.old input output protocol.new
        × Appends (W.contents writer.old) (W.contents writer.new) output }
{
    let Ok(mut intake) = Intake::new(alloc, size) else {
        return Served::Memory;
    };
    let mut due = Due::new(alloc);
    for _ in 0..turns {
        if let Err(end) = take_turn(alloc, protocol, &mut intake, &mut due, reader, writer) {
            return end;
        }
    }
    Served::TurnsSpent
}

/// Answers the requests that the protocol took in before, and then those from the reader, until the
/// input ends, a request ends the connection, a call fails, or `turns` reads of this size were
/// made; the contract says how many bytes these may take, and tests count the reads. No request
/// waits: one without an answer is answered as such. The answers to the requests of one read are
/// written together, or whenever they are more than 65,536 bytes. They are also written if a
/// request ends the connection.
pub fn drive<P: Protocol, R: Read, W: Write>(
    alloc: Global,
    protocol: &mut P,
    reader: &mut R,
    writer: &mut W,
    size: ReadSize,
    turns: u64,
) -> Served
    requires { P.idle protocol.old }
    ensures end { EndsInput result (R.remaining reader.new) }
    // Each read takes at least one byte unless the input ends.
    ensures turns { ReadsInTurns (result ≡ Served.TurnsSpent) (most_bytes size) turns (R.remaining reader.old) (R.remaining reader.new) }
    ensures conversed { (input : List ℕ) × (output : List ℕ) × Consumes (R.remaining reader.old) (R.remaining reader.new) input
        × Converses P.hears P.says P.stops P.rests P.between result protocol.old input output protocol.new
        × Appends (W.contents writer.old) (W.contents writer.new) output }
{
    let mut due = Due::new(alloc);
    if let Err(end) = answer_all(alloc, protocol, &mut due, writer) {
        return end;
    }
    drop(due);
    take_turns(alloc, protocol, reader, writer, size, turns)
}
