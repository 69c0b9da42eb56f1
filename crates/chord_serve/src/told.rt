//! What a server tells for an open or a close.
ghost use Rattle.std.specs.Prelude.{◌≡◌, ◌≢◌, ◌*◌, Ok, Err, None};
ghost use Rattle.std.specs.Io.KnownBytes.{IsAtEnd};
ghost use Rattle.chord_wire.specs.SessionReading.{next_session_answer};
ghost use Rattle.chord_serve.specs.BytesRead.{ReadsBetween, ReadsInTurns};
ghost use Rattle.chord_serve.specs.Told.{LooksFor, LooksOn, Hears, Tells};

use crate::calls::CallFault;
use crate::write_bytes::write_bytes;
use chord_wire::{FaultCode, SessionAnswer, SessionAnswers};
use std::alloc::Global;
use std::io::{Read, Write};

/// A server's frame.
#[derive(Debug, Drop)]
pub struct Told {
    pub answer: SessionAnswer,
    /// Whether no byte was read behind it.
    pub is_alone: bool,
}

// The next frame, if it is whole.
fn look(frames: &mut SessionAnswers) -> Result<Option<SessionAnswer>, CallFault>
    ensures looks { LooksFor result frames.old frames.new }
    ensures not_ended { result ≢ Err CallFault.Ended }
    ensures not_spent { result ≢ Err CallFault.TurnsSpent }
{
    match frames.next() {
        Ok(answer) => Ok(answer),
        Err(fault) => {
            if fault.code == FaultCode::Memory {
                Err(CallFault::Memory)
            } else {
                Err(CallFault::Malformed(fault.code))
            }
        }
    }
}

// One read, and then the next frame, if it is whole.
fn look_on<R: Read>(
    reader: &mut R,
    frames: &mut SessionAnswers,
) -> Result<Option<SessionAnswer>, CallFault>
    requires { next_session_answer frames.old ≡ Ok None }
    ensures looks { LooksOn result frames.old (R.remaining reader.old) (R.remaining reader.new) frames.new }
    ensures end { result ≡ Err CallFault.Ended → IsAtEnd (R.remaining reader.new) }
    ensures bytes { ReadsBetween 0 4096 (R.remaining reader.old) (R.remaining reader.new) }
    ensures not_spent { result ≢ Err CallFault.TurnsSpent }
    ensures progress { result ≡ Ok None → ReadsBetween 1 4096 (R.remaining reader.old) (R.remaining reader.new) }
{
    let mut buffer = [0u8; 4096];
    let count = match reader.read(&mut buffer) {
        Ok(count) => count,
        Err(_) => return Err(CallFault::Read),
    };
    if count == 0 {
        return Err(CallFault::Ended);
    }
    match frames.feed(&buffer[..count]) {
        Ok(()) => look(frames),
        Err(_) => Err(CallFault::Memory),
    }
}

// The first frame, in at most `turns` reads, of at most 4,096 bytes each.
fn hear<R: Read>(alloc: Global, reader: &mut R, turns: u64) -> Result<Told, CallFault>
    ensures hears { Hears result (R.remaining reader.old) (R.remaining reader.new) }
    ensures end { result ≡ Err CallFault.Ended → IsAtEnd (R.remaining reader.new) }
    ensures turns { ReadsInTurns (result ≡ Err CallFault.TurnsSpent) 4096 turns (R.remaining reader.old) (R.remaining reader.new) }
{
    let mut frames = SessionAnswers::new(alloc);
    for _ in 0..turns {
        if let Some(answer) = look_on(reader, &mut frames)? {
            let is_alone = frames.left() == 0;
            return Ok(Told { answer, is_alone });
        }
    }
    Err(CallFault::TurnsSpent)
}

// Writes a frame, and takes the first frame of the server's.
pub(crate) fn be_told<R: Read, W: Write>(
    alloc: Global,
    reader: &mut R,
    writer: &mut W,
    frame: &[u8],
    turns: u64,
) -> Result<Told, CallFault>
    ensures tells { Tells result frame.now (R.remaining reader.old) (R.remaining reader.new) (W.contents writer.old) (W.contents writer.new) }
    ensures end { result ≡ Err CallFault.Ended → IsAtEnd (R.remaining reader.new) }
    ensures turns { ReadsInTurns (result ≡ Err CallFault.TurnsSpent) 4096 turns (R.remaining reader.old) (R.remaining reader.new) }
{
    match write_bytes(writer, frame) {
        Ok(()) => hear(alloc, reader, turns),
        Err(_) => Err(CallFault::Write),
    }
}
