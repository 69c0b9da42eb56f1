//! The server of a connection that speaks in frames.
ghost use Rattle.std.specs.Prelude.{◌≡◌, ◌*◌, List, ℕ, None};
ghost use Rattle.std.specs.Io.KnownBytes.{Appends, Consumes};
ghost use Rattle.chord_session.specs.Session.{first_state};
ghost use Rattle.chord_serve.specs.BytesRead.{ReadsInTurns, most_bytes};
ghost use Rattle.chord_serve.specs.Ends.{EndsInput};
ghost use Rattle.chord_serve.specs.Served.{IsServed};

use crate::asker::Asker;
use crate::client_session::ClientSession;
use crate::driving::drive;
use crate::frame_protocol::FrameProtocol;
use crate::read_size::ReadSize;
use crate::served::Served;
use chord_wire::SessionFrames;
use std::alloc::Global;
use std::io::{Read, Write};

/// Answers the requests from the reader, as [`drive`] does, until the input ends, a frame is
/// refused, a call fails, or `turns` reads of this size were made. Gives the asker back.
pub fn serve<R: Read, W: Write, A: Asker + Drop>(
    alloc: Global,
    reader: &mut R,
    writer: &mut W,
    asker: A,
    size: ReadSize,
    turns: u64,
) -> (Served, A)
    ensures end { EndsInput result.0 (R.remaining reader.new) }
    // Each read takes at least one byte unless the input ends.
    ensures turns { ReadsInTurns (result.0 ≡ Served.TurnsSpent) (most_bytes size) turns (R.remaining reader.old) (R.remaining reader.new) }
    ensures served { (input : List ℕ) × (output : List ℕ) × Consumes (R.remaining reader.old) (R.remaining reader.new) input
        × IsServed A.answers result.0 None first_state asker input output result.1
        × Appends (W.contents writer.old) (W.contents writer.new) output }
{
    let client = ClientSession::of_connection(alloc, asker);
    let mut protocol = FrameProtocol::new(SessionFrames::new(alloc), client, false);
    let served = drive(alloc, &mut protocol, reader, writer, size, turns);
    (served, protocol.into_parted().into_asker())
}
