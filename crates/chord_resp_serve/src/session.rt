//! The server of a connection that speaks Redis's protocol.
ghost use Rattle.std.specs.Prelude.{◌≡◌, ◌*◌, List, ℕ};
ghost use Rattle.std.specs.Io.KnownBytes.{Appends, Consumes};
ghost use Rattle.chord_resp.specs.Machine.{start};
ghost use Rattle.chord_serve.specs.BytesRead.{ReadsInTurns, most_bytes};
ghost use Rattle.chord_serve.specs.Ends.{EndsInput};
ghost use Rattle.chord_resp_serve.specs.Connections.{IsAnswered, first_standing};

use crate::command_protocol::CommandProtocol;
use crate::informs::Informs;
use crate::server_info::ServerInfo;
use chord_serve::{Asker, ReadSize, Served, drive};
use std::alloc::Global;
use std::io::{Read, Write};

/// Answers the commands from the reader, as [`drive`] does, until the input ends, the client quits,
/// bytes are no command, a call fails, or `turns` reads of this size were made. Gives the asker
/// back.
pub fn serve_commands<R: Read, W: Write, A: Asker + Drop, I: Informs>(
    alloc: Global,
    reader: &mut R,
    writer: &mut W,
    asker: A,
    server: ServerInfo<'_, I>,
    size: ReadSize,
    turns: u64,
) -> (Served, A)
    ensures end { EndsInput result.0 (R.remaining reader.new) }
    // Each read takes at least one byte unless the input ends.
    ensures turns { ReadsInTurns (result.0 ≡ Served.TurnsSpent) (most_bytes size) turns (R.remaining reader.old) (R.remaining reader.new) }
    ensures answered { (input : List ℕ) × (output : List ℕ) × Consumes (R.remaining reader.old) (R.remaining reader.new) input
        × IsAnswered A.answers (I.tells server.entry.source.now) server.entry.number start result.0 first_standing asker input output result.1
        × Appends (W.contents writer.old) (W.contents writer.new) output }
{
    let mut protocol = CommandProtocol::new(alloc, server, asker);
    let served = drive(alloc, &mut protocol, reader, writer, size, turns);
    (served, protocol.into_asker())
}
