//! What a client is told whose connection begins.
ghost use Rattle.std.specs.Prelude.{◌≢◌};
ghost use Rattle.chord_wire.specs.Spelling.{frame};
ghost use Rattle.chord_wire.specs.Replies.{fault_body};
ghost use Rattle.chord_wire.specs.SessionSpelling.{opened_frame};
ghost use Rattle.chord_session.specs.Session.{last_number};
ghost use Rattle.chord_serve.specs.Writes.{Writes};

use crate::client_session::ClientSession;
use crate::write_bytes::write_bytes;
use chord_wire::{FaultCode, write_fault, write_opened};
use std::alloc::Global;
use std::io::{self, Write};

/// Says that the session begins or goes on: its floor, and the last number of which a request was
/// read whole.
pub fn tell_opened<W: Write, A>(
    alloc: Global,
    writer: &mut W,
    client: &ClientSession<A>,
) -> io::Result<()>
    ensures { Writes result (W.contents writer.old) (W.contents writer.new) (opened_frame client.now.numbers.floor (last_number client.now.numbers)) }
{
    let frame = write_opened(alloc, client.floor(), client.last())?;
    write_bytes(writer, &frame)
}

// Writes the fault that says why nothing of the connection was done.
fn tell<W: Write>(alloc: Global, writer: &mut W, code: FaultCode) -> io::Result<()>
    requires { code ≢ FaultCode.Memory }
    ensures { Writes result (W.contents writer.old) (W.contents writer.new) (frame (fault_body 0 code)) }
{
    let frame = write_fault(alloc, 0, code)?;
    write_bytes(writer, &frame)
}

/// Says that no caller or session can be had, so nothing of the connection was done.
pub fn tell_callers_spent<W: Write>(alloc: Global, writer: &mut W) -> io::Result<()>
    ensures { Writes result (W.contents writer.old) (W.contents writer.new) (frame (fault_body 0 FaultCode.CallersSpent)) }
{
    tell(alloc, writer, FaultCode::CallersSpent)
}

/// Says that the session that is to begin is known already.
pub fn tell_session_known<W: Write>(alloc: Global, writer: &mut W) -> io::Result<()>
    ensures { Writes result (W.contents writer.old) (W.contents writer.new) (frame (fault_body 0 FaultCode.SessionKnown)) }
{
    tell(alloc, writer, FaultCode::SessionKnown)
}

/// Says that the session that is to be resumed is not kept.
pub fn tell_no_session<W: Write>(alloc: Global, writer: &mut W) -> io::Result<()>
    ensures { Writes result (W.contents writer.old) (W.contents writer.new) (frame (fault_body 0 FaultCode.NoSession)) }
{
    tell(alloc, writer, FaultCode::NoSession)
}
