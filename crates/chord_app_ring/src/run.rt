//! The command.
ghost use Rattle.std.specs.Prelude.{◌≡◌, ◌⊎◌};
ghost use Rattle.chord_app_text.specs.declared.finish.Finish.TheVariants as End;
ghost use Rattle.chord_app_text.specs.declared.finish.Fault.TheVariants as Cause;
ghost use Rattle.chord_app_ring.specs.Faults.{finish_of};

use crate::command::{RingCommand, RingLine};
use crate::connecting::connect;
use crate::fault::RingFault;
use crate::stream::exchange;
use crate::told::text_of;
use chord_app_text::{Fault, Finish};
use std::alloc::Global;
use std::io::Write;
use std::net::{Net, TcpStream};
use std::sync::Wait;
use std::thread;
use std::time::{Clock, Duration};

/// Asks for one thing over a connection of its own, and gives the text that answers it.
fn ask<R: Net<Stream = TcpStream>>(
    rt: &R,
    alloc: Global,
    port: u16,
    command: &RingCommand,
) -> Result<Vec<u8>, RingFault> {
    let mut stream = connect(rt, port)?;
    let answer = exchange(alloc, &mut stream, port, command);
    drop(stream);
    text_of(answer?)
}

/// How a command ends that is refused with this text, which is written.
fn end_refused<E: Write>(text: &[u8], errors: &mut E) -> Finish
    ensures { (result ≡ End.Refused) ⊎ (result ≡ End.Fault Cause.Write) }
{
    if errors.write_all(text).is_ok() {
        Finish::Refused
    } else {
        Finish::Fault(Fault::Write)
    }
}

/// How a command ends by a fault. What the server says of a refusal is written.
pub fn end_by<E: Write>(fault: RingFault, port: u16, errors: &mut E) -> Finish
    ensures { (result ≡ finish_of port fault) ⊎ (result ≡ End.Fault Cause.Write) }
{
    match fault {
        RingFault::Connect(reason) => Finish::Fault(Fault::Connect { port, reason }),
        RingFault::Lost => Finish::Fault(Fault::Lost),
        RingFault::NotUnderstood => Finish::Fault(Fault::Answer),
        RingFault::Memory => Finish::OutOfMemory,
        RingFault::ServerMemory => end_refused(b"refused Memory\n", errors),
        RingFault::Refused(text) => {
            let finish = end_refused(&text, errors);
            drop(text);
            finish
        }
    }
}

/// Writes a text.
fn show<W: Write>(text: &[u8], writer: &mut W) -> Result<(), Finish> {
    writer.write_all(text)?;
    writer.flush()?;
    Ok(())
}

/// Does the command. What the server answers goes to `writer`, or to `errors` if it refuses.
pub fn run_ring<R: Net<Stream = TcpStream> + Clock + Wait, W: Write, E: Write>(
    rt: &R,
    alloc: Global,
    line: &RingLine,
    writer: &mut W,
    errors: &mut E,
) -> Result<Finish, Finish> {
    for turn in 0..line.times {
        if turn > 0 {
            thread::sleep(rt, Duration::from_secs(1));
        }
        let text = match ask(rt, alloc, line.port, &line.command) {
            Ok(text) => text,
            Err(fault) => return Err(end_by(fault, line.port, errors)),
        };
        let shown = show(&text, writer);
        drop(text);
        shown?;
    }
    Ok(Finish::Done)
}
