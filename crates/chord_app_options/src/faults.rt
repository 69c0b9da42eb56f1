//! Faults of command lines, and how they are printed.
ghost use Rattle.std.specs.Prelude.{◌≡◌, IfOk, Err};
ghost use Rattle.clap.specs.Values.{kind_of};
ghost use Rattle.clap.specs.declared.error.kind.ErrorKind.TheVariants as kind;
ghost use Rattle.chord_app_text.specs.declared.finish.Finish.TheVariants as End;
ghost use Rattle.chord_app_options.specs.Ends.{AsksForHelp, IsMistake};

use chord_app_text::Finish;
use clap::Command;
use clap::error::ErrorKind;
use std::alloc::{AllocError, Global};
use std::fmt;
use std::io::Write;

/// The fault of a wrong value, with the usage of the command with this whole name.
pub fn fault_of<T: fmt::Display>(
    alloc: Global,
    command: Result<Command<'_>, AllocError>,
    name: &str,
    message: &T,
) -> clap::Error {
    match message.to_string(alloc) {
        Ok(text) => {
            let fault = fault_with(command, name, text.as_str());
            drop(text);
            fault
        }
        Err(refused) => {
            drop(command);
            clap::Error::from(refused)
        }
    }
}

/// The fault with this text, or that of memory.
fn fault_with(command: Result<Command<'_>, AllocError>, name: &str, text: &str) -> clap::Error {
    match invalid_value(command, name, text) {
        Ok(fault) => fault,
        Err(refused) => clap::Error::from(refused),
    }
}

fn invalid_value(
    command: Result<Command<'_>, AllocError>,
    name: &str,
    text: &str,
) -> Result<clap::Error, AllocError> {
    let mut command = command?.bin_name(name)?;
    let fault = command.error(ErrorKind::InvalidValue, text);
    drop(command);
    fault
}

/// Prints a fault of the command line to standard error, or help to standard output.
pub fn print_fault(rt: &HostRuntime, fault: clap::Error) -> Result<Finish, Finish> {
    let finish = write_fault(&fault, &mut rt.stdout(), &mut rt.stderr());
    drop(fault);
    finish
}

/// Writes help or the version to `output`, and a fault of the command line to `errors`. Memory that
/// was refused is not written: the command ends by it.
pub fn write_fault<O: Write, E: Write>(
    fault: &clap::Error,
    output: &mut O,
    errors: &mut E,
) -> Result<Finish, Finish>
    ensures help { AsksForHelp (kind_of fault.now) → (errors.new ≡ errors.old) × IfOk result (λ finish. finish ≡ End.Done) }
    ensures mistake { IsMistake (kind_of fault.now) → (output.new ≡ output.old) × IfOk result (λ finish. finish ≡ End.BadCommandLine) }
    ensures memory { kind_of fault.now ≡ kind.OutOfMemory → (errors.new ≡ errors.old) × (result ≡ Err End.OutOfMemory) }
{
    if fault.kind() == ErrorKind::OutOfMemory {
        return Err(Finish::OutOfMemory);
    }
    if fault.use_stderr() {
        write_text(fault, errors)?;
        Ok(Finish::BadCommandLine)
    } else {
        write_text(fault, output)?;
        Ok(Finish::Done)
    }
}

fn write_text<W: Write>(fault: &clap::Error, writer: &mut W) -> Result<(), Finish> {
    write!(writer, "{fault}")?;
    writer.flush()?;
    Ok(())
}
