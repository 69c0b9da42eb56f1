//! Commands put together from their parts.

use crate::number::NumberOption;
use clap::{Arg, ArgAction, ArgGroup, Command};
use std::alloc::{AllocError, Global};

/// Both results, or the fault of the first that failed.
fn both<A: Drop, B: Drop>(
    a: Result<A, AllocError>,
    b: Result<B, AllocError>,
) -> Result<(A, B), AllocError> {
    Ok((a?, b?))
}

/// A command with a subcommand added.
pub fn with_command<'a>(
    command: Result<Command<'a>, AllocError>,
    below: Result<Command<'a>, AllocError>,
) -> Result<Command<'a>, AllocError> {
    let (command, below) = both(command, below)?;
    command.subcommand(below)
}

/// A command with an argument added.
pub fn with_argument<'a>(
    command: Result<Command<'a>, AllocError>,
    argument: Arg<'a>,
) -> Result<Command<'a>, AllocError> {
    match command {
        Ok(command) => command.arg(argument),
        Err(refused) => {
            drop(argument);
            Err(refused)
        }
    }
}

/// A command with options for numbers added, in this order.
pub fn with_numbers<'a>(
    alloc: Global,
    command: Result<Command<'a>, AllocError>,
    options: &[NumberOption],
) -> Result<Command<'a>, AllocError> {
    let mut command = command;
    for option in options {
        command = with_argument(command, option.argument(alloc));
    }
    command
}

/// An option without a value.
pub fn flag<'a>(alloc: Global, name: &'a str, help: &'a str) -> Arg<'a> {
    Arg::new(alloc, name)
        .long(name)
        .action(ArgAction::SetTrue)
        .help(help)
}

/// A command with an argument added that is itself put together.
pub fn with_made_argument<'a>(
    command: Result<Command<'a>, AllocError>,
    argument: Result<Arg<'a>, AllocError>,
) -> Result<Command<'a>, AllocError> {
    let (command, argument) = both(command, argument)?;
    command.arg(argument)
}

/// A command with a group of arguments added.
pub fn with_group<'a>(
    command: Result<Command<'a>, AllocError>,
    group: Result<ArgGroup<'a>, AllocError>,
) -> Result<Command<'a>, AllocError> {
    let (command, group) = both(command, group)?;
    command.group(group)
}
