//! The program with all its commands.

use crate::ask::ask_command;
use crate::load::load_command;
use crate::parts::with_command;
use crate::ring::ring_command;
use crate::run::run_command;
use crate::serve::serve_command;
use crate::world::world_command;
use clap::Command;
use std::alloc::{AllocError, Global};

/// The program and its version, without commands.
fn program<'a>(alloc: Global) -> Result<Command<'a>, AllocError> {
    let chord = Command::new(alloc, "chord").bin_name("chord")?;
    Ok(
        chord
            .version("0.1.0")
            .about("A Chord key store")
            .subcommand_required(true),
    )
}

/// The commands of `chord` and their arguments.
pub fn commands<'a>(alloc: Global) -> Result<Command<'a>, AllocError> {
    let chord = with_command(program(alloc), world_command(alloc));
    let chord = with_command(chord, run_command(alloc));
    let chord = with_command(chord, serve_command(alloc));
    let chord = with_command(chord, ask_command(alloc));
    let chord = with_command(chord, load_command(alloc));
    with_command(chord, ring_command(alloc))
}
