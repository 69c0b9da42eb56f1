//! The command line of `run`.

use crate::shared::plan_option;
use clap::Command;
use std::alloc::{AllocError, Global};

/// The command `run` and its arguments.
pub fn run_command<'a>(alloc: Global) -> Result<Command<'a>, AllocError> {
    Command::new(alloc, "run")
        .about("Runs a ring by a plan, and writes what its callers were answered")
        .arg(plan_option(alloc, "The ring's numbers, nodes and asks, as TOML"))
}
