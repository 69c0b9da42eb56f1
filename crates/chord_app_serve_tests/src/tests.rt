//! Tests, by what they look at.

mod commands;
mod no_memory;
mod plan_runs;
mod process;
mod servers;
mod sessions;
mod upkeep;
