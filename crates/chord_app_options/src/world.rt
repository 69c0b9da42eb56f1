//! The command line of `world`.
ghost use Rattle.std.specs.Prelude.{◌↔◌, IfOk, IsTrue};
ghost use Rattle.chord_app_options.specs.Words.{NameStores};

use crate::faults::fault_of;
use clap::{Arg, ArgMatches, Command};
use std::alloc::{AllocError, Global};
use std::fmt;

/// The stores of nodes if the command line names none.
const DEFAULT_STORES: &str = "tltltltl";

/// How many stores may be named at most.
const STORE_LIMIT: usize = 64;

/// What `chord world --help` ends with.
const FIRST_LINES: &str =
    "docs/console.md has all lines. To begin with:\n  create 40000000000000000000000000000000\n  caller\n  insert 0 0 616263 78";

/// The option for the stores of a world.
fn stores_option<'a>(alloc: Global) -> Arg<'a> {
    Arg::new(alloc, "stores")
        .long("stores")
        .value_name("WORD")
        .default_value(DEFAULT_STORES)
        .help("The nodes' stores in their order: t tree, l list, n noted, c capped at one pair")
}

/// The command `world` and its arguments.
pub fn world_command<'a>(alloc: Global) -> Result<Command<'a>, AllocError> {
    Command::new(alloc, "world")
        .about("Does the steps on standard input, one line out for each line in")
        .after_help(FIRST_LINES)
        .arg(stores_option(alloc))
}

/// Whether the word names 1 to 64 stores, one letter each.
pub fn names_stores(word: &str) -> bool
    ensures { IsTrue result ↔ NameStores word.now }
{
    let count = word.len();
    0 < count
        && count <= STORE_LIMIT
        && word
            .bytes()
            .all(|letter| matches!(letter, b't' | b'l' | b'n' | b'c'))
}

/// A word that names no stores.
#[derive(Clone, Copy)]
struct NoStores<'a> {
    word: &'a str,
}

impl fmt::Display for NoStores<'_> {
    fn fmt<W: fmt::Write>(&self, f: &mut fmt::Formatter<W>) -> fmt::Result {
        let word = self.word;
        write!(f, "invalid value '{word}' for '--stores <WORD>': ")?;
        f.write_str("1 to 64 of the letters t, l, n and c")
    }
}

/// The letters of the stores that the command line names.
pub fn stores_of<'a>(alloc: Global, found: &ArgMatches<'a>) -> Result<&'a str, clap::Error>
    ensures { IfOk result (λ word. NameStores word.now) }
{
    let word = found.get_str("stores").unwrap_or(DEFAULT_STORES);
    if names_stores(word) {
        return Ok(word);
    }
    let fault = NoStores { word };
    Err(fault_of(alloc, world_command(alloc), "chord world", &fault))
}
