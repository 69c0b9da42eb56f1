//! The options that several commands have.

use crate::number::{NumberOption, WrongNumber, small_number};
use crate::parts::flag;
use clap::{Arg, ArgMatches};
use std::alloc::Global;

/// The option for the port at which a server is asked.
pub const PORT: NumberOption = NumberOption {
    name: "port",
    value_name: "N",
    least: 1,
    most: 65_535,
    default: None,
    help: "The port on 127.0.0.1, 1 to 65535",
};

/// The option for the port at which a server is asked, which a command line has to have.
pub fn port_option<'a>(alloc: Global) -> Arg<'a> {
    PORT.argument(alloc).required(true)
}

/// The port on a command line of a client.
pub fn port_of<'a>(found: &ArgMatches<'a>) -> Result<u16, WrongNumber<'a>> {
    let word = PORT.word(found).unwrap_or("");
    match small_number(word) {
        Some(port) => Ok(port),
        None => Err(PORT.wrong(word)),
    }
}

/// The option of a client that wants no session.
pub fn no_session_option<'a>(alloc: Global) -> Arg<'a> {
    flag(
        alloc,
        "no-session",
        "Asks without a session: a connection that is lost does not go on over another one",
    )
}

/// Whether the command line of a client leaves it its session.
pub fn wants_session(found: &ArgMatches) -> bool {
    !found.get_flag("no-session")
}

/// The option for the file of a plan, which a command line has to have.
pub fn plan_option<'a>(alloc: Global, help: &'a str) -> Arg<'a> {
    Arg::new(alloc, "plan")
        .long("plan")
        .value_name("FILE")
        .required(true)
        .help(help)
}

/// The path of the plan on a command line of `run` or `serve`.
pub fn plan_path_of<'a>(found: &ArgMatches<'a>) -> &'a str {
    found.get_str("plan").unwrap_or("")
}
