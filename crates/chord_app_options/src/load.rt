//! The command line of `load`.

use crate::faults::{fault_of, print_fault};
use crate::number::{NumberOption, WrongNumber};
use crate::parts::{with_argument, with_numbers};
use crate::shared::{no_session_option, port_of, port_option, wants_session};
use chord_app_ask::{Drops, Kind, Load, Tokens, UNIQUE_VALUE, Until, run_load};
use chord_app_text::Finish;
use clap::{Arg, ArgMatches, Command};
use std::alloc::{AllocError, Global};
use std::fmt;
use std::io::IsTerminal;
use std::net::{Net, TcpListener, TcpStream};
use std::sync::Wait;
use std::thread::Threads;
use std::time::Clock;

const CONNECTIONS: NumberOption = NumberOption {
    name: "connections",
    value_name: "C",
    least: 1,
    most: 64,
    default: Some("1"),
    help: "How many connections ask at once, 1 to 64",
};

const IN_FLIGHT: NumberOption = NumberOption {
    name: "in-flight",
    value_name: "W",
    least: 1,
    most: 16,
    default: Some("1"),
    help: "How many requests are in flight on each, 1 to 16",
};

const KEYS: NumberOption = NumberOption {
    name: "keys",
    value_name: "K",
    least: 1,
    most: 1_000_000,
    default: Some("1000"),
    help: "How many keys are named in turn, 1 to 1000000",
};

const VALUE_SIZE: NumberOption = NumberOption {
    name: "value-size",
    value_name: "BYTES",
    least: 0,
    most: 4096,
    default: Some("16"),
    help: "How many bytes each value has that is inserted, 0 to 4096",
};

const SECONDS: NumberOption = NumberOption {
    name: "seconds",
    value_name: "S",
    least: 1,
    most: 3600,
    default: Some("10"),
    help: "How long requests are begun, 1 to 3600",
};

const REQUESTS: NumberOption = NumberOption {
    name: "requests",
    value_name: "N",
    least: 1,
    most: 1_000_000_000,
    default: None,
    help: "How many requests are sent in all, in place of seconds, 1 to 1000000000",
};

const DROP: NumberOption = NumberOption {
    name: "drop",
    value_name: "P",
    least: 1,
    most: 1_000_000,
    default: None,
    help: "Cuts each connection behind about P requests and resumes it, 1 to 1000000",
};

const SEED: NumberOption = NumberOption {
    name: "seed",
    value_name: "SEED",
    least: 0,
    most: u64::MAX,
    default: Some("1"),
    help: "With --drop: behind which requests connections are cut, 0 to 18446744073709551615",
};

/// The text printed where connections are cut that have no sessions.
const NO_SESSION: &str =
    "connections that are cut by --drop go on in a session: leave out --no-session";

/// The text printed where values are too short for each to be another one.
const SHORT_VALUES: &str =
    "with --drop each inserted value is another one, so --value-size is 16 at least";

fn kind_option<'a>(alloc: Global) -> Arg<'a> {
    Arg::new(alloc, "kind")
        .long("kind")
        .value_name("KIND")
        .default_value("retrieve")
        .value_parser(["insert", "retrieve"].as_slice())
        .help("What each request does")
}

/// The command `load` and its arguments.
pub fn load_command<'a>(alloc: Global) -> Result<Command<'a>, AllocError> {
    let load = Command::new(alloc, "load")
        .about("Asks a server many requests, and writes how long they took")
        .arg(port_option(alloc));
    let load = with_numbers(alloc, load, &[CONNECTIONS, IN_FLIGHT, KEYS, VALUE_SIZE]);
    let load = with_argument(load, kind_option(alloc));
    let load = with_numbers(alloc, load, &[SECONDS, REQUESTS, DROP, SEED]);
    with_argument(load, no_session_option(alloc))
}

/// What each request does.
fn kind_of(found: &ArgMatches) -> Kind {
    if found.get_str("kind") == Some("insert") {
        Kind::Insert
    } else {
        Kind::Retrieve
    }
}

/// When no more requests are begun. A number of requests comes before seconds.
fn until_of<'a>(found: &ArgMatches<'a>) -> Result<Until, WrongNumber<'a>> {
    let seconds = SECONDS.read(found)?;
    match REQUESTS.read_if_there(found)? {
        Some(count) => Ok(Until::Requests(count)),
        None => Ok(Until::Seconds(seconds)),
    }
}

/// How often connections are cut, if they are.
fn drops_of<'a>(found: &ArgMatches<'a>) -> Result<Option<Drops>, WrongNumber<'a>> {
    let seed = SEED.read(found)?;
    let every = DROP.read_if_there(found)?;
    Ok(every.map(|every| Drops { every, seed }))
}

fn read<'a>(found: &ArgMatches<'a>) -> Result<Load, WrongNumber<'a>> {
    Ok(Load {
        port: port_of(found)?,
        connections: CONNECTIONS.read(found)?,
        in_flight: IN_FLIGHT.read(found)?,
        keys: KEYS.read(found)?,
        value_size: VALUE_SIZE.read(found)? as usize,
        kind: kind_of(found),
        until: until_of(found)?,
        tokens: None,
        drops: drops_of(found)?,
    })
}

/// The fault of a wrong value.
fn wrong<T: fmt::Display>(alloc: Global, message: &T) -> clap::Error {
    fault_of(alloc, load_command(alloc), "chord load", message)
}

/// The load that the command line asks for, without the tokens of sessions, or the fault of a wrong
/// value.
pub fn load_of(alloc: Global, found: &ArgMatches) -> Result<Load, clap::Error> {
    match read(found) {
        Ok(load) if load.drops.is_some() && !wants_session(found) => {
            Err(wrong(alloc, &NO_SESSION))
        }
        Ok(load)
            if load.drops.is_some()
                && load.kind == Kind::Insert
                && load.value_size < UNIQUE_VALUE => { Err(wrong(alloc, &SHORT_VALUES)) }
        Ok(load) => Ok(load),
        Err(number) => Err(wrong(alloc, &number)),
    }
}

/// The load with tokens, if there are to be sessions.
fn with_tokens(rt: &HostRuntime, found: &ArgMatches, load: Load) -> Result<Load, Finish> {
    if !wants_session(found) {
        return Ok(load);
    }
    let tokens = Some(Tokens::new(rt)?);
    Ok(Load { tokens, ..load })
}

/// Does the command `load`. If standard error is a terminal, a line goes there each second.
pub fn start_load<
    T: Threads + Wait + Clock + Net<Listener = TcpListener, Stream = TcpStream> + Sync,
>(rt: &HostRuntime, threads: &T, found: &ArgMatches) -> Result<Finish, Finish> {
    let load = match load_of(rt.alloc(), found) {
        Ok(load) => load,
        Err(fault) => return print_fault(rt, fault),
    };
    let load = with_tokens(rt, found, load)?;
    let errors = rt.stderr();
    let lines = if errors.is_terminal() {
        Some(errors)
    } else {
        None
    };
    run_load(threads, rt.alloc(), load, lines, &mut rt.stdout())
}
