//! The command line of `ask`.
ghost use Rattle.std.specs.Prelude.{IfOk, IfSome};
ghost use Rattle.chord_map.specs.Checked.{IsRequest};

use crate::faults::{fault_of, print_fault};
use crate::number::{NumberOption, WrongNumber};
use crate::parts::{flag, with_argument, with_numbers};
use crate::shared::{no_session_option, port_of, port_option, wants_session};
use chord_app_ask::{ClientOptions, Tokens, ask_copy, ask_lines, ask_one, read_words};
use chord_app_text::{Finish, WordFault};
use chord_map::Request;
use clap::{Arg, ArgMatches, Command};
use std::alloc::{AllocError, Global};
use std::fmt;
use std::net::{Net, TcpStream};
use std::time::Clock;

/// What `chord ask --help` ends with.
const EXAMPLES: &str =
    "REQUEST is one of\n  insert KEY VALUE\n  retrieve KEY\n  remove KEY VALUE\nA key or value is text as it stands, or hexadecimal digits behind x:, as x:616263.\nBefore a word with a dash in front write --, as in: chord ask --port 7001 -- insert abc -x";

/// The text printed for a request that stands beside `--quiet`.
const NO_REQUEST: &str = "'--quiet' is for requests on standard input";

/// The text printed for a window that version 1 of the protocol has not.
const NO_WINDOW: &str = "in version 1 of the protocol the window is 1";

const WINDOW: NumberOption = NumberOption {
    name: "window",
    value_name: "W",
    least: 1,
    most: 16,
    default: None,
    help: "How many requests are sent before their answers are read, 1 to 16. Without it 1, or 16 with --quiet",
};

const PROTOCOL: NumberOption = NumberOption {
    name: "protocol",
    value_name: "VERSION",
    least: 1,
    most: 2,
    default: Some("2"),
    help: "The version of the protocol, 1 or 2. In version 1 the window is 1, without a session",
};

const TRIES: NumberOption = NumberOption {
    name: "tries",
    value_name: "T",
    least: 1,
    most: 1000,
    default: Some("3"),
    help: "How often a request is sent at most, 1 to 1000",
};

fn words_argument<'a>(alloc: Global) -> Arg<'a> {
    Arg::new(alloc, "request")
        .value_name("REQUEST")
        .num_args(0..)
        .allow_negative_numbers(true)
        .help("One request. Without it they are read from standard input, one a line")
}

/// The command `ask` and its arguments.
pub fn ask_command<'a>(alloc: Global) -> Result<Command<'a>, AllocError> {
    let ask = Command::new(alloc, "ask")
        .about("Asks a server, and writes one line for each request")
        .after_help(EXAMPLES)
        .arg(port_option(alloc));
    let ask = with_numbers(alloc, ask, &[WINDOW, PROTOCOL, TRIES]);
    let ask = with_argument(ask, no_session_option(alloc));
    let quiet = flag(
        alloc,
        "quiet",
        "Asks what a copy of pairs has, writes how many requests there were, and ends at the first that is not done",
    );
    let ask = with_argument(ask, quiet);
    with_argument(ask, words_argument(alloc))
}

/// Whether a copy is asked.
fn is_quiet(found: &ArgMatches) -> bool {
    found.get_flag("quiet")
}

/// How many requests are in flight at most.
fn window_of<'a>(found: &ArgMatches<'a>, version: u8) -> Result<u64, WrongNumber<'a>> {
    let window = WINDOW.read_if_there(found)?;
    Ok(window.unwrap_or(if is_quiet(found) && version == 2 {
        16
    } else {
        1
    }))
}

fn read<'a>(found: &ArgMatches<'a>) -> Result<ClientOptions, WrongNumber<'a>> {
    let port = port_of(found)?;
    let version = PROTOCOL.read(found)? as u8;
    Ok(ClientOptions {
        port,
        version,
        window: window_of(found, version)?,
        tries: TRIES.read(found)? as u32,
        tokens: None,
    })
}

/// The fault of a wrong value.
fn wrong<T: fmt::Display>(alloc: Global, message: &T) -> clap::Error {
    fault_of(alloc, ask_command(alloc), "chord ask", message)
}

/// What the command line says of the server and of how to ask it, without the tokens of sessions,
/// or the fault of a wrong value.
pub fn client_options_of(alloc: Global, found: &ArgMatches) -> Result<ClientOptions, clap::Error> {
    match read(found) {
        Ok(options) if options.version == 1 && options.window != 1 => {
            Err(wrong(alloc, &NO_WINDOW))
        }
        Ok(options) => Ok(options),
        Err(number) => Err(wrong(alloc, &number)),
    }
}

/// The request on the command line, if there is one, or the fault of its first wrong word.
pub fn request_of(alloc: Global, found: &ArgMatches) -> Result<Option<Request>, clap::Error>
    ensures { IfOk result (λ request. IfSome request IsRequest) }
{
    let words = match found.get_strs("request") {
        Some(words) if !words.is_empty() => words,
        _ => return Ok(None),
    };
    if is_quiet(found) {
        return Err(wrong(alloc, &NO_REQUEST));
    }
    match read_words(alloc, words) {
        Ok(request) => Ok(Some(request)),
        Err(WordFault::OutOfMemory) => Err(clap::Error::from(AllocError)),
        Err(why) => Err(wrong(alloc, &why)),
    }
}

/// The options with tokens, if there are to be sessions, which are of version 2.
fn with_tokens(
    rt: &HostRuntime,
    found: &ArgMatches,
    client_options: ClientOptions,
) -> Result<ClientOptions, Finish> {
    if client_options.version != 2 || !wants_session(found) {
        return Ok(client_options);
    }
    let tokens = Some(Tokens::new(rt)?);
    Ok(ClientOptions {
        tokens,
        ..client_options
    })
}

/// Asks what the copy on standard input has.
pub fn start_copy<R: Net<Stream = TcpStream> + Clock>(
    rt: &HostRuntime,
    net: &R,
    client_options: ClientOptions,
) -> Result<Finish, Finish> {
    let alloc = rt.alloc();
    ask_copy(
        net,
        alloc,
        client_options,
        &mut rt.stdin(),
        &mut rt.stdout(),
    )
}

/// How a copy is asked of the server at this port: in a session, with 16 requests in flight.
pub fn copy_options(rt: &HostRuntime, port: u16) -> Result<ClientOptions, Finish> {
    Ok(ClientOptions {
        port,
        version: 2,
        window: 16,
        tries: 3,
        tokens: Some(Tokens::new(rt)?),
    })
}

/// Does the command `ask`.
pub fn start_ask<R: Net<Stream = TcpStream> + Clock>(
    rt: &HostRuntime,
    net: &R,
    found: &ArgMatches,
) -> Result<Finish, Finish> {
    let alloc = rt.alloc();
    let client_options = match client_options_of(alloc, found) {
        Ok(client_options) => client_options,
        Err(fault) => return print_fault(rt, fault),
    };
    let client_options = with_tokens(rt, found, client_options)?;
    let mut writer = rt.stdout();
    match request_of(alloc, found) {
        Ok(Some(request)) => ask_one(net, alloc, client_options, request, &mut writer),
        Ok(None) if is_quiet(found) => start_copy(rt, net, client_options),
        Ok(None) => ask_lines(net, alloc, client_options, &mut rt.stdin(), &mut writer),
        Err(fault) => print_fault(rt, fault),
    }
}
