//! The command line of `ring`.

use crate::ask::{copy_options, start_copy};
use crate::faults::{fault_of, print_fault};
use crate::number::{NumberOption, WrongNumber, number_from, small_number};
use crate::parts::{flag, with_argument, with_command, with_numbers};
use crate::shared;
use chord_app_operator::{CrashRequest, JoinRequest, Rows, StoreKind};
use chord_app_ring::{RingCommand, RingLine, RingTask, run_dump, run_ring};
use chord_app_text::Finish;
use chord_ident::Id;
use clap::{Arg, ArgMatches, Command};
use std::alloc::{AllocError, Global};
use std::fmt;
use std::net::{Net, TcpStream};
use std::sync::Wait;
use std::time::Clock;

const OPERATOR: NumberOption = NumberOption {
    name: "operator",
    value_name: "PORT",
    least: 1,
    most: 65_535,
    default: None,
    help: "The operator's port of the server on 127.0.0.1, 1 to 65535: for all but restore",
};

const PORT: NumberOption = NumberOption {
    help: "The port for clients of the server on 127.0.0.1, 1 to 65535: for restore alone",
    ..shared::PORT
};

/// What `chord ring dump --help` ends with.
const DUMP_NOTE: &str =
    "Each pair is a line that chord ask reads: insert x:KEY x:VALUE, in hexadecimal digits. The last line is # pairs N.\nA copy made while clients write is of many moments: what they add or remove meanwhile may be in it or not.";

/// What `chord ring restore --help` ends with.
const RESTORE_NOTE: &str =
    "It is chord ask --quiet. Pairs that are there already stay, so it may be done again.";

const TIMES: NumberOption = NumberOption {
    name: "times",
    value_name: "N",
    least: 1,
    most: 1_000_000_000,
    default: None,
    help: "How often the ring is shown, a second apart, 1 to 1000000000",
};

const LIMIT: NumberOption = NumberOption {
    name: "limit",
    value_name: "N",
    least: 0,
    most: u64::MAX,
    default: None,
    help: "How many pairs a capped store may hold",
};

const VIA: NumberOption = NumberOption {
    name: "via",
    value_name: "NODE",
    least: 0,
    most: u64::MAX,
    default: None,
    help: "The node to join by. Without it the server picks it",
};

/// What is wrong with a value of `ring`.
#[derive(Clone, Copy)]
enum RingWrong<'a> {
    Number(WrongNumber<'a>),
    /// The word is no identifier.
    Id(&'a str),
    /// The word is no number of a node.
    Node(&'a str),
    /// A limit stands beside a store that has none.
    Limit,
    /// What only the table has stands beside another command.
    Table,
    /// The port is missing, or it is not of the kind that the command has.
    Port,
}

impl fmt::Display for RingWrong<'_> {
    fn fmt<W: fmt::Write>(&self, f: &mut fmt::Formatter<W>) -> fmt::Result {
        match self {
            RingWrong::Number(number) => write!(f, "{number}"),
            RingWrong::Id(word) => {
                write!(
                    f,
                    "invalid value '{word}' for '[ID]': 32 hexadecimal digits"
                )
            }
            RingWrong::Node(word) => {
                write!(
                    f,
                    "invalid value '{word}' for '<NODE>': the number of a node"
                )
            }
            RingWrong::Limit => f.write_str("'--limit <N>' is only for '--store capped'"),
            RingWrong::Table => {
                f.write_str("'--watch', '--times <N>' and '--all' are only for the table")
            }
            RingWrong::Port => {
                f.write_str("restore has '--port <N>', and all else has '--operator <PORT>'")
            }
        }
    }
}

impl<'a> From<WrongNumber<'a>> for RingWrong<'a> {
    fn from(number: WrongNumber<'a>) -> RingWrong<'a> {
        RingWrong::Number(number)
    }
}

fn node_argument<'a>(alloc: Global) -> Arg<'a> {
    Arg::new(alloc, "node")
        .value_name("NODE")
        .required(true)
        .help("The number of the node")
}

fn store_option<'a>(alloc: Global) -> Arg<'a> {
    Arg::new(alloc, "store")
        .long("store")
        .value_name("KIND")
        .default_value("tree")
        .value_parser(["tree", "list", "capped"].as_slice())
        .help("How the node keeps its pairs")
}

fn join_command<'a>(alloc: Global) -> Result<Command<'a>, AllocError> {
    let id = Arg::new(alloc, "id").value_name("ID").help(
        "Its identifier, 32 hexadecimal digits. Without it the server picks it",
    );
    let join = Command::new(alloc, "join").about("A node joins").arg(id);
    let join = with_argument(join, store_option(alloc));
    with_numbers(alloc, join, &[LIMIT, VIA])
}

fn leave_command<'a>(alloc: Global) -> Result<Command<'a>, AllocError> {
    Command::new(alloc, "leave")
        .about("A node begins to leave: it gives away what it holds")
        .arg(node_argument(alloc))
}

fn crash_command<'a>(alloc: Global) -> Result<Command<'a>, AllocError> {
    let force = flag(
        alloc,
        "force",
        "Also where the ring would not stand without it",
    );
    let crash = Command::new(alloc, "crash")
        .about("A node crashes, with what it holds")
        .arg(node_argument(alloc));
    with_argument(crash, force)
}

fn rescue_command<'a>(alloc: Global) -> Result<Command<'a>, AllocError> {
    Command::new(alloc, "rescue")
        .about("A node that crashed is rescued: one that stays takes over what it held")
        .arg(node_argument(alloc))
}

fn dump_command<'a>(alloc: Global) -> Command<'a> {
    Command::new(alloc, "dump")
        .about("Writes all pairs, in the order of their identifiers")
        .after_help(DUMP_NOTE)
}

fn restore_command<'a>(alloc: Global) -> Command<'a> {
    Command::new(alloc, "restore")
        .about("Inserts the pairs of a copy on standard input")
        .after_help(RESTORE_NOTE)
}

/// The command `ring`, its arguments, and the commands below it.
pub fn ring_command<'a>(alloc: Global) -> Result<Command<'a>, AllocError> {
    let watch = flag(
        alloc,
        "watch",
        "Shows the ring each second until the server is gone",
    );
    let all = flag(
        alloc,
        "all",
        "Shows nodes that are gone too, as long as nobody needs their slots",
    );
    let ring = Command::new(alloc, "ring")
        .about("Shows the ring of a server to its operator, or changes it")
        .arg(OPERATOR.argument(alloc));
    let ring = with_argument(ring, PORT.argument(alloc));
    let ring = with_argument(ring, watch);
    let ring = with_argument(ring, all);
    let ring = with_argument(ring, TIMES.argument(alloc));
    let ring = with_command(ring, join_command(alloc));
    let ring = with_command(ring, leave_command(alloc));
    let ring = with_command(ring, crash_command(alloc));
    let ring = with_command(ring, rescue_command(alloc));
    let ring = with_command(ring, Ok(dump_command(alloc)));
    let ring = with_command(ring, Ok(restore_command(alloc)));
    let stop = Command::new(alloc, "stop").about("The server ends");
    with_command(ring, Ok(stop))
}

fn id_of<'a>(found: &ArgMatches<'a>) -> Result<Option<Id>, RingWrong<'a>> {
    let Some(word) = found.get_str("id") else {
        return Ok(None);
    };
    match Id::of_hex(word) {
        Ok(id) => Ok(Some(id)),
        Err(_) => Err(RingWrong::Id(word)),
    }
}

fn join_of<'a>(found: &ArgMatches<'a>) -> Result<JoinRequest, RingWrong<'a>> {
    let word = found.get_str("store").unwrap_or("tree");
    let store = StoreKind::of_word(word).unwrap_or(StoreKind::Tree);
    let limit = LIMIT.read_if_there(found)?;
    if limit.is_some() && store != StoreKind::Capped {
        return Err(RingWrong::Limit);
    }
    Ok(JoinRequest {
        id: id_of(found)?,
        store,
        limit,
        via: VIA.read_if_there(found)?,
    })
}

/// The largest number that the path of a request may have.
const MOST_NODE: u64 = 9_999_999_999_999_999_999;

fn node_of<'a>(found: &ArgMatches<'a>) -> Result<u64, RingWrong<'a>> {
    let word = found.get_str("node").unwrap_or("");
    match number_from(word, 0, MOST_NODE) {
        Some(node) => Ok(node),
        None => Err(RingWrong::Node(word)),
    }
}

/// What is asked for. `clap` refuses other names.
fn command_of<'a>(found: &ArgMatches<'a>) -> Result<RingCommand, RingWrong<'a>> {
    match found.subcommand() {
        Some(("join", below)) => Ok(RingCommand::Join(join_of(below)?)),
        Some(("leave", below)) => Ok(RingCommand::Leave(node_of(below)?)),
        Some(("crash", below)) => Ok(RingCommand::Crash(CrashRequest {
            node: node_of(below)?,
            is_forced: below.get_flag("force"),
        })),
        Some(("rescue", below)) => Ok(RingCommand::Rescue(node_of(below)?)),
        Some(("stop", _)) => Ok(RingCommand::Stop),
        _ => Ok(RingCommand::Show(rows_of(found))),
    }
}

/// Which nodes the table shows.
fn rows_of(found: &ArgMatches) -> Rows {
    if found.get_flag("all") {
        Rows::All
    } else {
        Rows::Present
    }
}

/// Whether the line says how the table is shown.
fn is_for_table(found: &ArgMatches) -> bool {
    found.get_flag("watch") || found.get_flag("all") || TIMES.word(found).is_some()
}

/// How often the ring is shown.
fn times_of<'a>(found: &ArgMatches<'a>) -> Result<u64, RingWrong<'a>> {
    let times = TIMES.read_if_there(found)?;
    let is_watched = found.get_flag("watch");
    Ok(times.unwrap_or(if is_watched { u64::MAX } else { 1 }))
}

/// The port of this option, where the other one is absent.
fn port_of<'a>(
    found: &ArgMatches<'a>,
    option: NumberOption,
    other: NumberOption,
) -> Result<u16, RingWrong<'a>> {
    let word = match (option.word(found), other.word(found)) {
        (Some(word), None) => word,
        _ => return Err(RingWrong::Port),
    };
    match small_number(word) {
        Some(port) => Ok(port),
        None => Err(RingWrong::Number(option.wrong(word))),
    }
}

fn ask_of<'a>(found: &ArgMatches<'a>) -> Result<RingTask, RingWrong<'a>> {
    let port = port_of(found, OPERATOR, PORT)?;
    let command = command_of(found)?;
    if !matches!(&command, RingCommand::Show(_)) && is_for_table(found) {
        return Err(RingWrong::Table);
    }
    Ok(RingTask::Ask(RingLine {
        port,
        times: times_of(found)?,
        command,
    }))
}

fn read<'a>(found: &ArgMatches<'a>) -> Result<RingTask, RingWrong<'a>> {
    let task = match found.subcommand() {
        Some(("dump", _)) => RingTask::Dump(port_of(found, OPERATOR, PORT)?),
        Some(("restore", _)) => RingTask::Restore(port_of(found, PORT, OPERATOR)?),
        _ => return ask_of(found),
    };
    if is_for_table(found) {
        return Err(RingWrong::Table);
    }
    Ok(task)
}

/// What the command line asks for, or the fault of a wrong value.
pub fn ring_task_of(alloc: Global, found: &ArgMatches) -> Result<RingTask, clap::Error> {
    match read(found) {
        Ok(task) => Ok(task),
        Err(wrong) => Err(fault_of(alloc, ring_command(alloc), "chord ring", &wrong)),
    }
}

/// Does the command `ring`.
pub fn start_ring<R: Net<Stream = TcpStream> + Clock + Wait>(
    rt: &HostRuntime,
    net: &R,
    found: &ArgMatches,
) -> Result<Finish, Finish> {
    let alloc = rt.alloc();
    let task = match ring_task_of(alloc, found) {
        Ok(task) => task,
        Err(fault) => return print_fault(rt, fault),
    };
    let mut writer = rt.stdout();
    match task {
        RingTask::Ask(line) => run_ring(net, alloc, &line, &mut writer, &mut rt.stderr()),
        RingTask::Dump(port) => run_dump(net, alloc, port, &mut writer, &mut rt.stderr()),
        RingTask::Restore(port) => start_copy(rt, net, copy_options(rt, port)?),
    }
}
