//! The command line of `serve`.
ghost use Rattle.std.specs.Prelude.{IfOk, IfSome};
ghost use Rattle.chord_app_options.specs.Words.{IsSource, IsWithin};

use crate::faults::fault_of;
use crate::number::{NumberOption, WrongNumber};
use crate::parts::{flag, with_argument, with_group, with_made_argument, with_numbers};
use crate::shared::plan_option;
use chord_app_journal::SyncRule;
use clap::{Arg, ArgGroup, ArgMatches, Command};
use std::alloc::{AllocError, Global};

const PORT: NumberOption = NumberOption {
    name: "port",
    value_name: "N",
    least: 0,
    most: 65_535,
    default: None,
    help: "The port on 127.0.0.1, 1 to 65535, or 0 for one that the system picks",
};

const REDIS: NumberOption = NumberOption {
    name: "redis",
    help: "The port for Redis's clients, as --port",
    ..PORT
};

const NODES: NumberOption = NumberOption {
    name: "nodes",
    value_name: "N",
    least: 1,
    most: 64,
    default: None,
    help: "Without a plan: how many nodes divide the circle evenly, 1 to 64, else 1",
};

const CONNECTIONS: NumberOption = NumberOption {
    name: "connections",
    value_name: "K",
    least: 1,
    most: 65_535,
    default: None,
    help: "How many connections are served, 1 to 65535; else it stays",
};

/// For how many seconds a client may be idle if the command line does not say.
const IDLE_SECONDS: u64 = 300;

/// For how many seconds a session without a connection is kept if the command line does not say.
const KEEP_SECONDS: u64 = 600;

const IDLE: NumberOption = NumberOption {
    name: "idle",
    value_name: "SECONDS",
    least: 1,
    most: 86_400,
    default: None,
    help: "If it stays: how long a client may be idle, 1 to 86400, else 300",
};

const KEEP: NumberOption = NumberOption {
    name: "keep",
    least: 0,
    help: "If it stays: how long a session without a connection is kept, 0 to 86400, else 600",
    ..IDLE
};

const OPERATOR: NumberOption = NumberOption {
    name: "operator",
    help: "If it stays: an operator's port on 127.0.0.1, 1 to 65535, or 0 for any that is free",
    ..PORT
};

const SLOTS: NumberOption = NumberOption {
    name: "slots",
    value_name: "N",
    least: 1,
    most: 4_096,
    default: None,
    help: "If it stays: how many nodes there may be at once, 1 to 4096, else the plan's",
};

const CALLERS: NumberOption = NumberOption {
    name: "callers",
    most: 16_384,
    help: "If it stays: how many callers there may be, 1 to 16384, else the plan's",
    ..SLOTS
};

/// How many megabytes connections may hold if the command line does not say.
const BUFFER_MEGABYTES: u64 = 256;

/// How many bytes a megabyte has.
const MEGABYTE: u64 = 1_048_576;

const BUFFERS: NumberOption = NumberOption {
    name: "buffers",
    value_name: "MB",
    most: 65_536,
    help: "If it stays: how many megabytes all connections may hold, 1 to 65536, else 256",
    ..SLOTS
};

/// How many callers there may be if neither the command line nor a plan says: enough for many
/// clients, and few enough that most systems let the process have as many files.
const CALLERS_WITHOUT_PLAN: usize = 512;

/// The help of `--journal`.
const JOURNAL: &str = "If it stays: the file that keeps all changes, loaded at the start";

/// The words of `--sync`.
const SYNC_WORDS: &[&str] = &["always", "second", "never"];

/// The help of `--sync`.
const SYNC: &str = "When the journal is brought to the disk, else second";

/// The help of `--stay`.
const STAY: &str = "Serves until it is stopped, as without --connections";

/// The help of `--until-input-ends`.
const UNTIL_INPUT_ENDS: &str =
    "Serves until standard input ends, as where that is a terminal, or until it is stopped";

/// The help of `--notes`.
const NOTES: &str = "Notes on standard error how each connection ends, as it ends";

/// A command with options added, in this order, that only a server that stays has.
fn with_staying<'a>(
    alloc: Global,
    command: Result<Command<'a>, AllocError>,
    options: &[NumberOption],
) -> Result<Command<'a>, AllocError> {
    let mut command = command;
    for option in options {
        let staying = option.argument(alloc).conflicts_with("connections");
        command = with_made_argument(command, staying);
    }
    command
}

/// Where to listen: at least one of the two options.
fn ports_group<'a>(alloc: Global) -> Result<ArgGroup<'a>, AllocError> {
    let ports = ArgGroup::new(alloc, "ports").arg("port")?.arg("redis")?;
    Ok(ports.required(true).multiple(true))
}

/// Where the nodes come from: at most one of the two options.
fn nodes_group<'a>(alloc: Global) -> Result<ArgGroup<'a>, AllocError> {
    ArgGroup::new(alloc, "ring").arg("plan")?.arg("nodes")
}

/// For how long to serve: at most one of the two options.
fn until_group<'a>(alloc: Global) -> Result<ArgGroup<'a>, AllocError> {
    ArgGroup::new(alloc, "until")
        .arg("connections")?
        .arg("stay")
}

/// The option for the file of a journal.
fn journal_option<'a>(alloc: Global) -> Result<Arg<'a>, AllocError> {
    Arg::new(alloc, "journal")
        .long("journal")
        .value_name("FILE")
        .help(JOURNAL)
        .conflicts_with("connections")
}

/// The option for when a journal is synced.
fn sync_option<'a>(alloc: Global) -> Arg<'a> {
    Arg::new(alloc, "sync")
        .long("sync")
        .value_name("WHEN")
        .value_parser(SYNC_WORDS)
        .help(SYNC)
}

/// The command `serve` and its arguments.
pub fn serve_command<'a>(alloc: Global) -> Result<Command<'a>, AllocError> {
    let serve = Command::new(alloc, "serve")
        .about("Serves clients over loopback, and writes how each connection ended")
        .arg(plan_option(alloc, "The ring's numbers and nodes, as TOML").required(false));
    let serve = with_numbers(alloc, serve, &[NODES, PORT, REDIS, CONNECTIONS]);
    let serve = with_argument(serve, flag(alloc, "stay", STAY));
    let until = flag(alloc, "until-input-ends", UNTIL_INPUT_ENDS);
    let serve = with_made_argument(serve, until.conflicts_with("connections"));
    let serve = with_argument(serve, flag(alloc, "notes", NOTES));
    let serve = with_staying(
        alloc,
        serve,
        &[IDLE, KEEP, OPERATOR, SLOTS, CALLERS, BUFFERS],
    );
    let serve = with_made_argument(serve, journal_option(alloc));
    let serve = with_argument(serve, sync_option(alloc));
    let serve = with_group(serve, ports_group(alloc));
    let serve = with_group(serve, nodes_group(alloc));
    with_group(serve, until_group(alloc))
}

/// Where the nodes of a server come from.
#[derive(Clone, Copy, Debug, PartialEq, Eq)]
pub enum RingSource<'a> {
    /// The plan at this path.
    Plan(&'a str),
    /// There is no plan: this many nodes divide the circle evenly.
    Even(usize),
}

/// What a command line of `serve` says.
#[derive(Clone, Copy, Debug)]
pub struct ServeLine<'a> {
    pub ring: RingSource<'a>,
    /// The port for clients that speak in frames.
    pub port: Option<u16>,
    /// The port for Redis's clients. At least one of the two is there.
    pub redis: Option<u16>,
    /// How many connections are served; with none, the server stays until it is stopped.
    pub connections: Option<usize>,
    /// Whether a server that stays ends with its input, whatever that is.
    pub ends_with_input: bool,
    /// For how many seconds a client may be idle if the server stays.
    pub idle: u64,
    /// For how many seconds a session without a connection is kept if the server stays.
    pub keep: u64,
    /// The port at which operators are served, if the server stays and has one.
    pub operator: Option<u16>,
    /// How many nodes there may be at once, where the command line says so in place of the plan.
    pub slots: Option<usize>,
    /// How many callers there may be, where this is not left to a plan.
    pub callers: Option<usize>,
    /// How many bytes all connections may hold if the server stays, of requests that are not
    /// answered and of answers that are not written.
    pub buffers: u64,
    /// Whether each connection's end is noted on standard error.
    pub notes: bool,
    /// The path of the journal, if there is one.
    pub journal: Option<&'a str>,
    /// When it is brought to the disk.
    pub sync: SyncRule,
}

/// A port, if the command line has it.
fn port_at<'a>(
    option: NumberOption,
    found: &ArgMatches<'a>,
) -> Result<Option<u16>, WrongNumber<'a>> {
    let Some(port) = option.read_if_there(found)? else {
        return Ok(None);
    };
    match u16::try_from(port) {
        Ok(port) => Ok(Some(port)),
        Err(_) => Err(option.wrong(option.word(found).unwrap_or(""))),
    }
}

/// The count of this option, if the command line has it.
fn count_at<'a>(
    option: NumberOption,
    found: &ArgMatches<'a>,
) -> Result<Option<usize>, WrongNumber<'a>>
    ensures { IfOk result (λ count. IfSome count (IsWithin option.least option.most)) }
{
    match option.read_if_there(found)? {
        Some(count) => Ok(Some(count as usize)),
        None => Ok(None),
    }
}

/// Where the nodes come from.
fn ring_at<'a>(found: &ArgMatches<'a>) -> Result<RingSource<'a>, WrongNumber<'a>>
    ensures { IfOk result IsSource }
{
    match found.get_str("plan") {
        Some(path) => Ok(RingSource::Plan(path)),
        None => Ok(RingSource::Even(count_at(NODES, found)?.unwrap_or(1))),
    }
}

/// How many callers there may be, where this is not left to a plan.
fn callers_at<'a>(
    ring: RingSource<'a>,
    found: &ArgMatches<'a>,
) -> Result<Option<usize>, WrongNumber<'a>> {
    let named = count_at(CALLERS, found)?;
    match ring {
        RingSource::Even(_) => Ok(Some(named.unwrap_or(CALLERS_WITHOUT_PLAN))),
        RingSource::Plan(_) => Ok(named),
    }
}

/// When a journal is brought to the disk: each second if the command line does not say.
fn sync_at(found: &ArgMatches) -> SyncRule {
    match found.get_str("sync") {
        Some("always") => SyncRule::Always,
        Some("never") => SyncRule::Never,
        _ => SyncRule::Second,
    }
}

fn read<'a>(found: &ArgMatches<'a>) -> Result<ServeLine<'a>, WrongNumber<'a>>
    ensures { IfOk result (λ line. IsSource line.ring) }
{
    let ring = ring_at(found)?;
    Ok(ServeLine {
        ring,
        port: port_at(PORT, found)?,
        redis: port_at(REDIS, found)?,
        connections: count_at(CONNECTIONS, found)?,
        ends_with_input: found.get_flag("until-input-ends"),
        idle: IDLE.read_if_there(found)?.unwrap_or(IDLE_SECONDS),
        keep: KEEP.read_if_there(found)?.unwrap_or(KEEP_SECONDS),
        operator: port_at(OPERATOR, found)?,
        slots: count_at(SLOTS, found)?,
        callers: callers_at(ring, found)?,
        buffers: BUFFERS
            .read_if_there(found)?
            .unwrap_or(BUFFER_MEGABYTES)
            .saturating_mul(MEGABYTE),
        notes: found.get_flag("notes"),
        journal: found.get_str("journal"),
        sync: sync_at(found),
    })
}

/// What the command line says, or the fault of a wrong number.
pub fn serve_line_of<'a>(
    alloc: Global,
    found: &ArgMatches<'a>,
) -> Result<ServeLine<'a>, clap::Error>
    ensures { IfOk result (λ line. IsSource line.ring) }
{
    match read(found) {
        Ok(line) => Ok(line),
        Err(wrong) => Err(fault_of(alloc, serve_command(alloc), "chord serve", &wrong)),
    }
}
