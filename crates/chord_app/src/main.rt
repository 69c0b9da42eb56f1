//! The program `chord`: a Chord key store on the console and over loopback.
//!
//! `world` is the console, which does one step of a world a line ([`world`]); `run` starts a ring
//! that does what a plan says ([`run`]); `serve` starts a ring that answers clients ([`serve`],
//! [`stay`]); `ask` and `load` are such clients ([`start_ask`], [`start_load`]), and `ring` is its
//! operator ([`start_ring`]).
//! `chord_app_options` says what a command line has, and [`Finish`] how the program ends.
#![tactic(auto)]

ghost use Rattle.std.specs.Prelude.{◌≡◌};
ghost use Rattle.chord_app_plan.specs.Plan.{settings_with};

mod kind_store;

use crate::kind_store::{KindStore, stores_for};
use chord_app_journal::{OpenedJournal, SyncRule, open_journal};
use chord_app_options::{
    RingSource, ServeLine, commands, plan_path_of, print_fault, serve_line_of, start_ask,
    start_load, start_ring, stores_of,
};
use chord_app_plan::{Plan, PlanFault, Settings, StoreKind, read_plan};
use chord_app_serve::{MadeStore, open_files, run, serve, stay};
use chord_app_sockets::{
    ClientLimits, Doors, Host, JournalSetup, OperatorPort, ProcessFiles, ServerSetup, listen,
};
use chord_app_text::Finish;
use chord_app_world::{empty_ones, world};
use clap::ArgMatches;
use log::{Level, Logged};
use std::alloc::Global;
use std::hash::RandomState;
use std::io::{self, IsTerminal, Stdin};
use std::net::{Net, TcpListener, TcpStream};
use std::process::ExitCode;
use std::sync::Wait;
use std::thread::Threads;
use std::time::Clock;
use std::{env, fs};

/// How many files a server has open at most beside the connections of its clients: doors,
/// operators, and two for each event loop.
const OTHER_FILES: u64 = 128;

/// The kind of store that a letter names.
fn kind_of(letter: u8) -> StoreKind {
    match letter {
        b't' => StoreKind::Tree,
        b'n' => StoreKind::Noted,
        b'c' => StoreKind::Capped(1),
        _ => StoreKind::List,
    }
}

/// Does the command `world`.
fn start_world(rt: &HostRuntime, found: &ArgMatches) -> Result<Finish, Finish> {
    let alloc = rt.alloc();
    let word = match stores_of(alloc, found) {
        Ok(word) => word,
        Err(fault) => return print_fault(rt, fault),
    };
    let mut stores = Vec::new(alloc);
    for letter in word.bytes() {
        stores.push(KindStore::make(alloc, kind_of(letter)))?;
    }
    let stores = empty_ones(alloc, stores)?;
    Ok(world(alloc, stores, &mut rt.stdin(), rt.stdout()))
}

/// Reads the plan in a file, and prints what is wrong with it.
fn plan_of(rt: &HostRuntime, path: &str) -> Result<Plan, Finish> {
    match read_plan(rt, rt.alloc(), path) {
        Ok(plan) => Ok(plan),
        Err(PlanFault::OutOfMemory) => Err(Finish::OutOfMemory),
        Err(fault) => {
            eprintln!(rt; "fault plan\n{path}: {fault}")?;
            Err(Finish::BadPlan)
        }
    }
}

/// Where a server listens, for how long it serves, and where it logs how connections end.
#[derive(Drop)]
struct ServeOptions<'a> {
    /// Where clients connect that speak in frames.
    frames: Option<TcpListener>,
    /// Where Redis's clients connect.
    redis: Option<TcpListener>,
    /// How many connections it serves; with none it serves until it is stopped.
    connections: Option<usize>,
    /// Whether a server that stays ends with its input, whatever that is.
    ends_with_input: bool,
    /// What its clients are allowed if the server stays.
    limits: ClientLimits,
    /// Where it serves operators, if it does.
    operator: Option<OperatorDoor>,
    /// Its journal, if it has one.
    journal: Option<OpenedJournal>,
    sync: SyncRule,
    notes: Logged<&'a HostRuntime, &'a HostRuntime>,
}

impl ServeOptions<'_> {
    /// The doors of the server, if it has any.
    fn doors(&self) -> Option<Doors<'_>> {
        match (&self.frames, &self.redis) {
            (Some(frames), Some(redis)) => Some(Doors::Both { frames, redis }),
            (Some(frames), None) => Some(Doors::Frames(frames)),
            (None, Some(redis)) => Some(Doors::Redis(redis)),
            (None, None) => None,
        }
    }

    /// The journal of the server, if it has one.
    fn journal(&self) -> Option<JournalSetup<'_>> {
        match &self.journal {
            Some(opened) => Some(JournalSetup {
                opened,
                rule: self.sync,
            }),
            None => None,
        }
    }
}

/// Opens a journal, if there is one. Prints why it can't be opened, and how much of it is cut off.
fn journal_at(rt: &HostRuntime, path: Option<&str>) -> Result<Option<OpenedJournal>, Finish> {
    let Some(path) = path else {
        return Ok(None);
    };
    match open_journal(rt, path) {
        Ok(opened) => {
            let torn = opened.scanned.torn;
            if torn > 0 {
                eprintln!(rt;
                    "journal: {torn} bytes behind the last whole command of {path} were cut off"
                )?;
            }
            Ok(Some(opened))
        }
        Err(fault) => {
            eprintln!(rt; "fault journal: {path} {fault}")?;
            Err(Finish::Refused)
        }
    }
}

/// Listens at the port, if there is one.
fn listen_at<T: Host>(threads: &T, port: Option<u16>) -> Result<Option<TcpListener>, Finish> {
    match port {
        Some(port) => Ok(Some(listen(threads, port)?)),
        None => Ok(None),
    }
}

/// Where operators connect.
#[derive(Drop)]
struct OperatorDoor {
    listener: TcpListener,
    keys: RandomState,
    process: Option<ProcessFiles>,
}

impl OperatorDoor {
    /// Listens for operators at a port, if there is one.
    fn at<T: Host>(
        rt: &HostRuntime,
        threads: &T,
        port: Option<u16>,
    ) -> Result<Option<OperatorDoor>, Finish> {
        let Some(port) = port else {
            return Ok(None);
        };
        let keys = RandomState::new(rt)?;
        let listener = listen(threads, port)?;
        let process = ProcessFiles::open(rt).ok();
        Ok(Some(OperatorDoor {
            listener,
            keys,
            process,
        }))
    }

    fn port(&self) -> OperatorPort<'_> {
        OperatorPort {
            listener: &self.listener,
            keys: self.keys,
            process: self.process.as_ref(),
        }
    }
}

/// The port at which operators connect, if there is one.
fn port_of(door: &Option<OperatorDoor>) -> Option<OperatorPort<'_>> {
    match door {
        Some(door) => Some(door.port()),
        None => None,
    }
}

/// The input whose end ends a server that stays, if one does: a terminal's. Any other may be closed
/// from the start, as that of a service is.
fn ending_input(rt: &HostRuntime, ends_with_input: bool) -> Option<Stdin> {
    let input = rt.stdin();
    if ends_with_input || input.is_terminal() {
        return Some(input);
    }
    None
}

/// Serves clients with a ring of the plan's nodes.
fn serve_over<'a, T: Host>(
    rt: &HostRuntime,
    threads: &T,
    plan: &'a Plan,
    settings: Settings,
    options: &'a ServeOptions<'_>,
) -> Result<Finish, Finish> {
    let Some(doors) = options.doors() else {
        return Err(Finish::BadCommandLine);
    };
    let alloc = rt.alloc();
    let stores = stores_for(alloc, plan)?;
    let setup = ServerSetup {
        alloc,
        plan,
        settings,
        doors,
        operator: port_of(&options.operator),
        journal: options.journal(),
        notes: &options.notes,
    };
    match options.connections {
        Some(count) => serve(threads, &setup, stores, count, rt.stdout())?,
        None => stay(
            threads,
            &setup,
            stores,
            options.limits,
            ending_input(rt, options.ends_with_input),
            rt.stdout(),
        )?,
    };
    Ok(Finish::Done)
}

/// Warns if the system lets the process have too few files open for as many clients at once as the
/// server has callers.
fn warn_of_files(rt: &HostRuntime, callers: usize) -> Result<(), Finish> {
    let Ok(limits) = fs::open(rt, "/proc/self/limits") else {
        return Ok(());
    };
    let most = open_files(&limits);
    drop(limits);
    match most {
        Some(most) if most < (callers as u64).saturating_add(OTHER_FILES) => {
            eprintln!(rt;
                "warning: {most} files may be open (ulimit -n), too few for {callers} clients"
            )?;
            Ok(())
        }
        _ => Ok(()),
    }
}

/// The settings of a server's ring: the plan's, with the numbers of nodes and callers that the line
/// names.
fn settings_of(plan: &Plan, line: &ServeLine<'_>) -> Settings
    ensures { result ≡ settings_with plan.now.settings line.now.slots line.now.callers }
{
    plan.settings_with(line.slots, line.callers)
}

/// What the line allows clients of a server that stays.
fn limits_of(line: &ServeLine<'_>) -> ClientLimits
    ensures idle { result.idle ≡ line.now.idle }
    ensures keep { result.keep ≡ line.now.keep }
    ensures buffers { result.buffers ≡ line.now.buffers }
{
    ClientLimits {
        idle: line.idle,
        keep: line.keep,
        buffers: line.buffers,
    }
}

/// Does the command `serve`.
fn start_serve<T: Host>(
    rt: &HostRuntime,
    threads: &T,
    found: &ArgMatches,
) -> Result<Finish, Finish> {
    let line = match serve_line_of(rt.alloc(), found) {
        Ok(line) => line,
        Err(fault) => return print_fault(rt, fault),
    };
    let plan = match line.ring {
        RingSource::Plan(path) => plan_of(rt, path)?,
        RingSource::Even(nodes) => Plan::even(rt.alloc(), nodes)?,
    };
    let settings = settings_of(&plan, &line);
    if settings.slots < plan.nodes.len() {
        let (slots, nodes) = (settings.slots, plan.nodes.len());
        eprintln!(rt; "fault plan\n--slots {slots} is below the plan's {nodes} nodes")?;
        drop(plan);
        return Err(Finish::BadPlan);
    }
    let journal = journal_at(rt, line.journal)?;
    let frames = listen_at(threads, line.port)?;
    let redis = listen_at(threads, line.redis)?;
    let operator = OperatorDoor::at(rt, threads, line.operator)?;
    // A warning is written without `--notes` too.
    let level = if line.notes { Level::Info } else { Level::Warn };
    let options = ServeOptions {
        frames,
        redis,
        connections: line.connections,
        ends_with_input: line.ends_with_input,
        limits: limits_of(&line),
        operator,
        journal,
        sync: line.sync,
        notes: Logged::new(rt, level, rt),
    };
    warn_of_files(rt, settings.callers)?;
    let ended = serve_over(rt, threads, &plan, settings, &options);
    drop(options);
    drop(plan);
    ended
}

/// Runs a ring of the plan's nodes.
fn run_over<T: Host>(rt: &HostRuntime, threads: &T, plan: &Plan) -> Result<Finish, Finish> {
    let alloc = rt.alloc();
    let stores = stores_for(alloc, plan)?;
    Ok(run(threads, alloc, plan, stores, rt.stdout()))
}

/// Does the command `run`.
fn start_run<T: Host>(rt: &HostRuntime, threads: &T, found: &ArgMatches) -> Result<Finish, Finish> {
    let plan = plan_of(rt, plan_path_of(found))?;
    run_over(rt, threads, &plan)
}

/// How a command ended, done or with a fault.
fn ended(command: Result<Finish, Finish>) -> Finish {
    match command {
        Ok(finish) => finish,
        Err(finish) => finish,
    }
}

/// The words of the command line.
fn words_of(rt: &HostRuntime) -> Result<Vec<String>, Finish> {
    match env::args(rt) {
        Ok(words) => Ok(words.collect(rt.alloc())?),
        Err(error) if error.kind() == io::ErrorKind::OutOfMemory => Err(Finish::OutOfMemory),
        Err(_) => {
            eprintln!(rt; "error: an argument is no text")?;
            Err(Finish::BadCommandLine)
        }
    }
}

/// Matches the words with the commands. Help, or the fault of the words, is printed and ends the
/// program.
fn matched<'a>(rt: &HostRuntime, words: &'a [String]) -> Result<ArgMatches<'a>, Finish> {
    match commands(rt.alloc())?.try_get_matches_from(words) {
        Ok(matches) => Ok(matches),
        Err(error) => Err(ended(print_fault(rt, error))),
    }
}

/// Does the command that was matched. `clap` refuses a line that has none.
fn do_command<T: Host>(
    rt: &HostRuntime,
    threads: &T,
    matches: &ArgMatches,
) -> Result<Finish, Finish> {
    match matches.subcommand() {
        Some((name, found)) if name == "run" => start_run(rt, threads, found),
        Some((name, found)) if name == "serve" => start_serve(rt, threads, found),
        Some((name, found)) if name == "ask" => start_ask(rt, threads, found),
        Some((name, found)) if name == "load" => start_load(rt, threads, found),
        Some((name, found)) if name == "ring" => start_ring(rt, threads, found),
        Some((_, found)) => start_world(rt, found),
        None => Err(Finish::BadCommandLine),
    }
}

/// Reads the command line and does the command.
fn start<
    T: Threads
        + Wait
        + Clock
        + Net<Listener = TcpListener, Stream = TcpStream>
        + Copy
        + Send
        + Sync
        + 'static,
>(rt: &HostRuntime, threads: &T) -> Result<Finish, Finish> {
    let words = words_of(rt)?;
    let matches = matched(rt, words.as_slice())?;
    do_command(rt, threads, &matches)
}

fn main(rt: HostRuntime) -> ExitCode {
    let finish = ended(start(&rt, &rt));
    let _ = match finish {
        Finish::Fault(fault) => eprintln!(rt; "{fault}"),
        Finish::OutOfMemory => eprintln!(rt; "out of memory"),
        _ => Ok(()),
    };
    ExitCode::from(finish.status())
}
