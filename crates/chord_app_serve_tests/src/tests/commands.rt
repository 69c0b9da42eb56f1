//! The commands `ask` and `load` over loopback, with a ring of two nodes behind the server.

use crate::checks::check;
use chord_app_ask::{ClientOptions, Kind, Load, Tokens, Until, ask_lines, run_load};
use chord_app_serve_testkit::{
    Addresses, Ending, Handle, SMALL, Size, all_bound, end_waiting, plan_with, serve_at,
};
use chord_app_text::{Fault, Finish, WordFault};
use log::sink::Discard;
use std::alloc::Global;
use std::net::{Net, TcpListener, TcpStream};
use std::sync::Wait;
use std::test::Fail;
use std::thread;
use std::thread::Threads;
use std::time::Clock;

/// Each kind of request, with text and digits.
const REQUESTS: &str =
    "insert abc x\ninsert x:616263 y\ninsert abc x\nretrieve abc\nremove abc x\nremove abc z\ninsert k x:-\nretrieve k\nretrieve none";

const REPLIES: &str =
    "added\nadded\npresent\nvalues 2 78 79\nremoved\nabsent\nadded\nvalues 1 -\nvalues 0\n";

/// How a command ended, and whether it wrote what it should.
type Ran = (Result<Finish, Finish>, bool);

/// A command at a server.
#[derive(Clone, Copy)]
enum Command<'a> {
    Ask(AskLines<'a>),
    Load(LoadOf<'a>),
}

impl Command<'_> {
    /// Does it, and then ends a server that still waits for clients, of which it takes this many.
    fn run<R: Threads + Wait + Clock + Net<Listener = TcpListener, Stream = TcpStream> + Sync>(
        self,
        rt: &R,
        alloc: Global,
        at: Addresses,
        connections: usize,
    ) -> Ran {
        let ran = match self {
            Command::Ask(lines) => lines.run(rt, alloc, at.frames.port()),
            Command::Load(load) => load.run(rt, alloc, at.frames.port()),
        };
        end_waiting(rt, at, connections);
        ran
    }
}

/// Runs the command at a ring of two nodes that ends after `connections` connections. Each store
/// has room for `room` pairs.
fn ran<R: Handle + Net<Listener = TcpListener, Stream = TcpStream>>(
    rt: &R,
    alloc: Global,
    room: u64,
    connections: usize,
    command: Command<'_>,
) -> Option<Ran> {
    let plan = plan_with(alloc, 3)?;
    let (listeners, at) = all_bound(rt)?;
    let size = Size { room, ..SMALL };
    let ending = Ending::Connections(connections);
    let (served, ran) = thread::join(
        rt,
        || serve_at(rt, alloc, &plan, size, listeners, ending, &Discard),
        || command.run(rt, alloc, at, connections),
    );
    drop(plan);
    let is_served = served.is_ok();
    drop(served);
    if is_served { Some(ran) } else { None }
}

/// The command `ask` with these lines, which is to write others.
#[derive(Clone, Copy)]
struct AskLines<'a> {
    options: ClientOptions,
    input: &'a str,
    wanted: &'a str,
}

impl AskLines<'_> {
    fn run<R: Net<Stream = TcpStream> + Clock>(self, rt: &R, alloc: Global, port: u16) -> Ran {
        let options = ClientOptions {
            port,
            ..self.options
        };
        let mut reader = self.input.as_bytes();
        let mut written: Vec<u8> = Vec::new(alloc);
        let finish = ask_lines(rt, alloc, options, &mut reader, &mut written);
        let is_written = written.as_slice() == self.wanted.as_bytes();
        drop(written);
        (finish, is_written)
    }
}

/// Asks a ring of two nodes over `connections` connections, one after another; each store has room
/// for `room` pairs.
fn asks_a_ring<R: Handle + Net<Listener = TcpListener, Stream = TcpStream>>(
    rt: &R,
    alloc: Global,
    room: u64,
    connections: usize,
    (version, window, tries): (u8, u64, u32),
    tokens: Option<Tokens>,
    (input, wanted): (&str, &str),
) -> Option<Ran> {
    let options = ClientOptions {
        port: 0,
        version,
        window,
        tries,
        tokens,
    };
    let lines = AskLines {
        options,
        input,
        wanted,
    };
    ran(rt, alloc, room, connections, Command::Ask(lines))
}

/// Each version and window gives the same lines, with a session and without one.
#[test]
fn each_kind_of_request(rt: HostRuntime) -> Result<(), Fail> {
    let tokens = Some(Tokens::new(&rt)?);
    for (how, tokens) in [
        ((1, 1, 3), None),
        ((2, 1, 3), None),
        ((2, 4, 1), None),
        ((2, 16, 3), None),
        ((2, 1, 3), tokens),
        ((2, 16, 3), tokens),
    ] {
        let asked = asks_a_ring(&rt, rt.alloc(), 4, 1, how, tokens, (REQUESTS, REPLIES));
        check!(&rt; asked == Some((Ok(Finish::Done), true)));
    }
    Ok(())
}

/// The requests before a line outside the grammar are asked.
#[test]
fn a_line_outside_the_grammar(rt: HostRuntime) {
    let lines = ("insert abc x\nretrieve\nretrieve abc\n", "added\n");
    let asked = asks_a_ring(&rt, rt.alloc(), 4, 1, (2, 16, 3), None, lines);
    let fault = Err(Finish::Fault(Fault::Request {
        line: 2,
        why: WordFault::NoKey,
    }));
    check!(&rt; asked == Some((fault, true)));
}

/// A full store refuses each try. With window 1 the next request goes over another connection.
#[test]
fn a_full_store(rt: HostRuntime) {
    let lines = ("insert abc x\nretrieve abc\n", "full\nvalues 0\n");
    let unanswered = Finish::Fault(Fault::Unanswered(1));
    for (connections, how) in [(2, (1, 1, 2)), (2, (2, 1, 2)), (1, (2, 16, 2))] {
        let asked = asks_a_ring(&rt, rt.alloc(), 0, connections, how, None, lines);
        check!(&rt; asked == Some((Ok(unanswered), true)));
    }
}

/// Checks that a line of the table begins with the word and ends with the number.
fn has_line(table: &str, word: &str, number: &str) -> bool {
    table.lines().any(|line| line.starts_with(word) && line.trim_end().ends_with(number))
}

/// The ends of lines that a load's table is to have. A last line, of empty sets, may be missing.
#[derive(Clone, Copy)]
struct Counts<'a> {
    answered: &'a str,
    faults: &'a str,
    empty: Option<&'a str>,
}

impl Counts<'_> {
    /// Checks that it is a table with these counts.
    fn are_in(self, table: &[u8]) -> bool {
        let Ok(table) = str::from_utf8(table) else {
            return false;
        };
        let (has_empty, lines) = match self.empty {
            Some(empty) => (has_line(table, "empty sets", empty), 10),
            None => (true, 9),
        };
        has_empty
            && has_line(table, "requests", self.answered)
            && has_line(table, "faults", self.faults)
            && table.lines().count() == lines
    }
}

/// The command `load` with 21 requests, and what its table is to have.
#[derive(Clone, Copy)]
struct LoadOf<'a> {
    kind: Kind,
    counts: Counts<'a>,
}

impl LoadOf<'_> {
    fn run<R: Threads + Wait + Clock + Net<Listener = TcpListener, Stream = TcpStream> + Sync>(
        self,
        rt: &R,
        alloc: Global,
        port: u16,
    ) -> Ran {
        let load = Load {
            port,
            connections: 2,
            in_flight: 4,
            keys: 3,
            value_size: 5,
            kind: self.kind,
            until: Until::Requests(21),
            tokens: None,
            drops: None,
        };
        let mut table: Vec<u8> = Vec::new(alloc);
        let lines: Vec<u8> = Vec::new(alloc);
        let finish = run_load(rt, alloc, load, Some(lines), &mut table);
        let is_told = self.counts.are_in(&table);
        drop(table);
        (finish, is_told)
    }
}

/// Retrieves of keys that nobody inserted are counted as empty sets.
#[test]
fn loads_of_a_ring(rt: HostRuntime) {
    let unanswered = Finish::Fault(Fault::Unanswered(21));
    for (room, kind, answered, faults, empty, finish) in [
        (4, Kind::Insert, " 21", " 0", None, Finish::Done),
        (0, Kind::Retrieve, " 21", " 0", Some(" 21"), Finish::Done),
        (0, Kind::Insert, " 0", " 21", None, unanswered),
    ] {
        let counts = Counts {
            answered,
            faults,
            empty,
        };
        let load = LoadOf { kind, counts };
        let ended = ran(&rt, rt.alloc(), room, 2, Command::Load(load));
        check!(&rt; ended == Some((Ok(finish), true)));
    }
}
