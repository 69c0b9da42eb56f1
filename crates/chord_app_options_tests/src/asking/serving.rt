//! Scripts of clients and their servers, over loopback. Each line has a server of its own.
//!
//! - `at serve 30 forget serve 0`: what the server does with its connections (`Visit`); `at` that
//!   nobody listens.
//! - `client 2 1 3 session`: the client's version, window and tries, and whether it asks in a
//!   session.
//! - `lines insert abc x|`, `copy insert abc x|`: the client asks this input, as `quoted` has it.
//! - `request insert/a b/`: it asks the request of these words.
//! - `load insert 60`: a load of 60 requests over two connections with four in flight each, and one
//!   that is cut if it uses sessions. Shows what of its table is the same in each run, and of the
//!   sessions that were resumed only that there were some.
//! - `start ask insert a x`: the command of these words, which has the server's port as an option.
//!   Its lines go to the output of the test itself.
//!
//! What comes is how the command ended, at its port where it names one, and what it wrote; and of
//! the server how many sessions it keeps and closed, and what those were asked, if it had any, or
//! the digits of what it heard.

use crate::asking::small_server::{SmallServer, Visit, visits};
use crate::quoted::{OneLine, bytes, text};
use chord_app_ask::{
    ClientOptions, Drops, Kind, Load, Tokens, Until, ask_copy, ask_lines, ask_one, read_words,
    run_load,
};
use chord_app_options::{commands, start_ask, start_load, start_ring};
use chord_app_sockets::Host;
use chord_app_text::{Fault, Finish, GrammarFault, Hex, LineFault, Words};
use chord_testkit::{Text, name_of};
use clap::ArgMatches;
use std::alloc::Global;
use std::fmt::InlineText;
use std::net::{Ipv4Addr, Net, TcpListener, TcpStream};
use std::str::from_utf8;
use std::sync::Wait;
use std::test::Fail;
use std::thread;
use std::thread::Threads;
use std::time::Clock;

/// What a client does.
#[derive(Drop)]
enum Asking {
    Lines(Vec<u8>),
    Copy(Vec<u8>),
    /// Words with strokes between them.
    Request(String),
    Load(Kind, u64),
    /// The words of a command.
    Start(String),
}

#[derive(Drop)]
struct Serving<'a, R> {
    rt: &'a HostRuntime,
    host: &'a R,
    tokens: Tokens,
    client: ClientOptions,
    visits: Vec<Visit>,
}

/// How a command ends.
type Ended = Result<Finish, Finish>;

/// A client of these numbers.
pub fn client_of(version: u8, window: u64, tries: u32, tokens: Option<Tokens>) -> ClientOptions {
    ClientOptions {
        port: 0,
        version,
        window,
        tries,
        tokens,
    }
}

/// Does a script of clients and servers.
pub fn follow_clients<
    R: Threads
        + Wait
        + Clock
        + Net<Listener = TcpListener, Stream = TcpStream>
        + Copy
        + Send
        + Sync
        + 'static,
>(rt: &HostRuntime, host: &R, script: &str) -> Result<(), Fail> {
    let mut serving = Serving {
        rt,
        host,
        tokens: Tokens::new(rt)?,
        client: client_of(2, 1, 3, None),
        visits: Vec::new(rt.alloc()),
    };
    let wrong = serving.first_wrong(script);
    drop(serving);
    match wrong {
        Some(report) => Err(Fail::new(report.as_str())),
        None => Ok(()),
    }
}

/// A trait's method may not send its handle to a thread, so these scripts are not followed by
/// `follow_on`.
impl<R: Host> Serving<'_, R> {
    /// The first line of which something else came than what is due, with its rule.
    fn first_wrong(&mut self, script: &str) -> Option<InlineText<512>> {
        let mut rule = Text::of("# no rule");
        for (place, line) in script.lines().enumerate() {
            if line.starts_with("#") {
                rule = Text::of(line);
            } else if let Some((deed, due)) = line.split_once(" > ") {
                let came = self.came(deed);
                if came.as_str() != due {
                    let rule = rule.as_str();
                    let came = came.as_str();
                    return Some(InlineText::of(format_args!(
                        "line {place}: {deed}\n  {rule}\n  due:  {due}\n  came: {came}"
                    )));
                }
            } else if !line.is_empty() {
                return Some(InlineText::of(format_args!("line {place}: {line}\n  nothing is due")));
            }
        }
        None
    }

    fn came(&mut self, deed: &str) -> Text {
        let mut words = Words::new(deed);
        match self.act(&mut words) {
            Ok(came) if !words.has_more() => came,
            Ok(_) => Text::of("more words"),
            Err(fault) => name_of(&fault),
        }
    }

    fn act(&mut self, words: &mut Words) -> Result<Text, LineFault> {
        let alloc = self.rt.alloc();
        let asking = match words.word()? {
            "at" => {
                self.visits = visits(alloc, words)?;
                return Ok(Text::of("Set"));
            }
            "client" => {
                self.client = client(words, self.tokens)?;
                return Ok(Text::of("Set"));
            }
            "lines" => Asking::Lines(bytes(alloc, words)?),
            "copy" => Asking::Copy(bytes(alloc, words)?),
            "request" => Asking::Request(text(alloc, words)?),
            "load" => {
                let kind = match words.word()? {
                    "insert" => Kind::Insert,
                    _ => Kind::Retrieve,
                };
                Asking::Load(kind, words.number()?)
            }
            "start" => Asking::Start(text(alloc, words)?),
            _ => return Err(GrammarFault::NoLine.into()),
        };
        Ok(self.ask(asking))
    }
}

fn client(words: &mut Words, tokens: Tokens) -> Result<ClientOptions, LineFault> {
    let version = u8::try_from(words.number()?);
    let window = words.number()?;
    let tries = u32::try_from(words.number()?);
    let has_session = words.has_more() && words.word()? == "session";
    match (version, tries) {
        (Ok(version), Ok(tries)) => {
            Ok(client_of(version, window, tries, has_session.then_some(tokens)))
        }
        _ => Err(GrammarFault::NoLine.into()),
    }
}

/// A listener, and its port.
pub fn bound<R: Net<Listener = TcpListener, Stream = TcpStream>>(
    rt: &R,
) -> Option<(TcpListener, u16)> {
    let listener = TcpListener::bind(rt, "127.0.0.1:0").ok()?;
    let port = listener.local_addr().ok()?.port();
    Some((listener, port))
}

/// Ends a server that still waits for clients, of which it takes at most this many.
pub fn end_waiting<R: Net<Stream = TcpStream>>(rt: &R, port: u16, connections: usize) {
    for _ in 0..connections {
        drop(TcpStream::connect(rt, (Ipv4Addr::LOCALHOST, port)));
    }
}

impl<R: Host> Serving<'_, R> {
    /// Asks a server that does so with its connections. Where there is none nobody listens.
    fn ask(&self, asking: Asking) -> Text {
        let host = self.host;
        let Some((listener, port)) = bound(host) else {
            drop(asking);
            return Text::of("no listener");
        };
        let visits = self.visits.as_slice();
        if visits.is_empty() {
            drop(listener);
            return self.asked(port, asking);
        }
        let mut server = SmallServer::new(self.rt.alloc());
        let (served, came) = thread::join(
            host,
            || server.run(listener, visits),
            || {
                let came = self.asked(port, asking);
                end_waiting(host, port, visits.len());
                came
            },
        );
        let came = with_counts(came, &server);
        drop(server);
        match served {
            Ok(()) => came,
            Err(fault) => name_of(&fault.kind()),
        }
    }

    /// How the command ended, and what it wrote.
    fn asked(&self, port: u16, asking: Asking) -> Text {
        let mut written: Vec<u8> = Vec::new(self.rt.alloc());
        let ended = self.end_of(port, &asking, &mut written);
        let text = from_utf8(&written).unwrap_or("?");
        let wrote = match &asking {
            Asking::Load(_, _) => numbers_of(text),
            _ => Text::of(OneLine(text)),
        };
        drop(written);
        drop(asking);
        let ended = end_at(port, ended);
        let wrote = wrote.as_str().trim();
        if wrote.is_empty() {
            return ended;
        }
        let ended = ended.as_str();
        Text::of(format_args!("{ended}: {wrote}"))
    }

    fn end_of(&self, port: u16, asking: &Asking, written: &mut Vec<u8>) -> Ended {
        let host = self.host;
        let alloc = self.rt.alloc();
        let client = ClientOptions {
            port,
            ..self.client
        };
        match asking {
            Asking::Lines(input) => {
                ask_lines(host, alloc, client, &mut input.as_slice(), written)
            }
            Asking::Copy(input) => ask_copy(host, alloc, client, &mut input.as_slice(), written),
            Asking::Request(words) => ask_words(host, alloc, client, words.as_str(), written),
            Asking::Load(kind, requests) => {
                let load = load_of(client, *kind, *requests);
                run_load(host, alloc, load, None::<Vec<u8>>, written)
            }
            Asking::Start(words) => start(self.rt, host, port, words.as_str()),
        }
    }
}

/// What the server had or heard, if it did.
fn with_counts(came: Text, server: &SmallServer) -> Text {
    let kept = server.kept();
    let closed = server.closed;
    let asked = server.asked;
    let heard = Hex(server.heard.as_slice());
    let text = came.as_str();
    if kept != 0 || closed != 0 {
        Text::of(format_args!("{text}; kept {kept}, closed {closed}, asked {asked}"))
    } else if !server.heard.is_empty() {
        Text::of(format_args!("{text}; heard {heard}"))
    } else {
        came
    }
}

/// How a command ended, without its own port.
fn end_at(port: u16, ended: Ended) -> Text {
    match ended {
        Err(Finish::Fault(Fault::Connect { port: at, reason })) if at == port => {
            Text::of(format_args!("Connect {reason:?}"))
        }
        Err(Finish::Fault(Fault::NoSession { port: at })) if at == port => Text::of("NoSession"),
        Ok(Finish::Fault(fault)) => Text::of(format_args!("Ok({fault:?})")),
        Err(Finish::Fault(fault)) => Text::of(format_args!("Err({fault:?})")),
        Ok(finish) => name_of(&finish),
        Err(_) => name_of(&ended),
    }
}

/// Does the command of these words, with the port as its option.
fn start<R: Host>(rt: &HostRuntime, host: &R, port: u16, words: &str) -> Ended {
    let alloc = rt.alloc();
    let (command, rest) = words.split_once(" ").unwrap_or((words, ""));
    let option = if command == "ring" && rest != "restore" {
        "operator"
    } else {
        "port"
    };
    let line = format!(in alloc; "chord {command} --{option} {port} {rest}")?;
    let words: Vec<&str> = line.as_str().split_whitespace().collect(alloc)?;
    let ended = match commands(alloc)?.try_get_matches_from(words.as_slice()) {
        Ok(matches) => {
            let ended = start_found(rt, host, &matches);
            drop(matches);
            ended
        }
        Err(fault) => {
            drop(fault);
            Err(Finish::BadCommandLine)
        }
    };
    drop(words);
    drop(line);
    ended
}

/// Does the command that the words name.
fn start_found<R: Host>(rt: &HostRuntime, host: &R, matches: &ArgMatches) -> Ended {
    match matches.subcommand() {
        Some(("ask", found)) => start_ask(rt, host, found),
        Some(("load", found)) => start_load(rt, host, found),
        Some(("ring", found)) => start_ring(rt, host, found),
        _ => Err(Finish::Refused),
    }
}

fn ask_words<R: Net<Stream = TcpStream> + Clock>(
    rt: &R,
    alloc: Global,
    options: ClientOptions,
    words: &str,
    written: &mut Vec<u8>,
) -> Result<Finish, Finish> {
    let words: Vec<&str> = words.split("/").collect(alloc)?;
    let request = read_words(alloc, words.as_slice());
    drop(words);
    match request {
        Ok(request) => ask_one(rt, alloc, options, request, written),
        Err(_) => Err(Finish::BadCommandLine),
    }
}

/// The load of a client. If it asks in sessions, its connection is cut.
pub fn load_of(options: ClientOptions, kind: Kind, requests: u64) -> Load {
    let is_cut = options.tokens.is_some();
    Load {
        port: options.port,
        connections: if is_cut { 1 } else { 2 },
        in_flight: 4,
        keys: if is_cut { 7 } else { 3 },
        value_size: if is_cut { 16 } else { 5 },
        kind,
        until: Until::Requests(requests),
        tokens: options.tokens,
        drops: is_cut.then_some(Drops { every: 10, seed: 1 }),
    }
}

/// The numbers of a load's table that are the same in each run.
fn numbers_of(table: &str) -> Text {
    let mut text = Text::of("");
    for line in table.lines() {
        let mut words = line.split_whitespace();
        let name = words.next().unwrap_or("");
        let number = words.last().unwrap_or("");
        let shown = match name {
            "requests" | "faults" | "doubled" => number,
            "resumed" if number != "0" && number != "1" => "often",
            "resumed" => number,
            _ => "",
        };
        if !shown.is_empty() {
            text = text.and_str(" ", 1).and_str(name, 16);
            text = text.and_str(" ", 1).and_str(shown, 24);
        }
    }
    text
}
