//! A client whose connections are cut, and that goes on over others, against the server, over
//! memory.
//!
//! `window 4`: a client with this window does the twelve requests, over as many connections as it
//! takes. `window 4 cut 1 in 0..147`: connection 1, from 0, breaks after each of these numbers of
//! bytes that the client writes; `out 0..100`: of its server's. What comes is whether the client
//! got all answers, and how many requests were asked; and over how many connections, where none is
//! cut.

use super::flying::{TOKEN, send};
use super::visiting::{ALL, count_asked, kept, new_session, visit};
use crate::askers::Scripted;
use crate::options::is_next;
use crate::shown::answer_text;
use chord_app_text::{GrammarFault, LineFault, Words};
use chord_map::Request;
use chord_serve::{ClientSession, WireClient, tell_opened};
use chord_serve_testkit::Cut;
use chord_testkit::{Fresh, Subject, Text, follow, number_after, two_numbers};
use chord_wire::Answer;
use std::alloc::{AllocError, Global};
use std::io::{Read, Write};
use std::test::Fail;

/// The request of this number.
fn request_of(alloc: Global, number: u8) -> Result<Request, AllocError> {
    match number {
        1 | 4 | 5 => Request::insert(alloc, b"a", b"x"),
        3 => Request::remove(alloc, b"a", b"x"),
        7 => Request::insert(alloc, b"b", b"y"),
        9 => Request::remove(alloc, b"b", b"z"),
        10 => Request::remove(alloc, b"b", b"y"),
        8 | 12 => Request::retrieve(alloc, b"b"),
        _ => Request::retrieve(alloc, b"a"),
    }
}

/// What the client is answered, each behind a comma.
const ANSWERS: &str = ", 1 added, 2 values 1 78, 3 removed, 4 added, 5 present, 6 values 1 78, \
    7 added, 8 values 1 79, 9 absent, 10 removed, 11 values 1 78, 12 values 0";

/// A client with what it did.
#[derive(Drop)]
struct Journey {
    alloc: Global,
    client: WireClient,
    /// How many requests were sent.
    sent: u8,
    /// The replies that it received.
    replies: Text,
    connections: usize,
}

impl Journey {
    /// Begins the session over the first connection, and resumes it over others.
    fn open<R: Read, W: Write>(&mut self, reader: &mut R, writer: &mut W) -> bool {
        self.connections = self.connections.saturating_add(1);
        if self.connections == 1 {
            self.client.begin(reader, writer, TOKEN, 10).is_ok()
        } else {
            self.client.resume(reader, writer, TOKEN, 10).is_ok()
        }
    }

    /// Sends further requests while the window has room.
    fn fill<W: Write>(&mut self, writer: &mut W) {
        for number in self.sent..12 {
            if self.client.is_full() {
                return;
            }
            self.sent = number + 1;
            let Ok(request) = request_of(self.alloc, self.sent) else {
                return;
            };
            if send(&mut self.client, writer, request).is_err() {
                return;
            }
        }
    }

    /// Receives what was answered, until no more comes.
    fn hear(&mut self, mut reader: &[u8]) {
        for _ in 0..16u64 {
            let received = self.client.receive(&mut reader, 10);
            let is_reply = matches!(&received, Ok((_, Answer::Reply { .. })));
            if let Ok((_, answer)) = &received {
                let answer = answer_text(answer);
                self.replies = self.replies.and_str(", ", 2).and_str(answer.as_str(), 24);
            }
            drop(received);
            if !is_reply {
                return;
            }
        }
    }

    /// One connection of the session. What the client wrote is served once it has written all.
    fn connect(
        &mut self,
        session: ClientSession<Scripted>,
        most: (usize, usize),
    ) -> Option<ClientSession<Scripted>> {
        let mut told = Vec::new(self.alloc);
        let is_told = tell_opened(self.alloc, &mut told, &session).is_ok();
        let mut reader = Cut::new(told.as_slice(), most.1);
        let mut writer = Cut::new(Vec::new(self.alloc), most.0);
        let is_open = is_told && self.open(&mut reader, &mut writer);
        if is_open {
            self.fill(&mut writer);
        }
        let visited = visit(self.alloc, &writer.inner, (usize::MAX, most.1), session);
        if is_open {
            self.hear(visited.written.get(30..).unwrap_or(&[]));
        }
        drop(visited.written);
        drop(told);
        kept(visited.left)
    }

    fn has_all(&self) -> bool {
        self.replies.as_str() == ANSWERS
    }

    /// Connections in a row, of which the one of this number, from 0, is cut, until all replies
    /// came; eight at most.
    fn go_on(
        &mut self,
        mut session: ClientSession<Scripted>,
        cut: u64,
        most: (usize, usize),
    ) -> Option<ClientSession<Scripted>> {
        for number in 0..8u64 {
            if self.has_all() {
                break;
            }
            session = self.connect(session, if number == cut { most } else { ALL })?;
        }
        Some(session)
    }
}

/// How many connections a client of this window took, and what came of its requests.
fn travel(
    alloc: Global,
    window: u64,
    cut: u64,
    most: (usize, usize),
) -> Result<(usize, Text), LineFault> {
    let Some(client) = WireClient::new(alloc, 2, window) else {
        return Err(GrammarFault::NoLine.into());
    };
    let mut journey = Journey {
        alloc,
        client,
        sent: 0,
        replies: Text::of(""),
        connections: 0,
    };
    let session = journey.go_on(new_session(alloc), cut, most);
    let name = if journey.has_all() {
        "all answers"
    } else {
        "other answers"
    };
    let connections = journey.connections;
    drop(journey);
    let Some(session) = session else {
        return Ok((connections, Text::of("over")));
    };
    let asked = count_asked(session.into_asker());
    Ok((connections, Text::of(format_args!("{name}, asked {asked}"))))
}

#[derive(Drop)]
struct Journeys {
    alloc: Global,
}

impl Fresh for Journeys {
    fn fresh(alloc: Global) -> Journeys {
        Journeys { alloc }
    }
}

impl Subject for Journeys {
    fn act(&mut self, words: &mut Words) -> Result<Text, LineFault> {
        let window = number_after(words, "window", 0)?;
        if words.has_more() {
            return cut_each(self.alloc, window, words);
        }
        let (connections, came) = travel(self.alloc, window, 8, ALL)?;
        Ok(came.and(format_args!(", connections {connections}"), 32))
    }

    fn show(&self) -> Text {
        Text::of("")
    }
}

fn cut_each(alloc: Global, window: u64, words: &mut Words) -> Result<Text, LineFault> {
    let cut = number_after(words, "cut", 0)?;
    let is_in = is_next(words, "in");
    let is_out = is_next(words, "out");
    let (first, last) = two_numbers(words, "..")?;
    let mut came = Text::of("none");
    for most in first..=last {
        let most = most as usize;
        let limits = (
            if is_in { most } else { usize::MAX },
            if is_out { most } else { usize::MAX },
        );
        (_, came) = travel(alloc, window, cut, limits)?;
        if came.as_str() != "all answers, asked 12" {
            let came = came.as_str();
            return Ok(Text::of(format_args!("at {most}: {came}")));
        }
    }
    Ok(came)
}

const SCRIPTS: &str = "
== a client goes on over connections in a row; a client cut while it writes resumes; a client cut while it is answered resumes
# a client of window 4 gets four answers over each
window 16 > all answers, asked 12, connections 1
window 4 > all answers, asked 12, connections 3
window 2 > all answers, asked 12, connections 6
# each byte over the first connection, and over the second, which begins with requests again
window 16 cut 0 in 0..348 > all answers, asked 12
window 4 cut 1 in 0..147 > all answers, asked 12
window 16 cut 0 out 0..237 > all answers, asked 12
window 4 cut 1 out 0..100 > all answers, asked 12
";

#[test]
fn clients_go_on_over_connections(rt: HostRuntime) -> Result<(), Fail> {
    follow::<Journeys>(rt.alloc(), SCRIPTS)
}
