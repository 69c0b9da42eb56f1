//! Scripts of a client, over memory.
//!
//! - `client 2 16`: a client of version 2 with a window of 16 requests. Each script begins with it.
//!   `new` before another deed makes one first.
//! - `send insert`: inserts x under a; `retrieve` and `remove` ask for a and take y from under it.
//!   What comes is the number, and what is written. `again 1`: sends the request again.
//! - `serve`, `serve full`: a server over a plain map, or one that answers new requests by fault
//!   10, answers all that was written; what comes are the answers that were not received before.
//!   `come added.1`: these bytes come in their place.
//! - `receive`: an answer.
//! - `begin opened.0.0`, `resume opened.0.0`, `close closed`: what the client is told by these
//!   bytes, and what it wrote. `says idle`: the text of a fault.
//!
//! Before these bytes, and behind `send`, `again` and `receive`, may stand `reads 1x40` and `writes
//! 7x1`, at most 7 bytes a call, of which the second fails; `turns 5`; and `room 38`, with which
//! writing fails behind 38 bytes. Behind `; ` stand how many answers are awaited, the floor, the
//! last number, how many bytes were written, and `full` if the window is.

use crate::askers::{Script, Scripted, Trouble};
use crate::frames::frames;
use crate::options::{is_next, limits_after};
use crate::shown::{FramesText, answer_text};
use chord_app_text::{GrammarFault, LineFault, Words};
use chord_map::Request;
use chord_serve::{
    AgainFault, CallFault, ReadSize, ReceiveFault, SendFault, Served, WireClient, serve,
};
use chord_serve_testkit::{Cut, Limited};
use chord_testkit::{Fresh, MEMORY, Subject, Text, name_of, number_after};
use chord_wire::{Answer, Token};
use std::alloc::{AllocError, Global};
use std::fmt::Debug;
use std::io::Write;
use std::mem;

pub const TOKEN: Token = Token {
    bytes: [1, 2, 3, 4, 5, 6, 7, 8, 9, 10, 11, 12, 13, 14, 15, 16],
};

/// A client, what it wrote, and what came from its server, which it received up to a place.
#[derive(Drop)]
pub struct Flight {
    alloc: Global,
    client: Option<WireClient>,
    written: Vec<u8>,
    answers: Vec<u8>,
    place: usize,
}

impl Fresh for Flight {
    fn fresh(alloc: Global) -> Flight {
        Flight {
            alloc,
            client: WireClient::new(alloc, 2, 16),
            written: Vec::new(alloc),
            answers: Vec::new(alloc),
            place: 0,
        }
    }
}

impl Subject for Flight {
    fn act(&mut self, words: &mut Words) -> Result<Text, LineFault> {
        let is_new = is_next(words, "new");
        let word = words.word()?;
        if word == "client" {
            let (version, window) = (words.number()? % 0x100, words.number()?);
            return Ok(self.begin_anew(version as u8, window));
        }
        if is_new {
            self.begin_anew(2, 16);
        }
        match word {
            "serve" => self.serve(is_next(words, "full")),
            "come" => {
                let bytes = frames(self.alloc, words)?;
                let before = mem::replace(&mut self.answers, bytes);
                drop(before);
                self.place = 0;
                Ok(Text::of("Come"))
            }
            _ => self.client_deed(word, words),
        }
    }

    fn show(&self) -> Text {
        let Some(client) = &self.client else {
            return Text::of("no client");
        };
        let awaited = client.in_flight();
        let floor = client.floor();
        let last = client.last();
        let written = self.written.len();
        let full = if client.is_full() { ", full" } else { "" };
        Text::of(format_args!(
            "awaits {awaited}, floor {floor}, last {last}, wrote {written}{full}"
        ))
    }
}

impl Flight {
    fn begin_anew(&mut self, version: u8, window: u64) -> Text {
        let client = WireClient::new(self.alloc, version, window);
        let text = Text::of(if client.is_some() { "Begun" } else { "None" });
        let before = mem::replace(&mut self.client, client);
        drop(before);
        self.written.clear();
        self.answers.clear();
        self.place = 0;
        text
    }

    /// What the server writes for all that was written.
    fn serve(&mut self, is_full: bool) -> Result<Text, LineFault> {
        let alloc = self.alloc;
        let mut answers = Vec::with_capacity(alloc, 512)?;
        let number = if is_full { 0 } else { usize::MAX };
        let asker = Scripted::new(alloc, Script::of(number, Trouble::Full));
        let mut input = self.written.as_slice();
        let small = ReadSize::Small;
        let (end, asker) = serve(alloc, &mut input, &mut answers, asker, small, 10);
        drop(asker);
        if end == Served::Memory {
            drop(answers);
            return Ok(Text::of(MEMORY));
        }
        let frames = FramesText(answers.get(self.place..).unwrap_or(&[]));
        let text = Text::of(format_args!("{end:?}{frames}"));
        let before = mem::replace(&mut self.answers, answers);
        drop(before);
        Ok(text)
    }

    fn client_deed(&mut self, word: &str, words: &mut Words) -> Result<Text, LineFault> {
        let alloc = self.alloc;
        let Some(client) = &mut self.client else {
            return Err(GrammarFault::NoLine.into());
        };
        match word {
            "send" => send_by(alloc, client, &mut self.written, words),
            "again" => again(alloc, client, &mut self.written, words),
            "receive" => receive(client, &self.answers, &mut self.place, words),
            "says" => says(words),
            _ => session_deed(alloc, client, word, words),
        }
    }
}

fn request(alloc: Global, kind: &str) -> Result<Request, LineFault> {
    match kind {
        "insert" => Ok(Request::insert(alloc, b"a", b"x")?),
        "retrieve" => Ok(Request::retrieve(alloc, b"a")?),
        "remove" => Ok(Request::remove(alloc, b"a", b"y")?),
        _ => Err(GrammarFault::NoLine.into()),
    }
}

/// Sends a request that keeps the limits.
pub fn send<W: Write>(
    client: &mut WireClient,
    writer: &mut W,
    request: Request,
) -> Result<u64, SendFault> {
    if request.check().is_err() {
        drop(request);
        return Err(SendFault::Memory);
    }
    client.send(writer, request)
}

/// A writer that has room, so that its own growth is not the one refused.
fn writer(alloc: Global, words: &mut Words) -> Result<Limited<Vec<u8>>, LineFault> {
    let limits = limits_after(words, "writes")?;
    Ok(Limited::new(Vec::with_capacity(alloc, 64)?, limits))
}

fn send_by(
    alloc: Global,
    client: &mut WireClient,
    written: &mut Vec<u8>,
    words: &mut Words,
) -> Result<Text, LineFault> {
    let mut writer = writer(alloc, words)?;
    let request = request(alloc, words.word()?)?;
    written.reserve(64)?;
    let text = match send(client, &mut writer, request) {
        Ok(number) => name_of(&number),
        Err(fault) => name_of(&fault),
    };
    Ok(told_and_wrote(text, written, writer.inner)?)
}

/// What a client was told, and what it wrote, which is added to what it wrote before.
fn told_and_wrote(told: Text, written: &mut Vec<u8>, wrote: Vec<u8>) -> Result<Text, AllocError> {
    let told = told.as_str();
    let frames = FramesText(&wrote);
    let text = Text::of(format_args!("{told}{frames}"));
    written.extend_from_slice(&wrote)?;
    Ok(text)
}

fn again(
    alloc: Global,
    client: &mut WireClient,
    written: &mut Vec<u8>,
    words: &mut Words,
) -> Result<Text, LineFault> {
    let mut writer = writer(alloc, words)?;
    let number = words.number()?;
    written.reserve(64)?;
    let told = result_text(client.again(&mut writer, number));
    Ok(told_and_wrote(told, written, writer.inner)?)
}

/// The next answer of its server.
fn receive(
    client: &mut WireClient,
    answers: &[u8],
    place: &mut usize,
    words: &mut Words,
) -> Result<Text, LineFault> {
    let limits = limits_after(words, "reads")?;
    let turns = number_after(words, "turns", 10)?;
    let mut reader = Limited::new(answers.get(*place..).unwrap_or(&[]), limits);
    let received = client.receive(&mut reader, turns);
    *place = answers.len().saturating_sub(reader.inner.len());
    Ok(received_text(received))
}

fn received_text(received: Result<(u64, Answer), ReceiveFault>) -> Text {
    let text = match &received {
        Ok((number, answer)) => {
            let answer = answer_text(answer);
            let answer = answer.as_str();
            Text::of(format_args!("{number}: {answer}"))
        }
        Err(ReceiveFault::Call(CallFault::Memory)) => Text::of(MEMORY),
        Err(fault) => name_of(fault),
    };
    drop(received);
    text
}

/// The text of a fault.
fn says(words: &mut Words) -> Result<Text, LineFault> {
    match words.word()? {
        "ended" => Ok(Text::of(ReceiveFault::Call(CallFault::Ended))),
        "idle" => Ok(Text::of(ReceiveFault::Idle)),
        "full" => Ok(Text::of(SendFault::WindowFull)),
        "not-refused" => Ok(Text::of(AgainFault::NotRefused)),
        _ => Err(GrammarFault::NoLine.into()),
    }
}

/// Begins, resumes or closes a session.
fn session_deed(
    alloc: Global,
    client: &mut WireClient,
    word: &str,
    words: &mut Words,
) -> Result<Text, LineFault> {
    let limits = limits_after(words, "reads")?;
    let turns = number_after(words, "turns", 10)?;
    let room = number_after(words, "room", u64::MAX)?;
    let answers = frames(alloc, words)?;
    let mut reader = Limited::new(answers.as_slice(), limits);
    let mut writer = Cut::new(Vec::with_capacity(alloc, 128)?, room as usize);
    let text = match word {
        "begin" => result_text(client.begin(&mut reader, &mut writer, TOKEN, turns)),
        "resume" => result_text(client.resume(&mut reader, &mut writer, TOKEN, turns)),
        "close" => result_text(client.close(&mut reader, &mut writer, turns)),
        _ => return Err(GrammarFault::NoLine.into()),
    };
    let text = text.as_str();
    let frames = FramesText(&writer.inner);
    let text = Text::of(format_args!("{text}{frames}"));
    drop(writer);
    Ok(text)
}

fn result_text<F: Debug + Drop>(told: Result<(), F>) -> Text {
    match told {
        Ok(()) => Text::of("Ok"),
        Err(fault) => name_of(&fault),
    }
}
