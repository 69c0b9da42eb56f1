//! Connections of a session, over memory.

use crate::askers::{NO_TROUBLE, SLOW, Script, Scripted, Trouble, drive as drive_link};
use crate::frames::{frames, frames_of};
use crate::options::differs;
use crate::shown::{FramesText, first_frame};
use chord_app_text::{GrammarFault, LineFault, Words};
use chord_serve::{
    ClientSession, FrameProtocol, KeptSessions, Link, Pair, Parted, ReadSize, Served, SessionTable,
    drive, tell_opened,
};
use chord_serve_testkit::{Cut, Limited, Limits, greeted};
use chord_testkit::{Fresh, Subject, Text, number_after, two_numbers};
use chord_wire::{SessionFrames, Token};
use std::alloc::Global;
use std::mem;

/// The answers to the twelve requests.
pub const ANSWERS: &str = "added.1 values.2.x removed.3 added.4 present.5 values.6.x added.7 \
    values.8.y absent.9 removed.10 values.11.x values.12";

/// All bytes of a connection.
pub const ALL: (usize, usize) = (usize::MAX, usize::MAX);

/// What a connection of a session wrote, how it ended, and what it left of the session.
#[derive(Drop)]
pub struct Visited {
    pub end: Served,
    pub written: Vec<u8>,
    pub left: Parted<Scripted>,
}

/// A connection of a session, which should begin with an open, and breaks once these numbers of
/// bytes came in or went out.
pub fn visit(
    alloc: Global,
    input: &[u8],
    (most_in, most_out): (usize, usize),
    client: ClientSession<Scripted>,
) -> Visited {
    let mut reader = Cut::new(input, most_in);
    let mut writer = Cut::new(Vec::new(alloc), most_out);
    let mut frames = SessionFrames::new(alloc);
    let is_told = greeted(&mut reader, &mut frames, 10).is_some()
        && tell_opened(alloc, &mut writer, &client).is_ok();
    let mut protocol = FrameProtocol::new(frames, client, true);
    let mut end = Served::Write;
    if is_told {
        let small = ReadSize::Small;
        end = drive(alloc, &mut protocol, &mut reader, &mut writer, small, 10);
    }
    Visited {
        end,
        written: writer.inner,
        left: protocol.into_parted(),
    }
}

/// A new session over a plain map.
pub fn new_session(alloc: Global) -> ClientSession<Scripted> {
    ClientSession::new(alloc, Scripted::new(alloc, NO_TROUBLE))
}

/// The session, if it can go on.
pub fn kept(left: Parted<Scripted>) -> Option<ClientSession<Scripted>> {
    match left {
        Parted::Kept(client) => Some(client),
        Parted::Over(asker) => {
            drop(asker);
            None
        }
    }
}

/// How many requests were asked.
pub fn count_asked(asker: Scripted) -> usize {
    let asked = asker.requests.len();
    drop(asker);
    asked
}

/// Scripts of a session over a plain map.
///
/// - `visit resume twelve`: a connection with these frames; `in 40` and `out 40` before them break
///   it after 40 bytes of its input, or of its output. What comes is its end, and what was
///   written; if the session is over, how many requests were asked. `end`: ends the session, and
///   tells how many were asked.
/// - `twice in 0..309`, `twice out 0..236`: the twelve requests over two connections, of which the
///   first breaks after each number of bytes, without its open. Over the second the client sends
///   again what has no whole answer.
/// - `memory`: begins another one, whose asker has no memory for its first request.
/// - `keep insert.1/0.a.x`: the bytes of the kept answers of a session behind these frames, and of
///   two such sessions that are kept.
/// - `link 7x3 1 twelve`: a link with reads of 7 bytes and writes of 3, whose requests are stopped
///   behind one try; `slow 7x3 1 twelve`: one over an asker that answers at the third try. Behind
///   the tries `room 40` breaks its stream behind 40 bytes of output. What is left of the session
///   stands behind the answers, then how many bytes the link holds of a frame in part and of
///   answers that are not written, if it does, and `not done` if it is not.
///
/// Behind `; ` stand the session's floor, its last number, and the bytes of its kept answers.
#[derive(Drop)]
pub struct Visits {
    alloc: Global,
    client: Option<ClientSession<Scripted>>,
}

impl Fresh for Visits {
    fn fresh(alloc: Global) -> Visits {
        Visits {
            alloc,
            client: Some(new_session(alloc)),
        }
    }
}

impl Subject for Visits {
    fn act(&mut self, words: &mut Words) -> Result<Text, LineFault> {
        let alloc = self.alloc;
        match words.word()? {
            "visit" => self.visit(words),
            "end" => Ok(self.end()),
            "twice" => twice_each(alloc, words),
            "memory" => {
                let asker = Scripted::new(alloc, Script::of(1, Trouble::Memory));
                let client = ClientSession::new(alloc, asker);
                let before = mem::replace(&mut self.client, Some(client));
                drop(before);
                Ok(Text::of("Begun"))
            }
            "keep" => keep(alloc, words),
            "link" => link(alloc, NO_TROUBLE, words),
            "slow" => link(alloc, SLOW, words),
            _ => Err(GrammarFault::NoLine.into()),
        }
    }

    fn show(&self) -> Text {
        match &self.client {
            Some(client) => numbers(client),
            None => Text::of("no session"),
        }
    }
}

fn numbers(client: &ClientSession<Scripted>) -> Text {
    let floor = client.floor();
    let last = client.last();
    let bytes = client.bytes();
    Text::of(format_args!("floor {floor}, last {last}, kept {bytes}"))
}

impl Visits {
    fn visit(&mut self, words: &mut Words) -> Result<Text, LineFault> {
        let most_in = number_after(words, "in", u64::MAX)? as usize;
        let most_out = number_after(words, "out", u64::MAX)? as usize;
        let input = frames(self.alloc, words)?;
        let Some(client) = mem::replace(&mut self.client, None) else {
            return Err(GrammarFault::NoLine.into());
        };
        let most = (most_in, most_out);
        let Visited { end, written, left } = visit(self.alloc, &input, most, client);
        let frames = FramesText(&written);
        let text = Text::of(format_args!("{end:?}{frames}"));
        match left {
            Parted::Kept(client) => {
                let before = mem::replace(&mut self.client, Some(client));
                drop(before);
                Ok(text)
            }
            Parted::Over(asker) => {
                let asked = count_asked(asker);
                Ok(text.and(format_args!(", over, asked {asked}"), 32))
            }
        }
    }

    fn end(&mut self) -> Text {
        let Some(client) = mem::replace(&mut self.client, None) else {
            return Text::of("no session");
        };
        let asked = count_asked(client.into_asker());
        Text::of(format_args!("asked {asked}"))
    }
}

/// How many whole frames these bytes begin with, and how many bytes these have together.
fn whole(bytes: &[u8]) -> (usize, usize) {
    let mut rest = bytes;
    let mut count = 0usize;
    for _ in 0..bytes.len() {
        let Some((_, behind)) = first_frame(rest) else {
            break;
        };
        count = count.saturating_add(1);
        rest = behind;
    }
    (count, bytes.len().saturating_sub(rest.len()))
}

/// What comes after this number of frames.
fn behind(bytes: &[u8], count: usize) -> &[u8] {
    let mut rest = bytes;
    for _ in 0..count {
        if let Some((_, behind)) = first_frame(rest) {
            rest = behind;
        }
    }
    rest
}

fn twice_each(alloc: Global, words: &mut Words) -> Result<Text, LineFault> {
    let is_in = words.word()? == "in";
    let (first, last) = two_numbers(words, "..")?;
    let mut all: Option<Text> = None;
    for most in first..=last {
        let came = if is_in {
            twice(alloc, most as usize, usize::MAX)?
        } else {
            twice(alloc, 309, most as usize)?
        };
        if let Some(other) = differs(&mut all, most, came) {
            return Ok(other);
        }
    }
    Ok(all.unwrap_or(Text::of("none")))
}

/// How the first connection ended, whether its whole answers and then those of the second are the
/// answers, behind the floor and the last number that are due, and how many requests were asked.
fn twice(alloc: Global, most_in: usize, most_out: usize) -> Result<Text, LineFault> {
    let script = frames_of(alloc, "twelve")?;
    let wanted = frames_of(alloc, ANSWERS)?;
    let input = frames_of(alloc, "resume twelve")?;
    let most = (most_in.saturating_add(39), most_out);
    let Visited { end, written, left } = visit(alloc, &input, most, new_session(alloc));
    let told = written.get(30..).unwrap_or(&[]);
    let (answered, heard) = whole(told);
    let is_begun = wanted.get(..heard) == told.get(..heard);
    drop(written);
    // A server that could not write the opened had read no request.
    let read = if most_out < 30 { 0 } else { most_in };
    let last = whole(script.get(..read).unwrap_or(&script)).0;
    let Some(client) = kept(left) else {
        return Ok(Text::of("over"));
    };
    let mut rest = frames_of(alloc, "resume")?;
    rest.extend_from_slice(behind(&script, answered))?;
    let text = Text::of(format_args!("opened.0.{last}"));
    let mut due = frames_of(alloc, text.as_str())?;
    due.extend_from_slice(wanted.get(heard..).unwrap_or(&[]))?;
    let Visited { written, left, .. } = visit(alloc, &rest, ALL, client);
    let name = if is_begun && written == due {
        "whole"
    } else {
        "other answers"
    };
    let asked = count_asked(left.into_asker());
    Ok(Text::of(format_args!("{end:?}, {name}, asked {asked}")))
}

/// The session behind a connection with these frames.
fn after(alloc: Global, input: &[u8]) -> Result<ClientSession<Scripted>, LineFault> {
    let told = visit(alloc, input, ALL, new_session(alloc));
    drop(told.written);
    match kept(told.left) {
        Some(client) => Ok(client),
        None => Err(GrammarFault::NoLine.into()),
    }
}

fn keep(alloc: Global, words: &mut Words) -> Result<Text, LineFault> {
    let input = frames(alloc, words)?;
    let client = after(alloc, &input)?;
    let bytes = client.bytes();
    let (first, second) = (Token { bytes: [1; 16] }, Token { bytes: [2; 16] });
    let mut sessions = KeptSessions::new(alloc);
    let none = sessions.bytes();
    drop(sessions.keep(first, 1, client));
    drop(sessions.keep(second, 2, after(alloc, &input)?));
    let two = sessions.bytes();
    drop(sessions.take(first));
    let one = sessions.bytes();
    drop(sessions);
    let mut table = SessionTable::new(alloc);
    drop(table.part(first, 1, after(alloc, &input)?));
    drop(table.part(second, 2, after(alloc, &input)?));
    let held = table.kept_bytes();
    drop(table);
    Ok(Text::of(format_args!("{bytes}: none {none}, two {two}, one {one}, of a table {held}")))
}

/// A link over a session that was opened: the most bytes of a read and of a write, how many tries a
/// request has, and the frames.
fn link(alloc: Global, script: Script, words: &mut Words) -> Result<Text, LineFault> {
    let (read, write) = two_numbers(words, "x")?;
    let patience = (words.number()? % 0x100) as u32;
    let room = number_after(words, "room", u64::MAX)? as usize;
    let input = frames(alloc, words)?;
    let limits = |step: u64| Limits {
        step: step as usize,
        calls: 10_000,
    };
    let mut writer = Cut::new(Limited::new(Vec::new(alloc), limits(write)), room);
    let reader = Limited::new(input.as_slice(), limits(read));
    let client = ClientSession::new(alloc, Scripted::new(alloc, script));
    let protocol = FrameProtocol::new(SessionFrames::new(alloc), client, true);
    let stream = Pair {
        reader,
        writer: &mut writer,
    };
    let mut link = Link::new(alloc, protocol, stream);
    let mut buffer = [0u8; 4_096];
    drive_link(&mut link, &mut buffer, patience);
    link.told();
    let end = link.end();
    let is_done = link.is_done() && !link.wants_read() && !link.wants_write();
    let mark = if is_done { "" } else { ", not done" };
    let held = held(link.partial(), link.unwritten());
    let held = held.as_str();
    let left = match kept(link.into_protocol().into_parted()) {
        Some(client) => {
            let text = numbers(&client);
            drop(client);
            text
        }
        None => Text::of("over"),
    };
    let left = left.as_str();
    let frames = FramesText(&writer.inner.inner);
    Ok(Text::of(format_args!("{end:?}{frames}, {left}{held}{mark}")))
}

/// What a link holds of a frame in part, and of answers, if it does.
fn held(partial: u64, unwritten: u64) -> Text {
    match (partial, unwritten) {
        (0, 0) => Text::of(""),
        (partial, 0) => Text::of(format_args!(", partial {partial}")),
        (0, unwritten) => Text::of(format_args!(", unwritten {unwritten}")),
        (partial, unwritten) => {
            Text::of(format_args!(", partial {partial}, unwritten {unwritten}"))
        }
    }
}
