//! Scripts of connections over memory, each alone.
//!
//! - `serve three`: a server over a plain map answers these frames; `full`, `late`: one that
//!   answers new requests by fault 10, or 11, and asks the map when they are asked again; `memory
//!   2`: one that has no memory at its second request.
//! - `greet resume`: what is known of a connection that begins so, and how many bytes are taken.
//! - `call 1 added.1`: what a call of version 1 that inserts x under a is told by these bytes, and
//!   what it wrote. `call-on 2 added.1`: with the same stream of answers.
//! - `tell known`, `tell none`, `tell spent room 6`: what is written where no session begins, with
//!   room for six bytes.
//! - `small-reads`, `large-reads`: their most bytes. `due 3 2`: output of 3 bytes and then of 2.
//!   `anew`: the session of a connection.
//!
//! Before frames may stand, in this order, `cut 1..18`, with each of these lengths of the frames
//! the same comes; `values 15`, 15 values of 4,096 bytes are under a; `reads 7x3` and `writes
//! 7x3`, at most 7 bytes a call, of which the fourth fails; `large` reads; and `turns 5`. What
//! comes is the end, what was written, how many requests were asked, how often and with which floor
//! they were asked again, and how many reads and writes did not fail.

use crate::askers::{NO_TROUBLE, Script, Scripted, Trouble};
use crate::frames::frames;
use crate::options::{Devices, devices_after, differs, front, lengths};
use crate::shown::{FramesText, answer_text};
use chord_app_text::{GrammarFault, Hex, LineFault, Words};
use chord_map::Request;
use chord_serve::{
    CallFault, ClientSession, Due, ReadSize, Served, call, call_2, first_opening, serve,
    tell_callers_spent, tell_no_session, tell_session_known,
};
use chord_serve_testkit::{Cut, Limited};
use chord_testkit::{Fresh, MEMORY, Subject, Text, name_of, number_after, yes_or_no};
use chord_wire::{Answer, Answers, SessionFrames};
use std::alloc::Global;
use std::mem;

#[derive(Drop)]
pub struct Serving {
    alloc: Global,
    /// The stream of answers of calls.
    answers: Answers,
    /// What was written when memory was refused.
    refused: Vec<u8>,
}

impl Fresh for Serving {
    fn fresh(alloc: Global) -> Serving {
        Serving {
            alloc,
            answers: Answers::new(alloc),
            refused: Vec::new(alloc),
        }
    }
}

impl Subject for Serving {
    fn act(&mut self, words: &mut Words) -> Result<Text, LineFault> {
        let alloc = self.alloc;
        let refused = &mut self.refused;
        match words.word()? {
            "call" => {
                let before = mem::replace(&mut self.answers, Answers::new(alloc));
                drop(before);
                call_over(alloc, &mut self.answers, words)
            }
            "call-on" => call_over(alloc, &mut self.answers, words),
            "serve" => connection(alloc, refused, Some(NO_TROUBLE), words),
            "full" => { connection(alloc, refused, Some(Script::of(0, Trouble::Full)), words) }
            "late" => {
                connection(
                    alloc,
                    refused,
                    Some(Script::of(0, Trouble::NoAnswer)),
                    words,
                )
            }
            "memory" => {
                let number = words.number()? as usize;
                connection(
                    alloc,
                    refused,
                    Some(Script::of(number, Trouble::Memory)),
                    words,
                )
            }
            "greet" => connection(alloc, refused, None, words),
            "tell" => tell(alloc, words),
            word => sizes(alloc, word, words),
        }
    }

    fn show(&self) -> Text {
        Text::of("")
    }
}

/// A connection with each length of its frames; a greeting alone where no script says how it is
/// answered.
fn connection(
    alloc: Global,
    refused: &mut Vec<u8>,
    script: Option<Script>,
    words: &mut Words,
) -> Result<Text, LineFault> {
    let lengths = lengths(words)?;
    let values = number_after(words, "values", 0)?;
    let devices = devices_after(words)?;
    let input = frames(alloc, words)?;
    let (first, last) = lengths.unwrap_or((input.len() as u64, input.len() as u64));
    let mut all: Option<Text> = None;
    for len in first..=last {
        let front = front(&input, len)?;
        let came = match script {
            Some(script) => connect(alloc, refused, (script, values), devices, front)?,
            None => greeted(alloc, front),
        };
        if let Some(other) = differs(&mut all, len, came) {
            return Ok(other);
        }
    }
    Ok(all.unwrap_or(Text::of("none")))
}

/// The writer has room, so that its own growth is not the one refused.
fn connect(
    alloc: Global,
    refused: &mut Vec<u8>,
    (script, values): (Script, u64),
    devices: Devices,
    input: &[u8],
) -> Result<Text, LineFault> {
    let room = Vec::with_capacity(alloc, 256)?;
    let mut asker = Scripted::new(alloc, script);
    asker.fill(alloc, values)?;
    let mut reader = Limited::new(input, devices.reads);
    let mut writer = Limited::new(room, devices.writes);
    let Devices { size, turns, .. } = devices;
    let (end, asker) = serve(alloc, &mut reader, &mut writer, asker, size, turns);
    let frames = FramesText(&writer.inner);
    let facts = facts(script, &asker);
    let facts = facts.as_str();
    let (reads, writes) = (reader.calls, writer.calls);
    let text = Text::of(format_args!("{end:?}{frames}, {facts}, reads {reads}, writes {writes}"));
    drop(asker);
    if script.trouble == Trouble::Memory {
        drop(writer);
        return Ok(text);
    }
    Ok(come_again(refused, end == Served::Memory, writer.inner, text))
}

fn facts(script: Script, asker: &Scripted) -> Text {
    let asked = asker.requests.len();
    let text = Text::of(format_args!("asked {asked}"));
    if script.number != 0 {
        return text;
    }
    let retried = asker.retried;
    let floor = asker.floor;
    text.and(format_args!(", retried {retried}, floor {floor}"), 64)
}

fn are_whole(written: &[u8]) -> bool {
    !Text::of(FramesText(written)).as_str().contains(" x.")
}

/// The text; `Memory` where memory was refused and whole frames were written, with which the next
/// try must begin.
fn come_again(refused: &mut Vec<u8>, is_refused: bool, written: Vec<u8>, text: Text) -> Text {
    let goes_on = written.starts_with(refused);
    let are_whole = are_whole(&written);
    let before = mem::replace(refused, written);
    drop(before);
    if is_refused && are_whole {
        return Text::of(MEMORY);
    }
    refused.clear();
    if goes_on {
        text
    } else {
        Text::of("other frames than before memory was refused")
    }
}

/// `more` where it is not known yet whether a session begins or goes on.
fn greeted(alloc: Global, input: &[u8]) -> Text {
    let mut frames = SessionFrames::new(alloc);
    let opening = match frames.feed(input) {
        Ok(()) => first_opening(&mut frames),
        Err(_) => Err(Served::Memory),
    };
    let taken = input.len().saturating_sub(frames.left());
    drop(frames);
    let (name, token) = match opening {
        Ok(None) => ("more", None),
        Ok(Some(None)) => ("no open", None),
        Ok(Some(Some(opening))) if opening.resumes => ("resume", Some(opening.token)),
        Ok(Some(Some(opening))) => ("open", Some(opening.token)),
        Err(end) => return name_of(&end),
    };
    let text = Text::of(format_args!("{name}, taken {taken}"));
    match token {
        Some(token) => {
            let token = Hex(&token.bytes);
            text.and(format_args!(", token {token}"), 64)
        }
        None => text,
    }
}

/// Calls number 1 of a version, with floor 0.
fn call_over(alloc: Global, answers: &mut Answers, words: &mut Words) -> Result<Text, LineFault> {
    let version = words.number()?;
    let limits = devices_after(words)?;
    let input = frames(alloc, words)?;
    let request = Request::insert(alloc, b"a", b"x")?;
    let room = Vec::with_capacity(alloc, 64)?;
    let mut reader = Limited::new(input.as_slice(), limits.reads);
    let mut writer = Limited::new(room, limits.writes);
    let (reading, writing, turns) = (&mut reader, &mut writer, limits.turns);
    let answer = if request.check().is_err() {
        Err(CallFault::Ended)
    } else if version == 1 {
        call(alloc, reading, writing, answers, 1, &request, turns)
    } else {
        call_2(alloc, reading, writing, answers, 1, 0, &request, turns)
    };
    drop(request);
    let text = called_text(answer, reader.calls, &writer.inner);
    drop(writer);
    Ok(text)
}

fn called_text(answer: Result<Answer, CallFault>, reads: u64, written: &[u8]) -> Text {
    let text = match &answer {
        Ok(answer) => answer_text(answer),
        Err(CallFault::Memory) if are_whole(written) => return Text::of(MEMORY),
        Err(fault) => name_of(fault),
    };
    drop(answer);
    let text = text.as_str();
    let frames = FramesText(written);
    Text::of(format_args!("{text}, reads {reads}, wrote{frames}"))
}

/// What a client is told.
fn tell(alloc: Global, words: &mut Words) -> Result<Text, LineFault> {
    let name = words.word()?;
    let most = number_after(words, "room", u64::MAX)?;
    let mut writer = Cut::new(Vec::with_capacity(alloc, 64)?, most as usize);
    let told = match name {
        "known" => tell_session_known(alloc, &mut writer),
        "none" => tell_no_session(alloc, &mut writer),
        _ => tell_callers_spent(alloc, &mut writer),
    };
    let name = if told.is_ok() { "told" } else { "not told" };
    let frames = FramesText(&writer.inner);
    let text = Text::of(format_args!("{name}{frames}"));
    drop(writer);
    Ok(text)
}

/// The sizes of reads and of output, and a session that has no number yet.
fn sizes(alloc: Global, word: &str, words: &mut Words) -> Result<Text, LineFault> {
    match word {
        "small-reads" => Ok(name_of(&ReadSize::Small.most_bytes())),
        "large-reads" => Ok(name_of(&ReadSize::Large.most_bytes())),
        "due" => due(alloc, words),
        "anew" => {
            let client = ClientSession::of_connection(alloc, Scripted::new(alloc, NO_TROUBLE));
            let (floor, last) = (client.floor(), client.last());
            let asker = client.into_asker();
            let asked = asker.requests.len();
            drop(asker);
            Ok(Text::of(format_args!("floor {floor}, last {last}, asked {asked}")))
        }
        _ => Err(GrammarFault::NoLine.into()),
    }
}

/// Output that is due: whether there is enough to be written, what is written, and what is once it
/// is cleared.
fn due(alloc: Global, words: &mut Words) -> Result<Text, LineFault> {
    let first = vec![in alloc; b'a'; words.number()? as usize]?;
    let second = vec![in alloc; b'b'; words.number()? as usize]?;
    let mut due = Due::new(alloc);
    due.add(&first)?;
    due.add(&second)?;
    let full = yes_or_no(due.is_full());
    let full = full.as_str();
    let mut written = Vec::new(alloc);
    let is_written = due.write_to(&mut written).is_ok()
        && written.get(..first.len()) == Some(first.as_slice())
        && written.get(first.len()..) == Some(second.as_slice());
    let len = written.len();
    due.clear(alloc);
    let is_cleared = due.write_to(&mut written).is_ok() && written.len() == len;
    drop(due);
    Ok(Text::of(format_args!("full {full}, wrote {len} {is_written}, then nothing {is_cleared}")))
}
