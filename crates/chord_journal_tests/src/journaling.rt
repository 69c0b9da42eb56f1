//! Scripts of one buffer.
//!
//! - `did insert abc x added`, `did remove abc x absent`, `did retrieve abc values`: a request that
//!   was executed, with its reply. A word `x:` with hexadecimal digits is bytes, `x:-` none.
//! - `none`: a buffer without a journal from here on.
//! - `take`: takes out what is there.
//! - `read 30`: the commands in the first 30 bytes, and then `between` two commands, or `open`
//!   within one.
//!
//! Behind `; ` stand the mark and the bytes.

use crate::shown::{CommandText, MarkText};
use chord_app_text::{Digits, GrammarFault, LineFault, Words};
use chord_journal::JournalBuffer;
use chord_map::{Bytes, Reply, Request, SharedValues};
use chord_resp::{Commands, ReadError};
use chord_testkit::{Fresh, MEMORY, Subject, Text, name_of};
use std::alloc::Global;

#[derive(Drop)]
pub struct Journaling {
    alloc: Global,
    buffer: JournalBuffer,
}

impl Fresh for Journaling {
    /// A journal with no change yet.
    fn fresh(alloc: Global) -> Journaling {
        Journaling {
            alloc,
            buffer: JournalBuffer::new(alloc),
        }
    }
}

impl Subject for Journaling {
    fn act(&mut self, words: &mut Words) -> Result<Text, LineFault> {
        match words.word()? {
            "did" => {
                let request = request(self.alloc, words)?;
                let reply = reply(words)?;
                Ok(did(&mut self.buffer, request, reply))
            }
            "none" => {
                self.buffer = JournalBuffer::none(self.alloc);
                Ok(Text::of("None"))
            }
            "take" => Ok(take(self.alloc, &mut self.buffer)),
            "read" => read(self.alloc, self.buffer.as_slice(), words.number()?),
            _ => Err(GrammarFault::NoLine.into()),
        }
    }

    fn show(&self) -> Text {
        Text::of(MarkText {
            mark: self.buffer.mark(),
            bytes: self.buffer.as_slice(),
        })
    }
}

fn bytes(alloc: Global, words: &mut Words) -> Result<Bytes, LineFault> {
    let word = words.word()?;
    let Some(digits) = word.strip_prefix("x:") else {
        return Ok(Bytes::from_slice(alloc, word.as_bytes())?);
    };
    match Digits::of_word(digits.as_bytes()) {
        Some(digits) => Ok(digits.bytes(alloc)?),
        None => Err(GrammarFault::NoLine.into()),
    }
}

fn request(alloc: Global, words: &mut Words) -> Result<Request, LineFault> {
    let kind = words.word()?;
    let key = bytes(alloc, words)?;
    match kind {
        "insert" => {
            let value = bytes(alloc, words)?;
            Ok(Request::Insert { key, value })
        }
        "remove" => {
            let value = bytes(alloc, words)?;
            Ok(Request::Remove { key, value })
        }
        "retrieve" => Ok(Request::Retrieve { key }),
        _ => Err(GrammarFault::NoLine.into()),
    }
}

fn reply(words: &mut Words) -> Result<Reply, LineFault> {
    match words.word()? {
        "added" => Ok(Reply::Added),
        "present" => Ok(Reply::Present),
        "setfull" => Ok(Reply::SetFull),
        "values" => Ok(Reply::Values(SharedValues::empty())),
        "removed" => Ok(Reply::Removed),
        "absent" => Ok(Reply::Absent),
        _ => Err(GrammarFault::NoLine.into()),
    }
}

/// The buffer hears of a request and its reply, as in the step that executes one.
fn did(buffer: &mut JournalBuffer, request: Request, reply: Reply) -> Text {
    let text = match buffer.reserve(&request) {
        Ok(()) => {
            buffer.append(&request, &reply);
            Text::of("Done")
        }
        Err(_) => Text::of(MEMORY),
    };
    drop(request);
    drop(reply);
    text
}

fn take(alloc: Global, buffer: &mut JournalBuffer) -> Text {
    let piece = buffer.take(Vec::new(alloc));
    let text = Text::of(MarkText {
        mark: piece.mark,
        bytes: &piece.bytes,
    });
    drop(piece);
    text
}

/// What the reader of commands finds in the first bytes.
fn read(alloc: Global, bytes: &[u8], count: u64) -> Result<Text, LineFault> {
    let Some(front) = bytes.get(..count as usize) else {
        return Err(GrammarFault::NoLine.into());
    };
    let mut commands = Commands::new(alloc);
    commands.feed(front)?;
    let found = found_by(&mut commands);
    let is_between = commands.is_between();
    drop(commands);
    let end = if is_between { "between" } else { "open" };
    match found {
        Ok(found) => {
            let found = found.as_str();
            Ok(Text::of(format_args!("Read{found} {end}")))
        }
        Err(ReadError::Memory) => Err(LineFault::OutOfMemory),
        Err(fault) => Ok(name_of(&fault)),
    }
}

/// The commands of a stream, each behind a space and with a comma.
fn found_by(commands: &mut Commands) -> Result<Text, ReadError> {
    let mut found = Text::of("");
    for _ in 0..8u64 {
        let Some(words) = commands.next()? else {
            return Ok(found);
        };
        let so_far = found.as_str();
        let command = CommandText(&words);
        found = Text::of(format_args!("{so_far}{command},"));
        drop(words);
    }
    Ok(found)
}
