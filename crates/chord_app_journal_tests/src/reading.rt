//! Scripts of one file that is read.
//!
//! - `text T`: adds bytes, in which `\r`, `\n`, `\0` and `\s` stand for one byte each.
//! - `command SADD abc x`: adds a command of these words, as an array.
//! - `many SADD abc 2000`: adds one command of 2,000 members, `m0`, `m1` and so on.
//! - `zeros 7`, `cut 30`: adds 7 bytes 0; cuts the file to 30 bytes.
//! - `scan`: how the file ends.
//! - `load 10`: its changes, read in pieces of 10 bytes, and how it ends.
//! - `count 10`: how many changes these are, and the last one.
//! - `cuts 10 30`: whether it ends behind the 10th byte wherever it is cut from there on to the
//!   30th.
//!
//! Behind `; ` stands how many bytes it has.

use crate::texts::{ChangeText, bytes_of};
use chord_app_text::{GrammarFault, LineFault, Words};
use chord_journal_file::{Ends, JournalReader, ReadFault, scan};
use chord_resp::{Command, put_bulk, put_count};
use chord_testkit::{Fresh, Subject, Text, name_of};
use std::alloc::{AllocError, Global};
use std::io::Cursor;

#[derive(Drop)]
pub struct Reading {
    alloc: Global,
    bytes: Vec<u8>,
}

impl Fresh for Reading {
    fn fresh(alloc: Global) -> Reading {
        Reading {
            alloc,
            bytes: Vec::new(alloc),
        }
    }
}

impl Subject for Reading {
    fn act(&mut self, words: &mut Words) -> Result<Text, LineFault> {
        match words.word()? {
            "text" => {
                let more = bytes_of(self.alloc, words.word()?)?;
                self.bytes.extend_from_slice(&more)?;
                Ok(Text::of("Added"))
            }
            "command" => self.add_command(words),
            "many" => self.add_many(words),
            "zeros" => {
                let more = words.number()?;
                self.bytes
                    .resize(self.bytes.len().saturating_add(more as usize), 0)?;
                Ok(Text::of("Added"))
            }
            "cut" => {
                self.bytes.truncate(words.number()? as usize);
                Ok(Text::of("Cut"))
            }
            "scan" => Ok(scanned(self.alloc, &self.bytes)),
            "load" => load(self.alloc, &self.bytes, words.number()?, Tells::Changes),
            "count" => load(self.alloc, &self.bytes, words.number()?, Tells::Count),
            "cuts" => Ok(cuts(self.alloc, &self.bytes, words.number()?, words.number()?)),
            _ => Err(GrammarFault::NoLine.into()),
        }
    }

    fn show(&self) -> Text {
        let count = self.bytes.len();
        Text::of(format_args!("{count} bytes"))
    }
}

impl Reading {
    /// Adds an array of words, of which there are at most four.
    fn add_command(&mut self, words: &mut Words) -> Result<Text, LineFault> {
        let mut spelled = Vec::new(self.alloc);
        let mut count: usize = 0;
        for _ in 0..4u64 {
            if let Ok(word) = words.word() {
                let bytes = bytes_of(self.alloc, word)?;
                put_bulk(&mut spelled, &bytes)?;
                count = count.saturating_add(1);
            }
        }
        put_count(&mut self.bytes, count)?;
        self.bytes.extend_from_slice(&spelled)?;
        Ok(Text::of("Added"))
    }

    fn add_many(&mut self, words: &mut Words) -> Result<Text, LineFault> {
        let name = words.word()?;
        let key = words.word()?;
        let members = words.number()?;
        put_count(&mut self.bytes, (members as usize).saturating_add(2))?;
        put_bulk(&mut self.bytes, name.as_bytes())?;
        put_bulk(&mut self.bytes, key.as_bytes())?;
        for member in 0..members {
            let text = Text::of(format_args!("m{member}"));
            put_bulk(&mut self.bytes, text.as_str().as_bytes())?;
        }
        Ok(Text::of("Added"))
    }
}

/// How a file of these bytes ends.
fn scanned(alloc: Global, bytes: &[u8]) -> Text {
    match scan(alloc, &mut Cursor::new(bytes)) {
        Ok(scanned) => {
            let whole = scanned.whole;
            let torn = scanned.torn;
            Text::of(format_args!("Whole {whole} torn {torn}"))
        }
        Err(fault) => Text::of(format_args!("{fault}")),
    }
}

/// Whether a file ends behind the first bytes wherever it is cut up to the last ones.
fn cuts(alloc: Global, bytes: &[u8], first: u64, last: u64) -> Text {
    for cut in first..last {
        let Some(front) = bytes.get(..cut as usize) else {
            return Text::of("Short");
        };
        let torn = cut.saturating_sub(first);
        let due = Text::of(format_args!("Whole {first} torn {torn}"));
        let came = scanned(alloc, front);
        if came.as_str() != due.as_str() {
            let came = came.as_str();
            return Text::of(format_args!("{cut}: {came}"));
        }
    }
    Text::of("Yes")
}

/// What is told of changes.
#[derive(Clone, Copy)]
enum Tells {
    Changes,
    Count,
}

/// The changes that were found.
#[derive(Drop)]
struct Found {
    changes: Text,
    count: u64,
    last: Text,
}

impl Found {
    fn note(&mut self, change: &Command) {
        let so_far = self.changes.as_str();
        let change = ChangeText(change);
        self.changes = Text::of(format_args!("{so_far} {change}"));
        self.last = Text::of(change);
        self.count = self.count.saturating_add(1);
    }
}

/// Notes all changes that were fed.
fn note_all(reader: &mut JournalReader, found: &mut Found) -> Result<(), ReadFault> {
    for _ in 0..u64::MAX {
        match reader.next()? {
            Some(change) => {
                found.note(&change);
                drop(change);
            }
            None => return Ok(()),
        }
    }
    Ok(())
}

/// Reads the pieces, and how they end.
fn note_pieces(
    reader: &mut JournalReader,
    bytes: &[u8],
    piece: usize,
    found: &mut Found,
) -> Result<Result<Ends, ReadFault>, AllocError> {
    for piece in bytes.chunks(piece.max(1)) {
        reader.feed(piece)?;
        if let Err(fault) = note_all(reader, found) {
            return Ok(Err(fault));
        }
    }
    Ok(reader.finish())
}

fn load(alloc: Global, bytes: &[u8], piece: u64, tells: Tells) -> Result<Text, LineFault> {
    let mut found = Found {
        changes: Text::of(""),
        count: 0,
        last: Text::of("none"),
    };
    let mut reader = JournalReader::new(alloc);
    let ends = note_pieces(&mut reader, bytes, piece as usize, &mut found)?;
    let whole = reader.whole();
    drop(reader);
    let ends = match ends {
        Ok(ends) => name_of(&ends),
        Err(fault) => Text::of(fault),
    };
    let ends = ends.as_str();
    let changes = found.changes.as_str();
    let count = found.count;
    let last = found.last.as_str();
    Ok(match tells {
        Tells::Changes => Text::of(format_args!("Read{changes}, {ends} {whole}")),
        Tells::Count => Text::of(format_args!("{count} to {last}, {ends} {whole}")),
    })
}
