//! Scripts of a file of whole commands over a device that fails.
//!
//! - `append abc`: adds bytes.
//! - `write fails`, `write adds 2`, `cut fails`, `sync fails`: what the next call does.
//! - `sync`: brings what was written to the disk.
//!
//! Behind `; ` stand the bytes of the device, and how many syncs were tried.

use crate::device::{FailingDevice, Next};
use chord_app_text::{GrammarFault, LineFault, Words};
use chord_journal_file::{JournalFile, Syncing};
use chord_testkit::{Fresh, Subject, Text};
use std::alloc::Global;

#[derive(Drop)]
struct Parts {
    device: FailingDevice,
    file: JournalFile<FailingDevice>,
    syncing: Syncing<FailingDevice>,
}

#[derive(Drop)]
pub struct Appending {
    /// None where there is no memory for it.
    parts: Option<Parts>,
}

fn make_parts(alloc: Global) -> Option<Parts> {
    let device = FailingDevice::new(alloc).ok()?;
    let file = JournalFile::new(device.handle().ok()?, 0);
    let syncing = Syncing::new(file.second().ok()?);
    Some(Parts {
        device,
        file,
        syncing,
    })
}

impl Fresh for Appending {
    fn fresh(alloc: Global) -> Appending {
        Appending {
            parts: make_parts(alloc),
        }
    }
}

/// What the next call does.
fn next(words: &mut Words) -> Result<Next, LineFault> {
    match words.word()? {
        "fails" => Ok(Next::Fails),
        "adds" => Ok(Next::Adds(words.number()? as usize)),
        _ => Err(GrammarFault::NoLine.into()),
    }
}

impl Parts {
    fn append(&mut self, bytes: &[u8]) -> Text {
        match self.file.append(bytes) {
            Ok(()) => Text::of("Ok"),
            Err(fault) => Text::of(fault),
        }
    }

    fn sync(&mut self) -> Text {
        match self.syncing.sync() {
            Ok(()) => Text::of("Ok"),
            Err(fault) => Text::of(fault),
        }
    }

    fn set(&self, what: &str, next: Next) -> Text {
        let Some(mut disk) = self.device.disk() else {
            return Text::of("Locked");
        };
        match what {
            "write" => disk.write = next,
            "cut" => disk.cut = next,
            _ => disk.sync = next,
        }
        Text::of("Set")
    }

    fn shown(&self) -> Text {
        let Some(disk) = self.device.disk() else {
            return Text::of("Locked");
        };
        let length = self.file.length();
        let syncs = disk.syncs;
        match std::str::from_utf8(&disk.bytes) {
            Ok(bytes) => Text::of(format_args!("{bytes} of {length}, synced {syncs}")),
            Err(_) => Text::of("no text"),
        }
    }
}

impl Subject for Appending {
    fn act(&mut self, words: &mut Words) -> Result<Text, LineFault> {
        let Some(parts) = &mut self.parts else {
            return Err(LineFault::OutOfMemory);
        };
        match words.word()? {
            "append" => Ok(parts.append(words.word()?.as_bytes())),
            "sync" => match words.end() {
                Ok(()) => Ok(parts.sync()),
                Err(_) => Ok(parts.set("sync", next(words)?)),
            },
            "write" => Ok(parts.set("write", next(words)?)),
            "cut" => Ok(parts.set("cut", next(words)?)),
            _ => Err(GrammarFault::NoLine.into()),
        }
    }

    fn show(&self) -> Text {
        match &self.parts {
            Some(parts) => parts.shown(),
            None => Text::of("none"),
        }
    }
}
