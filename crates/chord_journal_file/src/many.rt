//! A command with more members than a client may write, whose words come one by one.

use crate::read_fault::FaultKind;
use chord_map::limits::{KEY_BYTES, VALUE_BYTES};
use chord_map::{Bytes, Values};
use chord_resp::{Command, Word, is_text};
use std::alloc::Global;

/// What is known of it.
#[derive(Debug, Drop)]
enum Part {
    /// Its name comes.
    Name,
    /// Its key comes.
    Key { adds: bool },
    /// Members come.
    Members { adds: bool, key: Bytes },
}

/// A command of which this many words are still to come.
#[derive(Debug, Drop)]
pub(crate) struct Many {
    part: Part,
    left: u32,
}

/// The bytes of a word, if it has from `least` to `most`.
fn bytes_of(word: Word, least: usize, most: usize) -> Option<Bytes> {
    match word {
        Word::Whole(bytes) => {
            let length = bytes.as_slice().len();
            if least <= length && length <= most {
                Some(bytes)
            } else {
                None
            }
        }
        Word::Long(_) => None,
    }
}

/// The change that a name calls for: whether members are added.
fn adds(name: &Word) -> Result<bool, FaultKind> {
    if is_text(name, b"sadd") {
        Ok(true)
    } else if is_text(name, b"srem") {
        Ok(false)
    } else {
        Err(FaultKind::NoChange)
    }
}

/// The change of one member.
fn change(alloc: Global, adds: bool, key: &Bytes, member: Bytes) -> Result<Command, FaultKind> {
    let key = key.try_copy()?;
    let mut members = Values::new(alloc);
    members.push(member)?;
    if adds {
        Ok(Command::Add { key, members })
    } else {
        Ok(Command::Remove { key, members })
    }
}

impl Many {
    /// A command of this many words, of which none has come.
    pub fn begin(words: u32) -> Many {
        Many {
            part: Part::Name,
            left: words,
        }
    }

    /// Whether no further word comes.
    pub fn is_whole(&self) -> bool {
        self.left == 0
    }

    /// Takes the next word, and gives the change of a member.
    pub fn take(&mut self, alloc: Global, word: Word) -> Result<Option<Command>, FaultKind> {
        self.left = self.left.saturating_sub(1);
        match &self.part {
            Part::Name => {
                let adds = adds(&word)?;
                self.part = Part::Key { adds };
                Ok(None)
            }
            Part::Key { adds } => {
                let adds = *adds;
                let key = bytes_of(word, 1, KEY_BYTES).ok_or(FaultKind::KeyLength)?;
                self.part = Part::Members { adds, key };
                Ok(None)
            }
            Part::Members { adds, key } => {
                let member = bytes_of(word, 0, VALUE_BYTES).ok_or(FaultKind::MemberLength)?;
                Ok(Some(change(alloc, *adds, key, member)?))
            }
        }
    }
}
