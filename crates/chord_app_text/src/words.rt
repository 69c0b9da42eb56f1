//! The words of a line.
ghost use Rattle.std.specs.Prelude.{◌≡◌};
ghost use Rattle.chord_app_text.specs.declared.words.LineFault.TheVariants.{Grammar, OutOfMemory};

use crate::digits::Digits;
use crate::grammar_fault::GrammarFault;
use chord_ident::Id;
use chord_map::Bytes;
use std::alloc::{AllocError, AllocFailed, Global};

/// Why a line can't be read.
#[derive(Clone, Copy, Debug, PartialEq, Eq)]
pub enum LineFault {
    /// It is outside the grammar.
    Grammar(GrammarFault),
    OutOfMemory,
}

impl From<GrammarFault> for LineFault {
    ghost from_gives = { λ why fault. fault ≡ Grammar why };

    fn from(why: GrammarFault) -> LineFault {
        LineFault::Grammar(why)
    }
}

impl From<AllocError> for LineFault {
    ghost from_gives = { λ _ fault. fault ≡ OutOfMemory };

    fn from(_refused: AllocError) -> LineFault {
        LineFault::OutOfMemory
    }
}

impl<T: Drop> From<AllocFailed<T>> for LineFault {
    ghost from_gives = { λ _ fault. fault ≡ OutOfMemory };

    fn from(_refused: AllocFailed<T>) -> LineFault {
        LineFault::OutOfMemory
    }
}

/// The words of a line that are still to be read, with one space between words.
#[derive(Clone, Copy, Debug)]
pub struct Words<'a> {
    rest: Option<&'a str>,
    /// How many words were read.
    read: u64,
}

impl<'a> Words<'a> {
    ghost use Rattle.std.specs.Prelude.{◌≡◌, not};
    ghost use Rattle.chord_app_text.specs.Words.{BytesAre, WordIs, end_of, is_none_of, words_left, words_of};

    /// The words of a line.
    pub fn new(line: &'a str) -> Words<'a>
        ensures words { words_left result ≡ words_of line.now }
        ensures read { result.read ≡ 0 }
    {
        Words {
            rest: Some(line),
            read: 0,
        }
    }

    /// The next word.
    pub fn word(&mut self) -> Result<&'a str, LineFault>
        ensures { WordIs self.old result self.new }
    {
        self.read = self.read.saturating_add(1);
        let Some(rest) = self.rest else {
            return Err(GrammarFault::Missing(self.read).into());
        };
        match rest.split_once(' ') {
            Some((word, rest)) => {
                self.rest = Some(rest);
                Ok(word)
            }
            None => {
                self.rest = None;
                Ok(rest)
            }
        }
    }

    /// Succeeds if there is no further word.
    pub fn end(&self) -> Result<(), LineFault>
        ensures { result ≡ end_of self.now }
    {
        match self.rest {
            Some(_) => Err(GrammarFault::TooMany(self.read.saturating_add(1)).into()),
            None => Ok(()),
        }
    }

    /// Whether there is a further word.
    pub fn has_more(&self) -> bool
        ensures { result ≡ not (is_none_of (words_left self.now)) }
    {
        self.rest.is_some()
    }

    /// A number: decimal, without leading zeros, at most 2^64 - 1.
    pub fn number(&mut self) -> Result<u64, LineFault> {
        let word = self.word()?;
        let wrong = GrammarFault::NoNumber(self.read);
        let first = word.as_bytes().first().copied();
        if first == Some(b'+') || (first == Some(b'0') && word.len() != 1) {
            return Err(wrong.into());
        }
        match word.parse::<u64>() {
            Ok(number) => Ok(number),
            Err(_) => Err(wrong.into()),
        }
    }

    /// An identifier: 32 hexadecimal digits of either case.
    pub fn id(&mut self) -> Result<Id, LineFault> {
        let word = self.word()?;
        match Id::of_hex(word) {
            Ok(id) => Ok(id),
            Err(_) => Err(GrammarFault::NoIdentifier(self.read).into()),
        }
    }

    /// Bytes: pairs of hexadecimal digits of either case, or `-` for none.
    pub fn bytes(&mut self, alloc: Global) -> Result<Bytes, LineFault>
        ensures { BytesAre self.old result self.new }
    {
        let word = self.word()?;
        match Digits::of_word(word.as_bytes()) {
            Some(digits) => Ok(digits.bytes(alloc)?),
            None => Err(GrammarFault::NoBytes(self.read).into()),
        }
    }
}
