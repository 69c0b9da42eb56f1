//! The changes of a file.
ghost use Rattle.std.specs.Prelude.{◌≡◌, ◌≤◌, ◌++◌, [], false, length, IfSome, OnOk, OnErr};
ghost use Rattle.chord_journal_file.specs.Reading.{FoundIs, LineIs, Nexts, StepIs, TakeIs, reading_of};
ghost use Rattle.chord_resp.specs.Machine.{start};

use crate::heads::long_count;
use crate::many::Many;
use crate::notes::is_note;
use crate::read_fault::{FaultKind, ReadFault};
use crate::window::Window;
use chord_resp::{Command, Commands, Denied, ReadError, Refusal, Words, command_of};
use std::alloc::{AllocError, Global};
use std::marker::Model;

/// What a reader found.
#[derive(Debug, Drop)]
enum Found {
    Change(Command),
    /// The head of a command of more words than a client may write.
    Long,
}

/// What one step of a reader found.
#[derive(Debug, Drop)]
enum Stepped {
    Found(Found),
    /// It read on.
    Nothing,
    /// It wants more of the file.
    More,
}

/// How a file ends.
#[derive(Clone, Copy, Debug, PartialEq, Eq)]
pub enum Ends {
    /// Behind a whole command, or with none.
    Between,
    /// Within a command.
    Within,
}

/// A file in pieces of any length. A command of a client is read as `chord_resp` reads it, inline
/// too; one of more words is an array whose members come one by one. A command whose name begins
/// with `#` is a note, which changes nothing.
#[derive(Debug, Drop)]
pub struct JournalReader {
    alloc: Global,
    commands: Commands,
    /// The bytes that `commands` was not fed yet.
    window: Window,
    /// How many bytes were fed in all.
    fed: u64,
    /// How many bytes the file has up to the end of its last whole command.
    whole: u64,
    /// The command of many members that is being read.
    many: Option<Many>,
}

impl Model for JournalReader {
    ghost use Rattle.std.specs.Prelude.{◌++◌};
    ghost use Rattle.std.specs.Option.{is_some};
    ghost use Rattle.chord_journal_file.specs.Loader.{Loader};

    ghost Value = { Loader };

    ghost view = { λ r. record {
      state = r.commands.state;
      bytes = r.commands.bytes ++ r.window;
      is_long = is_some r.many;
    } };
}

/// The kind of a refusal.
fn kind_of(denied: Denied) -> FaultKind {
    match denied {
        Denied::Memory => FaultKind::Memory,
        Denied::Refused(Refusal::KeyLength) => FaultKind::KeyLength,
        Denied::Refused(Refusal::MemberLength) => FaultKind::MemberLength,
        Denied::Refused(_) => FaultKind::NoChange,
    }
}

/// The kind of a fault of the protocol.
fn kind_of_read(error: ReadError) -> FaultKind {
    match error {
        ReadError::Protocol(error) => FaultKind::Protocol(error),
        ReadError::Memory => FaultKind::Memory,
    }
}

/// How many bytes the first line has, if it is whole.
fn line_length(bytes: &[u8]) -> Option<usize>
    ensures { IfSome result (λ count. count ≤ length bytes.now) }
{
    for at in 0..bytes.len() {
        if bytes[at] == b'\n' {
            return Some(at + 1);
        }
    }
    None
}

/// What a command changes.
fn take_command(alloc: Global, words: Words) -> Result<Stepped, FaultKind>
    ensures { TakeIs words result }
{
    if is_note(words.as_slice()) {
        drop(words);
        return Ok(Stepped::Nothing);
    }
    match command_of(alloc, words) {
        Ok(Command::Accept) => Ok(Stepped::Nothing),
        Ok(Command::Add { key, members }) => {
            let change = Command::Add { key, members };
            Ok(Stepped::Found(Found::Change(change)))
        }
        Ok(Command::Remove { key, members }) => {
            let change = Command::Remove { key, members };
            Ok(Stepped::Found(Found::Change(change)))
        }
        Ok(other) => {
            drop(other);
            Err(FaultKind::NoChange)
        }
        Err(denied) => Err(kind_of(denied)),
    }
}

impl JournalReader {
    /// A file of which nothing was read.
    pub fn new(alloc: Global) -> JournalReader
        ensures state { result.state ≡ start }
        ensures bytes { result.bytes ≡ [] }
        ensures long { result.is_long ≡ false }
    {
        JournalReader {
            alloc,
            commands: Commands::new(alloc),
            window: Window::new(alloc),
            fed: 0,
            whole: 0,
            many: None,
        }
    }

    /// How many bytes the file has up to the end of its last whole command.
    pub fn whole(&self) -> u64 {
        self.whole
    }

    /// How many bytes were fed in all.
    pub fn fed(&self) -> u64 {
        self.fed
    }

    /// Adds a piece of the file.
    pub fn feed(&mut self, piece: &[u8]) -> Result<(), AllocError>
        ensures state { self.new.state ≡ self.old.state }
        ensures long { self.new.is_long ≡ self.old.is_long }
        ensures ok { OnOk result (self.new.bytes ≡ self.old.bytes ++ piece.now) }
        ensures err { OnErr result (self.new.bytes ≡ self.old.bytes) }
    {
        self.window.feed(piece)?;
        self.fed = self.fed.saturating_add(piece.len() as u64);
        Ok(())
    }

    /// How many bytes were read.
    fn position(&self) -> u64 {
        let left = self.commands.left() as u64;
        let unread = left.saturating_add(self.window.as_slice().len() as u64);
        self.fed.saturating_sub(unread)
    }

    /// The fault of the command that is being read.
    fn fault(&self, kind: FaultKind) -> ReadFault {
        ReadFault {
            kind,
            offset: self.whole,
        }
    }

    /// The next change, if all of it was fed; of a command of many members, if the next member was.
    pub fn next(&mut self) -> Result<Option<Command>, ReadFault>
        ensures { Nexts self.old result self.new }
    {
        if self.many.is_some() {
            return self.next_member();
        }
        match self.next_command() {
            Ok(Some(Found::Change(command))) => Ok(Some(command)),
            Ok(Some(Found::Long)) => self.next_member(),
            Ok(None) => Ok(None),
            Err(kind) => Err(self.fault(kind)),
        }
    }

    /// The next command that changes something.
    fn next_command(&mut self) -> Result<Option<Found>, FaultKind>
        requires { self.old.is_long ≡ false }
        ensures { FoundIs self.old result self.new }
    {
        for _ in 0..u64::MAX {
            match self.step()? {
                Stepped::Found(found) => return Ok(Some(found)),
                Stepped::Nothing => {}
                Stepped::More => return Ok(None),
            }
        }
        Ok(None)
    }

    /// Takes the next command, or reads on.
    fn step(&mut self) -> Result<Stepped, FaultKind>
        requires { self.old.is_long ≡ false }
        ensures { StepIs self.old result self.new }
    {
        match self.commands.next() {
            Ok(Some(words)) => {
                let taken = take_command(self.alloc, words)?;
                self.whole = self.position();
                Ok(taken)
            }
            Ok(None) => self.read_on(),
            Err(error) => Err(kind_of_read(error)),
        }
    }

    /// Gives the next line to the reader of commands, if it is whole.
    fn read_on(&mut self) -> Result<Stepped, FaultKind>
        requires { self.old.is_long ≡ false }
        ensures { LineIs self.old result self.new }
    {
        let Some(length) = line_length(self.window.as_slice()) else {
            return Ok(Stepped::More);
        };
        let line = &self.window.as_slice()[..length];
        if self.commands.is_between() {
            if line.starts_with(b"REDIS") {
                return Err(FaultKind::Snapshot);
            }
            if let Some(count) = long_count(self.alloc, line)? {
                self.many = Some(Many::begin(count));
                self.window.skip(length);
                return Ok(Stepped::Found(Found::Long));
            }
        }
        self.commands.feed(line)?;
        self.window.skip(length);
        Ok(Stepped::Nothing)
    }

    /// The next member of a command of many, if it was fed.
    fn next_member(&mut self) -> Result<Option<Command>, ReadFault> {
        for _ in 0..u64::MAX {
            match self.commands.next() {
                Ok(Some(words)) => match self.take_word(words) {
                    Ok(Some(change)) => return Ok(Some(change)),
                    Ok(None) => {}
                    Err(kind) => return Err(self.fault(kind)),
                },
                Ok(None) => match self.read_word() {
                    Ok(true) => {}
                    Ok(false) => return Ok(None),
                    Err(_) => return Err(self.fault(FaultKind::Memory)),
                },
                Err(error) => return Err(self.fault(kind_of_read(error))),
            }
        }
        Ok(None)
    }

    /// Takes the next word of a command of many members.
    fn take_word(&mut self, words: Words) -> Result<Option<Command>, FaultKind> {
        let alloc = self.alloc;
        let Some(word) = words.into_vec().pop() else {
            return Ok(None);
        };
        let Some(many) = &mut self.many else {
            drop(word);
            return Ok(None);
        };
        let change = many.take(alloc, word)?;
        if many.is_whole() {
            self.many = None;
            self.whole = self.position();
        }
        Ok(change)
    }

    /// Gives the next line of a word to the reader of commands, if it is whole. Each word is read
    /// as a command of its own.
    fn read_word(&mut self) -> Result<bool, AllocError> {
        let Some(length) = line_length(self.window.as_slice()) else {
            return Ok(false);
        };
        if self.commands.is_between() {
            self.commands.feed(b"*1\r\n")?;
        }
        self.commands.feed(&self.window.as_slice()[..length])?;
        self.window.skip(length);
        Ok(true)
    }

    /// Gives all that is left to the reader of commands.
    fn feed_rest(&mut self) -> Result<(), AllocError>
        ensures same { OnOk result (self.old.is_long ≡ false
            → reading_of self.new ≡ reading_of self.old) }
        ensures long { self.new.is_long ≡ self.old.is_long }
    {
        if self.many.is_some() && self.commands.is_between() {
            self.commands.feed(b"*1\r\n")?;
        }
        let length = self.window.as_slice().len();
        self.commands.feed(self.window.as_slice())?;
        self.window.skip(length);
        Ok(())
    }

    /// How the file ends, behind all that was fed and is no whole command.
    pub fn finish(&mut self) -> Result<Ends, ReadFault> {
        let is_between = self.commands.is_between();
        if is_between && self.many.is_none() && self.window.as_slice().is_empty() {
            return Ok(Ends::Between);
        }
        if is_between && self.window.as_slice().starts_with(b"REDIS") {
            return Err(self.fault(FaultKind::Snapshot));
        }
        if self.window.as_slice().is_empty() {
            return Ok(Ends::Within);
        }
        if self.feed_rest().is_err() {
            return Err(self.fault(FaultKind::Memory));
        }
        match self.commands.next() {
            Ok(Some(words)) => {
                drop(words);
                Err(self.fault(FaultKind::NoChange))
            }
            Ok(None) => Ok(Ends::Within),
            Err(error) => Err(self.fault(kind_of_read(error))),
        }
    }
}
