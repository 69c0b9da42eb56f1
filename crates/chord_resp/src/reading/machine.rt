//! Reading a client's bytes, one at a time.
ghost use Rattle.std.specs.Prelude.{◌≡◌, ◌-◌, ◌<◌, ◌≤◌, [], true, false, IfOk, OnOk, OnErr};
ghost use Rattle.chord_resp.specs.Machine.{start, step, kept, went, line_step, line_of, without_return, room_for, count_end_step, size_end_step, is_known_behind, is_left_out, body_step, end_step, word_kept, word_behind, words_with};
ghost use Rattle.chord_resp.specs.Quotes.{words_in};
ghost use Rattle.chord_resp.specs.declared.reading.phase.Phase.TheVariants as phase;
ghost use Rattle.chord_resp.specs.ShortLines.{EndsLine};
ghost use Rattle.chord_resp.specs.Reading.{StepIs, Skims, KeepsNext, keeps, keeps_bytes, is_at_start, kept_behind};

use crate::limits::{COMMAND_BYTES, LINE_BYTES, LONG_COMMAND_BYTES, WORD_BYTES, WORDS};
use crate::reading::foreign::is_foreign;
use crate::reading::left::Left;
use crate::reading::line::{as_words, without_return, words_in};
use crate::reading::numbers::{count_step, mark_step, size_step};
use crate::reading::phase::Phase;
use crate::reading::protocol_error::ProtocolError;
use crate::reading::read_error::ReadError;
use crate::reading::short_line::{ShortLine, ends_line};
use crate::reading::word::Word;
use crate::reading::words::Words;
use chord_map::Bytes;
use std::alloc::{AllocError, Global};
use std::marker::Model;
use std::mem;

/// What has come of a command. It holds at most 1,024 words and the length of one more, and 4,096
/// bytes of the one that is not whole or 65,536 of a line.
#[derive(Debug, Drop)]
pub struct Machine {
    alloc: Global,
    phase: Phase,
    left: Left,
    words: Vec<Word>,
    // The bytes of the word that is not whole, or of the line.
    partial: Vec<u8>,
}

impl Model for Machine {
    ghost use Rattle.chord_resp.specs.Machine.{State};

    ghost Value = { State };

    ghost view = { λ m. record { phase = m.phase; left = m.left; words = m.words.items; partial = m.partial.items } };
}

/// Nothing is left of a command.
const NOTHING: Left = Left { words: 0, bytes: 0 };

/// How many bytes the words of a command may have, if it has this number of words.
fn room_for(count: u32) -> u32
    ensures { result ≡ room_for count }
{
    if count <= WORDS {
        COMMAND_BYTES
    } else {
        LONG_COMMAND_BYTES
    }
}

impl Machine {
    pub fn new(alloc: Global) -> Machine
        ensures { result ≡ start }
    {
        Machine {
            alloc,
            phase: Phase::Start,
            left: NOTHING,
            words: Vec::new(alloc),
            partial: Vec::new(alloc),
        }
    }

    pub fn is_at_start(&self) -> bool
        ensures { result ≡ is_at_start self.now.phase }
    {
        self.phase == Phase::Start
    }

    /// How many bytes are kept, with these before them; `u64::MAX` stands for more.
    pub fn kept_behind(&self, bytes: u64) -> u64
        ensures { result ≡ kept_behind bytes self.now }
    {
        let begun = bytes.saturating_add(self.partial.len() as u64);
        self.words
            .iter()
            .fold(begun, |sum, word| sum.saturating_add(word.kept_bytes()))
    }

    // Whether the bytes of a word of this length are not kept.
    fn leaves_out(&self, length: u32) -> bool
        ensures { result ≡ is_left_out self.now.words length }
    {
        length > WORD_BYTES || self.words.len() >= WORDS as usize
    }

    // Keeps bytes of a word of this length.
    fn keep(&mut self, length: u32, bytes: &[u8]) -> Result<(), AllocError>
        ensures ok { OnOk result (self.new ≡ record { phase = self.old.phase; left = self.old.left; words = self.old.words; partial = kept self.old.words length self.old.partial bytes.now }) }
        ensures err { OnErr result (self.new ≡ self.old) }
        ensures memory { OnErr result (is_left_out self.old.words length ≡ false) }
    {
        if self.leaves_out(length) {
            return Ok(());
        }
        self.partial.extend_from_slice(bytes)
    }

    /// Reads bytes together, and tells how many: a short line with the count of words or the length
    /// of one, or bytes of a word with its end. None are read where the next byte is read alone.
    pub fn skim(&mut self, bytes: &[u8]) -> Result<usize, AllocError>
        ensures read { IfOk result (λ count. Skims self.old bytes.now count self.new) }
        ensures err { OnErr result (KeepsNext (record { state = self.old; bytes = bytes.now }) × (self.new ≡ self.old)) }
    {
        match self.phase {
            Phase::Start => Ok(self.skim_count(bytes)),
            Phase::Mark => Ok(self.skim_size(bytes)),
            Phase::Body { length, left } => self.skim_word(length, left, bytes),
            _ => Ok(0),
        }
    }

    /// Reads the line of a count, `*3\r\n`, if it has one digit or two and is not 0.
    fn skim_count(&mut self, bytes: &[u8]) -> usize
        requires { self.old.phase ≡ phase.Start }
        ensures { Skims self.old bytes.now result self.new }
    {
        let Some(line) = ShortLine::begin(bytes) else {
            return 0;
        };
        if bytes[0] != b'*' || line.number == 0 {
            return 0;
        }
        self.expect(line.number);
        line.length
    }

    /// Reads the line of a word's length, `$9\r\n`, if it has one digit or two.
    fn skim_size(&mut self, bytes: &[u8]) -> usize
        requires { self.old.phase ≡ phase.Mark }
        ensures { Skims self.old bytes.now result self.new }
    {
        let Some(line) = ShortLine::begin(bytes) else {
            return 0;
        };
        if bytes[0] != b'$' {
            return 0;
        }
        if self.left.bytes < line.number {
            return 0;
        }
        self.left.bytes -= line.number;
        self.phase = Phase::Body {
            length: line.number,
            left: line.number,
        };
        line.length
    }

    /// Reads bytes of a word, and its end behind them.
    fn skim_word(&mut self, length: u32, left: u32, bytes: &[u8]) -> Result<usize, AllocError>
        requires { self.old.phase ≡ phase.Body length left }
        ensures read { IfOk result (λ count. Skims self.old bytes.now count self.new) }
        ensures err { OnErr result (KeepsNext (record { state = self.old; bytes = bytes.now }) × (self.new ≡ self.old)) }
    {
        let count = self.skim_body(length, left, bytes)?;
        if count < left as usize {
            return Ok(count);
        }
        Ok(count + self.skim_end(length, &bytes[count..]))
    }

    /// Reads bytes of a word, up to its end.
    fn skim_body(&mut self, length: u32, left: u32, bytes: &[u8]) -> Result<usize, AllocError>
        requires { self.old.phase ≡ phase.Body length left }
        ensures read { IfOk result (λ count. Skims self.old bytes.now count self.new) }
        ensures most { IfOk result (λ count. count ≤ left) }
        ensures phase { IfOk result (λ count. self.new.phase ≡ phase.Body length (left - count)) }
        ensures err { OnErr result (KeepsNext (record { state = self.old; bytes = bytes.now }) × (self.new ≡ self.old)) }
    {
        let count = bytes.len().min(left as usize);
        if count == 0 {
            return Ok(0);
        }
        self.keep(length, &bytes[..count])?;
        self.phase = Phase::Body {
            length,
            left: left - count as u32,
        };
        Ok(count)
    }

    /// Reads the end of a word, `\r\n`. The `\n` of the last word is read alone, since it ends the
    /// command; so is one for whose word there is no memory.
    fn skim_end(&mut self, length: u32, bytes: &[u8]) -> usize
        requires { self.old.phase ≡ phase.Body length 0 }
        ensures { Skims self.old bytes.now result self.new }
    {
        if !ends_line(bytes, 0) {
            return 0;
        }
        if self.left.words <= 1 {
            return self.skim_return(length, bytes);
        }
        match self.end_word(length) {
            Ok(()) => 2,
            Err(_) => self.skim_return(length, bytes),
        }
    }

    /// Reads the `\r` behind a word.
    fn skim_return(&mut self, length: u32, bytes: &[u8]) -> usize
        requires phase { self.old.phase ≡ phase.Body length 0 }
        requires line { EndsLine bytes.now 0 }
        ensures { Skims self.old bytes.now result self.new }
    {
        let _line = bytes;
        self.phase = Phase::End { length };
        1
    }

    /// Keeps a word that has ended, if it is among the first 1,024, or the length of the next one.
    fn add_word(&mut self, length: u32) -> Result<(), AllocError>
        ensures ok { OnOk result (self.new ≡ record { phase = self.old.phase; left = self.old.left; words = words_with self.old.words length self.old.partial; partial = self.old.partial }) }
        ensures err { OnErr result (self.new ≡ self.old) }
        ensures memory { OnErr result (is_known_behind self.old.words ≡ true) }
    {
        if self.words.len() <= WORDS as usize {
            let word = self.word(length)?;
            self.words.push(word)?;
        }
        Ok(())
    }

    /// Ends a word behind which more words come.
    fn end_word(&mut self, length: u32) -> Result<(), AllocError>
        requires { 1 < self.old.left.words }
        ensures ok { OnOk result (self.new ≡ word_kept self.old.left (words_with self.old.words length self.old.partial)) }
        ensures err { OnErr result (self.new ≡ self.old) }
        ensures memory { OnErr result (is_known_behind self.old.words ≡ true) }
    {
        self.add_word(length)?;
        self.left.words -= 1;
        self.partial.clear();
        self.phase = Phase::Mark;
        Ok(())
    }

    /// Takes one byte, which may end a command.
    #[tactic(auto, unfolding(crate::specs::Machine::step))]
    pub fn step(&mut self, byte: u8) -> Result<Option<Words>, ReadError>
        ensures { StepIs (step self.old byte) (keeps self.old byte) self.old result self.new }
    {
        match self.phase {
            Phase::Start => {
                if byte == b'*' {
                    self.go(Ok(Phase::Count {
                        digits: 0,
                        number: 0,
                    }))
                } else {
                    self.line_step(byte)
                }
            }
            Phase::Line => self.line_step(byte),
            Phase::Count { digits, number } => self.go(count_step(digits, number, byte)),
            Phase::CountEnd { number } => self.count_end_step(number, byte),
            Phase::Mark => self.go(mark_step(byte)),
            Phase::Size { digits, number } => self.go(size_step(digits, number, byte)),
            Phase::SizeEnd { number } => self.size_end_step(number, byte),
            Phase::Body { length, left } => self.body_step(length, left, byte),
            Phase::End { length } => self.end_step(length, byte),
        }
    }

    // Goes into the next phase.
    fn go(&mut self, next: Result<Phase, ProtocolError>) -> Result<Option<Words>, ReadError>
        ensures { StepIs (went self.old next) false self.old result self.new }
    {
        match next {
            Ok(phase) => {
                self.phase = phase;
                Ok(None)
            }
            Err(error) => Err(ReadError::Protocol(error)),
        }
    }

    // Goes back to the start.
    fn restart(&mut self)
        ensures { self.new ≡ start }
    {
        self.phase = Phase::Start;
        self.left = NOTHING;
        self.words.clear();
        self.partial.clear();
    }

    // Begins a command of this many words.
    fn expect(&mut self, count: u32)
        ensures { self.new ≡ record { phase = phase.Mark; left = record { words = count; bytes = room_for count }; words = []; partial = [] } }
    {
        self.restart();
        self.phase = Phase::Mark;
        self.left = Left {
            words: count,
            bytes: room_for(count),
        };
    }

    // Hands out the words, and goes back to the start.
    fn give(&mut self) -> Words
        ensures words { result ≡ self.old.words }
        ensures start { self.new ≡ start }
    {
        let words = mem::replace(&mut self.words, Vec::new(self.alloc));
        self.restart();
        Words::from_vec(words)
    }

    fn line_step(&mut self, byte: u8) -> Result<Option<Words>, ReadError>
        ensures { StepIs (line_step self.old byte) true self.old result self.new }
    {
        if byte == b'\n' {
            return self.line_end();
        }
        if byte == 0 {
            return Err(ReadError::Protocol(ProtocolError::Foreign));
        }
        if LINE_BYTES as usize <= self.partial.len() {
            return Err(ReadError::Protocol(ProtocolError::TooLong));
        }
        self.partial.push(byte)?;
        self.phase = Phase::Line;
        Ok(None)
    }

    fn line_end(&mut self) -> Result<Option<Words>, ReadError>
        ensures { StepIs (line_of (words_in (without_return self.old.partial))) true self.old result self.new }
    {
        let words = words_in(self.alloc, without_return(&self.partial))?;
        if is_foreign(&words) {
            return Err(ReadError::Protocol(ProtocolError::Foreign));
        }
        if (WORDS as usize) < words.len() {
            return Err(ReadError::Protocol(ProtocolError::TooLong));
        }
        if words.is_empty() {
            self.restart();
            return Ok(None);
        }
        let words = as_words(self.alloc, words)?;
        self.restart();
        Ok(Some(Words::from_vec(words)))
    }

    fn count_end_step(&mut self, number: u32, byte: u8) -> Result<Option<Words>, ReadError>
        ensures { StepIs (count_end_step self.old number byte) false self.old result self.new }
    {
        if byte != b'\n' {
            return Err(ReadError::Protocol(ProtocolError::BadCount));
        }
        if number == 0 {
            self.restart();
        } else {
            self.expect(number);
        }
        Ok(None)
    }

    fn size_end_step(&mut self, number: u32, byte: u8) -> Result<Option<Words>, ReadError>
        ensures { StepIs (size_end_step self.old number byte) false self.old result self.new }
    {
        if byte != b'\n' {
            return Err(ReadError::Protocol(ProtocolError::BadLength));
        }
        if self.left.bytes < number {
            return Err(ReadError::Protocol(ProtocolError::BadCount));
        }
        self.left.bytes -= number;
        self.phase = Phase::Body {
            length: number,
            left: number,
        };
        Ok(None)
    }

    fn body_step(&mut self, length: u32, left: u32, byte: u8) -> Result<Option<Words>, ReadError>
        ensures { StepIs (body_step self.old length left byte) (keeps_bytes self.old.words length left) self.old result self.new }
    {
        if left == 0 {
            if byte != b'\r' {
                return Err(ReadError::Protocol(ProtocolError::BadLength));
            }
            self.phase = Phase::End { length };
            return Ok(None);
        }
        if !self.leaves_out(length) {
            self.partial.push(byte)?;
        }
        self.phase = Phase::Body {
            length,
            left: left - 1,
        };
        Ok(None)
    }

    // The word that has ended.
    fn word(&self, length: u32) -> Result<Word, AllocError>
        ensures { IfOk result (λ word. word ≡ word_behind self.now.words length self.now.partial) }
    {
        if self.leaves_out(length) {
            return Ok(Word::Long(length as usize));
        }
        Ok(Word::Whole(Bytes::from_slice(self.alloc, &self.partial)?))
    }

    fn end_step(&mut self, length: u32, byte: u8) -> Result<Option<Words>, ReadError>
        ensures { StepIs (end_step self.old length byte) (is_known_behind self.old.words) self.old result self.new }
    {
        if byte != b'\n' {
            return Err(ReadError::Protocol(ProtocolError::BadLength));
        }
        if self.left.words > 1 {
            self.end_word(length)?;
            return Ok(None);
        }
        self.add_word(length)?;
        Ok(Some(self.give()))
    }
}
