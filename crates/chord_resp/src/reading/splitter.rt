//! The words of an inline command, byte by byte.
ghost use Rattle.std.specs.Prelude.{◌≡◌, ◌∷◌, [], ◌≤◌, OnOk};
ghost use Rattle.chord_resp.specs.Quotes.{Splits, SplitsTo, bare_step, digit_step, double_step, ended_in, ends_word, escape_step, hex_step, hex_value, is_figure, is_hex, is_lower, is_space, is_upper, meant, moved, single_escape_step, single_step, split_step, unsplit, with_bytes, with_word};

use crate::reading::place::Place;
use crate::reading::protocol_error::ProtocolError;
use crate::reading::read_error::ReadError;
use chord_map::Bytes;
use std::alloc::{AllocError, Global};
use std::marker::Model;

/// What has come of the words of an inline command.
#[derive(Debug, Drop)]
pub struct Splitter {
    alloc: Global,
    place: Place,
    words: Vec<Bytes>,
    // The bytes of the word that is not whole.
    word: Vec<u8>,
}

impl Model for Splitter {
    ghost use Rattle.chord_resp.specs.Quotes.{Split};

    ghost Value = { Split };

    ghost view = { λ s. record { place = s.place; words = s.words.items; word = s.word.items } };
}

fn is_space(byte: u8) -> bool
    ensures { result ≡ is_space byte }
{
    byte == b' ' || (9 <= byte && byte <= 13)
}

fn ends_word(byte: u8) -> bool
    ensures { result ≡ ends_word byte }
{
    is_space(byte) && !(byte == 11 || byte == 12)
}

fn is_figure(byte: u8) -> bool
    ensures { result ≡ is_figure byte }
{
    b'0' <= byte && byte <= b'9'
}

fn is_upper(byte: u8) -> bool
    ensures { result ≡ is_upper byte }
{
    b'A' <= byte && byte <= b'F'
}

fn is_lower(byte: u8) -> bool
    ensures { result ≡ is_lower byte }
{
    b'a' <= byte && byte <= b'f'
}

fn is_hex(byte: u8) -> bool
    ensures { result ≡ is_hex byte }
{
    is_figure(byte) || is_upper(byte) || is_lower(byte)
}

/// The value of a hexadecimal digit; 0 for another byte.
fn hex_value(byte: u8) -> u8
    ensures value { result ≡ hex_value byte }
    ensures few { result ≤ 15 }
{
    if is_figure(byte) {
        byte - b'0'
    } else if is_upper(byte) {
        byte - b'A' + 10
    } else if is_lower(byte) {
        byte - b'a' + 10
    } else {
        0
    }
}

/// The byte that `\\` and this one stand for.
fn meant(byte: u8) -> u8
    ensures { result ≡ meant byte }
{
    match byte {
        b'n' => b'\n',
        b'r' => b'\r',
        b't' => b'\t',
        b'b' => 8,
        b'a' => 7,
        _ => byte,
    }
}

impl Splitter {
    pub fn new(alloc: Global) -> Splitter
        ensures { result ≡ unsplit }
    {
        Splitter {
            alloc,
            place: Place::Gap,
            words: Vec::new(alloc),
            word: Vec::new(alloc),
        }
    }

    // Adds a byte to the word.
    fn add(&mut self, place: Place, byte: u8) -> Result<(), AllocError>
        ensures { OnOk result (self.new ≡ with_bytes self.old place (byte ∷ [])) }
    {
        self.word.push(byte)?;
        self.place = place;
        Ok(())
    }

    // Ends the word.
    fn end_word(&mut self, place: Place) -> Result<(), AllocError>
        ensures { OnOk result (self.new ≡ with_word self.old place) }
    {
        let word = Bytes::from_slice(self.alloc, &self.word)?;
        self.words.push(word)?;
        self.word.clear();
        self.place = place;
        Ok(())
    }

    // Goes on without a byte of the word.
    fn go(&mut self, place: Place)
        ensures { self.new ≡ moved self.old place }
    {
        self.place = place;
    }

    fn bare(&mut self, byte: u8) -> Result<(), AllocError>
        ensures { OnOk result (self.new ≡ bare_step self.old byte) }
    {
        if ends_word(byte) {
            return self.end_word(Place::Gap);
        }
        match byte {
            b'"' => self.go(Place::Double),
            b'\'' => self.go(Place::Single),
            _ => self.add(Place::Bare, byte)?,
        }
        Ok(())
    }

    fn double(&mut self, byte: u8) -> Result<(), AllocError>
        ensures { OnOk result (self.new ≡ double_step self.old byte) }
    {
        match byte {
            b'"' => self.end_word(Place::Closed)?,
            b'\\' => self.go(Place::Escape),
            _ => self.add(Place::Double, byte)?,
        }
        Ok(())
    }

    fn escape(&mut self, byte: u8) -> Result<(), AllocError>
        ensures { OnOk result (self.new ≡ escape_step self.old byte) }
    {
        if byte == b'x' {
            self.go(Place::Hex);
            return Ok(());
        }
        self.add(Place::Double, meant(byte))
    }

    fn hex(&mut self, byte: u8) -> Result<(), AllocError>
        ensures { OnOk result (self.new ≡ hex_step self.old byte) }
    {
        if is_hex(byte) {
            self.go(Place::HexDigit(byte));
            return Ok(());
        }
        self.add(Place::Double, b'x')?;
        self.double(byte)
    }

    fn digit(&mut self, first: u8, byte: u8) -> Result<(), AllocError>
        ensures { OnOk result (self.new ≡ digit_step self.old first byte) }
    {
        if is_hex(byte) {
            return self.add(Place::Double, hex_value(first) * 16 + hex_value(byte));
        }
        self.add(Place::Double, b'x')?;
        self.add(Place::Double, first)?;
        self.double(byte)
    }

    fn single(&mut self, byte: u8) -> Result<(), AllocError>
        ensures { OnOk result (self.new ≡ single_step self.old byte) }
    {
        match byte {
            b'\'' => self.end_word(Place::Closed)?,
            b'\\' => self.go(Place::SingleEscape),
            _ => self.add(Place::Single, byte)?,
        }
        Ok(())
    }

    fn single_escape(&mut self, byte: u8) -> Result<(), AllocError>
        ensures { OnOk result (self.new ≡ single_escape_step self.old byte) }
    {
        if byte == b'\'' {
            return self.add(Place::Single, byte);
        }
        self.add(Place::Single, b'\\')?;
        self.single(byte)
    }

    /// Takes the next byte of the line.
    #[tactic(auto, unfolding(crate::specs::Quotes::split_step))]
    pub fn take(&mut self, byte: u8) -> Result<(), ReadError>
        ensures { SplitsTo result (split_step self.old byte) self.new }
    {
        match self.place {
            Place::Gap => {
                if !is_space(byte) {
                    self.bare(byte)?;
                }
            }
            Place::Bare => self.bare(byte)?,
            Place::Double => self.double(byte)?,
            Place::Escape => self.escape(byte)?,
            Place::Hex => self.hex(byte)?,
            Place::HexDigit(first) => self.digit(first, byte)?,
            Place::Single => self.single(byte)?,
            Place::SingleEscape => self.single_escape(byte)?,
            Place::Closed => {
                if !is_space(byte) {
                    return Err(ReadError::Protocol(ProtocolError::Unbalanced));
                }
                self.go(Place::Gap);
            }
        }
        Ok(())
    }

    /// The words of the line, which ends here.
    pub fn end(mut self) -> Result<Vec<Bytes>, ReadError>
        ensures { Splits (λ words. words.items) result (ended_in self.place self) }
    {
        match self.place {
            Place::Gap | Place::Closed => {}
            Place::Bare => self.end_word(Place::Gap)?,
            _ => return Err(ReadError::Protocol(ProtocolError::Unbalanced)),
        }
        Ok(self.words)
    }
}
