//! Options for numbers.
ghost use Rattle.std.specs.Prelude.{ℕ, IfOk, IfSome, IsSome};
ghost use Rattle.chord_app_options.specs.Words.{IsNumberFrom, IsSmall, IsWithin};

use clap::{Arg, ArgMatches};
use std::alloc::Global;
use std::fmt;

/// The number from `least` to `most` that the word is, if any.
pub fn number_from(word: &str, least: u64, most: u64) -> Option<u64>
    ensures some { IfSome result (IsNumberFrom least most word.now) }
    ensures none { (number : ℕ) → IsNumberFrom least most word.now number → IsSome result }
{
    match word.parse::<u64>() {
        Ok(number) if least <= number && number <= most => Some(number),
        _ => None,
    }
}

/// The number from 1 to 65,535 that the word is, if any.
pub fn small_number(word: &str) -> Option<u16>
    ensures some { IfSome result (IsSmall word.now) }
    ensures none { (number : ℕ) → IsSmall word.now number → IsSome result }
{
    match number_from(word, 1, 65_535) {
        Some(number) => Some(number as u16),
        None => None,
    }
}

/// An option for a number from `least` to `most`. `clap` takes its word as plain text, also one
/// below 0, so that the fault of a number names its range.
#[derive(Clone, Copy)]
pub struct NumberOption {
    pub name: &'static str,
    /// What usage and help call its value.
    pub value_name: &'static str,
    pub least: u64,
    pub most: u64,
    pub default: Option<&'static str>,
    pub help: &'static str,
}

/// A word that is none of the numbers that its option takes.
#[derive(Clone, Copy)]
pub struct WrongNumber<'a> {
    option: NumberOption,
    word: &'a str,
}

impl NumberOption {
    pub fn argument<'a>(self, alloc: Global) -> Arg<'a> {
        let argument = Arg::new(alloc, self.name)
            .long(self.name)
            .value_name(self.value_name)
            .allow_negative_numbers(true)
            .help(self.help);
        match self.default {
            Some(default) => argument.default_value(default),
            None => argument,
        }
    }

    /// Its word on a command line.
    pub fn word<'a>(self, found: &ArgMatches<'a>) -> Option<&'a str> {
        found.get_str(self.name)
    }

    /// The fault of this word.
    pub fn wrong<'a>(self, word: &'a str) -> WrongNumber<'a> {
        WrongNumber { option: self, word }
    }

    /// Its number on a command line that has it, or a default.
    pub fn read<'a>(self, found: &ArgMatches<'a>) -> Result<u64, WrongNumber<'a>>
        ensures { IfOk result (IsWithin self.least self.most) }
    {
        let word = self.word(found).unwrap_or("");
        match number_from(word, self.least, self.most) {
            Some(number) => Ok(number),
            None => Err(self.wrong(word)),
        }
    }

    /// Its number, if the command line has it.
    pub fn read_if_there<'a>(self, found: &ArgMatches<'a>) -> Result<Option<u64>, WrongNumber<'a>>
        ensures { IfOk result (λ number. IfSome number (IsWithin self.least self.most)) }
    {
        match self.word(found) {
            Some(_) => Ok(Some(self.read(found)?)),
            None => Ok(None),
        }
    }
}

impl fmt::Display for WrongNumber<'_> {
    fn fmt<W: fmt::Write>(&self, f: &mut fmt::Formatter<W>) -> fmt::Result {
        let word = self.word;
        let NumberOption {
            name,
            value_name,
            least,
            most,
            ..
        } = self.option;
        write!(f, "invalid value '{word}' for '--{name} <{value_name}>': ")?;
        write!(f, "a number from {least} to {most}")
    }
}
