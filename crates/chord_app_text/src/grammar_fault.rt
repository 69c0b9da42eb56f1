//! Why a line of the console is outside its grammar.

use std::fmt;

/// Which word of a line is wrong. Words count from 1.
#[derive(Clone, Copy, Debug, PartialEq, Eq)]
pub enum GrammarFault {
    /// The line is not UTF-8.
    NoText,
    /// The first word names no line of the console.
    NoLine,
    /// This word is missing.
    Missing(u64),
    /// This word is behind the last one.
    TooMany(u64),
    NoNumber(u64),
    NoIdentifier(u64),
    NoBytes(u64),
}

/// What is wrong, and what may stand there.
impl fmt::Display for GrammarFault {
    fn fmt<W: fmt::Write>(&self, f: &mut fmt::Formatter<W>) -> fmt::Result {
        match self {
            GrammarFault::NoText => f.write_str("the line is not UTF-8"),
            GrammarFault::NoLine => f.write_str("word 1 names no line of the console"),
            GrammarFault::Missing(word) => write!(f, "word {word} is missing"),
            GrammarFault::TooMany(word) => write!(f, "word {word} is too much"),
            GrammarFault::NoNumber(word) => {
                write!(f, "word {word} is no number from 0 to {}", u64::MAX)?;
                f.write_str(" without leading zeros")
            }
            GrammarFault::NoIdentifier(word) => {
                write!(f, "word {word} is no identifier: 32 hexadecimal digits")
            }
            GrammarFault::NoBytes(word) => {
                write!(
                    f,
                    "word {word} is no pairs of hexadecimal digits, nor - for no byte"
                )
            }
        }
    }
}
