//! The limits of what a client writes.

/// The most words of a command that is done.
pub const WORDS: u32 = 1024;

/// The most words of a command that is read.
pub const LONG_WORDS: u32 = 1_048_576;

/// The most bytes of a word that is kept; a longer one is kept by its length alone.
pub const WORD_BYTES: u32 = 4096;

/// The most bytes of a word.
pub const LONG_WORD_BYTES: u32 = 1_048_576;

/// The most bytes of all words of a command of at most 1,024 words, and of a longer one.
pub const COMMAND_BYTES: u32 = 1_073_741_824;

pub const LONG_COMMAND_BYTES: u32 = 536_870_912;

/// The most bytes of an inline command before its `\n`.
pub const LINE_BYTES: u32 = 65_536;

/// The most digits of a count or a length.
pub const DIGITS: u32 = 32;
