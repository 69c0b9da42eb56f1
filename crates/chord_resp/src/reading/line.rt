//! The words of an inline command.
ghost use Rattle.std.specs.Prelude.{◌≡◌, IfOk, map};
ghost use Rattle.chord_resp.specs.Machine.{without_return, word_of};
ghost use Rattle.chord_resp.specs.Quotes.{Splits, words_in};

use crate::limits::WORD_BYTES;
use crate::reading::read_error::ReadError;
use crate::reading::splitter::Splitter;
use crate::reading::word::Word;
use chord_map::Bytes;
use std::alloc::{AllocError, Global};

/// The bytes without a `\r` at their end.
pub fn without_return(bytes: &[u8]) -> &[u8]
    ensures { result.now ≡ without_return bytes.now }
{
    if bytes.is_empty() {
        return bytes;
    }
    let last = bytes.len() - 1;
    if bytes[last] == b'\r' {
        &bytes[..last]
    } else {
        bytes
    }
}

/// The words of a line.
#[tactic(auto, unfolding(crate::specs::Quotes::split_from))]
pub fn words_in(alloc: Global, line: &[u8]) -> Result<Vec<Bytes>, ReadError>
    ensures { Splits (λ words. words.items) result (words_in line.now) }
{
    let mut splitter = Splitter::new(alloc);
    let mut rest = line;
    while let [byte, more @ ..] = rest {
        splitter.take(*byte)?;
        rest = more;
    }
    splitter.end()
}

/// The bytes as a word.
fn word_of(bytes: Bytes) -> Word
    ensures { result ≡ word_of bytes }
{
    let length = bytes.as_slice().len();
    if (WORD_BYTES as usize) < length {
        Word::Long(length)
    } else {
        Word::Whole(bytes)
    }
}

/// Each as a word.
pub fn as_words(alloc: Global, words: Vec<Bytes>) -> Result<Vec<Word>, AllocError>
    ensures { IfOk result (λ all. all.items ≡ map word_of words.items) }
{
    let mut all = Vec::with_capacity(alloc, words.len())?;
    for bytes in words {
        all.push(word_of(bytes))?;
    }
    Ok(all)
}
