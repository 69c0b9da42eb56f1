//! Scripts of words, commands and answers, in bytes as `escapes` has them.
//!
//! - `read PING|`: the commands of a stream, each word with a comma and each command with a
//!   semicolon behind it, and why reading stopped, wherever the stream is cut. `once PING|`: uncut.
//!   `words 1024`: of a line of 1,024 words. `array 1025`: of an array of 1,025 words of one letter,
//!   with PING behind it. `feed PING|`, `next`: in a stream that goes on. `begin 3000`: feeds such an
//!   array without the end of its last word. `kept`: how many bytes are kept of a command in part.
//!   `take get k|`: the words, taken out of the command.
//! - `call SADD k a|`: what the first command calls for, or its refusal.
//! - `verb sMembers`, `verb <4097>`, `name SADD`: the verb of a word, of one of 4,097 bytes, and of
//!   bytes, with its text. `takes smembers 1`: whether one word may follow.
//! - `text iNFo info`: whether the word is the text.
//! - `simple OK`, `error ERR no`, `integer 1`, `null`, `bulk a`, `count 14`, `bulks a b`, `integers
//!   1 0`: this answer behind `+OK|`. `refusal SetFull 2/3`, `refusal NoDollar :`: this error.
//!
//! Words of more than 64 bytes are shown by their length. Behind `; ` stands how many bytes of the
//! stream are left.

use super::commands::{call, shown};
use super::putting::{put, refusal};
use crate::escapes::{escaped, escaped_word};
use crate::options::{front, is_next};
use chord_app_text::{GrammarFault, LineFault, Words as Line};
use chord_map::Bytes;
use chord_resp::{Commands, ReadError, Verb, Word, is_text, put_bulk, put_count};
use chord_testkit::{Fresh, MEMORY, Subject, Text, name_of, yes_or_no};
use std::alloc::Global;

#[derive(Drop)]
pub struct Spelling {
    alloc: Global,
    commands: Commands,
}

impl Fresh for Spelling {
    fn fresh(alloc: Global) -> Spelling {
        Spelling {
            alloc,
            commands: Commands::new(alloc),
        }
    }
}

impl Subject for Spelling {
    fn act(&mut self, words: &mut Line) -> Result<Text, LineFault> {
        let alloc = self.alloc;
        match words.word()? {
            "read" => Ok(read_cut(alloc, &escaped(alloc, words)?)),
            "once" => Ok(read(alloc, &escaped(alloc, words)?, b"")),
            "words" => Ok(read(alloc, &many_words(alloc, words)?, b"")),
            "array" => {
                let mut bytes = many_in_array(alloc, words.number()?)?;
                bytes.extend_from_slice(b"PING\r\n")?;
                Ok(read(alloc, &bytes, b""))
            }
            "begin" => {
                let bytes = many_in_array(alloc, words.number()?)?;
                let len = bytes.len().saturating_sub(3) as u64;
                Ok(feed(&mut self.commands, front(&bytes, len)?))
            }
            "feed" => Ok(feed(&mut self.commands, &escaped(alloc, words)?)),
            "next" => Ok(read_on(Text::of(""), &mut self.commands)),
            "kept" => Ok(kept(&self.commands)),
            "take" => Ok(take(alloc, &escaped(alloc, words)?)),
            "call" => Ok(call(alloc, &escaped(alloc, words)?)),
            "refusal" => refusal(alloc, words),
            word => look(alloc, word, words),
        }
    }

    fn show(&self) -> Text {
        let left = self.commands.left();
        Text::of(format_args!("left {left}"))
    }
}

fn look(alloc: Global, word: &str, words: &mut Line) -> Result<Text, LineFault> {
    match word {
        "verb" => {
            let word = word_of(alloc, words)?;
            let text = verb_text(Verb::of_word(&word));
            drop(word);
            Ok(text)
        }
        "name" => Ok(verb_text(Verb::of_name(words.word()?.as_bytes()))),
        "takes" => match Verb::of_name(words.word()?.as_bytes()) {
            Some(verb) => Ok(yes_or_no(verb.takes(words.number()? as usize))),
            None => Err(GrammarFault::NoLine.into()),
        },
        "text" => {
            let word = word_of(alloc, words)?;
            let text = words.word()?;
            let answer = yes_or_no(is_text(&word, text.as_bytes()));
            drop(word);
            Ok(answer)
        }
        word => put(alloc, word, words),
    }
}

/// A word of these bytes, or a long one, as `<4097>`.
fn word_of(alloc: Global, words: &mut Line) -> Result<Word, LineFault> {
    if is_next(words, "<4097>") {
        return Ok(Word::Long(4097));
    }
    let bytes = escaped_word(alloc, words)?;
    Ok(Word::Whole(Bytes::from_slice(alloc, &bytes)?))
}

fn verb_text(verb: Option<Verb>) -> Text {
    match verb {
        Some(verb) => {
            let text = shown(verb.text());
            let text = text.as_str();
            Text::of(format_args!("{verb:?} {text}"))
        }
        None => Text::of("None"),
    }
}

/// This number of words of one letter, and a space behind each.
fn many_words(alloc: Global, words: &mut Line) -> Result<Vec<u8>, LineFault> {
    let mut out = Vec::new(alloc);
    for _ in 0..words.number()? {
        out.extend_from_slice(b"a ")?;
    }
    out.push(b'\n')?;
    Ok(out)
}

/// The same as an array.
fn many_in_array(alloc: Global, count: u64) -> Result<Vec<u8>, LineFault> {
    let mut out = Vec::new(alloc);
    put_count(&mut out, count as usize)?;
    for _ in 0..count {
        put_bulk(&mut out, b"a")?;
    }
    Ok(out)
}

/// Feeds a piece. A refused one may not change how many bytes are left.
fn feed(commands: &mut Commands, piece: &[u8]) -> Text {
    match commands.feed(piece) {
        Ok(()) => Text::of("Fed"),
        Err(_) => Text::of(MEMORY),
    }
}

/// How many bytes are kept of a command that has not come whole.
fn kept(commands: &Commands) -> Text {
    let bytes = commands.partial();
    Text::of(format_args!("{bytes}"))
}

fn word_text(word: &Word) -> Text {
    match word {
        Word::Whole(bytes) => shown(bytes.as_slice()),
        Word::Long(length) => Text::of(format_args!("<long {length}>")),
    }
}

/// The words, each with a comma behind it, and then a semicolon.
fn with_words(mut text: Text, words: &[Word]) -> Text {
    for word in words.iter().take(16) {
        let word = word_text(word);
        text = text.and_str(word.as_str(), 80).and_str(",", 1);
    }
    if words.len() > 16 {
        let count = words.len();
        text = text.and(format_args!("<{count} words>"), 24);
    }
    text.and_str(";", 1)
}

fn with_stop(text: Text, stop: &str) -> Text {
    let shown = text.as_str();
    if shown.is_empty() {
        Text::of(stop)
    } else {
        Text::of(format_args!("{shown} {stop}"))
    }
}

/// The commands that are whole now, and why no other is. What is refused memory is read again.
fn read_on(mut text: Text, commands: &mut Commands) -> Text {
    let mut is_refused = false;
    for _ in 0..10_000u64 {
        match commands.next() {
            Ok(None) if commands.is_between() => return with_stop(text, "Between"),
            Ok(None) => return with_stop(text, "Within"),
            Ok(Some(words)) => {
                text = with_words(text, words.as_slice());
                drop(words);
            }
            Err(ReadError::Protocol(error)) => return with_stop(text, name_of(&error).as_str()),
            Err(ReadError::Memory) if is_refused => return Text::of(MEMORY),
            Err(ReadError::Memory) => is_refused = true,
        }
    }
    text
}

/// The commands of a stream in two pieces.
fn read(alloc: Global, first: &[u8], second: &[u8]) -> Text {
    let mut commands = Commands::new(alloc);
    let is_fed = commands.feed(first).is_ok();
    let text = read_on(Text::of(""), &mut commands);
    let stops = !text.as_str().ends_with("Between") && !text.as_str().ends_with("Within");
    if stops || second.is_empty() {
        drop(commands);
        return if is_fed { text } else { Text::of(MEMORY) };
    }
    let begun = text.as_str();
    let front = begun.rsplit_once(" ").map_or("", |(front, _)| front);
    let is_fed = is_fed && commands.feed(second).is_ok();
    let text = read_on(Text::of(front), &mut commands);
    drop(commands);
    if is_fed { text } else { Text::of(MEMORY) }
}

/// The commands of a stream, which must be the same wherever it is cut.
fn read_cut(alloc: Global, bytes: &[u8]) -> Text {
    let whole = read(alloc, bytes, b"");
    for cut in 0..bytes.len() {
        let (first, second) = bytes.split_at(cut);
        let came = read(alloc, first, second);
        if came.as_str() != whole.as_str() {
            let came = came.as_str();
            return Text::of(format_args!("cut at {cut}: {came}"));
        }
    }
    whole
}

fn take(alloc: Global, bytes: &[u8]) -> Text {
    let mut commands = Commands::new(alloc);
    let is_fed = commands.feed(bytes).is_ok();
    let next = commands.next();
    drop(commands);
    match next {
        Ok(Some(words)) if is_fed => {
            let words = words.into_vec();
            let text = with_words(Text::of(""), words.as_slice());
            drop(words);
            text
        }
        _ => Text::of("no command"),
    }
}
