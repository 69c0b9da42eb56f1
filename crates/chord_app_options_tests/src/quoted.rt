//! Texts on one line of a script. `|` ends a line of the text, `{300a}` is 300 times the letter a,
//! `\xff` is a byte, and a text that is empty or has a space at an end stands in quotes.

use chord_app_text::{GrammarFault, LineFault, Words};
use std::alloc::Global;
use std::fmt;
use std::str::from_utf8;

/// The most words of a line.
const WORDS: u64 = 64;

/// All words that are left.
pub fn all_words<'a>(alloc: Global, words: &mut Words<'a>) -> Result<Vec<&'a str>, LineFault> {
    let mut all = Vec::new(alloc);
    for _ in 0..WORDS {
        if words.has_more() {
            all.push(words.word()?)?;
        }
    }
    Ok(all)
}

/// All words that are left, with a space between words.
pub fn rest(alloc: Global, words: &mut Words) -> Result<String, LineFault> {
    let all = all_words(alloc, words)?;
    let rest = all.join(alloc, " ");
    drop(all);
    Ok(rest?)
}

/// The text of all words that are left.
pub fn text(alloc: Global, words: &mut Words) -> Result<String, LineFault> {
    match String::from_utf8(bytes(alloc, words)?) {
        Ok(text) => Ok(text),
        Err(wrong) => {
            drop(wrong);
            Err(GrammarFault::NoText.into())
        }
    }
}

/// The bytes of the text of all words that are left.
pub fn bytes(alloc: Global, words: &mut Words) -> Result<Vec<u8>, LineFault> {
    let line = rest(alloc, words)?;
    let mut out = Vec::new(alloc);
    let put = put(&mut out, unquoted(line.as_str()));
    drop(line);
    match put {
        Ok(()) => Ok(out),
        Err(fault) => {
            drop(out);
            Err(fault)
        }
    }
}

fn unquoted(text: &str) -> &str {
    match text.strip_prefix("\"") {
        Some(inside) => inside.strip_suffix("\"").unwrap_or(text),
        None => text,
    }
}

/// Puts a text there, in which letters may be repeated.
fn put(out: &mut Vec<u8>, text: &str) -> Result<(), LineFault> {
    let mut parts = text.split("{");
    put_plain(out, parts.next().unwrap_or(""))?;
    for part in parts {
        let Some((letters, plain)) = part.split_once("}") else {
            return Err(GrammarFault::NoLine.into());
        };
        let Some((last, count)) = letters.as_bytes().split_last() else {
            return Err(GrammarFault::NoLine.into());
        };
        for _ in 0..Words::new(from_utf8(count).unwrap_or("")).number()? {
            out.push(*last)?;
        }
        put_plain(out, plain)?;
    }
    Ok(())
}

fn put_plain(out: &mut Vec<u8>, text: &str) -> Result<(), LineFault> {
    let mut rest = text.as_bytes();
    for _ in 0..text.len() {
        let behind = match rest {
            [] => return Ok(()),
            [b'|', behind @ ..] => {
                out.push(b'\n')?;
                behind
            }
            [b'\\', b'x', high, low, behind @ ..] => {
                out.push(digits(&[*high, *low])?)?;
                behind
            }
            [byte, behind @ ..] => {
                out.push(*byte)?;
                behind
            }
        };
        rest = behind;
    }
    Ok(())
}

fn digits(digits: &[u8]) -> Result<u8, LineFault> {
    match u8::from_str_radix(from_utf8(digits).unwrap_or("?"), 16) {
        Ok(byte) => Ok(byte),
        Err(_) => Err(GrammarFault::NoLine.into()),
    }
}

/// A text, on one line.
#[derive(Clone, Copy, Debug)]
pub struct OneLine<'a>(pub &'a str);

impl fmt::Display for OneLine<'_> {
    fn fmt<W: fmt::Write>(&self, f: &mut fmt::Formatter<W>) -> fmt::Result {
        let mut lines = self.0.split("\n");
        f.write_str(lines.next().unwrap_or(""))?;
        for line in lines {
            write!(f, "|{line}")?;
        }
        Ok(())
    }
}
