//! How scripts write bytes of Redis's protocol, and how lines show them: `|` is `\r\n`, and other
//! bytes that are no printable letters are `\r`, `\n`, `\\` or `\x00`. In scripts `{5000}` is 5,000
//! times x.

use chord_app_text::{GrammarFault, LineFault, Words};
use std::alloc::Global;
use std::fmt;
use std::str::from_utf8;

/// The bytes of all words that are left, with a space between words.
pub fn escaped(alloc: Global, words: &mut Words) -> Result<Vec<u8>, LineFault> {
    let mut out = Vec::new(alloc);
    for place in 0..64u64 {
        if words.has_more() {
            if place != 0 {
                out.push(b' ')?;
            }
            put_word(&mut out, words.word()?)?;
        }
    }
    Ok(out)
}

/// The bytes of the next word.
pub fn escaped_word(alloc: Global, words: &mut Words) -> Result<Vec<u8>, LineFault> {
    let mut out = Vec::new(alloc);
    put_word(&mut out, words.word()?)?;
    Ok(out)
}

fn put_word(out: &mut Vec<u8>, word: &str) -> Result<(), LineFault> {
    let mut parts = word.split("{");
    put_plain(out, parts.next().unwrap_or(""))?;
    for part in parts {
        let Some((count, plain)) = part.split_once("}") else {
            return Err(GrammarFault::NoLine.into());
        };
        for _ in 0..Words::new(count).number()? {
            out.push(b'x')?;
        }
        put_plain(out, plain)?;
    }
    Ok(())
}

fn put_plain(out: &mut Vec<u8>, text: &str) -> Result<(), LineFault> {
    let mut rest = text.as_bytes();
    for _ in 0..text.len() {
        let behind = match rest {
            [] => return Ok(()),
            [b'|', behind @ ..] => {
                out.extend_from_slice(b"\r\n")?;
                behind
            }
            [b'\\', b'x', high, low, behind @ ..] => {
                out.push(digits(&[*high, *low])?)?;
                behind
            }
            [b'\\', letter, behind @ ..] => {
                out.push(control(*letter)?)?;
                behind
            }
            [byte, behind @ ..] => {
                out.push(*byte)?;
                behind
            }
        };
        rest = behind;
    }
    Ok(())
}

fn digits(digits: &[u8]) -> Result<u8, LineFault> {
    match u8::from_str_radix(from_utf8(digits).unwrap_or("?"), 16) {
        Ok(byte) => Ok(byte),
        Err(_) => Err(GrammarFault::NoLine.into()),
    }
}

fn control(letter: u8) -> Result<u8, LineFault> {
    match letter {
        b'r' => Ok(b'\r'),
        b'n' => Ok(b'\n'),
        b'\\' => Ok(b'\\'),
        _ => Err(GrammarFault::NoLine.into()),
    }
}

/// Bytes, as scripts write them.
#[derive(Clone, Copy, Debug)]
pub struct EscapedText<'a>(pub &'a [u8]);

impl fmt::Display for EscapedText<'_> {
    fn fmt<W: fmt::Write>(&self, f: &mut fmt::Formatter<W>) -> fmt::Result {
        let mut rest = self.0;
        for _ in 0..self.0.len() {
            let behind = match rest {
                [] => return Ok(()),
                [b'\r', b'\n', behind @ ..] => {
                    f.write_str("|")?;
                    behind
                }
                [byte, behind @ ..] => {
                    show_byte(f, *byte)?;
                    behind
                }
            };
            rest = behind;
        }
        Ok(())
    }
}

fn show_byte<W: fmt::Write>(f: &mut fmt::Formatter<W>, byte: u8) -> fmt::Result {
    match byte {
        b'\r' => f.write_str("\\r"),
        b'\n' => f.write_str("\\n"),
        b'\\' => f.write_str("\\\\"),
        b' '..=b'~' if byte != b'|' => {
            let letter = char::from(byte);
            write!(f, "{letter}")
        }
        _ => write!(f, "\\x{byte:02x}"),
    }
}
