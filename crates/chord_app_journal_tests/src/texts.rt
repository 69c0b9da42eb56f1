//! How lines write and show bytes.

use chord_app_text::{GrammarFault, LineFault};
use chord_map::Bytes;
use chord_resp::Command;
use std::alloc::Global;
use std::fmt;

/// The bytes that a word writes: `\r`, `\n`, `\0` and `\s`, a space, as one byte each.
pub fn bytes_of(alloc: Global, word: &str) -> Result<Vec<u8>, LineFault> {
    let mut bytes = Vec::new(alloc);
    let mut is_escaped = false;
    for byte in word.as_bytes() {
        if is_escaped {
            bytes.push(match *byte {
                b'r' => b'\r',
                b'n' => b'\n',
                b'0' => 0,
                b's' => b' ',
                _ => return Err(GrammarFault::NoLine.into()),
            })?;
            is_escaped = false;
        } else if *byte == b'\\' {
            is_escaped = true;
        } else {
            bytes.push(*byte)?;
        }
    }
    Ok(bytes)
}

/// Bytes, with these escapes.
#[derive(Clone, Copy, Debug)]
pub struct BytesText<'a>(pub &'a [u8]);

impl fmt::Display for BytesText<'_> {
    fn fmt<W: fmt::Write>(&self, f: &mut fmt::Formatter<W>) -> fmt::Result {
        for byte in self.0 {
            match *byte {
                b'\r' => f.write_str("\\r")?,
                b'\n' => f.write_str("\\n")?,
                0 => f.write_str("\\0")?,
                b' ' => f.write_str("\\s")?,
                other => f.write_char(char::from(other))?,
            }
        }
        Ok(())
    }
}

/// A change: `+abc:x:y` adds two members under `abc`, `-abc:x` removes one.
#[derive(Clone, Copy, Debug)]
pub struct ChangeText<'a>(pub &'a Command);

fn show<W: fmt::Write>(
    f: &mut fmt::Formatter<W>,
    sign: &str,
    key: &Bytes,
    members: &[Bytes],
) -> fmt::Result {
    f.write_str(sign)?;
    let key = BytesText(key.as_slice());
    write!(f, "{key}")?;
    for member in members {
        let member = BytesText(member.as_slice());
        write!(f, ":{member}")?;
    }
    Ok(())
}

impl fmt::Display for ChangeText<'_> {
    fn fmt<W: fmt::Write>(&self, f: &mut fmt::Formatter<W>) -> fmt::Result {
        match self.0 {
            Command::Add { key, members } => show(f, "+", key, members.as_slice()),
            Command::Remove { key, members } => show(f, "-", key, members.as_slice()),
            _ => f.write_str("other"),
        }
    }
}
