//! How lines show the bytes of a journal and the commands in them.

use chord_resp::{Word, Words};
use std::fmt;

/// Bytes: printable ones as they are, others as in a literal of Rust.
#[derive(Clone, Copy, Debug)]
pub struct BytesText<'a>(pub &'a [u8]);

impl fmt::Display for BytesText<'_> {
    fn fmt<W: fmt::Write>(&self, f: &mut fmt::Formatter<W>) -> fmt::Result {
        for byte in self.0 {
            match *byte {
                b'\r' => f.write_str("\\r")?,
                b'\n' => f.write_str("\\n")?,
                printable if printable.is_ascii_graphic() => f.write_char(char::from(printable))?,
                other => write!(f, "\\x{other:02x}")?,
            }
        }
        Ok(())
    }
}

/// The bytes up to a mark: `mark 3: abc`.
#[derive(Clone, Copy, Debug)]
pub struct MarkText<'a> {
    pub mark: u64,
    pub bytes: &'a [u8],
}

impl fmt::Display for MarkText<'_> {
    fn fmt<W: fmt::Write>(&self, f: &mut fmt::Formatter<W>) -> fmt::Result {
        let mark = self.mark;
        write!(f, "mark {mark}")?;
        if self.bytes.is_empty() {
            return Ok(());
        }
        let bytes = BytesText(self.bytes);
        write!(f, ": {bytes}")
    }
}

/// A command: its words, each behind a space.
#[derive(Clone, Copy, Debug)]
pub struct CommandText<'a>(pub &'a Words);

impl fmt::Display for CommandText<'_> {
    fn fmt<W: fmt::Write>(&self, f: &mut fmt::Formatter<W>) -> fmt::Result {
        for word in self.0.as_slice() {
            match word {
                Word::Whole(bytes) => {
                    let bytes = BytesText(bytes.as_slice());
                    write!(f, " {bytes}")?;
                }
                Word::Long(count) => write!(f, " long {count}")?,
            }
        }
        Ok(())
    }
}
