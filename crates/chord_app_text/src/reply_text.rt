//! How a line shows replies.

use chord_map::Reply;
use std::fmt;

/// A reply as a line shows it: `values` with their count and each value as hexadecimal digits, `-`
/// for an empty one.
#[derive(Clone, Copy, Debug)]
pub struct ReplyText<'a>(pub &'a Reply);

impl fmt::Display for ReplyText<'_> {
    fn fmt<W: fmt::Write>(&self, f: &mut fmt::Formatter<W>) -> fmt::Result {
        match self.0 {
            Reply::Added => f.write_str("added"),
            Reply::Present => f.write_str("present"),
            Reply::SetFull => f.write_str("setfull"),
            Reply::Removed => f.write_str("removed"),
            Reply::Absent => f.write_str("absent"),
            Reply::Values(values) => {
                let values = values.as_slice();
                let count = values.len();
                write!(f, "values {count}")?;
                for value in values {
                    let hex = Hex(value.as_slice());
                    write!(f, " {hex}")?;
                }
                Ok(())
            }
        }
    }
}

/// Bytes as lower case hexadecimal digits, `-` for none.
#[derive(Clone, Copy, Debug)]
pub struct Hex<'a>(pub &'a [u8]);

impl fmt::Display for Hex<'_> {
    fn fmt<W: fmt::Write>(&self, f: &mut fmt::Formatter<W>) -> fmt::Result {
        if self.0.is_empty() {
            return f.write_str("-");
        }
        for byte in self.0 {
            write!(f, "{byte:02x}")?;
        }
        Ok(())
    }
}
