//! Answers of one line, and bulk strings.
ghost use Rattle.std.specs.Prelude.{◌≡◌, ◌+◌, ◌≤◌, ◌<◌, ◌^◌, length, decimal};
ghost use Rattle.chord_resp.specs.Spelling.{bulk, newline};
ghost use Rattle.chord_resp.specs.Answers.{Joins, line, simple, error, integer, null, count};

use itoa::Buffer;
use std::alloc::AllocError;

/// Adds a line behind its mark.
fn put_line(out: &mut Vec<u8>, mark: u8, text: &[u8]) -> Result<(), AllocError>
    ensures { Joins result out.old.items out.new.items (line mark text.now) }
{
    out.reserve(text.len() + 3)?;
    out.extend_from_slice(&[mark]).unwrap();
    out.extend_from_slice(text).unwrap();
    out.extend_from_slice(b"\r\n").unwrap();
    Ok(())
}

/// Adds a simple string. The text has no `\r` and no `\n`.
pub fn put_simple(out: &mut Vec<u8>, text: &[u8]) -> Result<(), AllocError>
    ensures { Joins result out.old.items out.new.items (simple text.now) }
{
    put_line(out, b'+', text)
}

/// Adds an error. The text has no `\r` and no `\n`.
pub fn put_error(out: &mut Vec<u8>, text: &[u8]) -> Result<(), AllocError>
    ensures { Joins result out.old.items out.new.items (error text.now) }
{
    put_line(out, b'-', text)
}

/// Adds an integer.
pub fn put_integer(out: &mut Vec<u8>, number: u64) -> Result<(), AllocError>
    ensures { Joins result out.old.items out.new.items (integer number) }
{
    let mut buffer = Buffer::new();
    put_line(out, b':', buffer.format(number).as_bytes())
}

/// Adds the head of an array, of which the items follow.
pub fn put_count(out: &mut Vec<u8>, items: usize) -> Result<(), AllocError>
    ensures { Joins result out.old.items out.new.items (count items) }
{
    let mut buffer = Buffer::new();
    put_line(out, b'*', buffer.format(items).as_bytes())
}

/// Adds the answer that there is no value.
pub fn put_null(out: &mut Vec<u8>) -> Result<(), AllocError>
    ensures { Joins result out.old.items out.new.items null }
{
    out.extend_from_slice(b"$-1\r\n")
}

/// Adds a bulk string.
pub fn put_bulk(out: &mut Vec<u8>, bytes: &[u8]) -> Result<(), AllocError>
    ensures { Joins result out.old.items out.new.items (bulk bytes.now) }
{
    let mut buffer = Buffer::new();
    let digits = buffer.format(bytes.len()).as_bytes();
    out.reserve(digits.len() + bytes.len() + 5)?;
    out.extend_from_slice(b"$").unwrap();
    out.extend_from_slice(digits).unwrap();
    out.extend_from_slice(b"\r\n").unwrap();
    out.extend_from_slice(bytes).unwrap();
    out.extend_from_slice(b"\r\n").unwrap();
    Ok(())
}
