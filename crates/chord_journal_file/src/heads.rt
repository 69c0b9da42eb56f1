//! Heads of commands with more words than a client may write.
ghost use Rattle.std.specs.Prelude.{◌≡◌, ◌≤◌, ◌<◌, IfOk, IfSome, IsTrue};
ghost use Rattle.chord_journal_file.specs.Reading.{head_line};

use chord_resp::limits;
use itoa::Buffer;
use std::alloc::{AllocError, Global};

/// The most words of a command in a file: a name, a key and 1,048,576 members.
const MOST_WORDS: u32 = 1_048_578;

/// The number that the digits at the front spell, up to a limit.
fn number_of(digits: &[u8]) -> u32 {
    let mut number: u32 = 0;
    for byte in digits {
        match byte {
            b'0'..=b'9' if number <= MOST_WORDS => number = number * 10 + (*byte - b'0') as u32,
            _ => return number,
        }
    }
    number
}

/// Whether these are the same bytes.
fn is_same(a: &[u8], b: &[u8]) -> bool
    ensures { IsTrue result → a.now ≡ b.now }
{
    a == b
}

/// How many words the command has whose first line this is, if they are more than a client may
/// write.
pub(crate) fn long_count(alloc: Global, line: &[u8]) -> Result<Option<u32>, AllocError>
    ensures { IfOk result (λ found. IfSome found (λ count. (1024 < count) × (count ≤ MOST_WORDS)
        × (line.now ≡ head_line count))) }
{
    let [b'*', digits @ ..] = line else {
        return Ok(None);
    };
    let count = number_of(digits);
    if count <= limits::WORDS || MOST_WORDS < count {
        return Ok(None);
    }
    let mut buffer = Buffer::new();
    let mut head = Vec::from_slice(alloc, b"*")?;
    head.extend_from_slice(buffer.format(count).as_bytes())?;
    head.extend_from_slice(b"\r\n")?;
    if is_same(line, &head) {
        Ok(Some(count))
    } else {
        Ok(None)
    }
}
