//! Lines that have a mark and a number of few digits, which are read together.
ghost use Rattle.std.specs.Prelude.{◌≡◌, ◌<◌, ◌^◌, IsTrue, IfSome};
ghost use Rattle.chord_resp.specs.ShortLines.{HasDigit, EndsLine, HasShortLine};

/// A line as `$9\r\n` or `*12\r\n`: its number, and how many bytes it has.
#[derive(Clone, Copy, Debug)]
pub struct ShortLine {
    pub number: u32,
    pub length: usize,
}

/// The digit at this index, if there is one.
fn digit_at(bytes: &[u8], index: usize) -> Option<u32>
    ensures { IfSome result (λ digit. HasDigit bytes.now index digit) }
{
    if index >= bytes.len() {
        return None;
    }
    let byte = bytes[index];
    if byte < b'0' || b'9' < byte {
        return None;
    }
    Some((byte - b'0') as u32)
}

/// Whether a line ends with the two bytes from this index on.
pub fn ends_line(bytes: &[u8], index: usize) -> bool
    requires { index < 2 ^ 63 }
    ensures { IsTrue result → EndsLine bytes.now index }
{
    index + 1 < bytes.len() && bytes[index] == b'\r' && bytes[index + 1] == b'\n'
}

impl ShortLine {
    /// The line that begins with the first byte, its mark, if it has one digit or two and is whole.
    pub fn begin(bytes: &[u8]) -> Option<ShortLine>
        ensures { IfSome result (λ line. HasShortLine bytes.now line.number line.length) }
    {
        let tens = digit_at(bytes, 1)?;
        if ends_line(bytes, 2) {
            return Some(ShortLine {
                number: tens,
                length: 4,
            });
        }
        let ones = digit_at(bytes, 2)?;
        if ends_line(bytes, 3) {
            return Some(ShortLine {
                number: tens * 10 + ones,
                length: 5,
            });
        }
        None
    }
}
