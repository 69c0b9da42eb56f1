/// What the next byte of a stream belongs to.
#[derive(Clone, Copy, Debug, PartialEq, Eq)]
pub enum Phase {
    /// A new command.
    Start,
    /// An inline command.
    Line,
    /// The count of words, of which this many digits were read, with this value.
    Count { digits: u32, number: u32 },
    /// The `\n` behind the count of words.
    CountEnd { number: u32 },
    /// The `$` of a word.
    Mark,
    /// The length of a word, of which this many digits were read, with this value.
    Size { digits: u32, number: u32 },
    /// The `\n` behind the length of a word.
    SizeEnd { number: u32 },
    /// A word of this length, of which this many bytes are left; then the `\r` behind it.
    Body { length: u32, left: u32 },
    /// The `\n` behind a word of this length.
    End { length: u32 },
}
