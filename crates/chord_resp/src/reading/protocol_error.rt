/// Why the bytes of a client are no command. It ends the connection.
#[derive(Clone, Copy, Debug, PartialEq, Eq)]
pub enum ProtocolError {
    /// The count of words is no number or above 1,048,576, or more than 1,024 words have more than
    /// 512 MiB.
    BadCount,
    /// This byte is where a word's `$` must be.
    NoDollar(u8),
    /// The length of a word is no number or above 1,048,576, or no `\r\n` is behind the word.
    BadLength,
    /// An inline command has more than 65,536 bytes or 1,024 words, or a number more than 32
    /// digits.
    TooLong,
    /// A quote of an inline command is not closed, or another byte than a space is behind one.
    Unbalanced,
    /// An inline command has a byte 0, or it is a line of HTTP. A browser may have been made to
    /// write it, so its connection is told nothing.
    Foreign,
}
