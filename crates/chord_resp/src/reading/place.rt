/// Where a byte of an inline command stands.
#[derive(Clone, Copy, Debug, PartialEq, Eq)]
pub enum Place {
    /// Before a word.
    Gap,
    /// In a word, outside of quotes.
    Bare,
    /// In double quotes.
    Double,
    /// Behind a `\` in double quotes.
    Escape,
    /// Behind `\x` in double quotes.
    Hex,
    /// Behind `\x` and this digit.
    HexDigit(u8),
    /// In single quotes.
    Single,
    /// Behind a `\` in single quotes.
    SingleEscape,
    /// Behind a quote that closes.
    Closed,
}
