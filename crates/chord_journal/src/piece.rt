//! What is taken out of a buffer.

/// Bytes of a journal that are to be written next.
#[derive(Debug, Drop)]
pub struct JournalPiece {
    /// Whole commands.
    pub bytes: Vec<u8>,
    /// How many bytes the journal has up to the end of these.
    pub mark: u64,
}
