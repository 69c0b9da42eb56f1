//! A word of a command.
ghost use Rattle.std.specs.Prelude.{◌≡◌};
ghost use Rattle.chord_resp.specs.Reading.{word_bytes};

use chord_map::Bytes;

/// A word of a command.
#[derive(Debug, Drop)]
pub enum Word {
    /// A word of at most 4,096 bytes.
    Whole(Bytes),
    /// The length of a longer word, or of the one behind the first 1,024, whose bytes are not kept.
    Long(usize),
}

impl Word {
    /// How many of its bytes are kept.
    pub fn kept_bytes(&self) -> u64
        ensures { result ≡ word_bytes self.now }
    {
        match self {
            Word::Whole(bytes) => bytes.as_slice().len() as u64,
            Word::Long(_) => 0,
        }
    }
}
