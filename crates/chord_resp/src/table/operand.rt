//! One operand.
ghost use Rattle.std.specs.Prelude.{◌≡◌};
ghost use Rattle.chord_resp.specs.Table.{fits, refusal_for, bytes_of};

use crate::reading::word::Word;
use crate::table::refusal::Refusal;
use chord_map::Bytes;
use chord_map::limits::{KEY_BYTES, VALUE_BYTES};

/// What an operand is.
#[derive(Clone, Copy, Debug, PartialEq, Eq)]
pub enum Operand {
    Key,
    Member,
    Text,
}

impl Operand {
    fn fits(self, bytes: &[u8]) -> bool
        ensures { result ≡ fits self bytes.now }
    {
        match self {
            Operand::Key => 1 <= bytes.len() && bytes.len() <= KEY_BYTES,
            Operand::Member => bytes.len() <= VALUE_BYTES,
            Operand::Text => true,
        }
    }

    /// The refusal of an operand that has too many bytes, or of a key that has none.
    pub fn refusal(self) -> Refusal
        ensures { result ≡ refusal_for self }
    {
        match self {
            Operand::Key => Refusal::KeyLength,
            Operand::Member => Refusal::MemberLength,
            Operand::Text => Refusal::WordLength,
        }
    }

    /// The bytes of a word that is such an operand.
    pub fn bytes_of(self, word: Word) -> Result<Bytes, Refusal>
        ensures { result ≡ bytes_of self word }
    {
        match word {
            Word::Long(_) => Err(self.refusal()),
            Word::Whole(bytes) => {
                if self.fits(bytes.as_slice()) {
                    Ok(bytes)
                } else {
                    Err(self.refusal())
                }
            }
        }
    }
}
