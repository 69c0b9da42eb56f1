//! Bytes that are written as hexadecimal digits.
ghost use Rattle.std.specs.Prelude.{◌↔◌, IsTrue};
ghost use Rattle.chord_app_text.specs.Digits.{ArePairs};

use chord_map::Bytes;
use std::alloc::{AllocError, Global};
use std::marker::Model;

/// The word that writes no bytes.
const NO_BYTES: &[u8] = b"-";

/// A word of pairs of hexadecimal digits of either case, or `-` for no bytes. Contracts see the
/// bytes that it writes.
#[derive(Drop)]
pub struct Digits<'a> {
    word: &'a [u8],
}

impl<'a> Model for Digits<'a> {
    ghost use Rattle.std.specs.Prelude.{ℕ, List, [], IsSome, unwrap_or};
    ghost use Rattle.chord_app_text.specs.Digits.{bytes_in};

    ghost Value = { List ℕ };

    ghost view = { λ digits. unwrap_or (bytes_in digits.word.now) [] };

    ghost invariant = { λ digits. IsSome (bytes_in digits.word.now) };
}

// Whether the bytes are pairs of hexadecimal digits, and at least one.
fn writes_pairs(word: &[u8]) -> bool
    ensures { IsTrue result ↔ ArePairs word.now }
{
    let are_digits = word.iter().all(|digit| digit.is_ascii_hexdigit());
    !word.is_empty() && word.len() % 2 == 0 && are_digits
}

impl<'a> Digits<'a> {
    ghost use Rattle.std.specs.Prelude.{◌≡◌, ◌≢◌, [], length, IfOk, OnErr};
    ghost use Rattle.chord_app_text.specs.Digits.{bytes_in};

    /// The digits that a word is, if it is such a word.
    pub fn of_word(word: &'a [u8]) -> Option<Digits<'a>>
        ensures { result ≡ bytes_in word.now }
    {
        if word == NO_BYTES {
            return Some(Digits { word });
        }
        if writes_pairs(word) {
            Some(Digits { word })
        } else {
            None
        }
    }

    /// How many bytes they write.
    pub fn count(&self) -> usize
        ensures { result ≡ length self.now }
    {
        if self.word == NO_BYTES {
            0
        } else {
            self.word.len() / 2
        }
    }

    /// The bytes that they write. No bytes take no memory.
    pub fn bytes(&self, alloc: Global) -> Result<Bytes, AllocError>
        ensures bytes { IfOk result (λ bytes. bytes ≡ self.now) }
        ensures memory { OnErr result (self.now ≢ []) }
    {
        if self.word == NO_BYTES {
            return Bytes::from_slice(alloc, &[]);
        }
        match hex::decode(alloc, self.word) {
            Ok(bytes) => Ok(Bytes::from_vec(bytes)),
            Err(_) => Err(AllocError),
        }
    }
}
