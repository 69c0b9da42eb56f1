//! Byte strings that share a block with the count of their owners.
ghost use Rattle.std.specs.Prelude.{◌≡◌, ◌≤◌, ◌<◌, length, take};

use std::marker::Model;

/// 25 to N bytes and their number. N is at most 255.
#[derive(Debug, Drop)]
pub struct Block<const N: usize> {
    len: u8,
    bytes: [u8; N],
}

impl<const N: usize> Model for Block<N> {
    ghost use Rattle.std.specs.Prelude.{◌≤◌, ◌<◌, ℕ, List, take};

    ghost Value = { List ℕ };

    ghost view = { λ block. take block.len block.bytes };

    ghost invariant = { λ block. (24 < block.len) × (block.len ≤ N) };
}

impl<const N: usize> Block<N> {
    pub fn from_slice(slice: &[u8]) -> Block<N>
        requires more { 24 < length slice.now }
        requires few { length slice.now ≤ N }
        requires most { N ≤ 255 }
        ensures { result ≡ slice.now }
    {
        let mut bytes = [0; N];
        bytes[..slice.len()].copy_from_slice(slice);
        Block {
            len: slice.len() as u8,
            bytes,
        }
    }

    pub fn as_slice(&self) -> &[u8]
        ensures { result.now ≡ self.now }
    {
        &self.bytes[..self.len as usize]
    }

    /// Does nothing. Its contract says that there are more bytes than a short string has.
    pub fn look(&self)
        ensures { 24 < length self.now }
    {
        let _len = self.len;
    }
}
