//! Byte strings that need no memory.
ghost use Rattle.std.specs.Prelude.{◌≡◌, ◌≤◌, length, take};

use std::marker::Model;

/// Up to 24 bytes, stored inline.
#[derive(Debug, Drop)]
pub struct Short {
    len: usize,
    bytes: [u8; 24],
}

impl Model for Short {
    ghost use Rattle.std.specs.Prelude.{◌≤◌, ℕ, List, take};

    ghost Value = { List ℕ };

    ghost view = { λ short. take short.len short.bytes };

    ghost invariant = { λ short. short.len ≤ 24 };
}

impl Short {
    pub fn from_slice(slice: &[u8]) -> Short
        requires { length slice.now ≤ 24 }
        ensures { result ≡ slice.now }
    {
        let mut bytes = [0; 24];
        bytes[..slice.len()].copy_from_slice(slice);
        Short {
            len: slice.len(),
            bytes,
        }
    }

    /// An equal copy.
    pub fn copied(&self) -> Short
        ensures { result ≡ self.now }
    {
        Short {
            len: self.len,
            bytes: self.bytes,
        }
    }

    pub fn as_slice(&self) -> &[u8]
        ensures { result.now ≡ self.now }
    {
        &self.bytes[..self.len]
    }
}
