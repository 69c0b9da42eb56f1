//! Byte strings that are too long for a block of 255.
ghost use Rattle.std.specs.Prelude.{◌≡◌, ◌<◌, length, IfOk};

use std::alloc::{AllocError, Global};
use std::marker::Model;

/// More than 255 bytes.
#[derive(Debug, Drop)]
pub struct Long {
    bytes: Vec<u8>,
}

impl Model for Long {
    ghost use Rattle.std.specs.Prelude.{◌<◌, ℕ, List, length};

    ghost Value = { List ℕ };

    ghost view = { λ long. long.bytes.items };

    ghost invariant = { λ long. 255 < length long.bytes.items };
}

impl Long {
    pub fn from_slice(alloc: Global, slice: &[u8]) -> Result<Long, AllocError>
        requires { 255 < length slice.now }
        ensures { IfOk result (λ long. long ≡ slice.now) }
    {
        Ok(Long {
            bytes: slice.to_vec(alloc)?,
        })
    }

    pub fn as_slice(&self) -> &[u8]
        ensures { result.now ≡ self.now }
    {
        self.bytes.as_slice()
    }

    /// Does nothing. Its contract says that there are more bytes than a short string has.
    pub fn look(&self)
        ensures { 24 < length self.now }
    {
        let _bytes = &self.bytes;
    }
}
