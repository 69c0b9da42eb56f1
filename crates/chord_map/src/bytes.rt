//! Byte strings; contracts see them as lists.
ghost use Rattle.std.specs.Prelude.{◌≡◌, ◌↔◌, ◌≤◌, ℕ, List, [], length, IsTrue, IsOk, IfOk, Some, refl};
ghost use Rattle.std.specs.Str.{bytes_eq};
ghost use Rattle.std.specs.Ordering.{nat_cmp};
ghost use Rattle.std.specs.Cmp.{partial_equiv_from_equiv};
ghost use Rattle.std.specs.Cmp.Lexicographic.{slice_cmp, nat_list_eq_equiv, nat_list_cmp_total, texts_po, texts_ties};

use crate::block::Block;
use crate::long::Long;
use crate::short::Short;
use std::alloc::{AllocError, Global};
use std::cmp::Ordering;
use std::marker::Model;
use std::sync::Arc;

/// A key or a value, whose bytes never change. Up to 24 of them are stored inline, more are
/// allocated. Copies of what `from_slice` made share its allocation.
#[derive(Debug)]
pub struct Bytes {
    storage: Storage,
}

#[derive(Debug, Drop)]
enum Storage {
    Inline(Short),
    Owned(Vec<u8>),
    Small(Arc<Block<63>>),
    Middle(Arc<Block<127>>),
    Large(Arc<Block<255>>),
    Long(Arc<Long>),
}

impl Model for Bytes {
    ghost use Rattle.std.specs.Prelude.{ℕ, List};
    ghost use Rattle.chord_map.specs.Storage.{bytes_of};

    ghost Value = { List ℕ };

    ghost view = { λ bytes. bytes_of bytes.storage };
}

// Written out, so that a proof about code that drops one does not go through the kinds of storage.
impl Drop for Bytes {
    fn drop(self) {
        let Bytes { storage } = self;
        drop(storage);
    }
}

impl Bytes {
    /// The bytes of a vector, whose allocation is reused.
    pub fn from_vec(items: Vec<u8>) -> Bytes
        ensures { result ≡ items.items }
    {
        Bytes {
            storage: Storage::Owned(items),
        }
    }

    /// A copy of the bytes.
    pub fn from_slice(alloc: Global, bytes: &[u8]) -> Result<Bytes, AllocError>
        ensures copy { IfOk result (λ copy. copy ≡ bytes.now) }
        ensures short { length bytes.now ≤ 24 → IsOk result }
    {
        let storage = match bytes.len() {
            0..=24 => Storage::Inline(Short::from_slice(bytes)),
            25..=63 => Storage::Small(Arc::new(alloc, Block::from_slice(bytes))?),
            64..=127 => Storage::Middle(Arc::new(alloc, Block::from_slice(bytes))?),
            128..=255 => Storage::Large(Arc::new(alloc, Block::from_slice(bytes))?),
            _ => Storage::Long(Arc::new(alloc, Long::from_slice(alloc, bytes)?)?),
        };
        Ok(Bytes { storage })
    }

    pub fn as_slice(&self) -> &[u8]
        ensures { result.now ≡ self.now }
    {
        match &self.storage {
            Storage::Inline(short) => short.as_slice(),
            Storage::Owned(bytes) => bytes.as_slice(),
            Storage::Small(bytes) => bytes.as_slice(),
            Storage::Middle(bytes) => bytes.as_slice(),
            Storage::Large(bytes) => bytes.as_slice(),
            Storage::Long(bytes) => bytes.as_slice(),
        }
    }

    /// An equal copy.
    pub fn try_copy(&self) -> Result<Bytes, AllocError>
        ensures copy { IfOk result (λ copy. copy ≡ self.now) }
        ensures short { length self.now ≤ 24 → IsOk result }
    {
        let storage = match &self.storage {
            Storage::Inline(short) => Storage::Inline(short.copied()),
            Storage::Owned(bytes) => {
                return Bytes::from_slice(*bytes.allocator(), bytes.as_slice());
            }
            Storage::Small(bytes) => {
                bytes.look();
                Storage::Small(Arc::try_clone(bytes)?)
            }
            Storage::Middle(bytes) => {
                bytes.look();
                Storage::Middle(Arc::try_clone(bytes)?)
            }
            Storage::Large(bytes) => {
                bytes.look();
                Storage::Large(Arc::try_clone(bytes)?)
            }
            Storage::Long(bytes) => {
                bytes.look();
                Storage::Long(Arc::try_clone(bytes)?)
            }
        };
        Ok(Bytes { storage })
    }
}

impl PartialEq for Bytes {
    ghost eq = { bytes_eq };

    ghost laws = { partial_equiv_from_equiv nat_list_eq_equiv };

    fn eq(&self, other: &Bytes) -> bool
        ensures test { result ≡ bytes_eq self.now other.now }
        ensures same { IsTrue result ↔ (self.now ≡ other.now) }
    {
        self.as_slice() == other.as_slice()
    }
}

impl Eq for Bytes {
    ghost laws = { nat_list_eq_equiv };
}

impl PartialOrd for Bytes {
    ghost partial_cmp = { λ a b. Some (slice_cmp nat_cmp a b) };

    ghost laws = { texts_po };

    fn partial_cmp(&self, other: &Bytes) -> Option<Ordering> {
        Some(self.cmp(other))
    }
}

/// The order of the bytes, byte by byte.
impl Ord for Bytes {
    ghost cmp = { slice_cmp nat_cmp };

    ghost total = { nat_list_cmp_total };

    ghost matches_partial_cmp = { λ a b. refl };

    ghost matches_eq = { texts_ties };

    fn cmp(&self, other: &Bytes) -> Ordering {
        self.as_slice().cmp(other.as_slice())
    }
}
