//! A store that is always out of memory.
ghost use Rattle.std.specs.Prelude.{◌^◌, []};

use chord_ident::{Id, Span};
use chord_map::{Bytes, Pair, Values};
use chord_store::{EntryStore, Inserted, StoreFault};
use std::alloc::{AllocError, Global};

/// A store that never has memory for a pair, so that it has none.
#[derive(Drop)]
pub struct NoMemory;

#[tactic(auto, unfolding(chord_map::specs::Map::reply_to, chord_map::specs::Map::remove_pair, chord_map::specs::Map::put_all, chord_store::specs::Inside::pairs_inside, chord_store::specs::Inside::pairs_outside))]
impl EntryStore for NoMemory {
    ghost content = { λ _. [] };

    ghost limit = { λ _. 2 ^ 64 };

    fn insert(&mut self, _id: Id, _key: &Bytes, _value: &Bytes) -> Result<Inserted, StoreFault> {
        Err(StoreFault::Memory)
    }

    fn remove(&mut self, _id: Id, _key: &Bytes, _value: &[u8]) -> bool {
        false
    }

    fn take_out(&mut self, _span: &Span) {}

    fn drop_copied(&mut self, _span: &Span, _copies: &[Pair]) {}

    fn count(&self) -> u64 {
        0
    }

    fn values(&self, alloc: Global, _id: Id, _key: &Bytes) -> Result<Values, AllocError> {
        Ok(Values::new(alloc))
    }

    fn copy_span(&self, alloc: Global, _span: &Span) -> Result<Vec<Pair>, AllocError> {
        Ok(Vec::new(alloc))
    }

    fn cut_after(&self, _span: &Span, _n: u64, _most: u64) -> Option<Id> {
        None
    }

    fn put_all(&mut self, _span: &Span, pairs: &[Pair]) -> Result<(), StoreFault> {
        if pairs.is_empty() {
            Ok(())
        } else {
            Err(StoreFault::Memory)
        }
    }
}
