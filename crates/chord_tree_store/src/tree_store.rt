//! A store by the identifiers of its keys.
ghost use Rattle.std.specs.Prelude.{◌≡◌, ◌≤◌, ◌<◌, ◌-◌, ◌^◌, List, [], length};
ghost use Rattle.chord_ident.specs.Circle.{key_id};
ghost use Rattle.chord_map.specs.declared.pair.Pair.{Pair};
ghost use Rattle.chord_store.specs.Inside.{pairs_inside};
ghost use Rattle.chord_store.specs.Store.{HasFew, InsertIs, PutAllIs};

use crate::slots::Slots;
use chord_ident::{Id, Span};
use chord_map::limits::SET_VALUES;
use chord_map::{Bytes, Pair, Values};
use chord_store::{EntryStore, Inserted, StoreFault, cut_after};
use std::alloc::{AllocError, Global};
use std::marker::Model;

// The most pairs of a store: their count is a 64-bit number.
const LIMIT: u64 = u64::MAX;

// The keys of a shard at which it is halved. A shard's hash map moves all
// its slots when it grows, so a larger one would make single inserts slow.
const SHARD_KEYS: usize = 4096;

/// A store in shards of neighbouring identifiers, each a hash map. An insert, a remove and a
/// look-up search the shards and look one key up; what concerns a span reads the shards of the
/// span alone. It has no limit of its own.
#[derive(Drop)]
pub struct TreeStore {
    slots: Slots,
}

impl Model for TreeStore {
    ghost Value = { List Pair };

    ghost view = { λ store. store.slots };
}

impl TreeStore {
    pub fn new(alloc: Global) -> TreeStore
        ensures { result ≡ [] }
    {
        TreeStore::with_shards(alloc, SHARD_KEYS)
    }

    /// An empty store whose shards are halved when they have `most` keys.
    pub fn with_shards(alloc: Global, most: usize) -> TreeStore
        ensures { result ≡ [] }
    {
        TreeStore {
            slots: Slots::new(alloc, most),
        }
    }
}

impl EntryStore for TreeStore {
    ghost content = { λ store. store };

    ghost limit = { λ _. 2 ^ 64 - 1 };

    fn insert(&mut self, id: Id, key: &Bytes, value: &Bytes) -> Result<Inserted, StoreFault> {
        insert_new(&mut self.slots, id, key, value)
    }

    fn remove(&mut self, id: Id, key: &Bytes, value: &[u8]) -> bool {
        self.slots.remove(id, key, value)
    }

    fn take_out(&mut self, span: &Span) {
        self.slots.take_out(span);
    }

    fn drop_copied(&mut self, span: &Span, copies: &[Pair]) {
        self.slots.drop_copied(span, copies);
    }

    fn count(&self) -> u64 {
        self.slots.len()
    }

    fn values(&self, alloc: Global, id: Id, key: &Bytes) -> Result<Values, AllocError> {
        self.slots.values(alloc, id, key)
    }

    fn copy_span(&self, alloc: Global, span: &Span) -> Result<Vec<Pair>, AllocError> {
        self.slots.copy_span(alloc, span)
    }

    fn cut_after(&self, span: &Span, n: u64, most: u64) -> Option<Id> {
        cut_after(&self.slots, *span, n, most)
    }

    fn put_all(&mut self, span: &Span, pairs: &[Pair]) -> Result<(), StoreFault> {
        put_all_new(&mut self.slots, span, pairs)
    }
}

// Adds the value under the key, if it is new and the set has room.
fn insert_new(slots: &mut Slots, id: Id, key: &Bytes, value: &Bytes) -> Result<Inserted, StoreFault>
    requires { id.number ≡ key_id key.now }
    ensures { InsertIs (record { key = key.now; value = value.now }) slots.old (2 ^ 64 - 1) result slots.new }
{
    if slots.len() == LIMIT {
        return insert_into_full(slots, id, key, value.as_slice());
    }
    match slots.insert(id, key, value) {
        Ok(did) => Ok(did),
        Err(_) => Err(StoreFault::Memory),
    }
}

// The answer to an insert into a full store.
fn insert_into_full(
    slots: &Slots,
    id: Id,
    key: &Bytes,
    value: &[u8],
) -> Result<Inserted, StoreFault>
    requires id { id.number ≡ key_id key.now }
    requires full { length slots.now ≡ 2 ^ 64 - 1 }
    ensures { InsertIs (record { key = key.now; value = value.now }) slots.now (2 ^ 64 - 1) result slots.now }
{
    if slots.contains(id, key, value) {
        return Ok(Inserted::Present);
    }
    if slots.count_under(id, key) >= SET_VALUES {
        return Ok(Inserted::SetFull);
    }
    Err(StoreFault::Full)
}

// Adds all the pairs, which lie in a span where the store has none, or none of them.
fn put_all_new(slots: &mut Slots, span: &Span, pairs: &[Pair]) -> Result<(), StoreFault>
    requires vacant { pairs_inside span.now slots.old ≡ [] }
    requires within { pairs_inside span.now pairs.now ≡ pairs.now }
    requires few { HasFew pairs.now }
    ensures { PutAllIs pairs.now slots.old (2 ^ 64 - 1) result slots.new }
{
    if LIMIT - slots.len() < pairs.len() as u64 {
        return Err(StoreFault::Full);
    }
    for pair in pairs {
        match slots.put(pair) {
            Ok(()) => {}
            Err(_) => {
                slots.take_out(span);
                return Err(StoreFault::Memory);
            }
        }
    }
    Ok(())
}
