//! A store that counts how often it is dropped.
ghost use Rattle.std.specs.Prelude.{◌≡◌, ◌-◌, ◌^◌, List, []};
ghost use Rattle.chord_map.specs.declared.pair.Pair.{Pair};

use chord_ident::{Id, Span};
use chord_map::{Bytes, Pair, Values};
use chord_store::{CappedStore, EntryStore, Inserted, StoreFault};
use std::alloc::{AllocError, Global};
use std::marker::Model;
use std::sync::atomic::{AtomicU64, Ordering};

/// A store over a list with no limit. Dropping it adds one to the counter.
pub struct CountedStore<'a> {
    list: CappedStore,
    drops: &'a AtomicU64,
}

impl<'a> Model for CountedStore<'a> {
    ghost use Rattle.std.specs.Prelude.{◌≡◌, ◌-◌, ◌^◌, List};
    ghost use Rattle.chord_map.specs.declared.pair.Pair.{Pair};

    ghost Value = { List Pair };

    ghost view = { λ store. store.list.pairs };

    ghost invariant = { λ store. store.list.limit ≡ 2 ^ 64 - 1 };
}

impl<'a> CountedStore<'a> {
    pub fn new(alloc: Global, drops: &'a AtomicU64) -> CountedStore<'a>
        ensures { result ≡ [] }
    {
        CountedStore {
            list: CappedStore::new(alloc, u64::MAX),
            drops,
        }
    }
}

impl<'a> Drop for CountedStore<'a> {
    fn drop(self) {
        let CountedStore { list, drops } = self;
        drop(list);
        drops.fetch_add(1, Ordering::SeqCst);
    }
}

impl<'a> EntryStore for CountedStore<'a> {
    ghost content = { λ store. store };

    ghost limit = { λ _. 2 ^ 64 - 1 };

    fn insert(&mut self, id: Id, key: &Bytes, value: &Bytes) -> Result<Inserted, StoreFault> {
        self.list.insert(id, key, value)
    }

    fn remove(&mut self, id: Id, key: &Bytes, value: &[u8]) -> bool {
        self.list.remove(id, key, value)
    }

    fn take_out(&mut self, span: &Span) {
        self.list.take_out(span);
    }

    fn drop_copied(&mut self, span: &Span, copies: &[Pair]) {
        self.list.drop_copied(span, copies);
    }

    fn count(&self) -> u64 {
        self.list.count()
    }

    fn values(&self, alloc: Global, id: Id, key: &Bytes) -> Result<Values, AllocError> {
        self.list.values(alloc, id, key)
    }

    fn copy_span(&self, alloc: Global, span: &Span) -> Result<Vec<Pair>, AllocError> {
        self.list.copy_span(alloc, span)
    }

    fn cut_after(&self, span: &Span, n: u64, most: u64) -> Option<Id> {
        self.list.cut_after(span, n, most)
    }

    fn put_all(&mut self, span: &Span, pairs: &[Pair]) -> Result<(), StoreFault> {
        self.list.put_all(span, pairs)
    }
}
