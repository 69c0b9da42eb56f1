//! A store that reports how many pairs it has when it is dropped.
ghost use Rattle.std.specs.Prelude.{◌≡◌, ◌-◌, ◌^◌, List, []};
ghost use Rattle.chord_map.specs.declared.pair.Pair.{Pair};

use crate::capped_store::CappedStore;
use crate::outcome::{Inserted, StoreFault};
use crate::store::EntryStore;
use chord_ident::{Id, Span};
use chord_map::{Bytes, Pair, Values};
use std::alloc::{AllocError, Global};
use std::marker::Model;
use std::sync::{Arc, OnceLock};

/// A store over a list. Dropping it puts its count into the cell, if the cell is empty.
pub struct NotedStore {
    list: CappedStore,
    note: Arc<OnceLock<u64>>,
}

impl Model for NotedStore {
    ghost use Rattle.std.specs.Prelude.{◌≡◌, ◌-◌, ◌^◌, List};
    ghost use Rattle.chord_map.specs.declared.pair.Pair.{Pair};

    ghost Value = { List Pair };

    ghost view = { λ store. store.list.pairs };

    ghost invariant = { λ store. store.list.limit ≡ 2 ^ 64 - 1 };
}

impl NotedStore {
    pub fn new(alloc: Global, note: Arc<OnceLock<u64>>) -> NotedStore
        ensures { result ≡ [] }
    {
        NotedStore {
            list: CappedStore::new(alloc, u64::MAX),
            note,
        }
    }
}

impl Drop for NotedStore {
    fn drop(self) {
        let NotedStore { list, note } = self;
        // A cell that has a count already stays unchanged.
        let _ = note.try_set(list.count());
    }
}

impl EntryStore for NotedStore {
    ghost content = { λ store. store };

    ghost limit = { λ _. 2 ^ 64 - 1 };

    fn insert(&mut self, id: Id, key: &Bytes, value: &Bytes) -> Result<Inserted, StoreFault> {
        self.list.insert(id, key, value)
    }

    fn remove(&mut self, id: Id, key: &Bytes, value: &[u8]) -> bool {
        self.list.remove(id, key, value)
    }

    fn take_out(&mut self, span: &Span) {
        self.list.take_out(span);
    }

    fn drop_copied(&mut self, span: &Span, copies: &[Pair]) {
        self.list.drop_copied(span, copies);
    }

    fn count(&self) -> u64 {
        self.list.count()
    }

    fn values(&self, alloc: Global, id: Id, key: &Bytes) -> Result<Values, AllocError> {
        self.list.values(alloc, id, key)
    }

    fn copy_span(&self, alloc: Global, span: &Span) -> Result<Vec<Pair>, AllocError> {
        self.list.copy_span(alloc, span)
    }

    fn cut_after(&self, span: &Span, n: u64, most: u64) -> Option<Id> {
        self.list.cut_after(span, n, most)
    }

    fn put_all(&mut self, span: &Span, pairs: &[Pair]) -> Result<(), StoreFault> {
        self.list.put_all(span, pairs)
    }
}
