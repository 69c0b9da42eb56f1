//! A store with a limit of its own.
ghost use Rattle.std.specs.Prelude.{◌≡◌, []};
ghost use Rattle.chord_store.specs.Capped.{Capped};

use crate::cut::cut_after;
use crate::lists::{copy_span, insert_within, put_all_within, take_out, values_under};
use crate::outcome::{Inserted, StoreFault};
use crate::store::EntryStore;
use chord_ident::{Id, Span};
use chord_map::{Bytes, Pair, PairList, Values};
use std::alloc::{AllocError, Global};
use std::marker::Model;

/// A store over a list of at most `limit` pairs. It finds a
/// pair by binary search; a change moves the pairs behind it.
#[derive(Debug, Drop)]
pub struct CappedStore {
    pairs: PairList,
    limit: u64,
}

impl Model for CappedStore {
    ghost use Rattle.chord_store.specs.Capped.{Capped};
    ghost use Rattle.chord_store.specs.Store.{HasFew};

    ghost Value = { Capped };

    ghost view = { λ store. record { pairs = store.pairs; limit = store.limit } };

    ghost invariant = { λ store. HasFew store.pairs };
}

impl CappedStore {
    /// An empty store for at most `limit` pairs.
    pub fn new(alloc: Global, limit: u64) -> CappedStore
        ensures { result ≡ record { pairs = []; limit = limit } }
    {
        CappedStore {
            pairs: PairList::new(alloc),
            limit,
        }
    }
}

impl EntryStore for CappedStore {
    ghost content = { λ store. store.pairs };

    ghost limit = { λ store. store.limit };

    fn insert(&mut self, _id: Id, key: &Bytes, value: &Bytes) -> Result<Inserted, StoreFault> {
        insert_within(
            &mut self.pairs,
            self.limit,
            key.as_slice(),
            value.as_slice(),
        )
    }

    fn remove(&mut self, _id: Id, key: &Bytes, value: &[u8]) -> bool {
        self.pairs.remove(key.as_slice(), value)
    }

    fn take_out(&mut self, span: &Span) {
        take_out(&mut self.pairs, span);
    }

    fn drop_copied(&mut self, span: &Span, _copies: &[Pair]) {
        self.take_out(span);
    }

    fn count(&self) -> u64 {
        self.pairs.as_slice().len() as u64
    }

    fn values(&self, alloc: Global, _id: Id, key: &Bytes) -> Result<Values, AllocError> {
        values_under(alloc, self.pairs.as_slice(), key.as_slice())
    }

    fn copy_span(&self, alloc: Global, span: &Span) -> Result<Vec<Pair>, AllocError> {
        copy_span(alloc, self.pairs.as_slice(), span)
    }

    fn cut_after(&self, span: &Span, n: u64, most: u64) -> Option<Id> {
        cut_after(&self.pairs, *span, n, most)
    }

    fn put_all(&mut self, span: &Span, pairs: &[Pair]) -> Result<(), StoreFault> {
        put_all_within(&mut self.pairs, self.limit, span, pairs)
    }
}
