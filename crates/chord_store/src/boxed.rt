//! A boxed store is a store.
use crate::outcome::{Inserted, StoreFault};
use crate::store::EntryStore;
use chord_ident::{Id, Span};
use chord_map::{Bytes, Pair, Values};
use std::alloc::{AllocError, Global};

impl EntryStore for Box<dyn EntryStore + Send> {
    ghost content = { λ b. (EntryStore-box b).content b.value };

    ghost limit = { λ b. (EntryStore-box b).limit b.value };

    fn insert(&mut self, id: Id, key: &Bytes, value: &Bytes) -> Result<Inserted, StoreFault> {
        (**self).insert(id, key, value)
    }

    fn remove(&mut self, id: Id, key: &Bytes, value: &[u8]) -> bool {
        (**self).remove(id, key, value)
    }

    fn take_out(&mut self, span: &Span) {
        (**self).take_out(span)
    }

    fn drop_copied(&mut self, span: &Span, copies: &[Pair]) {
        (**self).drop_copied(span, copies)
    }

    fn count(&self) -> u64 {
        (**self).count()
    }

    fn values(&self, alloc: Global, id: Id, key: &Bytes) -> Result<Values, AllocError> {
        (**self).values(alloc, id, key)
    }

    fn copy_span(&self, alloc: Global, span: &Span) -> Result<Vec<Pair>, AllocError> {
        (**self).copy_span(alloc, span)
    }

    fn cut_after(&self, span: &Span, n: u64, most: u64) -> Option<Id> {
        (**self).cut_after(span, n, most)
    }

    fn put_all(&mut self, span: &Span, pairs: &[Pair]) -> Result<(), StoreFault> {
        (**self).put_all(span, pairs)
    }
}
