//! Stores of all kinds as one type.
ghost use Rattle.std.specs.Prelude.{◌≡◌, map, IfOk};
ghost use Rattle.chord_app.specs.Kinds.{content_of, limit_of, limit_planned};

use chord_app_plan::{Plan, StoreKind};
use chord_app_serve::MadeStore;
use chord_ident::{Id, Span};
use chord_map::{Bytes, Pair, Values};
use chord_store::{CappedStore, EntryStore, Inserted, StoreFault};
use chord_tree_store::TreeStore;
use std::alloc::{AllocError, Global};

/// A store of a node. What a noted store notes nobody would read here, so that it is a list too.
#[derive(Drop)]
pub enum KindStore {
    Tree(TreeStore),
    List(CappedStore),
}

impl MadeStore for KindStore {
    fn make(alloc: Global, kind: StoreKind) -> KindStore {
        match kind {
            StoreKind::Tree => KindStore::Tree(TreeStore::new(alloc)),
            _ => KindStore::List(CappedStore::make(alloc, kind)),
        }
    }
}

/// A store for each node of a plan, in the plan's order.
pub fn stores_for(alloc: Global, plan: &Plan) -> Result<Vec<KindStore>, AllocError>
    ensures { IfOk result (λ stores. map limit_of stores.items ≡ map limit_planned plan.now.nodes.items) }
{
    let mut stores = Vec::new(alloc);
    for node in plan.nodes.iter() {
        stores.push(KindStore::make(alloc, node.store))?;
    }
    Ok(stores)
}

impl EntryStore for KindStore {
    ghost content = { content_of };

    ghost limit = { limit_of };

    fn insert(&mut self, id: Id, key: &Bytes, value: &Bytes) -> Result<Inserted, StoreFault> {
        match self {
            KindStore::Tree(tree) => tree.insert(id, key, value),
            KindStore::List(list) => list.insert(id, key, value),
        }
    }

    fn remove(&mut self, id: Id, key: &Bytes, value: &[u8]) -> bool {
        match self {
            KindStore::Tree(tree) => tree.remove(id, key, value),
            KindStore::List(list) => list.remove(id, key, value),
        }
    }

    fn take_out(&mut self, span: &Span) {
        match self {
            KindStore::Tree(tree) => tree.take_out(span),
            KindStore::List(list) => list.take_out(span),
        }
    }

    fn drop_copied(&mut self, span: &Span, copies: &[Pair]) {
        match self {
            KindStore::Tree(tree) => tree.drop_copied(span, copies),
            KindStore::List(list) => list.drop_copied(span, copies),
        }
    }

    fn count(&self) -> u64 {
        match self {
            KindStore::Tree(tree) => tree.count(),
            KindStore::List(list) => list.count(),
        }
    }

    fn values(&self, alloc: Global, id: Id, key: &Bytes) -> Result<Values, AllocError> {
        match self {
            KindStore::Tree(tree) => tree.values(alloc, id, key),
            KindStore::List(list) => list.values(alloc, id, key),
        }
    }

    fn copy_span(&self, alloc: Global, span: &Span) -> Result<Vec<Pair>, AllocError> {
        match self {
            KindStore::Tree(tree) => tree.copy_span(alloc, span),
            KindStore::List(list) => list.copy_span(alloc, span),
        }
    }

    fn cut_after(&self, span: &Span, n: u64, most: u64) -> Option<Id> {
        match self {
            KindStore::Tree(tree) => tree.cut_after(span, n, most),
            KindStore::List(list) => list.cut_after(span, n, most),
        }
    }

    fn put_all(&mut self, span: &Span, pairs: &[Pair]) -> Result<(), StoreFault> {
        match self {
            KindStore::Tree(tree) => tree.put_all(span, pairs),
            KindStore::List(list) => list.put_all(span, pairs),
        }
    }
}
