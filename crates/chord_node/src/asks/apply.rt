//! Applying a request to a store.
ghost use Rattle.std.specs.Prelude.{◌≡◌, IfOk, OnErr, Ok, if◌then◌else◌};
ghost use Rattle.chord_ident.specs.Circle.{key_id};
ghost use Rattle.chord_node.specs.Asked.{Applied, is_full_for};
ghost use Rattle.chord_segment.specs.Segment.{id_of};
ghost use Rattle.chord_store.specs.Store.{reply_for};

use chord_ident::Id;
use chord_map::{Bytes, Reply, Request};
use chord_store::{EntryStore, Inserted, StoreFault};
use std::alloc::Global;

/// The reply to an insert that did this.
fn reply_to_insert(did: Inserted) -> Reply
    ensures { result ≡ reply_for did }
{
    match did {
        Inserted::Added => Reply::Added,
        Inserted::Present => Reply::Present,
        Inserted::SetFull => Reply::SetFull,
    }
}

/// The reply to a remove that found its value or not.
fn reply_to_remove(found: bool) -> Reply
    ensures { result ≡ (if found then Reply.Removed else Reply.Absent) }
{
    if found { Reply::Removed } else { Reply::Absent }
}

fn apply_insert<S: EntryStore>(
    store: &mut S,
    id: Id,
    key: &Bytes,
    value: &Bytes,
) -> Result<Reply, StoreFault>
    requires { id.number ≡ key_id key.now }
    ensures applied { Applied (Request.Insert key.now value.now) (S.content store.old) (S.limit store.old) result (S.content store.new) }
    ensures limit { S.limit store.new ≡ S.limit store.old }
{
    match store.insert(id, key, value) {
        Ok(did) => Ok(reply_to_insert(did)),
        Err(fault) => Err(fault),
    }
}

fn apply_retrieve<S: EntryStore>(
    alloc: Global,
    store: &S,
    id: Id,
    key: &Bytes,
) -> Result<Reply, StoreFault>
    requires { id.number ≡ key_id key.now }
    ensures { Applied (Request.Retrieve key.now) (S.content store.now) (S.limit store.now) result (S.content store.now) }
{
    let Ok(values) = store.values(alloc, id, key) else {
        return Err(StoreFault::Memory);
    };
    match values.share() {
        Ok(values) => Ok(Reply::Values(values)),
        Err(_) => Err(StoreFault::Memory),
    }
}

fn apply_remove<S: EntryStore>(store: &mut S, id: Id, key: &Bytes, value: &Bytes) -> Reply
    requires { id.number ≡ key_id key.now }
    ensures applied { Applied (Request.Remove key.now value.now) (S.content store.old) (S.limit store.old) (Ok result) (S.content store.new) }
    ensures limit { S.limit store.new ≡ S.limit store.old }
{
    let found = store.remove(id, key, value.as_slice());
    reply_to_remove(found)
}

/// Executes the request. A refused request leaves the store unchanged.
pub(crate) fn apply<S: EntryStore>(
    alloc: Global,
    store: &mut S,
    id: Id,
    request: &Request,
) -> Result<Reply, StoreFault>
    requires { id.number ≡ id_of request.now }
    ensures applied { Applied request.now (S.content store.old) (S.limit store.old) result (S.content store.new) }
    ensures limit { S.limit store.new ≡ S.limit store.old }
{
    match request {
        Request::Insert { key, value } => apply_insert(store, id, key, value),
        Request::Retrieve { key } => apply_retrieve(alloc, store, id, key),
        Request::Remove { key, value } => Ok(apply_remove(store, id, key, value)),
    }
}

/// Whether the store is too full for the pair. A pair that it adds on trial is removed again.
fn is_full_for_pair<S: EntryStore>(store: &mut S, id: Id, key: &Bytes, value: &Bytes) -> bool
    requires { id.number ≡ key_id key.now }
    ensures answer { result ≡ is_full_for (Request.Insert key.now value.now) (S.content store.old) (S.limit store.old) }
    ensures same { S.content store.new ≡ S.content store.old }
    ensures limit { S.limit store.new ≡ S.limit store.old }
{
    match store.insert(id, key, value) {
        Ok(Inserted::Added) => {
            store.remove(id, key, value.as_slice());
            false
        }
        Ok(Inserted::Present) => false,
        Ok(Inserted::SetFull) => false,
        Err(StoreFault::Full) => true,
        Err(StoreFault::Memory) => false,
    }
}

/// Whether the store is too full for the pair that the request would add. It stays unchanged.
pub(crate) fn is_full<S: EntryStore>(store: &mut S, id: Id, request: &Request) -> bool
    requires { id.number ≡ id_of request.now }
    ensures answer { result ≡ is_full_for request.now (S.content store.old) (S.limit store.old) }
    ensures same { S.content store.new ≡ S.content store.old }
    ensures limit { S.limit store.new ≡ S.limit store.old }
{
    match request {
        Request::Insert { key, value } => is_full_for_pair(store, id, key, value),
        Request::Retrieve { key: _ } => false,
        Request::Remove { key: _, value: _ } => false,
    }
}
