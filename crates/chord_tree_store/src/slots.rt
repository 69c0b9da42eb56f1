//! The pairs of a map in slots by identifier.
ghost use Rattle.std.specs.Prelude.{◌≡◌, ◌+◌, ◌-◌, ◌<◌, ◌^◌, ℕ, [], None, if◌then◌else◌, length, IfOk, IsOk, OnOk, OnErr};
ghost use Rattle.std.specs.FinMap as map;
ghost use Rattle.chord_ident.specs.Circle.{key_id};
ghost use Rattle.chord_map.specs.Copies.{AreFew};
ghost use Rattle.chord_map.specs.Map.{has_pair, insert_pair, remove_pair, values_at};
ghost use Rattle.chord_map.specs.Pairs.{IsRising};
ghost use Rattle.chord_store.specs.Inside.{pairs_inside, pairs_outside};
ghost use Rattle.chord_store.specs.Store.{AddIs, HasFew};
ghost use Rattle.chord_tree_store.specs.Shelf.{has_id};
ghost use Rattle.chord_tree_store.specs.Slots.{pairs_in, ArePlaced};

use crate::copies::sort;
use crate::shelf::Shelf;
use chord_ident::{Id, Span};
use chord_map::{Bytes, Pair, Values};
use chord_store::{CountSpan, Inserted};
use std::alloc::{AllocError, Global};
use std::marker::Model;

/// Each identifier's keys and their sets of values, and the number of all pairs.
#[derive(Drop)]
pub struct Slots {
    alloc: Global,
    shelf: Shelf,
    most: usize,
    count: u64,
}

impl Model for Slots {
    ghost use Rattle.std.specs.Prelude.{◌≡◌, List, length};
    ghost use Rattle.chord_map.specs.declared.pair.Pair.{Pair};
    ghost use Rattle.chord_tree_store.specs.Slots.{pairs_in, ArePlaced};

    ghost Value = { List Pair };

    ghost view = { λ slots. pairs_in slots.shelf };

    ghost invariant = { λ slots. ArePlaced slots.shelf × (slots.count ≡ length (pairs_in slots.shelf)) };
}

impl Slots {
    /// No pairs. A shard is halved when it has `most` identifiers.
    pub fn new(alloc: Global, most: usize) -> Slots
        ensures { result ≡ [] }
    {
        Slots {
            alloc,
            shelf: Shelf::new(alloc),
            most,
            count: 0,
        }
    }

    pub fn len(&self) -> u64
        ensures count { result ≡ length self.now }
        ensures rising { IsRising self.now }
        ensures few { HasFew self.now }
    {
        self.count
    }

    pub fn contains(&self, id: Id, key: &Bytes, value: &[u8]) -> bool
        requires { id.number ≡ key_id key.now }
        ensures { result ≡ has_pair (record { key = key.now; value = value.now }) self.now }
    {
        is_under(&self.shelf, id.number, key, value)
    }

    /// The number of values under the key.
    pub fn count_under(&self, id: Id, key: &Bytes) -> usize
        requires { id.number ≡ key_id key.now }
        ensures { result ≡ length (values_at key.now self.now) }
    {
        count_of(&self.shelf, id.number, key)
    }

    /// Copies of the values under the key, in byte order.
    pub fn values(&self, alloc: Global, id: Id, key: &Bytes) -> Result<Values, AllocError>
        requires { id.number ≡ key_id key.now }
        ensures copy { IfOk result (λ values. values ≡ values_at key.now self.now) }
        ensures few { AreFew (values_at key.now self.now) → IsOk result }
    {
        values_of(&self.shelf, alloc, id.number, key)
    }

    /// Adds the pair, unless it is there or its set is full.
    pub fn insert(&mut self, id: Id, key: &Bytes, value: &Bytes) -> Result<Inserted, AllocError>
        requires id { id.number ≡ key_id key.now }
        requires room { length self.old < 2 ^ 64 - 1 }
        ensures answer { AddIs (record { key = key.now; value = value.now }) self.old result self.new }
        ensures rising { IsRising self.old }
    {
        let did = put(
            &mut self.shelf,
            self.alloc,
            id.number,
            key,
            value,
            self.most,
        )?;
        match did {
            Inserted::Added => {
                self.count += 1;
                Ok(Inserted::Added)
            }
            other => Ok(other),
        }
    }

    /// Adds the pair, unless it is there. It computes the identifier of its key.
    pub fn put(&mut self, pair: &Pair) -> Result<(), AllocError>
        requires room { length self.old < 2 ^ 64 - 1 }
        requires few { length (values_at pair.now.key self.old) < 1000 }
        ensures ok { OnOk result (self.new ≡ insert_pair pair.now self.old) }
        ensures err { OnErr result (self.new ≡ self.old) }
    {
        self.insert(id_of(&pair.key), &pair.key, &pair.value)?;
        Ok(())
    }

    /// Removes the pair, and answers whether it was there.
    pub fn remove(&mut self, id: Id, key: &Bytes, value: &[u8]) -> bool
        requires { id.number ≡ key_id key.now }
        ensures was_there { result ≡ has_pair (record { key = key.now; value = value.now }) self.old }
        ensures change { self.new ≡ remove_pair (record { key = key.now; value = value.now }) self.old }
    {
        if lose(&mut self.shelf, id.number, key, value) {
            self.count -= 1;
            true
        } else {
            false
        }
    }

    /// Drops the pairs whose keys lie in the span. It reads the shards of the span alone.
    pub fn take_out(&mut self, span: &Span)
        ensures { self.new ≡ pairs_outside span.now self.old }
    {
        self.count -= drop_span(&mut self.shelf, span);
    }

    /// Drops the pairs whose keys lie in the span; these are their copies. Each costs one look-up.
    pub fn drop_copied(&mut self, span: &Span, copies: &[Pair])
        requires { pairs_inside span.now self.old ≡ copies.now }
        ensures { self.new ≡ pairs_outside span.now self.old }
    {
        drop_copied(&mut self.shelf, span, copies);
        self.count -= copies.len() as u64;
    }

    /// Copies of the pairs whose keys lie in the span, in order.
    /// It reads the shards of the span alone.
    pub fn copy_span(&self, alloc: Global, span: &Span) -> Result<Vec<Pair>, AllocError>
        ensures copies { IfOk result (λ pairs. pairs.items ≡ pairs_inside span.now self.now) }
        ensures none { pairs_inside span.now self.now ≡ [] → IsOk result }
    {
        copies_of(&self.shelf, alloc, span)
    }
}

impl CountSpan for Slots {
    ghost pairs = { λ slots. slots };

    /// It reads the shards of the span alone.
    fn count_span(&self, span: &Span) -> u64 {
        if self.count == 0 {
            return 0;
        }
        self.shelf.count_span(span)
    }
}

// The identifier of the key.
fn id_of(key: &Bytes) -> Id
    ensures { result.number ≡ key_id key.now }
{
    Id::of_bytes(key.as_slice())
}

// Whether the slot of the identifier has this key, and the value among others.
fn is_under(shelf: &Shelf, id: u128, key: &Bytes, value: &[u8]) -> bool
    requires id { id ≡ key_id key.now }
    requires placed { ArePlaced shelf.now }
    ensures { result ≡ has_pair (record { key = key.now; value = value.now }) (pairs_in shelf.now) }
{
    match shelf.get(id) {
        Some(slot) => slot.contains(key, value),
        None => false,
    }
}

// The number of values under the key.
fn count_of(shelf: &Shelf, id: u128, key: &Bytes) -> usize
    requires id { id ≡ key_id key.now }
    requires placed { ArePlaced shelf.now }
    ensures { result ≡ length (values_at key.now (pairs_in shelf.now)) }
{
    match shelf.get(id) {
        Some(slot) => slot.count_under(key),
        None => 0,
    }
}

// Copies of the values under the key.
fn values_of(shelf: &Shelf, alloc: Global, id: u128, key: &Bytes) -> Result<Values, AllocError>
    requires id { id ≡ key_id key.now }
    requires placed { ArePlaced shelf.now }
    ensures copy { IfOk result (λ values. values ≡ values_at key.now (pairs_in shelf.now)) }
    ensures few { AreFew (values_at key.now (pairs_in shelf.now)) → IsOk result }
{
    match shelf.get(id) {
        Some(slot) => slot.values(alloc, key),
        None => Ok(Values::new(alloc)),
    }
}

// Adds the pair, and halves the shard of its identifier if that has `most` identifiers.
fn put(
    shelf: &mut Shelf,
    alloc: Global,
    id: u128,
    key: &Bytes,
    value: &Bytes,
    most: usize,
) -> Result<Inserted, AllocError>
    requires id { id ≡ key_id key.now }
    requires placed { ArePlaced shelf.old }
    ensures placed { ArePlaced shelf.new }
    ensures answer { AddIs (record { key = key.now; value = value.now }) (pairs_in shelf.old) result (pairs_in shelf.new) }
{
    let done = shelf.place(alloc, id, key, value);
    let _halved = shelf.split(alloc, id, most);
    done
}

// Takes the value out of the set under the key.
fn lose(shelf: &mut Shelf, id: u128, key: &Bytes, value: &[u8]) -> bool
    requires id { id ≡ key_id key.now }
    requires placed { ArePlaced shelf.old }
    ensures placed { ArePlaced shelf.new }
    ensures was_there { result ≡ has_pair (record { key = key.now; value = value.now }) (pairs_in shelf.old) }
    ensures change { pairs_in shelf.new ≡ remove_pair (record { key = key.now; value = value.now }) (pairs_in shelf.old) }
{
    shelf.lose(id, key, value)
}

// Drops the slots in the span, and answers how many pairs they had.
fn drop_span(shelf: &mut Shelf, span: &Span) -> u64
    requires placed { ArePlaced shelf.old }
    requires few { length (pairs_in shelf.old) < 2 ^ 64 }
    ensures placed { ArePlaced shelf.new }
    ensures count { result + length (pairs_in shelf.new) ≡ length (pairs_in shelf.old) }
    ensures change { pairs_in shelf.new ≡ pairs_outside span.now (pairs_in shelf.old) }
{
    let count = shelf.count_span(span);
    shelf.drop_span(span);
    count
}

// Drops the slots in the span, by the keys of the copies.
fn drop_copied(shelf: &mut Shelf, _span: &Span, copies: &[Pair])
    requires placed { ArePlaced shelf.old }
    requires copies { pairs_inside _span.now (pairs_in shelf.old) ≡ copies.now }
    ensures placed { ArePlaced shelf.new }
    ensures change { pairs_in shelf.new ≡ pairs_outside _span.now (pairs_in shelf.old) }
{
    drop_keys(shelf, copies);
}

// Drops the slots of the identifiers of the pairs' keys.
fn drop_keys(shelf: &mut Shelf, pairs: &[Pair])
    ensures { (id : ℕ) → map.get shelf.new id ≡ (if has_id id pairs.now then None else map.get shelf.old id) }
{
    for pair in pairs {
        shelf.take(Id::of_bytes(pair.key.as_slice()).number);
    }
}

// Copies of the pairs whose keys lie in the span, in order.
fn copies_of(shelf: &Shelf, alloc: Global, span: &Span) -> Result<Vec<Pair>, AllocError>
    requires { ArePlaced shelf.now }
    ensures copies { IfOk result (λ copies. copies.items ≡ pairs_inside span.now (pairs_in shelf.now)) }
    ensures none { pairs_inside span.now (pairs_in shelf.now) ≡ [] → IsOk result }
{
    let mut copies = shelf.copy_span(alloc, span)?;
    sort(&mut copies);
    Ok(copies)
}
