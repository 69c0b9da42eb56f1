//! Slots by identifier, in shards of neighbouring identifiers.
ghost use Rattle.std.specs.Prelude.{◌≡◌, ◌≤◌, ℕ, leb, eqb, true, false, ◌<◌, ◌+◌, ◌^◌, ◌-◌, slice_index_or, length, if◌then◌else◌, IfOk, IsOk, OnErr, [], None};
ghost use Rattle.std.specs.Option.{option_copied};
ghost use Rattle.std.specs.List.Sorted.{IsNonDecreasingBy, IsPartitionPoint};
ghost use Rattle.std.specs.List.{IsDistinct};
ghost use Rattle.std.specs.Map.{keys_of};
ghost use Rattle.std.specs.FinMap as map;
ghost use Rattle.chord_ident.specs.Circle.{in_span};
ghost use Rattle.chord_map.specs.Map.{has_pair, remove_pair};
ghost use Rattle.chord_store.specs.Inside.{pairs_inside};
ghost use Rattle.chord_store.specs.Store.{AddIs};
ghost use Rattle.chord_tree_store.specs.Copied.{AreCopies};
ghost use Rattle.chord_tree_store.specs.Slot.{pairs_at};
ghost use Rattle.chord_tree_store.specs.Slots.{ArePlaced, entries_inside, pairs_in};
ghost use Rattle.chord_tree_store.specs.Shelf.{first_of, entries_of, InPlace, IsHome, slots_of};

use crate::shard::{Shard, copy_inside, count_inside, drop_inside, lose_in, move_upper, place_in};
use crate::slot::Slot;
use chord_ident::{Id, Span};
use chord_map::{Bytes, Pair};
use chord_store::Inserted;
use std::alloc::{AllocError, Global};
use std::collections::HashMap;
use std::marker::Model;

/// Slots by identifier.
#[derive(Drop)]
pub struct Shelf {
    shards: Vec<Shard>,
}

impl Model for Shelf {
    ghost use Rattle.std.specs.Ordering.{nat_cmp};
    ghost use Rattle.std.specs.FinMap as map;
    ghost use Rattle.chord_tree_store.specs.declared.slot.Slot.{Slot};
    ghost use Rattle.chord_tree_store.specs.Shelf.{entries_of, InPlace};
    ghost use Rattle.std.specs.Coded.{coded_ℕ};
    ghost use Rattle.chord_tree_store.specs.contracts.slot.Slot as slot;

    ghost Value = { map.FinMap nat_cmp Slot };

    ghost coded = { map.code coded_ℕ slot.the_row.coded };

    ghost view = { λ a. map.from_entries (entries_of a.shards.items) };

    ghost invariant = { λ a. InPlace a.shards.items };
}

impl Shelf {
    /// No slots.
    pub fn new(alloc: Global) -> Shelf
        ensures { result ≡ map.empty }
    {
        Shelf {
            shards: Vec::new(alloc),
        }
    }

    /// The slot of the identifier.
    pub fn get(&self, id: u128) -> Option<&Slot>
        ensures { option_copied result ≡ map.get self.now id }
    {
        let behind = count_up_to(self.shards.as_slice(), id);
        if behind == 0 {
            return None;
        }
        match self.shards.get(behind - 1) {
            Some(shard) => shard.slots.get(&id),
            None => None,
        }
    }

    /// Adds the pair to the slot of the identifier, or opens one.
    pub fn place(
        &mut self,
        alloc: Global,
        id: u128,
        key: &Bytes,
        value: &Bytes,
    ) -> Result<Inserted, AllocError>
        ensures here { AddIs (record { key = key.now; value = value.now }) (pairs_at (map.get self.old id)) result (pairs_at (map.get self.new id)) }
        ensures others { (q : ℕ) → eqb id q ≡ false → map.get self.new q ≡ map.get self.old q }
    {
        place_among(&mut self.shards, alloc, id, key, value)
    }

    /// Takes the slot of the identifier out.
    pub fn take(&mut self, id: u128) -> Option<Slot>
        ensures value { result ≡ map.get self.old id }
        ensures here { map.get self.new id ≡ None }
        ensures others { (q : ℕ) → eqb id q ≡ false → map.get self.new q ≡ map.get self.old q }
    {
        take_among(&mut self.shards, id)
    }

    /// Removes the pair from the slot of the identifier, and answers whether it was there. A slot
    /// with no other pair goes with it.
    pub fn lose(&mut self, id: u128, key: &Bytes, value: &[u8]) -> bool
        ensures was_there { result ≡ has_pair (record { key = key.now; value = value.now }) (pairs_at (map.get self.old id)) }
        ensures here { pairs_at (map.get self.new id) ≡ remove_pair (record { key = key.now; value = value.now }) (pairs_at (map.get self.old id)) }
        ensures others { (q : ℕ) → eqb id q ≡ false → map.get self.new q ≡ map.get self.old q }
    {
        lose_among(&mut self.shards, id, key, value)
    }

    /// Halves the shard of the identifier if it has `most` slots or more. The slots stay as
    /// they are, also where there is no memory for it.
    pub fn split(&mut self, alloc: Global, id: u128, most: usize) -> Result<(), AllocError>
        ensures { self.new ≡ self.old }
    {
        split_among(&mut self.shards, alloc, id, most)
    }

    /// Copies of the pairs in the span, each once, in any order.
    pub fn copy_span(&self, alloc: Global, span: &Span) -> Result<Vec<Pair>, AllocError>
        requires { ArePlaced self.now }
        ensures copies { IfOk result (λ copies. AreCopies (pairs_inside span.now (pairs_in self.now)) copies.items) }
        ensures none { pairs_inside span.now (pairs_in self.now) ≡ [] → IsOk result }
    {
        copy_among(alloc, self.shards.as_slice(), span)
    }

    /// The number of pairs in the span.
    pub fn count_span(&self, span: &Span) -> u64
        requires placed { ArePlaced self.now }
        requires few { length (pairs_in self.now) < 2 ^ 64 }
        ensures { result ≡ length (pairs_inside span.now (pairs_in self.now)) }
    {
        count_among(self.shards.as_slice(), span)
    }

    /// Drops the slots in the span.
    pub fn drop_span(&mut self, span: &Span)
        requires { ArePlaced self.old }
        ensures { (id : ℕ) → map.get self.new id ≡ (if in_span span.now id then None else map.get self.old id) }
    {
        drop_among(&mut self.shards, span)
    }
}

// How many shards begin at the identifier or below it.
fn count_up_to(shards: &[Shard], id: u128) -> usize
    requires { IsNonDecreasingBy first_of shards.now }
    ensures bound { result ≤ length shards.now }
    ensures behind { IsPartitionPoint (λ s. leb (first_of s) id ≡ true) (λ s. leb (first_of s) id ≡ false) shards.now result }
{
    shards.partition_point(|shard: &Shard| shard.first <= id)
}

// The place of the shard of the identifier, which is made where none begins so low.
fn home(shards: &mut Vec<Shard>, alloc: Global, id: u128) -> Result<usize, AllocError>
    requires { InPlace shards.old.items }
    ensures in_place { InPlace shards.new.items }
    ensures same { entries_of shards.new.items ≡ entries_of shards.old.items }
    ensures home { IfOk result (IsHome shards.new.items id) }
    ensures absent { OnErr result (map.get (slots_of shards.old.items) id ≡ None) }
{
    let behind = count_up_to(shards.as_slice(), id);
    if behind > 0 {
        return Ok(behind - 1);
    }
    let slots = HashMap::new(alloc);
    shards.insert(0, Shard { first: 0, slots })?;
    Ok(0)
}

// Adds the pair to the slot of the identifier in its shard, or opens one.
fn place_among(
    shards: &mut Vec<Shard>,
    alloc: Global,
    id: u128,
    key: &Bytes,
    value: &Bytes,
) -> Result<Inserted, AllocError>
    requires { InPlace shards.old.items }
    ensures in_place { InPlace shards.new.items }
    ensures here { AddIs (record { key = key.now; value = value.now }) (pairs_at (map.get (slots_of shards.old.items) id)) result (pairs_at (map.get (slots_of shards.new.items) id)) }
    ensures others { (q : ℕ) → eqb id q ≡ false → map.get (slots_of shards.new.items) q ≡ map.get (slots_of shards.old.items) q }
{
    let at = home(shards, alloc, id)?;
    let shard = &mut shards[at];
    place_in(&mut shard.slots, alloc, id, key, value)
}

// Takes the slot of the identifier out of its shard.
fn take_among(shards: &mut Vec<Shard>, id: u128) -> Option<Slot>
    requires { InPlace shards.old.items }
    ensures in_place { InPlace shards.new.items }
    ensures value { result ≡ map.get (slots_of shards.old.items) id }
    ensures here { map.get (slots_of shards.new.items) id ≡ None }
    ensures others { (q : ℕ) → eqb id q ≡ false → map.get (slots_of shards.new.items) q ≡ map.get (slots_of shards.old.items) q }
{
    let behind = count_up_to(shards.as_slice(), id);
    if behind == 0 {
        return None;
    }
    let shard = &mut shards[behind - 1];
    shard.slots.remove(&id)
}

// Removes the pair from the slot of the identifier in its shard.
fn lose_among(shards: &mut Vec<Shard>, id: u128, key: &Bytes, value: &[u8]) -> bool
    requires { InPlace shards.old.items }
    ensures in_place { InPlace shards.new.items }
    ensures was_there { result ≡ has_pair (record { key = key.now; value = value.now }) (pairs_at (map.get (slots_of shards.old.items) id)) }
    ensures here { pairs_at (map.get (slots_of shards.new.items) id) ≡ remove_pair (record { key = key.now; value = value.now }) (pairs_at (map.get (slots_of shards.old.items) id)) }
    ensures others { (q : ℕ) → eqb id q ≡ false → map.get (slots_of shards.new.items) q ≡ map.get (slots_of shards.old.items) q }
{
    let behind = count_up_to(shards.as_slice(), id);
    if behind == 0 {
        return false;
    }
    let shard = &mut shards[behind - 1];
    lose_in(&mut shard.slots, id, key, value)
}

// The middle of the shard's range.
fn middle(shards: &[Shard], place: usize) -> u128
    requires place { place < length shards.now }
    requires rises { IsNonDecreasingBy first_of shards.now }
    ensures from { (d : Shard) → first_of (slice_index_or shards.now place d) ≤ result }
    ensures to { (d : Shard) → place + 1 < length shards.now → result ≤ first_of (slice_index_or shards.now (place + 1) d) }
{
    let from = shards[place].first;
    let to = range_end(shards, place);
    from + (to - from) / 2
}

// Where the shard's range ends.
fn range_end(shards: &[Shard], place: usize) -> u128
    requires { place < length shards.now }
    ensures next { (d : Shard) → place + 1 < length shards.now → result ≡ first_of (slice_index_or shards.now (place + 1) d) }
    ensures last { length shards.now ≤ place + 1 → result ≡ 2 ^ 128 - 1 }
{
    match shards.get(place + 1) {
        Some(next) => next.first,
        None => u128::MAX,
    }
}

// Halves the shard of the identifier if it has `most` slots or more.
fn split_among(
    shards: &mut Vec<Shard>,
    alloc: Global,
    id: u128,
    most: usize,
) -> Result<(), AllocError>
    requires { InPlace shards.old.items }
    ensures in_place { InPlace shards.new.items }
    ensures same { slots_of shards.new.items ≡ slots_of shards.old.items }
{
    let behind = count_up_to(shards.as_slice(), id);
    if behind == 0 {
        return Ok(());
    }
    let place = behind - 1;
    if shards[place].slots.len() < most {
        return Ok(());
    }
    let half = middle(shards.as_slice(), place);
    shards.reserve(1)?;
    let shard = &mut shards[place];
    let slots = move_upper(&mut shard.slots, alloc, half)?;
    shards.insert(place + 1, Shard { first: half, slots })?;
    Ok(())
}

// Whether the shard has slots and its range meets the span.
fn is_touched(shards: &[Shard], place: usize, span: &Span) -> bool
    requires place { place < length shards.now }
    requires in_place { InPlace shards.now }
    requires placed { ArePlaced (slots_of shards.now) }
    ensures apart { (d : Shard) → result ≡ false → entries_inside span.now (slice_index_or shards.now place d).slots.entries ≡ [] }
    ensures once { (d : Shard) → IsDistinct eqb (keys_of (slice_index_or shards.now place d).slots.entries) }
{
    let shard = &shards[place];
    if shard.slots.len() == 0 {
        return false;
    }
    let before = Id::new(shard.first.wrapping_sub(1));
    let end = Id::new(range_end(shards, place));
    Span::new(before, end).meets(*span)
}

// Copies of the pairs in the span.
fn copy_among(alloc: Global, shards: &[Shard], span: &Span) -> Result<Vec<Pair>, AllocError>
    requires in_place { InPlace shards.now }
    requires placed { ArePlaced (slots_of shards.now) }
    ensures copies { IfOk result (λ copies. AreCopies (pairs_inside span.now (pairs_in (slots_of shards.now))) copies.items) }
    ensures none { pairs_inside span.now (pairs_in (slots_of shards.now)) ≡ [] → IsOk result }
{
    let mut copies = Vec::new(alloc);
    for place in 0..shards.len() {
        if is_touched(shards, place, span) {
            copy_inside(&mut copies, &shards[place].slots, span)?;
        }
    }
    Ok(copies)
}

// The number of pairs in the span.
fn count_among(shards: &[Shard], span: &Span) -> u64
    requires in_place { InPlace shards.now }
    requires placed { ArePlaced (slots_of shards.now) }
    requires few { length (pairs_in (slots_of shards.now)) < 2 ^ 64 }
    ensures { result ≡ length (pairs_inside span.now (pairs_in (slots_of shards.now))) }
{
    let mut total = 0;
    for place in 0..shards.len() {
        if is_touched(shards, place, span) {
            total += count_inside(&shards[place].slots, span);
        }
    }
    total
}

// Drops the slots in the span.
fn drop_among(shards: &mut Vec<Shard>, span: &Span)
    requires in_place { InPlace shards.old.items }
    requires placed { ArePlaced (slots_of shards.old.items) }
    ensures in_place { InPlace shards.new.items }
    ensures outside { (id : ℕ) → map.get (slots_of shards.new.items) id ≡ (if in_span span.now id then None else map.get (slots_of shards.old.items) id) }
{
    for place in 0..shards.as_slice().len() {
        if is_touched(shards.as_slice(), place, span) {
            let shard = &mut shards[place];
            drop_inside(&mut shard.slots, span);
        }
    }
}
