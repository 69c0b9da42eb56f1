//! The slots of neighbouring identifiers.
ghost use Rattle.std.specs.Prelude.{◌≡◌, ◌↔◌, ◌≤◌, ℕ, leb, eqb, false, ◌<◌, ◌+◌, if◌then◌else◌, IfOk, OnOk, OnErr, ◌++◌, ◌∷◌, ◌^◌, [], None, length, IsOk, IsTrue};
ghost use Rattle.std.specs.List.{filter};
ghost use Rattle.std.specs.HashMap as hash;
ghost use Rattle.chord_map.specs.Map.{has_pair, remove_pair};
ghost use Rattle.chord_store.specs.Store.{AddIs};
ghost use Rattle.chord_tree_store.specs.Slot.{pairs_at};
ghost use Rattle.chord_tree_store.specs.Slots.{entries_inside, entries_outside, pairs_of_slots};
ghost use Rattle.chord_tree_store.specs.Shelf.{or_find};

use crate::slot::Slot;
use chord_ident::{Id, Span};
use chord_map::{Bytes, Pair};
use chord_store::Inserted;
use std::alloc::{AllocError, Global};
use std::collections::HashMap;

/// The slots of the identifiers from the first up to the next shard's.
#[derive(Drop)]
pub struct Shard {
    pub first: u128,
    pub slots: HashMap<u128, Slot>,
}

/// Adds the pair to the slot of the identifier, or opens one.
pub fn place_in(
    slots: &mut HashMap<u128, Slot>,
    alloc: Global,
    id: u128,
    key: &Bytes,
    value: &Bytes,
) -> Result<Inserted, AllocError>
    ensures here { AddIs (record { key = key.now; value = value.now }) (pairs_at (hash.get eqb slots.old id)) result (pairs_at (hash.get eqb slots.new id)) }
    ensures others { (q : ℕ) → eqb id q ≡ false → hash.get eqb slots.new q ≡ hash.get eqb slots.old q }
{
    match slots.get_mut(&id) {
        Some(slot) => slot.insert(alloc, key, value),
        None => {
            slots.insert(id, Slot::one(alloc, key, value)?)?;
            Ok(Inserted::Added)
        }
    }
}

/// Removes the pair from the slot of the identifier, and answers whether it was there. A slot
/// with no other pair goes with it.
pub fn lose_in(slots: &mut HashMap<u128, Slot>, id: u128, key: &Bytes, value: &[u8]) -> bool
    ensures was_there { result ≡ has_pair (record { key = key.now; value = value.now }) (pairs_at (hash.get eqb slots.old id)) }
    ensures here { pairs_at (hash.get eqb slots.new id) ≡ remove_pair (record { key = key.now; value = value.now }) (pairs_at (hash.get eqb slots.old id)) }
    ensures others { (q : ℕ) → eqb id q ≡ false → hash.get eqb slots.new q ≡ hash.get eqb slots.old q }
{
    if is_only(slots, id, key, value) {
        slots.remove(&id);
        return true;
    }
    match slots.get_mut(&id) {
        Some(slot) => slot.remove(key, value),
        None => false,
    }
}

// Whether the slot of the identifier has this pair alone.
fn is_only(slots: &HashMap<u128, Slot>, id: u128, key: &Bytes, value: &[u8]) -> bool
    ensures { IsTrue result ↔ (pairs_at (hash.get eqb slots.now id) ≡ record { key = key.now; value = value.now } ∷ []) }
{
    match slots.get(&id) {
        Some(slot) => slot.has_only(key, value),
        None => false,
    }
}

// The identifiers of the slots from a number on.
fn upper_keys(
    slots: &HashMap<u128, Slot>,
    alloc: Global,
    half: u128,
) -> Result<Vec<u128>, AllocError>
    ensures { IfOk result (λ upper. upper.items ≡ filter (leb half) (hash.keys slots.now)) }
{
    slots
        .keys()
        .copied()
        .filter(|id: &u128| half <= *id)
        .collect(alloc)
}

// Moves the slot of an identifier, if it is there.
fn move_one(from: &mut HashMap<u128, Slot>, to: &mut HashMap<u128, Slot>, id: u128)
    requires { 0 < hash.spare to.old }
    ensures out { hash.get eqb from.new id ≡ None }
    ensures stay { (q : ℕ) → eqb id q ≡ false → hash.get eqb from.new q ≡ hash.get eqb from.old q }
    ensures came { hash.get eqb to.new id ≡ or_find (hash.get eqb from.old id) (hash.get eqb to.old id) }
    ensures others { (q : ℕ) → eqb id q ≡ false → hash.get eqb to.new q ≡ hash.get eqb to.old q }
    ensures room { hash.spare to.old ≤ hash.spare to.new + 1 }
{
    if let Some(slot) = from.remove(&id) {
        let _done = to.insert(id, slot);
    }
}

/// Moves the slots from a number on into a map of their own.
pub fn move_upper(
    slots: &mut HashMap<u128, Slot>,
    alloc: Global,
    half: u128,
) -> Result<HashMap<u128, Slot>, AllocError>
    ensures stays { OnErr result ((q : ℕ) → hash.get eqb slots.new q ≡ hash.get eqb slots.old q) }
    ensures lower { OnOk result ((q : ℕ) → hash.get eqb slots.new q ≡ (if leb half q then None else hash.get eqb slots.old q)) }
    ensures upper { IfOk result (λ upper. (q : ℕ) → hash.get eqb upper q ≡ (if leb half q then hash.get eqb slots.old q else None)) }
{
    let moved = upper_keys(slots, alloc, half)?;
    let mut upper = HashMap::with_capacity(alloc, moved.len())?;
    for id in &moved {
        move_one(slots, &mut upper, *id);
    }
    Ok(upper)
}

/// Adds copies of the pairs of the slots in the span, in no order.
pub fn copy_inside(
    copies: &mut Vec<Pair>,
    slots: &HashMap<u128, Slot>,
    span: &Span,
) -> Result<(), AllocError>
    ensures copies { OnOk result (copies.new.items ≡ copies.old.items ++ pairs_of_slots (entries_inside span.now slots.now.entries)) }
    ensures none { pairs_of_slots (entries_inside span.now slots.now.entries) ≡ [] → IsOk result }
{
    for (id, slot) in slots.iter() {
        if span.contains(Id::new(*id)) {
            slot.copy_pairs(copies)?;
        }
    }
    Ok(())
}

/// The number of pairs of the slots in the span.
pub fn count_inside(slots: &HashMap<u128, Slot>, span: &Span) -> u64
    requires { length (pairs_of_slots (entries_inside span.now slots.now.entries)) < 2 ^ 64 }
    ensures { result ≡ length (pairs_of_slots (entries_inside span.now slots.now.entries)) }
{
    let mut total = 0;
    for (id, slot) in slots.iter() {
        if span.contains(Id::new(*id)) {
            total += slot.len() as u64;
        }
    }
    total
}

/// Drops the slots in the span.
pub fn drop_inside(slots: &mut HashMap<u128, Slot>, span: &Span)
    ensures { slots.new.entries ≡ entries_outside span.now slots.old.entries }
{
    slots.retain(|id, _| !span.contains(Id::new(*id)));
}
