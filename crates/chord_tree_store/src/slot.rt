//! What one identifier has.
ghost use Rattle.std.specs.Prelude.{◌≡◌, ◌≢◌, ◌↔◌, ◌∷◌, ◌++◌, [], length, IsTrue, IfOk, IsOk, OnOk};
ghost use Rattle.chord_map.specs.Copies.{AreFew};
ghost use Rattle.chord_map.specs.Map.{has_pair, insert_pair, put_all, remove_pair, values_at};
ghost use Rattle.chord_store.specs.Store.{AddIs};
ghost use Rattle.chord_tree_store.specs.Slot.{pairs_of, pairs_under};

use crate::value_set::ValueSet;
use chord_map::limits::SET_VALUES;
use chord_map::{Bytes, Pair, PairList, Values};
use chord_store::Inserted;
use std::alloc::{AllocError, Global};

/// A key and its set of values; or, once a second key came, a list of all keys' pairs.
#[derive(Drop)]
pub enum Slot {
    One(Bytes, ValueSet),
    Many(Box<PairList>),
}

impl Slot {
    /// A key with one value.
    pub fn one(alloc: Global, key: &Bytes, value: &Bytes) -> Result<Slot, AllocError>
        ensures { IfOk result (λ slot. pairs_of slot ≡ record { key = key.now; value = value.now } ∷ []) }
    {
        let set = ValueSet::one(alloc, value)?;
        Ok(Slot::One(key.try_copy()?, set))
    }

    /// The number of pairs.
    pub fn len(&self) -> usize
        ensures { result ≡ length (pairs_of self.now) }
    {
        match self {
            Slot::One(_, set) => set.len(),
            Slot::Many(list) => list.len(),
        }
    }

    pub fn contains(&self, key: &Bytes, value: &[u8]) -> bool
        ensures { result ≡ has_pair (record { key = key.now; value = value.now }) (pairs_of self.now) }
    {
        match self {
            Slot::One(own, set) => key == own && set.contains(value),
            Slot::Many(list) => list.contains(key.as_slice(), value),
        }
    }

    /// Whether this is the only pair.
    pub fn has_only(&self, key: &Bytes, value: &[u8]) -> bool
        ensures { IsTrue result ↔ (pairs_of self.now ≡ record { key = key.now; value = value.now } ∷ []) }
    {
        self.len() == 1 && self.contains(key, value)
    }

    /// The number of values under the key.
    pub fn count_under(&self, key: &Bytes) -> usize
        ensures { result ≡ length (values_at key.now (pairs_of self.now)) }
    {
        match self {
            Slot::One(own, set) => if key == own { set.len() } else { 0 },
            Slot::Many(list) => list.count_under(key.as_slice()),
        }
    }

    /// Copies of the values under the key, in byte order.
    pub fn values(&self, alloc: Global, key: &Bytes) -> Result<Values, AllocError>
        ensures copy { IfOk result (λ values. values ≡ values_at key.now (pairs_of self.now)) }
        ensures few { AreFew (values_at key.now (pairs_of self.now)) → IsOk result }
    {
        match self {
            Slot::One(own, set) => {
                if key == own {
                    set.values.try_copy()
                } else {
                    Ok(Values::new(alloc))
                }
            }
            Slot::Many(list) => list.values(alloc, key.as_slice()),
        }
    }

    /// Adds the pair, unless it is there or its set is full.
    pub fn insert(
        &mut self,
        alloc: Global,
        key: &Bytes,
        value: &Bytes,
    ) -> Result<Inserted, AllocError>
        ensures { AddIs (record { key = key.now; value = value.now }) (pairs_of self.old) result (pairs_of self.new) }
    {
        let many = match self {
            Slot::One(own, set) => {
                if key == own {
                    return set.insert(value);
                }
                spread(alloc, own, set, key, value)?
            }
            Slot::Many(list) => return add(list, key.as_slice(), value.as_slice()),
        };
        *self = many;
        Ok(Inserted::Added)
    }

    /// Removes the pair, which is not the only one, and answers whether it was there.
    pub fn remove(&mut self, key: &Bytes, value: &[u8]) -> bool
        requires { pairs_of self.old ≢ record { key = key.now; value = value.now } ∷ [] }
        ensures was_there { result ≡ has_pair (record { key = key.now; value = value.now }) (pairs_of self.old) }
        ensures change { pairs_of self.new ≡ remove_pair (record { key = key.now; value = value.now }) (pairs_of self.old) }
    {
        match self {
            Slot::One(own, set) => key == own && set.remove(value),
            Slot::Many(list) => list.remove(key.as_slice(), value),
        }
    }

    /// Adds copies of the pairs.
    pub fn copy_pairs(&self, copies: &mut Vec<Pair>) -> Result<(), AllocError>
        ensures copies { OnOk result (copies.new.items ≡ copies.old.items ++ pairs_of self.now) }
        ensures none { pairs_of self.now ≡ [] → IsOk result }
    {
        match self {
            Slot::One(key, set) => copy_set(copies, key, set.values.as_slice()),
            Slot::Many(list) => copy_list(copies, list.as_slice()),
        }
    }
}

// The pairs of a key and the pair of a second one.
fn spread(
    alloc: Global,
    own: &Bytes,
    set: &ValueSet,
    key: &Bytes,
    value: &Bytes,
) -> Result<Slot, AllocError>
    ensures { IfOk result (λ slot. pairs_of slot ≡ insert_pair (record { key = key.now; value = value.now }) (pairs_under own.now set.now.values)) }
{
    let mut list = listed(alloc, own.as_slice(), set.values.as_slice())?;
    list.insert(key.as_slice(), value.as_slice())?;
    Ok(Slot::Many(Box::new(alloc, list)?))
}

// The pairs of a key as a list.
fn listed(alloc: Global, key: &[u8], values: &[Bytes]) -> Result<PairList, AllocError>
    ensures { IfOk result (λ list. list ≡ put_all (pairs_under key.now values.now) []) }
{
    let mut list = PairList::new(alloc);
    for value in values {
        list.insert(key, value.as_slice())?;
    }
    Ok(list)
}

// Adds the pair to a list, unless it is there or its set is full.
fn add(list: &mut PairList, key: &[u8], value: &[u8]) -> Result<Inserted, AllocError>
    ensures { AddIs (record { key = key.now; value = value.now }) list.old result list.new }
{
    if list.contains(key, value) {
        return Ok(Inserted::Present);
    }
    if list.count_under(key) >= SET_VALUES {
        return Ok(Inserted::SetFull);
    }
    list.insert(key, value)?;
    Ok(Inserted::Added)
}

// Adds copies of the pairs of a key.
fn copy_set(copies: &mut Vec<Pair>, key: &Bytes, values: &[Bytes]) -> Result<(), AllocError>
    ensures copies { OnOk result (copies.new.items ≡ copies.old.items ++ pairs_under key.now values.now) }
    ensures none { pairs_under key.now values.now ≡ [] → IsOk result }
{
    for value in values {
        let key = key.try_copy()?;
        let value = value.try_copy()?;
        copies.push(Pair { key, value })?;
    }
    Ok(())
}

// Adds copies of the pairs of a list.
fn copy_list(copies: &mut Vec<Pair>, pairs: &[Pair]) -> Result<(), AllocError>
    ensures copies { OnOk result (copies.new.items ≡ copies.old.items ++ pairs.now) }
    ensures none { pairs.now ≡ [] → IsOk result }
{
    for pair in pairs {
        copies.push(pair.try_copy()?)?;
    }
    Ok(())
}
