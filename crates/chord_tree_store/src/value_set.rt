//! The values under one key.
ghost use Rattle.std.specs.Prelude.{◌≡◌, ◌≢◌, ◌<◌, ◌≤◌, ◌∷◌, [], false, length, IfOk, IfErr, OnOk, OnErr};
ghost use Rattle.std.specs.Ordering.{nat_cmp};
ghost use Rattle.std.specs.Cmp.Lexicographic.{slice_cmp};
ghost use Rattle.std.specs.List.Sorted.{IsStrictlySortedBy, IsStrictlySortedBy-prop};
ghost use Rattle.chord_map.specs.Places.{IsAt, IsGapFor};
ghost use Rattle.chord_tree_store.specs.ValueSet.{has_value, Loses, SetInsertIs};

use chord_map::limits::SET_VALUES;
use chord_map::{Bytes, Values};
use chord_store::Inserted;
use std::alloc::{AllocError, Global};
use std::cmp::Ordering;

/// A set of 1 to 1,000 values in byte order. Since it is small, a change moves few values.
#[derive(Debug, Drop)]
pub struct ValueSet {
    pub values: Values,
    ghost rises: { IsStrictlySortedBy (slice_cmp nat_cmp) values } by { IsStrictlySortedBy-prop (slice_cmp nat_cmp) values },
    ghost some: { 0 < length values },
    ghost few: { length values ≤ 1000 },
}

// The index of the value, or the index at which to insert it.
fn place_of(values: &[Bytes], value: &[u8]) -> Result<usize, usize>
    requires { IsStrictlySortedBy (slice_cmp nat_cmp) values.now }
    ensures found { IfOk result (IsAt values.now value.now) }
    ensures absent { IfErr result (IsGapFor (slice_cmp nat_cmp) values.now value.now) }
{
    values.binary_search_by(
        |other: &Bytes| -> Ordering
            ensures { result ≡ slice_cmp nat_cmp other.now value.entry.now }
        { other.as_slice().cmp(&value) },
    )
}

// The index of the value of a request, or the index at which to insert it.
fn place_for(values: &[Bytes], value: &Bytes) -> Result<usize, usize>
    requires { IsStrictlySortedBy (slice_cmp nat_cmp) values.now }
    ensures found { IfOk result (IsAt values.now value.now) }
    ensures absent { IfErr result (IsGapFor (slice_cmp nat_cmp) values.now value.now) }
{
    place_of(values, value.as_slice())
}

impl ValueSet {
    /// A set of one value.
    pub fn one(alloc: Global, value: &Bytes) -> Result<ValueSet, AllocError>
        ensures { IfOk result (λ set. set.values ≡ value.now ∷ []) }
    {
        let mut values = Values::new(alloc);
        values.push(value.try_copy()?)?;
        Ok(ValueSet { values })
    }

    pub fn len(&self) -> usize
        ensures { result ≡ length self.now.values }
    {
        self.values.as_slice().len()
    }

    pub fn contains(&self, value: &[u8]) -> bool
        ensures { result ≡ has_value value.now self.now.values }
    {
        place_of(self.values.as_slice(), value).is_ok()
    }

    /// Adds the value, unless it is there or the set has 1,000.
    pub fn insert(&mut self, value: &Bytes) -> Result<Inserted, AllocError>
        ensures { SetInsertIs value.now self.old.values result self.new.values }
    {
        match place_for(self.values.as_slice(), value) {
            Ok(_) => Ok(Inserted::Present),
            Err(_) if self.len() >= SET_VALUES => Ok(Inserted::SetFull),
            Err(place) => {
                let value = value.try_copy()?;
                self.values.insert(place, value)?;
                Ok(Inserted::Added)
            }
        }
    }

    /// Removes the value, which is not the only one, and answers whether it was there.
    pub fn remove(&mut self, value: &[u8]) -> bool
        requires { self.old.values ≢ value.now ∷ [] }
        ensures was_there { result ≡ has_value value.now self.old.values }
        ensures change { Loses value.now self.old.values self.new.values }
    {
        match place_of(self.values.as_slice(), value) {
            Ok(place) => {
                self.values.remove(place);
                true
            }
            Err(_) => false,
        }
    }
}
