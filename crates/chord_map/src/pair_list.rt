//! Sorted pairs.
ghost use Rattle.std.specs.Prelude.{◌≡◌, ◌<◌, ◌^◌, ℕ, List, [], length, IfOk, IfErr, IsOk, OnOk, OnErr};
ghost use Rattle.std.specs.Fn.{CalledAt};
ghost use Rattle.std.specs.List.Retain.{IsFiltered};
ghost use Rattle.chord_map.specs.Copies.{AreFew};
ghost use Rattle.chord_map.specs.declared.pair.Pair.{Pair};
ghost use Rattle.chord_map.specs.Map.{pair_cmp, has_pair, insert_pair, remove_pair, values_at};
ghost use Rattle.chord_map.specs.Pairs.{IsRising};
ghost use Rattle.chord_map.specs.Places.{IsAt, IsGapFor};

use crate::bytes::Bytes;
use crate::pair::Pair;
use crate::values::Values;
use std::alloc::{AllocError, Global};
use std::cmp::Ordering;
use std::marker::Model;

/// The pairs of a map, strictly sorted. A binary search
/// finds a pair; a change moves the pairs behind it.
#[derive(Debug, Drop)]
pub struct PairList {
    pairs: Vec<Pair>,
}

impl Model for PairList {
    ghost Value = { List Pair };

    ghost view = { λ list. list.pairs.items };

    ghost invariant = { λ list. IsRising list.pairs.items };
}

// Compares the pair with the one of this key and value.
fn compare(pair: &Pair, key: &[u8], value: &[u8]) -> Ordering
    ensures { result ≡ pair_cmp pair.now (record { key = key.now; value = value.now }) }
{
    match pair.key.as_slice().cmp(&key) {
        Ordering::Equal => pair.value.as_slice().cmp(&value),
        unequal => unequal,
    }
}

// The index of the pair of this key and value, or the index at which to insert it.
fn place_of(pairs: &[Pair], key: &[u8], value: &[u8]) -> Result<usize, usize>
    requires { IsRising pairs.now }
    ensures found { IfOk result (IsAt pairs.now (record { key = key.now; value = value.now })) }
    ensures absent { IfErr result (IsGapFor pair_cmp pairs.now (record { key = key.now; value = value.now })) }
{
    pairs.binary_search_by(
        |pair: &Pair| -> Ordering
            ensures { result ≡ pair_cmp pair.now (record { key = key.entry.now; value = value.entry.now }) }
        { compare(pair, key, value) },
    )
}

impl PairList {
    pub fn new(alloc: Global) -> PairList
        ensures { result ≡ [] }
    {
        PairList {
            pairs: Vec::new(alloc),
        }
    }

    /// The number of pairs, below 2 ^ 63.
    pub fn len(&self) -> usize
        ensures count { result ≡ length self.now }
        ensures small { result < 2 ^ 63 }
    {
        self.pairs.len()
    }

    pub fn as_slice(&self) -> &[Pair]
        ensures pairs { result.now ≡ self.now }
        ensures rising { IsRising self.now }
    {
        self.pairs.as_slice()
    }

    /// Whether the key has the value.
    pub fn contains(&self, key: &[u8], value: &[u8]) -> bool
        ensures { result ≡ has_pair (record { key = key.now; value = value.now }) self.now }
    {
        place_of(self.pairs.as_slice(), key, value).is_ok()
    }

    /// The number of values under the key.
    pub fn count_under(&self, key: &[u8]) -> usize
        ensures { result ≡ length (values_at key.now self.now) }
    {
        let mut count = 0;
        for pair in self.pairs.iter() {
            if pair.key.as_slice() == key {
                count += 1;
            }
        }
        count
    }

    /// Copies of the values under the key, in byte order. None,
    /// or a single one of up to 24 bytes, needs no memory.
    pub fn values(&self, alloc: Global, key: &[u8]) -> Result<Values, AllocError>
        ensures copy { IfOk result (λ values. values ≡ values_at key.now self.now) }
        ensures few { AreFew (values_at key.now self.now) → IsOk result }
    {
        let mut values = Values::new(alloc);
        for pair in self.pairs.iter() {
            if pair.key.as_slice() == key {
                values.push(Bytes::from_slice(alloc, pair.value.as_slice())?)?;
            }
        }
        Ok(values)
    }

    /// Adds the value under the key, unless it is there.
    pub fn insert(&mut self, key: &[u8], value: &[u8]) -> Result<(), AllocError>
        ensures ok { OnOk result (self.new ≡ insert_pair (record { key = key.now; value = value.now }) self.old) }
        ensures err { OnErr result (self.new ≡ self.old) }
    {
        match place_of(self.pairs.as_slice(), key, value) {
            Ok(_) => Ok(()),
            Err(place) => {
                let alloc = *self.pairs.allocator();
                let key = Bytes::from_slice(alloc, key)?;
                let value = Bytes::from_slice(alloc, value)?;
                self.pairs.insert(place, Pair { key, value })?;
                Ok(())
            }
        }
    }

    /// Removes the value under the key, and answers whether it was there.
    pub fn remove(&mut self, key: &[u8], value: &[u8]) -> bool
        ensures was_there { result ≡ has_pair (record { key = key.now; value = value.now }) self.old }
        ensures change { self.new ≡ remove_pair (record { key = key.now; value = value.now }) self.old }
    {
        match place_of(self.pairs.as_slice(), key, value) {
            Ok(place) => {
                self.pairs.remove(place);
                true
            }
            Err(_) => false,
        }
    }

    /// Keeps the pairs that pass the test.
    pub fn retain<F: FnMut(&Pair) -> bool>(&mut self, test: F)
        requires { F.IsAlwaysCallable test }
        ensures { IsFiltered (CalledAt F.FnMut) test self.old self.new }
    {
        self.pairs.retain(test);
    }
}
