//! Lists of values.
ghost use Rattle.std.specs.Prelude.{◌≡◌, ◌≤◌, ◌<◌, ◌++◌, ◌∷◌, [], IfOk, IsOk, OnOk, OnErr, length, insert, remove, slice_get};
ghost use Rattle.chord_map.specs.Copies.{AreFew};

use crate::bytes::Bytes;
use crate::shared_values::SharedValues;
use std::alloc::{AllocError, Global};
use std::marker::Model;
use std::{mem, slice};

/// The values under a key. A single one is stored inline, more are allocated.
#[derive(Debug)]
pub struct Values {
    items: Items,
    alloc: Global,
}

#[derive(Debug, Drop)]
enum Items {
    Empty,
    One(Bytes),
    Many(Vec<Bytes>),
}

impl Model for Values {
    ghost use Rattle.std.specs.Prelude.{ℕ, List};
    ghost use Rattle.chord_map.specs.Items.{values_of, FewInside};

    ghost Value = { List (List ℕ) };

    ghost view = { λ values. values_of values.items };

    ghost invariant = { λ values. FewInside values.items };
}

// Written out, so that a proof about code that drops one does not go through the kinds of storage.
impl Drop for Values {
    fn drop(self) {
        let Values { items, alloc: _ } = self;
        drop(items);
    }
}

// A vector of equal copies.
fn copies(alloc: Global, values: &[Bytes]) -> Result<Vec<Bytes>, AllocError>
    ensures { IfOk result (λ copies. copies.items ≡ values.now) }
{
    let mut copies = Vec::with_capacity(alloc, values.len())?;
    for value in values {
        copies.push(value.try_copy()?)?;
    }
    Ok(copies)
}

impl Values {
    pub fn new(alloc: Global) -> Values
        ensures { result ≡ [] }
    {
        Values {
            items: Items::Empty,
            alloc,
        }
    }

    pub fn as_slice(&self) -> &[Bytes]
        ensures { result.now ≡ self.now }
    {
        match &self.items {
            Items::Empty => &[],
            Items::One(value) => slice::from_ref(value),
            Items::Many(values) => values.as_slice(),
        }
    }

    /// Adds a value at the end. The first one needs no memory.
    pub fn push(&mut self, value: Bytes) -> Result<(), AllocError>
        ensures ok { OnOk result (self.new ≡ self.old ++ value ∷ []) }
        ensures err { OnErr result (self.new ≡ self.old) }
        ensures first { self.old ≡ [] → IsOk result }
    {
        let end = self.as_slice().len();
        self.insert(end, value)
    }

    /// Inserts a value at the index `place`. The first one needs no memory.
    pub fn insert(&mut self, place: usize, value: Bytes) -> Result<(), AllocError>
        requires { place ≤ length self.old }
        ensures ok { OnOk result (self.new ≡ insert self.old place value) }
        ensures err { OnErr result (self.new ≡ self.old) }
        ensures first { self.old ≡ [] → IsOk result }
    {
        match mem::replace(&mut self.items, Items::Empty) {
            Items::Empty => self.items = Items::One(value),
            Items::One(only) => match Vec::with_capacity(self.alloc, 2) {
                Ok(mut values) => {
                    values.push(only)?;
                    values.insert(place, value)?;
                    self.items = Items::Many(values);
                }
                Err(fault) => {
                    self.items = Items::One(only);
                    return Err(fault);
                }
            },
            Items::Many(mut values) => {
                let inserted = values.insert(place, value);
                self.items = Items::Many(values);
                inserted?;
            }
        }
        Ok(())
    }

    /// Removes the value at the index `place`.
    pub fn remove(&mut self, place: usize) -> Bytes
        requires { place < length self.old }
        ensures value { slice_get self.old place ≡ Some result }
        ensures rest { self.new ≡ remove self.old place }
    {
        match mem::replace(&mut self.items, Items::Empty) {
            Items::Empty => unreachable!(),
            Items::One(only) => only,
            Items::Many(mut values) => {
                let taken = values.remove(place);
                self.items = if values.len() == 1 {
                    Items::One(values.remove(0))
                } else {
                    Items::Many(values)
                };
                taken
            }
        }
    }

    /// The same values, for a reply. No value, or a single one of up to 24 bytes, needs no memory.
    pub fn share(self) -> Result<SharedValues, AllocError>
        ensures same { IfOk result (λ shared. shared ≡ self) }
        ensures few { AreFew self → IsOk result }
    {
        let Values { items, alloc } = self;
        match items {
            Items::Empty => Ok(SharedValues::empty()),
            Items::One(value) => Ok(SharedValues::one(value)),
            Items::Many(values) => SharedValues::many(alloc, values),
        }
    }

    /// An equal copy. No value, or a single one of up to 24 bytes, needs no memory.
    pub fn try_copy(&self) -> Result<Values, AllocError>
        ensures copy { IfOk result (λ copy. copy ≡ self.now) }
        ensures few { AreFew self.now → IsOk result }
    {
        let items = match &self.items {
            Items::Empty => Items::Empty,
            Items::One(value) => Items::One(value.try_copy()?),
            Items::Many(values) => Items::Many(copies(self.alloc, values.as_slice())?),
        };
        Ok(Values {
            items,
            alloc: self.alloc,
        })
    }
}

impl PartialEq for Values {
    ghost use Rattle.std.specs.Prelude.{◌≡◌, ◌↔◌, IsTrue};
    ghost use Rattle.std.specs.Cmp.{partial_equiv_from_equiv};
    ghost use Rattle.chord_map.specs.Same.{same_values, same_values-equiv};

    ghost eq = { same_values };

    ghost laws = { partial_equiv_from_equiv same_values-equiv };

    fn eq(&self, other: &Values) -> bool
        ensures test { result ≡ same_values self.now other.now }
        ensures same { IsTrue result ↔ (self.now ≡ other.now) }
    {
        self.as_slice() == other.as_slice()
    }
}

impl Eq for Values {
    ghost use Rattle.chord_map.specs.Same.{same_values-equiv};

    ghost laws = { same_values-equiv };
}
