//! Lists of values that never change.
ghost use Rattle.std.specs.Prelude.{◌≡◌, ◌≤◌, ◌∷◌, [], IfOk, IsOk, length};
ghost use Rattle.chord_map.specs.Copies.{AreFew};

use crate::bytes::Bytes;
use std::alloc::{AllocError, Global};
use std::marker::Model;
use std::slice;
use std::sync::Arc;

/// The values of a reply. A single one is stored inline; copies of more share them.
#[derive(Debug)]
pub struct SharedValues {
    items: SharedItems,
}

#[derive(Debug, Drop)]
enum SharedItems {
    Empty,
    One(Bytes),
    Many(Arc<ManyValues>),
}

/// Two values or more.
#[derive(Debug, Drop)]
pub struct ManyValues {
    values: Vec<Bytes>,
}

impl Model for ManyValues {
    ghost use Rattle.std.specs.Prelude.{◌≤◌, ℕ, List, length};

    ghost Value = { List (List ℕ) };

    ghost view = { λ many. many.values.items };

    ghost invariant = { λ many. 2 ≤ length many.values.items };
}

impl ManyValues {
    fn as_slice(&self) -> &[Bytes]
        ensures { result.now ≡ self.now }
    {
        self.values.as_slice()
    }

    /// Does nothing. Its contract says that there are two values or more.
    fn look(&self)
        ensures { 2 ≤ length self.now }
    {
        let _values = &self.values;
    }
}

impl Model for SharedValues {
    ghost use Rattle.std.specs.Prelude.{ℕ, List};
    ghost use Rattle.chord_map.specs.Items.{shared_values_of};

    ghost Value = { List (List ℕ) };

    ghost view = { λ values. shared_values_of values.items };
}

// Written out, so that a proof about code that drops one does not go through the kinds of storage.
impl Drop for SharedValues {
    fn drop(self) {
        let SharedValues { items } = self;
        drop(items);
    }
}

impl SharedValues {
    /// No value.
    pub fn empty() -> SharedValues
        ensures { result ≡ [] }
    {
        SharedValues {
            items: SharedItems::Empty,
        }
    }

    /// A single value.
    pub fn one(value: Bytes) -> SharedValues
        ensures { result ≡ value ∷ [] }
    {
        SharedValues {
            items: SharedItems::One(value),
        }
    }

    /// Two values or more.
    pub fn many(alloc: Global, values: Vec<Bytes>) -> Result<SharedValues, AllocError>
        requires { 2 ≤ length values.items }
        ensures { IfOk result (λ shared. shared ≡ values.items) }
    {
        let values = Arc::new(alloc, ManyValues { values })?;
        Ok(SharedValues {
            items: SharedItems::Many(values),
        })
    }

    pub fn as_slice(&self) -> &[Bytes]
        ensures { result.now ≡ self.now }
    {
        match &self.items {
            SharedItems::Empty => &[],
            SharedItems::One(value) => slice::from_ref(value),
            SharedItems::Many(values) => values.as_slice(),
        }
    }

    /// An equal copy. No value, or a single one of up to 24 bytes, needs no memory.
    pub fn try_copy(&self) -> Result<SharedValues, AllocError>
        ensures copy { IfOk result (λ copy. copy ≡ self.now) }
        ensures few { AreFew self.now → IsOk result }
    {
        let items = match &self.items {
            SharedItems::Empty => SharedItems::Empty,
            SharedItems::One(value) => SharedItems::One(value.try_copy()?),
            SharedItems::Many(values) => {
                values.look();
                SharedItems::Many(Arc::try_clone(values)?)
            }
        };
        Ok(SharedValues { items })
    }
}

impl PartialEq for SharedValues {
    ghost use Rattle.std.specs.Prelude.{◌≡◌, ◌↔◌, IsTrue};
    ghost use Rattle.std.specs.Cmp.{partial_equiv_from_equiv};
    ghost use Rattle.chord_map.specs.Same.{same_values, same_values-equiv};

    ghost eq = { same_values };

    ghost laws = { partial_equiv_from_equiv same_values-equiv };

    fn eq(&self, other: &SharedValues) -> bool
        ensures test { result ≡ same_values self.now other.now }
        ensures same { IsTrue result ↔ (self.now ≡ other.now) }
    {
        self.as_slice() == other.as_slice()
    }
}

impl Eq for SharedValues {
    ghost use Rattle.chord_map.specs.Same.{same_values-equiv};

    ghost laws = { same_values-equiv };
}
