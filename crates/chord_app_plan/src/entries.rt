//! The entries of a plan's table.

use crate::fault::{EntryFault, PlanFault, TableName};
use toml::{Table, Value};

/// The greatest number that a document can write.
pub const MOST_NUMBER: u64 = 9_223_372_036_854_775_807;

/// A table of a plan, with its name.
#[derive(Clone, Copy)]
pub struct Entries<'a> {
    table: &'a Table,
    name: TableName,
}

impl<'a> Entries<'a> {
    ghost use Rattle.std.specs.Prelude.{◌≡◌, ◌≤◌, ◌↔◌, ℕ, pos, false, None, IfOk, IfSome, IsOk, IsSome, OnErr};
    ghost use Rattle.toml.specs.Data.{as_table, get_member};
    ghost use Rattle.toml.specs.View.{view, items_view, table_view};
    ghost use Rattle.chord_app_plan.specs.Plan.{members_of, number_at, text_at, list_at};

    pub fn new(table: &'a Table, name: TableName) -> Entries<'a>
        ensures { members_of result ≡ table_view table.now }
    {
        Entries { table, name }
    }

    /// The value as a table, if it is one.
    pub fn of(value: &'a Value, name: TableName) -> Option<Entries<'a>>
        ensures table { IfSome result (λ entries. as_table (view value.now) ≡ Some (members_of entries)) }
        ensures accepts { IsSome (as_table (view value.now)) → IsSome result }
    {
        match value {
            Value::Table(table) => Some(Entries { table, name }),
            _ => None,
        }
    }

    /// The fault of the entry under this key.
    pub fn fault(&self, key: &'static str, fault: EntryFault) -> PlanFault {
        PlanFault::Entry {
            table: self.name,
            key,
            fault,
        }
    }

    /// Whether there is an entry under the key.
    pub fn has(&self, key: &'static str) -> bool
        ensures { (result ≡ false) ↔ (get_member key.now (members_of self.now) ≡ None) }
    {
        match self.value(key) {
            Ok(_) => true,
            Err(fault) => {
                drop(fault);
                false
            }
        }
    }

    fn value(&self, key: &'static str) -> Result<&'a Value, PlanFault>
        ensures value { IfOk result (λ value. get_member key.now (members_of self.now) ≡ Some (view value.now)) }
        ensures missing { OnErr result (get_member key.now (members_of self.now) ≡ None) }
    {
        match self.table.get(key) {
            Some(value) => Ok(value),
            None => Err(self.fault(key, EntryFault::Missing)),
        }
    }

    /// The whole number under the key, if it is from `least` to `most`.
    pub fn number(&self, key: &'static str, least: u64, most: u64) -> Result<u64, PlanFault>
        ensures value { IfOk result (λ number. number_at key.now (members_of self.now) ≡ Some (pos number)) }
        ensures least { IfOk result (λ number. least ≤ number) }
        ensures most { IfOk result (λ number. number ≤ most) }
        ensures accepts { (number : ℕ) → number_at key.now (members_of self.now) ≡ Some (pos number) → least ≤ number → number ≤ most → IsOk result }
    {
        let Some(number) = self.value(key)?.as_integer() else {
            return Err(self.fault(key, EntryFault::NoNumber));
        };
        match u64::try_from(number) {
            Ok(number) if least <= number && number <= most => Ok(number),
            _ => Err(self.fault(key, EntryFault::NotWithin { least, most })),
        }
    }

    /// The text under the key.
    pub fn text(&self, key: &'static str) -> Result<&'a str, PlanFault>
        ensures value { IfOk result (λ text. text_at key.now (members_of self.now) ≡ Some text.now) }
        ensures accepts { IsSome (text_at key.now (members_of self.now)) → IsOk result }
    {
        match self.value(key)?.as_str() {
            Some(text) => Ok(text),
            None => Err(self.fault(key, EntryFault::NoText)),
        }
    }

    /// The values of the array under the key; none if the key is missing.
    pub fn list(&self, key: &'static str) -> Result<&'a [Value], PlanFault>
        ensures value { IfOk result (λ values. list_at key.now (members_of self.now) ≡ Some (items_view values.now)) }
        ensures accepts { IsSome (list_at key.now (members_of self.now)) → IsOk result }
    {
        let Some(value) = self.table.get(key) else {
            return Ok(&[]);
        };
        match value.as_array() {
            Some(values) => Ok(values.as_slice()),
            None => Err(self.fault(key, EntryFault::NoTables)),
        }
    }
}
