//! Kinds of stores.

use crate::entries::{Entries, MOST_NUMBER};
use crate::fault::{EntryFault, PlanFault};
use std::alloc::Global;

/// What holds a node's pairs.
#[derive(Clone, Copy, Debug, PartialEq, Eq)]
pub enum StoreKind {
    Tree,
    List,
    Noted,
    /// For at most this many pairs.
    Capped(u64),
}

impl StoreKind {
    ghost use Rattle.std.specs.Prelude.{IfOk, IsOkUnless};
    ghost use Rattle.chord_app_plan.specs.declared.store_kind.StoreKind.{StoreKind};
    ghost use Rattle.chord_app_plan.specs.Plan.{KindIs, SpareIs, members_of};

    /// The kind of store that a table names under this key.
    pub(crate) fn read(
        alloc: Global,
        table: &Entries,
        key: &'static str,
    ) -> Result<StoreKind, PlanFault>
        ensures value { IfOk result (KindIs key.now (members_of table.now)) }
        ensures accepts { (kind : StoreKind) → KindIs key.now (members_of table.now) kind → IsOkUnless result PlanFault.OutOfMemory }
    {
        match table.text(key)? {
            "tree" => Ok(StoreKind::Tree),
            "list" => Ok(StoreKind::List),
            "noted" => Ok(StoreKind::Noted),
            "capped" => Ok(StoreKind::Capped(table.number("limit", 0, MOST_NUMBER)?)),
            kind => Err(table.fault(key, EntryFault::unknown_kind(alloc, kind)?)),
        }
    }

    /// The kind of store of nodes that join later, as the plan's own table names it: a tree if it
    /// names none.
    pub(crate) fn read_spare(alloc: Global, top: &Entries) -> Result<StoreKind, PlanFault>
        ensures value { IfOk result (SpareIs (members_of top.now)) }
        ensures accepts { (kind : StoreKind) → SpareIs (members_of top.now) kind → IsOkUnless result PlanFault.OutOfMemory }
    {
        if top.has("spare") {
            StoreKind::read(alloc, top, "spare")
        } else {
            Ok(StoreKind::Tree)
        }
    }
}
