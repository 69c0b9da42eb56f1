//! A node of a plan.

use crate::entries::Entries;
use crate::fault::{EntryFault, PlanFault};
use crate::store_kind::StoreKind;
use chord_ident::Id;
use std::alloc::Global;

#[derive(Clone, Copy, Debug, PartialEq, Eq)]
pub struct PlanNode {
    pub id: Id,
    pub store: StoreKind,
}

impl PlanNode {
    ghost use Rattle.std.specs.Prelude.{IfOk, IsOkUnless};
    ghost use Rattle.chord_app_plan.specs.declared.node.PlanNode.{PlanNode};
    ghost use Rattle.chord_app_plan.specs.Plan.{NodeIs, members_of};

    /// The node in a table of `node`.
    pub(crate) fn read(alloc: Global, table: &Entries) -> Result<PlanNode, PlanFault>
        ensures value { IfOk result (NodeIs (members_of table.now)) }
        ensures accepts { (node : PlanNode) → NodeIs (members_of table.now) node → IsOkUnless result PlanFault.OutOfMemory }
    {
        let Ok(id) = Id::of_hex(table.text("id")?) else {
            return Err(table.fault("id", EntryFault::NoId));
        };
        let store = StoreKind::read(alloc, table, "store")?;
        Ok(PlanNode { id, store })
    }
}
