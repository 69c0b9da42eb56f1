//! The links of all members at one moment.
ghost use Rattle.std.specs.Prelude.{◌≤◌, ◌+◌, length, IfOk, OnOk};

use crate::ring::Ring;
use crate::slot::SlotState;
use chord_links::Links;
use chord_store::EntryStore;
use chord_table::Naming;
use std::alloc::{AllocError, Global};
use std::sync::Wait;

/// Reads the links of the node in a slot behind the others, if it is a member. It is no part of its
/// caller, which has a place on the stack for each slot, so that no links are there.
#[inline(never)]
fn read_next<J: Naming, S: EntryStore>(
    rows: &mut Vec<Links>,
    state: &SlotState<J, S>,
) -> Result<(), AllocError>
    ensures { OnOk result (length rows.new.items ≤ length rows.old.items + 1) }
{
    match state {
        SlotState::Here(seated) if seated.is_member() => {
            rows.push(*seated.links())?;
            Ok(())
        }
        _ => Ok(()),
    }
}

impl<J: Naming, S: EntryStore> Ring<J, S> {
    /// The links of all members at one moment, in the order of their slots: all nodes are locked at
    /// once, and nobody joins or departs meanwhile.
    pub fn links_at_once(&self, rt: &impl Wait, alloc: Global) -> Result<Vec<Links>, AllocError>
        ensures { IfOk result (λ rows. length rows.items ≤ J.name.slots) }
    {
        let mut rows = Vec::with_capacity(alloc, self.slots.len())?;
        let register = self.register.lock(rt);
        let read = self.read_from(rt, &mut rows, 0);
        drop(register);
        read?;
        Ok(rows)
    }

    /// Reads the links of the members in the slots from this one on. It gives a slot's lock back
    /// behind those of the slots after it.
    fn read_from(&self, rt: &impl Wait, rows: &mut Vec<Links>, at: usize) -> Result<(), AllocError>
        requires few { length rows.old.items ≤ at }
        requires within { at ≤ J.name.slots }
        ensures { OnOk result (length rows.new.items ≤ J.name.slots) }
    {
        let Some(slot) = self.slots.get(at) else {
            return Ok(());
        };
        let guard = slot.state.lock(rt);
        read_next(rows, &*guard)?;
        let read = self.read_from(rt, rows, at + 1);
        drop(guard);
        read
    }
}
