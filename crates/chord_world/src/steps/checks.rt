//! Checks that nodes and callers exist, and that nodes can act.
ghost use Rattle.chord_world.specs.Calling.{AreThere};
ghost use Rattle.chord_world.specs.Handing.{ThereIs, ActIs};

use crate::members::is_out;
use crate::refusal::{Refusal, StepFault};
use crate::world::World;
use chord_store::EntryStore;

impl<S: EntryStore> World<S> {
    /// Whether a node has this number.
    pub(crate) fn is_there(&self, node: u64) -> Result<(), Refusal>
        ensures { ThereIs node self.now result }
    {
        if self.nodes.is_empty() {
            return Err(Refusal::NotCreated);
        }
        if node >= self.nodes.len() as u64 {
            return Err(Refusal::NoSuchNode);
        }
        Ok(())
    }

    /// Whether the node exists and has not crashed.
    pub(crate) fn can_act(&self, node: u64) -> Result<(), Refusal>
        ensures { ActIs node self.now result }
    {
        self.is_there(node)?;
        if is_out(&self.fates, node) {
            return Err(Refusal::Step(StepFault::Crashed));
        }
        Ok(())
    }

    /// Whether the node and the caller exist.
    pub(crate) fn are_there(&self, caller: u64, via: u64) -> Result<(), Refusal>
        ensures { AreThere caller via self.now result }
    {
        let count = self.nodes.len() as u64;
        if count == 0 {
            return Err(Refusal::NotCreated);
        }
        if via >= count {
            return Err(Refusal::NoSuchNode);
        }
        if caller >= self.callers.len() as u64 {
            return Err(Refusal::NoSuchCaller);
        }
        Ok(())
    }
}
