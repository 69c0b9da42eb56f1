//! Retiring nodes.
ghost use Rattle.chord_world.specs.State.{KeepsRing};
ghost use Rattle.chord_world.specs.Steps.{Advances};
ghost use Rattle.chord_world.specs.Handing.{NeededIs};
ghost use Rattle.chord_world.specs.Deeds.{RetireStepIs};

use crate::deed::NodeDeed;
use crate::outcome::Outcome;
use crate::refusal::Refusal;
use crate::world::World;
use chord_ring::{MemberReader, can_depart_in};
use chord_store::EntryStore;

impl<S: EntryStore> World<S> {
    /// Whether the node is a member whose departure would make the ring unsafe.
    fn is_needed(&self, node: u64) -> bool
        ensures { NeededIs node self.now result }
    {
        if self.member(node).is_none() {
            return false;
        }
        if can_depart_in(self, node) {
            return false;
        }
        true
    }

    /// A leaving node, which holds nothing and has an empty outbox, is gone.
    pub(crate) fn retire(&mut self, node: u64) -> Result<Outcome, Refusal>
        ensures answer { RetireStepIs node self.old result self.new }
        ensures step { Advances self.old result self.new }
        ensures ring { KeepsRing self.old self.new }
    {
        self.is_there(node)?;
        if self.is_needed(node) {
            return Err(Refusal::Unsafe);
        }
        self.act(node, NodeDeed::Retire)
    }
}
