//! Setting fingers.
ghost use Rattle.chord_world.specs.State.{KeepsRing};
ghost use Rattle.chord_world.specs.Steps.{Advances};
ghost use Rattle.chord_world.specs.Deeds.{FingerIs};

use crate::deed::NodeDeed;
use crate::outcome::Outcome;
use crate::refusal::{Refusal, StepFault};
use crate::world::World;
use chord_store::EntryStore;

impl<S: EntryStore> World<S> {
    /// Sets the finger of the node to the node `to`.
    #[tactic(auto, using(crate::proofs::Handing::acts_within))]
    pub(crate) fn finger(&mut self, node: u64, finger: u64, to: u64) -> Result<Outcome, Refusal>
        ensures answer { FingerIs node finger to self.old result self.new }
        ensures step { Advances self.old result self.new }
        ensures ring { KeepsRing self.old self.new }
    {
        self.is_there(to)?;
        self.can_act(node)?;
        if finger < 1 || 128 < finger {
            return Err(Refusal::Step(StepFault::BadFinger));
        }
        let peer = self.nodes[to as usize].links().me();
        self.act(node, NodeDeed::SetFinger { finger, peer })
    }
}
