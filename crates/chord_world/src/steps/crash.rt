//! Nodes that crash, and are rescued.
ghost use Rattle.std.specs.Prelude.{◌≡◌};
ghost use Rattle.chord_world.specs.State.{KeepsRing};
ghost use Rattle.chord_world.specs.Steps.{Advances};
ghost use Rattle.chord_world.specs.Upkeep.{CrashIs, RescueIs};

use crate::deed::NodeDeed;
use crate::fate::Fate;
use crate::members::is_out;
use crate::outcome::Outcome;
use crate::refusal::{Refusal, StepFault};
use crate::steps::act::act_at;
use crate::world::World;
use chord_ring::{MemberReader, can_depart_in};
use chord_store::EntryStore;

impl<S: EntryStore> World<S> {
    /// The member does nothing until it is rescued, and is dead for the others. It still holds its
    /// segments.
    pub(crate) fn crash(&mut self, node: u64) -> Result<Outcome, Refusal>
        ensures answer { CrashIs node self.old result self.new }
        ensures known { self.new.world ≡ self.old.world }
        ensures ring { KeepsRing self.old self.new }
    {
        if self.nodes.is_empty() {
            return Err(Refusal::NotCreated);
        }
        if self.member(node).is_none() {
            return Err(Refusal::NoSuchNode);
        }
        if !can_depart_in(self, node) {
            return Err(Refusal::Unsafe);
        }
        self.fates[node as usize] = Fate::Crashed;
        Ok(Outcome::Done)
    }

    /// The crashed node takes steps again, and begins to leave if it stayed. It holds what it held,
    /// and is no member.
    pub(crate) fn rescue(&mut self, node: u64) -> Result<Outcome, Refusal>
        ensures answer { RescueIs node self.old result self.new }
        ensures step { Advances self.old result self.new }
        ensures ring { KeepsRing self.old self.new }
    {
        self.is_there(node)?;
        if !is_out(&self.fates, node) {
            return Err(Refusal::Step(StepFault::NotCrashed));
        }
        self.fates[node as usize] = Fate::Rescued;
        let (nodes, sent, history) = (&mut self.nodes, &mut self.sent, &mut self.history);
        let _ = act_at(nodes, sent, history, node as usize, NodeDeed::Leave);
        Ok(Outcome::Done)
    }
}
