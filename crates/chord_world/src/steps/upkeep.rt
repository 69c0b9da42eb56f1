//! The ring's upkeep.
ghost use Rattle.std.specs.Prelude.{◌≡◌, ◌<◌, length};
ghost use Rattle.chord_ring.specs.declared.ring_step.RingStep.TheVariants as step;
ghost use Rattle.chord_ring.specs.declared.ring_step.RingDid.TheVariants as ring;
ghost use Rattle.chord_ring.specs.declared.ring_step.RingStep.{RingStep};
ghost use Rattle.chord_ring.specs.Refusals.{AreOwn};
ghost use Rattle.chord_ring.specs.Steps.{Step, with_links};
ghost use Rattle.chord_model.specs.World.{WorldStep};
ghost use Rattle.chord_world.specs.State.{KeepsRing, ring_of};
ghost use Rattle.chord_world.specs.Steps.{Advances};
ghost use Rattle.chord_world.specs.Upkeep.{UpkeepIs, FitAt, RelinksAt, Moves, outcome_of_ring};

use crate::outcome::Outcome;
use crate::refusal::Refusal;
use crate::world::World;
use chord_links::{Links, Peer};
use chord_node::Node;
use chord_ring::{drop_dead_in, rectify_in, stabilise_in, take_candidate_in};
use chord_store::EntryStore;

/// Sets the links of the node at this index.
fn relink_at<S: EntryStore>(nodes: &mut Vec<Node<S>>, place: usize, links: Links)
    requires place { place < length nodes.old.items }
    requires fit { FitAt place links nodes.old.items }
    ensures { RelinksAt place links nodes.old.items nodes.new.items }
{
    let node = &mut nodes[place];
    node.set_links(links);
}

/// The outcome of a member's learning of this candidate.
fn outcome_of_candidate(candidate: Option<Peer>) -> Outcome
    ensures { result ≡ outcome_of_ring (ring.Candidate candidate) }
{
    match candidate {
        Some(peer) => Outcome::Candidate(Some(peer.number)),
        None => Outcome::Candidate(None),
    }
}

impl<S: EntryStore> World<S> {
    /// Sets the links that a step of the ring gave a member.
    fn relink(&mut self, node: u64, links: Links)
        requires own { AreOwn (ring_of self.old) node links }
        requires moved { (by : RingStep) × Step (ring_of self.old) by (with_links (ring_of self.old) node links) }
        ensures moves { (by : RingStep) → Step (ring_of self.old) by (with_links (ring_of self.old) node links) → Moves by node self.old self.new }
        ensures step { WorldStep self.old.world self.new.world }
        ensures ring { KeepsRing self.old self.new }
    {
        relink_at(&mut self.nodes, node as usize, links);
    }

    /// A member copies the list of its first entry.
    pub(crate) fn stabilise(&mut self, node: u64, head: u64) -> Result<Outcome, Refusal>
        ensures answer { UpkeepIs (step.Stabilise node head) node self.old result self.new }
        ensures step { Advances self.old result self.new }
        ensures ring { KeepsRing self.old self.new }
    {
        if self.nodes.is_empty() {
            return Err(Refusal::NotCreated);
        }
        let did = stabilise_in(self, node, head)?;
        self.relink(node, did.0);
        Ok(outcome_of_candidate(did.1))
    }

    /// A member takes a nearer node as its first entry.
    pub(crate) fn take_candidate(&mut self, node: u64, peer: u64) -> Result<Outcome, Refusal>
        ensures answer { UpkeepIs (step.Candidate node peer) node self.old result self.new }
        ensures step { Advances self.old result self.new }
        ensures ring { KeepsRing self.old self.new }
    {
        if self.nodes.is_empty() {
            return Err(Refusal::NotCreated);
        }
        let links = take_candidate_in(self, node, peer)?;
        self.relink(node, links);
        Ok(Outcome::Done)
    }

    /// A member drops its dead first entry.
    pub(crate) fn drop_dead(&mut self, node: u64) -> Result<Outcome, Refusal>
        ensures answer { UpkeepIs (step.DropDead node) node self.old result self.new }
        ensures step { Advances self.old result self.new }
        ensures ring { KeepsRing self.old self.new }
    {
        if self.nodes.is_empty() {
            return Err(Refusal::NotCreated);
        }
        let links = drop_dead_in(self, node)?;
        self.relink(node, links);
        Ok(Outcome::Done)
    }

    /// A member hears of a member that may be its predecessor.
    pub(crate) fn rectify(&mut self, node: u64, notifier: u64) -> Result<Outcome, Refusal>
        ensures answer { UpkeepIs (step.Rectify node notifier) node self.old result self.new }
        ensures step { Advances self.old result self.new }
        ensures ring { KeepsRing self.old self.new }
    {
        if self.nodes.is_empty() {
            return Err(Refusal::NotCreated);
        }
        let did = rectify_in(self, node, notifier)?;
        self.relink(node, did.0);
        Ok(Outcome::Done)
    }
}
