//! What a node does by itself.
ghost use Rattle.std.specs.Prelude.{◌≡◌, ◌<◌, Some, length, slice_get};
ghost use Rattle.chord_model.specs.Node.{Node as NodeOf};
ghost use Rattle.chord_world.specs.State.{messages_of, KeepsRing};
ghost use Rattle.chord_world.specs.Steps.{Advances};
ghost use Rattle.chord_world.specs.Deeds.{DeedIs, Fits, NodeFits, DoesItAt, log_of, GiveStepIs, SendPartIs};

use crate::deed::NodeDeed;
use crate::outcome::Outcome;
use crate::refusal::{Refusal, StepFault};
use crate::sent::Sent;
use crate::world::World;
use chord_history::History;
use chord_node::Node;
use chord_store::EntryStore;

/// The node at this index does it.
pub(crate) fn act_at<S: EntryStore>(
    nodes: &mut Vec<Node<S>>,
    sent: &mut Vec<Sent>,
    history: &mut History,
    place: usize,
    deed: NodeDeed,
) -> Result<Outcome, Refusal>
    requires place { place < length nodes.old.items }
    requires fits { (node : NodeOf) → slice_get nodes.old.items place ≡ Some node
        → NodeFits deed node (messages_of sent.old.items) }
    ensures { DoesItAt deed place nodes.old.items (log_of sent.old.items history.old.calls) result
        nodes.new.items (log_of sent.new.items history.new.calls) }
{
    let node = &mut nodes[place];
    deed.act(node, sent, history)
}

impl<S: EntryStore> World<S> {
    /// The node of this number does it, if it exists and has not crashed.
    #[tactic(auto, using(crate::proofs::Handing::acts_within, crate::proofs::Deeds::cannot_act))]
    pub(crate) fn act(&mut self, number: u64, deed: NodeDeed) -> Result<Outcome, Refusal>
        requires { Fits deed number self.old }
        ensures answer { DeedIs deed number self.old result self.new }
        ensures step { Advances self.old result self.new }
        ensures ring { KeepsRing self.old self.new }
    {
        self.can_act(number)?;
        chord_node::laws::no_delivery_clashes();
        let (nodes, sent, history) = (&mut self.nodes, &mut self.sent, &mut self.history);
        act_at(nodes, sent, history, number as usize, deed)
    }

    /// The node gives the held segment at the index `place` to another, and sends the first part.
    pub(crate) fn give(&mut self, node: u64, place: u64, to: u64) -> Result<Outcome, Refusal>
        ensures answer { GiveStepIs node place to self.old result self.new }
        ensures step { Advances self.old result self.new }
        ensures ring { KeepsRing self.old self.new }
    {
        self.is_there(to)?;
        self.act(node, NodeDeed::Give { place, to })
    }

    /// The node sends a part of an item of its outbox again.
    pub(crate) fn send_part(
        &mut self,
        node: u64,
        to: u64,
        number: u64,
        part: u64,
    ) -> Result<Outcome, Refusal>
        ensures answer { SendPartIs node to number part self.old result self.new }
        ensures step { Advances self.old result self.new }
        ensures ring { KeepsRing self.old self.new }
    {
        self.can_act(node)?;
        if to >= self.nodes.len() as u64 {
            return Err(Refusal::Step(StepFault::NoPart));
        }
        self.act(node, NodeDeed::SendPart { to, number, part })
    }
}
