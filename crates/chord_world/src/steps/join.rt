//! Nodes that join.
ghost use Rattle.std.specs.Prelude.{◌≡◌, [], map};
ghost use Rattle.std.specs.List.{All};
ghost use Rattle.chord_world.specs.State.{KeepsRing};
ghost use Rattle.chord_world.specs.Steps.{CreateLeaves, Advances};
ghost use Rattle.chord_world.specs.Joining.{JoinIs, LinksToJoin};

use crate::members::is_used;
use crate::outcome::Outcome;
use crate::refusal::{Refusal, StepFault};
use crate::steps::create::{add_node, room_for_node};
use crate::world::World;
use chord_ident::Id;
use chord_links::{Links, Peer};
use chord_node::Node;
use chord_ring::join_behind;
use chord_store::EntryStore;

impl<S: EntryStore> World<S> {
    /// The links of the next node behind a member, if it may join and there is a store for it.
    fn links_to_join(&self, stores: &Vec<S>, id: Id, behind: u64) -> Result<Links, Refusal>
        ensures { LinksToJoin id behind (map S.limit stores.now.items) self.now result }
    {
        if self.nodes.is_empty() {
            return Err(Refusal::NotCreated);
        }
        let Some(pred) = self.links_in_ring(behind) else {
            return Err(Refusal::NoSuchNode);
        };
        if is_used(&self.nodes, id) {
            return Err(Refusal::IdTaken);
        }
        if stores.is_empty() {
            return Err(Refusal::NoStore);
        }
        let number = self.nodes.len() as u64;
        let Ok(links) = join_behind(Peer { number, id }, &pred) else {
            return Err(Refusal::Step(StepFault::NotBetween));
        };
        Ok(links)
    }

    /// A node joins behind a member, over the first store.
    pub(crate) fn join(
        &mut self,
        stores: &mut Vec<S>,
        id: Id,
        behind: u64,
    ) -> Result<Outcome, Refusal>
        requires { All (λ s. S.content s ≡ []) stores.old.items }
        ensures answer { JoinIs id behind (map S.limit stores.old.items) self.old result self.new }
        ensures step { Advances self.old result self.new }
        ensures ring { KeepsRing self.old self.new }
        ensures stores { CreateLeaves result stores.old.items stores.new.items }
    {
        let links = self.links_to_join(stores, id, behind)?;
        let number = self.nodes.len() as u64;
        if room_for_node(&mut self.nodes, &mut self.fates).is_err() {
            return Err(Refusal::Memory);
        }
        let store = stores.remove(0);
        let node = Node::newborn(self.alloc, links, store);
        add_node(&mut self.nodes, &mut self.fates, node);
        Ok(Outcome::Node(number))
    }
}
