//! The first node.
ghost use Rattle.std.specs.Prelude.{◌≡◌, ◌<◌, [], ◌∷◌, ◌++◌, map, OnOk};
ghost use Rattle.std.specs.List.{All};
ghost use Rattle.std.specs.Vec.{vec_len, vec_capacity};
ghost use Rattle.chord_world.specs.declared.fate.Fate.TheVariants.{Well};
ghost use Rattle.chord_world.specs.State.{KeepsRing};
ghost use Rattle.chord_world.specs.Steps.{CreateIs, CreateLeaves, Advances};

use crate::fate::Fate;
use crate::outcome::Outcome;
use crate::refusal::Refusal;
use crate::world::World;
use chord_ident::Id;
use chord_links::Peer;
use chord_node::Node;
use chord_store::EntryStore;
use std::alloc::AllocError;

/// Puts a store back as the first one.
fn put_back<S: EntryStore>(stores: &mut Vec<S>, store: S)
    requires { vec_len stores.old < vec_capacity stores.old }
    ensures { stores.new.items ≡ store ∷ stores.old.items }
{
    match stores.insert(0, store) {
        Ok(()) => {}
        Err(_) => unreachable!(),
    }
}

/// Reserves room for one more node.
pub(crate) fn room_for_node<S: EntryStore>(
    nodes: &mut Vec<Node<S>>,
    fates: &mut Vec<Fate>,
) -> Result<(), AllocError>
    ensures nodes { nodes.new.items ≡ nodes.old.items }
    ensures fates { fates.new.items ≡ fates.old.items }
    ensures nodes_room { OnOk result (vec_len nodes.new < vec_capacity nodes.new) }
    ensures fates_room { OnOk result (vec_len fates.new < vec_capacity fates.new) }
{
    nodes.reserve(1)?;
    fates.reserve(1)?;
    Ok(())
}

/// Adds a node, which has not crashed.
pub(crate) fn add_node<S: EntryStore>(
    nodes: &mut Vec<Node<S>>,
    fates: &mut Vec<Fate>,
    node: Node<S>,
)
    requires nodes_room { vec_len nodes.old < vec_capacity nodes.old }
    requires fates_room { vec_len fates.old < vec_capacity fates.old }
    ensures nodes { nodes.new.items ≡ nodes.old.items ++ node ∷ [] }
    ensures fates { fates.new.items ≡ fates.old.items ++ Well ∷ [] }
{
    nodes.push_reserved(node);
    fates.push_reserved(Fate::Well);
}

impl<S: EntryStore> World<S> {
    /// Creates the first node, over the first store.
    pub(crate) fn create(&mut self, stores: &mut Vec<S>, id: Id) -> Result<Outcome, Refusal>
        requires { All (λ s. S.content s ≡ []) stores.old.items }
        ensures answer { CreateIs id (map S.limit stores.old.items) self.old result self.new }
        ensures step { Advances self.old result self.new }
        ensures ring { KeepsRing self.old self.new }
        ensures stores { CreateLeaves result stores.old.items stores.new.items }
    {
        if !self.nodes.is_empty() {
            return Err(Refusal::AlreadyCreated);
        }
        if stores.is_empty() {
            return Err(Refusal::NoStore);
        }
        if room_for_node(&mut self.nodes, &mut self.fates).is_err() {
            return Err(Refusal::Memory);
        }
        let store = stores.remove(0);
        match Node::found(self.alloc, Peer { number: 0, id }, self.r, store) {
            Ok(node) => {
                add_node(&mut self.nodes, &mut self.fates, node);
                Ok(Outcome::Node(0))
            }
            Err(store) => {
                put_back(stores, store);
                Err(Refusal::Memory)
            }
        }
    }
}
