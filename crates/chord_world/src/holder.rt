//! Who holds an identifier.
ghost use Rattle.std.specs.Prelude.{◌≡◌, true, false, [], Some, IfSome, IfNone, Contains, slice_get};
ghost use Rattle.chord_handover.specs.Handover.{Item};
ghost use Rattle.chord_model.specs.World.{holders, last_taken, holders_under_way};
ghost use Rattle.chord_world.specs.Holding.{holders_at, is_open, way_of, HolderIs};
ghost use Rattle.chord_world.specs.State.{NodesFrom};

use crate::world::World;
use chord_ident::Id;
use chord_node::{Holder, Node};
use chord_store::EntryStore;

/// The last number that a node took from another; 0 if there is no such node.
fn taken_last<S: EntryStore>(nodes: &[Node<S>], to: u64, from: u64) -> u64
    requires { NodesFrom 0 nodes.now }
    ensures { result ≡ last_taken nodes.now to from }
{
    if to >= nodes.len() as u64 {
        return 0;
    }
    nodes[to as usize].last_taken(from)
}

/// The item of the outbox at this index, if it hands the
/// identifier over and its receiver has not taken it.
fn under_way_at<S: EntryStore>(
    nodes: &[Node<S>],
    node: &Node<S>,
    place: usize,
    id: Id,
) -> Option<Holder>
    requires { NodesFrom 0 nodes.now }
    ensures found { IfSome result (λ holder. (item : Item) × (slice_get node.now.outbox place ≡ Some item) × (is_open id.number (last_taken nodes.now) node.now item ≡ true) × (holder ≡ way_of node.now item)) }
    ensures none { IfNone result ((item : Item) → slice_get node.now.outbox place ≡ Some item → is_open id.number (last_taken nodes.now) node.now item ≡ false) }
{
    let from = node.number();
    let (to, number, span) = node.outbox_item(place as u64)?;
    if span.contains(id) && taken_last(nodes, to, from) < number {
        Some(Holder::UnderWay { from, to, number })
    } else {
        None
    }
}

/// A handover of the identifier from this node that its receiver has not taken, if any.
fn find_under_way<S: EntryStore>(nodes: &[Node<S>], node: &Node<S>, id: Id) -> Option<Holder>
    requires { NodesFrom 0 nodes.now }
    ensures found { IfSome result (λ holder. Contains (holders_under_way id.number (last_taken nodes.now) node.now) holder) }
    ensures none { IfNone result (holders_under_way id.number (last_taken nodes.now) node.now ≡ []) }
{
    for place in 0..node.outbox_len() {
        if let Some(holder) = under_way_at(nodes, node, place, id) {
            return Some(holder);
        }
    }
    None
}

/// The node if it holds the identifier, else a handover of it that its receiver has not taken.
fn holder_at<S: EntryStore>(nodes: &[Node<S>], node: &Node<S>, id: Id) -> Option<Holder>
    requires { NodesFrom 0 nodes.now }
    ensures found { IfSome result (λ holder. Contains (holders_at id.number nodes.now node.now) holder) }
    ensures none { IfNone result (holders_at id.number nodes.now node.now ≡ []) }
{
    if node.holds(id) {
        return Some(Holder::Node(node.number()));
    }
    find_under_way(nodes, node, id)
}

/// A holder of the identifier, if there is one.
fn find_holder<S: EntryStore>(nodes: &[Node<S>], id: Id) -> Option<Holder>
    requires { NodesFrom 0 nodes.now }
    ensures found { IfSome result (λ holder. Contains (holders id.number nodes.now) holder) }
    ensures none { IfNone result (holders id.number nodes.now ≡ []) }
{
    for node in nodes {
        if let Some(holder) = holder_at(nodes, node, id) {
            return Some(holder);
        }
    }
    None
}

impl<S: EntryStore> World<S> {
    /// The holder of the identifier, once there is a node.
    pub fn holder(&self, id: Id) -> Option<Holder>
        ensures { HolderIs id.number self.now result }
    {
        chord_model::laws::one_holder();
        find_holder(&self.nodes, id)
    }
}
