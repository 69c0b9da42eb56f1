//! The members of the ring formed by the nodes.
ghost use Rattle.std.specs.Prelude.{◌≡◌, slice_index_or, false, map, IsTrue};
ghost use Rattle.std.specs.List.{Contains};
ghost use Rattle.std.specs.Option.{option_copied};
ghost use Rattle.chord_ring.specs.Ring.{links_of};
ghost use Rattle.chord_world.specs.declared.fate.Fate.TheVariants as fate;
ghost use Rattle.chord_world.specs.Members.{member_links, id_of_node};
ghost use Rattle.chord_world.specs.Members as members;
ghost use Rattle.chord_world.specs.State.{ring_of};

use crate::fate::Fate;
use crate::world::World;
use chord_ident::Id;
use chord_links::Links;
use chord_node::{Node, Phase};
use chord_ring::MemberReader;
use chord_store::EntryStore;

/// Whether the node of this number crashed and was not rescued, according to these.
pub(crate) fn is_out(fates: &[Fate], number: u64) -> bool
    ensures { result ≡ members.is_out (slice_index_or fates.now number fate.Well) }
{
    match fates.get(number as usize) {
        Some(Fate::Crashed) => true,
        Some(Fate::Well | Fate::Rescued) => false,
        None => false,
    }
}

/// Whether the node of this number is dead for the ring, according to these.
fn is_dead(fates: &[Fate], number: u64) -> bool
    ensures { result ≡ members.is_dead (slice_index_or fates.now number fate.Well) }
{
    match fates.get(number as usize) {
        Some(Fate::Crashed | Fate::Rescued) => true,
        Some(Fate::Well) => false,
        None => false,
    }
}

/// The links of a node that never crashed, if it is a member.
fn links_of_member<S: EntryStore>(node: &Node<S>) -> Option<&Links>
    ensures { option_copied result ≡ member_links false node.now }
{
    match node.phase() {
        Phase::Staying | Phase::Leaving => Some(node.links()),
        Phase::Gone => None,
    }
}

/// Whether a node ever had this identifier.
pub(crate) fn is_used<S: EntryStore>(nodes: &[Node<S>], id: Id) -> bool
    ensures yes { IsTrue result → Contains (map id_of_node nodes.now) id.number }
    ensures number { Contains (map id_of_node nodes.now) id.number → IsTrue result }
{
    for node in nodes {
        if node.links().me().id == id {
            return true;
        }
    }
    false
}

impl<S: EntryStore> MemberReader for World<S> {
    ghost ring = { λ state. ring_of state };

    ghost number_at = { λ state place. place };

    fn member(&self, number: u64) -> Option<&Links> {
        if number >= self.nodes.len() as u64 || is_dead(&self.fates, number) {
            return None;
        }
        links_of_member(&self.nodes[number as usize])
    }

    fn count(&self) -> u64 {
        self.nodes.len() as u64
    }

    fn listed(&self) -> u64 {
        self.count()
    }

    fn listed_at(&self, place: u64) -> u64 {
        place
    }
}

impl<S: EntryStore> World<S> {
    /// The links of the node of this number, if it is a member.
    pub(crate) fn links_in_ring(&self, number: u64) -> Option<Links>
        ensures { result ≡ links_of (ring_of self.now).members number }
    {
        self.member(number).copied()
    }
}
