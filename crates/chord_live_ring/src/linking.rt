//! The steps of the ring that a node takes beside another node, while both nodes are locked.
ghost use Rattle.std.specs.Prelude.{◌≡◌, ◌↔◌, ◌<◌, length, true, false, None, Some, IsTrue, IsOk, IfOk, IfSome, IfErr, OnOk, OnErr};
ghost use Rattle.chord_ident.specs.Circle.{IsBetween};
ghost use Rattle.chord_links.specs.NodeLinks.{first_entry};
ghost use Rattle.chord_live_ring.specs.SeatedCalls.{with_links};
ghost use Rattle.chord_live_ring.specs.Seats.{HasPredecessor};
ghost use Rattle.chord_live_ring.specs.Sights.{is_member};
ghost use Rattle.chord_ring.specs.Steps.{candidate_of, gives_way, links_behind, rectified_links, without_head};
ghost use Rattle.chord_table.specs.Views.{MayRelink};

use crate::seated_node::SeatedNode;
use crate::slot::LinkStep;
use chord_links::{Links, Peer};
use chord_node::Phase;
use chord_ring::{CandidateFault, StabiliseFault};
use chord_store::EntryStore;
use chord_table::{Naming, Shared};

impl<J: Naming, S: EntryStore> SeatedNode<J, S> {
    /// Whether the node is a member of the ring: it neither crashed nor is gone.
    pub fn is_member(&self) -> bool
        ensures { result ≡ is_member self.now }
    {
        match self.node.phase() {
            Phase::Staying | Phase::Leaving => !self.crashed,
            Phase::Gone => false,
        }
    }

    /// Gives the node other links beside another node.
    fn relink(&mut self, table: &Shared<J>, other: &mut SeatedNode<J, S>, links: Links)
        requires live { self.old.crashed ≡ false }
        requires me { links.me ≡ self.old.node.links.me }
        requires r { links.r ≡ self.old.node.links.r }
        requires step { MayRelink self.old.node other.old.node other.old.crashed (record self.old.node { links = links }) }
        ensures done { self.new ≡ with_links links self.old }
        ensures other { other.new ≡ other.old }
    {
        let Some(seat) = &mut self.seat else {
            unreachable!()
        };
        let Some(theirs) = &mut other.seat else {
            unreachable!()
        };
        self.node.set_links(links);
        seat.relink(table, theirs, &self.node);
    }

    /// Copies the list of the node's first entry. Gives that entry's predecessor if it lies between
    /// the node and the entry.
    pub fn stabilise(
        &mut self,
        table: &Shared<J>,
        head: &mut SeatedNode<J, S>,
    ) -> Result<Option<Peer>, StabiliseFault>
        requires live { is_member self.old ≡ true }
        ensures variant { IsOk result ↔ ((is_member head.old ≡ true) × (first_entry self.old.node.links ≡ head.old.node.links.me)) }
        ensures ok { IfOk result (λ candidate. candidate ≡ candidate_of self.old.node.links head.old.node.links) }
        ensures done { OnOk result (self.new ≡ with_links (links_behind self.old.node.links head.old.node.links) self.old) }
        ensures fault { IfErr result (λ fault. (fault ≡ StabiliseFault.HeadDead) ↔ (is_member head.old ≡ false)) }
        ensures err { OnErr result (self.new ≡ self.old) }
        ensures links { self.new ≡ with_links self.new.node.links self.old }
        ensures head { head.new ≡ head.old }
    {
        let live = head.is_member();
        let mut links = *self.node.links();
        let candidate = chord_ring::stabilise(&mut links, head.node.links(), live)?;
        self.relink(table, head, links);
        Ok(candidate)
    }

    /// Takes a member that lies between the node and its first entry as the first entry.
    pub fn take_candidate(
        &mut self,
        table: &Shared<J>,
        candidate: &mut SeatedNode<J, S>,
    ) -> Result<(), CandidateFault>
        requires live { is_member self.old ≡ true }
        ensures variant { IsOk result ↔ ((is_member candidate.old ≡ true)
            × IsBetween self.old.node.links.me.id.number candidate.old.node.links.me.id.number (first_entry self.old.node.links).id.number) }
        ensures done { OnOk result (self.new ≡ with_links (links_behind self.old.node.links candidate.old.node.links) self.old) }
        ensures fault { IfErr result (λ fault. (fault ≡ CandidateFault.Dead) ↔ (is_member candidate.old ≡ false)) }
        ensures err { OnErr result (self.new ≡ self.old) }
        ensures links { self.new ≡ with_links self.new.node.links self.old }
        ensures candidate { candidate.new ≡ candidate.old }
    {
        let live = candidate.is_member();
        let mut links = *self.node.links();
        chord_ring::take_candidate(&mut links, candidate.node.links(), live)?;
        self.relink(table, candidate, links);
        Ok(())
    }

    /// The links without the first entry, if that has this number and there is another.
    fn links_without(&self, head: u64) -> Option<Links>
        ensures some { IfSome result (λ links. ((first_entry self.now.node.links).number ≡ head) × (1 < length self.now.node.links.entries)
            × (links ≡ without_head self.now.node.links)) }
        ensures none { result ≡ None → ¬ (((first_entry self.now.node.links).number ≡ head) × (1 < length self.now.node.links.entries)) }
    {
        let mut links = *self.node.links();
        if links.first().number != head {
            return None;
        }
        match chord_ring::drop_dead(&mut links, false) {
            Ok(()) => Some(links),
            Err(_) => None,
        }
    }

    /// Drops the first entry if it is this node, which is no member, and there is another. Says
    /// whether it did.
    pub fn drop_departed(&mut self, table: &Shared<J>, head: &mut SeatedNode<J, S>) -> bool
        requires live { is_member self.old ≡ true }
        ensures variant { (result ≡ true) ↔ ((is_member head.old ≡ false) × ((first_entry self.old.node.links).number ≡ head.old.node.number)
            × (1 < length self.old.node.links.entries)) }
        ensures done { result ≡ true → self.new ≡ with_links (without_head self.old.node.links) self.old }
        ensures kept { result ≡ false → self.new ≡ self.old }
        ensures links { self.new ≡ with_links self.new.node.links self.old }
        ensures head { head.new ≡ head.old }
    {
        if head.is_member() {
            return false;
        }
        match self.links_without(head.node.number()) {
            Some(links) => {
                self.relink(table, head, links);
                true
            }
            None => false,
        }
    }

    /// Takes another member as the predecessor, if the node has none or one that is farther. Says
    /// whether it did.
    pub fn rectify(&mut self, table: &Shared<J>, notifier: &mut SeatedNode<J, S>) -> bool
        requires live { is_member self.old ≡ true }
        requires notifier_live { is_member notifier.old ≡ true }
        ensures answer { result ≡ gives_way self.old.node.links.me notifier.old.node.links.me true self.old.node.links.predecessor }
        ensures done { self.new ≡ with_links (rectified_links self.old.node.links notifier.old.node.links.me result) self.old }
        ensures links { self.new ≡ with_links self.new.node.links self.old }
        ensures notifier { notifier.new ≡ notifier.old }
    {
        let mut links = *self.node.links();
        let gives = chord_ring::rectify(&mut links, notifier.node.links().me(), true);
        if gives {
            self.relink(table, notifier, links);
        }
        gives
    }

    /// The links with the node itself as its predecessor, if its predecessor has this number.
    fn links_alone(&self, predecessor: u64) -> Option<Links>
        ensures some { IfSome result (λ links. HasPredecessor predecessor self.now.node.links.predecessor
            × (links ≡ rectified_links self.now.node.links self.now.node.links.me true)) }
        ensures none { result ≡ None → ¬ HasPredecessor predecessor self.now.node.links.predecessor }
    {
        let mut links = *self.node.links();
        match links.predecessor() {
            Some(peer) if peer.number == predecessor => {
                let me = links.me();
                links.set_predecessor(Some(me));
                Some(links)
            }
            _ => None,
        }
    }

    /// Takes itself as its predecessor, if its predecessor is this node, which is no member: the
    /// next notifier is nearer then. Says whether it did.
    pub fn forget_departed(&mut self, table: &Shared<J>, old: &mut SeatedNode<J, S>) -> bool
        requires live { is_member self.old ≡ true }
        ensures variant { (result ≡ true) ↔ ((is_member old.old ≡ false) × HasPredecessor old.old.node.number self.old.node.links.predecessor) }
        ensures done { result ≡ true → self.new ≡ with_links (rectified_links self.old.node.links self.old.node.links.me true) self.old }
        ensures kept { result ≡ false → self.new ≡ self.old }
        ensures links { self.new ≡ with_links self.new.node.links self.old }
        ensures old { old.new ≡ old.old }
    {
        if old.is_member() {
            return false;
        }
        match self.links_alone(old.node.number()) {
            Some(links) => {
                self.relink(table, old, links);
                true
            }
            None => false,
        }
    }

    /// Takes itself as its predecessor, if it has none. Says whether it did.
    pub fn stand_alone(&mut self, table: &Shared<J>) -> bool
        requires live { is_member self.old ≡ true }
        ensures variant { (result ≡ true) ↔ (self.old.node.links.predecessor ≡ None) }
        ensures done { result ≡ true → self.new ≡ with_links (rectified_links self.old.node.links self.old.node.links.me true) self.old }
        ensures kept { result ≡ false → self.new ≡ self.old }
    {
        let Some(seat) = &mut self.seat else {
            unreachable!()
        };
        let mut links = *self.node.links();
        if links.predecessor().is_some() {
            return false;
        }
        let me = links.me();
        links.set_predecessor(Some(me));
        self.node.set_links(links);
        seat.relink_alone(table, &self.node);
        true
    }

    /// Takes a step of the ring beside another node, where both are as the step wants them. Gives
    /// the candidate that a stabilisation finds.
    pub fn step_beside(
        &mut self,
        table: &Shared<J>,
        other: &mut SeatedNode<J, S>,
        step: LinkStep,
    ) -> Option<Peer>
        ensures links { self.new ≡ with_links self.new.node.links self.old }
        ensures other { other.new ≡ other.old }
    {
        if !self.is_member() {
            return None;
        }
        match step {
            LinkStep::DropHead => {
                let _ = self.drop_departed(table, other);
                None
            }
            LinkStep::Stabilise => match self.stabilise(table, other) {
                Ok(candidate) => candidate,
                Err(_) => None,
            },
            LinkStep::TakeCandidate => {
                let _ = self.take_candidate(table, other).is_ok();
                None
            }
            LinkStep::Rectify => {
                if other.is_member() {
                    let _ = self.rectify(table, other);
                }
                None
            }
            LinkStep::Forget => {
                let _ = self.forget_departed(table, other);
                None
            }
        }
    }
}
