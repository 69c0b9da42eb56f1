//! The links of all nodes of one ring.
ghost use Rattle.std.specs.Prelude.{◌≡◌, ◌<◌, ◌≤◌, ◌↔◌, length, IsTrue, IfOk, IfErr, OnOk, OnErr, None, Some, map, ◌≢◌};
ghost use Rattle.std.specs.List.{Contains};
ghost use Rattle.chord_ring.specs.Ring.{links_of, is_member, IsSafe, CanDepart, KeepsPrincipals, IsOneRing};
ghost use Rattle.chord_ring.specs.Steps.{founded_ring, ring_without, with_links, Joins, Step};
ghost use Rattle.chord_ring.specs.declared.ring_step.RingStep.{RingStep};
ghost use Rattle.chord_ring.specs.Refusals.{AreOwn, JoinRefused, Refused, Did};

use crate::departing::can_depart_in;
use crate::members::MemberReader;
use crate::ring_fault::RingFault;
use crate::ring_step::{RingDid, RingStep};
use crate::steps::join_behind;
use crate::upkeep::{drop_dead_in, rectify_in, stabilise_in, take_candidate_in};
use chord_ident::Id;
use chord_links::{Links, Peer};
use std::alloc::{AllocError, Global};
use std::marker::Model;

/// The nodes of one ring: the identifiers of all that ever joined, and the links of each member.
#[derive(Drop)]
pub struct RingCore {
    ids: Vec<Id>,
    members: Vec<Option<Links>>,
}

impl Model for RingCore {
    ghost use Rattle.std.specs.Prelude.{map, nat_lt, ◌&&◌};
    ghost use Rattle.std.specs.Vec.{vec_len, vec_capacity};
    ghost use Rattle.chord_ring.specs.State.{RingState};
    ghost use Rattle.chord_ring.specs.Sound.{IsSound};

    ghost Value = { RingState };

    ghost view = { λ core. record {
      ring = record { ids = map (λ id. id.number) core.ids.items; members = core.members.items };
      has_room = nat_lt (vec_len core.ids) (vec_capacity core.ids) && nat_lt (vec_len core.members) (vec_capacity core.members);
    } };

    ghost invariant = { λ core. IsSound (record { ids = map (λ id. id.number) core.ids.items; members = core.members.items }) };
}

impl RingCore {
    /// Each member's list has a live entry, there is a
    /// principal, and the principals are on one ring.
    #[tactic(auto, using(crate::proofs::Walking::one_ring))]
    pub fn stands_on_one_ring(&self)
        ensures safe { IsSafe self.now.ring.members }
        ensures one_ring { IsOneRing self.now.ring.members }
    {
        let _members = &self.members;
    }

    /// Whether the node is a member.
    pub fn is_member(&self, number: u64) -> bool
        ensures { result ≡ is_member self.now.ring.members number }
    {
        matches!(self.members.get(number as usize), Some(Some(_)))
    }

    /// Whether the node is a member and, once it has departed, each member's list has a live entry
    /// and there is a principal.
    pub fn can_depart(&self, number: u64) -> bool
        ensures { IsTrue result ↔ CanDepart self.now.ring.members number }
    {
        can_depart_in(self, number)
    }

    /// The links of a member.
    pub fn links(&self, number: u64) -> Option<Links>
        ensures { result ≡ links_of self.now.ring.members number }
    {
        self.member(number).copied()
    }

    /// A ring of one node, whose list has only itself.
    pub fn found(alloc: Global, id: Id, r: usize) -> Result<RingCore, AllocError>
        requires low { 2 ≤ r }
        requires high { r ≤ 16 }
        ensures { IfOk result (λ core. core.ring ≡ founded_ring id.number r) }
    {
        let first = Peer { number: 0, id };
        let mut ids = Vec::new(alloc);
        ids.push(id)?;
        let mut members = Vec::new(alloc);
        members.push(Some(Links::alone(first, r)))?;
        Ok(RingCore { ids, members })
    }

    /// A member departs.
    pub fn depart(&mut self, number: u64)
        requires { CanDepart self.old.ring.members number }
        ensures departed { self.new.ring ≡ ring_without self.old.ring number }
        ensures principals { KeepsPrincipals self.old.ring.members self.new.ring.members }
    {
        self.members[number as usize] = None;
    }

    /// Stores a member's new links.
    fn store(&mut self, number: u64, links: Links)
        requires own { AreOwn self.old.ring number links }
        requires step { (step : RingStep) × Step self.old.ring step (with_links self.old.ring number links) }
        ensures stored { self.new.ring ≡ with_links self.old.ring number links }
        ensures principals { KeepsPrincipals self.old.ring.members self.new.ring.members }
    {
        self.members[number as usize] = Some(links);
    }

    /// Reserves room for one more node.
    pub fn reserve(&mut self) -> Result<(), AllocError>
        ensures room { OnOk result (IsTrue self.new.has_room) }
        ensures kept { self.new.ring ≡ self.old.ring }
    {
        self.ids.reserve(1)?;
        self.members.reserve(1)?;
        Ok(())
    }

    /// A new node joins behind a member; answers its number.
    fn join(&mut self, id: Id, behind: u64) -> Result<u64, RingFault>
        ensures room { IsTrue self.old.has_room → IfErr result (λ fault. fault ≢ RingFault.Memory) }
        ensures number { IfOk result (λ number. number ≡ length self.old.ring.ids) }
        ensures done { OnOk result (Joins self.old.ring id.number behind self.new.ring) }
        ensures fault { IfErr result (λ fault. JoinRefused self.old.ring id.number behind fault) }
        ensures kept { OnErr result (self.new.ring ≡ self.old.ring) }
        ensures principals { KeepsPrincipals self.old.ring.members self.new.ring.members }
    {
        let Some(pred) = self.links(behind) else {
            return Err(RingFault::NoSuchNode);
        };
        if is_used(&self.ids, id) {
            return Err(RingFault::IdTaken);
        }
        let number = self.ids.len() as u64;
        let Ok(links) = join_behind(Peer { number, id }, &pred) else {
            return Err(RingFault::NotBetween);
        };
        if self.ids.reserve(1).is_err() || self.members.reserve(1).is_err() {
            return Err(RingFault::Memory);
        }
        self.ids.push_reserved(id);
        self.members.push_reserved(Some(links));
        Ok(number)
    }

    /// One step of the ring.
    pub fn step(&mut self, step: RingStep) -> Result<RingDid, RingFault>
        ensures room { IsTrue self.old.has_room → IfErr result (λ fault. fault ≢ RingFault.Memory) }
        ensures done { OnOk result (Step self.old.ring step self.new.ring) }
        ensures did { IfOk result (λ did. Did self.old.ring step did) }
        ensures fault { IfErr result (λ fault. Refused self.old.ring step fault) }
        ensures kept { OnErr result (self.new.ring ≡ self.old.ring) }
        ensures principals { KeepsPrincipals self.old.ring.members self.new.ring.members }
    {
        match step {
            RingStep::Join(id, behind) => Ok(RingDid::Joined(self.join(id, behind)?)),
            RingStep::Stabilise(number, head) => {
                let did = stabilise_in(self, number, head)?;
                self.store(number, did.0);
                Ok(RingDid::Candidate(did.1))
            }
            RingStep::Candidate(number, peer) => {
                let links = take_candidate_in(self, number, peer)?;
                self.store(number, links);
                Ok(RingDid::Done)
            }
            RingStep::DropDead(number) => {
                let links = drop_dead_in(self, number)?;
                self.store(number, links);
                Ok(RingDid::Done)
            }
            RingStep::Rectify(number, notifier) => {
                let did = rectify_in(self, number, notifier)?;
                self.store(number, did.0);
                Ok(RingDid::Done)
            }
        }
    }
}

impl MemberReader for RingCore {
    ghost ring = { λ core. core.ring };

    ghost number_at = { λ core place. place };

    fn member(&self, number: u64) -> Option<&Links> {
        match self.members.get(number as usize) {
            Some(Some(links)) => Some(links),
            _ => None,
        }
    }

    fn count(&self) -> u64 {
        self.members.len() as u64
    }

    fn listed(&self) -> u64 {
        self.count()
    }

    fn listed_at(&self, place: u64) -> u64 {
        place
    }
}

/// Whether a node ever had this identifier.
fn is_used(ids: &[Id], id: Id) -> bool
    ensures yes { IsTrue result → Contains (map (λ used. used.number) ids.now) id.number }
    ensures number { Contains (map (λ used. used.number) ids.now) id.number → IsTrue result }
{
    for used in ids {
        if *used == id {
            return true;
        }
    }
    false
}
