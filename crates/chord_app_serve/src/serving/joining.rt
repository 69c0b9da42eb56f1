//! Nodes that join a server's ring.
ghost use Rattle.std.specs.Prelude.{◌≢◌, ◌≤◌, Err, IfOk};
ghost use Rattle.chord_app_operator.specs.declared.operator.refusals.JoinRefusal.TheVariants as JoinRefusals;
ghost use Rattle.chord_app_serve.specs.Made.{NoStoreIs};

use crate::gap::free_id;
use crate::serving::made_store::{MadeStore, fits_spare};
use crate::serving::operator::RingOperator;
use chord_app_operator::{JoinRefusal, JoinRequest};
use chord_ident::Id;
use chord_live_types::JoinFault;
use chord_table::Naming;
use std::alloc::AllocError;
use std::hash::{BuildHasher, Hasher};
use std::sync::Wait;
use std::sync::atomic::Ordering;
use std::time::Clock;

/// Why a node does not join that the ring refuses.
fn refusal_of(fault: JoinFault) -> JoinRefusal
    ensures { result ≢ JoinRefusals.NoStore }
{
    match fault {
        JoinFault::Stopped => JoinRefusal::Stopped,
        JoinFault::NoSlot => JoinRefusal::NoSlot,
        JoinFault::IdTaken => JoinRefusal::IdTaken,
        JoinFault::NoSuchNode => JoinRefusal::NoSuchNode,
        JoinFault::Unsettled => JoinRefusal::Unsettled,
        JoinFault::Memory => JoinRefusal::Memory,
    }
}

impl<'t, 's, 'r, J: Naming, S: MadeStore, R: Wait + Clock> RingOperator<'t, 's, 'r, J, S, R> {
    /// The identifiers of the members.
    fn live_ids(&self) -> Result<Vec<Id>, AllocError> {
        let mut ids = Vec::new(self.alloc);
        for slot in 0..self.ring.slot_count() {
            let Some(number) = self.ring.number_at(slot) else {
                continue;
            };
            if self.ring.is_live(number) {
                if let Some(links) = self.ring.links_of(self.rt, number) {
                    ids.push(links.me().id)?;
                }
            }
        }
        Ok(ids)
    }

    /// A number that nobody outside knows, another one each time.
    fn draw(&self) -> u64 {
        let Some(door) = &self.desk.door else {
            return 0;
        };
        let mut hasher = door.keys.build_hasher();
        hasher.write_u64(self.desk.draws.fetch_add(1, Ordering::SeqCst));
        hasher.finish()
    }

    /// The identifier that the node asks for, or else a free one by the middle of the widest gap
    /// between members.
    fn id_for(&self, request: JoinRequest) -> Result<Id, JoinRefusal>
        ensures { result ≢ Err JoinRefusals.NoStore }
    {
        if let Some(id) = request.id {
            return Ok(id);
        }
        let Ok(ids) = self.live_ids() else {
            return Err(JoinRefusal::Memory);
        };
        match free_id(&ids, self.draw()) {
            Some(id) => Ok(id),
            None => Err(JoinRefusal::Unsettled),
        }
    }

    /// The node by way of which one joins: the one that it asks for, or else the first member.
    fn via_for(&self, request: JoinRequest) -> u64 {
        if let Some(via) = request.via {
            return via;
        }
        for slot in 0..self.ring.slot_count() {
            if let Some(number) = self.ring.number_at(slot) {
                if self.ring.is_live(number) {
                    return number;
                }
            }
        }
        0
    }

    /// Makes a node join, with a store of the plan's kind that is made for it. Who ticks the nodes
    /// starts its worker.
    pub fn join_one(&self, request: JoinRequest) -> Result<u64, JoinRefusal>
        ensures number { IfOk result (λ number. 1 ≤ number) }
        ensures store { NoStoreIs request self.now.desk.now.plan.now.spare result }
    {
        let kind = self.desk.plan.spare;
        if !fits_spare(request, kind) {
            return Err(JoinRefusal::NoStore);
        }
        let id = match self.id_for(request) {
            Ok(id) => id,
            Err(refusal) => return Err(refusal),
        };
        let store = S::make(self.alloc, kind);
        match self.ring.join(self.rt, id, self.via_for(request), store) {
            Ok(peer) => Ok(peer.number),
            Err((fault, store)) => {
                drop(store);
                Err(refusal_of(fault))
            }
        }
    }
}
