//! The operator of a server's ring.
ghost use Rattle.std.specs.Prelude.{◌≡◌, ◌≢◌, false, Err, IfOk, IfSome, OnOk};
ghost use Rattle.chord_app_operator.specs.declared.operator.refusals.CrashRefusal.TheVariants as CrashRefusals;
ghost use Rattle.chord_app_serve.specs.Shown.{store_of, AreShown, IsShownAs, Tells};

use crate::serving::caller_pool::CallerPool;
use crate::serving::desk::Desk;
use crate::serving::made_store::MadeStore;
use crate::serving::request_tally::RequestTally;
use crate::serving::sessions::Sessions;
use crate::serving::shown::holder_with;
use crate::serving::tally::Tally;
use chord_app_operator::{
    ByteCounts, CallerCounts, CrashRefusal, CrashRequest, HealthSight, Holder, JoinRefusal,
    JoinRequest, LeaveRefusal, Operator, PairsPage, PairsRequest, RescueRefusal, RingSight,
    StoredNode,
};
use chord_app_sockets::{Clients, Until};
use chord_ident::Id;
use chord_live_ring::{CrashFault, RescueFault, Ring};
use chord_live_types::LeaveFault;
use chord_model::Phase;
use chord_store::EntryStore;
use chord_table::Naming;
use std::alloc::{AllocError, Global};
use std::net::Net;
use std::sync::Wait;
use std::time::Clock;

/// Does what an operator asks for, at a server's ring.
#[derive(Drop)]
pub struct RingOperator<'t, 's, 'r, J: Naming, S: EntryStore, R> {
    pub rt: &'r R,
    pub alloc: Global,
    pub ring: &'r Ring<J, S>,
    pub pool: &'t CallerPool<'r, J, S>,
    pub clients: &'t Clients,
    pub sessions: &'t Sessions<'r, J, S, R>,
    pub tally: &'t Tally,
    pub requests: &'t RequestTally,
    pub until: Until<'s>,
    pub desk: &'t Desk<'s>,
}

impl<'t, 's, 'r, J: Naming, S: EntryStore, R: Wait + Clock> RingOperator<'t, 's, 'r, J, S, R> {
    /// A node as it looks now, if it has a slot.
    fn node_at(&self, alloc: Global, number: u64) -> Result<Option<StoredNode>, AllocError>
        ensures { IfOk result (λ found.
            IfSome found (IsShownAs number (store_of self.now.desk.now.plan.now number))) }
    {
        let Some(sight) = self.ring.sight(self.rt, alloc, number)? else {
            return Ok(None);
        };
        let store = self.desk.store_of(number);
        Ok(Some(StoredNode { sight, store }))
    }

    /// Shows the node in a slot behind the others, if there is one.
    #[tactic(auto, using(crate::proofs::Showing::shown_more))]
    fn show_slot(
        &self,
        alloc: Global,
        slot: u64,
        nodes: &mut Vec<StoredNode>,
    ) -> Result<(), AllocError>
        requires { AreShown (store_of self.now.desk.now.plan.now) nodes.old.items }
        ensures { OnOk result (AreShown (store_of self.now.desk.now.plan.now) nodes.new.items) }
    {
        let Some(number) = self.ring.number_at(slot) else {
            return Ok(());
        };
        if let Some(node) = self.node_at(alloc, number)? {
            nodes.push(node)?;
        }
        Ok(())
    }

    /// The nodes that have slots, in the order of these, each as it looks now.
    fn nodes(&self, alloc: Global) -> Result<Vec<StoredNode>, AllocError>
        ensures { IfOk result (λ nodes.
            AreShown (store_of self.now.desk.now.plan.now) nodes.items) }
    {
        let mut nodes = Vec::new(alloc);
        for slot in 0..self.ring.slot_count() {
            self.show_slot(alloc, slot, &mut nodes)?;
        }
        Ok(nodes)
    }

    /// Whether a node is staying.
    fn has_node(&self) -> bool {
        for slot in 0..self.ring.slot_count() {
            if let Some(number) = self.ring.number_at(slot) {
                if self.ring.phase_of(self.rt, number) == Some(Phase::Staying) {
                    return true;
                }
            }
        }
        false
    }

    /// Whether a client that comes now gets a caller: one that neither a connection nor a session
    /// has, or that of a session that is kept no longer.
    fn has_caller(&self) -> bool {
        let held = self
            .pool
            .serving()
            .saturating_add(self.sessions.kept(self.rt));
        held < self.ring.settings().callers as u64
            || self
                .sessions
                .can_drop(self.rt, self.desk.uptime_ms(self.rt))
    }

    /// Crashes a node if the ring allows it, or by force.
    fn crash_node(&self, request: CrashRequest) -> Result<(), CrashRefusal>
        ensures { result ≡ Err CrashRefusals.Unsafe → request.is_forced ≡ false }
    {
        match self.ring.crash_if_safe(self.rt, request.node) {
            Ok(()) => Ok(()),
            Err(CrashFault::NoSuchNode) => Err(CrashRefusal::NoSuchNode),
            Err(CrashFault::NotLive) => Err(CrashRefusal::NotLive),
            Err(CrashFault::Unsafe) if request.is_forced => self.crash_by_force(request.node),
            Err(CrashFault::Unsafe) => Err(CrashRefusal::Unsafe),
        }
    }

    /// Crashes a node without which the ring does not hold together.
    fn crash_by_force(&self, node: u64) -> Result<(), CrashRefusal>
        ensures { result ≢ Err CrashRefusals.Unsafe }
    {
        match self.ring.crash(self.rt, node) {
            Ok(()) => Ok(()),
            Err(_) => Err(CrashRefusal::NoSuchNode),
        }
    }
}

impl<'t, 's, 'r, J: Naming, S: MadeStore, R: Wait + Clock + Net> Operator
    for RingOperator<'t, 's, 'r, J, S, R> {
    ghost answers = { λ old question answer new.
        (new ≡ old) × Tells old.ring.now old.desk.now.plan.now question answer };

    fn sight(&mut self, alloc: Global) -> Result<RingSight, AllocError> {
        let ever = self.ring.node_count();
        let nodes = self.nodes(alloc)?;
        let settings = self.ring.settings();
        Ok(RingSight {
            successors: settings.successors as u64,
            slots: settings.slots as u64,
            ever,
            premise: self.ring.holds_premise(self.rt),
            callers: CallerCounts {
                open: self.pool.serving(),
                all: settings.callers as u64,
                pending: self.requests.pending(),
            },
            connections: self.clients.count(self.rt),
            ends: self.tally.ends(self.rt),
            sessions: self.tally.sessions(self.rt, self.sessions.kept(self.rt)),
            answers: self.requests.answers(),
            times: self.requests.times(alloc)?,
            bytes: ByteCounts {
                read: self.clients.bytes_read(),
                written: self.clients.bytes_written(),
            },
            process: self.desk.process(),
            uptime_ms: self.desk.uptime_ms(self.rt),
            past_forwards: self.ring.past_forwards(),
            nodes,
        })
    }

    fn health(&mut self) -> HealthSight {
        HealthSight {
            has_node: self.has_node(),
            has_caller: self.has_caller(),
            is_stopped: self.until.is_stopped(),
        }
    }

    fn join(&mut self, request: JoinRequest) -> Result<u64, JoinRefusal> {
        self.join_one(request)
    }

    fn leave(&mut self, node: u64) -> Result<(), LeaveRefusal> {
        match self.ring.leave(self.rt, node) {
            Ok(()) => Ok(()),
            Err(LeaveFault::NoSuchNode) => Err(LeaveRefusal::NoSuchNode),
            Err(LeaveFault::NotStaying) => Err(LeaveRefusal::NotStaying),
        }
    }

    fn crash(&mut self, request: CrashRequest) -> Result<(), CrashRefusal> {
        self.crash_node(request)
    }

    fn rescue(&mut self, node: u64) -> Result<(), RescueRefusal> {
        match self.ring.rescue(self.rt, node) {
            Ok(()) => Ok(()),
            Err(RescueFault::NoSuchNode) => Err(RescueRefusal::NoSuchNode),
            Err(RescueFault::NotCrashed) => Err(RescueRefusal::NotCrashed),
            Err(RescueFault::NoMember) => Err(RescueRefusal::NoMember),
            Err(RescueFault::Stopped) => Err(RescueRefusal::Stopped),
        }
    }

    /// Asks one node after another, each under its lock. A node that holds the identifier counts
    /// before a handover of it.
    fn holder(&mut self, id: Id) -> Holder {
        let mut found = Holder::Moved;
        for slot in 0..self.ring.slot_count() {
            let Some(node) = self.ring.number_at(slot) else {
                continue;
            };
            found = holder_with(found, self.ring.holding(self.rt, node, id));
            if let Holder::Node(_) = found {
                return found;
            }
        }
        found
    }

    fn pairs(&mut self, alloc: Global, request: PairsRequest) -> Result<PairsPage, AllocError> {
        match self.page_of(alloc, request) {
            Ok(page) => Ok(page),
            Err(refused) => Err(refused),
        }
    }

    fn stop(&mut self) {
        self.until.stop(self.rt);
    }
}
