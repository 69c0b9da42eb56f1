//! The nodes of a plan in a running ring.

use crate::pace::Pace;
use chord_app_plan::PlanNode;
use chord_app_text::{Fault, Finish};
use chord_live_ring::{CreateFault, JoinFault, NoProbe, Ring, Round, TickFault};
use chord_model::Phase;
use chord_store::EntryStore;
use chord_table::Naming;
use std::sync::Wait;
use std::thread::{Scope, Threads};
use std::time::Clock;

/// How many rounds of upkeep follow each node that joins.
const ROUNDS: u64 = 8;

/// Adds a node of the plan to the ring, by way of node 0. A node that the ring refuses is a fault
/// of the plan.
fn enter<J: Naming, S: EntryStore>(
    rt: &impl Wait,
    ring: &Ring<J, S>,
    number: usize,
    node: &PlanNode,
    store: S,
) -> Result<(), Finish> {
    if store.count() != 0 {
        return Err(Finish::Fault(Fault::Node(number)));
    }
    if number == 0 {
        return match ring.create(rt, node.id, store) {
            Ok(_) => Ok(()),
            Err((CreateFault::Memory, _)) => Err(Finish::OutOfMemory),
            Err(_) => Err(Finish::Fault(Fault::Node(number))),
        };
    }
    match ring.join(rt, node.id, 0, store) {
        Ok(_) => Ok(()),
        Err((JoinFault::Memory, _)) => Err(Finish::OutOfMemory),
        Err(_) => Err(Finish::Fault(Fault::Node(number))),
    }
}

/// Retires a node that is leaving and holds nothing any more, if the ring stands without it. The
/// round is busy if it retired.
fn retire_if_empty<J: Naming, S: EntryStore>(
    rt: &impl Wait,
    ring: &Ring<J, S>,
    number: u64,
) -> Round {
    if ring.phase_of(rt, number) == Some(Phase::Leaving) && ring.retire(rt, number).is_ok() {
        Round::Busy
    } else {
        Round::Quiet
    }
}

/// One round of upkeep of all nodes that there are. Out of memory leaves the rest of a node's round
/// for the next one. None if the ring was stopped. While the round is quiet, whoever else wants the
/// processor has it between two nodes, so that no request waits for a whole round.
fn tick_round<J: Naming, S: EntryStore>(rt: &impl Wait, ring: &Ring<J, S>) -> Option<Round> {
    let mut all = Round::Quiet;
    for slot in 0..ring.slot_count() {
        let Some(number) = ring.number_at(slot) else {
            continue;
        };
        let round = match ring.tick(rt, number) {
            Ok(round) => round,
            Err(TickFault::Stopped) => return None,
            Err(_) => Round::Busy,
        };
        all = all.with(round).with(retire_if_empty(rt, ring, number));
        if all == Round::Quiet {
            std::thread::yield_now();
        }
    }
    Some(all)
}

/// Why the ring refused this node: an earlier one has its identifier, or another reason.
fn refusal_of(nodes: &[PlanNode], number: usize) -> Finish {
    let Some(node) = nodes.get(number) else {
        return Finish::Fault(Fault::Node(number));
    };
    match nodes
        .iter()
        .take(number)
        .position(|other| other.id == node.id)
    {
        Some(first) => Finish::Fault(Fault::SameId { number, first }),
        None => Finish::Fault(Fault::Node(number)),
    }
}

/// Starts the threads that work for the nodes of a ring, one for each node.
#[derive(Drop)]
pub struct Workers<'s, E, J: Naming, S: EntryStore, R> {
    pub rt: &'s R,
    pub ring: &'s Ring<J, S>,
    pub scope: &'s Scope<'s, E>,
}

impl<
    's,
    E: 's,
    J: Naming + Send + Sync + 's,
    S: EntryStore + Send + 's,
    R: Threads + Wait + Clock + Sync + 's,
> Workers<'s, E, J, S, R> {
    /// Starts the worker of a node. Says false if there was no memory for that.
    fn start(&self, number: u64) -> bool {
        let (rt, ring) = (self.rt, self.ring);
        self.scope
            .spawn(move || ring.work(rt, number, &NoProbe).is_ok())
            .is_ok()
    }

    /// Starts the workers of the nodes that have none. A node leaves if there is no memory for its
    /// worker. Says whether there was.
    fn start_all(&self) -> bool {
        let mut is_enough = true;
        for slot in 0..self.ring.slot_count() {
            if let Some(number) = self.ring.without_worker(slot) {
                if !self.start(number) {
                    let _ = self.ring.leave(self.rt, number).is_ok();
                    is_enough = false;
                }
            }
        }
        is_enough
    }

    /// Ticks all nodes in rounds until the ring is stopped, and starts a worker for each that
    /// joins. It rests between rounds, the longer the quieter they are, until a node comes, leaves
    /// or crashes.
    pub fn tick_in_turn(&self) {
        let mut pace = Pace::new();
        for _ in self.rt.forever() {
            let _ = self.start_all();
            let Some(round) = tick_round(self.rt, self.ring) else {
                return;
            };
            pace = pace.after(round);
            if self.ring.rest(self.rt, pace.rest()) {
                pace = Pace::new();
            }
        }
    }

    /// Adds a node, starts its worker, and does eight rounds of upkeep.
    fn start_node(&self, number: usize, node: &PlanNode, store: S) -> Result<(), Finish> {
        enter(self.rt, self.ring, number, node, store)?;
        if !self.start_all() {
            return Err(Finish::OutOfMemory);
        }
        for _ in 0..ROUNDS {
            tick_round(self.rt, self.ring);
        }
        Ok(())
    }

    /// Adds the nodes in their order.
    pub fn start_nodes(&self, nodes: &[PlanNode], stores: Vec<S>) -> Result<(), Finish> {
        for (number, (node, store)) in nodes.iter().zip(stores).enumerate() {
            match self.start_node(number, node, store) {
                Ok(()) => {}
                Err(Finish::Fault(Fault::Node(number))) => return Err(refusal_of(nodes, number)),
                Err(finish) => return Err(finish),
            }
        }
        Ok(())
    }
}
