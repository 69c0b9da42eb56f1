//! Nodes that depart: a crash or a retirement is judged under the locks of all nodes.
ghost use Rattle.std.specs.Prelude.{◌≡◌, ◌≢◌, ◌≤◌, ◌<◌, ◌+◌, ◌^◌, false, true, length, map, OnOk, OnErr};
ghost use Rattle.chord_live_ring.specs.declared.slot.SlotState.TheVariants.{Here, Crashed};
ghost use Rattle.chord_live_ring.specs.Departures.{LeavesEmpty, crashed_after, node_after, seated_after};
ghost use Rattle.chord_live_steps.specs.Departures.{MayDepart, departed, rows_among};
ghost use Rattle.chord_live_steps.specs.declared.departure.Departure.TheVariants.{Crash};

use crate::board::Board;
use crate::fault::{CrashFault, DepartFault, RingRetireFault};
use crate::register::Register;
use crate::ring::Ring;
use crate::seated_node::SeatedNode;
use crate::slot::SlotState;
use chord_live_steps::{Departure, Numbers};
use chord_live_types::NoSuchNode;
use chord_node::Node;
use chord_store::EntryStore;
use chord_table::Naming;
use std::sync::Wait;
use std::sync::atomic::Ordering;

impl<J: Naming, S: EntryStore> Ring<J, S> {
    /// Retires a leaving node that holds nothing and has an empty outbox, if the ring holds
    /// together without it. It is judged under the locks of all nodes, but for a node that is
    /// rescued, which is no member.
    pub fn retire(&self, rt: &impl Wait, number: u64) -> Result<(), RingRetireFault> {
        if !self.has_slot(number) {
            return Err(RingRetireFault::NoSuchNode);
        }
        if let Some(retired) = self.retire_rescued(rt, number) {
            if retired.is_ok() {
                self.stir(rt);
            }
            return retired;
        }
        let mut register = self.register.lock(rt);
        Ok(self.depart(rt, &mut *register, Departure::Retire(number))?)
    }

    /// Crashes a node if the ring holds together without it: it takes no further step, others find
    /// it dead, and its store stays as it is. It is judged under the locks of all nodes.
    pub fn crash_if_safe(&self, rt: &impl Wait, number: u64) -> Result<(), CrashFault> {
        if !self.has_slot(number) {
            return Err(CrashFault::NoSuchNode);
        }
        let mut register = self.register.lock(rt);
        Ok(self.depart(rt, &mut *register, Departure::Crash(number))?)
    }

    /// Crashes a node, as `crash_if_safe` does, and by force where the ring would not hold together
    /// without it: the premise of the ring is gone for good then. A node that crashed or is gone
    /// stays as it is.
    pub fn crash(&self, rt: &impl Wait, number: u64) -> Result<(), NoSuchNode> {
        if !self.has_slot(number) {
            return Err(NoSuchNode);
        }
        let mut register = self.register.lock(rt);
        let Some(slot) = self.slot_of(number) else {
            return Err(NoSuchNode);
        };
        let judged = self.depart(rt, &mut *register, Departure::Crash(number));
        if judged == Err(DepartFault::Unsafe) {
            let mut guard = slot.state.lock(rt);
            if guard.has(number) {
                slot.live.store(false, Ordering::SeqCst);
                self.crash_by_force(&mut *register, &mut *guard);
            }
            drop(guard);
            self.stir(rt);
        }
        Ok(())
    }

    /// Whether the ring allowed each crash so far.
    pub fn holds_premise(&self, rt: &impl Wait) -> bool {
        self.register.lock(rt).numbers.holds_premise()
    }

    /// Crashes the node of a slot, if it has one that did not crash, and asks nobody.
    fn crash_by_force(&self, register: &mut Register<J>, state: &mut SlotState<J, S>)
        ensures live { (seated : _) → state.old ≡ Here seated → seated.crashed ≡ false → state.new ≡ Crashed (record seated { crashed = true }) }
        ensures rescued { (seated : _) → state.old ≡ Here seated → seated.crashed ≡ true → state.new ≡ state.old }
        ensures other { ((seated : _) → state.old ≢ Here seated) → state.new ≡ state.old }
    {
        let place = std::mem::replace(state, SlotState::Vacant);
        let left = place.crashed_by_force(&mut register.numbers, &self.table);
        drop(std::mem::replace(state, left));
    }

    /// A node departs, if the ring of the others is safe.
    fn depart(
        &self,
        rt: &impl Wait,
        register: &mut Register<J>,
        departure: Departure,
    ) -> Result<(), DepartFault> {
        let mut board = self.board.lock(rt);
        board.clear();
        self.depart_from(rt, &mut register.numbers, &mut *board, departure, 0)?;
        drop(board);
        self.stir(rt);
        Ok(())
    }

    /// Takes the seats of the nodes in the slots from this one on under their locks, decides, and
    /// gives the seats back.
    #[cycle(depart)]
    fn depart_from(
        &self,
        rt: &impl Wait,
        numbers: &mut Numbers<J>,
        board: &mut Board<J>,
        departure: Departure,
        at: usize,
    ) -> Result<(), DepartFault>
        requires few { length board.old ≤ at }
        requires board { board.old ≡ rows_among numbers.old.taken }
        requires may { MayDepart departure numbers.old.taken }
        ensures done { OnOk result (numbers.new ≡ record numbers.old { taken = map (departed departure) numbers.old.taken }) }
        ensures kept { OnErr result (numbers.new ≡ numbers.old) }
    {
        let Some(slot) = self.slots.get(at) else {
            return self.judge(numbers, board, departure);
        };
        let mut guard = slot.state.lock(rt);
        self.lend_in(rt, numbers, board, departure, at, &mut *guard)?;
        if guard.has(departure.number()) {
            slot.live.store(false, Ordering::SeqCst);
        }
        Ok(())
    }

    /// Takes the seat of the node in a slot, as `lend` does; a vacant slot is passed over. A node
    /// that crashes so acts no more.
    #[cycle(depart)]
    fn lend_in(
        &self,
        rt: &impl Wait,
        numbers: &mut Numbers<J>,
        board: &mut Board<J>,
        departure: Departure,
        at: usize,
        state: &mut SlotState<J, S>,
    ) -> Result<(), DepartFault>
        requires slot { at < J.name.slots }
        requires next { at + 1 < 2 ^ 64 }
        requires few { length board.old ≤ at }
        requires board { board.old ≡ rows_among numbers.old.taken }
        requires may { MayDepart departure numbers.old.taken }
        ensures done { OnOk result (numbers.new ≡ record numbers.old { taken = map (departed departure) numbers.old.taken }) }
        ensures kept { OnErr result (numbers.new ≡ numbers.old) }
        ensures halted { OnOk result ((seated : _) → state.old ≡ Here seated → departure ≡ Crash seated.node.number
            → state.new ≡ Crashed (record seated { crashed = true })) }
    {
        match state {
            SlotState::Vacant => self.depart_from(rt, numbers, board, departure, at + 1),
            SlotState::Crashed(seated) => self.lend(rt, numbers, board, departure, at, seated),
            SlotState::Here(seated) => {
                let number = seated.number();
                self.lend(rt, numbers, board, departure, at, seated)?;
                if departure == Departure::Crash(number) {
                    state.halt();
                }
                Ok(())
            }
        }
    }

    /// Decides, with the seats of the nodes in all slots and of those that are gone for good.
    fn judge(
        &self,
        numbers: &mut Numbers<J>,
        board: &Board<J>,
        departure: Departure,
    ) -> Result<(), DepartFault>
        requires board { board.now ≡ rows_among numbers.old.taken }
        requires may { MayDepart departure numbers.old.taken }
        ensures done { OnOk result (numbers.new ≡ record numbers.old { taken = map (departed departure) numbers.old.taken }) }
        ensures kept { OnErr result (numbers.new ≡ numbers.old) }
    {
        if numbers.depart(&self.table, board.rows(), departure) {
            Ok(())
        } else {
            Err(DepartFault::Unsafe)
        }
    }

    /// Takes the seat of a node, goes on with the next slot, and gives the seat back. The node is
    /// then as the departure leaves it.
    #[cycle(depart)]
    fn lend(
        &self,
        rt: &impl Wait,
        numbers: &mut Numbers<J>,
        board: &mut Board<J>,
        departure: Departure,
        at: usize,
        seated: &mut SeatedNode<J, S>,
    ) -> Result<(), DepartFault>
        requires slot { at < J.name.slots }
        requires few { length board.old ≤ at }
        requires board { board.old ≡ rows_among numbers.old.taken }
        requires may { MayDepart departure numbers.old.taken }
        ensures done { OnOk result (numbers.new ≡ record numbers.old { taken = map (departed departure) numbers.old.taken }) }
        ensures kept { OnErr result (numbers.new ≡ numbers.old) }
        ensures left { OnOk result (seated.new ≡ seated_after departure seated.old) }
        ensures same { OnErr result (seated.new ≡ seated.old) }
    {
        if numbers.held() >= numbers.nodes() {
            return Err(DepartFault::Unsafe);
        }
        if let Some(fault) = seated.departure_fault(departure) {
            return Err(fault);
        }
        let Some(seat) = std::mem::replace(&mut seated.seat, None) else {
            unreachable!()
        };
        board.post(&seated.node, seated.crashed);
        numbers.take_node(&self.table, seat);
        match self.depart_from(rt, numbers, board, departure, at + 1) {
            Ok(()) => {
                depart_node(departure, &mut seated.node, &mut seated.crashed);
                seated.seat = Some(numbers.give_node(&self.table, at));
                Ok(())
            }
            Err(fault) => {
                seated.seat = Some(numbers.give_node(&self.table, at));
                Err(fault)
            }
        }
    }
}

/// What a departure leaves of a node, if it is the one that departs.
#[tactic(auto, using(crate::proofs::Departures::stays_node, crate::proofs::Departures::stays_crashed))]
fn depart_node<S: EntryStore>(departure: Departure, node: &mut Node<S>, crashed: &mut bool)
    requires { LeavesEmpty departure node.old }
    ensures node { node.new ≡ node_after departure node.old }
    ensures crashed { crashed.new ≡ crashed_after departure node.old.number crashed.old }
{
    if departure.number() != node.number() {
        return;
    }
    match departure {
        Departure::Crash(_) => *crashed = true,
        Departure::Retire(_) => {
            let Ok(()) = node.retire() else {
                unreachable!()
            };
        }
    }
}
