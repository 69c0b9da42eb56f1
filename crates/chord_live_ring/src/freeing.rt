//! Slots that are used again.
ghost use Rattle.std.specs.Prelude.{◌≡◌, ◌++◌, ◌∷◌, ◌<◌, [], false, true, IfSome};
ghost use Rattle.chord_live_ring.specs.declared.slot.SlotState.TheVariants.{Here, Vacant};
ghost use Rattle.chord_live_ring.specs.Sights.{shown_of};
ghost use Rattle.chord_live_steps.specs.Departures.{AreOut};
ghost use Rattle.chord_model.specs.declared.phase.Phase.TheVariants.{Gone};
ghost use Rattle.chord_table.specs.Views.{as_actor};

use crate::ring::Ring;
use crate::slot::SlotState;
use chord_live_steps::Numbers;
use chord_node::Phase;
use chord_store::EntryStore;
use chord_table::Naming;
use std::sync::Wait;
use std::sync::atomic::Ordering;

impl<J: Naming, S: EntryStore> Ring<J, S> {
    /// The index of a slot for the next node: one that is vacant, or that of a node that is gone
    /// and that no handover waits for. Who calls it has the register's lock.
    pub(crate) fn slot_for(&self, rt: &impl Wait, numbers: &mut Numbers<J>) -> Option<usize>
        ensures slot { IfSome result (λ index. index < J.name.slots) }
        ensures out { AreOut numbers.old.taken → AreOut numbers.new.taken }
        ensures same { numbers.new ≡ record numbers.old { taken = numbers.new.taken } }
    {
        match self.vacant_for(numbers.nodes() as u64) {
            Some(index) => Some(index),
            None => self.free_one(rt, numbers),
        }
    }

    /// Frees the first slot whose node is gone and that no handover waits for.
    fn free_one(&self, rt: &impl Wait, numbers: &mut Numbers<J>) -> Option<usize>
        ensures slot { IfSome result (λ index. index < J.name.slots) }
        ensures out { AreOut numbers.old.taken → AreOut numbers.new.taken }
        ensures same { numbers.new ≡ record numbers.old { taken = numbers.new.taken } }
    {
        for index in 0..self.slots.len() {
            if self.free(rt, numbers, index) {
                return Some(index);
            }
        }
        None
    }

    /// Frees a slot, if its node is gone, no outbox has an item for it and no member's links name it.
    /// From then on none comes anew, since nothing is given to a node that is gone: so the outboxes
    /// are looked at one after another. Envelopes that wait in the slot are dropped: whoever sent a
    /// request sends it again.
    fn free(&self, rt: &impl Wait, numbers: &mut Numbers<J>, index: usize) -> bool
        requires { index < J.name.slots }
        ensures out { AreOut numbers.old.taken → AreOut numbers.new.taken }
        ensures same { numbers.new ≡ record numbers.old { taken = numbers.new.taken } }
        ensures kept { result ≡ false → numbers.new ≡ numbers.old }
    {
        let slot = &self.slots[index];
        let Some(number) = self.number_at(index as u64) else {
            return false;
        };
        if !slot.state.lock(rt).is_gone(number) {
            return false;
        }
        if self.is_awaited(rt, number) || self.is_named(rt, number) {
            return false;
        }
        let mut guard = slot.state.lock(rt);
        if !self.vacate(numbers, &mut *guard, number) {
            return false;
        }
        slot.number.store(0, Ordering::SeqCst);
        drop(guard);
        for _ in 0..u64::MAX {
            match slot.envelopes.try_recv(rt) {
                Ok(envelope) => drop(envelope),
                Err(_) => break,
            }
        }
        true
    }

    /// Whether the outbox of some node has an item for the node of this number.
    fn is_awaited(&self, rt: &impl Wait, number: u64) -> bool {
        self.slots
            .iter()
            .any(|slot| slot.state.lock(rt).gives_to(number))
    }

    /// Whether the links of some member name the node of this number, at a look at one member after
    /// another.
    fn is_listed(&self, rt: &impl Wait, number: u64) -> bool {
        self.slots
            .iter()
            .any(|slot| slot.state.lock(rt).names(number))
    }

    /// Whether the links of some member name the node of this number, which is gone: a member drops
    /// such a first entry, and forgets such a predecessor, only while that has its slot. A list that
    /// is copied has an entry one place farther back, so one that moves from list to list during
    /// each of these looks is in none after the last.
    fn is_named(&self, rt: &impl Wait, number: u64) -> bool {
        for _ in 0..self.settings.successors {
            if self.is_listed(rt, number) {
                return true;
            }
        }
        self.is_listed(rt, number)
    }

    /// Makes a slot vacant if it has the node of this number, and that is gone. Its seat stays with
    /// the registrar's for good.
    #[tactic(auto, using(crate::proofs::Departures::gone_stays))]
    fn vacate(&self, numbers: &mut Numbers<J>, state: &mut SlotState<J, S>, number: u64) -> bool
        ensures out { AreOut numbers.old.taken → AreOut numbers.new.taken }
        ensures same { numbers.new ≡ record numbers.old { taken = numbers.new.taken } }
        ensures done { result ≡ true → (seated : _) × (state.old ≡ Here seated) × (seated.node.number ≡ number) × (seated.node.phase ≡ Gone)
            × (state.new ≡ Vacant) × (numbers.new.taken ≡ numbers.old.taken ++ as_actor (shown_of seated) ∷ []) }
        ensures kept { result ≡ false → (state.new ≡ state.old) × (numbers.new ≡ numbers.old) }
    {
        if numbers.held() >= numbers.nodes() {
            return false;
        }
        match std::mem::replace(state, SlotState::Vacant) {
            SlotState::Here(seated) => {
                if seated.number() == number && seated.phase() == Phase::Gone {
                    self.past_forwards
                        .fetch_add(seated.counts.asks.forwarded, Ordering::SeqCst);
                    numbers.take_node(&self.table, seated.into_seat());
                    return true;
                }
                drop(std::mem::replace(state, SlotState::Here(seated)));
            }
            other => drop(std::mem::replace(state, other)),
        }
        false
    }
}
