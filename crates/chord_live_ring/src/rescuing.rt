//! Rescue: a node that crashed hands over what it holds, by the steps of a node that leaves.

use crate::fault::{RescueFault, RingRetireFault};
use crate::ring::Ring;
use crate::round::Round;
use crate::slot::SlotState;
use chord_node::{Phase, RetireFault};
use chord_store::EntryStore;
use chord_table::Naming;
use std::alloc::AllocError;
use std::sync::Wait;

impl<J: Naming, S: EntryStore> Ring<J, S> {
    /// A node that crashed is rescued: from then on it hands over what it holds, as a node that
    /// leaves, and answers as such a node does. It is no member of the ring, and its place there
    /// does not come back.
    pub fn rescue(&self, rt: &impl Wait, number: u64) -> Result<(), RescueFault> {
        let Some(slot) = self.slot_of(number) else {
            return Err(RescueFault::NoSuchNode);
        };
        if self.is_stopped() {
            return Err(RescueFault::Stopped);
        }
        if !slot.state.lock(rt).is_halted() {
            return Err(RescueFault::NotCrashed);
        }
        if !self.some_node_stays(rt) {
            return Err(RescueFault::NoMember);
        }
        let mut guard = slot.state.lock(rt);
        if !guard.has(number) || !guard.rescue(&self.table) {
            return Err(RescueFault::NotCrashed);
        }
        drop(guard);
        self.stir(rt);
        Ok(())
    }

    /// Whether some node stays.
    fn some_node_stays(&self, rt: &impl Wait) -> bool {
        (0..self.slot_count()).any(|slot| match self.number_at(slot) {
            Some(number) => self.phase_of(rt, number) == Some(Phase::Staying),
            None => false,
        })
    }

    /// Sends handovers of a rescued node again, and gives away a piece of its first held segment, to
    /// the node that it belongs to as a member finds it.
    pub(crate) fn maintain_rescued(
        &self,
        rt: &impl Wait,
        number: u64,
    ) -> Result<Round, AllocError> {
        let sent = self.maintain_outbox(rt, number)?;
        let Some(end) = self.end_at_leaving(rt, number) else {
            return Ok(sent);
        };
        let via = self.live_from(number);
        let given = self.give_to_holder(rt, number, via, 0, end)?;
        Ok(sent.with(given))
    }

    /// Retires a rescued node that holds nothing and has an empty outbox. None if the node is not
    /// one that is rescued.
    pub(crate) fn retire_rescued(
        &self,
        rt: &impl Wait,
        number: u64,
    ) -> Option<Result<(), RingRetireFault>> {
        let slot = self.slot_of(number)?;
        match &mut *slot.state.lock(rt) {
            SlotState::Here(seated) if seated.number() == number && seated.has_crashed() => {
                Some(match seated.retire_rescued(&self.table) {
                    Ok(()) => Ok(()),
                    Err(RetireFault::NotLeaving) => Err(RingRetireFault::NotLeaving),
                    Err(RetireFault::NotEmpty) => Err(RingRetireFault::NotEmpty),
                })
            }
            _ => None,
        }
    }
}
