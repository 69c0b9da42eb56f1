//! How nodes hand segments over: in pieces, a handover at a time to each receiver.
ghost use Rattle.std.specs.Prelude.{◌≡◌, ◌≢◌, OnOk};
ghost use Rattle.chord_live_ring.specs.declared.slot.SlotState.TheVariants.{Here};
ghost use Rattle.chord_model.specs.declared.phase.Phase.TheVariants.{Gone};

use crate::reader::RingReader;
use crate::ring::Ring;
use crate::round::Round;
use crate::slot::SlotState;
use chord_ident::Id;
use chord_links::Links;
use chord_live_steps::Target;
use chord_node::{GiveFault, Phase, ResendPartFault};
use chord_route::find_successor;
use chord_store::EntryStore;
use chord_table::{Envelope, Naming, Shared};
use std::alloc::AllocError;
use std::sync::Wait;
use std::sync::atomic::Ordering;

/// A piece of a held segment that a node is to hand over.
#[derive(Clone, Copy)]
struct Handing {
    /// The number of the node that gives it.
    from: u64,
    /// The index of the segment there.
    place: usize,
    /// Where the segment ends.
    end: Id,
    /// The number of the node that gets it.
    to: u64,
}

/// The pairs of a handover: more than half as many and at most as many, but for more of one
/// identifier. A node's lock is held for one of them at a time, at its giver and at its receiver. So
/// many go over in half a millisecond, and a call for one of them is sent again 0.2, 0.6 and 1.4 ms
/// after the first time.
const PIECE_PAIRS: u64 = 512;

/// How many parts a tick sends again at most.
const PARTS_A_TICK: u64 = 16;

/// Puts a piece into the outbox of the node in a slot, for the one in another slot: that acts and
/// is not gone, so a node that is gone gets no new item. None is put there if one that waits goes
/// to the same node: what is in an outbox is held by nobody.
fn give_beside<J: Naming, S: EntryStore>(
    table: &Shared<J>,
    mine: &mut SlotState<J, S>,
    theirs: &SlotState<J, S>,
    handing: Handing,
) -> Result<(u64, Envelope<J>), GiveFault>
    ensures from { OnOk result ((seated : _) × (mine.old ≡ Here seated) × (seated.node.number ≡ handing.from)) }
    ensures to { OnOk result ((other : _) × (theirs.now ≡ Here other) × (other.node.number ≡ handing.to) × (other.node.phase ≢ Gone)) }
{
    let Handing {
        from,
        place,
        end,
        to,
    } = handing;
    if !theirs.takes(to) {
        return Err(GiveFault::NoSegment);
    }
    match mine {
        SlotState::Here(seated) if seated.number() == from => {
            if seated.end_of(place) != Some(end) || seated.gives_to(to) {
                return Err(GiveFault::NoSegment);
            }
            seated.give_piece(table, place, to, PIECE_PAIRS)
        }
        _ => Err(GiveFault::NoSegment),
    }
}

impl<J: Naming, S: EntryStore> Ring<J, S> {
    /// Gives a piece of the held segment at this index, which ends here, to the node that it
    /// belongs to as a lookup from `via` finds it, if that stays.
    pub(crate) fn give_to_holder(
        &self,
        rt: &impl Wait,
        number: u64,
        via: u64,
        place: usize,
        end: Id,
    ) -> Result<Round, AllocError> {
        let reader = RingReader { ring: self, rt };
        let Ok(peer) = find_successor(&reader, via, end) else {
            return Ok(Round::Quiet);
        };
        if peer.number == number || self.phase_of(rt, peer.number) != Some(Phase::Staying) {
            return Ok(Round::Quiet);
        }
        let handing = Handing {
            from: number,
            place,
            end,
            to: peer.number,
        };
        self.give(rt, handing)
    }

    /// Gives the piece, if the segment still ends there, and sends all its parts.
    fn give(&self, rt: &impl Wait, handing: Handing) -> Result<Round, AllocError> {
        match self.give_first(rt, handing) {
            Ok((item, envelope)) => {
                let Handing { from, to, .. } = handing;
                self.post(rt, Target::Node(to), envelope);
                self.send_parts(rt, from, to, item, 2, u64::MAX)?;
                Ok(Round::Busy)
            }
            Err(GiveFault::Memory) => Err(AllocError),
            Err(_) => Ok(Round::Quiet),
        }
    }

    /// Puts a piece into the outbox under both nodes' locks, the lower slot first.
    fn give_first(
        &self,
        rt: &impl Wait,
        handing: Handing,
    ) -> Result<(u64, Envelope<J>), GiveFault> {
        let Some(from) = self.index_of(handing.from) else {
            return Err(GiveFault::NoSegment);
        };
        let Some(to) = self.index_of(handing.to) else {
            return Err(GiveFault::NoSegment);
        };
        let (giver, receiver) = (&self.slots[from].state, &self.slots[to].state);
        if from == to {
            return Err(GiveFault::NoSegment);
        }
        if from < to {
            let mut mine = giver.lock(rt);
            let theirs = receiver.lock(rt);
            give_beside(&self.table, &mut *mine, &*theirs, handing)
        } else {
            let theirs = receiver.lock(rt);
            let mut mine = giver.lock(rt);
            give_beside(&self.table, &mut *mine, &*theirs, handing)
        }
    }

    /// Sends parts of an outbox item, from this one on, `most` at most. Answers whether it sent
    /// that many, so that there may be more.
    fn send_parts(
        &self,
        rt: &impl Wait,
        number: u64,
        to: u64,
        item: u64,
        first: u64,
        most: u64,
    ) -> Result<bool, AllocError> {
        for part in first..first.saturating_add(most) {
            match self.resend(rt, number, to, item, part) {
                Ok(envelope) => self.post(rt, Target::Node(to), envelope),
                Err(ResendPartFault::NoPart) => return Ok(false),
                Err(ResendPartFault::Memory) => return Err(AllocError),
            }
        }
        Ok(true)
    }

    fn resend(
        &self,
        rt: &impl Wait,
        number: u64,
        to: u64,
        item: u64,
        part: u64,
    ) -> Result<Envelope<J>, ResendPartFault> {
        let Some(slot) = self.slot_of(number) else {
            return Err(ResendPartFault::NoPart);
        };
        match &mut *slot.state.lock(rt) {
            SlotState::Here(seated) if seated.number() == number => {
                seated.resend_part(&self.table, to, item, part)
            }
            _ => Err(ResendPartFault::NoPart),
        }
    }

    /// The end of the first held segment of a node that is leaving or rescued.
    pub(crate) fn end_at_leaving(&self, rt: &impl Wait, number: u64) -> Option<Id> {
        let slot = self.slot_of(number)?;
        match &*slot.state.lock(rt) {
            SlotState::Here(seated)
                if seated.number() == number && seated.phase() == Phase::Leaving => {
                seated.end_of(0)
            }
            _ => None,
        }
    }

    /// The first entry of a list that is another node, and stays.
    fn heir(&self, rt: &impl Wait, links: &Links) -> Option<u64> {
        let me = links.me();
        for peer in links.list().entries() {
            if peer.number != me.number && self.phase_of(rt, peer.number) == Some(Phase::Staying) {
                return Some(peer.number);
            }
        }
        None
    }

    /// Gives away a piece of the first held segment of a leaving node.
    pub(crate) fn maintain_leaving(
        &self,
        rt: &impl Wait,
        number: u64,
    ) -> Result<Round, AllocError> {
        let Some(end) = self.end_at_leaving(rt, number) else {
            return Ok(Round::Quiet);
        };
        let Some(links) = self.links_of(rt, number) else {
            return Ok(Round::Quiet);
        };
        match self.heir(rt, &links) {
            Some(to) => {
                let handing = Handing {
                    from: number,
                    place: 0,
                    end,
                    to,
                };
                self.give(rt, handing)
            }
            None => Ok(Round::Quiet),
        }
    }

    fn outbox_item(&self, rt: &impl Wait, number: u64, place: u64) -> Option<(u64, u64)> {
        let slot = self.slot_of(number)?;
        match &*slot.state.lock(rt) {
            SlotState::Here(seated) if seated.number() == number => seated.outbox_item(place),
            _ => None,
        }
    }

    /// Whether a node hands something over to a node that did not crash.
    fn hands_over(&self, rt: &impl Wait, number: u64) -> bool {
        for place in 0..u64::MAX {
            let Some((to, _)) = self.outbox_item(rt, number, place) else {
                return false;
            };
            if self.phase_of(rt, to).is_some() {
                return true;
            }
        }
        false
    }

    /// The receiver and the number of the outbox item that is sent again next, and its part. Behind
    /// the last item it begins anew at the first.
    fn next_again(&self, rt: &impl Wait, number: u64) -> Option<(u64, u64, u64)> {
        let slot = self.slot_of(number)?;
        let place = slot.again_item.load(Ordering::SeqCst);
        if let Some((to, item)) = self.outbox_item(rt, number, place) {
            return Some((to, item, slot.again_part.load(Ordering::SeqCst)));
        }
        slot.again_item.store(0, Ordering::SeqCst);
        slot.again_part.store(1, Ordering::SeqCst);
        let (to, item) = self.outbox_item(rt, number, 0)?;
        Some((to, item, 1))
    }

    /// Goes on by the next parts of the outbox item that was sent again, or by the next item.
    fn go_on_again(&self, number: u64, has_more: bool) {
        let Some(slot) = self.slot_of(number) else {
            return;
        };
        let (item, part) = (
            slot.again_item.load(Ordering::SeqCst),
            slot.again_part.load(Ordering::SeqCst),
        );
        if has_more {
            slot.again_part
                .store(part.saturating_add(PARTS_A_TICK), Ordering::SeqCst);
        } else {
            slot.again_item
                .store(item.saturating_add(1), Ordering::SeqCst);
            slot.again_part.store(1, Ordering::SeqCst);
        }
    }

    /// Sends parts of an outbox item again, of one item each tick, unless its receiver crashed.
    pub(crate) fn maintain_outbox(&self, rt: &impl Wait, number: u64) -> Result<Round, AllocError> {
        if !self.hands_over(rt, number) {
            return Ok(Round::Quiet);
        }
        if let Some((to, item, part)) = self.next_again(rt, number) {
            let has_more = self.phase_of(rt, to).is_some()
                && self.send_parts(rt, number, to, item, part, PARTS_A_TICK)?;
            self.go_on_again(number, has_more);
        }
        Ok(Round::Busy)
    }
}
