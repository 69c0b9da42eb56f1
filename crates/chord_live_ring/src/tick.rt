//! The upkeep of nodes.
ghost use Rattle.std.specs.Prelude.{◌≤◌};

use crate::reader::RingReader;
use crate::ring::Ring;
use crate::round::Round;
use crate::seated_node::SeatedNode;
use crate::slot::{LinkStep, SlotState};
use chord_ident::Id;
use chord_links::{Links, Peer};
use chord_live_steps::Tidied;
use chord_live_types::TickFault;
use chord_route::find_successor;
use chord_store::EntryStore;
use chord_table::Naming;
use std::alloc::AllocError;
use std::sync::Wait;
use std::sync::atomic::Ordering;

/// How many fingers a node has.
const FINGERS: u64 = 128;

/// What a tick does next at a node after looking under its lock.
#[derive(Clone, Copy)]
enum NextMove {
    Done,
    /// Nothing more: a held segment was cut.
    WasCut,
    /// To give the held segment at this index, which ends here, to another node.
    Give(usize, Id),
}

impl<J: Naming, S: EntryStore> Ring<J, S> {
    /// A node takes a step of the ring beside another one, under both nodes' locks, the lower slot
    /// first. Gives the candidate that a stabilisation finds.
    fn beside(&self, rt: &impl Wait, number: u64, other: u64, step: LinkStep) -> Option<Peer> {
        let mine = self.index_of(number)?;
        let theirs = self.index_of(other)?;
        let (own, beside) = (&self.slots[mine].state, &self.slots[theirs].state);
        if mine == theirs {
            return None;
        }
        if mine < theirs {
            let mut own = own.lock(rt);
            let mut beside = beside.lock(rt);
            if own.has(number) && beside.has(other) {
                return own.step_beside(&self.table, &mut *beside, step);
            }
        } else {
            let mut beside = beside.lock(rt);
            let mut own = own.lock(rt);
            if own.has(number) && beside.has(other) {
                return own.step_beside(&self.table, &mut *beside, step);
            }
        }
        None
    }

    /// A node that has no predecessor, and is its own first entry, is its own predecessor.
    fn stand_alone(&self, rt: &impl Wait, number: u64) {
        let Some(slot) = self.slot_of(number) else {
            return;
        };
        if let SlotState::Here(seated) = &mut *slot.state.lock(rt) {
            if seated.number() == number && seated.is_member() {
                let _ = seated.stand_alone(&self.table);
            }
        }
    }

    /// A node hears of another one, which may be its predecessor. It forgets a predecessor that
    /// departed.
    fn rectify(&self, rt: &impl Wait, number: u64, notifier: u64) {
        let Some(links) = self.links_of(rt, number) else {
            return;
        };
        if let Some(peer) = links.predecessor() {
            if !self.is_live(peer.number) {
                let _ = self.beside(rt, number, peer.number, LinkStep::Forget);
            }
        }
        if number == notifier {
            self.stand_alone(rt, number);
        } else {
            let _ = self.beside(rt, number, notifier, LinkStep::Rectify);
        }
    }

    /// What a node learns from its first entry: a node between the two. A node that is its own first
    /// entry learns of its predecessor.
    fn candidate(&self, rt: &impl Wait, links: &Links) -> Option<Peer> {
        let me = links.me();
        let head = links.first();
        if head.number == me.number {
            links.predecessor()
        } else {
            self.beside(rt, me.number, head.number, LinkStep::Stabilise)
        }
    }

    /// The ring steps of a tick: drop a dead first entry, or else stabilise and rectify.
    fn maintain_links(&self, rt: &impl Wait, links: &Links) {
        let me = links.me();
        let head = links.first();
        if !self.is_live(head.number) {
            let _ = self.beside(rt, me.number, head.number, LinkStep::DropHead);
            return;
        }
        if let Some(candidate) = self.candidate(rt, links) {
            let _ = self.beside(rt, me.number, candidate.number, LinkStep::TakeCandidate);
        }
        if let Some(now) = self.links_of(rt, me.number) {
            self.rectify(rt, now.first().number, me.number);
        }
    }

    /// Updates the next finger; a node has one updated at each tick.
    fn maintain_finger(&self, rt: &impl Wait, links: &Links) {
        let me = links.me();
        let Some(slot) = self.slot_of(me.number) else {
            return;
        };
        let earlier = slot.ticks.load(Ordering::SeqCst) % FINGERS;
        slot.ticks.store((earlier + 1) % FINGERS, Ordering::SeqCst);
        let finger = 1 + earlier as usize;
        let reader = RingReader { ring: self, rt };
        if let Ok(peer) = find_successor(&reader, me.number, links.fingers().start(finger)) {
            self.set_finger(rt, me.number, finger, peer);
        }
    }

    /// Points a finger of a node at another node.
    fn set_finger(&self, rt: &impl Wait, number: u64, finger: usize, to: Peer)
        requires low { 1 ≤ finger }
        requires high { finger ≤ 128 }
    {
        let Some(slot) = self.slot_of(number) else {
            return;
        };
        if let SlotState::Here(seated) = &mut *slot.state.lock(rt) {
            if seated.number() == number {
                seated.set_finger(&self.table, finger, to);
            }
        }
    }

    /// Points fingers that lead to dead nodes at the node itself, so that no lookup follows them.
    fn drop_dead_fingers(&self, rt: &impl Wait, links: &Links) {
        let me = links.me();
        for finger in 1..129 {
            if let Some(peer) = links.fingers().get(finger) {
                if !self.is_live(peer.number) {
                    self.set_finger(rt, me.number, finger, me);
                }
            }
        }
    }

    /// Cuts a held segment that is not the node's own, or finds one to give. Under the node's lock.
    fn tidy_seated(&self, seated: &mut SeatedNode<J, S>) -> Result<NextMove, AllocError> {
        let predecessor = seated.links().predecessor();
        let Some(peer) = predecessor else {
            return Ok(NextMove::Done);
        };
        if !self.is_live(peer.number) {
            return Ok(NextMove::Done);
        }
        match seated.tidy(&self.table, peer.id)? {
            Tidied::Give(place) => match seated.end_of(place) {
                Some(end) => Ok(NextMove::Give(place, end)),
                None => Ok(NextMove::Done),
            },
            Tidied::Cut => Ok(NextMove::WasCut),
            Tidied::Nothing => Ok(NextMove::Done),
        }
    }

    fn tidy_at(&self, rt: &impl Wait, number: u64) -> Result<NextMove, AllocError> {
        let Some(slot) = self.slot_of(number) else {
            return Ok(NextMove::Done);
        };
        match &mut *slot.state.lock(rt) {
            SlotState::Here(seated) if seated.number() == number => self.tidy_seated(seated),
            _ => Ok(NextMove::Done),
        }
    }

    /// Cuts at a node, or gives away a held segment that is another node's.
    fn maintain_segments(&self, rt: &impl Wait, number: u64) -> Result<Round, AllocError> {
        match self.tidy_at(rt, number)? {
            NextMove::Done => Ok(Round::Quiet),
            NextMove::WasCut => Ok(Round::Busy),
            NextMove::Give(place, end) => self.give_to_holder(rt, number, number, place, end),
        }
    }

    /// Joins two held segments that adjoin. Under the node's lock.
    fn join_seated(&self, seated: &mut SeatedNode<J, S>) -> Result<Round, AllocError> {
        let Some(predecessor) = seated.links().predecessor() else {
            return Ok(Round::Quiet);
        };
        if seated.join_adjoining(&self.table, predecessor.id)? {
            Ok(Round::Busy)
        } else {
            Ok(Round::Quiet)
        }
    }

    /// Joins two held segments of a node that adjoin.
    fn join_segments(&self, rt: &impl Wait, number: u64) -> Result<Round, AllocError> {
        let Some(slot) = self.slot_of(number) else {
            return Ok(Round::Quiet);
        };
        match &mut *slot.state.lock(rt) {
            SlotState::Here(seated) if seated.number() == number => self.join_seated(seated),
            _ => Ok(Round::Quiet),
        }
    }

    /// Sends a handover again, cuts, gives and joins segments.
    fn maintain_holdings(&self, rt: &impl Wait, number: u64) -> Result<Round, AllocError> {
        let sent = self.maintain_outbox(rt, number)?;
        let cut = self.maintain_segments(rt, number)?;
        let given = self.maintain_leaving(rt, number)?;
        let joined = self.join_segments(rt, number)?;
        Ok(sent.with(cut).with(given).with(joined))
    }

    /// Whether a node's links are other ones than these before.
    fn changed_since(&self, rt: &impl Wait, before: &Links) -> Round {
        if self.links_of(rt, before.me().number) == Some(*before) {
            Round::Quiet
        } else {
            Round::Busy
        }
    }

    /// Counts a round of upkeep of a node.
    fn count_tick(&self, rt: &impl Wait, number: u64) {
        let Some(slot) = self.slot_of(number) else {
            return;
        };
        if let SlotState::Here(seated) = &mut *slot.state.lock(rt) {
            if seated.number() == number {
                seated.count_tick();
            }
        }
    }

    /// Does one round of upkeep of a node. Out of memory ends it early; the steps done so far stay.
    /// A node that is no member any more takes in the envelopes that wait for it: it declines old
    /// handovers and passes requests on. Where it is rescued it hands over what it holds.
    pub fn tick(&self, rt: &impl Wait, number: u64) -> Result<Round, TickFault> {
        if !self.has_slot(number) {
            return Err(TickFault::NoSuchNode);
        }
        if self.is_stopped() {
            return Err(TickFault::Stopped);
        }
        if !self.is_live(number) {
            self.take_in_waiting(rt, number);
            return self
                .maintain_rescued(rt, number)
                .map_err(|_| TickFault::Memory);
        }
        let Some(links) = self.links_of(rt, number) else {
            return Ok(Round::Quiet);
        };
        self.count_tick(rt, number);
        self.maintain_links(rt, &links);
        self.drop_dead_fingers(rt, &links);
        self.maintain_finger(rt, &links);
        match self.maintain_holdings(rt, number) {
            Ok(round) => Ok(round.with(self.changed_since(rt, &links))),
            Err(_) => Err(TickFault::Memory),
        }
    }
}
