//! Envelopes for nodes, taken in by workers or by the callers themselves.

use crate::carried::Carried;
use crate::probe::{NoProbe, Probe};
use crate::ring::Ring;
use crate::slot::SlotState;
use crate::trail::Trail;
use crate::waiting::{Wakes, lock_soon};
use chord_live_steps::{Keyed, Target};
use chord_live_types::NoSuchNode;
use chord_store::EntryStore;
use chord_table::{Envelope, Naming};
use crossbeam_channel::Sender;
use std::alloc::Global;
use std::sync::Wait;
use std::sync::atomic::Ordering;
use std::time::{Clock, Duration};

/// How many milliseconds a worker sleeps before it checks whether its work is over.
const IDLE: u64 = 250;

/// How many waiting envelopes a node that is no member takes in at a tick.
const MOST_WAITING: u64 = 1_024;

/// How many nodes a request goes through at most.
const HOPS: u64 = 256;

impl<J: Naming, S: EntryStore> Ring<J, S> {
    /// A node takes in an envelope: one event under its lock. What it sends is given back, to be
    /// posted once the lock is free.
    pub(crate) fn answer(
        &self,
        rt: &impl Wait,
        number: u64,
        probe: &impl Probe,
        keyed: Keyed<J>,
    ) -> Option<(Target, Keyed<J>)> {
        let Some(slot) = self.slot_of(number) else {
            drop(keyed);
            return None;
        };
        match &mut *lock_soon(rt, &slot.state) {
            SlotState::Here(seated) if seated.number() == number => {
                let sent = self.answer_of(rt, seated, keyed);
                probe.pass(number);
                sent
            }
            _ => {
                drop(keyed);
                None
            }
        }
    }

    /// The inbox of the target, if there is such a node or caller.
    fn inbox_of(&self, target: Target) -> Option<&Sender<Envelope<J>, Global>> {
        match target {
            Target::Node(number) => match self.slot_of(number) {
                Some(slot) => Some(&slot.inbox),
                None => None,
            },
            Target::Caller(number) => match self.inboxes.get(number as usize) {
                Some(inbox) => Some(&inbox.inbox),
                None => None,
            },
        }
    }

    /// Puts an envelope into an inbox; it is lost if there is none.
    pub fn post(&self, rt: &impl Wait, target: Target, envelope: Envelope<J>) {
        match self.inbox_of(target) {
            Some(inbox) => drop(inbox.send(rt, envelope)),
            None => drop(envelope),
        }
    }

    /// A node takes in an envelope, and what it sends is posted.
    fn take_in(&self, rt: &impl Wait, number: u64, probe: &impl Probe, envelope: Envelope<J>) {
        if let Some((target, sent)) = self.answer(rt, number, probe, Keyed::new(envelope)) {
            self.post(rt, target, sent.envelope);
        }
    }

    /// Takes in a node's envelopes and posts what it sends, until the ring is stopped or the node
    /// is no member any more. From then on its ticks take in what comes.
    pub fn work<R: Wait + Clock, G: Probe>(
        &self,
        rt: &R,
        number: u64,
        probe: &G,
    ) -> Result<(), NoSuchNode> {
        let Some(slot) = self.slot_of(number) else {
            return Err(NoSuchNode);
        };
        let mut wakes = Wakes::AtOnce;
        for _ in rt.forever() {
            if self.is_stopped() || !self.is_live(number) {
                return Ok(());
            }
            let came = self.receive(rt, &slot.envelopes, wakes, Duration::from_millis(IDLE));
            wakes = Wakes::after(came.is_some());
            if let Some(envelope) = came {
                if !self.is_live(number) {
                    // The slot may be another node's by now: whoever has it takes the envelope in.
                    drop(slot.inbox.send(rt, envelope));
                    return Ok(());
                }
                self.take_in(rt, number, probe, envelope);
            }
        }
        unreachable!()
    }

    /// A node that is no member any more takes in the envelopes that wait for it: it declines old
    /// handovers and passes requests on. Where it crashed they are lost.
    pub(crate) fn take_in_waiting(&self, rt: &impl Wait, number: u64) {
        let Some(slot) = self.slot_of(number) else {
            return;
        };
        for _ in 0..MOST_WAITING {
            let Ok(envelope) = slot.envelopes.try_recv(rt) else {
                return;
            };
            self.take_in(rt, number, &NoProbe, envelope);
        }
    }

    /// The first live node from this one on, in the order of the slots and then from the first slot
    /// on. This one itself if none is live.
    pub(crate) fn live_from(&self, number: u64) -> u64 {
        if self.is_live(number) {
            return number;
        }
        let count = self.slot_count();
        for step in 0..count {
            if let Some(node) = self.number_at(number.wrapping_add(step) % count) {
                if self.is_live(node) {
                    return node;
                }
            }
        }
        number
    }

    /// Carries an envelope and its key's identifier from node to node, each event under that node's
    /// lock, until a node answers a caller. It begins at the node `via`, or at the next live one
    /// where that has gone or crashed. It is lost once it goes round, as where the node crashed
    /// that holds its key.
    pub fn carry_keyed(&self, rt: &impl Wait, via: u64, keyed: Keyed<J>) -> Option<Carried<J>> {
        let mut to = self.live_from(via);
        let mut trail = Trail::new(to);
        let mut passed = keyed;
        for _ in 0..HOPS {
            let (target, sent) = self.answer(rt, to, &NoProbe, passed)?;
            passed = sent;
            match target {
                Target::Node(next) => {
                    if trail.comes_back(next) {
                        break;
                    }
                    to = next;
                }
                Target::Caller(caller) => {
                    return Some(Carried {
                        from: to,
                        caller,
                        envelope: passed.envelope,
                    });
                }
            }
        }
        drop(passed);
        None
    }

    /// Carries an envelope from node to node, on the caller's thread in place of workers, until a
    /// node answers a caller. It begins as `carry_keyed` does.
    pub fn carry(&self, rt: &impl Wait, via: u64, envelope: Envelope<J>) -> Option<Carried<J>> {
        self.carry_keyed(rt, via, Keyed::new(envelope))
    }
}
