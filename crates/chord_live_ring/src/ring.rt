//! Slots for nodes and inboxes for callers, over one table.
ghost use Rattle.std.specs.Prelude.{◌≡◌, ◌<◌, ◌≤◌, [], Contains, IfOk, IfErr, OnErr, IfSome, vec_len};
ghost use Rattle.chord_caller.specs.Answers.{new_caller};
ghost use Rattle.chord_caller.specs.Client.{IsCoreOf};
ghost use Rattle.chord_live_ring.specs.Sights.{IsPageShown, IsSightOf};
ghost use Rattle.chord_live_types.specs.Limits.{AreWithin};

use crate::board::Board;
use crate::reader::RingReader;
use crate::register::Register;
use crate::seated_node::SeatedNode;
use crate::slot::{Inbox, Slot, SlotState};
use chord_caller::{CallerCore, ClientCore};
use chord_ident::Id;
use chord_journal::JournalBuffer;
use chord_links::{Links, Peer};
use chord_live_steps::Numbers;
use chord_live_types::{CreateFault, JoinFault, LeaveFault, OpenClientFault, OpenFault, Settings};
use chord_node::{Holder, PairsPage, Phase};
use chord_route::find_predecessor;
use chord_sight::NodeSight;
use chord_store::EntryStore;
use chord_table::{CallerSeat, Naming, Shared};
use std::alloc::{AllocError, Global};
use std::marker::Model;
use std::sync::atomic::{AtomicBool, AtomicU64, Ordering};
use std::sync::{Condvar, Mutex, OnceLock, Wait};

/// Nodes, inboxes and their table. Contracts see the settings.
#[derive(Drop)]
pub struct Ring<J: Naming, S: EntryStore> {
    pub(crate) alloc: Global,
    pub(crate) settings: Settings,
    pub(crate) table: Shared<J>,
    /// Who was admitted. Locked before any node.
    pub(crate) register: Mutex<Register<J>>,
    /// The links of all members, filled while a departure is judged. Locked behind the register.
    pub(crate) board: Mutex<Board<J>>,
    /// How many nodes were ever admitted.
    pub(crate) nodes: AtomicU64,
    /// How often those passed requests on whose slots were used again.
    pub(crate) past_forwards: AtomicU64,
    pub(crate) slots: Vec<Slot<J, S>>,
    pub(crate) inboxes: Vec<Inbox<J>>,
    /// How many of the next waits skip polling.
    pub(crate) polls_to_skip: AtomicU64,
    pub(crate) stopped: AtomicBool,
    /// Whether a node came, began to leave, retired, crashed or was rescued since the last rest.
    pub(crate) stirred: Mutex<bool>,
    pub(crate) stirring: Condvar,
    /// Where there is a journal: what was not taken out of it. Locked behind any other.
    pub(crate) journal: OnceLock<Mutex<JournalBuffer>>,
    /// How many bytes were added to it in all.
    pub(crate) journal_mark: AtomicU64,
    ghost sized: { J.name.slots ≡ settings.slots },
    ghost within: { AreWithin settings },
    ghost counted: { vec_len slots ≡ J.name.slots },
    ghost listed: { vec_len inboxes ≡ J.name.callers },
}

impl<J: Naming, S: EntryStore> Model for Ring<J, S> {
    ghost use Rattle.chord_live_types.specs.declared.settings.Settings.{Settings as SettingsOf};

    ghost Value = { SettingsOf };

    ghost view = { λ ring. ring.settings };
}

impl<J: Naming, S: EntryStore> Ring<J, S> {
    /// Whether a node of this number was ever admitted.
    pub fn was_admitted(&self, number: u64) -> bool {
        number < self.node_count()
    }

    /// Whether a node of this number has a slot: it was admitted, and if it is gone, its slot was
    /// not used again.
    pub fn has_slot(&self, number: u64) -> bool {
        self.slot_of(number).is_some()
    }

    /// How many nodes were ever admitted. Their numbers are those below.
    pub fn node_count(&self) -> u64 {
        self.nodes.load(Ordering::SeqCst)
    }

    /// How often those nodes passed requests on that are gone and have no slot any more.
    pub fn past_forwards(&self) -> u64 {
        self.past_forwards.load(Ordering::SeqCst)
    }

    /// How many nodes there may be at once.
    pub fn slot_count(&self) -> u64
        ensures { result ≡ J.name.slots }
    {
        self.slots.len() as u64
    }

    /// The number of the node in a slot; None if it is vacant.
    pub fn number_at(&self, slot: u64) -> Option<u64> {
        let number = &self.slots.get(slot as usize)?.number;
        number.load(Ordering::SeqCst).checked_sub(1)
    }

    /// The number of the node in a slot, where nobody asked for it so yet: who does starts its
    /// worker. One thread asks at a time.
    pub fn without_worker(&self, slot: u64) -> Option<u64> {
        let slot = self.slots.get(slot as usize)?;
        let marked = slot.number.load(Ordering::SeqCst);
        if slot.worker.load(Ordering::SeqCst) == marked {
            return None;
        }
        slot.worker.store(marked, Ordering::SeqCst);
        marked.checked_sub(1)
    }

    /// The index of the first slot that is marked so, from the one of this number modulo their
    /// count on. A slot is marked by its node's number and 1 more, a vacant one by 0.
    fn find_slot(&self, number: u64, marked: u64) -> Option<usize>
        ensures { IfSome result (λ index. index < J.name.slots) }
    {
        let count = self.slot_count();
        for step in 0..count {
            let index = (number.wrapping_add(step) % count) as usize;
            if let Some(slot) = self.slots.get(index) {
                if slot.number.load(Ordering::SeqCst) == marked {
                    return Some(index);
                }
            }
        }
        None
    }

    /// The index of the slot of the node of this number. It may be another node's by the time that
    /// it is locked: then that has another number.
    pub(crate) fn index_of(&self, number: u64) -> Option<usize>
        ensures { IfSome result (λ index. index < J.name.slots) }
    {
        match number.checked_add(1) {
            Some(marked) => self.find_slot(number, marked),
            None => None,
        }
    }

    /// The index of a vacant slot, where the node of this number is found soonest.
    pub(crate) fn vacant_for(&self, number: u64) -> Option<usize>
        ensures { IfSome result (λ index. index < J.name.slots) }
    {
        self.find_slot(number, 0)
    }

    /// The slot of the node of this number, as `index_of` finds it.
    pub(crate) fn slot_of(&self, number: u64) -> Option<&Slot<J, S>> {
        self.slots.get(self.index_of(number)?)
    }

    /// Whether the node of this number is a member.
    pub fn is_live(&self, number: u64) -> bool {
        match self.slot_of(number) {
            Some(slot) => slot.live.load(Ordering::SeqCst),
            None => false,
        }
    }

    /// Whether the ring was stopped.
    pub fn is_stopped(&self) -> bool {
        self.stopped.load(Ordering::SeqCst)
    }

    /// The table on which all actors of the ring have their seats.
    pub fn table(&self) -> &Shared<J> {
        &self.table
    }

    /// How large the ring is, and how long its callers wait.
    pub fn settings(&self) -> Settings
        ensures setting { result ≡ self.now }
        ensures slots { J.name.slots ≡ self.now.slots }
    {
        self.settings
    }

    /// How many times a request is sent at most.
    pub fn tries(&self) -> u64
        ensures setting { result ≡ self.now.tries }
        ensures within { (1 ≤ result) × (result ≤ 1000) }
    {
        self.settings.tries
    }

    /// Ends all work.
    pub fn stop(&self) {
        self.stopped.store(true, Ordering::SeqCst);
    }

    /// Drops the ring, with its nodes, their stores and the envelopes under way.
    pub fn close(self) {
        drop(self);
    }

    /// The links of a node, as its upkeep knows them now. None if there is no such node, or if it
    /// crashed.
    pub fn links_of(&self, rt: &impl Wait, number: u64) -> Option<Links>
        ensures { IfSome result (λ links. links.me.number ≡ number) }
    {
        let slot = self.slot_of(number)?;
        match &*slot.state.lock(rt) {
            SlotState::Here(seated)
                if !seated.has_crashed() && seated.links().me().number == number => {
                Some(*seated.links())
            }
            _ => None,
        }
    }

    /// The phase of a node that acts; one that is rescued is leaving. None if there is no such
    /// node, or if it crashed and is not rescued.
    pub fn phase_of(&self, rt: &impl Wait, number: u64) -> Option<Phase> {
        let slot = self.slot_of(number)?;
        match &*slot.state.lock(rt) {
            SlotState::Here(seated) if seated.number() == number => Some(seated.phase()),
            _ => None,
        }
    }

    /// How a node looks, by one look under its lock. None if no node of this number has a slot.
    pub fn sight(
        &self,
        rt: &impl Wait,
        alloc: Global,
        number: u64,
    ) -> Result<Option<NodeSight>, AllocError>
        ensures shown { IfOk result (λ found. IfSome found (IsSightOf number)) }
    {
        let Some(slot) = self.slot_of(number) else {
            return Ok(None);
        };
        match slot.state.lock(rt).sight(&self.table, alloc)? {
            Some(sight) if sight.number == number => Ok(Some(sight)),
            _ => Ok(None),
        }
    }

    /// The node of this number if it holds the identifier, else its first handover of it, if its
    /// outbox has one. A node that crashed still has what it had. A handover stays in the outbox
    /// until its giver hears that it was taken; by then its receiver may hold the identifier.
    pub fn holding(&self, rt: &impl Wait, number: u64, id: Id) -> Option<Holder> {
        let guard = self.slot_of(number)?.state.lock(rt);
        if guard.has(number) {
            guard.holding(id)
        } else {
            None
        }
    }

    /// A page of the pairs of the node of this number from an identifier on, by one look under its
    /// lock, if the node holds that. None if no node of this number has a slot, or if it crashed.
    pub fn pairs_from(
        &self,
        rt: &impl Wait,
        alloc: Global,
        number: u64,
        first: Id,
        limit: u64,
    ) -> Result<Option<PairsPage>, AllocError>
        requires { 0 < limit }
        ensures shown { IfOk result (λ found. IfSome found (IsPageShown number first limit)) }
    {
        let Some(slot) = self.slot_of(number) else {
            return Ok(None);
        };
        slot.state
            .lock(rt)
            .pairs_from(&self.table, alloc, number, first, limit)
    }

    /// Puts a node into a slot, which is vacant.
    fn fill_slot(&self, rt: &impl Wait, index: usize, seated: SeatedNode<J, S>)
        requires { index < J.name.slots }
    {
        let slot = &self.slots[index];
        let marked = seated.number().wrapping_add(1);
        drop(std::mem::replace(&mut *slot.state.lock(rt), SlotState::Here(seated)));
        slot.again_item.store(0, Ordering::SeqCst);
        slot.again_part.store(1, Ordering::SeqCst);
        slot.number.store(marked, Ordering::SeqCst);
        slot.live.store(true, Ordering::SeqCst);
        self.nodes.store(marked, Ordering::SeqCst);
        self.stir(rt);
    }

    /// Admits the first node, or gives the store back.
    #[tactic(auto, using(crate::proofs::Departures::out_same))]
    pub fn create(&self, rt: &impl Wait, id: Id, store: S) -> Result<Peer, (CreateFault, S)>
        requires vacant { S.content store ≡ [] }
        ensures peer { IfOk result (λ peer. peer ≡ record { number = 0; id = id }) }
        ensures back { IfErr result (λ refused. refused.1 ≡ store) }
    {
        let mut register = self.register.lock(rt);
        let numbers = &mut register.numbers;
        if self.is_stopped() {
            return Err((CreateFault::Stopped, store));
        }
        if numbers.nodes() != 0 || self.slots.is_empty() {
            return Err((CreateFault::AlreadyCreated, store));
        }
        match numbers.create(
            &self.table,
            0,
            self.alloc,
            id,
            self.settings.successors,
            store,
        ) {
            Ok((node, seat)) => {
                self.fill_slot(rt, 0, SeatedNode::new(node, seat));
                Ok(Peer { number: 0, id })
            }
            Err(store) => Err((CreateFault::Memory, store)),
        }
    }

    /// The number of the node that comes before an identifier on the circle, as a lookup from
    /// `via` finds it.
    fn node_before(&self, rt: &impl Wait, id: Id, via: u64) -> Result<u64, JoinFault> {
        if !self.has_slot(via) {
            return Err(JoinFault::NoSuchNode);
        }
        let reader = RingReader { ring: self, rt };
        match find_predecessor(&reader, via, id) {
            Ok(before) => Ok(before.number),
            Err(_) => Err(JoinFault::Unsettled),
        }
    }

    /// Admits a node to a slot behind this one, under that one's lock, or gives the store back.
    fn admit_behind(
        &self,
        rt: &impl Wait,
        numbers: &mut Numbers<J>,
        index: usize,
        before: u64,
        me: Peer,
        store: S,
    ) -> Result<SeatedNode<J, S>, (JoinFault, S)>
        requires some { 0 < numbers.old.nodes }
        requires slot { index < J.name.slots }
        requires next { me.number ≡ numbers.old.nodes }
        requires unused { ¬ Contains numbers.old.ids me.id }
        requires vacant { S.content store ≡ [] }
        ensures taken { numbers.new.taken ≡ numbers.old.taken }
        ensures back { IfErr result (λ refused. refused.1 ≡ store) }
        ensures same { OnErr result (numbers.new ≡ numbers.old) }
    {
        let Some(slot) = self.slot_of(before) else {
            return Err((JoinFault::Unsettled, store));
        };
        match &mut *slot.state.lock(rt) {
            SlotState::Here(pred) if pred.number() == before => {
                pred.admit_behind(numbers, &self.table, index, self.alloc, me, store)
            }
            _ => Err((JoinFault::Unsettled, store)),
        }
    }

    /// Admits a later node, after the one that a lookup from `via` finds before it, or gives the
    /// store back. It joins under that one's lock, as that one's links are then, and gets a slot
    /// that is vacant, or that of a node that is gone.
    #[tactic(auto, using(crate::proofs::Departures::out_same))]
    pub fn join(&self, rt: &impl Wait, id: Id, via: u64, store: S) -> Result<Peer, (JoinFault, S)>
        requires vacant { S.content store ≡ [] }
        ensures back { IfErr result (λ refused. refused.1 ≡ store) }
        ensures named { IfOk result (λ peer. peer.id ≡ id) }
        ensures numbered { IfOk result (λ peer. 1 ≤ peer.number) }
    {
        let mut register = self.register.lock(rt);
        let numbers = &mut register.numbers;
        if self.is_stopped() {
            return Err((JoinFault::Stopped, store));
        }
        let Some(index) = self.slot_for(rt, numbers) else {
            return Err((JoinFault::NoSlot, store));
        };
        if numbers.is_taken(id) {
            return Err((JoinFault::IdTaken, store));
        }
        let number = numbers.nodes();
        if number == 0 {
            return Err((JoinFault::NoSuchNode, store));
        }
        let me = Peer {
            number: number as u64,
            id,
        };
        let before = match self.node_before(rt, id, via) {
            Ok(before) => before,
            Err(fault) => return Err((fault, store)),
        };
        let seated = self.admit_behind(rt, numbers, index, before, me, store)?;
        self.fill_slot(rt, index, seated);
        Ok(me)
    }

    /// Makes a node begin to leave.
    pub fn leave(&self, rt: &impl Wait, number: u64) -> Result<(), LeaveFault> {
        let Some(slot) = self.slot_of(number) else {
            return Err(LeaveFault::NoSuchNode);
        };
        let begun = match &mut *slot.state.lock(rt) {
            SlotState::Here(seated) if seated.number() == number => seated
                .begin_leave(&self.table)
                .map_err(|_| LeaveFault::NotStaying),
            _ => Err(LeaveFault::NotStaying),
        };
        if begun.is_ok() {
            self.stir(rt);
        }
        begun
    }

    /// A caller under the next free number, with a window of 1 to 16 requests, and the seat that
    /// shows it.
    #[tactic(auto, using(crate::proofs::Departures::out_same))]
    pub fn admit_caller(
        &self,
        rt: &impl Wait,
        window: u64,
    ) -> Result<(CallerCore, CallerSeat<J>), OpenFault>
        requires some { 1 ≤ window }
        requires small { window ≤ 16 }
        ensures number { IfOk result (λ admitted. admitted.0.number < J.name.callers) }
        ensures shown { IfOk result (λ admitted. (admitted.0 ≡ new_caller admitted.0.number window) × (admitted.0 ≡ admitted.1.caller)) }
    {
        let mut register = self.register.lock(rt);
        if self.is_stopped() {
            return Err(OpenFault::Stopped);
        }
        match register
            .numbers
            .admit_caller(&self.table, self.alloc, window)
        {
            Some(admitted) => Ok(admitted),
            None => Err(OpenFault::CallersSpent),
        }
    }

    /// The core of a client under the next free number, with a window of 1 to 16 requests, and the
    /// seat that shows its caller. The core has room for its window, and takes no more memory.
    #[tactic(auto, using(crate::proofs::Departures::out_same))]
    pub fn admit_client(
        &self,
        rt: &impl Wait,
        window: u64,
    ) -> Result<(ClientCore, CallerSeat<J>), OpenClientFault>
        requires some { 1 ≤ window }
        requires small { window ≤ 16 }
        ensures number { IfOk result (λ admitted. admitted.1.caller.number < J.name.callers) }
        ensures shown { IfOk result (λ admitted. (admitted.1.caller ≡ new_caller admitted.1.caller.number window) × IsCoreOf admitted.0 admitted.1.caller) }
    {
        let mut register = self.register.lock(rt);
        if self.is_stopped() {
            return Err(OpenClientFault::Stopped);
        }
        register
            .numbers
            .admit_client(&self.table, self.alloc, window)
    }
}
