//! Slots of nodes.
ghost use Rattle.std.specs.Prelude.{◌≡◌, ◌≢◌, ◌↔◌, ◌<◌, ◌&&◌, [], false, true, Ok, None, IfOk, IfSome};
ghost use Rattle.chord_live_ring.specs.declared.slot.SlotState.TheVariants.{Vacant, Here, Crashed};
ghost use Rattle.chord_live_ring.specs.SeatedCalls.{rescued, with_links};
ghost use Rattle.chord_live_ring.specs.Seats.{are_naming, has_node, is_node};
ghost use Rattle.chord_live_ring.specs.Sights.{HoldingIs, IsPageShown, IsSightOf, SightIs, is_member};
ghost use Rattle.chord_live_steps.specs.Pieces.{GivesToIs};
ghost use Rattle.chord_model.specs.declared.phase.Phase.TheVariants.{Gone};
ghost use Rattle.chord_node.specs.Pages.{PairsFromIs};

use crate::seated_node::SeatedNode;
use chord_ident::Id;
use chord_links::{Links, Peer};
use chord_live_steps::Numbers;
use chord_node::{Holder, PairsPage, Phase};
use chord_sight::NodeSight;
use chord_store::EntryStore;
use chord_table::{Envelope, Naming, Shared};
use crossbeam_channel::{Receiver, Sender};
use std::alloc::{AllocError, Global};
use std::sync::Mutex;
use std::sync::atomic::{AtomicBool, AtomicU64};

/// Whether this is the node of this number.
fn is_node(peer: Option<Peer>, number: u64) -> bool
    ensures { result ≡ is_node number peer }
{
    match peer {
        Some(peer) => peer.number == number,
        None => false,
    }
}

/// Whether the node of this number is one of these.
fn has_node(peers: &[Peer], number: u64) -> bool
    ensures { result ≡ has_node number peers.now }
{
    peers.iter().any(|peer| peer.number == number)
}

/// Whether these links name the node of this number, as the predecessor or in the list.
fn are_naming(links: &Links, number: u64) -> bool
    ensures { result ≡ are_naming number links.now }
{
    is_node(links.predecessor(), number) || has_node(links.list().entries(), number)
}

/// The state of a slot.
#[derive(Drop)]
pub enum SlotState<J: Naming, S: EntryStore> {
    /// There is no node, or no more: the one that was there is gone.
    Vacant,
    /// The node acts. One that crashed does so while it is rescued, as no member.
    Here(SeatedNode<J, S>),
    /// The node crashed: it takes no step, until it is rescued.
    Crashed(SeatedNode<J, S>),
}

/// A step of the ring that a node takes beside another one.
#[derive(Clone, Copy, Debug, PartialEq, Eq)]
pub enum LinkStep {
    /// Drops the other, its first entry, which departed.
    DropHead,
    /// Copies the list of the other, its first entry.
    Stabilise,
    /// Takes the other as its first entry.
    TakeCandidate,
    /// Hears of the other, which may be its predecessor.
    Rectify,
    /// Forgets the other, its predecessor, which departed.
    Forget,
}

impl<J: Naming, S: EntryStore> SlotState<J, S> {
    /// Whether the slot has the node of this number.
    pub fn has(&self, number: u64) -> bool
        ensures vacant { self.now ≡ Vacant → result ≡ false }
        ensures here { (seated : _) → self.now ≡ Here seated → (result ≡ true) ↔ (seated.node.number ≡ number) }
        ensures crashed { (seated : _) → self.now ≡ Crashed seated → (result ≡ true) ↔ (seated.node.number ≡ number) }
    {
        match self {
            SlotState::Vacant => false,
            SlotState::Here(seated) | SlotState::Crashed(seated) => seated.number() == number,
        }
    }

    /// Whether the slot has the node of this number, and it acts and is not gone.
    pub fn takes(&self, number: u64) -> bool
        ensures yes { result ≡ true → (seated : _) × (self.now ≡ Here seated) × (seated.node.number ≡ number) × (seated.node.phase ≢ Gone) }
        ensures here { (seated : _) → self.now ≡ Here seated → seated.node.number ≡ number → seated.node.phase ≢ Gone → result ≡ true }
    {
        match self {
            SlotState::Here(seated) => seated.number() == number && seated.phase() != Phase::Gone,
            SlotState::Vacant | SlotState::Crashed(_) => false,
        }
    }

    /// Whether the slot has the node of this number, and it is gone.
    pub fn is_gone(&self, number: u64) -> bool
        ensures yes { result ≡ true → (seated : _) × (self.now ≡ Here seated) × (seated.node.number ≡ number) × (seated.node.phase ≡ Gone) }
        ensures here { (seated : _) → self.now ≡ Here seated → seated.node.number ≡ number → seated.node.phase ≡ Gone → result ≡ true }
    {
        match self {
            SlotState::Here(seated) => seated.number() == number && seated.phase() == Phase::Gone,
            SlotState::Vacant | SlotState::Crashed(_) => false,
        }
    }

    /// Whether the node in the slot, which may have crashed, hands something over to the node of
    /// this number.
    pub fn gives_to(&self, number: u64) -> bool
        ensures vacant { self.now ≡ Vacant → result ≡ false }
        ensures here { (seated : _) → self.now ≡ Here seated → GivesToIs number seated.node.outbox result }
        ensures crashed { (seated : _) → self.now ≡ Crashed seated → GivesToIs number seated.node.outbox result }
    {
        match self {
            SlotState::Vacant => false,
            SlotState::Here(seated) | SlotState::Crashed(seated) => seated.gives_to(number),
        }
    }

    /// Whether the node in the slot is a member whose links name the node of this number.
    pub fn names(&self, number: u64) -> bool
        ensures vacant { self.now ≡ Vacant → result ≡ false }
        ensures here { (seated : _) → self.now ≡ Here seated → result ≡ is_member seated && are_naming number seated.node.links }
        ensures crashed { (seated : _) → self.now ≡ Crashed seated → result ≡ false }
    {
        match self {
            SlotState::Here(seated) => seated.is_member() && are_naming(seated.links(), number),
            SlotState::Vacant | SlotState::Crashed(_) => false,
        }
    }

    /// The slot after its node, if it has one that did not crash, crashed by force.
    pub fn crashed_by_force(self, numbers: &mut Numbers<J>, table: &Shared<J>) -> SlotState<J, S>
        ensures live { (seated : _) → self ≡ Here seated → seated.crashed ≡ false
            → (result ≡ Crashed (record seated { crashed = true })) × (numbers.new ≡ record numbers.old { premise = false }) }
        ensures rescued { (seated : _) → self ≡ Here seated → seated.crashed ≡ true → (result ≡ self) × (numbers.new ≡ numbers.old) }
        ensures other { ((seated : _) → self ≢ Here seated) → (result ≡ self) × (numbers.new ≡ numbers.old) }
        ensures taken { numbers.new.taken ≡ numbers.old.taken }
    {
        match self {
            SlotState::Here(seated) => {
                if seated.has_crashed() {
                    return SlotState::Here(seated);
                }
                SlotState::Crashed(seated.crash_by_force(numbers, table))
            }
            other => other,
        }
    }

    /// The node in the slot crashed: it acts no more.
    pub fn halt(&mut self)
        requires { (seated : _) → self.old ≡ Here seated → seated.crashed ≡ true }
        ensures here { (seated : _) → self.old ≡ Here seated → self.new ≡ Crashed seated }
        ensures other { ((seated : _) → self.old ≢ Here seated) → self.new ≡ self.old }
    {
        let halted = match std::mem::replace(self, SlotState::Vacant) {
            SlotState::Here(seated) => SlotState::Crashed(seated),
            other => other,
        };
        drop(std::mem::replace(self, halted));
    }

    /// The node in the slot, if it crashed, is rescued: it acts again, as a node that leaves and is
    /// no member. Says whether it is.
    pub fn rescue(&mut self, table: &Shared<J>) -> bool
        ensures crashed { (seated : _) → self.old ≡ Crashed seated → (result ≡ true) × (self.new ≡ Here (rescued seated)) }
        ensures other { ((seated : _) → self.old ≢ Crashed seated) → (result ≡ false) × (self.new ≡ self.old) }
    {
        let (left, is_rescued) = match std::mem::replace(self, SlotState::Vacant) {
            SlotState::Crashed(seated) => {
                let mut seated = seated;
                seated.rescue(table);
                (SlotState::Here(seated), true)
            }
            other => (other, false),
        };
        drop(std::mem::replace(self, left));
        is_rescued
    }

    /// Whether the node in the slot crashed and is not rescued.
    pub fn is_halted(&self) -> bool
        ensures crashed { (seated : _) → self.now ≡ Crashed seated → result ≡ true }
        ensures other { ((seated : _) → self.now ≢ Crashed seated) → result ≡ false }
    {
        match self {
            SlotState::Crashed(_) => true,
            SlotState::Vacant | SlotState::Here(_) => false,
        }
    }

    /// The node in the slot takes a step of the ring beside the one in another slot, where both are
    /// as the step wants them. Gives the candidate that a stabilisation finds.
    pub fn step_beside(
        &mut self,
        table: &Shared<J>,
        other: &mut SlotState<J, S>,
        step: LinkStep,
    ) -> Option<Peer>
        ensures vacant { self.old ≡ Vacant → self.new ≡ self.old }
        ensures here { (seated : _) → self.old ≡ Here seated → (left : _) × (self.new ≡ Here left) × (left ≡ with_links left.node.links seated) }
        ensures crashed { (seated : _) → self.old ≡ Crashed seated → self.new ≡ self.old }
        ensures other { other.new ≡ other.old }
    {
        let SlotState::Here(seated) = self else {
            return None;
        };
        match other {
            SlotState::Vacant => None,
            SlotState::Here(theirs) => seated.step_beside(table, theirs, step),
            SlotState::Crashed(theirs) => seated.step_beside(table, theirs, step),
        }
    }

    /// The node in the slot if it holds the identifier, else its first handover of it, if its
    /// outbox has one. A node that crashed still has what it had.
    pub fn holding(&self, id: Id) -> Option<Holder>
        ensures vacant { self.now ≡ Vacant → result ≡ None }
        ensures here { (seated : _) → self.now ≡ Here seated → HoldingIs id.number seated.node result }
        ensures crashed { (seated : _) → self.now ≡ Crashed seated → HoldingIs id.number seated.node result }
    {
        match self {
            SlotState::Vacant => None,
            SlotState::Here(seated) | SlotState::Crashed(seated) => seated.holding(id),
        }
    }

    /// How the node in the slot looks now; None if it has none.
    pub fn sight(
        &mut self,
        table: &Shared<J>,
        alloc: Global,
    ) -> Result<Option<NodeSight>, AllocError>
        ensures same { self.new ≡ self.old }
        ensures vacant { self.old ≡ Vacant → result ≡ Ok None }
        ensures here { (seated : _) → self.old ≡ Here seated → IfOk result (SightIs true seated) }
        ensures crashed { (seated : _) → self.old ≡ Crashed seated → IfOk result (SightIs false seated) }
        ensures shown { IfOk result (λ found. IfSome found (λ sight. IsSightOf sight.number sight)) }
    {
        match self {
            SlotState::Vacant => Ok(None),
            SlotState::Here(seated) => {
                seated.look(table);
                Ok(Some(seated.sight(alloc, true)?))
            }
            SlotState::Crashed(seated) => {
                seated.look(table);
                Ok(Some(seated.sight(alloc, false)?))
            }
        }
    }

    /// A page of the pairs of the node in the slot from an identifier on, if the node has this
    /// number and holds that. A node that crashed tells nothing.
    pub fn pairs_from(
        &mut self,
        table: &Shared<J>,
        alloc: Global,
        number: u64,
        first: Id,
        limit: u64,
    ) -> Result<Option<PairsPage>, AllocError>
        requires { 0 < limit }
        ensures same { self.new ≡ self.old }
        ensures vacant { self.old ≡ Vacant → result ≡ Ok None }
        ensures here { (seated : _) → self.old ≡ Here seated → seated.node.number ≡ number → IfOk result (PairsFromIs first limit seated.node) }
        ensures other { (seated : _) → self.old ≡ Here seated → seated.node.number ≢ number → result ≡ Ok None }
        ensures crashed { (seated : _) → self.old ≡ Crashed seated → result ≡ Ok None }
        ensures shown { IfOk result (λ found. IfSome found (IsPageShown number first limit)) }
    {
        match self {
            SlotState::Here(seated) => {
                if seated.number() != number {
                    return Ok(None);
                }
                seated.look(table);
                seated.pairs_from(alloc, first, limit)
            }
            SlotState::Vacant | SlotState::Crashed(_) => Ok(None),
        }
    }
}

/// A slot for a node, and the node's inbox.
#[derive(Drop)]
pub struct Slot<J: Naming, S: EntryStore> {
    pub(crate) state: Mutex<SlotState<J, S>>,
    /// The number of the node, and 1 more; 0 where the slot is vacant. It is changed under the
    /// register's lock. Who has not the slot's own lock takes it for a hint.
    pub(crate) number: AtomicU64,
    /// Whether the node is a member: it was admitted, and has neither retired nor crashed.
    pub(crate) live: AtomicBool,
    /// The number, and 1 more, of the node whose worker was asked for; 0 for none.
    pub(crate) worker: AtomicU64,
    /// How many ticks there were, modulo 128.
    pub(crate) ticks: AtomicU64,
    /// The index of the outbox item that is sent again next.
    pub(crate) again_item: AtomicU64,
    /// The part of that item which is sent again next, from 1.
    pub(crate) again_part: AtomicU64,
    pub(crate) inbox: Sender<Envelope<J>, Global>,
    pub(crate) envelopes: Receiver<Envelope<J>, Global>,
}

/// The inbox of a caller.
#[derive(Drop)]
pub struct Inbox<J: Naming> {
    pub(crate) inbox: Sender<Envelope<J>, Global>,
    pub(crate) envelopes: Receiver<Envelope<J>, Global>,
}
