//! A node with its seat.
ghost use Rattle.std.specs.Prelude.{◌≡◌, ◌≢◌, ◌↔◌, ◌≤◌, ◌<◌, ◌+◌, ◌++◌, [], ◌∷◌, Ok, Err, Contains, Some, None, false, true, length, slice_get, IsTrue, IsOk, IfOk, IfErr, IfSome, IfNone, OnOk, OnErr};
ghost use Rattle.chord_handover.specs.Handover.{Part as PartOf};
ghost use Rattle.chord_journal.specs.Journal.{JournalIs};
ghost use Rattle.chord_links.specs.Fingers.{with_finger};
ghost use Rattle.chord_live_steps.specs.Adjoining.{JoinIs};
ghost use Rattle.chord_live_ring.specs.Deeds.{counted, no_counts};
ghost use Rattle.chord_live_ring.specs.declared.deed.Deed.TheVariants.{Gave, Ticked};
ghost use Rattle.chord_live_steps.specs.Pieces.{GivesToIs, TrimIs};
ghost use Rattle.chord_live_ring.specs.SeatedCalls.{Gives, GivesNone, GivesPiece, SendsNone, address_of, end_of, rescued, with_links};
ghost use Rattle.chord_live_ring.specs.Departures.{CrashFaultIs, RetireFaultIs};
ghost use Rattle.chord_live_steps.specs.Departures.{number_of};
ghost use Rattle.chord_live_steps.specs.declared.departure.Departure.TheVariants.{Crash, Retire};
ghost use Rattle.chord_live_ring.specs.Sights.{HoldingIs, counts_after, kind_in, look_in, seated_look, shown_of};
ghost use Rattle.chord_live_steps.specs.Dealt.{DealIs, IsFor, executed_for};
ghost use Rattle.chord_live_steps.specs.Tidy.{TidyIs};
ghost use Rattle.chord_model.specs.Node.{newborn, segment_with};
ghost use Rattle.chord_model.specs.declared.message.Message.TheVariants.{Part as PartMessage};
ghost use Rattle.chord_node.specs.Moves.{GiveIs, LeaveIs, ResendIs, RetireIs};
ghost use Rattle.chord_node.specs.Pages.{PairsFromIs};
ghost use Rattle.chord_node.specs.View.{span_of};
ghost use Rattle.chord_ring.specs.Steps.{joined_links};
ghost use Rattle.chord_table.specs.Shown.{NodeShown};

use crate::counting::{count, count_if, no_counts};
use crate::deed::{Deed, MessageKind};
use crate::fault::DepartFault;
use crate::looking::{gives_to, holding_of, phase_seen, sight_of};
use chord_ident::Id;
use chord_journal::JournalBuffer;
use chord_links::{Links, Peer};
use chord_live_steps::{
    Departure, Keyed, Numbers, Target, Tidied, deal_by_id, is_for, join_adjoining, tidy, trim,
};
use chord_live_types::JoinFault;
use chord_node::{
    GiveFault, Holder, Message, Node, NotStaying, PairsPage, Phase, ResendPartFault, RetireFault,
};
use chord_ring::join_behind;
use chord_sight::{NodeCounts, NodeSight};
use chord_store::EntryStore;
use chord_table::{Envelope, Naming, NodeSeat, Shared};
use std::alloc::{AllocError, Global};
use std::marker::Model;

/// A node, the seat that shows it, and counts of what it did. Contracts see what the seat shows,
/// and the counts. A node that crashed is no member of the ring any more, whatever it does.
#[derive(Drop)]
pub struct SeatedNode<J: Naming, S: EntryStore> {
    pub(crate) node: Node<S>,
    pub(crate) crashed: bool,
    /// None only while the register has it, for a departure.
    pub(crate) seat: Option<NodeSeat<J>>,
    pub(crate) counts: NodeCounts,
}

impl<J: Naming, S: EntryStore> Model for SeatedNode<J, S> {
    ghost use Rattle.chord_live_ring.specs.Seats.{IsSeatOf, messages_in};
    ghost use Rattle.chord_live_ring.specs.Sights.{Seated};

    ghost Value = { Seated };

    ghost view = { λ a. record { node = a.node; crashed = a.crashed; messages = messages_in a.seat; counts = a.counts } };

    ghost invariant = { λ a. IsSeatOf a.node a.crashed a.seat };
}

/// The kind of the message that is sent, if one is.
fn kind_sent<J: Naming>(sent: &Option<(Target, Keyed<J>)>) -> Option<MessageKind>
    ensures some { IfSome sent.now (λ both. result ≡ kind_in (Some both.1.envelope)) }
    ensures none { IfNone sent.now (result ≡ None) }
{
    match sent {
        Some((_, keyed)) => Some(MessageKind::of(keyed.envelope.message())),
        None => None,
    }
}

impl<J: Naming, S: EntryStore> SeatedNode<J, S> {
    /// A node with the seat that it was admitted with, which did nothing yet.
    pub fn new(node: Node<S>, seat: NodeSeat<J>) -> SeatedNode<J, S>
        requires node { node ≡ seat.node }
        requires live { seat.crashed ≡ false }
        ensures { result ≡ record { node = node; crashed = false; messages = seat.messages; counts = no_counts } }
    {
        SeatedNode {
            node,
            crashed: false,
            seat: Some(seat),
            counts: no_counts(),
        }
    }

    /// Admits a new node to a slot behind this one, or gives the store back: this one has to be a
    /// member, and the new one to lie before its first entry.
    pub fn admit_behind(
        &mut self,
        numbers: &mut Numbers<J>,
        table: &Shared<J>,
        slot: usize,
        alloc: Global,
        me: Peer,
        store: S,
    ) -> Result<SeatedNode<J, S>, (JoinFault, S)>
        requires some { 0 < numbers.old.nodes }
        requires slot { slot < J.name.slots }
        requires next { me.number ≡ numbers.old.nodes }
        requires unused { ¬ Contains numbers.old.ids me.id }
        requires vacant { S.content store ≡ [] }
        ensures same { self.new ≡ self.old }
        ensures counted { OnOk result (numbers.new ≡ record numbers.old { nodes = numbers.old.nodes + 1; ids = numbers.old.ids ++ me.id ∷ [] }) }
        ensures node { IfOk result (λ new. new ≡ record { node = newborn (joined_links me self.old.node.links) (S.limit store); crashed = false; messages = []; counts = no_counts }) }
        ensures back { IfErr result (λ refused. refused.1 ≡ store) }
        ensures kept { OnErr result (numbers.new ≡ numbers.old) }
    {
        if !self.is_member() {
            return Err((JoinFault::Unsettled, store));
        }
        let Ok(links) = join_behind(me, self.node.links()) else {
            return Err((JoinFault::Unsettled, store));
        };
        let Some(seat) = &mut self.seat else {
            unreachable!()
        };
        match numbers.join(table, slot, alloc, links, seat, store) {
            Ok((node, seat)) => Ok(SeatedNode::new(node, seat)),
            Err(store) => Err((JoinFault::Memory, store)),
        }
    }

    /// The node, crashed by force.
    pub fn crash_by_force(self, numbers: &mut Numbers<J>, table: &Shared<J>) -> SeatedNode<J, S>
        requires live { self.crashed ≡ false }
        ensures broken { numbers.new ≡ record numbers.old { premise = false } }
        ensures crashed { result ≡ record self { crashed = true } }
    {
        let SeatedNode {
            node,
            crashed: _,
            seat,
            counts,
        } = self;
        let Some(seat) = seat else { unreachable!() };
        let seat = Some(numbers.crash_by_force(table, seat));
        SeatedNode {
            node,
            crashed: true,
            seat,
            counts,
        }
    }

    /// The node's number.
    pub fn number(&self) -> u64
        ensures { result ≡ self.now.node.number }
    {
        self.node.number()
    }

    /// The node's seat. The node is dropped.
    pub fn into_seat(self) -> NodeSeat<J>
        ensures { result ≡ shown_of self }
    {
        let SeatedNode {
            node,
            crashed: _,
            seat,
            counts: _,
        } = self;
        drop(node);
        let Some(seat) = seat else { unreachable!() };
        seat
    }

    /// Proves that the node is one of some reachable world, for which the theorem holds.
    pub fn look(&mut self, table: &Shared<J>)
        ensures same { self.new ≡ self.old }
        ensures shown { NodeShown (shown_of self.old) }
    {
        let Some(seat) = &mut self.seat else {
            unreachable!()
        };
        seat.look(table);
    }

    /// How the node looks now, which acts or does not.
    pub fn sight(&self, alloc: Global, acts: bool) -> Result<NodeSight, AllocError>
        ensures { IfOk result (λ sight. look_in sight ≡ seated_look acts self.now) }
    {
        let phase = phase_seen(acts, self.crashed, self.node.phase());
        sight_of(alloc, &self.node, self.counts, phase)
    }

    /// The node if it holds the identifier, else its first handover of it, if its outbox has one.
    pub fn holding(&self, id: Id) -> Option<Holder>
        ensures { HoldingIs id.number self.now.node result }
    {
        holding_of(&self.node, id)
    }

    /// A page of the node's pairs from an identifier on, if the node holds that.
    pub fn pairs_from(
        &self,
        alloc: Global,
        first: Id,
        limit: u64,
    ) -> Result<Option<PairsPage>, AllocError>
        requires { 0 < limit }
        ensures page { IfOk result (PairsFromIs first limit self.now.node) }
        ensures other { segment_with first.number self.now.node.held ≡ None → result ≡ Ok None }
    {
        self.node.pairs_from(alloc, first, limit)
    }

    /// Counts a round of upkeep.
    pub fn count_tick(&mut self)
        ensures { self.new ≡ record self.old { counts = counted Ticked self.old.counts } }
    {
        count(&mut self.counts, Deed::Ticked);
    }

    /// What the node knows of the others.
    pub fn links(&self) -> &Links
        ensures { result.now ≡ self.now.node.links }
    {
        self.node.links()
    }

    /// Whether the node crashed.
    pub fn has_crashed(&self) -> bool
        ensures { result ≡ self.now.crashed }
    {
        self.crashed
    }

    /// The node's phase.
    pub fn phase(&self) -> Phase
        ensures { result ≡ self.now.node.phase }
    {
        self.node.phase()
    }

    /// Takes a message in, makes the node's call for it, sends the answer, and counts what the node
    /// did. A message is lost if it is not for the node, or if the node is out of memory.
    pub fn answer(
        &mut self,
        table: &Shared<J>,
        keyed: Keyed<J>,
        journal: &mut JournalBuffer,
    ) -> Option<(Target, Keyed<J>)>
        ensures messages { self.new.messages ≡ self.old.messages ++ keyed.envelope ∷ [] }
        ensures crashed { self.new.crashed ≡ self.old.crashed }
        ensures some { IfSome result (λ sent. IsFor keyed.envelope self.old.node.number × DealIs keyed.envelope self.old.node (Ok (Some (sent.0, sent.1.envelope))) self.new.node) }
        ensures none { IfNone result (SendsNone keyed.envelope self.old.node self.new.node) }
        ensures changed { IfSome result (λ sent.
            JournalIs journal.old (executed_for keyed.envelope self.old.node) journal.new) }
        ensures unchanged { IfNone result (JournalIs journal.old None journal.new) }
        ensures sent { IfSome result (λ sent. self.new.counts ≡ counts_after keyed.envelope (Some sent.1.envelope) self.old.node self.new.node self.old.counts) }
        ensures silent { IfNone result (self.new.counts ≡ counts_after keyed.envelope None self.old.node self.new.node self.old.counts) }
    {
        let came = MessageKind::of(keyed.envelope.message());
        let before = self.node.held_count();
        let sent = self.deal_with(table, keyed, journal);
        let deed = Deed::of(came, kind_sent(&sent), before, self.node.held_count());
        count_if(&mut self.counts, deed);
        sent
    }

    /// Takes a message in, makes the node's call for it, and sends the answer.
    fn deal_with(
        &mut self,
        table: &Shared<J>,
        keyed: Keyed<J>,
        journal: &mut JournalBuffer,
    ) -> Option<(Target, Keyed<J>)>
        ensures messages { self.new.messages ≡ self.old.messages ++ keyed.envelope ∷ [] }
        ensures crashed { self.new.crashed ≡ self.old.crashed }
        ensures some { IfSome result (λ sent. IsFor keyed.envelope self.old.node.number × DealIs keyed.envelope self.old.node (Ok (Some (sent.0, sent.1.envelope))) self.new.node) }
        ensures none { IfNone result (SendsNone keyed.envelope self.old.node self.new.node) }
        ensures changed { IfSome result (λ sent.
            JournalIs journal.old (executed_for keyed.envelope self.old.node) journal.new) }
        ensures unchanged { IfNone result (JournalIs journal.old None journal.new) }
        ensures counts { self.new.counts ≡ self.old.counts }
    {
        let Keyed { envelope, id } = keyed;
        let Some(seat) = &mut self.seat else {
            unreachable!()
        };
        let message = seat.receive(table, envelope);
        if !is_for(&message, self.node.number()) {
            drop(message);
            return None;
        }
        match deal_by_id(&mut self.node, id, message, journal) {
            Ok(Some((target, sent))) => {
                let envelope = seat.send(table, &self.node, sent);
                Some((target, Keyed { envelope, id }))
            }
            Ok(None) => {
                seat.local(table, &self.node);
                None
            }
            Err(_) => None,
        }
    }

    /// Points a finger, counted from 1, at another node.
    pub fn set_finger(&mut self, table: &Shared<J>, finger: usize, to: Peer)
        requires low { 1 ≤ finger }
        requires high { finger ≤ 128 }
        ensures { self.new ≡ with_links (record self.old.node.links { fingers = with_finger self.old.node.links.fingers finger to }) self.old }
    {
        let Some(seat) = &mut self.seat else {
            unreachable!()
        };
        let mut links = *self.node.links();
        links.set_finger(finger, to);
        self.node.set_links(links);
        seat.local(table, &self.node);
    }

    /// Cuts or finds a held segment that is not the node's own, given its predecessor.
    pub fn tidy(&mut self, table: &Shared<J>, predecessor: Id) -> Result<Tidied, AllocError>
        ensures messages { self.new.messages ≡ self.old.messages }
        ensures crashed { self.new.crashed ≡ self.old.crashed }
        ensures counts { self.new.counts ≡ self.old.counts }
        ensures answer { TidyIs predecessor self.old.node result self.new.node }
    {
        let Some(seat) = &mut self.seat else {
            unreachable!()
        };
        let tidied = tidy(&mut self.node, predecessor)?;
        if tidied == Tidied::Cut {
            seat.local(table, &self.node);
        }
        Ok(tidied)
    }

    /// Joins two held segments that adjoin inside the node's own span, given its predecessor.
    pub fn join_adjoining(&mut self, table: &Shared<J>, predecessor: Id) -> Result<bool, AllocError>
        ensures messages { self.new.messages ≡ self.old.messages }
        ensures crashed { self.new.crashed ≡ self.old.crashed }
        ensures counts { self.new.counts ≡ self.old.counts }
        ensures answer { JoinIs predecessor self.old.node result self.new.node }
    {
        let Some(seat) = &mut self.seat else {
            unreachable!()
        };
        let joined = join_adjoining(&mut self.node, predecessor)?;
        if joined {
            seat.local(table, &self.node);
        }
        Ok(joined)
    }

    /// Cuts a piece from the held segment at this index, if that has more pairs.
    fn trim(&mut self, table: &Shared<J>, place: usize, most: u64) -> Result<bool, AllocError>
        ensures messages { self.new.messages ≡ self.old.messages }
        ensures crashed { self.new.crashed ≡ self.old.crashed }
        ensures counts { self.new.counts ≡ self.old.counts }
        ensures answer { TrimIs place most self.old.node result self.new.node }
        ensures err { OnErr result (self.new ≡ self.old) }
    {
        let Some(seat) = &mut self.seat else {
            unreachable!()
        };
        let was_cut = trim(&mut self.node, place, most)?;
        if was_cut {
            seat.local(table, &self.node);
        }
        Ok(was_cut)
    }

    /// The end of the span of the held segment at this index.
    pub fn end_of(&self, place: usize) -> Option<Id>
        ensures { result ≡ end_of (span_of (slice_get self.now.node.held place)) }
    {
        let span = self.node.span(place)?;
        Some(span.upto)
    }

    /// Puts the held segment at this index into the outbox, and sends its first part. Gives the
    /// item's number with it.
    pub fn give(
        &mut self,
        table: &Shared<J>,
        place: usize,
        to: u64,
    ) -> Result<(u64, Envelope<J>), GiveFault>
        ensures messages { self.new.messages ≡ self.old.messages }
        ensures crashed { self.new.crashed ≡ self.old.crashed }
        ensures counts { OnOk result (self.new.counts ≡ counted Gave self.old.counts) }
        ensures ok { IfOk result (λ sent. Gives place to self.old.node sent.0 sent.1 self.new.node) }
        ensures err { IfErr result (λ fault. GiveIs place to self.old.node (Err fault) self.new.node) }
        ensures kept { OnErr result (self.new ≡ self.old) }
    {
        let Some(seat) = &mut self.seat else {
            unreachable!()
        };
        let part = self.node.give(place, to)?;
        let number = part.number;
        let envelope = seat.send(table, &self.node, Message::Part(part));
        count(&mut self.counts, Deed::Gave);
        Ok((number, envelope))
    }

    /// Puts a piece of the held segment at this index into the outbox, or all of it if it has no
    /// more, and sends the first part. A piece has at most `most` pairs, but for more of one
    /// identifier. Gives the item's number with it.
    pub fn give_piece(
        &mut self,
        table: &Shared<J>,
        place: usize,
        to: u64,
        most: u64,
    ) -> Result<(u64, Envelope<J>), GiveFault>
        ensures messages { self.new.messages ≡ self.old.messages }
        ensures crashed { self.new.crashed ≡ self.old.crashed }
        ensures counts { OnOk result (self.new.counts ≡ counted Gave self.old.counts) }
        ensures piece { IfOk result (λ sent. GivesPiece place to most self.old.node sent.0 sent.1 self.new.node) }
        ensures none { IfErr result (λ fault. GivesNone place to most self.old.node fault self.new.node) }
        ensures kept { OnErr result (self.new.counts ≡ self.old.counts) }
    {
        match self.trim(table, place, most) {
            Ok(_) => self.give(table, place, to),
            Err(_) => Err(GiveFault::Memory),
        }
    }

    /// Whether the outbox has an item that goes to this node.
    pub fn gives_to(&self, to: u64) -> bool
        ensures { GivesToIs to self.now.node.outbox result }
    {
        gives_to(&self.node, to)
    }

    /// The receiver and the number of the outbox item at this index, from 0 in the order given.
    pub fn outbox_item(&self, place: u64) -> Option<(u64, u64)>
        ensures { result ≡ address_of (slice_get self.now.node.outbox place) }
    {
        let (to, number, _) = self.node.outbox_item(place)?;
        Some((to, number))
    }

    /// Sends a part of an outbox item again.
    pub fn resend_part(
        &mut self,
        table: &Shared<J>,
        to: u64,
        number: u64,
        part: u64,
    ) -> Result<Envelope<J>, ResendPartFault>
        ensures same { self.new ≡ self.old }
        ensures ok { IfOk result (λ sent. (found : PartOf) × ResendIs to number part self.old.node (Ok found) × (sent ≡ PartMessage found)) }
        ensures err { IfErr result (λ fault. ResendIs to number part self.old.node (Err fault)) }
    {
        let Some(seat) = &mut self.seat else {
            unreachable!()
        };
        let part = self.node.resend_part(to, number, part)?;
        Ok(seat.send(table, &self.node, Message::Part(part)))
    }

    /// Begins to leave.
    pub fn begin_leave(&mut self, table: &Shared<J>) -> Result<(), NotStaying>
        ensures messages { self.new.messages ≡ self.old.messages }
        ensures counts { self.new.counts ≡ self.old.counts }
        ensures crashed { self.new.crashed ≡ self.old.crashed }
        ensures answer { LeaveIs self.old.node result self.new.node }
    {
        let Some(seat) = &mut self.seat else {
            unreachable!()
        };
        self.node.begin_leave()?;
        seat.local(table, &self.node);
        Ok(())
    }

    /// Begins to hand over what the node holds, as one that leaves.
    pub fn rescue(&mut self, table: &Shared<J>)
        ensures { self.new ≡ rescued self.old }
    {
        let Some(seat) = &mut self.seat else {
            unreachable!()
        };
        if self.node.begin_leave().is_ok() {
            seat.local(table, &self.node);
        }
    }

    /// A node that crashed and was rescued is gone, if it holds nothing and has an empty outbox. It
    /// is no member, so the ring is not asked.
    pub fn retire_rescued(&mut self, table: &Shared<J>) -> Result<(), RetireFault>
        requires crashed { self.old.crashed ≡ true }
        ensures messages { self.new.messages ≡ self.old.messages }
        ensures counts { self.new.counts ≡ self.old.counts }
        ensures crashed { self.new.crashed ≡ self.old.crashed }
        ensures answer { RetireIs self.old.node result self.new.node }
    {
        let Some(seat) = &mut self.seat else {
            unreachable!()
        };
        self.node.retire()?;
        seat.local(table, &self.node);
        Ok(())
    }

    /// Why the node would not depart so now, if it is the one that is to.
    pub(crate) fn departure_fault(&self, departure: Departure) -> Option<DepartFault>
        ensures other { number_of departure ≢ self.now.node.number → result ≡ None }
        ensures crash { departure ≡ Crash self.now.node.number → CrashFaultIs self.now result }
        ensures retire { departure ≡ Retire self.now.node.number → RetireFaultIs self.now result }
    {
        if departure.number() != self.node.number() {
            return None;
        }
        match departure {
            Departure::Crash(_) if !self.is_member() => Some(DepartFault::NotLive),
            Departure::Crash(_) => None,
            Departure::Retire(_) => self.retire_fault(),
        }
    }

    /// Why the node would not retire now.
    fn retire_fault(&self) -> Option<DepartFault>
        ensures { RetireFaultIs self.now result }
    {
        if self.crashed || self.node.phase() != Phase::Leaving {
            return Some(DepartFault::NotLeaving);
        }
        if self.node.held_count() != 0 || self.node.outbox_len() != 0 {
            return Some(DepartFault::NotEmpty);
        }
        None
    }
}
