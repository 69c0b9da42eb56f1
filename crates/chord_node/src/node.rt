//! A node with one store.
ghost use Rattle.std.specs.Prelude.{◌≡◌, ◌≢◌, ◌≤◌, ◌<◌, true, false, Ok, Some, None, [], length, slice_get, position, is_some, IfOk, IfErr, OnErr};
ghost use Rattle.std.specs.Option.{option_copied};
ghost use Rattle.chord_ident.specs.Circle.{in_span};
ghost use Rattle.chord_links.specs.NodeLinks.{alone};
ghost use Rattle.chord_segment.specs.Marks.{mark_of};
ghost use Rattle.chord_segment.specs.Segment.{RoomySegment, id_of};
ghost use Rattle.chord_model.specs.declared.message.Message.TheVariants.{Got as GotMessage};
ghost use Rattle.chord_model.specs.declared.phase.Phase.TheVariants.{Gone};
ghost use Rattle.chord_model.specs.Node.{newborn, founder, segment_with, NodeStep};
ghost use Rattle.chord_node.specs.View.{span_of, segment_shown, item_view, pairs_of_item};
ghost use Rattle.chord_node.specs.Asked.{AskIs, AskRecords, AskSteps, AskStepsRecording, Journals, ask_done};
ghost use Rattle.chord_node.specs.Moves.{MoveSteps, SendSteps, CutAtIs, MergeIs, MayGive, GiveIs, ResendIs, LeaveIs, RetireIs};
ghost use Rattle.chord_node.specs.Pages.{PairsFromIs};
ghost use Rattle.chord_node.specs.Pieces.{CutAfterIs};
ghost use Rattle.chord_node.specs.Received.{PartIs, PartSteps, GotIs, BackIs, BackSteps};

use crate::asks::answered::Answered;
use crate::asks::execute::answer_in;
use crate::asks::pass_on::pass_on;
use crate::asks::take::{answer_taken, pass_taken};
use crate::fault::{CutAtFault, GiveFault, MergeFault, NotStaying, ResendPartFault, RetireFault};
use crate::handovers::give::prepare_give;
use crate::handovers::held::{cut_segment, merge_segments};
use crate::handovers::hold::{PutFault, make_held};
use crate::handovers::part_answer::{Back, PartAnswer};
use crate::handovers::take_in::take_next;
use crate::pages::{PairsPage, page_of, rest_from};
use chord_caller::Ask;
use chord_handover::{Declined, Got, Outbox, Part, Payload, Taken, Ticket, Verdict};
use chord_ident::{Id, Span};
use chord_journal::JournalBuffer;
use chord_links::{Links, Peer};
use chord_map::Done;
use chord_model::Phase;
use chord_segment::Segment;
use chord_store::EntryStore;
use std::alloc::{AllocError, Global};
use std::marker::Model;

/// A node: its links, its held segments with their entries in its store, and its handovers.
#[derive(Drop)]
pub struct Node<S: EntryStore> {
    alloc: Global,
    phase: Phase,
    links: Links,
    held: Vec<Segment>,
    /// `None` once the node is gone.
    store: Option<S>,
    outbox: Outbox,
    taken: Taken,
}

impl<S: EntryStore> Model for Node<S> {
    ghost use Rattle.chord_model.specs.Node.{Node as NodeOf};
    ghost use Rattle.chord_node.specs.View.{segments_of, entries_in, limit_in};
    ghost use Rattle.chord_node.specs.Rules.{IsNode};

    ghost Value = { NodeOf };

    ghost view = { λ a. record { number = a.links.me.number; phase = a.phase; links = a.links; held = segments_of a.held.items; entries = entries_in S.content a.store; limit = limit_in S.limit a.store; given = a.outbox.outbox.given; outbox = a.outbox.outbox.items; taken = a.taken.taken.last; buffered = a.taken.taken.buffered } };

    ghost invariant = { λ a. IsNode S.content a.phase a.links.me.number (segments_of a.held.items) a.store a.outbox.outbox };
}

/// The index of the held segment whose span contains x.
fn place_with(held: &[Segment], x: Id) -> Option<usize>
    ensures { result ≡ position (λ (segment : RoomySegment). in_span segment.segment.span x.number) held.now }
{
    held.iter().position(|segment| segment.span().contains(x))
}

impl<S: EntryStore> Node<S> {
    /// The first node of a ring, which holds the whole
    /// circle. If memory runs out it gives the store back.
    pub fn found(alloc: Global, me: Peer, r: usize, store: S) -> Result<Node<S>, S>
        requires low { 2 ≤ r }
        requires high { r ≤ 16 }
        requires vacant { S.content store ≡ [] }
        ensures ok { IfOk result (λ node. node ≡ founder (alone me r) (S.limit store)) }
        ensures err { IfErr result (λ back. back ≡ store) }
    {
        let mut held = Vec::new(alloc);
        let whole = Segment::empty(alloc, Span::new(me.id, me.id));
        let outbox = Outbox::new(alloc, me.number);
        match held.push(whole) {
            Ok(()) => Ok(Node {
                alloc,
                phase: Phase::Staying,
                links: Links::alone(me, r),
                held,
                store: Some(store),
                outbox,
                taken: Taken::new(alloc),
            }),
            Err(_) => Err(store),
        }
    }

    /// A node with these links that holds nothing yet.
    pub fn newborn(alloc: Global, links: Links, store: S) -> Node<S>
        requires { S.content store ≡ [] }
        ensures { result ≡ newborn links (S.limit store) }
    {
        let outbox = Outbox::new(alloc, links.me().number);
        Node {
            alloc,
            phase: Phase::Staying,
            links,
            held: Vec::new(alloc),
            store: Some(store),
            outbox,
            taken: Taken::new(alloc),
        }
    }

    /// Answers a call. For a key that the node holds: the reply, for the first time or again, or
    /// Full if its store has no room for the pair to add. A call for another key is passed on or
    /// dropped. If the call was executed, a copy of it with its reply is given too.
    pub fn on_ask(&mut self, ask: &Ask) -> Result<(Answered, Option<Done>), AllocError>
        ensures answer { AskRecords ask.now true self.old result self.new }
        ensures step { AskStepsRecording ask.now self.old result self.new }
    {
        let x = Id::of_bytes(ask.request.key());
        let Some(place) = place_with(&self.held, x) else {
            match pass_on(&self.links, ask, x) {
                Ok(passed) => return Ok((passed, None)),
                Err(fault) => return Err(fault),
            }
        };
        let segment = &mut self.held[place];
        let store = self.store.as_mut().unwrap();
        answer_in(self.alloc, segment, store, x, ask)
    }

    /// Answers a call that it owns, with its key's identifier, as `on_ask`
    /// does. It computes no digest and copies no request, so it can run out
    /// of memory only if the node holds the key; then it drops the call.
    pub fn take_ask(
        &mut self,
        id: Id,
        ask: Ask,
        journal: &mut JournalBuffer,
    ) -> Result<Answered, AllocError>
        requires { id.number ≡ id_of ask.request }
        ensures answer { AskIs ask self.old result self.new }
        ensures step { AskSteps ask self.old result self.new }
        ensures holds { OnErr result (is_some (segment_with (id_of ask.request) self.old.held) ≡ true) }
        ensures journal { Journals result (ask_done ask self.old) journal.old journal.new }
    {
        let (told, _) = self.answer_at(id, ask, journal)?;
        Ok(told)
    }

    /// Answers a call that it owns, with its key's identifier.
    fn answer_at(
        &mut self,
        id: Id,
        ask: Ask,
        journal: &mut JournalBuffer,
    ) -> Result<(Answered, Option<Done>), AllocError>
        requires { id.number ≡ id_of ask.request }
        ensures answer { AskRecords ask false self.old result self.new }
        ensures step { AskStepsRecording ask self.old result self.new }
        ensures holds { OnErr result (is_some (segment_with (id_of ask.request) self.old.held) ≡ true) }
        ensures journal { Journals result (ask_done ask self.old) journal.old journal.new }
    {
        let Some(place) = place_with(&self.held, id) else {
            return Ok((pass_taken(&self.links, ask, id), None));
        };
        let segment = &mut self.held[place];
        let store = self.store.as_mut().unwrap();
        answer_taken(self.alloc, segment, store, id, ask, journal)
    }

    /// The node's number.
    pub fn number(&self) -> u64
        ensures { result ≡ self.now.number }
    {
        self.links.me().number
    }

    /// What the node knows of other nodes.
    pub fn links(&self) -> &Links
        ensures { result.now ≡ self.now.links }
    {
        &self.links
    }

    /// Sets the links. They are of the same node, and list as many successors at most.
    pub fn set_links(&mut self, links: Links)
        requires me { links.me ≡ self.old.links.me }
        requires r { links.r ≡ self.old.links.r }
        ensures value { self.new ≡ record self.old { links = links } }
        ensures step { NodeStep self.old None self.new None None }
    {
        self.links = links;
    }

    /// The phase of the node.
    pub fn phase(&self) -> Phase
        ensures { result ≡ self.now.phase }
    {
        self.phase
    }

    /// The span of the held segment at this index.
    pub fn span(&self, place: usize) -> Option<Span>
        ensures { result ≡ span_of (slice_get self.now.held place) }
    {
        let segment = self.segment(place)?;
        Some(segment.span())
    }

    /// The held segment at this index.
    pub fn segment(&self, place: usize) -> Option<&Segment>
        ensures { segment_shown (option_copied result) ≡ slice_get self.now.held place }
    {
        self.held.get(place)
    }

    /// Whether the node holds the identifier.
    pub fn holds(&self, x: Id) -> bool
        ensures { result ≡ is_some (segment_with x.number self.now.held) }
    {
        place_with(&self.held, x).is_some()
    }

    /// The last number taken from a sender, 0 at first.
    pub fn last_taken(&self, from: u64) -> u64
        ensures { result ≡ mark_of from self.now.taken }
    {
        self.taken.last(from)
    }

    /// The number of held segments.
    pub fn held_count(&self) -> usize
        ensures { result ≡ length self.now.held }
    {
        self.held.len()
    }

    /// The number of items in the outbox.
    pub fn outbox_len(&self) -> usize
        ensures { result ≡ length self.now.outbox }
    {
        self.outbox.len()
    }

    /// The receiver, the number and the span of item `i`
    /// of the outbox, counted from 0 in the order given.
    pub fn outbox_item(&self, i: u64) -> Option<(u64, u64, Span)>
        ensures { result ≡ item_view (slice_get self.now.outbox i) }
    {
        let (to, number) = self.outbox.nth(i)?;
        let payload = self.outbox.nth_payload(i)?;
        Some((to, number, payload.segment().span()))
    }

    /// How many pairs item `i` of the outbox has.
    pub fn outbox_pairs(&self, i: u64) -> Option<usize>
        ensures { result ≡ pairs_of_item (slice_get self.now.outbox i) }
    {
        let payload = self.outbox.nth_payload(i)?;
        Some(payload.pairs().len())
    }

    /// How many pairs the store has; 0 once the node is gone.
    pub fn pair_count(&self) -> u64
        ensures { result ≡ length self.now.entries }
    {
        match &self.store {
            Some(store) => store.count(),
            None => 0,
        }
    }

    /// Where a cut of the span leaves at least `n` and at most `most` of the node's pairs before
    /// it; or else where the first cut leaves at least `n`, or none if no cut does.
    pub fn cut_after(&self, span: &Span, n: u64, most: u64) -> Option<Id>
        requires { 0 < n }
        ensures { CutAfterIs span.now n most self.now.entries result }
    {
        match &self.store {
            Some(store) => store.cut_after(span, n, most),
            None => None,
        }
    }

    /// A page of the node's pairs from the identifier `first` on, if the node holds that. It has at
    /// least `limit` pairs, or all that the held segment has up to the greatest identifier. The
    /// last identifier alone may bring it above `limit`.
    pub fn pairs_from(
        &self,
        alloc: Global,
        first: Id,
        limit: u64,
    ) -> Result<Option<PairsPage>, AllocError>
        requires { 0 < limit }
        ensures page { IfOk result (PairsFromIs first limit self.now) }
        ensures other { segment_with first.number self.now.held ≡ None → result ≡ Ok None }
    {
        let Some(place) = place_with(&self.held, first) else {
            return Ok(None);
        };
        let span = rest_from(first, self.held[place].span());
        let store = self.store.as_ref().unwrap();
        let page = page_of(alloc, store, &span, limit)?;
        Ok(Some(page))
    }

    /// A part of an item of the outbox, to be sent again.
    pub fn resend_part(&self, to: u64, number: u64, part: u64) -> Result<Part, ResendPartFault>
        ensures answer { ResendIs to number part self.now result }
        ensures step { SendSteps self.now result self.now }
    {
        match self.outbox.part(to, number, part) {
            Ok(Some(found)) => Ok(found),
            Ok(None) => Err(ResendPartFault::NoPart),
            Err(_) => Err(ResendPartFault::Memory),
        }
    }

    /// The receiver took a handover: its item leaves
    /// the outbox. Answers whether the item was there.
    pub fn on_got(&mut self, got: &Got) -> bool
        requires from { got.now.from ≡ self.old.number }
        ensures answer { GotIs got.now self.old result self.new }
        ensures step { NodeStep self.old (Some (GotMessage got.now)) self.new None None }
    {
        let freed = self.outbox.got(got.to, got.number);
        freed.is_some()
    }

    /// Cuts the held segment at this index. The part behind the point gets the next index.
    pub fn cut_at(&mut self, place: usize, at: Id) -> Result<(), CutAtFault>
        ensures answer { CutAtIs place at self.old result self.new }
        ensures step { MoveSteps self.old result self.new }
    {
        cut_segment(&mut self.held, place, at)
    }

    /// Joins the held segment at `other` behind the one at `place`, at that index.
    pub fn merge(&mut self, place: usize, other: usize) -> Result<(), MergeFault>
        ensures answer { MergeIs place other self.old result self.new }
        ensures step { MoveSteps self.old result self.new }
    {
        merge_segments(self.alloc, &mut self.held, place, other)
    }

    /// Whether the held segment at this index may be given, apart from memory.
    pub fn may_give(&self, place: usize, to: u64) -> Result<(), GiveFault>
        ensures { MayGive place to self.now result }
    {
        if self.held.len() <= place {
            return Err(GiveFault::NoSegment);
        }
        if self.outbox.next_number(to).is_none() {
            return Err(GiveFault::NumbersSpent);
        }
        Ok(())
    }

    /// Puts the held segment at this index into the outbox with
    /// its pairs, and gives the first part of the handover.
    pub fn give(&mut self, place: usize, to: u64) -> Result<Part, GiveFault>
        ensures answer { GiveIs place to self.old result self.new }
        ensures step { SendSteps self.old result self.new }
    {
        if self.held.len() <= place {
            return Err(GiveFault::NoSegment);
        }
        let Some(number) = self.outbox.next_number(to) else {
            return Err(GiveFault::NumbersSpent);
        };
        let from = self.links.me().number;
        let store = self.store.as_mut().unwrap();
        let ticket = Ticket { from, to, number };
        let Ok((part, pairs)) = prepare_give(self.alloc, store, &self.held[place], ticket) else {
            return Err(GiveFault::Memory);
        };
        if self.outbox.reserve().is_err() {
            drop(part);
            drop(pairs);
            return Err(GiveFault::Memory);
        }
        let segment = self.held.remove(place);
        store.drop_copied(&segment.span(), &pairs);
        match self.outbox.give(to, Payload::new(segment, pairs)) {
            Ok(_) => Ok(part),
            Err(_) => unreachable!(),
        }
    }

    /// Answers a part of a handover: buffers it, or takes the handover if the part makes it whole.
    pub fn on_give(&mut self, part: &Part) -> Result<PartAnswer, AllocError>
        requires to { part.now.to ≡ self.old.number }
        ensures answer { PartIs part.now self.old result self.new }
        ensures step { PartSteps part.now self.old result self.new }
    {
        let verdict = self.taken.judge(part.from, part.number);
        if verdict == Verdict::Again {
            return Ok(PartAnswer::Got);
        }
        if self.phase == Phase::Gone {
            return Ok(PartAnswer::Declined);
        }
        if verdict == Verdict::Early {
            return Ok(PartAnswer::Early);
        }
        let store = self.store.as_mut().unwrap();
        take_next(&mut self.held, store, &mut self.taken, part)
    }

    /// The receiver declined a handover: its segment is held again.
    pub fn on_declined(&mut self, declined: &Declined) -> Result<Back, AllocError>
        requires from { declined.now.from ≡ self.old.number }
        ensures answer { BackIs declined.now self.old result self.new }
        ensures step { BackSteps declined.now self.old result self.new }
    {
        let Some(payload) = self.outbox.item(declined.to, declined.number) else {
            return Ok(Back::Unknown);
        };
        let store = self.store.as_mut().unwrap();
        match make_held(&mut self.held, store, payload) {
            Ok(()) => {}
            Err(PutFault::Clash) => return Ok(Back::Clash),
            Err(PutFault::Full) => return Ok(Back::Full),
            Err(PutFault::Memory) => return Err(AllocError),
        }
        let Some(back) = self.outbox.declined(declined.to, declined.number) else {
            unreachable!()
        };
        let (segment, pairs) = back.into_parts();
        drop(pairs);
        self.held.push_reserved(segment);
        Ok(Back::Held)
    }

    /// The node begins to leave.
    pub fn begin_leave(&mut self) -> Result<(), NotStaying>
        ensures answer { LeaveIs self.old result self.new }
        ensures step { MoveSteps self.old result self.new }
    {
        if self.phase != Phase::Staying {
            return Err(NotStaying);
        }
        self.phase = Phase::Leaving;
        Ok(())
    }

    /// The node is gone. It drops its store, which is empty, and its buffered parts.
    pub fn retire(&mut self) -> Result<(), RetireFault>
        ensures answer { RetireIs self.old result self.new }
        ensures step { MoveSteps self.old result self.new }
    {
        if self.phase != Phase::Leaving {
            return Err(RetireFault::NotLeaving);
        }
        let holds_none = self.held.is_empty();
        let gives_none = self.outbox.is_empty();
        if !holds_none || !gives_none {
            return Err(RetireFault::NotEmpty);
        }
        self.store = None;
        self.taken.forget_buffered();
        self.phase = Phase::Gone;
        Ok(())
    }

    /// The store of a node that is no longer needed.
    pub fn into_store(self) -> S
        requires { self.phase ≢ Gone }
        ensures content { S.content result ≡ self.entries }
        ensures limit { S.limit result ≡ self.limit }
    {
        self.store.unwrap()
    }
}
